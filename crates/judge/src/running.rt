//! Whole runs: a list of calls, played on a fresh judge.
ghost use Rattle.std.specs.Prelude.{IfOk};
ghost use Rattle.judge.specs.Law.{Law};

use crate::calls::{Call, Played};
use crate::judging::Judge;
use models::model::MemoryModel;
use std::alloc::{AllocError, Global};

/// Plays calls, first to last, on a judge just made with a model, and gives back what comes of each.
pub fn run<M: MemoryModel + Drop>(
    alloc: Global,
    model: M,
    calls: Vec<Call>,
) -> Result<Vec<Played>, AllocError>
    ensures { IfOk result (λ answers. Law (M.MemoryModel.meaning model) calls.items answers.items) }
{
    let mut judge = Judge::new(model);
    let mut answers = Vec::new(alloc);
    for call in calls {
        answers.push(judge.play(call))?;
    }
    Ok(answers)
}
