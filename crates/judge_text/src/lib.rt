//! The text that is printed for letters and a trace file.
#![tactic(auto)]

ghost use Rattle.std.specs.Prelude.{IfOk, string_bytes};
ghost use Rattle.judge_text.specs.Told.{Told, Settled, Enough};

use crate::asking::Asking;
use crate::lines::refused_line;
use crate::parting::parted;
use letters::Letters;
use std::alloc::{AllocError, Global};

mod asking;
mod lines;
mod parting;

/// Gives the text that is printed for an input: letters up to the first byte 10, and then a trace file.
#[tactic(auto, using(crate::proofs::Settling::told_once, crate::proofs::Reaching::reaches, crate::specs::Told::unended, crate::specs::Told::unnamed, crate::specs::Told::named))]
pub fn text(alloc: Global, input: &[u8]) -> Result<String, AllocError>
    ensures told { IfOk result (λ s. Told input.now (string_bytes s)) }
    ensures settled { Settled input.now }
    ensures enough { Enough input.now }
{
    let Some((letters, file)) = parted(input) else {
        return refused_line(alloc, 17, 0);
    };
    match Letters::try_from(letters) {
        Ok(letters) => letters.visit(Asking { alloc, file }),
        Err(_) => refused_line(alloc, 17, 0),
    }
}
