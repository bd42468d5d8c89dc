//! The calls that are played for a file, and the text of their answers.
ghost use Rattle.std.specs.Prelude.{◌≡◌, ◌++◌, IfOk, string_bytes, codes};
ghost use Rattle.std.specs.List.{flat_map};
ghost use Rattle.judge_text.specs.Asked.{AsksView, Asked, shown_line, answers_text};
ghost use Rattle.judge_text.specs.Told.{FileTold};

use crate::lines::{refused_line, view_line};
use judge::calls::{Call, Played};
use judge::running::run;
use letters::Visitor;
use models::model::MemoryModel;
use std::alloc::{AllocError, Global};
use trace_file::changes::Change;

// A view has no more than 64 operations.
fn view_call(alloc: Global, view: u8) -> Result<Call, AllocError>
    ensures { IfOk result (λ c. AsksView view c) }
{
    Ok(Call::View {
        view,
        slots: vec![in alloc; 0u16; 64]?,
    })
}

// The file is loaded, judged, and each view is asked for: no model has more than 16.
fn calls(alloc: Global, file: &[u8]) -> Result<Vec<Call>, AllocError>
    ensures { IfOk result (λ calls. Asked file.now 16 calls.items) }
{
    let bytes = Vec::from_slice(alloc, file)?;
    let load = Call::Change(Change::Load { bytes });
    let mut calls = vec![in alloc; load, Call::Judge]?;
    for view in 1..=16 {
        calls.push(view_call(alloc, view)?)?;
    }
    Ok(calls)
}

// A view that was not shown is no view of the model, and has no line.
fn shown_line(alloc: Global, played: &Played) -> Result<String, AllocError>
    ensures { IfOk result (λ s. string_bytes s ≡ shown_line played.now) }
{
    match &played.call {
        Call::View { view, slots } if played.refusal == 0 => {
            let shown = slots.len().min(usize::from(played.value));
            view_line(alloc, *view, &slots.as_slice()[..shown])
        }
        _ => Ok(String::new(alloc)),
    }
}

// The first line, and a line for each view that was shown.
fn legal_text(alloc: Global, views: &[Played]) -> Result<String, AllocError>
    ensures { IfOk result (λ s. string_bytes s ≡ codes "legal\n" ++ flat_map shown_line views.now) }
{
    let mut text = String::from_str(alloc, "legal\n")?;
    for played in views {
        let line = shown_line(alloc, played)?;
        text.push_str(line.as_str())?;
    }
    Ok(text)
}

// The answers are those to load, to judge and to the views.
fn answers_text(alloc: Global, answers: &[Played]) -> Result<String, AllocError>
    ensures { IfOk result (λ s. string_bytes s ≡ answers_text answers.now) }
{
    let [load, judge, views @ ..] = answers else {
        return Ok(String::new(alloc));
    };
    if load.refusal != 0 {
        return refused_line(alloc, load.refusal, load.value);
    }
    if judge.refusal != 0 {
        return refused_line(alloc, judge.refusal, judge.value);
    }
    if judge.value == 0 {
        return String::from_str(alloc, "illegal\n");
    }
    legal_text(alloc, views)
}

// Gives the text for a model and a file.
fn judged<M: MemoryModel + Drop>(alloc: Global, model: M, file: &[u8]) -> Result<String, AllocError>
    ensures { IfOk result (λ s. FileTold (M.MemoryModel.meaning model) file.now (string_bytes s)) }
{
    let answers = run(alloc, model, calls(alloc, file)?)?;
    answers_text(alloc, answers.as_slice())
}

/// A file whose text is asked for.
#[derive(Clone, Copy)]
pub(crate) struct Asking<'a> {
    pub(crate) alloc: Global,
    pub(crate) file: &'a [u8],
}

impl Visitor for Asking<'_> {
    type Output = Result<String, AllocError>;

    ghost gives = { λ self m r. IfOk r (λ s. FileTold m self.file.now (string_bytes s)) };

    /// Gives the text for a model and the file.
    fn visit<M: MemoryModel + Drop>(self, model: M) -> Result<String, AllocError> {
        judged(self.alloc, model, self.file)
    }
}
