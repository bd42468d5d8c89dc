//! The lines of the text.
ghost use Rattle.std.specs.Prelude.{◌≡◌, IfOk, string_bytes};
ghost use Rattle.judge_text.specs.Lines.{refused_line, view_line};

use std::alloc::{AllocError, Global};
use std::fmt::Write;

/// Gives the line of a refusal.
pub(crate) fn refused_line(alloc: Global, refusal: u8, place: u16) -> Result<String, AllocError>
    ensures { IfOk result (λ s. string_bytes s ≡ refused_line refusal place) }
{
    format!(in alloc; "refused {refusal} at {place}\n")
}

/// Gives the line of a view.
pub(crate) fn view_line(alloc: Global, view: u8, numbers: &[u16]) -> Result<String, AllocError>
    ensures { IfOk result (λ s. string_bytes s ≡ view_line view numbers.now) }
{
    let mut line = format!(in alloc; "view {view}:")?;
    for number in numbers {
        write!(line, " {number}")?;
    }
    line.push('\n')?;
    Ok(line)
}
