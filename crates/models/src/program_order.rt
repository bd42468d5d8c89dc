//! Program order, which every base model requires.
ghost use Rattle.std.specs.Prelude.{◌≡◌, Decides};
ghost use Rattle.trace.specs.Traces.{ProgramOrder};

use trace::table::Table;

// Whether both operations are there, on one processor, and the first has the lower position.
pub(crate) fn in_program_order(table: &Table, first: u16, second: u16) -> bool
    ensures { Decides result (ProgramOrder table.now first second) }
{
    first / 100 == second / 100
        && first % 100 < second % 100
        && table.operation(first).is_some()
        && table.operation(second).is_some()
}
