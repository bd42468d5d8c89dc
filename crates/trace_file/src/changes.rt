//! The calls that may change a table, as values, and the table that a list of them makes.
ghost use Rattle.std.specs.Prelude.{◌≡◌};
ghost use Rattle.trace.specs.Traces.{WellFormed};
ghost use Rattle.trace_file.specs.Made.{change_answer, changed, made};

use crate::reader::load;
use trace::table::Table;

/// A call that may change a table.
#[derive(Drop)]
pub enum Change {
    /// Sets the numbers of processors and of variables.
    Size {
        processors: u8,
        variables: u8,
    },
    /// Adds an operation at the end of a processor.
    Record {
        processor: u8,
        kind: u8,
        variable: u8,
        source: u16,
        value: u32,
    },
    /// Removes the last operation of a processor.
    Strike {
        processor: u8,
    },
    /// Replaces the trace by a file's.
    Load {
        bytes: Vec<u8>,
    },
}

/// Makes one call on a table, and gives its answer.
pub fn apply(table: &mut Table, change: &Change) -> (u8, u16)
    ensures answer { result ≡ change_answer table.old change.now }
    ensures after { table.new ≡ changed table.old change.now }
    ensures formed { WellFormed table.new }
{
    match change {
        Change::Size {
            processors,
            variables,
        } => table.size(*processors, *variables),
        Change::Record {
            processor,
            kind,
            variable,
            source,
            value,
        } => { table.record(*processor, *kind, *variable, *source, *value) }
        Change::Strike { processor } => table.strike(*processor),
        Change::Load { bytes } => load(table, bytes.as_slice()),
    }
}

/// Makes a list of calls on a fresh table, and gives the table.
pub fn play(changes: &[Change]) -> Table
    ensures value { result ≡ made changes.now }
    ensures formed { WellFormed result }
{
    let mut table = Table::new();
    for change in changes {
        apply(&mut table, change);
    }
    table
}
