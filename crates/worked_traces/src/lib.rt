//! Worked traces, for the programs of cases.
#![tactic(auto)]

ghost use Rattle.std.specs.Prelude.{◌≡◌};
ghost use Rattle.trace.specs.Traces.{empty_trace};
ghost use Rattle.trace.specs.Calls.{size_after};
ghost use Rattle.orders.specs.Verdicts.{store_buffering, opposite_readers};
ghost use Rattle.worked_traces.specs.Full.{full, written};

use trace::table::Table;

/// Gives a table of some size with nothing recorded, or of the first size where there is no such one.
pub fn sized(processors: u8, variables: u8) -> Table
    ensures { result ≡ size_after (empty_trace 1 1) processors variables }
{
    let mut table = Table::new();
    let _ = table.size(processors, variables);
    table
}

/// 101 writes a 1, 102 writes c 0, 103 reads b from the start; 201 writes b 1, 202 writes c 2, 203 reads a from the start.
pub fn store_buffering() -> Table
    ensures { result ≡ store_buffering }
{
    let mut table = sized(2, 3);
    let _ = table.record(1, 2, 1, 0, 1);
    let _ = table.record(1, 2, 3, 0, 0);
    let _ = table.record(1, 1, 2, 0, 0);
    let _ = table.record(2, 2, 2, 0, 1);
    let _ = table.record(2, 2, 3, 0, 2);
    let _ = table.record(2, 1, 1, 0, 0);
    table
}

/// 101 writes x 1, 201 writes x 2; 301 and 302 read the first and then the second, 401 and 402 the other way round.
pub fn opposite_readers() -> Table
    ensures { result ≡ opposite_readers }
{
    let mut table = sized(4, 1);
    let _ = table.record(1, 2, 1, 0, 1);
    let _ = table.record(2, 2, 1, 0, 2);
    let _ = table.record(3, 1, 1, 101, 1);
    let _ = table.record(3, 1, 1, 201, 2);
    let _ = table.record(4, 1, 1, 201, 2);
    let _ = table.record(4, 1, 1, 101, 1);
    table
}

// Writes 7 eight times to variable 1.
fn write_eight(table: &mut Table, processor: u8)
    ensures { table.new ≡ written processor 8 table.old }
{
    for _ in 0..8u8 {
        let _ = table.record(processor, 2, 1, 0, 7);
    }
}

/// Eight processors with eight writes each, of one variable.
pub fn full() -> Table
    ensures { result ≡ full }
{
    let mut table = sized(8, 1);
    for processor in 1..=8 {
        write_eight(&mut table, processor);
    }
    table
}
