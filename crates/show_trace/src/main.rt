//! Reads a trace file from standard input and prints what is in it.
#![tactic(auto)]

ghost use Rattle.std.specs.Prelude.{◌≤◌, IfOk};

use std::io;
use std::io::Read;
use trace::operation::{Kind, Operation};
use trace::table::Table;
use trace_file::reader::read;

// Fills the buffer from standard input, as far as that goes, and gives how much of it is filled.
// No byte past the 530th can alter what is read of a file.
fn fill(rt: &HostRuntime, input: &mut [u8; 530]) -> io::Result<usize>
    ensures { IfOk result (λ n. n ≤ 530) }
{
    let mut stdin = rt.stdin();
    let mut filled = 0;
    for _ in 0..530 {
        let more = stdin.read(&mut input[filled..])?;
        if more == 0 {
            break;
        }
        filled += more;
    }
    Ok(filled)
}

// Prints an operation with its number.
fn show_operation(rt: &HostRuntime, number: usize, operation: &Operation) -> io::Result<()> {
    let Operation {
        kind,
        variable,
        source,
        value,
    } = *operation;
    match kind {
        Kind::Write => println!(rt; "  {number} write variable {variable}, value {value}"),
        Kind::Read if source == 0 => println!(rt;
            "  {number} read variable {variable}, value {value}, from the start"
        ),
        Kind::Read => println!(rt;
            "  {number} read variable {variable}, value {value}, from {source}"
        ),
    }
}

// Prints the operations of a processor.
fn show_lane(rt: &HostRuntime, table: &Table, processor: u8) -> io::Result<()> {
    println!(rt; "processor {processor}")?;
    for (place, operation) in table.lane(processor).iter().enumerate() {
        show_operation(rt, 100 * usize::from(processor) + place + 1, operation)?;
    }
    Ok(())
}

// Prints whether the trace is complete, and otherwise the first read that does not fit.
fn show_completeness(rt: &HostRuntime, table: &Table) -> io::Result<()> {
    match table.completeness() {
        (0, _) => println!(rt; "complete"),
        (9, read) => println!(rt;
            "not complete: the source of read {read} is not there, or is no write (9)"
        ),
        (10, read) => println!(rt;
            "not complete: the source of read {read} has another variable (10)"
        ),
        (_, read) => println!(rt;
            "not complete: read {read} has another value than its source (11)"
        ),
    }
}

// Prints a trace.
fn show(rt: &HostRuntime, table: &Table) -> io::Result<()> {
    let processors = table.processors();
    let variables = table.variables();
    let operations = table.total();
    println!(rt; "processors {processors}, variables {variables}, operations {operations}")?;
    for processor in 1..=processors {
        show_lane(rt, table, processor)?;
    }
    show_completeness(rt, table)
}

fn main(rt: HostRuntime) -> io::Result<()> {
    let mut input = [0u8; 530];
    let filled = fill(&rt, &mut input)?;
    match read(&input[..filled]) {
        Ok(table) => show(&rt, &table),
        Err(fault) => println!(rt; "refused {} at {}", fault.number(), fault.place()),
    }
}
