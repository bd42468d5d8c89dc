//! The steps of a case, and what is printed of each.
use std::io;
use trace::table::Table;
use trace_file::reader::load;
use trace_file::writer::save;

/// A call with its arguments, or a look at the table.
#[derive(Clone, Copy, Debug)]
pub enum Step {
    /// Processors, variables.
    Size(u8, u8),
    /// Processor, kind (1 for a read, 2 for a write), variable, source, value.
    Record(u8, u8, u8, u16, u32),
    /// Processor, and how many writes of 7 to variable 1; the answer is the last one's.
    Writes(u8, u8),
    /// Processor.
    Strike(u8),
    /// The file.
    Load(&'static [u8]),
    /// How many bytes there are for the file, 530 at most.
    Save(usize),
    Completeness,
    /// The sizes, and how many operations there are.
    Look,
    /// The operation of this number.
    At(u16),
}

/// What a case shows, and its steps on a fresh table.
pub type Case = (&'static str, &'static [Step]);

// Records so many writes, and gives the last one's answer.
fn writes(table: &mut Table, processor: u8, count: u8) -> (u8, u16) {
    let mut answer = (0, 0);
    for _ in 0..count {
        answer = table.record(processor, 2, 1, 0, 7);
    }
    answer
}

// Tells how large a table is.
fn look(rt: &HostRuntime, table: &Table) -> io::Result<()> {
    println!(rt;
        "{} processors, {} variables, {} operations",
        table.processors(),
        table.variables(),
        table.total()
    )
}

// Prints the operation of a number.
fn look_at(rt: &HostRuntime, table: &Table, number: u16) -> io::Result<()> {
    println!(rt; "{:?}", table.operation(number))
}

// A refusal is followed by whether the table is as it was.
fn tell(rt: &HostRuntime, answer: (u8, u16), before: &Table, after: &Table) -> io::Result<()> {
    match answer {
        (0, value) => println!(rt; "0 {value}"),
        (refusal, value) if before == after => println!(rt; "{refusal} {value}, unchanged"),
        (refusal, value) => println!(rt; "{refusal} {value}, changed"),
    }
}

/// Takes a step, and prints it with its answer.
pub(crate) fn take(rt: &HostRuntime, table: &mut Table, step: Step) -> io::Result<()> {
    print!(rt; "  {step:?}: ")?;
    let before = *table;
    let answer = match step {
        Step::Size(processors, variables) => table.size(processors, variables),
        Step::Record(processor, kind, variable, source, value) => {
            table.record(processor, kind, variable, source, value)
        }
        Step::Writes(processor, count) => writes(table, processor, count),
        Step::Strike(processor) => table.strike(processor),
        Step::Load(bytes) => load(table, bytes),
        Step::Save(room) => save(table, &mut [0; 530][0..room.min(530)]),
        Step::Completeness => table.completeness(),
        Step::Look => return look(rt, table),
        Step::At(number) => return look_at(rt, table, number),
    };
    tell(rt, answer, &before, table)
}
