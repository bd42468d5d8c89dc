//! The reader: from bytes to a table, up to the first fault. A table is asked for its total, which tells that its trace is well-formed.
ghost use Rattle.std.specs.Prelude.{◌≡◌, ◌+◌, ◌*◌, ◌<◌, IfOk};
ghost use Rattle.trace.specs.Operations.{Within};
ghost use Rattle.trace.specs.Traces.{processor_count, WellFormed};
ghost use Rattle.trace_file.specs.Outcomes.{RecordRead, SectionRead, SizeRead, FileRead, placed};
ghost use Rattle.trace_file.specs.Reading.{read_file, load_answer, load_after};

use crate::faults::{At, FileFault, RecordFault, SectionFault};
use trace::table::Table;

// Adds to a fault the position of the part that has it.
fn at<T, F>(position: u8, res: Result<T, F>) -> Result<T, At<F>>
    ensures { result ≡ placed position res }
{
    res.map_err(|fault| At { position, fault })
}

// Enters the record at the front of the bytes, and gives the bytes that follow it.
fn read_record<'a>(bytes: &'a [u8], section: u8, table: &mut Table) -> Result<&'a [u8], RecordFault>
    requires { Within 1 (processor_count table.old) section }
    ensures { RecordRead table.old section bytes.now result table.new }
{
    let [
        kind,
        variable,
        source_high,
        source_low,
        value_0,
        value_1,
        value_2,
        value_3,
        rest @ ..,
    ] = bytes
    else {
        return Err(RecordFault::Short);
    };
    let source = u16::from_be_bytes([*source_high, *source_low]);
    let value = u32::from_be_bytes([*value_0, *value_1, *value_2, *value_3]);
    match table.record(section, *kind, *variable, source, value) {
        (0, _) => Ok(rest),
        (2, _) => Err(RecordFault::Kind),
        (3, _) => Err(RecordFault::Variable),
        (4, _) => Err(RecordFault::Source),
        _ => Err(RecordFault::Full),
    }
}

// Enters the section at the front of the bytes, and gives the number of its bytes.
fn read_section(bytes: &[u8], section: u8, table: &mut Table) -> Result<usize, SectionFault>
    requires { Within 1 (processor_count table.old) section }
    ensures { SectionRead table.old section bytes.now result table.new }
{
    let [count, records @ ..] = bytes else {
        return Err(SectionFault::NoCount);
    };
    let mut rest = records;
    for position in 1..=*count {
        rest = at(position, read_record(rest, section, table))?;
    }
    Ok(1 + 8 * *count as usize)
}

// Gives the numbers of processors and of variables, which stand first.
fn read_size(bytes: &[u8]) -> Result<(u8, u8), FileFault>
    ensures { SizeRead bytes.now result }
{
    match bytes {
        [processors, variables, ..] => Ok((*processors, *variables)),
        _ => Err(FileFault::Short),
    }
}

/// Reads a file: the table of its trace, or its first fault.
pub fn read(bytes: &[u8]) -> Result<Table, FileFault>
    ensures file { FileRead bytes.now result }
    ensures formed { IfOk result (λ table. WellFormed table) }
{
    let (processors, variables) = read_size(bytes)?;
    let mut table = Table::new();
    let (0, _) = table.size(processors, variables) else {
        return Err(FileFault::Size);
    };
    let mut start = 2;
    for section in 1..=processors {
        start += at(section, read_section(&bytes[start..], section, &mut table))?;
    }
    if start < bytes.len() {
        return Err(FileFault::LeftOver);
    }
    let _ = table.total();
    Ok(table)
}

/// Replaces a table by a file's, and answers how many operations that has; a faulty file leaves the table as it is.
pub fn load(table: &mut Table, bytes: &[u8]) -> (u8, u16)
    ensures answer { result ≡ load_answer (read_file bytes.now) }
    ensures after { table.new ≡ load_after table.old (read_file bytes.now) }
    ensures formed { WellFormed table.new }
{
    let _ = table.total();
    match read(bytes) {
        Ok(loaded) => {
            *table = loaded;
            (0, table.total() as u16)
        }
        Err(fault) => (fault.number(), fault.place()),
    }
}
