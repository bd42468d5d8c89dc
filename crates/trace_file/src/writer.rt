//! The writer: from a table to the bytes of its file.
ghost use Rattle.std.specs.Prelude.{◌≡◌, ◌+◌, ◌*◌, ◌++◌, ◌≤◌, [], length};
ghost use Rattle.trace.specs.Traces.{processor_count, operation_count, WellFormed};
ghost use Rattle.trace_file.specs.Files.{record_bytes, section_bytes, file_of};
ghost use Rattle.trace_file.specs.Reading.{good, read_file};
ghost use Rattle.trace_file.specs.Writing.{save_answer, save_after};

use fixed_list::FixedList;
use trace::operation::Operation;
use trace::table::Table;

// The bytes of a file; the longest has a size of 2 bytes, 8 counts, and 64 records of 8.
type File = FixedList<u8, 522>;

fn record_bytes(operation: &Operation) -> [u8; 8]
    ensures { result ≡ record_bytes operation.now }
{
    let [source_high, source_low] = operation.source.to_be_bytes();
    let [value_0, value_1, value_2, value_3] = operation.value.to_be_bytes();
    [
        u8::from(operation.kind),
        operation.variable,
        source_high,
        source_low,
        value_0,
        value_1,
        value_2,
        value_3,
    ]
}

// Puts the section of a processor at the end of a file.
fn push_section(file: &mut File, lane: &[Operation])
    requires { length file.old + length (section_bytes lane.now) ≤ 522 }
    ensures { file.new ≡ file.old ++ section_bytes lane.now }
{
    let _ = file.push(lane.len() as u8);
    for operation in lane {
        let _ = file.extend_from_slice(&record_bytes(operation));
    }
}

// Puts the file of a table's trace, which is well-formed, into an empty one.
fn push_file(file: &mut File, table: &Table)
    requires { file.old ≡ [] }
    ensures value { file.new ≡ file_of table.now }
    ensures formed { WellFormed table.now }
{
    let _ = file.extend_from_slice(&[table.processors(), table.variables()]);
    for processor in 1..=table.processors() {
        push_section(file, table.lane(processor));
    }
}

/// Writes the file of a table's trace from the first byte on, and answers its length; 14 where the bytes are too few.
#[tactic(auto, using(crate::proofs::Lengths::file_length))]
pub fn save(table: &Table, bytes: &mut [u8]) -> (u8, u16)
    ensures answer { result ≡ save_answer table.now (length bytes.old) }
    ensures after { bytes.new ≡ save_after table.now bytes.old }
    ensures size { length (file_of table.now) ≡ 2 + processor_count table.now + 8 * operation_count table.now }
    ensures back { read_file (file_of table.now) ≡ good table.now }
    ensures formed { WellFormed table.now }
{
    let size = 2 + usize::from(table.processors()) + 8 * table.total();
    if bytes.len() < size {
        return (14, 0);
    }
    let mut file = FixedList::new();
    push_file(&mut file, table);
    bytes[..size].copy_from_slice(file.as_slice());
    (0, size as u16)
}
