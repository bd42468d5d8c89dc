//! Trace files at the edges of the format, read and written; what is expected stands in `stdout`.
#![tactic(auto)]

use std::alloc::{AllocError, Global};
use std::io;
use trace::table::Table;
use trace_file::reader::{load, read};
use trace_file::writer::save;

// A write of variable 1 with the value 1; a read of it from there; a read of variable 2 from the start.
const BASE: [u8; 29] = [
    3, 2, 1, 2, 1, 0, 0, 0, 0, 0, 1, 1, 1, 1, 0, 101, 0, 0, 0, 1, 1, 1, 2, 0, 0, 0, 0, 0, 0,
];

const WRITE: [u8; 8] = [2, 1, 0, 0, 0, 0, 0, 7];

// Places of BASE with other bytes: sizes, then kinds, variables and sources in each section, then two faults at once.
const CHANGES: [(usize, u8, usize, u8); 36] = [
    (0, 0, 1, 2),
    (0, 9, 1, 2),
    (0, 3, 1, 0),
    (0, 3, 1, 17),
    (0, 3, 1, 16),
    (3, 0, 0, 3),
    (3, 3, 0, 3),
    (12, 0, 0, 3),
    (12, 3, 0, 3),
    (21, 0, 0, 3),
    (21, 255, 0, 3),
    (4, 0, 0, 3),
    (4, 3, 0, 3),
    (13, 0, 0, 3),
    (13, 3, 0, 3),
    (22, 0, 0, 3),
    (22, 3, 0, 3),
    (6, 101, 0, 3),
    (5, 1, 0, 3),
    (15, 100, 0, 3),
    (15, 164, 0, 3),
    (15, 165, 0, 3),
    (15, 1, 0, 3),
    (23, 1, 24, 44),
    (23, 1, 24, 108),
    (23, 1, 24, 109),
    (23, 1, 24, 145),
    (23, 255, 24, 255),
    (3, 9, 4, 9),
    (4, 9, 6, 9),
    (3, 9, 21, 9),
    (13, 9, 15, 9),
    (21, 9, 22, 9),
    (2, 0, 0, 3),
    (2, 255, 0, 3),
    (20, 2, 0, 3),
];

// Prints what is read of a file.
fn tell(rt: &HostRuntime, bytes: &[u8]) -> io::Result<()> {
    match read(bytes) {
        Ok(table) => println!(rt; "{} operations", table.total()),
        Err(fault) => println!(rt; "refused {} at {}", fault.number(), fault.place()),
    }
}

// Prints what is read of each start of the file.
fn cuts(rt: &HostRuntime) -> io::Result<()> {
    for length in 0..=BASE.len() {
        print!(rt; "the first {length} bytes: ")?;
        tell(rt, &BASE[..length])?;
    }
    Ok(())
}

// The file with two bytes changed.
fn changed(change: (usize, u8, usize, u8)) -> [u8; 29] {
    let (first, byte, second, other) = change;
    let mut bytes = BASE;
    if first < 29 && second < 29 {
        bytes[second] = other;
        bytes[first] = byte;
    }
    bytes
}

// Prints what is read of the file with each change.
fn changes(rt: &HostRuntime) -> io::Result<()> {
    for change in CHANGES {
        let (first, byte, second, other) = change;
        print!(rt; "byte {first} is {byte} and byte {second} is {other}: ")?;
        tell(rt, &changed(change))?;
    }
    Ok(())
}

// A file with so many writes on each processor.
fn writes(alloc: Global, counts: &[u8]) -> Result<Vec<u8>, AllocError> {
    let mut bytes = vec![in alloc; (counts.len() % 256) as u8, 1]?;
    for count in counts {
        bytes.push(*count)?;
        for _ in 0..*count {
            bytes.extend_from_slice(&WRITE)?;
        }
    }
    Ok(bytes)
}

// Prints what is read of such a file.
fn tell_writes(rt: &HostRuntime, counts: &[u8]) -> anyhow::Result<()> {
    let bytes = writes(rt.alloc(), counts)?;
    print!(rt; "writes {counts:?}: ")?;
    tell(rt, bytes.as_slice())?;
    Ok(())
}

// Sixty-four writes under a count of 255, and then some bytes.
fn tell_after_64(rt: &HostRuntime, more: &[u8]) -> anyhow::Result<()> {
    let mut bytes = vec![in rt.alloc(); 1u8, 1, 255]?;
    for _ in 0..64 {
        bytes.extend_from_slice(&WRITE)?;
    }
    bytes.extend_from_slice(more)?;
    print!(rt; "64 writes and then {more:?}: ")?;
    tell(rt, bytes.as_slice())?;
    Ok(())
}

// Reads a file, and writes it again into so many bytes.
fn again(rt: &HostRuntime, file: &[u8], room: usize) -> anyhow::Result<()> {
    let mut table = Table::new();
    let (_, operations) = load(&mut table, file);
    let mut bytes = vec![in rt.alloc(); 9u8; room]?;
    let (refusal, length) = save(&table, &mut bytes);
    let same = bytes.as_slice().starts_with(file);
    let nines = bytes
        .iter()
        .rev()
        .take(3)
        .copied()
        .collect::<Vec<u8>>(rt.alloc())?;
    println!(rt;
        "{operations} operations into {room} bytes: {refusal} {length}, same {same}, last {nines:?}"
    )?;
    Ok(())
}

fn main(rt: HostRuntime) -> anyhow::Result<()> {
    cuts(&rt)?;
    print!(rt; "one byte too many: ")?;
    tell(&rt, &[1, 1, 0, 0])?;
    print!(rt; "no operations: ")?;
    tell(&rt, &[1, 1, 0])?;
    print!(rt; "no operations on eight: ")?;
    tell(&rt, &[8, 16, 0, 0, 0, 0, 0, 0, 0, 0])?;
    print!(rt; "one byte that is no size: ")?;
    tell(&rt, &[255])?;
    changes(&rt)?;
    tell_writes(&rt, &[64])?;
    tell_writes(&rt, &[8, 8, 8, 8, 8, 8, 8, 8])?;
    tell_writes(&rt, &[65])?;
    tell_writes(&rt, &[65, 0, 0])?;
    tell_writes(&rt, &[1, 64, 0])?;
    tell_writes(&rt, &[32, 32, 1])?;
    tell_writes(&rt, &[8, 8, 8, 8, 8, 8, 8, 9])?;
    tell_after_64(&rt, &[])?;
    tell_after_64(&rt, &[2, 1, 0, 0, 0, 0, 0])?;
    tell_after_64(&rt, &[0, 1, 0, 0, 0, 0, 0, 7])?;
    tell_after_64(&rt, &[2, 2, 0, 0, 0, 0, 0, 7])?;
    tell_after_64(&rt, &[2, 1, 0, 1, 0, 0, 0, 7])?;
    tell_after_64(&rt, &[2, 1, 0, 0, 0, 0, 0, 7])?;
    again(&rt, &BASE, 28)?;
    again(&rt, &BASE, 29)?;
    again(&rt, &BASE, 32)?;
    let full = writes(rt.alloc(), &[8, 8, 8, 8, 8, 8, 8, 8])?;
    again(&rt, full.as_slice(), 521)?;
    again(&rt, full.as_slice(), 522)?;
    again(&rt, full.as_slice(), 525)?;
    Ok(())
}
