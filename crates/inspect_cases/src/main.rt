//! Orders put forward for worked traces, and every way to spoil them; what is expected stands in `stdout`.
#![tactic(auto)]

mod traces;

use models::agreement::Agreement;
use models::coherent::Coherent;
use models::model::MemoryModel;
use models::pram::Pram;
use models::sequential::Sequential;
use models::write_into::WriteInto;
use orders::inspection::inspect;
use std::io;
use trace::table::Table;

// What was done to the orders, and the numbers that are put forward.
type Case = (&'static str, &'static [u16]);

// Prints what is found of some numbers.
fn show<M: MemoryModel>(
    rt: &HostRuntime,
    model: &M,
    table: &Table,
    title: &str,
    numbers: &[u16],
) -> io::Result<()> {
    let (refusal, value) = inspect(model, table, numbers);
    println!(rt; "  {title}: {refusal} {value}")
}

// Prints what is found of the numbers of each case.
fn run<M: MemoryModel>(
    rt: &HostRuntime,
    title: &str,
    model: &M,
    table: &Table,
    cases: &[Case],
) -> io::Result<()> {
    println!(rt; "{title}")?;
    for (what, numbers) in cases {
        show(rt, model, table, what, numbers)?;
    }
    Ok(())
}

const BUFFERING: [u16; 9] = [2, 203, 101, 2, 103, 201, 2, 102, 202];

const BUFFERING_COHERENT: &[Case] = &[
    ("as they are", &BUFFERING),
    ("a number twice", &[2, 203, 203, 2, 103, 201, 2, 102, 202]),
    ("one missing in view 1", &[1, 203, 2, 103, 201, 2, 102, 202]),
    ("one missing in view 3", &[2, 203, 101, 2, 103, 201, 1, 102]),
    (
        "one of another view",
        &[2, 203, 102, 2, 103, 201, 2, 102, 202],
    ),
    (
        "one more, of another view",
        &[2, 203, 101, 3, 103, 201, 202, 2, 102, 202],
    ),
    (
        "an unknown number",
        &[2, 203, 101, 2, 103, 299, 2, 102, 202],
    ),
    ("the number 0", &[2, 203, 0, 2, 103, 201, 2, 102, 202]),
    (
        "the greatest number",
        &[2, 203, 101, 2, 103, 201, 2, 102, 65535],
    ),
    (
        "two lists in each other's place",
        &[2, 203, 101, 2, 102, 202, 2, 103, 201],
    ),
    (
        "a count too large in view 1",
        &[3, 203, 101, 2, 103, 201, 2, 102, 202],
    ),
    (
        "a count too large in view 3",
        &[2, 203, 101, 2, 103, 201, 3, 102, 202],
    ),
    (
        "the greatest count",
        &[65535, 203, 101, 2, 103, 201, 2, 102, 202],
    ),
    (
        "a count too small",
        &[2, 203, 101, 1, 103, 201, 2, 102, 202],
    ),
    ("empty lists", &[0, 0, 0]),
    (
        "a read behind a write of its variable, view 1",
        &[2, 101, 203, 2, 103, 201, 2, 102, 202],
    ),
    (
        "a read behind a write of its variable, view 2",
        &[2, 203, 101, 2, 201, 103, 2, 102, 202],
    ),
    (
        "the two writes the other way round",
        &[2, 203, 101, 2, 103, 201, 2, 202, 102],
    ),
    (
        "clause 3 in view 1, and clause 1 in view 2",
        &[2, 101, 203, 1, 103, 2, 102, 202],
    ),
    (
        "one number left over",
        &[2, 203, 101, 2, 103, 201, 2, 102, 202, 101],
    ),
    ("a 0 left over", &[2, 203, 101, 2, 103, 201, 2, 102, 202, 0]),
    (
        "one left over, and clause 3 in view 2",
        &[2, 203, 101, 2, 201, 103, 2, 102, 202, 0],
    ),
];

const BUFFERING_PRAM: &[Case] = &[
    (
        "as they are",
        &[5, 101, 102, 103, 201, 202, 5, 201, 202, 203, 101, 102],
    ),
    (
        "two swapped against program order, view 1",
        &[5, 102, 101, 103, 201, 202, 5, 201, 202, 203, 101, 102],
    ),
    (
        "two swapped against program order, view 2",
        &[5, 101, 102, 103, 201, 202, 5, 202, 201, 203, 101, 102],
    ),
    (
        "the other processor's swapped, view 1",
        &[5, 101, 102, 103, 202, 201, 5, 201, 202, 203, 101, 102],
    ),
    (
        "a read behind a write of its variable, view 1",
        &[5, 101, 102, 201, 103, 202, 5, 201, 202, 203, 101, 102],
    ),
    (
        "clauses 2 and 3 in view 1",
        &[5, 102, 101, 201, 103, 202, 5, 201, 202, 203, 101, 102],
    ),
];

const BUFFERING_SEQUENTIAL: &[Case] = &[
    (
        "one processor after the other",
        &[6, 101, 102, 103, 201, 202, 203],
    ),
    ("both reads first", &[6, 103, 203, 101, 102, 201, 202]),
];

const READERS: &[Case] = &[
    (
        "views 1 to 3 alike",
        &[
            2, 101, 201, 2, 101, 201, 4, 101, 301, 201, 302, 4, 201, 401, 101, 402,
        ],
    ),
    (
        "views 1 and 2 apart",
        &[
            2, 101, 201, 2, 201, 101, 4, 101, 301, 201, 302, 4, 201, 401, 101, 402,
        ],
    ),
    (
        "views 2 and 3 apart",
        &[
            2, 201, 101, 2, 201, 101, 4, 101, 301, 201, 302, 4, 201, 401, 101, 402,
        ],
    ),
    (
        "a read behind its source's successor",
        &[
            2, 101, 201, 2, 101, 201, 4, 101, 201, 301, 302, 4, 201, 401, 101, 402,
        ],
    ),
    (
        "a read in front of its source",
        &[
            2, 101, 201, 2, 101, 201, 4, 301, 101, 201, 302, 4, 201, 401, 101, 402,
        ],
    ),
    (
        "views 1 and 2 apart, and clause 3 in view 4",
        &[
            2, 101, 201, 2, 201, 101, 4, 101, 301, 201, 302, 4, 101, 401, 201, 402,
        ],
    ),
    (
        "views 1 and 2 apart, and one left over",
        &[
            2, 101, 201, 2, 201, 101, 4, 101, 301, 201, 302, 4, 201, 401, 101, 402, 9,
        ],
    ),
];

const CAUSALITY: &[Case] = &[
    (
        "view 3 sees the second write first",
        &[2, 101, 202, 3, 101, 201, 202, 4, 202, 301, 302, 101],
    ),
    (
        "view 3 sees the first write first",
        &[2, 101, 202, 3, 101, 201, 202, 4, 101, 202, 301, 302],
    ),
];

const NOTHING: &[Case] = &[
    ("one empty list", &[0]),
    ("no list", &[]),
    ("two empty lists", &[0, 0]),
    ("a count and no number", &[1]),
    ("a number", &[1, 101]),
];

const ANYTHING: &[Case] = &[("anything", &[2, 101, 102])];

// The orders of the first trace, cut at every length.
fn cuts(rt: &HostRuntime) -> io::Result<()> {
    println!(rt; "store buffering under C, cut")?;
    for length in 0..BUFFERING.len() {
        let (refusal, value) = inspect(
            &Coherent,
            &worked_traces::store_buffering(),
            &BUFFERING[..length],
        );
        println!(rt; "  after {length}: {refusal} {value}")?;
    }
    Ok(())
}

// Traces whose last read is of some variable, source and value; the last of them is complete.
fn incomplete(rt: &HostRuntime) -> io::Result<()> {
    let reads = [
        ("a read of what is not there", (1, 103, 1)),
        ("a read of a read", (1, 102, 1)),
        ("a read of another variable", (2, 101, 1)),
        ("a read of another value", (1, 101, 2)),
        ("a read of another starting value", (1, 0, 1)),
        ("a read of a write", (1, 101, 1)),
    ];
    for (title, (variable, source, value)) in reads {
        let table = traces::reading(variable, source, value);
        run(rt, title, &Pram, &table, ANYTHING)?;
    }
    Ok(())
}

// A list of all 64 operations, rising: how many they are, and then their numbers.
fn rising() -> [u16; 65] {
    let mut numbers = [64; 65];
    for (place, number) in numbers[1..].iter_mut().enumerate() {
        *number = (100 * (place / 8 + 1) + place % 8 + 1) as u16;
    }
    numbers
}

// The same with the last two the other way round.
fn swapped() -> [u16; 65] {
    let mut numbers = rising();
    numbers[63] = 808;
    numbers[64] = 807;
    numbers
}

// Prints what is found of lists of 64 operations.
fn full(rt: &HostRuntime) -> io::Result<()> {
    println!(rt; "64 writes under S")?;
    let table = worked_traces::full();
    show(rt, &Sequential, &table, "rising", &rising())?;
    show(rt, &Sequential, &table, "the last two swapped", &swapped())
}

fn main(rt: HostRuntime) -> io::Result<()> {
    let buffering = worked_traces::store_buffering();
    run(
        &rt,
        "store buffering under C",
        &Coherent,
        &buffering,
        BUFFERING_COHERENT,
    )?;
    cuts(&rt)?;
    run(
        &rt,
        "store buffering under P",
        &Pram,
        &buffering,
        BUFFERING_PRAM,
    )?;
    run(
        &rt,
        "store buffering under S",
        &Sequential,
        &buffering,
        BUFFERING_SEQUENTIAL,
    )?;
    let readers = worked_traces::opposite_readers();
    run(&rt, "opposite readers under P", &Pram, &readers, READERS)?;
    run(
        &rt,
        "opposite readers under AP",
        &Agreement { below: Pram },
        &readers,
        READERS,
    )?;
    let causality = traces::causality();
    run(&rt, "causality under P", &Pram, &causality, CAUSALITY)?;
    run(
        &rt,
        "causality under FP",
        &WriteInto { below: Pram },
        &causality,
        CAUSALITY,
    )?;
    run(
        &rt,
        "nothing recorded, under S",
        &Sequential,
        &Table::new(),
        NOTHING,
    )?;
    incomplete(&rt)?;
    full(&rt)
}
