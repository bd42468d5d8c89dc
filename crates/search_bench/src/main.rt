//! How long the search takes: reads the letter of a model (S, C or P) and a trace file, and prints the verdict and the
//! nanoseconds of one search, without those of its tables. On empty input it does nothing.
#![tactic(auto)]

use models::coherent::Coherent;
use models::model::MemoryModel;
use models::pram::Pram;
use models::sequential::Sequential;
use search::tables::Tables;
use std::io::Read;
use std::time::Instant;
use trace::table::Table;
use trace_file::reader::read;

// A search is repeated until this time is over.
const NANOS: u64 = 200_000_000;

// Prints the verdict, and the time of one search by tables that are filled already.
fn measure<M: MemoryModel>(rt: &HostRuntime, model: &M, table: &Table) -> anyhow::Result<()> {
    let tables = Tables::of(model, table);
    let mut legal = false;
    let mut nanos = 0;
    let mut rounds = 0;
    let start = Instant::now(rt)?;
    for round in 1..=1_000_000u64 {
        legal = tables.first_orders().is_some();
        rounds = round;
        nanos = u64::try_from(start.elapsed(rt)?.as_nanos()).unwrap_or(u64::MAX);
        if nanos > NANOS {
            break;
        }
    }
    let verdict = if legal { "legal" } else { "illegal" };
    let time = nanos.checked_div(rounds).unwrap_or(0);
    println!(rt; "{verdict} {time}")?;
    Ok(())
}

fn main(rt: HostRuntime) -> anyhow::Result<()> {
    // A letter stands before a file, and no byte of that past the 530th can matter.
    let mut input = [0u8; 531];
    let filled = rt.stdin().read(&mut input)?.min(531);
    let [letter, file @ ..] = &input[..filled] else {
        return Ok(());
    };
    let Ok(table) = read(file) else {
        println!(rt; "no trace")?;
        return Ok(());
    };
    match *letter {
        b'S' => measure(&rt, &Sequential, &table),
        b'C' => measure(&rt, &Coherent, &table),
        _ => measure(&rt, &Pram, &table),
    }
}
