//! How long a model takes to fill all its tables for a trace of 64 operations.
//! Without an argument it does nothing, so that a run in the gate prints nothing.
#![tactic(auto)]

ghost use Rattle.std.specs.Prelude.{⊤};

use letters::{Letters, Visitor};
use models::model::MemoryModel;
use opset::OpSet;
use std::env;
use std::time::Instant;
use trace::table::Table;

const ROUNDS: u64 = 200;

// The first is what the others are put beside.
const MODELS: [Letters; 10] = [
    Letters::S,
    Letters::C,
    Letters::P,
    Letters::FS,
    Letters::FC,
    Letters::FP,
    Letters::AS,
    Letters::AP,
    Letters::AFS,
    Letters::AFP,
];

// Eight processors: each writes and reads in turn, and reads what its neighbour wrote.
fn full() -> Table {
    let mut table = Table::new();
    let _ = table.size(8, 4);
    for position in 0..8u8 {
        for processor in 1..=8u8 {
            let variable = processor % 4 + 1;
            if position % 2 == 0 {
                let _ = table.record(processor, 2, variable, 0, u32::from(position));
            } else {
                let neighbour = 100 * u16::from(processor % 8 + 1) + u16::from(position);
                let _ = table.record(
                    processor,
                    1,
                    processor % 8 % 4 + 1,
                    neighbour,
                    u32::from(position),
                );
            }
        }
    }
    table
}

// Fills every table, and counts what is in them, so that no table is left out.
fn fill<M: MemoryModel>(model: &M, table: &Table) -> usize {
    let views = model.views(table.processors(), table.variables());
    (1..=views)
        .map(|view| model.held(table, view))
        .chain(model.before_rows(table))
        .chain(model.alike_rows(table))
        .map(OpSet::len)
        .fold(0, usize::saturating_add)
}

// The filling of all tables of a trace, timed and put beside that of another model, if there is one.
struct Measure<'a> {
    rt: &'a HostRuntime,
    letters: Letters,
    table: &'a Table,
    baseline: Option<u64>,
}

impl Visitor for Measure<'_> {
    type Output = anyhow::Result<u64>;

    ghost gives = { λ _ _ _. ⊤ };

    // Prints the time for a trace and for a table of it, and the ratio to the baseline; gives the time.
    fn visit<M: MemoryModel + Drop>(self, model: M) -> anyhow::Result<u64> {
        let Measure {
            rt,
            letters,
            table,
            baseline,
        } = self;
        let start = Instant::now(rt)?;
        let members = (0..ROUNDS)
            .map(|_| fill(&model, table))
            .fold(0, usize::wrapping_add);
        let nanos = u64::try_from(start.elapsed(rt)?.as_nanos()).unwrap_or(u64::MAX);
        let trace = nanos / ROUNDS;
        let views = model.views(table.processors(), table.variables());
        let per_table = trace
            .checked_div(u64::from(views).saturating_add(2))
            .unwrap_or(0);
        let percent = trace
            .saturating_mul(100)
            .checked_div(baseline.unwrap_or(trace))
            .unwrap_or(100);
        println!(rt;
            "{letters}: {trace} ns a trace, {per_table} ns a table, {percent} % of S, {members} members"
        )?;
        Ok(trace)
    }
}

fn run(rt: &HostRuntime) -> anyhow::Result<()> {
    let table = &full();
    let mut baseline = None;
    for letters in MODELS {
        let time = letters.visit(Measure {
            rt,
            letters,
            table,
            baseline,
        })?;
        baseline = baseline.or(Some(time));
    }
    Ok(())
}

fn main(rt: HostRuntime) -> anyhow::Result<()> {
    if env::args(&rt)?.count() > 1 {
        run(&rt)?;
    }
    Ok(())
}
