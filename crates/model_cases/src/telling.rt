//! Printing what a model answers.
use models::model::MemoryModel;
use opset::OpSet;
use ranks::listing::Ranks;
use std::fmt::Display;
use std::io;
use trace::table::Table;

// Numbers to ask about: those of the traces, and some that are no operation's.
const PROBES: [u16; 17] = [
    0, 1, 100, 101, 102, 103, 104, 105, 150, 201, 202, 203, 204, 301, 302, 303, 401,
];

fn tell_views<M: MemoryModel>(rt: &HostRuntime, model: &M, table: &Table) -> io::Result<()> {
    let views = model.views(table.processors(), table.variables());
    println!(rt; "  views {views}")?;
    for view in 0..=views.saturating_add(1) {
        print!(rt; "  view {view}:")?;
        for number in PROBES {
            if model.holds(table, view, number) {
                print!(rt; " {number}")?;
            }
        }
        println!(rt; "")?;
    }
    Ok(())
}

// The pairs of numbers for which a question of two operations is answered with yes.
fn tell_pairs<F: Fn(u16, u16) -> bool>(rt: &HostRuntime, name: &str, asks: F) -> io::Result<()>
    requires { F.IsAlwaysCallable asks }
{
    print!(rt; "  {name}:")?;
    for one in PROBES {
        for other in PROBES {
            if asks(one, other) {
                print!(rt; " {one}-{other}")?;
            }
        }
    }
    println!(rt; "")
}

// How often the whole table of a question and the question differ.
fn differences<F: Fn(u16, u16) -> bool>(ranks: &Ranks, rows: &[OpSet; 64], asks: F) -> usize
    requires { F.IsAlwaysCallable asks }
{
    rows.iter()
        .enumerate()
        .map(|(j, row)| {
            let second = ranks.number(j);
            (0..64u8)
                .filter(|i| row.contains(*i) != asks(ranks.number(usize::from(*i)), second))
                .count()
        })
        .fold(0, usize::saturating_add)
}

/// Prints the answers of a model to the four questions.
pub(crate) fn tell<M: MemoryModel>(
    rt: &HostRuntime,
    name: impl Display + Drop,
    model: &M,
    table: &Table,
) -> io::Result<()> {
    println!(rt; "{name}")?;
    tell_views(rt, model, table)?;
    let before = |first, second| model.before(table, first, second);
    let alike = |one, other| model.alike(table, one, other);
    tell_pairs(rt, "before", before)?;
    tell_pairs(rt, "alike", alike)?;
    let ranks = Ranks::of(table);
    let of_before = differences(&ranks, &model.before_rows(table), before);
    let of_alike = differences(&ranks, &model.alike_rows(table), alike);
    let count = of_before.saturating_add(of_alike);
    println!(rt; "  differences {count}")
}
