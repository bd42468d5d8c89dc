//! The first orders of worked traces under each model; what is expected stands in `stdout`.
#![tactic(auto)]

mod everywhere;
mod traces;

use crate::everywhere::Everywhere;
use letters::{Letters, Visitor};
use models::model::MemoryModel;
use search::first::first_orders;
use std::fmt::Display;
use std::io;
use trace::table::Table;

// The models that every trace is searched under: one order or one of each variable, and then one of each processor.
const ALL: [Letters; 10] = [
    Letters::S,
    Letters::FS,
    Letters::AS,
    Letters::AFS,
    Letters::C,
    Letters::FC,
    Letters::P,
    Letters::FP,
    Letters::AP,
    Letters::AFP,
];

// Prints the list of each view, up to the first number that is no view's.
fn show<M: MemoryModel>(
    rt: &HostRuntime,
    title: impl Display + Drop,
    model: &M,
    table: &Table,
) -> io::Result<()> {
    let Some(orders) = first_orders(model, table) else {
        return println!(rt; "  {title}: illegal");
    };
    println!(rt; "  {title}: legal")?;
    for view in 1..=16 {
        let Some(list) = orders.list(view) else {
            return Ok(());
        };
        print!(rt; "    view {view}:")?;
        for number in list {
            print!(rt; " {number}")?;
        }
        println!(rt)?;
    }
    Ok(())
}

// Has the model of some letters show its first orders of a trace.
#[derive(Clone, Copy)]
struct Shown<'a> {
    rt: &'a HostRuntime,
    letters: Letters,
    table: &'a Table,
}

impl Visitor for Shown<'_> {
    type Output = io::Result<()>;

    ghost gives = { λ _ _ _. Unit {0} };

    // Prints the first orders under the model.
    fn visit<M: MemoryModel + Drop>(self, model: M) -> io::Result<()> {
        show(self.rt, self.letters, &model, self.table)
    }
}

// Prints the first orders of a trace under the models that some letters name.
fn lettered(rt: &HostRuntime, title: &str, all: &[Letters], table: &Table) -> io::Result<()> {
    println!(rt; "{title}")?;
    for letters in all.iter().copied() {
        letters.visit(Shown { rt, letters, table })?;
    }
    Ok(())
}

fn main(rt: HostRuntime) -> io::Result<()> {
    lettered(
        &rt,
        "store buffering",
        &ALL,
        &worked_traces::store_buffering(),
    )?;
    lettered(
        &rt,
        "opposite readers",
        &ALL,
        &worked_traces::opposite_readers(),
    )?;
    lettered(&rt, "nothing recorded", &ALL, &Table::new())?;
    lettered(
        &rt,
        "the first candidate is wrong, found out at the last",
        &[Letters::S],
        &traces::last_first(),
    )?;
    lettered(
        &rt,
        "the second view wants the first one changed",
        &[Letters::P, Letters::AP],
        &traces::overtaken(),
    )?;
    lettered(
        &rt,
        "a source that is not there",
        &[Letters::S],
        &traces::sourceless(),
    )?;
    lettered(
        &rt,
        "64 writes",
        &[Letters::S, Letters::P],
        &worked_traces::full(),
    )?;
    show(&rt, "16 views", &Everywhere, &worked_traces::full())
}
