//! The four questions of every model on worked traces, and a model that is written outside the library.
#![tactic(auto)]

mod no_views;
mod telling;

use crate::no_views::NoViews;
use crate::telling::tell;
use letters::{Letters, Visitor};
use models::agreement::Agreement;
use models::coherent::Coherent;
use models::model::MemoryModel;
use models::pram::Pram;
use models::write_into::WriteInto;
use std::io;
use trace::table::Table;

const BASES: [Letters; 3] = [Letters::S, Letters::C, Letters::P];

const LAYERED: [Letters; 7] = [
    Letters::FS,
    Letters::FC,
    Letters::FP,
    Letters::AS,
    Letters::AP,
    Letters::AFS,
    Letters::AFP,
];

// 101 writes x 1; 201 reads that, 202 writes y 1, 203 writes x 2; 301 reads 202, 302 reads x from the start.
fn worked() -> Table {
    let mut table = Table::new();
    let _ = table.size(3, 2);
    let _ = table.record(1, 2, 1, 0, 1);
    let _ = table.record(2, 1, 1, 101, 1);
    let _ = table.record(2, 2, 2, 0, 1);
    let _ = table.record(2, 2, 1, 0, 2);
    let _ = table.record(3, 1, 2, 202, 1);
    let _ = table.record(3, 1, 1, 0, 0);
    table
}

// 101 reads itself, 102 reads what is not there, 103 reads a read, 104 reads 105 with another variable, 105 writes.
fn unfit() -> Table {
    let mut table = Table::new();
    let _ = table.size(1, 2);
    let _ = table.record(1, 1, 1, 101, 1);
    let _ = table.record(1, 1, 1, 164, 1);
    let _ = table.record(1, 1, 1, 101, 1);
    let _ = table.record(1, 1, 1, 105, 1);
    let _ = table.record(1, 2, 2, 0, 1);
    table
}

// Has the model of some letters tell about a trace.
#[derive(Clone, Copy)]
struct Tell<'a> {
    rt: &'a HostRuntime,
    letters: Letters,
    table: &'a Table,
}

impl Visitor for Tell<'_> {
    type Output = io::Result<()>;

    ghost gives = { λ _ _ _. Unit {0} };

    // Prints the answers of the model.
    fn visit<M: MemoryModel + Drop>(self, model: M) -> io::Result<()> {
        tell(self.rt, self.letters, &model, self.table)
    }
}

// Prints the answers of the models that some letters name.
fn lettered(rt: &HostRuntime, all: &[Letters], table: &Table) -> io::Result<()> {
    for letters in all.iter().copied() {
        letters.visit(Tell { rt, letters, table })?;
    }
    Ok(())
}

// Prints the answers of models that have no letters.
fn deep(rt: &HostRuntime, table: &Table) -> io::Result<()> {
    tell(
        rt,
        "FAFP",
        &WriteInto {
            below: Agreement {
                below: WriteInto { below: Pram },
            },
        },
        table,
    )?;
    tell(
        rt,
        "FFFC",
        &WriteInto {
            below: WriteInto {
                below: WriteInto { below: Coherent },
            },
        },
        table,
    )?;
    tell(rt, "F over no views", &WriteInto { below: NoViews }, table)
}

fn main(rt: HostRuntime) -> io::Result<()> {
    let table = worked();
    lettered(&rt, &BASES, &table)?;
    tell(&rt, "no views", &NoViews, &table)?;
    lettered(&rt, &LAYERED, &table)?;
    deep(&rt, &table)?;
    println!(rt; "a trace that is not complete")?;
    lettered(&rt, &[Letters::FS], &unfit())
}
