//! The calls on a trace table, at their edges and one after another; what is expected stands in `stdout`.
#![tactic(auto)]

use crate::step::{Case, take};
use std::io;
use trace::table::Table;

mod completeness;
mod files;
mod records;
mod sizes;
mod step;
mod strikes;

// Takes the steps of each case on a fresh table.
fn run(rt: &HostRuntime, cases: &[Case]) -> io::Result<()> {
    for (title, steps) in cases {
        println!(rt; "{title}")?;
        let mut table = Table::new();
        for step in *steps {
            take(rt, &mut table, *step)?;
        }
    }
    Ok(())
}

fn main(rt: HostRuntime) -> io::Result<()> {
    run(&rt, sizes::CASES)?;
    run(&rt, records::CASES)?;
    run(&rt, strikes::CASES)?;
    run(&rt, files::CASES)?;
    run(&rt, completeness::CASES)
}
