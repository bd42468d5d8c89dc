//! Filling the tables from a model's answers.
ghost use Rattle.std.specs.Prelude.{◌≡◌, ◌<◌, ◌≤◌, length, MatchOption};
ghost use Rattle.trace.specs.Traces.{WellFormed};
ghost use Rattle.ranks.specs.Numbers.{numbers, Numbers};
ghost use Rattle.search.specs.Filling.{Held, Listing};
ghost use Rattle.search.specs.Steps.{view_of};
ghost use Rattle.search.specs.Tables.{Tabled};

use crate::tables::Tables;
use fixed_list::{Blank, FixedList};
use models::model::MemoryModel;
use opset::OpSet;
use ranks::listing::Ranks;
use trace::operation::Operation;
use trace::table::Table;

// What each view holds.
fn held_by_views<M: MemoryModel>(model: &M, table: &Table, views: u8) -> FixedList<OpSet, 16>
    requires { views ≤ 16 }
    ensures { Held (M.meaning model.now) table.now views result }
{
    let mut held = FixedList::new();
    for view in 1..=views {
        let _ = held.push(model.held(table, view));
    }
    held
}

// The operations of the ranks.
fn operations_by_rank(table: &Table, ranks: &Ranks) -> [Operation; 64]
    requires ranks { ranks.now ≡ numbers table.now }
    requires formed { WellFormed table.now }
    ensures { Listing table.now ranks.now (length ranks.now) result }
{
    let mut operations = [Operation::blank(); 64];
    for (rank, number) in ranks.as_slice().iter().enumerate() {
        if let Some(operation) = table.operation(*number) {
            operations[rank] = operation;
        }
    }
    operations
}

impl Tables {
    /// Makes the tables of a trace under a model.
    pub fn of<M: MemoryModel>(model: &M, table: &Table) -> Tables
        ensures tabled { Tabled (M.meaning model.now) table.now result }
        ensures facts { Numbers table.now }
        ensures formed { WellFormed table.now }
    {
        let ranks = Ranks::of(table);
        let views = model.views(table.processors(), table.variables());
        Tables {
            held: held_by_views(model, table, views),
            before: model.before_rows(table),
            alike: model.alike_rows(table),
            operations: operations_by_rank(table, &ranks),
            ranks,
        }
    }

    // What a view holds, where there is such a view; views count from 0 here.
    pub(crate) fn view(&self, index: usize) -> Option<OpSet>
        ensures { MatchOption result (length self.now.held ≤ index) (λ held. (index < length self.now.held) × (held ≡ view_of self.now index)) }
    {
        self.held.as_slice().get(index).copied()
    }
}
