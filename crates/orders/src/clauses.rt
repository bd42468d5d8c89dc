//! Whether the list of a view keeps each of the clauses.
ghost use Rattle.std.specs.Prelude.{◌≡◌, ℕ, ◌<◌, true, Decides};
ghost use Rattle.opset.specs.Sets.{has};
ghost use Rattle.trace.specs.Traces.{WellFormed};
ghost use Rattle.orders.specs.Tables.{EarlierRows};
ghost use Rattle.orders.specs.Orders.{WriteTo, LastWrite, Exact, Ordered, Seeing, Agrees};

use models::model::MemoryModel;
use opset::OpSet;
use ranks::listing::Ranks;
use trace::operation::Kind;
use trace::table::Table;

/// A trace under a model, whose clauses are asked of the lists of its views.
#[derive(Clone, Copy)]
pub struct Clauses<'a, M> {
    pub model: &'a M,
    pub table: &'a Table,
}

// Tells whether a set has all that is wanted.
fn has_all(set: OpSet, wanted: OpSet) -> bool
    ensures { Decides result ((i : ℕ) → i < 64 → has wanted i ≡ true → has set i ≡ true) }
{
    wanted.difference(set).lowest().is_none()
}

// Tells whether an operation is a write to a variable.
fn is_write_to(table: &Table, variable: u8, number: u16) -> bool
    ensures { Decides result (WriteTo table.now variable number) }
{
    match table.operation(number) {
        Some(operation) => operation.kind == Kind::Write && operation.variable == variable,
        None => false,
    }
}

/// Gives the last write to a variable that stands in a list; 0 where there is none.
pub fn last_write(table: &Table, variable: u8, list: &[u16]) -> u16
    ensures last { LastWrite table.now variable list.now result }
    ensures formed { WellFormed table.now }
{
    let _ = table.total();
    let mut last = 0;
    for number in list {
        if is_write_to(table, variable, *number) {
            last = *number;
        }
    }
    last
}

/// Tells whether each read of a list sees its source: the last write to its variable before it.
pub fn is_seeing(table: &Table, list: &[u16]) -> bool
    ensures answer { Decides result (Seeing table.now list.now) }
    ensures formed { WellFormed table.now }
{
    let _ = table.total();
    for (place, number) in list.iter().enumerate() {
        if let Some(operation) = table.operation(*number) {
            if operation.kind == Kind::Read
                && operation.source != last_write(table, operation.variable, &list[..place])
            {
                return false;
            }
        }
    }
    true
}

// Gives for each operation the set of those that stand earlier in a list, by rank.
fn earlier_rows(table: &Table, list: &[u16]) -> [OpSet; 64]
    ensures { EarlierRows table.now list.now result }
{
    let ranks = Ranks::of(table);
    let mut rows = [OpSet::empty(); 64];
    let mut seen = OpSet::empty();
    for number in list {
        if let Some(rank) = ranks.rank(*number) {
            rows[rank as usize] = rows[rank as usize].union(seen);
            seen = seen.with(rank);
        }
    }
    rows
}

impl<'a, M: MemoryModel> Clauses<'a, M> {
    /// Tells whether a list has exactly the operations that a view holds, each once.
    pub fn is_exact(&self, view: u8, list: &[u16]) -> bool
        ensures answer { Decides result (Exact (M.meaning self.now.model.now) self.now.table.now view list.now) }
        ensures formed { WellFormed self.now.table.now }
    {
        let ranks = Ranks::of(self.table);
        let held = self.model.held(self.table, view);
        let mut seen = OpSet::empty();
        for number in list {
            let Some(rank) = ranks.rank(*number) else {
                return false;
            };
            if !held.contains(rank) || seen.contains(rank) {
                return false;
            }
            seen = seen.with(rank);
        }
        has_all(seen, held)
    }

    /// Tells whether all that a view holds, and is required before an operation of a list, stands earlier in the list.
    pub fn is_ordered(&self, view: u8, list: &[u16]) -> bool
        ensures answer { Decides result (Ordered (M.meaning self.now.model.now) self.now.table.now view list.now) }
        ensures formed { WellFormed self.now.table.now }
    {
        let ranks = Ranks::of(self.table);
        let held = self.model.held(self.table, view);
        let before = self.model.before_rows(self.table);
        let mut seen = OpSet::empty();
        for number in list {
            if let Some(rank) = ranks.rank(*number) {
                if !has_all(seen, before[rank as usize].intersection(held)) {
                    return false;
                }
                seen = seen.with(rank);
            }
        }
        true
    }

    /// Tells whether writes required alike, which a view holds and another list has in some order, stand in the list in that order.
    pub fn is_agreeing(&self, view: u8, other: &[u16], list: &[u16]) -> bool
        ensures answer { Decides result (Agrees (M.meaning self.now.model.now) self.now.table.now view other.now list.now) }
        ensures formed { WellFormed self.now.table.now }
    {
        let ranks = Ranks::of(self.table);
        let held = self.model.held(self.table, view);
        let alike = self.model.alike_rows(self.table);
        let wanted = earlier_rows(self.table, other);
        let earlier = earlier_rows(self.table, list);
        for rank in 0..ranks.len() {
            let partners = alike[rank].intersection(held).intersection(wanted[rank]);
            if held.contains(rank as u8) && !has_all(earlier[rank], partners) {
                return false;
            }
        }
        true
    }
}
