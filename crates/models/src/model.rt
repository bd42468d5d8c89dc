//! The interface that every model is reached through.
ghost use Rattle.std.specs.Prelude.{◌≡◌, Decides};
ghost use Rattle.ranks.specs.Numbers.{numbers};
ghost use Rattle.models.specs.Meaning.{Meaning, Laws};
ghost use Rattle.models.specs.Rows.{Row, Rows};

use crate::ranked::{ranks_where, rows_of};
use opset::OpSet;
use trace::table::Table;

/// A memory model, by four questions about a trace; each answers its fact, and no for what is not there.
pub trait MemoryModel {
    /// What the model means: how many views there are, what each holds, and what is required before and alike.
    ghost meaning: { Self → Meaning };

    /// What every model owes.
    ghost laws: { (m : Self) → Laws (meaning m) };

    /// Tells how many views there are; they are numbered from 1.
    fn views(&self, processors: u8, variables: u8) -> u8
        ensures { result ≡ (meaning self.now).views processors variables };

    /// Tells whether a view holds an operation.
    fn holds(&self, table: &Table, view: u8, number: u16) -> bool
        ensures { Decides result ((meaning self.now).holds table.now view number) };

    /// Tells whether one operation is required before another.
    fn before(&self, table: &Table, first: u16, second: u16) -> bool
        ensures { Decides result ((meaning self.now).before table.now first second) };

    /// Tells whether two writes are required alike.
    fn alike(&self, table: &Table, one: u16, other: u16) -> bool
        ensures { Decides result ((meaning self.now).alike table.now one other) };

    /// Gives the set of operations, by rank, that a view holds.
    fn held(&self, table: &Table, view: u8) -> OpSet
        ensures { Row ((meaning self.now).holds table.now view) (numbers table.now) result }
    {
        ranks_where(table, |number| self.holds(table, view, number))
    }

    /// Gives the set of operations, by rank, that are required before an operation.
    fn before_row(&self, table: &Table, number: u16) -> OpSet
        ensures { Row (λ i. (meaning self.now).before table.now i number) (numbers table.now) result }
    {
        ranks_where(table, |first| self.before(table, first, number))
    }

    /// Gives that set for every operation at once, by rank.
    fn before_rows(&self, table: &Table) -> [OpSet; 64]
        ensures { Rows ((meaning self.now).before table.now) (numbers table.now) result }
    {
        rows_of(table, |number| self.before_row(table, number))
    }

    /// Gives the set of operations, by rank, that are required alike to an operation.
    fn alike_row(&self, table: &Table, number: u16) -> OpSet
        ensures { Row (λ i. (meaning self.now).alike table.now i number) (numbers table.now) result }
    {
        ranks_where(table, |one| self.alike(table, one, number))
    }

    /// Gives that set for every operation at once, by rank.
    fn alike_rows(&self, table: &Table) -> [OpSet; 64]
        ensures { Rows ((meaning self.now).alike table.now) (numbers table.now) result }
    {
        rows_of(table, |number| self.alike_row(table, number))
    }
}
