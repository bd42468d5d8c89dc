//! The first orders that meet a model on a trace.
ghost use Rattle.std.specs.Option.{MatchOption};
ghost use Rattle.trace.specs.Traces.{WellFormed};
ghost use Rattle.orders.specs.Orders.{Legal, First};
ghost use Rattle.search.specs.Steps.{NoFill};
ghost use Rattle.search.specs.Found.{FirstFound};

use crate::found::Orders;
use crate::tables::Tables;
use models::model::MemoryModel;
use trace::table::Table;

impl Tables {
    /// Finds the first orders that the tables allow; nothing where they allow none.
    pub fn first_orders(&self) -> Option<Orders>
        ensures { MatchOption result (NoFill self.now) (λ o. FirstFound self.now o) }
    {
        let order = self.first_fill()?;
        Some(Orders::of(self, order.as_slice()))
    }
}

/// Finds the first of all orders that meet a model on a trace; nothing where there are none.
pub fn first_orders<M: MemoryModel>(model: &M, table: &Table) -> Option<Orders>
    ensures first { MatchOption result (Legal (M.meaning model.now) table.now → ⊥) (λ o. First (M.meaning model.now) table.now o) }
    ensures formed { WellFormed table.now }
{
    Tables::of(model, table).first_orders()
}
