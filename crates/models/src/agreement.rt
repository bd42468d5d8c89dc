//! Agreement on writes: a layer that has all views put the writes of a variable in one order.
ghost use Rattle.std.specs.Prelude.{Decides};
ghost use Rattle.models.specs.Layers.{SameVariable, agreement, HoldsWrites, agreement_laws};
ghost use Rattle.models.specs.Writes.{sequential_every, pram_every, write_into_every, agreement_every};

use crate::model::MemoryModel;
use crate::pram::Pram;
use crate::sequential::Sequential;
use crate::write_into::WriteInto;
use opset::OpSet;
use trace::operation::Kind;
use trace::table::Table;

/// Agreement on writes over a model: every two writes of one variable are required alike as well.
#[derive(Clone, Copy)]
pub struct Agreement<M> {
    pub below: M,
}

// Whether both are writes, different ones, of one variable.
fn same_variable(table: &Table, one: u16, other: u16) -> bool
    ensures { Decides result (SameVariable table.now one other) }
{
    if one == other {
        return false;
    }
    match (table.operation(one), table.operation(other)) {
        (Some(first), Some(second)) => {
            first.kind == Kind::Write
                && second.kind == Kind::Write
                && first.variable == second.variable
        }
        _ => false,
    }
}

/// A model whose every view holds every write.
pub trait EveryWrite: MemoryModel {
    ghost every: { (m : Self) → HoldsWrites (Self.MemoryModel.meaning m) };
}

impl EveryWrite for Sequential {
    ghost every = { λ _. sequential_every };
}

impl EveryWrite for Pram {
    ghost every = { λ _. pram_every };
}

impl<M: EveryWrite> EveryWrite for WriteInto<M> {
    ghost every = { λ f. write_into_every (M.MemoryModel.meaning f.below) (M.EveryWrite.every f.below) };
}

impl<M: EveryWrite> EveryWrite for Agreement<M> {
    ghost every = { λ a. agreement_every (M.MemoryModel.meaning a.below) (M.EveryWrite.every a.below) };
}

impl<M: EveryWrite> MemoryModel for Agreement<M> {
    ghost meaning = { λ a. agreement (M.MemoryModel.meaning a.below) };

    ghost laws = { λ a. agreement_laws (M.MemoryModel.meaning a.below) (M.MemoryModel.laws a.below) };

    fn views(&self, processors: u8, variables: u8) -> u8 {
        self.below.views(processors, variables)
    }

    fn holds(&self, table: &Table, view: u8, number: u16) -> bool {
        self.below.holds(table, view, number)
    }

    fn before(&self, table: &Table, first: u16, second: u16) -> bool {
        self.below.before(table, first, second)
    }

    fn alike(&self, table: &Table, one: u16, other: u16) -> bool {
        self.below.alike(table, one, other) || same_variable(table, one, other)
    }

    fn held(&self, table: &Table, view: u8) -> OpSet {
        self.below.held(table, view)
    }

    fn before_row(&self, table: &Table, number: u16) -> OpSet {
        self.below.before_row(table, number)
    }

    fn before_rows(&self, table: &Table) -> [OpSet; 64] {
        self.below.before_rows(table)
    }
}
