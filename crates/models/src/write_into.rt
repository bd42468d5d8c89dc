//! Write-into order: a layer that puts each write before the reads that name it, and closes the order.
ghost use Rattle.std.specs.Prelude.{ℕ, MatchOption};
ghost use Rattle.ranks.specs.Numbers.{numbers, Numbers};
ghost use Rattle.models.specs.Rows.{Added};
ghost use Rattle.models.specs.Layers.{Names, write_into, write_into_laws};

use crate::closure::close;
use crate::model::MemoryModel;
use opset::OpSet;
use ranks::listing::Ranks;
use trace::operation::Kind;
use trace::table::Table;

/// Write-into order over a model: what that requires, and each write before the reads that name it, closed.
#[derive(Clone, Copy)]
pub struct WriteInto<M> {
    pub below: M,
}

// The write that a read names; nothing where the operation is no read, or its source no write.
fn named(table: &Table, number: u16) -> Option<u16>
    ensures { MatchOption result ((w : ℕ) → Names table.now w number → ⊥) (λ w. Names table.now w number) }
{
    let read = table.operation(number)?;
    let write = table.operation(read.source)?;
    (read.kind == Kind::Read && write.kind == Kind::Write).then_some(read.source)
}

// Adds to each row the write that its operation names, where it is a read.
fn add_named(table: &Table, rows: &mut [OpSet; 64])
    ensures added { Added (λ i j. Names table.now i j) (numbers table.now) rows.old rows.new }
    ensures facts { Numbers table.now }
{
    let ranks = Ranks::of(table);
    for (rank, row) in rows.iter_mut().enumerate() {
        let write = named(table, ranks.number(rank)).and_then(|write| ranks.rank(write));
        if let Some(write) = write {
            *row = row.with(write);
        }
    }
}

impl<M: MemoryModel> MemoryModel for WriteInto<M> {
    ghost meaning = { λ f. write_into (M.MemoryModel.meaning f.below) };

    ghost laws = { λ f. write_into_laws (M.MemoryModel.meaning f.below) (M.MemoryModel.laws f.below) };

    fn views(&self, processors: u8, variables: u8) -> u8 {
        self.below.views(processors, variables)
    }

    fn holds(&self, table: &Table, view: u8, number: u16) -> bool {
        self.below.holds(table, view, number)
    }

    fn before(&self, table: &Table, first: u16, second: u16) -> bool {
        Ranks::of(table)
            .rank(first)
            .is_some_and(|rank| self.before_row(table, second).contains(rank))
    }

    fn alike(&self, table: &Table, one: u16, other: u16) -> bool {
        self.below.alike(table, one, other)
    }

    fn held(&self, table: &Table, view: u8) -> OpSet {
        self.below.held(table, view)
    }

    fn before_row(&self, table: &Table, number: u16) -> OpSet {
        match Ranks::of(table).rank(number) {
            Some(rank) => self.before_rows(table)[rank as usize],
            None => OpSet::empty(),
        }
    }

    fn before_rows(&self, table: &Table) -> [OpSet; 64] {
        let mut rows = self.below.before_rows(table);
        add_named(table, &mut rows);
        close(&mut rows);
        rows
    }

    fn alike_row(&self, table: &Table, number: u16) -> OpSet {
        self.below.alike_row(table, number)
    }

    fn alike_rows(&self, table: &Table) -> [OpSet; 64] {
        self.below.alike_rows(table)
    }
}
