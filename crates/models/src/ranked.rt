//! What is asked of every operation of a trace, by rank.
ghost use Rattle.std.specs.Prelude.{ℕ, ◌<◌};
ghost use Rattle.opset.specs.Sets.{has};
ghost use Rattle.ranks.specs.Numbers.{numbers, number_at};
ghost use Rattle.models.specs.Rows.{row_at};

use opset::OpSet;
use ranks::listing::Ranks;
use std::array;
use trace::table::Table;

// The ranks whose numbers pass a test.
pub(crate) fn ranks_where<F: Fn(u16) -> bool>(table: &Table, test: F) -> OpSet
    requires { F.IsAlwaysCallable test }
    ensures { (i : ℕ) → i < 64 → F.post test (number_at (numbers table.now) i) (has result i) }
{
    let ranks = Ranks::of(table);
    (0..64u8)
        .filter(|rank| test(ranks.number(usize::from(*rank))))
        .fold(OpSet::empty(), OpSet::with)
}

// The rows that a function gives of the numbers, by rank.
pub(crate) fn rows_of<F: Fn(u16) -> OpSet>(table: &Table, row: F) -> [OpSet; 64]
    requires { F.IsAlwaysCallable row }
    ensures { (j : ℕ) → j < 64 → F.post row (number_at (numbers table.now) j) (row_at result j) }
{
    let ranks = Ranks::of(table);
    array::from_fn(|rank| row(ranks.number(rank)))
}
