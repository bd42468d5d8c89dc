//! All that the search asks of a model and a trace, by rank.
ghost use Rattle.std.specs.Prelude.{◌≡◌, ℕ, ◌<◌, ◌≤◌, true, length};
ghost use Rattle.opset.specs.Sets.{has, size};
ghost use Rattle.models.specs.Rows.{row_at};
ghost use Rattle.search.specs.Filling.{operation_of};

use fixed_list::FixedList;
use opset::OpSet;
use ranks::listing::Ranks;
use trace::operation::Operation;

mod filling;

/// What each view holds, and what is required of each operation: sets of ranks, and the operations by rank.
#[derive(Clone, Copy)]
pub struct Tables {
    pub(crate) ranks: Ranks,
    // What each view holds, from view 1 on.
    pub(crate) held: FixedList<OpSet, 16>,
    // What is required before each operation, and alike to it.
    pub(crate) before: [OpSet; 64],
    pub(crate) alike: [OpSet; 64],
    pub(crate) operations: [Operation; 64],
    ghost listed: { length ranks ≤ 64 },
    ghost few: { length held ≤ 16 },
    ghost within: { (k i : ℕ) → has (row_at held k) i ≡ true → i < 64 },
    ghost sized: { (k : ℕ) → size (row_at held k) ≤ 64 },
    ghost small: { (r : ℕ) → (operation_of operations r).variable < 17 },
}
