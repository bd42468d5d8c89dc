//! The orders that a search has found.
ghost use Rattle.std.specs.Prelude.{◌≡◌};
ghost use Rattle.search.specs.Refusals.{not_shown_number};

use fixed_list::FixedList;
use std::marker::Model;

mod making;
mod reading;

// The numbers of a view's operations.
type Numbers = FixedList<u16, 64>;

/// Orders of a trace's operations: for each view a list of their numbers. Contracts see them as the lists.
#[derive(Clone, Copy)]
pub struct Orders {
    lists: FixedList<Numbers, 16>,
}

impl Model for Orders {
    ghost use Rattle.std.specs.Prelude.{ℕ, List};
    ghost use Rattle.search.specs.Found.{Small};

    ghost Value = { List (List ℕ) };

    ghost view = { λ o. o.lists };

    ghost invariant = { λ o. Small o.lists };

    ghost inverse = { λ lists. record { lists = lists } };
}

/// Why the list of a view is not shown.
#[derive(Clone, Copy, PartialEq, Eq, Debug)]
pub enum NotShown {
    /// There is no such view.
    NoView = 13,
    /// The list has more numbers than there are slots.
    FewSlots = 14,
}

// The number of a refusal.
impl From<NotShown> for u8 {
    ghost from_gives = { λ w n. n ≡ not_shown_number w };

    fn from(why: NotShown) -> u8 {
        why as u8
    }
}
