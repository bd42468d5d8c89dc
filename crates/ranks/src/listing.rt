//! A list of the numbers of a trace's operations, rising.
use fixed_list::FixedList;
use std::marker::Model;

mod methods;

/// The numbers of a trace's operations, rising. Contracts see them as the list.
#[derive(Clone, Copy)]
pub struct Ranks {
    numbers: FixedList<u16, 64>,
}

impl Model for Ranks {
    ghost use Rattle.std.specs.Prelude.{ℕ, List};
    ghost use Rattle.ranks.specs.Numbers.{Rising};

    ghost Value = { List ℕ };

    ghost view = { λ r. r.numbers };

    ghost invariant = { λ r. Rising r.numbers };

    ghost inverse = { λ list. record { numbers = list } };
}
