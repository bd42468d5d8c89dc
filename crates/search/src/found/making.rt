//! Making orders of what the search has placed.
ghost use Rattle.std.specs.Prelude.{◌≡◌, ◌≤◌, map, length};
ghost use Rattle.search.specs.Steps.{views_of, number_of, cut, total};

use crate::found::{Numbers, Orders};
use crate::tables::Tables;
use fixed_list::FixedList;

impl Tables {
    // The numbers of some ranks.
    fn numbers_of(&self, ranks: &[u8]) -> Numbers
        requires { length ranks.now ≤ 64 }
        ensures { result ≡ map (number_of self.now) ranks.now }
    {
        let mut numbers = FixedList::new();
        for rank in ranks {
            let _ = numbers.push(self.ranks.number(usize::from(*rank)));
        }
        numbers
    }
}

impl Orders {
    // The orders that the ranks in each place say: each view's list begins where the one before it ends.
    pub(crate) fn of(tables: &Tables, order: &[u8]) -> Orders
        requires { total tables.now.held ≤ length order.now }
        ensures { result ≡ map (map (number_of tables.now)) (cut (views_of tables.now) order.now) }
    {
        let mut lists = FixedList::new();
        let mut rest = order;
        for held in tables.held.as_slice() {
            let (list, after) = rest.split_at(held.len());
            let _ = lists.push(tables.numbers_of(list));
            rest = after;
        }
        Orders { lists }
    }
}
