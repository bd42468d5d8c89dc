//! Orders under construction: the recursion that places what may stand next.
ghost use Rattle.std.specs.Prelude.{◌≡◌, ℕ, ◌+◌, ◌<◌, ◌≤◌, false, length, Decides, MatchOption, slice_index, slice_set};
ghost use Rattle.opset.specs.Sets.{Empty, Least};
ghost use Rattle.search.specs.Steps.{Reads, asks, asks_more, NoFill, Clear};
ghost use Rattle.search.specs.Views.{list_of, Ready, Says, Next, Noted, Filled};

use crate::tables::Tables;
use fixed_list::FixedList;
use opset::OpSet;
use trace::operation::{Kind, Operation};

// A view that is being filled.
#[derive(Clone, Copy)]
struct View {
    // Counted from 0.
    index: usize,
    // The place where its list begins.
    from: usize,
    // What has to stand before each operation: what the model requires, and what agrees with the views before.
    before: [OpSet; 64],
}

// Tells whether an operation, if it is a read, has the last write to its variable as its source.
fn reads_from(operation: Operation, last: u16) -> bool
    ensures { Decides result (Reads operation last) }
{
    match operation.kind {
        Kind::Read => operation.source == last,
        Kind::Write => true,
    }
}

// Tells whether an operation may stand next: nothing that has to stand before it is left, and a read sees its source.
fn is_clear(operation: Operation, before: OpSet, rest: OpSet, latest: &[u16; 17]) -> bool
    requires { operation.variable < 17 }
    ensures { Decides result (Clear operation before rest latest.now) }
{
    before.intersection(rest).is_empty()
        && reads_from(operation, latest[operation.variable as usize])
}

// The candidate to try next, by rank: the lowest.
fn next_candidate(candidates: OpSet) -> Option<u8>
    ensures { MatchOption result (Empty candidates) (Least candidates) }
{
    candidates.lowest()
}

// Puts back what stood in the last writes for the variable of an operation.
fn take_back(operation: Operation, last: u16, latest: &mut [u16; 17])
    requires { operation.variable < 17 }
    ensures { latest.new ≡ slice_set latest.old operation.variable last }
{
    latest[operation.variable as usize] = last;
}

impl View {
    // The view after this one, whose list ends where the order does.
    fn next(&self, tables: &Tables, order: &FixedList<u8, 1024>) -> View
        requires index { self.now.index + 1 < length tables.now.held }
        requires forward { self.now.from ≤ length order.now }
        requires within { (k : ℕ) → k < length (list_of self.now order.now) → slice_index (list_of self.now order.now) k < 64 }
        ensures { Next tables.now self.now order.now result }
    {
        View {
            index: self.index + 1,
            from: order.len(),
            before: tables.enlarged(&self.before, &order.as_slice()[self.from..]),
        }
    }
}

impl Tables {
    // Places the operation of a rank in the last writes, and gives what stood there for its variable.
    fn place(&self, rank: u8, latest: &mut [u16; 17]) -> u16
        requires { rank < 64 }
        ensures { Noted self.now rank latest.old result latest.new }
    {
        let operation = self.operations[rank as usize];
        let last = latest[operation.variable as usize];
        if let Kind::Write = operation.kind {
            latest[operation.variable as usize] = self.ranks.number(rank as usize);
        }
        last
    }

    // What has to stand before each operation, once a view has this list: alike operations stand in its order.
    fn enlarged(&self, before: &[OpSet; 64], list: &[u8]) -> [OpSet; 64]
        requires { (k : ℕ) → k < length list.now → slice_index list.now k < 64 }
        ensures { (i j : ℕ) → asks result i j ≡ asks_more self.now (asks before.now) list.now i j }
    {
        let mut next = *before;
        let mut seen = OpSet::empty();
        for rank in list {
            let at = *rank as usize;
            next[at] = next[at].union(self.alike[at].intersection(seen));
            seen = seen.with(*rank);
        }
        next
    }

    // Places what is left of the view at the end of the order, and then the later views, in the first way that there
    // is; tells whether there is one.
    fn fill(
        &self,
        view: &View,
        rest: OpSet,
        latest: &mut [u16; 17],
        order: &mut FixedList<u8, 1024>,
    ) -> bool
        requires { Ready self.now view.now rest latest.old order.old }
        ensures back { result ≡ false → latest.new ≡ latest.old }
        ensures says { Says self.now view.now rest order.old order.new result }
    {
        if rest.is_empty() {
            let Some(held) = self.view(view.index + 1) else {
                return true;
            };
            let next = view.next(self, order);
            let mut none = [0; 17];
            return self.fill(&next, held, &mut none, order);
        }
        let mut candidates = rest;
        while let Some(rank) = next_candidate(candidates) {
            candidates = candidates.without(rank);
            let operation = self.operations[rank as usize];
            if is_clear(operation, view.before[rank as usize], rest, latest) {
                let _ = order.push(rank);
                let last = self.place(rank, latest);
                if self.fill(view, rest.without(rank), latest, order) {
                    return true;
                }
                take_back(operation, last, latest);
                let _ = order.pop();
            }
        }
        false
    }

    // The first full lists of all views, one after another; nothing where there are none.
    pub(crate) fn first_fill(&self) -> Option<FixedList<u8, 1024>>
        ensures { MatchOption result (NoFill self.now) (Filled self.now) }
    {
        let mut order = FixedList::new();
        let Some(held) = self.view(0) else {
            return Some(order);
        };
        let first = View {
            index: 0,
            from: 0,
            before: self.before,
        };
        let mut none = [0; 17];
        if self.fill(&first, held, &mut none, &mut order) {
            Some(order)
        } else {
            None
        }
    }
}
