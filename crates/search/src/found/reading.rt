//! Reading the lists of orders.
ghost use Rattle.std.specs.Prelude.{◌≤◌, length, IfOk, IfSome, MatchOption};
ghost use Rattle.trace.specs.Operations.{Within};
ghost use Rattle.search.specs.Found.{Small, IsView, Shown};

use crate::found::{NotShown, Orders};

impl Orders {
    /// Gives the list of a view, counted from 1, where there is such a view.
    pub fn list(&self, view: u8) -> Option<&[u16]>
        ensures list { MatchOption result (Within 1 (length self.now) view → ⊥) (λ list. IsView self.now view list.now) }
        ensures bound { IfSome result (λ list. length list.now ≤ 64) }
        ensures small { Small self.now }
    {
        let lists = self.lists.as_slice();
        let place = usize::from(view).checked_sub(1)?;
        match lists.get(place) {
            Some(list) => Some(list.as_slice()),
            None => None,
        }
    }

    /// Copies the list of a view, counted from 1, into the first of the slots, and tells how many numbers it has.
    pub fn show(&self, view: u8, slots: &mut [u16]) -> Result<usize, NotShown>
        ensures shown { Shown self.now view slots.old slots.new result }
        ensures bound { IfOk result (λ n. n ≤ 64) }
        ensures small { Small self.now }
    {
        let Some(list) = self.list(view) else {
            return Err(NotShown::NoView);
        };
        if slots.len() < list.len() {
            return Err(NotShown::FewSlots);
        }
        slots[..list.len()].copy_from_slice(list);
        Ok(list.len())
    }
}
