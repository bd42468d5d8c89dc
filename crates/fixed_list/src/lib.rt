//! Lists of a fixed capacity, which lie in the value itself: they take no memory, and are copied as numbers are.
#![tactic(auto)]

ghost use Rattle.std.specs.Prelude.{⊤, ◌≡◌, ◌+◌, ◌-◌, ◌<◌, ◌≤◌, ◌↔◌, ◌∷◌, ◌++◌, [], cond, nat_le, nat_lt, min, length, take, replicate, slice_get, slice_set, IsOk};

use std::alloc::AllocError;
use std::marker::Model;

/// A type with a value for the places of a list that are not used.
pub trait Blank: Copy {
    ghost blank: { Self };

    /// Gives that value.
    fn blank() -> Self
        ensures { result ≡ blank };
}

/// A list has no room for one item more.
#[derive(Clone, Copy, PartialEq, Eq, Debug)]
pub struct Full;

/// A list of at most `N` items. Contracts see it as the list of the items.
#[derive(Copy, PartialEq, Eq)]
pub struct FixedList<T: Blank, const N: usize> {
    len: usize,
    items: [T; N],
}

impl<T: Blank, const N: usize> Model for FixedList<T, N> {
    ghost use Rattle.std.specs.Prelude.{List, length, take};
    ghost use Rattle.fixed_list.specs.Padding.{padded, Padded, used_is, places_are};

    ghost Value = { List T };

    ghost view = { λ l. take l.len l.items };

    ghost invariant = { λ l. Padded T.blank N l.len l.items };

    ghost inverse = { λ xs. record { len = length xs; items = padded T.blank N xs } };

    ghost inverse_ok = { λ l h. λ i. record { len = used_is T.blank N l.len l.items h i; items = places_are T.blank N l.len l.items h i } };
}

impl<T: Blank, const N: usize> Clone for FixedList<T, N> {
    ghost is_clone = { λ x y. y ≡ x };

    ghost is_infallible = { λ _. ⊤ };

    fn clone(&self) -> Result<Self, AllocError> {
        Ok(*self)
    }
}

impl<T: Blank, const N: usize> FixedList<T, N> {
    /// Makes a list with no items.
    pub fn new() -> Self
        ensures { result ≡ [] }
    {
        FixedList {
            len: 0,
            items: [T::blank(); N],
        }
    }

    /// Gives the items, first to last.
    #[inline]
    pub fn as_slice(&self) -> &[T]
        ensures value { result.now ≡ self.now }
        ensures bound { length result.now ≤ N }
    {
        &self.items[..self.len]
    }

    /// Makes a list that has an item so many times, or `N` times where that is more.
    pub fn repeat(item: T, count: usize) -> Self
        ensures { result ≡ replicate (min count N) item }
    {
        let mut list = FixedList::new();
        for _ in 0..count.min(N) {
            let _ = list.push(item);
        }
        list
    }

    /// Gives the number of items.
    #[inline]
    pub fn len(&self) -> usize
        ensures value { result ≡ length self.now }
        ensures bound { result ≤ N }
    {
        self.as_slice().len()
    }

    /// Puts an item at the end; a full list stays as it is.
    #[inline]
    pub fn push(&mut self, item: T) -> Result<(), Full>
        ensures answer { IsOk result ↔ (length self.old < N) }
        ensures after { self.new ≡ cond (nat_lt (length self.old) N) (self.old ++ item ∷ []) self.old }
    {
        if self.len == N {
            return Err(Full);
        }
        self.items[self.len] = item;
        self.len += 1;
        Ok(())
    }

    /// Puts items at the end, or none where there is not room for all.
    pub fn extend_from_slice(&mut self, items: &[T]) -> Result<(), Full>
        ensures answer { IsOk result ↔ (length self.old + length items.now ≤ N) }
        ensures after { self.new ≡ cond (nat_le (length self.old + length items.now) N) (self.old ++ items.now) self.old }
    {
        if N - self.len() < items.len() {
            return Err(Full);
        }
        for item in items {
            let _ = self.push(*item);
        }
        Ok(())
    }

    /// Takes the last item off, and gives it.
    #[inline]
    pub fn pop(&mut self) -> Option<T>
        ensures item { result ≡ slice_get self.old (length self.old - 1) }
        ensures after { self.new ≡ take (length self.old - 1) self.old }
    {
        if self.len == 0 {
            return None;
        }
        self.len -= 1;
        let item = self.items[self.len];
        self.items[self.len] = T::blank();
        Some(item)
    }

    /// Puts an item in the place of another, and gives that; a list without that place stays as it is.
    #[inline]
    pub fn replace(&mut self, index: usize, item: T) -> Option<T>
        ensures item { result ≡ slice_get self.old index }
        ensures after { self.new ≡ slice_set self.old index item }
    {
        if index >= self.len {
            return None;
        }
        let old = self.items[index];
        self.items[index] = item;
        Some(old)
    }
}

impl Blank for u8 {
    ghost blank = { 0 };

    fn blank() -> u8 {
        0
    }
}

impl Blank for u16 {
    ghost blank = { 0 };

    fn blank() -> u16 {
        0
    }
}

impl<T: Blank, const N: usize> Blank for FixedList<T, N> {
    ghost blank = { [] };

    fn blank() -> Self {
        FixedList::new()
    }
}

#[cfg(test)]
mod tests {
    use super::*;

    #[test]
    fn up_to_its_capacity(rt: HostRuntime) {
        let mut list: FixedList<u8, 2> = FixedList::new();
        assert_eq!(rt; list.pop(), None);
        assert_eq!(rt; list.push(5), Ok(()));
        assert_eq!(rt; list.push(6), Ok(()));
        assert_eq!(rt; list.push(7), Err(Full));
        assert_eq!(rt; list.as_slice(), [5, 6].as_slice());
        assert_eq!(rt; list.replace(1, 8), Some(6));
        assert_eq!(rt; list.replace(2, 9), None);
        assert_eq!(rt; list.pop(), Some(8));
        assert_eq!(rt; list.as_slice(), [5].as_slice());
        assert_eq!(rt; list.len(), 1);
    }

    #[test]
    fn repeated(rt: HostRuntime) {
        let full: FixedList<u16, 3> = FixedList::repeat(7, 9);
        assert_eq!(rt; full.as_slice(), [7, 7, 7].as_slice());
        let lists: FixedList<FixedList<u16, 3>, 2> = FixedList::repeat(full, 1);
        assert_eq!(rt; lists.len(), 1);
    }
}
