//! A set of up to 64 operations, held in one word.
#![tactic(auto)]

ghost use Rattle.std.specs.Prelude.{◌≡◌, ℕ, ◌≤◌, min, false, not, ◌&&◌, ◌||◌, List, length, Decides, MatchOption, ◌==◌, nat_lt};
ghost use Rattle.opset.specs.Sets.{has, members, size, Empty, Subset, Least, Listed};

use fixed_list::Blank;

/// A set of operations, each named by its index, from 0 to 63.
#[derive(Clone, Copy, PartialEq, Eq, Debug)]
pub struct OpSet(u64);

impl Blank for OpSet {
    ghost blank = { record { 0 = 0 } };

    fn blank() -> OpSet {
        Self(0)
    }
}

impl OpSet {
    /// Returns the set with no members.
    pub fn empty() -> OpSet
        ensures { Empty result }
    {
        OpSet(0)
    }

    /// Returns the set of the first `n` indexes, or of all 64 where `n` is more.
    pub fn below(n: u8) -> OpSet
        ensures { (k : ℕ) → has result k ≡ nat_lt k (min n 64) }
    {
        if n < 64 {
            OpSet((1 << n) - 1)
        } else {
            OpSet(u64::MAX)
        }
    }

    /// Tells whether index `i` is in the set; an index of 64 or more is in no set.
    pub fn contains(self, i: u8) -> bool
        ensures answer { result ≡ has self i }
        ensures past { 64 ≤ i → result ≡ false }
    {
        i < 64 && (self.0 >> i) & 1 == 1
    }

    /// Returns the set with index `i` put in; an index of 64 or more leaves it as it is.
    pub fn with(self, i: u8) -> OpSet
        ensures holds { (k : ℕ) → has result k ≡ (has self k || (k == i && nat_lt i 64)) }
        ensures past { 64 ≤ i → result ≡ self }
    {
        if i < 64 {
            OpSet(self.0 | (1 << i))
        } else {
            self
        }
    }

    /// Returns the set with index `i` taken out; an index of 64 or more leaves it as it is.
    pub fn without(self, i: u8) -> OpSet
        ensures holds { (k : ℕ) → has result k ≡ (has self k && not (k == i)) }
        ensures past { 64 ≤ i → result ≡ self }
    {
        if i < 64 {
            OpSet(self.0 & !(1 << i))
        } else {
            self
        }
    }

    /// Returns the set of what is in either set.
    pub fn union(self, other: OpSet) -> OpSet
        ensures { (k : ℕ) → has result k ≡ (has self k || has other k) }
    {
        OpSet(self.0 | other.0)
    }

    /// Returns the set of what is in both sets.
    pub fn intersection(self, other: OpSet) -> OpSet
        ensures { (k : ℕ) → has result k ≡ (has self k && has other k) }
    {
        OpSet(self.0 & other.0)
    }

    /// Returns the set of what is in this set and not in the other.
    pub fn difference(self, other: OpSet) -> OpSet
        ensures { (k : ℕ) → has result k ≡ (has self k && not (has other k)) }
    {
        OpSet(self.0 & !other.0)
    }

    /// Tells whether all that is in this set is in the other.
    pub fn is_subset(self, other: OpSet) -> bool
        ensures { Decides result (Subset self other) }
    {
        self.0 & !other.0 == 0
    }

    /// Tells whether the set has no members.
    pub fn is_empty(self) -> bool
        ensures { Decides result (Empty self) }
    {
        self.0 == 0
    }

    /// Returns the lowest index in the set, or nothing where the set is empty.
    pub fn lowest(self) -> Option<u8>
        ensures { MatchOption result (Empty self) (Least self) }
    {
        if self.is_empty() {
            None
        } else {
            Some(self.0.trailing_zeros() as u8)
        }
    }

    /// Returns how many indexes are in the set.
    pub fn len(self) -> usize
        ensures value { result ≡ length (members self) }
        ensures bound { result ≤ 64 }
        ensures sized { result ≡ size self }
        ensures listed { (list : List ℕ) → Listed self list → result ≡ length list }
    {
        self.0.count_ones() as usize
    }
}

#[cfg(test)]
mod tests {
    use super::*;

    #[test]
    fn edges(rt: HostRuntime) {
        let ends = OpSet::empty().with(0).with(63).with(64);
        assert_eq!(rt; ends, OpSet(0x8000_0000_0000_0001));
        assert!(rt; ends.contains(63));
        assert!(rt; !ends.contains(64));
        assert_eq!(rt; ends.without(64).without(0), OpSet(0x8000_0000_0000_0000));
    }

    #[test]
    fn empty_and_full(rt: HostRuntime) {
        let full = OpSet::below(200);
        assert_eq!(rt; full, OpSet::below(64));
        assert_eq!(rt; full.len(), 64);
        assert_eq!(rt; OpSet::below(0).lowest(), None);
        assert_eq!(rt; OpSet::empty().len(), 0);
        assert!(rt; OpSet::empty().is_empty());
    }

    #[test]
    fn pairs(rt: HostRuntime) {
        let low = OpSet::below(4);
        let even = OpSet::empty().with(2).with(4).with(6);
        assert_eq!(rt; low.union(even), OpSet(0b101_1111));
        assert_eq!(rt; low.intersection(even), OpSet(0b100));
        assert_eq!(rt; low.difference(even), OpSet(0b1011));
        assert!(rt; !even.is_subset(low));
        assert_eq!(rt; even.lowest(), Some(2));
        assert_eq!(rt; even.len(), 3);
    }
}
