//! Making the list of a trace, and looking things up in it.
ghost use Rattle.std.specs.Prelude.{◌≡◌, ◌≤◌, length, MatchOption};
ghost use Rattle.trace.specs.Traces.{WellFormed};
ghost use Rattle.ranks.specs.Numbers.{numbers, number_at, Numbers, RankOf, Unlisted};

use crate::listing::Ranks;
use fixed_list::FixedList;
use trace::table::Table;

impl Ranks {
    /// Lists the operations of a trace.
    pub fn of(table: &Table) -> Ranks
        ensures value { result ≡ numbers table.now }
        ensures facts { Numbers table.now }
        ensures formed { WellFormed table.now }
    {
        let mut numbers = FixedList::new();
        for processor in 1..table.processors() + 1 {
            let first = 100 * u16::from(processor) + 1;
            let end = first + table.lane(processor).len() as u16;
            for number in first..end {
                let _ = numbers.push(number);
            }
        }
        Ranks { numbers }
    }

    /// Gives the numbers, rising.
    pub fn as_slice(&self) -> &[u16]
        ensures value { result.now ≡ self.now }
        ensures bound { length result.now ≤ 64 }
    {
        self.numbers.as_slice()
    }

    /// Gives the number of operations.
    pub fn len(&self) -> usize
        ensures value { result ≡ length self.now }
        ensures bound { result ≤ 64 }
    {
        self.numbers.len()
    }

    /// Gives the number of the operation of a rank; 0 where there is none.
    pub fn number(&self, rank: usize) -> u16
        ensures value { result ≡ number_at self.now rank }
        ensures bound { length self.now ≤ 64 }
    {
        self.as_slice().get(rank).copied().unwrap_or(0)
    }

    /// Gives the rank of the operation of a number, where that is listed.
    pub fn rank(&self, number: u16) -> Option<u8>
        ensures place { MatchOption result (Unlisted self.now number) (RankOf self.now number) }
        ensures bound { length self.now ≤ 64 }
    {
        match self.numbers.as_slice().binary_search(&number) {
            Ok(rank) => Some(rank as u8),
            Err(_) => None,
        }
    }
}
