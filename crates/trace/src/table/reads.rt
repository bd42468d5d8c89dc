//! What a table holds. Each function looks into the table, which tells that the trace is well-formed, whatever calls made it.
ghost use Rattle.std.specs.Prelude.{◌≡◌};
ghost use Rattle.trace.specs.Traces.{processor_count, operation_count, starting_value, lane_at, operation_at, WellFormed};

use crate::operation::Operation;
use crate::table::Table;

impl Table {
    /// Gives the number of processors.
    pub fn processors(&self) -> u8
        ensures value { result ≡ processor_count self.now }
        ensures formed { WellFormed self.now }
    {
        self.lanes.len() as u8
    }

    /// Gives the number of variables.
    pub fn variables(&self) -> u8
        ensures value { result ≡ self.now.variables }
        ensures formed { WellFormed self.now }
    {
        self.variables
    }

    /// Gives the number of operations, over all processors.
    pub fn total(&self) -> usize
        ensures value { result ≡ operation_count self.now }
        ensures formed { WellFormed self.now }
    {
        self.total
    }

    // The operations of a processor, which may be any number.
    #[inline]
    pub(crate) fn lane_at(&self, processor: usize) -> &[Operation]
        ensures { result.now ≡ lane_at self.now processor }
    {
        let Some(place) = processor.checked_sub(1) else {
            return &[];
        };
        match self.lanes.as_slice().get(place) {
            Some(lane) => lane.as_slice(),
            None => &[],
        }
    }

    /// Gives the operations of a processor, first to last; none where there is no such processor.
    pub fn lane(&self, processor: u8) -> &[Operation]
        ensures value { result.now ≡ lane_at self.now processor }
        ensures formed { WellFormed self.now }
    {
        let _ = &self.lanes;
        self.lane_at(usize::from(processor))
    }

    // The operation of a number, where there is one.
    #[inline]
    fn find(&self, number: u16) -> Option<Operation>
        ensures { result ≡ operation_at self.now number }
    {
        let place = usize::from(number % 100).checked_sub(1)?;
        self.lane_at(usize::from(number / 100)).get(place).copied()
    }

    /// Gives the operation of a number, where there is one.
    pub fn operation(&self, number: u16) -> Option<Operation>
        ensures value { result ≡ operation_at self.now number }
        ensures formed { WellFormed self.now }
    {
        let _ = &self.lanes;
        self.find(number)
    }

    /// Gives the value that a variable has before any write.
    pub fn starting_value(&self, variable: u8) -> u32
        ensures value { result ≡ starting_value self.now variable }
        ensures formed { WellFormed self.now }
    {
        let _ = &self.lanes;
        let _ = variable;
        0
    }
}
