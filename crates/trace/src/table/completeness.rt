//! Whether every read saw what its source says.
ghost use Rattle.std.specs.Prelude.{◌≡◌, Decides, ◌==◌, ◌≢◌};
ghost use Rattle.trace.specs.Refusals.{number_told};
ghost use Rattle.trace.specs.Traces.{Complete, WellFormed};
ghost use Rattle.trace.specs.Completeness.{source_refusal, refusal_at, completeness_answer, FirstUnfit};

use crate::operation::{Kind, Operation};
use crate::refusal::SourceFault;
use crate::table::Table;

impl Table {
    // What is wrong with the source of a read, if anything.
    fn source_fault(&self, read: Operation) -> Option<SourceFault>
        ensures { number_told result ≡ source_refusal self.now read }
    {
        if read.source == 0 {
            return if read.value == self.starting_value(read.variable) {
                None
            } else {
                Some(SourceFault::Value)
            };
        }
        let Some(source) = self.operation(read.source) else {
            return Some(SourceFault::NoWrite);
        };
        match source.kind {
            Kind::Read => Some(SourceFault::NoWrite),
            Kind::Write if source.variable != read.variable => Some(SourceFault::Variable),
            Kind::Write if source.value != read.value => Some(SourceFault::Value),
            Kind::Write => None,
        }
    }

    // The same of whatever stands at a number.
    fn fault_at(&self, number: u16) -> Option<SourceFault>
        ensures { number_told result ≡ refusal_at self.now number }
    {
        match self.operation(number) {
            Some(operation) if operation.kind == Kind::Read => self.source_fault(operation),
            _ => None,
        }
    }

    /// Finds the first read, by rising number, whose source does not fit: its refusal and its number, or 0 and 0.
    pub fn completeness(&self) -> (u8, u16)
        ensures answer { result ≡ completeness_answer self.now }
        ensures complete { Decides (result.0 == 0) (Complete self.now) }
        ensures formed { WellFormed self.now }
        ensures first { (result.0 ≢ 0) → FirstUnfit self.now result.0 result.1 }
    {
        let end = 101 + 100 * u16::from(self.processors());
        for number in 101..end {
            if let Some(fault) = self.fault_at(number) {
                return (u8::from(fault), number);
            }
        }
        (0, 0)
    }
}
