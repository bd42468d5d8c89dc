//! The calls that make a trace. Each looks into the table at its end, which tells that the trace is well-formed.
ghost use Rattle.std.specs.Prelude.{◌≡◌, ◌≤◌, cond, Ok, Err};
ghost use Rattle.trace.specs.Operations.{Within, within, number, kind_number, is_position, source_fits};
ghost use Rattle.trace.specs.Refusals.{answered};
ghost use Rattle.trace.specs.Tables.{Kept};
ghost use Rattle.trace.specs.Traces.{processor_count, lane_at, empty_trace, WellFormed};
ghost use Rattle.trace.specs.Calls.{size_answer, size_after, record_answer, record_after, strike_answer, strike_after, with_lane};
ghost use Rattle.trace.specs.declared.refusal.Refusal.TheVariants as refused;

use crate::operation::{Kind, Operation};
use crate::refusal::{Refusal, answer};
use crate::table::{Lane, Table};
use fixed_list::FixedList;

// The number of the operation at a position of a processor.
fn number_of(processor: u8, position: usize) -> u16
    requires { position ≤ 99 }
    ensures { result ≡ number processor position }
{
    100 * u16::from(processor) + position as u16
}

impl Table {
    /// Makes a fresh table: one processor, one variable and no operations.
    pub fn new() -> Table
        ensures value { result ≡ empty_trace 1 1 }
        ensures formed { WellFormed result }
    {
        Table::empty(1, 1)
    }

    fn empty(processors: u8, variables: u8) -> Table
        requires processors { Within 1 8 processors }
        requires variables { Within 1 16 variables }
        ensures { result ≡ empty_trace processors variables }
    {
        Table {
            variables,
            total: 0,
            lanes: FixedList::repeat(FixedList::new(), usize::from(processors)),
        }
    }

    /// Sets the number of processors and of variables, while nothing is recorded.
    pub fn size(&mut self, processors: u8, variables: u8) -> (u8, u16)
        ensures answer { result ≡ size_answer self.old processors variables }
        ensures after { self.new ≡ size_after self.old processors variables }
        ensures formed { WellFormed self.new }
    {
        let outcome = self.resize(processors, variables);
        let _ = &self.total;
        answer(outcome)
    }

    fn resize(&mut self, processors: u8, variables: u8) -> Result<u16, Refusal>
        ensures answer { answered result ≡ size_answer self.old processors variables }
        ensures after { self.new ≡ size_after self.old processors variables }
    {
        if !(1..=8).contains(&processors) || !(1..=16).contains(&variables) {
            return Err(Refusal::Size);
        }
        if self.total != 0 {
            return Err(Refusal::Recorded);
        }
        *self = Table::empty(processors, variables);
        Ok(0)
    }

    // Whether there is such a processor.
    fn has_processor(&self, processor: usize) -> bool
        ensures { result ≡ within 1 (processor_count self.now) processor }
    {
        (1..=self.lanes.len()).contains(&processor)
    }

    // Whether the number names a position of one of the processors, recorded or not.
    fn names_position(&self, number: u16) -> bool
        ensures { result ≡ is_position (processor_count self.now) number }
    {
        self.has_processor(usize::from(number / 100)) && (1..=64).contains(&(number % 100))
    }

    fn admits_source(&self, kind: Kind, source: u16) -> bool
        ensures { result ≡ source_fits (processor_count self.now) (kind_number kind) source }
    {
        match kind {
            Kind::Read => source == 0 || self.names_position(source),
            Kind::Write => source == 0,
        }
    }

    // The lane of a processor, to be changed and put back.
    fn take_lane(&self, processor: u8) -> Result<Lane, Refusal>
        ensures { result ≡ cond (within 1 (processor_count self.now) processor) (Ok (lane_at self.now processor)) (Err refused.Processor) }
    {
        let place = usize::from(processor)
            .checked_sub(1)
            .ok_or(Refusal::Processor)?;
        self.lanes
            .as_slice()
            .get(place)
            .copied()
            .ok_or(Refusal::Processor)
    }

    fn put(&mut self, processor: u8, lane: Lane, total: usize)
        requires processor { Within 1 (processor_count self.old) processor }
        requires kept { Kept total (with_lane self.old processor lane) }
        ensures { self.new ≡ with_lane self.old processor lane }
    {
        self.lanes.replace(usize::from(processor) - 1, lane);
        self.total = total;
    }

    /// Records an operation at the end of a processor, and answers its number.
    pub fn record(
        &mut self,
        processor: u8,
        kind: u8,
        variable: u8,
        source: u16,
        value: u32,
    ) -> (u8, u16)
        ensures answer { result ≡ record_answer self.old processor kind variable source }
        ensures after { self.new ≡ record_after self.old processor kind variable source value }
        ensures formed { WellFormed self.new }
    {
        let outcome = self.add(processor, kind, variable, source, value);
        let _ = &self.total;
        answer(outcome)
    }

    fn add(
        &mut self,
        processor: u8,
        kind: u8,
        variable: u8,
        source: u16,
        value: u32,
    ) -> Result<u16, Refusal>
        ensures answer { answered result ≡ record_answer self.old processor kind variable source }
        ensures after { self.new ≡ record_after self.old processor kind variable source value }
    {
        if !self.has_processor(usize::from(processor)) {
            return Err(Refusal::Processor);
        }
        let kind = Kind::try_from(kind)?;
        if !(1..=self.variables).contains(&variable) {
            return Err(Refusal::Variable);
        }
        if !self.admits_source(kind, source) {
            return Err(Refusal::Source);
        }
        if self.total >= 64 {
            return Err(Refusal::Full);
        }
        let operation = Operation {
            kind,
            variable,
            source,
            value,
        };
        let mut lane = self.take_lane(processor)?;
        let position = lane.len() + 1;
        let _ = lane.push(operation);
        self.put(processor, lane, self.total + 1);
        Ok(number_of(processor, position))
    }

    /// Removes the last operation of a processor, and answers its number.
    pub fn strike(&mut self, processor: u8) -> (u8, u16)
        ensures answer { result ≡ strike_answer self.old processor }
        ensures after { self.new ≡ strike_after self.old processor }
        ensures formed { WellFormed self.new }
    {
        let outcome = self.remove_last(processor);
        let _ = &self.total;
        answer(outcome)
    }

    fn remove_last(&mut self, processor: u8) -> Result<u16, Refusal>
        ensures answer { answered result ≡ strike_answer self.old processor }
        ensures after { self.new ≡ strike_after self.old processor }
    {
        let mut lane = self.take_lane(processor)?;
        let position = lane.len();
        if lane.pop().is_none() {
            return Err(Refusal::Nothing);
        }
        self.put(processor, lane, self.total - 1);
        Ok(number_of(processor, position))
    }
}
