//! The calls that change a judge's trace; each that is accepted ends a standing verdict.
ghost use Rattle.std.specs.Prelude.{◌≡◌};
ghost use Rattle.std.specs.Fn.{FnOnceReturnsAtMut};
ghost use Rattle.trace.specs.Calls.{size_answer, size_after, record_answer, record_after, strike_answer, strike_after};
ghost use Rattle.trace_file.specs.Reading.{read_file, load_answer, load_after};
ghost use Rattle.trace_file.specs.Made.{change_answer, changed};
ghost use Rattle.judge.specs.Seen.{Sound, moved};
ghost use Rattle.judge.specs.States.{fresh, replaced};

use crate::judging::Judge;
use models::model::MemoryModel;
use trace::table::Table;
use trace_file::changes::{Change, apply};
use trace_file::reader::load;

impl<M: MemoryModel> Judge<M> {
    /// Makes a judge of one processor, one variable and no operations, on which no verdict stands.
    pub fn new(model: M) -> Judge<M>
        ensures value { result ≡ record { model = model; state = fresh } }
        ensures sound { Sound result.state }
    {
        Judge {
            model,
            table: Table::new(),
            first: None,
        }
    }

    // Makes a call on the table, and ends a standing verdict where it is accepted.
    fn alter<F: FnOnce(&mut Table) -> (u8, u16)>(&mut self, call: F) -> (u8, u16)
        requires { F.IsAlwaysCallable call }
        ensures called { FnOnceReturnsAtMut F.FnOnce call self.old.state.trace result self.new.state.trace }
        ensures after { self.new ≡ moved self.old (replaced self.old.state result.0 self.new.state.trace) }
        ensures sound { Sound self.new.state }
    {
        let answer = call(&mut self.table);
        if let (0, _) = answer {
            self.first = None;
        }
        self.look();
        answer
    }

    /// Sets the numbers of processors and of variables.
    pub fn size(&mut self, processors: u8, variables: u8) -> (u8, u16)
        ensures answer { result ≡ size_answer self.old.state.trace processors variables }
        ensures after { self.new ≡ moved self.old (replaced self.old.state result.0 (size_after self.old.state.trace processors variables)) }
        ensures sound { Sound self.new.state }
    {
        self.alter(|table| table.size(processors, variables))
    }

    /// Adds an operation at the end of a processor, and answers its number.
    pub fn record(
        &mut self,
        processor: u8,
        kind: u8,
        variable: u8,
        source: u16,
        value: u32,
    ) -> (u8, u16)
        ensures answer { result ≡ record_answer self.old.state.trace processor kind variable source }
        ensures after { self.new ≡ moved self.old (replaced self.old.state result.0 (record_after self.old.state.trace processor kind variable source value)) }
        ensures sound { Sound self.new.state }
    {
        self.alter(|table| table.record(processor, kind, variable, source, value))
    }

    /// Removes the last operation of a processor, and answers its number.
    pub fn strike(&mut self, processor: u8) -> (u8, u16)
        ensures answer { result ≡ strike_answer self.old.state.trace processor }
        ensures after { self.new ≡ moved self.old (replaced self.old.state result.0 (strike_after self.old.state.trace processor)) }
        ensures sound { Sound self.new.state }
    {
        self.alter(|table| table.strike(processor))
    }

    /// Replaces the trace by a file's, and answers how many operations it has.
    pub fn load(&mut self, bytes: &[u8]) -> (u8, u16)
        ensures answer { result ≡ load_answer (read_file bytes.now) }
        ensures after { self.new ≡ moved self.old (replaced self.old.state result.0 (load_after self.old.state.trace (read_file bytes.now))) }
        ensures sound { Sound self.new.state }
    {
        self.alter(|table| load(table, bytes))
    }

    // Makes a change that is given as a value.
    pub(crate) fn change(&mut self, change: &Change) -> (u8, u16)
        ensures answer { result ≡ change_answer self.old.state.trace change.now }
        ensures after { self.new ≡ moved self.old (replaced self.old.state result.0 (changed self.old.state.trace change.now)) }
        ensures sound { Sound self.new.state }
    {
        self.alter(|table| apply(table, change))
    }
}
