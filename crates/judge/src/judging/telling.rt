//! The calls that tell of a judge's trace: the verdict, the lists of views, the inspection of orders, and the file.
ghost use Rattle.std.specs.Prelude.{◌≡◌, ℕ, ◌≤◌, length};
ghost use Rattle.orders.specs.Inspecting.{Inspected};
ghost use Rattle.trace_file.specs.Writing.{save_answer, save_after};
ghost use Rattle.judge.specs.Seen.{Sound, moved};
ghost use Rattle.judge.specs.States.{Judging, Showing};

use crate::judging::Judge;
use models::model::MemoryModel;
use orders::inspection::inspect;
use search::first::first_orders;
use trace_file::writer::save;

impl<M: MemoryModel> Judge<M> {
    // Looks into the judge, which tells what each of them keeps.
    #[inline]
    pub(crate) fn look(&self)
        ensures { Sound self.now.state }
    {
        let _ = self.table.total();
        if let Some(orders) = &self.first {
            let _ = orders.list(1);
        }
    }

    /// Judges the trace: 1 where it is legal, and then that verdict stands; 0 where it is illegal.
    pub fn judge(&mut self) -> (u8, u16)
        ensures verdict { Judging (M.MemoryModel.meaning self.old.model) self.old.state result self.new.state }
        ensures model { self.new ≡ moved self.old self.new.state }
        ensures sound { Sound self.new.state }
    {
        self.look();
        let (refusal, place) = self.table.completeness();
        if refusal != 0 {
            return (refusal, place);
        }
        self.first = first_orders(&self.model, &self.table);
        self.look();
        match self.first {
            Some(_) => (0, 1),
            None => (0, 0),
        }
    }

    /// Copies the list of a view, counted from 1, into the first of the slots, and answers how many numbers it has.
    pub fn view(&self, view: u8, slots: &mut [u16]) -> (u8, u16)
        ensures shown { Showing self.now.state.standing view slots.old result slots.new }
        ensures bound { result.1 ≤ 64 }
        ensures sound { Sound self.now.state }
    {
        self.look();
        let Some(orders) = &self.first else {
            return (12, 0);
        };
        match orders.show(view, slots) {
            Ok(count) => (0, count as u16),
            Err(why) => (u8::from(why), 0),
        }
    }

    /// Inspects orders in writing, and answers what is found.
    pub fn inspect(&self, numbers: &[u16]) -> (u8, u16)
        ensures answer { Inspected (M.MemoryModel.meaning self.now.model) self.now.state.trace numbers.now result }
        ensures one { (other : ℕ × ℕ) → Inspected (M.MemoryModel.meaning self.now.model) self.now.state.trace numbers.now other → other ≡ result }
        ensures sound { Sound self.now.state }
    {
        self.look();
        inspect(&self.model, &self.table, numbers)
    }

    /// Writes the trace's file into the first of the bytes, and answers its length.
    pub fn save(&self, bytes: &mut [u8]) -> (u8, u16)
        ensures answer { result ≡ save_answer self.now.state.trace (length bytes.old) }
        ensures after { bytes.new ≡ save_after self.now.state.trace bytes.old }
        ensures sound { Sound self.now.state }
    {
        self.look();
        save(&self.table, bytes)
    }
}
