//! Playing a call that is given as a value.
ghost use Rattle.std.specs.Prelude.{◌≡◌};
ghost use Rattle.judge.specs.Seen.{Sound, moved};
ghost use Rattle.judge.specs.States.{Plays};

use crate::calls::{Call, Played};
use crate::judging::Judge;
use models::model::MemoryModel;

impl<M: MemoryModel> Judge<M> {
    /// Plays a call, and gives its answer with all that the call handed in as it was left.
    pub fn play(&mut self, mut call: Call) -> Played
        ensures played { Plays (M.MemoryModel.meaning self.old.model) self.old.state call result self.new.state }
        ensures model { self.new ≡ moved self.old self.new.state }
        ensures sound { Sound self.new.state }
    {
        let (refusal, value) = match &mut call {
            Call::Change(change) => self.change(change),
            Call::Judge => self.judge(),
            Call::View { view, slots } => self.view(*view, slots.as_mut_slice()),
            Call::Inspect { numbers } => self.inspect(numbers.as_slice()),
            Call::Save { bytes } => self.save(bytes.as_mut_slice()),
        };
        Played {
            call,
            refusal,
            value,
        }
    }
}
