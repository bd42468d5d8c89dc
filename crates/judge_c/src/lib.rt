//! The judge for callers in C.
#![tactic(auto)]

ghost use Rattle.std.specs.Prelude.{◌≡◌};
ghost use Rattle.judge_c.specs.Numbers.{one_number, Answered, Told};

use judge::judging::Judge;
use letters::{Letters, Visitor};
use models::model::MemoryModel;

// An answer as one number.
fn one_number(refusal: u8, value: u16) -> u32
    ensures { result ≡ one_number (refusal, value) }
{
    if refusal == 0 {
        u32::from(value)
    } else {
        1000 * u32::from(refusal) + u32::from(value)
    }
}

// A trace file that is to be judged.
#[derive(Clone, Copy)]
struct Answer<'a> {
    file: &'a [u8],
}

impl Visitor for Answer<'_> {
    type Output = u32;

    ghost gives = { λ self m number. Answered m self.file.now number };

    // Judges the file under a model.
    #[tactic(auto, using(crate::specs::Numbers::refused))]
    fn visit<M: MemoryModel + Drop>(self, model: M) -> u32 {
        let mut judge = Judge::new(model);
        let (refusal, place) = judge.load(self.file);
        if refusal != 0 {
            return one_number(refusal, place);
        }
        let (refusal, value) = judge.judge();
        one_number(refusal, value)
    }
}

/// Judges a trace file under the model that some letters name.
///
/// Answers 1 for legal and 0 for illegal, and otherwise 1000 times the refusal, and its place.
#[tactic(auto, using(crate::specs::Numbers::unnamed, crate::specs::Numbers::named_so))]
#[unsafe(no_mangle)]
pub extern "C" fn dilavondra_judge(letters: &[u8], file: &[u8]) -> u32
    ensures { Told letters.now file.now result }
{
    match Letters::try_from(letters) {
        Ok(named) => named.visit(Answer { file }),
        Err(_) => 17000,
    }
}
