//! Why a call on a table is refused, and the pair of numbers that every call answers.
ghost use Rattle.std.specs.Prelude.{◌≡◌};
ghost use Rattle.trace.specs.Refusals.{refusal_number, fault_number, answered};
ghost use Rattle.trace.specs.declared.refusal.Refusal.TheVariants as refused;

use crate::operation::UnknownKind;

/// Why a call that makes a trace is refused.
#[derive(Clone, Copy, PartialEq, Eq, Debug)]
pub enum Refusal {
    /// There is no such processor.
    Processor = 1,
    /// The number is no kind's.
    Kind = 2,
    /// There is no such variable.
    Variable = 3,
    /// The operation can't have that source.
    Source = 4,
    /// There is no room for one operation more.
    Full = 5,
    /// An operation is there already.
    Recorded = 6,
    /// There is no table of that size.
    Size = 7,
    /// The processor has no operation.
    Nothing = 8,
}

/// What is wrong with the source of a read.
#[derive(Clone, Copy, PartialEq, Eq, Debug)]
pub enum SourceFault {
    /// It is not there, or is no write.
    NoWrite = 9,
    /// It has another variable.
    Variable = 10,
    /// It has another value.
    Value = 11,
}

// The number of a refusal.
impl From<Refusal> for u8 {
    ghost from_gives = { λ r n. n ≡ refusal_number r };

    fn from(refusal: Refusal) -> u8 {
        refusal as u8
    }
}

// The number of what is wrong with a source.
impl From<SourceFault> for u8 {
    ghost from_gives = { λ f n. n ≡ fault_number f };

    fn from(fault: SourceFault) -> u8 {
        fault as u8
    }
}

impl From<UnknownKind> for Refusal {
    ghost from_gives = { λ _ r. r ≡ refused.Kind };

    fn from(_unknown: UnknownKind) -> Refusal {
        Refusal::Kind
    }
}

// The answer of a call: 0 and its value, or its refusal and 0.
pub(crate) fn answer(outcome: Result<u16, Refusal>) -> (u8, u16)
    ensures { result ≡ answered outcome }
{
    match outcome {
        Ok(value) => (0, value),
        Err(refusal) => (u8::from(refusal), 0),
    }
}
