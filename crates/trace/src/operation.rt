//! One operation of a processor, and the numbers of its kinds.
ghost use Rattle.std.specs.Prelude.{◌≡◌};
ghost use Rattle.std.specs.Option.{ok_or};
ghost use Rattle.trace.specs.Operations.{kind_number, kind_of, unused};

use fixed_list::Blank;

/// What an operation does to its variable.
#[derive(Clone, Copy, PartialEq, Eq, Debug)]
pub enum Kind {
    Read = 1,
    Write = 2,
}

/// A number that is no kind's.
#[derive(Clone, Copy, PartialEq, Eq, Debug)]
pub struct UnknownKind(pub u8);

/// A read or a write of one variable.
#[derive(Clone, Copy, PartialEq, Eq, Debug)]
pub struct Operation {
    pub kind: Kind,
    pub variable: u8,
    /// The number of the write that a read saw, or 0 for the starting value; 0 for a write.
    pub source: u16,
    pub value: u32,
}

// The kind that a number names.
impl TryFrom<u8> for Kind {
    type Error = UnknownKind;

    ghost try_from_gives = { λ n r. r ≡ ok_or (kind_of n) (record { 0 = n }) };

    fn try_from(number: u8) -> Result<Kind, UnknownKind> {
        match number {
            1 => Ok(Kind::Read),
            2 => Ok(Kind::Write),
            _ => Err(UnknownKind(number)),
        }
    }
}

// The number of a kind: 1 for a read, 2 for a write.
impl From<Kind> for u8 {
    ghost from_gives = { λ k n. n ≡ kind_number k };

    fn from(kind: Kind) -> u8 {
        kind as u8
    }
}

impl Blank for Operation {
    ghost blank = { unused };

    fn blank() -> Operation {
        Operation {
            kind: Kind::Read,
            variable: 0,
            source: 0,
            value: 0,
        }
    }
}
