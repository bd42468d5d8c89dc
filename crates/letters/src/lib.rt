//! The letters that name a model.
#![tactic(auto)]

ghost use Rattle.std.specs.Prelude.{◌≡◌, Some, MatchOption, MatchResult};
ghost use Rattle.models.specs.Meaning.{Meaning};
ghost use Rattle.letters.specs.Names.{Unnamed, named, meaning_of};

use models::agreement::Agreement;
use models::coherent::Coherent;
use models::model::MemoryModel;
use models::pram::Pram;
use models::sequential::Sequential;
use models::write_into::WriteInto;
use std::fmt;

/// The models that have letters: a base model, one layer over it, or both.
#[derive(Clone, Copy, PartialEq, Eq, Debug)]
pub enum Letters {
    S,
    C,
    P,
    FS,
    FC,
    FP,
    AS,
    AP,
    AFS,
    AFP,
}

/// What is done with a model, of whatever type it is.
pub trait Visitor {
    type Output;

    /// What a visit may give, by what the model means.
    ghost gives: { Self → Meaning → Self.Output → Type 0 };

    /// Visits a model.
    fn visit<M: MemoryModel + Drop>(self, model: M) -> Self::Output
        ensures { gives self (M.MemoryModel.meaning model) result };
}

impl Letters {
    /// Has the model visited that the letters name.
    pub fn visit<V: Visitor>(self, visitor: V) -> V::Output
        ensures { V.gives visitor (meaning_of self) result }
    {
        match self {
            Letters::S => visitor.visit(Sequential),
            Letters::C => visitor.visit(Coherent),
            Letters::P => visitor.visit(Pram),
            Letters::FS => visitor.visit(WriteInto { below: Sequential }),
            Letters::FC => visitor.visit(WriteInto { below: Coherent }),
            Letters::FP => visitor.visit(WriteInto { below: Pram }),
            Letters::AS => visitor.visit(Agreement { below: Sequential }),
            Letters::AP => visitor.visit(Agreement { below: Pram }),
            Letters::AFS => visitor.visit(Agreement {
                below: WriteInto { below: Sequential },
            }),
            Letters::AFP => visitor.visit(Agreement {
                below: WriteInto { below: Pram },
            }),
        }
    }

    /// Tells which model some characters name, if any.
    pub fn of(letters: &[char]) -> Option<Letters>
        ensures { MatchOption result (Unnamed letters.now) (λ l. letters.now ≡ named l) }
    {
        match letters {
            ['S'] => Some(Letters::S),
            ['C'] => Some(Letters::C),
            ['P'] => Some(Letters::P),
            ['F', 'S'] => Some(Letters::FS),
            ['F', 'C'] => Some(Letters::FC),
            ['F', 'P'] => Some(Letters::FP),
            ['A', 'S'] => Some(Letters::AS),
            ['A', 'P'] => Some(Letters::AP),
            ['A', 'F', 'S'] => Some(Letters::AFS),
            ['A', 'F', 'P'] => Some(Letters::AFP),
            _ => None,
        }
    }
}

/// Letters that name no model.
#[derive(Clone, Copy, PartialEq, Eq, Debug)]
pub struct UnknownModel;

impl TryFrom<&[u8]> for Letters {
    type Error = UnknownModel;

    ghost try_from_gives = { λ bytes r. MatchResult r (λ l. bytes.now ≡ named l) (λ _. Unnamed bytes.now) };

    /// Tells which model some bytes name, if any.
    fn try_from(bytes: &[u8]) -> Result<Letters, UnknownModel> {
        let letters = match bytes {
            [a] => Letters::of(&[char::from(*a)]),
            [a, b] => Letters::of(&[char::from(*a), char::from(*b)]),
            [a, b, c] => Letters::of(&[char::from(*a), char::from(*b), char::from(*c)]),
            _ => None,
        };
        letters.ok_or(UnknownModel)
    }
}

impl fmt::Display for Letters {
    ghost output = { λ l. Some (named l) };

    /// Prints the letters.
    fn fmt<W: fmt::Write>(&self, f: &mut fmt::Formatter<W>) -> fmt::Result {
        f.write_str(match self {
            Letters::S => "S",
            Letters::C => "C",
            Letters::P => "P",
            Letters::FS => "FS",
            Letters::FC => "FC",
            Letters::FP => "FP",
            Letters::AS => "AS",
            Letters::AP => "AP",
            Letters::AFS => "AFS",
            Letters::AFP => "AFP",
        })
    }
}

#[cfg(test)]
mod tests {
    use super::*;
    use std::test::Fail;

    #[test]
    fn ten_models(rt: HostRuntime) {
        assert_eq!(rt; Letters::try_from(b"S".as_slice()), Ok(Letters::S));
        assert_eq!(rt; Letters::try_from(b"C".as_slice()), Ok(Letters::C));
        assert_eq!(rt; Letters::try_from(b"P".as_slice()), Ok(Letters::P));
        assert_eq!(rt; Letters::try_from(b"FS".as_slice()), Ok(Letters::FS));
        assert_eq!(rt; Letters::try_from(b"FC".as_slice()), Ok(Letters::FC));
        assert_eq!(rt; Letters::try_from(b"FP".as_slice()), Ok(Letters::FP));
        assert_eq!(rt; Letters::try_from(b"AS".as_slice()), Ok(Letters::AS));
        assert_eq!(rt; Letters::try_from(b"AP".as_slice()), Ok(Letters::AP));
        assert_eq!(rt; Letters::try_from(b"AFS".as_slice()), Ok(Letters::AFS));
        assert_eq!(rt; Letters::try_from(b"AFP".as_slice()), Ok(Letters::AFP));
    }

    #[test]
    fn letters_are_printed(rt: HostRuntime) -> Result<(), Fail> {
        let all = format!(in rt.alloc(); "{} {} {}", Letters::C, Letters::FP, Letters::AFS)?;
        assert_eq!(rt; all.as_str(), "C FP AFS");
        Ok(())
    }

    #[test]
    fn no_model(rt: HostRuntime) {
        assert_eq!(rt; Letters::try_from(b"".as_slice()), Err(UnknownModel));
        assert_eq!(rt; Letters::try_from(b"s".as_slice()), Err(UnknownModel));
        assert_eq!(rt; Letters::try_from(b"AC".as_slice()), Err(UnknownModel));
        assert_eq!(rt; Letters::try_from(b"AFC".as_slice()), Err(UnknownModel));
        assert_eq!(rt; Letters::try_from(b"FAP".as_slice()), Err(UnknownModel));
        assert_eq!(rt; Letters::try_from(b"FFP".as_slice()), Err(UnknownModel));
        assert_eq!(rt; Letters::try_from(b"SS".as_slice()), Err(UnknownModel));
        assert_eq!(rt; Letters::try_from(b" S".as_slice()), Err(UnknownModel));
        assert_eq!(rt; Letters::try_from(b"S\r".as_slice()), Err(UnknownModel));
        assert_eq!(rt; Letters::try_from(b"AFPP".as_slice()), Err(UnknownModel));
    }
}
