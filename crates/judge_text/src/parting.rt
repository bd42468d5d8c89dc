//! The two parts of the input.
ghost use Rattle.std.specs.Option.{MatchOption};
ghost use Rattle.judge_text.specs.Told.{Unended, Parted};

/// Gives what stands before the first byte 10 and what follows it, if there is one.
pub(crate) fn parted(input: &[u8]) -> Option<(&[u8], &[u8])>
    ensures { MatchOption result (Unended input.now) (λ p. Parted input.now p.0.now p.1.now) }
{
    let place = input.iter().position(|byte| *byte == 10)?;
    let (letters, rest) = input.split_at(place);
    Some((letters, &rest[1..]))
}
