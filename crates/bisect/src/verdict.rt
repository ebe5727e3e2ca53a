// What a judge says of a question.
ghost use Rattle.std.specs.Prelude.{◌≡◌, ◌==◌};
ghost use Rattle.bisect.specs.Verdict.{number_of, verdict_of};

#[derive(Clone, Copy, Debug, PartialEq, Eq)]
pub enum Verdict {
    // It doesn't fail.
    No,
    // It fails.
    Yes,
    // One can't tell.
    Unclear,
}

// A number that is no verdict's.
#[derive(Clone, Copy, Debug, PartialEq, Eq)]
pub struct NoVerdict(pub u64);

impl TryFrom<u64> for Verdict {
    type Error = NoVerdict;

    ghost try_from_gives = { λ number r. r ≡ verdict_of number };

    fn try_from(number: u64) -> Result<Self, NoVerdict> {
        match number {
            0 => Ok(Verdict::No),
            1 => Ok(Verdict::Yes),
            2 => Ok(Verdict::Unclear),
            _ => Err(NoVerdict(number)),
        }
    }
}

impl From<Verdict> for u64 {
    ghost from_gives = { λ verdict number. number ≡ number_of verdict };

    fn from(verdict: Verdict) -> u64 {
        match verdict {
            Verdict::No => 0,
            Verdict::Yes => 1,
            Verdict::Unclear => 2,
        }
    }
}

// Whether an answer says that it fails; a number that is no verdict doesn't.
pub fn fails(number: u64) -> bool
    ensures { result ≡ (number == 1) }
{
    matches!(Verdict::try_from(number), Ok(Verdict::Yes))
}
