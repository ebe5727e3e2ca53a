// The answers so far, as the lines of a file give them.
ghost use Rattle.std.specs.Prelude.{◌≡◌, [], ◌∷◌};
ghost use Rattle.candidate.specs.Lines.{lines};
ghost use Rattle.lessen.specs.Replay.{Tells, answer, bare, heard_from};

use bisect::Verdict;
use candidate::Lines;
use dialog::reading;
use session::Session;

// What is wrong with the line at a place, counted from 0.
#[derive(Clone, Copy, Debug, PartialEq, Eq)]
pub enum Mishap {
    // It is no answer.
    NoAnswer(usize),
    // There is no question to it.
    Unasked(usize),
}

// A line without the newline that ends it.
pub fn bare(line: &[u8]) -> &[u8]
    ensures { result.now ≡ bare line.now }
{
    line.strip_suffix(b"\n").unwrap_or(line)
}

fn verdict_in(line: &[u8]) -> Option<Verdict>
    ensures { result ≡ answer line.now }
{
    reading::verdict_in(bare(line))
}

fn hear(session: &mut Session, place: usize, line: &[u8]) -> Result<(), Mishap>
    ensures { Tells (heard_from place session.old (line.now ∷ [])) result session.new }
{
    let verdict = verdict_in(line).ok_or(Mishap::NoAnswer(place))?;
    session.hear(verdict).map_err(|_| Mishap::Unasked(place))
}

// Goes on after each answer, up to one that it can't go on after.
pub fn hear_all(session: &mut Session, answers: &[u8]) -> Result<(), Mishap>
    ensures { Tells (heard_from 0 session.old (lines answers.now)) result session.new }
{
    for (place, line) in Lines::of(answers).enumerate() {
        hear(session, place, line)?;
    }
    Ok(())
}
