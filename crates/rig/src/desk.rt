// One trial: a run is recorded and inspected.
ghost use Rattle.std.specs.Prelude.{◌≡◌, Some, replicate, Decides};
ghost use Rattle.inspect.specs.Inspector.{Known};
ghost use Rattle.rig.specs.Trial.{Inspected, Tried, complaint};
ghost use Rattle.rig.specs.declared.desk.Wrong.TheVariants.{Broken, TooMany};

use bisect::{LENGTH, MOST};
use inspect::{Finding, Machine, Reducer, inspect, is_monotone, transcribe};
use judges::{Ended, Judge, RunError, run};
use std::error::Error;
use std::fmt;

// So many questions are asked at most before a machine is stopped.
const LIMIT: u64 = 5000;

// So many numbers a transcript has at most.
const ROOM: usize = 65536;

// What a trial works on: the transcript, what is left, and a memory for the run that is counted.
#[derive(Drop)]
pub struct Desk {
    transcript: [u64; ROOM],
    left: [u64; MOST as usize],
    memory: [u64; LENGTH],
}

// What a trial of the reducer shows.
#[derive(Clone, Copy, Debug, PartialEq, Eq)]
pub struct Shown {
    // So many parts are left; none are told of where it said "sound".
    pub left: Option<u64>,
    // So many questions were asked.
    pub asked: u64,
    // Failing is known to be monotone.
    pub monotone: bool,
}

// What is wrong with a trial of the reducer.
#[derive(Clone, Copy, Debug, PartialEq, Eq)]
pub enum Wrong {
    // It broke a promise.
    Broken(Finding),
    // It refused: there are more than 4,096 parts.
    TooMany,
}

impl fmt::Display for Wrong {
    ghost output = { λ x. Some (complaint x) };

    fn fmt<W: fmt::Write>(&self, f: &mut fmt::Formatter<W>) -> fmt::Result {
        match self {
            Wrong::Broken(found) => found.fmt(f),
            Wrong::TooMany => f.write_str("too many parts"),
        }
    }
}

impl Error for Wrong {}

impl From<Finding> for Wrong {
    ghost from_gives = { λ finding x. x ≡ Broken finding };

    fn from(finding: Finding) -> Wrong {
        Wrong::Broken(finding)
    }
}

// Whether failing is known to be monotone: one was told so, or it was tried.
// The inspector has the same for itself: each is one line over `is_monotone`, and a public function for both would be that line again.
// Who calls has `parts` and `told` apart, as `inspect` takes them, so a struct of both would be made for one call each.
fn is_known<J: Judge>(judge: &mut J, parts: u64, told: bool) -> bool
    ensures same { J.meaning judge.new ≡ J.meaning judge.old }
    ensures known { Decides result (Known told parts (J.meaning judge.old)) }
{
    told || is_monotone(judge, parts).unwrap_or(false)
}

// Memory and row fit, so nothing else is refused.
impl From<RunError> for Wrong {
    ghost from_gives = { λ _ x. x ≡ TooMany };

    fn from(error: RunError) -> Wrong {
        match error {
            RunError::TooMany | RunError::Unfit => Wrong::TooMany,
        }
    }
}

impl Desk {
    pub fn new() -> Desk
        ensures { result.memory ≡ replicate 72 0 }
    {
        Desk {
            transcript: [0; ROOM],
            left: [0; MOST as usize],
            memory: [0; LENGTH],
        }
    }

    // Runs a machine against a judge, and inspects the transcript.
    pub fn inspected<R: Reducer, J: Judge>(
        &mut self,
        reducer: &mut R,
        judge: &mut J,
        parts: u64,
        told: bool,
    ) -> Result<(), Finding>
        ensures same { J.meaning judge.new ≡ J.meaning judge.old }
        ensures found { Inspected R.does (J.meaning judge.old) reducer.old parts told result reducer.new }
    {
        let transcript = transcribe(
            reducer,
            judge,
            parts,
            LIMIT,
            &mut self.transcript,
            &mut self.left,
        );
        inspect(judge, parts, told, transcript)
    }

    // Tries the reducer itself: its transcript is inspected, and the driver that counts is run.
    pub fn try_reducer<J: Judge>(
        &mut self,
        judge: &mut J,
        parts: u64,
        told: bool,
    ) -> Result<Shown, Wrong>
        ensures same { J.meaning judge.new ≡ J.meaning judge.old }
        ensures tried { Tried (J.meaning judge.old) parts told result }
    {
        self.inspected(&mut Machine::new(), judge, parts, told)?;
        let monotone = is_known(judge, parts, told);
        let Ended { left, asked } = run(judge, parts, &mut self.memory, &mut self.left)?;
        Ok(Shown {
            left,
            asked,
            monotone,
        })
    }
}
