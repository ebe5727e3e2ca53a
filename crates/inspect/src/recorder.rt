// A run of any reducer against any judge, recorded.
ghost use Rattle.std.specs.Prelude.{◌≡◌, ℕ, ◌≤◌, List, Result, length, replicate};
ghost use Rattle.reduce.specs.declared.Event.{Event};
ghost use Rattle.reduce.specs.declared.Refusal.{Refusal};
ghost use Rattle.reduce.specs.declared.Told.{Told};
ghost use Rattle.inspect.specs.Inspector.{ending};
ghost use Rattle.inspect.specs.Recorder.{Asked, Does, RecordSays, TranscriptSays, ReducerKept, Roomy, WriteSays, end_by};

use super::inspector::{End, Transcript};
use bisect::LENGTH;
use judges::Judge;
use reduce::{Event, Refusal, Told, react};

// A reducer to try. What it asks of, or leaves, stands at the beginning of the lent row.
// Methods that answer for a machine say `room` again: how long the row is, an answer alone can't say.
pub trait Reducer {
    // What it may do at an event: from where, where to, what it tells, and what then stands in the row.
    ghost does: { Self → Event → Self → Result Told Refusal → List ℕ → Type 0 };

    fn react(&mut self, event: Event, out: &mut [u64]) -> Result<Told, Refusal>
        ensures room { Roomy result (length out.new) }
        ensures does { does self.old event self.new result out.new };
}

impl<'a> End<'a> {
    // By what was told last, and the row in which stands what is left. No `From`: it asks that this has room there.
    fn by(told: Result<Told, Refusal>, out: &'a [u64]) -> End<'a>
        requires { Roomy told (length out.now) }
        ensures { ending result ≡ end_by told out.now }
    {
        match told {
            Ok(Told::Ask(_)) => End::Unended,
            Ok(Told::Rest(count)) => End::Left(&out[..count as usize]),
            Ok(Told::Sound) => End::Sound,
            Ok(Told::TooMany) | Err(_) => End::Refused,
        }
    }
}

// The reducer itself, with a memory of its own.
#[derive(Clone, Copy, Debug, PartialEq, Eq)]
pub struct Machine {
    memory: [u64; LENGTH],
}

impl Machine {
    pub fn new() -> Machine
        ensures { result.memory ≡ replicate 72 0 }
    {
        Machine {
            memory: [0; LENGTH],
        }
    }
}

impl Reducer for Machine {
    ghost does = { Does };

    fn react(&mut self, event: Event, out: &mut [u64]) -> Result<Told, Refusal> {
        react(&mut self.memory, event, out)
    }
}

// What was recorded.
#[derive(Clone, Copy, Debug, PartialEq, Eq)]
pub struct Recorded {
    // What the reducer told last, or why it refused.
    pub told: Result<Told, Refusal>,
    // So much of the row has the exchanges.
    pub used: usize,
}

// The question in the row, where it was told to ask one.
fn asked(told: Result<Told, Refusal>, out: &[u64]) -> Option<&[u64]>
    requires { Roomy told (length out.now) }
    ensures { Asked told out.now result }
{
    match told {
        Ok(Told::Ask(count)) => Some(&out[..count as usize]),
        Ok(Told::Rest(_) | Told::Sound | Told::TooMany) | Err(_) => None,
    }
}

// Writes an exchange to the beginning of a row, and says how many numbers it has; none if there is no room.
fn write_exchange(row: &mut [u64], answer: u64, question: &[u64]) -> Option<usize>
    ensures { WriteSays row.old answer question.now result row.new }
{
    if row.len() < 2 || row.len() - 2 < question.len() {
        return None;
    }
    let end = 2 + question.len();
    row[0] = question.len() as u64 + 1;
    row[1] = answer;
    row[2..end].copy_from_slice(question);
    Some(end)
}

// Runs a reducer against a judge, with the exchanges in the row: up to its end, or so many questions, or as far as there is room.
// What it told of last stands in the other row.
pub fn record<R: Reducer, J: Judge>(
    reducer: &mut R,
    judge: &mut J,
    count: u64,
    limit: u64,
    row: &mut [u64],
    out: &mut [u64],
) -> Recorded
    ensures same { J.meaning judge.new ≡ J.meaning judge.old }
    ensures recorded { RecordSays R.does (J.meaning judge.old) reducer.old count limit result.told result.used reducer.new row.new out.new }
{
    let mut told = reducer.react(Event::Parts(count), out);
    let mut used = 0;
    for _asked in 0..limit {
        let Some(question) = asked(told, out) else {
            return Recorded { told, used };
        };
        let answer = judge.says(question);
        let Some(length) = write_exchange(&mut row[used..], answer, question) else {
            return Recorded { told, used };
        };
        used += length;
        told = reducer.react(Event::Said(answer), out);
    }
    Recorded { told, used }
}

// The same as a transcript, which holds the rows: what was asked last of a run that was stopped isn't in it.
pub fn transcribe<'a, R: Reducer, J: Judge>(
    reducer: &mut R,
    judge: &mut J,
    count: u64,
    limit: u64,
    row: &'a mut [u64],
    out: &'a mut [u64],
) -> Transcript<'a>
    ensures same { J.meaning judge.new ≡ J.meaning judge.old }
    ensures transcribed { TranscriptSays R.does (J.meaning judge.old) reducer.old count limit (length row.old) (length out.old) result.exchanges.now (ending result.end) reducer.new }
{
    let recorded = record(reducer, judge, count, limit, row, out);
    Transcript {
        exchanges: &row[..recorded.used],
        end: End::by(recorded.told, out),
    }
}

// What is recorded of the reducer itself keeps the promises, for every judge.
pub fn recordings_stand() -> u8
    ensures { ReducerKept }
{
    0
}
