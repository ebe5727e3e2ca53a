// The reducer: one step over 72 lent numbers, and what it promises for every judge.
// It uses `subset` and `bisect`, by their contracts alone. Programs use it through `session`.
#![tactic(auto)]

ghost use Rattle.std.specs.Prelude.{◌≡◌, ◌<◌, ◌≤◌, true, ◌++◌, length, drop, Some};
ghost use Rattle.bisect.specs.Engine.{parts};
ghost use Rattle.bisect.specs.Promise.{Sharp, Whole};
ghost use Rattle.bisect.specs.Search.{answered, fresh, heard, pass};
ghost use Rattle.bisect.specs.Stand.{asked, cut_at, placed, sane, sought};
ghost use Rattle.subset.specs.Parts.{all_parts};
ghost use Rattle.subset.specs.Row.{cut_out, members};
ghost use Rattle.reduce.specs.Entry.{Does, Heard, Reacts, StepSays, event, fault_of, fits, reason};
ghost use Rattle.reduce.specs.Examples.{EachHolds, Examples};
ghost use Rattle.reduce.specs.Own.{fault, held, moved, nowhere, own, progress, stage, stands, stored};
ghost use Rattle.reduce.specs.Start.{FromAny, FromCuts, NestedTrial};
ghost use Rattle.reduce.specs.StateExamples.{StateExamples};
ghost use Rattle.reduce.specs.State.{go_on, less, next, trial};

use bisect::{LENGTH, MOST, Search};
use std::error::Error;
use std::fmt;

type Memory = [u64; LENGTH];

// The beginning of the lent row, with room for all parts.
// No struct of memory and row: of a field, the check doesn't know how long an array behind a `&mut` is.
type Row = [u64; MOST as usize];

// Where the memory holds what; a pass stands in 2, 3, 5, 6 and 7, the words of the subset from 8 on.
const PHASE: usize = 0;

const SIZE: usize = 1;

const INDEX: usize = 4;

const WORDS: usize = 8;

// The phases, which a lent memory has as numbers.
const IDLE: u64 = 0;

const FIRST: u64 = 1;

const SEEK: u64 = 2;

const TRIAL: u64 = 3;

// What a step is told.
#[derive(Clone, Copy, Debug, PartialEq, Eq)]
pub enum Event {
    // How many parts there are.
    Parts(u64),
    // What the judge said of what was asked last.
    Said(u64),
}

// What a step tells. How many, and not the slice: the contract says all that the lent row holds afterwards.
#[derive(Clone, Copy, Debug, PartialEq, Eq)]
pub enum Told {
    // Ask of so many: they are in the lent row.
    Ask(u64),
    // So many are left: they are in the lent row.
    Rest(u64),
    // All together don't fail.
    Sound,
    TooMany,
}

// Why a step is refused.
#[derive(Clone, Copy, Debug, PartialEq, Eq)]
pub enum Refusal {
    // The memory hasn't 72 numbers, the row is shorter than 4,096, or there is no such kind of event.
    Unfit,
    // No run leaves such a memory.
    Torn,
    // Nothing was asked.
    Unawaited,
}

impl fmt::Display for Refusal {
    ghost output = { λ e. Some (reason e) };

    fn fmt<W: fmt::Write>(&self, f: &mut fmt::Formatter<W>) -> fmt::Result {
        f.write_str(match self {
            Refusal::Unfit => "the memory or the row does not fit",
            Refusal::Torn => "no run leaves such a memory",
            Refusal::Unawaited => "no answer is awaited",
        })
    }
}

impl Error for Refusal {}

// By its kind: 0 tells how many parts there are, 1 what the judge said.
impl TryFrom<(u64, u64)> for Event {
    type Error = Refusal;

    ghost try_from_gives = { λ told r. r ≡ event told.0 told.1 };

    fn try_from((kind, number): (u64, u64)) -> Result<Event, Refusal> {
        match kind {
            0 => Ok(Event::Parts(number)),
            1 => Ok(Event::Said(number)),
            _ => Err(Refusal::Unfit),
        }
    }
}

// How far a run has come that awaits an answer.
#[derive(Clone, Copy, Debug, PartialEq, Eq)]
pub struct Progress {
    // So many parts are still in.
    pub left: u64,
    // So many of them were found needed, which the last round still has to confirm.
    pub needed: u64,
}

// Where the machine stands, beside how many parts there are and the subset that it holds.
#[derive(Clone, Copy)]
enum Stage {
    // Nothing is asked.
    Idle,
    // It asked of all.
    First,
    // A pass goes on.
    Seek(Search),
    // It asked of all but the member at this index.
    Trial(u64),
}

// Where a pass stands while none goes on.
fn nowhere() -> Search
    ensures { result ≡ nowhere }
{
    Search::fresh(0)
}

impl Stage {
    // Refused where no run leaves such numbers beside the words. Named as `Search::read` is, for the same reason.
    #[tactic(auto, unfolding(crate::specs::Own::stage))]
    fn read(memory: &Memory) -> Result<Stage, Refusal>
        ensures { result ≡ stage memory.now }
    {
        let at = Search::read(memory).unwrap();
        let size = memory[SIZE];
        let index = memory[INDEX];
        let count = count(memory);
        match memory[PHASE] {
            IDLE if size == 0 && index == 0 && at == nowhere() => Ok(Stage::Idle),
            FIRST if index == 0 && at == nowhere() && size == count && count <= MOST => Ok(
                Stage::First,
            ),
            SEEK if index == 0 && at.is_sane(count, size) => Ok(Stage::Seek(at)),
            TRIAL if at == nowhere() && index < count && count <= size && size <= MOST => {
                Ok(Stage::Trial(index))
            }
            _ => Err(Refusal::Torn),
        }
    }

    // The first eight numbers; the words stay.
    fn write(self, size: u64, memory: &mut Memory)
        ensures { memory.new ≡ stored size (held memory.old) (stands self (held memory.old)) }
    {
        let (phase, size, index, at) = match self {
            Stage::Idle => (IDLE, 0, 0, nowhere()),
            Stage::First => (FIRST, size, 0, nowhere()),
            Stage::Seek(at) => (SEEK, size, 0, at),
            Stage::Trial(index) => (TRIAL, size, index, nowhere()),
        };
        memory[PHASE] = phase;
        memory[SIZE] = size;
        memory[INDEX] = index;
        at.write(memory).unwrap();
    }
}

fn count(memory: &Memory) -> u64
    ensures { result ≡ length (held memory.now) }
{
    subset::count(&memory[WORDS..LENGTH]).unwrap()
}

#[tactic(auto, using(crate::proofs::Memory::row_room))]
fn tell(memory: &Memory, out: &mut Row) -> u64
    ensures count { result ≡ length (held memory.now) }
    ensures told { out.new ≡ held memory.now ++ drop (length (held memory.now)) out.old }
{
    subset::tell(&memory[WORDS..LENGTH], out).unwrap()
}

// The same without the member at a rank, which stays in the memory.
fn tell_less(memory: &Memory, rank: u64, out: &mut Row) -> u64
    requires { rank < length (held memory.now) }
    ensures count { result ≡ length (less rank (held memory.now)) }
    ensures told { out.new ≡ less rank (held memory.now) ++ drop (length (less rank (held memory.now))) out.old }
{
    let mut copy = *memory;
    leave(&mut copy, rank);
    tell(&copy, out)
}

// The question at the cut.
fn tell_cut(memory: &Memory, at: Search, out: &mut Row) -> u64
    requires { placed at (length (held memory.now)) 4096 ≡ true }
    ensures count { result ≡ length (asked at (held memory.now)) }
    ensures told { out.new ≡ asked at (held memory.now) ++ drop (length (asked at (held memory.now))) out.old }
{
    bisect::question(&memory[WORDS..LENGTH], at, out).unwrap()
}

fn fill(memory: &mut Memory, n: u64)
    requires { n ≤ 4096 }
    ensures { held memory.new ≡ all_parts n }
{
    subset::fill(&mut memory[WORDS..LENGTH], n).unwrap();
}

// Takes out the members whose rank is in from..to.
fn leave_between(memory: &mut Memory, from: u64, to: u64)
    requires { from ≤ to }
    ensures { held memory.new ≡ cut_out from to (held memory.old) }
{
    subset::cut(&mut memory[WORDS..LENGTH], from, to).unwrap();
}

fn leave(memory: &mut Memory, rank: u64)
    requires { rank < length (held memory.old) }
    ensures { held memory.new ≡ less rank (held memory.old) }
{
    leave_between(memory, rank, rank + 1);
}

impl Progress {
    // Of the run whose memory this is; refused where no answer is awaited.
    pub fn read(memory: &[u64]) -> Result<Progress, Refusal>
        ensures { result ≡ progress memory.now }
    {
        let Some(memory) = memory.as_array() else {
            return Err(Refusal::Unfit);
        };
        let left = count(memory);
        let needed = match Stage::read(memory)? {
            Stage::Idle => return Err(Refusal::Unawaited),
            Stage::First => 0,
            Stage::Seek(at) => left - at.row,
            Stage::Trial(_) => left,
        };
        Ok(Progress { left, needed })
    }
}

// Asks without the member at an index; past the last, all are needed.
fn tries(memory: &mut Memory, size: u64, index: u64, out: &mut Row) -> Told
    ensures { Does (moved size (held memory.old) (trial index (held memory.old))) result memory.new out.old out.new }
{
    if index < count(memory) {
        let told = tell_less(memory, index, out);
        Stage::Trial(index).write(size, memory);
        Told::Ask(told)
    } else {
        let told = tell(memory, out);
        Stage::Idle.write(size, memory);
        Told::Rest(told)
    }
}

// Asks at the cut of a row in which something is open; where the row is empty, on to the trials.
fn seeks(memory: &mut Memory, size: u64, at: Search, out: &mut Row) -> Told
    requires { 0 < at.row → placed at (length (held memory.old)) 4096 ≡ true }
    ensures { Does (moved size (held memory.old) (go_on (pass at (held memory.old)))) result memory.new out.old out.new }
{
    if at.row > 0 {
        let told = tell_cut(memory, at, out);
        Stage::Seek(at).write(size, memory);
        return Told::Ask(told);
    }
    tries(memory, size, at.sure, out)
}

// A pass over all that is held.
fn passes(memory: &mut Memory, size: u64, out: &mut Row) -> Told
    ensures { Does (moved size (held memory.old) (go_on (fresh (held memory.old)))) result memory.new out.old out.new }
{
    let at = Search::fresh(count(memory));
    seeks(memory, size, at, out)
}

fn begins(memory: &mut Memory, n: u64, out: &mut Row) -> Told
    ensures { Does (own.step memory.old (parts n)) result memory.new out.old out.new }
{
    if n > MOST {
        Stage::Idle.write(n, memory);
        return Told::TooMany;
    }
    fill(memory, n);
    let told = tell(memory, out);
    Stage::First.write(n, memory);
    Told::Ask(told)
}

// Keeps only what the question at the cut asked of.
#[tactic(auto, unfolding(bisect::specs::Search::keep))]
fn keep_asked(memory: &mut Memory, at: Search)
    requires { sane at (length (held memory.old)) 4096 ≡ true }
    ensures { held memory.new ≡ asked at (held memory.old) }
{
    let cut = at.cut(count(memory)).unwrap();
    leave_between(memory, cut, at.row);
}

// Goes on with a pass.
fn hears_cut(memory: &mut Memory, size: u64, at: Search, fails: bool, out: &mut Row) -> Told
    requires { sane at (length (held memory.old)) 4096 ≡ true }
    ensures { Does (moved size (held memory.old) (go_on (answered (cut_at at (length (held memory.old))) (pass at (held memory.old)) fails))) result memory.new out.old out.new }
{
    let next = at.hear(count(memory), fails).unwrap();
    if fails {
        keep_asked(memory, at);
    }
    seeks(memory, size, next, out)
}

#[tactic(auto, using(crate::proofs::Laws::read_torn))]
fn hears(memory: &mut Memory, number: u64, out: &mut Row) -> Result<Told, Refusal>
    ensures { Heard (fault memory.old) memory.old (Event.Said number) out.old result memory.new out.new }
{
    let fails = bisect::fails(number);
    let size = memory[SIZE];
    match Stage::read(memory)? {
        Stage::Idle => Err(Refusal::Unawaited),
        Stage::First if fails => Ok(passes(memory, size, out)),
        Stage::First => {
            Stage::Idle.write(size, memory);
            Ok(Told::Sound)
        }
        Stage::Seek(at) => Ok(hears_cut(memory, size, at, fails, out)),
        Stage::Trial(index) if fails => {
            leave(memory, index);
            Ok(passes(memory, size, out))
        }
        Stage::Trial(index) => Ok(tries(memory, size, index + 1, out)),
    }
}

fn acts(memory: &mut Memory, event: Event, out: &mut Row) -> Result<Told, Refusal>
    ensures long { length out.new ≡ 4096 }
    ensures does { Heard (fault_of memory.old event) memory.old event out.old result memory.new out.new }
{
    match event {
        Event::Parts(n) => Ok(begins(memory, n, out)),
        Event::Said(number) => hears(memory, number, out),
    }
}

// One step: the memory has 72 numbers, and the lent row room for 4,096.
pub fn react(memory: &mut [u64], event: Event, out: &mut [u64]) -> Result<Told, Refusal>
    ensures { Reacts (fits memory.old out.old) memory.old event out.old result memory.new out.new }
{
    let Some(memory) = memory.as_mut_array() else {
        return Err(Refusal::Unfit);
    };
    let Some(out) = out.first_chunk_mut() else {
        return Err(Refusal::Unfit);
    };
    acts(memory, event, out)
}

// The same for a caller that has only numbers, as every step was told once: a public promise stays.
pub fn step(memory: &mut [u64], kind: u64, number: u64, out: &mut [u64]) -> Result<Told, Refusal>
    ensures { StepSays (event kind number) memory.old out.old result memory.new out.new }
{
    react(memory, Event::try_from((kind, number))?, out)
}

// The reducer is right for every judge, with few questions for monotone ones.
pub fn reducer_stands() -> u8
    ensures whole { Whole own }
    ensures sharp { Sharp own }
{
    0
}

// It can begin with any subset, asked of first or known to fail; what it has asked shows that what is left is lean.
pub fn starts_stand() -> u8
    ensures cuts { FromCuts }
    ensures any { FromAny }
    ensures nested { NestedTrial }
{
    0
}

// What it asks and leaves in worked examples.
pub fn examples_stand() -> u8
    ensures table { Examples }
    ensures row { EachHolds }
{
    0
}

// Where it stands, what it asks from other starts, and what the table above does not hold of, in worked examples.
pub fn states_stand() -> u8
    ensures { StateExamples }
{
    0
}

#[cfg(test)]
mod tests {
    use super::*;

    // Which of the parts 0, 1 and 2 are among the first so many of the row, as bits.
    fn bits(out: &[u64], count: u64) -> usize {
        let mut seen = 0;
        for part in out.iter().take(count as usize) {
            if *part < 3 {
                seen |= 1 << *part;
            }
        }
        seen
    }

    // Plays three parts against the judge that says of each subset what stands in a table at its bits; tells what is
    // left, as bits, and 8 if the run did not end so.
    fn play(judge: &[u64], memory: &mut [u64], out: &mut [u64]) -> usize {
        let mut told = step(memory, 0, 3, out);
        for _ in 0..100 {
            let Ok(Told::Ask(count)) = told else {
                break;
            };
            let said = judge.get(bits(out, count)).copied().unwrap_or(0);
            told = step(memory, 1, said, out);
        }
        match told {
            Ok(Told::Rest(count)) => bits(out, count),
            _ => 8,
        }
    }

    #[test]
    fn leaves_what_is_lean_of_three(rt: HostRuntime) {
        let mut memory = [0; 72];
        let mut out = [7; 4096];
        // 0 1 2 and 0 1 fail.
        assert_eq!(rt; play(&[0, 0, 0, 1, 0, 0, 0, 1], &mut memory, &mut out), 3);
        // Of all but 0 1 2 one can't tell.
        assert_eq!(rt; play(&[2, 2, 2, 2, 2, 2, 2, 1], &mut memory, &mut out), 7);
        // Everything fails.
        assert_eq!(rt; play(&[1, 1, 1, 1, 1, 1, 1, 1], &mut memory, &mut out), 0);
        // 0 1 2 and 1 alone fail: both are lean.
        let left = play(&[0, 0, 1, 0, 0, 0, 0, 1], &mut memory, &mut out);
        assert!(rt; left == 2 || left == 7);
        // Other numbers count as not failing.
        assert_eq!(rt;
            play(
                &[3, 7, u64::MAX, 3, 7, 3, u64::MAX, 1],
                &mut memory,
                &mut out,
            ),
            7
        );
    }

    // Plays against the judge that fails only all parts together: how many are left, or 9999, and the questions.
    fn play_all(parts: u64, memory: &mut [u64], out: &mut [u64]) -> (u64, u64) {
        let mut told = step(memory, 0, parts, out);
        let mut asked = 0u64;
        for _ in 0..70000 {
            let Ok(Told::Ask(count)) = told else {
                break;
            };
            asked = asked.saturating_add(1);
            told = step(memory, 1, if count == parts { 1 } else { 0 }, out);
        }
        match told {
            Ok(Told::Rest(count)) => (count, asked),
            _ => (9999, asked),
        }
    }

    // Of each number of parts all are left, after at most 14 questions for each and 14 more.
    fn all_are_left(sizes: &[u64], memory: &mut [u64], out: &mut [u64]) -> bool {
        for parts in sizes {
            let (left, asked) = play_all(*parts, memory, out);
            if left != *parts || asked / 14 > parts.saturating_add(1) {
                return false;
            }
        }
        true
    }

    #[test]
    fn takes_up_to_4096_parts(rt: HostRuntime) {
        let mut memory = [0; 72];
        let mut out = [7; 4096];
        assert!(rt; all_are_left(&[0, 1, 63, 64, 65, 4095, 4096], &mut memory, &mut out));
        assert_eq!(rt; step(&mut memory, 0, 4097, &mut out), Ok(Told::TooMany));
    }

    #[test]
    fn refuses(rt: HostRuntime) {
        let mut memory = [0; 72];
        let mut out = [7; 4096];
        assert_eq!(rt; step(&mut memory, 1, 1, &mut out), Err(Refusal::Unawaited));
        assert_eq!(rt; step(&mut memory, 2, 1, &mut out), Err(Refusal::Unfit));
        assert_eq!(rt; step(&mut [0; 71], 0, 6, &mut out), Err(Refusal::Unfit));
        assert_eq!(rt;
            step(&mut memory, 0, 6, &mut [0; 4095]),
            Err(Refusal::Unfit)
        );
        let mut torn = [0; 72];
        torn[0] = 4;
        assert_eq!(rt; step(&mut torn, 1, 1, &mut out), Err(Refusal::Torn));
        assert_eq!(rt; torn[0], 4);
    }

    #[test]
    fn takes_an_event_by_its_kind(rt: HostRuntime) {
        assert_eq!(rt; Event::try_from((0, 6)), Ok(Event::Parts(6)));
        assert_eq!(rt; Event::try_from((1, 2)), Ok(Event::Said(2)));
        assert_eq!(rt; Event::try_from((2, 1)), Err(Refusal::Unfit));
    }

    #[test]
    fn reacts(rt: HostRuntime) {
        let mut memory = [0; 72];
        let mut out = [7; 4097];
        assert_eq!(rt;
            react(&mut memory, Event::Said(1), &mut out),
            Err(Refusal::Unawaited)
        );
        assert_eq!(rt;
            react(&mut memory, Event::Parts(2), &mut out),
            Ok(Told::Ask(2))
        );
        assert!(rt; out.starts_with(&[0, 1, 7]));
        assert_eq!(rt;
            react(&mut memory, Event::Said(1), &mut out),
            Ok(Told::Ask(0))
        );
        assert_eq!(rt;
            react(&mut memory, Event::Said(1), &mut [0; 4095]),
            Err(Refusal::Unfit)
        );
        assert_eq!(rt;
            react(&mut memory, Event::Parts(4097), &mut out),
            Ok(Told::TooMany)
        );
        assert_eq!(rt; out[4096], 7);
    }
}
