// What a transcript of a run shows: whether the promises were kept, and if not, which one was broken.
ghost use Rattle.std.specs.Prelude.{◌≡◌, ◌≤◌, true, false, Some, MatchOption, length};
ghost use Rattle.std.specs.List.{list_all};
ghost use Rattle.bisect.specs.Judge.{fails};
ghost use Rattle.subset.specs.Parts.{all_parts, some_of};
ghost use Rattle.inspect.specs.Inspector.{Exact, answer_of, ending, finding, known, of_count, of_end, of_left, of_many, of_monotone, of_sound, question_of, rightly, there, words};
ghost use Rattle.judges.specs.Spelled.{lists_of};

use super::exhaustive::{is_monotone, spares_all};
use super::parts::{Row, Subset, is_subset};
use bisect::{MOST, fails};
use judges::{Judge, first_list, lists};
use std::error::Error;
use std::fmt;
use subset::{fill, tell};

// How a run ended.
#[derive(Clone, Copy, Debug, PartialEq, Eq)]
pub enum End<'a> {
    // It told what is left.
    Left(&'a [u64]),
    Sound,
    Refused,
    // It was stopped while it still asked.
    Unended,
}

// What was asked and answered in a run, and how it ended.
#[derive(Clone, Copy, Debug, PartialEq, Eq)]
pub struct Transcript<'a> {
    // Lists in a row, the first question first, each the answer and then the question.
    pub exchanges: &'a [u64],
    pub end: End<'a>,
}

// The promise that was broken.
#[derive(Clone, Copy, Debug, PartialEq, Eq)]
pub enum Finding {
    // An answer isn't what the judge says.
    Misheard,
    // It asked of what isn't there.
    Strayed,
    // There are more than 4,096 parts, and it didn't refuse at once.
    NotRefused,
    // It refused, though there are no more than 4,096.
    Refused,
    // It never ended.
    Unended,
    // It said "sound", and did not ask of all first.
    Unasked,
    // It said "sound" after asking more than of all.
    AskedMore,
    // It said "sound", and all together fail.
    NotSound,
    // What is left isn't a subset of the parts.
    NoSubset,
    // What is left doesn't fail.
    Passes,
    // Something can be left out.
    Loose,
    // All together don't fail, and it didn't say "sound".
    WasSound,
    // More than 15 (n + 1)² questions.
    TooMany,
    // Failing is monotone, k are left, and it asked more than 14 (k + 1).
    ManyIfMonotone,
    // Failing is monotone, and something smaller within what is left fails.
    SmallerFails,
}

impl fmt::Display for Finding {
    ghost output = { λ x. Some (words x) };

    fn fmt<W: fmt::Write>(&self, f: &mut fmt::Formatter<W>) -> fmt::Result {
        f.write_str(match self {
            Finding::Misheard => "an answer isn't the judge's",
            Finding::Strayed => "it asked of what isn't there",
            Finding::NotRefused => "it didn't refuse too many parts",
            Finding::Refused => "it refused, though there aren't too many parts",
            Finding::Unended => "it never ended",
            Finding::Unasked => "it said sound, and did not ask of all",
            Finding::AskedMore => "it said sound after asking more",
            Finding::NotSound => "it said sound, and all together fail",
            Finding::NoSubset => "what is left is no subset of the parts",
            Finding::Passes => "what is left doesn't fail",
            Finding::Loose => "something can be left out",
            Finding::WasSound => "all together don't fail, and it didn't say sound",
            Finding::TooMany => "too many questions",
            Finding::ManyIfMonotone => "too many questions where failing is monotone",
            Finding::SmallerFails => "something smaller fails",
        })
    }
}

impl Error for Finding {}

// The answer and the question of an exchange.
fn parted(exchange: &[u64]) -> (u64, &[u64])
    ensures answer { result.0 ≡ answer_of exchange.now }
    ensures question { result.1.now ≡ question_of exchange.now }
{
    match exchange.split_first() {
        Some((answer, question)) => (*answer, question),
        None => (0, &[]),
    }
}

// Whether every answer is what the judge says.
fn heard_rightly<J: Judge>(judge: &mut J, exchanges: &[u64]) -> bool
    ensures same { J.meaning judge.new ≡ J.meaning judge.old }
    ensures value { result ≡ list_all (rightly (J.meaning judge.old)) (lists_of exchanges.now) }
{
    // No `all`: what holds of a judge that its closure asks takes an invariant over captures, which is no plainer.
    for exchange in lists(exchanges) {
        let (answer, question) = parted(exchange);
        if judge.says(question) != answer {
            return false;
        }
    }
    true
}

// Whether every question is a subset of the parts.
fn all_there(exchanges: &[u64], parts: u64) -> bool
    ensures { result ≡ list_all (there parts) (lists_of exchanges.now) }
{
    lists(exchanges).all(|exchange| is_subset(parted(exchange).1, parts))
}

fn of_many(exchanges: &[u64], end: End) -> Result<(), Finding>
    ensures { result ≡ of_many (lists_of exchanges.now) (ending end.entry) }
{
    if first_list(exchanges).is_some() {
        return Err(Finding::NotRefused);
    }
    match end {
        End::Refused => Ok(()),
        End::Left(_) | End::Sound | End::Unended => Err(Finding::NotRefused),
    }
}

fn of_sound(exchanges: &[u64], parts: u64) -> Result<(), Finding>
    ensures { result ≡ of_sound parts (lists_of exchanges.now) }
{
    let (exchange, others) = first_list(exchanges).ok_or(Finding::Unasked)?;
    let (answer, question) = parted(exchange);
    if question.len() as u64 != parts {
        return Err(Finding::Unasked);
    }
    if lists(others).count() != 0 {
        return Err(Finding::AskedMore);
    }
    if fails(answer) {
        return Err(Finding::NotSound);
    }
    Ok(())
}

// So many parts that a reducer must not refuse, and whether one was told that failing is monotone.
// The judge is no field: what holds it by `&mut` would promise in each method that it still holds the same.
#[derive(Clone, Copy)]
struct Case {
    parts: u64,
    told: bool,
    ghost fit: { parts ≤ 4096 },
}

impl Case {
    // Whether failing is known to be monotone: one was told so, or it can be tried.
    fn is_known<J: Judge>(self, judge: &mut J) -> bool
        ensures same { J.meaning judge.new ≡ J.meaning judge.old }
        ensures value { result ≡ known self.told self.parts (J.meaning judge.old) }
    {
        self.told || is_monotone(judge, self.parts) == Some(true)
    }

    // All parts, in a lent row.
    fn all(self, row: &mut Row) -> &[u64]
        ensures { result.now ≡ all_parts self.parts }
    {
        let mut words = [0; 64];
        fill(&mut words, self.parts).unwrap();
        let count = tell(&words, row).unwrap();
        &row[..count as usize]
    }

    // Whether all parts together fail.
    fn all_fail<J: Judge>(self, judge: &mut J) -> bool
        ensures same { J.meaning judge.new ≡ J.meaning judge.old }
        ensures value { result ≡ fails (J.meaning judge.old) (all_parts self.parts) }
    {
        fails(judge.says(self.all(&mut [0; MOST as usize])))
    }

    // What is left as a subset of the parts, if it is one.
    fn subset(self, left: &[u64]) -> Option<Subset<'_>>
        ensures { MatchOption result (some_of self.parts left.now ≡ false) (λ s. (some_of self.parts left.now ≡ true) × (s.parts.now ≡ left.now)) }
    {
        if !is_subset(left, self.parts) {
            return None;
        }
        Some(Subset { parts: left })
    }

    fn of_monotone<J: Judge>(self, judge: &mut J, asked: u64, left: Subset) -> Result<(), Finding>
        ensures same { J.meaning judge.new ≡ J.meaning judge.old }
        ensures value { result ≡ of_monotone self.parts (J.meaning judge.old) asked left.entry.parts.now }
    {
        if asked > 14 * (left.parts.len() as u64 + 1) {
            return Err(Finding::ManyIfMonotone);
        }
        if spares_all(judge, self.parts, left.parts) == Some(false) {
            return Err(Finding::SmallerFails);
        }
        Ok(())
    }

    fn of_count<J: Judge>(self, judge: &mut J, asked: u64, left: Subset) -> Result<(), Finding>
        ensures same { J.meaning judge.new ≡ J.meaning judge.old }
        ensures value { result ≡ of_count self.told self.parts (J.meaning judge.old) asked left.entry.parts.now }
    {
        if asked > 15 * (self.parts + 1) * (self.parts + 1) {
            return Err(Finding::TooMany);
        }
        if self.is_known(judge) {
            return self.of_monotone(judge, asked, left);
        }
        Ok(())
    }

    fn of_left<J: Judge>(self, judge: &mut J, asked: u64, left: &[u64]) -> Result<(), Finding>
        ensures same { J.meaning judge.new ≡ J.meaning judge.old }
        ensures value { result ≡ of_left self.told self.parts (J.meaning judge.old) asked left.now }
    {
        let subset = self.subset(left).ok_or(Finding::NoSubset)?;
        if !fails(judge.says(left)) {
            return Err(Finding::Passes);
        }
        if !subset.is_needed(judge) {
            return Err(Finding::Loose);
        }
        if !self.all_fail(judge) {
            return Err(Finding::WasSound);
        }
        self.of_count(judge, asked, subset)
    }

    fn of_end<J: Judge>(self, judge: &mut J, transcript: Transcript) -> Result<(), Finding>
        ensures same { J.meaning judge.new ≡ J.meaning judge.old }
        ensures value { result ≡ of_end self.told self.parts (J.meaning judge.old) (lists_of transcript.entry.exchanges.now) (ending transcript.entry.end) }
    {
        match transcript.end {
            End::Left(left) => {
                let asked = lists(transcript.exchanges).count() as u64;
                self.of_left(judge, asked, left)
            }
            End::Sound => of_sound(transcript.exchanges, self.parts),
            End::Refused => Err(Finding::Refused),
            End::Unended => Err(Finding::Unended),
        }
    }
}

// The first promise that is broken. Apart from `inspect`, which shows `exact` from this value.
fn first_broken<J: Judge>(
    judge: &mut J,
    parts: u64,
    told: bool,
    transcript: Transcript,
) -> Result<(), Finding>
    ensures same { J.meaning judge.new ≡ J.meaning judge.old }
    ensures value { result ≡ finding told parts (J.meaning judge.old) (lists_of transcript.entry.exchanges.now) (ending transcript.entry.end) }
{
    if !heard_rightly(judge, transcript.exchanges) {
        return Err(Finding::Misheard);
    }
    if !all_there(transcript.exchanges, parts) {
        return Err(Finding::Strayed);
    }
    if parts > MOST {
        return of_many(transcript.exchanges, transcript.end);
    }
    Case { parts, told }.of_end(judge, transcript)
}

// Finds the first promise that a run against a judge broke. `told` says that failing is monotone; up to nine parts that is tried, too.
pub fn inspect<J: Judge>(
    judge: &mut J,
    parts: u64,
    told: bool,
    transcript: Transcript,
) -> Result<(), Finding>
    ensures same { J.meaning judge.new ≡ J.meaning judge.old }
    ensures first { result ≡ finding told parts (J.meaning judge.old) (lists_of transcript.entry.exchanges.now) (ending transcript.entry.end) }
    ensures exact { Exact told parts (J.meaning judge.old) (lists_of transcript.entry.exchanges.now) (ending transcript.entry.end) result }
{
    first_broken(judge, parts, told, transcript)
}
