// The lines of a journal: what is written, and what a line that was read says.
ghost use Rattle.std.specs.Prelude.{◌≡◌, ◌≢◌, ◌≤◌, ◌==◌, Some, None, Ok, Err, IfOk, IfErr, length, find, position, nat_le};
ghost use Rattle.std.specs.List.{prefix_len};
ghost use Rattle.std.specs.Option.{option_copied};
ghost use Rattle.journal.specs.Line.{behind_words, checked, exchange_line, exchange_read, heading, heading_in, last_byte, letter, numbers, skipped, text_of, without_blanks_before, words};
ghost use Rattle.dialog.specs.Reading.{blank};
ghost use Rattle.journal.specs.declared.line.Fault.TheVariants.{NoExchange, OutOfMemory};

use bisect::{Verdict, rises};
use dialog::lines::Question;
use dialog::reading::{size_in, verdict_in};
use std::alloc::{AllocError, Global};
use std::error::Error;
use std::fmt;

// The name of the format, and its version.
const HEADING: &str = "hidlombe 1, parts: ";

// The first line, with the number of parts.
#[derive(Clone, Copy, Debug, PartialEq, Eq)]
pub struct Heading(pub u64);

impl fmt::Display for Heading {
    ghost output = { λ h. Some (heading h.0) };

    fn fmt<W: fmt::Write>(&self, f: &mut fmt::Formatter<W>) -> fmt::Result {
        write!(f, "{HEADING}{}", self.0)
    }
}

// A question with its verdict.
#[derive(Clone, Copy, Debug, PartialEq, Eq)]
pub struct Exchange<'a> {
    pub question: &'a [u64],
    pub verdict: Verdict,
}

fn letter(verdict: Verdict) -> char
    ensures { result ≡ letter verdict }
{
    match verdict {
        Verdict::Yes => 'y',
        Verdict::No => 'n',
        Verdict::Unclear => 'u',
    }
}

impl fmt::Display for Exchange<'_> {
    ghost output = { λ e. Some (exchange_line e.question.now e.verdict) };

    fn fmt<W: fmt::Write>(&self, f: &mut fmt::Formatter<W>) -> fmt::Result {
        write!(f, "{} {}", Question(self.question), letter(self.verdict))
    }
}

// Why a journal can't be taken up.
#[derive(Clone, Copy, Debug, PartialEq, Eq)]
pub enum Fault {
    // It doesn't begin with a heading of this version.
    Version,
    // A line is no question with its verdict.
    NoExchange,
    // A line asks of what isn't there.
    NoPart(u64),
    NotRising,
    // The reducer asks something else at this line.
    Foreign,
    OutOfMemory,
}

impl fmt::Display for Fault {
    ghost output = { λ x. Some (text_of x) };

    fn fmt<W: fmt::Write>(&self, f: &mut fmt::Formatter<W>) -> fmt::Result {
        match self {
            Fault::Version => write!(f, "no journal of this version"),
            Fault::NoExchange => write!(f, "no question with its answer"),
            Fault::NoPart(part) => write!(f, "there is no part {part}"),
            Fault::NotRising => write!(f, "the parts don't rise"),
            Fault::Foreign => write!(f, "the reducer asks something else here"),
            Fault::OutOfMemory => write!(f, "out of memory"),
        }
    }
}

impl Error for Fault {}

impl From<AllocError> for Fault {
    ghost use Rattle.journal.specs.declared.line.Fault.TheVariants.{OutOfMemory};

    ghost from_gives = { λ _ x. x ≡ OutOfMemory };

    fn from(_: AllocError) -> Self {
        Self::OutOfMemory
    }
}

// `dialog` has it for itself, and a public one is no plainer.
fn is_blank(byte: u8) -> bool
    ensures { result ≡ blank byte }
{
    matches!(byte, b' ' | b'\t' | b'\r')
}

// The last byte, blanks at the end aside.
fn last_byte(line: &[u8]) -> Option<u8>
    ensures { result ≡ last_byte line.now }
{
    line.iter().rev().copied().find(|byte| !is_blank(*byte))
}

// Whether a line says nothing: it has nothing but blanks, or it was cut off in writing and ended with this sign.
pub fn is_skipped(line: &[u8]) -> bool
    ensures { result ≡ skipped line.now }
{
    last_byte(line).is_none_or(|byte| byte == b'#')
}

fn blanks_before(line: &[u8]) -> usize
    ensures value { result ≡ prefix_len blank line.now }
    ensures within { result ≤ length line.now }
{
    line.iter().take_while(|byte| is_blank(**byte)).count()
}

fn without_blanks_before(line: &[u8]) -> &[u8]
    ensures { result.now ≡ without_blanks_before line.now }
{
    &line[blanks_before(line)..]
}

// What stands behind the heading's words, if the line begins with them.
fn behind_words(line: &[u8]) -> Option<&[u8]>
    ensures { option_copied result ≡ behind_words line.now }
{
    line.strip_prefix(HEADING.as_bytes())
}

// How many parts a heading tells of.
pub fn parts_in(line: &[u8]) -> Result<u64, Fault>
    ensures { result ≡ heading_in line.now }
{
    let rest = behind_words(without_blanks_before(line)).ok_or(Fault::Version)?;
    size_in(rest).map_err(|_| Fault::Version)
}

fn question_mark(line: &[u8]) -> Option<usize>
    ensures { result ≡ position (λ b. b == 63) line.now }
{
    line.iter().position(|byte| *byte == b'?')
}

// The numbers that the words say.
fn numbers_in(heap: Global, text: &[u8]) -> Result<Vec<u64>, Fault>
    ensures ok { IfOk result (λ read. numbers (words text.now) ≡ Some read.items) }
    ensures err { IfErr result (λ fault. fault ≢ OutOfMemory → (fault ≡ NoExchange) × (numbers (words text.now) ≡ None)) }
{
    let mut numbers = Vec::new(heap);
    for word in text
        .split(|byte| *byte == b' ')
        .filter(|word| !word.is_empty())
    {
        let number = size_in(word).map_err(|_| Fault::NoExchange)?;
        numbers.push(number).map_err(AllocError::from)?;
    }
    Ok(numbers)
}

// The first that is none of so many parts.
fn first_no_part(parts: u64, question: &[u64]) -> Option<u64>
    ensures { result ≡ find (nat_le parts) question.now }
{
    question.iter().copied().find(|part| *part >= parts)
}

// Whether these are some of so many parts.
fn check(parts: u64, question: &[u64]) -> Result<(), Fault>
    ensures { result ≡ checked parts question.now }
{
    if let Some(part) = first_no_part(parts, question) {
        return Err(Fault::NoPart(part));
    }
    if !rises(question) {
        return Err(Fault::NotRising);
    }
    Ok(())
}

// The question and the verdict that a line records.
pub fn exchange_in(heap: Global, parts: u64, line: &[u8]) -> Result<(Vec<u64>, Verdict), Fault>
    ensures ok { IfOk result (λ read. exchange_read parts line.now ≡ Ok (read.0.items, read.1)) }
    ensures err { IfErr result (λ fault. fault ≢ OutOfMemory → exchange_read parts line.now ≡ Err fault) }
{
    let mark = question_mark(line).ok_or(Fault::NoExchange)?;
    let verdict = verdict_in(&line[mark + 1..]).ok_or(Fault::NoExchange)?;
    let question = numbers_in(heap, &line[..mark])?;
    check(parts, &question)?;
    Ok((question, verdict))
}

#[cfg(test)]
mod tests {
    use super::*;
    use std::test::Fail;

    #[test]
    fn prints(rt: HostRuntime) -> Result<(), Fail> {
        let heap = rt.alloc();
        assert_eq!(rt;
            Heading(6).to_string(heap)?.as_str(),
            "hidlombe 1, parts: 6"
        );
        for (question, verdict, line) in [
            ([0, 1, 10].as_slice(), Verdict::Yes, "0 1 10? y"),
            ([7].as_slice(), Verdict::No, "7? n"),
            ([].as_slice(), Verdict::Unclear, "? u"),
        ] {
            let exchange = Exchange { question, verdict };
            assert_eq!(rt; exchange.to_string(heap)?.as_str(), line);
        }
        Ok(())
    }

    #[test]
    fn says_what_is_wrong(rt: HostRuntime) -> Result<(), Fail> {
        for (fault, text) in [
            (Fault::Version, "no journal of this version"),
            (Fault::NoExchange, "no question with its answer"),
            (Fault::NoPart(12), "there is no part 12"),
            (Fault::NotRising, "the parts don't rise"),
            (Fault::Foreign, "the reducer asks something else here"),
            (Fault::from(AllocError), "out of memory"),
        ] {
            assert_eq!(rt; fault.to_string(rt.alloc())?.as_str(), text);
        }
        Ok(())
    }

    #[test]
    fn passes_over(rt: HostRuntime) {
        assert!(rt; is_skipped(b""));
        assert!(rt; is_skipped(b" \t\r"));
        assert!(rt; is_skipped(b"0 1 #"));
        assert!(rt; is_skipped(b"0 1 2#\t \r"));
        assert!(rt; !is_skipped(b"# 0 1? y"));
        assert!(rt; !is_skipped(b"0? n"));
        assert!(rt; !is_skipped(b"#\x0c"));
    }

    #[test]
    fn headings(rt: HostRuntime) {
        assert_eq!(rt; parts_in(b"hidlombe 1, parts: 6"), Ok(6));
        assert_eq!(rt; parts_in(b"\t hidlombe 1, parts:  006 \r"), Ok(6));
        assert_eq!(rt;
            parts_in(b"hidlombe 1, parts: 18446744073709551615"),
            Ok(u64::MAX)
        );
        assert_eq!(rt;
            parts_in(b"hidlombe 1, parts: 18446744073709551616"),
            Err(Fault::Version)
        );
        assert_eq!(rt; parts_in(b"hidlombe 2, parts: 6"), Err(Fault::Version));
        assert_eq!(rt; parts_in(b"hidlombe 1, parts:6"), Err(Fault::Version));
        assert_eq!(rt; parts_in(b"hidlombe 1, parts: "), Err(Fault::Version));
        assert_eq!(rt; parts_in(b"hidlombe 1, parts: six"), Err(Fault::Version));
        assert_eq!(rt; parts_in(b"a hidlombe 1, parts: 6"), Err(Fault::Version));
        assert_eq!(rt; parts_in(b""), Err(Fault::Version));
    }

    #[test]
    fn exchanges(rt: HostRuntime) -> Result<(), Fail> {
        for (line, parts, said) in [
            (b"0 1 4? y".as_slice(), [0, 1, 4].as_slice(), Verdict::Yes),
            (b"  1  \t3? n \r".as_slice(), [1, 3].as_slice(), Verdict::No),
            (b"? u".as_slice(), [].as_slice(), Verdict::Unclear),
            (b"05?y".as_slice(), [5].as_slice(), Verdict::Yes),
        ] {
            let (question, verdict) = exchange_in(rt.alloc(), 6, line)?;
            assert_eq!(rt; question.as_slice(), parts);
            assert_eq!(rt; verdict, said);
        }
        Ok(())
    }

    #[test]
    fn no_exchanges(rt: HostRuntime) {
        for (line, fault) in [
            (b"".as_slice(), Fault::NoExchange),
            (b"0 1".as_slice(), Fault::NoExchange),
            (b"0 1?".as_slice(), Fault::NoExchange),
            (b"0 1? yes".as_slice(), Fault::NoExchange),
            (b"0 1?? y".as_slice(), Fault::NoExchange),
            (b"0 x 9? y".as_slice(), Fault::NoExchange),
            (b"0\t1? y".as_slice(), Fault::NoExchange),
            (b"18446744073709551616? y".as_slice(), Fault::NoExchange),
            (b"7 6 5? y".as_slice(), Fault::NoPart(7)),
            (b"5 5 6? y".as_slice(), Fault::NoPart(6)),
            (b"5 4? y".as_slice(), Fault::NotRising),
            (b"1 1? y".as_slice(), Fault::NotRising),
        ] {
            assert_eq!(rt; exchange_in(rt.alloc(), 6, line).err(), Some(fault));
        }
    }
}
