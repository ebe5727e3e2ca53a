// A journal taken up: the machine goes through what is recorded, and stands where the run stood.
ghost use Rattle.std.specs.Prelude.{◌≡◌, ◌≢◌, ◌≤◌, ◌-◌, IfOk, IfErr, Some, Ok, Err, length, filter, not, nat_eq, ◌==◌};
ghost use Rattle.std.specs.List.{slice_split, starts_with, suffix_len};
ghost use Rattle.journal.specs.declared.line.Fault.TheVariants.{OutOfMemory};
ghost use Rattle.journal.specs.Line.{exchange_read, heading, skipped};
ghost use Rattle.journal.specs.Promise.{lines_of};
ghost use Rattle.journal.specs.Replay.{answered, by_line, complaint, cut_off, numbered, replayed, torn, whole_lines};

use super::line::{Fault, Heading, exchange_in, is_skipped, parts_in};
use bisect::Verdict;
use session::{Act, Session};
use std::alloc::{AllocError, Global};
use std::error::Error;
use std::fmt;

// A journal that was gone through: the number of parts, and the session where the run stood.
#[derive(Drop)]
pub struct Replayed {
    pub parts: u64,
    pub session: Session,
}

// Which line is at fault, counted from 1, and what is wrong there.
#[derive(Clone, Copy, Debug, PartialEq, Eq)]
pub struct Broken {
    pub line: usize,
    pub fault: Fault,
}

impl fmt::Display for Broken {
    ghost output = { λ b. Some (complaint b) };

    fn fmt<W: fmt::Write>(&self, f: &mut fmt::Formatter<W>) -> fmt::Result {
        write!(f, "line {}: {}", self.line, self.fault)
    }
}

impl Error for Broken {}

// How many bytes stand behind the last newline.
fn cut_off(text: &[u8]) -> usize
    ensures value { result ≡ cut_off text.now }
    ensures within { result ≤ length text.now }
{
    text.iter().rev().take_while(|byte| **byte != b'\n').count()
}

fn whole_lines(text: &[u8]) -> &[u8]
    ensures { result.now ≡ whole_lines text.now }
{
    &text[..text.len() - cut_off(text)]
}

// A last line that was cut off in writing: what stands behind the last newline.
pub fn torn(text: &[u8]) -> &[u8]
    ensures { result.now ≡ torn text.now }
{
    &text[text.len() - cut_off(text)..]
}

// Whether a text is no journal yet: there is nothing, or the heading was cut off in writing.
pub fn is_unbegun(heap: Global, parts: u64, text: &[u8]) -> Result<bool, AllocError>
    ensures { IfOk result (λ unbegun. unbegun ≡ starts_with nat_eq (heading parts) text.now) }
{
    Ok(Heading(parts).to_string(heap)?.as_bytes().starts_with(text))
}

fn kept_lines(text: &[u8]) -> usize
    ensures { result ≡ length (filter (λ l. not (skipped l)) (slice_split (λ b. b == 10) text.now)) }
{
    text.split(|byte| *byte == b'\n')
        .filter(|line| !is_skipped(line))
        .count()
}

// How many questions a journal tells of: its lines, without those that are skipped and without the heading.
pub fn exchanges(text: &[u8]) -> usize
    ensures { result ≡ length (lines_of text.now) - 1 }
{
    kept_lines(whole_lines(text)).saturating_sub(1)
}

// Goes on by an exchange, if the question is the one that is asked.
fn answer(session: &mut Session, question: &[u64], verdict: Verdict) -> Result<(), Fault>
    ensures ok { IfOk result (λ _. answered session.old (Ok (question.now, verdict)) ≡ Ok session.new) }
    ensures err { IfErr result (λ fault. answered session.old (Ok (question.now, verdict)) ≡ Err fault) }
{
    let Act::Ask(asked) = session.act() else {
        return Err(Fault::Foreign);
    };
    if asked != question {
        return Err(Fault::Foreign);
    }
    session.hear(verdict).map_err(|_| Fault::Foreign)
}

// Goes on by a line that isn't skipped.
fn go_on(heap: Global, replayed: Option<Replayed>, line: &[u8]) -> Result<Replayed, Fault>
    ensures ok { IfOk result (λ after. by_line replayed line.now ≡ Ok after) }
    ensures err { IfErr result (λ fault. fault ≢ OutOfMemory → by_line replayed line.now ≡ Err fault) }
{
    let Some(mut replayed) = replayed else {
        let parts = parts_in(line)?;
        return Ok(Replayed {
            parts,
            session: Session::begin(parts),
        });
    };
    let (question, verdict) = exchange_in(heap, replayed.parts, line)?;
    answer(&mut replayed.session, &question, verdict)?;
    Ok(replayed)
}

// The same with the line's number, and where it is skipped.
fn read_line(
    heap: Global,
    replayed: Option<Replayed>,
    number: usize,
    line: &[u8],
) -> Result<Option<Replayed>, Broken>
    ensures ok { IfOk result (λ after. numbered replayed number line.now ≡ Ok after) }
    ensures err { IfErr result (λ broken. broken.fault ≢ OutOfMemory → numbered replayed number line.now ≡ Err broken) }
{
    if is_skipped(line) {
        return Ok(replayed);
    }
    match go_on(heap, replayed, line) {
        Ok(after) => Ok(Some(after)),
        Err(fault) => Err(Broken {
            line: number,
            fault,
        }),
    }
}

// Goes through a journal. A last line that was cut off in writing counts as not written.
pub fn replay(heap: Global, text: &[u8]) -> Result<Replayed, Broken>
    ensures ok { IfOk result (λ after. replayed text.now ≡ Ok after) }
    ensures err { IfErr result (λ broken. broken.fault ≢ OutOfMemory → replayed text.now ≡ Err broken) }
{
    let mut replayed = None;
    let lines = whole_lines(text).split(|byte| *byte == b'\n');
    for (index, line) in lines.enumerate() {
        replayed = read_line(heap, replayed, index + 1, line)?;
    }
    replayed.ok_or(Broken {
        line: 1,
        fault: Fault::Version,
    })
}

#[cfg(test)]
mod tests {
    use super::*;
    use std::test::Fail;

    // Six parts, of which 1 and 4 together fail: the first four questions are known by hand.
    const BEGUN: &[u8] =
        b"hidlombe 1, parts: 6\n0 1 2 3 4 5? y\n0 1? n\n0 1 2 3? n\n0 1 2 3 4? y\n";

    fn fault(heap: Global, text: &[u8]) -> Option<Broken> {
        replay(heap, text).err()
    }

    // What a text is refused for when it stands where the second question does.
    fn fault_at_second(heap: Global, line: &[u8]) -> Result<Option<Broken>, AllocError> {
        let mut text = Vec::new(heap);
        text.extend_from_slice(b"hidlombe 1, parts: 6\n0 1 2 3 4 5? y\n")?;
        text.extend_from_slice(line)?;
        text.extend_from_slice(b"\nnobody reads this\n")?;
        Ok(fault(heap, &text))
    }

    #[test]
    fn goes_on(rt: HostRuntime) -> Result<(), Fail> {
        let heap = rt.alloc();
        let replayed = replay(heap, BEGUN)?;
        assert_eq!(rt; replayed.parts, 6);
        assert_eq!(rt; replayed.session.act(), Act::Ask(&[0, 4]));
        assert_eq!(rt; exchanges(BEGUN), 4);
        Ok(())
    }

    #[test]
    fn names_the_line(rt: HostRuntime) -> Result<(), Fail> {
        let heap = rt.alloc();
        for (line, fault) in [
            (b"0 1".as_slice(), Fault::NoExchange),
            (b"0 1? yes".as_slice(), Fault::NoExchange),
            (b"0 x? y".as_slice(), Fault::NoExchange),
            (b"0 6? y".as_slice(), Fault::NoPart(6)),
            (b"1 0? y".as_slice(), Fault::NotRising),
            (b"0 2? y".as_slice(), Fault::Foreign),
            (b"0 1 2? y".as_slice(), Fault::Foreign),
        ] {
            assert_eq!(rt;
                fault_at_second(heap, line)?,
                Some(Broken { line: 3, fault })
            );
        }
        Ok(())
    }

    #[test]
    fn needs_a_heading(rt: HostRuntime) {
        let heap = rt.alloc();
        let none = Some(Broken {
            line: 1,
            fault: Fault::Version,
        });
        assert_eq!(rt; fault(heap, b""), none);
        assert_eq!(rt; fault(heap, b"hidlombe 2, parts: 6\n"), none);
        assert_eq!(rt; fault(heap, b"0 1 2 3 4 5? y\n"), none);
        // A heading that was cut off is none.
        assert_eq!(rt; fault(heap, b"hidlombe 1, parts: 6"), none);
    }

    // A whole run: nothing more is asked after the end.
    #[test]
    fn nothing_after_the_end(rt: HostRuntime) {
        let heap = rt.alloc();
        let text = b"hidlombe 1, parts: 1\n0? n\n0? n\n";
        let ended = Some(Broken {
            line: 3,
            fault: Fault::Foreign,
        });
        assert_eq!(rt; fault(heap, text), ended);
    }

    #[test]
    fn skips(rt: HostRuntime) -> Result<(), Fail> {
        let heap = rt.alloc();
        let text = b"hid #\nhidlombe 1, parts: 6\n\n0 1 2 3 4 5? y\r\n0 1? y #\n0 1? n\n0 1 2";
        let replayed = replay(heap, text)?;
        assert_eq!(rt; replayed.session.act(), Act::Ask(&[0, 1, 2, 3]));
        assert_eq!(rt; exchanges(text), 2);
        assert_eq!(rt; torn(text), b"0 1 2".as_slice());
        assert!(rt; torn(BEGUN).is_empty());
        Ok(())
    }

    #[test]
    fn begun_or_not(rt: HostRuntime) -> Result<(), Fail> {
        let heap = rt.alloc();
        assert!(rt; is_unbegun(heap, 6, b"")?);
        assert!(rt; is_unbegun(heap, 6, b"hidlombe 1, par")?);
        assert!(rt; is_unbegun(heap, 6, b"hidlombe 1, parts: 6")?);
        assert!(rt; !is_unbegun(heap, 6, b"hidlombe 1, parts: 7")?);
        assert!(rt; !is_unbegun(heap, 6, b"hidlombe 1, parts: 6\n")?);
        assert!(rt; !is_unbegun(heap, 6, b"another file")?);
        Ok(())
    }

    #[test]
    fn says_where(rt: HostRuntime) -> Result<(), Fail> {
        let broken = Broken {
            line: 12,
            fault: Fault::NoPart(9),
        };
        assert_eq!(rt;
            broken.to_string(rt.alloc())?.as_str(),
            "line 12: there is no part 9"
        );
        Ok(())
    }

    #[test]
    fn an_answer_leads_on(rt: HostRuntime) {
        let mut session = Session::begin(2);
        assert_eq!(rt;
            answer(&mut session, &[0], Verdict::Yes),
            Err(Fault::Foreign)
        );
        assert_eq!(rt; answer(&mut session, &[0, 1], Verdict::No), Ok(()));
        assert_eq!(rt; session.act(), Act::Sound);
    }
}
