// The lines of a file as the parts to reduce: how many there are, and the text that some of them make.
// It uses no other crate.
#![tactic(auto)]

ghost use Rattle.std.specs.Prelude.{◌≡◌, ◌<◌, ◌^◌, map, length, IfOk};
ghost use Rattle.std.specs.List.{range_with_len};
ghost use Rattle.candidate.specs.Lines.{has, lines, picked};
ghost use Rattle.candidate.specs.Laws.{LinesCut, LinesJoin, LinesKnown, PickedLines, PicksAsked};

use std::alloc::{AllocError, Global};

// The lines of a text, one by one.
#[derive(Clone, Copy)]
pub struct Lines<'a> {
    rest: &'a [u8],
    // So that they can be counted.
    pub ghost fits: { length (lines rest.now) < 2 ^ 64 },
}

impl<'a> Lines<'a> {
    ghost use Rattle.candidate.specs.Left.{lines_left};

    pub fn of(text: &'a [u8]) -> Lines<'a>
        ensures { lines_left result ≡ lines text.now }
    {
        // There are no more lines than bytes, and no more bytes than a usize can tell.
        let _size = text.len();
        Lines { rest: text }
    }
}

impl<'a> Iterator for Lines<'a> {
    ghost use Rattle.std.specs.Iterator.{YieldsFirstRef, item_count};
    ghost use Rattle.candidate.specs.Left.{lines_left};

    type Item = &'a [u8];

    ghost next_gives = { YieldsFirstRef lines_left };

    ghost remaining = { item_count lines_left };

    fn next(&mut self) -> Option<&'a [u8]> {
        let line = self.rest.split_inclusive(|byte| *byte == b'\n').next()?;
        self.rest = &self.rest[line.len()..];
        Some(line)
    }
}

// How many lines a text has.
pub fn count(text: &[u8]) -> usize
    ensures { result ≡ length (lines text.now) }
{
    Lines::of(text).count()
}

// Which of so many lines stand in the row.
fn marks(heap: Global, count: usize, parts: &[u64]) -> Result<Vec<bool>, AllocError>
    ensures { IfOk result (λ marks. marks.items ≡ map (has parts.now) (range_with_len 0 count)) }
{
    let mut marks = vec![in heap; false; count]?;
    for part in parts {
        if let Some(mark) = marks.get_mut(*part as usize) {
            *mark = true;
        }
    }
    Ok(marks)
}

// The text that those lines make whose number stands in the row.
pub fn candidate(heap: Global, text: &[u8], parts: &[u64]) -> Result<Vec<u8>, AllocError>
    ensures { IfOk result (λ bytes. bytes.items ≡ picked (lines text.now) parts.now) }
{
    let marks = marks(heap, count(text), parts)?;
    let mut bytes = Vec::new(heap);
    for (line, mark) in Lines::of(text).zip(&marks) {
        if *mark {
            bytes.extend_from_slice(line)?;
        }
    }
    Ok(bytes)
}

// The lines are the text's, and no others; a rising row picks just those that it names.
pub fn lines_stand() -> u8
    ensures joined { LinesJoin }
    ensures cut { LinesCut }
    ensures known { LinesKnown }
    ensures asked { PicksAsked }
    ensures again { PickedLines }
{
    0
}

#[cfg(test)]
mod tests {
    use super::*;
    use std::test::Fail;

    #[test]
    fn counts(rt: HostRuntime) {
        assert_eq!(rt; count(b""), 0);
        assert_eq!(rt; count(b"a\nb"), 2);
        assert_eq!(rt; count(b"a\n\nb\n"), 3);
        assert_eq!(rt; count(b"\xff\0\n\xfe"), 2);
    }

    #[test]
    fn keeps_what_is_asked(rt: HostRuntime) -> Result<(), Fail> {
        let heap = rt.alloc();
        assert_eq!(rt; candidate(heap, b"", &[0])?.as_slice(), b"".as_slice());
        assert_eq!(rt; candidate(heap, b"a\nb", &[])?.as_slice(), b"".as_slice());
        assert_eq!(rt;
            candidate(heap, b"a\nb", &[0])?.as_slice(),
            b"a\n".as_slice()
        );
        assert_eq!(rt; candidate(heap, b"a\nb", &[1])?.as_slice(), b"b".as_slice());
        assert_eq!(rt;
            candidate(heap, b"a\n\nb\n", &[0, 1])?.as_slice(),
            b"a\n\n".as_slice()
        );
        assert_eq!(rt;
            candidate(heap, b"a\n\nb\n", &[1, 2])?.as_slice(),
            b"\nb\n".as_slice()
        );
        assert_eq!(rt;
            candidate(heap, b"\xff\0\n\xfe", &[0])?.as_slice(),
            b"\xff\0\n".as_slice()
        );
        assert_eq!(rt;
            candidate(heap, b"a\nb", &[1, 2, u64::MAX])?.as_slice(),
            b"b".as_slice()
        );
        Ok(())
    }

    #[test]
    fn takes_a_row_in_any_order(rt: HostRuntime) -> Result<(), Fail> {
        let text = candidate(rt.alloc(), b"a\nb\nc\n", &[2, 0, 2])?;
        assert_eq!(rt; text.as_slice(), b"a\nc\n".as_slice());
        Ok(())
    }
}
