// The lines that are printed.
ghost use Rattle.std.specs.Prelude.{Some};
ghost use Rattle.dialog.specs.Lines.{behind_blanks, question_line, left_line};

use std::fmt;

// Each part behind a blank.
#[derive(Clone, Copy)]
struct BehindBlanks<'a>(&'a [u64]);

impl fmt::Display for BehindBlanks<'_> {
    ghost output = { λ b. Some (behind_blanks b.0.now) };

    fn fmt<W: fmt::Write>(&self, f: &mut fmt::Formatter<W>) -> fmt::Result {
        for part in self.0 {
            write!(f, " {part}")?;
        }
        Ok(())
    }
}

// The question whether these parts fail.
#[derive(Clone, Copy)]
pub struct Question<'a>(pub &'a [u64]);

impl fmt::Display for Question<'_> {
    ghost output = { λ q. Some (question_line q.0.now) };

    fn fmt<W: fmt::Write>(&self, f: &mut fmt::Formatter<W>) -> fmt::Result {
        if let [first, rest @ ..] = self.0 {
            write!(f, "{first}{}", BehindBlanks(rest))?;
        }
        write!(f, "?")
    }
}

// The end, with these parts left.
#[derive(Clone, Copy)]
pub struct Left<'a>(pub &'a [u64]);

impl fmt::Display for Left<'_> {
    ghost output = { λ l. Some (left_line l.0.now) };

    fn fmt<W: fmt::Write>(&self, f: &mut fmt::Formatter<W>) -> fmt::Result {
        write!(f, "left{}", BehindBlanks(self.0))
    }
}

#[cfg(test)]
mod tests {
    use super::*;
    use std::test::Fail;

    #[test]
    fn lines(rt: HostRuntime) -> Result<(), Fail> {
        let heap = rt.alloc();
        assert_eq!(rt; Question(&[0, 10, 4]).to_string(heap)?.as_str(), "0 10 4?");
        assert_eq!(rt; Question(&[]).to_string(heap)?.as_str(), "?");
        assert_eq!(rt; Left(&[1, 4]).to_string(heap)?.as_str(), "left 1 4");
        assert_eq!(rt; Left(&[]).to_string(heap)?.as_str(), "left");
        Ok(())
    }
}
