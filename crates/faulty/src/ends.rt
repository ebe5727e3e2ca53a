// Halves from both ends, and believes that failing grows.
ghost use Rattle.std.specs.Prelude.{◌≡◌, ◌+◌, ◌-◌, ◌/◌, ◌^◌, min, length, if◌then◌else◌, nat_lt};
ghost use Rattle.inspect.specs.Recorder.{Roomy};
ghost use Rattle.faulty.specs.Halves.{middle, upper};

use super::code::{Code, begin_with_all};
use bisect::fails;
use inspect::Reducer;
use reduce::{Event, Refusal, Told};

// What lies from `lo` to `hi` is looked for by halves.
#[derive(Clone, Copy, Debug, PartialEq, Eq)]
struct Range {
    lo: u64,
    hi: u64,
}

impl Range {
    // All there is.
    fn up_to(hi: u64) -> Range
        ensures { result ≡ record { lo = 0; hi = hi } }
    {
        Range { lo: 0, hi }
    }

    // More than one is left.
    fn is_open(self) -> bool
        ensures { result ≡ nat_lt self.lo self.hi }
    {
        self.lo < self.hi
    }

    // Half of what is open, rounded down.
    fn half(self) -> u64
        ensures { result ≡ (self.hi - self.lo) / 2 }
    {
        self.hi.saturating_sub(self.lo) / 2
    }

    // The middle, rounded down; and rounded up.
    fn below(self) -> u64
        ensures { result ≡ middle self }
    {
        self.lo.saturating_add(self.half())
    }

    fn above(self) -> u64
        ensures { result ≡ upper self }
    {
        self.hi - self.half()
    }

    // After the answer about a beginning up to the middle: whether it fails.
    // No twin of the next: there the middle is rounded up, and the other end moves.
    fn after_beginning(self, failed: bool) -> Range
        ensures { result ≡ (if failed then (record { lo = self.lo; hi = middle self }) else (record { lo = min (middle self + 1) (2 ^ 64 - 1); hi = self.hi })) }
    {
        if failed {
            return Range {
                hi: self.below(),
                ..self
            };
        }
        Range {
            lo: self.below().saturating_add(1),
            ..self
        }
    }

    // After the answer about an end from the middle on.
    fn after_end(self, failed: bool) -> Range
        ensures { result ≡ (if failed then (record { lo = upper self; hi = self.hi }) else (record { lo = self.lo; hi = upper self - 1 })) }
    {
        if failed {
            return Range {
                lo: self.above(),
                ..self
            };
        }
        Range {
            hi: self.above().saturating_sub(1),
            ..self
        }
    }
}

// What it looks for.
#[derive(Clone, Copy, Debug, PartialEq, Eq)]
enum Phase {
    // Whether all together fail.
    All,
    // The shortest beginning that fails.
    Beginning(Range),
    // The shortest end that fails, after a beginning of so many.
    End(u64, Range),
}

// Finds the shortest beginning that fails and the shortest end that fails, each by halves and on its own, and tells what they have in common:
// if failing grows and one set is to blame, that set lies in both.
#[derive(Clone, Copy, Debug, PartialEq, Eq)]
pub struct BothEnds {
    parts: u64,
    phase: Phase,
}

impl BothEnds {
    pub fn new() -> BothEnds
        ensures { result.parts ≡ 0 }
    {
        BothEnds {
            parts: 0,
            phase: Phase::All,
        }
    }

    // Asks of a shorter end, or has found the shortest.
    fn end(&mut self, beginning: u64, range: Range, out: &mut [u64]) -> Result<Told, Refusal>
        ensures { Roomy result (length out.new) }
    {
        self.phase = Phase::End(beginning, range);
        if range.is_open() {
            return Code::all_of(self.parts)
                .but(Code::all_of(range.above()))
                .ask(out);
        }
        Code::all_of(beginning)
            .but(Code::all_of(range.lo))
            .leave(out)
    }

    // Asks of a shorter beginning, or has found the shortest.
    fn beginning(&mut self, range: Range, out: &mut [u64]) -> Result<Told, Refusal>
        ensures { Roomy result (length out.new) }
    {
        self.phase = Phase::Beginning(range);
        if range.is_open() {
            return Code::all_of(range.below()).ask(out);
        }
        self.end(range.hi, Range::up_to(self.parts), out)
    }

    fn hear(&mut self, failed: bool, out: &mut [u64]) -> Result<Told, Refusal>
        ensures { Roomy result (length out.new) }
    {
        match self.phase {
            Phase::All if failed => self.beginning(Range::up_to(self.parts), out),
            Phase::All => Ok(Told::Sound),
            Phase::Beginning(range) => self.beginning(range.after_beginning(failed), out),
            Phase::End(beginning, range) => self.end(beginning, range.after_end(failed), out),
        }
    }
}

impl Reducer for BothEnds {
    ghost does = { λ _ _ _ _ _. Unit {0} };

    fn react(&mut self, event: Event, out: &mut [u64]) -> Result<Told, Refusal> {
        match event {
            Event::Parts(count) => begin_with_all(self, count, out, |_| {
                BothEnds {
                    parts: count,
                    phase: Phase::All,
                }
            }),
            Event::Said(answer) => self.hear(fails(answer), out),
        }
    }
}
