// Stops when no half fails.
ghost use Rattle.std.specs.Prelude.{◌≡◌, length};
ghost use Rattle.inspect.specs.Recorder.{Roomy};

use super::code::{Code, begin_with_all};
use bisect::fails;
use inspect::Reducer;
use reduce::{Event, Refusal, Told};

// What was asked of last.
#[derive(Clone, Copy, Debug, PartialEq, Eq)]
enum Asked {
    All,
    First(Code),
    Second(Code),
}

#[derive(Clone, Copy, Debug, PartialEq, Eq)]
pub struct NoHalf {
    // What is known to fail.
    held: Code,
    asked: Asked,
}

impl NoHalf {
    pub fn new() -> NoHalf
        ensures { result.held.0 ≡ 0 }
    {
        NoHalf {
            held: Code(0),
            asked: Asked::All,
        }
    }

    // Asks of the first half of what is held, unless that has no halves.
    fn halve(&mut self, held: Code, out: &mut [u64]) -> Result<Told, Refusal>
        ensures { Roomy result (length out.new) }
    {
        self.held = held;
        if held.size() < 2 {
            return held.leave(out);
        }
        let half = held.first_half();
        self.asked = Asked::First(half);
        half.ask(out)
    }

    fn hear(&mut self, failed: bool, out: &mut [u64]) -> Result<Told, Refusal>
        ensures { Roomy result (length out.new) }
    {
        match self.asked {
            Asked::All if failed => self.halve(self.held, out),
            Asked::All => Ok(Told::Sound),
            Asked::First(half) | Asked::Second(half) if failed => self.halve(half, out),
            Asked::First(half) => {
                let other = self.held.but(half);
                self.asked = Asked::Second(other);
                other.ask(out)
            }
            Asked::Second(_) => self.held.leave(out),
        }
    }
}

impl Reducer for NoHalf {
    ghost does = { λ _ _ _ _ _. Unit {0} };

    fn react(&mut self, event: Event, out: &mut [u64]) -> Result<Told, Refusal> {
        match event {
            Event::Parts(count) => begin_with_all(self, count, out, |all| {
                NoHalf {
                    held: all,
                    asked: Asked::All,
                }
            }),
            Event::Said(answer) => self.hear(fails(answer), out),
        }
    }
}
