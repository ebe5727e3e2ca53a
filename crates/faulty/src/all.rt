// Tries all that can be tried.
ghost use Rattle.std.specs.Prelude.{◌≡◌, length, None};
ghost use Rattle.inspect.specs.Recorder.{Roomy};

use super::code::{Code, begin_with_all};
use bisect::fails;
use inspect::Reducer;
use reduce::{Event, Refusal, Told};

// Asks of every subset, by its number, and tells the first of those that fail with the fewest parts.
#[derive(Clone, Copy, Debug, PartialEq, Eq)]
pub struct TriesAll {
    all: Code,
    // The best so far.
    best: Code,
    // What was asked of, once all together were.
    asked: Option<Code>,
}

impl TriesAll {
    pub fn new() -> TriesAll
        ensures { result ≡ record { all = record { 0 = 0 }; best = record { 0 = 0 }; asked = None } }
    {
        TriesAll {
            all: Code(0),
            best: Code(0),
            asked: None,
        }
    }

    // Asks of a subset, or, past the last, tells the best.
    fn on(&mut self, code: Code, out: &mut [u64]) -> Result<Told, Refusal>
        ensures { Roomy result (length out.new) }
    {
        if code >= self.all {
            return self.best.leave(out);
        }
        self.asked = Some(code);
        code.ask(out)
    }

    fn hear(&mut self, failed: bool, out: &mut [u64]) -> Result<Told, Refusal>
        ensures { Roomy result (length out.new) }
    {
        match self.asked {
            None if failed => self.on(Code(0), out),
            None => Ok(Told::Sound),
            Some(code) => {
                if failed && code.size() < self.best.size() {
                    self.best = code;
                }
                self.on(code.next(), out)
            }
        }
    }
}

impl Reducer for TriesAll {
    ghost does = { λ _ _ _ _ _. Unit {0} };

    fn react(&mut self, event: Event, out: &mut [u64]) -> Result<Told, Refusal> {
        match event {
            Event::Parts(count) => begin_with_all(self, count, out, |all| {
                TriesAll {
                    all,
                    best: all,
                    asked: None,
                }
            }),
            Event::Said(answer) => self.hear(fails(answer), out),
        }
    }
}
