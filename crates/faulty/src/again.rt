// Asks of all again and again, whatever it hears.
ghost use Rattle.std.specs.Prelude.{◌≡◌};

use super::code::{Code, begin_with_all};
use inspect::Reducer;
use reduce::{Event, Refusal, Told};

#[derive(Clone, Copy, Debug, PartialEq, Eq)]
pub struct AsksAgain {
    all: Code,
}

impl AsksAgain {
    pub fn new() -> AsksAgain
        ensures { result.all.0 ≡ 0 }
    {
        AsksAgain { all: Code(0) }
    }
}

impl Reducer for AsksAgain {
    ghost does = { λ _ _ _ _ _. Unit {0} };

    fn react(&mut self, event: Event, out: &mut [u64]) -> Result<Told, Refusal> {
        match event {
            Event::Parts(count) => begin_with_all(self, count, out, |all| AsksAgain { all }),
            Event::Said(_) => self.all.ask(out),
        }
    }
}
