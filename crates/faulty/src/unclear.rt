// Takes "can't tell" for failing.
ghost use Rattle.std.specs.Prelude.{◌≡◌, replicate};

use bisect::Verdict;
use inspect::{Machine, Reducer};
use reduce::{Event, Refusal, Told};

// The reducer itself, which is told that it fails where one can't tell.
#[derive(Clone, Copy, Debug, PartialEq, Eq)]
pub struct UnclearFails {
    machine: Machine,
}

impl UnclearFails {
    pub fn new() -> UnclearFails
        ensures { result.machine.memory ≡ replicate 72 0 }
    {
        UnclearFails {
            machine: Machine::new(),
        }
    }
}

impl Reducer for UnclearFails {
    ghost does = { λ _ _ _ _ _. Unit {0} };

    fn react(&mut self, event: Event, out: &mut [u64]) -> Result<Told, Refusal> {
        let heard = match event {
            Event::Said(answer) if Verdict::try_from(answer) == Ok(Verdict::Unclear) => {
                Event::Said(Verdict::Yes.into())
            }
            _ => event,
        };
        self.machine.react(heard, out)
    }
}
