// Tries each part out once.
ghost use Rattle.std.specs.Prelude.{◌≡◌, length, None};
ghost use Rattle.inspect.specs.Recorder.{Roomy};

use super::code::{Code, begin_with_all};
use bisect::fails;
use inspect::Reducer;
use reduce::{Event, Refusal, Told};

// Tries each part out once, though something else can go after one went.
#[derive(Clone, Copy, Debug, PartialEq, Eq)]
pub struct TriesOnce {
    parts: u64,
    // What is known to fail.
    held: Code,
    // The part that is tried out, once all were asked of.
    part: Option<u64>,
}

impl TriesOnce {
    pub fn new() -> TriesOnce
        ensures { result ≡ record { parts = 0; held = record { 0 = 0 }; part = None } }
    {
        TriesOnce {
            parts: 0,
            held: Code(0),
            part: None,
        }
    }

    // Asks without a part, or, past the last, tells what is held.
    fn on(&mut self, part: u64, out: &mut [u64]) -> Result<Told, Refusal>
        ensures { Roomy result (length out.new) }
    {
        if part >= self.parts {
            return self.held.leave(out);
        }
        self.part = Some(part);
        self.held.without(part).ask(out)
    }

    fn hear(&mut self, failed: bool, out: &mut [u64]) -> Result<Told, Refusal>
        ensures { Roomy result (length out.new) }
    {
        match self.part {
            None if failed => self.on(0, out),
            None => Ok(Told::Sound),
            Some(part) => {
                if failed {
                    self.held = self.held.without(part);
                }
                self.on(part.saturating_add(1), out)
            }
        }
    }
}

impl Reducer for TriesOnce {
    ghost does = { λ _ _ _ _ _. Unit {0} };

    fn react(&mut self, event: Event, out: &mut [u64]) -> Result<Told, Refusal> {
        match event {
            Event::Parts(count) => begin_with_all(self, count, out, |all| {
                TriesOnce {
                    parts: count,
                    held: all,
                    part: None,
                }
            }),
            Event::Said(answer) => self.hear(fails(answer), out),
        }
    }
}

// Loses count after so many questions, and tells what is left then.
#[derive(Clone, Copy, Debug, PartialEq, Eq)]
pub struct LostCount {
    asked: u64,
    trial: TriesOnce,
}

const LOST: u64 = 4;

impl LostCount {
    pub fn new() -> LostCount
        ensures { result.asked ≡ 0 }
    {
        LostCount {
            asked: 0,
            trial: TriesOnce::new(),
        }
    }
}

impl Reducer for LostCount {
    ghost does = { λ _ _ _ _ _. Unit {0} };

    fn react(&mut self, event: Event, out: &mut [u64]) -> Result<Told, Refusal> {
        let told = self.trial.react(event, out);
        match event {
            Event::Parts(_) => self.asked = 1,
            Event::Said(_) if self.asked == LOST => return self.trial.held.leave(out),
            Event::Said(_) => self.asked = self.asked.saturating_add(1),
        }
        told
    }
}
