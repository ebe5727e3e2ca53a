// How often a judge is asked.
ghost use Rattle.std.specs.Prelude.{◌≡◌, ◌+◌, ◌-◌, ◌^◌, min};

use super::Judge;

// Says what another judge says, and counts the questions as far as a number goes.
#[derive(Drop)]
pub struct Counted<J> {
    pub judge: J,
    pub asked: u64,
}

impl<J: Judge> Judge for Counted<J> {
    ghost meaning = { λ c. J.Judge.meaning c.judge };

    fn says(&mut self, subset: &[u64]) -> u64
        ensures same { J.Judge.meaning self.new.judge ≡ J.Judge.meaning self.old.judge }
        ensures value { result ≡ J.Judge.meaning self.old.judge subset.now }
        ensures count { self.new.asked ≡ min (self.old.asked + 1) (2 ^ 64 - 1) }
    {
        self.asked = self.asked.saturating_add(1);
        self.judge.says(subset)
    }
}
