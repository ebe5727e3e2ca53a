// A count, and a part that must not be there.
ghost use Rattle.judges.specs.Rule.{ruled};

use super::{Judge, verdict};

// Fails what has at least so many parts and not the forbidden one.
#[derive(Clone, Copy, Debug, PartialEq, Eq)]
pub struct Rule {
    pub least: u64,
    pub forbidden: u64,
}

impl Judge for Rule {
    ghost meaning = { λ r. ruled r.least r.forbidden };

    fn says(&mut self, subset: &[u64]) -> u64 {
        verdict(self.least <= subset.len() as u64 && !subset.contains(&self.forbidden))
    }
}
