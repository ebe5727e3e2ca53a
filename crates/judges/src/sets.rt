// Sets that fail.
ghost use Rattle.judges.specs.Sets.{by_sets};

use super::parts::all_in;
use super::spelled::lists;
use super::{Judge, verdict};

// Fails what has all of one of some sets. The row has a length, then so many parts, again and again.
// One row and no slice of slices: the laws of sets are about rows, and a transcript in lent memory is read as such a row, too.
#[derive(Clone, Copy, Debug, PartialEq, Eq)]
pub struct Sets<'a> {
    pub sets: &'a [u64],
}

impl<'a> Judge for Sets<'a> {
    ghost meaning = { λ s. by_sets s.sets.now };

    fn says(&mut self, subset: &[u64]) -> u64 {
        verdict(lists(self.sets).any(|set| all_in(set, subset)))
    }
}
