// Subsets in rows of numbers.
ghost use Rattle.std.specs.Prelude.{◌≡◌, ◌≤◌, true, length};
ghost use Rattle.bisect.specs.Judge.{fails};
ghost use Rattle.subset.specs.Parts.{rising, some_of, without};
ghost use Rattle.inspect.specs.Inspector.{all_needed};

use bisect::{MOST, fails, leave_out, rises};
use judges::Judge;

// A row that has room for every subset.
pub(crate) type Row = [u64; MOST as usize];

// Whether they are a subset of so many parts.
pub(crate) fn is_subset(subset: &[u64], parts: u64) -> bool
    ensures { result ≡ some_of parts subset.now }
{
    rises(subset) && subset.iter().all(|p| *p < parts)
}

// At most 4,096 parts that rise.
#[derive(Clone, Copy)]
pub(crate) struct Subset<'a> {
    pub(crate) parts: &'a [u64],
    ghost rises: { rising parts.now ≡ true },
    ghost short: { length parts.now ≤ 4096 },
}

impl<'a> Subset<'a> {
    // The subset without one of its parts, in a lent row.
    fn but<'b>(self, part: u64, row: &'b mut Row) -> &'b [u64]
        ensures { result.now ≡ without part self.entry.parts.now }
    {
        let count = leave_out(self.parts, row, part).unwrap();
        &row[..count as usize]
    }

    // Whether it fails without one of its parts.
    fn can_spare<J: Judge>(self, judge: &mut J, part: u64) -> bool
        ensures same { J.meaning judge.new ≡ J.meaning judge.old }
        ensures value { result ≡ fails (J.meaning judge.old) (without part self.entry.parts.now) }
    {
        fails(judge.says(self.but(part, &mut [0; MOST as usize])))
    }

    // Whether it doesn't fail without any one of its parts.
    pub(crate) fn is_needed<J: Judge>(self, judge: &mut J) -> bool
        ensures same { J.meaning judge.new ≡ J.meaning judge.old }
        ensures value { result ≡ all_needed (J.meaning judge.old) self.entry.parts.now }
    {
        // No `all`: what holds of a judge that its closure asks takes an invariant over captures, which is no plainer.
        for p in self.parts {
            if self.can_spare(judge, *p) {
                return false;
            }
        }
        true
    }
}
