// Parts that need others.
ghost use Rattle.std.specs.Prelude.{◌≡◌};
ghost use Rattle.judges.specs.Chained.{all_met, chained, need_of};

use super::Judge;
use bisect::Verdict;

// Can't tell of what lacks a part that one of its parts needs; of all else it says what another judge says.
// Part p needs the part `needs[p]`, and nothing if that is p or lies past the end.
#[derive(Drop)]
pub struct Chained<'a, J> {
    pub needs: &'a [u64],
    pub judge: J,
}

// The part that a part needs; itself if none.
fn need_of(needs: &[u64], part: u64) -> u64
    ensures { result ≡ need_of needs.now part }
{
    needs.get(part as usize).copied().unwrap_or(part)
}

// Whether all that is needed is there.
fn all_met(needs: &[u64], subset: &[u64]) -> bool
    ensures { result ≡ all_met needs.now subset.now }
{
    subset
        .iter()
        .all(|part| subset.contains(&need_of(needs, *part)))
}

impl<'a, J: Judge> Judge for Chained<'a, J> {
    ghost meaning = { λ c. chained c.needs.now (J.Judge.meaning c.judge) };

    fn says(&mut self, subset: &[u64]) -> u64 {
        if !all_met(self.needs, subset) {
            return Verdict::Unclear.into();
        }
        self.judge.says(subset)
    }
}
