// One number for each subset.
ghost use Rattle.std.specs.Prelude.{◌≡◌, ◌^◌, ◌<◌, min};
ghost use Rattle.judges.specs.Table.{index_of, tabled};

use super::Judge;

// Says the number at the place of a subset, where part p counts 2^p, and 0 past the end: n parts want 2^n numbers.
#[derive(Clone, Copy, Debug, PartialEq, Eq)]
pub struct Table<'a> {
    pub numbers: &'a [u64],
}

// What a part counts.
fn bit(part: u64) -> usize
    requires { part < 64 }
    ensures { result ≡ 2 ^ part }
{
    1 << part
}

// The place of a subset, or `most` if it lies there or past it.
// No `fold`: a short table is asked of many parts, too, and the first few tell that their place lies past its end.
fn place(subset: &[u64], most: usize) -> usize
    ensures { result ≡ min (index_of subset.now) most }
{
    let mut index = 0;
    for p in subset {
        if *p >= 64 {
            return most;
        }
        let step = bit(*p);
        if step >= most - index {
            return most;
        }
        index += step;
    }
    index
}

impl<'a> Judge for Table<'a> {
    ghost meaning = { λ t. tabled t.numbers.now };

    fn says(&mut self, subset: &[u64]) -> u64 {
        let place = place(subset, self.numbers.len());
        self.numbers.get(place).copied().unwrap_or(0)
    }
}
