// Where a pass stands, read from and written to lent memory; the cut; what an answer does; and the question at the cut.
ghost use Rattle.std.specs.Prelude.{◌≡◌, ◌<◌, ◌≤◌, ok_or, if◌then◌else◌};
ghost use Rattle.subset.specs.Row.{members};
ghost use Rattle.subset.specs.Says.{Told};
ghost use Rattle.bisect.specs.Search.{guess, halved, heard, place, settled, shorn};
ghost use Rattle.bisect.specs.Stand.{askable, asked, cut_at, given, noted, placed, sane, sought, whole};

use super::{LENGTH, MOST, Search, lay};

// Where a memory holds what.
const LO: usize = 2;

const ROW: usize = 3;

const BEGUN: usize = 5;

const SPENT: usize = 6;

const SURE: usize = 7;

// A memory of another length.
#[derive(Clone, Copy, Debug, PartialEq, Eq)]
pub struct WrongLength;

// The middle of what is open in the row.
fn middle(lo: u64, row: u64) -> u64
    requires { lo < row }
    ensures { result ≡ halved lo row }
{
    lo + (row - lo - 1) / 2
}

// As many members as hold the next needed one with about even chance.
fn share(row: u64, begun: u64, found: u64) -> u64
    requires order { row ≤ begun }
    requires small { begun ≤ 4096 }
    requires some { 0 < found }
    requires few { found ≤ 4096 }
    ensures { result ≡ guess row begun found }
{
    (7 * (begun - row) / (10 * found)).max(1)
}

// The row without its last `last`, or without any where these are a quarter of it or more.
fn shear(row: u64, last: u64) -> u64
    ensures { result ≡ shorn row last }
{
    if last >= row.div_ceil(4) {
        0
    } else {
        row - last
    }
}

impl Search {
    // Where a pass over so many members begins.
    pub fn fresh(count: u64) -> Search
        ensures { result ≡ place 0 count count 0 0 }
    {
        Search {
            lo: 0,
            row: count,
            begun: count,
            spent: 0,
            sure: 0,
        }
    }

    // What memory holds. `TryFrom` would be no plainer: it can't say that this is read from a memory, and `write` can be no `From`, as it keeps the rest.
    pub fn read(memory: &[u64]) -> Result<Search, WrongLength>
        ensures { result ≡ ok_or (given (whole memory.now) (sought memory.now)) (record {}) }
    {
        if memory.len() != LENGTH {
            return Err(WrongLength);
        }
        Ok(Search {
            lo: memory[LO],
            row: memory[ROW],
            begun: memory[BEGUN],
            spent: memory[SPENT],
            sure: memory[SURE],
        })
    }

    // Notes it in memory.
    pub fn write(self, memory: &mut [u64]) -> Result<(), WrongLength>
        ensures said { result ≡ ok_or (given (whole memory.old) tt) (record {}) }
        ensures after { memory.new ≡ (if whole memory.old then noted self memory.old else memory.old) }
    {
        if memory.len() != LENGTH {
            return Err(WrongLength);
        }
        memory[LO] = self.lo;
        memory[ROW] = self.row;
        memory[BEGUN] = self.begun;
        memory[SPENT] = self.spent;
        memory[SURE] = self.sure;
        Ok(())
    }

    // Whether something is open in the row of so many members, of at most so many parts.
    // Two numbers, no type of both: `cut` and `hear` ask with MOST alone.
    pub fn is_placed(self, count: u64, most: u64) -> bool
        ensures { result ≡ placed self count most }
    {
        most <= MOST
            && self.lo < self.row
            && self.row <= count
            && count <= self.begun
            && self.begun <= most
    }

    // Whether a pass may leave this there.
    pub fn is_sane(self, count: u64, most: u64) -> bool
        ensures { result ≡ sane self count most }
    {
        self.is_placed(count, most)
            && self.sure <= count - self.row
            && self.spent <= 13 * (count - self.row + 1)
    }

    // Where the row of so many members is cut: guesses are made at a fresh row, and only from what halving would have
    // cost at worst.
    pub fn cut(self, count: u64) -> Option<u64>
        ensures { result ≡ given (placed self count 4096) (cut_at self count) }
    {
        if !self.is_placed(count, MOST) {
            return None;
        }
        let found = count - self.row;
        let cut = if self.lo == 0 && found > 0 && self.row > 4 && self.spent <= 13 * found {
            shear(self.row, share(self.row, self.begun, found))
        } else {
            middle(self.lo, self.row)
        };
        Some(cut)
    }

    // Where nothing of the row is left to ask of, its last is found.
    fn settled(self) -> Search
        requires { self.sure ≤ 4096 }
        ensures { result ≡ settled self }
    {
        if self.lo < self.row || self.row == 0 {
            return self;
        }
        Search {
            lo: 0,
            row: self.row - 1,
            sure: self.sure + 1,
            ..self
        }
    }

    // Apart from `hear`, whose proof has no margin with this in it.
    fn after(self, cut: u64, fails: bool) -> Search
        requires sure { self.sure ≤ 4095 }
        requires spent { self.spent ≤ 53261 }
        requires cut { cut ≤ 4096 }
        ensures { result ≡ heard cut self fails }
    {
        let spent = self.spent + 1;
        let next = if fails {
            Search {
                row: cut,
                spent,
                sure: 0,
                ..self
            }
        } else {
            Search {
                lo: cut + 1,
                spent,
                ..self
            }
        };
        next.settled()
    }

    // What the answer about the question at the cut does.
    pub fn hear(self, count: u64, fails: bool) -> Option<Search>
        ensures { result ≡ given (sane self count 4096) (heard (cut_at self count) self fails) }
    {
        if !self.is_sane(count, MOST) {
            return None;
        }
        Some(self.after(self.cut(count)?, fails))
    }
}

// The question at the cut, in the lent row: the row's beginning, and behind it what is needed. None is asked where
// the numbers don't fit the words, or the lent row is shorter than 4,096; it is then as it was.
pub fn question(words: &[u64], at: Search, out: &mut [u64]) -> Option<u64>
    ensures { Told (askable at words.now out.old) (asked at (members words.now)) out.old result out.new }
{
    // Tested before a row is cleared and filled: a refusal costs no more than its tests.
    let members = subset::count(words)?;
    let cut = at.cut(members)?;
    if out.len() < MOST as usize {
        return None;
    }
    let mut row = [0; MOST as usize];
    let count = subset::tell(words, &mut row)?;
    let (beginning, needed) = (&row[..cut as usize], &row[at.row as usize..count as usize]);
    Some(lay(beginning, needed, out))
}
