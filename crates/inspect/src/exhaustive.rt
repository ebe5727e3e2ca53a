// Trying every subset of a few parts, by its number: part p counts 2^p.
ghost use Rattle.std.specs.Prelude.{◌≡◌, ℕ, ◌^◌, ◌<◌, ◌≤◌, true, false, cond, Some, None, MatchOption, nat_le};
ghost use Rattle.bisect.specs.Judge.{fails};
ghost use Rattle.inspect.specs.Exhaustive.{MonotoneSays, coded, grown, grows, larger_fails, spared, spares, Tried};

use bisect::fails;
use judges::{Judge, all_in};
use subset::{is_within, tell};

// So few parts that every subset of them is tried.
#[derive(Clone, Copy)]
struct Few {
    parts: u64,
    // The numbers of their subsets are those below it. Held, so that no turn of a loop computes it anew.
    subsets: u64,
    ghost few: { parts ≤ 9 },
    ghost all: { subsets ≡ 2 ^ parts },
}

impl Few {
    fn new(parts: u64) -> Option<Few>
        ensures { MatchOption result (nat_le parts 9 ≡ false) (λ few. (nat_le parts 9 ≡ true) × (few.parts ≡ parts)) }
    {
        if parts > 9 {
            return None;
        }
        Some(Few {
            parts,
            subsets: 1 << parts,
        })
    }
}

// The subset with a number, in a lent row.
// One helper for this and `Case::all` would require the room that the length of each array shows.
fn coded(code: u64, row: &mut [u64; 64]) -> &[u64]
    ensures { result.now ≡ coded code }
{
    let count = tell(&[code], row).unwrap();
    &row[..count as usize]
}

// Whether the subset with a number fails.
fn code_fails<J: Judge>(judge: &mut J, code: u64) -> bool
    ensures same { J.meaning judge.new ≡ J.meaning judge.old }
    ensures value { result ≡ fails (J.meaning judge.old) (coded code) }
{
    fails(judge.says(coded(code, &mut [0; 64])))
}

// Whether the subset with a number fails, if it contains another.
fn fails_above<J: Judge>(judge: &mut J, code: u64, larger: u64) -> bool
    ensures same { J.meaning judge.new ≡ J.meaning judge.old }
    ensures value { result ≡ larger_fails (J.meaning judge.old) (coded code) (coded larger) }
{
    if is_within(&[code], &[larger]) {
        return code_fails(judge, larger);
    }
    true
}

// Whether something holds of all subsets of a few parts.
fn of_all<J: Judge, F: Fn(&mut J, u64) -> bool>(judge: &mut J, few: Few, holds: F) -> bool
    requires can { F.IsAlwaysCallable holds }
    requires keeps { (j : _) (k : _) (c : ℕ) (b : _) → c < 2 ^ 64 → F.post holds j c b k → J.meaning k.now ≡ J.meaning j.now }
    ensures same { J.meaning judge.new ≡ J.meaning judge.old }
    ensures tried { Tried (λ c b. (j : _) × (k : _) × (J.meaning j.now ≡ J.meaning judge.old) × F.post holds j c b k) few.parts result }
{
    // No `all`: what holds of a judge that its closure asks takes an invariant over captures, which is no plainer.
    for code in 0..few.subsets {
        if !holds(judge, code) {
            return false;
        }
    }
    true
}

// Whether a subset doesn't fail, or all that contains it does.
fn grown<J: Judge>(judge: &mut J, code: u64, few: Few) -> bool
    ensures same { J.meaning judge.new ≡ J.meaning judge.old }
    ensures value { result ≡ grown few.parts (J.meaning judge.old) (coded code) }
{
    if code_fails(judge, code) {
        return of_all(judge, few, |judge, larger| fails_above(judge, code, larger));
    }
    true
}

// Whether failing is monotone.
fn grows<J: Judge>(judge: &mut J, few: Few) -> bool
    ensures same { J.meaning judge.new ≡ J.meaning judge.old }
    ensures value { result ≡ grows few.parts (J.meaning judge.old) }
{
    of_all(judge, few, |judge, code| grown(judge, code, few))
}

// Whether the subset with a number is no failing one that lies strictly within another.
fn spares<J: Judge>(judge: &mut J, subset: &[u64], code: u64) -> bool
    ensures same { J.meaning judge.new ≡ J.meaning judge.old }
    ensures value { result ≡ spares (J.meaning judge.old) subset.now (coded code) }
{
    let mut row = [0; 64];
    let smaller = coded(code, &mut row);
    if all_in(smaller, subset) && fails(judge.says(smaller)) {
        return all_in(subset, smaller);
    }
    true
}

// Whether nothing smaller within a subset fails.
fn spared<J: Judge>(judge: &mut J, subset: &[u64], few: Few) -> bool
    ensures same { J.meaning judge.new ≡ J.meaning judge.old }
    ensures value { result ≡ spared few.parts (J.meaning judge.old) subset.now }
{
    of_all(judge, few, |judge, code| spares(judge, subset, code))
}

// Whether nothing smaller within a subset fails, found by trying; none is said of more than nine parts.
pub(crate) fn spares_all<J: Judge>(judge: &mut J, parts: u64, subset: &[u64]) -> Option<bool>
    ensures same { J.meaning judge.new ≡ J.meaning judge.old }
    ensures said { result ≡ cond (nat_le parts 9) (Some (spared parts (J.meaning judge.old) subset.now)) None }
{
    let few = Few::new(parts)?;
    Some(spared(judge, subset, few))
}

// Whether failing is monotone, found by trying; none is said of more than nine parts.
pub fn is_monotone<J: Judge>(judge: &mut J, parts: u64) -> Option<bool>
    ensures same { J.meaning judge.new ≡ J.meaning judge.old }
    ensures found { result ≡ cond (nat_le parts 9) (Some (grows parts (J.meaning judge.old))) None }
    ensures said { MonotoneSays (nat_le parts 9) parts (J.meaning judge.old) result }
{
    let few = Few::new(parts)?;
    Some(grows(judge, few))
}
