// The words of reducers: judges, lean subsets, engines and their runs; one pass over a subset that fails; and the entry that leaves one part out.
// It uses `subset`; it knows nothing of restarts, nor where numbers lie in the reducer's memory but a pass's own.
#![tactic(auto)]

ghost use Rattle.std.specs.Prelude.{◌≡◌, ◌+◌, ◌≤◌, ◌++◌, length, drop, position, ◌==◌};
ghost use Rattle.subset.specs.Laws.{TakenOut};
ghost use Rattle.subset.specs.Parts.{rising};
ghost use Rattle.bisect.specs.Apart.{EnoughAsked, ToldApart};
ghost use Rattle.bisect.specs.Examples.{Examples};
ghost use Rattle.bisect.specs.Pass.{AnyPass, Nested, OnePass};
ghost use Rattle.bisect.specs.Promise.{LeanLeast, NeededLeft, OneDecides};
ghost use Rattle.bisect.specs.Reply.{WithoutSays, refusal};

pub use seeking::{WrongLength, question};
pub use verdict::{NoVerdict, Verdict, fails};

mod seeking;
mod verdict;

// The most parts, and how many numbers a memory has.
pub const MOST: u64 = 4096;

pub const LENGTH: usize = 72;

// Why no part is left out.
#[derive(Clone, Copy, Debug, PartialEq, Eq)]
pub enum LeaveOutError {
    // The parts don't rise.
    NotRising,
    // The lent row is shorter than they are.
    ShortRow,
}

// Where a pass stands over a subset that fails: its first members are the row, the others are known to be needed.
#[derive(Clone, Copy, Debug, PartialEq, Eq)]
pub struct Search {
    // What is known of the row: if this is l + 1, its first l with what is needed don't fail.
    pub lo: u64,
    // How many members are in the row.
    pub row: u64,
    // How many there were when the pass began.
    pub begun: u64,
    // How many questions the pass has asked.
    pub spent: u64,
    // How many were found needed since the subset last changed; they are the first behind the row.
    pub sure: u64,
}

// Whether each part is less than the next.
pub fn rises(parts: &[u64]) -> bool
    ensures { result ≡ rising parts.now }
{
    parts.is_sorted_by(|a, b| a < b)
}

// Two rows, one behind the other in the lent row, and how many numbers they are.
fn lay(first: &[u64], second: &[u64], out: &mut [u64]) -> u64
    requires { length first.now + length second.now ≤ length out.old }
    ensures count { result ≡ length (first.now ++ second.now) }
    ensures row { out.new ≡ (first.now ++ second.now) ++ drop (length (first.now ++ second.now)) out.old }
{
    let middle = first.len();
    let end = middle + second.len();
    out[..middle].copy_from_slice(first);
    out[middle..end].copy_from_slice(second);
    end as u64
}

// Where a part stands.
fn index_of(parts: &[u64], part: u64) -> Option<usize>
    ensures { result ≡ position (λ p. p == part) parts.now }
{
    parts.iter().position(|p| *p == part)
}

// The parts but one, in the lent row, and how many those are. A refusal changes nothing.
pub fn leave_out(parts: &[u64], out: &mut [u64], part: u64) -> Result<u64, LeaveOutError>
    ensures { WithoutSays parts.now out.old part (refusal parts.now out.old) result out.new }
{
    if !rises(parts) {
        return Err(LeaveOutError::NotRising);
    }
    if out.len() < parts.len() {
        return Err(LeaveOutError::ShortRow);
    }
    Ok(match index_of(parts, part) {
        Some(i) => lay(&parts[..i], &parts[i + 1..], out),
        None => lay(parts, &[], out),
    })
}

// What is known of lean subsets, for every judge.
pub fn lean_stands() -> u8
    ensures least { LeanLeast }
    ensures needed { NeededLeft }
    ensures one { OneDecides }
    ensures others { TakenOut }
{
    0
}

// One pass over a subset that fails: whatever its cuts are it ends, and what it leaves and has asked is known; with the cuts that are made it asks little.
pub fn pass_stands() -> u8
    ensures any { AnyPass }
    ensures counted { OnePass }
    ensures nested { Nested }
{
    0
}

// What every reducer has to hear and to ask, where one part alone decides.
pub fn apart_stands() -> u8
    ensures apart { ToldApart }
    ensures enough { EnoughAsked }
{
    0
}

// What the words of the promises say in worked examples.
pub fn examples_stand() -> u8
    ensures { Examples }
{
    0
}

#[cfg(test)]
mod tests {
    use super::*;

    #[test]
    fn leaves_one_out(rt: HostRuntime) {
        let mut out = [9; 5];
        assert_eq!(rt; leave_out(&[1, 4, 7], &mut out, 4), Ok(2));
        assert_eq!(rt; out, [1, 7, 9, 9, 9]);
    }

    #[test]
    fn leaves_all_where_it_is_not_there(rt: HostRuntime) {
        let mut out = [9; 3];
        assert_eq!(rt; leave_out(&[1, 4, 7], &mut out, 5), Ok(3));
        assert_eq!(rt; out, [1, 4, 7]);
    }

    #[test]
    fn refuses(rt: HostRuntime) {
        let mut out = [9; 2];
        assert_eq!(rt;
            leave_out(&[1, 4, 4], &mut out, 4),
            Err(LeaveOutError::NotRising)
        );
        assert_eq!(rt;
            leave_out(&[1, 4, 7], &mut out, 4),
            Err(LeaveOutError::ShortRow)
        );
        assert_eq!(rt; out, [9, 9]);
    }
}
