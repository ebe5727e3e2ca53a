// Judges to try the reducer with, and a driver that counts.
// It uses the reducer by its one step, and `bisect` and `subset` for what a subset is.
#![tactic(auto)]

ghost use Rattle.std.specs.Prelude.{◌≡◌, ℕ, List, cond};
ghost use Rattle.judges.specs.Rule.{RuleTurns};
ghost use Rattle.judges.specs.Sets.{SetsGrow};
ghost use Rattle.judges.specs.Spelled.{ListsSpelled, SetsSpelled};
ghost use Rattle.judges.specs.Table.{OwnPlace};

use bisect::Verdict;
pub use chained::Chained;
pub use counted::Counted;
pub use driver::{Ended, RunError, run};
pub use parts::all_in;
pub use rule::Rule;
pub use sets::Sets;
pub use spelled::{RowLists, first_list, lists};
pub use table::Table;

mod chained;
mod counted;
mod driver;
mod parts;
mod rule;
mod sets;
mod spelled;
mod table;

// A judge means a function from subsets to numbers, and says what it means; saying it does not change what it means.
// Numbers and not a verdict: the reducer takes any number for an answer, and is right for every such function.
// Who holds a judge by `&mut` says `same` again: no law speaks of what a call leaves, nor can a type carry the meaning.
pub trait Judge {
    ghost meaning: { Self → List ℕ → ℕ };

    fn says(&mut self, subset: &[u64]) -> u64
        ensures same { meaning self.new ≡ meaning self.old }
        ensures value { result ≡ meaning self.old subset.now };
}

// What a judge says that can always tell.
fn verdict(fails: bool) -> u64
    ensures { result ≡ cond fails 1 0 }
{
    if fails {
        Verdict::Yes.into()
    } else {
        Verdict::No.into()
    }
}

// Each subset has a place of its own in a table; a row spells its lists one after the other; judging by sets is monotone, and by a rule it is not.
pub fn judges_stand() -> u8
    ensures table { OwnPlace }
    ensures spelled { SetsSpelled }
    ensures lists { ListsSpelled }
    ensures sets { SetsGrow }
    ensures rule { RuleTurns }
{
    0
}

#[cfg(test)]
mod tests {
    use super::*;

    #[test]
    fn tables_and_rules(rt: HostRuntime) {
        let mut table = Table {
            numbers: &[7, 0, 2, 1, 0, 5],
        };
        assert_eq!(rt; table.says(&[]), 7);
        assert_eq!(rt; table.says(&[0, 1]), 1);
        assert_eq!(rt; table.says(&[2, 0]), 5);
        assert_eq!(rt; table.says(&[1, 2]), 0);
        assert_eq!(rt; table.says(&[64]), 0);
        let mut rule = Rule {
            least: 2,
            forbidden: 5,
        };
        assert_eq!(rt; rule.says(&[1]), 0);
        assert_eq!(rt; rule.says(&[1, 4]), 1);
        assert_eq!(rt; rule.says(&[1, 4, 5]), 0);
    }

    // The sets are 1 4, then 7, and of the last, which has three parts, the row has but 0 2.
    #[test]
    fn sets_that_fail(rt: HostRuntime) {
        let mut sets = Sets {
            sets: &[2, 1, 4, 1, 7, 3, 0, 2],
        };
        assert_eq!(rt; sets.says(&[0, 1, 3, 4]), 1);
        assert_eq!(rt; sets.says(&[1, 3]), 0);
        assert_eq!(rt; sets.says(&[7]), 1);
        assert_eq!(rt; sets.says(&[0, 2]), 1);
    }

    #[test]
    fn chains_are_counted(rt: HostRuntime) {
        let rule = Rule {
            least: 2,
            forbidden: 5,
        };
        let mut judge = Counted {
            judge: Chained {
                needs: &[0, 0, 1],
                judge: rule,
            },
            asked: 0,
        };
        assert_eq!(rt; judge.says(&[0, 2]), 2);
        assert_eq!(rt; judge.says(&[0, 1, 2]), 1);
        assert_eq!(rt; judge.says(&[0, 9]), 1);
        assert_eq!(rt; judge.asked, 3);
    }
}
