// A run of the reducer against a judge, to its end.
ghost use Rattle.std.specs.Prelude.{◌≡◌};
ghost use Rattle.reduce.specs.Entry.{fits};
ghost use Rattle.judges.specs.Driver.{RunSays};
ghost use Rattle.judges.specs.Whole.{RunTells};
ghost use Rattle.judges.specs.declared.driver.RunError.TheVariants.{Unfit};

use super::Judge;
use reduce::{Event, Refusal, Told, react};

// How a run ended.
#[derive(Clone, Copy, Debug, PartialEq, Eq)]
pub struct Ended {
    // So many are left, in the lent row; none are told of where all together don't fail.
    pub left: Option<u64>,
    // So many questions were asked.
    pub asked: u64,
}

// Why there was no run.
#[derive(Clone, Copy, Debug, PartialEq, Eq)]
pub enum RunError {
    // More than 4,096 parts.
    TooMany,
    // The memory hasn't 72 numbers, or the row is shorter than 4,096.
    Unfit,
}

// A run begins from any memory and tells only answers that are awaited, so nothing else is refused.
impl From<Refusal> for RunError {
    ghost from_gives = { λ _ r. r ≡ Unfit };

    fn from(_refusal: Refusal) -> RunError {
        RunError::Unfit
    }
}

// Runs the reducer against a judge to the end, from any memory.
pub fn run<J: Judge>(
    judge: &mut J,
    parts: u64,
    memory: &mut [u64],
    out: &mut [u64],
) -> Result<Ended, RunError>
    ensures same { J.meaning judge.new ≡ J.meaning judge.old }
    ensures ends { RunSays (fits memory.old out.old) parts (J.meaning judge.old) memory.old out.old result memory.new out.new }
    ensures whole { RunTells (fits memory.old out.old) parts (J.meaning judge.old) out.old result memory.new out.new }
{
    let mut told = react(memory, Event::Parts(parts), out)?;
    let mut asked = 0;
    loop {
        let verdict = match told {
            Told::Ask(count) => judge.says(&out[..count as usize]),
            Told::Rest(count) => return Ok(Ended {
                left: Some(count),
                asked,
            }),
            Told::Sound => return Ok(Ended { left: None, asked }),
            Told::TooMany => return Err(RunError::TooMany),
        };
        told = react(memory, Event::Said(verdict), out)?;
        asked += 1;
    }
}

#[cfg(test)]
mod tests {
    use super::super::Sets;
    use super::*;

    #[test]
    fn leaves_both(rt: HostRuntime) {
        let mut judge = Sets { sets: &[2, 1, 4] };
        let mut out = [7; 4096];
        let ended = run(&mut judge, 6, &mut [5; 72], &mut out);
        assert_eq!(rt;
            ended,
            Ok(Ended {
                left: Some(2),
                asked: 9
            })
        );
        assert_eq!(rt; (out[0], out[1]), (1, 4));
    }
}
