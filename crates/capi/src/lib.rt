// The step for callers in C, as one exported function over lent numbers.
// It uses `reduce`, and adds nothing to what it promises.
#![tactic(auto)]

ghost use Rattle.std.specs.Prelude.{◌≡◌};
ghost use Rattle.reduce.specs.Entry.{event};
ghost use Rattle.capi.specs.Answer.{Says, answer, number_of};

use reduce::{Refusal, Told, step};

// What a step tells, in two numbers. The kind: 0 ask of so many, 1 so many are left, 2 all together don't fail,
// 3 there are too many parts, 4 refused, and the number says why.
#[repr(C)]
#[derive(Clone, Copy, Debug, PartialEq, Eq)]
pub struct Answer {
    pub kind: u64,
    pub number: u64,
}

// The numbers of the refusals.
fn number_of(refusal: Refusal) -> u64
    ensures { result ≡ number_of refusal }
{
    match refusal {
        Refusal::Unfit => 0,
        Refusal::Torn => 1,
        Refusal::Unawaited => 2,
    }
}

impl From<Result<Told, Refusal>> for Answer {
    ghost from_gives = { λ told a. a ≡ answer told };

    fn from(told: Result<Told, Refusal>) -> Answer {
        let (kind, number) = match told {
            Ok(Told::Ask(count)) => (0, count),
            Ok(Told::Rest(count)) => (1, count),
            Ok(Told::Sound) => (2, 0),
            Ok(Told::TooMany) => (3, 0),
            Err(refusal) => (4, number_of(refusal)),
        };
        Answer { kind, number }
    }
}

// One step: the memory has 72 numbers, and the lent row room for 4,096. C passes each slice as a pointer and a length.
#[unsafe(no_mangle)]
pub extern "C" fn hidlombe_step(
    memory: &mut [u64],
    kind: u64,
    number: u64,
    out: &mut [u64],
) -> Answer
    ensures { Says (event kind number) memory.old out.old result memory.new out.new }
{
    step(memory, kind, number, out).into()
}

#[cfg(test)]
mod tests {
    use super::*;

    #[test]
    fn tells_by_two_numbers(rt: HostRuntime) {
        let mut memory = [0; 72];
        let mut out = [7; 4096];
        let refused = hidlombe_step(&mut memory, 1, 1, &mut out);
        assert_eq!(rt; refused, Answer { kind: 4, number: 2 });
        let asks = hidlombe_step(&mut memory, 0, 2, &mut out);
        assert_eq!(rt; asks, Answer { kind: 0, number: 2 });
        assert!(rt; out.starts_with(&[0, 1, 7]));
        let sound = hidlombe_step(&mut memory, 1, 0, &mut out);
        assert_eq!(rt; sound, Answer { kind: 2, number: 0 });
        let many = hidlombe_step(&mut memory, 0, 4097, &mut out);
        assert_eq!(rt; many, Answer { kind: 3, number: 0 });
    }

    // Of no parts: the question of all fails, and nothing can be left out.
    #[test]
    fn tells_what_is_left(rt: HostRuntime) {
        let mut memory = [0; 72];
        let mut out = [7; 4096];
        let asks = hidlombe_step(&mut memory, 0, 0, &mut out);
        assert_eq!(rt; asks, Answer { kind: 0, number: 0 });
        let left = hidlombe_step(&mut memory, 1, 1, &mut out);
        assert_eq!(rt; left, Answer { kind: 1, number: 0 });
    }
}
