// A subset by its number: part p counts 2^p.
ghost use Rattle.std.specs.Prelude.{◌≡◌, ◌+◌, ◌-◌, ◌^◌, [], ◌∷◌, length, take, true, if◌then◌else◌, nat_lt, min, ◌<◌, ◌≤◌, Ok, count_ones, bit_and};
ghost use Rattle.subset.specs.Parts.{without};
ghost use Rattle.subset.specs.Row.{half, members};
ghost use Rattle.subset.specs.Says.{After, room};
ghost use Rattle.reduce.specs.declared.Told.TheVariants.{Ask, Rest, TooMany};
ghost use Rattle.inspect.specs.Recorder.{Roomy};
ghost use Rattle.faulty.specs.Telling.{Tells};

use reduce::{Refusal, Told};
use subset::{keep_first_half, take_out, tell};

// The most parts that a number has room for here.
const MOST: u64 = 63;

#[derive(Clone, Copy, Debug, PartialEq, Eq, PartialOrd)]
pub(crate) struct Code(pub(crate) u64);

impl Code {
    // All of so many parts, and all of 64 where there are more. No `subset::fill`: that promises members,
    // and what begins a machine is said by its number, which this promises with no proof file.
    pub(crate) fn all_of(parts: u64) -> Code
        ensures { result.0 ≡ (if nat_lt parts 64 then 2 ^ parts - 1 else 2 ^ 64 - 1) }
    {
        if parts < 64 {
            Code((1 << parts) - 1)
        } else {
            Code(u64::MAX)
        }
    }

    pub(crate) fn size(self) -> u32
        ensures { result ≡ count_ones self.0 }
    {
        self.0.count_ones()
    }

    // The next number, as far as they go.
    pub(crate) fn next(self) -> Code
        ensures { result.0 ≡ min (self.0 + 1) (2 ^ 64 - 1) }
    {
        Code(self.0.saturating_add(1))
    }

    // What is in it and not in another.
    pub(crate) fn but(self, other: Code) -> Code
        ensures { result.0 ≡ bit_and self.0 (2 ^ 64 - 1 - other.0) }
    {
        Code(self.0 & !other.0)
    }

    pub(crate) fn without(self, part: u64) -> Code
        ensures { After (nat_lt part 64) (self.0 ∷ []) (without part (members (self.0 ∷ []))) (result.0 ∷ []) }
    {
        let mut words = [self.0];
        // A part that has no place is in no subset here, so nothing has to go.
        let _ = take_out(&mut words, part);
        Code(words[0])
    }

    // The first half of its members, rounded down.
    pub(crate) fn first_half(self) -> Code
        ensures { After true (self.0 ∷ []) (take (half (members (self.0 ∷ []))) (members (self.0 ∷ []))) (result.0 ∷ []) }
    {
        let mut words = [self.0];
        keep_first_half(&mut words).unwrap();
        Code(words[0])
    }

    // Tells of it in the lent row; refuses where that has no room for it.
    fn tell_as<F: FnOnce(u64) -> Told>(self, out: &mut [u64], told: F) -> Result<Told, Refusal>
        requires { F.IsAlwaysCallable told }
        ensures { Tells (room (self.0 ∷ []) out.old) (F.post told (length (members (self.0 ∷ [])))) (members (self.0 ∷ [])) out.old result out.new }
    {
        tell(&[self.0], out).map(told).ok_or(Refusal::Unfit)
    }

    pub(crate) fn ask(self, out: &mut [u64]) -> Result<Told, Refusal>
        ensures { Tells (room (self.0 ∷ []) out.old) (λ r. r ≡ Ask (length (members (self.0 ∷ [])))) (members (self.0 ∷ [])) out.old result out.new }
    {
        self.tell_as(out, Told::Ask)
    }

    pub(crate) fn leave(self, out: &mut [u64]) -> Result<Told, Refusal>
        ensures { Tells (room (self.0 ∷ []) out.old) (λ r. r ≡ Rest (length (members (self.0 ∷ [])))) (members (self.0 ∷ [])) out.old result out.new }
    {
        self.tell_as(out, Told::Rest)
    }
}

// Begins a machine by asking of all parts, unless they are too many.
pub(crate) fn begin_with_all<M: Copy, F: FnOnce(Code) -> M>(
    machine: &mut M,
    count: u64,
    out: &mut [u64],
    begun: F,
) -> Result<Told, Refusal>
    requires { F.IsAlwaysCallable begun }
    ensures room { Roomy result (length out.new) }
    ensures many { 63 < count → (result ≡ Ok TooMany) × (machine.new ≡ machine.old) × (out.new ≡ out.old) }
    ensures few { count ≤ 63 → F.post begun (record { 0 = 2 ^ count - 1 }) machine.new }
{
    if count > MOST {
        return Ok(Told::TooMany);
    }
    let all = Code::all_of(count);
    *machine = begun(all);
    all.ask(out)
}
