// Numbers that look random, from a fixed seed: a shift register of 64 bits.
ghost use Rattle.std.specs.Prelude.{◌≡◌, ◌/◌, ◌^◌};
ghost use Rattle.rig.specs.Random.{turned};

#[derive(Clone, Copy, Debug, PartialEq, Eq)]
pub struct Random {
    state: u64,
}

const SEED: u64 = 88172645463325252;

impl Random {
    pub fn seeded() -> Random
        ensures { result.state ≡ 88172645463325252 }
    {
        Random { state: SEED }
    }

    // The next number, of 32 bits: the upper half, which is mixed best.
    pub fn draw(&mut self) -> u64
        ensures state { self.new.state ≡ turned self.old.state }
        ensures value { result ≡ turned self.old.state / 2 ^ 32 }
    {
        let x = self.state ^ (self.state << 13);
        let x = x ^ (x >> 7);
        self.state = x ^ (x << 17);
        self.state >> 32
    }
}
