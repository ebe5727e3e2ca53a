// The digits of a number.
ghost use Rattle.std.specs.Prelude.{◌≡◌, ◌↔◌, ◌<◌, OnOk, OnErr, IsErr, codes, Some};
ghost use Rattle.rig.specs.Digits.{Digits};

use std::error::Error;
use std::fmt;

// There are no digits in base 0.
#[derive(Clone, Copy, Debug, PartialEq, Eq)]
pub struct NoBase;

impl fmt::Display for NoBase {
    ghost output = { λ _. Some (codes "there are no digits in base 0") };

    fn fmt<W: fmt::Write>(&self, f: &mut fmt::Formatter<W>) -> fmt::Result {
        f.write_str("there are no digits in base 0")
    }
}

impl Error for NoBase {}

fn fill(code: u64, base: u64, row: &mut [u64])
    requires { 0 < base }
    ensures { Digits base code row.new }
{
    // No `fill_with`: of what a closure changes as it goes, a proof knows nothing.
    let mut rest = code;
    for digit in row.iter_mut() {
        *digit = rest % base;
        rest /= base;
    }
}

// Writes as many digits of a number as the row is long, the lowest first; refuses base 0.
pub fn digits(code: u64, base: u64, row: &mut [u64]) -> Result<(), NoBase>
    ensures refused { IsErr result ↔ (base ≡ 0) }
    ensures digits { OnOk result (Digits base code row.new) }
    ensures kept { OnErr result (row.new ≡ row.old) }
{
    if base == 0 {
        return Err(NoBase);
    }
    fill(code, base, row);
    Ok(())
}
