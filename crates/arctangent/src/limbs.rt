// Whole numbers past 64 bits, in two limbs: high · 2²⁴ + low. The arctangent turns large pairs in them.
ghost use Rattle.std.specs.Prelude.{◌≡◌, ◌≤◌, ◌<◌, ◌^◌};
ghost use Rattle.arithmetic.specs.Floor.{⌊◌÷◌⌋};
ghost use Rattle.arctangent.specs.Limbs.{value, Proper};
ghost use Rattle.arctangent.specs.Turning.{wide_enough};

use super::turning::Coordinate;
use numbers::whole::{floor_div, floor_mod, sign_of};

#[derive(Clone, Copy)]
pub struct Limbs {
    pub high: i64,
    pub low: i64,
}

// ⌊a / p⌋: the high limb is divided first, and what it leaves goes down to the low one.
fn divided(a: Limbs, p: u64) -> Limbs
    requires { Proper a × ((0 < p) × (p ≤ 2 ^ 30)) }
    ensures { (value result ≡ ⌊ value a ÷ p ⌋) × Proper result }
{
    let high = a.high;
    let low = a.low;
    let quotient = floor_div(high, p);
    let rest = floor_mod(high, p) as i64 * 16_777_216 + low;
    let digit = floor_div(rest, p);
    Limbs {
        high: quotient,
        low: digit,
    }
}

impl Coordinate for Limbs {
    ghost number = { value };

    ghost IsProper = { Proper };

    ghost largest = { 2 ^ 63 };

    ghost room = { 2 ^ 82 };

    ghost enough = { wide_enough };

    fn scaled(z: i64) -> Limbs {
        let high = z >> 14;
        let low = floor_mod(z, 16_384) as i64 * 1024;
        Limbs { high, low }
    }

    // The sign of the high limb, or where that is zero of the low one.
    fn sign(self) -> i64 {
        if self.high == 0 {
            sign_of(self.low)
        } else {
            sign_of(self.high)
        }
    }

    fn floored(self, k: usize) -> Limbs {
        divided(self, 1 << k)
    }

    // The low limbs are added and the carry goes up.
    fn plus_times(self, c: i64, other: Limbs) -> Limbs {
        let sum = self.low + c * other.low;
        let carry = sum >> 24;
        Limbs {
            high: self.high + c * other.high + carry,
            low: sum - carry * 16_777_216,
        }
    }
}
