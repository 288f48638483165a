// Whole numbers on 64-bit integers: division rounded down, and a product that passes 64 bits.
ghost use Rattle.std.specs.Prelude.{◌≡◌, ◌<◌, nat_abs, ◌*ℤ◌};
ghost use Rattle.std.specs.Int.Signed.{mag};
ghost use Rattle.arithmetic.specs.Floor.{⌊◌÷◌⌋, ◌modulo◌};
ghost use Rattle.numbers.specs.Whole.{sign, MulDiv, between};

// 1, 0 or -1.
pub fn sign_of(z: i64) -> i64
    ensures { result ≡ sign z }
{
    z.signum()
}

// n for n, and n for -1 - n: what a floor divides on either side of zero.
fn magnitude(a: i64) -> u64
    ensures { result ≡ mag a }
{
    if a < 0 { (-1 - a) as u64 } else { a as u64 }
}

// |a|, of any a.
pub fn absolute(a: i64) -> u64
    ensures { result ≡ nat_abs a }
{
    a.unsigned_abs()
}

// ⌊a / d⌋, also below zero.
pub fn floor_div(a: i64, d: u64) -> i64
    requires { 0 < d }
    ensures { result ≡ ⌊ a ÷ d ⌋ }
{
    let q = magnitude(a) / d;
    if a < 0 { -1 - q as i64 } else { q as i64 }
}

// What the floor leaves, from 0 up to but not d.
pub fn floor_mod(a: i64, d: u64) -> u64
    requires { 0 < d }
    ensures { result ≡ a modulo d }
{
    let r = magnitude(a) % d;
    if a < 0 { d - 1 - r } else { r }
}

// ⌊c n / d⌋, where the product may pass 64 bits: long division by the digits of c to base 2¹⁶.
pub fn mul_div(c: i64, n: i64, d: u64) -> i64
    requires { MulDiv c n d }
    ensures { result ≡ ⌊ c *ℤ n ÷ d ⌋ }
{
    let upper = c >> 16;
    let top = upper >> 16;
    let middle = upper - top * 65_536;
    let low = c - upper * 65_536;
    let first = top * n;
    let second = floor_mod(first, d) as i64 * 65_536 + middle * n;
    let third = floor_mod(second, d) as i64 * 65_536 + low * n;
    (floor_div(first, d) * 65_536 + floor_div(second, d)) * 65_536 + floor_div(third, d)
}

// lo to hi, both included.
#[tactic(auto, unfolding(crate::specs::Whole::between))]
pub fn is_between(lo: i64, x: i64, hi: i64) -> bool
    ensures { result ≡ between lo x hi }
{
    lo <= x && x <= hi
}
