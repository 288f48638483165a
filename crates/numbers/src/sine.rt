// Sine and cosine, times 10⁹, of any angle in 10⁻⁸ degree.
ghost use Rattle.std.specs.Prelude.{◌≡◌, ◌+◌, ◌%◌, ◌≤◌, ◌<◌};
ghost use Rattle.number_rules.specs.Angle.{full_turn, half_turn, quarter_turn};
ghost use Rattle.number_rules.specs.Sine.{quarter_sine, half_fold, fold, negated_from_half, sine_at, sine, cosine};

use super::angle::Angle;
use super::sine_table::entry_at;

// The sine and the cosine of one angle.
#[derive(Clone, Copy)]
pub struct SineCosine {
    pub sine: i64,
    pub cosine: i64,
}

// From 0 to 90 degrees: the entry at quarter k, carried on by the rest.
fn quarter_sine(y: u64) -> u64
    requires { y ≤ quarter_turn }
    ensures { result ≡ quarter_sine y }
{
    let k = (y / 25_000_000) as usize;
    let r = 1_745_329_252 * (y % 25_000_000) / 10_000_000_000;
    let q = r * r / 1_000_000_000;
    let cosine = 1_000_000_000 - r * r / 2_000_000_000;
    let sine = r - q * r / 6_000_000_000;
    (entry_at(k) * cosine + entry_at(360 - k) * sine) / 1_000_000_000
}

// Above 90 degrees take 180 minus it.
fn half_folded(a: u64) -> u64
    requires { a ≤ half_turn }
    ensures { result ≡ half_fold a }
{
    if Angle::QUARTER < a {
        Angle::HALF - a
    } else {
        a
    }
}

// At or above 180 degrees subtract 180.
fn folded(a: u64) -> u64
    requires { a < full_turn }
    ensures { result ≡ fold a }
{
    if Angle::HALF <= a {
        half_folded(a - Angle::HALF)
    } else {
        half_folded(a)
    }
}

// s, negated where the angle is at or above 180 degrees.
fn negated_from_half(a: u64, s: u64) -> i64
    requires { s ≤ 1_000_000_001 }
    ensures { result ≡ negated_from_half a s }
{
    if Angle::HALF <= a {
        -(s as i64)
    } else {
        s as i64
    }
}

// The sine of a reduced angle.
fn sine_at(a: u64) -> i64
    requires { a < full_turn }
    ensures { result ≡ sine_at a }
{
    negated_from_half(a, quarter_sine(folded(a)))
}

// A reduced angle a quarter turn on.
fn quarter_on(a: u64) -> u64
    requires { a < full_turn }
    ensures { result ≡ (a + quarter_turn) % full_turn }
{
    if a < Angle::FULL - Angle::QUARTER {
        a + Angle::QUARTER
    } else {
        a - (Angle::FULL - Angle::QUARTER)
    }
}

pub fn sine(x: i64) -> i64
    ensures { result ≡ sine x }
{
    let a = Angle::new(x).units;
    sine_at(a)
}

pub fn cosine(x: i64) -> i64
    ensures { result ≡ cosine x }
{
    let a = Angle::new(x).units;
    sine_at(quarter_on(a))
}

// Both of one angle, which is reduced once.
pub fn sine_cosine(x: i64) -> SineCosine
    ensures { (result.sine ≡ sine x) × (result.cosine ≡ cosine x) }
{
    let a = Angle::new(x).units;
    let sine = sine_at(a);
    let cosine = sine_at(quarter_on(a));
    SineCosine { sine, cosine }
}
