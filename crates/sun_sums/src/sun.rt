// The Sun's sums: the Earth's heliocentric longitude L, latitude B and radius R, in 10⁻¹⁰ radian or AU, before any turn is taken off.
ghost use Rattle.std.specs.Prelude.{◌≡◌, ◌≤◌, ◌^◌, nat_abs, ◌+ℤ◌, ◌*ℤ◌, ◌∷◌, map};
ghost use Rattle.arithmetic.specs.Floor.{⌊◌÷◌⌋};
ghost use Rattle.sum_rules.specs.Instant.{furthest, millennium, u, Reached};
ghost use Rattle.sum_rules.specs.Accuracy.{SunNear};
ghost use Rattle.sum_rules.specs.Sun.{phase, row_angle, row_value, group, series, L, B, R, longitude_degrees, latitude_degrees};
ghost use Rattle.sun_sums.specs.SunRange.{SmallRay, Sound, Summable};

use numbers::sine::cosine;
use numbers::whole::{floor_div, floor_mod, mul_div};
use sum_rules::instant::{CENTURY, Powers};
use sum_tables::sun_terms::{B0, B1, L0, L1, L2, L3, L4, L5, R0, R1, R2, R3, R4};
use sum_terms::instant::powers_at;

const MILLENNIUM: u64 = 10 * CENTURY;

// L, B and R.
#[derive(Clone, Copy)]
pub struct SunSums {
    pub longitude: i64,
    pub latitude: i64,
    pub radius: i64,
}

// C τ in 10⁻⁸ radian. n is a plain number, as `sun` is handed one, so that its bound is a clause.
fn phase(n: i64, c: u64) -> i64
    requires { (nat_abs n ≤ furthest) × (c ≤ 2 ^ 44) }
    ensures { result ≡ phase n c }
{
    mul_div(c as i64, n, MILLENNIUM)
}

// B + C τ in 10⁻⁸ degree, less whole turns.
fn row_angle(n: i64, b: u64, c: u64) -> u64
    requires { (nat_abs n ≤ furthest) × ((b ≤ 2 ^ 30) × (c ≤ 2 ^ 44)) }
    ensures { result ≡ row_angle n b c }
{
    floor_mod(b as i64 + phase(n, c), 628_318_531) * 5_729_577_951 / 100_000_000
}

// A row: a constant one (A, 0, 0) may pass 64 bits times its cosine, and is 100 A.
fn row_value(n: i64, row: [u64; 3]) -> i64
    requires { (nat_abs n ≤ furthest) × SmallRay row }
    ensures { result ≡ row_value n row }
{
    let [a, b, c] = row;
    if b + c == 0 {
        100 * a as i64
    } else {
        floor_div(a as i64 * cosine(row_angle(n, b, c) as i64), 10_000_000)
    }
}

// The rows of a group added.
fn group(n: i64, rows: &[[u64; 3]]) -> i64
    requires { (nat_abs n ≤ furthest) × Summable rows.now }
    ensures { result ≡ group n rows.now }
{
    let mut sum = 0;
    for row in rows {
        sum += row_value(n, *row);
    }
    sum
}

// A group, and v of the groups above it, by u.
fn onto(t: Powers, rows: &[[u64; 3]], v: i64) -> i64
    requires { Reached t × (Summable rows.now × (nat_abs v ≤ 2 ^ 42)) }
    ensures { result ≡ group t.n rows.now +ℤ ⌊ v *ℤ u t.n ÷ 10_000_000 ⌋ }
{
    group(t.n, rows) + floor_div(v * t.u, 10_000_000)
}

// Group 0, and v of the groups above it, by the time itself.
fn into_first(n: i64, rows: &[[u64; 3]], v: i64) -> i64
    requires { (nat_abs n ≤ furthest) × (Summable rows.now × (nat_abs v ≤ 2 ^ 46)) }
    ensures { result ≡ group n rows.now +ℤ ⌊ v *ℤ n ÷ millennium ⌋ }
{
    group(n, rows) + mul_div(v, n, MILLENNIUM)
}

// The groups above group 0, from the highest down, and then group 0.
fn series(t: Powers, first: &[[u64; 3]], above: &[&[[u64; 3]]]) -> i64
    requires { Reached t × Sound (first.now ∷ map (λ rows. rows.now) above.now) }
    ensures { result ≡ series t.n (first.now ∷ map (λ rows. rows.now) above.now) }
{
    let mut v = 0;
    for rows in above.iter().rev() {
        v = onto(t, rows, v);
    }
    into_first(t.n, first, v)
}

// L.
fn heliocentric_longitude(t: Powers) -> i64
    requires { Reached t }
    ensures { result ≡ L t.n }
{
    series(t, &L0, &[&L1, &L2, &L3, &L4, &L5])
}

// B.
fn heliocentric_latitude(t: Powers) -> i64
    requires { Reached t }
    ensures { result ≡ B t.n }
{
    series(t, &B0, &[&B1])
}

// R.
fn heliocentric_radius(t: Powers) -> i64
    requires { Reached t }
    ensures { result ≡ R t.n }
{
    series(t, &R0, &[&R1, &R2, &R3, &R4])
}

// The Sun's sums at TT, over the powers of the instant.
pub fn sun_at(t: Powers) -> SunSums
    requires { Reached t }
    ensures { (result.longitude ≡ L t.n) × ((result.latitude ≡ B t.n) × ((result.radius ≡ R t.n) × SunNear t.n)) }
{
    let longitude = heliocentric_longitude(t);
    let latitude = heliocentric_latitude(t);
    let radius = heliocentric_radius(t);
    SunSums {
        longitude,
        latitude,
        radius,
    }
}

// The Sun's sums at TT.
pub fn sun(n: i64) -> SunSums
    requires { nat_abs n ≤ furthest }
    ensures { (result.longitude ≡ L n) × ((result.latitude ≡ B n) × ((result.radius ≡ R n) × SunNear n)) }
{
    sun_at(powers_at(n))
}

// L in 10⁻⁸ degree, less whole turns.
pub fn longitude_degrees(l: i64) -> i64
    ensures { result ≡ longitude_degrees l }
{
    mul_div(
        floor_mod(l, 62_831_853_072) as i64,
        5_729_577_951,
        10_000_000_000,
    )
}

// B in 10⁻⁸ degree.
pub fn latitude_degrees(b: i64) -> i64
    requires { nat_abs b ≤ 2 ^ 46 }
    ensures { result ≡ latitude_degrees b }
{
    mul_div(b, 5_729_577_951, 10_000_000_000)
}
