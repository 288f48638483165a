// Instants in units of time from noon of 2000-01-01, their powers, and polynomials in them.
ghost use Rattle.std.specs.Prelude.{◌≡◌, ◌≤◌, ◌^◌, leb, pos, nat_abs};
ghost use Rattle.sum_rules.specs.Instant.{universal_time, terrestrial_time, Accepted, furthest, powers, value, Suits, Reached};

use numbers::angle::Angle;
use numbers::whole::{floor_div, mul_div};
use sum_rules::instant::{CENTURY, DAY, FURTHEST, Instant, Polynomial, Powers};

// UT of the days from 2000-01-01, the units of the day, and UT1 minus UTC.
pub fn universal_time(days: i64, elapsed: i64, ut1: i64) -> i64
    requires { (nat_abs days ≤ 2 ^ 17) × ((nat_abs elapsed ≤ 2 ^ 43) × (nat_abs ut1 ≤ 2 ^ 42)) }
    ensures { result ≡ universal_time days elapsed ut1 }
{
    DAY as i64 * days - (DAY / 2) as i64 + elapsed + ut1
}

// TT of UT and delta-T.
pub fn terrestrial_time(ut: i64, delta: i64) -> i64
    requires { (nat_abs ut ≤ 2 ^ 60) × (nat_abs delta ≤ 2 ^ 60) }
    ensures { result ≡ terrestrial_time ut delta }
{
    ut + delta
}

// Any instant may be asked for; the sums are for those within reach.
pub fn is_within_reach(n: i64) -> bool
    ensures { result ≡ leb (nat_abs n) furthest }
{
    n.unsigned_abs() <= FURTHEST
}

// An accepted instant, from its day, the units of the day (and a batch's offset), UT1 minus UTC and delta-T.
pub fn instant_at(days: i64, elapsed: i64, ut1: i64, delta: i64) -> Instant
    requires { Accepted days elapsed ut1 delta }
    ensures { (result.ut ≡ universal_time days elapsed ut1) × (result.tt ≡ terrestrial_time (universal_time days elapsed ut1) delta) }
{
    let ut = universal_time(days, elapsed, ut1);
    let tt = terrestrial_time(ut, delta);
    Instant { ut, tt }
}

// u, p2, p3 and p4. `powers` of specs/ makes them of every n, so `Powers` holds no bound: the sums ask for `Reached`.
pub fn powers_at(n: i64) -> Powers
    requires { nat_abs n ≤ furthest }
    ensures { result ≡ powers n }
{
    let u = floor_div(1_000_000 * n, CENTURY);
    let p2 = floor_div(u * u, 1_000_000);
    let p3 = floor_div(p2 * u, 1_000_000);
    let p4 = floor_div(p2 * p2, 1_000_000);
    Powers { n, u, p2, p3, p4 }
}

// The value at an instant, reduced to one turn.
pub fn value_at(p: Polynomial, t: Powers) -> i64
    requires { Suits p × Reached t }
    ensures { result ≡ pos (value p t.n) }
{
    let first = mul_div(p.c1, t.n, CENTURY);
    let second = floor_div(p.c2 * t.p2, 1_000_000);
    let third = floor_div(100 * p.s3 * t.p3, p.k3);
    let fourth = floor_div(100 * p.s4 * t.p4, p.k4);
    Angle::new(p.c0 + first + second + third + fourth).units as i64
}
