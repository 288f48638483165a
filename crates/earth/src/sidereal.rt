// Sidereal time at Greenwich, of UT.
ghost use Rattle.std.specs.Prelude.{◌≡◌, ◌≤◌, ◌^◌, nat_abs};
ghost use Rattle.sum_rules.specs.Instant.{Reached};
ghost use Rattle.sum_rules.specs.Sidereal.{mean, apparent};

use numbers::angle::Angle;
use numbers::sine::cosine;
use numbers::whole::{floor_div, mul_div};
use sum_rules::instant::{DAY, Powers};

// The mean sidereal time, reduced to one turn. The powers are those of UT.
pub fn mean_at(t: Powers) -> u64
    requires { Reached t }
    ensures { result ≡ mean t.n }
{
    let turned = mul_div(36_098_564_736_629, t.n, 1000 * DAY);
    let second = floor_div(387_933 * t.p2, 10_000_000);
    let third = floor_div(-100 * t.p3, 38_710_000);
    Angle::new(28_046_061_837 + turned + second + third).units
}

// The apparent sidereal time, with the nutation Δψ and the obliquity.
pub fn apparent_at(t: Powers, nutation: i64, obliquity: i64) -> i64
    requires { Reached t × (nat_abs nutation ≤ 2 ^ 32) }
    ensures { result ≡ apparent t.n nutation obliquity }
{
    mean_at(t) as i64 + floor_div(nutation * cosine(obliquity), 1_000_000_000)
}
