// How much the air raises a body above its true elevation (004 equation 42).
ghost use Rattle.std.specs.Prelude.{◌≡◌, ◌≤◌, nat_abs};
ghost use Rattle.number_rules.specs.Angle.{quarter_turn};
ghost use Rattle.refraction.specs.Refraction.{IsRefracted, raised, formula, measured_refraction, refraction};
ghost use Rattle.numbers.specs.SineCosine.{OneAngle};

use super::air::Air;
use numbers::sine::{SineCosine, sine_cosine};
use numbers::whole::floor_div;

// Nothing is refracted below this elevation: the Sun's radius and the usual refraction at the horizon, 0.26667 + 0.5667 degree.
const LOWEST_REFRACTED: i64 = -83_337_000;

// The angle q whose cotangent the formula takes.
fn raised(e: i64) -> i64
    requires { IsRefracted e }
    ensures { result ≡ raised e }
{
    e + floor_div(103_000_000_000_000_000, (e + 511_000_000) as u64)
}

// In degrees: each operation once, in this order.
fn formula(air: Air, q: SineCosine) -> f64
    requires { OneAngle q }
    ensures { result ≡ formula air.pressure air.temperature q }
{
    let p = air.pressure;
    let t = air.temperature;
    let c = q.cosine;
    let s = q.sine;
    ((p / 1010.0) * (283.0 / (273.0 + t))) * ((1.02 * (c as f64)) / (60.0 * (s as f64)))
}

fn measured_refraction(air: Air, e: i64) -> f64
    requires { IsRefracted e }
    ensures { result ≡ measured_refraction air.pressure air.temperature e }
{
    formula(air, sine_cosine(raised(e)))
}

// In degrees.
pub fn refraction(air: Option<Air>, elevation: i64) -> f64
    requires { nat_abs elevation ≤ quarter_turn }
    ensures { result ≡ refraction air elevation }
{
    if elevation < LOWEST_REFRACTED {
        return 0.0;
    }
    match air {
        None => 0.0,
        Some(air) => measured_refraction(air, elevation),
    }
}
