// The place as it is shown, in degrees.
ghost use Rattle.std.specs.Prelude.{◌≡◌, ◌≤◌, nat_abs};
ghost use Rattle.number_rules.specs.Angle.{full_turn};
ghost use Rattle.calendar.specs.Refusal.{OneAnswer};
ghost use Rattle.sky_vectors.specs.Place.{InTurns};
ghost use Rattle.sky.specs.Shown.{degrees, shown, shown_numbers};

use arctangent::direction::angle_or;
use refraction::air::Air;
use refraction::formula::refraction;
use sky_vectors::place::Place;

// The elevation has the refraction in it.
#[derive(Clone, Copy)]
pub struct Shown {
    pub azimuth: Option<f64>,
    pub elevation: f64,
    pub refraction: f64,
}

// Whole units as degrees.
fn degrees(x: i64) -> f64
    requires { nat_abs x ≤ full_turn }
    ensures { result ≡ degrees x }
{
    x as f64 / 100_000_000.0
}

pub fn shown_at(air: Option<Air>, place: Place) -> Shown
    requires { InTurns place }
    ensures { OneAnswer shown_numbers (shown air place) result }
{
    let e = place.elevation;
    let refraction = refraction(air, e);
    Shown {
        azimuth: place.azimuth.map(|angle| degrees(angle.units as i64)),
        elevation: degrees(e) + refraction,
        refraction,
    }
}
