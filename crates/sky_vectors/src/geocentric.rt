// Where the Sun and the Moon stand, seen from the Earth's centre.
ghost use Rattle.std.specs.Prelude.{◌≡◌};
ghost use Rattle.sum_rules.specs.Instant.{Reached};
ghost use Rattle.sum_rules.specs.Nutation.{Δψ};
ghost use Rattle.sky_vectors.specs.Geocentric.{moon_geocentric, sun_geocentric, geocentric};

use super::observer::RADIUS;
use moon_sums::moon::moon_at;
use numbers::angle::Angle;
use numbers::whole::floor_div;
use sum_rules::instant::Powers;
use sun_sums::sun::{latitude_degrees, longitude_degrees, sun_at};

#[derive(Clone, Copy)]
pub enum Body {
    Sun,
    Moon,
}

// The apparent longitude, the latitude, the distance (the Moon's in metres, the Sun's in 10⁻¹⁰ AU) and the parallax.
#[derive(Clone, Copy)]
pub struct Geocentric {
    pub longitude: i64,
    pub latitude: i64,
    pub distance: i64,
    pub parallax: i64,
}

// The Moon's, of TT.
fn moon_geocentric(tt: Powers, nutation: i64) -> Geocentric
    requires { Reached tt × (nutation ≡ Δψ tt.n) }
    ensures { result ≡ moon_geocentric tt.n }
{
    let moon = moon_at(tt);
    let longitude = moon.longitude as i64 + nutation;
    let latitude = moon.latitude;
    let distance = moon.metres;
    let parallax = floor_div(RADIUS as i64 * 1_000_000_000, distance as u64);
    Geocentric {
        longitude,
        latitude,
        distance,
        parallax,
    }
}

// The Sun's: opposite to the Earth as the Sun sees it, and aberrated.
fn sun_geocentric(tt: Powers, nutation: i64) -> Geocentric
    requires { Reached tt × (nutation ≡ Δψ tt.n) }
    ensures { result ≡ sun_geocentric tt.n }
{
    let earth = sun_at(tt);
    let degrees = longitude_degrees(earth.longitude);
    let latitude = -latitude_degrees(earth.latitude);
    let distance = earth.radius;
    let radius = distance as u64;
    let aberration = floor_div(-5_691_610_000_000_000, radius);
    let parallax = floor_div(426_350_000_000_000, radius);
    let longitude = degrees + Angle::HALF as i64 + nutation + aberration;
    Geocentric {
        longitude,
        latitude,
        distance,
        parallax,
    }
}

pub fn geocentric_at(body: Body, tt: Powers, nutation: i64) -> Geocentric
    requires { Reached tt × (nutation ≡ Δψ tt.n) }
    ensures { result ≡ geocentric body tt.n }
{
    match body {
        Body::Sun => sun_geocentric(tt, nutation),
        Body::Moon => moon_geocentric(tt, nutation),
    }
}
