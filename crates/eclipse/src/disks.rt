// The Sun and the Moon as two disks, seen from where a runner stands.
ghost use Rattle.std.specs.Prelude.{◌≡◌};
ghost use Rattle.numbers.specs.SineCosine.{OneAngle};
ghost use Rattle.sky_vectors.specs.SkyRange.{OnEarth, Reachable, SmallVector, Standing, direction_limit};
ghost use Rattle.eclipse.specs.Eclipse.{eclipse_of, eclipse_from, eclipse_at};
ghost use Rattle.eclipse.specs.EclipseRange.{MoonFar, SunFar};

use super::radius::{moon_radius, sun_radius};
use super::separation::Direction;
use numbers::sine::SineCosine;
use overlap::overlap::Disks;
use sky_vectors::geocentric::{Body, Geocentric, geocentric_at};
use sky_vectors::orientation::moment_at;
use sky_vectors::place::{from_surface, place_towards};
use sky_vectors::station::{Point, Runner, runner_at};
use sum_rules::instant::Instant;

// The separation of the two centres and the radii, in 10⁻⁸ degree, and the covered share of the Sun's disk, in millionths.
#[derive(Clone, Copy)]
pub struct Eclipse {
    pub separation: i64,
    pub sun_radius: i64,
    pub moon_radius: i64,
    pub share: i64,
}

// Of the two bodies and the directions to them, at a latitude.
fn eclipse_of(
    sun: Geocentric,
    moon: Geocentric,
    to_sun: Direction,
    to_moon: Direction,
    latitude: SineCosine,
) -> Eclipse
    requires far { SunFar sun × MoonFar moon }
    requires one_angle { OneAngle latitude × SmallVector direction_limit to_moon.vector }
    ensures { result ≡ eclipse_of sun moon to_sun.vector to_moon.vector latitude }
{
    let apart = to_sun.separation(to_moon);
    let rs = sun_radius(sun);
    let elevation = place_towards(latitude, to_moon.vector).elevation;
    let rm = moon_radius(moon, elevation);
    let disks = Disks {
        apart,
        sun: rs,
        moon: rm,
    };
    let covered = disks.share();
    Eclipse {
        separation: apart as i64,
        sun_radius: rs as i64,
        moon_radius: rm as i64,
        share: covered as i64,
    }
}

// What both bodies have in common at the instant is worked once.
fn eclipse_from(runner: Runner, instant: Instant) -> Eclipse
    requires { Standing runner × Reachable instant }
    ensures { result ≡ eclipse_from runner instant }
{
    let Runner {
        longitude,
        latitude,
        observer,
    } = runner;
    let moment = moment_at(longitude, instant);
    let sun = geocentric_at(Body::Sun, moment.tt, moment.nutation);
    let moon = geocentric_at(Body::Moon, moment.tt, moment.nutation);
    let to_sun = from_surface(sun, moment.orientation, observer);
    let to_moon = from_surface(moon, moment.orientation, observer);
    eclipse_of(
        sun,
        moon,
        Direction { vector: to_sun },
        Direction { vector: to_moon },
        latitude,
    )
}

// At an instant, from a point on Earth.
pub fn eclipse_at(point: Point, instant: Instant) -> Eclipse
    requires { OnEarth point × Reachable instant }
    ensures { result ≡ eclipse_at point instant }
{
    eclipse_from(runner_at(point), instant)
}
