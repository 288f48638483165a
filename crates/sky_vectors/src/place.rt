// The direction and the place of a body, seen from where a runner stands.
ghost use Rattle.std.specs.Prelude.{◌≡◌, ◌≤◌, nat_abs};
ghost use Rattle.sky_vectors.specs.Place.{from_centre, from_surface, direction, place_towards, place_from, place_at};
ghost use Rattle.numbers.specs.SineCosine.{OneAngle};
ghost use Rattle.sky_vectors.specs.SkyRange.{SmallVector, SmallObserver, Standing, OnEarth, Reachable, parallax_limit, direction_limit};

use super::geocentric::{Body, Geocentric, geocentric_at};
use super::horizon::{azimuth, elevation, horizon_at};
use super::observer::{Observer, shifted};
use super::orientation::{Orientation, moment_at};
use super::station::{Point, Runner, runner_at};
use super::vector::{Vector, equatorial, meridian, unit_vector};
use numbers::angle::Angle;
use numbers::sine::{SineCosine, sine_cosine};
use sum_rules::instant::Instant;

#[derive(Clone, Copy)]
pub struct Place {
    pub azimuth: Option<Angle>,
    pub elevation: i64,
}

// The vector from the Earth's centre, on the runner's meridian.
pub fn from_centre(body: Geocentric, orientation: Orientation) -> Vector
    ensures { result ≡ from_centre body orientation }
{
    let longitude = body.longitude;
    let latitude = body.latitude;
    let sidereal = orientation.sidereal;
    let obliquity = orientation.obliquity;
    let l = sine_cosine(longitude);
    let t = sine_cosine(latitude);
    let theta = sine_cosine(sidereal);
    let epsilon = sine_cosine(obliquity);
    meridian(theta, equatorial(epsilon, unit_vector(l, t)))
}

// The same from where the observer stands.
pub fn from_surface(body: Geocentric, orientation: Orientation, observer: Observer) -> Vector
    requires { (nat_abs body.parallax ≤ parallax_limit) × SmallObserver observer }
    ensures { result ≡ from_surface body orientation observer }
{
    let parallax = body.parallax;
    shifted(parallax, observer, from_centre(body, orientation))
}

// The direction after parallax, at an instant. That the runner stands and the instant is near are clauses, not fields: the rules speak of every runner and instant (EveryPlaceInTurns).
pub fn direction_at(body: Body, runner: Runner, instant: Instant) -> Vector
    requires { Standing runner × Reachable instant }
    ensures { result ≡ direction body runner instant }
{
    let observer = runner.observer;
    let moment = moment_at(runner.longitude, instant);
    let centre = geocentric_at(body, moment.tt, moment.nutation);
    from_surface(centre, moment.orientation, observer)
}

// Where a direction points to, at a latitude.
pub fn place_towards(latitude: SineCosine, direction: Vector) -> Place
    requires { OneAngle latitude × SmallVector direction_limit direction }
    ensures { result ≡ place_towards latitude direction }
{
    let seen = horizon_at(latitude, direction);
    Place {
        azimuth: azimuth(seen),
        elevation: elevation(seen),
    }
}

// For a runner who is worked out once and stands for many instants. The three are no struct: each caller makes a new instant for each call.
pub fn place_from(body: Body, runner: Runner, instant: Instant) -> Place
    requires { Standing runner × Reachable instant }
    ensures { result ≡ place_from body runner instant }
{
    let latitude = runner.latitude;
    place_towards(latitude, direction_at(body, runner, instant))
}

// At an instant, from a point on Earth.
pub fn place_at(body: Body, point: Point, instant: Instant) -> Place
    requires { OnEarth point × Reachable instant }
    ensures { result ≡ place_at body point instant }
{
    place_from(body, runner_at(point), instant)
}
