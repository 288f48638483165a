// The values that the reports print between an instant and a place.
ghost use Rattle.std.specs.Prelude.{◌≡◌};
ghost use Rattle.calendar.specs.Refusal.{first};
ghost use Rattle.request.specs.Request.{instant, start_refusals, point_refusals};
ghost use Rattle.sky_vectors.specs.Geocentric.{geocentric};
ghost use Rattle.sky_vectors.specs.Orientation.{orientation};
ghost use Rattle.sky_vectors.specs.Station.{runner};
ghost use Rattle.sum_rules.specs.Nutation.{Δψ, Δε};
ghost use Rattle.cases.specs.Steps.{from_south_pole};
ghost use Rattle.sum_rules.specs.Instant.{Reached};

use earth::nutation::{Nutation, nutation_at};
use numbers::angle::Angle;
use numbers::sine::sine_cosine;
use request::start::{Start, instant_of};
use sky_vectors::geocentric::{Body, Geocentric, geocentric_at};
use sky_vectors::orientation::{Orientation, orientation_at};
use sky_vectors::place::{Place, from_centre, place_towards};
use sky_vectors::station::{Point, runner_at};
use sum_rules::instant::Powers;
use sum_terms::instant::powers_at;

// Δψ and Δε, the apparent place from the Earth's centre, and the obliquity and the sidereal angle at the point.
#[derive(Clone, Copy)]
pub struct Steps {
    pub nutation: Nutation,
    pub centre: Geocentric,
    pub orientation: Orientation,
}

// The powers of UT and of TT.
#[derive(Clone, Copy)]
pub struct Moment {
    pub ut: Powers,
    pub tt: Powers,
}

pub fn moment_of(start: Start) -> Moment
    requires { first (start_refusals start) ≡ 0 }
    ensures { (Reached result.ut × Reached result.tt) × ((result.ut.n ≡ (instant start).ut) × (result.tt.n ≡ (instant start).tt)) }
{
    let instant = instant_of(start);
    let ut = powers_at(instant.ut);
    let tt = powers_at(instant.tt);
    Moment { ut, tt }
}

pub fn steps_to(body: Body, start: Start, point: Point) -> Steps
    requires { (first (start_refusals start) ≡ 0) × (first (point_refusals point) ≡ 0) }
    ensures longitude_value { (result.nutation.longitude ≡ Δψ (instant start).tt) × (result.nutation.obliquity ≡ Δε (instant start).tt) }
    ensures centre_value { (result.centre ≡ geocentric body (instant start).tt) × (result.orientation ≡ orientation (runner point).longitude (instant start).ut (instant start).tt) }
{
    let moment = moment_of(start);
    let ut = moment.ut;
    let tt = moment.tt;
    let nutation = nutation_at(tt);
    let centre = geocentric_at(body, tt, nutation.longitude);
    let runner = runner_at(point);
    let longitude = runner.longitude;
    let orientation = orientation_at(longitude, ut, tt, nutation);
    Steps {
        nutation,
        centre,
        orientation,
    }
}

// From the south pole of an Earth without size, turned by the sidereal angle θ: the azimuth is α - θ, the elevation is -δ.
pub fn from_south_pole(centre: Geocentric, orientation: Orientation) -> Place
    ensures { result ≡ from_south_pole centre orientation }
{
    let pole = sine_cosine(-(Angle::QUARTER as i64));
    let direction = from_centre(centre, orientation);
    place_towards(pole, direction)
}
