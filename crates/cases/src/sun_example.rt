// 004's example (A.5): the site of its list, and the results of Table A5.1.
ghost use Rattle.std.specs.Prelude.{◌≡◌};
ghost use Rattle.calendar.specs.Refusal.{first};
ghost use Rattle.request.specs.Request.{start_refusals, point_refusals};

use super::report::{Row, compared, named, near, write};
use super::steps::{from_south_pole, moment_of, steps_to};
use arctangent::direction::{MARK, angle_or};
use earth::nutation::Nutation;
use refraction::air::Air;
use request::start::Start;
use sky::answer::shown_place;
use sky_vectors::geocentric::{Body, Geocentric};
use sky_vectors::orientation::Orientation;
use sky_vectors::station::Point;
use std::io;
use sun_sums::sun::{longitude_degrees, sun_at};

// Delta-T, in milliseconds.
const DELTA: i64 = 67_000;

// 12:30:30 of a zone seven hours behind UT.
fn start() -> Start
    ensures { first (start_refusals result) ≡ 0 }
{
    Start {
        year: 2003,
        month: 10,
        day: 17,
        hour: 19,
        minute: 30,
        second: 30,
        fraction: 0,
        ut1: 0,
        delta_t: DELTA,
    }
}

// The report's height is 1830.14 metres.
fn site() -> Point
    ensures { first (point_refusals result) ≡ 0 }
{
    Point {
        longitude: -1_051_786_000,
        latitude: 397_424_760,
        height: 1830,
    }
}

// The report's sums are exact and 01's are of whole numbers, apart by at most 1000, 100 and 500 of 10⁻¹⁰ radian or AU ("Bounds for
// demand 3"). Here L, B and R are 33, 3 and 20 of them apart.
const LONGITUDE_BOUND: i64 = 573;

const LATITUDE_BOUND: i64 = 57;

const RADIUS_BOUND: i64 = 500;

// α - θ is -H.
const TURN_LESS_H: i64 = 36_000_000_000 - 1_110_590_000;

// L 24.0182616917 degrees, R 0.9965422974 AU.
fn sums(rt: &impl Print) -> io::Result<()> {
    let earth = sun_at(moment_of(start()).tt);
    compared(
        rt,
        b" L R",
        &[
            Row {
                value: longitude_degrees(earth.longitude),
                expected: 2_401_826_169,
                tolerance: LONGITUDE_BOUND,
            },
            Row {
                value: earth.radius,
                expected: 9_965_422_974,
                tolerance: RADIUS_BOUND,
            },
        ],
    )
}

// β 0.0001011219 and λ 204.0085519281 degrees; Δψ -0.00399840, Δε 0.00166657 and ε 23.440465 degrees, to one of the last printed digit.
fn centre(
    rt: &impl Print,
    body: Geocentric,
    nutation: Nutation,
    orientation: Orientation,
) -> io::Result<()> {
    compared(
        rt,
        b" beta lambda dpsi deps epsilon",
        &[
            Row {
                value: body.latitude,
                expected: 10_112,
                tolerance: LATITUDE_BOUND,
            },
            Row {
                value: body.longitude,
                expected: 20_400_855_193,
                tolerance: LONGITUDE_BOUND,
            },
            Row {
                value: nutation.longitude,
                expected: -399_840,
                tolerance: 1,
            },
            Row {
                value: nutation.obliquity,
                expected: 166_657,
                tolerance: 1,
            },
            Row {
                value: orientation.obliquity,
                expected: 2_344_046_500,
                tolerance: 100,
            },
        ],
    )
}

// α 202.22741, δ -9.31434 and H 11.105900 degrees, to one of the last digit of α: H is ν + σ - α, and no finer. H + α is 213.33331.
fn equator(rt: &impl Print, body: Geocentric, orientation: Orientation) -> io::Result<()> {
    let unturned = Orientation {
        sidereal: 0,
        obliquity: orientation.obliquity,
    };
    let fixed = from_south_pole(body, unturned);
    let turned = from_south_pole(body, orientation);
    let alpha = fixed.azimuth;
    let alpha_turned = turned.azimuth;
    compared(
        rt,
        b" nu+sigma alpha delta H",
        &[
            to_alpha(orientation.sidereal, 21_333_331_000),
            to_alpha(angle_or(MARK, alpha), 20_222_741_000),
            to_alpha(fixed.elevation, 931_434_000),
            to_alpha(angle_or(MARK, alpha_turned), TURN_LESS_H),
        ],
    )
}

// To one of the last digit of α.
fn to_alpha(value: i64, expected: i64) -> Row {
    Row {
        value,
        expected,
        tolerance: 1000,
    }
}

// Zenith and azimuth angles "with uncertainties of ±0.0003°" (004, abstract). The table's H' and δ' put the Sun 39.87204 degrees high,
// and its zenith angle has the refraction in it: 0.01634 degree.
fn place(rt: &impl Print) -> io::Result<()> {
    let air = Air {
        pressure: 820.0,
        temperature: 11.0,
    };
    let Ok(shown) = shown_place(start(), Body::Sun, site(), Some(air)) else {
        return named(rt, b"place", false);
    };
    named(rt, b"refraction", near(shown.refraction, 0.01634, 0.0003))?;
    named(
        rt,
        b"azimuth",
        near(shown.azimuth.unwrap_or(0.0), 194.34024, 0.0003),
    )?;
    named(
        rt,
        b"zenith",
        near(90.0 - shown.elevation, 50.11162, 0.0003),
    )
}

pub fn table_a5_1(rt: &impl Print) -> io::Result<()> {
    let steps = steps_to(Body::Sun, start(), site());
    write(rt, b"004 Table A5.1:")?;
    sums(rt)?;
    centre(rt, steps.centre, steps.nutation, steps.orientation)?;
    equator(rt, steps.centre, steps.orientation)?;
    place(rt)?;
    write(rt, b"\n")
}
