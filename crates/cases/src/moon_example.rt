// 003's example (A.1): the inputs of Table A.1.1, and the results of Table A.1.2.
ghost use Rattle.std.specs.Prelude.{◌≡◌};
ghost use Rattle.calendar.specs.Refusal.{first};
ghost use Rattle.request.specs.Request.{start_refusals, point_refusals};

use super::report::{Row, compared, named, near, write};
use super::steps::{moment_of, steps_to};
use moon_sums::moon::{arguments, moon_at};
use numbers::angle::Angle;
use refraction::air::Air;
use request::start::Start;
use sky::answer::shown_place;
use sky_vectors::geocentric::Body;
use sky_vectors::station::Point;
use std::io;

// Delta-T, in milliseconds.
const DELTA: i64 = 66_400;

fn start() -> Start
    ensures { first (start_refusals result) ≡ 0 }
{
    Start {
        year: 2009,
        month: 7,
        day: 22,
        hour: 1,
        minute: 33,
        second: 0,
        fraction: 0,
        ut1: 0,
        delta_t: DELTA,
    }
}

fn site() -> Point
    ensures { first (point_refusals result) ≡ 0 }
{
    Point {
        longitude: 1_433_616_700,
        latitude: 246_116_700,
        height: 0,
    }
}

// L' 118.2130333, D 358.2658977, M 196.845702 and M' 6.110197 degrees, to one of the last printed digit. F is not printed.
fn mean_arguments(rt: &impl Print) -> io::Result<()> {
    let [longitude, elongation, anomaly, moons_anomaly, latitude] = arguments(
        moment_of(start()).tt,
    );
    compared(
        rt,
        b" L' D M M'",
        &[
            Row {
                value: longitude,
                expected: 11_821_303_330,
                tolerance: 10,
            },
            Row {
                value: elongation,
                expected: 35_826_589_770,
                tolerance: 10,
            },
            Row {
                value: anomaly,
                expected: 19_684_570_200,
                tolerance: 100,
            },
            Row {
                value: moons_anomaly,
                expected: 611_019_700,
                tolerance: 100,
            },
            Row {
                value: latitude,
                expected: 0,
                tolerance: Angle::FULL as i64,
            },
        ],
    )
}

// λ 118.7934477 and β 0.131573 degrees, Δ 357514.1221 km. The report's sums are exact and 01's are of whole numbers, apart by at most
// 500 units and 10 metres ("Bounds for demand 3").
fn centre(rt: &impl Print) -> io::Result<()> {
    let moon = moon_at(moment_of(start()).tt);
    let body = steps_to(Body::Moon, start(), site()).centre;
    compared(
        rt,
        b" lambda beta Delta",
        &[
            Row {
                value: body.longitude,
                expected: 11_879_344_770,
                tolerance: 500,
            },
            Row {
                value: body.latitude,
                expected: 13_157_300,
                tolerance: 500,
            },
            Row {
                value: moon.metres,
                expected: 357_514_122,
                tolerance: 10,
            },
        ],
    )
}

// "zenith angle with uncertainty of ±0.001° and azimuth angle with uncertainty of ±0.003°" (003, abstract).
fn place(rt: &impl Print, body: Body, azimuth: f64, zenith: f64) -> io::Result<()> {
    let air = Air {
        pressure: 1000.0,
        temperature: 11.0,
    };
    let Ok(shown) = shown_place(start(), body, site(), Some(air)) else {
        return named(rt, b"place", false);
    };
    named(
        rt,
        b"azimuth",
        near(shown.azimuth.unwrap_or(0.0), azimuth, 0.003),
    )?;
    named(rt, b"zenith", near(90.0 - shown.elevation, zenith, 0.001))
}

// The printed zenith angles, 14.13343 and 14.50514, contradict the table. By its α' 121.202944 and δ' 20.448307, at the sidereal time
// 323.194838, the Moon's hour angle is 345.353564 and its elevation 75.854774; its air refracts by 0.004187; so its zenith angle is
// 14.14104. By Ems 0.37481367 and the azimuths the Sun's is 14.51274 then.
pub fn table_a_1_2(rt: &impl Print) -> io::Result<()> {
    write(rt, b"003 Table A.1.2:")?;
    mean_arguments(rt)?;
    centre(rt)?;
    write(rt, b" Moon:")?;
    place(rt, Body::Moon, 104.19314, 14.14104)?;
    write(rt, b" Sun:")?;
    place(rt, Body::Sun, 104.38792, 14.51274)?;
    write(rt, b"\n")
}
