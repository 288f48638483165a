// The place of a body, and the place as it is shown.
ghost use Rattle.std.specs.Prelude.{◌≡◌};
ghost use Rattle.boundary.specs.Codes.{code_refusal};
ghost use Rattle.boundary.specs.Fault.{Told};
ghost use Rattle.boundary.specs.Lent.{place_flag, place_parts, place_values, shown_flag, shown_parts, shown_values};
ghost use Rattle.capi.specs.Answers.{Answered, coded_place, coded_shown_place, written};
ghost use Rattle.capi.specs.Asked.{asked_from};

use boundary::codes::{read_air, read_body};
use boundary::fault::{Fault, put_both};
use boundary::lent::{place_parts, shown_parts};
use refraction::air::Air;
use request::start::Start;
use sky_vectors::geocentric::Body;
use sky_vectors::station::Point;

// Whether there is an azimuth, azimuth from north over east and elevation without refraction, in 10⁻⁸ degree. The air is only judged.
#[unsafe(no_mangle)]
pub extern "C" fn raddlehue_place(
    start: &[i64; 9],
    body: u32,
    point: &[i64; 3],
    air: u32,
    pressure: f64,
    temperature: f64,
    has_azimuth: &mut u32,
    place: &mut [i64; 2],
) -> u32
    ensures value { result ≡ (coded_place start.now body point.now air pressure temperature).refusal }
    ensures has_azimuth_after { has_azimuth.new ≡ written place_flag (coded_place start.now body point.now air pressure temperature) has_azimuth.old }
    ensures place_after { place.new ≡ written place_values (coded_place start.now body point.now air pressure temperature) place.old }
{
    put_both(
        has_azimuth,
        place,
        seen(start, body, point, air, pressure, temperature),
    )
}

// Whether there is an azimuth, azimuth from north over east, elevation with the refraction in it, and the refraction, in degrees.
#[unsafe(no_mangle)]
pub extern "C" fn raddlehue_shown_place(
    start: &[i64; 9],
    body: u32,
    point: &[i64; 3],
    air: u32,
    pressure: f64,
    temperature: f64,
    has_azimuth: &mut u32,
    shown: &mut [f64; 3],
) -> u32
    ensures value { result ≡ (coded_shown_place start.now body point.now air pressure temperature).refusal }
    ensures has_azimuth_after { has_azimuth.new ≡ written shown_flag (coded_shown_place start.now body point.now air pressure temperature) has_azimuth.old }
    ensures shown_after { shown.new ≡ written shown_values (coded_shown_place start.now body point.now air pressure temperature) shown.old }
{
    put_both(
        has_azimuth,
        shown,
        seen_as_shown(start, body, point, air, pressure, temperature),
    )
}

fn seen(
    start: &[i64; 9],
    body: u32,
    point: &[i64; 3],
    air: u32,
    pressure: f64,
    temperature: f64,
) -> Result<(u32, [i64; 2]), Fault>
    ensures { Answered place_parts (coded_place start.now body point.now air pressure temperature) result }
{
    let asked = read_request(start, body, point, air, pressure, temperature)?;
    let seen = sky::answer::place(asked.start, asked.body, asked.point, asked.air)?;
    Ok(place_parts(seen))
}

fn seen_as_shown(
    start: &[i64; 9],
    body: u32,
    point: &[i64; 3],
    air: u32,
    pressure: f64,
    temperature: f64,
) -> Result<(u32, [f64; 3]), Fault>
    ensures { Answered shown_parts (coded_shown_place start.now body point.now air pressure temperature) result }
{
    let asked = read_request(start, body, point, air, pressure, temperature)?;
    let seen = sky::answer::shown_place(asked.start, asked.body, asked.point, asked.air)?;
    Ok(shown_parts(seen))
}

// A request for a place, with its codes read.
#[derive(Clone, Copy)]
struct Asked {
    start: Start,
    body: Body,
    point: Point,
    air: Option<Air>,
}

fn read_request(
    start: &[i64; 9],
    body: u32,
    point: &[i64; 3],
    air: u32,
    pressure: f64,
    temperature: f64,
) -> Result<Asked, Fault>
    ensures { Told (λ asked. asked) (code_refusal body air) (asked_from start.now body point.now air pressure temperature) result }
{
    let body = read_body(body)?;
    let air = read_air(air, pressure, temperature)?;
    Ok(Asked {
        start: Start::from(*start),
        body,
        point: Point::from(*point),
        air,
    })
}
