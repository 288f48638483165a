// The cases that 01 asks to be run ("Cases by hand"), and requests that go the whole way.
use super::report::{Row, compared, named, write};
use calendar::refusal::Refusal;
use heading::middle::middle_azimuth;
use refraction::air::Air;
use request::start::Start;
use sky::answer::{place, shown_place};
use sky::shown::Shown;
use sky_vectors::geocentric::Body;
use sky_vectors::station::Point;
use std::io;
use strip::air::StripAir;

// The first of January at 12:00 and a second.
fn start_at(year: i64, second: i64) -> Start {
    Start {
        year,
        month: 1,
        day: 1,
        hour: 12,
        minute: 0,
        second,
        fraction: 0,
        ut1: 0,
        delta_t: 0,
    }
}

fn point_at(latitude: i64) -> Point {
    Point {
        longitude: 0,
        latitude,
        height: 0,
    }
}

// 0 where there is an answer.
fn number_of<T: Drop>(answer: Result<T, Refusal>) -> i64 {
    match answer {
        Ok(_) => 0,
        Err(refusal) => i64::from(refusal.number()),
    }
}

fn refusal_of(start: Start, point: Point, air: Option<Air>) -> i64 {
    number_of(place(start, Body::Sun, point, air))
}

// A refusal that has to be the one expected.
fn exactly(value: i64, expected: i64) -> Row {
    Row {
        value,
        expected,
        tolerance: 0,
    }
}

pub fn run_cases(rt: &impl Print) -> io::Result<()> {
    let equator = point_at(0);
    let noon = start_at(2000, 0);
    compared(
        rt,
        b"01: full-turn second-60 year-2101 pole past-pole",
        &[
            exactly(number_of(middle_azimuth(36_000_000_000, 0)), 15),
            exactly(refusal_of(start_at(2000, 60), equator, None), 4),
            exactly(refusal_of(start_at(2101, 0), equator, None), 1),
            exactly(refusal_of(noon, point_at(900_000_000), None), 0),
            exactly(refusal_of(noon, point_at(900_000_001), None), 8),
        ],
    )?;
    write(rt, b"\n")
}

// All three numbers.
fn are_same(a: Shown, b: Shown) -> bool {
    a.azimuth == b.azimuth && a.elevation == b.elevation && a.refraction == b.refraction
}

// Air raises what is seen by the refraction, and moves it no other way.
fn is_raised(bare: Shown, seen: Shown) -> bool {
    bare.azimuth == seen.azimuth
        && bare.elevation + seen.refraction == seen.elevation
        && bare.elevation < seen.elevation
}

// At noon of 2000-01-01 on the meridian of Greenwich; a refused place is all zeros.
fn shown_in(air: Option<Air>) -> Shown {
    shown_place(start_at(2000, 0), Body::Sun, point_at(400_000_000), air).unwrap_or(Shown {
        azimuth: None,
        elevation: 0.0,
        refraction: 0.0,
    })
}

fn measured(pressure: f64) -> Option<Air> {
    Some(Air {
        pressure,
        temperature: 10.0,
    })
}

// Air that is carried over from an old strip raises as measured air at 1010 mbar and 10 degrees does.
pub fn whole_path(rt: &impl Print) -> io::Result<()> {
    let seen = shown_in(StripAir::from(1).into());
    let bare = shown_in(None);
    write(rt, b"requests:")?;
    named(
        rt,
        b"carried-over",
        are_same(seen, shown_in(measured(1010.0))),
    )?;
    named(rt, b"raised", is_raised(bare, seen))?;
    named(
        rt,
        b"nan-pressure",
        refusal_of(start_at(2000, 0), point_at(0), measured(0.0 / 0.0)) == 10,
    )?;
    write(rt, b"\n")
}
