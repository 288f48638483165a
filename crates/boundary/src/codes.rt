// The body and the air of a request and of a strip, which C gives by a code.
ghost use Rattle.std.specs.Prelude.{◌≡◌};
ghost use Rattle.boundary.specs.Codes.{air_of, body_of, body_refusal, code_in, kind_refusal, strip_air_of, strip_kind_of, strip_kind_refusal};
ghost use Rattle.boundary.specs.Fault.{Told};

use super::fault::Fault;
use refraction::air::Air;
use sky_vectors::geocentric::Body;
use strip::air::StripAir;

// The codes of a body.
const SUN: u32 = 0;

const MOON: u32 = 1;

// The kinds of an air; the last is of a strip's alone.
const NONE: u32 = 0;

const MEASURED: u32 = 2;

const CARRIED_OVER: u32 = 3;

// The body of a code; one that is unknown counts as the Moon's.
pub fn body_of(code: u32) -> Body
    ensures { result ≡ body_of code }
{
    if code == SUN { Body::Sun } else { Body::Moon }
}

pub fn read_body(code: u32) -> Result<Body, Fault>
    ensures { Told (λ body. body) (body_refusal code) (body_of code) result }
{
    match code {
        SUN | MOON => Ok(body_of(code)),
        _ => Err(Fault::UnknownBody),
    }
}

// Pressure in mbar and temperature in °C, both read only where there is an air; an unknown kind counts as measured.
pub fn air_of(kind: u32, pressure: f64, temperature: f64) -> Option<Air>
    ensures { result ≡ air_of kind pressure temperature }
{
    if kind == NONE {
        return None;
    }
    Some(Air {
        pressure,
        temperature,
    })
}

pub fn read_air(kind: u32, pressure: f64, temperature: f64) -> Result<Option<Air>, Fault>
    ensures { Told (λ air. air) (kind_refusal kind) (air_of kind pressure temperature) result }
{
    match kind {
        NONE | MEASURED => Ok(air_of(kind, pressure, temperature)),
        _ => Err(Fault::UnknownAir),
    }
}

// Of measured air no pressure and no temperature is asked, since no strip is written with it; an unknown kind counts as carried over.
pub fn strip_air_of(kind: u32) -> StripAir
    ensures { result ≡ strip_air_of kind }
{
    let unasked = Air {
        pressure: 0.0,
        temperature: 0.0,
    };
    if kind == NONE {
        StripAir::None
    } else if kind == MEASURED {
        StripAir::Measured(unasked)
    } else {
        StripAir::CarriedOver(unasked)
    }
}

pub fn read_strip_air(kind: u32) -> Result<StripAir, Fault>
    ensures { Told (λ air. air) (strip_kind_refusal kind) (strip_air_of kind) result }
{
    match kind {
        NONE | MEASURED | CARRIED_OVER => Ok(strip_air_of(kind)),
        1 | 4.. => Err(Fault::UnknownAir),
    }
}

// The kind of a strip's air.
pub fn strip_kind_of(air: StripAir) -> u32
    ensures { result ≡ strip_kind_of air }
{
    match air {
        StripAir::None => NONE,
        StripAir::Measured(_) => MEASURED,
        StripAir::CarriedOver(_) => CARRIED_OVER,
    }
}

// A code that is given in 64 bits. What is no number of 32 bits is no code: it counts as the largest.
pub fn code_in(number: i64) -> u32
    ensures { result ≡ code_in number }
{
    u32::try_from(number).unwrap_or(u32::MAX)
}
