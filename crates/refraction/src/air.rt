// The air of a request, and checks 10 and 11 on it.
ghost use Rattle.std.specs.Prelude.{◌≡◌};
ghost use Rattle.calendar.specs.Refusal.{first, verdict_number};
ghost use Rattle.refraction.specs.Air.{between_doubles, air_refusals};

use calendar::refusal::{Refusal, unless};

// Measured air: its pressure in mbar and its temperature in °C. A request without has None.
#[derive(Clone, Copy)]
pub struct Air {
    pub pressure: f64,
    pub temperature: f64,
}

// A NaN is between nothing. For whole numbers numbers::whole has this line, with the rule of their order.
fn is_between(lo: f64, x: f64, hi: f64) -> bool
    ensures { result ≡ between_doubles lo x hi }
{
    lo <= x && x <= hi
}

// The first of checks 10 and 11 that refuses.
pub fn air_verdict(air: Option<Air>) -> Result<(), Refusal>
    ensures { verdict_number result ≡ first (air_refusals air) }
{
    let Some(air) = air else {
        return Ok(());
    };
    unless(Refusal::Pressure, is_between(0.0, air.pressure, 1200.0))?;
    unless(
        Refusal::Temperature,
        is_between(-80.0, air.temperature, 80.0),
    )
}
