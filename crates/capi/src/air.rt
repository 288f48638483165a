// The refraction at an elevation.
ghost use Rattle.std.specs.Prelude.{◌≡◌};
ghost use Rattle.refraction.specs.Refraction.{refraction};
ghost use Rattle.boundary.specs.Codes.{air_of, refraction_refusal};
ghost use Rattle.boundary.specs.Fault.{Told};
ghost use Rattle.capi.specs.Answers.{written_one};

use boundary::fault::{Fault, put};
use boundary::refusals::refracting_air;
use refraction::formula::refraction;

// The elevation without refraction in 10⁻⁸ degree; the refraction in degrees.
#[unsafe(no_mangle)]
pub extern "C" fn raddlehue_refraction(
    elevation: i64,
    air: u32,
    pressure: f64,
    temperature: f64,
    degrees: &mut f64,
) -> u32
    ensures value { result ≡ refraction_refusal elevation air pressure temperature }
    ensures degrees_after { degrees.new ≡ written_one (refraction_refusal elevation air pressure temperature) (refraction (air_of air pressure temperature) elevation) degrees.old }
{
    put(degrees, refracted(elevation, air, pressure, temperature))
}

fn refracted(elevation: i64, air: u32, pressure: f64, temperature: f64) -> Result<f64, Fault>
    ensures { Told (λ degrees. degrees) (refraction_refusal elevation air pressure temperature) (refraction (air_of air pressure temperature) elevation) result }
{
    let air = refracting_air(elevation, air, pressure, temperature)?;
    Ok(refraction(air, elevation))
}
