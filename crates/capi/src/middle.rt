// The middle of two azimuths.
ghost use Rattle.std.specs.Prelude.{◌≡◌, pos};
ghost use Rattle.heading.specs.Heading.{middle};
ghost use Rattle.boundary.specs.Fault.{Told};
ghost use Rattle.capi.specs.Answers.{written_one};

use boundary::fault::{Fault, put};
use heading::middle::middle_azimuth;

// All in 10⁻⁸ degree, from north over east.
#[unsafe(no_mangle)]
pub extern "C" fn raddlehue_middle(a: i64, b: i64, azimuth: &mut i64) -> u32
    ensures value { result ≡ (middle a b).refusal }
    ensures azimuth_after { azimuth.new ≡ written_one (middle a b).refusal (pos (middle a b).azimuth) azimuth.old }
{
    put(azimuth, middle(a, b))
}

fn middle(a: i64, b: i64) -> Result<i64, Fault>
    ensures { Told (λ azimuth. azimuth) (middle a b).refusal (pos (middle a b).azimuth) result }
{
    let azimuth = middle_azimuth(a, b)?;
    Ok(azimuth as i64)
}
