// The eclipse, and the share of two disks by itself.
ghost use Rattle.std.specs.Prelude.{◌≡◌};
ghost use Rattle.boundary.specs.Codes.{disks_refusal};
ghost use Rattle.boundary.specs.Fault.{Told};
ghost use Rattle.capi.specs.Answers.{Answered, written, written_one};
ghost use Rattle.capi.specs.Disks.{given_eclipse, eclipse_values, covered_share};

use boundary::fault::{Fault, put};
use boundary::refusals::disks_of;
use eclipse::answer::solar_eclipse;
use request::start::Start;
use sky_vectors::station::Point;

// The separation of the two centres, the Sun's radius and the Moon's, in 10⁻⁸ degree, and the covered share of the Sun's disk, in millionths.
#[unsafe(no_mangle)]
pub extern "C" fn raddlehue_eclipse(
    start: &[i64; 9],
    point: &[i64; 3],
    eclipse: &mut [i64; 4],
) -> u32
    ensures value { result ≡ (given_eclipse start.now point.now).refusal }
    ensures eclipse_after { eclipse.new ≡ written eclipse_values (given_eclipse start.now point.now) eclipse.old }
{
    put(eclipse, seen(start, point))
}

fn seen(start: &[i64; 9], point: &[i64; 3]) -> Result<[i64; 4], Fault>
    ensures { Answered eclipse_values (given_eclipse start.now point.now) result }
{
    let seen = solar_eclipse(Start::from(*start), Point::from(*point))?;
    Ok([
        seen.separation,
        seen.sun_radius,
        seen.moon_radius,
        seen.share,
    ])
}

// The share of two disks that stand so far apart, in millionths.
#[unsafe(no_mangle)]
pub extern "C" fn raddlehue_covered_share(
    separation: i64,
    sun_radius: i64,
    moon_radius: i64,
    millionths: &mut i64,
) -> u32
    ensures value { result ≡ disks_refusal separation sun_radius moon_radius }
    ensures millionths_after { millionths.new ≡ written_one (disks_refusal separation sun_radius moon_radius) (covered_share separation sun_radius moon_radius) millionths.old }
{
    put(millionths, covered(separation, sun_radius, moon_radius))
}

fn covered(separation: i64, sun_radius: i64, moon_radius: i64) -> Result<i64, Fault>
    ensures { Told (λ millionths. millionths) (disks_refusal separation sun_radius moon_radius) (covered_share separation sun_radius moon_radius) result }
{
    let disks = disks_of(separation, sun_radius, moon_radius)?;
    let share = disks.share();
    Ok(share as i64)
}
