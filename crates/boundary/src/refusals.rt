// The refusals of an elevation, of a refraction, of an instant and of two disks, which C hands over by themselves.
ghost use Rattle.std.specs.Prelude.{◌≡◌};
ghost use Rattle.calendar.specs.Refusal.{◌unless◌};
ghost use Rattle.boundary.specs.Codes.{air_of, disks_numbers, disks_refusal, elevation_refusal, given_disks, reach_refusal, refraction_refusal};
ghost use Rattle.boundary.specs.Fault.{Told, fault_number, fault_of};

use super::codes::read_air;
use super::fault::Fault;
use numbers::angle::Angle;
use numbers::whole::is_between;
use overlap::overlap::{Disks, RADIUS_MOST, SUN_RADIUS_LEAST};
use refraction::air::{Air, air_verdict};
use sum_terms::instant::is_within_reach;

// The zenith.
const HIGHEST: i64 = Angle::QUARTER as i64;

// The fault unless the check passes.
fn unless(fault: Fault, passes: bool) -> Result<(), Fault>
    ensures { fault_of result ≡ fault_number fault unless passes }
{
    if passes { Ok(()) } else { Err(fault) }
}

fn elevation_verdict(elevation: i64) -> Result<(), Fault>
    ensures { fault_of result ≡ elevation_refusal elevation }
{
    unless(Fault::NoElevation, is_between(-HIGHEST, elevation, HIGHEST))
}

// The air of a refraction: an unknown one, an elevation beyond ±90 degrees, then 10 and 11 are refused.
pub fn refracting_air(
    elevation: i64,
    air: u32,
    pressure: f64,
    temperature: f64,
) -> Result<Option<Air>, Fault>
    ensures { Told (λ air. air) (refraction_refusal elevation air pressure temperature) (air_of air pressure temperature) result }
{
    let air = read_air(air, pressure, temperature)?;
    elevation_verdict(elevation)?;
    air_verdict(air)?;
    Ok(air)
}

// Where the sums do not reach.
pub fn reach_verdict(instant: i64) -> Result<(), Fault>
    ensures { fault_of result ≡ reach_refusal instant }
{
    unless(Fault::OutOfReach, is_within_reach(instant))
}

// A separation of at most 180 degrees, and radii that the Sun and the Moon can have.
pub fn disks_of(apart: i64, rs: i64, rm: i64) -> Result<Disks, Fault>
    ensures { Told disks_numbers (disks_refusal apart rs rm) (given_disks apart rs rm) result }
{
    let most = RADIUS_MOST as i64;
    unless(Fault::NoDisks, is_between(0, apart, Angle::HALF as i64))?;
    unless(
        Fault::NoDisks,
        is_between(SUN_RADIUS_LEAST as i64, rs, most),
    )?;
    unless(Fault::NoDisks, is_between(0, rm, most))?;
    Ok(Disks {
        apart: apart as u64,
        sun: rs as u64,
        moon: rm as u64,
    })
}
