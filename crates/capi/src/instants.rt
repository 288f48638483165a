// UT and TT of a start, and the sums at one instant, all in milliseconds from noon of 2000-01-01: any instant may be asked for, and one out of reach is refused.
ghost use Rattle.std.specs.Prelude.{◌≡◌, pos};
ghost use Rattle.sum_rules.specs.Sidereal.{mean};
ghost use Rattle.capi.specs.Answers.{Answered, started, instant_values, written, written_one};
ghost use Rattle.boundary.specs.Codes.{reach_refusal};
ghost use Rattle.boundary.specs.Fault.{Told};
ghost use Rattle.capi.specs.Instants.{moon_values, sun_values, nutation_values, at_instant};

use boundary::fault::{Fault, put};
use boundary::refusals::reach_verdict;
use earth::nutation::{nutation_at, obliquity_at};
use earth::sidereal::mean_at;
use moon_sums::moon::moon;
use request::start::{Start, instant_of, start_verdict};
use sum_terms::instant::powers_at;
use sun_sums::sun::sun;

// UT, then TT.
#[unsafe(no_mangle)]
pub extern "C" fn raddlehue_instant(start: &[i64; 9], instant: &mut [i64; 2]) -> u32
    ensures value { result ≡ (started start.now).refusal }
    ensures instant_after { instant.new ≡ written instant_values (started start.now) instant.old }
{
    put(instant, started(start))
}

// Before nutation: longitude and latitude in 10⁻⁸ degree, and metres from the Earth's centre.
#[unsafe(no_mangle)]
pub extern "C" fn raddlehue_moon_sums_ms(tt: i64, sums: &mut [i64; 3]) -> u32
    ensures value { result ≡ reach_refusal tt }
    ensures sums_after { sums.new ≡ at_instant tt (moon_values tt) sums.old }
{
    put(sums, moon_values(tt))
}

// The Earth's L, B and R, in 10⁻¹⁰ radian or AU, before any turn is taken off.
#[unsafe(no_mangle)]
pub extern "C" fn raddlehue_sun_sums_ms(tt: i64, sums: &mut [i64; 3]) -> u32
    ensures value { result ≡ reach_refusal tt }
    ensures sums_after { sums.new ≡ at_instant tt (sun_values tt) sums.old }
{
    put(sums, sun_values(tt))
}

// Δψ, Δε and the true obliquity, in 10⁻⁸ degree.
#[unsafe(no_mangle)]
pub extern "C" fn raddlehue_nutation_ms(tt: i64, nutation: &mut [i64; 3]) -> u32
    ensures value { result ≡ reach_refusal tt }
    ensures nutation_after { nutation.new ≡ at_instant tt (nutation_values tt) nutation.old }
{
    put(nutation, nutation_values(tt))
}

// In 10⁻⁸ degree.
#[unsafe(no_mangle)]
pub extern "C" fn raddlehue_mean_sidereal_ms(ut: i64, sidereal: &mut i64) -> u32
    ensures value { result ≡ reach_refusal ut }
    ensures sidereal_after { sidereal.new ≡ written_one (reach_refusal ut) (pos (mean ut)) sidereal.old }
{
    put(sidereal, mean_sidereal(ut))
}

fn started(start: &[i64; 9]) -> Result<[i64; 2], Fault>
    ensures { Answered instant_values (started start.now) result }
{
    let start = Start::from(*start);
    start_verdict(start)?;
    let found = instant_of(start);
    Ok([found.ut, found.tt])
}

fn moon_values(tt: i64) -> Result<[i64; 3], Fault>
    ensures { Told (λ values. values) (reach_refusal tt) (moon_values tt) result }
{
    reach_verdict(tt)?;
    let place = moon(tt);
    Ok([place.longitude as i64, place.latitude, place.metres])
}

fn sun_values(tt: i64) -> Result<[i64; 3], Fault>
    ensures { Told (λ values. values) (reach_refusal tt) (sun_values tt) result }
{
    reach_verdict(tt)?;
    let place = sun(tt);
    Ok([place.longitude, place.latitude, place.radius])
}

fn nutation_values(tt: i64) -> Result<[i64; 3], Fault>
    ensures { Told (λ values. values) (reach_refusal tt) (nutation_values tt) result }
{
    reach_verdict(tt)?;
    let powers = powers_at(tt);
    let found = nutation_at(powers);
    let obliquity = obliquity_at(powers, found.obliquity);
    Ok([found.longitude, found.obliquity, obliquity])
}

fn mean_sidereal(ut: i64) -> Result<i64, Fault>
    ensures { Told (λ angle. angle) (reach_refusal ut) (pos (mean ut)) result }
{
    reach_verdict(ut)?;
    Ok(mean_at(powers_at(ut)) as i64)
}
