// A day's azimuths for a strip, into a buffer that the caller lends.
ghost use Rattle.std.specs.Prelude.{◌≡◌};
ghost use Rattle.capi.specs.Answers.{Answered, written};
ghost use Rattle.capi.specs.Strips.{coded_azimuths, day_azimuths_left};

use boundary::codes::read_body;
use boundary::fault::{Fault, put};
use day::date::Date;
use day_azimuths::answer::day_azimuths;
use sky_vectors::station::Point;

// In 10⁻⁷ degree from north over east, one for each step of the UTC date. How many there are is told.
#[unsafe(no_mangle)]
pub extern "C" fn raddlehue_day_azimuths(
    date: &[i64; 5],
    body: u32,
    point: &[i64; 3],
    step: i64,
    azimuths: &mut [u32],
    count: &mut u64,
) -> u32
    ensures value { result ≡ (coded_azimuths date.now body point.now step azimuths.old).refusal }
    ensures azimuths_after { azimuths.new ≡ day_azimuths_left date.now body point.now step azimuths.old }
    ensures count_after { count.new ≡ written (λ n. n) (coded_azimuths date.now body point.now step azimuths.old) count.old }
{
    put(count, filled(date, body, point, step, azimuths))
}

fn filled(
    date: &[i64; 5],
    body: u32,
    point: &[i64; 3],
    step: i64,
    azimuths: &mut [u32],
) -> Result<u64, Fault>
    ensures answer { Answered (λ n. n) (coded_azimuths date.now body point.now step azimuths.old) result }
    ensures azimuths_after { azimuths.new ≡ day_azimuths_left date.now body point.now step azimuths.old }
{
    let body = read_body(body)?;
    let steps = day_azimuths(Date::from(*date), body, Point::from(*point), step, azimuths)?;
    Ok(steps as u64)
}
