// The answer to a request for a day's azimuths: into a lent buffer, or the one refusal.
ghost use Rattle.std.specs.Prelude.{◌≡◌, length};
ghost use Rattle.calendar.specs.Refusal.{OneAnswer, first, verdict_number};
ghost use Rattle.day_azimuths.specs.Answer.{azimuths_answer, azimuths_refusals, day_azimuths, left_in, step_refusals};
ghost use Rattle.day_azimuths.specs.Demand3.{AzimuthsNear};

use super::steps::fill;
use calendar::refusal::{Refusal, StripRefusal, unless};
use day::course::Course;
use day::date::{Date, day_verdict};
use sky_vectors::geocentric::Body;
use sky_vectors::station::Point;
use strip::checks::{is_step, steps_of};

// 25, then 28 of a buffer of so many entries.
fn step_verdict(step: i64, room: usize) -> Result<(), Refusal>
    ensures { verdict_number result ≡ first (step_refusals step room) }
{
    unless(Refusal::Strip(StripRefusal::Step), is_step(step))?;
    unless(Refusal::Strip(StripRefusal::Buffer), steps_of(step) <= room)
}

// The first refusal that applies.
fn azimuths_verdict(date: Date, point: Point, step: i64, room: usize) -> Result<(), Refusal>
    ensures { verdict_number result ≡ first (azimuths_refusals date point step room) }
{
    day_verdict(date, point)?;
    step_verdict(step, room)
}

// The azimuths of a day at a step of 1, 2, 5 or 10 minutes, in 10⁻⁷ degree from north over east. Entries behind the last step are left alone, and nothing is written before the
// request is judged; then what the day has in common is worked once.
pub fn day_azimuths(
    date: Date,
    body: Body,
    point: Point,
    step: i64,
    azimuths: &mut [u32],
) -> Result<usize, Refusal>
    ensures one_answer { OneAnswer azimuths_answer (day_azimuths date point step (length azimuths.old)) result }
    ensures azimuths_after { azimuths.new ≡ left_in date body point step azimuths.old }
    ensures azimuths_near { AzimuthsNear date point step (length azimuths.old) }
{
    azimuths_verdict(date, point, step, azimuths.len())?;
    let course = Course::new(date, body, point);
    let count = steps_of(step);
    fill(course, step as usize, count, azimuths);
    Ok(count)
}
