// The planner's answer: a plan into two lent buffers, no plan, or the one refusal of a day.
ghost use Rattle.std.specs.Prelude.{◌≡◌};
ghost use Rattle.day.specs.Date.{day_refusals};
ghost use Rattle.day.specs.Demand3.{DayNear};
ghost use Rattle.calendar.specs.Refusal.{OneAnswer, first};
ghost use Rattle.plan.specs.Answer.{azimuths_left, minutes_left, planning, planning_answer};
ghost use Rattle.plan.specs.Plan.{EachMinute, day_azimuths, is_possible};

use super::planner::Planner;
use calendar::refusal::Refusal;
use day::course::Course;
use day::curve::{MINUTES, fill};
use day::date::{Date, day_verdict};
use sky_vectors::geocentric::Body;
use sky_vectors::station::Point;
use turning_points::points::{are_reduced, are_turned};

// The azimuths of an accepted day. What the day has in common is worked once.
fn work(date: Date, body: Body, point: Point, day: &mut [i64])
    requires day_passes { first (day_refusals date point) ≡ 0 }
    requires each_minute { EachMinute day.old }
    ensures { day.new ≡ day_azimuths date body point }
{
    let course = Course::new(date, body, point);
    fill(day, |minute| course.marked_azimuth(minute));
}

// Whether each minute has an azimuth, and no two adjacent ones are exactly opposite.
#[tactic(auto, unfolding(crate::specs::Plan::is_possible))]
fn is_possible(day: &[i64]) -> bool
    ensures { result ≡ is_possible day.now }
{
    are_reduced(day) && are_turned(day)
}

// How many points a plan has, or that there is none. The first points of the two buffers, as many as are answered, are a plan; entries behind them are left alone. Where there is no plan, or the day is refused, nothing is
// written.
pub fn plan(
    date: Date,
    body: Body,
    point: Point,
    tolerance: u64,
    minutes: &mut [u32; MINUTES],
    azimuths: &mut [i64; MINUTES],
) -> Result<Option<usize>, Refusal>
    ensures one_answer { OneAnswer planning_answer (planning date body point tolerance) result }
    ensures minutes_after { minutes.new ≡ minutes_left date body point tolerance minutes.old }
    ensures azimuths_after { azimuths.new ≡ azimuths_left date body point tolerance azimuths.old }
    ensures day_near { DayNear date point }
{
    day_verdict(date, point)?;
    let mut day = [0; MINUTES];
    work(date, body, point, &mut day);
    if !is_possible(&day) {
        return Ok(None);
    }
    let planner = Planner {
        day: &day,
        tolerance,
    };
    Ok(Some(planner.put_points(minutes, azimuths)))
}
