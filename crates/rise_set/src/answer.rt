// The answer to a day's request: its curve into a lent array, and its rise and set, or the one refusal.
ghost use Rattle.std.specs.Prelude.{◌≡◌, length};
ghost use Rattle.day.specs.Curve.{curve, minutes};
ghost use Rattle.day.specs.Date.{day_refusals};
ghost use Rattle.day.specs.Demand3.{DayNear};
ghost use Rattle.calendar.specs.Refusal.{OneAnswer, first};
ghost use Rattle.rise_set.specs.Answer.{crossings, left_in, rise_and_set, rise_set_answer, rise_set_numbers};
ghost use Rattle.rise_set.specs.Claims.{Told};
ghost use Rattle.rise_set.specs.Worked.{up_before_day};

use super::crossing::{Event, first_crossing, is_up};
use calendar::refusal::Refusal;
use day::course::Course;
use day::curve::{MINUTES, fill};
use day::date::{Date, day_verdict};
use sky_vectors::geocentric::Body;
use sky_vectors::station::Point;

// The first minute of each, 0 to 1439, where there is one.
#[derive(Clone, Copy)]
pub struct RiseSet {
    pub rise: Option<u32>,
    pub set: Option<u32>,
}

// 1900-01-01, in days from 2000-01-01: there is no day before it.
const FIRST_DAY: i64 = -36_524;

// Whether the body is up at 23:59 of the day before. Before the first day it counts as at minute 0, so that it crosses nothing there.
fn is_up_before(course: Course, first: i64) -> bool
    ensures { result ≡ up_before_day course.body course.runner course.date course.days first }
{
    if FIRST_DAY < course.days {
        let yesterday = Course {
            body: course.body,
            runner: course.runner,
            date: course.date,
            days: course.days - 1,
        };
        return is_up(yesterday.elevation(MINUTES - 1));
    }
    is_up(first)
}

// The curve and both crossings of an accepted day. What the day has in common is worked once.
fn work(date: Date, body: Body, point: Point, elevations: &mut [i64]) -> RiseSet
    requires day_passes { first (day_refusals date point) ≡ 0 }
    requires elevations_len { length elevations.old ≡ minutes }
    ensures result_value { rise_set_numbers result ≡ crossings date body point }
    ensures elevations_after { elevations.new ≡ curve date body point }
{
    let course = Course::new(date, body, point);
    fill(elevations, |minute| course.elevation(minute));
    let up_before = is_up_before(course, elevations[0]);
    let rise = first_crossing(Event::Rise, up_before, elevations);
    let set = first_crossing(Event::Set, up_before, elevations);
    RiseSet { rise, set }
}

// The curve into a lent array, its entry m the elevation without refraction at minute m, in 10⁻⁸ degree; and the first rise and the first set of the day. Nothing is
// written before the request is judged.
pub fn rise_and_set(
    date: Date,
    body: Body,
    point: Point,
    kept: &mut [i64; MINUTES],
) -> Result<RiseSet, Refusal>
    ensures one_answer { OneAnswer rise_set_answer (rise_and_set date body point) result }
    ensures kept_after { kept.new ≡ left_in (rise_set_answer result) (curve date body point) kept.old }
    ensures day_near { DayNear date point }
    ensures told { Told date body point }
{
    day_verdict(date, point)?;
    Ok(work(date, body, point, kept))
}
