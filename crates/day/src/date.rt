// A day's request: no clock. 1 to 3, then 5 to 9, by the checks that a start and a point have.
ghost use Rattle.std.specs.Prelude.{◌≡◌};
ghost use Rattle.calendar.specs.Refusal.{first, verdict_number};
ghost use Rattle.day.specs.Date.{clock, date_from, day_refusals, days};

use calendar::refusal::Refusal;
use request::point::point_verdict;
use request::start::{Start, date_of, date_verdict, days_in, scale_verdict};
use sky_vectors::station::Point;

// A UTC date in the Gregorian calendar, with UT1 minus UTC and delta-T for all of its minutes, in milliseconds (SECOND to a second).
#[derive(Clone, Copy)]
pub struct Date {
    pub year: i64,
    pub month: i64,
    pub day: i64,
    pub ut1: i64,
    pub delta_t: i64,
}

// From its five numbers, in the order of the fields.
impl From<[i64; 5]> for Date {
    ghost from_gives = { λ numbers date. date ≡ date_from numbers };

    fn from(numbers: [i64; 5]) -> Self {
        let [year, month, day, ut1, delta_t] = numbers;
        Self {
            year,
            month,
            day,
            ut1,
            delta_t,
        }
    }
}

// Its first instant, as a start.
fn midnight(date: Date) -> Start
    ensures { result ≡ clock date 0 0 }
{
    Start {
        year: date.year,
        month: date.month,
        day: date.day,
        hour: 0,
        minute: 0,
        second: 0,
        fraction: 0,
        ut1: date.ut1,
        delta_t: date.delta_t,
    }
}

// Days from 2000-01-01, or 0 where the date is refused.
pub fn days_of(date: Date) -> i64
    ensures { result ≡ days date }
{
    days_in(date_of(midnight(date)))
}

// The first of 1 to 3 and 5 to 9 that applies.
pub fn day_verdict(date: Date, point: Point) -> Result<(), Refusal>
    ensures { verdict_number result ≡ first (day_refusals date point) }
{
    date_verdict(date_of(midnight(date)))?;
    scale_verdict(date.ut1, date.delta_t)?;
    point_verdict(point)
}
