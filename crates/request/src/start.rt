// A start, the checks 1 to 6 on it, and its instant.
ghost use Rattle.std.specs.Prelude.{◌≡◌, true};
ghost use Rattle.calendar.specs.DayCount.{count_answer};
ghost use Rattle.calendar.specs.Refusal.{OneAnswer, first, verdict_number};
ghost use Rattle.sky_vectors.specs.SkyRange.{Reachable};
ghost use Rattle.request.specs.Request.{date, is_clock, date_refusals, clock_refusals, scale_refusals, start_refusals, elapsed, utc, instant, moved, start_from};

use calendar::day_count::day_count;
use calendar::refusal::{Refusal, unless};
use numbers::whole::is_between;
use sum_rules::instant::{DAY, Instant, SECOND};
use sum_terms::instant::instant_at;

// UTC in the Gregorian calendar, UT1 minus UTC, and delta-T. The last three count milliseconds (SECOND to a second).
#[derive(Clone, Copy)]
pub struct Start {
    pub year: i64,
    pub month: i64,
    pub day: i64,
    pub hour: i64,
    pub minute: i64,
    pub second: i64,
    pub fraction: i64,
    pub ut1: i64,
    pub delta_t: i64,
}

// From its nine numbers, in the order of the fields.
impl From<[i64; 9]> for Start {
    ghost from_gives = { λ numbers start. start ≡ start_from numbers };

    fn from(numbers: [i64; 9]) -> Self {
        Self {
            year: numbers[0],
            month: numbers[1],
            day: numbers[2],
            hour: numbers[3],
            minute: numbers[4],
            second: numbers[5],
            fraction: numbers[6],
            ut1: numbers[7],
            delta_t: numbers[8],
        }
    }
}

// The last UT1 minus UTC and delta-T that are accepted, either way.
const UT1: i64 = (9 * SECOND / 10) as i64;

const DELTA_T: i64 = (8_000 * SECOND) as i64;

pub fn date_of(start: Start) -> Result<i64, Refusal>
    ensures { OneAnswer count_answer (date start) result }
{
    day_count(start.year, start.month, start.day)
}

// 1 to 3.
pub fn date_verdict(date: Result<i64, Refusal>) -> Result<(), Refusal>
    ensures { verdict_number result ≡ first (date_refusals (count_answer date)) }
{
    date.map(|_| ())
}

// Days from 2000-01-01, or 0 where the date is refused.
pub fn days_in(date: Result<i64, Refusal>) -> i64
    ensures { result ≡ (count_answer date).days }
{
    date.unwrap_or(0)
}

fn is_clock(start: Start) -> bool
    ensures { result ≡ is_clock start }
{
    is_between(0, start.hour, 23)
        && is_between(0, start.minute, 59)
        && is_between(0, start.second, 59)
        && is_between(0, start.fraction, SECOND as i64 - 1)
}

// 4.
fn clock_verdict(start: Start) -> Result<(), Refusal>
    ensures { verdict_number result ≡ first (clock_refusals start) }
{
    unless(Refusal::Clock, is_clock(start))
}

// 5 and 6.
pub fn scale_verdict(ut1: i64, delta_t: i64) -> Result<(), Refusal>
    ensures { verdict_number result ≡ first (scale_refusals ut1 delta_t) }
{
    unless(Refusal::Ut1, is_between(-UT1, ut1, UT1))?;
    unless(Refusal::DeltaT, is_between(-DELTA_T, delta_t, DELTA_T))
}

// The first of 1 to 6 that applies.
pub fn start_verdict(start: Start) -> Result<(), Refusal>
    ensures { verdict_number result ≡ first (start_refusals start) }
{
    date_verdict(date_of(start))?;
    clock_verdict(start)?;
    scale_verdict(start.ut1, start.delta_t)
}

// Units of the day that have passed.
fn elapsed_of(start: Start) -> i64
    requires { is_clock start ≡ true }
    ensures { result ≡ elapsed start }
{
    ((start.hour * 60 + start.minute) * 60 + start.second) * SECOND as i64 + start.fraction
}

// Units from the first instant of 2000, UTC, of an accepted start. That it is accepted is a clause, not a type of its own: the pages name this and `instant_of` as functions of any start.
pub fn utc_of(start: Start) -> i64
    requires { first (start_refusals start) ≡ 0 }
    ensures { result ≡ utc start }
{
    DAY as i64 * days_in(date_of(start)) + elapsed_of(start)
}

// UT and TT of an accepted start.
pub fn instant_of(start: Start) -> Instant
    requires { first (start_refusals start) ≡ 0 }
    ensures { result ≡ instant start }
{
    instant_at(
        days_in(date_of(start)),
        elapsed_of(start),
        start.ut1,
        start.delta_t,
    )
}

// So many units from an instant, before it where they are below zero.
pub fn moved(start: Instant, units: i64) -> Instant
    requires { Reachable (moved start units) }
    ensures { result ≡ moved start units }
{
    let ut = start.ut + units;
    let tt = start.tt + units;
    Instant { ut, tt }
}
