// The day count of a Gregorian date.
ghost use Rattle.std.specs.Prelude.{◌≡◌, ◌≤◌};
ghost use Rattle.number_rules.specs.Calendar.{leap, month_length, days_to_year, days_to_month, day_count};
ghost use Rattle.calendar.specs.DayCount.{count_answer};
ghost use Rattle.calendar.specs.Refusal.{OneAnswer};

use super::refusal::Refusal;

fn is_leap(y: u64) -> bool
    ensures { result ≡ leap y }
{
    if y % 400 == 0 {
        return true;
    }
    if y % 100 == 0 {
        return false;
    }
    y % 4 == 0
}

fn month_length(y: u64, m: u64) -> u64
    requires { (1 ≤ m) × (m ≤ 12) }
    ensures { result ≡ month_length y m }
{
    if m == 2 {
        if is_leap(y) { 29 } else { 28 }
    } else {
        30 + (m + m / 8) % 2
    }
}

// The days of the years from 0 on that lie before y.
fn days_to_year(y: u64) -> u64
    requires { y ≤ 10_000 }
    ensures { result ≡ days_to_year y }
{
    365 * y + (y + 3) / 4 + (y + 399) / 400 - (y + 99) / 100
}

// The days of a year that lie before its month m.
fn days_to_month(y: u64, m: u64) -> u64
    requires { (1 ≤ m) × (m ≤ 12) }
    ensures { result ≡ days_to_month y m }
{
    let n = (367 * m - 362) / 12;
    if m <= 2 {
        return n;
    }
    if is_leap(y) {
        return n - 1;
    }
    n - 2
}

// The first year that is counted.
const FIRST_YEAR: i64 = 1900;

// For any numbers whatever: days from 2000-01-01, or the first refusal that applies, year (1), month (2) or day (3).
pub fn day_count(year: i64, month: i64, day: i64) -> Result<i64, Refusal>
    ensures { OneAnswer count_answer (day_count year month day) result }
{
    if year < FIRST_YEAR {
        return Err(Refusal::Year);
    }
    if 2100 < year {
        return Err(Refusal::Year);
    }
    if month < 1 {
        return Err(Refusal::Month);
    }
    if 12 < month {
        return Err(Refusal::Month);
    }
    let y = year as u64;
    let m = month as u64;
    if day < 1 {
        return Err(Refusal::Day);
    }
    let d = day as u64;
    if month_length(y, m) < d {
        return Err(Refusal::Day);
    }
    let n = days_to_year(y) + days_to_month(y, m) + d;
    let days = n as i64 - 730_486;
    Ok(days)
}
