// The minutes of a day, and the curve of a number at them.
ghost use Rattle.std.specs.Prelude.{◌≡◌, ◌<◌, ℕ, length};
ghost use Rattle.sky_vectors.specs.Place.{place_from};
ghost use Rattle.sky_vectors.specs.SkyRange.{Reachable, Standing};
ghost use Rattle.day.specs.Curve.{AcceptedDay, EachMinute, minute_of, minutes};

use super::date::Date;
use numbers::angle::Angle;
use sky_vectors::geocentric::Body;
use sky_vectors::horizon::{azimuth, elevation, horizon_at};
use sky_vectors::place::direction_at;
use sky_vectors::station::Runner;
use sum_rules::instant::{Instant, SECOND};
use sum_terms::instant::instant_at;

// Units of time to a minute.
const MINUTE: i64 = (60 * SECOND) as i64;

// The minutes of a day.
pub const MINUTES: usize = 1440;

// Minute m of the day so many days from 2000-01-01, at its first instant.
pub fn minute_of(date: Date, days: i64, minute: usize) -> Instant
    requires { AcceptedDay date days × (minute < minutes) }
    ensures { result ≡ minute_of date days minute }
{
    instant_at(days, minute as i64 * MINUTE, date.ut1, date.delta_t)
}

// The elevation without refraction; the azimuth is not worked.
pub fn elevation_from(body: Body, runner: Runner, instant: Instant) -> i64
    requires { Standing runner × Reachable instant }
    ensures { result ≡ (place_from body runner instant).elevation }
{
    let latitude = runner.latitude;
    elevation(horizon_at(latitude, direction_at(body, runner, instant)))
}

// The azimuth; the elevation is not worked.
pub fn azimuth_from(body: Body, runner: Runner, instant: Instant) -> Option<Angle>
    requires { Standing runner × Reachable instant }
    ensures { result ≡ (place_from body runner instant).azimuth }
{
    let latitude = runner.latitude;
    azimuth(horizon_at(latitude, direction_at(body, runner, instant)))
}

// Entry m is the number at minute m.
pub fn fill<F: Fn(usize) -> i64>(curve: &mut [i64], at: F)
    requires curve_len { length curve.old ≡ minutes }
    requires callable { (m : ℕ) → m < minutes → F.pre at m }
    ensures { EachMinute (F.post at) curve.new }
{
    for (minute, entry) in curve.iter_mut().enumerate() {
        *entry = at(minute);
    }
}
