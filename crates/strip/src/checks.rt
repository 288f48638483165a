// The checks that reader and writer have in common: 23 to 25, and what an azimuth of a strip is.
ghost use Rattle.std.specs.Prelude.{true, ◌≡◌};
ghost use Rattle.calendar.specs.Refusal.{first, verdict_number};
ghost use Rattle.strip.specs.Checks.{header_refusals, is_azimuth, is_date, is_point, is_step, steps};

use super::header::Header;
use calendar::day_count::day_count;
use calendar::refusal::{Refusal, StripRefusal, unless};
use day::curve::MINUTES;
use request::point::point_verdict;
use sky_vectors::station::Point;

// The first number that is no azimuth, and the mark of an absent one, as the octets of a strip have them; who reads them gives an Option.
pub const FULL_TURN: u32 = 3_600_000_000;

pub const ABSENT: u32 = 4_294_967_295;

// A date of 01's.
fn is_date(header: Header) -> bool
    ensures { result ≡ is_date header }
{
    day_count(header.year, header.month, header.day).is_ok()
}

// A longitude and a latitude of 01's, at any height.
fn is_point(header: Header) -> bool
    ensures { result ≡ is_point header }
{
    point_verdict(Point::from([header.longitude, header.latitude, 0])).is_ok()
}

// 1, 2, 5 or 10 minutes.
pub fn is_step(step: i64) -> bool
    ensures { result ≡ is_step step }
{
    matches!(step, 1 | 2 | 5 | 10)
}

// How many steps a day has.
pub fn steps_of(step: i64) -> usize
    requires { is_step step ≡ true }
    ensures { result ≡ steps step }
{
    MINUTES / step as usize
}

// The first of 23 to 25 that applies.
pub fn header_verdict(header: Header) -> Result<(), Refusal>
    ensures { verdict_number result ≡ first (header_refusals header) }
{
    unless(Refusal::Strip(StripRefusal::Date), is_date(header))?;
    unless(Refusal::Strip(StripRefusal::Point), is_point(header))?;
    unless(Refusal::Strip(StripRefusal::Step), is_step(header.step))
}

// Below a full turn, or absent.
pub fn is_azimuth(number: u32) -> bool
    ensures { result ≡ is_azimuth number }
{
    number < FULL_TURN || number == ABSENT
}
