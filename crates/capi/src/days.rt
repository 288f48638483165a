// A day: its curve into an array that the caller lends, and its rise and set.
ghost use Rattle.std.specs.Prelude.{◌≡◌};
ghost use Rattle.boundary.specs.Lent.{rise_set_values};
ghost use Rattle.boundary.specs.Codes.{body_of};
ghost use Rattle.day.specs.Curve.{curve};
ghost use Rattle.day.specs.Date.{date_from};
ghost use Rattle.sky_vectors.specs.Station.{point_from};
ghost use Rattle.capi.specs.Answers.{Answered, written, written_one};
ghost use Rattle.capi.specs.RiseSet.{coded_rise_set};

use boundary::codes::read_body;
use boundary::fault::{Fault, put};
use boundary::lent::rise_set_parts;
use day::date::Date;
use rise_set::answer::rise_and_set;
use sky_vectors::station::Point;

// Elevations without refraction in 10⁻⁸ degree, minute by minute of the UTC date.
#[unsafe(no_mangle)]
pub extern "C" fn raddlehue_day(
    date: &[i64; 5],
    body: u32,
    point: &[i64; 3],
    elevations: &mut [i64; 1440],
    rise_set: &mut [u32; 4],
) -> u32
    ensures value { result ≡ (coded_rise_set date.now body point.now).refusal }
    ensures elevations_after { elevations.new ≡ written_one (coded_rise_set date.now body point.now).refusal (curve (date_from date.now) (body_of body) (point_from point.now)) elevations.old }
    ensures rise_set_after { rise_set.new ≡ written rise_set_values (coded_rise_set date.now body point.now) rise_set.old }
{
    put(rise_set, risen(date, body, point, elevations))
}

fn risen(
    date: &[i64; 5],
    body: u32,
    point: &[i64; 3],
    elevations: &mut [i64; 1440],
) -> Result<[u32; 4], Fault>
    ensures answer { Answered rise_set_values (coded_rise_set date.now body point.now) result }
    ensures elevations_after { elevations.new ≡ written_one (coded_rise_set date.now body point.now).refusal (curve (date_from date.now) (body_of body) (point_from point.now)) elevations.old }
{
    let body = read_body(body)?;
    let seen = rise_and_set(Date::from(*date), body, Point::from(*point), elevations)?;
    Ok(rise_set_parts(seen))
}
