// The checks 7 to 9 on a point.
ghost use Rattle.std.specs.Prelude.{◌≡◌};
ghost use Rattle.calendar.specs.Refusal.{first, verdict_number};
ghost use Rattle.request.specs.Request.{point_refusals};

use calendar::refusal::{Refusal, unless};
use numbers::whole::is_between;
use sky_vectors::station::{HIGHEST_HEIGHT, LATITUDE_LIMIT, LONGITUDE_LIMIT, LOWEST_HEIGHT, Point};

// The first of 7 to 9 that applies.
pub fn point_verdict(point: Point) -> Result<(), Refusal>
    ensures { verdict_number result ≡ first (point_refusals point) }
{
    unless(
        Refusal::Longitude,
        is_between(-LONGITUDE_LIMIT, point.longitude, LONGITUDE_LIMIT),
    )?;
    unless(
        Refusal::Latitude,
        is_between(-LATITUDE_LIMIT, point.latitude, LATITUDE_LIMIT),
    )?;
    unless(
        Refusal::Height,
        is_between(LOWEST_HEIGHT, point.height, HIGHEST_HEIGHT),
    )
}
