// The place of a body, and the place as it is shown: the answer to any request, or the one refusal.
ghost use Rattle.std.specs.Prelude.{◌≡◌};
ghost use Rattle.calendar.specs.Refusal.{OneAnswer, first, verdict_number};
ghost use Rattle.sky.specs.Answer.{place_answer, shown_answer, request_refusals, place, shown_place};
ghost use Rattle.sky.specs.Demand3.{PlaceNear};

use super::shown::{Shown, shown_at};
use calendar::refusal::Refusal;
use refraction::air::{Air, air_verdict};
use request::point::point_verdict;
use request::start::{Start, instant_of, start_verdict};
use sky_vectors::geocentric::Body;
use sky_vectors::place::{Place, place_at};
use sky_vectors::station::Point;

// The first of 1 to 11 that applies. The parts of a request are no struct: each caller asks once, and would make it for that call.
fn request_verdict(start: Start, point: Point, air: Option<Air>) -> Result<(), Refusal>
    ensures { verdict_number result ≡ first (request_refusals start point air) }
{
    start_verdict(start)?;
    point_verdict(point)?;
    air_verdict(air)
}

// Azimuth from north over east, and elevation without refraction, in 10⁻⁸ degree. The air is only judged.
pub fn place(start: Start, body: Body, point: Point, air: Option<Air>) -> Result<Place, Refusal>
    ensures one_answer { OneAnswer place_answer (place start body point air) result }
    ensures place_near { PlaceNear start body point air }
{
    request_verdict(start, point, air)?;
    Ok(place_at(body, point, instant_of(start)))
}

// Azimuth from north over east, elevation with refraction, and the refraction, in degrees.
pub fn shown_place(
    start: Start,
    body: Body,
    point: Point,
    air: Option<Air>,
) -> Result<Shown, Refusal>
    ensures one_answer { OneAnswer shown_answer (shown_place start body point air) result }
    ensures place_near { PlaceNear start body point air }
{
    let seen = place(start, body, point, air)?;
    Ok(shown_at(air, seen))
}
