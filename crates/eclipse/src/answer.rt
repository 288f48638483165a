// The eclipse as the answer to any request, or the one refusal.
ghost use Rattle.calendar.specs.Refusal.{OneAnswer};
ghost use Rattle.eclipse.specs.Answer.{eclipse_answer, solar_eclipse};
ghost use Rattle.eclipse.specs.Demand3.{EclipseNear};

use super::disks::{Eclipse, eclipse_at};
use calendar::refusal::Refusal;
use request::point::point_verdict;
use request::start::{Start, instant_of, start_verdict};
use sky_vectors::station::Point;

// How far the Moon stands from the Sun, how large both are, and how much of the Sun is covered. The first of 1 to 9 that applies.
pub fn solar_eclipse(start: Start, point: Point) -> Result<Eclipse, Refusal>
    ensures one_answer { OneAnswer eclipse_answer (solar_eclipse start point) result }
    ensures eclipse_near { EclipseNear start point }
{
    start_verdict(start).and(point_verdict(point))?;
    Ok(eclipse_at(point, instant_of(start)))
}
