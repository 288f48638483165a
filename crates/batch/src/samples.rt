// A batch of places into two lent buffers: nothing is written before every offset is judged.
ghost use Rattle.std.specs.Prelude.{◌≡◌, ◌≤◌, ◌^◌, nat_abs, length, position, ◌&&◌, leb};
ghost use Rattle.calendar.specs.Refusal.{OneAnswer, ◌unless◌, verdict_number};
ghost use Rattle.batch.specs.Demand3.{SamplesNear};
ghost use Rattle.request.specs.Request.{instant};
ghost use Rattle.sky_vectors.specs.SkyRange.{Reachable, Standing};
ghost use Rattle.batch.specs.Batch.{AllReachable, batch_answer, is_late, batch, later, filled, azimuth_at, elevation_at, azimuth_from, elevation_from, left_in};
ghost use Rattle.batch.specs.declared.samples.BatchRefusal.TheVariants as Refusals;

use arctangent::direction::{MARK, angle_or};
use calendar::refusal::{Refusal, unless};
use request::point::point_verdict;
use request::start::{Start, instant_of, moved, start_verdict, utc_of};
use sky_vectors::geocentric::Body;
use sky_vectors::place::place_from;
use sky_vectors::station::{Point, Runner, runner_at};
use sum_rules::instant::{DAY, Instant};

// Why a batch is refused: one of 1 to 9 or 12, or the index of the first bad offset (13).
#[derive(Clone, Copy)]
pub enum BatchRefusal {
    Request(Refusal),
    Late(usize),
}

impl From<Refusal> for BatchRefusal {
    ghost from_gives = { λ refusal of_batch. of_batch ≡ Refusals.Request refusal };

    fn from(refusal: Refusal) -> Self {
        BatchRefusal::Request(refusal)
    }
}

// The last unit of 2100, from the first instant of 2000.
const LAST_MOMENT: i64 = (36_890 * DAY) as i64 - 1;

fn is_late(start: i64, offset: u32) -> bool
    requires { nat_abs start ≤ 2 ^ 60 }
    ensures { result ≡ is_late start offset }
{
    LAST_MOMENT < start + offset as i64
}

// The first bad index.
fn first_late(start: i64, offsets: &[u32]) -> Option<usize>
    requires { nat_abs start ≤ 2 ^ 60 }
    ensures { result ≡ position (is_late start) offsets.now }
{
    offsets.iter().position(|offset| is_late(start, *offset))
}

// 12, where a buffer is shorter than the list.
fn room_verdict(count: usize, azimuths: usize, elevations: usize) -> Result<(), Refusal>
    ensures { verdict_number result ≡ 12 unless (leb count azimuths && leb count elevations) }
{
    unless(
        Refusal::ShortBuffer,
        count <= azimuths && count <= elevations,
    )
}

fn later(start: Instant, offset: u32) -> Instant
    requires { Reachable (later start offset) }
    ensures { result ≡ later start offset }
{
    moved(start, offset as i64)
}

// Entry i is the place at offset i, and the mark stands for an absent azimuth. Every instant is accepted and both buffers are long enough.
// Both are written by index: a zip of the two would hold them as iterators, and the proof of what it leaves past the offsets did not close.
fn fill(
    body: Body,
    runner: Runner,
    start: Instant,
    offsets: &[u32],
    azimuths: &mut [i64],
    elevations: &mut [i64],
)
    requires within_reach { Standing runner × AllReachable start offsets.now }
    requires offsets_in_bounds { (length offsets.now ≤ length azimuths.old) × (length offsets.now ≤ length elevations.old) }
    ensures azimuths_after { azimuths.new ≡ filled (azimuth_from body runner start) offsets.now azimuths.old }
    ensures elevations_after { elevations.new ≡ filled (elevation_from body runner start) offsets.now elevations.old }
{
    for (i, offset) in offsets.iter().enumerate() {
        let place = place_from(body, runner, later(start, *offset));
        azimuths[i] = angle_or(MARK, place.azimuth);
        elevations[i] = place.elevation;
    }
}

// How many places, at a start plus each offset: azimuths and elevations (without refraction) in 10⁻⁸ degree.
// C lends two buffers, each of its own length.
pub fn places_at(
    start: Start,
    body: Body,
    point: Point,
    offsets: &[u32],
    azimuths: &mut [i64],
    elevations: &mut [i64],
) -> Result<usize, BatchRefusal>
    ensures one_answer { OneAnswer batch_answer (batch start point offsets.now (length azimuths.old) (length elevations.old)) result }
    ensures azimuths_after { azimuths.new ≡ left_in (batch_answer result) (azimuth_at body point (instant start)) offsets.now azimuths.old }
    ensures elevations_after { elevations.new ≡ left_in (batch_answer result) (elevation_at body point (instant start)) offsets.now elevations.old }
    ensures samples_near { SamplesNear start point offsets.now (length azimuths.old) (length elevations.old) }
{
    start_verdict(start)?;
    point_verdict(point)?;
    room_verdict(offsets.len(), azimuths.len(), elevations.len())?;
    if let Some(late) = first_late(utc_of(start), offsets) {
        return Err(BatchRefusal::Late(late));
    }
    let runner = runner_at(point);
    fill(
        body,
        runner,
        instant_of(start),
        offsets,
        azimuths,
        elevations,
    );
    Ok(offsets.len())
}
