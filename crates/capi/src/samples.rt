// A batch of places into two buffers that the caller lends, at offsets in milliseconds.
ghost use Rattle.std.specs.Prelude.{◌≡◌};
ghost use Rattle.capi.specs.Answers.{azimuths_left, batch_told, coded_batch, elevations_left, told_of_batch};

use batch::samples::places_at;
use boundary::codes::read_body;
use boundary::fault::Fault;
use request::start::Start;
use sky_vectors::station::Point;

// The index of the first bad offset (13) and the count are told; any other refusal writes nothing.
#[unsafe(no_mangle)]
pub extern "C" fn raddlehue_batch_ms(
    start: &[i64; 9],
    body: u32,
    point: &[i64; 3],
    offsets: &[u32],
    azimuths: &mut [i64],
    elevations: &mut [i64],
    told: &mut [u64; 2],
) -> u32
    ensures value { result ≡ (coded_batch start.now body point.now offsets.now azimuths.old elevations.old).refusal }
    ensures told_after { told.new ≡ told_of_batch (coded_batch start.now body point.now offsets.now azimuths.old elevations.old) told.old }
    ensures azimuths_after { azimuths.new ≡ azimuths_left start.now body point.now offsets.now azimuths.old elevations.old }
    ensures elevations_after { elevations.new ≡ elevations_left start.now body point.now offsets.now azimuths.old elevations.old }
{
    match sampled(start, body, point, offsets, azimuths, elevations) {
        Ok(count) => {
            *told = [0, count as u64];
            0
        }
        Err(fault) => {
            if let Fault::Late(index) = fault {
                *told = [index as u64, 0];
            }
            fault.number()
        }
    }
}

fn sampled(
    start: &[i64; 9],
    body: u32,
    point: &[i64; 3],
    offsets: &[u32],
    azimuths: &mut [i64],
    elevations: &mut [i64],
) -> Result<usize, Fault>
    ensures answer { batch_told result ≡ coded_batch start.now body point.now offsets.now azimuths.old elevations.old }
    ensures azimuths_after { azimuths.new ≡ azimuths_left start.now body point.now offsets.now azimuths.old elevations.old }
    ensures elevations_after { elevations.new ≡ elevations_left start.now body point.now offsets.now azimuths.old elevations.old }
{
    let body = read_body(body)?;
    let count = places_at(
        Start::from(*start),
        body,
        Point::from(*point),
        offsets,
        azimuths,
        elevations,
    )?;
    Ok(count)
}
