// The reader: the header's fields by value, and the azimuth of a step by its index. The octets stay where they are.
ghost use Rattle.std.specs.Prelude.{true, ◌≡◌, ◌≤◌, length};
ghost use Rattle.calendar.specs.Refusal.{OneAnswer, first, verdict_number};
ghost use Rattle.strip.specs.Checks.{are_azimuths, is_step};
ghost use Rattle.strip.specs.Format.{azimuths_in, fields, header_in, header_size};
ghost use Rattle.strip_reader.specs.Reading.{are_codes, azimuth_at, part_refusals, read, read_answer, read_refusals};

use calendar::refusal::{Refusal, StripRefusal, unless};
use octets::number::number_at;
use strip::checks::{ABSENT, FULL_TURN, header_verdict, is_azimuth, steps_of};
use strip::header::{AZIMUTH, FIELDS, HEADER, Header, LENGTH, VERSION, fields_in};

// There is no such step, or a number that is no azimuth.
#[derive(Clone, Copy)]
pub enum StepRefusal {
    NoStep,
    NoAzimuth,
}

// Whether every four octets of a part are an azimuth.
fn are_azimuths(part: &[u8]) -> bool
    ensures { result ≡ are_azimuths (azimuths_in part.now) }
{
    part.chunks_exact(AZIMUTH)
        .all(|octets| is_azimuth(number_at(octets, 0, AZIMUTH)))
}

// The octets that air and body have: 0 or 1.
fn are_codes(air: u32, body: u32) -> bool
    ensures { result ≡ are_codes air body }
{
    air <= 1 && body <= 1
}

// 20 against the step, then 26, of the azimuth octets; the step has passed.
fn step_verdict(part: &[u8], stated: usize, step: i64) -> Result<(), Refusal>
    requires { is_step step ≡ true }
    ensures { verdict_number result ≡ first (part_refusals part.now stated step) }
{
    unless(
        Refusal::Strip(StripRefusal::Length),
        stated == HEADER - LENGTH + AZIMUTH * steps_of(step),
    )?;
    unless(Refusal::Strip(StripRefusal::Azimuth), are_azimuths(part))
}

// All of the reader's checks, of a strip that has the octets of a header.
fn read_verdict(strip: &[u8], numbers: &[u32; FIELDS], header: Header) -> Result<(), Refusal>
    requires header_size_in_bounds { header_size ≤ length strip.now }
    requires numbers_value { (numbers.now ≡ fields strip.now) × (header ≡ header_in (fields strip.now)) }
    ensures { verdict_number result ≡ first (read_refusals strip.now) }
{
    let stated = numbers[0] as usize;
    unless(
        Refusal::Strip(StripRefusal::Length),
        stated == strip.len() - LENGTH,
    )?;
    unless(Refusal::Strip(StripRefusal::Version), numbers[1] == VERSION)?;
    unless(
        Refusal::Strip(StripRefusal::AirOrBody),
        are_codes(numbers[2], numbers[3]),
    )?;
    header_verdict(header)?;
    step_verdict(&strip[HEADER..], stated, header.step)
}

// What a strip says beside its azimuths, which are judged and stay where they are; or the first refusal.
pub fn read(strip: &[u8]) -> Result<Header, Refusal>
    ensures { OneAnswer read_answer (read strip.now) result }
{
    if strip.len() < HEADER {
        return Err(Refusal::Strip(StripRefusal::Length));
    }
    let numbers = fields_in(strip);
    let header = Header::from(numbers);
    read_verdict(strip, &numbers, header)?;
    Ok(header)
}

// The azimuth of a step, counted from 0, in the azimuth octets of a strip, in 10⁻⁷ degree, or none. Any octets may be asked.
pub fn azimuth_at(part: &[u8], step: usize) -> Result<Option<u32>, StepRefusal>
    ensures { result ≡ azimuth_at part.now step }
{
    if part.len() / AZIMUTH <= step {
        return Err(StepRefusal::NoStep);
    }
    let number = number_at(part, AZIMUTH * step, AZIMUTH);
    if number < FULL_TURN {
        return Ok(Some(number));
    }
    if number == ABSENT {
        return Ok(None);
    }
    Err(StepRefusal::NoAzimuth)
}
