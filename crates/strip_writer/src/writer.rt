// The writer: a strip's octets into a lent buffer, or nothing.
ghost use Rattle.std.specs.Prelude.{◌≡◌, leb, length};
ghost use Rattle.calendar.specs.Refusal.{OneAnswer, first, verdict_number};
ghost use Rattle.strip.specs.Checks.{are_azimuths};
ghost use Rattle.strip.specs.Format.{strip_of, strip_size};
ghost use Rattle.strip_writer.specs.Writing.{left_in, write, write_answer, write_refusals};

use calendar::refusal::{Refusal, StripRefusal, unless};
use octets::fields::{put_alike, put_fields};
use strip::checks::{header_verdict, is_azimuth, steps_of};
use strip::header::{AZIMUTH, HEADER, Header, WIDTHS};

// Whether every number is an azimuth.
fn are_azimuths(azimuths: &[u32]) -> bool
    ensures { result ≡ are_azimuths azimuths.now }
{
    azimuths.iter().all(|azimuth| is_azimuth(*azimuth))
}

// Whether so many azimuths and their header have room. The product is not formed, since it may pass 64 bits.
fn has_room(count: usize, room: usize) -> bool
    ensures { result ≡ leb (strip_size count) room }
{
    HEADER <= room && count <= (room - HEADER) / AZIMUTH
}

// All of the writer's checks, of a buffer of so many octets.
fn write_verdict(header: Header, azimuths: &[u32], room: usize) -> Result<(), Refusal>
    ensures { verdict_number result ≡ first (write_refusals (strip_of header azimuths.now) room) }
{
    header_verdict(header)?;
    unless(
        Refusal::Strip(StripRefusal::Length),
        azimuths.len() == steps_of(header.step),
    )?;
    unless(
        Refusal::Strip(StripRefusal::Azimuth),
        are_azimuths(azimuths),
    )?;
    unless(
        Refusal::Strip(StripRefusal::MeasuredAir),
        header.air.is_none(),
    )?;
    unless(
        Refusal::Strip(StripRefusal::Buffer),
        has_room(azimuths.len(), room),
    )
}

// A strip from the first octet of a buffer on; how many octets it has. The buffer's rest is left alone, and nothing is written before all is judged.
pub fn write(header: Header, azimuths: &[u32], out: &mut [u8]) -> Result<usize, Refusal>
    ensures one_answer { OneAnswer write_answer (write (strip_of header azimuths.now) (length out.old)) result }
    ensures out_after { out.new ≡ left_in (strip_of header azimuths.now) out.old }
{
    write_verdict(header, azimuths, out.len())?;
    let numbers = header.numbers(azimuths.len());
    let next = put_fields(out, 0, &WIDTHS, &numbers);
    Ok(put_alike(out, next, AZIMUTH, azimuths))
}
