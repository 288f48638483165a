// Day strips: read, an azimuth by its index, written, and looked up.
ghost use Rattle.std.specs.Prelude.{◌≡◌, ◌≤◌, [], ◌∷◌, length};
ghost use Rattle.boundary.specs.Fault.{Told};
ghost use Rattle.boundary.specs.Lent.{header_parts, header_values};
ghost use Rattle.strip.specs.Format.{azimuth_part, header_size};
ghost use Rattle.strip_reader.specs.Lookup.{which};
ghost use Rattle.strip_reader.specs.Reading.{azimuth_at, read};
ghost use Rattle.capi.specs.Answers.{Answered, written, written_one};
ghost use Rattle.capi.specs.Strips.{azimuth_number, azimuth_refusal, coded_write, header_measured, octets_left, part_values};

use boundary::fault::{Fault, put, put_both};
use boundary::given::read_header;
use boundary::lent::header_parts;
use strip::checks::ABSENT;
use strip::header::HEADER;
use strip_reader::lookup::{Bearer, CivilDate, which};
use strip_reader::reader::{azimuth_at, read};
use strip_writer::writer::write;

// The header's fields, and what its air was measured at; the azimuths are judged, and stay where they are.
#[unsafe(no_mangle)]
pub extern "C" fn raddlehue_strip_read(
    octets: &[u8],
    strip: &mut [i64; 8],
    measured: &mut [f64; 2],
) -> u32
    ensures value { result ≡ (read octets.now).refusal }
    ensures strip_after { strip.new ≡ written header_values (read octets.now) strip.old }
    ensures measured_after { measured.new ≡ written header_measured (read octets.now) measured.old }
{
    put_both(strip, measured, header(octets))
}

// In 10⁻⁷ degree, or the mark of an absent one.
#[unsafe(no_mangle)]
pub extern "C" fn raddlehue_strip_azimuth(part: &[u8], step: u64, azimuth: &mut u32) -> u32
    ensures value { result ≡ azimuth_refusal (azimuth_at part.now step) }
    ensures azimuth_after { azimuth.new ≡ written_one (azimuth_refusal (azimuth_at part.now step)) (azimuth_number (azimuth_at part.now step)) azimuth.old }
{
    put(azimuth, azimuth_of(part, step))
}

// How many octets were written is told.
#[unsafe(no_mangle)]
pub extern "C" fn raddlehue_strip_write(
    strip: &[i64; 8],
    azimuths: &[u32],
    octets: &mut [u8],
    count: &mut u64,
) -> u32
    ensures value { result ≡ (coded_write strip.now azimuths.now octets.old).refusal }
    ensures octets_after { octets.new ≡ octets_left strip.now azimuths.now octets.old }
    ensures count_after { count.new ≡ written (λ n. n) (coded_write strip.now azimuths.now octets.old) count.old }
{
    put(count, filled(strip, azimuths, octets))
}

// Which strip, 1 or 2, and where its azimuth octets begin and how many there are.
#[unsafe(no_mangle)]
pub extern "C" fn raddlehue_strip_find(
    first: &[u8],
    second: &[u8],
    year: i64,
    month: i64,
    day: i64,
    part: &mut [u64; 3],
) -> u32
    ensures value { result ≡ (which first.now second.now year month day).refusal }
    ensures part_after { part.new ≡ written (part_values first.now second.now) (which first.now second.now year month day) part.old }
{
    put(part, found(first, second, year, month, day))
}

fn header(octets: &[u8]) -> Result<([i64; 8], [f64; 2]), Fault>
    ensures { Answered header_parts (read octets.now) result }
{
    let header = read(octets)?;
    Ok(header_parts(header))
}

fn azimuth_of(part: &[u8], step: u64) -> Result<u32, Fault>
    ensures { Told (λ n. n) (azimuth_refusal (azimuth_at part.now step)) (azimuth_number (azimuth_at part.now step)) result }
{
    let azimuth = azimuth_at(part, step as usize)?;
    Ok(azimuth.unwrap_or(ABSENT))
}

fn filled(strip: &[i64; 8], azimuths: &[u32], octets: &mut [u8]) -> Result<u64, Fault>
    ensures answer { Answered (λ n. n) (coded_write strip.now azimuths.now octets.old) result }
    ensures octets_after { octets.new ≡ octets_left strip.now azimuths.now octets.old }
{
    let header = read_header(*strip)?;
    let size = write(header, azimuths, octets)?;
    Ok(size as u64)
}

// Which strip it is, and where its azimuths stand.
fn part_of(number: u64, strip: &[u8]) -> [u64; 3]
    requires { header_size ≤ length strip.now }
    ensures { result ≡ number ∷ header_size ∷ length (azimuth_part strip.now) ∷ [] }
{
    [number, HEADER as u64, (strip.len() - HEADER) as u64]
}

fn found(first: &[u8], second: &[u8], year: i64, month: i64, day: i64) -> Result<[u64; 3], Fault>
    ensures { Answered (part_values first.now second.now) (which first.now second.now year month day) result }
{
    match which(first, second, CivilDate { year, month, day })? {
        Bearer::First => Ok(part_of(1, first)),
        Bearer::Second => Ok(part_of(2, second)),
    }
}
