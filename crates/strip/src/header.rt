// What a strip says beside its azimuths, and the ten numbers that say it.
ghost use Rattle.std.specs.Prelude.{◌≡◌, ◌≤◌, length};
ghost use Rattle.calendar.specs.Refusal.{first};
ghost use Rattle.day.specs.Curve.{minutes};
ghost use Rattle.strip.specs.Checks.{header_refusals};
ghost use Rattle.strip.specs.Format.{body_in, fields, header_in, header_numbers, header_size};

use super::air::{StripAir, WRITTEN_AIR};
use octets::fields::read_fields;
use sky_vectors::geocentric::Body;

// Longitude and latitude in 10⁻⁷ degree, east and north positive; the step in minutes.
#[derive(Clone, Copy)]
pub struct Header {
    pub air: StripAir,
    pub body: Body,
    pub year: i64,
    pub month: i64,
    pub day: i64,
    pub longitude: i64,
    pub latitude: i64,
    pub step: i64,
}

// Length, version, air, body, year, month, day, longitude, latitude, step.
pub const FIELDS: usize = 10;

// The octets of each.
pub const WIDTHS: [usize; FIELDS] = [2, 1, 1, 1, 2, 1, 1, 4, 4, 1];

// The octets of all of them, and of an azimuth.
pub const HEADER: usize = 18;

pub const AZIMUTH: usize = 4;

// What the length does not count: its own octets.
pub const LENGTH: usize = 2;

pub const VERSION: u32 = 1;

// The body of an octet. No From: neither type is of this crate, and in that of Body an octet means nothing.
fn body_in(byte: u32) -> Body
    ensures { result ≡ body_in byte }
{
    if byte == 0 { Body::Sun } else { Body::Moon }
}

// The ten numbers of a strip's header.
pub fn fields_in(strip: &[u8]) -> [u32; FIELDS]
    requires { header_size ≤ length strip.now }
    ensures { result ≡ fields strip.now }
{
    let mut numbers = [0; FIELDS];
    read_fields(strip, &WIDTHS, &mut numbers);
    numbers
}

// What ten numbers say. Longitude and latitude are in two's complement.
impl From<[u32; FIELDS]> for Header {
    ghost from_gives = { λ numbers header. header ≡ header_in numbers };

    fn from(numbers: [u32; FIELDS]) -> Header {
        let [_, _, air, body, year, month, day, longitude, latitude, step] = numbers;
        Header {
            air: StripAir::from(air),
            body: body_in(body),
            year: i64::from(year),
            month: i64::from(month),
            day: i64::from(day),
            longitude: i64::from(longitude.cast_signed()),
            latitude: i64::from(latitude.cast_signed()),
            step: i64::from(step),
        }
    }
}

impl Header {
    // The ten numbers that say it, with so many azimuths behind them.
    pub fn numbers(self, count: usize) -> [u32; FIELDS]
        requires { (first (header_refusals self) ≡ 0) × (count ≤ minutes) }
        ensures { result ≡ header_numbers self count }
    {
        [
            (HEADER - LENGTH + AZIMUTH * count) as u32,
            VERSION,
            WRITTEN_AIR,
            self.body as u32,
            self.year as u32,
            self.month as u32,
            self.day as u32,
            (self.longitude as i32).cast_unsigned(),
            (self.latitude as i32).cast_unsigned(),
            self.step as u32,
        ]
    }
}
