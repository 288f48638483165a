// A strip's header as C hands it over: its numbers in order.
ghost use Rattle.std.specs.Prelude.{◌≡◌};
ghost use Rattle.boundary.specs.Fault.{Told};
ghost use Rattle.boundary.specs.Given.{header_code_refusal, header_from};

use super::codes::{body_of, code_in, read_body, read_strip_air, strip_air_of};
use super::fault::Fault;
use strip::header::Header;

// The header of these numbers; an unknown code counts as `codes` says.
pub fn header_of(numbers: &[i64; 8]) -> Header
    ensures { result ≡ header_from numbers.now }
{
    let [air, body, year, month, day, longitude, latitude, step] = *numbers;
    Header {
        air: strip_air_of(code_in(air)),
        body: body_of(code_in(body)),
        year,
        month,
        day,
        longitude,
        latitude,
        step,
    }
}

// The codes of body and air are judged before the header is formed.
pub fn read_header(numbers: [i64; 8]) -> Result<Header, Fault>
    ensures { Told (λ header. header) (header_code_refusal numbers) (header_from numbers) result }
{
    let [air, body, ..] = numbers;
    read_body(code_in(body))?;
    read_strip_air(code_in(air))?;
    Ok(header_of(&numbers))
}
