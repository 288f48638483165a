// Which of two strips bears a date, and its azimuth octets.
ghost use Rattle.std.specs.Prelude.{◌≡◌};
ghost use Rattle.calendar.specs.Refusal.{OneAnswer};
ghost use Rattle.strip_reader.specs.Lookup.{bears, found_answer, found_part, part_of, which};

use super::reader::read;
use calendar::refusal::{Refusal, StripRefusal};
use strip::header::{HEADER, Header};

// A date in the Gregorian calendar.
#[derive(Clone, Copy, PartialEq, Eq)]
pub struct CivilDate {
    pub year: i64,
    pub month: i64,
    pub day: i64,
}

// Which of two strips bears a date.
#[derive(Clone, Copy)]
pub enum Bearer {
    First,
    Second,
}

// Whether a strip bears a date.
fn bears(header: Header, date: CivilDate) -> bool
    ensures { result ≡ bears header date.year date.month date.day }
{
    let born = CivilDate {
        year: header.year,
        month: header.month,
        day: header.day,
    };
    born == date
}

// The strip that bears a date, the first if both do. Both are read wholly before the date is looked at.
pub fn which(first: &[u8], second: &[u8], date: CivilDate) -> Result<Bearer, Refusal>
    ensures { OneAnswer found_answer (which first.now second.now date.year date.month date.day) result }
{
    let one = read(first)?;
    let two = read(second)?;
    if bears(one, date) {
        return Ok(Bearer::First);
    }
    if bears(two, date) {
        return Ok(Bearer::Second);
    }
    Err(Refusal::Strip(StripRefusal::NotFound))
}

// The azimuth octets of the strip that bears a date: a part of one of the two that are lent.
pub fn find<'a>(first: &'a [u8], second: &'a [u8], date: CivilDate) -> Result<&'a [u8], Refusal>
    ensures result_value { (found_part result).value ≡ part_of (which first.now second.now date.year date.month date.day) first.now second.now }
    ensures refusal_after { (found_part result).refusal ≡ (which first.now second.now date.year date.month date.day).refusal }
{
    match which(first, second, date)? {
        Bearer::First => Ok(&first[HEADER..]),
        Bearer::Second => Ok(&second[HEADER..]),
    }
}
