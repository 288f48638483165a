// One line of the argument sheet: its answer, and the answer as it is printed.
ghost use Rattle.std.specs.Prelude.{◌≡◌};
ghost use Rattle.calendar.specs.Refusal.{OneAnswer};
ghost use Rattle.sky_vectors.specs.SkyRange.{Reachable};
ghost use Rattle.line_answers.specs.Sheet.{arguments, row_answer, start_row, sheet_row, arguments_line, sheet_line};

use super::refused::refusal_text;
use calendar::refusal::Refusal;
use earth::sidereal::mean_at;
use request::start::{Start, instant_of, start_verdict};
use sum_rules::instant::Instant;
use sum_terms::instant::powers_at;
use text::decimal::Text;
use text::line::sheet_numbers;

// TT, and L' and the mean sidereal time in 10⁻⁸ degree.
#[derive(Clone, Copy)]
pub struct Arguments {
    pub tt: i64,
    pub longitude: i64,
    pub sidereal: i64,
}

// L' is the first of the Moon's arguments; the Earth turns by UT.
fn arguments_at(instant: Instant) -> Arguments
    requires { Reachable instant }
    ensures { result ≡ arguments instant }
{
    let moon = moon_sums::moon::arguments(powers_at(instant.tt));
    let sidereal = mean_at(powers_at(instant.ut)) as i64;
    Arguments {
        tt: instant.tt,
        longitude: moon[0],
        sidereal,
    }
}

// The first of 1 to 6, or the arguments.
fn start_row(start: Start) -> Result<Arguments, Refusal>
    ensures { OneAnswer row_answer (start_row start) result }
{
    start_verdict(start)?;
    Ok(arguments_at(instant_of(start)))
}

// The answer to a line, without its newline.
pub fn sheet_row(line: &[u8]) -> Result<Arguments, Refusal>
    ensures { OneAnswer row_answer (sheet_row line.now) result }
{
    let numbers = sheet_numbers(line).ok_or(Refusal::NotALine)?;
    start_row(Start::from(numbers))
}

fn arguments_text(found: Arguments) -> Text
    ensures { result ≡ arguments_line found }
{
    let mut text = Text::new();
    text.push_number(found.tt);
    text.push(b' ');
    text.push_number(found.longitude);
    text.push(b' ');
    text.push_number(found.sidereal);
    text.push(b'\n');
    text
}

// What is printed for a line, with its newline.
pub fn sheet_line(line: &[u8]) -> Text
    ensures { result ≡ sheet_line line.now }
{
    sheet_row(line).map_or_else(refusal_text, arguments_text)
}
