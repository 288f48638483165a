// One line of the program `days`: its answer, and the answer as it is printed.
#![tactic(auto)]

ghost use Rattle.std.specs.Prelude.{◌++◌, ◌≡◌, ◌+◌, ◌≤◌, length};
ghost use Rattle.calendar.specs.Refusal.{OneAnswer};
ghost use Rattle.rise_set.specs.Answer.{rise_and_set, rise_set_answer, rise_set_numbers};
ghost use Rattle.rise_set.specs.Crossing.{crossing_numbers};
ghost use Rattle.text.specs.Decimal.{text_room};
ghost use Rattle.day_lines.specs.DaysLine.{days_answer, days_line, crossing_text, rise_set_line, time_text};

use calendar::refusal::Refusal;
use day::curve::MINUTES;
use day::date::Date;
use line_answers::body_line::body_request;
use line_answers::refused::refusal_text;
use rise_set::answer::{RiseSet, rise_and_set};
use sky_vectors::geocentric::Body;
use sky_vectors::station::Point;
use text::decimal::Text;

// Rise and set, by a curve that is kept for this call alone: a line that is refused before pays for none.
fn risen(date: Date, body: Body, point: Point) -> Result<RiseSet, Refusal>
    ensures { OneAnswer rise_set_answer (rise_and_set date body point) result }
{
    rise_and_set(date, body, point, &mut [0; MINUTES])
}

// The answer to a line, without its newline.
pub fn days_answer(line: &[u8]) -> Result<RiseSet, Refusal>
    ensures { OneAnswer rise_set_answer (days_answer line.now) result }
{
    let (body, numbers) = body_request::<8>(line, 5)?;
    let date = Date::from(*numbers.first_chunk().unwrap());
    let point = Point::from(*numbers.last_chunk().unwrap());
    risen(date, body, point)
}

// HH:MM.
fn push_time(text: &mut Text, minute: u32)
    requires { length text.old + 5 ≤ text_room }
    ensures bytes { text.new ≡ text.old ++ time_text minute }
    ensures room { length text.new ≤ length text.old + 5 }
{
    text.push_padded(2, u64::from(minute / 60));
    text.push(b':');
    text.push_padded(2, u64::from(minute % 60));
}

fn push_crossing(text: &mut Text, crossing: Option<u32>)
    requires { length text.old + 5 ≤ text_room }
    ensures bytes { text.new ≡ text.old ++ crossing_text (crossing_numbers crossing) }
    ensures room { length text.new ≤ length text.old + 5 }
{
    match crossing {
        Some(minute) => push_time(text, minute),
        None => text.push(b'-'),
    }
}

fn rise_set_text(seen: RiseSet) -> Text
    ensures { result ≡ rise_set_line (rise_set_numbers seen) }
{
    let mut text = Text::new();
    push_crossing(&mut text, seen.rise);
    text.push(b' ');
    push_crossing(&mut text, seen.set);
    text.push(b'\n');
    text
}

// What is printed for a line, with its newline.
pub fn days_line(line: &[u8]) -> Text
    ensures { result ≡ days_line line.now }
{
    days_answer(line).map_or_else(refusal_text, rise_set_text)
}
