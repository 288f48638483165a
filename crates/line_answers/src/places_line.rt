// One line of the program `places`: its answer, and the answer as it is printed.
ghost use Rattle.std.specs.Prelude.{◌++◌, ◌≡◌, ◌+◌, ◌≤◌, length};
ghost use Rattle.text.specs.Decimal.{text_room};
ghost use Rattle.calendar.specs.Refusal.{OneAnswer};
ghost use Rattle.arctangent.specs.Direction.{azimuth_numbers};
ghost use Rattle.sky.specs.Answer.{place_answer, place_numbers};
ghost use Rattle.line_answers.specs.PlacesLine.{azimuth_text, places_answer, place_line, places_line};

use super::body_line::body_request;
use super::refused::refusal_text;
use calendar::refusal::Refusal;
use numbers::angle::Angle;
use request::start::Start;
use sky::answer::place;
use sky_vectors::place::Place;
use sky_vectors::station::Point;
use text::decimal::Text;

// The answer to a line, without its newline.
pub fn places_answer(line: &[u8]) -> Result<Place, Refusal>
    ensures { OneAnswer place_answer (places_answer line.now) result }
{
    let (body, numbers) = body_request::<12>(line, 9)?;
    let start = Start::from(*numbers.first_chunk().unwrap());
    let point = Point::from(*numbers.last_chunk().unwrap());
    place(start, body, point, None)
}

// The azimuth, or the word for none.
fn push_azimuth(text: &mut Text, azimuth: Option<Angle>)
    requires { length text.old + 21 ≤ text_room }
    ensures bytes { text.new ≡ text.old ++ azimuth_text (azimuth_numbers azimuth).has (azimuth_numbers azimuth).single }
    ensures room { length text.new ≤ length text.old + 21 }
{
    match azimuth {
        Some(angle) => text.push_units(angle.units),
        None => text.extend_from_slice(b"none"),
    }
}

fn place_text(place: Place) -> Text
    ensures { result ≡ place_line (place_numbers place) }
{
    let mut text = Text::new();
    push_azimuth(&mut text, place.azimuth);
    text.push(b' ');
    text.push_decimals(place.elevation);
    text.push(b'\n');
    text
}

// What is printed for a line, with its newline.
pub fn places_line(line: &[u8]) -> Text
    ensures { result ≡ places_line line.now }
{
    places_answer(line).map_or_else(refusal_text, place_text)
}
