// What is printed for a line that is refused.
ghost use Rattle.std.specs.Prelude.{◌≡◌};
ghost use Rattle.calendar.specs.Refusal.{number};
ghost use Rattle.line_answers.specs.Printed.{refusal_line};

use calendar::refusal::Refusal;
use text::decimal::Text;

pub fn refusal_text(refusal: Refusal) -> Text
    ensures { result ≡ refusal_line (number refusal) }
{
    let mut text = Text::new();
    text.extend_from_slice(b"refused ");
    text.push_number(i64::from(refusal.number()));
    text.push(b'\n');
    text
}
