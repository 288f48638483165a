// A line that is being read, and the program that reads it.
ghost use Rattle.std.specs.Prelude.{◌≡◌};
ghost use Rattle.lines.specs.Lines.{header, line_answer};

use day_lines::days_line;
use line_answers::places_line::places_line;
use line_answers::sheet::sheet_line;
use text::buffer::Buffer;
use text::decimal::Text;

// The bytes of a line that are held, enough to refuse a longer one; `line_room` of the specs.
pub const LINE_ROOM: usize = 149;

// The first bytes of a line.
pub type Line = Buffer<LINE_ROOM>;

// The program that the line is read for.
#[derive(Clone, Copy)]
pub enum Form {
    Sheet,
    Places,
    Days,
}

impl Form {
    // What is printed for a line.
    pub fn answer(self, line: &[u8]) -> Text
        ensures { result ≡ line_answer self line.now }
    {
        match self {
            Form::Sheet => sheet_line(line),
            Form::Places => places_line(line),
            Form::Days => days_line(line),
        }
    }

    // What is printed before any answer.
    pub fn header(self) -> &'static [u8]
        ensures { result.now ≡ header self }
    {
        match self {
            Form::Sheet => b"TT LPRIME GMST\n",
            Form::Places => b"",
            Form::Days => b"",
        }
    }
}
