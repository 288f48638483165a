// The answers to the lines that end in one part of the input, in a lent buffer.
ghost use Rattle.std.specs.Prelude.{◌++◌, ◌≡◌, ◌*◌, ◌+◌, ◌≤◌, length, take};
ghost use Rattle.text.specs.Decimal.{text_room};
ghost use Rattle.lines.specs.Lines.{Answered, Ended, Stepped};

use super::line::{Form, Line};
use text::decimal::Text;

// A line ends at it; `newline` of the specs.
const NEWLINE: u8 = b'\n';

// The line so far, and how many bytes of the buffer are in use.
#[derive(Clone, Copy)]
pub struct Turn {
    pub line: Line,
    pub used: usize,
}

// Stores a text from a place of the buffer on, and gives the place after it.
fn put(text: &Text, out: &mut [u8], start: usize) -> usize
    requires { start + text_room ≤ length out.old }
    ensures value { (result ≡ start + length text.now) × (take result out.new ≡ take start out.old ++ text.now) }
    ensures within { result ≤ start + text_room }
    ensures out_len_unchanged { length out.new ≡ length out.old }
{
    let bytes = text.as_slice();
    let end = start + bytes.len();
    out[start..end].copy_from_slice(bytes);
    end
}

// One byte of the input: a newline ends the line.
fn step(form: Form, turn: Turn, byte: u8, out: &mut [u8]) -> Turn
    requires { turn.used + text_room ≤ length out.old }
    ensures { Stepped form turn byte out.old out.new result }
{
    let Turn { mut line, used } = turn;
    if byte == NEWLINE {
        let next = put(&form.answer(line.as_slice()), out, used);
        return Turn {
            line: Line::new(),
            used: next,
        };
    }
    line.push_if_room(byte);
    Turn { line, used }
}

// A part of the input; room for an answer to each byte of it is enough.
pub fn answer_chunk(form: Form, line: Line, chunk: &[u8], out: &mut [u8]) -> Turn
    requires { text_room * length chunk.now ≤ length out.old }
    ensures { Answered form line chunk.now out.new result }
{
    let mut turn = Turn { line, used: 0 };
    for byte in chunk {
        turn = step(form, turn, *byte, out);
    }
    turn
}

// At the end of the input a line without a newline is answered too.
pub fn answer_last(form: Form, line: &Line, out: &mut [u8]) -> usize
    requires { text_room ≤ length out.old }
    ensures { Ended form line.now out.new result }
{
    let bytes = line.as_slice();
    if bytes.is_empty() {
        return 0;
    }
    put(&form.answer(bytes), out, 0)
}
