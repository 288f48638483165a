// The argument sheet, `places` or `days`, over standard input and output. `answers` has the contracts of what is handed to be written.
// A read or a write that fails is told on standard error, and nothing is written after it, so that no line is ever missing between two others.
// No signal is handled here, so none interrupts a call; the exit status stays 0.
#![tactic(auto)]

pub mod answers;
pub mod line;
pub mod told;

ghost use Rattle.std.specs.Prelude.{ℕ, List, ◌≡◌, ◌<◌, ◌^◌, ◌-◌, length, IfSome, OnErr, OnOk};
ghost use Rattle.std.specs.Io.KnownBytes.{Appends};
ghost use Rattle.lines.specs.Lines.{kept, last_answer, output};
ghost use Rattle.lines.specs.Streams.{OneRead, StartWritten};

use answers::{Turn, answer_chunk, answer_last};
use line::{Form, Line};
use std::io;
use std::io::{ErrorKind, Input, Read, Write};
use std::ops::ControlFlow;
use text::decimal::TEXT_ROOM;
use told::Failed;

// The most bytes of one read.
const PART: usize = 512;

// Writes all of the bytes, or says why not; a start of them is written then.
fn write_out<W: Write>(writer: &mut W, bytes: &[u8]) -> Result<(), Failed>
    ensures all { OnOk result (Appends (W.contents writer.old) (W.contents writer.new) bytes.now) }
    ensures start { OnErr result (StartWritten (W.contents writer.old) (W.contents writer.new) bytes.now) }
{
    let mut rest = bytes;
    while !rest.is_empty() {
        match writer.write(rest) {
            Ok(0) => return Err(Failed::Output(io::Error::from(ErrorKind::WriteZero))),
            Ok(count) => rest = &rest[count..],
            Err(error) => return Err(Failed::Output(error)),
        }
    }
    Ok(())
}

// Answers the lines that end in the next part of the input. It goes on with the line that is left, or breaks with the last one at the end of the input.
fn read_once<R: Read, W: Write>(
    form: Form,
    line: Line,
    reader: &mut R,
    writer: &mut W,
) -> Result<ControlFlow<Line, Line>, Failed>
    ensures { OneRead form line (R.remaining reader.old) (R.remaining reader.new) (W.contents writer.old) (W.contents writer.new) result }
{
    let mut part = [0; PART];
    let count = reader.read(&mut part).map_err(Failed::Input)?;
    if count == 0 {
        return Ok(ControlFlow::Break(line));
    }
    let mut out = [0; PART * TEXT_ROOM];
    let Turn { line, used } = answer_chunk(form, line, &part[..count], &mut out);
    write_out(writer, &out[..used])?;
    Ok(ControlFlow::Continue(line))
}

// Answers a last line that has no newline.
fn finish<W: Write>(form: Form, line: &Line, writer: &mut W) -> Result<(), Failed>
    ensures all { OnOk result ((whole : List ℕ) → line.now ≡ kept whole → Appends (W.contents writer.old) (W.contents writer.new) (last_answer form whole)) }
    ensures start { OnErr result ((whole : List ℕ) → line.now ≡ kept whole → StartWritten (W.contents writer.old) (W.contents writer.new) (last_answer form whole)) }
{
    let mut out = [0; TEXT_ROOM];
    let used = answer_last(form, line, &mut out);
    write_out(writer, &out[..used])
}

// The header, and the answers to the whole input. A proved loop has to end: no input needs this many reads.
// Where a read or a write fails, what is written is a start of that, with nothing missing in it.
pub fn answer_all<R: Read, W: Write>(
    form: Form,
    reader: &mut R,
    writer: &mut W,
) -> Result<(), Failed>
    ensures whole { OnOk result (IfSome (R.remaining reader.old) (λ input. length input < 2 ^ 64 - 1
        → Appends (W.contents writer.old) (W.contents writer.new) (output form input))) }
    ensures start { OnErr result (IfSome (R.remaining reader.old) (λ input.
        StartWritten (W.contents writer.old) (W.contents writer.new) (output form input))) }
{
    write_out(writer, form.header())?;
    let mut line = Line::new();
    for _ in 0..u64::MAX {
        match read_once(form, line, reader, writer)? {
            ControlFlow::Continue(next) => line = next,
            ControlFlow::Break(last) => return finish(form, &last, writer),
        }
    }
    Ok(())
}

// From standard input to standard output.
pub fn run<S: Input + Print + Eprint>(rt: &S, form: Form) {
    if let Err(failed) = answer_all(form, &mut rt.reader(), &mut io::writer(rt)) {
        let _ = eprintln!(rt; "{failed}");
    }
}
