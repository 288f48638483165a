// What is told of a read or a write that failed: which, and the system's words for it.
use std::fmt::Write;
use std::{fmt, io};
use text::buffer::Buffer;

// A failed read is no end of the input, and a failed write ends the reading too.
#[derive(Clone, Copy)]
pub enum Failed {
    Input(io::Error),
    Output(io::Error),
}

impl fmt::Display for Failed {
    fn fmt<W: fmt::Write>(&self, f: &mut fmt::Formatter<W>) -> fmt::Result {
        let (stream, error) = match self {
            Failed::Input(error) => ("input", error),
            Failed::Output(error) => ("output", error),
        };
        let words = said(error);
        let text = words.text();
        write!(f, "standard {stream}: {text}")
    }
}

// More than an error's words and its number take.
const ROOM: usize = 128;

// The first bytes of what is printed.
#[derive(Drop)]
struct Words(Buffer<ROOM>);

impl Words {
    // The words, without the number behind them.
    fn text(&self) -> &str {
        let text = str::from_utf8(self.0.as_slice()).unwrap_or("");
        match text.split_once(" (os error ") {
            Some((words, _)) => words,
            None => text,
        }
    }
}

impl fmt::Write for Words {
    fn write_str(&mut self, s: &str) -> fmt::Result {
        for byte in s.as_bytes() {
            self.0.push_if_room(*byte);
        }
        Ok(())
    }
}

fn said(error: &io::Error) -> Words {
    let mut words = Words(Buffer::new());
    let _ = write!(words, "{error}");
    words
}
