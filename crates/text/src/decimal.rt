// Whole numbers written at the end of a text.
ghost use Rattle.std.specs.Prelude.{◌++◌, ◌≡◌, ◌+◌, ◌<◌, ◌≤◌, length};
ghost use Rattle.text.specs.Decimal.{text_room, digits, decimal, padded, sign, with_point, decimals};

use crate::buffer::Buffer;

// The most bytes of a text; `text_room` of the specs.
pub const TEXT_ROOM: usize = 80;

// A line that is being written. What it is given is counted here and does not go through `Display`: a `write!` is a `Result` at every number, and tells no caller how many bytes it took.
pub type Text = Buffer<TEXT_ROOM>;

// For this room alone: of a recursive method of every room today's prover makes no proof.
impl Buffer<TEXT_ROOM> {
    // The digits before the last one, and the last one: no more calls within calls than a number has digits.
    fn push_digits(&mut self, size: u64)
        requires { length self.old + length (digits size) ≤ text_room }
        ensures { self.new ≡ self.old ++ digits size }
    {
        if size >= 10 {
            self.push_digits(size / 10);
        }
        self.push(b'0' + (size % 10) as u8);
    }

    // A minus sign before the size of a number below zero.
    fn push_sign(&mut self, value: i64)
        requires { length self.old < text_room }
        ensures bytes { self.new ≡ self.old ++ sign value }
        ensures room { length self.new ≤ length self.old + 1 }
    {
        if value < 0 {
            self.push(b'-');
        }
    }

    // Any number, also the least, has 20 bytes at most.
    pub fn push_number(&mut self, value: i64)
        requires { length self.old + 20 ≤ text_room }
        ensures bytes { self.new ≡ self.old ++ decimal value }
        ensures room { length self.new ≤ length self.old + 20 }
    {
        self.push_sign(value);
        self.push_digits(value.unsigned_abs());
    }

    // So many digits, the last ones of a number.
    pub fn push_padded(&mut self, count: usize, size: u64)
        requires { length self.old + count ≤ text_room }
        ensures bytes { self.new ≡ self.old ++ padded count size }
        ensures room { length self.new ≡ length self.old + count }
    {
        if count > 0 {
            self.push_padded(count - 1, size / 10);
            self.push(b'0' + (size % 10) as u8);
        }
    }

    // Units of 10⁻⁸ with eight decimals; any size has 12 digits before the point at most.
    pub fn push_units(&mut self, size: u64)
        requires { length self.old + 21 ≤ text_room }
        ensures bytes { self.new ≡ self.old ++ with_point size }
        ensures room { length self.new ≤ length self.old + 21 }
    {
        self.push_digits(size / 100_000_000);
        self.push(b'.');
        self.push_padded(8, size);
    }

    // The same with its sign.
    pub fn push_decimals(&mut self, value: i64)
        requires { length self.old + 22 ≤ text_room }
        ensures bytes { self.new ≡ self.old ++ decimals value }
        ensures room { length self.new ≤ length self.old + 22 }
    {
        self.push_sign(value);
        self.push_units(value.unsigned_abs());
    }
}
