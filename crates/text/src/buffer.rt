// Bytes one after the other, in a place that has room for so many.
ghost use Rattle.std.specs.Prelude.{◌∷◌, [], ◌++◌, ◌≡◌, ◌+◌, ◌<◌, ◌≤◌, length, take};

use std::marker::Model;

// The first of the bytes are in use, as many as `used` says, and zeros stand behind them; a clause sees the list of those in use.
#[derive(Clone, Copy)]
pub struct Buffer<const ROOM: usize> {
    bytes: [u8; ROOM],
    used: usize,
}

impl<const ROOM: usize> Model for Buffer<ROOM> {
    ghost use Rattle.std.specs.Prelude.{◌++◌, ◌-◌, List, ℕ, length, replicate, take};
    ghost use Rattle.std.proofs.Common.{◌∙◌, ap, sym, length-take-le, take-append-drop};
    ghost use Rattle.text.specs.Buffer.{Padded};

    ghost Value = { List ℕ };

    ghost view = { λ buffer. take buffer.used buffer.bytes };

    ghost invariant = { λ buffer. Padded ROOM buffer.used buffer.bytes };

    // The zeros are what lets a buffer be copied: the bytes in use give all of it back.
    ghost inverse = { λ bytes. record { bytes = bytes ++ replicate (ROOM - length bytes) 0; used = length bytes } };

    ghost inverse_ok = { λ buffer padded i. record {
      bytes = (ap (λ (n : ℕ). take buffer.used buffer.bytes ++ replicate (ROOM - n) 0) (length-take-le buffer.used buffer.bytes padded.within)
          ∙ ap (λ (behind : List ℕ). take buffer.used buffer.bytes ++ behind) (sym padded.zeros)
          ∙ take-append-drop buffer.used buffer.bytes) i;
      used = length-take-le buffer.used buffer.bytes padded.within i;
    } };
}

impl<const ROOM: usize> Buffer<ROOM> {
    pub fn new() -> Self
        ensures { result ≡ [] }
    {
        Buffer {
            bytes: [0; ROOM],
            used: 0,
        }
    }

    // The bytes in use.
    pub fn as_slice(&self) -> &[u8]
        ensures value { result.now ≡ self.now }
        ensures within { length self.now ≤ ROOM }
    {
        &self.bytes[..self.used]
    }

    pub fn push(&mut self, byte: u8)
        requires { length self.old < ROOM }
        ensures bytes { self.new ≡ self.old ++ byte ∷ [] }
        ensures room { length self.new ≡ length self.old + 1 }
    {
        self.bytes[self.used] = byte;
        self.used += 1;
    }

    // One byte more, where there is room for it.
    pub fn push_if_room(&mut self, byte: u8)
        ensures { self.new ≡ take ROOM (self.old ++ byte ∷ []) }
    {
        if self.as_slice().len() < ROOM {
            self.push(byte);
        }
    }

    pub fn extend_from_slice(&mut self, added: &[u8])
        requires { length self.old + length added.now ≤ ROOM }
        ensures bytes { self.new ≡ self.old ++ added.now }
        ensures room { length self.new ≡ length self.old + length added.now }
    {
        for byte in added {
            self.push(*byte);
        }
    }
}
