// Bytes one after another, in a room of their own.
ghost use Rattle.std.specs.Prelude.{◌≡◌, ℕ, ◌-◌, ◌≤◌, ◌↔◌, List, [], ◌∷◌, ◌++◌, length, take, IsTrue};
ghost use Rattle.card.specs.Text.{decimal};
ghost use Rattle.card.specs.Rooms.{IsFilled};

use std::marker::Model;

// At most N bytes. It stands where one would expect a String: there is no heap here, so that a function that writes cannot fail. What does not
// fit is left out, from its end.
#[derive(Clone, Copy)]
pub struct Text<const N: usize> {
    bytes: [u8; N],
    len: usize,
}

// Clauses see the bytes alone. Zeros stand behind them, so that the fields are known from the bytes.
impl<const N: usize> Model for Text<N> {
    ghost use Rattle.std.specs.Prelude.{ℕ, ◌-◌, List, ◌++◌, length, take, replicate};
    ghost use Rattle.card.specs.Rooms.{IsFilled, filled_long, filled_back};

    ghost Value = { List ℕ };

    ghost view = { λ t. take t.len t.bytes };

    ghost invariant = { λ t. IsFilled N t.bytes t.len };

    ghost inverse = { λ w. record { bytes = w ++ replicate (N - length w) 0; len = length w } };

    ghost inverse_ok = { λ t h i. record { bytes = filled_back N t.bytes t.len h i; len = filled_long N t.bytes t.len h i } };
}

impl<const N: usize> Text<N> {
    // No bytes.
    pub fn new() -> Self
        ensures { result ≡ [] }
    {
        Text {
            bytes: [0; N],
            len: 0,
        }
    }

    // Bytes that were put at the front of zeros. Two wrong ones that this rules out: one that takes half of them, and one that takes the room whole.
    pub fn of(bytes: [u8; N], len: usize) -> Self
        requires { IsFilled N bytes len }
        ensures { result ≡ take len bytes.entry }
    {
        Text { bytes, len }
    }

    // Two wrong ones that this rules out: one that hands out the zeros behind too, and one that leaves out the last byte.
    pub fn as_slice(&self) -> &[u8]
        ensures bytes { result.now ≡ self.now }
        ensures fits { length self.now ≤ N }
    {
        &self.bytes[..self.len]
    }

    pub fn len(&self) -> usize
        ensures value { result ≡ length self.now }
        ensures fits { result ≤ N }
    {
        self.len
    }

    pub fn is_empty(&self) -> bool
        ensures { IsTrue result ↔ (self.now ≡ []) }
    {
        self.len == 0
    }

    // Two wrong ones that this rules out: one that pushes a zero, and one that puts the byte at the front.
    pub fn push(&mut self, byte: u8)
        ensures { self.new ≡ take N (self.old ++ byte ∷ []) }
    {
        if self.len < N {
            self.bytes[self.len] = byte;
            self.len += 1;
        }
    }

    // Two wrong ones that this rules out: one that begins at the front, and one that stops at a zero.
    pub fn extend_from_slice(&mut self, bytes: &[u8])
        ensures { self.new ≡ take N (self.old ++ bytes.now) }
    {
        let start = self.len;
        let end = start + bytes.len().min(N - start);
        let all = &mut self.bytes[..];
        all[start..end].copy_from_slice(&bytes[..end - start]);
        self.len = end;
    }

    // Two wrong ones that this rules out: one that prints the tens for the units, and one that prints the last digit alone.
    pub fn push_decimal(&mut self, number: u64)
        ensures { self.new ≡ take N (self.old ++ decimal number) }
    {
        if 10 <= number {
            self.push_decimal(number / 10);
        }
        self.push(b'0' + (number % 10) as u8);
    }
}
