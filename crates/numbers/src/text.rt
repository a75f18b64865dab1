ghost use Rattle.std.specs.Prelude.{◌≡◌, ◌∷◌, ◌++◌, ◌+◌, ◌≤◌, [], length, take, IsUtf8};
ghost use Rattle.numbers.specs.Decimal.{decimal, signed_decimal};

use std::fmt::Write;
use std::marker::Model;
use std::{fmt, str};

// A text of at most `N` bytes, written from its start on.
// The kit's ArrayVec is no plainer: it takes several bytes only by calls that answer a Result, of a room that push_bytes' clause knows
// to be there, and a finished buffer only whole, to be truncated. ArrayString takes UTF-8 alone, and these bytes need not be.
#[derive(Drop)]
pub struct Text<const N: usize> {
    bytes: [u8; N],
    len: usize,
}

// Clauses see what is written so far.
impl<const N: usize> Model for Text<N> {
    ghost use Rattle.std.specs.Prelude.{◌≤◌, List, ℕ, take};

    ghost Value = { List ℕ };

    ghost view = { λ t. take t.len t.bytes };

    ghost invariant = { λ t. t.len ≤ N };
}

impl<const N: usize> Text<N> {
    pub fn new() -> Self
        ensures { result ≡ [] }
    {
        Text {
            bytes: [0; N],
            len: 0,
        }
    }

    // The first bytes of a buffer.
    pub fn of_buffer(bytes: [u8; N], len: usize) -> Self
        requires { len ≤ N }
        ensures { result ≡ take len bytes.entry }
    {
        Text { bytes, len }
    }

    pub fn as_bytes(&self) -> &[u8]
        ensures { result.now ≡ self.now }
    {
        &self.bytes[..self.len]
    }

    // .. as text, or "" where they are not UTF-8
    pub fn as_str(&self) -> &str
        ensures text { IsUtf8 self.now → result.now ≡ self.now }
        ensures no_text { ¬ (IsUtf8 self.now) → result.now ≡ [] }
    {
        str::from_utf8(self.as_bytes()).unwrap_or("")
    }

    pub fn push(&mut self, byte: u8)
        requires { length self.old + 1 ≤ N }
        ensures { self.new ≡ self.old ++ byte ∷ [] }
    {
        self.bytes[self.len] = byte;
        self.len += 1;
    }

    pub fn push_bytes(&mut self, piece: &[u8])
        requires { length self.old + length piece.now ≤ N }
        ensures { self.new ≡ self.old ++ piece.now }
    {
        let end = self.len + piece.len();
        let bytes = &mut self.bytes[..];
        bytes[self.len..end].copy_from_slice(piece);
        self.len = end;
    }

    #[tactic(auto, using(crate::proofs::DigitsLaws::spelled))]
    pub fn push_digits(&mut self, n: u32)
        requires { length self.old + length (decimal n) ≤ N }
        ensures { self.new ≡ self.old ++ decimal n }
    {
        let mut digits = [0u8; 20];
        let count = io::decimal(u64::from(n), &mut digits);
        self.push_bytes(&digits[..count]);
    }

    // A number after a space. A u32 has at most ten digits.
    #[tactic(auto, using(crate::proofs::DigitsLaws::number_fits))]
    pub fn push_unsigned(&mut self, n: u32)
        requires { length self.old + 11 ≤ N }
        ensures number { self.new ≡ self.old ++ 32 ∷ decimal n }
        ensures few { length self.new ≤ length self.old + 11 }
    {
        self.push_bytes(b" ");
        self.push_digits(n);
    }

    #[tactic(auto, using(crate::proofs::DigitsLaws::number_fits))]
    pub fn push_signed(&mut self, n: i32)
        requires { length self.old + 12 ≤ N }
        ensures number { self.new ≡ self.old ++ 32 ∷ signed_decimal n }
        ensures few { length self.new ≤ length self.old + 12 }
    {
        if n < 0 {
            self.push_bytes(b" -");
            self.push_digits(n.unsigned_abs());
        } else {
            self.push_unsigned(n.unsigned_abs());
        }
    }
}

// Each byte is shown as the character of that code.
impl<const N: usize> fmt::Display for Text<N> {
    fn fmt<W: fmt::Write>(&self, f: &mut fmt::Formatter<W>) -> fmt::Result {
        for byte in self.as_bytes() {
            f.write_char(char::from(*byte))?;
        }
        Ok(())
    }
}
