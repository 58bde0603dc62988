//! A line that is being put together.

ghost use Rattle.std.specs.Prelude.{◌≡◌, ◌+◌, ◌≤◌, ◌<◌, ◌++◌, [], length, map, take, decimal};
ghost use Rattle.std.specs.Simd.Lanes.{Each1};
ghost use Rattle.xl_model.specs.Lines.{hex16, hex_digits, hex_glyph};
ghost use Rattle.xl_report.specs.Halves.{halves_of};

use itoa::Buffer;
use std::marker::Model;
use std::simd::prelude::*;

/// A line of at most `MOST` bytes that is being put together. Contracts see its bytes so far. Its
/// room is cleared for each line, so a line that is written often has little.
#[derive(Drop)]
pub struct Line<const MOST: usize> {
    bytes: [u8; MOST],
    len: usize,
}

impl<const MOST: usize> Model for Line<MOST> {
    ghost use Rattle.std.specs.Prelude.{ℕ, List, take, ◌≤◌};

    ghost Value = { List ℕ };

    ghost view = { λ l. take l.len l.bytes };

    ghost invariant = { λ l. l.len ≤ MOST };
}

impl<const MOST: usize> Line<MOST> {
    /// An empty line.
    pub fn new() -> Line<MOST>
        ensures { result ≡ [] }
    {
        Line {
            bytes: [0; MOST],
            len: 0,
        }
    }

    /// Puts bytes at the line's end.
    pub fn add(&mut self, bytes: &[u8])
        requires { length self.old + length bytes.now ≤ MOST }
        ensures { self.new ≡ self.old ++ bytes.now }
    {
        put(&mut self.bytes, self.len, bytes);
        self.len += bytes.len();
    }

    /// Puts a decimal number at the line's end.
    pub fn number(&mut self, n: u64)
        requires { length self.old + 20 ≤ MOST }
        ensures text { self.new ≡ self.old ++ decimal n }
        ensures grows { length self.new ≤ length self.old + 20 }
    {
        let mut buffer = Buffer::new();
        self.add(buffer.format(n).as_bytes());
    }

    /// Puts the 16 hexadecimal digits of a number at the line's end.
    #[tactic(auto, unfolding(xl_model::specs::Lines::hex16))]
    pub fn hex(&mut self, n: u64)
        requires { length self.old + 16 ≤ MOST }
        ensures text { self.new ≡ self.old ++ hex16 n }
        ensures grows { length self.new ≡ length self.old + 16 }
    {
        self.add(&hex_text(n));
    }

    /// The line so far.
    pub fn bytes(&self) -> &[u8]
        ensures { result.now ≡ self.entry.now }
    {
        &self.bytes[..self.len]
    }
}

/// Puts bytes into a buffer after the first `at`.
fn put(buffer: &mut [u8], at: usize, bytes: &[u8])
    requires { at + length bytes.now ≤ length buffer.old }
    ensures { take (at + length bytes.now) buffer.new ≡ take at buffer.old ++ bytes.now }
{
    buffer[at..at + bytes.len()].copy_from_slice(bytes);
}

/// The 16 hexadecimal digits of a number, in lower case. They are made side by side.
#[inline(always)]
pub(crate) fn hex_text(n: u64) -> [u8; 16]
    ensures { result ≡ hex_digits 16 n }
{
    glyphs(halves(u64x1::splat(n).to_le_bytes())).to_array()
}

/// The upper half and the lower half of each byte, the last byte's first.
#[inline(always)]
fn halves(bytes: u8x8) -> u8x16
    ensures { result ≡ halves_of bytes }
{
    let upper = bytes >> u8x8::splat(4);
    let lower = bytes & u8x8::splat(15);
    upper.shuffle(
        lower,
        [7, 15, 6, 14, 5, 13, 4, 12, 3, 11, 2, 10, 1, 9, 0, 8],
    )
}

/// The hexadecimal digit of each number below 16, in lower case.
#[inline(always)]
fn glyphs(digits: u8x16) -> u8x16
    requires { Each1 (λ d. d < 16) digits }
    ensures { result ≡ map hex_glyph digits }
{
    let is_decimal = digits.simd_lt(u8x16::splat(10));
    digits + is_decimal.select(u8x16::splat(b'0'), u8x16::splat(b'a' - 10))
}
