//! A line that is put together from its end to its front. So the digits of a number, of which the
//! last comes first, are written where they stay.
//!
//! Each function puts something in front of what a buffer has from `end` on, and returns where it
//! starts.

ghost use Rattle.std.specs.Prelude.{◌≡◌, ◌+◌, ◌≤◌, ◌∷◌, ◌++◌, length, drop, decimal};
ghost use Rattle.xl_model.specs.Lines.{hex16};

use crate::line::hex_text;
use itoa::write_digits;
use std::simd::prelude::*;

/// Puts a byte in front.
#[inline(always)]
pub(crate) fn byte_before(buffer: &mut [u8], end: usize, byte: u8) -> usize
    requires room { 1 ≤ end }
    requires within { end ≤ length buffer.old }
    ensures start { result + 1 ≡ end }
    ensures text { drop result buffer.new ≡ byte ∷ drop end buffer.old }
{
    buffer[end - 1] = byte;
    end - 1
}

/// Puts `N` bytes in front, by one store.
#[inline(always)]
pub(crate) fn chunk_before<const N: usize>(
    buffer: &mut [u8],
    end: usize,
    chunk: Simd<u8, N>,
) -> usize
    requires room { N ≤ end }
    requires within { end ≤ length buffer.old }
    ensures start { result + N ≡ end }
    ensures text { drop result buffer.new ≡ chunk.entry ++ drop end buffer.old }
{
    let start = end - N;
    chunk.copy_to_slice(&mut buffer[start..]);
    start
}

/// Puts `N` to `2 * N` bytes in front, by two stores that may overlap.
#[inline(always)]
pub(crate) fn ends_before<const N: usize>(buffer: &mut [u8], end: usize, bytes: &[u8]) -> usize
    requires least { N ≤ length bytes.now }
    requires most { length bytes.now ≤ N + N }
    requires room { length bytes.now ≤ end }
    requires within { end ≤ length buffer.old }
    ensures start { result + length bytes.now ≡ end }
    ensures text { drop result buffer.new ≡ bytes.now ++ drop end buffer.old }
{
    let over = bytes.len() - N;
    chunk_before(buffer, end, Simd::<u8, N>::from_slice(&bytes[over..]));
    chunk_before(buffer, end - over, Simd::<u8, N>::from_slice(bytes))
}

/// Puts bytes in front.
#[inline(always)]
pub(crate) fn bytes_before(buffer: &mut [u8], end: usize, bytes: &[u8]) -> usize
    requires room { length bytes.now ≤ end }
    requires within { end ≤ length buffer.old }
    ensures start { result + length bytes.now ≡ end }
    ensures text { drop result buffer.new ≡ bytes.now ++ drop end buffer.old }
{
    let start = end - bytes.len();
    buffer[start..end].copy_from_slice(bytes);
    start
}

/// Puts a decimal number in front.
#[inline(always)]
pub(crate) fn number_before(buffer: &mut [u8], end: usize, n: u64) -> usize
    requires room { length (decimal n) ≤ end }
    requires within { end ≤ length buffer.old }
    ensures start { result + length (decimal n) ≡ end }
    ensures text { drop result buffer.new ≡ decimal n ++ drop end buffer.old }
{
    write_digits(n, buffer, end)
}

/// Puts the 16 hexadecimal digits of a number in front.
#[inline(always)]
#[tactic(auto, unfolding(xl_model::specs::Lines::hex16))]
pub(crate) fn hex_before(buffer: &mut [u8], end: usize, n: u64) -> usize
    requires room { 16 ≤ end }
    requires within { end ≤ length buffer.old }
    ensures start { result + 16 ≡ end }
    ensures text { drop result buffer.new ≡ hex16 n ++ drop end buffer.old }
{
    chunk_before(buffer, end, u8x16::from_array(hex_text(n)))
}
