//! Digits, and the blanks before them.

ghost use Rattle.std.specs.Prelude.{map, IsTrue, slice_index, ◌≡◌, ℕ, ◌+◌, ◌*◌, ◌^◌, ◌<◌, ◌≤◌, min, length, take, drop, Option, Some, IfSome};
ghost use Rattle.std.specs.Option.{option_map};
ghost use Rattle.xl_text.specs.Texts.{is_blank};
ghost use Rattle.std.specs.Simd.Lanes.{Each1, number_l};
ghost use Rattle.xl_lackey.specs.Lanes.{lane_value, number_of};
ghost use Rattle.xl_lackey.specs.Digits.{hex_digit as digit_of, digit_or_4096, hex_value};
ghost use Rattle.xl_lackey.specs.Lines.{is_digit as is_digit_byte, front, after, address_in, decimal_value, size_in};

use std::simd::prelude::*;
use xl_text::is_blank;

/// How many blanks a text begins with.
pub(crate) fn count_blanks(text: &[u8]) -> usize
    ensures within { result ≤ length text.now }
    ensures rest { drop result text.now ≡ after is_blank text.now }
{
    for (at, byte) in text.iter().enumerate() {
        if !is_blank(*byte) {
            return at;
        }
    }
    text.len()
}

/// Not a digit: above every place in a page.
const X: u16 = 4096;

/// The value of each byte as a hexadecimal digit, and 4096, which no place in a page is, where it
/// is none. Which digit comes next can't be predicted, so a test of each range would cost more than
/// a look-up.
const HEX_DIGITS: [u16; 256] = [
    X, X, X, X, X, X, X, X, X, X, X, X, X, X, X, X, X, X, X, X, X, X, X, X, X, X, X, X, X, X, X, X,
    X, X, X, X, X, X, X, X, X, X, X, X, X, X, X, X, 0, 1, 2, 3, 4, 5, 6, 7, 8, 9, X, X, X, X, X, X,
    X, 10, 11, 12, 13, 14, 15, X, X, X, X, X, X, X, X, X, X, X, X, X, X, X, X, X, X, X, X, X, X, X,
    X, X, X, 10, 11, 12, 13, 14, 15, X, X, X, X, X, X, X, X, X, X, X, X, X, X, X, X, X, X, X, X, X,
    X, X, X, X, X, X, X, X, X, X, X, X, X, X, X, X, X, X, X, X, X, X, X, X, X, X, X, X, X, X, X, X,
    X, X, X, X, X, X, X, X, X, X, X, X, X, X, X, X, X, X, X, X, X, X, X, X, X, X, X, X, X, X, X, X,
    X, X, X, X, X, X, X, X, X, X, X, X, X, X, X, X, X, X, X, X, X, X, X, X, X, X, X, X, X, X, X, X,
    X, X, X, X, X, X, X, X, X, X, X, X, X, X, X, X, X, X, X, X, X, X, X, X, X, X, X, X, X, X, X, X,
    X, X, X, X,
];

/// The value of a byte as a hexadecimal digit, and 4096 where it is none.
#[inline(always)]
pub(crate) fn digit_or_page(byte: u8) -> u64
    ensures value { result ≡ digit_or_4096 (digit_of byte) }
    ensures bound { result ≤ 4096 }
{
    HEX_DIGITS[byte as usize] as u64
}

pub(crate) fn hex_digit(byte: u8) -> Option<u64>
    ensures value { result ≡ digit_of byte }
    ensures bound { IfSome result (λ d. d < 16) }
{
    let value = digit_or_page(byte);
    if value < 16 { Some(value) } else { None }
}

/// An address of 1 to 16 hexadecimal digits that a comma ends, and the comma's place; the first
/// `count` digits are read already, and have the value `first`. Inlined, since a call would return
/// the pair through memory; so are the sizes below.
#[inline(always)]
pub(crate) fn address(text: &[u8], first: u64, count: usize) -> Option<(u64, usize)>
    requires within { count ≤ length text.now }
    requires value { hex_value 0 (take count text.now) ≡ Some first }
    requires small { first < 16 ^ count }
    requires few { count ≤ 8 }
    ensures within { IfSome result (λ r. r.1 < length text.now) }
    ensures few { IfSome result (λ r. r.1 ≤ 16) }
    ensures value { option_map (λ r. (r.0, drop (r.1 + 1) text.now)) result ≡ address_in text.now }
{
    let mut value = first;
    for at in count..text.len() {
        if text[at] == b',' {
            return if at == 0 { None } else { Some((value, at)) };
        }
        let digit = hex_digit(text[at])?;
        if at == 16 {
            return None;
        }
        value = value * 16 + digit;
    }
    None
}

/// The value of the first eight bytes of a text, where they are hexadecimal digits. The eight bytes
/// are looked at side by side.
#[inline(always)]
pub(crate) fn eight_digits(text: &[u8]) -> Option<u64>
    requires { 8 ≤ length text.now }
    ensures value { IfSome result (λ v. hex_value 0 (take 8 text.now) ≡ Some v) }
    ensures small { IfSome result (λ v. v < 16 ^ 8) }
{
    let values = lane_values(u8x8::from_slice(text));
    if are_digits(values) {
        Some(number(values))
    } else {
        None
    }
}

/// The value of each byte as a hexadecimal digit of lower case, and 16 or more where it is none:
/// that of a decimal digit or of a letter, whichever is smaller. Less 58, modulo 256, decimal
/// digits are the ten greatest bytes, and 10 more makes them 0 to 9; the six smallest saturate, so
/// that they don't map to 10 to 15.
#[inline(always)]
fn lane_values(bytes: u8x8) -> u8x8
    ensures { result ≡ map lane_value bytes }
{
    let digits = (bytes - u8x8::splat(58)).simd_max(u8x8::splat(6)) + u8x8::splat(10);
    let letters = (bytes - u8x8::splat(b'a')).simd_min(u8x8::splat(118)) + u8x8::splat(10);
    digits.simd_min(letters)
}

/// Eight bytes as a number, of which the first counts least.
#[inline(always)]
pub(crate) fn word(bytes: u8x8) -> u64
    ensures { result ≡ number_l 256 bytes }
{
    u64x1::from_le_bytes(bytes).to_array()[0]
}

/// Whether eight values are below 16 each, by one test of their upper halves.
#[inline(always)]
fn are_digits(values: u8x8) -> bool
    ensures { IsTrue result → Each1 (λ d. d < 16) values }
{
    word(values) & 0xf0f0_f0f0_f0f0_f0f0 == 0
}

/// The number of eight hexadecimal digits. Those in even places are the upper halves of its bytes:
/// 28 bits down, they are four bits above the others, and nothing is left of those.
#[inline(always)]
fn number(digits: u8x8) -> u64
    requires { Each1 (λ d. d < 16) digits }
    ensures value { result ≡ number_of 0 digits }
    ensures small { result < 16 ^ 8 }
{
    let halves = word(digits.swizzle([7, 5, 3, 1, 6, 4, 2, 0]));
    (halves >> 28) + halves % (1 << 32)
}

/// The size after an address of eight digits, where it has one digit: how many bytes it has above
/// the first.
#[inline(always)]
pub(crate) fn near_digit(text: &[u8]) -> Option<u32>
    requires { 11 ≤ length text.now }
    ensures comma { IfSome result (λ above. slice_index text.now 8 ≡ 44) }
    ensures newline { IfSome result (λ above. slice_index (drop 9 text.now) 1 ≡ 10) }
    ensures small { IfSome result (λ above. above < 9) }
    ensures value { IfSome result (λ above. Some (above + 1, 1) ≡ size_in (drop 9 text.now)) }
{
    let above = size_of_digit(&text[9..])?;
    if text[8] == b',' { Some(above) } else { None }
}

/// A size of one digit, which isn't 0, that a newline ends: how many bytes it has above the first.
/// Tests digit and newline in one comparison.
#[inline(always)]
pub(crate) fn size_of_digit(text: &[u8]) -> Option<u32>
    requires { 2 ≤ length text.now }
    ensures newline { IfSome result (λ above. slice_index text.now 1 ≡ 10) }
    ensures small { IfSome result (λ above. above < 9) }
    ensures value { IfSome result (λ above. Some (above + 1, 1) ≡ size_in text.now) }
{
    let above = pair(text).wrapping_sub(b'1' as u32 + b'\n' as u32 * 256);
    if above < 9 { Some(above) } else { None }
}

/// Two bytes as a number, of which the first counts least.
#[inline(always)]
pub(crate) fn pair(text: &[u8]) -> u32
    requires { 2 ≤ length text.now }
    ensures { result ≡ slice_index text.now 0 + slice_index text.now 1 * 256 }
{
    u16x1::from_le_bytes(u8x2::from_slice(text)).to_array()[0] as u32
}

/// Three bytes as a number, of which the first counts least. A fourth is read with them.
#[inline(always)]
pub(crate) fn triple(text: &[u8]) -> u32
    requires { 4 ≤ length text.now }
    ensures { result ≡ slice_index text.now 0 + slice_index text.now 1 * 256
        + slice_index text.now 2 * 65536 }
{
    quad(text) % (1 << 24)
}

/// Four bytes as a number, of which the first counts least.
#[inline(always)]
pub(crate) fn quad(text: &[u8]) -> u32
    requires { 4 ≤ length text.now }
    ensures { result ≡ slice_index text.now 0 + slice_index text.now 1 * 256
        + slice_index text.now 2 * 65536 + slice_index text.now 3 * 16777216 }
{
    u32x1::from_le_bytes(u8x4::from_slice(text)).to_array()[0]
}

/// A size of one digit or of two, of which the first isn't 0, that a newline ends, and how many
/// digits it has.
#[inline(always)]
pub(crate) fn near_size(text: &[u8]) -> Option<(u32, usize)>
    requires { 3 ≤ length text.now }
    ensures some { IfSome result (λ r. 1 ≤ r.0) }
    ensures small { IfSome result (λ r. r.0 < 100) }
    ensures few { IfSome result (λ r. r.1 ≤ 2) }
    ensures newline { IfSome result (λ r. slice_index text.now r.1 ≡ 10) }
    ensures value { IfSome result (λ r. Some r ≡ size_in text.now) }
{
    if let Some(above) = size_of_digit(text) {
        return Some((above + 1, 1));
    }
    let tens = text[0].wrapping_sub(b'1');
    let ones = text[1].wrapping_sub(b'0');
    if tens < 9 && ones < 10 && text[2] == b'\n' {
        Some(((tens as u32 + 1) * 10 + ones as u32, 2))
    } else {
        None
    }
}

/// A size of 1 to 6 decimal digits, at most 65536, and how many digits it has.
#[inline(always)]
#[tactic(auto, using(crate::proofs::AddressLemmas::length_front))]
pub(crate) fn size(text: &[u8]) -> Option<(u32, usize)>
    ensures within { IfSome result (λ r. r.1 ≤ length text.now) }
    ensures value { result ≡ size_in text.now }
{
    let (value, count) = decimal(text);
    if 1 <= count && count <= 6 && value <= 65536 {
        Some((value, count))
    } else {
        None
    }
}

/// The value and the number of the decimal digits that a text begins with, of which the first seven
/// are read.
#[inline(always)]
fn decimal(text: &[u8]) -> (u32, usize)
    ensures count { result.1 ≡ min 7 (length (front is_digit_byte text.now)) }
    ensures value { result.1 < 7 → result.0 ≡ decimal_value 0 (front is_digit_byte text.now) }
{
    let mut value = 0;
    for (at, byte) in text.iter().enumerate() {
        if at == 7 || !byte.is_ascii_digit() {
            return (value, at);
        }
        value = value * 10 + (*byte - b'0') as u32;
    }
    (value, text.len())
}
