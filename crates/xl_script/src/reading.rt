//! The readings of a line's words, for each form of script: what a word says, or the reason why it
//! says nothing.

ghost use Rattle.std.specs.Prelude.{◌≡◌, ◌<◌, ◌≤◌, ◌+◌, ◌∷◌, [], Ok, Err, drop, IfNone, IfOk, IfSome, MatchResult};
ghost use Rattle.xl_script.specs.Reading.{address_in, count_in, last_count, number, order_in, perm_in, short_in};
ghost use Rattle.xl_script.specs.Texts.{words_of};

use crate::number::{decimal, hexadecimal};
pub use crate::reason::Reason;
use crate::text::word;
pub use crate::words::is;
use crate::words::{order_word, perm_word};
use xl_model::{Order, Perm};

/// The word at this place of a line, and the place after it. None where the line has no word there.
pub fn next_at(line: &[u8], at: usize) -> Option<(&[u8], usize)>
    requires { at < 16 }
    ensures some { IfSome result (λ found.
        drop at (words_of line.now) ≡ found.0.now ∷ drop found.1 (words_of line.now)) }
    ensures none { IfNone result (drop at (words_of line.now) ≡ []) }
    ensures next { IfSome result (λ found. found.1 ≡ at + 1) }
{
    let Some(word) = word(line, at) else {
        return None;
    };
    Some((word, at + 1))
}

/// The first word of a line. None where the line has no word.
pub fn first_word(line: &[u8]) -> Option<&[u8]>
    ensures some { IfSome result (λ first.
        words_of line.now ≡ first.now ∷ drop 1 (words_of line.now)) }
    ensures none { IfNone result (words_of line.now ≡ []) }
{
    let Some(first) = word(line, 0) else {
        return None;
    };
    Some(first)
}

/// The word at this place of a line that needs one there, and the place after it.
pub fn needed(line: &[u8], at: usize) -> Result<(&[u8], usize), Reason>
    requires { at < 16 }
    ensures found { MatchResult result
        (λ found. drop at (words_of line.now) ≡ found.0.now ∷ drop found.1 (words_of line.now))
        (λ why. (drop at (words_of line.now) ≡ []) × (why ≡ Reason.WordCount)) }
    ensures next { IfOk result (λ found. found.1 ≡ at + 1) }
{
    next_at(line, at).ok_or(Reason::WordCount)
}

/// The word N at this place, the line's last, or 1 where it is left out.
pub fn count_word(line: &[u8], at: usize) -> Result<&[u8], Reason>
    requires { at < 15 }
    ensures { MatchResult result (λ n. last_count (drop at (words_of line.now)) ≡ Ok n.now)
        (λ why. last_count (drop at (words_of line.now)) ≡ Err why) }
{
    let Some((n, at)) = next_at(line, at) else {
        return Ok(b"1");
    };
    if next_at(line, at).is_some() {
        return Err(Reason::WordCount);
    }
    Ok(n)
}

/// A decimal number from `least` to `most`.
pub fn number(word: &[u8], least: u64, most: u64) -> Result<u64, Reason>
    ensures value { result ≡ number least most word.now }
    ensures within { IfOk result (λ n. (least ≤ n) × (n ≤ most)) }
{
    decimal(word, least, most).ok_or(Reason::Number)
}

/// A number from 0 to 65,535, of a space or a hart.
pub fn short(word: &[u8]) -> Result<u16, Reason>
    ensures { result ≡ short_in word.now }
{
    let n = number(word, 0, 65_535)?;
    Ok(n as u16)
}

/// An address in hexadecimal digits.
pub fn address(word: &[u8]) -> Result<u64, Reason>
    ensures { result ≡ address_in word.now }
{
    hexadecimal(word).ok_or(Reason::Number)
}

/// The size of a leaf.
pub fn order(word: &[u8]) -> Result<Order, Reason>
    ensures { result ≡ order_in word.now }
{
    order_word(word).ok_or(Reason::Order)
}

/// A legal permission.
pub fn perm(word: &[u8]) -> Result<Perm, Reason>
    ensures { result ≡ perm_in word.now }
{
    perm_word(word).ok_or(Reason::Perm)
}

/// How many leaves or blocks a line names, from 1 to 1,048,576.
pub fn count(word: &[u8]) -> Result<u32, Reason>
    ensures { result ≡ count_in word.now }
{
    let n = number(word, 1, 1_048_576)?;
    Ok(n as u32)
}
