//! The lines of a text, and the words of a line.

ghost use Rattle.std.specs.Prelude.{◌≡◌, ◌+◌, ◌==◌, ◌<◌, ◌≤◌, false, min, not, List, [], ◌∷◌, length, take, drop, IfNone, IfSome, slice_get, slice_index, slice_range};
ghost use Rattle.std.specs.Option.{option_copied};
ghost use Rattle.std.specs.List.{position, position_or_len};
ghost use Rattle.xl_text.specs.Texts.{is_blank, without_return};
ghost use Rattle.xl_script.specs.Texts.{script_lines, to_newline, words_of};

use memchr::memchr;
use xl_text::{is_blank, without_return};

/// The place of a text's first newline.
fn first_newline(text: &[u8]) -> Option<usize>
    ensures { result ≡ position (λ byte. byte == 10) text.now }
{
    memchr(b'\n', text)
}

/// The number of bytes before the first newline.
#[tactic(auto, using(crate::proofs::TextLemmas::place_within))]
fn line_length(text: &[u8]) -> usize
    ensures value { result ≡ to_newline text.now }
    ensures within { result ≤ length text.now }
{
    first_newline(text).unwrap_or(text.len())
}

/// The end of the line that begins at `at`, without its newline and without one carriage return
/// before it, and the place after its newline, or the text's length where it has none.
pub fn line(text: &[u8], at: usize) -> (usize, usize)
    requires { at < length text.now }
    ensures bounds { (at ≤ result.0) × (result.0 ≤ result.1) × (at < result.1)
        × (result.1 ≤ length text.now) }
    ensures end { result.0
        ≡ at + length (without_return (take (to_newline (drop at text.now)) (drop at text.now))) }
    ensures next { result.1 ≡ min (at + to_newline (drop at text.now) + 1) (length text.now) }
    ensures lines { script_lines (drop at text.now)
        ≡ slice_range text.now at result.0 ∷ script_lines (drop result.1 text.now) }
{
    let rest = &text[at..];
    let length = line_length(rest);
    let end = at + without_return(&rest[..length]).len();
    let next = if length < rest.len() {
        at + length + 1
    } else {
        text.len()
    };
    (end, next)
}

/// The place of a line's first byte that is no blank.
fn first_other(line: &[u8]) -> Option<usize>
    ensures { result ≡ position (λ byte. not (is_blank byte)) line.now }
{
    line.iter().position(|byte| !is_blank(*byte))
}

/// The number of blanks at a line's front.
#[tactic(auto, using(crate::proofs::TextLemmas::place_within))]
fn blank_length(line: &[u8]) -> usize
    ensures value { result ≡ position_or_len (λ byte. not (is_blank byte)) line.now }
    ensures within { result ≤ length line.now }
{
    first_other(line).unwrap_or(line.len())
}

/// A line from its first byte on that is no blank.
fn without_blanks(line: &[u8]) -> &[u8]
    ensures same { words_of result.now ≡ words_of line.now }
    ensures front { 0 < length result.now → is_blank (slice_index result.now 0) ≡ false }
{
    &line[blank_length(line)..]
}

/// The place of a line's first blank.
fn first_blank(line: &[u8]) -> Option<usize>
    ensures { result ≡ position is_blank line.now }
{
    line.iter().position(|byte| is_blank(*byte))
}

/// The number of bytes before the first blank.
#[tactic(auto, using(crate::proofs::TextLemmas::place_within))]
fn word_length(line: &[u8]) -> usize
    ensures value { result ≡ position_or_len is_blank line.now }
    ensures within { result ≤ length line.now }
{
    first_blank(line).unwrap_or(line.len())
}

/// The first word of a line and what follows it in the line; None where the line has no word. Words
/// are parted by spaces and tabs, and `#` begins a comment at the line's front or after a blank.
pub(crate) fn next_word(line: &[u8]) -> Option<(&[u8], &[u8])>
    ensures some { IfSome result (λ found. words_of line.now ≡ found.0.now ∷ words_of found.1.now) }
    ensures none { IfNone result (words_of line.now ≡ []) }
{
    let line = without_blanks(line);
    if line.is_empty() || line[0] == b'#' {
        return None;
    }
    let length = word_length(line);
    Some((&line[..length], &line[length..]))
}

/// The word of a line at this place, from 0; None where the line has no such word. Words are parted
/// by spaces and tabs, and `#` begins a comment at the line's front or after a blank.
pub fn word(line: &[u8], i: usize) -> Option<&[u8]>
    ensures { option_copied result ≡ slice_get (words_of line.now) i }
{
    let mut rest = line;
    for _ in 0..i {
        let Some((_, after)) = next_word(rest) else {
            return None;
        };
        rest = after;
    }
    match next_word(rest) {
        Some((word, _)) => Some(word),
        None => None,
    }
}
