//! One line of a trace, read from its first byte to its last.

ghost use Rattle.std.specs.Prelude.{◌≡◌, ℕ, ◌+◌, ◌-◌, ◌^◌, ◌≤◌, length, take, drop, Option};
ghost use Rattle.std.specs.Option.{option_map};
ghost use Rattle.xl_text.specs.Texts.{is_blank};
ghost use Rattle.xl_lackey.specs.Lines.{is_remark as begins_as_remark, letter_of as letter_by, after, address_after as address_in_words, judge as verdict_of, of_text, of_words, of_letter, of_address, of_size, size_in, of_end, fits as is_within, IsProper};

use crate::digits;
use crate::reference::Letter;
use xl_text::without_return;

/// What a line of the trace is.
#[derive(Clone, Copy)]
pub(crate) enum Verdict {
    /// No record, and no fault.
    Skipped,
    /// A record.
    Found {
        letter: Letter,
        addr: u64,
        size: u32,
    },
    /// Outside the grammar, for the first reason that holds.
    Bad {
        reason: u8,
    },
}

/// The most bytes of a line that isn't skipped by its first bytes.
const LONGEST: usize = 256;

/// Judges a line, without the newline that ends it.
#[tactic(auto, unfolding(crate::specs::Lines::judge))]
pub(crate) fn judge(line: &[u8]) -> Verdict
    ensures value { result ≡ verdict_of line.now }
    ensures proper { IsProper result }
{
    read_text(without_return(line))
}

/// Whether a line is skipped by its first bytes, however long it is.
fn is_remark(text: &[u8]) -> bool
    ensures { result ≡ begins_as_remark text.now }
{
    match text {
        [b'=', b'=', ..] | [b'-', b'-', ..] | [b'*', b'*', ..] => true,
        [b'S', b'B', b' ', ..] | [b'#', ..] => true,
        _ => false,
    }
}

fn letter(byte: u8) -> Option<Letter>
    ensures { result ≡ letter_by byte }
{
    match byte {
        b'I' => Some(Letter::I),
        b'L' => Some(Letter::L),
        b'S' => Some(Letter::S),
        b'M' => Some(Letter::M),
        _ => None,
    }
}

fn read_text(text: &[u8]) -> Verdict
    ensures value { result ≡ of_text text.now }
    ensures proper { IsProper result }
{
    if is_remark(text) {
        return Verdict::Skipped;
    }
    if text.len() > LONGEST {
        return Verdict::Bad { reason: 6 };
    }
    read_words(&text[digits::count_blanks(text)..])
}

fn read_words(text: &[u8]) -> Verdict
    ensures value { result ≡ of_words text.now }
    ensures proper { IsProper result }
{
    if text.is_empty() || text[0] == b'#' {
        return Verdict::Skipped;
    }
    match letter(text[0]) {
        Some(letter) => read_address(letter, &text[1..]),
        None => Verdict::Bad { reason: 1 },
    }
}

fn read_address(letter: Letter, text: &[u8]) -> Verdict
    ensures value { result ≡ of_address letter (address_in_words text.now) }
    ensures proper { IsProper result }
{
    let blanks = digits::count_blanks(text);
    if blanks == 0 {
        return Verdict::Bad { reason: 2 };
    }
    let text = &text[blanks..];
    match digits::address(text, 0, 0) {
        Some((addr, comma)) => read_size(letter, addr, &text[comma + 1..]),
        None => Verdict::Bad { reason: 2 },
    }
}

fn read_size(letter: Letter, addr: u64, text: &[u8]) -> Verdict
    ensures value { result ≡ of_size letter addr text.now (size_in text.now) }
    ensures proper { IsProper result }
{
    match digits::size(text) {
        Some((size, count)) => read_end(letter, addr, size, &text[count..]),
        None => Verdict::Bad { reason: 3 },
    }
}

fn read_end(letter: Letter, addr: u64, size: u32, text: &[u8]) -> Verdict
    requires { size ≤ 65536 }
    ensures value { result ≡ of_end letter addr size (after is_blank text.now) }
    ensures proper { IsProper result }
{
    let blanks = digits::count_blanks(text);
    if blanks < text.len() && text[blanks] != b'#' {
        return Verdict::Bad { reason: 4 };
    }
    if !fits(addr, size) {
        return Verdict::Bad { reason: 5 };
    }
    Verdict::Found { letter, addr, size }
}

/// Whether the bytes touched, from the address on and at least one, end at 2^64 - 1 at the latest.
pub(crate) fn fits(addr: u64, size: u32) -> bool
    ensures { result ≡ is_within addr size }
{
    u64::MAX - addr >= size.max(1) as u64 - 1
}
