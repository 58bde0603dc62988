//! A record by its word: its line, and what the line is read as.

ghost use Rattle.std.specs.Prelude.{◌≡◌, ◌+◌, ◌≤◌, ◌++◌, length, take};
ghost use Rattle.xl_lackey.specs.Skims.{HasRoom};
ghost use Rattle.xl_made.specs.Made.{letter_of, size_of, size_text, page_of, address_of, record_line};
ghost use Rattle.xl_lackey.specs.Usual.{first_kind, is_modify as modifies, usual_front};
ghost use Rattle.xl_made.specs.Taken.{Follows};

use crate::digits::hex_text;
use xl_lackey::{Batch, Letter, Reference, put_accesses};
use xl_model::Kind;

/// How many bytes the line of a record has.
pub(crate) const LINE: usize = 14;

/// The first address.
pub(crate) const FIRST: u32 = 0x1000_0000;

/// The line of the record that a word makes.
#[tactic(auto, unfolding(crate::specs::Made::record_line))]
pub(crate) fn line(word: u32) -> [u8; LINE]
    ensures { result ≡ record_line word }
{
    let mut line = [0; LINE];
    put(&mut line, 0, &front(word));
    put(&mut line, 3, &hex_text(address(word)));
    put(&mut line, 11, &end(word));
    line
}

/// Puts bytes at a place.
pub(crate) fn put(line: &mut [u8], at: usize, bytes: &[u8])
    requires room { at + length bytes.now ≤ length line.old }
    ensures { take (at + length bytes.now) line.new ≡ take at line.old ++ bytes.now }
{
    line[at..at + bytes.len()].copy_from_slice(bytes);
}

/// How a line begins and ends, by the last three bits of its word: three bytes for each. Which
/// comes next can't be predicted, so a choice among them would cost more than a look-up.
const LETTERS: [u8; 24] = *b"I  I  I   L  L  L  S  M ";

const SIZES: [u8; 24] = *b",4\n,4\n,4\n,8\n,8\n,8\n,8\n,8\n";

/// How the line begins: the letter in its place.
#[tactic(auto, unfolding(crate::specs::Made::letter_of))]
fn front(word: u32) -> [u8; 3]
    ensures { result ≡ usual_front (letter_of word) }
{
    let at = (word % 8) as usize * 3;
    [LETTERS[at], LETTERS[at + 1], LETTERS[at + 2]]
}

/// How the line ends: the size, and what is round it.
#[tactic(auto, unfolding(crate::specs::Made::size_of))]
fn end(word: u32) -> [u8; 3]
    ensures { result ≡ size_text (size_of word) }
{
    let at = (word % 8) as usize * 3;
    [SIZES[at], SIZES[at + 1], SIZES[at + 2]]
}

/// The page, counted from the first.
#[tactic(auto, unfolding(crate::specs::Made::page_of))]
fn page(word: u32) -> u32
    ensures value { result ≡ page_of word }
    ensures most { result ≤ 4095 }
{
    if word >> 28 < 12 {
        word / 8 % 64
    } else {
        word / 8 % 4096
    }
}

/// The address.
#[tactic(auto, unfolding(crate::specs::Made::address_of))]
fn address(word: u32) -> u32
    ensures { result ≡ address_of word }
{
    FIRST + page(word) * 4096 + (word >> 15) % 512 * 8
}

/// The letter, the address and the size of a record, whose line has this number.
#[tactic(auto, unfolding(crate::specs::Made::size_of))]
pub(crate) fn reference(word: u32, line: u64) -> Reference
    ensures letter { result.letter ≡ letter_of word }
    ensures addr { result.addr ≡ address_of word }
    ensures size { result.size ≡ size_of word }
    ensures line { result.line ≡ line }
{
    Reference {
        letter: letter(word),
        addr: address(word) as u64,
        size: if word % 8 < 3 { 4 } else { 8 },
        line,
    }
}

#[tactic(auto, unfolding(crate::specs::Made::letter_of))]
fn letter(word: u32) -> Letter
    ensures { result ≡ letter_of word }
{
    match word % 8 {
        0..=2 => Letter::I,
        3..=5 => Letter::L,
        6 => Letter::S,
        _ => Letter::M,
    }
}

/// The kinds of accesses by the last three bits of a word; of a modify its load.
const KINDS: [Kind; 8] = [
    Kind::Fetch,
    Kind::Fetch,
    Kind::Fetch,
    Kind::Load,
    Kind::Load,
    Kind::Load,
    Kind::Store,
    Kind::Load,
];

/// The kind of a record's first access.
#[tactic(auto, unfolding(crate::specs::Made::letter_of))]
fn kind(word: u32) -> Kind
    ensures { result ≡ first_kind (letter_of word) }
{
    let kind = &KINDS[(word % 8) as usize];
    *kind
}

/// Whether a store follows it.
#[tactic(auto, unfolding(crate::specs::Made::letter_of))]
fn is_modify(word: u32) -> bool
    ensures { result ≡ modifies (letter_of word) }
{
    word % 8 == 7
}

/// Puts the accesses of a record after those that are there. All its bytes lie in one page.
#[inline(always)]
pub(crate) fn put_record(into: &mut Batch, word: u32)
    requires { HasRoom into.old.items }
    ensures { Follows word into.old.items into.new.items }
{
    put_accesses(into, address(word) as u64, kind(word), is_modify(word));
}
