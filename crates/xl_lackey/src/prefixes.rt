//! Line-prefix cache: prefix bytes to page and kind.
//!
//! Taken at lines of one access in Lackey's own form, with an address of eight digits, ten or
//! twelve, where a line of the same kind and page was kept. Saves reading all but the last three
//! digits and the size.

ghost use Rattle.std.specs.Prelude.{◌≡◌, ◌≢◌, ℕ, ◌+◌, ◌*◌, ◌^◌, ◌<◌, ◌≤◌, ◌∷◌, ◌⊎◌, [], IsTrue, length, take, drop, Some, IfSome, slice_index};
ghost use Rattle.std.specs.List.{All};
ghost use Rattle.xl_lackey.specs.Digits.{hex_value};
ghost use Rattle.xl_lackey.specs.PrefixCache.{IsBeginning, IsPrefix};
ghost use Rattle.xl_lackey.specs.Skims.{IsRecordLine};

use crate::digits::{digit_or_page, eight_digits, hex_digit, near_size, quad, size_of_digit, word};
use crate::front::front_of;
use crate::skim::Access;
use std::marker::Model;
use std::simd::prelude::*;
use xl_model::Kind;

/// How many pages are kept of addresses of eight digits, of ten and of twelve each.
const PLACES: usize = 256;

/// Fewer lines of kept pages than this, one after another, are few.
const FEW: u64 = 4;

/// How many lines are read whether their pages are kept or not, the first time that few are.
const FIRST_PLAIN: u64 = 32;

/// The most lines that are so read: as many as a batch has room for.
const MOST_PLAIN: u64 = 256;

/// A page, and how a line begins whose address lies in it: up to the last three digits, which are
/// the place in the page.
#[derive(Clone, Copy)]
struct Prefix {
    /// The eight bytes before the last three digits, of which the first counts least.
    word: u64,
    /// The first four bytes, of which the first counts least.
    front: u32,
    /// The page's first address.
    addr: u64,
    /// The kind of the line's access.
    kind: Kind,
}

impl Prefix {
    /// Whether the prefix matches. Eight bytes are the whole prefix of a line with eight digits;
    /// before those of a line with more there are four at most.
    #[inline(always)]
    fn begins(&self, word: u64, front: u32, extra: usize) -> bool
        ensures word { IsTrue result → self.now.word ≡ word }
        ensures front { IsTrue result → (extra ≡ 0) ⊎ (self.now.front ≡ front) }
    {
        self.word == word && (extra == 0 || self.front == front)
    }

    /// The access at offset `at`, if its `above` further bytes stay in the page.
    #[inline(always)]
    fn access(&self, at: u64, above: u32) -> Option<Access>
        requires at { at < 2000000 }
        requires above { above < 99 }
        requires addr { self.now.addr < 2 ^ 48 }
        ensures is { IfSome result
            (λ a. a ≡ record { va = self.now.addr + at; kind = self.now.kind }) }
        ensures within { IfSome result (λ a. at + above < 4096) }
    {
        if at + (above as u64) < 4096 {
            Some(Access {
                va: self.addr + at,
                kind: self.kind,
            })
        } else {
            None
        }
    }
}

/// The place of a page among those that are kept, by how its lines begin.
#[inline(always)]
fn place_of(word: u64, front: u32, extra: usize) -> usize
    ensures { result < 256 }
{
    let key = if extra == 0 {
        word
    } else {
        word.wrapping_add(front as u64 * 8)
    };
    (key.wrapping_mul(0x9e37_79b9_7f4a_7c15) >> 56) as usize
}

/// The first line of a text, where its address has `extra` digits more than eight and its page is
/// kept: how many bytes it has with its newline, and its access.
#[inline(always)]
fn kept_record(prefixes: &[Prefix], text: &[u8], extra: usize) -> Option<(usize, Access)>
    requires long { 19 ≤ length text.now }
    requires few { extra ≤ 4 }
    requires comma { slice_index text.now (11 + extra) ≡ 44 }
    requires places { length prefixes.now ≡ 256 }
    requires kept { All (IsPrefix extra) prefixes.now }
    ensures record { IfSome result (λ r. IsRecordLine text.now r.0 (r.1 ∷ [])) }
    ensures few { IfSome result (λ r. r.0 ≤ 19) }
{
    let word = word(u8x8::from_slice(&text[extra..]));
    let front = quad(text);
    let prefix = &prefixes[place_of(word, front, extra)];
    if !prefix.begins(word, front, extra) {
        return None;
    }
    let at = place_in_page(&text[8 + extra..]);
    let sized = &text[12 + extra..];
    if let Some(above) = size_of_digit(sized) {
        return Some((14 + extra, prefix.access(at, above)?));
    }
    let (size, digits) = near_size(sized)?;
    Some((13 + extra + digits, prefix.access(at, size - 1)?))
}

/// The value of three digits; 4096 or more where one of them is none.
#[inline(always)]
fn place_in_page(text: &[u8]) -> u64
    requires { 3 ≤ length text.now }
    ensures value { result < 4096 →
        (v : ℕ) → hex_value v (take 3 text.now) ≡ Some (v * 4096 + result) }
    ensures few { result < 2000000 }
{
    digit_or_page(text[0]) * 256 + digit_or_page(text[1]) * 16 + digit_or_page(text[2])
}

/// Keeps a page in its place.
fn keep_page(prefixes: &mut [Prefix], text: &[u8], extra: usize, page: u64, kind: Kind)
    requires long { 19 ≤ length text.now }
    requires few { extra ≤ 4 }
    requires begins { IsBeginning extra (take (8 + extra) text.now) kind page }
    requires places { length prefixes.old ≡ 256 }
    requires kept { All (IsPrefix extra) prefixes.old }
    ensures kept { All (IsPrefix extra) prefixes.new }
{
    let word = word(u8x8::from_slice(&text[extra..]));
    let front = quad(text);
    prefixes[place_of(word, front, extra)] = Prefix {
        word,
        front,
        addr: page * 4096,
        kind,
    };
}

/// Direct-mapped prefix caches, one for each number of digits.
#[derive(Drop)]
pub(crate) struct PrefixCache {
    eight: [Prefix; PLACES],
    ten: [Prefix; PLACES],
    twelve: [Prefix; PLACES],
    /// How many lines are read whether their pages are kept or not, the next time that few are.
    plain: u64,
}

impl Model for PrefixCache {
    ghost use Rattle.std.specs.List.{All};
    ghost use Rattle.xl_lackey.specs.PrefixCache.{IsPrefix};

    ghost Value = { Unit {0} };

    ghost view = { λ p. tt };

    ghost invariant = { λ p. All (IsPrefix 0) p.eight × All (IsPrefix 2) p.ten
        × All (IsPrefix 4) p.twelve };
}

impl PrefixCache {
    /// In each place the first page of all.
    pub(crate) fn new() -> PrefixCache {
        let eight = Prefix {
            word: 0x3030_3030_3020_2049,
            front: 0x3020_2049,
            addr: 0,
            kind: Kind::Fetch,
        };
        let ten = Prefix {
            word: 0x3030_3030_3030_3020,
            ..eight
        };
        let twelve = Prefix {
            word: 0x3030_3030_3030_3030,
            ..eight
        };
        PrefixCache {
            eight: [eight; PLACES],
            ten: [ten; PLACES],
            twelve: [twelve; PLACES],
            plain: FIRST_PLAIN,
        }
    }

    /// How many lines to read whether their pages are kept or not, after `kept` lines of kept
    /// pages: one, or many where those are few, since a branch on which line's page is kept is then
    /// predicted badly; twice as many each time that they are few again. Any number is right: it
    /// decides the speed alone.
    #[inline(always)]
    pub(crate) fn plain_lines(&mut self, kept: u64) -> u64 {
        if kept >= FEW {
            self.plain = FIRST_PLAIN;
            return 1;
        }
        let lines = self.plain;
        self.plain = lines.saturating_mul(2).min(MOST_PLAIN);
        lines
    }

    /// The first line of a text, where its page is kept: how many bytes it has with its newline,
    /// and its access.
    #[inline(always)]
    pub(crate) fn record(&self, text: &[u8]) -> Option<(usize, Access)>
        requires { 19 ≤ length text.now }
        ensures record { IfSome result (λ r. IsRecordLine text.now r.0 (r.1 ∷ [])) }
        ensures few { IfSome result (λ r. r.0 ≤ 19) }
    {
        if text[11] == b',' {
            kept_record(&self.eight, text, 0)
        } else if text[13] == b',' {
            kept_record(&self.ten, text, 2)
        } else if text[15] == b',' {
            kept_record(&self.twelve, text, 4)
        } else {
            None
        }
    }

    /// Keeps the page of a line that is no modify and whose address has eight digits, ten or twelve.
    pub(crate) fn keep(&mut self, text: &[u8])
        requires { 19 ≤ length text.now }
    {
        let Some((front, numbers)) = front_of(text) else {
            return;
        };
        if front.is_modify {
            return;
        }
        let Some(eight) = eight_digits(numbers) else {
            return;
        };
        if text[11] == b',' {
            keep_page(&mut self.eight, text, 0, eight / 4096, front.kind);
        } else if text[13] == b',' {
            keep_page(&mut self.ten, text, 2, eight / 16, front.kind);
        } else if text[15] == b',' {
            let Some(ninth) = hex_digit(numbers[8]) else {
                return;
            };
            keep_page(&mut self.twelve, text, 4, eight * 16 + ninth, front.kind);
        }
    }
}
