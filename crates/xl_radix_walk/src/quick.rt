//! Radix walk over a slice of all words; only the case where every word is valid and the leaf is 4
//! KiB.

ghost use Rattle.std.specs.Prelude.{◌≡◌, ℕ, ◌<◌, ◌≤◌, ◌^◌, List, length, IfSome};
ghost use Rattle.xl_pte.specs.Decode.{decode_of};
ghost use Rattle.xl_radix.specs.Walk.{radix_back};
ghost use Rattle.xl_radix_walk.specs.Quick.{Points, EndsAt, Enters, Finds, HasWord, AreFirst, IsAllowed};

use xl_model::Kind;
use xl_pte::{allowed_word, small_word};
use xl_radix::index_of;

/// The number that the word of a pointer says, above level 0: V is set, and neither R, W nor X is.
/// Reserved bits are read as the number's highest, so that it is 2^44 or more where one is set.
#[inline(always)]
#[tactic(auto, unfolding(xl_pte::specs::Decode::decode_of))]
fn number_pointed(word: u64) -> Option<u64>
    ensures said { IfSome result (λ next. next < 2 ^ 44 → Points word next) }
    ensures small { IfSome result (λ next. next < 2 ^ 54) }
{
    if word % 16 == 1 {
        Some(word >> 10)
    } else {
        None
    }
}

/// The node that a word points to at a level above 0: V is set, and neither R, W, X nor a reserved
/// bit is.
#[inline(always)]
#[tactic(auto, unfolding(xl_pte::specs::Decode::decode_of))]
pub fn pointed(word: u64) -> Option<u64>
    ensures said { IfSome result (Points word) }
    ensures small { IfSome result (λ next. next < 2 ^ 44) }
{
    if word % 16 == 1 && word >> 54 == 0 {
        Some(word / 1024)
    } else {
        None
    }
}

/// The word at level 0 that the walk of a page from `node` of level `start` ends at. `words` are
/// the first of all words. The nodes entered come first in `path`. `None`: not taken.
#[inline(always)]
fn last_word(words: &[u64], start: usize, node: u64, page: u64, path: &mut [u64; 4]) -> Option<u64>
    requires few { length words.now ≤ 2 ^ 53 }
    requires start { start < 5 }
    requires node { node < 2 ^ 44 }
    ensures ends { (all : List ℕ) → AreFirst words.now all
        → IfSome result (EndsAt all start node page) }
    ensures path { (all : List ℕ) → AreFirst words.now all
        → IfSome result (λ _. Enters all start node page path.new) }
{
    let mut level = start;
    let mut at = node;
    'down: while level > 0 {
        // No word is at a number that has a reserved bit.
        at = number_pointed(word_at(words, level, at, page)?)?;
        path[start - level] = at;
        level -= 1;
    }
    word_at(words, 0, at, page)
}

/// The word of the leaf that the walk of a page from `node` of level `start` finds at level 0: its
/// frame (times 16) and its permission. `words` are the first of all words. Where a kind is given,
/// the leaf permits it. The nodes entered come first in `path`. `None`: not taken.
#[inline(always)]
pub(crate) fn quick_word(
    words: &[u64],
    start: usize,
    node: u64,
    page: u64,
    kind: Option<Kind>,
    path: &mut [u64; 4],
) -> Option<u64>
    requires few { length words.now ≤ 2 ^ 53 }
    requires start { start < 5 }
    requires node { node < 2 ^ 44 }
    ensures finds { (all : List ℕ) → AreFirst words.now all
        → IfSome result (Finds all start node page) }
    ensures path { (all : List ℕ) → AreFirst words.now all
        → IfSome result (λ _. Enters all start node page path.new) }
    ensures allows { IfSome result (IsAllowed kind) }
{
    let word = last_word(words, start, node, page, path)?;
    match kind {
        Some(kind) => allowed_word(word, kind),
        None => small_word(word),
    }
}

/// The word of a page in a node of this level, where it is one of the first.
#[inline(always)]
fn word_at(words: &[u64], level: usize, node: u64, page: u64) -> Option<u64>
    requires few { length words.now ≤ 2 ^ 53 }
    requires level { level < 5 }
    requires node { node < 2 ^ 54 }
    ensures word { (all : List ℕ) → AreFirst words.now all
        → IfSome result (HasWord all level node page) }
    ensures near { IfSome result (λ _. node < 2 ^ 44) }
{
    let place = node * 512 + index_of(page, level) as u64;
    if (place as usize) < words.len() {
        Some(words[place as usize])
    } else {
        None
    }
}
