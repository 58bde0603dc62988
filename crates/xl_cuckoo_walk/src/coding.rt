//! Sections as items.

ghost use Rattle.std.specs.Prelude.{◌≡◌, ◌+◌, ◌*◌, ◌/◌, ◌^◌, ◌<◌, ◌≤◌, find, length, IfSome};
ghost use Rattle.xl_model.specs.Addresses.{pages_of};
ghost use Rattle.xl_model.specs.Base.{one_if};
ghost use Rattle.xl_model.specs.Caches.{reaches_space};
ghost use Rattle.xl_model.specs.Recency.{purged};
ghost use Rattle.xl_cuckoo_walk.specs.Coding.{has_tag, word_of_item, is_old, is_reached, word_by, code_of};
ghost use Rattle.xl_cuckoo_walk.specs.Plans.{touched_in, newest_in, fenced};

use xl_model::Reach;
use xl_recency::{Cache, Item};

/// Moves the section of this tag to the front, and returns its word.
pub(crate) fn touch(cache: &mut Cache<Item>, tag: u64) -> Option<u64>
    ensures found { result ≡ word_of_item (find (has_tag tag) cache.old.items) }
    ensures moved { cache.new ≡ touched_in tag cache.old }
{
    match cache.touch(|item| item.tag == tag) {
        None => None,
        Some(item) => Some(item.word),
    }
}

/// A bit as a number.
fn one(bit: bool) -> u64
    ensures { result ≡ one_if bit }
{
    if bit { 1 } else { 0 }
}

/// The code of a way.
fn code(way: Option<u64>) -> u64
    requires { IfSome way (λ w. w < 4) }
    ensures { result ≡ code_of way }
{
    match way {
        None => 0,
        Some(way) => way + 1,
    }
}

/// The word of a section: whether it holds leaves of each order, and the way of its own leaf.
pub(crate) fn section_word(k4: bool, m2: bool, g1: bool, way: Option<u64>) -> u64
    requires { IfSome way (λ w. w < 4) }
    ensures { result ≡ word_by k4 m2 g1 way }
{
    one(k4) + (2 * one(m2) + (4 * one(g1) + 8 * code(way)))
}

/// Puts a section in front.
pub(crate) fn put_newest(cache: &mut Cache<Item>, tag: u64, word: u64)
    ensures { cache.new ≡ newest_in tag word cache.old }
{
    cache.fill(Item { tag, word });
}

/// Removes the section of this tag where it isn't as this word says.
pub(crate) fn refresh(cache: &mut Cache<Item>, tag: u64, word: u64)
    ensures { cache.new ≡ record cache.old { items = purged (is_old tag word) cache.old.items } }
{
    cache.remove_where(|item| item.tag == tag && item.word != word);
}

/// Whether a fence takes the sections of a space.
fn reaches(reach: Reach, space: u64) -> bool
    ensures { result ≡ reaches_space reach space }
{
    match reach {
        Reach::All => true,
        Reach::Space { space: fenced } => space == fenced as u64,
        Reach::Addr { .. } | Reach::Page { .. } => false,
    }
}

/// Removes what a fence reaches from a cache. Returns how many sections it removed.
pub(crate) fn fence_cache(cache: &mut Cache<Item>, reach: Reach) -> u64
    ensures left { cache.new ≡ fenced reach cache.old }
    ensures count { result + length cache.new.items ≡ length cache.old.items }
    ensures most { result ≤ 64 }
{
    cache.remove_where(
        |item: &Item|
            ensures { result ≡ is_reached reach item.now }
        { reaches(reach, item.tag / 0x2000_0000_0000) },
    )
}
