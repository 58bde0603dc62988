//! The walk caches: one of each level of nodes below the root, level 0 first.

ghost use Rattle.std.specs.Prelude.{◌≡◌, suc, ◌+◌, ◌-◌, ◌*◌, ◌^◌, ◌<◌, ◌≤◌, ◌&&◌, nat_lt, nat_le, slice_index, [], true, None, Some, length, IfSome, IfNone};
ghost use Rattle.xl_model.specs.Nodes.{up, number_of};
ghost use Rattle.xl_model.specs.Caches.{reaches_space};
ghost use Rattle.xl_model.specs.Walks.{start_level, node_caches_after};
ghost use Rattle.xl_recency.specs.Lists.{Touches, Purges};
ghost use Rattle.xl_radix_walk.specs.Row.{tag_at, has_tag, caches_in, AreNumbered, filled_one, filled_caches, is_gone, purged_caches, entries_of, is_fenced, fenced_caches};

use xl_model::Reach;
use xl_radix::{Radix, block_of};
use xl_recency::{Cache, Item};

/// Where a walk starts: the level and number of a node.
#[derive(Clone, Copy)]
pub(crate) struct Start {
    pub level: usize,
    pub node: u64,
}

/// The tag of the page's node of this level.
pub(crate) fn tag_of(space: u16, page: u64, level: usize) -> u64
    requires level { level < 4 }
    requires page { page < 2 ^ 45 }
    ensures { result ≡ tag_at space level page }
{
    space as u64 * 0x1_0000_0000_0000 + block_of(page, level + 1)
}

/// Touches the newest item of a tag.
fn touch_tag(cache: &mut Cache<Item>, tag: u64) -> Option<Item>
    ensures touched { Touches (has_tag tag) cache.old.items cache.new.items result }
    ensures width { cache.new.width ≡ cache.old.width }
{
    cache.touch(|item| item.tag == tag)
}

/// The lowest level from this one on whose cache holds the page's node, which is touched.
pub(crate) fn look(caches: &mut [Cache<Item>], level: usize, space: u16, page: u64) -> Option<Start>
    requires levels { level + length caches.old ≤ 4 }
    requires page { page < 2 ^ 45 }
    ensures some { IfSome result (λ s.
        s.level ≡ start_level level space page (caches_in level caches.old)) }
    ensures low { IfSome result (λ s. s.level < level + length caches.old) }
    ensures none { IfNone result
        (start_level level space page (caches_in level caches.old) ≡ level + length caches.old) }
    ensures caches { caches_in level caches.new ≡
        node_caches_after level (start_level level space page (caches_in level caches.old))
        None space page [] (caches_in level caches.old) }
    ensures length { length caches.new ≡ length caches.old }
    ensures number { (nodes : _) → AreNumbered level nodes caches.old → IfSome result (λ s.
        number_of space (suc s.level) (up (suc s.level) page) nodes ≡ Some s.node) }
    ensures kept { (nodes : _) → AreNumbered level nodes caches.old →
        AreNumbered level nodes caches.new }
{
    let Some((first, rest)) = caches.split_first_mut() else {
        return None;
    };
    match touch_tag(first, tag_of(space, page, level)) {
        Some(item) => Some(Start {
            level,
            node: item.word,
        }),
        None => look(rest, level + 1, space, page),
    }
}

/// Puts an item into a cache.
fn fill_tag(cache: &mut Cache<Item>, tag: u64, number: u64)
    ensures { cache.new ≡ filled_one true tag number cache.old }
{
    cache.fill(Item { tag, word: number });
}

/// Fills the cache of a level where it lies from `least` to below `start`.
fn fill_at(
    cache: &mut Cache<Item>,
    level: usize,
    start: usize,
    least: usize,
    tag: u64,
    path: &[u64],
)
    requires path { start ≤ length path.now + least }
    ensures { cache.new ≡ filled_one (nat_lt level start && nat_le least level) tag
        (slice_index path.now (start - 1 - level)) cache.old }
{
    if level < start && least <= level {
        fill_tag(cache, tag, path[start - 1 - level]);
    }
}

/// Fills the caches of the levels from `least` to below `start` with the nodes of a walk's path.
pub(crate) fn fill(
    caches: &mut [Cache<Item>],
    level: usize,
    start: usize,
    least: usize,
    space: u16,
    page: u64,
    path: &[u64],
)
    requires levels { level + length caches.old ≤ 4 }
    requires page { page < 2 ^ 45 }
    requires path { start ≤ length path.now + least }
    ensures { caches.new ≡ filled_caches level start least space page path.now caches.old }
{
    let Some((first, rest)) = caches.split_first_mut() else {
        return;
    };
    fill_at(first, level, start, least, tag_of(space, page, level), path);
    fill(rest, level + 1, start, least, space, page, path);
}

/// Removes the items whose numbers no node has. Returns how many it removed.
fn purge_cache<const LEVELS: usize>(cache: &mut Cache<Item>, radix: &Radix<LEVELS>) -> u64
    ensures purged { Purges (is_gone radix.now.nodes) cache.old.items cache.new.items result }
    ensures width { cache.new.width ≡ cache.old.width }
    ensures most { result ≤ 64 }
{
    cache.remove_where(
        |item: &Item|
            ensures { result ≡ is_gone radix.entry.now.nodes item.now }
        { !radix.has_number(item.word as usize) },
    )
}

/// Removes from all caches the items whose numbers no node has. Returns how many it removed.
pub(crate) fn purge<const LEVELS: usize>(caches: &mut [Cache<Item>], radix: &Radix<LEVELS>) -> u64
    requires { length caches.old ≤ 4 }
    ensures caches { caches.new ≡ purged_caches radix.now.nodes caches.old }
    ensures count { result + entries_of caches.new ≡ entries_of caches.old }
    ensures most { result ≤ 64 * length caches.old }
{
    let Some((first, rest)) = caches.split_first_mut() else {
        return 0;
    };
    let left = purge_cache(first, radix);
    left + purge(rest, radix)
}

/// Whether a fence takes the nodes of a space.
fn reaches(reach: Reach, space: u64) -> bool
    ensures { result ≡ reaches_space reach space }
{
    match reach {
        Reach::All => true,
        Reach::Space { space: fenced } => space == fenced as u64,
        Reach::Addr { .. } | Reach::Page { .. } => false,
    }
}

/// Removes what a fence reaches from a cache. Returns how many it removed.
fn fence_cache(cache: &mut Cache<Item>, reach: Reach) -> u64
    ensures purged { Purges (is_fenced reach) cache.old.items cache.new.items result }
    ensures width { cache.new.width ≡ cache.old.width }
    ensures most { result ≤ 64 }
{
    cache.remove_where(
        |item: &Item|
            ensures { result ≡ is_fenced reach item.now }
        { reaches(reach, item.tag / 0x1_0000_0000_0000) },
    )
}

/// Removes what a fence reaches from all caches. Returns how many it removed.
pub(crate) fn fence_caches(caches: &mut [Cache<Item>], reach: Reach) -> u64
    requires { length caches.old ≤ 4 }
    ensures caches { caches.new ≡ fenced_caches reach caches.old }
    ensures count { result + entries_of caches.new ≡ entries_of caches.old }
    ensures most { result ≤ 64 * length caches.old }
{
    let Some((first, rest)) = caches.split_first_mut() else {
        return 0;
    };
    let left = fence_cache(first, reach);
    left + fence_caches(rest, reach)
}
