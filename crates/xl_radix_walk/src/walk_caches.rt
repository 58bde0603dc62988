//! All walk caches of a row.

ghost use Rattle.std.specs.Prelude.{◌≡◌, suc, ◌+◌, ◌*◌, ◌^◌, ◌<◌, ◌≤◌, [], true, drop, map, None, Some, length, IsTrue, IfSome, IfNone, IfOk};
ghost use Rattle.std.specs.List.{list_all};
ghost use Rattle.xl_model.specs.Nodes.{up, number_of};
ghost use Rattle.xl_model.specs.Caches.{empty_cache};
ghost use Rattle.xl_model.specs.Rows.{is_width};
ghost use Rattle.xl_model.specs.Walks.{start_level, node_caches_after};
ghost use Rattle.xl_radix.specs.Walk.{end_of};
ghost use Rattle.xl_recency.specs.Lists.{Touches};
ghost use Rattle.xl_radix_walk.specs.Row.{above_off, has_tag, tag_at, caches_in, AreOff, AreNumbered, IsLowest, filled_by, filled_caches, FillsNone, purged_caches, entries_of, fenced_caches};

use crate::caches::{Start, fence_caches, fill, look, purge, tag_of};
use std::alloc::Global;
use std::marker::Model;
use xl_model::{NoMemory, Reach};
use xl_radix::{Radix, WalkEnd};
use xl_recency::{BLANK, Cache, Item};

/// The walk caches, level 0 first. Those below the lowest level with a width hold nothing, and
/// aren't kept.
#[derive(Drop)]
pub(crate) struct WalkCaches {
    lowest: usize,
    kept: Vec<Cache<Item>>,
}

impl Model for WalkCaches {
    ghost use Rattle.std.specs.Prelude.{List};
    ghost use Rattle.xl_model.specs.Caches.{Cached};
    ghost use Rattle.xl_recency.specs.declared.item.Item.{Item};
    ghost use Rattle.xl_radix_walk.specs.Row.{above_off};

    ghost Value = { List (Cached Item) };

    ghost view = { λ c. above_off c.lowest c.kept.items };
}

/// How many of the first widths are 0.
fn widths_off(widths: &[u8]) -> usize
    ensures few { result ≤ length widths.now }
    ensures off { above_off result (map empty_cache (drop result widths.now)) ≡
        map empty_cache widths.now }
{
    match widths {
        [0, rest @ ..] => widths_off(rest) + 1,
        _ => 0,
    }
}

/// Empty caches of these widths.
fn open_caches(alloc: Global, widths: &[u8]) -> Result<Vec<Cache<Item>>, NoMemory>
    requires { IsTrue (list_all is_width widths.now) }
    ensures { IfOk result (λ caches. caches.items ≡ map empty_cache widths.now) }
{
    let mut caches = Vec::with_capacity(alloc, widths.len())?;
    'opened: for width in widths {
        if caches.push(Cache::open(alloc, *width, BLANK)?).is_err() {
            return Err(NoMemory);
        }
    }
    Ok(caches)
}

/// Touches the newest item of a tag. The closure is written out here, so that LLVM has a copy of
/// the search for this call alone.
#[inline(never)]
fn touch_apart(cache: &mut Cache<Item>, tag: u64) -> Option<Item>
    ensures touched { Touches (has_tag tag) cache.old.items cache.new.items result }
    ensures width { cache.new.width ≡ cache.old.width }
{
    cache.touch(|item| item.tag == tag)
}

/// Touches the page's node in the cache of level 0. Mostly it is the newest, and nothing moves.
#[inline(always)]
fn touch_lowest(cache: &mut Cache<Item>, space: u16, page: u64) -> Option<Item>
    requires page { page < 2 ^ 45 }
    ensures touched { Touches (has_tag (tag_at space 0 page)) cache.old.items cache.new.items
        result }
    ensures width { cache.new.width ≡ cache.old.width }
{
    let tag = tag_of(space, page, 0);
    if let Some(item) = cache.newest() {
        if item.tag == tag {
            return Some(item);
        }
    }
    touch_apart(cache, tag)
}

impl WalkCaches {
    /// Empty caches of these widths.
    pub fn open(alloc: Global, widths: &[u8]) -> Result<WalkCaches, NoMemory>
        requires { IsTrue (list_all is_width widths.now) }
        ensures { IfOk result (λ caches. caches ≡ map empty_cache widths.now) }
    {
        let lowest = widths_off(widths);
        let kept = open_caches(alloc, &widths[lowest..])?;
        Ok(WalkCaches { lowest, kept })
    }

    /// The lowest level whose cache holds the page's node, which is touched.
    #[inline(always)]
    pub fn look(&mut self, space: u16, page: u64) -> Option<Start>
        requires levels { length self.old ≤ 4 }
        requires page { page < 2 ^ 45 }
        ensures some { IfSome result (λ s.
            s.level ≡ start_level 0 space page (caches_in 0 self.old)) }
        ensures low { IfSome result (λ s. s.level < length self.old) }
        ensures none { IfNone result
            (start_level 0 space page (caches_in 0 self.old) ≡ length self.old) }
        ensures caches { caches_in 0 self.new ≡
            node_caches_after 0 (start_level 0 space page (caches_in 0 self.old))
            None space page [] (caches_in 0 self.old) }
        ensures length { length self.new ≡ length self.old }
        ensures number { (nodes : _) → AreNumbered 0 nodes self.old → IfSome result (λ s.
            number_of space (suc s.level) (up (suc s.level) page) nodes ≡ Some s.node) }
        ensures kept { (nodes : _) → AreNumbered 0 nodes self.old →
            AreNumbered 0 nodes self.new }
    {
        if self.kept.is_empty() {
            return None;
        }
        look(&mut self.kept, self.lowest, space, page)
    }

    /// The number of the page's node of level 0, where the cache of that level holds it; it is
    /// touched then.
    #[inline(always)]
    pub fn look_lowest(&mut self, space: u16, page: u64) -> Option<u64>
        requires page { page < 2 ^ 45 }
        ensures some { IfSome result (IsLowest space page self.old self.new) }
        ensures none { IfNone result (self.new ≡ self.old) }
    {
        if self.lowest > 0 {
            return None;
        }
        let Some((first, _others)) = self.kept.split_first_mut() else {
            return None;
        };
        let item = touch_lowest(first, space, page)?;
        Some(item.word)
    }

    /// Whether no cache has a width. Then no look finds anything, and no walk fills anything.
    #[inline(always)]
    pub fn are_off(&self) -> bool
        ensures { IsTrue result → AreOff self.now }
    {
        self.kept.is_empty()
    }

    /// Whether no cache below this level has a width, so that no walk that starts there fills one.
    #[inline(always)]
    pub fn fills_none(&self, start: usize) -> bool
        ensures { IsTrue result → FillsNone start self.now }
    {
        start <= self.lowest
    }

    /// Fills the caches of the levels from `least` to below `start` with the nodes of a walk's
    /// path.
    pub fn fill(&mut self, start: usize, least: usize, space: u16, page: u64, path: &[u64])
        requires levels { length self.old ≤ 4 }
        requires page { page < 2 ^ 45 }
        requires path { start ≤ length path.now + least }
        ensures { self.new ≡ filled_caches 0 start least space page path.now self.old }
    {
        fill(&mut self.kept, self.lowest, start, least, space, page, path);
    }

    /// `fill`, out of line: inlined, it would cost a walk that fills nothing registers.
    #[inline(never)]
    fn fill_apart(&mut self, start: usize, least: usize, space: u16, page: u64, path: &[u64])
        requires levels { length self.old ≤ 4 }
        requires page { page < 2 ^ 45 }
        requires path { start ≤ length path.now + least }
        ensures { self.new ≡ filled_caches 0 start least space page path.now self.old }
    {
        self.fill(start, least, space, page, path);
    }

    /// Fills the caches with the nodes of a walk that ended at a leaf.
    #[inline(always)]
    pub fn fill_found(&mut self, end: &WalkEnd, start: usize, space: u16, page: u64, path: &[u64])
        requires levels { length self.old ≤ 4 }
        requires page { page < 2 ^ 45 }
        requires path { start ≤ length path.now + end_of end.now }
        ensures { self.new ≡ filled_by end.now start space page path.now self.old }
    {
        if let WalkEnd::Leaf { level, .. } = end {
            if !self.fills_none(start) {
                self.fill_apart(start, *level, space, page, path);
            }
        }
    }

    /// Removes from all caches the items whose numbers no node has, with no look at a cache where
    /// no node was given back. Returns how many it removed.
    pub fn purge_given<const LEVELS: usize>(&mut self, radix: &Radix<LEVELS>, given: usize) -> u64
        requires few { length self.old ≤ 4 }
        requires none { given ≡ 0 → AreNumbered 0 radix.now.nodes self.old }
        ensures caches { self.new ≡ purged_caches radix.now.nodes self.old }
        ensures count { result + entries_of self.new ≡ entries_of self.old }
    {
        if given == 0 {
            return 0;
        }
        purge(&mut self.kept, radix)
    }

    /// Removes what a fence reaches from all caches. Returns how many it removed.
    pub fn fence(&mut self, reach: Reach) -> u64
        requires { length self.old ≤ 4 }
        ensures caches { self.new ≡ fenced_caches reach self.old }
        ensures count { result + entries_of self.new ≡ entries_of self.old }
    {
        fence_caches(&mut self.kept, reach)
    }
}
