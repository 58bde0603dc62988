//! Ranges in a recency list.

ghost use Rattle.std.specs.Prelude.{◌≡◌, ◌+◌, ◌≤◌, ◌<◌, ◌^◌, find, length, IsOk, IfOk};
ghost use Rattle.xl_model.specs.Ranges.{holds_page};
ghost use Rattle.xl_model.specs.Recency.{touched, purged};
ghost use Rattle.xl_model.specs.Caches.{empty_cache, without_items, reaches_range};
ghost use Rattle.xl_model.specs.Walks.{with_touch, with_fill};
ghost use Rattle.xl_recency.specs.Widths.{IsWidth};
ghost use Rattle.xl_range.specs.RangeCoding.{IsKeepable, item_at, item_holds, item_reached};

use crate::range_coding::{
    BLANK, RangeItem, holds, is_in, item_of_range, key_of, range_of, reaches,
};
use std::alloc::Global;
use std::marker::Model;
use xl_model::{NoMemory, Range, Reach};
use xl_recency::Cache;

/// Ranges, newest first, of a width from 0 to 64.
#[derive(Drop)]
pub(crate) struct RangeList {
    cache: Cache<RangeItem>,
}

impl Model for RangeList {
    ghost use Rattle.xl_model.specs.declared.leaf.Range.{Range};
    ghost use Rattle.xl_model.specs.Caches.{Cached};
    ghost use Rattle.xl_range.specs.RangeCoding.{ranges_of, AllWithin};

    ghost Value = { Cached Range };

    ghost view = { λ t. ranges_of t.cache };

    ghost invariant = { λ t. AllWithin t.cache.items };
}

/// Brings the newest item whose range holds the page with this key to the front.
#[inline(always)]
fn touch_holding(cache: &mut Cache<RangeItem>, key: u64) -> Option<RangeItem>
    ensures found { result ≡ find (item_at key) cache.old.items }
    ensures moved { cache.new.items ≡ touched (item_at key) cache.old.items }
    ensures width { cache.new.width ≡ cache.old.width }
{
    cache.touch(|item| holds(item, key))
}

/// Removes the items whose ranges hold the page.
fn drop_holding(cache: &mut Cache<RangeItem>, space: u16, page: u64) -> u64
    ensures kept { cache.new.items ≡ purged (item_holds space page) cache.old.items }
    ensures count { result + length cache.new.items ≡ length cache.old.items }
    ensures width { cache.new.width ≡ cache.old.width }
{
    cache.remove_where(|item| is_in(&range_of(item), space, page))
}

/// Removes the items whose ranges a fence reaches.
fn drop_reached(cache: &mut Cache<RangeItem>, reach: Reach) -> u64
    ensures kept { cache.new.items ≡ purged (item_reached reach) cache.old.items }
    ensures count { result + length cache.new.items ≡ length cache.old.items }
    ensures width { cache.new.width ≡ cache.old.width }
{
    cache.remove_where(|item| reaches(item, reach))
}

impl RangeList {
    /// An empty list of the width. Stored inline; never allocates.
    pub fn open(alloc: Global, width: u8) -> Result<RangeList, NoMemory>
        requires { IsWidth width }
        ensures ok { IsOk result }
        ensures empty { IfOk result (λ tlb. tlb ≡ empty_cache width) }
    {
        let cache = Cache::open(alloc, width, BLANK)?;
        Ok(RangeList { cache })
    }

    /// Brings the newest range that holds the page to the front, and gives it. None where none
    /// holds it; then nothing changes.
    #[inline(always)]
    pub fn look(&mut self, space: u16, page: u64) -> Option<Range>
        requires space_in { space < 64 }
        requires page_in { page < 2 ^ 52 }
        ensures found { result ≡ find (holds_page space page) self.old.items }
        ensures after { self.new ≡ with_touch (holds_page space page) self.old }
    {
        let Some(item) = touch_holding(&mut self.cache, key_of(space, page)) else {
            return None;
        };
        Some(range_of(&item))
    }

    /// Puts the range in front. Where the list is full, its oldest range leaves.
    pub fn fill(&mut self, range: Range)
        requires { IsKeepable range }
        ensures { self.new ≡ with_fill range self.old }
    {
        let _left = self.cache.fill(item_of_range(range));
    }

    /// Removes the ranges that hold the page, and gives how many left.
    pub fn drop_page(&mut self, space: u16, page: u64) -> u64
        ensures left { result + length self.new.items ≡ length self.old.items }
        ensures after { self.new ≡ without_items (holds_page space page) self.old }
    {
        drop_holding(&mut self.cache, space, page)
    }

    /// Removes the ranges that a fence reaches, and gives how many left.
    pub fn drop_reach(&mut self, reach: Reach) -> u64
        ensures left { result + length self.new.items ≡ length self.old.items }
        ensures after { self.new ≡ without_items (reaches_range reach) self.old }
    {
        drop_reached(&mut self.cache, reach)
    }
}
