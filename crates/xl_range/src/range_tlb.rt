//! A TLB of ranges.

ghost use Rattle.std.specs.Prelude.{◌≡◌, ◌+◌, ◌<◌, ◌^◌, find, length, IsOk, IfOk, IfSome, Some};
ghost use Rattle.xl_model.specs.Ranges.{holds_page};
ghost use Rattle.xl_model.specs.Caches.{empty_cache, without_items, reaches_range};
ghost use Rattle.xl_model.specs.Walks.{with_touch, with_fill};
ghost use Rattle.xl_recency.specs.Widths.{IsWidth};
ghost use Rattle.xl_range.specs.RangeCoding.{IsKeepable};

use crate::range_coding::is_in;
use crate::range_list::RangeList;
use std::alloc::Global;
use std::marker::Model;
use xl_model::{NoMemory, Order, Perm, Range, Reach};

/// A fully associative TLB of ranges (redundant memory mappings, Karakostas and others, 2015), of a
/// width from 0 to 64. Contracts see its width and its ranges, newest first.
#[derive(Drop)]
pub struct RangeTlb {
    list: RangeList,
    /// The newest range, where the last look found it; else a range of no pages.
    newest: Range,
}

impl Model for RangeTlb {
    ghost use Rattle.xl_model.specs.declared.leaf.Range.{Range};
    ghost use Rattle.xl_model.specs.Caches.{Cached};
    ghost use Rattle.xl_range.specs.RangeCoding.{IsNewest};

    ghost Value = { Cached Range };

    ghost view = { λ t. t.list };

    ghost invariant = { λ t. IsNewest t.newest t.list.items };
}

/// A range of no pages.
const NO_RANGE: Range = Range {
    space: 0,
    start: 0,
    pages: 0,
    frame: 0,
    order: Order::K4,
    perm: Perm {
        r: true,
        w: false,
        x: false,
        u: false,
    },
};

impl RangeTlb {
    /// An empty TLB of the width. Stored inline; never allocates.
    pub fn open(alloc: Global, width: u8) -> Result<RangeTlb, NoMemory>
        requires { IsWidth width }
        ensures ok { IsOk result }
        ensures empty { IfOk result (λ tlb. tlb ≡ empty_cache width) }
    {
        let list = RangeList::open(alloc, width)?;
        Ok(RangeTlb {
            list,
            newest: NO_RANGE,
        })
    }

    /// The newest range, where the last look found it and it holds the page: a look would answer it
    /// and change nothing.
    #[inline]
    pub fn front(&self, space: u16, page: u64) -> Option<&Range>
        ensures found { IfSome result
            (λ range. find (holds_page space page) self.now.items ≡ Some range.now) }
        ensures same { IfSome result
            (λ range. with_touch (holds_page space page) self.now ≡ self.now) }
    {
        if is_in(&self.newest, space, page) {
            return Some(&self.newest);
        }
        None
    }

    /// Brings the newest range that holds the page to the front, and gives it. None where none
    /// holds it; then nothing changes.
    #[inline(always)]
    pub fn look(&mut self, space: u16, page: u64) -> Option<Range>
        requires space_in { space < 64 }
        requires page_in { page < 2 ^ 52 }
        ensures found { result ≡ find (holds_page space page) self.old.items }
        ensures after { self.new ≡ with_touch (holds_page space page) self.old }
    {
        self.newest.pages = 0;
        let Some(range) = self.list.look(space, page) else {
            return None;
        };
        self.newest = range;
        Some(range)
    }

    /// Puts the range in front. Where the TLB is full, its oldest range leaves.
    pub fn fill(&mut self, range: Range)
        requires { IsKeepable range }
        ensures { self.new ≡ with_fill range self.old }
    {
        self.newest.pages = 0;
        self.list.fill(range);
    }

    /// Removes the ranges that hold the page, and gives how many left.
    pub fn drop_page(&mut self, space: u16, page: u64) -> u64
        ensures left { result + length self.new.items ≡ length self.old.items }
        ensures after { self.new ≡ without_items (holds_page space page) self.old }
    {
        self.newest.pages = 0;
        self.list.drop_page(space, page)
    }

    /// Removes the ranges that a fence reaches, and gives how many left.
    pub fn drop_reach(&mut self, reach: Reach) -> u64
        ensures left { result + length self.new.items ≡ length self.old.items }
        ensures after { self.new ≡ without_items (reaches_range reach) self.old }
    {
        self.newest.pages = 0;
        self.list.drop_reach(reach)
    }
}
