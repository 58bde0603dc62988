//! The table of ranges.

ghost use Rattle.std.specs.Prelude.{◌≡◌, ◌<◌, ◌≤◌, ◌^◌, ◌+◌, ◌-◌, length, IfOk, Some};
ghost use Rattle.xl_model.specs.declared.work.NoRoom.TheVariants as why;
ghost use Rattle.xl_model.specs.Ranges.{holds_page, ranges_of};
ghost use Rattle.xl_recency.specs.Widths.{IsWidth};
ghost use Rattle.xl_model.specs.Caches.{without_items};
ghost use Rattle.xl_model.specs.Placing.{no_moves};
ghost use Rattle.xl_model.specs.PageWalks.{IsPageWalk, walk_of_page};
ghost use Rattle.xl_model.specs.Structures.{work_of, IsPage};
ghost use Rattle.xl_range.specs.HeldRanges.{leaf_in as leaf_of};
ghost use Rattle.xl_range.specs.Rows.{meets_where, opening_table, row_table, IsAt};

use crate::changes::{add, move_to, set_perm, take_out};
use crate::pieces::leaf_in;
use crate::range_tlb::RangeTlb;
use std::alloc::Global;
use std::marker::Model;
use xl_model::{
    Leaf, NoMemory, NoRoom, Order, PageWalk, Perm, Range, Reach, Refused, Structure, Walk, Work,
    perm_code,
};
use xl_phys::Bus;
use xl_treap::Treap;

/// A table of ranges (redundant memory mappings, Karakostas and others, 2015): the maximal runs of
/// its leaves are in a treap, one for all spaces, and a TLB of ranges is its walk cache. Contracts
/// see the treap, the range TLB and how many ranges it may hold. Nothing is allocated after `open`.
#[derive(Drop)]
pub struct Ranges {
    treap: Treap,
    tlb: RangeTlb,
    ranges: u32,
}

impl Model for Ranges {
    ghost use Rattle.xl_range.specs.Rows.{RowState, IsRow};

    ghost Value = { RowState };

    ghost view = { λ m. record { treap = m.treap; tlb = m.tlb; ranges = m.ranges } };

    ghost invariant = { λ m. IsRow m.ranges m.treap.seen m.tlb };
}

/// Whether the last range that begins below a block's end reaches into the block.
fn reaches_in(last: Option<Range>, first: u64) -> bool
    ensures { result ≡ meets_where first last }
{
    match last {
        None => false,
        Some(range) => first < range.start || first - range.start < range.pages,
    }
}

/// The result for a change for which there is no room.
fn no_room() -> Refused
    ensures { result ≡ record { why = why.NoTable; work = work_of no_moves 0 } }
{
    Refused {
        why: NoRoom::NoTable,
        work: Work::none(),
    }
}

/// Removes the cached ranges that hold a page, and returns the work of that.
fn purge(tlb: &mut RangeTlb, space: u16, page: u64) -> Work
    ensures work { result ≡ work_of no_moves (length tlb.old.items - length tlb.new.items) }
    ensures after { tlb.new ≡ without_items (holds_page space page) tlb.old }
{
    let invalidated = tlb.drop_page(space, page);
    Work {
        invalidated,
        ..Work::none()
    }
}

/// The result of a walk that found this range: a leaf of 4 KiB as its word.
#[inline(always)]
fn walk_of(range: &Range, _space: u16, page: u64, cache_hits: u64) -> PageWalk
    requires at { IsAt page range.now }
    requires own { range.now.space ≡ _space }
    ensures { walk_of_page _space page result
        ≡ record { leaf = Some (leaf_of page range.now); cache_hits = cache_hits } }
{
    match range.order {
        Order::K4 => PageWalk::Small {
            word: (range.frame + (page - range.start)) * 16 + perm_code(range.perm),
            cache_hits,
        },
        Order::M2 | Order::G1 => PageWalk::Any {
            walk: Walk {
                leaf: Some(leaf_in(range, page)),
                cache_hits,
            },
        },
    }
}

impl Ranges {
    /// An empty table that may hold this many ranges, with a range TLB of this width.
    ///
    /// # Errors
    ///
    /// `NoMemory` where there is no memory.
    pub fn open(alloc: Global, ranges: u32, range_tlb: u8) -> Result<Ranges, NoMemory>
        requires ranges_in { (1 ≤ ranges) × (ranges ≤ 2 ^ 16) }
        requires width { IsWidth range_tlb }
        ensures { IfOk result (λ row. row_table row ≡ opening_table ranges range_tlb) }
    {
        let treap = Treap::open(alloc, ranges + 1)?;
        let tlb = RangeTlb::open(alloc, range_tlb)?;
        Ok(Ranges { treap, tlb, ranges })
    }

    /// The treap: it holds the maximal runs of the leaves.
    pub fn treap(&self) -> &Treap
        ensures treap { result.now ≡ self.entry.now.treap }
        ensures kept { result.now.seen.kept ≡ ranges_of (row_table self.entry.now).leaves }
    {
        &self.treap
    }

    /// A walk that looks through the whole range TLB, and then goes down the treap. Inlined, since
    /// the leaf that it returns would go through memory.
    #[inline(always)]
    fn walk_next(&mut self, space: u16, page: u64) -> PageWalk
        requires { IsPage (row_table self.old).shape space page }
        ensures { IsPageWalk space page (row_table self.old) result (row_table self.new) }
    {
        if let Some(range) = self.tlb.look(space, page) {
            return walk_of(&range, space, page, 1);
        }
        match self.treap.walk(space, page) {
            Some(range) => {
                self.tlb.fill(range);
                walk_of(&range, space, page, 0)
            }
            None => PageWalk::Any {
                walk: Walk {
                    leaf: None,
                    cache_hits: 0,
                },
            },
        }
    }

    /// A walk that asks for the newest range of the range TLB first.
    #[inline(always)]
    fn walk_newest(&mut self, space: u16, page: u64) -> PageWalk
        requires { IsPage (row_table self.old).shape space page }
        ensures walks { IsPageWalk space page (row_table self.old) result (row_table self.new) }
    {
        if let Some(range) = self.tlb.front(space, page) {
            return walk_of(range, space, page, 1);
        }
        self.walk_next(space, page)
    }
}

impl Structure for Ranges {
    ghost use Rattle.xl_range.specs.Rows.{row_table};

    ghost table = { row_table };

    fn meets(&self, space: u16, first: u64, order: Order) -> bool {
        reaches_in(self.treap.before(space, first + order.pages()), first)
    }

    fn leaf_at(&self, space: u16, page: u64) -> Option<Leaf> {
        match self.treap.find(space, page) {
            Some(range) => Some(leaf_in(&range, page)),
            None => None,
        }
    }

    fn insert(&mut self, leaf: Leaf) -> Result<Work, Refused> {
        if !add(&mut self.treap, self.ranges, leaf) {
            return Err(no_room());
        }
        Ok(Work::none())
    }

    fn remove(&mut self, space: u16, first: u64, order: Order) -> Result<Work, Refused> {
        if !take_out(&mut self.treap, self.ranges, space, first, order) {
            return Err(no_room());
        }
        Ok(purge(&mut self.tlb, space, first))
    }

    fn protect(
        &mut self,
        space: u16,
        first: u64,
        order: Order,
        perm: Perm,
    ) -> Result<Work, Refused> {
        if !set_perm(&mut self.treap, self.ranges, space, first, order, perm) {
            return Err(no_room());
        }
        Ok(purge(&mut self.tlb, space, first))
    }

    fn relocate(&mut self, space: u16, first: u64, to: u64, order: Order) -> Result<Work, Refused> {
        if !move_to(&mut self.treap, self.ranges, space, first, to, order) {
            return Err(no_room());
        }
        Ok(purge(&mut self.tlb, space, first))
    }

    #[inline]
    fn walk(&mut self, space: u16, page: u64) -> PageWalk {
        self.walk_newest(space, page)
    }

    fn fence(&mut self, reach: Reach) -> u64 {
        self.tlb.drop_reach(reach)
    }

    fn loads(&self) -> u64 {
        Bus::loads(&self.treap)
    }
}
