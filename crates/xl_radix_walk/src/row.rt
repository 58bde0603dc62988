//! A radix table with its walk caches.

ghost use Rattle.std.specs.Prelude.{◌≡◌, true, suc, ◌+◌, ◌-◌, ◌*◌, ◌^◌, ◌<◌, ◌≤◌, [], false, slice_index, None, Some, length, IsTrue, IfOk, IfSome, IfNone};
ghost use Rattle.std.specs.List.{list_all};
ghost use Rattle.xl_model.specs.declared.work.NoRoom.TheVariants as why;
ghost use Rattle.xl_model.specs.Changes.{Insert, Remove, Protect, Relocate, IsNamed};
ghost use Rattle.xl_model.specs.Mapping.{leaf_at_page, meets_any};
ghost use Rattle.xl_model.specs.Nodes.{up, number_of};
ghost use Rattle.xl_model.specs.Base.{plus};
ghost use Rattle.xl_model.specs.Room.{has_room};
ghost use Rattle.xl_model.specs.LeafWords.{small_leaf};
ghost use Rattle.xl_model.specs.Rows.{is_width};
ghost use Rattle.xl_model.specs.Placing.{no_moves};
ghost use Rattle.xl_model.specs.Walks.{end_level};
ghost use Rattle.xl_model.specs.PageWalks.{IsPageWalk, IsAllowedWalk, IsSameWalk, walk_of_page};
ghost use Rattle.xl_model.specs.Structures.{IsBlock, IsLeafFor, IsPage, IsChange, IsFence, work_of};
ghost use Rattle.xl_radix.specs.Walk.{walk_end};
ghost use Rattle.xl_radix.specs.Steps.{shape_of};
ghost use Rattle.xl_radix_walk.specs.Quick.{IsAllowed};
ghost use Rattle.xl_radix_walk.specs.Row.{AreNumbered, entries_of, leaf_known, opening_table, purged_caches, refused_for, start_or, IsPath, IsRow, IsStraight, IsWalked, row_of, row_table};
ghost use Rattle.xl_radix.specs.Walk.{end_of};

use crate::caches::Start;
use crate::quick::quick_word;
use crate::walk;
use crate::walk_caches::WalkCaches;
use arrayvec::ArrayVec;
use std::alloc::Global;
use std::marker::Model;
use xl_model::{
    Kind, Leaf, NoMemory, NoRoom, NoTable, Order, PageWalk, Perm, Reach, Refused, Structure, Walk,
    Work,
};
use xl_phys::Bus;
use xl_pte::Pte;
use xl_radix::{Radix, WalkEnd, block_of, leaf_of};

/// A radix table of LEVELS levels with a cache of each level of nodes below the root. Contracts see
/// the table, and the caches, level 0 first.
#[derive(Drop)]
pub struct RadixRow<const LEVELS: usize> {
    radix: Radix<LEVELS>,
    caches: WalkCaches,
}

impl<const LEVELS: usize> Model for RadixRow<LEVELS> {
    ghost use Rattle.xl_radix_walk.specs.Row.{RowState, IsRow};

    ghost Value = { RowState };

    ghost view = { λ r. record { radix = r.radix; caches = r.caches } };

    ghost invariant = { λ r. IsRow LEVELS (record { radix = r.radix; caches = r.caches }) };
}

/// The root of a space.
#[inline(always)]
pub(crate) fn root(levels: usize, space: u16) -> Start
    requires { 0 < levels }
    ensures { result ≡ start_or levels space None }
{
    Start {
        level: levels - 1,
        node: space as u64,
    }
}

/// Walks a table's own words from a node of the page.
pub(crate) fn descend<const LEVELS: usize>(
    radix: &mut Radix<LEVELS>,
    from: Start,
    space: u16,
    page: u64,
    path: &mut ArrayVec<u64, 4>,
) -> WalkEnd
    requires node { number_of space (suc from.level) (up (suc from.level) page) radix.old.nodes ≡
        Some from.node }
    requires level { from.level < LEVELS }
    requires path { path.old.items ≡ [] }
    ensures end { result ≡ walk_end (leaf_at_page space page radix.old.leaves)
        (end_level (LEVELS - 1) 0 space page radix.old.leaves) }
    ensures low { end_level (LEVELS - 1) 0 space page radix.old.leaves ≤ from.level }
    ensures path { IsPath (end_level (LEVELS - 1) 0 space page radix.old.leaves)
        from.level space page path.new.items radix.old.nodes }
    ensures length { length path.new.items + end_of result ≡ from.level }
    ensures loads { radix.new ≡ record radix.old {
      loads = plus radix.old.loads
          (from.level - end_level (LEVELS - 1) 0 space page radix.old.leaves + 1);
    } }
{
    radix.words_read_back();
    walk::<Radix<LEVELS>, LEVELS>(radix, from.level, from.node, page, path)
}

/// The leaf that a walk ended at.
#[inline(always)]
pub(crate) fn found_leaf(space: u16, page: u64, end: WalkEnd) -> Option<Leaf>
    requires level { end_of end < 5 }
    requires page { page < 2 ^ 45 }
    ensures { result ≡ leaf_known space page end }
{
    let WalkEnd::Leaf { level, frame, perm } = end else {
        return None;
    };
    leaf_of(
        space,
        block_of(page, level),
        level,
        Pte::Leaf { frame, perm },
    )
}

/// Walks a table's words straight from a node of the page, and counts the loads: the word of the
/// leaf. None where that doesn't end at a leaf of 4 KiB, which allows an access of the kind, if one
/// is given; then nothing is counted. The nodes entered come first in `path`.
#[inline(always)]
pub(crate) fn straight<const LEVELS: usize>(
    radix: &mut Radix<LEVELS>,
    from: Start,
    _space: u16,
    page: u64,
    kind: Option<Kind>,
    path: &mut [u64; 4],
) -> Option<u64>
    requires node { number_of _space (suc from.level) (up (suc from.level) page) radix.old.nodes ≡
        Some from.node }
    requires level { from.level < LEVELS }
    ensures some { IfSome result (λ word.
        IsStraight LEVELS from.level _space page
        (small_leaf _space page word) radix.old radix.new) }
    ensures allows { IfSome result (IsAllowed kind) }
    ensures path { IfSome result (λ _.
        IsPath 0 from.level _space page path.new radix.old.nodes) }
    ensures none { IfNone result (radix.new ≡ radix.old) }
{
    radix.words_read_back();
    let word = quick_word(radix.front(), from.level, from.node, page, kind, path)?;
    radix.count_loads(from.level as u64 + 1);
    Some(word)
}

/// The walk of a page from the root, where no cache has a width and the page's leaf is one of 4 KiB
/// that allows an access of this kind.
#[inline(always)]
fn walk_uncached<const LEVELS: usize>(
    radix: &mut Radix<LEVELS>,
    caches: &WalkCaches,
    space: u16,
    page: u64,
    kind: Kind,
) -> Option<u64>
    requires row { IsRow LEVELS (row_of radix.old caches.now) }
    requires page { IsPage (shape_of LEVELS radix.old) space page }
    ensures row { IsRow LEVELS (row_of radix.new caches.now) }
    ensures some { IfSome result (λ word. IsAllowedWalk space page kind false word
        (row_table LEVELS (row_of radix.old caches.now))
        (row_table LEVELS (row_of radix.new caches.now))) }
    ensures none { IfNone result (radix.new ≡ radix.old) }
{
    radix.words_read_back();
    if !caches.are_off() {
        return None;
    }
    straight(
        radix,
        root(LEVELS, space),
        space,
        page,
        Some(kind),
        &mut [0; 4],
    )
}

/// The walk of a page from its node of level 0, where the cache of that level holds it and the
/// page's leaf allows an access of this kind.
#[inline(always)]
fn walk_lowest<const LEVELS: usize>(
    radix: &mut Radix<LEVELS>,
    caches: &mut WalkCaches,
    space: u16,
    page: u64,
    kind: Kind,
) -> Option<u64>
    requires row { IsRow LEVELS (row_of radix.old caches.old) }
    requires page { IsPage (shape_of LEVELS radix.old) space page }
    ensures row { IsRow LEVELS (row_of radix.new caches.new) }
    ensures some { IfSome result (λ word. IsAllowedWalk space page kind true word
        (row_table LEVELS (row_of radix.old caches.old))
        (row_table LEVELS (row_of radix.new caches.new))) }
    ensures none { IfNone result (IsSameWalk space page
        (row_table LEVELS (row_of radix.old caches.old))
        (row_table LEVELS (row_of radix.new caches.new))) }
{
    radix.words_read_back();
    let node = caches.look_lowest(space, page)?;
    straight(
        radix,
        Start { level: 0, node },
        space,
        page,
        Some(kind),
        &mut [0; 4],
    )
}

/// Walks a page from one of its nodes, whatever the walk ends with, and fills the caches.
#[inline(never)]
fn walk_filling<const LEVELS: usize>(
    radix: &mut Radix<LEVELS>,
    caches: &mut WalkCaches,
    from: Start,
    space: u16,
    page: u64,
) -> Option<Leaf>
    requires few { length caches.old ≤ 4 }
    requires page { page < 2 ^ 45 }
    requires node { number_of space (suc from.level) (up (suc from.level) page) radix.old.nodes ≡
        Some from.node }
    requires level { from.level < LEVELS }
    ensures { IsWalked LEVELS from.level space page result radix.old caches.old radix.new
        caches.new }
{
    radix.words_read_back();
    let mut path = ArrayVec::new();
    let end = descend(radix, from, space, page, &mut path);
    let WalkEnd::Leaf { .. } = end else {
        return None;
    };
    caches.fill_found(&end, from.level, space, page, &path);
    let leaf = found_leaf(space, page, end)?;
    Some(leaf.by_fields())
}

/// Walks a page straight from one of its nodes to a leaf of 4 KiB, and fills the caches by the
/// nodes entered. None where the walk doesn't end so; then nothing changes.
#[inline(never)]
fn straight_filling<const LEVELS: usize>(
    radix: &mut Radix<LEVELS>,
    caches: &mut WalkCaches,
    from: Start,
    space: u16,
    page: u64,
) -> Option<u64>
    requires few { length caches.old ≤ 4 }
    requires page { page < 2 ^ 45 }
    requires node { number_of space (suc from.level) (up (suc from.level) page) radix.old.nodes ≡
        Some from.node }
    requires level { from.level < LEVELS }
    ensures some { IfSome result (λ word. IsWalked LEVELS from.level space page
        (Some (small_leaf space page word)) radix.old caches.old radix.new caches.new) }
    ensures none { IfNone result ((radix.new ≡ radix.old) × (caches.new ≡ caches.old)) }
{
    radix.words_read_back();
    let mut path = [0; 4];
    let word = straight(radix, from, space, page, None, &mut path)?;
    caches.fill(from.level, 0, space, page, &path);
    Some(word)
}

/// Walks a page from one of its nodes: straight, where that finds a leaf of 4 KiB.
#[inline(always)]
fn walk_from<const LEVELS: usize>(
    radix: &mut Radix<LEVELS>,
    caches: &mut WalkCaches,
    from: Start,
    cache_hits: u64,
    space: u16,
    page: u64,
) -> PageWalk
    requires few { length caches.old ≤ 4 }
    requires page { page < 2 ^ 45 }
    requires node { number_of space (suc from.level) (up (suc from.level) page) radix.old.nodes ≡
        Some from.node }
    requires level { from.level < LEVELS }
    ensures hits { (walk_of_page space page result).cache_hits ≡ cache_hits }
    ensures walked { IsWalked LEVELS from.level space page (walk_of_page space page result).leaf
        radix.old caches.old radix.new caches.new }
{
    radix.words_read_back();
    if caches.fills_none(from.level) {
        if let Some(word) = straight(radix, from, space, page, None, &mut [0; 4]) {
            return PageWalk::Small { word, cache_hits };
        }
    } else if let Some(word) = straight_filling(radix, caches, from, space, page) {
        return PageWalk::Small { word, cache_hits };
    }
    let leaf = walk_filling(radix, caches, from, space, page);
    PageWalk::Any {
        walk: Walk { leaf, cache_hits },
    }
}

/// The walk of a page from the lowest node that the caches hold, else from the root.
#[inline(always)]
fn walk_row<const LEVELS: usize>(
    radix: &mut Radix<LEVELS>,
    caches: &mut WalkCaches,
    space: u16,
    page: u64,
) -> PageWalk
    requires row { IsRow LEVELS (row_of radix.old caches.old) }
    requires page { IsPage (shape_of LEVELS radix.old) space page }
    ensures row { IsRow LEVELS (row_of radix.new caches.new) }
    ensures walks { IsPageWalk space page (row_table LEVELS (row_of radix.old caches.old))
        result (row_table LEVELS (row_of radix.new caches.new)) }
{
    radix.words_read_back();
    match caches.look(space, page) {
        Some(start) => walk_from(radix, caches, start, 1, space, page),
        None => walk_from(radix, caches, root(LEVELS, space), 0, space, page),
    }
}

/// The work of a change that freed `given` nodes: their entries leave the caches.
fn invalidate_freed<const LEVELS: usize>(
    radix: &Radix<LEVELS>,
    caches: &mut WalkCaches,
    given: usize,
) -> Work
    requires few { length caches.old ≤ 4 }
    requires none { given ≡ 0 → AreNumbered 0 radix.now.nodes caches.old }
    ensures caches { caches.new ≡ purged_caches radix.now.nodes caches.old }
    ensures work { result ≡ work_of no_moves (entries_of caches.old - entries_of caches.new) }
{
    let invalidated = caches.purge_given(radix, given);
    Work {
        invalidated,
        ..Work::none()
    }
}

/// A change that is refused for want of a free node.
fn no_table() -> Refused
    ensures { result ≡ refused_for why.NoTable }
{
    Refused {
        why: NoRoom::NoTable,
        work: Work::none(),
    }
}

/// Adds a leaf that overlaps no other.
fn insert_leaf<const LEVELS: usize>(
    radix: &mut Radix<LEVELS>,
    caches: &mut WalkCaches,
    leaf: Leaf,
) -> Result<Work, Refused>
    requires row { IsRow LEVELS (row_of radix.old caches.old) }
    requires valid { IsLeafFor (shape_of LEVELS radix.old) leaf }
    requires free { meets_any leaf.space leaf.first leaf.order radix.old.leaves ≡ false }
    ensures row { IsRow LEVELS (row_of radix.new caches.new) }
    ensures changes { IsChange (Insert leaf) (row_table LEVELS (row_of radix.old caches.old))
        result (row_table LEVELS (row_of radix.new caches.new)) }
{
    match radix.add(leaf) {
        Ok(()) => Ok(invalidate_freed(radix, caches, 0)),
        Err(NoTable) => Err(no_table()),
    }
}

/// Takes out a leaf.
fn remove_leaf<const LEVELS: usize>(
    radix: &mut Radix<LEVELS>,
    caches: &mut WalkCaches,
    space: u16,
    first: u64,
    order: Order,
) -> Result<Work, Refused>
    requires row { IsRow LEVELS (row_of radix.old caches.old) }
    requires named { IsNamed space first order radix.old.leaves }
    ensures row { IsRow LEVELS (row_of radix.new caches.new) }
    ensures changes { IsChange (Remove space first order)
        (row_table LEVELS (row_of radix.old caches.old))
        result (row_table LEVELS (row_of radix.new caches.new)) }
{
    let given = radix.take_out_counted(space, first, order);
    Ok(invalidate_freed(radix, caches, given))
}

/// Gives a leaf another permission.
fn protect_leaf<const LEVELS: usize>(
    radix: &mut Radix<LEVELS>,
    caches: &mut WalkCaches,
    space: u16,
    first: u64,
    order: Order,
    perm: Perm,
) -> Result<Work, Refused>
    requires row { IsRow LEVELS (row_of radix.old caches.old) }
    requires named { IsNamed space first order radix.old.leaves }
    ensures row { IsRow LEVELS (row_of radix.new caches.new) }
    ensures changes { IsChange (Protect space first order perm)
        (row_table LEVELS (row_of radix.old caches.old))
        result (row_table LEVELS (row_of radix.new caches.new)) }
{
    radix.set_perm(space, first, order, perm);
    Ok(invalidate_freed(radix, caches, 0))
}

/// Moves a leaf to a block that overlaps no other leaf.
fn relocate_leaf<const LEVELS: usize>(
    radix: &mut Radix<LEVELS>,
    caches: &mut WalkCaches,
    space: u16,
    first: u64,
    to: u64,
    order: Order,
) -> Result<Work, Refused>
    requires row { IsRow LEVELS (row_of radix.old caches.old) }
    requires named { IsNamed space first order radix.old.leaves }
    requires block { IsBlock (shape_of LEVELS radix.old) space to order }
    requires free { meets_any space to order radix.old.leaves ≡ false }
    ensures row { IsRow LEVELS (row_of radix.new caches.new) }
    ensures changes { IsChange (Relocate space first to order)
        (row_table LEVELS (row_of radix.old caches.old))
        result (row_table LEVELS (row_of radix.new caches.new)) }
{
    match radix.shift_counted(space, first, to, order) {
        Ok(given) => Ok(invalidate_freed(radix, caches, given)),
        Err(NoTable) => Err(no_table()),
    }
}

/// Removes what a fence reaches.
fn fence_row(caches: &mut WalkCaches, reach: Reach) -> u64
    requires few { length caches.old ≤ 4 }
    ensures fences { (levels : _) (t : _) → IsFence reach (row_table levels (row_of t caches.old))
        result (row_table levels (row_of t caches.new)) }
    ensures row { (levels : _) (t : _) → IsRow levels (row_of t caches.old) →
        IsRow levels (row_of t caches.new) }
{
    caches.fence(reach)
}

impl<const LEVELS: usize> RadixRow<LEVELS> {
    /// A row without leaves, as `Radix::open` opens its table, and with empty walk caches. `widths`
    /// has their widths, level 0 first; those after the first `LEVELS - 1` aren't used.
    ///
    /// # Errors
    ///
    /// `NoMemory` where there is no memory.
    pub fn open(
        alloc: Global,
        table_frames: u32,
        spaces: u16,
        widths: [u8; 4],
    ) -> Result<RadixRow<LEVELS>, NoMemory>
        requires levels { (3 ≤ LEVELS) × (LEVELS ≤ 5) }
        requires spaces { (1 ≤ spaces) × (spaces ≤ 64) }
        requires frames { (spaces ≤ table_frames) × (table_frames ≤ 16384) }
        requires widths { IsTrue (list_all is_width widths) }
        ensures { IfOk result (λ row.
            row_table LEVELS row ≡ opening_table LEVELS table_frames spaces widths) }
    {
        let radix = Radix::open(alloc, table_frames, spaces)?;
        let caches = WalkCaches::open(alloc, &widths[..LEVELS - 1])?;
        Ok(RadixRow { radix, caches })
    }

    /// Word `index` of node number `node`.
    pub fn word(&self, node: u32, index: u32) -> u64
        requires node { node < length self.now.radix.nodes }
        requires index { index < 512 }
        ensures { result ≡ slice_index self.now.radix.words (node * 512 + index) }
    {
        self.radix.word(node, index)
    }

    /// Whether there is room for a leaf that overlaps no other, so that `insert` would add it.
    pub fn has_room(&self, leaf: Leaf) -> bool
        requires valid { IsLeafFor (row_table LEVELS self.now).shape leaf }
        requires free { meets_any leaf.space leaf.first leaf.order
            (row_table LEVELS self.now).leaves ≡ false }
        ensures { result ≡ has_room (Insert leaf) (row_table LEVELS self.now).leaves
            (row_table LEVELS self.now).shape }
    {
        self.radix.has_room(leaf)
    }

    /// Whether there is room for a leaf at another block, which overlaps no other leaf, so that
    /// `relocate` would move it.
    pub fn has_room_to(&self, space: u16, first: u64, to: u64, order: Order) -> bool
        requires named { IsNamed space first order (row_table LEVELS self.now).leaves }
        requires block { IsBlock (row_table LEVELS self.now).shape space to order }
        requires free { meets_any space to order (row_table LEVELS self.now).leaves ≡ false }
        ensures { result ≡ has_room (Relocate space first to order)
            (row_table LEVELS self.now).leaves (row_table LEVELS self.now).shape }
    {
        self.radix.has_room_to(space, first, to, order)
    }

    /// The table.
    pub fn radix(&self) -> &Radix<LEVELS>
        ensures { result.now ≡ self.entry.now.radix }
    {
        &self.radix
    }
}

impl<const LEVELS: usize> Structure for RadixRow<LEVELS> {
    ghost use Rattle.xl_radix_walk.specs.Row.{row_table};

    ghost table = { row_table LEVELS };

    fn meets(&self, space: u16, first: u64, order: Order) -> bool {
        self.radix.meets(space, first, order)
    }

    fn leaf_at(&self, space: u16, page: u64) -> Option<Leaf> {
        self.radix.leaf_at(space, page)
    }

    fn insert(&mut self, leaf: Leaf) -> Result<Work, Refused> {
        insert_leaf(&mut self.radix, &mut self.caches, leaf)
    }

    fn remove(&mut self, space: u16, first: u64, order: Order) -> Result<Work, Refused> {
        remove_leaf(&mut self.radix, &mut self.caches, space, first, order)
    }

    fn protect(
        &mut self,
        space: u16,
        first: u64,
        order: Order,
        perm: Perm,
    ) -> Result<Work, Refused> {
        protect_leaf(&mut self.radix, &mut self.caches, space, first, order, perm)
    }

    fn relocate(&mut self, space: u16, first: u64, to: u64, order: Order) -> Result<Work, Refused> {
        relocate_leaf(&mut self.radix, &mut self.caches, space, first, to, order)
    }

    fn walk(&mut self, space: u16, page: u64) -> PageWalk {
        walk_row(&mut self.radix, &mut self.caches, space, page)
    }

    #[inline(always)]
    fn walk_allowed(&mut self, space: u16, page: u64, kind: Kind, cached: bool) -> Option<u64> {
        if cached {
            walk_lowest(&mut self.radix, &mut self.caches, space, page, kind)
        } else {
            walk_uncached(&mut self.radix, &self.caches, space, page, kind)
        }
    }

    fn fence(&mut self, reach: Reach) -> u64 {
        fence_row(&mut self.caches, reach)
    }

    fn loads(&self) -> u64 {
        Bus::loads(&self.radix)
    }
}
