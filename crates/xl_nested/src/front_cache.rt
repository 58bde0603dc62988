//! The G cache, with the blocks of its two newest leaves beside it.

ghost use Rattle.std.specs.Prelude.{◌≡◌, ◌^◌, ◌<◌, false, true, find, IfOk, IfSome};
ghost use Rattle.xl_model.specs.Caches.{empty_cache};
ghost use Rattle.xl_model.specs.LeafWords.{small_leaf};
ghost use Rattle.xl_model.specs.Mapping.{is_leaf};
ghost use Rattle.xl_model.specs.Recency.{purged, touched, with_newest};
ghost use Rattle.xl_nested_model.specs.Stages.{covers_guest, host_page, host_space};
ghost use Rattle.xl_recency.specs.Widths.{IsWidth};
ghost use Rattle.xl_nested.specs.Coding.{IsFound, IsKeepable};
ghost use Rattle.xl_nested.specs.Commands.{IsPlace};
ghost use Rattle.xl_nested.specs.Fronts.{exchanged, in_order, IsFronts, IsKept, IsPushed, IsSmallBlock, IsTouched};

use crate::block::Block;
use crate::g_cache::GCache;
use std::alloc::Global;
use std::marker::Model;
use xl_model::{Leaf, NoMemory, Order};

/// The blocks of the first two leaves of a list, as far as they are known, and whether the second
/// of them is the newest: then the list has still to be brought into order.
#[derive(Clone, Copy)]
pub(crate) struct Fronts {
    first: Block,
    second: Block,
    swapped: bool,
}

/// The G cache. Nodes of a guest that lie in one large leaf, and the leaf of the access itself,
/// take turns in front: such leaves are found by their blocks, and no list is looked through.
/// Contracts see the width and the leaves, newest first.
#[derive(Drop)]
pub(crate) struct FrontCache {
    fronts: Fronts,
    cache: GCache,
}

impl Model for FrontCache {
    ghost use Rattle.xl_model.specs.Caches.{Cached};
    ghost use Rattle.xl_model.specs.declared.leaf.Leaf.{Leaf};
    ghost use Rattle.xl_nested.specs.Fronts.{seen_as, IsFronts};

    ghost Value = { Cached Leaf };

    ghost view = { λ c. seen_as c.fronts.swapped c.cache };

    ghost invariant = { λ c. IsFronts c.fronts c.cache.items };
}

impl Fronts {
    /// No leaf is known.
    fn none() -> Fronts
        ensures known { (leaves : _) → IsFronts result leaves }
        ensures straight { result.swapped ≡ false }
    {
        Fronts {
            first: Block::none(),
            second: Block::none(),
            swapped: false,
        }
    }

    /// The newest leaf has this block; the one that was the first is the second.
    #[inline(always)]
    fn following(self, block: Block) -> Fronts
        requires block { IsSmallBlock block }
        requires first { IsSmallBlock self.first }
        ensures { IsPushed block self result }
    {
        Fronts {
            first: block,
            second: self.first.beside(&block),
            swapped: false,
        }
    }
}

/// The newest leaf has this block. It is kept where it is a large one: a list of leaves of 4 KiB is
/// looked through.
#[inline(always)]
fn keep_large(fronts: &mut Fronts, block: Block)
    ensures { IsKept block fronts.old fronts.new }
{
    if block.pages > 1 {
        fronts.first = block;
    }
}

/// Moves the second leaf of the list, which is the newest, to the front.
#[inline(never)]
fn swap(fronts: &mut Fronts, cache: &mut GCache)
    requires fronts { IsFronts fronts.old cache.old.items }
    requires swapped { fronts.old.swapped ≡ true }
    ensures fronts { IsFronts fronts.new cache.new.items }
    ensures straight { fronts.new.swapped ≡ false }
    ensures items { cache.new.items ≡ exchanged cache.old.items }
    ensures width { cache.new.width ≡ cache.old.width }
{
    cache.touch(fronts.second.first);
    *fronts = Fronts {
        first: fronts.second,
        second: fronts.first,
        swapped: false,
    };
}

/// Brings the list into order.
#[inline(always)]
fn put_in_order(fronts: &mut Fronts, cache: &mut GCache)
    requires { IsFronts fronts.old cache.old.items }
    ensures fronts { IsFronts fronts.new cache.new.items }
    ensures straight { fronts.new.swapped ≡ false }
    ensures items { cache.new.items ≡ in_order fronts.old.swapped cache.old.items }
    ensures width { cache.new.width ≡ cache.old.width }
{
    if fronts.swapped {
        swap(fronts, cache);
    }
}

/// Brings the list into order, and forgets which leaves come first.
#[inline(never)]
fn forget_known(fronts: &mut Fronts, cache: &mut GCache)
    requires { IsFronts fronts.old cache.old.items }
    ensures known { (leaves : _) → IsFronts fronts.new leaves }
    ensures straight { fronts.new.swapped ≡ false }
    ensures items { cache.new.items ≡ in_order fronts.old.swapped cache.old.items }
    ensures width { cache.new.width ≡ cache.old.width }
{
    put_in_order(fronts, cache);
    *fronts = Fronts::none();
}

/// The same before any change of the list: mostly nothing is known.
#[inline(always)]
fn forget(fronts: &mut Fronts, cache: &mut GCache)
    requires { IsFronts fronts.old cache.old.items }
    ensures known { (leaves : _) → IsFronts fronts.new leaves }
    ensures straight { fronts.new.swapped ≡ false }
    ensures items { cache.new.items ≡ in_order fronts.old.swapped cache.old.items }
    ensures width { cache.new.width ≡ cache.old.width }
{
    if fronts.first.pages != 0 {
        forget_known(fronts, cache);
    }
}

/// Touches in the list, where no leaf is known.
#[inline(always)]
fn touch_list(fronts: &mut Fronts, cache: &mut GCache, guest_page: u64) -> Option<u64>
    requires page { guest_page < 2 ^ 29 }
    requires fronts { IsFronts fronts.old cache.old.items }
    requires none { fronts.old.first.pages ≡ 0 }
    ensures touched { IsTouched guest_page result fronts.old fronts.new
        cache.old.items cache.new.items }
    ensures width { cache.new.width ≡ cache.old.width }
{
    let Some(block) = cache.touch(guest_page) else {
        return None;
    };
    keep_large(fronts, block);
    Some(block.word_at(guest_page))
}

/// Touches in the list, where neither of the first two leaves covers the page.
#[inline(never)]
fn touch_next(fronts: &mut Fronts, cache: &mut GCache, guest_page: u64) -> Option<u64>
    requires page { guest_page < 2 ^ 29 }
    requires fronts { IsFronts fronts.old cache.old.items }
    ensures touched { IsTouched guest_page result fronts.old fronts.new
        cache.old.items cache.new.items }
    ensures width { cache.new.width ≡ cache.old.width }
{
    put_in_order(fronts, cache);
    let Some(block) = cache.touch(guest_page) else {
        return None;
    };
    *fronts = fronts.following(block);
    Some(block.word_at(guest_page))
}

impl FrontCache {
    /// An empty list of the width.
    pub fn open(alloc: Global, width: u8) -> Result<FrontCache, NoMemory>
        requires { IsWidth width }
        ensures { IfOk result (λ cache. cache ≡ empty_cache width) }
    {
        let cache = GCache::open(alloc, width)?;
        let fronts = Fronts::none();
        Ok(FrontCache { fronts, cache })
    }

    /// Touches the newest leaf that covers a guest page, and gives the page's word: its frame times
    /// 16, and the leaf's permission. None where no leaf covers the page.
    #[inline(always)]
    pub fn touch(&mut self, guest_page: u64) -> Option<u64>
        requires { guest_page < 2 ^ 29 }
        ensures found { IsFound (host_page guest_page) result
            (find (covers_guest guest_page) self.old.items) }
        ensures moved { self.new.items ≡ touched (covers_guest guest_page) self.old.items }
        ensures width { self.new.width ≡ self.old.width }
        ensures small { IfSome result (λ word. word < 2 ^ 49) }
    {
        if self.fronts.first.pages == 0 {
            return touch_list(&mut self.fronts, &mut self.cache, guest_page);
        }
        if let Some(word) = self.fronts.first.word_of(guest_page) {
            self.fronts.swapped = false;
            return Some(word);
        }
        if let Some(word) = self.fronts.second.word_of(guest_page) {
            self.fronts.swapped = true;
            return Some(word);
        }
        touch_next(&mut self.fronts, &mut self.cache, guest_page)
    }

    /// Fills the list with a leaf.
    pub fn fill(&mut self, leaf: Leaf)
        requires { IsKeepable leaf }
        ensures filled { self.new.items ≡ with_newest self.old.width leaf self.old.items }
        ensures width { self.new.width ≡ self.old.width }
    {
        forget(&mut self.fronts, &mut self.cache);
        self.cache.fill(leaf);
    }

    /// Fills the list with the leaf of 4 KiB of a guest page, by its word.
    #[inline(always)]
    pub fn fill_small(&mut self, guest_page: u64, word: u64)
        requires page { guest_page < 2 ^ 29 }
        requires small { word < 2 ^ 48 }
        ensures filled { self.new.items ≡ with_newest self.old.width
            (small_leaf (host_space guest_page) (host_page guest_page) word) self.old.items }
        ensures width { self.new.width ≡ self.old.width }
    {
        forget(&mut self.fronts, &mut self.cache);
        self.cache.fill_small(guest_page, word);
    }

    /// Removes the leaf of this first guest page and order.
    pub fn drop_leaf(&mut self, guest_page: u64, order: Order)
        requires { IsPlace guest_page order (2 ^ 29) }
        ensures kept { self.new.items ≡
            purged (is_leaf (host_space guest_page) (host_page guest_page) order) self.old.items }
        ensures width { self.new.width ≡ self.old.width }
    {
        forget(&mut self.fronts, &mut self.cache);
        self.cache.drop_leaf(guest_page, order);
    }
}
