//! The G cache: a recency list of leaves of the host's table.

ghost use Rattle.std.specs.Prelude.{ℕ, ◌≡◌, ◌^◌, ◌<◌, ◌≤◌, ◌+◌, ◌*◌, ◌/◌, ◌%◌, true, find, None, Some, IfNone, IfOk, IfSome};
ghost use Rattle.xl_model.specs.declared.address.Order.TheVariants as order;
ghost use Rattle.xl_model.specs.Addresses.{level_of, order_at, pages_of};
ghost use Rattle.xl_model.specs.Caches.{Cached, empty_cache};
ghost use Rattle.xl_model.specs.LeafWords.{small_leaf};
ghost use Rattle.xl_model.specs.Mapping.{is_leaf};
ghost use Rattle.xl_model.specs.Recency.{purged, touched, with_newest};
ghost use Rattle.xl_nested_model.specs.Stages.{covers_guest, host_page, host_space};
ghost use Rattle.xl_recency.specs.declared.item.Item.{Item};
ghost use Rattle.xl_recency.specs.Lists.{Fills, Purges, Touches};
ghost use Rattle.xl_recency.specs.Widths.{IsWidth};
ghost use Rattle.xl_list_lemmas.specs.Members.{In};
ghost use Rattle.xl_nested.specs.Coding.{has_tag, is_among, leaf_of, tag_of as number_of, IsGCache, IsHeld, IsKeepable};
ghost use Rattle.xl_nested.specs.Commands.{IsPlace};
ghost use Rattle.xl_nested.specs.Fronts.{IsBlockOf, IsFoundBlock, IsSmallBlock, IsTouchedBlock};
ghost use Rattle.xl_nested.specs.declared.g_cache.Held.TheVariants as orders;

use crate::block::Block;
use std::alloc::Global;
use std::marker::Model;
use xl_model::{Leaf, NoMemory, Order, perm_code};
use xl_recency::{BLANK, Cache, Item};

/// The orders of the leaves in a list.
#[derive(Clone, Copy)]
pub(crate) enum Held {
    /// The list has no width.
    Off,
    /// There is no leaf.
    Nothing,
    /// All are of this order: one tag of a guest page is looked for.
    Only(Order),
    Several,
}

/// A recency list of leaves of the host's table. Contracts see its width and the leaves, newest
/// first.
#[derive(Drop)]
pub(crate) struct GCache {
    held: Held,
    list: Cache<Item>,
}

impl Model for GCache {
    ghost use Rattle.xl_model.specs.Caches.{Cached};
    ghost use Rattle.xl_model.specs.declared.leaf.Leaf.{Leaf};
    ghost use Rattle.xl_nested.specs.Coding.{cached_leaves, IsGCache};

    ghost Value = { Cached Leaf };

    ghost view = { λ c. cached_leaves c.list };

    ghost invariant = { λ c. IsGCache c.held c.list };
}

/// The tag of the block of the order that has the guest page.
#[tactic(auto, unfolding(crate::specs::Coding::tag_of))]
#[inline(always)]
fn tag_of(guest_page: u64, order: Order) -> u64
    requires { guest_page < 2 ^ 29 }
    ensures value { result ≡ number_of guest_page order }
    ensures order { result % 3 ≡ level_of order }
{
    match order {
        Order::K4 => guest_page * 3,
        Order::M2 => guest_page / 512 * 3 + 1,
        Order::G1 => guest_page / 262_144 * 3 + 2,
    }
}

/// The order of a number.
#[inline(always)]
fn order_of(number: u64) -> Order
    ensures { result ≡ order_at number }
{
    match number {
        0 => Order::K4,
        1 => Order::M2,
        _ => Order::G1,
    }
}

/// How many pages its block of the order has before the guest page.
#[inline(always)]
fn pages_before(order: Order, guest_page: u64) -> u64
    ensures value { result ≡ guest_page % pages_of order }
    ensures within { result ≤ guest_page }
{
    match order {
        Order::K4 => 0,
        Order::M2 => guest_page % 512,
        Order::G1 => guest_page % 262_144,
    }
}

/// The block of the leaf of an item, which has the guest page.
#[inline(always)]
fn block_of(item: Item, order: Order, guest_page: u64) -> Block
    requires page { guest_page < 2 ^ 29 }
    requires small { item.word < 2 ^ 48 }
    requires order { order ≡ order_at (item.tag % 3) }
    requires covers { covers_guest guest_page (leaf_of item) ≡ true }
    ensures block { IsBlockOf result (leaf_of item) }
    ensures small { IsSmallBlock result }
{
    Block {
        first: guest_page - pages_before(order, guest_page),
        pages: order.pages(),
        word: item.word,
    }
}

/// The order of the leaf of an item that is in a list. Where all are of one order, it need not be
/// asked.
#[inline(always)]
fn order_in(held: Held, item: Item) -> Order
    ensures { (list : Cached Item) → IsHeld held list → In item list.items →
        result ≡ order_at (item.tag % 3) }
{
    match held {
        Held::Only(order) => order,
        _ => order_of(item.tag % 3),
    }
}

/// Touches the newest item with one of three tags.
#[inline(always)]
fn touch_tags(list: &mut Cache<Item>, k4: u64, m2: u64, g1: u64) -> Option<Item>
    ensures touched { Touches (is_among k4 m2 g1) list.old.items list.new.items result }
    ensures width { list.new.width ≡ list.old.width }
{
    list.touch(|item| item.tag == k4 || (item.tag == m2 || item.tag == g1))
}

/// Touches the newest item with a tag.
#[inline(always)]
fn touch_tag(list: &mut Cache<Item>, tag: u64) -> Option<Item>
    ensures touched { Touches (has_tag tag) list.old.items list.new.items result }
    ensures width { list.new.width ≡ list.old.width }
{
    list.touch(|item| item.tag == tag)
}

/// Does what `touch_tag` does, and gives the item's word alone: a call would return the item
/// through memory.
#[inline(never)]
fn touch_word(list: &mut Cache<Item>, tag: u64) -> Option<u64>
    ensures some { IfSome result (λ word. Touches (has_tag tag) list.old.items list.new.items
        (Some (record { tag = tag; word = word }))) }
    ensures none { IfNone result (Touches (has_tag tag) list.old.items list.new.items None) }
    ensures width { list.new.width ≡ list.old.width }
{
    let Some(item) = touch_tag(list, tag) else {
        return None;
    };
    Some(item.word)
}

/// Does what `touch_tag` does, by a call.
#[inline(always)]
fn touch_called(list: &mut Cache<Item>, tag: u64) -> Option<Item>
    ensures touched { Touches (has_tag tag) list.old.items list.new.items result }
    ensures width { list.new.width ≡ list.old.width }
{
    match touch_word(list, tag) {
        Some(word) => Some(Item { tag, word }),
        None => None,
    }
}

/// Touches the newest item whose leaf covers a guest page, in a list of leaves of any order.
#[inline(always)]
fn touch_any(list: &mut Cache<Item>, guest_page: u64) -> Option<Item>
    requires { guest_page < 2 ^ 29 }
    ensures touched { Touches (is_among (number_of guest_page order.K4)
        (number_of guest_page order.M2) (number_of guest_page order.G1))
        list.old.items list.new.items result }
    ensures width { list.new.width ≡ list.old.width }
{
    touch_tags(
        list,
        tag_of(guest_page, Order::K4),
        tag_of(guest_page, Order::M2),
        tag_of(guest_page, Order::G1),
    )
}

/// Touches the newest item whose leaf covers a guest page.
#[tactic(auto, using(crate::proofs::HeldLemmas::touches_none, crate::proofs::HeldLemmas::touches_only))]
#[inline(always)]
fn touch_page(list: &mut Cache<Item>, held: Held, guest_page: u64) -> Option<Item>
    requires page { guest_page < 2 ^ 29 }
    requires orders { IsHeld held list.old }
    ensures touched { Touches (is_among (number_of guest_page order.K4)
        (number_of guest_page order.M2) (number_of guest_page order.G1))
        list.old.items list.new.items result }
    ensures width { list.new.width ≡ list.old.width }
{
    match held {
        Held::Off => None,
        Held::Nothing => None,
        Held::Only(order) => touch_called(list, tag_of(guest_page, order)),
        Held::Several => touch_any(list, guest_page),
    }
}

/// Touches the newest item whose leaf covers a guest page, and gives the block of the leaf.
#[inline(always)]
fn touch_held(list: &mut Cache<Item>, held: Held, guest_page: u64) -> Option<Block>
    requires page { guest_page < 2 ^ 29 }
    requires kept { IsGCache held list.old }
    ensures touched { IsTouchedBlock guest_page result list.old list.new }
    ensures kept { IsGCache held list.new }
{
    let Some(item) = touch_page(list, held, guest_page) else {
        return None;
    };
    Some(block_of(item, order_in(held, item), guest_page))
}

/// Does what `touch_held` does. Most lists have leaves of 4 KiB alone: with that order as a
/// constant, no order is asked for, and the block is the page.
#[inline(always)]
fn touch_block(list: &mut Cache<Item>, held: Held, guest_page: u64) -> Option<Block>
    requires page { guest_page < 2 ^ 29 }
    requires kept { IsGCache held list.old }
    ensures touched { IsTouchedBlock guest_page result list.old list.new }
    ensures kept { IsGCache held list.new }
{
    match held {
        Held::Only(Order::K4) => touch_held(list, Held::Only(Order::K4), guest_page),
        _ => touch_held(list, held, guest_page),
    }
}

/// The orders in an empty list of a width.
#[tactic(auto, using(crate::proofs::HeldLemmas::opened_off, crate::proofs::HeldLemmas::opened_nothing))]
fn held_first(width: u8) -> Held
    ensures { (list : Cached Item) → list ≡ empty_cache width → IsHeld result list }
{
    if width == 0 { Held::Off } else { Held::Nothing }
}

/// The orders in a list of leaves of one order, after a fill with a leaf of an order.
#[tactic(auto, using(crate::proofs::HeldLemmas::more_same))]
#[inline(always)]
fn only_with(only: Order, order: Order) -> Held
    ensures { (old new : Cached Item) (item : Item) → IsHeld (orders.Only only) old →
        item.tag % 3 ≡ level_of order → new.items ≡ with_newest old.width item old.items →
        IsHeld result new }
{
    if only.level() == order.level() {
        Held::Only(only)
    } else {
        Held::Several
    }
}

/// The orders in a list after a fill with a leaf of an order.
#[tactic(auto, using(crate::proofs::HeldLemmas::off_filled, crate::proofs::HeldLemmas::first_filled))]
#[inline(always)]
fn held_with(held: Held, order: Order) -> Held
    ensures { (old new : Cached Item) (item : Item) → IsHeld held old → item.tag % 3
        ≡ level_of order →
        new.width ≡ old.width → new.items ≡ with_newest old.width item old.items →
        IsHeld result new }
{
    match held {
        Held::Off => Held::Off,
        Held::Nothing => Held::Only(order),
        Held::Only(only) => only_with(only, order),
        Held::Several => Held::Several,
    }
}

/// Fills a list with the item of a leaf of an order.
#[tactic(auto, using(crate::proofs::HeldLemmas::off_same))]
#[inline(always)]
fn fill_list(list: &mut Cache<Item>, held: &mut Held, item: Item, order: Order)
    requires orders { IsHeld held.old list.old }
    requires order { item.tag % 3 ≡ level_of order }
    ensures filled { list.new.items ≡ with_newest list.old.width item list.old.items }
    ensures width { list.new.width ≡ list.old.width }
    ensures orders { IsHeld held.new list.new }
{
    if let Held::Off = *held {
        return;
    }
    list.fill(item);
    *held = held_with(*held, order);
}

/// Removes the items of a tag.
fn remove_tag(list: &mut Cache<Item>, tag: u64)
    ensures kept { (left : ℕ) × Purges (has_tag tag) list.old.items list.new.items left }
    ensures width { list.new.width ≡ list.old.width }
{
    list.remove_where(|item| item.tag == tag);
}

/// The item that keeps a leaf.
#[inline(always)]
fn item_of(leaf: Leaf) -> Item
    requires { IsKeepable leaf }
    ensures leaf { leaf_of result ≡ leaf }
    ensures order { result.tag % 3 ≡ level_of leaf.order }
    ensures small { result.word < 2 ^ 48 }
{
    Item {
        tag: tag_of(leaf.space as u64 * (1 << 27) + leaf.first, leaf.order),
        word: leaf.frame * 16 + perm_code(leaf.perm),
    }
}

impl GCache {
    /// An empty list of the width.
    pub fn open(alloc: Global, width: u8) -> Result<GCache, NoMemory>
        requires { IsWidth width }
        ensures { IfOk result (λ cache. cache ≡ empty_cache width) }
    {
        let list = Cache::open(alloc, width, BLANK)?;
        let held = held_first(width);
        Ok(GCache { held, list })
    }

    /// Touches the newest leaf that covers a guest page, and gives the block of the leaf. None
    /// where no leaf covers the page.
    #[inline(always)]
    pub fn touch(&mut self, guest_page: u64) -> Option<Block>
        requires { guest_page < 2 ^ 29 }
        ensures found { IsFoundBlock result (find (covers_guest guest_page) self.old.items) }
        ensures moved { self.new.items ≡ touched (covers_guest guest_page) self.old.items }
        ensures width { self.new.width ≡ self.old.width }
        ensures small { IfSome result IsSmallBlock }
    {
        touch_block(&mut self.list, self.held, guest_page)
    }

    /// Fills the list with a leaf.
    pub fn fill(&mut self, leaf: Leaf)
        requires { IsKeepable leaf }
        ensures filled { self.new.items ≡ with_newest self.old.width leaf self.old.items }
        ensures width { self.new.width ≡ self.old.width }
    {
        fill_list(&mut self.list, &mut self.held, item_of(leaf), leaf.order);
    }

    /// Fills the list with the leaf of 4 KiB of a guest page, by its word.
    #[inline(always)]
    pub fn fill_small(&mut self, guest_page: u64, word: u64)
        requires page { guest_page < 2 ^ 29 }
        requires small { word < 2 ^ 48 }
        ensures filled { self.new.items ≡ with_newest self.old.width
            (small_leaf (host_space guest_page) (host_page guest_page) word) self.old.items }
        ensures width { self.new.width ≡ self.old.width }
    {
        let tag = tag_of(guest_page, Order::K4);
        fill_list(
            &mut self.list,
            &mut self.held,
            Item { tag, word },
            Order::K4,
        );
    }

    /// Removes the leaf of this first guest page and order.
    pub fn drop_leaf(&mut self, guest_page: u64, order: Order)
        requires { IsPlace guest_page order (2 ^ 29) }
        ensures kept { self.new.items ≡
            purged (is_leaf (host_space guest_page) (host_page guest_page) order) self.old.items }
        ensures width { self.new.width ≡ self.old.width }
    {
        remove_tag(&mut self.list, tag_of(guest_page, order));
    }
}
