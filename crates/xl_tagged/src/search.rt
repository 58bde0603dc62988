//! The search for a page's leaf, over slots of any form: order by order, each under its own tag.

ghost use Rattle.std.specs.Prelude.{◌≡◌, ◌<◌, ◌^◌};
ghost use Rattle.xl_model.specs.declared.address.Order.TheVariants as orders;
ghost use Rattle.xl_model.specs.PageWalks.{walk_of_page};
ghost use Rattle.xl_tagged.specs.Forms.{values_under};
ghost use Rattle.xl_tagged.specs.Slots.{found_in, first_found, found_from, order_loads, large_loads, walk_without_tlb, NoneLarge, walk_loads, loaded_more, small_known};

use crate::place::{leaf_read, small_read};
use crate::slots::Slots;
use xl_model::{Leaf, Order, PageWalk, Walk};

/// Searches for the leaf of this order in which a page lies, without loads.
#[inline(always)]
pub fn look<S: Slots>(slots: &S, space: u16, order: Order, page: u64) -> Option<Leaf>
    requires space_in { space < 64 }
    requires page_in { page < 2 ^ 45 }
    ensures { result ≡ found_in S.form space page (values_under (S.state slots.now).held) order }
{
    leaf_read(space, order, page, slots.word(space, order, page))
}

/// Searches for the leaf of this order in which a page lies, with loads.
#[inline(always)]
fn probe<S: Slots>(slots: &mut S, space: u16, order: Order, page: u64) -> Option<Leaf>
    requires space_in { space < 64 }
    requires page_in { page < 2 ^ 45 }
    ensures leaf { result ≡
        found_in S.form space page (values_under (S.state slots.old).held) order }
    ensures after { S.state slots.new ≡ loaded_more
        (order_loads S.form space page (S.state slots.old) order) (S.state slots.old) }
{
    let word = slots.load_word(space, order, page);
    leaf_read(space, order, page, word)
}

/// The leaf of a page among those above 4 KiB, without loads. There is none where only leaves of
/// 4 KiB were ever held, so no chain is searched then.
fn look_large<S: Slots>(slots: &S, only_small: bool, space: u16, page: u64) -> Option<Leaf>
    requires space_in { space < 64 }
    requires page_in { page < 2 ^ 45 }
    requires large { NoneLarge S.form space page (values_under (S.state slots.now).held)
        only_small }
    ensures { result ≡
        found_from S.form space page (values_under (S.state slots.now).held) orders.M2 }
{
    if only_small {
        return None;
    }
    match look(slots, space, Order::M2, page) {
        Some(leaf) => Some(leaf),
        None => look(slots, space, Order::G1, page),
    }
}

/// The leaf of a page, without loads: the orders are tried from the smallest on, and 4 KiB alone
/// where only leaves of 4 KiB were ever held.
pub fn look_all<S: Slots>(slots: &S, only_small: bool, space: u16, page: u64) -> Option<Leaf>
    requires space_in { space < 64 }
    requires page_in { page < 2 ^ 45 }
    requires large { NoneLarge S.form space page (values_under (S.state slots.now).held)
        only_small }
    ensures { result ≡ first_found S.form space page (values_under (S.state slots.now).held) }
{
    match look(slots, space, Order::K4, page) {
        Some(leaf) => Some(leaf),
        None => look_large(slots, only_small, space, page),
    }
}

/// The leaf of a page among those of this order and of larger ones, without loads. Where only
/// leaves of 4 KiB were ever held, none of a larger order is sought after 4 KiB or from 2 MiB on.
pub fn look_from<S: Slots>(
    slots: &S,
    only_small: bool,
    space: u16,
    order: Order,
    page: u64,
) -> Option<Leaf>
    requires space_in { space < 64 }
    requires page_in { page < 2 ^ 45 }
    requires large { NoneLarge S.form space page (values_under (S.state slots.now).held)
        only_small }
    ensures { result ≡ found_from S.form space page (values_under (S.state slots.now).held) order }
{
    match order {
        Order::K4 => look_all(slots, only_small, space, page),
        Order::M2 => look_large(slots, only_small, space, page),
        Order::G1 => look(slots, space, Order::G1, page),
    }
}

/// Searches for the leaf of 4 KiB of a page, with loads: its frame (times 16) and its permission.
#[inline(always)]
fn probe_small<S: Slots>(slots: &mut S, space: u16, page: u64) -> Option<u64>
    requires space_in { space < 64 }
    requires page_in { page < 2 ^ 45 }
    ensures leaf { small_known space page result ≡
        found_in S.form space page (values_under (S.state slots.old).held) orders.K4 }
    ensures after { S.state slots.new ≡ loaded_more
        (order_loads S.form space page (S.state slots.old) orders.K4) (S.state slots.old) }
{
    let word = slots.load_word(space, Order::K4, page);
    small_read(space, page, word)
}

/// The leaf of a page among those above 4 KiB, with loads.
#[inline(never)]
fn probe_large<S: Slots>(slots: &mut S, space: u16, page: u64) -> Option<Leaf>
    requires space_in { space < 64 }
    requires page_in { page < 2 ^ 45 }
    ensures leaf { result ≡
        found_from S.form space page (values_under (S.state slots.old).held) orders.M2 }
    ensures after { S.state slots.new ≡
        loaded_more (large_loads S.form space page (S.state slots.old)) (S.state slots.old) }
{
    match probe(slots, space, Order::M2, page) {
        Some(leaf) => Some(leaf),
        None => probe(slots, space, Order::G1, page),
    }
}

/// The walk of a page, with loads: the orders are tried from the smallest on, the next one also
/// where the page's slot is empty. A leaf of 4 KiB comes as its word.
#[inline(always)]
pub fn walk_all<S: Slots>(slots: &mut S, space: u16, page: u64) -> PageWalk
    requires space_in { space < 64 }
    requires page_in { page < 2 ^ 45 }
    ensures walk { walk_of_page space page result ≡
        walk_without_tlb (first_found S.form space page (values_under (S.state slots.old).held)) }
    ensures after { S.state slots.new ≡
        loaded_more (walk_loads S.form space page (S.state slots.old)) (S.state slots.old) }
{
    match probe_small(slots, space, page) {
        Some(word) => PageWalk::Small {
            word,
            cache_hits: 0,
        },
        None => PageWalk::Any {
            walk: Walk {
                leaf: probe_large(slots, space, page),
                cache_hits: 0,
            },
        },
    }
}
