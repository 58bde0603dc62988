//! Leaves found without loads.

ghost use Rattle.std.specs.Prelude.{◌≡◌, ◌+◌, ◌*◌, ◌/◌, ◌^◌, ◌<◌};
ghost use Rattle.xl_model.specs.Addresses.{pages_of};
ghost use Rattle.xl_model.specs.Mapping.{leaf_at_page, meets_any};
ghost use Rattle.xl_model.specs.Structures.{IsBlock, IsPage};
ghost use Rattle.xl_model.specs.declared.address.Order.TheVariants as order_is;
ghost use Rattle.xl_cuckoo.specs.Table.{value_of};
ghost use Rattle.xl_cuckoo_walk.specs.Parts.{IsRow, row_state, ways_in};
ghost use Rattle.xl_cuckoo_walk.specs.Plans.{leaf_said_by};
ghost use Rattle.xl_cuckoo_walk.specs.Looks.{looked_from, counts_smaller};

use crate::parts::Parts;
use crate::probe::read;
use xl_cuckoo::Cuckoo;
use xl_model::{Leaf, Order};
use xl_pte::words_read_back;
use xl_sections::{parts as count_of_order, section};

/// The leaf of this order that covers the page.
fn look<const D: usize>(table: &Cuckoo<D>, order: Order, space: u16, page: u64) -> Option<Leaf>
    requires space_in { space < 64 }
    requires page_in { page < 2 ^ 45 }
    ensures { result ≡ leaf_said_by order space page
        (value_of (space * 2 ^ 45 + page / pages_of order) table.now.ways) }
{
    read(order, space, page, table.get(section(space, page, order)))
}

/// The leaf above 4 KiB that covers the page.
fn look_large<const D: usize>(parts: &Parts<D>, space: u16, page: u64) -> Option<Leaf>
    requires space_in { space < 64 }
    requires page_in { page < 2 ^ 45 }
    ensures { result ≡ looked_from order_is.M2 space page (ways_in parts.now) }
{
    match look(&parts.m2, Order::M2, space, page) {
        Some(leaf) => Some(leaf),
        None => look(&parts.g1, Order::G1, space, page),
    }
}

/// The leaf of this order or of a larger one that covers the page. After one that was found no
/// other is looked for.
fn look_from<const D: usize>(parts: &Parts<D>, order: Order, space: u16, page: u64) -> Option<Leaf>
    requires space_in { space < 64 }
    requires page_in { page < 2 ^ 45 }
    ensures { result ≡ looked_from order space page (ways_in parts.now) }
{
    match order {
        Order::G1 => look(&parts.g1, Order::G1, space, page),
        Order::M2 => look_large(parts, space, page),
        Order::K4 => match look(&parts.k4, Order::K4, space, page) {
            Some(leaf) => Some(leaf),
            None => look_large(parts, space, page),
        },
    }
}

/// Whether a leaf smaller than a block of this order lies in the block of a page.
fn has_smaller<const D: usize>(parts: &Parts<D>, order: Order, space: u16, page: u64) -> bool
    requires space_in { space < 64 }
    requires page_in { page < 2 ^ 45 }
    ensures { result
        ≡ counts_smaller order (space * 2 ^ 45 + page / pages_of order) parts.now }
{
    match order {
        Order::K4 => false,
        Order::M2 => {
            let count = parts.middle.count(section(space, page, order));
            count_of_order(count, Order::K4) != 0
        }
        Order::G1 => {
            let count = parts.large.count(section(space, page, order));
            count_of_order(count, Order::K4) != 0 || count_of_order(count, Order::M2) != 0
        }
    }
}

/// The leaf that covers the page.
pub(crate) fn leaf_of_page<const D: usize>(parts: &Parts<D>, space: u16, page: u64) -> Option<Leaf>
    requires whole { IsRow parts.now }
    requires page { IsPage (row_state parts.now).shape space page }
    ensures { result ≡ leaf_at_page space page (row_state parts.now).leaves }
{
    words_read_back();
    look_from(parts, Order::K4, space, page)
}

/// Whether a leaf has a page of a block: a smaller leaf lies in it, or one that isn't smaller has
/// its first page.
pub(crate) fn is_met<const D: usize>(parts: &Parts<D>, space: u16, first: u64, order: Order) -> bool
    requires whole { IsRow parts.now }
    requires block { IsBlock (row_state parts.now).shape space first order }
    ensures { result ≡ meets_any space first order (row_state parts.now).leaves }
{
    words_read_back();
    has_smaller(parts, order, space, first) || look_from(parts, order, space, first).is_some()
}
