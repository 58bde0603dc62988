//! How an order is probed.

ghost use Rattle.std.specs.Prelude.{◌≡◌, ◌/◌, true};
ghost use Rattle.xl_model.specs.Walks.{leaves_possible, is_leaf_section};
ghost use Rattle.xl_cuckoo_walk.specs.Coding.{bit_in, way_by, hit_of};
ghost use Rattle.xl_cuckoo_walk.specs.Plans.{plan_of, plan_by, way_found};

use xl_model::Order;

/// An order isn't probed, or in one way, or in every way.
#[derive(Clone, Copy)]
pub(crate) enum Plan {
    Skip,
    At(u64),
    Every,
}

/// The words of the cached sections of a page: of its 2 MiB section, and of its 1 GiB section.
#[derive(Clone, Copy)]
pub(crate) struct Hits {
    pub(crate) middle: Option<u64>,
    pub(crate) large: Option<u64>,
}

/// The bit of an order in a section's word.
#[inline(always)]
fn bit(word: u64, order: Order) -> bool
    ensures { result ≡ bit_in word order }
{
    match order {
        Order::K4 => word % 2 == 1,
        Order::M2 => word / 2 % 2 == 1,
        Order::G1 => word / 4 % 2 == 1,
    }
}

/// The way in a section's word.
#[inline(always)]
fn way(word: u64) -> Option<u64>
    ensures { result ≡ way_by (word / 8) }
{
    if word / 8 == 0 {
        None
    } else {
        Some(word / 8 - 1)
    }
}

/// Whether a cached section leaves it possible that the page has a leaf of an order.
#[inline(always)]
fn is_possible(hit: Option<u64>, order: Order) -> bool
    ensures { (tag : _) → result ≡ leaves_possible (hit_of tag hit) order }
{
    match hit {
        None => true,
        Some(word) => bit(word, order),
    }
}

/// How an order is probed whose own section is cached or not.
#[inline(always)]
fn plan_by_own(hit: Option<u64>, order: Order) -> Plan
    ensures { (tag : _) →
        result ≡ plan_by true (is_leaf_section order (hit_of tag hit))
        (way_found (hit_of tag hit)) }
{
    match hit {
        None => Plan::Every,
        Some(word) => {
            if !bit(word, order) {
                return Plan::Every;
            }
            match way(word) {
                None => Plan::Every,
                Some(way) => Plan::At(way),
            }
        }
    }
}

/// How an order is probed, by what the cached sections of the page say.
#[inline(always)]
#[tactic(auto, unfolding(crate::specs::Plans::plan_of))]
pub(crate) fn planned(order: Order, hits: Hits) -> Plan
    ensures { (middle large : _) →
        result ≡ plan_of order (hit_of middle hits.middle) (hit_of large hits.large) }
{
    if !is_possible(hits.middle, order) || !is_possible(hits.large, order) {
        return Plan::Skip;
    }
    match order {
        Order::K4 => Plan::Every,
        Order::M2 => plan_by_own(hits.middle, Order::M2),
        Order::G1 => plan_by_own(hits.large, Order::G1),
    }
}
