//! Probes of a table.

ghost use Rattle.std.specs.Prelude.{◌≡◌, ◌+◌, ◌*◌, ◌/◌, ◌^◌, ◌<◌};
ghost use Rattle.xl_model.specs.Addresses.{pages_of};
ghost use Rattle.xl_model.specs.declared.address.Order.TheVariants as order_is;
ghost use Rattle.xl_model_lemmas.specs.Entries.{or_leaf};
ghost use Rattle.xl_tagged.specs.Slots.{small_known};
ghost use Rattle.xl_cuckoo_walk.specs.declared.plan.Plan.TheVariants as plan_is;
ghost use Rattle.xl_cuckoo_walk.specs.Plans.{IsIn, value_by, probed, leaf_said_by};

use crate::plan::Plan;
use xl_cuckoo::Cuckoo;
use xl_model::{Leaf, Order};
use xl_sections::section;
use xl_tagged::{leaf_read, small_read};

/// Probes as planned.
#[inline(always)]
fn probe_by<const D: usize>(table: &mut Cuckoo<D>, plan: Plan, key: u64) -> Option<u64>
    requires { IsIn plan table.old.ways }
    ensures found { result ≡ value_by plan key table.old.ways }
    ensures after { table.new ≡ probed plan table.old }
{
    match plan {
        Plan::Skip => None,
        Plan::At(way) => table.probe_way(way, key),
        Plan::Every => table.probe(key),
    }
}

/// The leaf of a page that a word says, if there is one.
#[inline(always)]
#[tactic(auto, unfolding(crate::specs::Plans::leaf_said_by))]
pub(crate) fn read(order: Order, space: u16, page: u64, word: Option<u64>) -> Option<Leaf>
    requires { page < 2 ^ 45 }
    ensures { result ≡ leaf_said_by order space page word }
{
    match word {
        None => None,
        Some(word) => leaf_read(space, order, page, word),
    }
}

/// The leaf of this order that covers the page, probed as planned.
#[inline(always)]
pub(crate) fn probe_order<const D: usize>(
    table: &mut Cuckoo<D>,
    plan: Plan,
    order: Order,
    space: u16,
    page: u64,
) -> Option<Leaf>
    requires plan { IsIn plan table.old.ways }
    requires space_in { space < 64 }
    requires page_in { page < 2 ^ 45 }
    ensures found { result ≡ leaf_said_by order space page
        (value_by plan (space * 2 ^ 45 + page / pages_of order) table.old.ways) }
    ensures after { table.new ≡ probed plan table.old }
{
    let word = probe_by(table, plan, section(space, page, order));
    read(order, space, page, word)
}

/// The leaf of 4 KiB of a page, probed in every way: its frame (times 16) and its permission.
#[inline(always)]
#[tactic(auto, unfolding(crate::specs::Plans::leaf_said_by))]
pub(crate) fn probe_small<const D: usize>(
    table: &mut Cuckoo<D>,
    space: u16,
    page: u64,
) -> Option<u64>
    requires space_in { space < 64 }
    requires page_in { page < 2 ^ 45 }
    ensures found { small_known space page result ≡ leaf_said_by order_is.K4 space page
        (value_by plan_is.Every (space * 2 ^ 45 + page / pages_of order_is.K4) table.old.ways) }
    ensures after { table.new ≡ probed plan_is.Every table.old }
{
    let word = probe_by(table, Plan::Every, section(space, page, Order::K4))?;
    small_read(space, page, word)
}

/// Counts the loads of a planned probe whose result isn't needed.
#[inline(always)]
fn count_by<const D: usize>(table: &mut Cuckoo<D>, plan: Plan)
    ensures { table.new ≡ probed plan table.old }
{
    match plan {
        Plan::Skip => (),
        Plan::At(_) => table.count_probe_way(),
        Plan::Every => table.count_probe(),
    }
}

/// The leaf that was found before, or else the leaf of this order that covers the page. Probed as
/// planned in either case: after a leaf that was found the loads are counted and not made.
#[inline(always)]
pub(crate) fn probe_next<const D: usize>(
    found: Option<Leaf>,
    table: &mut Cuckoo<D>,
    plan: Plan,
    order: Order,
    space: u16,
    page: u64,
) -> Option<Leaf>
    requires plan { IsIn plan table.old.ways }
    requires space_in { space < 64 }
    requires page_in { page < 2 ^ 45 }
    ensures found { result ≡ or_leaf found (leaf_said_by order space page
        (value_by plan (space * 2 ^ 45 + page / pages_of order) table.old.ways)) }
    ensures after { table.new ≡ probed plan table.old }
{
    match found {
        Some(_) => {
            count_by(table, plan);
            found
        }
        None => probe_order(table, plan, order, space, page),
    }
}
