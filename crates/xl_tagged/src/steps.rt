//! The calls of a table of any grouping, on its chains and counts.

ghost use Rattle.std.specs.Prelude.{◌≡◌, ◌<◌, ◌^◌, false};
ghost use Rattle.xl_model.specs.Changes.{Insert, Remove, Protect, Relocate, IsNamed};
ghost use Rattle.xl_model.specs.Mapping.{meets_any, leaf_at_page};
ghost use Rattle.xl_model.specs.PageWalks.{IsPageWalk};
ghost use Rattle.xl_model.specs.Structures.{IsBlock, IsPage, IsLeafFor, IsChange};
ghost use Rattle.xl_tagged.specs.Slots.{table_in};
ghost use Rattle.xl_tagged.specs.Groups.{IsWhole};

use crate::grouping::Grouping;
use crate::place::full_table;
use crate::search::{look, look_all, look_from, walk_all};
use crate::smaller::Smaller;
use xl_model::{Leaf, Order, PageWalk, Perm, Refused, Work};
use xl_pte::words_read_back;

/// Adds a leaf that overlaps no other.
pub(crate) fn add<G: Grouping>(
    chains: &mut G::Chains,
    smaller: &mut Smaller,
    leaf: Leaf,
) -> Result<Work, Refused>
    requires whole { IsWhole G.Chains.form G.kept (G.Chains.state chains.old) smaller.old }
    requires valid { IsLeafFor (table_in G.Chains.form (G.Chains.state chains.old)).shape leaf }
    requires free { meets_any leaf.space leaf.first leaf.order
        (table_in G.Chains.form (G.Chains.state chains.old)).leaves ≡ false }
    ensures whole { IsWhole G.Chains.form G.kept (G.Chains.state chains.new) smaller.new }
    ensures changes { IsChange (Insert leaf)
        (table_in G.Chains.form (G.Chains.state chains.old)) result
        (table_in G.Chains.form (G.Chains.state chains.new)) }
{
    words_read_back();
    match G::put(chains, leaf) {
        Ok(()) => {
            smaller.note(leaf);
            Ok(Work::none())
        }
        Err(_) => Err(full_table()),
    }
}

/// Takes out a leaf.
pub(crate) fn take_out<G: Grouping>(
    chains: &mut G::Chains,
    smaller: &mut Smaller,
    space: u16,
    first: u64,
    order: Order,
) -> Result<Work, Refused>
    requires whole { IsWhole G.Chains.form G.kept (G.Chains.state chains.old) smaller.old }
    requires named { IsNamed space first order
        (table_in G.Chains.form (G.Chains.state chains.old)).leaves }
    ensures whole { IsWhole G.Chains.form G.kept (G.Chains.state chains.new) smaller.new }
    ensures changes { IsChange (Remove space first order)
        (table_in G.Chains.form (G.Chains.state chains.old)) result
        (table_in G.Chains.form (G.Chains.state chains.new)) }
{
    words_read_back();
    G::take(chains, space, first, order);
    smaller.drop_at(space, first, order);
    Ok(Work::none())
}

/// Gives a leaf another permission.
pub(crate) fn set_perm<G: Grouping>(
    chains: &mut G::Chains,
    smaller: &Smaller,
    space: u16,
    first: u64,
    order: Order,
    perm: Perm,
) -> Result<Work, Refused>
    requires whole { IsWhole G.Chains.form G.kept (G.Chains.state chains.old) smaller.now }
    requires named { IsNamed space first order
        (table_in G.Chains.form (G.Chains.state chains.old)).leaves }
    ensures whole { IsWhole G.Chains.form G.kept (G.Chains.state chains.new) smaller.now }
    ensures changes { IsChange (Protect space first order perm)
        (table_in G.Chains.form (G.Chains.state chains.old)) result
        (table_in G.Chains.form (G.Chains.state chains.new)) }
{
    words_read_back();
    G::give(chains, space, first, order, perm);
    Ok(Work::none())
}

/// Moves a leaf to a block that no leaf overlaps: its new place is filled before its old one is
/// emptied.
pub(crate) fn move_to<G: Grouping>(
    chains: &mut G::Chains,
    smaller: &mut Smaller,
    space: u16,
    first: u64,
    to: u64,
    order: Order,
) -> Result<Work, Refused>
    requires whole { IsWhole G.Chains.form G.kept (G.Chains.state chains.old) smaller.old }
    requires named { IsNamed space first order
        (table_in G.Chains.form (G.Chains.state chains.old)).leaves }
    requires block { IsBlock (table_in G.Chains.form (G.Chains.state chains.old)).shape
        space to order }
    requires free { meets_any space to order
        (table_in G.Chains.form (G.Chains.state chains.old)).leaves ≡ false }
    ensures whole { IsWhole G.Chains.form G.kept (G.Chains.state chains.new) smaller.new }
    ensures changes { IsChange (Relocate space first to order)
        (table_in G.Chains.form (G.Chains.state chains.old)) result
        (table_in G.Chains.form (G.Chains.state chains.new)) }
{
    words_read_back();
    match look(chains, space, order, first) {
        None => unreachable!(),
        Some(old) => {
            let leaf = Leaf { first: to, ..old };
            match add::<G>(chains, smaller, leaf) {
                Err(refused) => Err(refused),
                Ok(_) => take_out::<G>(chains, smaller, space, first, order),
            }
        }
    }
}

/// The walk of a page.
#[inline(always)]
pub(crate) fn walk_page<G: Grouping>(
    chains: &mut G::Chains,
    smaller: &Smaller,
    space: u16,
    page: u64,
) -> PageWalk
    requires whole { IsWhole G.Chains.form G.kept (G.Chains.state chains.old) smaller.now }
    requires page { IsPage (table_in G.Chains.form (G.Chains.state chains.old)).shape space page }
    ensures whole { IsWhole G.Chains.form G.kept (G.Chains.state chains.new) smaller.now }
    ensures walks { IsPageWalk space page
        (table_in G.Chains.form (G.Chains.state chains.old)) result
        (table_in G.Chains.form (G.Chains.state chains.new)) }
{
    words_read_back();
    walk_all(chains, space, page)
}

/// The leaf of a page.
pub(crate) fn leaf_of_page<G: Grouping>(
    chains: &G::Chains,
    smaller: &Smaller,
    space: u16,
    page: u64,
) -> Option<Leaf>
    requires whole { IsWhole G.Chains.form G.kept (G.Chains.state chains.now) smaller.now }
    requires page { IsPage (table_in G.Chains.form (G.Chains.state chains.now)).shape space page }
    ensures { result ≡ leaf_at_page space page
        (table_in G.Chains.form (G.Chains.state chains.now)).leaves }
{
    words_read_back();
    look_all(chains, smaller.only_small(), space, page)
}

/// Whether a leaf has a page of a block: a smaller leaf lies in it, or one that isn't smaller has
/// its first page.
pub(crate) fn is_met<G: Grouping>(
    chains: &G::Chains,
    smaller: &Smaller,
    space: u16,
    first: u64,
    order: Order,
) -> bool
    requires whole { IsWhole G.Chains.form G.kept (G.Chains.state chains.now) smaller.now }
    requires block { IsBlock (table_in G.Chains.form (G.Chains.state chains.now)).shape
        space first order }
    ensures { result ≡ meets_any space first order
        (table_in G.Chains.form (G.Chains.state chains.now)).leaves }
{
    words_read_back();
    let only_small = smaller.only_small();
    smaller.any(order, space, first) || look_from(chains, only_small, space, order, first).is_some()
}
