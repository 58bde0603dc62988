//! Leaves that are inserted.

ghost use Rattle.std.specs.Prelude.{◌≡◌, ◌<◌, ◌≤◌, ◌^◌, ◌&&◌, false, IfOk, IfErr};
ghost use Rattle.xl_model.specs.Addresses.{level_of};
ghost use Rattle.xl_model.specs.Changes.{Insert};
ghost use Rattle.xl_model.specs.Mapping.{meets_any};
ghost use Rattle.xl_model.specs.Structures.{IsLeafFor, IsChange};
ghost use Rattle.xl_model.specs.declared.address.Order.TheVariants as order;
ghost use Rattle.xl_sections.specs.Counted.{AreCounts};
ghost use Rattle.xl_sections.specs.Noted.{IsRoomy, IsNoted};
ghost use Rattle.xl_cuckoo_walk.specs.Parts.{IsRow, row_state};
ghost use Rattle.xl_cuckoo_walk.specs.Changes.{has_fit, IsEntered, IsRefused};

use crate::parts::Parts;
use crate::purge::{refresh_displaced, refresh_leaf};
use crate::tables::put;
use crate::work::{cached, no_place, work};
use xl_model::{Leaf, Moves, Order, Refused, Work};
use xl_pte::{leaf_word, words_read_back};
use xl_sections::{Counts, note_leaf, section};
use xl_tagged::full_table;

/// Whether the sections of a size have room for a leaf: it is larger than a section, its section
/// has leaves, or not all sections have.
fn fits(counts: &Counts, size: Order, leaf: Leaf) -> bool
    requires space_in { leaf.space < 64 }
    requires page_in { leaf.first < 2 ^ 45 }
    ensures { result ≡ has_fit size leaf counts.now }
{
    leaf.order.level() > size.level()
        || counts.count(section(leaf.space, leaf.first, size)) != 0
        || !counts.is_full()
}

/// Whether the sections of both sizes have room for a leaf.
fn has_room<const D: usize>(parts: &Parts<D>, leaf: Leaf) -> bool
    requires space_in { leaf.space < 64 }
    requires page_in { leaf.first < 2 ^ 45 }
    ensures { result
        ≡ (has_fit order.M2 leaf parts.now.middle.counts
        && has_fit order.G1 leaf parts.now.large.counts) }
{
    fits(&parts.middle, Order::M2, leaf) && fits(&parts.large, Order::G1, leaf)
}

/// Counts a leaf for its section, where it isn't larger.
fn count(counts: &mut Counts, size: Order, leaf: Leaf)
    requires are { AreCounts counts.old.counts }
    requires roomy { level_of leaf.order ≤ level_of size → IsRoomy size leaf counts.old }
    ensures { IsNoted size leaf counts.old counts.new }
{
    if leaf.order.level() <= size.level() {
        note_leaf(counts, size, leaf);
    }
}

/// Puts a leaf that no leaf overlaps into the table of its order, and counts it. The caches stay as
/// they are.
pub(crate) fn enter<const D: usize>(parts: &mut Parts<D>, leaf: Leaf) -> Result<Moves, Refused>
    requires whole { IsRow parts.old }
    requires valid { IsLeafFor (row_state parts.old).shape leaf }
    requires free { meets_any leaf.space leaf.first leaf.order (row_state parts.old).leaves
        ≡ false }
    ensures made { IfOk result (λ m. IsEntered leaf parts.old parts.new m) }
    ensures refused { IfErr result (λ r. IsRefused leaf parts.old parts.new r) }
{
    words_read_back();
    if !has_room(parts, leaf) {
        return Err(full_table());
    }
    let key = section(leaf.space, leaf.first, leaf.order);
    match put(parts, leaf.order, key, leaf_word(leaf.frame, leaf.perm)) {
        Err(full) => Err(no_place(full)),
        Ok(moves) => {
            count(&mut parts.middle, Order::M2, leaf);
            count(&mut parts.large, Order::G1, leaf);
            Ok(moves)
        }
    }
}

/// Adds a leaf that overlaps no other.
pub(crate) fn insert_leaf<const D: usize>(parts: &mut Parts<D>, leaf: Leaf) -> Result<Work, Refused>
    requires whole { IsRow parts.old }
    requires valid { IsLeafFor (row_state parts.old).shape leaf }
    requires free { meets_any leaf.space leaf.first leaf.order (row_state parts.old).leaves
        ≡ false }
    ensures whole { IsRow parts.new }
    ensures changes { IsChange (Insert leaf) (row_state parts.old) result (row_state parts.new) }
{
    words_read_back();
    let before = cached(parts);
    match enter(parts, leaf) {
        Err(refused) => Err(refused),
        Ok(moves) => {
            refresh_displaced(parts, leaf.order);
            refresh_leaf(parts, leaf.space, leaf.first);
            Ok(work(moves, before - cached(parts)))
        }
    }
}
