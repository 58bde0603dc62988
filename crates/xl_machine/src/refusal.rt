//! The refusals that are tested before anything changes, and the leaves that commands name.

ghost use Rattle.std.specs.Prelude.{◌≡◌, ◌<◌, [], ◌∷◌, true, nat_lt, IfOk, IfErr, OnOk};
ghost use Rattle.xl_model.specs.Addresses.{is_aligned};
ghost use Rattle.xl_model.specs.Frames.{lowest};
ghost use Rattle.xl_model.specs.Mapping.{is_leaf};
ghost use Rattle.xl_model.specs.Rows.{row_of};
ghost use Rattle.xl_model.specs.Rules.{unless, place_rule, overlap_rule, frames_rule, fence_rule};
ghost use Rattle.xl_machine.specs.Rules.{rule_of, there_of, leaf_of};
ghost use Rattle.xl_model.specs.declared.event.Event.TheVariants as event;
ghost use Rattle.xl_model.specs.declared.event.Refusal.TheVariants as refused;
ghost use Rattle.xl_model.specs.declared.event.Scope.TheVariants as scope;

use crate::machine::Machine;
use xl_model::{Leaf, Order, Perm, Refusal, Row, Scope, Structure, canonical, page_of};

/// The refusal of a space that the row doesn't have.
pub(crate) fn space_refusal(row: &Row, space: u16) -> Option<Refusal>
    ensures { result ≡ unless (nat_lt space row.now.spaces) refused.BadSpace }
{
    if space < row.spaces {
        return None;
    }
    Some(Refusal::BadSpace)
}

/// The refusal of an address in a space: bad space, then not canonical, then misaligned.
fn place_refusal(row: &Row, space: u16, va: u64, order: Order) -> Option<Refusal>
    ensures { result ≡ place_rule (row_of row.now) space order (va ∷ []) }
{
    if space >= row.spaces {
        return Some(Refusal::BadSpace);
    }
    if !canonical(row.mode, va) {
        return Some(Refusal::NotCanonical);
    }
    if va % order.bytes() != 0 {
        return Some(Refusal::Misaligned);
    }
    None
}

/// The refusal of two addresses in a space, each test of both in turn.
fn places_refusal(row: &Row, space: u16, from: u64, to: u64, order: Order) -> Option<Refusal>
    ensures { result ≡ place_rule (row_of row.now) space order (from ∷ to ∷ []) }
{
    if space >= row.spaces {
        return Some(Refusal::BadSpace);
    }
    if !(canonical(row.mode, from) && canonical(row.mode, to)) {
        return Some(Refusal::NotCanonical);
    }
    if !(from % order.bytes() == 0 && to % order.bytes() == 0) {
        return Some(Refusal::Misaligned);
    }
    None
}

/// The refusal of a fence, by the space and the address that it names.
pub(crate) fn fence_refusal(row: &Row, scope: Scope) -> Option<Refusal>
    ensures { result ≡ fence_rule (row_of row.now) scope }
{
    match scope {
        Scope::All => None,
        Scope::Space { space } => space_refusal(row, space),
        Scope::Addr { va } => address_refusal(row, va),
        Scope::Page { space, va } => {
            if space >= row.spaces {
                return Some(Refusal::BadSpace);
            }
            address_refusal(row, va)
        }
    }
}

/// The refusal of an address that isn't canonical.
fn address_refusal(row: &Row, va: u64) -> Option<Refusal>
    ensures { result ≡ fence_rule (row_of row.now) (scope.Addr va) }
{
    if canonical(row.mode, va) {
        return None;
    }
    Some(Refusal::NotCanonical)
}

/// Whether a leaf is the one that is named.
fn is_named(leaf: Leaf, space: u16, first: u64, order: Order) -> bool
    ensures { result ≡ is_leaf space first order leaf }
{
    leaf.space == space && leaf.first == first && leaf.order.level() == order.level()
}

impl<S: Structure> Machine<S> {
    /// The leaf that covers the page of an address, where it is the leaf that the command names.
    ///
    /// # Errors
    ///
    /// `Unmapped` where no leaf covers the page, `WrongSize` where a leaf of another order does.
    fn leaf_named(&self, space: u16, va: u64, order: Order) -> Result<Leaf, Refusal>
        requires { space < self.now.row.spaces }
        ensures refused { IfErr result (λ r. there_of space va order self.now ≡ Some r) }
        ensures allowed { OnOk result (there_of space va order self.now ≡ None) }
        ensures found { IfOk result (λ leaf. leaf_of space va self.now ≡ Some leaf) }
    {
        let first = page_of(self.row.mode, va);
        match self.table.leaf_at(space, first) {
            Some(leaf) if is_named(leaf, space, first, order) => Ok(leaf),
            Some(_) => Err(Refusal::WrongSize),
            None => Err(Refusal::Unmapped),
        }
    }

    /// The refusal of a block that overlaps a leaf.
    fn overlap_refusal(&self, space: u16, va: u64, order: Order) -> Option<Refusal>
        requires space { space < self.now.row.spaces }
        requires aligned { is_aligned order va ≡ true }
        ensures { result ≡ overlap_rule self.now.row self.now.state.table.leaves space va order }
    {
        if self.table.meets(space, page_of(self.row.mode, va), order) {
            return Some(Refusal::Overlap);
        }
        None
    }

    /// The refusal where no block of frames of the order is free.
    fn frames_refusal(&self, order: Order) -> Option<Refusal>
        ensures { result
            ≡ frames_rule (lowest self.now.row.frames order self.now.state.table.leaves) }
    {
        if self.frames.can_take(order) {
            return None;
        }
        Some(Refusal::NoFrames)
    }

    /// The first refusal of a map that holds, but for want of room in the table.
    pub(crate) fn map_refusal(&self, space: u16, va: u64, order: Order) -> Option<Refusal>
        ensures { (perm : Perm) → result ≡ rule_of (event.Map space va order perm) self.now }
    {
        if let Some(refusal) = place_refusal(&self.row, space, va, order) {
            return Some(refusal);
        }
        if let Some(refusal) = self.overlap_refusal(space, va, order) {
            return Some(refusal);
        }
        self.frames_refusal(order)
    }

    /// The leaf that an unmap names, or a protect, where no rule refuses it.
    ///
    /// # Errors
    ///
    /// The first refusal that holds, but for want of room in the table.
    pub(crate) fn leaf_to_change(&self, space: u16, va: u64, order: Order) -> Result<Leaf, Refusal>
        ensures refused { IfErr result
            (λ r. rule_of (event.Unmap space va order) self.now ≡ Some r) }
        ensures allowed { OnOk result (rule_of (event.Unmap space va order) self.now ≡ None) }
        ensures found { IfOk result (λ leaf. leaf_of space va self.now ≡ Some leaf) }
    {
        if let Some(refusal) = place_refusal(&self.row, space, va, order) {
            return Err(refusal);
        }
        self.leaf_named(space, va, order)
    }

    /// The leaf that a move names, where no rule refuses it.
    ///
    /// # Errors
    ///
    /// The first refusal that holds, but for want of room in the table.
    pub(crate) fn leaf_to_move(
        &self,
        space: u16,
        from: u64,
        to: u64,
        order: Order,
    ) -> Result<Leaf, Refusal>
        ensures refused { IfErr result
            (λ r. rule_of (event.Move space from to order) self.now ≡ Some r) }
        ensures allowed { OnOk result (rule_of (event.Move space from to order) self.now ≡ None) }
        ensures found { IfOk result (λ leaf. leaf_of space from self.now ≡ Some leaf) }
    {
        if let Some(refusal) = places_refusal(&self.row, space, from, to, order) {
            return Err(refusal);
        }
        let leaf = self.leaf_named(space, from, order)?;
        if let Some(refusal) = self.overlap_refusal(space, to, order) {
            return Err(refusal);
        }
        Ok(leaf)
    }
}
