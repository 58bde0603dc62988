//! The refusals that are tested before anything changes, and the leaves that commands name.

ghost use Rattle.std.specs.Prelude.{ℕ, ◌≡◌, ◌<◌, [], ◌∷◌, None, Some, true, not, nat_lt, IfOk, IfErr, OnOk};
ghost use Rattle.std.specs.List.{list_any};
ghost use Rattle.xl_model.specs.Addresses.{is_aligned, page_of as page_number};
ghost use Rattle.xl_model.specs.Changes.{Insert, Relocate};
ghost use Rattle.xl_model.specs.Frames.{lowest};
ghost use Rattle.xl_hart_model.specs.Harts.{shared_row, kept_leaves, hart_rule, change_rule, is_full, refused_unless};
ghost use Rattle.xl_model.specs.Mapping.{is_leaf};
ghost use Rattle.xl_model.specs.Rules.{unless, place_rule, there_rule, overlap_rule, frames_rule};
ghost use Rattle.xl_model.specs.Room.{has_room};
ghost use Rattle.xl_model.specs.declared.address.Mode.TheVariants as mode;
ghost use Rattle.xl_model.specs.declared.event.Event.TheVariants as event;
ghost use Rattle.xl_hart_model.specs.declared.hart.HartRefusal.TheVariants as why;
ghost use Rattle.xl_model.specs.declared.perm.Perm.{Perm as PermBits};
ghost use Rattle.xl_model.specs.declared.event.Refusal.TheVariants as refused;
ghost use Rattle.xl_harts.specs.Views.{refusal_of, leaf_at, leaf_of};

use crate::harts::Harts;
use xl_hart_model::{HartRefusal, HartSpec};
use xl_model::{Leaf, Mode, Order, Perm, Refusal, Structure, canonical, page_of};

/// Some permission, of a leaf for which room is looked for.
const READ: Perm = Perm {
    r: true,
    w: false,
    x: false,
    u: false,
};

/// The refusal of a space that isn't one of the spec's.
pub(crate) fn space_refusal(spec: &HartSpec, space: u16) -> Option<Refusal>
    ensures { result ≡ unless (nat_lt space spec.now.spaces) refused.BadSpace }
{
    if space < spec.spaces {
        return None;
    }
    Some(Refusal::BadSpace)
}

/// The refusal of an address in a space: bad space, then not canonical, then misaligned.
fn place_refusal(spec: &HartSpec, space: u16, va: u64, order: Order) -> Option<Refusal>
    ensures { result ≡ place_rule (shared_row spec.now) space order (va ∷ []) }
{
    if space >= spec.spaces {
        return Some(Refusal::BadSpace);
    }
    if !canonical(Mode::Sv39, va) {
        return Some(Refusal::NotCanonical);
    }
    if va % order.bytes() != 0 {
        return Some(Refusal::Misaligned);
    }
    None
}

/// The refusal of two addresses in a space, each test of both in turn.
fn places_refusal(spec: &HartSpec, space: u16, from: u64, to: u64, order: Order) -> Option<Refusal>
    ensures { result ≡ place_rule (shared_row spec.now) space order (from ∷ to ∷ []) }
{
    if space >= spec.spaces {
        return Some(Refusal::BadSpace);
    }
    if !(canonical(Mode::Sv39, from) && canonical(Mode::Sv39, to)) {
        return Some(Refusal::NotCanonical);
    }
    if !(from % order.bytes() == 0 && to % order.bytes() == 0) {
        return Some(Refusal::Misaligned);
    }
    None
}

/// Whether a leaf is the one that is named.
fn is_named(leaf: Leaf, space: u16, first: u64, order: Order) -> bool
    ensures { result ≡ is_leaf space first order leaf }
{
    leaf.space == space && leaf.first == first && leaf.order.level() == order.level()
}

impl Harts {
    /// The leaf that covers the page of an address, where it is the leaf that the command names.
    ///
    /// # Errors
    ///
    /// `Unmapped` where no leaf covers the page, `WrongSize` where a leaf of another order does.
    fn leaf_named(&self, space: u16, va: u64, order: Order) -> Result<Leaf, Refusal>
        requires { space < self.now.spec.spaces }
        ensures refused { IfErr result (λ r. there_rule (shared_row self.now.spec)
            self.now.table.leaves space va order ≡ Some r) }
        ensures allowed { OnOk result (there_rule (shared_row self.now.spec)
            self.now.table.leaves space va order ≡ None) }
        ensures found { IfOk result (λ leaf. leaf_of space va self.now ≡ Some leaf) }
    {
        let first = page_of(Mode::Sv39, va);
        match self.table.leaf_at(space, first) {
            Some(leaf) if is_named(leaf, space, first, order) => Ok(leaf),
            Some(_) => Err(Refusal::WrongSize),
            None => Err(Refusal::Unmapped),
        }
    }

    /// The refusal of a block that overlaps a leaf.
    fn overlap_refusal(&self, space: u16, va: u64, order: Order) -> Option<Refusal>
        requires space { space < self.now.spec.spaces }
        requires aligned { is_aligned order va ≡ true }
        ensures { result ≡ overlap_rule (shared_row self.now.spec) self.now.table.leaves space va
            order }
    {
        if self.table.meets(space, page_of(Mode::Sv39, va), order) {
            return Some(Refusal::Overlap);
        }
        None
    }

    /// The refusal where no block of frames of the order is free.
    fn frames_refusal(&self, order: Order) -> Option<Refusal>
        ensures { result
            ≡ frames_rule (lowest self.now.spec.frames order (kept_leaves self.now)) }
    {
        if self.frames.can_take(order) {
            return None;
        }
        Some(Refusal::NoFrames)
    }

    /// The first of refusals 1 to 7 of a map that holds.
    fn map_rule(&self, space: u16, va: u64, order: Order, _perm: Perm) -> Option<Refusal>
        ensures { result ≡ hart_rule self.now (event.Map space va order _perm) }
    {
        if let Some(refusal) = place_refusal(&self.spec, space, va, order) {
            return Some(refusal);
        }
        if let Some(refusal) = self.overlap_refusal(space, va, order) {
            return Some(refusal);
        }
        self.frames_refusal(order)
    }

    /// The leaf that an unmap names, or a protect, where none of refusals 1 to 7 holds.
    ///
    /// # Errors
    ///
    /// The first of them that holds.
    fn leaf_to_change(&self, space: u16, va: u64, order: Order) -> Result<Leaf, Refusal>
        ensures refused { IfErr result
            (λ r. hart_rule self.now (event.Unmap space va order) ≡ Some r) }
        ensures allowed { OnOk result (hart_rule self.now (event.Unmap space va order) ≡ None) }
        ensures found { IfOk result (λ leaf. leaf_of space va self.now ≡ Some leaf) }
    {
        if let Some(refusal) = place_refusal(&self.spec, space, va, order) {
            return Err(refusal);
        }
        self.leaf_named(space, va, order)
    }

    /// The leaf that a move names, where none of refusals 1 to 7 holds.
    ///
    /// # Errors
    ///
    /// The first of them that holds.
    fn leaf_to_move(&self, space: u16, from: u64, to: u64, order: Order) -> Result<Leaf, Refusal>
        ensures refused { IfErr result
            (λ r. hart_rule self.now (event.Move space from to order) ≡ Some r) }
        ensures allowed { OnOk result (hart_rule self.now (event.Move space from to order) ≡ None) }
        ensures found { IfOk result (λ leaf. leaf_of space from self.now ≡ Some leaf) }
    {
        if let Some(refusal) = places_refusal(&self.spec, space, from, to, order) {
            return Err(refusal);
        }
        let leaf = self.leaf_named(space, from, order)?;
        if let Some(refusal) = self.overlap_refusal(space, to, order) {
            return Err(refusal);
        }
        Ok(leaf)
    }

    /// Whether the table has room for a leaf at the block, which overlaps no leaf.
    fn has_room(&self, space: u16, va: u64, order: Order) -> bool
        requires space { space < self.now.spec.spaces }
        requires aligned { is_aligned order va ≡ true }
        requires free { overlap_rule (shared_row self.now.spec) self.now.table.leaves space va
            order ≡ None }
        ensures { (frame : ℕ) (perm : PermBits) → result
            ≡ has_room (Insert (leaf_at space va order frame perm)) self.now.table.leaves
            self.now.table.shape }
    {
        self.table.has_room(Leaf {
            space,
            first: page_of(Mode::Sv39, va),
            order,
            frame: 0,
            perm: READ,
        })
    }

    /// Refusal 10: some hart's queue is full. The longest queue has all requests of the ring.
    fn queue_refusal(&self) -> Option<HartRefusal>
        ensures { result ≡ refused_unless (not (list_any (is_full self.now.spec) self.now.harts))
            why.QueueFull }
    {
        if self.requests.is_full() {
            return Some(HartRefusal::QueueFull);
        }
        None
    }

    /// The first refusal of a map that holds.
    pub(crate) fn map_refusal(
        &self,
        space: u16,
        va: u64,
        order: Order,
        perm: Perm,
    ) -> Option<HartRefusal>
        ensures { result ≡ refusal_of (event.Map space va order perm) self.now }
    {
        // Reading a field brings in the type's invariant.
        let _spec = &self.spec;
        if let Some(refusal) = self.map_rule(space, va, order, perm) {
            return Some(HartRefusal::Mapping(refusal));
        }
        if !self.has_room(space, va, order) {
            return Some(HartRefusal::Mapping(Refusal::NoTable));
        }
        self.queue_refusal()
    }

    /// The leaf that an unmap names, or a protect.
    ///
    /// # Errors
    ///
    /// The first refusal that holds.
    pub(crate) fn change_refusal(
        &self,
        space: u16,
        va: u64,
        order: Order,
    ) -> Result<Leaf, HartRefusal>
        ensures refused { IfErr result (λ r. refusal_of (event.Unmap space va order) self.now
            ≡ Some r) }
        ensures allowed { OnOk result (refusal_of (event.Unmap space va order) self.now ≡ None) }
        ensures found { IfOk result (λ leaf. leaf_of space va self.now ≡ Some leaf) }
        ensures protect { (perm : PermBits) → refusal_of (event.Protect space va order perm)
            self.now ≡ refusal_of (event.Unmap space va order) self.now }
    {
        // Reading a field brings in the type's invariant.
        let _spec = &self.spec;
        match self.leaf_to_change(space, va, order) {
            Ok(leaf) => match self.queue_refusal() {
                Some(refusal) => Err(refusal),
                None => Ok(leaf),
            },
            Err(refusal) => Err(HartRefusal::Mapping(refusal)),
        }
    }

    /// The leaf that a move names.
    ///
    /// # Errors
    ///
    /// The first refusal that holds.
    pub(crate) fn move_refusal(
        &self,
        space: u16,
        from: u64,
        to: u64,
        order: Order,
    ) -> Result<Leaf, HartRefusal>
        ensures refused { IfErr result (λ r. refusal_of (event.Move space from to order) self.now
            ≡ Some r) }
        ensures allowed { OnOk result (refusal_of (event.Move space from to order) self.now
            ≡ None) }
        ensures found { IfOk result (λ leaf. leaf_of space from self.now ≡ Some leaf) }
    {
        match self.leaf_to_move(space, from, to, order) {
            Ok(leaf) => match self.room_refusal(space, from, to, order) {
                Some(refusal) => Err(refusal),
                None => Ok(leaf),
            },
            Err(refusal) => Err(HartRefusal::Mapping(refusal)),
        }
    }

    /// Refusals 8 and 10 of a move.
    fn room_refusal(&self, space: u16, from: u64, to: u64, order: Order) -> Option<HartRefusal>
        requires { hart_rule self.now (event.Move space from to order) ≡ None }
        ensures { result ≡ change_rule (Some (Relocate space (page_number mode.Sv39 from)
            (page_number mode.Sv39 to) order)) self.now }
    {
        let first = page_of(Mode::Sv39, from);
        let place = page_of(Mode::Sv39, to);
        if !self.table.has_room_to(space, first, place, order) {
            return Some(HartRefusal::Mapping(Refusal::NoTable));
        }
        self.queue_refusal()
    }
}
