//! The list of places of one set.

ghost use Rattle.std.specs.Prelude.{◌≡◌, ◌<◌, ℕ, false, None, map, replicate, IfSome};
ghost use Rattle.std.specs.Fn.{FnReturnsAt};
ghost use Rattle.xl_curve.specs.Places.{IsNamed, IsThinned, is_vacant, leaf_in, place_without};
ghost use Rattle.xl_curve.specs.Slots.{IsInFront};
ghost use Rattle.xl_model.specs.Mapping.{is_leaf};
ghost use Rattle.xl_model.specs.declared.address.Order.{Order as OrderOf};
ghost use Rattle.xl_recency.specs.Lists.{IsTest};

use crate::kernel::{
    MARKS, Slots, WIDEST, bring_in_front, first_hole, lacks, ranks_in_turn, vacate_named,
    vacate_where,
};
use crate::place::{HOLE, HOLE_MARK, Place};
use std::marker::Model;
use xl_model::Leaf;

/// A recency list of 64 places, of which some are holes. Contracts see what each place has, the
/// newest first. What a place has is kept in a slot, whose rank says which place it is.
#[derive(Drop)]
pub(crate) struct Stack {
    slots: Slots,
}

impl Model for Stack {
    ghost use Rattle.std.specs.Prelude.{List, Option};
    ghost use Rattle.xl_model.specs.declared.leaf.Leaf.{Leaf};
    ghost use Rattle.xl_curve.specs.Slots.{IsSlots, list_of};

    ghost Value = { List (Option Leaf) };

    ghost view = { λ s. list_of s.slots };

    ghost invariant = { λ s. IsSlots s.slots };
}

impl Stack {
    /// A list of holes.
    #[tactic(auto, unfolding(crate::specs::Places::place_of))]
    pub fn new() -> Stack
        ensures { result ≡ replicate 64 None }
    {
        Stack {
            slots: Slots {
                marks: [HOLE_MARK; WIDEST],
                ranks: ranks_in_turn(),
                places: [HOLE; WIDEST],
                guide: [0; MARKS],
                solid: 0,
            },
        }
    }

    /// Puts a leaf in front, and gives the distance at which it was. The last place gives way,
    /// where none is a hole and none has the leaf.
    #[inline(always)]
    pub fn access(&mut self, leaf: Place) -> Option<usize>
        requires { is_vacant leaf ≡ false }
        ensures front { IsInFront (leaf_in leaf) self.old result self.new }
        ensures below { IfSome result (λ d. d < 64) }
    {
        bring_in_front(&mut self.slots, leaf)
    }

    /// Removes the leaves of a name. They leave holes. Mostly there are none.
    pub fn remove_named(&mut self, named: Place)
        ensures removed { (space first : ℕ) (o : OrderOf) → IsNamed space first o named →
            self.new ≡ map (place_without (is_leaf space first o)) self.old }
        ensures thinned { IsThinned self.old self.new }
    {
        if lacks(&self.slots.marks, &self.slots.places, named) {
            return;
        }
        vacate_named(&mut self.slots.marks, &mut self.slots.places, named);
        self.slots.solid = first_hole(&self.slots.marks, &self.slots.ranks);
    }

    /// Removes the leaves that pass the test. They leave holes.
    pub fn remove_where<P: Fn(&Leaf) -> bool>(&mut self, test: &P)
        requires { P.IsAlwaysCallable test.now }
        ensures removed { (q : _) → IsTest (FnReturnsAt P.Fn test.now) q →
            self.new ≡ map (place_without q) self.old }
        ensures thinned { IsThinned self.old self.new }
    {
        vacate_where(&mut self.slots.marks, &mut self.slots.places, test);
        self.slots.solid = first_hole(&self.slots.marks, &self.slots.ranks);
    }
}
