//! Where the leaves of an array are.

ghost use Rattle.std.specs.Prelude.{◌↔◌, true, ◌≡◌, ◌<◌, ◌%◌, ◌^◌};
ghost use Rattle.xl_model.specs.Tlb.{serves_as, set_number, takes_order};
ghost use Rattle.xl_model.specs.declared.address.Order.TheVariants as order;
ghost use Rattle.xl_array.specs.Arrays.{HasMask, IsCommon};

use std::marker::Model;
use xl_model::{Kind, Order, Serves, TlbSpec, remainder};

/// The spec of an array, with what the set of a page takes of it, so that it isn't computed at each
/// look. Contracts see the spec.
#[derive(Drop)]
pub(crate) struct Places {
    spec: TlbSpec,
    /// The number of the last set, counted from 0.
    last: u64,
    /// Whether that number is a mask, so that it gives the set of a page without a division.
    masks: bool,
}

impl Model for Places {
    ghost use Rattle.xl_model.specs.declared.row.TlbSpec.{TlbSpec};
    ghost use Rattle.xl_array.specs.Arrays.{IsPlaces};

    ghost Value = { TlbSpec };

    ghost view = { λ p. p.spec };

    ghost invariant = { λ p. IsPlaces p.last p.masks p.spec.sets };
}

impl Places {
    /// The places of an array of this spec.
    pub fn of(spec: TlbSpec) -> Places
        ensures { result ≡ spec }
    {
        let power = 1 << spec.sets.trailing_zeros();
        Places {
            spec,
            last: (spec.sets as u64).saturating_sub(1),
            masks: power == spec.sets as u64,
        }
    }

    /// The array's level.
    #[inline(always)]
    pub fn level(&self) -> u8
        ensures { result ≡ self.now.level }
    {
        self.spec.level
    }

    /// Whether the array serves accesses of this kind.
    #[inline(always)]
    pub fn serves(&self, kind: Kind) -> bool
        ensures { result ≡ serves_as self.now.serves kind }
    {
        self.spec.serves.serves(kind)
    }

    /// Which accesses the array serves.
    pub fn serving(&self) -> Serves
        ensures { result ≡ self.now.serves }
    {
        self.spec.serves
    }

    /// Whether the array has four or eight ways, and finds its sets by a mask.
    pub fn are_common(&self) -> bool
        ensures { result ≡ true → IsCommon self.now }
    {
        self.masks && (self.spec.width == 4 || self.spec.width == 8)
    }

    /// Whether the sets are a multiple of eight.
    pub fn are_by_eight(&self) -> bool
        ensures { (result ≡ true) ↔ (self.now.sets % 8 ≡ 0) }
    {
        self.spec.sets % 8 == 0
    }

    /// There are less than 2^32 sets.
    pub fn sets_are_few(&self)
        ensures { self.now.sets < 2 ^ 32 }
    {
        // Reading a field brings in the type's invariant.
        let _sets = self.spec.sets;
    }

    /// Whether the array takes leaves of this order.
    #[inline(always)]
    pub fn takes(&self, order: Order) -> bool
        ensures { result ≡ takes_order self.now order }
    {
        match order {
            Order::K4 => self.spec.k4,
            Order::M2 => self.spec.m2,
            Order::G1 => self.spec.g1,
        }
    }

    /// The set of the block with this number.
    #[inline(always)]
    fn set_at(&self, block: u64) -> usize
        requires { 0 < self.now.sets }
        ensures value { result ≡ block % self.now.sets }
        ensures within { result < self.now.sets }
    {
        if self.masks {
            return (block & self.last) as usize;
        }
        remainder(block, self.spec.sets)
    }

    /// The set of the leaf of 4 KiB that would cover the page, where the last set is a mask.
    #[inline(always)]
    pub fn set_by_mask(&self, page: u64) -> usize
        requires { HasMask self.now.sets }
        ensures { result ≡ set_number self.now order.K4 page }
    {
        (page & self.last) as usize
    }

    /// The set of the leaf of the order that would cover the page.
    #[inline(always)]
    pub fn set_of(&self, page: u64, order: Order) -> usize
        requires { 0 < self.now.sets }
        ensures value { result ≡ set_number self.now order page }
        ensures within { result < self.now.sets }
    {
        match order {
            Order::K4 => self.set_at(page),
            Order::M2 => self.set_at(page / 512),
            Order::G1 => self.set_at(page / 262_144),
        }
    }
}
