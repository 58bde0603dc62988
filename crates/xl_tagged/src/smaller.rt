//! Counts of smaller leaves by section.

ghost use Rattle.std.specs.Prelude.{◌≡◌, ◌*◌, ◌+◌, ◌/◌, ◌^◌, ◌<◌, ◌≤◌, [], true, IfOk};
ghost use Rattle.xl_model.specs.declared.address.Order.TheVariants as orders;
ghost use Rattle.xl_tagged.specs.Counted.{HasRoom, HaveRoom, IsMore, AreMore, IsIn, AreIn, IsLess, AreLess, any_smaller};

use std::alloc::Global;
use std::marker::Model;
use xl_model::{Leaf, NoMemory, Order};
use xl_sections::{Counts, drop_leaf, note_leaf, section};

/// How many leaves smaller than the section lie in each section of 2 MiB and of 1 GiB, and whether
/// only leaves of 4 KiB were ever counted. Nothing is allocated after `open`. As many sections as
/// tags are enough: each tag's leaves lie in one section.
#[derive(Drop)]
pub struct Smaller {
    middle: Counts,
    large: Counts,
    only_small: bool,
}

impl Model for Smaller {
    ghost use Rattle.xl_tagged.specs.Counted.{SmallerState};

    ghost Value = { SmallerState };

    ghost view = { λ s. record {
      middle = s.middle;
      large = s.large;
      only_small = s.only_small;
    } };
}

/// Counts a leaf for its section, where it is smaller.
fn note(counts: &mut Counts, size: Order, leaf: Leaf)
    requires { HasRoom size leaf counts.old }
    ensures { IsMore size leaf counts.old counts.new }
{
    if leaf.order.level() < size.level() {
        note_leaf(counts, size, leaf);
    }
}

/// Counts the leaf at a place no longer, where it is smaller than its section.
fn drop_from(counts: &mut Counts, size: Order, space: u16, first: u64, order: Order)
    requires { IsIn size space first order counts.old }
    ensures { IsLess size space first order counts.old counts.new }
{
    if order.level() < size.level() {
        drop_leaf(counts, size, space, first, order);
    }
}

/// Whether only leaves of 4 KiB were counted, once a leaf of this order is counted too.
fn stays_small(before: bool, order: Order) -> bool
    ensures { result ≡ true → (before ≡ true) × (order ≡ orders.K4) }
{
    match order {
        Order::K4 => before,
        _ => false,
    }
}

impl Smaller {
    /// No counts, with room for this many sections of each size.
    ///
    /// # Errors
    ///
    /// `NoMemory` where there is no memory.
    pub fn open(alloc: Global, room: u32) -> Result<Smaller, NoMemory>
        requires { (1 ≤ room) × (room ≤ 2 ^ 20) }
        ensures middle { IfOk result (λ s. s.middle.counts ≡ []) }
        ensures middle_room { IfOk result (λ s. s.middle.room ≡ room) }
        ensures large { IfOk result (λ s. s.large.counts ≡ []) }
        ensures large_room { IfOk result (λ s. s.large.room ≡ room) }
        ensures small { IfOk result (λ s. s.only_small ≡ true) }
    {
        let middle = Counts::open(alloc, room)?;
        let large = Counts::open(alloc, room)?;
        Ok(Smaller {
            middle,
            large,
            only_small: true,
        })
    }

    /// Counts a leaf.
    pub fn note(&mut self, leaf: Leaf)
        requires { HaveRoom leaf self.old }
        ensures { AreMore leaf self.old self.new }
    {
        note(&mut self.middle, Order::M2, leaf);
        note(&mut self.large, Order::G1, leaf);
        self.only_small = stays_small(self.only_small, leaf.order);
    }

    /// Counts the leaf at a place no longer.
    pub fn drop_at(&mut self, space: u16, first: u64, order: Order)
        requires { AreIn space first order self.old }
        ensures { AreLess space first order self.old self.new }
    {
        drop_from(&mut self.middle, Order::M2, space, first, order);
        drop_from(&mut self.large, Order::G1, space, first, order);
    }

    /// Whether only leaves of 4 KiB were ever counted.
    #[inline(always)]
    pub fn only_small(&self) -> bool
        ensures { result ≡ self.now.only_small }
    {
        self.only_small
    }

    /// Whether a leaf smaller than a block of this order lies in the block of a page; in a block of
    /// 4 KiB none does.
    pub fn any(&self, order: Order, space: u16, page: u64) -> bool
        requires space_in { space < 64 }
        requires page_in { page < 2 ^ 45 }
        ensures { result ≡ any_smaller order space page self.now }
    {
        match order {
            Order::K4 => false,
            Order::M2 => self.middle.count(section(space, page, order)) != 0,
            Order::G1 => self.large.count(section(space, page, order)) != 0,
        }
    }
}
