//! The guest.

ghost use Rattle.std.specs.Prelude.{◌≡◌, ◌+◌, ◌^◌, ◌<◌, ◌≤◌, Some, IfOk};
ghost use Rattle.xl_nested_model.specs.Rules.{guest_map, map_rule, unmap_rule, vmapped, vunmapped};
ghost use Rattle.xl_nested_model.specs.Stages.{opening_guest, with_loads};
ghost use Rattle.xl_nested.specs.Commands.{IsPlace, IsServed};
ghost use Rattle.xl_nested.specs.Kept.{stage_of};
ghost use Rattle.xl_nested.specs.Walks.{IsAt, IsEntry, LeavesReach};

use crate::stage::{Entry, Stage};
use std::alloc::Global;
use std::marker::Model;
use xl_model::{Leaf, NoMemory, Order, Perm};
use xl_nested_model::NestRefusal;
use xl_radix::Radix;

/// The guest's table, whose node n lies in guest page `base + n`. Contracts see both.
#[derive(Drop)]
pub(crate) struct Guest {
    base: u64,
    stage: Stage,
}

impl Model for Guest {
    ghost use Rattle.xl_nested_model.specs.Stages.{Guest as GuestState};
    ghost use Rattle.xl_nested.specs.Kept.{IsGuest};

    ghost Value = { GuestState };

    ghost view = { λ g. record { base = g.base; stage = g.stage } };

    ghost invariant = { λ g. IsGuest g.base g.stage };
}

impl Guest {
    /// A guest without leaves.
    pub fn open(alloc: Global, base: u64, nodes: u32) -> Result<Guest, NoMemory>
        requires nodes { (1 ≤ nodes) × (nodes ≤ 16384) }
        requires base { base + nodes ≤ 2 ^ 29 }
        ensures { IfOk result (λ guest. guest ≡ opening_guest base nodes) }
    {
        let stage = Stage::open(alloc, 1, nodes)?;
        Ok(Guest { base, stage })
    }

    /// The guest's table.
    pub fn table(&self) -> &Radix<3>
        ensures { stage_of result.now ≡ self.entry.now.stage }
    {
        self.stage.table()
    }

    /// The number of the root.
    #[inline(always)]
    pub fn root(&self, page: u64) -> u64
        requires { page < 2 ^ 27 }
        ensures { IsAt 2 result page self.now }
    {
        self.stage.root(page)
    }

    /// The guest page of a node.
    #[inline(always)]
    pub fn page_of_node(&self, level: usize, node: u64, page: u64) -> u64
        requires { IsAt level node page self.now }
        ensures page { result ≡ self.now.base + node }
        ensures low { result < 2 ^ 29 }
    {
        self.base + node
    }

    /// Loads the word of a page in its node of a level. The guest pages of a leaf are below 2^29.
    #[inline(always)]
    pub fn load(&mut self, level: usize, node: u64, page: u64) -> Entry
        requires { IsAt level node page self.old }
        ensures says { IsEntry level page result self.old.stage }
        ensures leaf { LeavesReach page result }
        ensures after { self.new ≡ record self.old { stage = with_loads 1 self.old.stage } }
    {
        self.stage.load(level, node, page)
    }

    /// Maps a block of pages to a block of guest pages.
    ///
    /// # Errors
    ///
    /// `Overlap` where the block overlaps a leaf, else `NoTable` where the table has no room.
    pub fn map(&mut self, page: u64, order: Order, to: u64, perm: Perm) -> Result<(), NestRefusal>
        requires page { IsPlace page order (2 ^ 27) }
        requires frames { IsPlace to order (2 ^ 29) }
        ensures { IsServed (map_rule 0 page order (Some
            (guest_map page order to perm)) self.old.stage)
            result self.old (vmapped page order to perm self.old) self.new }
    {
        if self.stage.meets(0, page, order) {
            return Err(NestRefusal::Overlap);
        }
        let leaf = Leaf {
            space: 0,
            first: page,
            order,
            frame: to,
            perm,
        };
        self.stage.add(leaf)
    }

    /// Takes out the leaf of this first page and order.
    ///
    /// # Errors
    ///
    /// `Absent` where there is none.
    pub fn unmap(&mut self, page: u64, order: Order) -> Result<(), NestRefusal>
        requires { IsPlace page order (2 ^ 27) }
        ensures { IsServed (unmap_rule 0 page order self.old.stage)
            result self.old (vunmapped page order self.old) self.new }
    {
        let Some(_leaf) = self.stage.named(0, page, order) else {
            return Err(NestRefusal::Absent);
        };
        self.stage.remove(0, page, order);
        Ok(())
    }
}
