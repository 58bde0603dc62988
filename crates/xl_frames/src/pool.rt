//! The pool that serves: the free frames, and the free blocks of 2 MiB and of 1 GiB, as bits.

ghost use Rattle.std.specs.Prelude.{◌≡◌, ℕ, ◌+◌, ◌*◌, ◌^◌, ◌<◌, ◌≤◌, true, false, length, replicate, IfOk, IfSome, IfNone};
ghost use Rattle.std.specs.Bool.{OnTrue, OnFalse};
ghost use Rattle.xl_model.specs.Addresses.{pages_of};
ghost use Rattle.xl_frames.specs.Pool.{IsFree, IsLowest, HasNone, marked};

use crate::blocks::Sets;
use std::alloc::Global;
use std::marker::Model;
use xl_model::{NoMemory, Order};
use xl_numbers::FreeNumbers;

/// A pool of frames of 4 KiB. Contracts see the list of its flags: for each frame, by its number,
/// whether it is free.
#[derive(Drop)]
pub struct Frames {
    sets: Sets,
}

impl Model for Frames {
    ghost use Rattle.std.specs.Prelude.{Bool, List};

    ghost Value = { List Bool };

    ghost view = { λ s. s.sets.frames };
}

impl Frames {
    /// A pool of `n` frames, which are all free.
    pub fn open(alloc: Global, n: u32) -> Result<Frames, NoMemory>
        requires some { 1 ≤ n }
        requires limit { n ≤ 2 ^ 22 }
        ensures { IfOk result (λ pool. pool ≡ replicate n true) }
    {
        let frames = FreeNumbers::open(alloc, n)?;
        let blocks = FreeNumbers::open(alloc, n / 512)?;
        let parts = FreeNumbers::open(alloc, n / 262_144)?;
        Ok(Frames {
            sets: Sets {
                frames,
                blocks,
                parts,
            },
        })
    }

    /// Takes the lowest free block of the order, and returns the number of its first frame. None
    /// exactly where no block of the order is free.
    pub fn take(&mut self, order: Order) -> Option<u64>
        ensures lowest { IfSome result (IsLowest self.old (pages_of order)) }
        ensures taken { IfSome result (λ frame. self.new ≡
            marked self.old frame (pages_of order) false) }
        ensures none { IfNone result (HasNone self.old (pages_of order)) }
        ensures unchanged { IfNone result (self.new ≡ self.old) }
    {
        self.sets.take(order)
    }

    /// Whether `take` would find a block of the order.
    pub fn can_take(&self, order: Order) -> bool
        ensures yes { OnTrue result ((block : ℕ) ×
            IsFree self.now (block * pages_of order) (pages_of order)) }
        ensures no { OnFalse result (HasNone self.now (pages_of order)) }
    {
        self.sets.can_take(order)
    }

    /// Gives back the block of the order that begins at `frame`. Its frames are free again, and no
    /// other frame changes.
    pub fn give(&mut self, frame: u64, order: Order)
        requires { frame + pages_of order ≤ length self.old }
        ensures { self.new ≡ marked self.old frame (pages_of order) true }
    {
        self.sets.give(frame as usize, order);
    }
}
