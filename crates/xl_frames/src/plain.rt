//! The pool as a flag for each frame. Its calls scan, under the contracts of the pool that serves.

ghost use Rattle.std.specs.Prelude.{◌≡◌, ℕ, ◌+◌, ◌*◌, ◌^◌, ◌<◌, ◌≤◌, true, false, IsTrue, ◌↔◌, length, replicate, IfOk, IfSome, IfNone};
ghost use Rattle.std.specs.Bool.{OnTrue, OnFalse};
ghost use Rattle.xl_model.specs.Addresses.{pages_of};
ghost use Rattle.xl_frames.specs.Pool.{IsFree, IsLowest, HasNone, marked};

use std::alloc::Global;
use std::marker::Model;
use xl_model::{NoMemory, Order};

/// A pool of frames of 4 KiB, as a flag for each: whether it is free.
#[derive(Drop)]
pub struct Frames {
    flags: Vec<bool>,
}

impl Model for Frames {
    ghost use Rattle.std.specs.Prelude.{Bool, List};

    ghost Value = { List Bool };

    ghost view = { λ s. s.flags.items };
}

/// Whether the frames from `first` on, as many as `count` says, are all free.
fn all_free(flags: &[bool], first: usize, count: usize) -> bool
    requires { first + count ≤ length flags.now }
    ensures { IsTrue result ↔ IsFree flags.now first count }
{
    for i in 0..count {
        if !flags[first + i] {
            return false;
        }
    }
    true
}

/// The first frame of the lowest free block of `size` frames.
fn lowest(flags: &[bool], size: usize) -> Option<usize>
    requires { 0 < size }
    ensures some { IfSome result (IsLowest flags.now size) }
    ensures none { IfNone result (HasNone flags.now size) }
{
    for block in 0..flags.len() / size {
        if all_free(flags, block * size, size) {
            return Some(block * size);
        }
    }
    None
}

/// Makes the frames from `first` on free or taken, as many as `count` says.
fn mark(flags: &mut [bool], first: usize, count: usize, free: bool)
    requires { first + count ≤ length flags.old }
    ensures { flags.new ≡ marked flags.old first count free }
{
    flags[first..first + count].fill(free);
}

impl Frames {
    /// A pool of `n` frames, which are all free.
    pub fn open(alloc: Global, n: u32) -> Result<Frames, NoMemory>
        requires some { 1 ≤ n }
        requires limit { n ≤ 2 ^ 22 }
        ensures { IfOk result (λ pool. pool ≡ replicate n true) }
    {
        let flags = vec![in alloc; true; n as usize]?;
        Ok(Frames { flags })
    }

    /// Takes the lowest free block of the order, and returns the number of its first frame. None
    /// exactly where no block of the order is free.
    pub fn take(&mut self, order: Order) -> Option<u64>
        ensures lowest { IfSome result (IsLowest self.old (pages_of order)) }
        ensures taken { IfSome result (λ frame. self.new ≡
            marked self.old frame (pages_of order) false) }
        ensures none { IfNone result (HasNone self.old (pages_of order)) }
        ensures unchanged { IfNone result (self.new ≡ self.old) }
    {
        let size = order.pages() as usize;
        match lowest(&self.flags, size) {
            Some(first) => {
                mark(&mut self.flags, first, size, false);
                Some(first as u64)
            }
            None => None,
        }
    }

    /// Whether `take` would find a block of the order.
    pub fn can_take(&self, order: Order) -> bool
        ensures yes { OnTrue result ((block : ℕ) ×
            IsFree self.now (block * pages_of order) (pages_of order)) }
        ensures no { OnFalse result (HasNone self.now (pages_of order)) }
    {
        lowest(&self.flags, order.pages() as usize).is_some()
    }

    /// Gives back the block of the order that begins at `frame`. Its frames are free again, and no
    /// other frame changes.
    pub fn give(&mut self, frame: u64, order: Order)
        requires { frame + pages_of order ≤ length self.old }
        ensures { self.new ≡ marked self.old frame (pages_of order) true }
    {
        mark(
            &mut self.flags,
            frame as usize,
            order.pages() as usize,
            true,
        );
    }
}
