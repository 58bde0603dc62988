//! The calls of the pool, over three sets: its frames, its blocks of 512 frames and its parts of
//! 2^18 frames.

ghost use Rattle.std.specs.Prelude.{◌≡◌, ℕ, ◌+◌, ◌*◌, ◌/◌, ◌^◌, ◌<◌, ◌≤◌, true, false, length};
ghost use Rattle.std.specs.Bool.{OnTrue, OnFalse};
ghost use Rattle.xl_model.specs.Addresses.{pages_of};
ghost use Rattle.xl_numbers.specs.Free.{AreMarked};
ghost use Rattle.xl_frames.specs.Pool.{IsFree, HasNone};
ghost use Rattle.xl_frames.specs.Blocks.{IsKept, IsBlockJoined, IsTaken};

use xl_model::Order;
use xl_numbers::FreeNumbers;

/// The sets of a pool. A block and a part are in their set exactly where all their frames are free.
#[derive(Drop)]
pub(crate) struct Sets {
    pub(crate) frames: FreeNumbers,
    pub(crate) blocks: FreeNumbers,
    pub(crate) parts: FreeNumbers,
    ghost kept: { IsKept frames blocks parts },
}

/// Puts a block of 512 numbers into the set of such blocks where all its numbers are free.
#[inline(always)]
fn join_block(numbers: &FreeNumbers, blocks: &mut FreeNumbers, block: usize)
    requires limit { length numbers.now ≤ 2 ^ 22 }
    requires count { length blocks.old ≡ length numbers.now / 512 }
    ensures { IsBlockJoined 512 numbers.now blocks.old blocks.new block }
{
    if block < blocks.count() && numbers.are_free(block * 8, 8) {
        blocks.give(block);
    }
}

impl Sets {
    /// Takes the lowest free frame.
    #[inline(always)]
    fn take_frame(&mut self) -> Option<u64>
        ensures { IsTaken 1 self.old.frames self.new.frames result }
    {
        match self.frames.take() {
            Some(frame) => {
                self.blocks.withdraw(frame / 512);
                self.parts.withdraw(frame / 262_144);
                Some(frame as u64)
            }
            None => None,
        }
    }

    /// Takes the lowest free block of 512 frames.
    fn take_block(&mut self) -> Option<u64>
        ensures { IsTaken 512 self.old.frames self.new.frames result }
    {
        match self.blocks.take() {
            Some(block) => {
                self.frames.mark_words(block * 8, 8, false);
                self.parts.withdraw(block / 512);
                Some((block * 512) as u64)
            }
            None => None,
        }
    }

    /// Takes the lowest free part of 2^18 frames.
    fn take_part(&mut self) -> Option<u64>
        ensures { IsTaken 262144 self.old.frames self.new.frames result }
    {
        match self.parts.take() {
            Some(part) => {
                self.frames.mark_words(part * 4096, 4096, false);
                self.blocks.mark_words(part * 8, 8, false);
                Some((part * 262_144) as u64)
            }
            None => None,
        }
    }

    /// Takes the lowest free block of the order.
    #[inline(always)]
    pub(crate) fn take(&mut self, order: Order) -> Option<u64>
        ensures { IsTaken (pages_of order) self.old.frames self.new.frames result }
    {
        match order {
            Order::K4 => self.take_frame(),
            Order::M2 => self.take_block(),
            Order::G1 => self.take_part(),
        }
    }

    /// Gives a frame back.
    #[inline(always)]
    fn give_frame(&mut self, frame: usize)
        requires { frame < length self.old.frames }
        ensures { AreMarked self.old.frames self.new.frames frame 1 true }
    {
        self.frames.give(frame);
        join_block(&self.frames, &mut self.blocks, frame / 512);
        join_block(&self.blocks, &mut self.parts, frame / 262_144);
    }

    /// Gives a block of 512 frames back.
    fn give_block(&mut self, block: usize)
        requires { block * 512 + 512 ≤ length self.old.frames }
        ensures { AreMarked self.old.frames self.new.frames (block * 512) 512 true }
    {
        self.frames.mark_words(block * 8, 8, true);
        self.blocks.give(block);
        join_block(&self.blocks, &mut self.parts, block / 512);
    }

    /// Gives a part of 2^18 frames back.
    fn give_part(&mut self, part: usize)
        requires { part * 262144 + 262144 ≤ length self.old.frames }
        ensures { AreMarked self.old.frames self.new.frames (part * 262144) 262144 true }
    {
        self.frames.mark_words(part * 4096, 4096, true);
        self.blocks.mark_words(part * 8, 8, true);
        self.parts.give(part);
    }

    /// Gives frames back one by one, as many as `count` says.
    #[inline(never)]
    fn give_each(&mut self, first: usize, count: usize)
        requires { first + count ≤ length self.old.frames }
        ensures { AreMarked self.old.frames self.new.frames first count true }
    {
        for i in 0..count {
            self.give_frame(first + i);
        }
    }

    /// Gives back the block of the order that begins at `first`.
    #[inline(always)]
    pub(crate) fn give(&mut self, first: usize, order: Order)
        requires { first + pages_of order ≤ length self.old.frames }
        ensures { AreMarked self.old.frames self.new.frames first (pages_of order) true }
    {
        match order {
            Order::K4 => self.give_frame(first),
            Order::M2 => {
                if first % 512 == 0 {
                    self.give_block(first / 512);
                } else {
                    self.give_each(first, 512);
                }
            }
            Order::G1 => {
                if first % 262_144 == 0 {
                    self.give_part(first / 262_144);
                } else {
                    self.give_each(first, 262_144);
                }
            }
        }
    }

    /// Whether a block of the order is free.
    #[inline(always)]
    pub(crate) fn can_take(&self, order: Order) -> bool
        ensures yes { OnTrue result ((block : ℕ) ×
            IsFree self.now.frames (block * pages_of order) (pages_of order)) }
        ensures no { OnFalse result (HasNone self.now.frames (pages_of order)) }
    {
        match order {
            Order::K4 => self.frames.can_take(),
            Order::M2 => self.blocks.can_take(),
            Order::G1 => self.parts.can_take(),
        }
    }
}
