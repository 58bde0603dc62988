//! Free numbers.

ghost use Rattle.std.specs.Prelude.{ℕ, ◌≡◌, ◌+◌, ◌*◌, ◌<◌, ◌≤◌, ◌^◌, true, false, IsTrue, ◌↔◌, length, replicate, slice_index_or, slice_set, IfOk, IfSome, IfNone};
ghost use Rattle.std.specs.Bool.{OnTrue, OnFalse};
ghost use Rattle.xl_numbers.specs.Free.{IsLowest, HasNone, AreFree, AreMarked};

use crate::bits::{all_ones, drop_number, has_bit, lowest, put_number, put_words, word_of};
use std::alloc::Global;
use std::marker::Model;
use xl_model::NoMemory;

/// The numbers below a count, each free or taken, as bits on three levels. Contracts see a flag for
/// each number: whether it is free. Nothing is allocated after `open`.
#[derive(Drop)]
pub struct FreeNumbers {
    low: Vec<u64>,
    middle: Vec<u64>,
    top: [u64; 16],
    count: u32,
}

impl Model for FreeNumbers {
    ghost use Rattle.std.specs.Prelude.{Bool, List};
    ghost use Rattle.xl_numbers.specs.Bits.{bit_of, flags, IsSet};

    ghost Value = { List Bool };

    ghost view = { λ s. flags (bit_of s.low.items) s.count };

    ghost invariant = { λ s. IsSet s.count s.low.items s.middle.items s.top };
}

impl FreeNumbers {
    /// As many numbers, all taken.
    fn none(alloc: Global, count: u32) -> Result<FreeNumbers, NoMemory>
        requires { count ≤ 2 ^ 22 }
        ensures { IfOk result (λ s. s ≡ replicate count false) }
    {
        let low = vec![in alloc; 0u64; (count as usize + 63) / 64]?;
        let middle = vec![in alloc; 0u64; (count as usize + 4095) / 4096]?;
        Ok(FreeNumbers {
            low,
            middle,
            top: [0; 16],
            count,
        })
    }

    /// As many numbers, all free.
    ///
    /// # Errors
    ///
    /// `NoMemory` where there is no memory.
    pub fn open(alloc: Global, count: u32) -> Result<FreeNumbers, NoMemory>
        requires { count ≤ 2 ^ 22 }
        ensures { IfOk result (λ s. s ≡ replicate count true) }
    {
        let mut numbers = FreeNumbers::none(alloc, count)?;
        let whole = count / 64;
        numbers.mark_words(0, whole as usize, true);
        'given: for number in whole * 64..count {
            numbers.give(number as usize);
        }
        Ok(numbers)
    }

    /// How many numbers there are, free or taken.
    pub fn count(&self) -> usize
        ensures { result ≡ length self.now }
    {
        self.count as usize
    }

    /// The lowest free number.
    #[inline(always)]
    fn lowest(&self) -> Option<usize>
        ensures some { IfSome result (IsLowest self.now) }
        ensures none { IfNone result (HasNone self.now) }
    {
        lowest(&self.low, &self.middle, &self.top)
    }

    /// Takes the lowest free number. None exactly where no number is free; then nothing changes.
    pub fn take(&mut self) -> Option<usize>
        ensures lowest { IfSome result (IsLowest self.old) }
        ensures taken { IfSome result (λ k. self.new ≡ slice_set self.old k false) }
        ensures none { IfNone result (HasNone self.old) }
        ensures unchanged { IfNone result (self.new ≡ self.old) }
    {
        match self.lowest() {
            Some(least) => {
                self.take_out(least);
                Some(least)
            }
            None => None,
        }
    }

    /// Makes a number free.
    pub fn give(&mut self, number: usize)
        requires { number < length self.old }
        ensures { self.new ≡ slice_set self.old number true }
    {
        put_number(&mut self.low, &mut self.middle, &mut self.top, number);
    }

    /// Whether a number is free. One that isn't below the count is not.
    #[inline(always)]
    pub fn has(&self, number: usize) -> bool
        ensures { result ≡ slice_index_or self.now number false }
    {
        if number >= self.count as usize {
            return false;
        }
        has_bit(&self.low, number)
    }

    /// Makes a number taken that may be free or taken, or none of the numbers.
    #[inline(always)]
    pub fn withdraw(&mut self, number: usize)
        ensures { self.new ≡ slice_set self.old number false }
    {
        if self.has(number) {
            self.take_out(number);
        }
    }

    /// Makes a free number taken.
    #[inline(always)]
    fn take_out(&mut self, number: usize)
        requires { slice_index_or self.old number false ≡ true }
        ensures { self.new ≡ slice_set self.old number false }
    {
        drop_number(&mut self.low, &mut self.middle, &mut self.top, number);
    }

    /// Makes numbers free or taken by words of 64: as many words as `count` says, from the word
    /// `first` on.
    pub fn mark_words(&mut self, first: usize, count: usize, free: bool)
        requires { 64 * (first + count) ≤ length self.old }
        ensures { AreMarked self.old self.new (64 * first) (64 * count) free }
    {
        let word = word_of(free);
        put_words(
            &mut self.low,
            &mut self.middle,
            &mut self.top,
            first,
            count,
            word,
        );
    }

    /// Whether all numbers are free of as many words of 64 as `count` says, from the word `first`
    /// on.
    #[inline(always)]
    pub fn are_free(&self, first: usize, count: usize) -> bool
        requires { 64 * (first + count) ≤ length self.now }
        ensures { IsTrue result ↔ AreFree self.now (64 * first) (64 * count) }
    {
        all_ones(&self.low, first, count)
    }

    /// Whether `take` would find a number.
    pub fn can_take(&self) -> bool
        ensures some { OnTrue result ((number : ℕ) × IsLowest self.now number) }
        ensures none { OnFalse result (HasNone self.now) }
    {
        self.lowest().is_some()
    }
}
