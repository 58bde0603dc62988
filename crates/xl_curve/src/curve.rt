//! The curve.

ghost use Rattle.std.specs.Prelude.{◌≡◌, ◌^◌, ◌<◌, ◌≤◌, ◌%◌, false, length, map, replicate, take, slice_index_or, IfOk, IfSome};
ghost use Rattle.std.specs.Fn.{FnReturnsAt};
ghost use Rattle.std.specs.List.{range_with_len, sum};
ghost use Rattle.xl_curve.specs.Places.{is_vacant, leaf_in};
ghost use Rattle.xl_curve.specs.Views.{counted, hits_below};
ghost use Rattle.xl_curve_model.specs.Curves.{curve_accessed, curve_missed, curve_without, hits_at, hits_of, opening_curve};
ghost use Rattle.xl_model.specs.LeafWords.{small_leaf};
ghost use Rattle.xl_recency.specs.Lists.{IsTest};
ghost use Rattle.xl_array.specs.Arrays.{IsFit};

use crate::kernel::WIDEST;
use crate::place::Place;
use crate::sets::{access_in, remove_from_each, set_of};
use crate::stack::Stack;
use std::alloc::Global;
use std::marker::Model;
use xl_model::{Leaf, NoMemory, Order};

/// The hits of arrays of each width from 1 to 64, found in one pass. Contracts see an array for
/// each width, with its sets' lists and its hits.
#[derive(Drop)]
pub struct Curve {
    pub(crate) stacks: Vec<Stack>,
    /// How many accesses had each stack distance.
    counts: [u64; WIDEST],
    lookups: u64,
}

impl Model for Curve {
    ghost use Rattle.xl_curve_model.specs.Curves.{HitCurve};
    ghost use Rattle.xl_curve.specs.Views.{IsCurve, curve_of};

    ghost Value = { HitCurve };

    ghost view = { λ c. curve_of c.stacks.items c.counts c.lookups };

    ghost invariant = { λ c. IsCurve c.stacks.items };
}

/// Counts a distance, where there is one.
#[inline(always)]
fn count(counts: &mut [u64], distance: Option<usize>)
    requires { IfSome distance (λ d. d < length counts.old) }
    ensures { counts.new ≡ counted distance counts.old }
{
    if let Some(d) = distance {
        counts[d] = counts[d].wrapping_add(1);
    }
}

/// The sum of some counts, modulo 2^64.
fn total(counts: &[u64]) -> u64
    ensures { result ≡ sum counts.now % 2 ^ 64 }
{
    let mut total: u64 = 0;
    for count in counts {
        total = total.wrapping_add(*count);
    }
    total
}

/// The sums of the first counts: of one, of two and so on up to all, modulo 2^64.
fn totals(counts: &[u64; WIDEST]) -> [u64; WIDEST]
    ensures { result ≡ map (hits_below counts.now) (range_with_len 1 64) }
{
    let mut totals = [0; WIDEST];
    let mut total: u64 = 0;
    for at in 0..WIDEST {
        total = total.wrapping_add(counts[at]);
        totals[at] = total;
    }
    totals
}

impl Curve {
    /// The curve of empty arrays of this many sets.
    ///
    /// # Errors
    ///
    /// `NoMemory` where there is no memory.
    pub fn open(alloc: Global, sets: u32) -> Result<Curve, NoMemory>
        requires some { 0 < sets }
        requires most { sets ≤ 256 }
        ensures { IfOk result (λ curve. curve ≡ opening_curve sets) }
    {
        let mut stacks = Vec::with_capacity(alloc, sets as usize)?;
        'opened: for _ in 0..sets {
            if stacks.push(Stack::new()).is_err() {
                return Err(NoMemory);
            }
        }
        Ok(Curve {
            stacks,
            counts: [0; WIDEST],
            lookups: 0,
        })
    }

    /// Looks for a leaf that covers the page of an access. An array that holds it is hit and
    /// touches it; else the leaf is filled. In line wherever it is called, so that a leaf is not
    /// put into memory on its way.
    #[inline(always)]
    pub fn access(&mut self, leaf: Leaf)
        requires { IsFit leaf }
        ensures { self.new ≡ curve_accessed leaf self.old }
    {
        self.access_place(leaf.first, leaf.order, Place::of(leaf));
    }

    /// Does what `access` does with the leaf of 4 KiB of a page, by the word that has its frame
    /// (times 16) and its permission.
    #[inline(always)]
    pub fn access_small(&mut self, space: u16, page: u64, word: u64)
        requires { IsFit (small_leaf space page word) }
        ensures { self.new ≡ curve_accessed (small_leaf space page word) self.old }
    {
        self.access_place(page, Order::K4, Place::small(space, page, word));
    }

    /// Does what `access` does with the leaf in a place, whose first page and order these are.
    #[inline(always)]
    fn access_place(&mut self, first: u64, order: Order, place: Place)
        requires solid { is_vacant place ≡ false }
        requires fit { IsFit (leaf_in place) }
        requires first { (leaf_in place).first ≡ first }
        requires order { (leaf_in place).order ≡ order }
        ensures { self.new ≡ curve_accessed (leaf_in place) self.old }
    {
        let set = set_of(self.stacks.len(), first, order);
        let distance = access_in(&mut self.stacks, set, place);
        count(&mut self.counts, distance);
        self.lookups = self.lookups.wrapping_add(1);
    }

    /// Counts a look-up of a page that no leaf covers: it misses at every width.
    pub fn absent(&mut self)
        ensures { self.new ≡ curve_missed self.old }
    {
        self.lookups = self.lookups.wrapping_add(1);
    }

    /// Removes the leaves that pass the test from every array.
    pub fn drop_where<P: Fn(&Leaf) -> bool>(&mut self, test: P)
        requires { P.IsAlwaysCallable test }
        ensures { (q : _) → IsTest (FnReturnsAt P.Fn test) q → self.new ≡ curve_without q self.old }
    {
        remove_from_each(&mut self.stacks, &test);
    }

    /// How often the array of a width was hit.
    pub fn hits(&self, width: u32) -> u64
        requires some { 0 < width }
        requires most { width ≤ 64 }
        ensures { result ≡ hits_at width self.now }
    {
        total(&self.counts[..width as usize])
    }

    /// How often the array of each width from 1 to 64 was hit.
    pub fn all_hits(&self) -> [u64; WIDEST]
        ensures { result ≡ map hits_of self.now.points }
    {
        totals(&self.counts)
    }

    /// How many look-ups there were.
    pub fn lookups(&self) -> u64
        ensures { result ≡ self.now.lookups }
    {
        self.lookups
    }
}
