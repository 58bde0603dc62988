//! The arrays of a row in levels, with their counts.

ghost use Rattle.std.specs.Prelude.{ℕ, true, ◌==◌, ◌≡◌, ◌<◌, ◌≤◌, ◌^◌, ◌+◌, ◌*◌, length, map, IfOk};
ghost use Rattle.xl_model.specs.declared.address.Kind.{Kind as KindOf};
ghost use Rattle.xl_model.specs.declared.leaf.Leaf.{Leaf};
ghost use Rattle.xl_model.specs.Tlb.{leaf_count, array_without, is_purged, reaches_leaf};
ghost use Rattle.xl_array.specs.Arrays.{IsFit, InLimits};
ghost use Rattle.xl_tlb.specs.Answers.{IsLooked};
ghost use Rattle.xl_tlb.specs.Counted.{IsState, alone_in, answered_as, hit_at, seen_in};
ghost use Rattle.xl_array.specs.Hits.{leaf_hit};
ghost use Rattle.xl_tlb.specs.Tlbs.{tlb_opening, AreSpecs, IsRising, tlb_looked, tlb_filled, tlb_purged, tlb_fenced};

use crate::in_turn::{Request, fill_each, look_in};
use crate::pair::Seen;
use arrayvec::ArrayVec;
use std::alloc::Global;
use std::marker::Model;
use xl_array::{AnyArray, Hit, page_word};
use xl_model::{Kind, Leaf, NoMemory, Purge, Reach, TlbSpec};

/// The leaf's word; or the word of the page of a larger leaf; or a miss of all arrays; or unknown,
/// where another step may answer, and then nothing changed.
#[derive(Clone, Copy)]
pub(crate) enum Answered {
    Word { word: u64 },
    Large { word: u64 },
    Nowhere,
    Unknown,
}

/// The arrays of a row in levels, with their counts.
#[derive(Drop)]
pub(crate) struct Levels {
    pub arrays: Vec<AnyArray>,
    pub hits: [u64; 6],
    pub misses: [u64; 6],
    pub fills: u64,
}

impl Model for Levels {
    ghost use Rattle.xl_tlb.specs.Tlbs.{IsTlb, TlbState, tlb_of};

    ghost Value = { TlbState };

    ghost view = { λ t. tlb_of t.arrays.items t.hits t.misses t.fills };

    ghost invariant = { λ t. IsTlb (tlb_of t.arrays.items t.hits t.misses t.fills) };
}

/// Purges each array: how many items left.
#[tactic(auto, unfolding(xl_model::specs::Tlb::leaf_count))]
fn purge_each(arrays: &mut [AnyArray], purge: Purge, leaf: Leaf) -> u64
    requires fit { IsFit leaf }
    requires few { length arrays.old ≤ 6 }
    ensures left { result + leaf_count arrays.new ≡ leaf_count arrays.old }
    ensures arrays { arrays.new ≡ map (array_without (is_purged purge leaf)) arrays.old }
    ensures most { result ≤ 274877906944 * length arrays.old }
{
    let Some((first, rest)) = arrays.split_first_mut() else {
        return 0;
    };
    first.purge(purge, leaf) + purge_each(rest, purge, leaf)
}

/// Fences each array: how many items left.
#[tactic(auto, unfolding(xl_model::specs::Tlb::leaf_count))]
fn fence_each(arrays: &mut [AnyArray], reach: Reach) -> u64
    requires limits { InLimits reach }
    requires few { length arrays.old ≤ 6 }
    ensures left { result + leaf_count arrays.new ≡ leaf_count arrays.old }
    ensures arrays { arrays.new ≡ map (array_without (reaches_leaf reach)) arrays.old }
    ensures most { result ≤ 274877906944 * length arrays.old }
{
    let Some((first, rest)) = arrays.split_first_mut() else {
        return 0;
    };
    first.fence(reach) + fence_each(rest, reach)
}

impl Levels {
    /// The arrays of these specs, all empty, and counts of 0.
    #[tactic(auto, unfolding(xl_model::specs::Tlb::opening_arrays, crate::specs::Tlbs::tlb_opening))]
    pub fn open(alloc: Global, specs: &ArrayVec<TlbSpec, 6>) -> Result<Levels, NoMemory>
        requires specs { AreSpecs specs.now.items }
        requires few { length specs.now.items ≤ 6 }
        requires rising { IsRising specs.now.items }
        ensures { IfOk result (λ tlb. tlb ≡ tlb_opening specs.now.items) }
    {
        let mut arrays = Vec::new(alloc);
        for spec in specs.iter() {
            if arrays.push(AnyArray::open(alloc, *spec)?).is_err() {
                return Err(NoMemory);
            }
        }
        Ok(Levels {
            arrays,
            hits: [0; 6],
            misses: [0; 6],
            fills: 0,
        })
    }

    /// Counts what a look in two arrays saw, with their numbers.
    #[inline(always)]
    pub fn count(&mut self, first: usize, second: usize, seen: Seen) -> Answered
        requires first { first < 6 }
        requires second { second < 6 }
        ensures answer { result ≡ answered_as seen }
        ensures counts { self.new ≡ seen_in first second seen self.old }
    {
        match seen {
            Seen::First { word } => {
                self.hits[first] = self.hits[first].wrapping_add(1);
                Answered::Word { word }
            }
            Seen::Second { word } => {
                self.misses[first] = self.misses[first].wrapping_add(1);
                self.hits[second] = self.hits[second].wrapping_add(1);
                self.fills = self.fills.wrapping_add(1);
                Answered::Word { word }
            }
            Seen::Large { word } => {
                self.hits[first] = self.hits[first].wrapping_add(1);
                Answered::Large { word }
            }
            Seen::Nowhere => {
                self.misses[first] = self.misses[first].wrapping_add(1);
                self.misses[second] = self.misses[second].wrapping_add(1);
                Answered::Nowhere
            }
            Seen::Unknown => Answered::Unknown,
        }
    }

    /// Counts what a look in the first array found, where there is no other.
    #[inline(always)]
    pub fn count_alone(&mut self, answered: Answered) -> Answered
        ensures answer { result ≡ answered }
        ensures counts { self.new ≡ alone_in answered self.old }
    {
        match answered {
            Answered::Word { word } => {
                self.hits[0] = self.hits[0].wrapping_add(1);
                Answered::Word { word }
            }
            Answered::Large { word } => {
                self.hits[0] = self.hits[0].wrapping_add(1);
                Answered::Large { word }
            }
            Answered::Nowhere => {
                self.misses[0] = self.misses[0].wrapping_add(1);
                Answered::Nowhere
            }
            Answered::Unknown => Answered::Unknown,
        }
    }

    /// Counts a hit of the array with this number that changes nothing else.
    #[inline(always)]
    pub fn hit(&mut self, first: usize)
        requires { first < 6 }
        ensures counts { self.new ≡ hit_at first self.old }
        ensures state { IsState self.old }
    {
        self.hits[first] = self.hits[first].wrapping_add(1);
    }

    /// Looks for the page in all levels in turn: its word. Touches the array that hits, and fills
    /// those of lower levels that hold the leaf's order. `None` where no array hits.
    #[inline(never)]
    pub fn look(&mut self, kind: Kind, space: u16, page: u64) -> Option<u64>
        requires space { space < 64 }
        requires page { page < 2 ^ 52 }
        ensures { IsLooked kind space page result self.old self.new }
    {
        if self.arrays.is_empty() {
            return None;
        }
        let request = Request { kind, space, page };
        match look_in(&mut self.arrays, request, &mut self.hits, &mut self.misses) {
            Some(found) => {
                self.fills = self.fills.wrapping_add(found.fills);
                Some(page_word(
                    page,
                    Hit {
                        word: found.word,
                        order: found.order,
                    },
                ))
            }
            None => None,
        }
    }

    /// Puts a leaf that a walk found into the arrays of every level that serve the access and hold
    /// its order.
    #[inline]
    pub fn fill(&mut self, kind: Kind, space: u16, page: u64, hit: Hit)
        requires space { space < 64 }
        requires page { page < 2 ^ 52 }
        ensures { self.new ≡ tlb_filled kind (leaf_hit space page hit) self.old }
    {
        if self.arrays.is_empty() {
            return;
        }
        let fills = fill_each(&mut self.arrays, kind, space, page, hit);
        self.fills = self.fills.wrapping_add(fills);
    }

    /// Removes what a purge takes in all levels at a change of this leaf, and gives how many leaves
    /// left.
    pub fn purge(&mut self, purge: Purge, leaf: Leaf) -> u64
        requires { IsFit leaf }
        ensures left { result + leaf_count self.new.arrays ≡ leaf_count self.old.arrays }
        ensures after { self.new ≡ tlb_purged purge leaf self.old }
    {
        purge_each(&mut self.arrays, purge, leaf)
    }

    /// Removes the leaves that a fence reaches in all levels, and gives how many left.
    pub fn fence(&mut self, reach: Reach) -> u64
        requires { InLimits reach }
        ensures left { result + leaf_count self.new.arrays ≡ leaf_count self.old.arrays }
        ensures after { self.new ≡ tlb_fenced reach self.old }
    {
        fence_each(&mut self.arrays, reach)
    }

    /// Whether there are no arrays. Then a look and a fill change nothing.
    #[inline]
    pub fn lacks_tlb(&self) -> bool
        ensures is { result ≡ (length self.now.arrays == 0) }
        ensures looked { result ≡ true → (kind : KindOf) (space page : ℕ)
            → self.now ≡ tlb_looked kind space page self.now }
        ensures filled { result ≡ true → (kind : KindOf) (leaf : Leaf)
            → self.now ≡ tlb_filled kind leaf self.now }
    {
        let _fills = self.fills;
        self.arrays.is_empty()
    }

    /// The hits of each array, and 0 where there is none.
    pub fn all_hits(&self) -> [u64; 6]
        ensures { result ≡ self.now.hits }
    {
        self.hits
    }

    /// The misses of each array, and 0 where there is none.
    pub fn all_misses(&self) -> [u64; 6]
        ensures { result ≡ self.now.misses }
    {
        self.misses
    }

    /// How many leaves were put into arrays, modulo 2^64.
    pub fn fills(&self) -> u64
        ensures { result ≡ self.now.fills }
    {
        self.fills
    }
}
