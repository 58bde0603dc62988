//! Words that take neither work nor memory of the system before they are written.

ghost use Rattle.std.specs.Prelude.{◌≡◌, ◌<◌, ◌≤◌, length, slice_index, slice_set, replicate, IfOk};
ghost use Rattle.std.specs.Vec.{vec_capacity};
ghost use Rattle.xl_radix.specs.Lazy.{padded, IsFront};

use std::alloc::Global;
use std::marker::Model;
use xl_model::NoMemory;

/// Zero-initialised words, grown lazily by pages of 512 words; room for all is taken at opening.
/// Contracts see all words.
#[derive(Drop)]
pub(crate) struct LazyWords {
    kept: Vec<u64>,
    size: usize,
}

impl Model for LazyWords {
    ghost use Rattle.std.specs.Prelude.{ℕ, List, length, ◌≤◌};
    ghost use Rattle.std.specs.Vec.{vec_capacity};
    ghost use Rattle.xl_radix.specs.Lazy.{padded};

    ghost Value = { List ℕ };

    ghost view = { λ w. padded w.size w.kept.items };

    ghost invariant = { λ w. (length w.kept.items ≤ w.size) × (w.size ≤ vec_capacity w.kept) };
}

impl LazyWords {
    /// `size` words, all 0.
    #[tactic(auto, using(crate::proofs::LazyLemmas::none_kept))]
    pub fn open(alloc: Global, size: usize) -> Result<LazyWords, NoMemory>
        ensures { IfOk result (λ words. words ≡ replicate size 0) }
    {
        let kept = Vec::with_capacity(alloc, size)?;
        Ok(LazyWords { kept, size })
    }

    /// The word at a place.
    #[inline]
    #[tactic(auto, using(crate::proofs::LazyLemmas::kept_word, crate::proofs::LazyLemmas::zero_word, crate::proofs::LazyLemmas::length_padded))]
    pub fn get(&self, place: usize) -> u64
        requires { place < length self.now }
        ensures { result ≡ slice_index self.now place }
    {
        let kept = &self.kept;
        if place < kept.len() { kept[place] } else { 0 }
    }

    /// Writes the word at a place.
    #[inline]
    #[tactic(auto, using(crate::proofs::LazyLemmas::set_kept, crate::proofs::LazyLemmas::length_padded))]
    pub fn set(&mut self, place: usize, word: u64)
        requires { place < length self.old }
        ensures { self.new ≡ slice_set self.old place word }
    {
        keep_to(&mut self.kept, place, self.size);
        self.kept[place] = word;
    }

    /// How many words there are.
    #[inline]
    #[tactic(auto, using(crate::proofs::LazyLemmas::length_padded))]
    pub fn len(&self) -> usize
        ensures { result ≡ length self.now }
    {
        let _kept = &self.kept;
        self.size
    }

    /// The first words: after them all are 0.
    #[inline]
    #[tactic(auto, using(crate::proofs::LazyLemmas::is_front))]
    pub fn front(&self) -> &[u64]
        ensures { IsFront result.now self.entry.now }
    {
        &self.kept
    }
}

/// Keeps at least the words up to the end of a place's page, of `size` in all.
#[inline]
#[tactic(auto, using(crate::proofs::LazyLemmas::more_kept))]
fn keep_to(kept: &mut Vec<u64>, place: usize, size: usize)
    requires few { length kept.old.items ≤ size }
    requires within { place < size }
    requires room { size ≤ vec_capacity kept.old }
    ensures same { padded size kept.new.items ≡ padded size kept.old.items }
    ensures there { place < length kept.new.items }
    ensures within { length kept.new.items ≤ size }
    ensures room { size ≤ vec_capacity kept.new }
{
    if place < kept.len() {
        return;
    }
    let end = ((place / 512 + 1) * 512).min(size);
    let Ok(()) = kept.resize(end, 0) else {
        unreachable!()
    };
}
