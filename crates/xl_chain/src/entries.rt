//! Entries in words.

ghost use Rattle.std.specs.Prelude.{ℕ, Some, is_some, ◌≡◌, ◌<◌, ◌+◌, ◌*◌, ◌^◌, ◌≤◌, ◌%◌, true, false, length, map, ◌==◌, ◌⊎◌, [], IfOk, OnOk, OnErr, replicate};
ghost use Rattle.std.specs.List.{list_any};
ghost use Rattle.std.specs.Vec.{vec_capacity};
ghost use Rattle.xl_model.specs.Chains.{bucket_of as tag_bucket, has_tag};
ghost use Rattle.xl_chain.specs.Layout.{IsShape, most_entries};
ghost use Rattle.xl_chain.specs.Lines.{WordsReadBack, AreSingle};
ghost use Rattle.xl_chain.specs.Held.{ChainState, tags_of, held_with, found_of, in_front_of, is_entry, with_value, without_tag, value_of, loads_after};
ghost use Rattle.xl_chain.specs.Kept.{IsInserted, upto};
ghost use Rattle.xl_chain.specs.Places.{place_at, IsPlace, tag_led, IsTaken, IsFirst};
ghost use Rattle.xl_phys.specs.Lines.{counted};

use crate::own::{found_from, search};
use crate::put::{place_of, put, put_front, unlink};
use crate::shape::{ChainShape, Seek, base_of, bucket_of, value_at, words_of};
use std::alloc::Global;
use std::marker::Model;
use xl_model::{Full, NoMemory};
use xl_phys::{Bus, line_of};

/// Chains without an index: what `Chains` has too does the same here, and looks along chains.
#[derive(Drop)]
pub(crate) struct Entries<const V: usize> {
    words: Vec<u64>,
    free: Vec<u32>,
    shape: ChainShape,
    loads: u64,
}

impl<const V: usize> Model for Entries<V> {
    ghost use Rattle.std.specs.Prelude.{◌≡◌, ◌+◌, ◌*◌, ◌≤◌};
    ghost use Rattle.std.specs.Vec.{vec_capacity};
    ghost use Rattle.xl_chain.specs.Held.{ChainState, seen_in};
    ghost use Rattle.xl_chain.specs.Kept.{IsKept};

    ghost Value = { ChainState };

    ghost view = { λ c. seen_in c.shape c.words.items c.loads };

    ghost invariant = { λ c. IsKept V c.shape c.words.items c.free.items (vec_capacity c.free) };
}

/// The numbers below `n`.
fn numbers(alloc: Global, n: u32) -> Result<Vec<u32>, NoMemory>
    ensures items { IfOk result (λ v. v.items ≡ upto n) }
    ensures room { IfOk result (λ v. n ≤ vec_capacity v) }
{
    let mut all = Vec::with_capacity(alloc, n as usize)?;
    for i in 0..n {
        if all.push(i).is_err() {
            return Err(NoMemory);
        }
    }
    Ok(all)
}

impl<const V: usize> Entries<V> {
    /// Chains that hold nothing, in this many buckets, with room for this many entries.
    ///
    /// # Errors
    ///
    /// `NoMemory` where there is no memory.
    pub(crate) fn open(alloc: Global, buckets: u32, entries: u32) -> Result<Entries<V>, NoMemory>
        requires values { (V ≡ 1) ⊎ (V ≡ 17) }
        requires buckets_in { (1 ≤ buckets) × (buckets ≤ 2 ^ 20) }
        requires entries_in { (1 ≤ entries) × (entries ≤ most_entries V) }
        ensures held { IfOk result (λ c. c.held ≡ []) }
        ensures buckets { IfOk result (λ c. c.shape.buckets ≡ buckets) }
        ensures entries { IfOk result (λ c. c.shape.entries ≡ entries) }
        ensures loads { IfOk result (λ c. c.loads ≡ 0) }
    {
        let shape = ChainShape {
            buckets,
            entries,
            lines: (V as u32 + 3) / 4,
        };
        let words = vec![in alloc; 0u64; words_of(shape)]?;
        let free = numbers(alloc, entries)?;
        Ok(Entries {
            words,
            free,
            shape,
            loads: 0,
        })
    }

    /// The layout of the words.
    pub(crate) fn shape(&self) -> ChainShape
        ensures is { result ≡ self.now.shape }
        ensures layout { IsShape result }
    {
        self.shape
    }

    /// Whether every entry is held.
    pub(crate) fn is_full(&self) -> bool
        ensures { result ≡ (length self.now.held == self.now.shape.entries) }
    {
        self.free.is_empty()
    }

    /// The search result for the tag, with its loads.
    pub(crate) fn probe(&mut self, tag: u64) -> Seek
        ensures end { result ≡ found_of (held_with tag self.old.held) }
        ensures after { self.new ≡ record self.old { loads = loads_after tag self.old } }
    {
        let sought = search::<V>(&self.words, self.shape, tag);
        self.loads = self.loads.wrapping_add(sought.loads);
        sought.end
    }

    /// The search result for the tag; counts no loads.
    pub(crate) fn look(&self, tag: u64) -> Seek
        ensures { result ≡ found_of (held_with tag self.now.held) }
    {
        search::<V>(&self.words, self.shape, tag).end
    }

    /// Value `i` of an entry that is held.
    pub(crate) fn value(&self, entry: u32, i: usize) -> u64
        requires held { list_any (is_entry entry) self.now.held ≡ true }
        requires within { i < V }
        ensures { result ≡ value_of entry i self.now.held }
    {
        self.words[value_at(self.shape, entry, i)]
    }

    /// Value `i` of an entry that is held, with a load.
    pub(crate) fn load_value(&mut self, entry: u32, i: usize) -> u64
        requires held { list_any (is_entry entry) self.old.held ≡ true }
        requires within { i < V }
        ensures value { result ≡ value_of entry i self.old.held }
        ensures after { self.new ≡ record self.old { loads = counted self.old.loads } }
    {
        let value = self.value(entry, i);
        self.loads = self.loads.wrapping_add(1);
        value
    }

    /// Puts `value` in place of value `i` of an entry that is held.
    pub(crate) fn set_value(&mut self, entry: u32, i: usize, value: u64)
        requires held { list_any (is_entry entry) self.old.held ≡ true }
        requires within { i < V }
        ensures held { self.new.held ≡ map (with_value entry i value) self.old.held }
        ensures places { (t : ℕ) → place_at self.new t ≡ place_at self.old t }
        ensures shape { self.new.shape ≡ self.old.shape }
        ensures loads { self.new.loads ≡ self.old.loads }
    {
        let at = value_at(self.shape, entry, i);
        put(&mut self.words, at, value);
    }

    /// Takes out the entry of a tag that is held.
    pub(crate) fn remove(&mut self, tag: u64)
        requires { has_tag (tags_of self.old.held) tag ≡ true }
        ensures held { self.new.held ≡ without_tag tag self.old.held }
        ensures fewer { length self.new.held + 1 ≡ length self.old.held }
        ensures shape { self.new.shape ≡ self.old.shape }
        ensures loads { self.new.loads ≡ self.old.loads }
    {
        let bucket = bucket_of(self.shape, tag);
        match place_of(&self.words, self.shape, bucket, tag) {
            None => unreachable!(),
            Some(place) => self.remove_at(place),
        }
    }

    /// Takes out the entry to which the word at a place leads. The word leads to the one after it
    /// from then on, and the others keep their numbers.
    pub(crate) fn remove_at(&mut self, place: usize)
        requires { IsPlace self.old place }
        ensures taken { (t : ℕ) → place_at self.old t ≡ Some place
            → IsTaken t place self.old self.new }
        ensures fewer { length self.new.held + 1 ≡ length self.old.held }
        ensures shape { self.new.shape ≡ self.old.shape }
        ensures loads { self.new.loads ≡ self.old.loads }
        ensures there { place < length self.new.words }
    {
        let entry = unlink(&mut self.words, self.shape, place);
        match self.free.push(entry) {
            Ok(()) => (),
            Err(_) => unreachable!(),
        }
    }

    /// The place of the head of a tag's bucket.
    pub(crate) fn head(&self, tag: u64) -> usize
        ensures is { result ≡ tag_bucket self.now.shape.buckets tag }
        ensures there { result < length self.now.words }
    {
        bucket_of(self.shape, tag)
    }

    /// The tag of the entry to which the word at a place leads, if it leads to one.
    pub(crate) fn tag_led(&self, place: usize) -> Option<u64>
        requires { place < length self.now.words }
        ensures { result ≡ tag_led self.now place }
    {
        let at = self.words[place];
        if at == 0 {
            return None;
        }
        if at > self.shape.entries as u64 {
            return None;
        }
        Some(self.words[base_of(self.shape, (at - 1) as u32)])
    }

    /// The search result for a tag that has this place.
    pub(crate) fn look_at(&self, place: usize) -> Seek
        requires { IsPlace self.now place }
        ensures { (t : ℕ) → place_at self.now t ≡ Some place
            → result ≡ found_of (held_with t self.now.held) }
    {
        found_from(&self.words, self.shape, place)
    }

    /// Inserts the tag with these values, in front of its bucket. Returns the place of the word
    /// that leads on from its entry. `Full` exactly where all entries are held; then nothing
    /// changes.
    pub(crate) fn insert(&mut self, tag: u64, values: [u64; V]) -> Result<usize, Full>
        requires { has_tag (tags_of self.old.held) tag ≡ false }
        ensures ok { OnOk result (IsInserted tag values.entry self.old self.new) }
        ensures places { IfOk result (λ next. IsFirst tag next self.old self.new) }
        ensures full { OnErr result (length self.old.held ≡ self.old.shape.entries) }
        ensures same { OnErr result (self.new ≡ self.old) }
    {
        match self.free.pop() {
            None => Err(Full),
            Some(entry) => {
                let bucket = bucket_of(self.shape, tag);
                put_front(&mut self.words, self.shape, bucket, entry, tag, &values);
                Ok(base_of(self.shape, entry) + 1)
            }
        }
    }

    /// What the type keeps: the words say what is held, and each tag has one entry and a place.
    pub(crate) fn words_read_back(&self)
        ensures words { WordsReadBack self.now }
        ensures single { AreSingle self.now.held }
        ensures places { (t : ℕ) → is_some (place_at self.now t)
            ≡ has_tag (tags_of self.now.held) t }
    {
        // Reading a field brings in the type's invariant.
        let _words = &self.words;
    }
}

impl<const V: usize> Bus for Entries<V> {
    ghost use Rattle.std.specs.Prelude.{refl};
    ghost use Rattle.xl_phys.specs.Lines.{counted};

    ghost words = { λ c. c.words };

    ghost count = { λ c. c.loads };

    ghost loaded = { λ c. record c { loads = counted c.loads } };

    fn load(&mut self, line: usize) -> Option<[u64; 4]> {
        self.loads = self.loads.wrapping_add(1);
        line_of(&self.words, line)
    }

    fn loads(&self) -> u64 {
        self.loads
    }

    ghost words_stay = { λ c. refl };

    ghost counts_one = { λ c. refl };
}
