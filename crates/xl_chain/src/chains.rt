//! Chains, with an index where they can be long.

ghost use Rattle.std.specs.Prelude.{◌≡◌, ◌<◌, ◌+◌, ◌*◌, ◌^◌, ◌≤◌, true, false, length, map, ◌==◌, ◌⊎◌, [], IfOk, IfSome, OnOk, OnErr};
ghost use Rattle.std.specs.List.{list_any};
ghost use Rattle.xl_model.specs.Chains.{has_tag};
ghost use Rattle.xl_chain.specs.Layout.{IsShape, most_entries};
ghost use Rattle.xl_chain.specs.Lines.{WordsReadBack, AreSingle, IsOwn};
ghost use Rattle.xl_chain.specs.Held.{ChainState, tags_of, held_with, entry_of, entry_found, found_of, is_entry, with_value, without_tag, value_of, loads_after};
ghost use Rattle.xl_chain.specs.Kept.{IsInserted};
ghost use Rattle.xl_phys.specs.Lines.{counted};

use crate::entries::Entries;
use crate::places::{insert_placed, look_placed, open_places, remove_placed};
use crate::shape::{ChainShape, Seek};
use std::alloc::Global;
use std::marker::Model;
use xl_model::{Full, NoMemory};
use xl_phys::Bus;

/// Entries of a tag and `V` values, in chains. Contracts see them as a list, bucket by bucket,
/// newest first in each. Nothing is allocated after `open`.
#[derive(Drop)]
pub struct Chains<const V: usize> {
    entries: Entries<V>,
    /// Where chains can be long: the place of each tag, the word that leads to its entry.
    places: Option<Entries<1>>,
}

impl<const V: usize> Model for Chains<V> {
    ghost use Rattle.xl_chain.specs.Held.{ChainState};
    ghost use Rattle.xl_chain.specs.Places.{IsIndexed};

    ghost Value = { ChainState };

    ghost view = { λ c. c.entries };

    ghost invariant = { λ c. IsIndexed c.entries c.places };
}

/// The entry that a search found.
fn entry_in(seek: Seek) -> Option<u32>
    ensures { result ≡ entry_found seek }
{
    match seek {
        Seek::Found { entry, .. } => Some(entry),
        _ => None,
    }
}

impl<const V: usize> Chains<V> {
    /// Chains that hold nothing, in this many buckets, with room for this many entries: at most
    /// 2^20 of one value each, or 2^17 of seventeen.
    ///
    /// # Errors
    ///
    /// `NoMemory` where there is no memory.
    pub fn open(alloc: Global, buckets: u32, entries: u32) -> Result<Chains<V>, NoMemory>
        requires values { (V ≡ 1) ⊎ (V ≡ 17) }
        requires buckets_in { (1 ≤ buckets) × (buckets ≤ 2 ^ 20) }
        requires entries_in { (1 ≤ entries) × (entries ≤ most_entries V) }
        ensures held { IfOk result (λ c. c.held ≡ []) }
        ensures buckets { IfOk result (λ c. c.shape.buckets ≡ buckets) }
        ensures entries { IfOk result (λ c. c.shape.entries ≡ entries) }
        ensures loads { IfOk result (λ c. c.loads ≡ 0) }
    {
        let held = Entries::open(alloc, buckets, entries)?;
        let places = open_places(alloc, &held)?;
        Ok(Chains {
            entries: held,
            places,
        })
    }

    /// The layout of the words.
    pub fn shape(&self) -> ChainShape
        ensures is { result ≡ self.now.shape }
        ensures layout { IsShape result }
    {
        self.entries.shape()
    }

    /// Whether every entry is held.
    pub fn is_full(&self) -> bool
        ensures { result ≡ (length self.now.held == self.now.shape.entries) }
    {
        self.entries.is_full()
    }

    /// The entry that holds the tag, and no other; None exactly where the tag isn't held.
    pub fn find(&self, tag: u64) -> Option<u32>
        ensures found { result ≡ entry_of (held_with tag self.now.held) }
        ensures own { IfSome result (λ e. IsOwn tag e self.now.held) }
    {
        self.words_read_back();
        entry_in(self.look(tag))
    }

    /// The search result for the tag, with its loads: one for the head, and one for each entry
    /// examined.
    pub fn probe(&mut self, tag: u64) -> Seek
        ensures end { result ≡ found_of (held_with tag self.old.held) }
        ensures after { self.new ≡ record self.old { loads = loads_after tag self.old } }
    {
        self.entries.probe(tag)
    }

    /// The search result for the tag; counts no loads.
    #[inline(always)]
    pub fn look(&self, tag: u64) -> Seek
        ensures { result ≡ found_of (held_with tag self.now.held) }
    {
        match &self.places {
            None => self.entries.look(tag),
            Some(places) => look_placed(&self.entries, places, tag),
        }
    }

    /// Value `i` of an entry that is held.
    pub fn value(&self, entry: u32, i: usize) -> u64
        requires held { list_any (is_entry entry) self.now.held ≡ true }
        requires within { i < V }
        ensures { result ≡ value_of entry i self.now.held }
    {
        self.entries.value(entry, i)
    }

    /// Value `i` of an entry that is held, with a load of the line in which it is.
    pub fn load_value(&mut self, entry: u32, i: usize) -> u64
        requires held { list_any (is_entry entry) self.old.held ≡ true }
        requires within { i < V }
        ensures value { result ≡ value_of entry i self.old.held }
        ensures after { self.new ≡ record self.old { loads = counted self.old.loads } }
    {
        self.entries.load_value(entry, i)
    }

    /// Puts `value` in place of value `i` of an entry that is held.
    pub fn set_value(&mut self, entry: u32, i: usize, value: u64)
        requires held { list_any (is_entry entry) self.old.held ≡ true }
        requires within { i < V }
        ensures held { self.new.held ≡ map (with_value entry i value) self.old.held }
        ensures shape { self.new.shape ≡ self.old.shape }
        ensures loads { self.new.loads ≡ self.old.loads }
    {
        self.entries.set_value(entry, i, value);
    }

    /// Takes out the entry of a tag that is held. Its chain closes up, and the others keep their
    /// numbers.
    pub fn remove(&mut self, tag: u64)
        requires { has_tag (tags_of self.old.held) tag ≡ true }
        ensures held { self.new.held ≡ without_tag tag self.old.held }
        ensures shape { self.new.shape ≡ self.old.shape }
        ensures loads { self.new.loads ≡ self.old.loads }
    {
        match &mut self.places {
            None => self.entries.remove(tag),
            Some(places) => remove_placed(&mut self.entries, places, tag),
        }
    }

    /// Holds the tag with these values, in front of its bucket, under any entry that isn't held.
    /// Full exactly where all entries are held; then nothing changes.
    pub fn insert(&mut self, tag: u64, values: [u64; V]) -> Result<(), Full>
        requires { has_tag (tags_of self.old.held) tag ≡ false }
        ensures ok { OnOk result (IsInserted tag values.entry self.old self.new) }
        ensures full { OnErr result (length self.old.held ≡ self.old.shape.entries) }
        ensures same { OnErr result (self.new ≡ self.old) }
    {
        match &mut self.places {
            None => match self.entries.insert(tag, values) {
                Ok(_) => Ok(()),
                Err(full) => Err(full),
            },
            Some(places) => insert_placed(&mut self.entries, places, tag, values),
        }
    }

    /// What the type keeps: the words say what is held, and each tag has one entry of its own.
    pub fn words_read_back(&self)
        ensures words { WordsReadBack self.now }
        ensures single { AreSingle self.now.held }
    {
        self.entries.words_read_back();
    }
}

impl<const V: usize> Bus for Chains<V> {
    ghost use Rattle.std.specs.Prelude.{refl};
    ghost use Rattle.xl_phys.specs.Lines.{counted};

    ghost words = { λ c. c.words };

    ghost count = { λ c. c.loads };

    ghost loaded = { λ c. record c { loads = counted c.loads } };

    fn load(&mut self, line: usize) -> Option<[u64; 4]> {
        self.entries.load(line)
    }

    fn loads(&self) -> u64 {
        self.entries.loads()
    }

    ghost words_stay = { λ c. refl };

    ghost counts_one = { λ c. refl };
}
