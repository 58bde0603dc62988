//! The table.

ghost use Rattle.std.specs.Prelude.{◌≡◌, ◌<◌, ◌≤◌, [], length, map, slice_get, IfOk, IfErr, OnOk, OnErr, IfSome, IsSome, Some, None};
ghost use Rattle.xl_model.specs.Ways.{with_word, without_entry};
ghost use Rattle.xl_model.specs.Placing.{Placed, AtCap, way_at, holder_from};
ghost use Rattle.xl_model.specs.Shapes.{opening_ways};
ghost use Rattle.xl_way.specs.Slots.{word_of};
ghost use Rattle.xl_cuckoo.specs.State.{shapes};
ghost use Rattle.xl_cuckoo.specs.Undo.{known};
ghost use Rattle.xl_cuckoo.specs.Table.{value_of, loaded, inserted, opening, SameEntries, AddsEntry, AreOnce};

use crate::changing::{remove, set_word};
use crate::moved::{Moved, WayAtCap};
use crate::placing::{Rules, insert};
use crate::reading::{holder, value, value_at};
use arrayvec::ArrayVec;
use std::alloc::Global;
use std::marker::Model;
use xl_model::{Entry, Moves, NoMemory};
use xl_way::Way;

/// An elastic cuckoo table of `D` ways, two to four: keys with a word each. A key is in one way, in
/// its slot there. Contracts see the ways by what they hold, with their registers, and the loads
/// that were made of all of them. Nothing is allocated after `open`.
#[derive(Drop)]
pub struct Cuckoo<const D: usize> {
    ways: Vec<Way>,
    rules: Rules,
    moved: ArrayVec<Moved, 64>,
    loads: u64,
}

impl<const D: usize> Model for Cuckoo<D> {
    ghost use Rattle.std.specs.Prelude.{map};
    ghost use Rattle.xl_cuckoo.specs.State.{shapes};
    ghost use Rattle.xl_cuckoo.specs.Undo.{displaced};
    ghost use Rattle.xl_cuckoo.specs.Table.{CuckooState, IsTable};

    ghost Value = { CuckooState };

    ghost view = { λ c. record {
      threshold = c.rules.threshold;
      kick_limit = c.rules.kick_limit;
      migrate = c.rules.migrate;
      ways = shapes c.ways.items;
      moved = map displaced c.moved.items;
      loads = c.loads;
    } };

    ghost invariant = { λ c. IsTable D c.rules.threshold c.rules.kick_limit (shapes c.ways.items) };
}

/// Empty ways, as many as `count` says, with 2^`start_bits` slots each, which may grow to
/// 2^`cap_bits`.
fn open_ways(
    alloc: Global,
    count: usize,
    start_bits: u8,
    cap_bits: u8,
) -> Result<Vec<Way>, NoMemory>
    requires few { count ≤ 4 }
    requires start { start_bits ≤ cap_bits }
    requires cap { cap_bits ≤ 18 }
    ensures { IfOk result (λ ways. shapes ways.items ≡ opening_ways start_bits cap_bits 0 count) }
{
    let mut ways = Vec::with_capacity(alloc, count)?;
    'ways: for number in 0..count {
        let way = Way::open(alloc, number as u64, start_bits, cap_bits)?;
        if ways.push(way).is_err() {
            return Err(NoMemory);
        }
    }
    Ok(ways)
}

impl<const D: usize> Cuckoo<D> {
    /// An empty table, each of whose ways has 2^`start_bits` slots and may grow to 2^`cap_bits`. An
    /// insertion displaces at most `kick_limit` keys in an attempt; then each growing way migrates
    /// at most `migrate` slots, and a way begins to grow where it holds more keys than `threshold`
    /// in the hundred of its slots. All memory that the table wants is taken here.
    ///
    /// # Errors
    ///
    /// `NoMemory` where there is no memory.
    pub fn open(
        alloc: Global,
        start_bits: u8,
        cap_bits: u8,
        threshold: u8,
        kick_limit: u8,
        migrate: u8,
    ) -> Result<Cuckoo<D>, NoMemory>
        requires ways { (2 ≤ D) × (D ≤ 4) }
        requires start { start_bits ≤ cap_bits }
        requires cap { cap_bits ≤ 18 }
        requires threshold { threshold ≤ 100 }
        requires limit { kick_limit ≤ 64 }
        ensures { IfOk result (λ t. t
            ≡ opening threshold kick_limit migrate (opening_ways start_bits cap_bits 0 D)) }
    {
        let ways = open_ways(alloc, D, start_bits, cap_bits)?;
        Ok(Cuckoo {
            ways,
            rules: Rules {
                threshold,
                kick_limit,
                migrate,
            },
            moved: ArrayVec::new(),
            loads: 0,
        })
    }

    /// All ways, where it is seen that there are `D` of them.
    #[inline(always)]
    fn all_ways(&self) -> &[Way]
        ensures { shapes result.now ≡ self.now.ways }
    {
        &self.ways[..D]
    }

    /// The word that is kept for the key; None exactly where no way holds it.
    pub fn get(&self, key: u64) -> Option<u64>
        ensures { result ≡ value_of key self.now.ways }
    {
        value(self.all_ways(), key)
    }

    /// The number of the way that holds the key; None exactly where none does.
    pub fn way_of(&self, key: u64) -> Option<u64>
        ensures is { result ≡ holder_from 0 self.now.ways key }
        ensures within { IfSome result (λ way. way < length self.now.ways) }
    {
        match holder(&self.ways, key) {
            Some(at) => Some(at as u64),
            None => None,
        }
    }

    /// The way of this number.
    pub fn way(&self, i: usize) -> &Way
        requires { i < length self.now.ways }
        ensures { result.now.shape ≡ way_at self.now.ways i }
    {
        &self.ways[i]
    }

    /// The loads that were made of all ways, modulo 2^64.
    pub fn loads(&self) -> u64
        ensures { result ≡ self.now.loads }
    {
        self.loads
    }

    /// The `i`-th key, from 0 on, that the last insertion displaced in its successful attempt, and
    /// the way to which it went. `None` past the last one, and where the last insertion was refused
    /// or there was none.
    pub fn moved(&self, i: usize) -> Option<Moved>
        ensures is { known result ≡ slice_get self.now.moved i }
        ensures few { IfSome result (λ moved. i < 64) }
    {
        if i < self.moved.len() {
            Some(self.moved[i])
        } else {
            None
        }
    }

    /// Counts a load of each way. All ways of a key are read at once, whichever holds it, so that a
    /// probe counts as many loads wherever its search ends, and also where its result isn't needed.
    #[inline(always)]
    pub fn count_probe(&mut self)
        ensures { self.new ≡ loaded (length self.old.ways) self.old }
    {
        self.loads = self.loads.wrapping_add(D as u64);
    }

    /// Counts a load of one way.
    #[inline(always)]
    pub fn count_probe_way(&mut self)
        ensures { self.new ≡ loaded 1 self.old }
    {
        self.loads = self.loads.wrapping_add(1);
    }

    /// The word that is kept for the key, as `get` returns it, by one load of each way.
    #[inline(always)]
    pub fn probe(&mut self, key: u64) -> Option<u64>
        ensures found { result ≡ value_of key self.old.ways }
        ensures after { self.new ≡ loaded (length self.old.ways) self.old }
    {
        let found = value(self.all_ways(), key);
        self.count_probe();
        found
    }

    /// The word that one way keeps for the key, by one load; None exactly where that way doesn't
    /// hold it.
    #[inline(always)]
    pub fn probe_way(&mut self, way: u64, key: u64) -> Option<u64>
        requires { way < length self.old.ways }
        ensures found { result ≡ word_of key (way_at self.old.ways way).entries }
        ensures after { self.new ≡ loaded 1 self.old }
    {
        let found = value_at(&self.ways, way as usize, key);
        self.count_probe_way();
        found
    }

    /// Inserts a key that isn't held, with its word. An attempt puts it into its slot of a way; the
    /// key that was there moves to the next way, round all ways, until a slot is empty. Where an
    /// attempt needs more displacements than it may make, all of them are undone, the smallest way
    /// grows, and another attempt is made. Returns what was done.
    ///
    /// # Errors
    ///
    /// `WayAtCap` where an attempt failed and no way may grow, with what was done before; every key
    /// and word is as before.
    pub fn insert(&mut self, key: u64, word: u64) -> Result<Moves, WayAtCap>
        requires free { value_of key self.old.ways ≡ None }
        requires some { 0 < word }
        ensures ok { IfOk result (λ m. inserted self.old (record { key = key; word = word })
            ≡ Placed self.new.ways self.new.moved m) }
        ensures err { IfErr result (λ e. inserted self.old (record { key = key; word = word })
            ≡ AtCap self.new.ways e.moves) }
        ensures added { OnOk result
            (AddsEntry (record { key = key; word = word }) self.old.ways self.new.ways) }
        ensures kept { OnErr result (SameEntries self.old.ways self.new.ways) }
        ensures none { OnErr result (self.new.moved ≡ []) }
        ensures same { self.new
            ≡ record self.old { ways = self.new.ways; moved = self.new.moved } }
        ensures width { length self.new.ways ≡ length self.old.ways }
    {
        insert(
            &mut self.ways,
            self.rules,
            Entry { key, word },
            &mut self.moved,
        )
    }

    /// Keeps another word for a key that is held.
    pub fn set_word(&mut self, key: u64, word: u64)
        requires held { IsSome (value_of key self.old.ways) }
        requires some { 0 < word }
        ensures { self.new ≡ record self.old { ways = map (with_word key word) self.old.ways } }
    {
        set_word(&mut self.ways, key, word)
    }

    /// Takes out a key that is held. No way becomes smaller.
    pub fn remove(&mut self, key: u64)
        requires { IsSome (value_of key self.old.ways) }
        ensures { self.new ≡ record self.old { ways = map (without_entry key) self.old.ways } }
    {
        remove(&mut self.ways, key)
    }

    /// What the type keeps: no key occurs twice, and the ways are as many as the type says.
    pub fn keys_are_single(&self)
        ensures once { AreOnce self.now.ways }
        ensures width { length self.now.ways ≡ D }
    {
        // Reading a field brings in the type's invariant.
        let _ways = &self.ways;
    }
}
