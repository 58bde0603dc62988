//! A way.

ghost use Rattle.std.specs.Prelude.{◌≡◌, ◌↔◌, ◌<◌, ◌≤◌, min, IsTrue, true, false, length, IfOk, IfSome, Option, Some, None};
ghost use Rattle.xl_model.specs.declared.way.Entry.{Entry};
ghost use Rattle.xl_model.specs.Ways.{occupant, swapped, with_word, without_entry, slots_left as slots_to_go, advanced, begun, opening_way};
ghost use Rattle.xl_model.specs.Placing.{is_held};
ghost use Rattle.xl_phys.specs.Lines.{counted};
ghost use Rattle.xl_way.specs.Slots.{word_of};
ghost use Rattle.xl_way.specs.Words.{slots_of};
ghost use Rattle.xl_way.specs.Kept.{AreRegs, AreApart, WordsReadBack};

use crate::cells::{EMPTY, exchange, is_empty, migrate_slot, word_at, words_of_line};
use crate::found::Look;
use crate::place::{slots_left, stepped};
use crate::places::Places;
use crate::reading::look;
use std::alloc::Global;
use std::marker::Model;
use xl_model::{Entry, NoMemory, WayRegs};
use xl_phys::Bus;

/// A way of an elastic cuckoo table: keys with a word each, where each key has one slot. Contracts
/// see its entries by rising key, so that migrating a slot changes its registers alone. Nothing is
/// allocated after `open`.
#[derive(Drop)]
pub struct Way {
    places: Places,
    cap: u8,
    slots: Vec<Entry>,
    used: u32,
    loads: u64,
}

impl Model for Way {
    ghost use Rattle.xl_way.specs.Slots.{WayState, entries_of};
    ghost use Rattle.xl_way.specs.Kept.{IsKept};

    ghost Value = { WayState };

    ghost view = { λ w. record {
      shape = record {
        number = w.places.number;
        cap = w.cap;
        regs = w.places.regs;
        entries = entries_of w.slots.items;
      };
      loads = w.loads;
    } };

    ghost invariant = { λ w. IsKept w.places.number w.cap w.places.regs w.slots.items w.used };
}

/// How many slots the memory of a way has that may grow to 2^cap of them: at least a line of them.
fn room(cap: u8) -> usize
    requires { cap ≤ 18 }
    ensures { result ≡ slots_of cap }
{
    if cap == 0 { 2 } else { 1 << cap }
}

impl Way {
    /// An empty way of this number in its table, with 2^`start_bits` slots, which may grow to
    /// 2^`cap_bits`. All memory that it wants is taken here.
    ///
    /// # Errors
    ///
    /// `NoMemory` where there is no memory.
    pub fn open(alloc: Global, number: u64, start_bits: u8, cap_bits: u8) -> Result<Way, NoMemory>
        requires start { start_bits ≤ cap_bits }
        requires few { cap_bits ≤ 18 }
        ensures shape { IfOk result (λ w. w.shape ≡ opening_way start_bits cap_bits number) }
        ensures loads { IfOk result (λ w. w.loads ≡ 0) }
    {
        let slots = vec![in alloc; EMPTY; room(cap_bits)]?;
        let regs = WayRegs {
            s: start_bits,
            p: 0,
            growing: false,
        };
        Ok(Way {
            places: Places::open(number, regs),
            cap: cap_bits,
            slots,
            used: 0,
            loads: 0,
        })
    }

    /// The registers.
    pub fn regs(&self) -> WayRegs
        ensures is { result ≡ self.now.shape.regs }
        ensures good { AreRegs self.now.shape.cap result }
    {
        self.places.regs()
    }

    /// The most that `s` may be.
    pub fn cap(&self) -> u8
        ensures { result ≡ self.now.shape.cap }
    {
        self.cap
    }

    /// How many keys are held.
    pub fn used(&self) -> u32
        ensures { result ≡ length self.now.shape.entries }
    {
        self.used
    }

    /// The word that is kept for the key; None exactly where the key isn't held.
    #[inline(always)]
    pub fn get(&self, key: u64) -> Option<u64>
        ensures { result ≡ word_of key self.now.shape.entries }
    {
        if self.used == 0 {
            return None;
        }
        let at = self.places.slot(key);
        word_at(&self.slots, at as usize, key)
    }

    /// Whether no key is in the slot of this key.
    pub fn is_free(&self, key: u64) -> bool
        ensures { IsTrue result ↔ (occupant self.now.shape key ≡ None) }
    {
        let at = self.places.slot(key);
        is_empty(&self.slots, at as usize)
    }

    /// Puts the key with its word into its slot, and returns what was there. What was there, put
    /// back, gives the way as it was.
    pub fn swap(&mut self, key: u64, word: u64) -> Option<Entry>
        requires { 0 < word }
        ensures left { result ≡ occupant self.old.shape key }
        ensures shape { self.new
            ≡ record self.old {
              shape = swapped self.old.shape
                  (record { key = key; word = word });
            } }
        ensures back { IfSome result (λ e. self.old.shape ≡ swapped self.new.shape e) }
        ensures again { IfSome result (λ e. occupant self.new.shape e.key
            ≡ Some (record { key = key; word = word })) }
        ensures full { IfSome result (λ e. 0 < e.word) }
    {
        let at = self.places.slot(key);
        let left = exchange(&mut self.slots, at as usize, Entry { key, word });
        if left.word == 0 {
            self.used += 1;
            None
        } else {
            Some(left)
        }
    }

    /// Keeps another word for a key that is held.
    pub fn set_word(&mut self, key: u64, word: u64)
        requires held { is_held self.old.shape key ≡ true }
        requires some { 0 < word }
        ensures { self.new ≡ record self.old { shape = with_word key word self.old.shape } }
    {
        let at = self.places.slot(key);
        exchange(&mut self.slots, at as usize, Entry { key, word });
    }

    /// Takes out a key that is held.
    pub fn clear(&mut self, key: u64)
        requires { is_held self.old.shape key ≡ true }
        ensures { self.new ≡ record self.old { shape = without_entry key self.old.shape } }
    {
        let at = self.places.slot(key);
        exchange(&mut self.slots, at as usize, EMPTY);
        self.used -= 1;
    }

    /// Begins to double the slots.
    pub fn begin_growth(&mut self)
        requires still { self.old.shape.regs.growing ≡ false }
        requires room { self.old.shape.regs.s < self.old.shape.cap }
        ensures { self.new ≡ record self.old { shape = begun self.old.shape } }
    {
        self.places.set(WayRegs {
            p: 0,
            growing: true,
            ..self.places.regs()
        });
    }

    /// Migrates the slot at the rehash pointer. Every key keeps its word.
    pub fn migrate_one(&mut self)
        requires { self.old.shape.regs.growing ≡ true }
        ensures { self.new ≡ record self.old { shape = advanced 1 self.old.shape } }
    {
        let regs = self.places.regs();
        migrate_slot(&mut self.slots, regs, self.places.number());
        self.places.set(stepped(regs));
    }

    /// Migrates `most` slots, or those that are left where they are fewer, and returns how many.
    pub fn migrate(&mut self, most: u64) -> u64
        requires { self.old.shape.regs.growing ≡ true }
        ensures count { result ≡ min most (slots_to_go self.old.shape.regs) }
        ensures shape { self.new
            ≡ record self.old { shape = advanced result self.old.shape } }
    {
        let count = most.min(slots_left(self.regs()));
        'slots: for _i in 0..count {
            self.migrate_one();
        }
        count
    }

    /// The word that is kept for the key, as `get` returns it, by a look at the words. It makes one
    /// load.
    pub fn probe(&mut self, key: u64) -> Option<u64>
        ensures word { result ≡ word_of key self.old.shape.entries }
        ensures load { self.new ≡ record self.old { loads = counted self.old.loads } }
    {
        let (regs, number) = (self.places.regs(), self.places.number());
        match look(self, regs, number, key) {
            Look::Found(word) => Some(word),
            _ => None,
        }
    }

    /// What the type keeps, at each value of the registers: the words say what is held, each key
    /// has a slot of its own, and the registers stay within the way's room.
    pub fn words_read_back(&self)
        ensures words { WordsReadBack self.now.shape }
        ensures apart { AreApart self.now.shape }
        ensures regs { AreRegs self.now.shape.cap self.now.shape.regs }
    {
        // Reading a field brings in the type's invariant.
        let _slots = &self.slots;
    }
}

impl Bus for Way {
    ghost use Rattle.std.specs.Prelude.{refl};
    ghost use Rattle.xl_phys.specs.Lines.{counted};
    ghost use Rattle.xl_way.specs.Words.{words_of};

    ghost words = { λ w. words_of w.shape };

    ghost count = { λ w. w.loads };

    ghost loaded = { λ w. record w { loads = counted w.loads } };

    fn load(&mut self, line: usize) -> Option<[u64; 4]> {
        self.loads = self.loads.wrapping_add(1);
        words_of_line(&self.slots, line)
    }

    fn loads(&self) -> u64 {
        self.loads
    }

    ghost words_stay = { λ w. refl };

    ghost counts_one = { λ w. refl };
}
