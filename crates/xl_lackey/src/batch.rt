//! Accesses that are served together.

ghost use Rattle.std.specs.Prelude.{◌≡◌, ◌==◌, ◌+◌, ◌-◌, ◌<◌, ◌≤◌, ◌++◌, ◌∷◌, [], length, slice_set};
ghost use Rattle.xl_lackey.specs.Skims.{batch_size, IsSure, Runs};

use crate::prefixes::PrefixCache;
use crate::skim::{Access, Run, skim_kept, skim_plain};
use std::marker::Model;

/// How many accesses a batch has room for.
pub(crate) const ROOM: usize = 256;

/// Accesses in the order of the trace. An access is written field by field, and what is after the
/// last one is never seen: so nothing is written but the accesses themselves.
#[derive(Drop)]
pub struct Batch {
    slots: [Access; ROOM],
    len: usize,
}

impl Model for Batch {
    ghost use Rattle.std.specs.Prelude.{take, ◌≤◌};
    ghost use Rattle.xl_lackey.specs.Skims.{Gathered};

    ghost Value = { Gathered };

    ghost view = { λ b. record { items = take b.len b.slots } };

    ghost invariant = { λ b. b.len ≤ 256 };
}

impl Batch {
    /// No accesses.
    pub fn new() -> Batch
        ensures { result.items ≡ [] }
    {
        Batch {
            slots: [Access::default(); ROOM],
            len: 0,
        }
    }

    /// How many accesses there are.
    #[inline(always)]
    pub fn len(&self) -> usize
        ensures value { result ≡ length self.now.items }
        ensures few { result ≤ batch_size }
    {
        self.as_slice().len()
    }

    /// Whether there is no access.
    #[inline(always)]
    pub fn is_empty(&self) -> bool
        ensures { result ≡ (length self.now.items == 0) }
    {
        self.len() == 0
    }

    /// Whether there is no room left.
    #[inline(always)]
    pub fn is_full(&self) -> bool
        ensures value { result ≡ (length self.now.items == batch_size) }
        ensures few { length self.now.items ≤ batch_size }
    {
        self.len() == ROOM
    }

    /// The accesses.
    #[inline(always)]
    pub fn as_slice(&self) -> &[Access]
        ensures value { result.now ≡ self.entry.now.items }
        ensures few { length result.now ≤ batch_size }
    {
        &self.slots[..self.len]
    }

    /// Appends an access.
    #[inline(always)]
    pub fn push(&mut self, access: Access)
        requires { length self.old.items < batch_size }
        ensures items { self.new.items ≡ self.old.items ++ access ∷ [] }
        ensures len { length self.new.items ≡ length self.old.items + 1 }
    {
        let len = self.len;
        put(&mut self.slots, len, access);
        self.len = len + 1;
    }

    /// Reads the first lines of a text, `most` at most, while their pages are kept, and appends
    /// their accesses.
    #[inline(always)]
    pub(crate) fn skim_kept(&mut self, text: &[u8], most: u64, prefixes: &PrefixCache) -> Run
        requires { IsSure most (length text.now) self.old.items }
        ensures runs { Runs text.now self.old.items self.new.items result }
        ensures few { result.taken ≤ most }
        ensures sure { IsSure (most - result.taken) (length text.now - result.used) self.new.items }
    {
        let len = self.len;
        let run = skim_kept(text, &mut self.slots, len, most, prefixes);
        self.len = len + run.taken as usize;
        run
    }

    /// Reads the first lines of a text, `most` at most, whether their pages are kept or not, and
    /// puts their accesses after those that are there.
    #[inline(always)]
    pub(crate) fn skim_plain(&mut self, text: &[u8], most: u64) -> Run
        ensures runs { Runs text.now self.old.items self.new.items result }
        ensures few { result.taken ≤ most }
    {
        let len = self.len;
        let plain = skim_plain(text, &mut self.slots, len, most);
        self.len = plain.len;
        plain.run
    }

    /// Removes all accesses.
    #[inline(always)]
    pub fn clear(&mut self)
        ensures { self.new.items ≡ [] }
    {
        self.len = 0;
    }
}

/// Puts an access in a place, field by field, so that what lies between two of them isn't written.
#[inline(always)]
pub(crate) fn put(slots: &mut [Access], at: usize, access: Access)
    requires { at < length slots.old }
    ensures { slots.new ≡ slice_set slots.old at access }
{
    let slot = &mut slots[at];
    slot.va = access.va;
    slot.kind = access.kind;
}
