//! Slots of a way.

ghost use Rattle.std.specs.Prelude.{◌≡◌, ◌↔◌, IsTrue, ◌+◌, ◌*◌, ◌^◌, ◌<◌, ◌≤◌, true, [], ◌∷◌, length, slice_set, IfSome, IfNone};
ghost use Rattle.xl_way.specs.Slots.{no_entry, cell, word_in};
ghost use Rattle.xl_way.specs.Cells.{kept_of, moved};
ghost use Rattle.xl_way.specs.Kept.{reach};

use crate::place::{slot, stepped};
use xl_model::{Entry, WayRegs};

/// An empty slot.
pub(crate) const EMPTY: Entry = Entry { key: 0, word: 0 };

/// Puts an entry into a slot, and gives what was there.
pub(crate) fn exchange(slots: &mut [Entry], at: usize, entry: Entry) -> Entry
    requires { at < length slots.old }
    ensures left { result ≡ cell slots.old at }
    ensures slots { slots.new ≡ slice_set slots.old at entry }
{
    let left = slots[at];
    slots[at] = entry;
    left
}

/// The word that a slot keeps for a key. The slot's word is read where its key is the one.
#[inline(always)]
pub(crate) fn word_at(slots: &[Entry], at: usize, key: u64) -> Option<u64>
    requires { at < length slots.now }
    ensures { result ≡ word_in (kept_of key (cell slots.now at)) }
{
    let entry = &slots[at];
    if entry.key == key && entry.word != 0 {
        Some(entry.word)
    } else {
        None
    }
}

/// Whether a slot is empty.
pub(crate) fn is_empty(slots: &[Entry], at: usize) -> bool
    requires { at < length slots.now }
    ensures { IsTrue result ↔ ((cell slots.now at).word ≡ 0) }
{
    let entry = slots[at];
    entry.word == 0
}

/// Migrates the slot at the rehash pointer: its entry goes to its slot among twice as many.
pub(crate) fn migrate_slot(slots: &mut [Entry], regs: WayRegs, number: u64)
    requires small { regs.s < 18 }
    requires below { regs.p < 2 ^ regs.s }
    requires growing { regs.growing ≡ true }
    requires room { reach regs ≤ length slots.old }
    ensures { slots.new ≡ moved regs number slots.old }
{
    let entry = exchange(slots, regs.p as usize, EMPTY);
    if entry.word != 0 {
        let to = slot(stepped(regs), number, entry.key);
        exchange(slots, to as usize, entry);
    }
}

/// The four words of two neighbouring slots; None where they aren't there.
pub(crate) fn words_of_line(slots: &[Entry], line: usize) -> Option<[u64; 4]>
    ensures some { IfSome result (λ four. four ≡ (cell slots.now (2 * line)).key
        ∷ (cell slots.now (2 * line)).word ∷ (cell slots.now (2 * line + 1)).key
        ∷ (cell slots.now (2 * line + 1)).word ∷ []) }
    ensures there { IfSome result (λ four. 2 * line + 2 ≤ length slots.now) }
    ensures none { IfNone result (length slots.now < 2 * line + 2) }
{
    if line >= slots.len() / 2 {
        return None;
    }
    let even = slots[2 * line];
    let odd = slots[2 * line + 1];
    Some([even.key, even.word, odd.key, odd.word])
}
