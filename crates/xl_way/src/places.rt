//! Where the keys of a way are.

ghost use Rattle.std.specs.Prelude.{◌≡◌, ◌+◌, ◌-◌, ◌*◌, ◌%◌, ◌^◌, ◌≤◌, false, ℕ};
ghost use Rattle.xl_model.specs.Ways.{slot as slot_of};

use std::marker::Model;
use xl_model::{WayRegs, mix};

/// The number of a way and its registers, with what the slot of a key takes of them, so that it
/// isn't computed for each key. Contracts see the number and the registers.
#[derive(Drop)]
pub(crate) struct Places {
    number: u64,
    regs: WayRegs,
    /// What is added to a key before it is mixed.
    salt: u64,
    /// One less than the slots, and one less than twice the slots.
    mask: u64,
    wide: u64,
}

impl Model for Places {
    ghost use Rattle.xl_way.specs.Slots.{PlacesState};
    ghost use Rattle.xl_way.specs.Kept.{IsReady};

    ghost Value = { PlacesState };

    ghost view = { λ p. record { number = p.number; regs = p.regs } };

    ghost invariant = { λ p. IsReady p.number p.regs p.salt p.mask p.wide };
}

/// What is added to a key before it is mixed to its hash in a way.
fn salt_of(number: u64) -> u64
    ensures { result ≡ (number + 1) * 0x9e3779b97f4a7c15 % 2 ^ 64 }
{
    number.wrapping_add(1).wrapping_mul(0x9e37_79b9_7f4a_7c15)
}

/// `bits` bits, all set.
fn ones(bits: u8) -> u64
    requires { bits ≤ 19 }
    ensures { result ≡ 2 ^ bits - 1 }
{
    (1 << bits) - 1
}

/// The lowest bits of a hash, as many as the mask has.
#[inline(always)]
fn masked(hash: u64, mask: u64) -> u64
    ensures { (bits : ℕ) → mask ≡ 2 ^ bits - 1 → result ≡ hash % 2 ^ bits }
{
    hash & mask
}

impl Places {
    /// The places of a way of this number with these registers.
    pub fn open(number: u64, regs: WayRegs) -> Places
        requires few { regs.s ≤ 18 }
        requires still { regs.growing ≡ false → regs.p ≡ 0 }
        ensures { result ≡ record { number = number; regs = regs } }
    {
        Places {
            number,
            regs,
            salt: salt_of(number),
            mask: ones(regs.s),
            wide: ones(regs.s + 1),
        }
    }

    /// The number of the way.
    #[inline(always)]
    pub fn number(&self) -> u64
        ensures { result ≡ self.now.number }
    {
        self.number
    }

    /// The registers.
    #[inline(always)]
    pub fn regs(&self) -> WayRegs
        ensures { result ≡ self.now.regs }
    {
        self.regs
    }

    /// Takes other registers.
    pub fn set(&mut self, regs: WayRegs)
        requires few { regs.s ≤ 18 }
        requires still { regs.growing ≡ false → regs.p ≡ 0 }
        ensures { self.new ≡ record self.old { regs = regs } }
    {
        self.regs = regs;
        self.mask = ones(regs.s);
        self.wide = ones(regs.s + 1);
    }

    /// The slot of a key. The rehash pointer is 0 unless the way is growing, so it alone says
    /// whether the slot is one of twice as many.
    #[inline(always)]
    pub fn slot(&self, key: u64) -> u64
        ensures is { result ≡ slot_of self.now.regs self.now.number key }
    {
        let hash = mix(key.wrapping_add(self.salt));
        let index = masked(hash, self.mask);
        if index < self.regs.p as u64 {
            masked(hash, self.wide)
        } else {
            index
        }
    }
}
