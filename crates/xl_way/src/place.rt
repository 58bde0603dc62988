//! Slots of keys, and registers of a way.

ghost use Rattle.std.specs.Prelude.{◌≡◌, ◌+◌, ◌^◌, ◌<◌, ◌≤◌, true};
ghost use Rattle.xl_model.specs.Ways.{slot as slot_of, slots_left as slots_to_go, regs_after};
ghost use Rattle.xl_way.specs.Kept.{reach};

use xl_model::{WayRegs, way_hash};

/// The slot of `key` in way `way`, where the way has these registers: in a growing way a slot below
/// the rehash pointer is already one of twice as many.
#[tactic(auto, unfolding(xl_model::specs::Ways::slot))]
pub fn slot(regs: WayRegs, way: u64, key: u64) -> u32
    requires small { regs.s ≤ 18 }
    requires below { regs.p < 2 ^ regs.s }
    ensures is { result ≡ slot_of regs way key }
    ensures inside { result < reach regs }
{
    let hash = way_hash(way, key);
    let index = hash % (1 << regs.s);
    if regs.growing && index < regs.p as u64 {
        (hash % (1 << (regs.s + 1))) as u32
    } else {
        index as u32
    }
}

/// The slots that a growing way has still to migrate.
pub(crate) fn slots_left(regs: WayRegs) -> u64
    requires small { regs.s ≤ 18 }
    requires below { regs.p < 2 ^ regs.s }
    ensures { result ≡ slots_to_go regs }
{
    (1 << regs.s) - regs.p as u64
}

/// The registers of a growing way after one slot more was migrated. The last one doubles the way.
pub(crate) fn stepped(regs: WayRegs) -> WayRegs
    requires small { regs.s < 18 }
    requires below { regs.p < 2 ^ regs.s }
    requires growing { regs.growing ≡ true }
    ensures { result ≡ regs_after 1 regs }
{
    let p = regs.p + 1;
    if p == 1 << regs.s {
        WayRegs {
            s: regs.s + 1,
            p: 0,
            growing: false,
        }
    } else {
        WayRegs { p, ..regs }
    }
}
