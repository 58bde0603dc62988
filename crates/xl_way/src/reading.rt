//! A look at the words of a way.

ghost use Rattle.std.specs.Prelude.{◌≡◌, ◌^◌, ◌<◌, ◌≤◌};
ghost use Rattle.xl_way.specs.Back.{found_in as found_by, slot_back};

use crate::found::Look;
use crate::place::slot;
use xl_model::WayRegs;
use xl_phys::Bus;

/// What a slot with this key and this word says of `key`.
fn found_in(key: u64, held: u64, word: u64) -> Look
    ensures { result ≡ found_by key held word }
{
    if held == key && word != 0 {
        Look::Found(word)
    } else {
        Look::Absent
    }
}

/// Looks for `key` in the words of way `way`, where it has these registers. It makes one load, of
/// the line of the key's slot.
#[tactic(auto, unfolding(crate::specs::Back::slot_back))]
pub fn look<B: Bus>(bus: &mut B, regs: WayRegs, way: u64, key: u64) -> Look
    requires small { regs.s ≤ 18 }
    requires below { regs.p < 2 ^ regs.s }
    ensures is { result ≡ slot_back (B.words bus.old) regs way key }
    ensures bus { bus.new ≡ B.loaded bus.old }
{
    let at = slot(regs, way, key) as usize;
    match bus.load(at / 2) {
        None => Look::OutOfBus,
        Some(four) => {
            let first = 2 * (at % 2);
            found_in(key, four[first], four[first + 1])
        }
    }
}
