//! Growth: the way that grows after a failed attempt, and migration after one that succeeded.

ghost use Rattle.std.specs.Prelude.{◌≡◌, ◌<◌, ◌≤◌, true, false};
ghost use Rattle.xl_model.specs.Ways.{slots_left};
ghost use Rattle.xl_model.specs.Placing.{growing_now, growths_begun, forced, slots_settled, settled_way, begins, begun_if_full};
ghost use Rattle.xl_model.specs.Base.{one_if};

use xl_way::Way;

/// Completes a growth of a way, which begins where the way isn't growing. Returns how many slots
/// were migrated, and how many growths began.
#[tactic(auto, unfolding(xl_model::specs::Placing::forced, xl_model::specs::Ways::begun))]
pub(crate) fn force(way: &mut Way) -> (u64, u64)
    requires { way.old.shape.regs.s < way.old.shape.cap }
    ensures way { way.new ≡ record way.old { shape = forced way.old.shape } }
    ensures migrated { result.0 ≡ slots_left (growing_now way.old.shape).regs }
    ensures growths { result.1 ≡ growths_begun way.old.shape }
{
    let growths = start(way);
    let slots = 1 << way.regs().s;
    (way.migrate(slots), growths)
}

/// Begins to grow, unless the way is growing. Returns how many growths began.
#[tactic(auto, unfolding(xl_model::specs::Ways::begun))]
fn start(way: &mut Way) -> u64
    requires { way.old.shape.regs.s < way.old.shape.cap }
    ensures way { way.new ≡ record way.old { shape = growing_now way.old.shape } }
    ensures growing { way.new.shape.regs.growing ≡ true }
    ensures growths { result ≡ growths_begun way.old.shape }
{
    if way.regs().growing {
        0
    } else {
        way.begin_growth();
        1
    }
}

/// Migrates some slots of a way that is growing, and returns how many.
pub(crate) fn settle_way(way: &mut Way, most: u64) -> u64
    ensures way { way.new ≡ record way.old { shape = settled_way most way.old.shape } }
    ensures migrated { result ≡ slots_settled most way.old.shape }
{
    if way.regs().growing {
        way.migrate(most)
    } else {
        0
    }
}

/// Whether a way is to begin a growth: it isn't growing, is below its cap, and is fuller than the
/// threshold, in hundredths of its slots.
fn begins_now(way: &Way, threshold: u64) -> bool
    requires { threshold ≤ 100 }
    ensures is { result ≡ begins threshold way.now.shape }
    ensures still { result ≡ true → way.now.shape.regs.growing ≡ false }
    ensures room { result ≡ true → way.now.shape.regs.s < way.now.shape.cap }
{
    let regs = way.regs();
    !regs.growing && regs.s < way.cap() && threshold << regs.s < way.used() as u64 * 100
}

/// Begins to grow where the way is fuller than the threshold. Returns how many growths began.
pub(crate) fn begin_if_full(way: &mut Way, threshold: u64) -> u64
    requires { threshold ≤ 100 }
    ensures way { way.new ≡ record way.old { shape = begun_if_full threshold way.old.shape } }
    ensures growths { result ≡ one_if (begins threshold way.old.shape) }
{
    if begins_now(way, threshold) {
        way.begin_growth();
        1
    } else {
        0
    }
}
