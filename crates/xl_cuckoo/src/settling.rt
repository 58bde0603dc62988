//! Migration and growth after a successful insertion.

ghost use Rattle.std.specs.Prelude.{◌≡◌, ◌<◌, ◌≤◌, length, map, slice_set};
ghost use Rattle.xl_model.specs.Base.{plus, one_if};
ghost use Rattle.xl_model.specs.Placing.{slots_settled, settled_way, begins, begun_if_full as begun_by, total, settled, settled_moves};
ghost use Rattle.xl_cuckoo.specs.State.{state_at, shapes, with_settled, with_begun};

use crate::growth::{begin_if_full, settle_way};
use xl_model::Moves;
use xl_way::Way;

/// Migrates some slots of one way, if it is growing, and returns how many.
fn settle_at(ways: &mut [Way], at: usize, most: u64) -> u64
    requires { at < length ways.old }
    ensures ways { ways.new ≡ slice_set ways.old at (with_settled most (state_at ways.old at)) }
    ensures migrated { result ≡ slots_settled most (state_at ways.old at).shape }
{
    let way = &mut ways[at];
    settle_way(way, most)
}

/// One way begins to grow where it is fuller than the threshold. Returns how many growths began.
fn begin_at(ways: &mut [Way], at: usize, threshold: u64) -> u64
    requires within { at < length ways.old }
    requires threshold { threshold ≤ 100 }
    ensures ways { ways.new ≡ slice_set ways.old at (with_begun threshold (state_at ways.old at)) }
    ensures growths { result ≡ one_if (begins threshold (state_at ways.old at).shape) }
{
    let way = &mut ways[at];
    begin_if_full(way, threshold)
}

/// Migrates some slots of each growing way, and adds how many to those that were counted before.
fn settle_each(ways: &mut [Way], most: u64, before: u64) -> u64
    ensures ways { ways.new ≡ map (with_settled most) ways.old }
    ensures count { result ≡ plus before (total (slots_settled most) (shapes ways.old)) }
{
    let mut migrated = before;
    'ways: for at in 0..ways.len() {
        migrated = migrated.wrapping_add(settle_at(ways, at, most));
    }
    migrated
}

/// Begins to grow each way that is fuller than the threshold, and adds how many to the growths that
/// were counted before.
fn begin_each(ways: &mut [Way], threshold: u64, before: u64) -> u64
    requires { threshold ≤ 100 }
    ensures ways { ways.new ≡ map (with_begun threshold) ways.old }
    ensures count { result
        ≡ plus before (total (λ w. one_if (begins threshold w)) (shapes ways.old)) }
{
    let mut growths = before;
    'ways: for at in 0..ways.len() {
        growths = growths.wrapping_add(begin_at(ways, at, threshold));
    }
    growths
}

/// Settles the ways: those that are growing migrate `most` slots each at most, then those that are
/// fuller than the threshold begin to grow. Returns what was done, with what was done before.
pub(crate) fn settle(ways: &mut [Way], most: u64, threshold: u64, moves: Moves) -> Moves
    requires { threshold ≤ 100 }
    ensures ways { shapes ways.new ≡ settled most threshold (shapes ways.old) }
    ensures moves { result ≡ settled_moves most threshold (shapes ways.old) moves }
{
    let migrated = settle_each(ways, most, moves.migrated);
    let growths = begin_each(ways, threshold, moves.growths);
    Moves {
        migrated,
        growths,
        ..moves
    }
}
