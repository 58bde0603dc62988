//! Which way grows after a failed attempt.

ghost use Rattle.std.specs.Prelude.{◌≡◌, ◌<◌, ◌≤◌, length, IfSome, slice_set};
ghost use Rattle.xl_model.specs.Placing.{candidate as candidate_by, smaller as smaller_of, to_grow as growing_of, forced, forced_moves};
ghost use Rattle.xl_cuckoo.specs.State.{state_at, shapes, with_forced};
ghost use Rattle.xl_cuckoo.specs.Growth.{candidate_in};

use crate::growth::force;
use xl_model::Moves;
use xl_way::Way;

/// A way that may grow: its number, and the logarithm of its slots.
#[derive(Clone, Copy)]
pub(crate) struct Growable {
    pub(crate) way: usize,
    size: u8,
}

/// The way, if it may grow: it has fewer slots than its cap lets it have.
fn candidate(ways: &[Way], at: usize) -> Option<Growable>
    requires { at < length ways.now }
    ensures { candidate_in result ≡ candidate_by at (state_at ways.now at).shape }
{
    let way = &ways[at];
    let size = way.regs().s;
    if size < way.cap() {
        Some(Growable { way: at, size })
    } else {
        None
    }
}

/// Of two ways that may grow the one with fewer slots, and of equal ones the first.
fn smaller(first: Option<Growable>, second: Option<Growable>) -> Option<Growable>
    ensures { candidate_in result ≡ smaller_of (candidate_in first) (candidate_in second) }
{
    match (first, second) {
        (None, _) => second,
        (Some(_), None) => first,
        (Some(one), Some(other)) => {
            if one.size <= other.size {
                first
            } else {
                second
            }
        }
    }
}

/// The way that is to grow: of those below their caps the one with the fewest slots, and of equal
/// ones the first.
pub(crate) fn to_grow(ways: &[Way]) -> Option<Growable>
    ensures { candidate_in result ≡ growing_of 0 (shapes ways.now) }
{
    let mut best = None;
    'ways: for at in 0..ways.len() {
        best = smaller(best, candidate(ways, at));
    }
    best
}

/// Completes a growth of one way, and counts it.
pub(crate) fn force_at(ways: &mut [Way], at: usize, moves: Moves) -> Moves
    requires within { at < length ways.old }
    requires room { (state_at ways.old at).shape.regs.s < (state_at ways.old at).shape.cap }
    ensures ways { ways.new ≡ slice_set ways.old at (with_forced (state_at ways.old at)) }
    ensures moves { result ≡ forced_moves (state_at ways.old at).shape moves }
{
    let way = &mut ways[at];
    let (migrated, growths) = force(way);
    Moves {
        migrated: moves.migrated.wrapping_add(migrated),
        growths: moves.growths.wrapping_add(growths),
        ..moves
    }
}
