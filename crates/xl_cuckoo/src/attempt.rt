//! An attempt to place an entry, with its displacements, and their undoing.

ghost use Rattle.std.specs.Prelude.{◌≡◌, ◌<◌, ◌≤◌, true, false, [], length, map, slice_index_or, Option};
ghost use Rattle.xl_model.specs.Placing.{attempt as attempt_by, Succeeds, Fails};
ghost use Rattle.xl_cuckoo.specs.State.{shapes};
ghost use Rattle.xl_cuckoo.specs.Undo.{displaced, undone, in_hand, key_of, keys_in_hand};

use crate::moved::Moved;
use crate::ways::{is_free_at, next, previous, swap_at};
use arrayvec::ArrayVec;
use xl_model::Entry;
use xl_way::Way;

/// The entry in hand after a step back.
fn hand_after(displaced: Option<Entry>, hand: Entry) -> Entry
    ensures { result ≡ in_hand displaced hand }
{
    match displaced {
        Some(entry) => entry,
        None => hand,
    }
}

/// The key of a displacement.
fn key_at(moved: &[Moved], i: usize) -> u64
    requires { i < length moved.now }
    ensures { result ≡ slice_index_or (map key_of moved.now) i 0 }
{
    let displacement = moved[i];
    displacement.key
}

/// Rolls back kicks from the log; `hand` is the last entry displaced, and `at` the way that it went
/// to. Keys are taken from the log, so that no slot is looked for only when the one before was
/// read.
pub(crate) fn undo(ways: &mut [Way], moved: &[Moved], at: usize, hand: Entry)
    requires within { at < length ways.old }
    requires few { length ways.old ≤ 4 }
    requires full { 0 < hand.word }
    requires known { keys_in_hand (length moved.now) ways.old at hand ≡ map key_of moved.now }
    ensures { ways.new ≡ undone (length moved.now) ways.old at hand }
{
    let mut at = at;
    let mut hand = hand;
    'back: for i in 0..moved.len() {
        let key = key_at(moved, moved.len() - 1 - i);
        at = previous(ways.len(), at);
        let displaced = swap_at(
            ways,
            at,
            Entry {
                key,
                word: hand.word,
            },
        );
        hand = hand_after(displaced, hand);
    }
}

/// Makes an attempt to place `entry`, from way `start` on, with at most `limit` displacements,
/// logged in their order. Returns whether it succeeds; if not, all ways are as before it.
pub(crate) fn attempt(
    ways: &mut [Way],
    limit: usize,
    start: usize,
    entry: Entry,
    moved: &mut ArrayVec<Moved, 64>,
) -> bool
    requires few { length ways.old ≤ 4 }
    requires start { start < length ways.old }
    requires limit { limit ≤ 64 }
    requires full { 0 < entry.word }
    requires none { moved.old.items ≡ [] }
    ensures succeeds { result ≡ true → attempt_by limit (shapes ways.old) start entry []
        ≡ Succeeds (shapes ways.new) (map displaced moved.new.items) }
    ensures fails { result ≡ false → attempt_by limit (shapes ways.old) start entry [] ≡ Fails }
    ensures back { result ≡ false → ways.new ≡ ways.old }
{
    let mut at = start;
    let mut hand = entry;
    'kicks: for _i in 0..limit {
        match swap_at(ways, at, hand) {
            None => return true,
            Some(displaced) => {
                at = next(ways.len(), at);
                moved.push(Moved {
                    key: displaced.key,
                    way: at as u64,
                });
                hand = displaced;
            }
        }
    }
    if is_free_at(ways, at, hand.key) {
        swap_at(ways, at, hand);
        true
    } else {
        undo(ways, moved, at, hand);
        false
    }
}
