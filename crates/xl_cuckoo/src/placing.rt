//! Insertion: attempts and growths in turn, and what settles after them.

ghost use Rattle.std.specs.Prelude.{◌≡◌, ◌<◌, ◌≤◌, ◌+◌, [], length, map, IfOk, IfErr, OnOk, OnErr, None};
ghost use Rattle.xl_model.specs.Placing.{start_way, no_moves, Placed, AtCap, place as place_of, insertion};
ghost use Rattle.xl_cuckoo.specs.State.{shapes};
ghost use Rattle.xl_cuckoo.specs.Undo.{displaced};
ghost use Rattle.xl_cuckoo.specs.Table.{value_of, SameEntries, AddsEntry, AreOnce};
ghost use Rattle.xl_cuckoo.specs.Steps.{StepIs, with_kicks, with_undone};

use crate::attempt::attempt;
use crate::growing::{force_at, to_grow};
use crate::moved::{Moved, WayAtCap};
use crate::settling::settle;
use arrayvec::ArrayVec;
use xl_model::{Entry, Moves, way_hash};
use xl_way::Way;

/// By what a table inserts: at most `kick_limit` displacements an attempt, at most `migrate` slots
/// of a way that settle, and the threshold at which a way grows, in hundredths of its slots.
#[derive(Clone, Copy)]
pub(crate) struct Rules {
    pub(crate) threshold: u8,
    pub(crate) kick_limit: u8,
    pub(crate) migrate: u8,
}

/// The result of an attempt, with the growth that followed it, and all that was done so far.
enum Step {
    Succeeds(Moves),
    Grown(Moves),
    Capped(Moves),
}

/// The way at which a key's attempts begin.
fn start(count: usize, key: u64) -> usize
    requires { 0 < count }
    ensures is { result ≡ start_way count key }
    ensures inside { result < count }
{
    (way_hash(count as u64, key) % count as u64) as usize
}

/// The kicks of an attempt that succeeded, with what was done before.
fn count_kicks(moves: Moves, kicks: u64) -> Moves
    ensures { result ≡ with_kicks kicks moves }
{
    Moves {
        kicks: moves.kicks.wrapping_add(kicks),
        ..moves
    }
}

/// The kicks of a failed attempt, all of which are undone, with what was done before.
fn count_undone(moves: Moves, undone: u64) -> Moves
    ensures { result ≡ with_undone undone moves }
{
    Moves {
        kicks: moves.kicks.wrapping_add(undone),
        undone: moves.undone.wrapping_add(undone),
        ..moves
    }
}

/// Makes an attempt, and completes a growth where it fails and a way may grow.
fn try_once(
    ways: &mut [Way],
    limit: usize,
    entry: Entry,
    moved: &mut ArrayVec<Moved, 64>,
    moves: Moves,
) -> Step
    requires some { 0 < length ways.old }
    requires few { length ways.old ≤ 4 }
    requires limit { limit ≤ 64 }
    requires full { 0 < entry.word }
    ensures { StepIs limit entry moves (shapes ways.old) (shapes ways.new)
        (map displaced moved.new.items) result }
{
    moved.clear();
    let start = start(ways.len(), entry.key);
    if attempt(ways, limit, start, entry, moved) {
        return Step::Succeeds(count_kicks(moves, moved.len() as u64));
    }
    let failed = count_undone(moves, limit as u64);
    match to_grow(ways) {
        Some(growable) => Step::Grown(force_at(ways, growable.way, failed)),
        None => {
            moved.clear();
            Step::Capped(failed)
        }
    }
}

/// Places an entry: attempts and growths in turn, until an attempt succeeds or no way may grow.
/// The displacements of the successful attempt are logged in their order.
fn place(
    ways: &mut [Way],
    limit: usize,
    entry: Entry,
    moved: &mut ArrayVec<Moved, 64>,
) -> Result<Moves, WayAtCap>
    requires some { 0 < length ways.old }
    requires few { length ways.old ≤ 4 }
    requires limit { limit ≤ 64 }
    requires full { 0 < entry.word }
    ensures ok { IfOk result (λ m. place_of limit (shapes ways.old) entry
        ≡ Placed (shapes ways.new) (map displaced moved.new.items) m) }
    ensures err { IfErr result (λ e. place_of limit (shapes ways.old) entry
        ≡ AtCap (shapes ways.new) e.moves) }
    ensures kept { OnErr result (SameEntries (shapes ways.old) (shapes ways.new)) }
    ensures none { OnErr result (map displaced moved.new.items ≡ []) }
{
    let mut moves = Moves {
        kicks: 0,
        undone: 0,
        migrated: 0,
        growths: 0,
    };
    'attempts: loop {
        match try_once(ways, limit, entry, moved, moves) {
            Step::Succeeds(after) => return Ok(after),
            Step::Capped(after) => return Err(WayAtCap { moves: after }),
            Step::Grown(after) => moves = after,
        }
    }
}

/// Inserts an entry whose key isn't held: places it, and settles the ways.
pub(crate) fn insert(
    ways: &mut [Way],
    rules: Rules,
    entry: Entry,
    moved: &mut ArrayVec<Moved, 64>,
) -> Result<Moves, WayAtCap>
    requires some { 0 < length ways.old }
    requires few { length ways.old ≤ 4 }
    requires rules { (rules.threshold ≤ 100) × (rules.kick_limit ≤ 64) }
    requires full { 0 < entry.word }
    requires free { value_of entry.key (shapes ways.old) ≡ None }
    requires once { AreOnce (shapes ways.old) }
    ensures ok { IfOk result (λ m. insertion rules.kick_limit rules.migrate rules.threshold
        (shapes ways.old) entry ≡ Placed (shapes ways.new) (map displaced moved.new.items) m) }
    ensures err { IfErr result (λ e. insertion rules.kick_limit rules.migrate rules.threshold
        (shapes ways.old) entry ≡ AtCap (shapes ways.new) e.moves) }
    ensures added { OnOk result (AddsEntry entry (shapes ways.old) (shapes ways.new)) }
    ensures kept { OnErr result (SameEntries (shapes ways.old) (shapes ways.new)) }
    ensures none { OnErr result (map displaced moved.new.items ≡ []) }
    ensures once { AreOnce (shapes ways.new) }
{
    match place(ways, rules.kick_limit as usize, entry, moved) {
        Ok(moves) => Ok(settle(ways, rules.migrate as u64, rules.threshold as u64, moves)),
        Err(refused) => Err(refused),
    }
}
