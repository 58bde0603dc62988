//! The work on places in slots.

ghost use Rattle.std.specs.Prelude.{◌≡◌, ◌≢◌, ℕ, ◌<◌, ◌≤◌, ◌++◌, ◌∷◌, true, false, Some, take, drop, length, map, slice_index, IfNone, IfSome};
ghost use Rattle.std.specs.Fn.{FnReturnsAt};
ghost use Rattle.std.specs.List.{remove};
ghost use Rattle.xl_curve.specs.Places.{AreApart, AreFewer, AreMarks, AreRanks, AreThinned, IsAt, IsFirst, IsGap, IsNamed, IsNeither, IsSameOrHole, IsSolid, IsStack, distance, further, gap, guided, in_turn, is_vacant, leaf_in, moved, place_of, place_without, places_of, vacated};
ghost use Rattle.xl_curve.specs.Slots.{IsGuided, IsInFront, IsSlots, list_of};
ghost use Rattle.xl_curve_model.specs.Curves.{same_leaf};
ghost use Rattle.xl_model.specs.Mapping.{is_leaf};
ghost use Rattle.xl_model.specs.declared.address.Order.{Order};
ghost use Rattle.xl_recency.specs.Lists.{IsTest};

use crate::place::{HOLE, HOLE_MARK, Place};
use xl_model::Leaf;

/// How many places there are: the greatest width.
pub(crate) const WIDEST: usize = 64;

/// How many marks there are.
pub(crate) const MARKS: usize = 256;

/// Each slot's own number as its rank.
pub(crate) fn ranks_in_turn() -> [u8; WIDEST]
    ensures ranks { AreRanks result }
    ensures apart { AreApart result }
{
    let mut ranks = [0; WIDEST];
    for slot in 0..64 {
        ranks[slot as usize] = slot;
    }
    ranks
}

/// The first slot of a byte, or 64 where none has it. All are looked at: a loop without a way out
/// is done sixteen slots at a time.
#[inline(always)]
fn first_of(bytes: &[u8; WIDEST], byte: u8) -> u8
    ensures passed { (k : ℕ) → k < result → slice_index bytes.now k ≢ byte }
    ensures within { result ≤ 64 }
    ensures there { result < 64 → slice_index bytes.now result ≡ byte }
{
    let mut first: u8 = 64;
    for slot in 0..64 {
        let here = if bytes[slot as usize] == byte {
            slot
        } else {
            64
        };
        first = if here < first { here } else { first };
    }
    first
}

/// The slot of a rank.
#[inline(always)]
fn slot_at(ranks: &[u8; WIDEST], rank: u8) -> usize
    requires ranks { AreRanks ranks.now }
    requires rank { rank < 64 }
    ensures within { result < 64 }
    ensures first { IsFirst rank result ranks.now }
{
    first_of(ranks, rank) as usize
}

/// The least rank from `from` on of a slot that has one of two marks, or 64 where none has.
#[inline(always)]
fn first_marked(marks: &[u8; WIDEST], ranks: &[u8; WIDEST], mark: u8, other: u8, from: u8) -> u8
    requires from { from ≤ 64 }
    ensures passed { (slot : ℕ) → slot < 64 → from ≤ slice_index ranks.now slot →
        slice_index ranks.now slot < result → IsNeither mark other (slice_index marks.now slot) }
    ensures within { (from ≤ result) × (result ≤ 64) }
{
    let mut least: u8 = 64;
    for slot in 0..WIDEST {
        let rank = ranks[slot];
        let here = marks[slot];
        let rank = if (here == mark || here == other) && rank >= from {
            rank
        } else {
            64
        };
        least = if rank < least { rank } else { least };
    }
    least
}

/// Whether a slot has a mark. All are looked at, sixteen at a time.
#[inline(always)]
fn is_marked(marks: &[u8; WIDEST], mark: u8) -> bool
    ensures { result ≡ false → (k : ℕ) → k < 64 → slice_index marks.now k ≢ mark }
{
    let mut found = false;
    for slot in 0..WIDEST {
        found = if marks[slot] == mark { true } else { found };
    }
    found
}

/// The slot that the guide has for a mark: of the slots of this mark the one of the least rank, if
/// there is one.
#[inline(always)]
fn slot_guided(guide: &[u8; MARKS], mark: u8) -> usize
    ensures within { result < 64 }
    ensures value { result ≡ guided guide.now mark }
{
    (guide[mark as usize] % 64) as usize
}

/// Whether no slot has the leaf of a name, by marks alone.
#[inline(always)]
pub(crate) fn lacks(marks: &[u8; WIDEST], _slots: &[Place; WIDEST], named: Place) -> bool
    requires { AreMarks marks.now _slots.now }
    ensures { (space first : ℕ) (o : Order) → IsNamed space first o named → result ≡ true
        → map (place_without (is_leaf space first o)) (places_of _slots.now)
        ≡ places_of _slots.now }
{
    !is_marked(marks, named.mark())
}

/// A rank after the slot of this rank came to the front: those in front of it moved on by one.
#[inline(always)]
fn rank_after(rank: u8, here: u8) -> u8
    requires { rank < 64 }
    ensures { result ≡ moved rank here }
{
    if here == rank {
        0
    } else if here < rank {
        here + 1
    } else {
        here
    }
}

/// The slot of this rank comes to the front.
#[inline(always)]
fn move_to_front(ranks: &mut [u8; WIDEST], rank: u8)
    requires { rank < 64 }
    ensures { ranks.new ≡ map (moved rank) ranks.old }
{
    for slot in 0..WIDEST {
        ranks[slot] = rank_after(rank, ranks[slot]);
    }
}

/// The slot of the first place that is a hole or has the leaf. Marks tell most of the places apart.
#[inline(always)]
fn first_gap(
    marks: &[u8; WIDEST],
    ranks: &[u8; WIDEST],
    slots: &[Place; WIDEST],
    leaf: Place,
) -> Option<usize>
    requires solid { is_vacant leaf ≡ false }
    requires kept { IsStack marks.now ranks.now slots.now }
    ensures some { IfSome result (λ slot.
        IsGap (same_leaf (leaf_in leaf)) slot ranks.now slots.now) }
    ensures none { IfNone result
        (gap (same_leaf (leaf_in leaf)) (in_turn ranks.now (places_of slots.now)) ≡ None) }
{
    let mark = leaf.mark();
    let mut rank = first_marked(marks, ranks, mark, HOLE_MARK, 0);
    'marked: while rank < 64 {
        let slot = slot_at(ranks, rank);
        if !slots[slot].gives_way(leaf) {
            return Some(slot);
        }
        rank = first_marked(marks, ranks, mark, HOLE_MARK, rank + 1);
    }
    None
}

/// Makes a hole of the place of a leaf, if it is at `from` or after it. Returns where it was.
fn vacate(
    marks: &mut [u8; WIDEST],
    ranks: &[u8; WIDEST],
    slots: &mut [Place; WIDEST],
    from: u8,
    leaf: Place,
) -> Option<usize>
    requires from { from ≤ 64 }
    requires solid { is_vacant leaf ≡ false }
    requires kept { IsStack marks.old ranks.now slots.old }
    ensures places { in_turn ranks.now (places_of slots.new)
        ≡ take from (in_turn ranks.now (places_of slots.old)) ++ vacated
        (same_leaf (leaf_in leaf)) (drop from (in_turn ranks.now (places_of slots.old))) }
    ensures distance { result ≡ further from (distance (same_leaf (leaf_in leaf))
        (drop from (in_turn ranks.now (places_of slots.old)))) }
    ensures kept { IsStack marks.new ranks.now slots.new }
    ensures fewer { AreFewer marks.old marks.new }
{
    let mark = leaf.mark();
    let mut rank = first_marked(marks, ranks, mark, mark, from);
    'marked: while rank < 64 {
        let slot = slot_at(ranks, rank);
        if leaf.is_same(slots[slot]) {
            slots[slot] = HOLE;
            marks[slot] = HOLE_MARK;
            return Some(rank as usize);
        }
        rank = first_marked(marks, ranks, mark, mark, rank + 1);
    }
    None
}

/// Places in slots. What is known of them is in `IsSlots`.
#[derive(Drop)]
pub(crate) struct Slots {
    pub marks: [u8; WIDEST],
    pub ranks: [u8; WIDEST],
    pub places: [Place; WIDEST],
    /// For each mark the slot that a leaf of it was put into last.
    pub guide: [u8; MARKS],
    /// No hole has a lower rank.
    pub solid: u8,
}

/// Puts a leaf into a slot, and in front.
#[inline(always)]
fn fill(slots: &mut Slots, slot: usize, leaf: Place)
    requires slot { IsFirst (slice_index slots.old.ranks slot) slot slots.old.ranks }
    requires within { (slot < 64) × (slice_index slots.old.ranks slot < 64) }
    requires solid { is_vacant leaf ≡ false }
    requires kept { IsGuided slots.old }
    ensures list { list_of slots.new ≡ Some (leaf_in leaf)
        ∷ remove (list_of slots.old) (slice_index slots.old.ranks slot) }
    ensures kept { IsGuided slots.new }
    ensures solid { (k : ℕ) → slice_index slots.old.ranks slot < k
        → IsSolid k slots.old.marks slots.old.ranks → IsSolid k slots.new.marks slots.new.ranks }
    ensures bound { slots.new.solid ≡ slots.old.solid }
{
    let rank = slots.ranks[slot];
    let mark = leaf.mark();
    slots.marks[slot] = mark;
    slots.places[slot] = leaf;
    slots.guide[mark as usize] = slot as u8;
    move_to_front(&mut slots.ranks, rank);
}

/// Puts a leaf in front, where the first place that is a hole or has the leaf is in this slot.
/// Behind a hole the leaf leaves one where it was. Gives the distance at which it was.
#[inline(always)]
fn close_gap(slots: &mut Slots, slot: usize, leaf: Place) -> Option<usize>
    requires solid { is_vacant leaf ≡ false }
    requires gap { IsGap (same_leaf (leaf_in leaf)) slot slots.old.ranks slots.old.places }
    requires kept { IsGuided slots.old }
    ensures front { IsInFront (leaf_in leaf) (list_of slots.old) result (list_of slots.new) }
    ensures kept { IsGuided slots.new }
{
    let rank = slots.ranks[slot];
    if slots.places[slot].is_hole() {
        fill(slots, slot, leaf);
        return vacate(
            &mut slots.marks,
            &slots.ranks,
            &mut slots.places,
            rank + 1,
            leaf,
        );
    }
    slots.guide[leaf.mark() as usize] = slot as u8;
    move_to_front(&mut slots.ranks, rank);
    Some(rank as usize)
}

/// A rank below which no slot is a hole: the first hole's, or 64.
#[inline(always)]
pub(crate) fn first_hole(marks: &[u8; WIDEST], ranks: &[u8; WIDEST]) -> u8
    ensures front { IsSolid result marks.now ranks.now }
    ensures most { result ≤ 64 }
{
    first_marked(marks, ranks, HOLE_MARK, HOLE_MARK, 0)
}

/// Puts a leaf in front, where none is a hole and none has the leaf: the last place gives way.
#[inline(always)]
fn bring_anew(slots: &mut Slots, leaf: Place)
    requires solid { is_vacant leaf ≡ false }
    requires none { gap (same_leaf (leaf_in leaf)) (list_of slots.old) ≡ None }
    requires kept { IsGuided slots.old }
    ensures front { IsInFront (leaf_in leaf) (list_of slots.old) None (list_of slots.new) }
    ensures kept { IsGuided slots.new }
    ensures full { IsSolid 64 slots.old.marks slots.old.ranks
        → IsSolid 64 slots.new.marks slots.new.ranks }
    ensures bound { slots.new.solid ≡ slots.old.solid }
{
    let last = slot_at(&slots.ranks, 63);
    fill(slots, last, leaf);
}

/// Does what `bring_in_front` does, place after place.
fn bring_in_turn(slots: &mut Slots, leaf: Place) -> Option<usize>
    requires solid { is_vacant leaf ≡ false }
    requires kept { IsGuided slots.old }
    ensures front { IsInFront (leaf_in leaf) (list_of slots.old) result (list_of slots.new) }
    ensures kept { IsGuided slots.new }
{
    match first_gap(&slots.marks, &slots.ranks, &slots.places, leaf) {
        Some(slot) => close_gap(slots, slot, leaf),
        None => {
            bring_anew(slots, leaf);
            None
        }
    }
}

/// Does what `bring_in_front` does, where the guide's slot doesn't have the leaf, or a hole may be
/// in front of it. Out of line, since most accesses hit.
#[inline(never)]
fn bring_apart(slots: &mut Slots, leaf: Place) -> Option<usize>
    requires solid { is_vacant leaf ≡ false }
    requires kept { IsSlots slots.old }
    ensures front { IsInFront (leaf_in leaf) (list_of slots.old) result (list_of slots.new) }
    ensures kept { IsSlots slots.new }
{
    if slots.solid == 64 && !is_marked(&slots.marks, leaf.mark()) {
        bring_anew(slots, leaf);
        return None;
    }
    let distance = bring_in_turn(slots, leaf);
    slots.solid = first_hole(&slots.marks, &slots.ranks);
    distance
}

/// Whether a slot has the leaf, word for word, and a lower rank than `before`.
#[inline(always)]
fn has_leaf(
    ranks: &[u8; WIDEST],
    slots: &[Place; WIDEST],
    slot: usize,
    before: u8,
    leaf: Place,
) -> bool
    requires { slot < 64 }
    ensures before { result ≡ true → slice_index ranks.now slot < before }
    ensures place { result ≡ true → IsAt slot leaf slots.now }
{
    ranks[slot] < before && leaf.is_equal(slots[slot])
}

/// Puts a leaf in front, and gives the distance at which it was. The last place gives way, where
/// none is a hole and none has the leaf. Mostly the guide's slot has the leaf, and no hole is in
/// front of it.
#[inline(always)]
pub(crate) fn bring_in_front(slots: &mut Slots, leaf: Place) -> Option<usize>
    requires solid { is_vacant leaf ≡ false }
    requires kept { IsSlots slots.old }
    ensures front { IsInFront (leaf_in leaf) (list_of slots.old) result (list_of slots.new) }
    ensures kept { IsSlots slots.new }
{
    let slot = slot_guided(&slots.guide, leaf.mark());
    if !has_leaf(&slots.ranks, &slots.places, slot, slots.solid, leaf) {
        return bring_apart(slots, leaf);
    }
    let rank = slots.ranks[slot];
    move_to_front(&mut slots.ranks, rank);
    Some(rank as usize)
}

/// The place without its leaf, where that passes the test.
fn without<P: Fn(&Leaf) -> bool>(place: Place, test: &P) -> Place
    requires { P.IsAlwaysCallable test.now }
    ensures without { (q : _) → IsTest (FnReturnsAt P.Fn test.now) q →
        place_of result ≡ place_without q (place_of place) }
    ensures thinned { IsSameOrHole (place_of place) (place_of result) }
    ensures same { is_vacant result ≡ false → result ≡ place }
{
    if place.is_hole() {
        return place;
    }
    if test(&place.leaf()) {
        return HOLE;
    }
    place
}

/// Makes a hole of each place whose leaf passes the test.
pub(crate) fn vacate_where<P: Fn(&Leaf) -> bool>(
    marks: &mut [u8; WIDEST],
    slots: &mut [Place; WIDEST],
    test: &P,
)
    requires test { P.IsAlwaysCallable test.now }
    requires marks { AreMarks marks.old slots.old }
    ensures purged { (q : _) → IsTest (FnReturnsAt P.Fn test.now) q →
        places_of slots.new ≡ map (place_without q) (places_of slots.old) }
    ensures thinned { AreThinned (places_of slots.old) (places_of slots.new) }
    ensures marks { AreMarks marks.new slots.new }
    ensures fewer { AreFewer marks.old marks.new }
{
    for at in 0..WIDEST {
        let place = without(slots[at], test);
        slots[at] = place;
        marks[at] = place.mark();
    }
}

/// Makes a hole of each place that has the tag of a name.
pub(crate) fn vacate_named(marks: &mut [u8; WIDEST], slots: &mut [Place; WIDEST], named: Place)
    requires marks { AreMarks marks.old slots.old }
    ensures purged { (space first : ℕ) (o : Order) → IsNamed space first o named →
        places_of slots.new ≡ map (place_without (is_leaf space first o)) (places_of slots.old) }
    ensures thinned { AreThinned (places_of slots.old) (places_of slots.new) }
    ensures marks { AreMarks marks.new slots.new }
    ensures fewer { AreFewer marks.old marks.new }
{
    for at in 0..WIDEST {
        if slots[at].has_tag(named) {
            slots[at] = HOLE;
            marks[at] = HOLE_MARK;
        }
    }
}
