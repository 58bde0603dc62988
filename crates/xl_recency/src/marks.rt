//! The work on marks and on the order of slots.

ghost use Rattle.std.specs.Prelude.{◌≡◌, ◌≢◌, ℕ, ◌∷◌, ◌<◌, ◌≤◌, true, false, length, map, take, find, slice_index_or, IfSome, IfNone, ◌-◌, ◌+◌};
ghost use Rattle.std.specs.List.{remove};
ghost use Rattle.std.specs.Fn.{FnReturnsAt};
ghost use Rattle.xl_model.specs.Recency.{purged};
ghost use Rattle.xl_recency.specs.Lists.{AllFail, IsTest, Touches, Fills};
ghost use Rattle.xl_recency.specs.Marks.{AreMarked, AreSlots, has_tag, in_order, IsFirstTag, item_in, item_mark, LacksTag, mark_of as mark_of_tag};

use crate::item::{BLANK, Item};
use crate::kernel::keep_failing;

/// The mark of a tag, by a shift and a sum: of tags that count pages, and spaces below them, those
/// near one another have different marks.
#[inline(always)]
pub(crate) fn mark_of(tag: u64) -> u8
    ensures { result ≡ mark_of_tag tag }
{
    ((tag / 64 % 256 + tag % 256) % 256) as u8
}

/// The first place from `from` on that has the mark, or 255 where none has. All are looked at: a
/// loop without a way out is done sixteen places at a time, if it compares bytes alone; so places
/// are compared by the highest bit of their difference.
#[inline(always)]
fn next_marked<const W: usize>(marks: &[u8; W], mark: u8, from: u8) -> u8
    requires width { W ≤ 64 }
    requires from { from ≤ 64 }
    ensures passed { (k : ℕ) → k < W → from ≤ k → k < result →
        slice_index_or marks.now k 0 ≢ mark }
    ensures within { from ≤ result }
{
    let mut first: u8 = 255;
    for place in 0..W as u8 {
        let here = if marks[place as usize] == mark && place.wrapping_sub(from) < 128 {
            place
        } else {
            255
        };
        first = if here < first { here } else { first };
    }
    first
}

/// Puts a byte in front, in place of the one at `at`. All places are written, sixteen at a time.
#[inline(always)]
fn put_byte_in_front<const W: usize>(bytes: &mut [u8; W], at: u8, byte: u8)
    requires width { W ≤ 64 }
    requires at { at < W }
    ensures { bytes.new ≡ byte ∷ remove bytes.old at }
{
    let after = at + 1;
    let mut carried = byte;
    for place in 0..W as u8 {
        let here = bytes[place as usize];
        bytes[place as usize] = if place.wrapping_sub(after) >= 128 {
            carried
        } else {
            here
        };
        carried = here;
    }
}

/// Each slot in the place of its number.
pub(crate) fn slots_in_turn<const W: usize>() -> [u8; W]
    requires { W ≤ 64 }
    ensures slots { AreSlots W result }
    ensures each { (k : ℕ) → k < W → slice_index_or result k 0 ≡ k }
{
    let mut slots = [0; W];
    for slot in 0..W as u8 {
        slots[slot as usize] = slot;
    }
    slots
}

/// The marks of items.
pub(crate) fn marks_of<const W: usize>(items: &[Item; W]) -> [u8; W]
    ensures { result ≡ map item_mark items.now }
{
    let mut marks = [0; W];
    for at in 0..W {
        marks[at] = mark_of(items[at].tag);
    }
    marks
}

/// The first of the first `len` places whose item has the tag. Marks tell most of the items apart.
#[inline(always)]
pub(crate) fn place_of_tag<const W: usize>(
    marks: &[u8; W],
    slots: &[u8; W],
    items: &[Item; W],
    len: usize,
    tag: u64,
) -> Option<u8>
    requires width { W ≤ 64 }
    requires fits { len ≤ W }
    requires kept { AreMarked W marks.now slots.now items.now }
    ensures within { IfSome result (λ at. at < len) }
    ensures some { IfSome result (λ at. IsFirstTag tag at (take len (in_order items.now slots.now))) }
    ensures none { IfNone result (LacksTag tag (take len (in_order items.now slots.now))) }
{
    let mark = mark_of(tag);
    let mut place = next_marked(marks, mark, 0);
    'marked: while (place as usize) < len {
        let slot = slots[place as usize];
        if items[slot as usize].tag == tag {
            return Some(place);
        }
        place = next_marked(marks, mark, place + 1);
    }
    None
}

/// Brings the item at this place to the front.
#[inline(always)]
fn bring_place<const W: usize>(
    marks: &mut [u8; W],
    slots: &mut [u8; W],
    _items: &[Item; W],
    at: u8,
) -> usize
    requires width { W ≤ 64 }
    requires at { at < W }
    requires kept { AreMarked W marks.old slots.old _items.now }
    ensures slot { result < W }
    ensures item { item_in _items.now result ≡ item_in (in_order _items.now slots.old) at }
    ensures front { in_order _items.now slots.new ≡ item_in (in_order _items.now slots.old) at
        ∷ remove (in_order _items.now slots.old) at }
    ensures kept { AreMarked W marks.new slots.new _items.now }
{
    let mark = marks[at as usize];
    let slot = slots[at as usize];
    put_byte_in_front(marks, at, mark);
    put_byte_in_front(slots, at, slot);
    slot as usize
}

/// Moves the newest of the first `len` items that has the tag to the front.
#[inline(always)]
pub(crate) fn touch_tag<const W: usize>(
    marks: &mut [u8; W],
    slots: &mut [u8; W],
    items: &[Item; W],
    len: usize,
    tag: u64,
) -> Option<Item>
    requires width { W ≤ 64 }
    requires fits { len ≤ W }
    requires kept { AreMarked W marks.old slots.old items.now }
    ensures touched { Touches (has_tag tag) (take len (in_order items.now slots.old))
        (take len (in_order items.now slots.new)) result }
    ensures kept { AreMarked W marks.new slots.new items.now }
{
    match place_of_tag(marks, slots, items, len, tag) {
        Some(place) => {
            let slot = bring_place(marks, slots, items, place);
            Some(items[slot])
        }
        None => None,
    }
}

/// The newest of the first `len` items that has the tag.
pub(crate) fn find_tag<const W: usize>(
    marks: &[u8; W],
    slots: &[u8; W],
    items: &[Item; W],
    len: usize,
    tag: u64,
) -> Option<Item>
    requires width { W ≤ 64 }
    requires fits { len ≤ W }
    requires kept { AreMarked W marks.now slots.now items.now }
    ensures { result ≡ find (has_tag tag) (take len (in_order items.now slots.now)) }
{
    match place_of_tag(marks, slots, items, len, tag) {
        Some(place) => Some(items[slots[place as usize] as usize]),
        None => None,
    }
}

/// Puts the item in front, in the slot of the last place, whose item is lost. Gives that item.
#[inline(always)]
fn put_item_in_front<const W: usize>(
    marks: &mut [u8; W],
    slots: &mut [u8; W],
    items: &mut [Item; W],
    item: Item,
) -> Item
    requires some { 0 < W }
    requires width { W ≤ 64 }
    requires kept { AreMarked W marks.old slots.old items.old }
    ensures last { result ≡ item_in (in_order items.old slots.old) (W - 1) }
    ensures front { in_order items.new slots.new ≡ item
        ∷ remove (in_order items.old slots.old) (W - 1) }
    ensures kept { AreMarked W marks.new slots.new items.new }
{
    let last = W as u8 - 1;
    let slot = slots[last as usize];
    let left = items[slot as usize];
    put_byte_in_front(marks, last, mark_of(item.tag));
    put_byte_in_front(slots, last, slot);
    items[slot as usize] = item;
    left
}

/// Puts the item in front of the first `len`, and returns the item evicted: `Some` where the list
/// was full.
#[inline(always)]
pub(crate) fn fill_item<const W: usize>(
    marks: &mut [u8; W],
    slots: &mut [u8; W],
    items: &mut [Item; W],
    len: &mut usize,
    item: Item,
) -> Option<Item>
    requires some { 0 < W }
    requires width { W ≤ 64 }
    requires few { len.old ≤ W }
    requires kept { AreMarked W marks.old slots.old items.old }
    ensures filled { Fills W item (take len.old (in_order items.old slots.old))
        (take len.new (in_order items.new slots.new)) result }
    ensures few { len.new ≤ W }
    ensures kept { AreMarked W marks.new slots.new items.new }
{
    let left = put_item_in_front(marks, slots, items, item);
    if *len < W {
        *len += 1;
        return None;
    }
    Some(left)
}

/// Whether one of the first `len` items passes the test.
pub(crate) fn any_passes<const W: usize, P: Fn(&Item) -> bool>(
    slots: &[u8; W],
    items: &[Item; W],
    len: usize,
    test: &P,
) -> bool
    requires fits { len ≤ W }
    requires test { P.IsAlwaysCallable test.now }
    requires slots { AreSlots W slots.now }
    ensures { result ≡ false → AllFail (FnReturnsAt P.Fn test.now)
        (take len (in_order items.now slots.now)) }
{
    for place in 0..len {
        let item = items[slots[place] as usize];
        if test(&item) {
            return true;
        }
    }
    false
}

/// The items in the order of their slots.
fn items_in_order<const W: usize>(slots: &[u8; W], items: &[Item; W]) -> [Item; W]
    requires { AreSlots W slots.now }
    ensures { result ≡ in_order items.now slots.now }
{
    let mut ordered = [BLANK; W];
    for at in 0..W {
        ordered[at] = items[slots[at] as usize];
    }
    ordered
}

/// Keeps the first `len` items that fail the test, in order: how many there are.
pub(crate) fn keep_items<const W: usize, P: Fn(&Item) -> bool>(
    marks: &mut [u8; W],
    slots: &mut [u8; W],
    items: &mut [Item; W],
    len: usize,
    test: &P,
) -> usize
    requires width { W ≤ 64 }
    requires fits { len ≤ W }
    requires test { P.IsAlwaysCallable test.now }
    requires kept { AreMarked W marks.old slots.old items.old }
    ensures within { result ≤ len }
    ensures purged { (q : _) → IsTest (FnReturnsAt P.Fn test.now) q →
        take result (in_order items.new slots.new) ≡ purged q
        (take len (in_order items.old slots.old)) }
    ensures count { len - result + length (take result (in_order items.new slots.new))
        ≡ length (take len (in_order items.old slots.old)) }
    ensures kept { AreMarked W marks.new slots.new items.new }
{
    let mut ordered = items_in_order(slots, items);
    let count = keep_failing(&mut ordered[..len], test);
    *marks = marks_of(&ordered);
    *slots = slots_in_turn();
    *items = ordered;
    count
}
