//! The work on slices.

ghost use Rattle.std.specs.Prelude.{true, false, ◌≡◌, ◌∷◌, ◌<◌, ◌≤◌, ◌+◌, ◌-◌, length, take, find, IfSome, IfNone};
ghost use Rattle.std.specs.List.{remove};
ghost use Rattle.std.specs.Fn.{FnReturnsAt};
ghost use Rattle.xl_model.specs.Recency.{purged};
ghost use Rattle.xl_recency.specs.Lists.{IsTest, IsFirst, AllFail, FailBefore, Touches, Fills};
ghost use Rattle.xl_recency.specs.Marks.{has_tag};

use crate::item::Item;

/// Puts the item in front, in place of the one at `at`. From the last place on: so no item is
/// carried, and LLVM makes one move of the loop: where the place is known when the program is
/// built, a few loads and stores.
#[inline(always)]
fn put_in_front<T: Copy>(items: &mut [T], at: usize, item: T)
    requires { at < length items.old }
    ensures { items.new ≡ item ∷ remove items.old at }
{
    let mut place = at;
    while place > 0 {
        items[place] = items[place - 1];
        place -= 1;
    }
    items[0] = item;
}

/// Puts the item in front of the first `width` slots, of which the last is lost. All of these slots
/// are moved, unused ones too, and of a short list in many slots sixteen: a move of a fixed length
/// costs less.
#[inline(always)]
fn put_within<const W: usize, T: Copy>(slots: &mut [T; W], width: usize, item: T)
    requires some { 0 < width }
    requires fits { width ≤ W }
    ensures { take width slots.new ≡ item ∷ take (width - 1) slots.old }
{
    if W > 16 && width <= 16 {
        put_in_front(slots, 15, item);
    } else {
        put_in_front(slots, width - 1, item);
    }
}

/// Puts the item in front of the first `len` slots, which hold a list of this width, and returns
/// the item evicted: `Some` where the list was full.
#[inline(always)]
pub(crate) fn fill_slots<const W: usize, T: Copy>(
    slots: &mut [T; W],
    len: &mut usize,
    width: usize,
    item: T,
) -> Option<T>
    requires some { 0 < width }
    requires fits { width ≤ W }
    requires few { len.old ≤ width }
    ensures filled { Fills width item (take len.old slots.old) (take len.new slots.new) result }
    ensures few { len.new ≤ width }
{
    let last = slots[width - 1];
    put_within(slots, width, item);
    if *len < width {
        *len += 1;
        return None;
    }
    Some(last)
}

/// The place of the first item that passes the test.
fn first_place<T, P: Fn(&T) -> bool>(items: &[T], test: &P) -> Option<usize>
    requires { P.IsAlwaysCallable test.now }
    ensures within { IfSome result (λ at. at < length items.now) }
    ensures some { IfSome result (IsFirst (FnReturnsAt P.Fn test.now) items.now) }
    ensures none { IfNone result (AllFail (FnReturnsAt P.Fn test.now) items.now) }
{
    for (i, item) in items.iter().enumerate() {
        if test(item) {
            return Some(i);
        }
    }
    None
}

/// The place of the first of the first `len` items that passes the test. Where there are few slots,
/// all of them are looked at, unused ones too: a loop of a fixed count costs less.
#[inline(always)]
pub(crate) fn place_of<const W: usize, T, P: Fn(&T) -> bool>(
    slots: &[T; W],
    len: usize,
    test: &P,
) -> Option<usize>
    requires fits { len ≤ W }
    requires test { P.IsAlwaysCallable test.now }
    ensures within { IfSome result (λ at. at < len) }
    ensures some { IfSome result (IsFirst (FnReturnsAt P.Fn test.now) (take len slots.now)) }
    ensures none { IfNone result (AllFail (FnReturnsAt P.Fn test.now) (take len slots.now)) }
{
    let end = if W <= 8 { W } else { len };
    match first_place(&slots[..end], test) {
        Some(at) if at < len => Some(at),
        _ => None,
    }
}

/// Moves the items that fail the test to the front, in order: how many there are.
pub(crate) fn keep_failing<T: Copy, P: Fn(&T) -> bool>(items: &mut [T], test: &P) -> usize
    requires { P.IsAlwaysCallable test.now }
    ensures within { result ≤ length items.old }
    ensures kept { (q : _) → IsTest (FnReturnsAt P.Fn test.now) q → take result items.new ≡
        purged q items.old }
{
    let mut kept = 0;
    for i in 0..items.len() {
        let item = items[i];
        if !test(&item) {
            items[kept] = item;
            kept += 1;
        }
    }
    kept
}

/// Moves the item at `at`, the first that passes the test, to the front. At place 0 nothing moves.
fn touch_at<T: Copy, P: Fn(&T) -> bool>(
    items: &mut [T],
    place: Option<usize>,
    _test: &P,
) -> Option<T>
    requires within { IfSome place (λ at. at < length items.old) }
    requires some { IfSome place (IsFirst (FnReturnsAt P.Fn _test.now) items.old) }
    requires none { IfNone place (AllFail (FnReturnsAt P.Fn _test.now) items.old) }
    ensures { (q : _) → IsTest (FnReturnsAt P.Fn _test.now) q →
        Touches q items.old items.new result }
{
    match place {
        Some(at) => {
            let item = items[at];
            if at == 0 {
                return Some(item);
            }
            put_in_front(items, at, item);
            Some(item)
        }
        None => None,
    }
}

/// Whether the item at this place passes the test, where none before it does.
#[inline(always)]
fn is_first_at<const W: usize, T, P: Fn(&T) -> bool>(slots: &[T; W], at: usize, test: &P) -> bool
    requires test { P.IsAlwaysCallable test.now }
    requires before { FailBefore (FnReturnsAt P.Fn test.now) slots.now at }
    ensures within { result ≡ true → at < W }
    ensures yes { result ≡ true → IsFirst (FnReturnsAt P.Fn test.now) slots.now at }
    ensures no { result ≡ false → FailBefore (FnReturnsAt P.Fn test.now) slots.now (at + 1) }
{
    at < W && test(&slots[at])
}

/// Moves the item at this place, the first that passes the test, to the front, if it is one of the
/// first `len` slots.
#[inline(always)]
fn bring_at<const W: usize, T: Copy, P: Fn(&T) -> bool>(
    slots: &mut [T; W],
    len: usize,
    at: usize,
    _test: &P,
) -> Option<T>
    requires fits { len ≤ W }
    requires within { at < W }
    requires first { IsFirst (FnReturnsAt P.Fn _test.now) slots.old at }
    ensures { (q : _) → IsTest (FnReturnsAt P.Fn _test.now) q →
        Touches q (take len slots.old) (take len slots.new) result }
{
    if at >= len {
        return None;
    }
    let item = slots[at];
    put_in_front(&mut slots[..len], at, item);
    Some(item)
}

/// Unrolled search; one return per slot (LLVM merges the exits of a loop, and would test again at
/// each item that it moves).
macro_rules! ways_out {
    ($slots:ident $len:ident $test:ident: $($at:literal)*) => {
        $(
            if is_first_at($slots, $at, $test) {
                return bring_at($slots, $len, $at, $test);
            }
        )*
    };
}

/// Moves the first of the first `len` items that passes the test to the front, where there are at
/// most sixteen. Eight or sixteen slots are looked at, unused ones too, four in each function,
/// since eight ways out of one are dear to prove. Those past the eighth are out of line, so that
/// lists of few slots stay small enough to be inlined.
#[inline(always)]
fn touch_first<const W: usize, T: Copy, P: Fn(&T) -> bool>(
    slots: &mut [T; W],
    len: usize,
    test: &P,
) -> Option<T>
    requires few { len ≤ 16 }
    requires fits { len ≤ W }
    requires test { P.IsAlwaysCallable test.now }
    ensures { (q : _) → IsTest (FnReturnsAt P.Fn test.now) q →
        Touches q (take len slots.old) (take len slots.new) result }
{
    ways_out!(slots len test: 0 1 2 3);
    touch_from_4(slots, len, test)
}

/// Like `touch_first`, where none of the first four slots passes the test.
#[inline(always)]
fn touch_from_4<const W: usize, T: Copy, P: Fn(&T) -> bool>(
    slots: &mut [T; W],
    len: usize,
    test: &P,
) -> Option<T>
    requires few { len ≤ 16 }
    requires fits { len ≤ W }
    requires test { P.IsAlwaysCallable test.now }
    requires before { FailBefore (FnReturnsAt P.Fn test.now) slots.old 4 }
    ensures { (q : _) → IsTest (FnReturnsAt P.Fn test.now) q →
        Touches q (take len slots.old) (take len slots.new) result }
{
    ways_out!(slots len test: 4 5 6 7);
    if W <= 8 || (W > 16 && len <= 8) {
        return None;
    }
    touch_from_8(slots, len, test)
}

/// Like `touch_first`, where none of the first eight slots passes the test.
#[inline]
fn touch_from_8<const W: usize, T: Copy, P: Fn(&T) -> bool>(
    slots: &mut [T; W],
    len: usize,
    test: &P,
) -> Option<T>
    requires few { len ≤ 16 }
    requires fits { len ≤ W }
    requires test { P.IsAlwaysCallable test.now }
    requires before { FailBefore (FnReturnsAt P.Fn test.now) slots.old 8 }
    ensures { (q : _) → IsTest (FnReturnsAt P.Fn test.now) q →
        Touches q (take len slots.old) (take len slots.new) result }
{
    ways_out!(slots len test: 8 9 10 11);
    touch_from_12(slots, len, test)
}

/// Like `touch_first`, where none of the first twelve slots passes the test.
#[inline(always)]
fn touch_from_12<const W: usize, T: Copy, P: Fn(&T) -> bool>(
    slots: &mut [T; W],
    len: usize,
    test: &P,
) -> Option<T>
    requires few { len ≤ 16 }
    requires fits { len ≤ W }
    requires test { P.IsAlwaysCallable test.now }
    requires before { FailBefore (FnReturnsAt P.Fn test.now) slots.old 12 }
    ensures { (q : _) → IsTest (FnReturnsAt P.Fn test.now) q →
        Touches q (take len slots.old) (take len slots.new) result }
{
    ways_out!(slots len test: 12 13 14 15);
    None
}

/// Moves the first of the first `len` items that passes the test to the front.
#[inline(always)]
pub(crate) fn touch_slots<const W: usize, T: Copy, P: Fn(&T) -> bool>(
    slots: &mut [T; W],
    len: usize,
    test: &P,
) -> Option<T>
    requires fits { len ≤ W }
    requires test { P.IsAlwaysCallable test.now }
    ensures { (q : _) → IsTest (FnReturnsAt P.Fn test.now) q →
        Touches q (take len slots.old) (take len slots.new) result }
{
    if W <= 16 || len <= 16 {
        return touch_first(slots, len, test);
    }
    let place = place_of(slots, len, test);
    touch_at(&mut slots[..len], place, test)
}

/// Puts one of the first two items in front, by the same loads and stores whichever it is.
#[inline(always)]
fn put_of_two_in_front<T: Copy>(items: &mut [T], at: usize, newest: T)
    requires pair { at < 2 }
    requires two { 2 ≤ length items.old }
    ensures { items.new ≡ newest ∷ remove items.old at }
{
    items[1] = items[1 - at];
    items[0] = newest;
}

/// Moves the first of the first `len` items with the tag to the front, where mostly that is one of
/// the two newest. Which of them can't be predicted, so there is no branch between these two.
#[inline(always)]
pub(crate) fn touch_near<const W: usize>(
    slots: &mut [Item; W],
    len: usize,
    tag: u64,
) -> Option<Item>
    requires { len ≤ W }
    ensures { Touches (has_tag tag) (take len slots.old) (take len slots.new) result }
{
    if W >= 2 {
        let at = (slots[0].tag != tag) as usize;
        let item = slots[at];
        if item.tag == tag {
            if len <= at {
                return None;
            }
            put_of_two_in_front(slots, at, item);
            return Some(item);
        }
    }
    touch_slots(slots, len, &|item: &Item| item.tag == tag)
}

/// The first item that passes the test, where its place is known.
pub(crate) fn item_at<T: Copy, P: Fn(&T) -> bool>(
    items: &[T],
    place: Option<usize>,
    _test: &P,
) -> Option<T>
    requires within { IfSome place (λ at. at < length items.now) }
    requires some { IfSome place (IsFirst (FnReturnsAt P.Fn _test.now) items.now) }
    requires none { IfNone place (AllFail (FnReturnsAt P.Fn _test.now) items.now) }
    ensures { (q : _) → IsTest (FnReturnsAt P.Fn _test.now) q → result ≡ find q items.now }
{
    match place {
        Some(at) => Some(items[at]),
        None => None,
    }
}
