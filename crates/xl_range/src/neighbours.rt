//! A range put among the maximal ranges of a treap.

ghost use Rattle.std.specs.Prelude.{◌≡◌, ◌<◌, ◌≤◌, ◌^◌, ◌+◌, length, true, false, nat_le, ◌==◌};
ghost use Rattle.xl_model.specs.Ranges.{range_of_leaf, same_perm};
ghost use Rattle.xl_range.specs.HeldRanges.{touches as are_touching, IsRange, IsHeld, IsClear, join};
ghost use Rattle.xl_range.specs.Puts.{next_where, prev_where, range_taken, kept_taken, kept_put, put_by, one_if, IsThere, pages_with};
ghost use Rattle.xl_treap.specs.Treaps.{keeping, IsApart};

use xl_model::{Leaf, Perm, Range};
use xl_treap::Treap;

/// The range of one leaf.
fn range_of(leaf: Leaf) -> Range
    ensures { result ≡ range_of_leaf leaf }
{
    Range {
        space: leaf.space,
        start: leaf.first,
        pages: leaf.order.pages(),
        frame: leaf.frame,
        order: leaf.order,
        perm: leaf.perm,
    }
}

fn same(a: Perm, b: Perm) -> bool
    ensures { result ≡ same_perm a b }
{
    a.r == b.r && a.w == b.w && a.x == b.x && a.u == b.u
}

/// Whether `sum` is `from` and `more` together.
fn is_sum(sum: u64, from: u64, more: u64) -> bool
    ensures { result ≡ (from + more == sum) }
{
    from <= sum && sum - from == more
}

/// Whether the range ends, in pages and in frames, where another of its kind begins.
fn touches(range: &Range, next: &Range) -> bool
    ensures { result ≡ are_touching range.now next.now }
{
    range.space == next.space
        && range.order.level() == next.order.level()
        && same(range.perm, next.perm)
        && is_sum(next.start, range.start, range.pages)
        && is_sum(next.frame, range.frame, range.pages)
}

/// The range after this one, if it begins where this one ends.
fn next_of(range: &Range, from: Option<Range>) -> Option<Range>
    ensures { result ≡ next_where from range.now }
{
    match from {
        Some(next) => {
            if touches(range, &next) {
                Some(next)
            } else {
                None
            }
        }
        None => None,
    }
}

/// The range before this one, if it ends where this one begins.
fn prev_of(range: &Range, before: Option<Range>) -> Option<Range>
    ensures { result ≡ prev_where before range.now }
{
    match before {
        Some(prev) => {
            if touches(&prev, range) {
                Some(prev)
            } else {
                None
            }
        }
        None => None,
    }
}

/// Takes the next range out, and returns the range with its pages.
fn take_next(treap: &mut Treap, range: Range, next: Option<Range>) -> Range
    requires there { IsThere next treap.old.seen.kept }
    requires small { pages_with next range < 2 ^ 64 }
    ensures range { result ≡ range_taken next range }
    ensures kept { treap.new.seen ≡
        keeping treap.old.seen (kept_taken next treap.old.seen.kept) }
{
    match next {
        Some(next) => {
            treap.remove(next.space, next.start);
            Range {
                pages: range.pages + next.pages,
                ..range
            }
        }
        None => range,
    }
}

/// Adds the range's pages to the range before it, or puts the range in.
fn put_following(treap: &mut Treap, range: Range, prev: Option<Range>)
    requires there { IsThere prev treap.old.seen.kept }
    requires small { pages_with prev range < 2 ^ 64 }
    requires apart { IsApart 0 (kept_put prev range treap.old.seen.kept) }
    requires room { length (kept_put prev range treap.old.seen.kept) ≤ treap.old.seen.nodes }
    ensures { treap.new.seen ≡
        keeping treap.old.seen (kept_put prev range treap.old.seen.kept) }
{
    match prev {
        Some(prev) => treap.resize(prev.space, prev.start, prev.pages + range.pages),
        None => match treap.insert(range) {
            Ok(()) => (),
            Err(_) => unreachable!(),
        },
    }
}

/// Puts a range among its neighbours.
fn put(treap: &mut Treap, range: Range, next: Option<Range>, prev: Option<Range>)
    requires next_there { IsThere next treap.old.seen.kept }
    requires prev_there { IsThere prev (kept_taken next treap.old.seen.kept) }
    requires next_small { pages_with next range < 2 ^ 64 }
    requires prev_small { pages_with prev (range_taken next range) < 2 ^ 64 }
    requires apart { IsApart 0 (put_by next prev range treap.old.seen.kept) }
    requires room { length (put_by next prev range treap.old.seen.kept) ≤
        treap.old.seen.nodes }
    ensures { treap.new.seen ≡
        keeping treap.old.seen (put_by next prev range treap.old.seen.kept) }
{
    let range = take_next(treap, range, next);
    put_following(treap, range, prev);
}

/// Whether adding and merging stays within `ranges`.
fn has_room(ranges: u32, held: u32, next: &Option<Range>, prev: &Option<Range>) -> bool
    ensures { result ≡ nat_le (held + 1) (ranges + (one_if next.now + one_if prev.now)) }
{
    let joined = next.is_some() as u64 + prev.is_some() as u64;
    held as u64 + 1 <= ranges as u64 + joined
}

/// Puts a leaf's range in, joined with those that it touches, if that stays within `ranges`.
/// Returns whether it did.
pub(crate) fn put_within(treap: &mut Treap, leaf: Leaf, ranges: u32) -> bool
    requires range { IsRange (range_of_leaf leaf) }
    requires held { IsHeld 0 treap.old.seen.kept }
    requires clear { IsClear (range_of_leaf leaf) treap.old.seen.kept }
    requires room { ranges ≤ treap.old.seen.nodes }
    ensures test { result ≡
        nat_le (length (join (range_of_leaf leaf) treap.old.seen.kept)) ranges }
    ensures made { result ≡ true → treap.new.seen ≡
        keeping treap.old.seen (join (range_of_leaf leaf) treap.old.seen.kept) }
    ensures same { result ≡ false → treap.new.seen ≡ treap.old.seen }
{
    let range = range_of(leaf);
    let found = treap.beside(range.space, range.start);
    let next = next_of(&range, found.from);
    let prev = prev_of(&range, found.before);
    if !has_room(ranges, treap.len(), &next, &prev) {
        return false;
    }
    put(treap, range, next, prev);
    true
}
