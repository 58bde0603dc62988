//! A leaf cut out of the maximal ranges of a treap.

ghost use Rattle.std.specs.Prelude.{◌≡◌, ◌<◌, ◌≤◌, ◌+◌, length, true, false, nat_le};
ghost use Rattle.std.specs.List.{list_any};
ghost use Rattle.xl_model.specs.Ranges.{range_key};
ghost use Rattle.xl_model.specs.Changes.{IsNamed};
ghost use Rattle.xl_list_lemmas.specs.Members.{In};
ghost use Rattle.xl_range.specs.HeldRanges.{IsHeld, IsLeafIn, some_if, spread, leaf_in as leaf_of, cut as cut_from};
ghost use Rattle.xl_range.specs.Cuts.{kept_cut, kept_following};
ghost use Rattle.xl_range.specs.Rows.{IsAt, HasLeaf};
ghost use Rattle.xl_treap.specs.Treaps.{keeping, IsApart, has_key, resized};

use xl_array::block_start;
use xl_model::{Leaf, Order, Range};
use xl_treap::Treap;

/// The leaf of a range that covers a page of it.
#[inline]
pub(crate) fn leaf_in(range: &Range, page: u64) -> Leaf
    requires { IsAt page range.now }
    ensures { result ≡ leaf_of page range.now }
{
    let skipped = block_start(range.order, page - range.start);
    Leaf {
        space: range.space,
        first: range.start + skipped,
        order: range.order,
        frame: range.frame + skipped,
        perm: range.perm,
    }
}

/// The range of a leaf that is there.
pub(crate) fn range_with(treap: &Treap, space: u16, first: u64, order: Order) -> Range
    requires held { IsHeld 0 treap.now.seen.kept }
    requires named { IsNamed space first order (spread treap.now.seen.kept) }
    ensures { HasLeaf space first order treap.now.seen.kept result }
{
    match treap.find(space, first) {
        Some(range) => range,
        None => unreachable!(),
    }
}

/// Keeps the first `before` pages of a held range, or none.
fn cut_before(treap: &mut Treap, range: &Range, before: u64)
    requires there { list_any (has_key (range_key range.now)) treap.old.seen.kept ≡ true }
    requires apart { 0 < before →
        IsApart 0 (resized (range_key range.now) before treap.old.seen.kept) }
    ensures { treap.new.seen ≡
        keeping treap.old.seen (kept_cut before (range_key range.now) treap.old.seen.kept) }
{
    if before == 0 {
        treap.remove(range.space, range.start);
    } else {
        treap.resize(range.space, range.start, before);
    }
}

/// Puts in what is left after a leaf, if that has pages.
fn put_rest(treap: &mut Treap, rest: Range, pages: u64)
    requires apart { IsApart 0 (kept_following pages rest treap.old.seen.kept) }
    requires room { length (kept_following pages rest treap.old.seen.kept) ≤
        treap.old.seen.nodes }
    ensures { treap.new.seen ≡
        keeping treap.old.seen (kept_following pages rest treap.old.seen.kept) }
{
    if pages == 0 {
        return;
    }
    match treap.insert(rest) {
        Ok(()) => (),
        Err(_) => unreachable!(),
    }
}

/// Cuts a leaf out of the range that has it.
pub(crate) fn cut(treap: &mut Treap, range: &Range, first: u64, order: Order)
    requires held { IsHeld 0 treap.old.seen.kept }
    requires there { In range.now treap.old.seen.kept }
    requires place { IsLeafIn range.now.space first order range.now }
    requires room { length (cut_from first order range.now treap.old.seen.kept) ≤
        treap.old.seen.nodes }
    ensures { treap.new.seen ≡
        keeping treap.old.seen (cut_from first order range.now treap.old.seen.kept) }
{
    let end = first + order.pages();
    let rest = Range {
        start: end,
        pages: range.start + range.pages - end,
        frame: range.frame + (end - range.start),
        ..*range
    };
    cut_before(treap, range, first - range.start);
    put_rest(treap, rest, rest.pages);
}

/// One piece, where it has pages.
fn one_if(pages: u64) -> u64
    ensures value { result ≡ some_if pages }
    ensures small { result ≤ 1 }
{
    if pages == 0 { 0 } else { 1 }
}

/// Whether cutting a leaf out stays within `ranges`, where `before` and `following` pages are left
/// on its sides.
fn has_room_without(ranges: u32, held: u32, before: u64, following: u64) -> bool
    ensures { result ≡ nat_le (held + (some_if before + some_if following)) (ranges + 1) }
{
    held as u64 + (one_if(before) + one_if(following)) <= ranges as u64 + 1
}

/// Cuts a leaf out of the range that has it, if that stays within `ranges`. Returns whether it did.
pub(crate) fn cut_within(
    treap: &mut Treap,
    range: &Range,
    first: u64,
    order: Order,
    ranges: u32,
) -> bool
    requires held { IsHeld 0 treap.old.seen.kept }
    requires there { In range.now treap.old.seen.kept }
    requires place { IsLeafIn range.now.space first order range.now }
    requires room { ranges ≤ treap.old.seen.nodes }
    ensures test { result ≡
        nat_le (length (cut_from first order range.now treap.old.seen.kept)) ranges }
    ensures made { result ≡ true → treap.new.seen ≡
        keeping treap.old.seen (cut_from first order range.now treap.old.seen.kept) }
    ensures same { result ≡ false → treap.new.seen ≡ treap.old.seen }
{
    let before = first - range.start;
    let following = range.start + range.pages - (first + order.pages());
    if !has_room_without(ranges, treap.len(), before, following) {
        return false;
    }
    cut(treap, range, first, order);
    true
}
