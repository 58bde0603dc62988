//! A look and a fill of the arrays of all levels in turn, whatever they are.
//!
//! Taken where arrays have no other shape, where a larger leaf of a second array may answer, and at
//! a fill with a larger leaf.
//! The first array that serves the access and hits gives its leaf; of its level the others are
//! looked at for their counts, and on the way back the arrays of lower levels are filled.

ghost use Rattle.std.specs.Prelude.{◌≡◌, ◌<◌, ◌≤◌, ◌^◌, ◌+◌, suc, true, false, length, map, count_by, slice_set, slice_index_or, IfSome, IfNone};
ghost use Rattle.xl_model.specs.Base.{plus};
ghost use Rattle.xl_model.specs.Tally.{counted};
ghost use Rattle.xl_model.specs.Tlb.{asked, filled_for, takes_leaf};
ghost use Rattle.xl_array.specs.Hits.{hit_leaf, hit_touched, leaf_hit};
ghost use Rattle.xl_tlb.specs.Founds.{with_fill, is_filled, filled_by, replied_as};
ghost use Rattle.xl_tlb.specs.Requests.{IsRequest};
ghost use Rattle.xl_tlb.specs.Tlbs.{spec_of, bumped_where, IsFirstUpTo, IsRising, NoneBelow, hits_up_to, misses_up_to, replied_at, arrays_looked, hits_looked, misses_looked};

use xl_array::{AnyArray, Hit};
use xl_model::{Kind, Order};

/// An access of a kind that looks for a page of a space.
#[derive(Clone, Copy)]
pub(crate) struct Request {
    pub kind: Kind,
    pub space: u16,
    pub page: u64,
}

/// What a look found: a leaf, the level that hit, and how many arrays were filled.
#[derive(Clone, Copy)]
pub(crate) struct Found {
    pub word: u64,
    pub fills: u64,
    pub order: Order,
    pub level: u8,
}

/// Counts one more at the first place.
fn bump(counts: &mut [u64])
    requires { 0 < length counts.old }
    ensures { counts.new ≡ slice_set counts.old 0 (plus (slice_index_or counts.old 0 0) 1) }
{
    counts[0] = counts[0].wrapping_add(1);
}

/// Counts one more at the first place, if so.
fn bump_where(counted: bool, counts: &mut [u64])
    requires { 0 < length counts.old }
    ensures { counts.new ≡ bumped_where counted counts.old }
{
    if counted {
        bump(counts);
    }
}

/// Fills the array with the leaf that a higher level hit, where it serves the access. Returns what
/// was found, with that fill.
fn fill_below(array: &mut AnyArray, request: Request, found: Found) -> Found
    requires request { IsRequest request }
    requires fills { found.fills < 2 ^ 63 }
    ensures found { result ≡ with_fill
        (is_filled request.kind request.space request.page found array.old) found }
    ensures array { array.new ≡ filled_by request.kind request.space request.page found array.old }
{
    let hit = Hit {
        word: found.word,
        order: found.order,
    };
    let below = array.serves(request.kind) && array.level() < found.level;
    if below && array.fill_hit(request.space, request.page, hit) {
        Found {
            word: found.word,
            fills: found.fills + 1,
            order: found.order,
            level: found.level,
        }
    } else {
        found
    }
}

/// Whether the arrays are all of higher levels than this one.
#[inline]
fn is_above(arrays: &[AnyArray], level: u8) -> bool
    requires { IsRising (map spec_of arrays.now) }
    ensures above { result ≡ true → NoneBelow (suc level) (map spec_of arrays.now) }
    ensures some { result ≡ false → 0 < length arrays.now }
    ensures upto { result ≡ false → IsFirstUpTo level (map spec_of arrays.now) }
{
    let Some((first, _rest)) = arrays.split_first() else {
        return true;
    };
    first.level() > level
}

/// Counts a hit or a miss of each array of a level up to this one that serves the access.
fn count_level(
    arrays: &[AnyArray],
    request: Request,
    hits: &mut [u64],
    misses: &mut [u64],
    level: u8,
)
    requires request { IsRequest request }
    requires hits { length arrays.now ≤ length hits.old }
    requires misses { length arrays.now ≤ length misses.old }
    requires rising { IsRising (map spec_of arrays.now) }
    ensures hits { hits.new ≡ counted
        (hits_up_to request.kind level request.space request.page) arrays.now hits.old }
    ensures misses { misses.new ≡ counted
        (misses_up_to request.kind level request.space request.page) arrays.now misses.old }
{
    if is_above(arrays, level) {
        return;
    }
    let first = &arrays[0];
    if first.serves(request.kind) {
        if !first.is_empty() && first.hits(request.space, request.page) {
            bump(hits);
        } else {
            bump(misses);
        }
    }
    count_level(
        &arrays[1..],
        request,
        &mut hits[1..],
        &mut misses[1..],
        level,
    );
}

/// Looks for the page in an array that serves the access.
#[inline(always)]
fn look_served(array: &mut AnyArray, request: Request) -> Option<Hit>
    requires { IsRequest request }
    ensures found { hit_leaf request.space request.page result
        ≡ asked request.kind array.old request.space request.page }
    ensures some { IfSome result (λ hit.
        array.new ≡ hit_touched request.space request.page hit array.old) }
    ensures none { IfNone result (array.new ≡ array.old) }
{
    if !array.serves(request.kind) {
        return None;
    }
    array.look(request.space, request.page)
}

/// Looks at the arrays that serve the access in turn, touches the first that hits, and fills those
/// of lower levels.
pub(crate) fn look_in(
    arrays: &mut [AnyArray],
    request: Request,
    hits: &mut [u64],
    misses: &mut [u64],
) -> Option<Found>
    requires request { IsRequest request }
    requires hits { length arrays.old ≤ length hits.old }
    requires misses { length arrays.old ≤ length misses.old }
    requires rising { IsRising (map spec_of arrays.old) }
    ensures found { replied_as request.space request.page result
        ≡ replied_at request.kind request.space request.page arrays.old }
    ensures arrays { arrays.new
        ≡ arrays_looked request.kind request.space request.page arrays.old }
    ensures hits { hits.new
        ≡ hits_looked request.kind request.space request.page arrays.old hits.old }
    ensures misses { misses.new
        ≡ misses_looked request.kind request.space request.page arrays.old misses.old }
{
    let Some((first, rest)) = arrays.split_first_mut() else {
        return None;
    };
    let level = first.level();
    match look_served(first, request) {
        Some(hit) => {
            bump(hits);
            count_level(rest, request, &mut hits[1..], &mut misses[1..], level);
            Some(Found {
                word: hit.word,
                fills: 0,
                order: hit.order,
                level,
            })
        }
        None => {
            bump_where(first.serves(request.kind), misses);
            if rest.is_empty() {
                return None;
            }
            match look_in(rest, request, &mut hits[1..], &mut misses[1..]) {
                Some(found) => Some(fill_below(first, request, found)),
                None => None,
            }
        }
    }
}

/// Fills each array that serves the access and takes the order of a leaf that was hit elsewhere:
/// how many do.
#[tactic(auto, using(crate::proofs::TlbLemmas::count_first))]
pub(crate) fn fill_each(arrays: &mut [AnyArray], kind: Kind, space: u16, page: u64, hit: Hit) -> u64
    requires space { space < 64 }
    requires page { page < 2 ^ 52 }
    ensures fills { result ≡ count_by (takes_leaf kind (leaf_hit space page hit)) arrays.old }
    ensures arrays { arrays.new ≡ map (filled_for kind (leaf_hit space page hit)) arrays.old }
{
    let Some((first, rest)) = arrays.split_first_mut() else {
        return 0;
    };
    let others = if rest.is_empty() {
        0
    } else {
        fill_each(rest, kind, space, page, hit)
    };
    if first.serves(kind) && first.fill_hit(space, page, hit) {
        return others + 1;
    }
    others
}
