//! The accesses of a reference.

ghost use Rattle.std.specs.Prelude.{IsTrue, ◌↔◌, ◌≡◌, ℕ, ◌+◌, ◌*◌, ◌/◌, ◌^◌, ◌<◌, ◌≤◌, [], ◌∷◌, length, slice_get, IfSome, IfNone};
ghost use Rattle.xl_lackey.specs.Accesses.{borders as borders_of, places, each, accesses};

use crate::reference::{Letter, Reference};
use xl_model::Kind;

/// The bytes of a page.
const PAGE: u64 = 4096;

/// The access of this number, from 0, and its kind; None where there are no more.
///
/// A reference is one access for each 4 KiB page that it touches, in rising order: the first at its
/// address, the others at their page's start. A modify is all its loads, and then all its stores.
#[inline(always)]
pub fn nth_access(reference: &Reference, i: u32) -> Option<(u64, Kind)>
    ensures { result ≡ slice_get (accesses reference.now) i }
{
    match reference.letter {
        Letter::I => access(reference, Kind::Fetch, i),
        Letter::L => access(reference, Kind::Load, i),
        Letter::S => access(reference, Kind::Store, i),
        Letter::M => {
            let pages = borders(reference) + 1;
            if i < pages {
                access(reference, Kind::Load, i)
            } else {
                access(reference, Kind::Store, i - pages)
            }
        }
    }
}

/// The access of a reference that is one access alone, as nearly all are; None where it is several.
pub fn sole_access(reference: &Reference) -> Option<(u64, Kind)>
    ensures one { IfSome result (λ access. accesses reference.now ≡ access ∷ []) }
    ensures several { IfNone result (1 < length (accesses reference.now)) }
{
    let kind = match reference.letter {
        Letter::I => Kind::Fetch,
        Letter::L => Kind::Load,
        Letter::S => Kind::Store,
        Letter::M => return None,
    };
    if is_within_page(reference) {
        Some((reference.addr, kind))
    } else {
        None
    }
}

/// Whether so few bytes above the first one lie in its page.
#[inline(always)]
pub(crate) fn stays_in_page(addr: u64, above: u32) -> bool
    requires { above < 100 }
    ensures { IsTrue result → borders_of addr (above + 1) ≡ 0 }
{
    addr.wrapping_add(above as u64) / PAGE == addr / PAGE
}

/// Whether all bytes touched lie in one page.
fn is_within_page(reference: &Reference) -> bool
    ensures { IsTrue result ↔ (borders_of reference.now.addr reference.now.size ≡ 0) }
{
    reference.addr % PAGE + reference.size.max(1) as u64 <= PAGE
}

/// The access of this number in one going over the pages touched.
#[inline(always)]
fn access(reference: &Reference, kind: Kind, i: u32) -> Option<(u64, Kind)>
    ensures { result ≡ slice_get (each kind (places reference.now.addr reference.now.size)) i }
{
    if i == 0 {
        Some((reference.addr, kind))
    } else if i <= borders(reference) {
        Some(((reference.addr / PAGE + i as u64) * PAGE, kind))
    } else {
        None
    }
}

/// How many page borders lie between the first byte touched and the last.
fn borders(reference: &Reference) -> u32
    ensures value { result ≡ borders_of reference.now.addr reference.now.size }
    ensures few { result ≤ 16 }
    ensures reach { (reference.now.addr / 4096 + result) * 4096 < 2 ^ 64 }
{
    let last = reference.addr + (reference.size.max(1) as u64 - 1);
    (last / PAGE - reference.addr / PAGE) as u32
}
