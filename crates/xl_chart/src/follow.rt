//! What a curve does at an event of its row.

ghost use Rattle.std.specs.Prelude.{◌≡◌, IfSome};
ghost use Rattle.xl_chart.specs.Follows.{followed, page_reach};
ghost use Rattle.xl_array.specs.Arrays.{IsFit};
ghost use Rattle.xl_curve_model.specs.CurveRun.{curve_looked_where};

use xl_curve::Curve;
use xl_model::{Event, Leaf, Mode, Purge, Reach, Scope, page_of};

/// Looks for the leaf of an access, where its address is canonical.
#[inline(always)]
pub(crate) fn look(curve: &mut Curve, canonical: bool, leaf: Option<Leaf>)
    requires { IfSome leaf IsFit }
    ensures { curve.new ≡ curve_looked_where canonical leaf curve.old }
{
    if !canonical {
        return;
    }
    match leaf {
        Some(leaf) => curve.access(leaf),
        None => curve.absent(),
    }
}

/// What a fence reaches, by page.
fn reach_of(mode: Mode, scope: Scope) -> Reach
    ensures { result ≡ page_reach mode scope }
{
    match scope {
        Scope::All => Reach::All,
        Scope::Space { space } => Reach::Space { space },
        Scope::Addr { va } => Reach::Addr {
            page: page_of(mode, va),
        },
        Scope::Page { space, va } => Reach::Page {
            space,
            page: page_of(mode, va),
        },
    }
}

/// Removes what a command takes that is done.
pub(crate) fn follow(curve: &mut Curve, purge: Purge, mode: Mode, event: Event)
    ensures { curve.new ≡ followed purge mode event curve.old }
{
    match event {
        Event::Unmap { space, va, order } => curve.purge(purge, space, page_of(mode, va), order),
        Event::Protect {
            space,
            va,
            order,
            ..
        } => { curve.purge(purge, space, page_of(mode, va), order) }
        Event::Move {
            space,
            from,
            order,
            ..
        } => { curve.purge(purge, space, page_of(mode, from), order) }
        Event::Fence { scope } => curve.fence(reach_of(mode, scope)),
        _ => {}
    }
}
