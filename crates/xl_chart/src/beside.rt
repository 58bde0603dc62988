//! A machine and a curve that are served together.

ghost use Rattle.std.specs.Prelude.{◌≡◌};
ghost use Rattle.xl_machine.specs.Served.{after_of};
ghost use Rattle.xl_curve_model.specs.CurveRun.{curve_after};
ghost use Rattle.xl_model.specs.RowRun.{outcome_of};
ghost use Rattle.xl_model.specs.declared.event.Event.TheVariants.{Access};
ghost use Rattle.xl_model.specs.declared.event.Outcome.TheVariants.{Replied};

use crate::follow::{follow, look};
use xl_curve::Curve;
use xl_machine::Machine;
use xl_model::{Event, Kind, Outcome, Reply, Structure};

/// Serves an access by a machine, and the curve looks for its leaf: mostly that of the machine's
/// own walk.
#[inline(always)]
pub(crate) fn access_both<S: Structure>(
    machine: &mut Machine<S>,
    curve: &mut Curve,
    va: u64,
    kind: Kind,
) -> Reply
    ensures outcome { Replied result
        ≡ outcome_of machine.old.row (Access va kind) machine.old.state }
    ensures machine { machine.new ≡ after_of (Access va kind) machine.old }
    ensures curve { curve.new
        ≡ curve_after machine.old.row (Access va kind) machine.old.state curve.old }
{
    let space = machine.space();
    let page = machine.page_of(va);
    if let Some(word) = machine.access_found::<true>(va, kind) {
        curve.access_small(space, page, word);
        return Reply::Frame(word / 16);
    }
    look(curve, machine.is_canonical(va), machine.covering(va));
    machine.access(va, kind)
}

/// Serves an event by a machine, and the curve follows it.
pub fn step_beside<S: Structure>(
    machine: &mut Machine<S>,
    curve: &mut Curve,
    event: Event,
) -> Outcome
    ensures outcome { result ≡ outcome_of machine.old.row event machine.old.state }
    ensures machine { machine.new ≡ after_of event machine.old }
    ensures curve { curve.new ≡ curve_after machine.old.row event machine.old.state curve.old }
{
    if let Event::Access { va, kind } = event {
        return Outcome::Replied(access_both(machine, curve, va, kind));
    }
    let outcome = machine.step(event);
    if let Outcome::Done = outcome {
        follow(curve, machine.row().purge, machine.row().mode, event);
    }
    outcome
}
