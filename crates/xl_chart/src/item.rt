//! An item that a machine and a curve are served together.

ghost use Rattle.std.specs.Prelude.{◌≡◌};
ghost use Rattle.xl_chart.specs.Charts.{IsServedBeside, charted_access, curve_item, wanted_by};
ghost use Rattle.xl_curve_model.specs.CurveRun.{charted_again, charted_demand};
ghost use Rattle.xl_model.specs.Items.{area_for};
ghost use Rattle.xl_model.specs.Scenes.{served_after};

use crate::beside::{access_both, step_beside};
use xl_areas::{Areas, map_for};
use xl_curve::Curve;
use xl_machine::Machine;
use xl_model::{Area, Event, Item, Kind, Outcome, Reply, Structure};

/// Serves an access once more where a map was done.
fn again_beside<S: Structure>(
    machine: &mut Machine<S>,
    curve: &mut Curve,
    outcome: Outcome,
    access: Event,
)
    ensures { IsServedBeside (λ row. charted_again outcome row access)
        machine.old curve.old machine.new curve.new }
{
    match outcome {
        Outcome::Done => {
            step_beside(machine, curve, access);
        }
        _ => {}
    }
}

/// Serves the map that an area demands, where one does, and where it is done the access once more.
fn demand_beside<S: Structure>(
    machine: &mut Machine<S>,
    curve: &mut Curve,
    area: Option<Area>,
    va: u64,
    access: Event,
)
    ensures { IsServedBeside (λ row. charted_demand area row va access)
        machine.old curve.old machine.new curve.new }
{
    match area {
        Some(area) => {
            let outcome = step_beside(machine, curve, map_for(area, va));
            again_beside(machine, curve, outcome, access);
        }
        None => {}
    }
}

/// The area that an outcome of an access demands: its page's, where it is unmapped.
fn area_wanted(areas: &Areas, outcome: Outcome, space: u16, va: u64) -> Option<Area>
    ensures { result ≡ wanted_by outcome (area_for space va areas.now) }
{
    match outcome {
        Outcome::Replied(Reply::Unmapped) => areas.find(space, va),
        _ => None,
    }
}

/// Serves an access with the events of its demand, where these areas were declared.
fn access_beside<S: Structure>(
    machine: &mut Machine<S>,
    curve: &mut Curve,
    va: u64,
    kind: Kind,
    areas: &Areas,
)
    ensures { IsServedBeside (λ row. charted_access row va kind areas.now)
        machine.old curve.old machine.new curve.new }
{
    let space = machine.space();
    let access = Event::Access { va, kind };
    let reply = access_both(machine, curve, va, kind);
    let area = area_wanted(areas, Outcome::Replied(reply), space, va);
    demand_beside(machine, curve, area, va, access);
}

/// Serves an item to a machine, with the events of its demand, and the curve follows each of its
/// events.
pub fn serve_beside<S: Structure>(
    machine: &mut Machine<S>,
    curve: &mut Curve,
    item: Item,
    areas: &Areas,
)
    ensures machine { machine.new ≡ served_after item areas.now machine.old }
    ensures curve { curve.new ≡ curve_item item areas.now machine.old curve.old }
{
    match item {
        Item::Command(event) => {
            step_beside(machine, curve, event);
        }
        Item::Declared(_) => {}
        Item::Referenced {
            number: _number,
            va,
            kind,
        } => access_beside(machine, curve, va, kind, areas),
    }
}
