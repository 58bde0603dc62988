//! Rows that are served without lines, while a curve follows each.

ghost use Rattle.std.specs.Prelude.{◌≡◌, map};
ghost use Rattle.xl_machine.specs.Served.{after_of};
ghost use Rattle.xl_chart.specs.Charts.{curve_item};
ghost use Rattle.xl_serving.specs.Batches.{item_of};
ghost use Rattle.xl_rack.specs.Batches.{access_served, row_served};
ghost use Rattle.xl_rack.specs.Beside.{curve_after_part, curve_served, each_curve, row_after};
ghost use Rattle.xl_rack.specs.Slots.{served_of, slot_form, EachServed};

use crate::batch::{serve_slots, step_each};
use crate::slot::{Slot, at_table};
use xl_areas::Areas;
use xl_chart::{serve_beside, step_beside};
use xl_curve::Curve;
use xl_lackey::Access;
use xl_machine::Machine;
use xl_model::{Event, Item, Structure};

/// What rows are served together: an event, or accesses, each with the events of its demand.
#[derive(Drop)]
pub(crate) enum Part<'a> {
    Event(Event),
    Accesses(&'a [Access], &'a Areas),
}

/// Serves an access to a machine, with the events of its demand, and the curve follows.
#[inline(always)]
#[tactic(auto, unfolding(xl_model::specs::Items::state_after))]
fn serve_one<S: Structure>(
    machine: &mut Machine<S>,
    curve: &mut Curve,
    access: Access,
    areas: &Areas,
)
    ensures machine { machine.new ≡ access_served access.va access.kind areas.now machine.old }
    ensures curve { curve.new ≡ curve_item (item_of access) areas.now machine.old curve.old }
{
    let item = Item::Referenced {
        number: 0,
        va: access.va,
        kind: access.kind,
    };
    serve_beside(machine, curve, item, areas);
}

/// Serves accesses to a machine one after another, each with the events of its demand, and the
/// curve follows.
fn serve_machine<S: Structure>(
    machine: &mut Machine<S>,
    curve: &mut Curve,
    accesses: &[Access],
    areas: &Areas,
)
    ensures machine { machine.new ≡ row_served accesses.now areas.now machine.old }
    ensures curve { curve.new ≡ curve_served accesses.now areas.now machine.old curve.old }
{
    for access in accesses {
        serve_one(machine, curve, *access, areas);
    }
}

/// Serves a part to a machine, and the curve follows.
fn serve_part<S: Structure>(machine: &mut Machine<S>, curve: &mut Curve, part: &Part<'_>)
    ensures machine { machine.new ≡ row_after part.now machine.old }
    ensures curve { curve.new ≡ curve_after_part part.now machine.old curve.old }
{
    match part {
        Part::Event(event) => {
            let _outcome = step_beside(machine, curve, *event);
        }
        Part::Accesses(accesses, areas) => serve_machine(machine, curve, accesses, areas),
    }
}

/// Serves a part to the machine of a slot, and the curve follows.
fn serve_slot(slot: &mut Slot, curve: &mut Curve, part: &Part<'_>)
    ensures served { served_of slot.new ≡ row_after part.now (served_of slot.old) }
    ensures curve { curve.new ≡ curve_after_part part.now (served_of slot.old) curve.old }
    ensures form { slot_form slot.new ≡ slot_form slot.old }
{
    at_table!(slot, machine => serve_part(machine, curve, part))
}

/// Serves a part to each slot.
fn serve_alone(slots: &mut [Slot], part: &Part<'_>)
    ensures { EachServed (row_after part.now) slots.old slots.new }
{
    match part {
        Part::Event(event) => step_each(slots, *event),
        Part::Accesses(accesses, areas) => serve_slots(slots, accesses, &[], areas),
    }
}

/// Serves a part to each slot, while a curve follows each. Where there are more slots than curves,
/// the last are served alone.
pub(crate) fn serve_slots_beside(slots: &mut [Slot], curves: &mut [Curve], part: &Part<'_>)
    ensures slots { EachServed (row_after part.now) slots.old slots.new }
    ensures curves { curves.new
        ≡ each_curve (curve_after_part part.now) (map served_of slots.old) curves.old }
{
    let Some((curve, curves)) = curves.split_first_mut() else {
        serve_alone(slots, part);
        return;
    };
    let Some((slot, slots)) = slots.split_first_mut() else {
        return;
    };
    serve_slot(slot, curve, part);
    serve_slots_beside(slots, curves, part);
}
