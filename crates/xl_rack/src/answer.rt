//! Items that rows are served with their lines. The kind of a row's table is chosen once for an item
//! and all its lines.

ghost use Rattle.std.specs.Prelude.{◌≡◌, Some, IfOk, is_ok};
ghost use Rattle.xl_machine.specs.Served.{accessed_by, after_of};
ghost use Rattle.xl_model.specs.Items.{area_for};
ghost use Rattle.xl_model.specs.RowRun.{outcome_of, reply_to};
ghost use Rattle.xl_model.specs.Scenes.{served_after, access_line, event_line, demand_lines, item_lines};
ghost use Rattle.xl_model.specs.declared.script.Item.TheVariants.{Referenced};
ghost use Rattle.xl_outside.specs.Sinks.{SinkAfter};
ghost use Rattle.xl_rack.specs.Answers.{HasAnswered, EachAnswered};
ghost use Rattle.xl_rack.specs.Batches.{access_served, demand_after};
ghost use Rattle.xl_rack.specs.Slots.{served_of, slot_form};

use crate::slot::{Slot, at_table};
use xl_areas::{Areas, map_for};
use xl_machine::Machine;
use xl_model::{Area, Event, Item, Kind, Outcome, Reply, Structure};
use xl_outside::{Failed, Sink};
use xl_report::{Answered, write_answer, write_command};

/// An access of the record of this number.
#[derive(Clone, Copy)]
struct Numbered {
    number: u64,
    va: u64,
    kind: Kind,
}

/// Serves an access, and writes its line.
#[inline(always)]
fn answer_access<S: Structure, K: Sink>(
    machine: &mut Machine<S>,
    access: Numbered,
    out: &mut K,
) -> Result<Reply, Failed>
    ensures reply { IfOk result
        (λ r. r ≡ reply_to machine.old.row machine.old.state access.va access.kind) }
    ensures after { machine.new ≡ accessed_by access.va access.kind machine.old }
    ensures line { SinkAfter K.sink
        (access_line machine.old.row access.number access.va access.kind machine.old.state)
        out.old out.new (is_ok result) }
{
    let Numbered { number, va, kind } = access;
    let reply = machine.access(va, kind);
    let answered = Answered {
        number,
        kind,
        space: machine.space(),
        va,
        reply,
    };
    match write_answer(out, machine.row(), answered) {
        Ok(()) => Ok(reply),
        Err(failed) => Err(failed),
    }
}

/// Serves an event of a command, and writes its line.
fn answer_event<S: Structure, K: Sink>(
    machine: &mut Machine<S>,
    event: Event,
    out: &mut K,
) -> Result<Outcome, Failed>
    ensures outcome { IfOk result (λ o. o ≡ outcome_of machine.old.row event machine.old.state) }
    ensures after { machine.new ≡ after_of event machine.old }
    ensures line { SinkAfter K.sink (event_line machine.old.row event machine.old.state)
        out.old out.new (is_ok result) }
{
    let outcome = machine.step(event);
    match write_command(out, machine.row(), event, outcome) {
        Ok(()) => Ok(outcome),
        Err(failed) => Err(failed),
    }
}

/// Serves the map that this area demands, and where it is done, the access once more.
fn answer_map<S: Structure, K: Sink>(
    machine: &mut Machine<S>,
    area: Area,
    access: Numbered,
    out: &mut K,
) -> Result<(), Failed>
    ensures { HasAnswered K.sink (demand_after (Some area) access.va access.kind)
        (λ v. demand_lines (Some area) v.row access.number access.va access.kind v.state)
        machine.old machine.new out.old out.new (is_ok result) }
{
    match answer_event(machine, map_for(area, access.va), out) {
        Ok(Outcome::Done) => match answer_access(machine, access, out) {
            Ok(_) => Ok(()),
            Err(failed) => Err(failed),
        },
        Ok(_) => Ok(()),
        Err(failed) => Err(failed),
    }
}

/// Serves what an access demands that was unmapped, where an area has its page.
#[inline(never)]
fn answer_demand<S: Structure, K: Sink>(
    machine: &mut Machine<S>,
    access: Numbered,
    areas: &Areas,
    out: &mut K,
) -> Result<(), Failed>
    ensures { HasAnswered K.sink
        (demand_after (area_for machine.old.state.space access.va areas.now) access.va access.kind)
        (λ v. demand_lines (area_for machine.old.state.space access.va areas.now)
        v.row access.number access.va access.kind v.state)
        machine.old machine.new out.old out.new (is_ok result) }
{
    match areas.find(machine.space(), access.va) {
        Some(area) => answer_map(machine, area, access, out),
        None => Ok(()),
    }
}

/// Serves an access, with the events of its demand, where these areas were declared.
#[inline(always)]
fn answer_reference<S: Structure, K: Sink>(
    machine: &mut Machine<S>,
    access: Numbered,
    areas: &Areas,
    out: &mut K,
) -> Result<(), Failed>
    ensures { HasAnswered K.sink (access_served access.va access.kind areas.now)
        (λ v. item_lines (Referenced access.number access.va access.kind) areas.now v.row v.state)
        machine.old machine.new out.old out.new (is_ok result) }
{
    match answer_access(machine, access, out) {
        Ok(reply) => match reply {
            Reply::Unmapped => answer_demand(machine, access, areas, out),
            _ => Ok(()),
        },
        Err(failed) => Err(failed),
    }
}

/// Serves an item, where these areas were declared, and writes its lines. One that declares an area
/// has none, and changes no row.
#[inline(always)]
pub(crate) fn answer_item<S: Structure, K: Sink>(
    machine: &mut Machine<S>,
    item: &Item,
    areas: &Areas,
    out: &mut K,
) -> Result<(), Failed>
    ensures { HasAnswered K.sink (served_after item.now areas.now)
        (λ v. item_lines item.now areas.now v.row v.state)
        machine.old machine.new out.old out.new (is_ok result) }
{
    match *item {
        Item::Command(event) => match answer_event(machine, event, out) {
            Ok(_) => Ok(()),
            Err(failed) => Err(failed),
        },
        Item::Declared(_) => Ok(()),
        Item::Referenced { number, va, kind } => {
            answer_reference(machine, Numbered { number, va, kind }, areas, out)
        }
    }
}

/// Serves an item to the machine of a slot, and writes its lines.
#[inline(always)]
fn answer_slot<K: Sink>(
    slot: &mut Slot,
    item: &Item,
    areas: &Areas,
    out: &mut K,
) -> Result<(), Failed>
    ensures answers { HasAnswered K.sink (served_after item.now areas.now)
        (λ v. item_lines item.now areas.now v.row v.state)
        (served_of slot.old) (served_of slot.new) out.old out.new (is_ok result) }
    ensures form { slot_form slot.new ≡ slot_form slot.old }
{
    at_table!(slot, machine => answer_item(machine, item, areas, out))
}

/// Serves an item to each slot, and writes its lines: whole to the first, then to the next.
pub(crate) fn answer_slots<K: Sink>(
    slots: &mut [Slot],
    item: &Item,
    areas: &Areas,
    out: &mut K,
) -> Result<(), Failed>
    ensures { EachAnswered K.sink item.now areas.now slots.old slots.new out.old out.new
        (is_ok result) }
{
    let Some((first, rest)) = slots.split_first_mut() else {
        return Ok(());
    };
    match answer_slot(first, item, areas, out) {
        Ok(()) => answer_slots(rest, item, areas, out),
        Err(failed) => Err(failed),
    }
}
