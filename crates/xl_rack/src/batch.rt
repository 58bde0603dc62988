//! Items that rows are served without lines, in turn or side by side. Where a row is served alone,
//! the kind of its table is chosen once for all accesses between two events.

ghost use Rattle.std.specs.Prelude.{◌≡◌, ◌&&◌, ◌≤◌, length, nat_lt, not};
ghost use Rattle.std.specs.List.{list_any};
ghost use Rattle.xl_machine.specs.Served.{after_of};
ghost use Rattle.xl_serving.specs.Batches.{gaps};
ghost use Rattle.xl_rack.specs.Batches.{demand_served, access_served, row_served, batch_served};
ghost use Rattle.xl_rack.specs.Slots.{served_of, slot_form, has_no_arrays, EachServed};

use crate::slot::{Slot, at_table};
use crate::work::Work;
use xl_areas::{Areas, map_for};
use xl_lackey::Access;
use xl_machine::Machine;
use xl_model::{Event, Kind, Outcome, Reply, Structure};
use xl_serving::BatchedEvent;

/// Serves the map that an area demands for an address, and where it is done, the access once more.
#[inline(never)]
fn serve_demand<S: Structure>(machine: &mut Machine<S>, va: u64, kind: Kind, areas: &Areas)
    ensures { machine.new ≡ demand_served va kind areas.now machine.old }
{
    let Some(area) = areas.find(machine.space(), va) else {
        return;
    };
    if let Outcome::Done = machine.step(map_for(area, va)) {
        let _reply = machine.access(va, kind);
    }
}

/// Serves an access, with the events of its demand. NO_TLB: no TLB is expected; CACHED: the row
/// caches level-0 nodes.
#[inline(always)]
fn serve_one<S: Structure, const NO_TLB: bool, const CACHED: bool>(
    machine: &mut Machine<S>,
    va: u64,
    kind: Kind,
    areas: &Areas,
)
    ensures { machine.new ≡ access_served va kind areas.now machine.old }
{
    if machine.access_at_once::<NO_TLB, CACHED>(va, kind) {
        return;
    }
    if let Reply::Unmapped = machine.access_as::<NO_TLB>(va, kind) {
        serve_demand(machine, va, kind, areas);
    }
}

/// Serves accesses to a machine one after another.
#[inline(never)]
fn serve_each<S: Structure, const NO_TLB: bool, const CACHED: bool>(
    machine: &mut Machine<S>,
    accesses: &[Access],
    areas: &Areas,
)
    ensures { machine.new ≡ row_served accesses.now areas.now machine.old }
{
    for access in accesses {
        serve_one::<S, NO_TLB, CACHED>(machine, access.va, access.kind, areas);
    }
}

/// Serves accesses to a machine one after another. Whether it has arrays, and a cache of level-0
/// nodes, is looked at once for all of them.
fn serve_all<S: Structure>(machine: &mut Machine<S>, accesses: &[Access], areas: &Areas)
    ensures { machine.new ≡ row_served accesses.now areas.now machine.old }
{
    if !machine.lacks_tlb() {
        serve_each::<S, false, false>(machine, accesses, areas);
    } else if machine.caches_lowest() {
        serve_each::<S, true, true>(machine, accesses, areas);
    } else {
        serve_each::<S, true, false>(machine, accesses, areas);
    }
}

/// An event.
#[derive(Clone, Copy)]
struct OneEvent(Event);

/// An access, with the events of its demand.
#[derive(Clone, Copy)]
struct OneAccess<'a> {
    access: Access,
    areas: &'a Areas,
}

/// Accesses, one after another.
#[derive(Clone, Copy)]
struct Accesses<'a> {
    accesses: &'a [Access],
    areas: &'a Areas,
}

impl Work for OneEvent {
    ghost done = { λ w. after_of w.0 };

    fn serve<S: Structure>(&self, machine: &mut Machine<S>) {
        let _outcome = machine.step(self.0);
    }
}

impl Work for OneAccess<'_> {
    ghost done = { λ w. access_served w.access.va w.access.kind w.areas.now };

    #[inline(always)]
    fn serve<S: Structure>(&self, machine: &mut Machine<S>) {
        serve_one::<S, false, false>(machine, self.access.va, self.access.kind, self.areas);
    }
}

impl Work for Accesses<'_> {
    ghost done = { λ w. row_served w.accesses.now w.areas.now };

    fn serve<S: Structure>(&self, machine: &mut Machine<S>) {
        serve_all(machine, self.accesses, self.areas);
    }
}

/// Serves work to the machine of a slot.
#[inline(always)]
fn serve_slot<W: Work>(slot: &mut Slot, work: &W)
    ensures served { served_of slot.new ≡ W.done work.now (served_of slot.old) }
    ensures row { (served_of slot.new).row ≡ (served_of slot.old).row }
    ensures form { slot_form slot.new ≡ slot_form slot.old }
{
    at_table!(slot, machine => work.serve(machine))
}

/// Serves work to each slot: whole to the first, then to the next.
fn serve_each_slot<W: Work>(slots: &mut [Slot], work: &W)
    ensures { EachServed (W.done work.now) slots.old slots.new }
{
    let Some((first, rest)) = slots.split_first_mut() else {
        return;
    };
    serve_slot(first, work);
    serve_each_slot(rest, work);
}

/// Serves an event to each slot.
pub(crate) fn step_each(slots: &mut [Slot], event: Event)
    ensures { EachServed (after_of event) slots.old slots.new }
{
    serve_each_slot(slots, &OneEvent(event));
}

/// Serves accesses to the slots side by side: each access to all of them, then the next. Hits and
/// misses of rows go together, which helps branch prediction.
fn serve_side_by_side(slots: &mut [Slot], accesses: &[Access], areas: &Areas)
    ensures { EachServed (row_served accesses.now areas.now) slots.old slots.new }
{
    let Some((access, later)) = accesses.split_first() else {
        return;
    };
    let access = *access;
    serve_each_slot(slots, &OneAccess { access, areas });
    serve_side_by_side(slots, later, areas);
}

/// Whether the machine of one of these slots has no arrays.
fn one_lacks_tlb(slots: &[Slot]) -> bool
    ensures { result ≡ list_any has_no_arrays slots.now }
{
    slots.iter().any(|slot| slot.brief().lacks_tlb)
}

/// Whether these slots are served side by side: several, all with a TLB. Without a TLB a machine is
/// served faster alone.
fn has_company(slots: &[Slot]) -> bool
    ensures { result ≡ (nat_lt 1 (length slots.now) && not (list_any has_no_arrays slots.now)) }
{
    slots.len() > 1 && !one_lacks_tlb(slots)
}

/// Serves accesses to some slots.
fn serve_accesses(slots: &mut [Slot], accesses: &[Access], areas: &Areas)
    ensures { EachServed (row_served accesses.now areas.now) slots.old slots.new }
{
    if has_company(slots) {
        serve_side_by_side(slots, accesses, areas);
    } else {
        serve_each_slot(slots, &Accesses { accesses, areas });
    }
}

/// Serves accesses, and the events among them, to some slots.
fn serve_group(slots: &mut [Slot], accesses: &[Access], events: &[BatchedEvent], areas: &Areas)
    requires { gaps events.now ≤ length accesses.now }
    ensures { EachServed (batch_served accesses.now events.now areas.now) slots.old slots.new }
{
    let Some((batched, later)) = events.split_first() else {
        serve_accesses(slots, accesses, areas);
        return;
    };
    let (before, following) = accesses.split_at(batched.gap);
    serve_accesses(slots, before, areas);
    step_each(slots, batched.event);
    serve_group(slots, following, later, areas);
}

/// Interleaving limit: the arrays of more rows presumably don't fit in the processor's first cache.
const SIDE_BY_SIDE: usize = 8;

/// Serves accesses, and the events among them, to all slots, some of them after the others.
pub(crate) fn serve_slots(
    slots: &mut [Slot],
    accesses: &[Access],
    events: &[BatchedEvent],
    areas: &Areas,
)
    requires { gaps events.now ≤ length accesses.now }
    ensures { EachServed (batch_served accesses.now events.now areas.now) slots.old slots.new }
{
    if slots.is_empty() {
        return;
    }
    let (group, rest) = slots.split_at_mut(slots.len().min(SIDE_BY_SIDE));
    serve_group(group, accesses, events, areas);
    serve_slots(rest, accesses, events, areas);
}
