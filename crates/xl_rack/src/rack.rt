//! The rack.

ghost use Rattle.std.specs.Prelude.{◌≡◌, ◌<◌, ◌≤◌, ◌++◌, [], ◌∷◌, length, map, slice_get, is_ok, Some, IfOk, IfSome, OnOk, OnErr};
ghost use Rattle.std.specs.List.{All};
ghost use Rattle.xl_machine.specs.Served.{after_of};
ghost use Rattle.xl_model.specs.Rows.{row_of, IsRow};
ghost use Rattle.xl_model.specs.Scenes.{opened, rows_after, rows_lines};
ghost use Rattle.xl_outside.specs.Sinks.{SinkAfter};
ghost use Rattle.xl_serving.specs.Batches.{gaps};
ghost use Rattle.xl_course.specs.Serving.{EqualWhere};
ghost use Rattle.xl_rack.specs.Answers.{designs};
ghost use Rattle.xl_rack.specs.Forms.{form_named};
ghost use Rattle.xl_rack.specs.Batches.{row_served, batch_served};
ghost use Rattle.xl_rack.specs.Beside.{curve_served, curve_stepped, each_curve};
ghost use Rattle.xl_rack.specs.Slots.{served_of, slot_form, IsNamed};

use crate::answer::answer_slots;
use crate::batch::serve_slots;
use crate::beside::{Part, serve_slots_beside};
use crate::slot::Slot;
use std::alloc::Global;
use std::marker::Model;
use xl_areas::Areas;
use xl_curve::Curve;
use xl_lackey::Access;
use xl_model::{Counts, Event, Item, NoMemory, Row};
use xl_outside::{Failed, Sink};
use xl_serving::BatchedEvent;

/// The most rows of a rack.
const MOST: usize = 16;

/// The machines of up to sixteen rows, in the order in which they were added. Contracts see each
/// row with its state. A state changes by the events that are served, and in no other way.
#[derive(Drop)]
pub struct Rack {
    slots: Vec<Slot>,
}

impl Model for Rack {
    ghost use Rattle.std.specs.Prelude.{◌≤◌, List, map};
    ghost use Rattle.std.specs.List.{All};
    ghost use Rattle.std.specs.Vec.{vec_capacity};
    ghost use Rattle.xl_model.specs.Scenes.{Served};
    ghost use Rattle.xl_rack.specs.Slots.{served_of, IsNamed};

    ghost Value = { List Served };

    ghost view = { λ r. map served_of r.slots.items };

    ghost invariant = { λ r. (16 ≤ vec_capacity r.slots) × All IsNamed r.slots.items };
}

impl Rack {
    /// An empty rack, with room for sixteen machines.
    ///
    /// # Errors
    ///
    /// `NoMemory` where there is no memory.
    pub fn open(alloc: Global) -> Result<Rack, NoMemory>
        ensures { IfOk result (λ rack. rack ≡ []) }
    {
        Ok(Rack {
            slots: Vec::with_capacity(alloc, MOST)?,
        })
    }

    /// Opens the table that a row names and a machine over it, and puts the row last, in its
    /// opening state.
    ///
    /// # Errors
    ///
    /// `NoMemory` where there is no memory; then the rack is as before.
    pub fn add(&mut self, alloc: Global, row: Row) -> Result<(), NoMemory>
        requires row { IsRow (row_of row) }
        requires few { length self.old < 16 }
        ensures added { OnOk result (self.new ≡ self.old ++ opened (row_of row ∷ [])) }
        ensures none { OnErr result (self.new ≡ self.old) }
    {
        let slot = Slot::open(alloc, row)?;
        match self.slots.push(slot) {
            Ok(()) => Ok(()),
            Err(_) => unreachable!(),
        }
    }

    /// How many rows there are.
    pub fn len(&self) -> usize
        ensures { result ≡ length self.now }
    {
        self.slots.len()
    }

    /// Serves an item by each machine in turn, and writes its lines. One that declares an area has
    /// none, and changes no row. Where a put fails, nothing is said of the states: the designs stay.
    pub fn answer<K: Sink>(&mut self, item: Item, areas: &Areas, out: &mut K) -> Result<(), Failed>
        ensures rows { EqualWhere (is_ok result) self.new (rows_after item areas.now self.old) }
        ensures stay { designs self.new ≡ designs self.old }
        ensures lines { SinkAfter K.sink (rows_lines item areas.now self.old)
            out.old out.new (is_ok result) }
    {
        answer_slots(&mut self.slots, &item, areas, out)
    }

    /// Serves accesses, with the events of their demands, and the events among them, by each
    /// machine in turn.
    pub fn serve_batch(&mut self, accesses: &[Access], events: &[BatchedEvent], areas: &Areas)
        requires { gaps events.now ≤ length accesses.now }
        ensures { self.new ≡ map (batch_served accesses.now events.now areas.now) self.old }
    {
        serve_slots(&mut self.slots, accesses, events, areas)
    }

    /// Serves an event by each machine in turn, and a curve follows each: the first curve the first
    /// machine, and so on. Machines that have no curve are served all the same.
    pub fn step_beside(&mut self, curves: &mut [Curve], event: Event)
        ensures rows { self.new ≡ map (after_of event) self.old }
        ensures curves { curves.new ≡ each_curve (curve_stepped event) self.old curves.old }
    {
        serve_slots_beside(&mut self.slots, curves, &Part::Event(event))
    }

    /// Serves accesses, with the events of their demands, by each machine in turn, and a curve
    /// follows each, as in `step_beside`.
    pub fn serve_beside(&mut self, curves: &mut [Curve], accesses: &[Access], areas: &Areas)
        ensures rows { self.new ≡ map (row_served accesses.now areas.now) self.old }
        ensures curves { curves.new
            ≡ each_curve (curve_served accesses.now areas.now) self.old curves.old }
    {
        serve_slots_beside(&mut self.slots, curves, &Part::Accesses(accesses, areas))
    }

    /// The row at a place, from 0.
    pub fn row(&self, i: usize) -> &Row
        requires { i < length self.now }
        ensures { IfSome (slice_get self.entry.now i) (λ v. row_of result.now ≡ v.row) }
    {
        self.slots[i].brief().row
    }

    /// The counts so far of the row at a place, from 0.
    pub fn counts(&self, i: usize) -> Counts
        requires { i < length self.now }
        ensures counts { IfSome (slice_get self.now i) (λ v. result ≡ v.state.counts) }
        ensures few { result.arrays ≤ 6 }
    {
        self.slots[i].counts()
    }

    /// The machine at a place, from 0.
    pub fn machine(&self, i: usize) -> &Slot
        requires { i < length self.now }
        ensures served { slice_get self.entry.now i ≡ Some (served_of result.now) }
        ensures form { IfSome (slice_get self.entry.now i)
            (λ v. form_named v.row ≡ Some (slot_form result.now)) }
    {
        &self.slots[i]
    }
}
