//! A queue of accesses and events, where no line is written. Rows are independent, so a row serves
//! many at a time.

ghost use Rattle.std.specs.Prelude.{◌≡◌, ◌<◌, ◌≤◌, ℕ, [], length, true};
ghost use Rattle.xl_model.specs.declared.script.Item.TheVariants.{Command, Referenced};
ghost use Rattle.xl_model.specs.Scenes.{scene_after};
ghost use Rattle.xl_outside.specs.Folders.{Files};
ghost use Rattle.xl_lackey.specs.Skims.{batch_size};
ghost use Rattle.xl_serving.specs.Serving.{scene_of};
ghost use Rattle.xl_serving.specs.Batches.{deferred, drained, BatchesMore};

use crate::rows::Rows;
use arrayvec::ArrayVec;
use std::marker::Model;
use xl_areas::Areas;
use xl_course::Source;
use xl_lackey::{Access, Batch};
use xl_model::Event;

/// The event of a command, queued among accesses.
#[derive(Clone, Copy)]
pub struct BatchedEvent {
    /// How many of the accesses come between the event before it and this one.
    pub gap: usize,
    pub event: Event,
}

impl Default for BatchedEvent {
    fn default() -> BatchedEvent {
        BatchedEvent {
            gap: 0,
            event: Event::Space { space: 0 },
        }
    }
}

/// The queue: accesses, and events of commands among them. A batch runs one row at a time, so that
/// its code and its table stay in the processor's caches.
#[derive(Drop)]
pub(crate) struct PlainBatch {
    accesses: Batch,
    events: ArrayVec<BatchedEvent, 4>,
    /// How many of the accesses come before the last of the events.
    placed: usize,
}

impl Model for PlainBatch {
    ghost use Rattle.std.specs.Prelude.{◌≡◌, ◌≤◌, length};
    ghost use Rattle.xl_serving.specs.Batches.{Backlog, gaps};

    ghost Value = { Backlog };

    ghost view = { λ w. record { accesses = w.accesses.items; events = w.events.items } };

    ghost invariant = { λ w. (w.placed ≡ gaps w.events.items)
        × (gaps w.events.items ≤ length w.accesses.items) };
}

impl PlainBatch {
    /// An empty queue.
    pub(crate) fn new() -> PlainBatch
        ensures { deferred result ≡ [] }
    {
        PlainBatch {
            accesses: Batch::new(),
            events: ArrayVec::new(),
            placed: 0,
        }
    }

    /// Whether the queue is empty.
    pub(crate) fn is_idle(&self) -> bool
        ensures { result ≡ true → deferred self.now ≡ [] }
    {
        self.accesses.is_empty() && self.events.is_empty()
    }

    /// Flushes the queue.
    #[inline(never)]
    pub(crate) fn drain<R: Rows>(&mut self, rows: &mut R, areas: &Areas)
        ensures served { scene_of (R.rows rows.new) areas.now
            ≡ drained self.old (scene_of (R.rows rows.old) areas.now) }
        ensures none { deferred self.new ≡ [] }
        ensures accesses { self.new.accesses ≡ [] }
        ensures events { self.new.events ≡ [] }
    {
        rows.serve_batch(self.accesses.as_slice(), self.events.as_slice(), areas);
        self.accesses.clear();
        self.events.clear();
        self.placed = 0;
    }

    /// Flushes the queue where there is no room for one access more.
    #[inline(always)]
    fn make_room<R: Rows>(&mut self, rows: &mut R, areas: &Areas)
        ensures same { drained self.new (scene_of (R.rows rows.new) areas.now)
            ≡ drained self.old (scene_of (R.rows rows.old) areas.now) }
        ensures room { length self.new.accesses < batch_size }
    {
        if self.accesses.is_full() {
            self.drain(rows, areas);
        }
    }

    /// Flushes the queue where there is no room for one event more.
    fn make_room_for_event<R: Rows>(&mut self, rows: &mut R, areas: &Areas)
        ensures same { drained self.new (scene_of (R.rows rows.new) areas.now)
            ≡ drained self.old (scene_of (R.rows rows.old) areas.now) }
        ensures room { length self.new.events < 4 }
    {
        if self.events.is_full() {
            self.drain(rows, areas);
        }
    }

    /// Queues an access.
    #[inline(always)]
    pub(crate) fn put_off<R: Rows>(&mut self, rows: &mut R, areas: &Areas, access: Access)
        ensures { (number : ℕ) → drained self.new (scene_of (R.rows rows.new) areas.now)
            ≡ scene_after (Referenced number access.va access.kind)
            (drained self.old (scene_of (R.rows rows.old) areas.now)) }
    {
        self.make_room(rows, areas);
        self.accesses.push(access);
    }

    /// Queues an event of a command.
    #[inline(never)]
    pub(crate) fn put_off_event<R: Rows>(&mut self, rows: &mut R, areas: &Areas, event: Event)
        ensures { drained self.new (scene_of (R.rows rows.new) areas.now)
            ≡ scene_after (Command event) (drained self.old
            (scene_of (R.rows rows.old) areas.now)) }
    {
        self.make_room_for_event(rows, areas);
        let gap = self.accesses.len() - self.placed;
        self.placed += gap;
        self.events.push(BatchedEvent { gap, event });
    }

    /// Queues the accesses of the next records, of `most` at most. Returns of how many.
    #[inline(always)]
    pub(crate) fn skim<T: Source>(&mut self, source: &mut T, most: u64) -> u64
        ensures skims { (fs : Files) → T.reads_from source.old fs
            → BatchesMore (T.reads_from source.new fs) (T.left source.old fs) (T.left source.new fs)
            self.old self.new result }
        ensures few { result ≤ most }
        ensures no_more { T.size source.new ≤ T.size source.old }
    {
        source.skim(&mut self.accesses, most)
    }
}
