//! The plain form: rows that are served, with areas whose pages are mapped on demand.

ghost use Rattle.std.specs.Prelude.{◌≡◌, ◌+◌, ◌≤◌, ◌<◌, ◌∷◌, ◌++◌, [], All, IfOk, length, count_by, is_ok};
ghost use Rattle.xl_model.specs.declared.script.Item.{Item};
ghost use Rattle.xl_model.specs.declared.script.Item.TheVariants as item;
ghost use Rattle.xl_model.specs.Courses.{events_from};
ghost use Rattle.xl_model.specs.Scenes.{Scene};
ghost use Rattle.xl_script.specs.Placing.{IsPlaced, is_area};
ghost use Rattle.xl_course.specs.Serving.{HasServed};
ghost use Rattle.xl_serving.specs.Serving.{scene_of, count_of, event_at};
ghost use Rattle.xl_serving.specs.Batches.{deferred, drained};
ghost use Rattle.xl_words.specs.Words.{plain_of};
ghost use Rattle.xl_serving.specs.Plain.{plain, end_text, end_of, steps_of, with_area};

use crate::batch::PlainBatch;
use crate::ending::write_end;
use crate::events::{count, nth_event};
use crate::rows::Rows;
use std::alloc::Global;
use xl_areas::Areas;
use xl_course::{Form, Orders, Source, Step, Stop};
use xl_lackey::Access;
use xl_model::{Area, Command, Event, Item, NoMemory};
use xl_outside::{Failed, Sink};
use xl_script::Script;
use xl_words::Plain;

/// How the rows are wanted at the end: as JSON, and with images.
#[derive(Clone, Copy)]
pub struct End {
    pub json: bool,
    pub image: bool,
}

/// What a run of the plain form is asked for: a script, and what its words say.
#[derive(Clone, Copy)]
pub struct PlainOrders<'a> {
    pub script: &'a Script,
    pub words: &'a Plain<'a>,
}

impl Orders for PlainOrders<'_> {
    type Command = Command;

    type End = End;

    ghost steps = { λ o. steps_of o.script.now };

    ghost answers = { λ o. o.words.now.answers };

    ghost end = { λ o. end_of (plain_of o.words.now) };

    fn len(&self) -> usize {
        self.script.len()
    }

    fn step(&self, i: usize) -> Step<Command> {
        match self.script.command(i) {
            Command::Run { n } => Step::Run(n),
            Command::RunRest => Step::RunRest,
            command => Step::Own(command),
        }
    }

    fn answers(&self) -> bool {
        self.words.answers
    }

    fn end(&self) -> End {
        End {
            json: self.words.json,
            image: self.words.image,
        }
    }
}

/// What the plain form keeps beside the rows: the areas declared so far, and the queue. Memory is
/// taken once more only where rows are wanted as JSON.
#[derive(Drop)]
pub struct Bench {
    alloc: Global,
    areas: Areas,
    batch: PlainBatch,
}

impl<R: Rows> Form<R> for Bench {
    type Command = Command;

    type End = End;

    ghost Item = { Item };

    ghost State = { Scene };

    ghost meaning = { plain };

    ghost state = { λ b rows. drained b.batch (scene_of (R.rows rows) b.areas) };

    ghost can = { λ b rows cs. (length b.areas + count_by is_area cs ≤ 256) × All IsPlaced cs };

    ghost last = { λ e s. end_text e.json e.image s };

    ghost late = { λ e. e.json };

    ghost holds = { λ rows s. R.rows rows ≡ s.rows };

    fn command<K: Sink>(
        &mut self,
        rows: &mut R,
        command: Command,
        answers: bool,
        out: &mut K,
    ) -> Result<(), Failed> {
        match command {
            Command::Demand { area } => {
                self.declare(rows, area);
                Ok(())
            }
            _ => self.events(rows, command, answers, out),
        }
    }

    #[inline(always)]
    fn access<K: Sink>(
        &mut self,
        rows: &mut R,
        number: u64,
        access: Access,
        answers: bool,
        out: &mut K,
    ) -> Result<(), Failed> {
        if answers {
            self.quiet(rows);
            let Access { va, kind } = access;
            return rows.answer(Item::Referenced { number, va, kind }, &self.areas, out);
        }
        self.batch.put_off(rows, &self.areas, access);
        Ok(())
    }

    #[inline(always)]
    fn skim<T: Source>(&mut self, _rows: &mut R, source: &mut T, most: u64) -> u64 {
        self.batch.skim(source, most)
    }

    fn finish<K: Sink>(&mut self, rows: &mut R, end: End, out: &mut K) -> Result<(), Stop> {
        self.batch.drain(rows, &self.areas);
        write_end(self.alloc, rows, end.json, end.image, out)
    }
}

impl Bench {
    /// No areas, and an empty queue. All memory is taken here.
    pub fn open(alloc: Global) -> Result<Bench, NoMemory>
        ensures areas { IfOk result (λ b. b.areas ≡ []) }
        ensures idle { IfOk result (λ b. deferred b.batch ≡ []) }
    {
        Ok(Bench {
            alloc,
            areas: Areas::open(alloc)?,
            batch: PlainBatch::new(),
        })
    }

    /// Flushes the queue, if it isn't empty.
    #[inline(always)]
    fn quiet<R: Rows>(&mut self, rows: &mut R)
        ensures served { scene_of (R.rows rows.new) self.new.areas
            ≡ drained self.old.batch (scene_of (R.rows rows.old) self.old.areas) }
        ensures none { deferred self.new.batch ≡ [] }
        ensures areas { self.new.areas ≡ self.old.areas }
    {
        if self.batch.is_idle() {
            return;
        }
        self.batch.drain(rows, &self.areas);
    }

    /// Declares an area, after a flush of the queue.
    fn declare<R: Rows>(&mut self, rows: &mut R, area: Area)
        requires { length self.old.areas < 256 }
        ensures state { drained self.new.batch (scene_of (R.rows rows.new) self.new.areas)
            ≡ with_area area (drained self.old.batch (scene_of (R.rows rows.old) self.old.areas)) }
        ensures areas { self.new.areas ≡ self.old.areas ++ area ∷ [] }
    {
        self.quiet(rows);
        self.areas.declare(area);
    }

    /// Serves the events of a command, in rising number.
    fn events<R: Rows, K: Sink>(
        &mut self,
        rows: &mut R,
        command: Command,
        answers: bool,
        out: &mut K,
    ) -> Result<(), Failed>
        requires { IsPlaced command }
        ensures served { HasServed plain K.sink answers
            (events_from (event_at command) 0 (count_of command))
            (drained self.old.batch (scene_of (R.rows rows.old) self.old.areas))
            (drained self.new.batch (scene_of (R.rows rows.new) self.new.areas))
            out.old out.new (is_ok result) }
        ensures areas { self.new.areas ≡ self.old.areas }
    {
        for i in 0..count(command) {
            match self.event(rows, nth_event(command, i), answers, out) {
                Ok(()) => {}
                Err(failed) => return Err(failed),
            }
        }
        Ok(())
    }

    /// Serves an event of a command; queues it where no line is written.
    fn event<R: Rows, K: Sink>(
        &mut self,
        rows: &mut R,
        event: Event,
        answers: bool,
        out: &mut K,
    ) -> Result<(), Failed>
        ensures served { HasServed plain K.sink answers (item.Command event ∷ [])
            (drained self.old.batch (scene_of (R.rows rows.old) self.old.areas))
            (drained self.new.batch (scene_of (R.rows rows.new) self.new.areas))
            out.old out.new (is_ok result) }
        ensures areas { self.new.areas ≡ self.old.areas }
    {
        if answers {
            self.quiet(rows);
            return rows.answer(Item::Command(event), &self.areas, out);
        }
        self.batch.put_off_event(rows, &self.areas, event);
        Ok(())
    }
}
