//! The form: rows that are served, each with a curve, and areas whose pages are mapped on demand.

ghost use Rattle.std.specs.Prelude.{◌≡◌, ℕ, ◌+◌, ◌<◌, ◌≤◌, ◌∷◌, ◌++◌, [], false, All, IfOk, length, count_by, is_ok, map, replicate};
ghost use Rattle.xl_curve_model.specs.Curves.{opening_curve};
ghost use Rattle.xl_model.specs.declared.script.Item.{Item};
ghost use Rattle.xl_model.specs.declared.script.Item.TheVariants as item;
ghost use Rattle.xl_model.specs.Courses.{events_from};
ghost use Rattle.xl_outside.specs.Sinks.{SinkAfter};
ghost use Rattle.xl_script.specs.Placing.{IsPlaced, is_area};
ghost use Rattle.xl_course.specs.Meanings.{states_after};
ghost use Rattle.xl_lackey.specs.Skims.{batch_size};
ghost use Rattle.xl_serving.specs.Serving.{count_of, event_at};
ghost use Rattle.xl_curving.specs.Curving.{CurveScene, curve_lines, curve_scene_after, curve_scene_of, curved, curves_text, curves_drained};

use std::alloc::Global;
use xl_areas::Areas;
use xl_course::{Form, Source, Stop};
use xl_curve::Curve;
use xl_curve_line::write_curve;
use xl_lackey::{Access, Batch};
use xl_model::{Area, Command, Event, NoMemory};
use xl_outside::{Failed, Sink};
use xl_rack::Rack;
use xl_serving::{count, nth_event};

/// What the form keeps beside the rack: the areas declared so far, a curve for each row, and a
/// queue of accesses. No line is written of an access, so a row is served many at a time.
#[derive(Drop)]
pub struct Curving {
    areas: Areas,
    curves: Vec<Curve>,
    batch: Batch,
}

impl Form<Rack> for Curving {
    type Command = Command;

    type End = u32;

    ghost Item = { Item };

    ghost State = { CurveScene };

    ghost meaning = { curved };

    ghost state = { λ f rack. curves_drained f.batch.items
        (curve_scene_of rack f.areas f.curves.items) };

    ghost can = { λ f _ cs. (length f.areas + count_by is_area cs ≤ 256) × All IsPlaced cs };

    ghost last = { λ sets s. curves_text sets s };

    ghost late = { λ _. false };

    ghost holds = { λ rack s. rack ≡ s.scene.rows };

    fn command<K: Sink>(
        &mut self,
        rack: &mut Rack,
        command: Command,
        _answers: bool,
        _out: &mut K,
    ) -> Result<(), Failed> {
        match command {
            Command::Demand { area } => self.declare(rack, area),
            _ => self.events(rack, command),
        }
        Ok(())
    }

    #[inline(always)]
    fn access<K: Sink>(
        &mut self,
        rack: &mut Rack,
        _number: u64,
        access: Access,
        _answers: bool,
        _out: &mut K,
    ) -> Result<(), Failed> {
        self.put_off(rack, access);
        Ok(())
    }

    #[inline(always)]
    fn skim<T: Source>(&mut self, _rack: &mut Rack, source: &mut T, most: u64) -> u64 {
        source.skim(&mut self.batch, most)
    }

    fn finish<K: Sink>(&mut self, rack: &mut Rack, sets: u32, out: &mut K) -> Result<(), Stop> {
        self.drain(rack);
        match write_curves(rack, self.curves.as_slice(), sets, out) {
            Ok(()) => Ok(()),
            Err(_) => Err(Stop::WriteFault),
        }
    }
}

impl Curving {
    /// No areas, and a curve of `sets` sets for each of `rows` rows. All memory is taken here.
    ///
    /// # Errors
    ///
    /// `NoMemory` where there is no memory.
    pub fn open(alloc: Global, sets: u32, rows: usize) -> Result<Curving, NoMemory>
        requires some { 0 < sets }
        requires most { sets ≤ 256 }
        ensures areas { IfOk result (λ f. f.areas ≡ []) }
        ensures curves { IfOk result (λ f. f.curves.items ≡ replicate rows (opening_curve sets)) }
        ensures idle { IfOk result (λ f. f.batch.items ≡ []) }
    {
        let mut curves = Vec::with_capacity(alloc, rows)?;
        'opened: for _ in 0..rows {
            let curve = Curve::open(alloc, sets)?;
            if curves.push(curve).is_err() {
                return Err(NoMemory);
            }
        }
        Ok(Curving {
            areas: Areas::open(alloc)?,
            curves,
            batch: Batch::new(),
        })
    }

    /// Flushes the queue.
    #[inline(never)]
    fn drain(&mut self, rack: &mut Rack)
        ensures served { curve_scene_of rack.new self.new.areas self.new.curves.items
            ≡ curves_drained self.old.batch.items
            (curve_scene_of rack.old self.old.areas self.old.curves.items) }
        ensures none { self.new.batch.items ≡ [] }
        ensures areas { self.new.areas ≡ self.old.areas }
    {
        rack.serve_beside(
            self.curves.as_mut_slice(),
            self.batch.as_slice(),
            &self.areas,
        );
        self.batch.clear();
    }

    /// Queues an access. Where there is no room, the queue is flushed first.
    #[inline(always)]
    fn put_off(&mut self, rack: &mut Rack, access: Access)
        ensures served { (number : ℕ) → curves_drained self.new.batch.items
            (curve_scene_of rack.new self.new.areas self.new.curves.items)
            ≡ curve_scene_after (item.Referenced number access.va access.kind)
            (curves_drained self.old.batch.items
            (curve_scene_of rack.old self.old.areas self.old.curves.items)) }
        ensures areas { self.new.areas ≡ self.old.areas }
    {
        self.make_room(rack);
        self.batch.push(access);
    }

    /// Flushes the queue where there is no room for one access more.
    #[inline(always)]
    fn make_room(&mut self, rack: &mut Rack)
        ensures same { curves_drained self.new.batch.items
            (curve_scene_of rack.new self.new.areas self.new.curves.items)
            ≡ curves_drained self.old.batch.items
            (curve_scene_of rack.old self.old.areas self.old.curves.items) }
        ensures room { length self.new.batch.items < batch_size }
        ensures areas { self.new.areas ≡ self.old.areas }
    {
        if self.batch.is_full() {
            self.drain(rack);
        }
    }

    /// Declares an area, after a flush of the queue.
    fn declare(&mut self, rack: &mut Rack, area: Area)
        requires { length self.old.areas < 256 }
        ensures served { curves_drained self.new.batch.items
            (curve_scene_of rack.new self.new.areas self.new.curves.items)
            ≡ curve_scene_after (item.Declared area) (curves_drained self.old.batch.items
            (curve_scene_of rack.old self.old.areas self.old.curves.items)) }
        ensures areas { self.new.areas ≡ self.old.areas ++ area ∷ [] }
    {
        self.drain(rack);
        self.areas.declare(area);
    }

    /// Serves the events of a command, in rising number, after a flush of the queue.
    fn events(&mut self, rack: &mut Rack, command: Command)
        requires { IsPlaced command }
        ensures served { curves_drained self.new.batch.items
            (curve_scene_of rack.new self.new.areas self.new.curves.items)
            ≡ states_after curved (events_from (event_at command) 0 (count_of command))
            (curves_drained self.old.batch.items
            (curve_scene_of rack.old self.old.areas self.old.curves.items)) }
        ensures areas { self.new.areas ≡ self.old.areas }
    {
        self.drain(rack);
        for i in 0..count(command) {
            self.event(rack, nth_event(command, i));
        }
    }

    /// Serves an event of a command.
    fn event(&mut self, rack: &mut Rack, event: Event)
        requires { self.old.batch.items ≡ [] }
        ensures served { curve_scene_of rack.new self.new.areas self.new.curves.items
            ≡ curve_scene_after (item.Command event)
            (curve_scene_of rack.old self.old.areas self.old.curves.items) }
        ensures none { self.new.batch.items ≡ [] }
        ensures areas { self.new.areas ≡ self.old.areas }
    {
        rack.step_beside(self.curves.as_mut_slice(), event);
    }
}

/// Writes the line of each row's curve.
fn write_curves<K: Sink>(
    rack: &Rack,
    curves: &[Curve],
    sets: u32,
    out: &mut K,
) -> Result<(), Failed>
    ensures { SinkAfter K.sink (curve_lines sets rack.now curves.now)
        out.old out.new (is_ok result) }
{
    for i in 0..curves.len() {
        if i >= rack.len() {
            return Ok(());
        }
        let curve = &curves[i];
        match write_curve(out, rack.row(i), sets, curve.lookups(), &curve.all_hits()) {
            Ok(()) => {}
            Err(failed) => return Err(failed),
        }
    }
    Ok(())
}
