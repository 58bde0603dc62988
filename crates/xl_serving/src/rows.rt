//! What a script is served to.

ghost use Rattle.std.specs.Prelude.{◌≡◌, ◌<◌, ◌≤◌, ◌++◌, List, [], ◌∷◌, true, length, string_bytes, is_ok, IfOk, OnOk, OnErr};
ghost use Rattle.xl_model.specs.Items.{areas_after};
ghost use Rattle.xl_model.specs.Rows.{row_of, IsRow};
ghost use Rattle.xl_model.specs.Scenes.{Served, opened, scenes_after};
ghost use Rattle.xl_model.specs.Report.{row_lines, images_lines};
ghost use Rattle.xl_outside.specs.Sinks.{SinkAfter};
ghost use Rattle.xl_report.specs.Json.{row_objects, objects_text};
ghost use Rattle.xl_course.specs.Serving.{HasServed};
ghost use Rattle.xl_serving.specs.Plain.{plain};
ghost use Rattle.xl_serving.specs.Serving.{scene_of};
ghost use Rattle.xl_serving.specs.Batches.{gaps, items_batched};

use crate::batch::BatchedEvent;
use std::alloc::Global;
use xl_areas::Areas;
use xl_lackey::Access;
use xl_model::{Item, NoMemory, Row};
use xl_outside::{Failed, Sink};

/// Rows that are served: each item, with the events of its demand, by one row after another.
pub trait Rows: Sized {
    /// The rows with their states, in the order in which they were added.
    ghost rows: { Self → List Served };

    /// Opens a row and puts it last, in its opening state. All memory that it wants is taken here;
    /// where there is none, the rows are as before.
    fn add(&mut self, alloc: Global, row: Row) -> Result<(), NoMemory>
        requires row { IsRow (row_of row) }
        requires few { length (rows self.old) < 16 }
        ensures added { OnOk result (rows self.new ≡ rows self.old ++ opened (row_of row ∷ [])) }
        ensures none { OnErr result (rows self.new ≡ rows self.old) };

    /// Serves an item, where these areas were declared, and writes its lines.
    fn answer<K: Sink>(&mut self, item: Item, areas: &Areas, out: &mut K) -> Result<(), Failed>
        requires { areas_after item areas.now ≡ areas.now }
        ensures { HasServed plain K.sink true (item ∷ [])
            (scene_of (rows self.old) areas.now) (scene_of (rows self.new) areas.now)
            out.old out.new (is_ok result) };

    /// Serves accesses, with events among them, where these areas were declared, and writes no
    /// line.
    fn serve_batch(&mut self, accesses: &[Access], events: &[BatchedEvent], areas: &Areas)
        requires { gaps events.now ≤ length accesses.now }
        ensures { scene_of (rows self.new) areas.now ≡ scenes_after
            (items_batched accesses.now events.now) (scene_of (rows self.old) areas.now) };

    /// Writes a line for each row.
    fn write_rows<K: Sink>(&self, out: &mut K) -> Result<(), Failed>
        ensures { SinkAfter K.sink (row_lines (rows self.now))
            out.old out.new (is_ok result) };

    /// The rows as the text of a JSON array, with an object for each row. Where there is no memory,
    /// the answer may be that.
    fn json(&self, alloc: Global) -> Result<String, NoMemory>
        ensures { IfOk result (λ text.
            string_bytes text ≡ objects_text (row_objects (rows self.now))) };

    /// Writes the words of each radix table that are not 0, row by row.
    fn write_images<K: Sink>(&self, out: &mut K) -> Result<(), Failed>
        ensures { SinkAfter K.sink (images_lines (rows self.now))
            out.old out.new (is_ok result) };
}
