//! A rack as the rows that a script is served to.

ghost use Rattle.std.specs.Prelude.{is_ok};
ghost use Rattle.xl_model.specs.Report.{row_lines};
ghost use Rattle.xl_outside.specs.Sinks.{SinkAfter};

use crate::image::write_images;
use crate::object::rows_json;
use crate::rack::Rack;
use std::alloc::Global;
use xl_areas::Areas;
use xl_lackey::Access;
use xl_model::{Item, NoMemory, Row};
use xl_outside::{Failed, Sink};
use xl_report::write_row;
use xl_serving::{BatchedEvent, Rows};

/// Writes the line of each row.
pub(crate) fn write_rows<K: Sink>(rack: &Rack, out: &mut K) -> Result<(), Failed>
    ensures { SinkAfter K.sink (row_lines rack.now) out.old out.new
        (is_ok result) }
{
    for i in 0..rack.len() {
        match write_row(out, rack.row(i), &rack.counts(i)) {
            Ok(()) => {}
            Err(failed) => return Err(failed),
        }
    }
    Ok(())
}

impl Rows for Rack {
    ghost rows = { λ rack. rack };

    fn add(&mut self, alloc: Global, row: Row) -> Result<(), NoMemory> {
        Rack::add(self, alloc, row)
    }

    fn answer<K: Sink>(&mut self, item: Item, areas: &Areas, out: &mut K) -> Result<(), Failed> {
        Rack::answer(self, item, areas, out)
    }

    fn serve_batch(&mut self, accesses: &[Access], events: &[BatchedEvent], areas: &Areas) {
        Rack::serve_batch(self, accesses, events, areas)
    }

    fn write_rows<K: Sink>(&self, out: &mut K) -> Result<(), Failed> {
        write_rows(self, out)
    }

    fn json(&self, alloc: Global) -> Result<String, NoMemory> {
        rows_json(self, alloc)
    }

    fn write_images<K: Sink>(&self, out: &mut K) -> Result<(), Failed> {
        write_images(self, out)
    }
}
