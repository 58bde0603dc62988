//! The end of a report.

ghost use Rattle.std.specs.Prelude.{◌≡◌, is_ok};
ghost use Rattle.xl_outside.specs.Sinks.{SinkAfter};
ghost use Rattle.xl_harting.specs.Harting.{counts_lines, harts_lines};

use xl_hart_report::{write_all_counts, write_hart_counts};
use xl_harts::Harts;
use xl_outside::{Failed, Sink};

/// Writes a line for each hart, and one for all of them.
pub(crate) fn write_end<K: Sink>(harts: &Harts, out: &mut K) -> Result<(), Failed>
    ensures { SinkAfter K.sink (harts_lines harts.now) out.old out.new
        (is_ok result) }
{
    match write_each(harts, out) {
        Ok(()) => write_all_counts(out, &harts.all()),
        Err(failed) => Err(failed),
    }
}

/// Writes a line for each hart.
fn write_each<K: Sink>(harts: &Harts, out: &mut K) -> Result<(), Failed>
    ensures { SinkAfter K.sink (counts_lines 0 harts.now.harts) out.old out.new
        (is_ok result) }
{
    for hart in 0..harts.len() {
        match write_hart_counts(out, hart, &harts.counts(hart)) {
            Ok(()) => {}
            Err(failed) => return Err(failed),
        }
    }
    Ok(())
}
