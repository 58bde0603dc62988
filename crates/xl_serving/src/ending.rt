//! The end of a report: the rows, and where they are asked for the images.

ghost use Rattle.std.specs.Prelude.{◌≡◌, ◌++◌, true, codes, is_ok};
ghost use Rattle.xl_model.specs.Report.{images_where};
ghost use Rattle.xl_outside.specs.Sinks.{SinkAfter};
ghost use Rattle.xl_report.specs.Json.{json_line};
ghost use Rattle.xl_course.specs.Accounts.{EndAfter};
ghost use Rattle.xl_serving.specs.Plain.{rows_text};

use crate::rows::Rows;
use std::alloc::Global;
use xl_course::Stop;
use xl_outside::{Failed, Sink, put_all};

/// Writes the rows, as JSON or a line for each, and then the images where they are asked for.
pub fn write_end<R: Rows, K: Sink>(
    alloc: Global,
    rows: &R,
    json: bool,
    image: bool,
    out: &mut K,
) -> Result<(), Stop>
    ensures { EndAfter K.sink json
        (rows_text json (R.rows rows.now) ++ images_where image (R.rows rows.now))
        out.old out.new result }
{
    match write_rows(alloc, rows, json, out) {
        Ok(()) => match write_images(rows, image, out) {
            Ok(()) => Ok(()),
            Err(_) => Err(Stop::WriteFault),
        },
        Err(stop) => Err(stop),
    }
}

/// Writes the rows, as JSON or a line for each.
fn write_rows<R: Rows, K: Sink>(
    alloc: Global,
    rows: &R,
    json: bool,
    out: &mut K,
) -> Result<(), Stop>
    ensures { EndAfter K.sink json (rows_text json (R.rows rows.now))
        out.old out.new result }
{
    if json {
        return write_json(alloc, rows, out);
    }
    match rows.write_rows(out) {
        Ok(()) => Ok(()),
        Err(_) => Err(Stop::WriteFault),
    }
}

/// Writes the rows as one line of JSON. Its text is made before any of it is put.
#[tactic(auto, unfolding(xl_report::specs::Json::json_line))]
fn write_json<R: Rows, K: Sink>(alloc: Global, rows: &R, out: &mut K) -> Result<(), Stop>
    ensures { EndAfter K.sink true (json_line (R.rows rows.now))
        out.old out.new result }
{
    let Ok(text) = rows.json(alloc) else {
        return Err(Stop::NoMemory);
    };
    match put_line(out, text.as_str()) {
        Ok(()) => Ok(()),
        Err(_) => Err(Stop::WriteFault),
    }
}

/// Writes a text and a newline.
fn put_line<K: Sink>(out: &mut K, text: &str) -> Result<(), Failed>
    ensures { SinkAfter K.sink (text.now ++ codes "\n")
        out.old out.new (is_ok result) }
{
    match put_all(out, text.as_bytes()) {
        Ok(()) => put_all(out, b"\n"),
        Err(failed) => Err(failed),
    }
}

/// Writes the images where they are asked for.
fn write_images<R: Rows, K: Sink>(rows: &R, image: bool, out: &mut K) -> Result<(), Failed>
    ensures { SinkAfter K.sink (images_where image (R.rows rows.now))
        out.old out.new (is_ok result) }
{
    if image {
        rows.write_images(out)
    } else {
        Ok(())
    }
}
