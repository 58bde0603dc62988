//! The rows of a rack as JSON.

ghost use Rattle.std.specs.Prelude.{◌≡◌, IfOk, string_bytes};
ghost use Rattle.xl_report.specs.Json.{row_objects, objects_text};

use crate::rack::Rack;
use serde_json::push;
use std::alloc::Global;
use xl_model::NoMemory;
use xl_report::{row_value, text};

/// The rows as the text of a JSON array, with an object for each row.
///
/// # Errors
///
/// `NoMemory` where there is no memory.
pub(crate) fn rows_json(rack: &Rack, alloc: Global) -> Result<String, NoMemory>
    ensures { IfOk result (λ s. string_bytes s ≡ objects_text (row_objects rack.now)) }
{
    let mut objects = Vec::new(alloc);
    for i in 0..rack.len() {
        push(
            &mut objects,
            row_value(alloc, rack.row(i), &rack.counts(i))?,
        )?;
    }
    text(alloc, objects)
}
