//! The rows of a report as JSON.

ghost use Rattle.std.specs.Prelude.{◌≡◌, ◌≤◌, All, IfOk, OnOk, false, length, map, string_bytes};
ghost use Rattle.serde_json.specs.Data.{array, object, no_members, string, put as with_member};
ghost use Rattle.serde_json.specs.View.{items_of, items_view, members_view, view};
ghost use Rattle.serde_json.specs.Written.{compact_text, has_float};
ghost use Rattle.xl_model.specs.Lines.{hex16};
ghost use Rattle.xl_report.specs.Json.{amount, amounts, arrays_of, named_members, objects_of, pair, pairs, row_object, objects_text, verdict_members, walk_members, change_members};

use crate::line::hex_text;
use serde_json::{Map, Value, push, put};
use std::alloc::{AllocError, Global};
use std::str;
use xl_model::{Counts, NoMemory, Row};

/// The rows as the text of a JSON array with an object for each row. Its keys are those of the
/// lines of rows, and `name`; they are in rising order.
///
/// # Errors
///
/// `NoMemory` where there is no memory.
pub fn json(alloc: Global, rows: &Vec<Row>, counts: &Vec<Counts>) -> Result<String, NoMemory>
    requires lengths { length counts.now.items ≡ length rows.now.items }
    requires arrays { All (λ c. c.arrays ≤ 6) counts.now.items }
    ensures { IfOk result (λ s.
        string_bytes s ≡ objects_text (objects_of rows.now.items counts.now.items)) }
{
    let mut objects = Vec::new(alloc);
    for i in 0..rows.len() {
        push(&mut objects, row_value(alloc, &rows[i], &counts[i])?)?;
    }
    text(alloc, objects)
}

/// The object of a row.
///
/// # Errors
///
/// `NoMemory` where there is no memory.
pub fn row_value(alloc: Global, row: &Row, counts: &Counts) -> Result<Value, NoMemory>
    requires { counts.now.arrays ≤ 6 }
    ensures { IfOk result (λ v. view v ≡ row_object row.now.name.bytes counts.now) }
{
    Ok(Value::Object(members(alloc, row.name.as_str(), counts)?))
}

/// The text of objects, in an array.
///
/// # Errors
///
/// `NoMemory` where there is no memory.
pub fn text(alloc: Global, objects: Vec<Value>) -> Result<String, NoMemory>
    requires { has_float (array (items_view objects.items)) ≡ false }
    ensures { IfOk result (λ s. string_bytes s ≡ objects_text (map view objects.items)) }
{
    Ok(Value::Array(objects).to_string(alloc)?)
}

/// The members of a row's object.
fn members(alloc: Global, name: &str, counts: &Counts) -> Result<Map<String, Value>, AllocError>
    requires { counts.now.arrays ≤ 6 }
    ensures { IfOk result (λ m. object (members_view m.entries) ≡ row_object name.now counts.now) }
{
    let mut map = Map::new(alloc);
    put_verdicts(&mut map, alloc, counts)?;
    put_walks(&mut map, alloc, counts)?;
    put_changes(&mut map, alloc, counts)?;
    put_named(&mut map, alloc, name, counts)?;
    Ok(map)
}

/// Puts a count under a key.
fn put_count(
    map: &mut Map<String, Value>,
    alloc: Global,
    key: &str,
    count: u64,
) -> Result<(), AllocError>
    ensures { OnOk result (members_view map.new.entries
        ≡ with_member key.now (amount count) (members_view map.old.entries)) }
{
    put(map, alloc, key, Value::from(count))
}

#[tactic(auto, unfolding(crate::specs::Json::verdict_members))]
fn put_verdicts(
    map: &mut Map<String, Value>,
    alloc: Global,
    counts: &Counts,
) -> Result<(), AllocError>
    ensures { OnOk result (members_view map.new.entries
        ≡ verdict_members counts.now (members_view map.old.entries)) }
{
    put_count(map, alloc, "accesses", counts.accesses)?;
    put_count(map, alloc, "ok", counts.ok)?;
    put_count(map, alloc, "unmapped", counts.unmapped)?;
    put_count(map, alloc, "denied", counts.denied)?;
    put_count(map, alloc, "notcanonical", counts.not_canonical)?;
    put_count(map, alloc, "accepted", counts.accepted)
}

#[tactic(auto, unfolding(crate::specs::Json::walk_members))]
fn put_walks(map: &mut Map<String, Value>, alloc: Global, counts: &Counts) -> Result<(), AllocError>
    ensures { OnOk result (members_view map.new.entries
        ≡ walk_members counts.now (members_view map.old.entries)) }
{
    put_count(map, alloc, "walks", counts.walks)?;
    put_count(map, alloc, "reads", counts.reads)?;
    put_count(map, alloc, "wchits", counts.wc_hits)?;
    put_count(map, alloc, "fills", counts.fills)
}

#[tactic(auto, unfolding(crate::specs::Json::change_members))]
fn put_changes(
    map: &mut Map<String, Value>,
    alloc: Global,
    counts: &Counts,
) -> Result<(), AllocError>
    ensures { OnOk result (members_view map.new.entries
        ≡ change_members counts.now (members_view map.old.entries)) }
{
    put_count(map, alloc, "kicks", counts.kicks)?;
    put_count(map, alloc, "undone", counts.undone)?;
    put_count(map, alloc, "migrated", counts.migrated)?;
    put_count(map, alloc, "growths", counts.growths)?;
    put_count(map, alloc, "fences", counts.fences)?;
    put_count(map, alloc, "invalidated", counts.invalidated)
}

#[tactic(auto, unfolding(crate::specs::Json::named_members))]
fn put_named(
    map: &mut Map<String, Value>,
    alloc: Global,
    name: &str,
    counts: &Counts,
) -> Result<(), AllocError>
    requires { counts.now.arrays ≤ 6 }
    ensures { OnOk result (members_view map.new.entries
        ≡ named_members name.now counts.now (members_view map.old.entries)) }
{
    put(map, alloc, "name", Value::try_from_str(alloc, name)?)?;
    put(map, alloc, "refused", counts_value(alloc, &counts.refused)?)?;
    put(map, alloc, "pasum", hex_value(alloc, counts.pasum)?)?;
    put(map, alloc, "tlb", arrays_value(alloc, counts)?)
}

/// Counts in a list.
fn counts_value(alloc: Global, counts: &[u64]) -> Result<Value, AllocError>
    ensures { IfOk result (λ v. view v ≡ amounts counts.now) }
{
    let mut values = Vec::new(alloc);
    for count in counts {
        values.push(Value::from(*count))?;
    }
    Ok(Value::Array(values))
}

/// The hits and the misses of a row's arrays.
fn arrays_value(alloc: Global, counts: &Counts) -> Result<Value, AllocError>
    requires { counts.now.arrays ≤ 6 }
    ensures { IfOk result (λ v. view v ≡ arrays_of counts.now) }
{
    pairs_value(alloc, counts.arrays, &counts.hits, &counts.misses)
}

/// The hits and the misses of `count` arrays.
fn pairs_value(
    alloc: Global,
    count: usize,
    hits: &[u64],
    misses: &[u64],
) -> Result<Value, AllocError>
    requires count { count ≤ 6 }
    requires hits { length hits.now ≡ 6 }
    requires misses { length misses.now ≡ 6 }
    ensures { IfOk result (λ v. view v ≡ array (items_of (pairs count hits.now misses.now))) }
{
    let mut values = Vec::new(alloc);
    for i in 0..count {
        values.push(pair_value(alloc, hits[i], misses[i])?)?;
    }
    Ok(Value::Array(values))
}

/// The hits and the misses of an array.
fn pair_value(alloc: Global, hits: u64, misses: u64) -> Result<Value, AllocError>
    ensures { IfOk result (λ v. view v ≡ pair hits misses) }
{
    let mut values = Vec::new(alloc);
    values.push(Value::from(hits))?;
    values.push(Value::from(misses))?;
    Ok(Value::Array(values))
}

/// A number as the text of its 16 hexadecimal digits.
#[tactic(auto, unfolding(xl_model::specs::Lines::hex16))]
fn hex_value(alloc: Global, n: u64) -> Result<Value, AllocError>
    ensures { IfOk result (λ v. view v ≡ string (hex16 n)) }
{
    let digits = hex_text(n);
    match str::from_utf8(&digits) {
        Ok(text) => Value::try_from_str(alloc, text),
        Err(_) => unreachable!(),
    }
}
