//! The rows of a text.

ghost use Rattle.std.specs.Prelude.{◌≡◌, ◌↔◌, ◌≤◌, ◌<◌, Err, None, IfErr, ◌∷◌, [], length, map, option_map, string_bytes, is_some, IfOk, All};
ghost use Rattle.std.specs.List.{list_any, list_all};
ghost use Rattle.std.specs.BTreeMap.{keys};
ghost use Rattle.toml.specs.Data.{as_table};
ghost use Rattle.std.specs.Str.{bytes_eq};
ghost use Rattle.toml.specs.View.{view, array_view, table_view, items_view};
ghost use Rattle.xl_model.specs.Rows.{row_of, IsRow};
ghost use Rattle.xl_config.specs.Keys.{Reads, Gives, name_in};
ghost use Rattle.xl_config.specs.Arrays.{only_known};
ghost use Rattle.xl_config.specs.Tables.{is_known};
ghost use Rattle.xl_config.specs.Rows.{names_of, element_in, row_in, rows_from, all_tables, is_top_key, elements_in, rows_in};
ghost use Rattle.xl_config.specs.Config.{document_of, config, keyed, parsed};

use crate::arrays::arrays;
use crate::fault::{ConfigFault, KeyFault, Rule};
use crate::keys::{
    array, found, is_name, kind, mode, number, purge, small, table as table_of, text,
};
use crate::kind::TableKind;
use crate::tables::{is_known, table};
use arrayvec::ArrayString;
use std::alloc::Global;
use toml::value::Array;
use toml::{Table, Value};
use xl_model::Row;

/// The most bytes that a text may have.
const LIMIT: usize = 65_536;

fn is_taken(name: &str, rows: &[Row]) -> bool
    ensures { result ≡ list_any (bytes_eq name.now) (names_of (map row_of rows.now)) }
{
    any_named(name, rows)
}

fn any_named(name: &str, rows: &[Row]) -> bool
    ensures { result ≡ list_any (λ r. bytes_eq name.now r.name.bytes) rows.now }
{
    rows.iter().any(|row| name == row.name.as_str())
}

fn name(row: u32, rows: &[Row], table: &Table) -> Result<ArrayString<16>, KeyFault>
    ensures { Reads (λ s. s.bytes) result
        (name_in row (names_of (map row_of rows.now)) (table_view table.now)) }
{
    let text = text(row, 1, found(row, 1, "name", table)?)?;
    if !is_name(text) {
        return Err(KeyFault {
            row,
            key: 1,
            rule: Rule::Outside,
        });
    }
    if is_taken(text, rows) {
        return Err(KeyFault {
            row,
            key: 1,
            rule: Rule::Disagrees,
        });
    }
    match ArrayString::from(text) {
        Ok(name) => Ok(name),
        Err(_) => Err(KeyFault {
            row,
            key: 1,
            rule: Rule::Outside,
        }),
    }
}

fn has_row_keys(kind: TableKind, table: &Table) -> bool
    ensures { result ≡ only_known (is_known kind) (table_view table.now) }
{
    all_row_keys(kind, table)
}

fn all_row_keys(kind: TableKind, table: &Table) -> bool
    ensures { result ≡ list_all (λ k. is_known kind (string_bytes k)) (keys table.now) }
{
    table.keys().all(|key| is_known(kind, key.as_str()))
}

/// A row of this number, after others.
#[tactic(auto, unfolding(crate::specs::Rows::row_in))]
fn one_row(row: u32, rows: &[Row], toml: &Table) -> Result<Row, KeyFault>
    ensures { Reads row_of result
        (row_in row (names_of (map row_of rows.now)) (table_view toml.now)) }
{
    let name = name(row, rows, toml)?;
    let mode = mode(row, toml)?;
    let frames = number(row, 3, "frames", 1, 4_194_304, toml)?;
    let spaces = small(row, 4, "spaces", 1, 64, toml)?;
    let kind = kind(row, toml)?;
    let purge = purge(row, toml)?;
    let table = table(kind, row, mode, spaces, toml)?;
    let tlb = arrays(row, toml)?;
    if !has_row_keys(kind, toml) {
        return Err(KeyFault {
            row,
            key: 23,
            rule: Rule::NotAllowed,
        });
    }
    Ok(Row {
        name,
        mode,
        frames,
        spaces: u16::from(spaces),
        purge,
        table,
        tlb,
    })
}

fn all_tables(values: &Array) -> bool
    ensures { result ≡ all_tables (array_view values.now) }
{
    each_table(values)
}

fn each_table(values: &Array) -> bool
    ensures { result ≡ list_all (λ v. is_some (as_table (view v))) values.now.items }
{
    values.iter().all(|value| value.is_table())
}

fn is_top_key(key: &str) -> bool
    ensures { result ≡ is_top_key key.now }
{
    key == "row"
}

fn is_alone(table: &Table) -> bool
    ensures { result ≡ only_known is_top_key (table_view table.now) }
{
    all_top_keys(table)
}

fn all_top_keys(table: &Table) -> bool
    ensures { result ≡ list_all (λ k. is_top_key (string_bytes k)) (keys table.now) }
{
    table.keys().all(|key| is_top_key(key.as_str()))
}

#[tactic(auto, using(crate::proofs::ItemLemmas::count_view), unfolding(crate::specs::Rows::elements_in))]
fn elements(table: &Table) -> Result<&Array, KeyFault>
    ensures reading { Reads (λ a. array_view a.now) result (elements_in (table_view table.now)) }
    ensures few { IfOk result (λ a. length a.now.items ≤ 16) }
{
    let values = array(0, 0, found(0, 0, "row", table)?)?;
    if values.is_empty() || values.len() > 16 {
        return Err(KeyFault {
            row: 0,
            key: 0,
            rule: Rule::Outside,
        });
    }
    if !all_tables(values) {
        return Err(KeyFault {
            row: 0,
            key: 0,
            rule: Rule::WrongType,
        });
    }
    if !is_alone(table) {
        return Err(KeyFault {
            row: 0,
            key: 0,
            rule: Rule::NotAllowed,
        });
    }
    Ok(values)
}

fn element_row(number: u32, rows: &[Row], value: &Value) -> Result<Row, KeyFault>
    ensures { Reads row_of result
        (element_in number (names_of (map row_of rows.now)) (view value.now)) }
{
    one_row(number, rows, table_of(0, 0, value)?)
}

fn rows_from(alloc: Global, values: &Array) -> Result<Vec<Row>, ConfigFault>
    requires { length values.now.items ≤ 16 }
    ensures reading { Gives (λ rows. map row_of rows.items) result
        (keyed (rows_from 1 (array_view values.now) [])) }
    ensures few { IfOk result (λ rows. length rows.items ≤ 16) }
    ensures keys { IfErr result (λ e. ¬ (e ≡ ConfigFault.TooLong) × ¬ (e ≡ ConfigFault.BadToml)) }
{
    let mut rows = Vec::new(alloc);
    let mut number = 1;
    for value in values {
        let row = match element_row(number, rows.as_slice(), value) {
            Ok(row) => row,
            Err(fault) => return Err(fault.of_text()),
        };
        if rows.push(row).is_err() {
            return Err(ConfigFault::NoMemory);
        }
        number += 1;
    }
    Ok(rows)
}

#[tactic(auto, unfolding(crate::specs::Rows::rows_in))]
fn rows(alloc: Global, table: &Table) -> Result<Vec<Row>, ConfigFault>
    ensures reading { Gives (λ rows. map row_of rows.items) result
        (keyed (rows_in (table_view table.now))) }
    ensures fit { IfOk result (λ rows. All IsRow (map row_of rows.items)) }
    ensures few { IfOk result (λ rows. length rows.items ≤ 16) }
    ensures keys { IfErr result (λ e. ¬ (e ≡ ConfigFault.TooLong) × ¬ (e ≡ ConfigFault.BadToml)) }
{
    match elements(table) {
        Ok(values) => rows_from(alloc, values),
        Err(fault) => Err(fault.of_text()),
    }
}

#[tactic(auto, unfolding(crate::specs::Config::is_utf8, crate::specs::Config::document_of))]
fn document(alloc: Global, text: &[u8]) -> Result<Table, ConfigFault>
    ensures reading { Gives table_view result (parsed (document_of text.now)) }
    ensures no_key { IfErr result (λ e. ¬ (e ≡ ConfigFault.TooLong)) }
{
    let Ok(text) = str::from_utf8(text) else {
        return Err(ConfigFault::BadToml);
    };
    match toml::table_from_str(alloc, text) {
        Ok(table) => Ok(table),
        Err(error) => {
            if error.is_memory() {
                Err(ConfigFault::NoMemory)
            } else {
                Err(ConfigFault::BadToml)
            }
        }
    }
}

/// The rows of a configuration: a TOML document of at most 65,536 bytes, with an array `row` of 1
/// to 16 tables. Each row keeps the rules of a row. It is too long where it has more bytes; else it
/// is no TOML where `toml` reads no document; else the first key counts that breaks a rule, the
/// keys of each row in the order of their numbers. Where there is no memory, the answer may be
/// that.
#[tactic(auto, unfolding(crate::specs::Config::config))]
pub fn read(alloc: Global, text: &[u8]) -> Result<Vec<Row>, ConfigFault>
    ensures reading { Gives (λ rows. map row_of rows.items) result (config text.now) }
    ensures fit { IfOk result (λ rows. All IsRow (map row_of rows.items)) }
    ensures few { IfOk result (λ rows. length rows.items ≤ 16) }
    ensures too_long { (result ≡ Err ConfigFault.TooLong) ↔ (65536 < length text.now) }
    ensures bad_toml { result ≡ Err ConfigFault.BadToml → (length text.now ≤ 65536)
        × (document_of text.now ≡ None) }
{
    if text.len() > LIMIT {
        return Err(ConfigFault::TooLong);
    }
    let table = document(alloc, text)?;
    rows(alloc, &table)
}
