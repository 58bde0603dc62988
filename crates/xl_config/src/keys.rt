//! The reading of one key.

ghost use Rattle.std.specs.Prelude.{◌≡◌, ◌≤◌, length, option_map, codes, IfSome, IfOk};
ghost use Rattle.std.specs.List.{list_all};
ghost use Rattle.toml.specs.Data.{get_member};
ghost use Rattle.toml.specs.View.{view, array_view, table_view, items_view};
ghost use Rattle.xl_model.specs.Rows.{is_width, is_name_byte};
ghost use Rattle.xl_config.specs.Keys.{Reads, Fills, found, text_of, array_of, table_of, between, number_in, width_by, width_of, is_name, mode_named, mode_in, kind_named, kind_in, purge_named, purge_in, widths_from, caches_in, range_tlb_by};

use crate::fault::{KeyFault, Rule};
use crate::kind::TableKind;
use toml::value::Array;
use toml::{Table, Value};
use xl_model::{Mode, Purge};

/// The value at a key.
pub(crate) fn at<'a>(table: &'a Table, name: &str) -> Option<&'a Value>
    ensures { option_map (λ v. view v.now) result ≡ get_member name.now (table_view table.now) }
{
    table.get(name)
}

/// The value at a key that must be there.
pub(crate) fn found<'a>(
    row: u32,
    key: u8,
    name: &str,
    table: &'a Table,
) -> Result<&'a Value, KeyFault>
    ensures { Reads (λ v. view v.now) result (found row key name.now (table_view table.now)) }
{
    at(table, name).ok_or(KeyFault {
        row,
        key,
        rule: Rule::Missing,
    })
}

/// A text.
pub(crate) fn text(row: u32, key: u8, value: &Value) -> Result<&str, KeyFault>
    ensures { Reads (λ s. s.now) result (text_of row key (view value.now)) }
{
    value.as_str().ok_or(KeyFault {
        row,
        key,
        rule: Rule::WrongType,
    })
}

/// An array.
pub(crate) fn array(row: u32, key: u8, value: &Value) -> Result<&Array, KeyFault>
    ensures { Reads (λ a. array_view a.now) result (array_of row key (view value.now)) }
{
    value.as_array().ok_or(KeyFault {
        row,
        key,
        rule: Rule::WrongType,
    })
}

/// A table.
pub(crate) fn table(row: u32, key: u8, value: &Value) -> Result<&Table, KeyFault>
    ensures { Reads (λ t. table_view t.now) result (table_of row key (view value.now)) }
{
    value.as_table().ok_or(KeyFault {
        row,
        key,
        rule: Rule::WrongType,
    })
}

/// An integer, where it is from least to most.
fn between(least: u32, most: u32, number: i64) -> Option<u32>
    ensures value { result ≡ between least most number }
    ensures within { IfSome result (λ n. n ≤ most) }
{
    if number >= i64::from(least) && number <= i64::from(most) {
        Some(number as u32)
    } else {
        None
    }
}

/// The number at a key, from least to most.
pub(crate) fn number(
    row: u32,
    key: u8,
    name: &str,
    least: u32,
    most: u32,
    table: &Table,
) -> Result<u32, KeyFault>
    ensures value { Reads (λ n. n) result
        (number_in row key name.now least most (table_view table.now)) }
    ensures within { IfOk result (λ n. n ≤ most) }
{
    let value = found(row, key, name, table)?;
    let number = value.as_integer().ok_or(KeyFault {
        row,
        key,
        rule: Rule::WrongType,
    })?;
    between(least, most, number).ok_or(KeyFault {
        row,
        key,
        rule: Rule::Outside,
    })
}

/// The small number at a key, from least to most.
pub(crate) fn small(
    row: u32,
    key: u8,
    name: &str,
    least: u8,
    most: u8,
    table: &Table,
) -> Result<u8, KeyFault>
    ensures { Reads (λ n. n) result (number_in row key name.now least most (table_view table.now)) }
{
    let number = number(row, key, name, u32::from(least), u32::from(most), table)?;
    Ok(number as u8)
}

/// The widths of recency lists.
const WIDTHS: [u8; 10] = [0, 1, 2, 4, 6, 8, 12, 16, 32, 64];

fn is_width(n: u8) -> bool
    ensures { result ≡ is_width n }
{
    WIDTHS.iter().any(|width| *width == n)
}

/// An integer, where it is a width from `least` on.
fn width_between(least: u8, number: i64) -> Option<u8>
    requires { least ≤ 1 }
    ensures { result ≡ width_by least number }
{
    let width = between(0, 64, number)? as u8;
    if is_width(width) && least <= width {
        Some(width)
    } else {
        None
    }
}

/// A width, from `least` on.
pub(crate) fn width(row: u32, key: u8, least: u8, value: &Value) -> Result<u8, KeyFault>
    requires { least ≤ 1 }
    ensures { Reads (λ n. n) result (width_of row key least (view value.now)) }
{
    let number = value.as_integer().ok_or(KeyFault {
        row,
        key,
        rule: Rule::WrongType,
    })?;
    width_between(least, number).ok_or(KeyFault {
        row,
        key,
        rule: Rule::Outside,
    })
}

fn is_name_byte(b: u8) -> bool
    ensures { result ≡ is_name_byte b }
{
    matches!(b, b'a'..=b'z' | b'0'..=b'9' | b'-' | b'_')
}

pub(crate) fn is_name(text: &str) -> bool
    ensures { result ≡ is_name text.now }
{
    text.len() >= 1 && text.len() <= 16 && all_name_bytes(text.as_bytes())
}

fn all_name_bytes(bytes: &[u8]) -> bool
    ensures { result ≡ list_all is_name_byte bytes.now }
{
    bytes.iter().all(|b| is_name_byte(*b))
}

fn mode_named(text: &str) -> Option<Mode>
    ensures { result ≡ mode_named text.now }
{
    match text {
        "sv39" => Some(Mode::Sv39),
        "sv48" => Some(Mode::Sv48),
        "sv57" => Some(Mode::Sv57),
        _ => None,
    }
}

pub(crate) fn mode(row: u32, table: &Table) -> Result<Mode, KeyFault>
    ensures { Reads (λ m. m) result (mode_in row (table_view table.now)) }
{
    let text = text(row, 2, found(row, 2, "mode", table)?)?;
    mode_named(text).ok_or(KeyFault {
        row,
        key: 2,
        rule: Rule::Outside,
    })
}

fn kind_named(text: &str) -> Option<TableKind>
    ensures { result ≡ kind_named text.now }
{
    match text {
        "radix" => Some(TableKind::Radix),
        "hashed" => Some(TableKind::Hashed),
        "clustered" => Some(TableKind::Clustered),
        "cuckoo" => Some(TableKind::Cuckoo),
        "range" => Some(TableKind::Range),
        _ => None,
    }
}

pub(crate) fn kind(row: u32, table: &Table) -> Result<TableKind, KeyFault>
    ensures { Reads (λ k. k) result (kind_in row (table_view table.now)) }
{
    let text = text(row, 5, found(row, 5, "table", table)?)?;
    kind_named(text).ok_or(KeyFault {
        row,
        key: 5,
        rule: Rule::Outside,
    })
}

fn purge_named(text: &str) -> Option<Purge>
    ensures { result ≡ purge_named text.now }
{
    match text {
        "page" => Some(Purge::Page),
        "space" => Some(Purge::Space),
        "all" => Some(Purge::All),
        _ => None,
    }
}

pub(crate) fn purge(row: u32, table: &Table) -> Result<Purge, KeyFault>
    ensures { Reads (λ p. p) result (purge_in row (table_view table.now)) }
{
    let Some(value) = at(table, "purge") else {
        return Ok(Purge::Page);
    };
    let text = text(row, 6, value)?;
    purge_named(text).ok_or(KeyFault {
        row,
        key: 6,
        rule: Rule::Outside,
    })
}

pub(crate) fn range_tlb(row: u32, table: &Table) -> Result<u8, KeyFault>
    ensures { Reads (λ n. n) result
        (range_tlb_by row (get_member (codes "range_tlb") (table_view table.now))) }
{
    match at(table, "range_tlb") {
        Some(value) => width(row, 21, 0, value),
        None => Ok(0),
    }
}

/// Writes the widths of an array, one after another.
fn widths(row: u32, values: &Array, widths: &mut [u8]) -> Result<(), KeyFault>
    requires { length values.now.items ≤ length widths.old }
    ensures { Fills result widths.new (widths_from row 0 (array_view values.now) widths.old) }
{
    let mut i = 0;
    while i < values.len() {
        widths[i] = width(row, 8, 0, &values[i])?;
        i += 1;
    }
    Ok(())
}

/// Writes the widths of walk caches over zeros, where the key is there.
#[tactic(auto, using(crate::proofs::ItemLemmas::count_view))]
pub(crate) fn caches(
    row: u32,
    count: usize,
    caches: &mut [u8],
    table: &Table,
) -> Result<(), KeyFault>
    requires { count ≤ length caches.old }
    ensures { Fills result caches.new (caches_in row count caches.old (table_view table.now)) }
{
    let Some(value) = at(table, "walk_caches") else {
        return Ok(());
    };
    let values = array(row, 8, value)?;
    if values.len() != count {
        return Err(KeyFault {
            row,
            key: 8,
            rule: Rule::Outside,
        });
    }
    widths(row, values, caches)
}
