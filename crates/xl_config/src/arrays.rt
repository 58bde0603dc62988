//! The TLB arrays of a row.

ghost use Rattle.std.specs.Prelude.{◌≡◌, ◌≤◌, ◌+◌, ◌==◌, ◌||◌, [], length, string_bytes, true, false, if◌then◌else◌};
ghost use Rattle.std.specs.List.{list_all};
ghost use Rattle.std.specs.BTreeMap.{keys};
ghost use Rattle.toml.specs.View.{view, array_view, table_view};
ghost use Rattle.xl_model.specs.Rows.{levels_rise_from, levels_rise, clash, none_clash};
ghost use Rattle.xl_config.specs.Keys.{Reads};
ghost use Rattle.xl_config.specs.Arrays.{order_named, with_order, order_of, orders_from, orders_in, width_in, is_array_key, only_known, array_in, arrays_from, agree, arrays_in, serves_named, serves_in};

use crate::fault::{KeyFault, Rule};
use crate::keys::{array, at, found, number, small, table as table_of, text, width};
use arrayvec::ArrayVec;
use toml::value::Array;
use toml::{Table, Value};
use xl_model::{Order, Serves, TlbSpec};

fn order_named(text: &str) -> Option<Order>
    ensures { result ≡ order_named text.now }
{
    match text {
        "4k" => Some(Order::K4),
        "2m" => Some(Order::M2),
        "1g" => Some(Order::G1),
        _ => None,
    }
}

/// The array with one order more, which it hasn't yet.
fn with_order(order: Order, spec: TlbSpec) -> Option<TlbSpec>
    ensures { result ≡ with_order order spec }
{
    match order {
        Order::K4 if !spec.k4 => Some(TlbSpec { k4: true, ..spec }),
        Order::M2 if !spec.m2 => Some(TlbSpec { m2: true, ..spec }),
        Order::G1 if !spec.g1 => Some(TlbSpec { g1: true, ..spec }),
        _ => None,
    }
}

/// The array with the order that a value must be.
fn order(row: u32, value: &Value, spec: TlbSpec) -> Result<TlbSpec, KeyFault>
    ensures { Reads (λ t. t) result (order_of row (view value.now) spec) }
{
    let text = text(row, 22, value)?;
    let fault = KeyFault {
        row,
        key: 22,
        rule: Rule::Outside,
    };
    let order = order_named(text).ok_or(fault)?;
    with_order(order, spec).ok_or(fault)
}

/// The array with the orders of these values, one after another.
fn orders_from(row: u32, values: &Array, spec: TlbSpec) -> Result<TlbSpec, KeyFault>
    ensures { Reads (λ t. t) result (orders_from row (array_view values.now) spec) }
{
    let mut spec = spec;
    for value in values {
        spec = order(row, value, spec)?;
    }
    Ok(spec)
}

#[tactic(auto, using(crate::proofs::ItemLemmas::count_view))]
fn orders(row: u32, table: &Table, spec: TlbSpec) -> Result<TlbSpec, KeyFault>
    ensures { Reads (λ t. t) result (orders_in row (table_view table.now) spec) }
{
    let values = array(row, 22, found(row, 22, "orders", table)?)?;
    if values.is_empty() || values.len() > 3 {
        return Err(KeyFault {
            row,
            key: 22,
            rule: Rule::Outside,
        });
    }
    orders_from(row, values, spec)
}

fn serves_named(text: &str) -> Option<Serves>
    ensures { result ≡ serves_named text.now }
{
    match text {
        "all" => Some(Serves::All),
        "fetch" => Some(Serves::Fetch),
        "data" => Some(Serves::Data),
        _ => None,
    }
}

/// The accesses that an array serves: all, where the key isn't there.
fn serves(row: u32, table: &Table) -> Result<Serves, KeyFault>
    ensures { Reads (λ s. s) result (serves_in row (table_view table.now)) }
{
    let Some(value) = at(table, "serves") else {
        return Ok(Serves::All);
    };
    let text = text(row, 22, value)?;
    serves_named(text).ok_or(KeyFault {
        row,
        key: 22,
        rule: Rule::Outside,
    })
}

fn is_array_key(key: &str) -> bool
    ensures { result ≡ is_array_key key.now }
{
    matches!(key, "level" | "sets" | "width" | "orders" | "serves")
}

fn has_array_keys(table: &Table) -> bool
    ensures { result ≡ only_known is_array_key (table_view table.now) }
{
    all_array_keys(table)
}

fn all_array_keys(table: &Table) -> bool
    ensures { result ≡ list_all (λ k. is_array_key (string_bytes k)) (keys table.now) }
{
    table.keys().all(|key| is_array_key(key.as_str()))
}

fn width_at(row: u32, table: &Table) -> Result<u8, KeyFault>
    ensures { Reads (λ n. n) result (width_in row (table_view table.now)) }
{
    width(row, 22, 1, found(row, 22, "width", table)?)
}

/// One array, read whole.
#[tactic(auto, unfolding(crate::specs::Arrays::array_in))]
fn one_array(row: u32, table: &Table) -> Result<TlbSpec, KeyFault>
    ensures { Reads (λ t. t) result (array_in row (table_view table.now)) }
{
    let level = small(row, 22, "level", 1, 3, table)?;
    let sets = number(row, 22, "sets", 1, 16_384, table)?;
    let width = width_at(row, table)?;
    let blank = TlbSpec {
        level,
        sets,
        width,
        k4: false,
        m2: false,
        g1: false,
        serves: Serves::All,
    };
    let spec = orders(row, table, blank)?;
    let serves = serves(row, table)?;
    if u64::from(sets) * u64::from(width) > 16_384 {
        return Err(KeyFault {
            row,
            key: 22,
            rule: Rule::Outside,
        });
    }
    if !has_array_keys(table) {
        return Err(KeyFault {
            row,
            key: 22,
            rule: Rule::NotAllowed,
        });
    }
    Ok(TlbSpec { serves, ..spec })
}

/// All arrays, each whole.
fn arrays_from(row: u32, values: &Array) -> Result<ArrayVec<TlbSpec, 6>, KeyFault>
    requires { length values.now.items ≤ 6 }
    ensures { Reads (λ ts. ts.items) result (arrays_from row (array_view values.now) []) }
{
    let mut arrays = ArrayVec::new();
    for value in values {
        arrays.push(one_array(row, table_of(row, 22, value)?)?);
    }
    Ok(arrays)
}

/// Whether a level is the one before or one more.
fn follows(level: u8, before: u8) -> bool
    ensures { result ≡ ((level == before) || (level == before + 1)) }
{
    level == before || u32::from(level) == u32::from(before) + 1
}

fn levels_from(level: u8, arrays: &[TlbSpec]) -> bool
    ensures { result ≡ levels_rise_from level arrays.now }
{
    let mut before = level;
    for spec in arrays {
        if !follows(spec.level, before) {
            return false;
        }
        before = spec.level;
    }
    true
}

fn levels_rise(arrays: &[TlbSpec]) -> bool
    ensures { result ≡ levels_rise arrays.now }
{
    match arrays {
        [] => true,
        [first, rest @ ..] => first.level == 1 && levels_from(first.level, rest),
    }
}

/// Whether two arrays of one level have an order in common for one kind of access.
fn clash(t: &TlbSpec, u: &TlbSpec) -> bool
    ensures { result ≡ clash t.now u.now }
{
    t.level == u.level
        && t.serves.meets(u.serves)
        && ((t.k4 && u.k4) || ((t.m2 && u.m2) || (t.g1 && u.g1)))
}

/// Whether an array clashes with none of these.
fn clashes_with_none(first: &TlbSpec, rest: &[TlbSpec]) -> bool
    ensures { result ≡ list_all (λ u. if clash first.now u then false else true) rest.now }
{
    rest.iter().all(|spec| !clash(first, spec))
}

/// Whether no two arrays clash.
fn none_clash(arrays: &[TlbSpec]) -> bool
    ensures { result ≡ none_clash arrays.now }
{
    let mut i = 0;
    while i < arrays.len() {
        if !clashes_with_none(&arrays[i], &arrays[i + 1..]) {
            return false;
        }
        i += 1;
    }
    true
}

/// Whether the levels rise from 1 on, and no two arrays of one level have an order in common for
/// one kind of access.
fn agree(arrays: &[TlbSpec]) -> bool
    ensures { result ≡ agree arrays.now }
{
    levels_rise(arrays) && none_clash(arrays)
}

/// All arrays, each whole, and then what they say together.
#[tactic(auto, using(crate::proofs::ItemLemmas::count_view))]
pub(crate) fn arrays(row: u32, table: &Table) -> Result<ArrayVec<TlbSpec, 6>, KeyFault>
    ensures { Reads (λ ts. ts.items) result (arrays_in row (table_view table.now)) }
{
    let Some(value) = at(table, "tlb") else {
        return Ok(ArrayVec::new());
    };
    let values = array(row, 22, value)?;
    if values.len() > 6 {
        return Err(KeyFault {
            row,
            key: 22,
            rule: Rule::Outside,
        });
    }
    let arrays = arrays_from(row, values)?;
    if !agree(arrays.as_slice()) {
        return Err(KeyFault {
            row,
            key: 22,
            rule: Rule::Disagrees,
        });
    }
    Ok(arrays)
}
