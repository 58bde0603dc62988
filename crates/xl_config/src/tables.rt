//! The keys of each kind of table.

ghost use Rattle.std.specs.Prelude.{◌≡◌};
ghost use Rattle.toml.specs.View.{table_view};
ghost use Rattle.xl_config.specs.Keys.{Reads};
ghost use Rattle.xl_config.specs.Tables.{radix_in, hashed_in, clustered_in, cuckoo_in, range_in, table_in, is_common_key, is_key_of, is_known};

use crate::fault::{KeyFault, Rule};
use crate::keys::{caches, number, range_tlb, small};
use crate::kind::TableKind;
use toml::Table as Toml;
use xl_model::{Mode, Table};

#[tactic(auto, unfolding(crate::specs::Tables::radix_in))]
fn radix(row: u32, mode: Mode, spaces: u8, table: &Toml) -> Result<Table, KeyFault>
    ensures { Reads (λ t. t) result (radix_in row mode spaces (table_view table.now)) }
{
    let table_frames = number(row, 7, "table_frames", u32::from(spaces), 16_384, table)?;
    let mut widths = [0; 4];
    caches(row, mode.levels() - 1, &mut widths, table)?;
    Ok(Table::Radix {
        table_frames,
        caches: widths,
    })
}

#[tactic(auto, unfolding(crate::specs::Tables::hashed_in))]
fn hashed(row: u32, table: &Toml) -> Result<Table, KeyFault>
    ensures { Reads (λ t. t) result (hashed_in row (table_view table.now)) }
{
    let buckets = number(row, 9, "buckets", 1, 1_048_576, table)?;
    let entries = number(row, 10, "entries", 1, 1_048_576, table)?;
    Ok(Table::Hashed { buckets, entries })
}

#[tactic(auto, unfolding(crate::specs::Tables::clustered_in))]
fn clustered(row: u32, table: &Toml) -> Result<Table, KeyFault>
    ensures { Reads (λ t. t) result (clustered_in row (table_view table.now)) }
{
    let buckets = number(row, 9, "buckets", 1, 1_048_576, table)?;
    let blocks = number(row, 11, "blocks", 1, 131_072, table)?;
    Ok(Table::Clustered { buckets, blocks })
}

#[tactic(auto, unfolding(crate::specs::Tables::cuckoo_in))]
fn cuckoo(row: u32, table: &Toml) -> Result<Table, KeyFault>
    ensures { Reads (λ t. t) result (cuckoo_in row (table_view table.now)) }
{
    let mut widths = [0; 2];
    caches(row, 2, &mut widths, table)?;
    let ways = small(row, 12, "ways", 2, 4, table)?;
    let start_bits = small(row, 13, "start_bits", 0, 18, table)?;
    let cap_bits = small(row, 14, "cap_bits", start_bits, 18, table)?;
    let threshold = small(row, 15, "threshold", 1, 100, table)?;
    let kick_limit = small(row, 16, "kick_limit", 1, 64, table)?;
    let migrate = small(row, 17, "migrate", 1, 64, table)?;
    let sections_2m = number(row, 18, "sections_2m", 1, 262_144, table)?;
    let sections_1g = number(row, 19, "sections_1g", 1, 4_096, table)?;
    Ok(Table::Cuckoo {
        ways,
        start_bits,
        cap_bits,
        threshold,
        kick_limit,
        migrate,
        sections_2m,
        sections_1g,
        caches: widths,
    })
}

#[tactic(auto, unfolding(crate::specs::Tables::range_in))]
fn range(row: u32, table: &Toml) -> Result<Table, KeyFault>
    ensures { Reads (λ t. t) result (range_in row (table_view table.now)) }
{
    let ranges = number(row, 20, "ranges", 1, 65_536, table)?;
    let range_tlb = range_tlb(row, table)?;
    Ok(Table::Range { ranges, range_tlb })
}

pub(crate) fn table(
    kind: TableKind,
    row: u32,
    mode: Mode,
    spaces: u8,
    table: &Toml,
) -> Result<Table, KeyFault>
    ensures { Reads (λ t. t) result (table_in kind row mode spaces (table_view table.now)) }
{
    match kind {
        TableKind::Radix => radix(row, mode, spaces, table),
        TableKind::Hashed => hashed(row, table),
        TableKind::Clustered => clustered(row, table),
        TableKind::Cuckoo => cuckoo(row, table),
        TableKind::Range => range(row, table),
    }
}

fn is_common_key(key: &str) -> bool
    ensures { result ≡ is_common_key key.now }
{
    matches!(
        key,
        "name" | "mode" | "frames" | "spaces" | "table" | "purge" | "tlb"
    )
}

fn is_key_of(kind: TableKind, key: &str) -> bool
    ensures { result ≡ is_key_of kind key.now }
{
    match kind {
        TableKind::Radix => matches!(key, "table_frames" | "walk_caches"),
        TableKind::Hashed => matches!(key, "buckets" | "entries"),
        TableKind::Clustered => matches!(key, "buckets" | "blocks"),
        TableKind::Cuckoo => {
            matches!(
                key,
                "walk_caches"
                    | "ways"
                    | "start_bits"
                    | "cap_bits"
                    | "threshold"
                    | "kick_limit"
                    | "migrate"
                    | "sections_2m"
                    | "sections_1g"
            )
        }
        TableKind::Range => matches!(key, "ranges" | "range_tlb"),
    }
}

pub(crate) fn is_known(kind: TableKind, key: &str) -> bool
    ensures { result ≡ is_known kind key.now }
{
    is_common_key(key) || is_key_of(kind, key)
}
