//! A row of the configuration and its counts.

ghost use Rattle.std.specs.Prelude.{◌≡◌};
ghost use Rattle.xl_model.specs.Rows.{serve_together};
ghost use Rattle.xl_model.specs.Tlb.{serves_as};
ghost use Rattle.xl_model.specs.declared.row.Serves.TheVariants.{All};

use crate::address::{Kind, Mode};
use arrayvec::{ArrayString, ArrayVec};

/// The purge, which is the TLB invalidation by a change itself: what an accepted unmap, protect or
/// move removes from the TLB arrays. The leaf as it was before, all leaves of its space, or all.
#[derive(Clone, Copy)]
pub enum Purge {
    Page,
    Space,
    All,
}

/// The accesses that a TLB array serves: all, fetches, or data (loads and stores).
#[derive(Clone, Copy)]
pub enum Serves {
    All,
    Fetch,
    Data,
}

impl Default for Serves {
    fn default() -> Serves
        ensures { result ≡ All }
    {
        Serves::All
    }
}

impl Serves {
    /// Whether it serves an access of this kind.
    #[inline(always)]
    pub fn serves(self, kind: Kind) -> bool
        ensures { result ≡ serves_as self kind }
    {
        match (self, kind) {
            (Serves::All, _) => true,
            (Serves::Fetch, Kind::Fetch) => true,
            (Serves::Fetch, Kind::Load | Kind::Store) => false,
            (Serves::Data, Kind::Fetch) => false,
            (Serves::Data, Kind::Load | Kind::Store) => true,
        }
    }

    /// Whether both serve one kind of access: not one fetches and the other data.
    pub fn meets(self, other: Serves) -> bool
        ensures { result ≡ serve_together self other }
    {
        match (self, other) {
            (Serves::Fetch, Serves::Data) | (Serves::Data, Serves::Fetch) => false,
            _ => true,
        }
    }
}

/// A TLB array: its level from 1, its sets, the ways of each set, the orders that it holds, and the
/// accesses that it serves.
#[derive(Clone, Copy, Default)]
pub struct TlbSpec {
    pub level: u8,
    pub sets: u32,
    pub width: u8,
    pub k4: bool,
    pub m2: bool,
    pub g1: bool,
    pub serves: Serves,
}

/// A table kind with its parameters.
#[derive(Clone, Copy)]
pub enum Table {
    /// `caches` are the widths of the walk caches, node level 0 first; those after the first
    /// `levels - 1` are 0.
    Radix {
        table_frames: u32,
        caches: [u8; 4],
    },
    Hashed {
        buckets: u32,
        entries: u32,
    },
    Clustered {
        buckets: u32,
        blocks: u32,
    },
    /// `caches` are the widths of the caches of 2 MiB sections and of 1 GiB sections.
    Cuckoo {
        ways: u8,
        start_bits: u8,
        cap_bits: u8,
        threshold: u8,
        kick_limit: u8,
        migrate: u8,
        sections_2m: u32,
        sections_1g: u32,
        caches: [u8; 2],
    },
    Range {
        ranges: u32,
        range_tlb: u8,
    },
}

/// A row of the configuration: one translation design.
#[derive(Drop)]
pub struct Row {
    pub name: ArrayString<16>,
    pub mode: Mode,
    pub frames: u32,
    pub spaces: u16,
    pub purge: Purge,
    pub table: Table,
    pub tlb: ArrayVec<TlbSpec, 6>,
}

/// The counts of a row, each modulo 2^64. `refused` has refusals 1 to 9 in order; `hits` and
/// `misses` have one place per TLB array, and are 0 from `arrays` on, which is their number. Counts
/// that rise together aren't side by side: LLVM would take both as one vector, at twice the
/// instructions.
#[derive(Clone, Copy, Default)]
pub struct Counts {
    pub accesses: u64,
    pub unmapped: u64,
    pub ok: u64,
    pub denied: u64,
    pub not_canonical: u64,
    pub accepted: u64,
    pub refused: [u64; 9],
    pub walks: u64,
    pub reads: u64,
    pub wc_hits: u64,
    pub fills: u64,
    pub kicks: u64,
    pub undone: u64,
    pub migrated: u64,
    pub growths: u64,
    pub fences: u64,
    pub invalidated: u64,
    pub pasum: u64,
    pub arrays: usize,
    pub hits: [u64; 6],
    pub misses: [u64; 6],
}
