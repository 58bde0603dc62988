//! The row.

ghost use Rattle.std.specs.Prelude.{◌≡◌, ◌≤◌, ◌^◌, IsTrue, IfOk};
ghost use Rattle.std.specs.List.{list_all};
ghost use Rattle.xl_model.specs.Rows.{is_width};
ghost use Rattle.xl_cuckoo_walk.specs.Parts.{row_state, table_of};
ghost use Rattle.xl_cuckoo_walk.specs.Openings.{opening_table};

use crate::cache::Sections;
use crate::fence::fence_parts;
use crate::insert::insert_leaf;
use crate::look::{is_met, leaf_of_page};
use crate::parts::Parts;
use crate::protect::protect_leaf;
use crate::relocate::relocate_leaf;
use crate::remove::remove_leaf;
use crate::walk::walk_page;
use std::alloc::Global;
use std::marker::Model;
use xl_cuckoo::Cuckoo;
use xl_model::{Leaf, NoMemory, Order, PageWalk, Perm, Reach, Refused, Structure, Work};
use xl_sections::Counts;

/// A row of elastic cuckoo tables of `D` ways, two to four: a table for each order, and two caches
/// of sections, by which a walk knows the orders and the ways to probe. Contracts see its parts.
/// Nothing is allocated after `open`.
#[derive(Drop)]
pub struct CuckooRow<const D: usize> {
    parts: Parts<D>,
}

impl<const D: usize> Model for CuckooRow<D> {
    ghost use Rattle.xl_cuckoo_walk.specs.Parts.{RowParts, IsRow};

    ghost Value = { RowParts };

    ghost view = { λ r. r.parts };

    ghost invariant = { λ r. IsRow r.parts };
}

/// The loads that were made of the three tables, modulo 2^64.
#[tactic(auto, unfolding(crate::specs::Parts::row_state))]
fn loads_of<const D: usize>(parts: &Parts<D>) -> u64
    ensures { result ≡ (row_state parts.now).loads }
{
    let small = parts.k4.loads().wrapping_add(parts.m2.loads());
    small.wrapping_add(parts.g1.loads())
}

impl<const D: usize> CuckooRow<D> {
    /// An empty row. Each way of its tables has 2^`start_bits` slots and may grow to 2^`cap_bits`;
    /// an insertion goes by `threshold`, `kick_limit` and `migrate` as `Cuckoo::open` says. Leaves
    /// may lie in `sections_2m` sections of 2 MiB and `sections_1g` of 1 GiB, and `caches` has the
    /// widths of the walk caches, that of 2 MiB sections first. All memory that the row needs is
    /// taken here.
    ///
    /// # Errors
    ///
    /// `NoMemory` where there is no memory.
    pub fn open(
        alloc: Global,
        start_bits: u8,
        cap_bits: u8,
        threshold: u8,
        kick_limit: u8,
        migrate: u8,
        sections_2m: u32,
        sections_1g: u32,
        caches: [u8; 2],
    ) -> Result<CuckooRow<D>, NoMemory>
        requires ways { (2 ≤ D) × (D ≤ 4) }
        requires bits { (start_bits ≤ cap_bits) × (cap_bits ≤ 18) }
        requires rules { (threshold ≤ 100) × (kick_limit ≤ 64) }
        requires few { (1 ≤ sections_2m) × (sections_2m ≤ 2 ^ 18) }
        requires many { (1 ≤ sections_1g) × (sections_1g ≤ 2 ^ 12) }
        requires widths { IsTrue (list_all is_width caches) }
        ensures { IfOk result (λ row. row_state row ≡ opening_table D start_bits cap_bits (record {
          threshold = threshold;
          kick_limit = kick_limit;
          migrate = migrate;
          sections_2m = sections_2m;
          sections_1g = sections_1g;
        }) caches) }
    {
        let k4 = Cuckoo::open(alloc, start_bits, cap_bits, threshold, kick_limit, migrate)?;
        let m2 = Cuckoo::open(alloc, start_bits, cap_bits, threshold, kick_limit, migrate)?;
        let g1 = Cuckoo::open(alloc, start_bits, cap_bits, threshold, kick_limit, migrate)?;
        let middle = Counts::open(alloc, sections_2m)?;
        let large = Counts::open(alloc, sections_1g)?;
        let [middle_width, large_width] = caches;
        let middle_cache = Sections::open(alloc, middle_width)?;
        let large_cache = Sections::open(alloc, large_width)?;
        Ok(CuckooRow {
            parts: Parts {
                k4,
                m2,
                g1,
                middle,
                large,
                middle_cache,
                large_cache,
            },
        })
    }

    /// The table of an order.
    pub fn table(&self, order: Order) -> &Cuckoo<D>
        ensures { result.now ≡ table_of order self.entry.now }
    {
        match order {
            Order::K4 => &self.parts.k4,
            Order::M2 => &self.parts.m2,
            Order::G1 => &self.parts.g1,
        }
    }
}

impl<const D: usize> Structure for CuckooRow<D> {
    ghost use Rattle.xl_cuckoo_walk.specs.Parts.{row_state};

    ghost table = { row_state };

    fn meets(&self, space: u16, first: u64, order: Order) -> bool {
        is_met(&self.parts, space, first, order)
    }

    fn leaf_at(&self, space: u16, page: u64) -> Option<Leaf> {
        leaf_of_page(&self.parts, space, page)
    }

    fn insert(&mut self, leaf: Leaf) -> Result<Work, Refused> {
        insert_leaf(&mut self.parts, leaf)
    }

    fn remove(&mut self, space: u16, first: u64, order: Order) -> Result<Work, Refused> {
        remove_leaf(&mut self.parts, space, first, order)
    }

    fn protect(
        &mut self,
        space: u16,
        first: u64,
        order: Order,
        perm: Perm,
    ) -> Result<Work, Refused> {
        protect_leaf(&mut self.parts, space, first, order, perm)
    }

    fn relocate(&mut self, space: u16, first: u64, to: u64, order: Order) -> Result<Work, Refused> {
        relocate_leaf(&mut self.parts, space, first, to, order)
    }

    #[inline]
    fn walk(&mut self, space: u16, page: u64) -> PageWalk {
        walk_page(&mut self.parts, space, page)
    }

    fn fence(&mut self, reach: Reach) -> u64 {
        fence_parts(&mut self.parts, reach)
    }

    fn loads(&self) -> u64 {
        loads_of(&self.parts)
    }
}
