//! The plain table.

ghost use Rattle.std.specs.Prelude.{◌≡◌, ◌≤◌, ◌^◌, false, [], IfOk};
ghost use Rattle.xl_model.specs.Mapping.{meets_any};
ghost use Rattle.xl_model.specs.Changes.{Insert};
ghost use Rattle.xl_model.specs.Structures.{IsBlock, IsChange};
ghost use Rattle.xl_model_table.specs.Kept.{table_of};

use crate::kept::{any_meets, covering, give_perm, named, place_of, take_out, walk_loads};
use std::alloc::Global;
use std::marker::Model;
use xl_model::{
    Leaf, NoMemory, NoRoom, Order, PageWalk, Perm, Reach, Refused, Structure, Walk, Work,
};

/// A hashed table whose chains are searched leaf by leaf in one list. Nothing is allocated after
/// `open`.
#[derive(Drop)]
pub struct ListTable {
    leaves: Vec<Leaf>,
    buckets: u32,
    entries: u32,
    loads: u64,
}

impl Model for ListTable {
    ghost use Rattle.xl_model.specs.Structures.{TableState};

    ghost Value = { TableState };

    ghost use Rattle.xl_model_table.specs.Kept.{table_of};
    ghost use Rattle.xl_model_table.specs.Plain.{IsPlain};

    ghost view = { λ p. table_of p.buckets p.entries p.loads p.leaves.items };

    ghost invariant = { λ p. IsPlain p.leaves p.buckets p.entries };
}

impl ListTable {
    /// An empty table with this many buckets, and with room for `entries` leaves.
    pub fn open(alloc: Global, buckets: u32, entries: u32) -> Result<ListTable, NoMemory>
        requires buckets_in { (1 ≤ buckets) × (buckets ≤ 2 ^ 20) }
        requires entries_in { (1 ≤ entries) × (entries ≤ 2 ^ 20) }
        ensures { IfOk result (λ p. p ≡ table_of buckets entries 0 []) }
    {
        Ok(ListTable {
            leaves: Vec::with_capacity(alloc, entries as usize)?,
            buckets,
            entries,
            loads: 0,
        })
    }

    /// Adds a leaf that overlaps no other, where there is room.
    fn add(&mut self, leaf: Leaf) -> Result<Work, Refused>
        requires valid { IsBlock self.old.shape leaf.space leaf.first leaf.order }
        requires free { meets_any leaf.space leaf.first leaf.order self.old.leaves ≡ false }
        ensures changes { IsChange (Insert leaf) self.old result self.new }
    {
        if self.leaves.len() >= self.entries as usize {
            return Err(Refused {
                why: NoRoom::NoTable,
                work: Work::none(),
            });
        }
        let place = place_of(&self.leaves, self.buckets, &leaf);
        match self.leaves.insert(place, leaf) {
            Ok(()) => Ok(Work::none()),
            Err(_) => unreachable!(),
        }
    }
}

impl Structure for ListTable {
    ghost table = { λ p. p };

    fn meets(&self, space: u16, first: u64, order: Order) -> bool {
        any_meets(&self.leaves, space, first, order)
    }

    fn leaf_at(&self, space: u16, page: u64) -> Option<Leaf> {
        covering(&self.leaves, space, page)
    }

    fn insert(&mut self, leaf: Leaf) -> Result<Work, Refused> {
        self.add(leaf)
    }

    fn remove(&mut self, space: u16, first: u64, order: Order) -> Result<Work, Refused> {
        take_out(&mut self.leaves, space, first, order);
        Ok(Work::none())
    }

    fn protect(
        &mut self,
        space: u16,
        first: u64,
        order: Order,
        perm: Perm,
    ) -> Result<Work, Refused> {
        give_perm(&mut self.leaves, space, first, order, perm);
        Ok(Work::none())
    }

    fn relocate(&mut self, space: u16, first: u64, to: u64, order: Order) -> Result<Work, Refused> {
        match named(&self.leaves, space, first, order) {
            None => unreachable!(),
            Some(old) => {
                let leaf = Leaf { first: to, ..old };
                match self.add(leaf) {
                    Err(refused) => Err(refused),
                    Ok(_) => self.remove(space, first, order),
                }
            }
        }
    }

    fn walk(&mut self, space: u16, page: u64) -> PageWalk {
        let leaf = self.leaf_at(space, page);
        let loads = walk_loads(&self.leaves, self.buckets, space, page, leaf);
        self.loads = self.loads.wrapping_add(loads);
        PageWalk::Any {
            walk: Walk {
                leaf,
                cache_hits: 0,
            },
        }
    }

    fn fence(&mut self, _to: Reach) -> u64 {
        // That there are no caches is known of the fields alone.
        let _loads = self.loads;
        0
    }

    fn loads(&self) -> u64 {
        self.loads
    }
}
