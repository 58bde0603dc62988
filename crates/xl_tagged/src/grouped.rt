//! The table of a grouping.

ghost use Rattle.std.specs.Prelude.{◌≡◌, ◌≤◌, ◌^◌, [], IfOk};
ghost use Rattle.xl_tagged.specs.Forms.{most_tags};
ghost use Rattle.xl_tagged.specs.Slots.{chained, table_in};

use crate::grouping::Grouping;
use crate::slots::Slots;
use crate::smaller::Smaller;
use crate::steps::{add, is_met, leaf_of_page, move_to, set_perm, take_out, walk_page};
use std::alloc::Global;
use std::marker::Model;
use xl_model::{Leaf, NoMemory, Order, PageWalk, Perm, Reach, Refused, Structure, Work};
use xl_pte::words_read_back;

/// A table of leaf words in slots under tags: a search follows the chain of the tag's bucket.
/// Contracts see its chains. Nothing is allocated after `open`.
#[derive(Drop)]
pub struct Grouped<G: Grouping> {
    chains: G::Chains,
    smaller: Smaller,
}

impl<G: Grouping> Model for Grouped<G> {
    ghost use Rattle.xl_chain.specs.Held.{ChainState};
    ghost use Rattle.xl_tagged.specs.Groups.{IsWhole};

    ghost Value = { ChainState };

    ghost view = { λ t. G.Chains.state t.chains };

    ghost invariant = { λ t. IsWhole G.Chains.form G.kept (G.Chains.state t.chains) t.smaller };
}

impl<G: Grouping> Grouped<G> {
    /// An empty table with this many buckets, and with room for this many tags.
    ///
    /// # Errors
    ///
    /// `NoMemory` where there is no memory.
    pub fn open(alloc: Global, buckets: u32, tags: u32) -> Result<Grouped<G>, NoMemory>
        requires buckets_in { (1 ≤ buckets) × (buckets ≤ 2 ^ 20) }
        requires tags_in { (1 ≤ tags) × (tags ≤ most_tags G.Chains.form) }
        ensures { IfOk result (λ t. table_in G.Chains.form t
            ≡ chained G.Chains.form buckets tags 0 [] []) }
    {
        words_read_back();
        let chains = G::open(alloc, buckets, tags)?;
        let smaller = Smaller::open(alloc, tags)?;
        Ok(Grouped { chains, smaller })
    }

    /// The chains.
    pub fn table(&self) -> &G::Chains
        ensures { G.Chains.state result.now ≡ self.entry.now }
    {
        &self.chains
    }

    /// The chains, where the table itself has no more use.
    pub fn into_table(self) -> G::Chains
        ensures { G.Chains.state result ≡ self }
    {
        self.chains
    }
}

impl<G: Grouping> Structure for Grouped<G> {
    ghost use Rattle.xl_tagged.specs.Slots.{table_in};

    ghost table = { λ t. table_in G.Chains.form t };

    fn meets(&self, space: u16, first: u64, order: Order) -> bool {
        is_met::<G>(&self.chains, &self.smaller, space, first, order)
    }

    fn leaf_at(&self, space: u16, page: u64) -> Option<Leaf> {
        leaf_of_page::<G>(&self.chains, &self.smaller, space, page)
    }

    fn insert(&mut self, leaf: Leaf) -> Result<Work, Refused> {
        add::<G>(&mut self.chains, &mut self.smaller, leaf)
    }

    fn remove(&mut self, space: u16, first: u64, order: Order) -> Result<Work, Refused> {
        take_out::<G>(&mut self.chains, &mut self.smaller, space, first, order)
    }

    fn protect(
        &mut self,
        space: u16,
        first: u64,
        order: Order,
        perm: Perm,
    ) -> Result<Work, Refused> {
        set_perm::<G>(&mut self.chains, &self.smaller, space, first, order, perm)
    }

    fn relocate(&mut self, space: u16, first: u64, to: u64, order: Order) -> Result<Work, Refused> {
        move_to::<G>(&mut self.chains, &mut self.smaller, space, first, to, order)
    }

    fn walk(&mut self, space: u16, page: u64) -> PageWalk {
        walk_page::<G>(&mut self.chains, &self.smaller, space, page)
    }

    fn fence(&mut self, _to: Reach) -> u64 {
        0
    }

    fn loads(&self) -> u64 {
        self.chains.loads()
    }
}
