//! The clustered table.

use crate::slots::{give, put, take};
use std::alloc::Global;
use xl_chain::Chains;
use xl_model::{Full, Leaf, NoMemory, Order, Perm};
use xl_pte::leaf_word;
use xl_tagged::{Grouped, Grouping, slot_of, tag_of};

/// Sixteen consecutive pages of an order, a block, under a tag.
pub struct Sixteens;

impl Grouping for Sixteens {
    ghost use Rattle.xl_clustered.specs.Blocks.{AreBlocks};

    type Chains = Chains<17>;

    ghost kept = { AreBlocks };

    fn open(alloc: Global, buckets: u32, tags: u32) -> Result<Chains<17>, NoMemory> {
        Chains::open(alloc, buckets, tags)
    }

    fn put(chains: &mut Chains<17>, leaf: Leaf) -> Result<(), Full> {
        let tag = tag_of(16, leaf.space, leaf.order, leaf.first);
        let slot = slot_of(16, leaf.order, leaf.first);
        put(chains, tag, slot, leaf_word(leaf.frame, leaf.perm))
    }

    fn take(chains: &mut Chains<17>, space: u16, first: u64, order: Order) {
        let slot = slot_of(16, order, first);
        take(chains, tag_of(16, space, order, first), slot);
    }

    fn give(chains: &mut Chains<17>, space: u16, first: u64, order: Order, perm: Perm) {
        let slot = slot_of(16, order, first);
        give(chains, tag_of(16, space, order, first), slot, perm);
    }
}

/// A clustered table: sixteen consecutive pages of an order, a block, have one tag and one entry,
/// and a search follows the chain of the tag's bucket. Contracts see its chains. Nothing is
/// allocated after `open`.
pub type Clustered = Grouped<Sixteens>;
