//! The hashed table.

use crate::slots::{give, put, take};
use std::alloc::Global;
use xl_chain::Chains;
use xl_model::{Full, Leaf, NoMemory, Order, Perm};
use xl_pte::leaf_word;
use xl_tagged::{Grouped, Grouping, tag_of};

/// One page under a tag.
pub struct Single;

impl Grouping for Single {
    type Chains = Chains<1>;

    ghost kept = { λ _. Unit {0} };

    fn open(alloc: Global, buckets: u32, tags: u32) -> Result<Chains<1>, NoMemory> {
        Chains::open(alloc, buckets, tags)
    }

    fn put(chains: &mut Chains<1>, leaf: Leaf) -> Result<(), Full> {
        let tag = tag_of(1, leaf.space, leaf.order, leaf.first);
        put(chains, tag, leaf_word(leaf.frame, leaf.perm))
    }

    fn take(chains: &mut Chains<1>, space: u16, first: u64, order: Order) {
        take(chains, tag_of(1, space, order, first));
    }

    fn give(chains: &mut Chains<1>, space: u16, first: u64, order: Order, perm: Perm) {
        give(chains, tag_of(1, space, order, first), perm);
    }
}

/// A hashed table: the leaf of each tag is in an entry of its own, and a search follows the chain
/// of the tag's bucket. Contracts see its chains. Nothing is allocated after `open`.
pub type Hashed = Grouped<Single>;
