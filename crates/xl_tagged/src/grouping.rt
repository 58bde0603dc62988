//! Groupings of pages under tags: how a leaf's word comes into its slot, changes there and goes.

ghost use Rattle.std.specs.Prelude.{◌≡◌, ◌<◌, ◌≤◌, ◌^◌, List, IfOk, OnOk, OnErr};
ghost use Rattle.xl_model.specs.Chains.{leaf_tag};
ghost use Rattle.xl_chain.specs.Held.{Held};
ghost use Rattle.xl_tagged.specs.Forms.{group_of, most_tags};
ghost use Rattle.xl_tagged.specs.Groups.{IsReady, IsOpened, IsFull, IsLeafPut, IsPageTaken, IsPageGiven, word_for};

use crate::slots::Slots;
use std::alloc::Global;
use xl_model::{Full, Leaf, NoMemory, Order, Perm};

/// How many pages share a tag, and what the chains keep for them.
pub trait Grouping {
    /// The chains that hold the leaf words.
    type Chains: Slots;

    /// What the entries of the chains keep beside leaf words.
    ghost kept: { List Held → Type 0 };

    /// Chains that hold nothing, in this many buckets, with room for this many tags.
    ///
    /// # Errors
    ///
    /// `NoMemory` where there is no memory.
    fn open(alloc: Global, buckets: u32, tags: u32) -> Result<Self::Chains, NoMemory>
        requires buckets_in { (1 ≤ buckets) × (buckets ≤ 2 ^ 20) }
        requires tags_in { (1 ≤ tags) × (tags ≤ most_tags Self.Chains.form) }
        ensures { IfOk result (λ c. IsOpened kept buckets tags (Self.Chains.state c)) };

    /// Puts the word of a leaf into its empty slot. Full exactly where the leaf's tag isn't held
    /// and there is no room for it; then nothing changes.
    fn put(chains: &mut Self::Chains, leaf: Leaf) -> Result<(), Full>
        requires place { (leaf.space < 64) × (leaf.first < 2 ^ 45) }
        requires frame_in { leaf.frame < 2 ^ 44 }
        requires ready { IsReady Self.Chains.form kept (Self.Chains.state chains.old) }
        requires empty { word_for Self.Chains.form (Self.Chains.state chains.old) leaf.space
            leaf.order leaf.first ≡ 0 }
        ensures ok { OnOk result (IsLeafPut Self.Chains.form leaf (Self.Chains.state chains.old)
            (Self.Chains.state chains.new)) }
        ensures full { OnErr result (IsFull (leaf_tag (group_of Self.Chains.form) leaf)
            (Self.Chains.state chains.old)) }
        ensures same { OnErr result
            (Self.Chains.state chains.new ≡ Self.Chains.state chains.old) }
        ensures kept { kept (Self.Chains.state chains.new).held };

    /// Empties the slot of a page of this order, which is in use. A tag goes with its last word.
    fn take(chains: &mut Self::Chains, space: u16, first: u64, order: Order)
        requires place { (space < 64) × (first < 2 ^ 45) }
        requires ready { IsReady Self.Chains.form kept (Self.Chains.state chains.old) }
        requires used { word_for Self.Chains.form (Self.Chains.state chains.old) space order first
            ≡ 0 → ⊥ }
        ensures taken { IsPageTaken Self.Chains.form space order first
            (Self.Chains.state chains.old) (Self.Chains.state chains.new) }
        ensures kept { kept (Self.Chains.state chains.new).held };

    /// Gives the leaf in the slot of a page of this order, which is in use, another permission.
    fn give(chains: &mut Self::Chains, space: u16, first: u64, order: Order, perm: Perm)
        requires place { (space < 64) × (first < 2 ^ 45) }
        requires ready { IsReady Self.Chains.form kept (Self.Chains.state chains.old) }
        requires used { word_for Self.Chains.form (Self.Chains.state chains.old) space order first
            ≡ 0 → ⊥ }
        ensures given { IsPageGiven Self.Chains.form space order first perm
            (Self.Chains.state chains.old) (Self.Chains.state chains.new) }
        ensures kept { kept (Self.Chains.state chains.new).held };
}
