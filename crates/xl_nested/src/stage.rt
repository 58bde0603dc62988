//! The table of a stage.

ghost use Rattle.std.specs.Prelude.{◌≡◌, suc, ◌-◌, ◌^◌, ◌<◌, ◌≤◌, false, Some, IfOk, IfSome, IfNone};
ghost use Rattle.xl_model.specs.Changes.{Insert, Remove, IsNamed};
ghost use Rattle.xl_model.specs.LeafWords.{small_leaf};
ghost use Rattle.xl_model.specs.Mapping.{leaf_at_page, leaf_named, meets_any};
ghost use Rattle.xl_nested_model.specs.Rules.{room_rule, stage_after};
ghost use Rattle.xl_model.specs.Nodes.{number_of, up};
ghost use Rattle.xl_nested_model.specs.Stages.{nodes_in, opening_stage, with_loads};
ghost use Rattle.xl_model.specs.Structures.{IsBlock, IsLeafFor, IsPage};
ghost use Rattle.xl_model.specs.Walks.{end_level};
ghost use Rattle.xl_pte.specs.Decode.{decode_of};
ghost use Rattle.xl_nested.specs.Commands.{IsAsAdded, IsServed};
ghost use Rattle.xl_nested.specs.Kept.{stage_of};
ghost use Rattle.xl_nested.specs.Walks.{IsEntry, IsSaid, entry_said};

use crate::leaf::is_named;
use std::alloc::Global;
use std::marker::Model;
use xl_model::{Leaf, NoMemory, NoTable, Order};
use xl_nested_model::NestRefusal;
use xl_pte::{Pte, decode, small_word};
use xl_radix::{Radix, block_of, index_of, leaf_of};
use xl_radix_walk::{find_leaf, find_word, pointed};

/// What a word of a node says: it points to the node below, is a leaf, or neither.
pub(crate) enum Entry {
    Node(u64),
    /// A leaf of 4 KiB, by its frame (times 16) and its permission.
    Small(u64),
    Leaf(Leaf),
    Nothing,
}

/// A table of three levels. Contracts see its leaves, its shape and its loads.
#[derive(Drop)]
pub(crate) struct Stage {
    table: Radix<3>,
}

impl Model for Stage {
    ghost use Rattle.xl_nested_model.specs.Stages.{Stage as StageState};
    ghost use Rattle.xl_nested.specs.Kept.{AreApart, stage_of};

    ghost Value = { StageState };

    ghost view = { λ s. stage_of s.table };

    ghost invariant = { λ s. AreApart s.table.leaves };
}

/// The refusal of a leaf for which the table has no room.
fn or_no_table(added: Result<(), NoTable>) -> Result<(), NestRefusal>
    ensures { IsAsAdded added result }
{
    match added {
        Ok(()) => Ok(()),
        Err(NoTable) => Err(NestRefusal::NoTable),
    }
}

/// What a word of level `level` says, at a block of pages of space 0.
fn entry_of(pte: Pte, block: u64, level: usize) -> Entry
    requires { block < 2 ^ 46 }
    ensures { result ≡ entry_said level block pte }
{
    if let Pte::Pointer { node } = pte {
        return Entry::Node(node);
    }
    match leaf_of(0, block, level, pte) {
        Some(leaf) => Entry::Leaf(leaf),
        None => Entry::Nothing,
    }
}

/// What the word of a page of space 0 says at a level, whatever it says.
#[inline(never)]
fn said(word: u64, level: usize, page: u64) -> Entry
    requires level { level < 3 }
    requires page { page < 2 ^ 27 }
    ensures { result ≡ entry_said level (up level page) (decode_of word level) }
{
    entry_of(decode(word, level), block_of(page, level), level)
}

/// What the word of a page of space 0 says at a level. One test each finds a pointer, which most
/// words above level 0 are, and a leaf of level 0.
#[inline(always)]
fn judged(word: u64, level: usize, page: u64) -> Entry
    requires level { level < 3 }
    requires page { page < 2 ^ 27 }
    ensures { IsSaid level page word result }
{
    if level > 0 {
        if let Some(next) = pointed(word) {
            return Entry::Node(next);
        }
    } else if let Some(small) = small_word(word) {
        return Entry::Small(small);
    }
    said(word, level, page)
}

impl Stage {
    /// A table without leaves, with a root for each of `spaces` spaces.
    pub fn open(alloc: Global, spaces: u16, nodes: u32) -> Result<Stage, NoMemory>
        requires spaces { (1 ≤ spaces) × (spaces ≤ 64) }
        requires nodes { (spaces ≤ nodes) × (nodes ≤ 16384) }
        ensures { IfOk result (λ stage. stage ≡ opening_stage spaces nodes) }
    {
        let table = Radix::open(alloc, nodes, spaces)?;
        Ok(Stage { table })
    }

    /// The table itself.
    pub fn table(&self) -> &Radix<3>
        ensures { stage_of result.now ≡ self.entry.now }
    {
        &self.table
    }

    /// Whether a leaf has a page of the block.
    pub fn meets(&self, space: u16, first: u64, order: Order) -> bool
        requires { IsBlock self.now.shape space first order }
        ensures { result ≡ meets_any space first order self.now.leaves }
    {
        self.table.meets(space, first, order)
    }

    /// The leaf of exactly this space, first page and order.
    pub fn named(&self, space: u16, first: u64, order: Order) -> Option<Leaf>
        requires { IsPage self.now.shape space first }
        ensures { result ≡ leaf_named space first order self.now.leaves }
    {
        let leaf = self.table.leaf_at(space, first)?;
        if is_named(&leaf, space, first, order) {
            Some(leaf)
        } else {
            None
        }
    }

    /// Adds a leaf that overlaps none.
    ///
    /// # Errors
    ///
    /// `NoTable` exactly where there are too few nodes left; then nothing changes.
    pub fn add(&mut self, leaf: Leaf) -> Result<(), NestRefusal>
        requires valid { IsLeafFor self.old.shape leaf }
        requires free { meets_any leaf.space leaf.first leaf.order self.old.leaves ≡ false }
        ensures { IsServed (room_rule (Some (Insert leaf)) self.old) result self.old
            (stage_after (Some (Insert leaf)) self.old) self.new }
    {
        let added = self.table.add(leaf);
        or_no_table(added)
    }

    /// Takes out a leaf that is there.
    pub fn remove(&mut self, space: u16, first: u64, order: Order)
        requires { IsNamed space first order self.old.leaves }
        ensures { self.new ≡ stage_after (Some (Remove space first order)) self.old }
    {
        self.table.take_out(space, first, order);
    }

    /// The leaf that covers a page, by a walk from the root of its space.
    pub fn walk(&mut self, space: u16, page: u64) -> Option<Leaf>
        requires { IsPage self.old.shape space page }
        ensures leaf { result ≡ leaf_at_page space page self.old.leaves }
        ensures after { self.new ≡
            with_loads (3 - end_level 2 0 space page self.old.leaves) self.old }
    {
        find_leaf(&mut self.table, space, page)
    }

    /// The word of the leaf of 4 KiB that covers a page, by a walk from the root of its space.
    /// `None`: not taken.
    #[inline(always)]
    pub fn walk_small(&mut self, space: u16, page: u64) -> Option<u64>
        requires { IsPage self.old.shape space page }
        ensures leaf { IfSome result (λ word.
            leaf_at_page space page self.old.leaves ≡ Some (small_leaf space page word)) }
        ensures after { IfSome result (λ _. self.new ≡
            with_loads (3 - end_level 2 0 space page self.old.leaves) self.old) }
        ensures none { IfNone result (self.new ≡ self.old) }
    {
        find_word(&mut self.table, space, page)
    }

    /// The number of the root of a page of space 0.
    #[inline(always)]
    pub fn root(&self, _page: u64) -> u64
        requires { IsPage self.now.shape 0 _page }
        ensures { number_of 0 3 (up 3 _page) (nodes_in self.now.shape) ≡ Some result }
    {
        self.table.words_read_back();
        0
    }

    /// Loads the word of a page of space 0 in its node of a level.
    #[inline(always)]
    pub fn load(&mut self, level: usize, node: u64, page: u64) -> Entry
        requires node { number_of 0 (suc level) (up (suc level) page) (nodes_in self.old.shape) ≡
            Some node }
        requires level { level < 3 }
        requires page { page < 2 ^ 27 }
        ensures says { IsEntry level page result self.old }
        ensures after { self.new ≡ with_loads 1 self.old }
    {
        self.table.words_read_back();
        let word = self
            .table
            .load_word(node as u32, index_of(page, level) as u32);
        judged(word, level, page)
    }
}
