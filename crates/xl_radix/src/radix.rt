//! The table.

ghost use Rattle.std.specs.Prelude.{ℕ, ◌≡◌, ◌+◌, ◌*◌, ◌%◌, ◌^◌, ◌≤◌, ◌<◌, slice_index, slice_index_or, is_some, None, length, [], IfOk, OnErr, OnOk, is_ok, false};
ghost use Rattle.xl_model.specs.Changes.{Insert, Remove, Protect, Relocate, IsNamed};
ghost use Rattle.xl_model.specs.Mapping.{leaf_at_page, meets_any, with_leaf, without_leaf};
ghost use Rattle.xl_model.specs.Nodes.{number_of, opening_nodes, with_leaf_nodes};
ghost use Rattle.xl_model.specs.Room.{has_room};
ghost use Rattle.xl_model.specs.Shapes.{shape_after};
ghost use Rattle.xl_model.specs.Structures.{IsBlock, IsPage, IsLeafFor};
ghost use Rattle.xl_radix.specs.Lazy.{IsFront};
ghost use Rattle.xl_radix.specs.Steps.{shape_of, IsMove, IsMade};
ghost use Rattle.xl_radix.specs.Walk.{WordsReadBack};

use crate::store::Store;
use std::alloc::Global;
use std::marker::Model;
use xl_model::{Leaf, NoMemory, NoTable, Order, Perm};
use xl_phys::Bus;

/// A radix table of LEVELS levels over words of its own. Contracts see its leaves, sorted by space
/// and first page, its nodes by number, its words, its spaces and its loads.
#[derive(Drop)]
pub struct Radix<const LEVELS: usize> {
    store: Store<LEVELS>,
    free: usize,
    loads: u64,
}

impl<const LEVELS: usize> Model for Radix<LEVELS> {
    ghost use Rattle.std.specs.Prelude.{◌≡◌};
    ghost use Rattle.xl_model.specs.Nodes.{free_count};
    ghost use Rattle.xl_radix.specs.Table.{Table, IsExact};

    ghost Value = { Table };

    ghost view = { λ r. record {
      leaves = r.store.leaves;
      nodes = r.store.nodes;
      words = r.store.words;
      spaces = r.store.spaces;
      loads = r.loads;
    } };

    ghost invariant = { λ r. IsExact LEVELS r.store.leaves r.store.nodes
        × (r.free ≡ free_count r.store.nodes) };
}

impl<const LEVELS: usize> Radix<LEVELS> {
    /// A table without leaves, with node numbers below `table_frames`. Numbers 0 to `spaces - 1`
    /// are the roots of the spaces.
    ///
    /// # Errors
    ///
    /// `NoMemory` where there is no memory.
    pub fn open(alloc: Global, table_frames: u32, spaces: u16) -> Result<Radix<LEVELS>, NoMemory>
        requires levels { (3 ≤ LEVELS) × (LEVELS ≤ 5) }
        requires spaces { (1 ≤ spaces) × (spaces ≤ 64) }
        requires frames { (spaces ≤ table_frames) × (table_frames ≤ 16384) }
        ensures leaves { IfOk result (λ r. r.leaves ≡ []) }
        ensures nodes { IfOk result (λ r. r.nodes ≡ opening_nodes LEVELS spaces table_frames) }
        ensures spaces { IfOk result (λ r. r.spaces ≡ spaces) }
        ensures loads { IfOk result (λ r. r.loads ≡ 0) }
    {
        Ok(Radix {
            store: Store::open(alloc, table_frames as usize, spaces)?,
            free: table_frames as usize - spaces as usize,
            loads: 0,
        })
    }

    /// How many spaces the table has.
    pub fn spaces(&self) -> u16
        ensures { result ≡ self.now.spaces }
    {
        self.store.spaces()
    }

    /// Whether a leaf of the space has a page of the block of this order at page `first`.
    pub fn meets(&self, space: u16, first: u64, order: Order) -> bool
        requires { IsBlock (shape_of LEVELS self.now) space first order }
        ensures { result ≡ meets_any space first order self.now.leaves }
    {
        self.store.meets(space, first, order)
    }

    /// The leaf that covers the page, None exactly where there is none. It is found by a walk of
    /// the words, which doesn't count as loads.
    pub fn leaf_at(&self, space: u16, page: u64) -> Option<Leaf>
        requires { IsPage (shape_of LEVELS self.now) space page }
        ensures { result ≡ leaf_at_page space page self.now.leaves }
    {
        self.store.leaf_at(space, page)
    }

    /// Adds a leaf that overlaps no other. New nodes take the lowest free numbers, upper ones
    /// first.
    ///
    /// # Errors
    ///
    /// `NoTable` exactly where the nodes that the leaf lacks are more than the free numbers; then
    /// nothing changes.
    pub fn add(&mut self, leaf: Leaf) -> Result<(), NoTable>
        requires valid { IsLeafFor (shape_of LEVELS self.old) leaf }
        requires free { meets_any leaf.space leaf.first leaf.order self.old.leaves ≡ false }
        ensures answer { is_ok result ≡ has_room (Insert leaf) self.old.leaves (shape_of LEVELS
            self.old) }
        ensures refused { OnErr result (self.new ≡ self.old) }
        ensures leaves { OnOk result (self.new.leaves ≡ with_leaf leaf self.old.leaves) }
        ensures nodes { OnOk result (self.new.nodes ≡ with_leaf_nodes LEVELS leaf self.old.nodes) }
        ensures shape { OnOk result (shape_of LEVELS self.new ≡
            shape_after (Insert leaf) self.old.leaves (shape_of LEVELS self.old)) }
        ensures spaces { self.new.spaces ≡ self.old.spaces }
        ensures loads { self.new.loads ≡ self.old.loads }
    {
        let end = self.store.end_for(&leaf);
        let lacking = end.level - leaf.order.level();
        if lacking > self.free {
            return Err(NoTable);
        }
        self.store.add_leaf(end, leaf);
        self.free -= lacking;
        Ok(())
    }

    /// Whether there is room for a leaf that overlaps no other, so that `add` would add it.
    pub fn has_room(&self, leaf: Leaf) -> bool
        requires valid { IsLeafFor (shape_of LEVELS self.now) leaf }
        requires free { meets_any leaf.space leaf.first leaf.order self.now.leaves ≡ false }
        ensures { result ≡ has_room (Insert leaf) self.now.leaves (shape_of LEVELS self.now) }
    {
        let end = self.store.end_for(&leaf);
        let lacking = end.level - leaf.order.level();
        lacking <= self.free
    }

    /// Whether there is room for a leaf that is there at another block, which no leaf overlaps, so
    /// that `shift` would move it.
    pub fn has_room_to(&self, space: u16, first: u64, to: u64, order: Order) -> bool
        requires named { IsNamed space first order self.now.leaves }
        requires block { IsBlock (shape_of LEVELS self.now) space to order }
        requires free { meets_any space to order self.now.leaves ≡ false }
        ensures { result ≡
            has_room (Relocate space first to order) self.now.leaves (shape_of LEVELS self.now) }
    {
        let moved = self.moved(space, first, to, order);
        self.has_room(moved)
    }

    /// Takes out a leaf that is there. The nodes that no leaf needs then are given back.
    pub fn take_out(&mut self, space: u16, first: u64, order: Order)
        requires { IsNamed space first order self.old.leaves }
        ensures { (given : ℕ) × IsMade LEVELS (Remove space first order) given self.old self.new }
    {
        self.take_out_counted(space, first, order);
    }

    /// Like `take_out`; returns how many nodes were given back.
    pub fn take_out_counted(&mut self, space: u16, first: u64, order: Order) -> usize
        requires { IsNamed space first order self.old.leaves }
        ensures made { IsMade LEVELS (Remove space first order) result self.old self.new }
        ensures leaves { self.new.leaves ≡ without_leaf space first self.old.leaves }
    {
        let given = self.store.take_leaf(space, first, order);
        self.free += given;
        given
    }

    /// Gives a leaf that is there another permission.
    pub fn set_perm(&mut self, space: u16, first: u64, order: Order, perm: Perm)
        requires { IsNamed space first order self.old.leaves }
        ensures made { IsMade LEVELS (Protect space first order perm) 0 self.old self.new }
        ensures nodes { self.new.nodes ≡ self.old.nodes }
    {
        self.store.set_perm(space, first, order, perm);
    }

    /// Moves a leaf that is there to a block that no leaf overlaps, with its frame and permission.
    /// New nodes take the lowest free numbers before any node is given back.
    ///
    /// # Errors
    ///
    /// `NoTable` exactly where the nodes that the leaf lacks at its new place are more than the
    /// free numbers, with the leaf still at its old place; then nothing changes.
    pub fn shift(&mut self, space: u16, first: u64, to: u64, order: Order) -> Result<(), NoTable>
        requires named { IsNamed space first order self.old.leaves }
        requires block { IsBlock (shape_of LEVELS self.old) space to order }
        requires free { meets_any space to order self.old.leaves ≡ false }
        ensures answer { is_ok result ≡
            has_room (Relocate space first to order) self.old.leaves (shape_of LEVELS self.old) }
        ensures refused { OnErr result (self.new ≡ self.old) }
        ensures made { OnOk result ((given : ℕ) ×
            IsMade LEVELS (Relocate space first to order) given self.old self.new) }
    {
        self.shift_counted(space, first, to, order)?;
        Ok(())
    }

    /// Like `shift`; returns how many nodes were given back.
    ///
    /// # Errors
    ///
    /// As `shift`.
    pub fn shift_counted(
        &mut self,
        space: u16,
        first: u64,
        to: u64,
        order: Order,
    ) -> Result<usize, NoTable>
        requires named { IsNamed space first order self.old.leaves }
        requires block { IsBlock (shape_of LEVELS self.old) space to order }
        requires free { meets_any space to order self.old.leaves ≡ false }
        ensures answer { is_ok result ≡
            has_room (Relocate space first to order) self.old.leaves (shape_of LEVELS self.old) }
        ensures refused { OnErr result (self.new ≡ self.old) }
        ensures made { IfOk result (λ given.
            IsMade LEVELS (Relocate space first to order) given self.old self.new) }
    {
        let moved = self.moved(space, first, to, order);
        self.add(moved)?;
        Ok(self.take_out_counted(space, first, order))
    }

    /// A leaf that is there as it would be at another block, which no leaf overlaps.
    fn moved(&self, space: u16, first: u64, to: u64, order: Order) -> Leaf
        requires named { IsNamed space first order self.now.leaves }
        requires block { IsBlock (shape_of LEVELS self.now) space to order }
        requires free { meets_any space to order self.now.leaves ≡ false }
        ensures { IsMove LEVELS self.now.spaces space first to order result self.now.leaves
            self.now.nodes }
    {
        self.store.moved(space, first, to, order)
    }

    /// Whether the node of this space, level and prefix is there.
    pub fn has_node(&self, space: u16, level: usize, prefix: u64) -> bool
        ensures { result ≡ is_some (number_of space (level + 1) prefix self.now.nodes) }
    {
        self.store.has_node(space, level, prefix)
    }

    /// Word `index` of node number `node`.
    pub fn word(&self, node: u32, index: u32) -> u64
        requires node { node < length self.now.nodes }
        requires index { index < 512 }
        ensures { result ≡ slice_index self.now.words (node * 512 + index) }
    {
        self.store.word(node as usize, index as usize)
    }

    /// Word `index` of node number `node`, by one load.
    #[inline(always)]
    pub fn load_word(&mut self, node: u32, index: u32) -> u64
        requires node { node < length self.old.nodes }
        requires index { index < 512 }
        ensures word { result ≡ slice_index self.old.words (node * 512 + index) }
        ensures after { self.new ≡ record self.old { loads = (self.old.loads + 1) % 2 ^ 64 } }
    {
        let word = self.store.word(node as usize, index as usize);
        self.loads = self.loads.wrapping_add(1);
        word
    }

    /// The first of the words, of which each node number has 512: after them all are 0. Reading
    /// them counts no load: a caller who reads them as loads counts them by `count_loads`.
    #[inline]
    pub fn front(&self) -> &[u64]
        ensures front { IsFront result.now self.entry.now.words }
        ensures lines { length self.entry.now.words % 4 ≡ 0 }
        ensures few { length self.entry.now.words ≤ 2 ^ 23 }
    {
        self.store.words_read_back();
        self.store.front()
    }

    /// Counts `loads` loads, which the caller made by reading words of `front`: a walk that reads
    /// several words counts them once, where their number is known. No clause says that they were
    /// made; the contract of the walk says how many there are.
    pub fn count_loads(&mut self, loads: u64)
        ensures { self.new ≡ record self.old { loads = (self.old.loads + loads) % 2 ^ 64 } }
    {
        self.loads = self.loads.wrapping_add(loads);
    }

    /// Whether a node has this number.
    pub fn has_number(&self, number: usize) -> bool
        ensures { result ≡ is_some (slice_index_or self.now.nodes number None) }
    {
        self.store.has_number(number)
    }

    /// What the table keeps: its words read back, by the manual's walk over a list of words, as its
    /// leaves, from each root and from every other node at its level and number.
    pub fn words_read_back(&self)
        ensures { WordsReadBack LEVELS self.now.spaces self.now.leaves self.now.nodes
            self.now.words }
    {
        self.store.words_read_back();
    }
}

impl<const LEVELS: usize> Bus for Radix<LEVELS> {
    ghost use Rattle.std.specs.Prelude.{refl};
    ghost use Rattle.xl_phys.specs.Lines.{counted};

    ghost words = { λ r. r.words };

    ghost count = { λ r. r.loads };

    ghost loaded = { λ r. record r { loads = counted r.loads } };

    fn load(&mut self, line: usize) -> Option<[u64; 4]> {
        self.loads = self.loads.wrapping_add(1);
        self.store.line(line)
    }

    fn word(&mut self, place: usize) -> Option<u64> {
        self.count_loads(1);
        self.store.word_in(place)
    }

    fn loads(&self) -> u64 {
        self.loads
    }

    ghost words_stay = { λ r. refl };

    ghost counts_one = { λ r. refl };
}
