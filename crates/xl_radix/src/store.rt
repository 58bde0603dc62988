//! The words of a radix table with its nodes, and the steps that change them.

ghost use Rattle.std.specs.Prelude.{◌≡◌, ◌==◌, ◌+◌, ◌-◌, ◌*◌, ◌/◌, ◌%◌, ◌^◌, ◌<◌, ◌≤◌, length, slice_index, slice_index_or, slice_set, true, false, None, Some, [], is_none, is_some, position, IfOk, IfSome, IfNone};
ghost use Rattle.xl_model.specs.Addresses.{level_of, pages_of};
ghost use Rattle.xl_model.specs.Changes.{IsNamed, Protect, changed};
ghost use Rattle.xl_model.specs.Mapping.{with_leaf, without_leaf, leaf_named, leaf_at_page, meets_any};
ghost use Rattle.xl_model.specs.Nodes.{up, is_below, in_nodes, free_count, put_first, number_of, with_path, with_leaf_nodes, opening_nodes, only_needed};
ghost use Rattle.xl_model.specs.Shapes.{Radix};
ghost use Rattle.xl_model.specs.Structures.{IsBlock, IsLeafFor};
ghost use Rattle.xl_phys.specs.Lines.{IsLine, IsWord};
ghost use Rattle.xl_radix.specs.Lazy.{IsFront};
ghost use Rattle.xl_radix.specs.ReadBack.{order_of as level_order, leaf_said};
ghost use Rattle.xl_radix.specs.Walk.{WordsReadBack};
ghost use Rattle.xl_radix.specs.Table.{IsExact, IsNearly, IsNew};
ghost use Rattle.xl_model.specs.Image.{leaf_in};
ghost use Rattle.xl_radix.specs.Steps.{IsEnd, IsAtNode, IsReady, IsTaken, IsLess, IsMove};

use crate::lazy::LazyWords;
use crate::node::Node;
use crate::numbering::Numbers;
use std::alloc::Global;
use std::marker::Model;
use xl_model::{Leaf, NoMemory, Order, Perm};
use xl_pte::{Pte, decode, leaf_word, pointer};

/// Where a walk is: a node and its level, and so the page's word in it.
#[derive(Clone, Copy)]
pub struct Place {
    pub node: usize,
    pub level: usize,
}

/// The words, 512 of each node number; which node has which number; and how many words of each node
/// aren't 0. Contracts see the leaves that the words say, too.
#[derive(Drop)]
pub struct Store<const LEVELS: usize> {
    words: LazyWords,
    numbers: Numbers,
    used: Vec<u16>,
    spaces: u16,
}

impl<const LEVELS: usize> Model for Store<LEVELS> {
    ghost use Rattle.xl_radix.specs.ReadBack.{read_back};
    ghost use Rattle.xl_radix.specs.Table.{Stored, IsStore};

    ghost Value = { Stored };

    ghost view = { λ s. record {
      leaves = read_back s.numbers s.words;
      nodes = s.numbers;
      words = s.words;
      used = s.used.items;
      spaces = s.spaces;
    } };

    ghost invariant = { λ s. IsStore LEVELS s.spaces (read_back s.numbers s.words)
        s.numbers s.words s.used.items };
}

/// The order of the leaves of a level; levels above 2 have none.
fn order_of(level: usize) -> Option<Order>
    ensures { result ≡ level_order level }
{
    match level {
        0 => Some(Order::K4),
        1 => Some(Order::M2),
        2 => Some(Order::G1),
        _ => None,
    }
}

/// The first page of a block of an order, by a shift: a multiplication would look its factor up.
#[inline(always)]
fn first_of(block: u64, order: Order) -> u64
    requires { block < 2 ^ 46 }
    ensures { result ≡ block * pages_of order }
{
    block << (9 * order.level())
}

/// The leaf that a word says, at a block of pages of its level.
#[inline(always)]
pub fn leaf_of(space: u16, block: u64, level: usize, pte: Pte) -> Option<Leaf>
    requires { block < 2 ^ 46 }
    ensures { result ≡ leaf_said space block (level_order level) pte }
{
    let Pte::Leaf { frame, perm } = pte else {
        return None;
    };
    let order = order_of(level)?;
    Some(Leaf {
        space,
        first: first_of(block, order),
        order,
        frame,
        perm,
    })
}

/// The block of `512^level` pages in which a page lies.
pub fn block_of(page: u64, level: usize) -> u64
    requires { level < 5 }
    ensures { result ≡ up level page }
{
    page >> (9 * level)
}

/// The index of a page's word in a node of this level.
pub fn index_of(page: u64, level: usize) -> usize
    requires { level < 5 }
    ensures value { result ≡ up level page % 512 }
    ensures low { result < 512 }
{
    (block_of(page, level) % 512) as usize
}

impl<const LEVELS: usize> Store<LEVELS> {
    /// A table of roots alone, with `frames` node numbers.
    pub fn open(alloc: Global, frames: usize, spaces: u16) -> Result<Store<LEVELS>, NoMemory>
        requires levels { (3 ≤ LEVELS) × (LEVELS ≤ 5) }
        requires some { 0 < frames }
        requires spaces { spaces ≤ frames }
        requires frames { frames ≤ 16384 }
        ensures leaves { IfOk result (λ s. s.leaves ≡ []) }
        ensures nodes { IfOk result (λ s. s.nodes ≡ opening_nodes LEVELS spaces frames) }
        ensures spaces { IfOk result (λ s. s.spaces ≡ spaces) }
        ensures exact { IfOk result (λ s. IsExact LEVELS s.leaves s.nodes) }
        ensures free { IfOk result (λ s. free_count s.nodes + spaces ≡ frames) }
    {
        let numbers = Numbers::open(alloc, LEVELS, frames, spaces)?;
        let words = LazyWords::open(alloc, frames * 512)?;
        let used = vec![in alloc; 0u16; frames]?;
        Ok(Store {
            words,
            numbers,
            used,
            spaces,
        })
    }

    /// How many spaces there are.
    pub fn spaces(&self) -> u16
        ensures { result ≡ self.now.spaces }
    {
        self.spaces
    }

    /// The walk of a page from its space's root, down to level `least` or to a word that is no
    /// pointer.
    pub fn end_of(&self, space: u16, page: u64, least: usize) -> Place
        requires exact { IsExact LEVELS self.now.leaves self.now.nodes }
        requires space { space < self.now.spaces }
        requires page { page < 2 ^ (9 * LEVELS) }
        requires least { least ≤ 2 }
        ensures { IsEnd LEVELS space page least result.level result.node self.now.nodes }
    {
        let words = &self.words;
        let mut node = space as usize;
        let mut level = LEVELS - 1;
        'down: while level > least {
            match decode(words.get(node * 512 + index_of(page, level)), level) {
                Pte::Pointer { node: next } => {
                    node = next as usize;
                    level -= 1;
                }
                _ => return Place { node, level },
            }
        }
        Place { node, level }
    }

    /// The leaf that covers a page.
    pub fn leaf_at(&self, space: u16, page: u64) -> Option<Leaf>
        requires exact { IsExact LEVELS self.now.leaves self.now.nodes }
        requires space { space < self.now.spaces }
        requires page { page < 2 ^ (9 * LEVELS) }
        ensures { result ≡ leaf_at_page space page self.now.leaves }
    {
        let Place { node, level } = self.end_of(space, page, 0);
        let word = self.words.get(node * 512 + index_of(page, level));
        leaf_of(space, block_of(page, level), level, decode(word, level))
    }

    /// Whether a leaf has a page of a block: where the walk to the block stops, the word isn't 0.
    pub fn meets(&self, space: u16, first: u64, order: Order) -> bool
        requires exact { IsExact LEVELS self.now.leaves self.now.nodes }
        requires block { IsBlock (Radix LEVELS self.now.spaces self.now.nodes) space first order }
        ensures { result ≡ meets_any space first order self.now.leaves }
    {
        let Place { node, level } = self.end_of(space, first, order.level());
        self.words.get(node * 512 + index_of(first, level)) != 0
    }

    /// The walk for a leaf that overlaps no other.
    pub fn end_for(&self, leaf: &Leaf) -> Place
        requires exact { IsExact LEVELS self.now.leaves self.now.nodes }
        requires valid { IsLeafFor (Radix LEVELS self.now.spaces self.now.nodes) leaf.now }
        requires free { meets_any leaf.now.space leaf.now.first leaf.now.order self.now.leaves ≡
            false }
        ensures end { IsEnd LEVELS leaf.now.space leaf.now.first (level_of leaf.now.order)
            result.level result.node self.now.nodes }
        ensures new { IsNew LEVELS self.now.spaces leaf.now self.now.leaves }
    {
        // What `new` says rests on the type's invariant, which reading a field brings in.
        let _words = &self.words;
        self.end_of(leaf.space, leaf.first, leaf.order.level())
    }

    /// Word `index` of node number `node`.
    pub fn word(&self, node: usize, index: usize) -> u64
        requires node { node < length self.now.nodes }
        requires index { index < 512 }
        ensures { result ≡ slice_index self.now.words (node * 512 + index) }
    {
        self.words.get(node * 512 + index)
    }

    /// Whether a node of this name is there.
    pub fn has_node(&self, space: u16, level: usize, prefix: u64) -> bool
        ensures { result ≡ is_some (number_of space (level + 1) prefix self.now.nodes) }
    {
        self.numbers.has_node(space, level, prefix)
    }

    /// Whether a node has this number.
    pub fn has_number(&self, number: usize) -> bool
        ensures { result ≡ is_some (slice_index_or self.now.nodes number None) }
    {
        self.numbers.has(number)
    }

    /// The words read back as the leaves, by the manual's walk.
    pub fn words_read_back(&self)
        requires { IsExact LEVELS self.now.leaves self.now.nodes }
        ensures { WordsReadBack LEVELS self.now.spaces self.now.leaves self.now.nodes
            self.now.words }
    {
        // Reading a field brings in the type's invariant.
        let _words = &self.words;
    }

    /// The first words: after them all are 0.
    #[inline]
    pub fn front(&self) -> &[u64]
        ensures front { IsFront result.now self.entry.now.words }
        ensures size { length self.entry.now.words ≡ length self.entry.now.nodes * 512 }
    {
        self.words.front()
    }

    /// The word at a place, `None` where its line isn't all there. The first words are tested
    /// before the line is looked for: all words are whole nodes, so a place among the first has its
    /// line there.
    pub fn word_in(&self, place: usize) -> Option<u64>
        ensures some { IfSome result (IsWord self.now.words place) }
        ensures none { IfNone result (length self.now.words < 4 * (place / 4) + 4) }
    {
        let first = self.front();
        if place < first.len() {
            return Some(first[place]);
        }
        if place / 4 >= self.words.len() / 4 {
            return None;
        }
        Some(self.words.get(place))
    }

    /// The four words of a line, None where they aren't all there.
    pub fn line(&self, line: usize) -> Option<[u64; 4]>
        ensures some { IfSome result (IsLine self.now.words line) }
        ensures none { IfNone result (length self.now.words < 4 * line + 4) }
    {
        if line >= self.words.len() / 4 {
            return None;
        }
        let at = 4 * line;
        let words = &self.words;
        Some([
            words.get(at),
            words.get(at + 1),
            words.get(at + 2),
            words.get(at + 3),
        ])
    }

    /// Makes the node below a slot that is empty, under the lowest free number.
    fn make_node(&mut self, space: u16, page: u64, above: Place) -> usize
        requires ready { IsReady space page above.level above.node self.old.leaves self.old.nodes }
        requires low { 0 < above.level }
        requires high { above.level < LEVELS }
        requires free { 0 < free_count self.old.nodes }
        ensures leaves { self.new.leaves ≡ self.old.leaves }
        ensures nodes { self.new.nodes ≡ put_first
            (record { space = space; level = above.level - 1; prefix = up above.level page })
            self.old.nodes }
        ensures spaces { self.new.spaces ≡ self.old.spaces }
        ensures ready { IsReady space page (above.level - 1) result self.new.leaves self.new.nodes }
        ensures nearly { (l : _) → l < above.level →
            IsNearly LEVELS space page l self.old.leaves self.old.nodes →
            IsNearly LEVELS space page l self.new.leaves self.new.nodes }
        ensures free { free_count self.new.nodes + 1 ≡ free_count self.old.nodes }
    {
        // Reading a field brings in the type's invariant.
        let _words = &self.words;
        let name = Node::new(space, above.level as u8 - 1, block_of(page, above.level));
        let Some(number) = self.numbers.take(name) else {
            unreachable!()
        };
        let at = above.node * 512 + index_of(page, above.level);
        self.words.set(at, pointer(number as u64));
        self.used[above.node] += 1;
        number
    }

    /// Makes the nodes of a page's path that are missing: those below an empty slot, down to level
    /// `least`, upper ones first. Returns the lowest one's number.
    fn make_path(&mut self, space: u16, page: u64, from: Place, least: usize) -> usize
        requires ready { IsReady space page from.level from.node self.old.leaves self.old.nodes }
        requires low { least ≤ from.level }
        requires high { from.level < LEVELS }
        requires free { from.level ≤ free_count self.old.nodes + least }
        requires nearly { IsNearly LEVELS space page least self.old.leaves self.old.nodes }
        ensures leaves { self.new.leaves ≡ self.old.leaves }
        ensures nodes { self.new.nodes ≡
            with_path space page least (from.level - least) self.old.nodes }
        ensures spaces { self.new.spaces ≡ self.old.spaces }
        ensures ready { IsReady space page least result self.new.leaves self.new.nodes }
        ensures nearly { IsNearly LEVELS space page least self.new.leaves self.new.nodes }
        ensures free { free_count self.new.nodes + (from.level - least) ≡
            free_count self.old.nodes }
    {
        let mut at = from;
        'down: while at.level > least {
            let node = self.make_node(space, page, at);
            at = Place {
                node,
                level: at.level - 1,
            };
        }
        at.node
    }

    /// Puts a leaf into its slot, which is empty.
    fn write_leaf(&mut self, node: usize, leaf: Leaf)
        requires new { IsNew LEVELS self.old.spaces leaf self.old.leaves }
        requires ready { IsReady leaf.space leaf.first (level_of leaf.order) node self.old.leaves
            self.old.nodes }
        ensures leaves { self.new.leaves ≡ with_leaf leaf self.old.leaves }
        ensures nodes { self.new.nodes ≡ self.old.nodes }
        ensures spaces { self.new.spaces ≡ self.old.spaces }
        ensures exact { IsNearly LEVELS leaf.space leaf.first (level_of leaf.order)
            self.old.leaves self.old.nodes → IsExact LEVELS self.new.leaves self.new.nodes }
    {
        self.used[node] += 1;
        let at = node * 512 + index_of(leaf.first, leaf.order.level());
        self.words.set(at, leaf_word(leaf.frame, leaf.perm));
    }

    /// Adds a leaf that overlaps no other, where the walk for it stops. The free numbers are
    /// enough.
    pub fn add_leaf(&mut self, from: Place, leaf: Leaf)
        requires new { IsNew LEVELS self.old.spaces leaf self.old.leaves }
        requires exact { IsExact LEVELS self.old.leaves self.old.nodes }
        requires end { IsEnd LEVELS leaf.space leaf.first (level_of leaf.order)
            from.level from.node self.old.nodes }
        requires free { from.level ≤ free_count self.old.nodes + level_of leaf.order }
        ensures leaves { self.new.leaves ≡ with_leaf leaf self.old.leaves }
        ensures nodes { self.new.nodes ≡ with_leaf_nodes LEVELS leaf self.old.nodes }
        ensures spaces { self.new.spaces ≡ self.old.spaces }
        ensures exact { IsExact LEVELS self.new.leaves self.new.nodes }
        ensures free { free_count self.new.nodes + (from.level - level_of leaf.order) ≡
            free_count self.old.nodes }
    {
        let node = self.make_path(leaf.space, leaf.first, from, leaf.order.level());
        self.write_leaf(node, leaf);
    }

    /// Takes a leaf out of its slot, in the node that is there.
    fn clear_leaf(&mut self, space: u16, first: u64, order: Order, node: usize)
        requires exact { IsExact LEVELS self.old.leaves self.old.nodes }
        requires named { IsNamed space first order self.old.leaves }
        requires at { IsAtNode space first (level_of order) node self.old.nodes }
        ensures leaves { self.new.leaves ≡ without_leaf space first self.old.leaves }
        ensures nodes { self.new.nodes ≡ self.old.nodes }
        ensures spaces { self.new.spaces ≡ self.old.spaces }
        ensures nearly { IsNearly LEVELS space first (level_of order) self.new.leaves
            self.new.nodes }
    {
        self.used[node] -= 1;
        let at = node * 512 + index_of(first, order.level());
        self.words.set(at, 0);
    }

    /// Gives a leaf another permission, in the node that is at it.
    fn write_perm(&mut self, node: usize, old: Leaf, perm: Perm)
        requires exact { IsExact LEVELS self.old.leaves self.old.nodes }
        requires there { leaf_named old.space old.first old.order self.old.leaves ≡ Some old }
        requires at { IsAtNode old.space old.first (level_of old.order) node self.old.nodes }
        ensures leaves { self.new.leaves ≡ with_leaf (record old { perm = perm })
            (without_leaf old.space old.first self.old.leaves) }
        ensures nodes { self.new.nodes ≡ self.old.nodes }
        ensures spaces { self.new.spaces ≡ self.old.spaces }
        ensures exact { IsExact LEVELS self.new.leaves self.new.nodes }
    {
        // Reading a field brings in the type's invariant.
        let _words = &self.words;
        let at = node * 512 + index_of(old.first, old.order.level());
        self.words.set(at, leaf_word(old.frame, perm));
    }

    /// Gives a leaf that is there another permission.
    pub fn set_perm(&mut self, space: u16, first: u64, order: Order, perm: Perm)
        requires exact { IsExact LEVELS self.old.leaves self.old.nodes }
        requires named { IsNamed space first order self.old.leaves }
        ensures leaves { self.new.leaves ≡
            changed (Protect space first order perm) self.old.leaves }
        ensures nodes { self.new.nodes ≡ self.old.nodes }
        ensures spaces { self.new.spaces ≡ self.old.spaces }
        ensures exact { IsExact LEVELS self.new.leaves self.new.nodes }
    {
        let _words = &self.words;
        let Place { node, .. } = self.end_of(space, first, order.level());
        let Some(old) = self.leaf_at(space, first) else {
            unreachable!()
        };
        self.write_perm(node, old, perm);
    }

    /// A leaf that is there as it would be at another block, which no leaf overlaps.
    pub fn moved(&self, space: u16, first: u64, to: u64, order: Order) -> Leaf
        requires exact { IsExact LEVELS self.now.leaves self.now.nodes }
        requires named { IsNamed space first order self.now.leaves }
        requires block { IsBlock (Radix LEVELS self.now.spaces self.now.nodes) space to order }
        requires free { meets_any space to order self.now.leaves ≡ false }
        ensures { IsMove LEVELS self.now.spaces space first to order result self.now.leaves
            self.now.nodes }
    {
        // Reading a field brings in the type's invariant.
        let _words = &self.words;
        let Some(old) = self.leaf_at(space, first) else {
            unreachable!()
        };
        Leaf {
            space,
            first: to,
            order,
            frame: old.frame,
            perm: old.perm,
        }
    }

    /// Whether all words of a node are 0.
    fn is_unused(&self, node: usize) -> bool
        requires { node < length self.now.nodes }
        ensures { result ≡ (slice_index self.now.used node == 0) }
    {
        self.used[node] == 0
    }

    /// Gives back an empty node of a page's path.
    fn free_node(&mut self, space: u16, page: u64, above: Place, child: usize)
        requires low { 0 < above.level }
        requires high { above.level < LEVELS }
        requires at { IsAtNode space page above.level above.node self.old.nodes }
        requires below { IsAtNode space page (above.level - 1) child self.old.nodes }
        requires empty { leaf_in space above.level (up above.level page) self.old.leaves ≡ None }
        requires unused { slice_index self.old.used child ≡ 0 }
        requires nearly { IsNearly LEVELS space page (above.level - 1) self.old.leaves
            self.old.nodes }
        ensures leaves { self.new.leaves ≡ self.old.leaves }
        ensures spaces { self.new.spaces ≡ self.old.spaces }
        ensures taken { IsTaken above.level 1 self.old.nodes self.new.nodes }
        ensures nearly { IsNearly LEVELS space page above.level self.new.leaves self.new.nodes }
    {
        self.used[above.node] -= 1;
        let at = above.node * 512 + index_of(page, above.level);
        self.words.set(at, 0);
        self.numbers.give(child);
    }

    /// The node below a slot that has one.
    fn node_below(&self, space: u16, page: u64, above: Place) -> usize
        requires exact { IsExact LEVELS self.now.leaves self.now.nodes }
        requires at { IsAtNode space page above.level above.node self.now.nodes }
        requires high { above.level < LEVELS }
        requires needed { in_nodes space above.level (up above.level page) self.now.leaves ≡ true }
        ensures low { 0 < above.level }
        ensures at { IsAtNode space page (above.level - 1) result self.now.nodes }
        ensures empty { leaf_in space above.level (up above.level page) self.now.leaves ≡ None }
    {
        let word = self
            .words
            .get(above.node * 512 + index_of(page, above.level));
        match decode(word, above.level) {
            Pte::Pointer { node } => node as usize,
            _ => unreachable!(),
        }
    }

    /// Takes out a leaf below a node that is at it, and gives back the nodes below this one that
    /// are empty then. Returns how many.
    fn take_leaf_below(&mut self, space: u16, first: u64, order: Order, from: Place) -> usize
        requires exact { IsExact LEVELS self.old.leaves self.old.nodes }
        requires named { IsNamed space first order self.old.leaves }
        requires at { IsAtNode space first from.level from.node self.old.nodes }
        requires low { level_of order ≤ from.level }
        requires high { from.level < LEVELS }
        ensures leaves { self.new.leaves ≡ without_leaf space first self.old.leaves }
        ensures spaces { self.new.spaces ≡ self.old.spaces }
        ensures taken { IsTaken from.level result self.old.nodes self.new.nodes }
        ensures nearly { IsNearly LEVELS space first from.level self.new.leaves self.new.nodes }
        ensures few { result ≤ from.level }
    {
        if from.level == order.level() {
            self.clear_leaf(space, first, order, from.node);
            return 0;
        }
        let node = self.node_below(space, first, from);
        let below = Place {
            node,
            level: from.level - 1,
        };
        let given = self.take_leaf_below(space, first, order, below);
        // Reading a field brings in the type's invariant.
        let _words = &self.words;
        if !self.is_unused(node) {
            return given;
        }
        self.free_node(space, first, from, node);
        given + 1
    }

    /// Takes out a leaf, and gives back the nodes that no leaf needs then. Returns how many.
    pub fn take_leaf(&mut self, space: u16, first: u64, order: Order) -> usize
        requires exact { IsExact LEVELS self.old.leaves self.old.nodes }
        requires named { IsNamed space first order self.old.leaves }
        ensures leaves { self.new.leaves ≡ without_leaf space first self.old.leaves }
        ensures nodes { self.new.nodes ≡ only_needed LEVELS self.new.leaves self.old.nodes }
        ensures spaces { self.new.spaces ≡ self.old.spaces }
        ensures exact { IsExact LEVELS self.new.leaves self.new.nodes }
        ensures free { free_count self.new.nodes ≡ free_count self.old.nodes + result }
        ensures less { IsLess self.old.nodes self.new.nodes }
        ensures small { free_count self.new.nodes ≤ 16384 }
    {
        // Reading a field brings in the type's invariant.
        let _words = &self.words;
        let root = Place {
            node: space as usize,
            level: LEVELS - 1,
        };
        let given = self.take_leaf_below(space, first, order, root);
        let _words_left = &self.words;
        given
    }
}
