//! The numbers of nodes.

ghost use Rattle.std.specs.Prelude.{◌≡◌, ◌+◌, ◌<◌, ◌≤◌, ◌^◌, length, slice_set, slice_index_or, None, Some, position, is_none, is_some, replicate, IfOk, IfSome, IfNone};
ghost use Rattle.std.specs.List.{list_any};
ghost use Rattle.xl_model.specs.Nodes.{is_below, number_of, put_first, opening_nodes};

use crate::node::Node;
use std::alloc::Global;
use std::marker::Model;
use xl_model::NoMemory;
use xl_numbers::FreeNumbers;

/// Which node has which number, with the free numbers beside. Contracts see the nodes by number.
#[derive(Drop)]
pub struct Numbers {
    nodes: Vec<Option<Node>>,
    free: FreeNumbers,
}

impl Model for Numbers {
    ghost use Rattle.std.specs.Prelude.{List, Option, map, is_none, ◌≡◌, length};
    ghost use Rattle.xl_model.specs.Nodes.{Node as NodeName};

    ghost Value = { List (Option NodeName) };

    ghost view = { λ n. n.nodes.items };

    ghost invariant = { λ n. n.free ≡ map is_none n.nodes.items };
}

/// Whether a number's node has this name.
fn has_name(node: &Option<Node>, space: u16, level: usize, prefix: u64) -> bool
    ensures { result ≡ is_below space (level + 1) prefix node.now }
{
    match node {
        Some(node) => node.has_name(space, level, prefix),
        None => false,
    }
}

/// Whether some number's node has this name.
fn any_has_name(nodes: &[Option<Node>], space: u16, level: usize, prefix: u64) -> bool
    ensures { result ≡ list_any (is_below space (level + 1) prefix) nodes.now }
{
    nodes
        .iter()
        .any(|node| has_name(node, space, level, prefix))
}

impl Numbers {
    /// Gives a node the lowest free number. None where no number is free; then nothing changes.
    pub fn take(&mut self, node: Node) -> Option<usize>
        ensures lowest { IfSome result (λ k. position is_none self.old ≡ Some k) }
        ensures taken { IfSome result (λ k. self.new ≡ put_first node self.old) }
        ensures none { IfNone result (position is_none self.old ≡ None) }
        ensures unchanged { IfNone result (self.new ≡ self.old) }
    {
        match self.free.take() {
            Some(number) => {
                self.nodes[number] = Some(node);
                Some(number)
            }
            None => None,
        }
    }

    /// Gives a number back.
    pub fn give(&mut self, number: usize)
        requires { number < length self.old }
        ensures { self.new ≡ slice_set self.old number None }
    {
        self.free.give(number);
        self.nodes[number] = None;
    }

    /// Whether a node of this name has a number.
    pub fn has_node(&self, space: u16, level: usize, prefix: u64) -> bool
        ensures { result ≡ is_some (number_of space (level + 1) prefix self.now) }
    {
        any_has_name(&self.nodes, space, level, prefix)
    }

    /// Whether a node has this number.
    pub fn has(&self, number: usize) -> bool
        ensures { result ≡ is_some (slice_index_or self.now number None) }
    {
        match self.nodes.get(number) {
            Some(node) => node.is_some(),
            None => false,
        }
    }

    /// No node, and all numbers free.
    fn empty(alloc: Global, frames: usize) -> Result<Numbers, NoMemory>
        requires some { 0 < frames }
        requires frames { frames ≤ 16384 }
        ensures { IfOk result (λ n. n ≡ replicate frames None) }
    {
        let mut nodes = Vec::with_capacity(alloc, frames)?;
        'free: for _number in 0..frames {
            if nodes.push(None).is_err() {
                return Err(NoMemory);
            }
        }
        let free = FreeNumbers::open(alloc, frames as u32)?;
        Ok(Numbers { nodes, free })
    }

    /// The roots of `spaces` spaces, and then free numbers.
    pub fn open(
        alloc: Global,
        levels: usize,
        frames: usize,
        spaces: u16,
    ) -> Result<Numbers, NoMemory>
        requires levels { (3 ≤ levels) × (levels ≤ 5) }
        requires some { 0 < frames }
        requires spaces { spaces ≤ frames }
        requires frames { frames ≤ 16384 }
        ensures { IfOk result (λ n. n ≡ opening_nodes levels spaces frames) }
    {
        let mut numbers = Numbers::empty(alloc, frames)?;
        'roots: for space in 0..spaces {
            numbers.take(Node::new(space, levels as u8 - 1, 0));
        }
        Ok(numbers)
    }
}
