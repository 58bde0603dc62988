//! The names of nodes.

use std::marker::Model;

/// The name of a node: its level, and the space and the pages that it serves, by their number divided
/// by `512^(level + 1)`.
#[derive(Drop)]
pub struct Node {
    space: u16,
    level: u8,
    prefix: u64,
}

impl Model for Node {
    ghost use Rattle.xl_model.specs.Nodes.{Node as NodeName};

    ghost Value = { NodeName };

    ghost view = { λ n. record { space = n.space; level = n.level; prefix = n.prefix } };
}

impl Node {
    ghost use Rattle.std.specs.Prelude.{◌≡◌, ◌+◌, Some};
    ghost use Rattle.xl_model.specs.Nodes.{is_below};

    /// The node of this name.
    pub fn new(space: u16, level: u8, prefix: u64) -> Node
        ensures { result ≡ record { space = space; level = level; prefix = prefix } }
    {
        Node {
            space,
            level,
            prefix,
        }
    }

    /// Whether the node has this name.
    pub fn has_name(&self, space: u16, level: usize, prefix: u64) -> bool
        ensures { result ≡ is_below space (level + 1) prefix (Some self.now) }
    {
        self.space == space && (self.level as usize == level && self.prefix == prefix)
    }
}
