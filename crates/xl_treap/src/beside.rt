//! The nodes beside a place.

ghost use Rattle.xl_treap.specs.Trees.{Tree};
ghost use Rattle.xl_treap.specs.Steps.{IsTree, AreBeside};

use crate::node::{Side, link_of};

/// Links to the last node below a key and to the first one from it on, 0 where there is none.
#[derive(Clone, Copy)]
pub(crate) struct Beside {
    pub(crate) before: u32,
    pub(crate) from: u32,
}

/// The nodes beside the place of a key.
pub(crate) fn nodes_beside(words: &[u64], root: u32, key: u64) -> Beside
    ghost tree: { Tree }
    requires { IsTree words.now root tree }
    ensures { AreBeside words.now tree key result }
{
    let mut at = root;
    let mut found = Beside { before: 0, from: 0 };
    'down: while at != 0 {
        let node = at - 1;
        if words[4 * node as usize] < key {
            found.before = at;
            at = link_of(words, node, Side::High);
        } else {
            found.from = at;
            at = link_of(words, node, Side::Low);
        }
    }
    found
}
