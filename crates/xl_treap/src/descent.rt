//! The way down to the place of a key.

ghost use Rattle.std.specs.Prelude.{◌≡◌, ◌<◌, ◌+◌, ◌*◌, ◌≤◌, length};
ghost use Rattle.xl_treap.specs.Trees.{Tree, ranges, IsAt};
ghost use Rattle.xl_treap.specs.Steps.{IsWay, IsAttached, parent_at};

use crate::node::{hang, step_of};

/// How many nodes a way has, and the link at its end.
#[derive(Clone, Copy)]
pub(crate) struct Way {
    pub(crate) depth: usize,
    pub(crate) at: u32,
}

/// Goes down to the node of a key, or to the end of a path where it would be. The nodes on the way
/// are put into `path`, by their links.
pub(crate) fn descend(words: &[u64], path: &mut [u32], root: u32, key: u64) -> Way
    ghost tree: { Tree }
    requires at { IsAt words.now root tree }
    requires few { length (ranges tree) ≤ length path.old }
    ensures { IsWay words.now path.new tree key result.depth result.at }
{
    let mut at = root;
    'down: for depth in 0..path.len() {
        if at == 0 {
            return Way { depth, at };
        }
        let node = at - 1;
        if words[4 * node as usize] == key {
            return Way { depth, at };
        }
        path[depth] = at;
        at = step_of(words, node, key);
    }
    Way {
        depth: path.len(),
        at,
    }
}

/// The link to the node before the end of a path of `depth` nodes, 0 where it has none.
pub(crate) fn parent_of(path: &[u32], depth: usize) -> u32
    requires short { depth ≤ length path.now }
    ensures { result ≡ parent_at path.now depth }
{
    if depth == 0 { 0 } else { path[depth - 1] }
}

/// Makes `at` the link below a parent, on the side of a key, or the root where there is no
/// parent. Returns the root.
pub(crate) fn attach(words: &mut [u64], root: u32, parent: u32, key: u64, at: u32) -> u32
    requires { 4 * parent ≤ length words.old }
    ensures { IsAttached words.old words.new root result parent key at }
{
    if parent == 0 {
        at
    } else {
        hang(words, parent - 1, key, at);
        root
    }
}
