//! A range put into a tree: what is under its place is parted at its key.

ghost use Rattle.std.specs.Prelude.{◌≡◌, ◌<◌, ◌+◌, ◌*◌, ◌^◌, ◌≤◌, length};
ghost use Rattle.xl_model.specs.Ranges.{range_key};
ghost use Rattle.xl_treap.specs.Treaps.{with_range};
ghost use Rattle.xl_treap.specs.Trees.{Tree, ranges, down};
ghost use Rattle.xl_treap.specs.Steps.{CanPart, CanPut, IsParted, IsMade};

use crate::descent::{attach, descend, parent_of};
use crate::node::{hang, is_above, key_of, set_line, set_links};
use xl_model::Range;

/// Links to what lies below a key and to what lies above it, of a tree `depth` nodes down.
#[derive(Clone, Copy)]
pub(crate) struct Parts {
    pub(crate) low: u32,
    pub(crate) high: u32,
    pub(crate) depth: usize,
}

/// Goes up a way to the first node above the key, and parts what is under it.
pub(crate) fn part(words: &mut [u64], path: &[u32], depth: usize, key: u64) -> Parts
    ghost tree: { Tree }
    requires { CanPart words.old path.now tree key depth }
    ensures { IsParted words.old words.new tree key depth result }
{
    let mut parts = Parts {
        low: 0,
        high: 0,
        depth,
    };
    while parts.depth > 0 {
        let at = path[parts.depth - 1];
        let node = at - 1;
        let own = words[4 * node as usize];
        if is_above(own, key) {
            return parts;
        }
        if own < key {
            hang(words, node, key, parts.low);
            parts.low = at;
        } else {
            hang(words, node, key, parts.high);
            parts.high = at;
        }
        parts.depth -= 1;
    }
    parts
}

/// Puts a range into the tree, in a node that is free. Returns the root.
pub(crate) fn put_in(words: &mut [u64], path: &mut [u32], root: u32, node: u32, range: Range) -> u32
    ghost tree: { Tree }
    requires { CanPut words.old root (length path.old) tree node range }
    ensures { IsMade words.old words.new result node (with_range range (ranges tree)) }
{
    let key = key_of(range.space, range.start);
    set_line(words, node, range);
    let way = descend(words, path, root, key);
    let parts = part(words, path, way.depth, key);
    set_links(words, node, parts.low, parts.high);
    let parent = parent_of(path, parts.depth);
    attach(words, root, parent, key, node + 1)
}
