//! A range taken out of a tree: the trees under its node are joined.

ghost use Rattle.std.specs.Prelude.{◌≡◌, ◌<◌, ◌+◌, ◌*◌, ◌^◌, ◌≤◌, length};
ghost use Rattle.xl_treap.specs.Trees.{Tree, Pair, merge};
ghost use Rattle.xl_treap.specs.Steps.{CanMerge, IsSpine, CanRise, IsRisen, CanTake, IsTaken, CanResize, IsResized};

use crate::descent::{Way, attach, descend, parent_of};
use crate::node::{Side, hang, is_above, link_of, set_pages};

/// Goes down two trees, of which the second lies after the first and the key between them, along
/// the nodes of one tree of both.
pub(crate) fn merge_down(words: &[u64], path: &mut [u32], low: u32, high: u32) -> Way
    ghost pair: { Pair }
    requires { CanMerge words.now low high (length path.old) pair }
    ensures { IsSpine words.now path.new
        (merge pair.low pair.high) pair.key result.depth result.at }
{
    let mut low = low;
    let mut high = high;
    'down: for depth in 0..path.len() {
        if low == 0 {
            return Way { depth, at: high };
        }
        if high == 0 {
            return Way { depth, at: low };
        }
        let (first, second) = (low - 1, high - 1);
        if is_above(words[4 * first as usize], words[4 * second as usize]) {
            path[depth] = low;
            low = link_of(words, first, Side::High);
        } else {
            path[depth] = high;
            high = link_of(words, second, Side::Low);
        }
    }
    Way {
        depth: path.len(),
        at: high,
    }
}

/// Relinks along `path` (bottom up). Returns the link to the first node.
pub(crate) fn rise(words: &mut [u64], path: &[u32], way: Way, key: u64) -> u32
    ghost tree: { Tree }
    requires { CanRise words.old path.now tree key way.depth way.at }
    ensures { IsRisen words.old words.new tree result }
{
    let mut at = way.at;
    let mut depth = way.depth;
    while depth > 0 {
        let above = path[depth - 1];
        hang(words, above - 1, key, at);
        at = above;
        depth -= 1;
    }
    at
}

/// Makes one tree of two, of which the second lies after the first and the key between them.
/// Returns the link to its top.
pub(crate) fn join(words: &mut [u64], path: &mut [u32], low: u32, high: u32, key: u64) -> u32
    ghost pair: { Pair }
    requires merge { CanMerge words.old low high (length path.old) pair }
    requires key { pair.key ≡ key }
    ensures { IsRisen words.old words.new (merge pair.low pair.high) result }
{
    let spine = merge_down(words, path, low, high);
    rise(words, path, spine, key)
}

/// The root of a tree from which a node was taken, and that node.
#[derive(Clone, Copy)]
pub(crate) struct Taken {
    pub(crate) root: u32,
    pub(crate) node: u32,
}

/// Takes out of the tree the range of a key that is held.
pub(crate) fn take_out(words: &mut [u64], path: &mut [u32], root: u32, key: u64) -> Taken
    ghost tree: { Tree }
    requires { CanTake words.old root (length path.old) tree key }
    ensures { IsTaken words.old words.new tree key result.root result.node }
{
    let way = descend(words, path, root, key);
    let node = way.at - 1;
    let parent = parent_of(path, way.depth);
    let (low, high) = (
        link_of(words, node, Side::Low),
        link_of(words, node, Side::High),
    );
    let at = join(words, path, low, high, key);
    let root = attach(words, root, parent, key, at);
    set_pages(words, node, 0);
    Taken { root, node }
}

/// Gives the range of a key that is held `pages` pages.
pub(crate) fn give_pages(words: &mut [u64], path: &mut [u32], root: u32, key: u64, pages: u64)
    ghost tree: { Tree }
    requires { CanResize words.old root (length path.old) tree key pages }
    ensures { IsResized words.old words.new tree root key pages }
{
    let way = descend(words, path, root, key);
    set_pages(words, way.at - 1, pages);
}
