//! The node with a page, searched for straight over a treap's own words.

ghost use Rattle.std.specs.Prelude.{◌≡◌, ◌<◌, ◌+◌, ◌*◌, ◌^◌, ◌≤◌, length};
ghost use Rattle.xl_treap.specs.Trees.{Tree, ranges};
ghost use Rattle.xl_treap.specs.Steps.{IsTree, IsReached};

/// A link to the node whose pages hold a key, 0 where there is none, and how many nodes were
/// examined.
#[derive(Clone, Copy)]
pub(crate) struct Reached {
    pub(crate) at: usize,
    pub(crate) loads: u32,
}

/// The node whose pages hold a key. Before a node's first page the distance to it wraps, and is
/// more than any node's pages; so one comparison says whether they hold the key. The side
/// on which a search continues can't be predicted, so both links are there before one is chosen,
/// and LLVM needs no branch for the choice.
pub(crate) fn node_with(words: &[u64], root: u32, key: u64) -> Reached
    ghost tree: { Tree }
    requires placed { IsTree words.now root tree }
    requires few { length (ranges tree) < 2 ^ 32 }
    requires key_in { key < 2 ^ 58 }
    ensures { IsReached words.now tree key result }
{
    let mut at = root as usize;
    let mut loads = 0;
    'down: while at != 0 {
        let line = 4 * (at - 1);
        let (first, pages, links) = (words[line], words[line + 1], words[line + 3]);
        loads += 1;
        if key.wrapping_sub(first) < pages {
            return Reached { at, loads };
        }
        let (left, right) = (links % (1 << 32), links >> 32);
        at = (if key < first { left } else { right }) as usize;
    }
    Reached { at: 0, loads }
}
