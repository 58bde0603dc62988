//! The search for a page.

ghost use Rattle.std.specs.Prelude.{◌≡◌, ◌<◌, ◌+◌, ◌*◌, ◌^◌, ◌≤◌};
ghost use Rattle.xl_treap.specs.Back.{visit_of, search_from, loaded_along};

use crate::node::range_in;
use xl_model::Range;
use xl_phys::Bus;

/// The result of a search for a page.
#[derive(Clone, Copy)]
pub enum Search {
    /// The range that holds the page.
    Found(Range),
    /// The path ends, or at a node whose words say no range.
    Absent,
    /// The line of a node is not there.
    OutOfBus,
    /// As many nodes as there are were examined, and the path continues.
    TooLong,
}

/// What an examined node says of a key: its line is not there; its pages hold the key, with its
/// range if its words say one; or the link to the next node.
pub(crate) enum Visit {
    Gone,
    Here(Option<Range>),
    Goes(u32),
}

/// Loads a node. The side on which a search continues can't be predicted, so both links are there
/// before one is chosen, and LLVM needs no branch for the choice.
pub(crate) fn examine<B: Bus>(bus: &mut B, node: u32, key: u64) -> Visit
    ensures visit { result ≡ visit_of (B.words bus.old) node key }
    ensures bus { bus.new ≡ B.loaded bus.old }
{
    match bus.load(node as usize) {
        None => Visit::Gone,
        Some(words) => {
            let below = key < words[0];
            if !below & (key.wrapping_sub(words[0]) < words[1]) {
                return Visit::Here(range_in(words[0], words[1], words[2]));
            }
            let (left, right) = (words[3] % (1 << 32), words[3] >> 32);
            Visit::Goes((if below { left } else { right }) as u32)
        }
    }
}

/// Searches from the root down, node by node, to the one whose pages hold the key.
pub(crate) fn seek<B: Bus>(bus: &mut B, root: u32, nodes: u32, key: u64) -> Search
    ensures end { result ≡ (search_from nodes (B.words bus.old) root key).end }
    ensures bus { bus.new ≡ loaded_along B.loaded (B.words bus.old) root nodes key bus.old }
{
    let mut at = root;
    'along: for i in 0..nodes {
        if at == 0 {
            return Search::Absent;
        }
        match examine(bus, at - 1, key) {
            Visit::Gone => return Search::OutOfBus,
            Visit::Here(None) => return Search::Absent,
            Visit::Here(Some(range)) => return Search::Found(range),
            Visit::Goes(next) => at = next,
        }
    }
    if at == 0 {
        Search::Absent
    } else {
        Search::TooLong
    }
}
