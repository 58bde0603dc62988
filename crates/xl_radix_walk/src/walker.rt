//! The walk.

ghost use Rattle.std.specs.Prelude.{◌≡◌, ℕ, ◌+◌, ◌-◌, ◌*◌, ◌^◌, ◌%◌, ◌<◌, ◌≤◌, [], ◌++◌, length};
ghost use Rattle.xl_radix.specs.Walk.{radix_back};
ghost use Rattle.xl_radix.specs.Walk.{end_of};
ghost use Rattle.xl_radix_walk.specs.Path.{radix_path, loaded_times};

use crate::step::{Step, take_step};
use arrayvec::ArrayVec;
use xl_phys::Bus;
use xl_radix::WalkEnd;

/// Walks the page from node `node` at level `start`: reads the word of the page's index, and at a
/// pointer enters the next node, one level down (RISC-V Privileged manual). `path` gets the nodes
/// entered below `start`, in order. It makes a load for each level that it reads.
pub fn walk<B: Bus, const LEVELS: usize>(
    bus: &mut B,
    start: usize,
    node: u64,
    page: u64,
    path: &mut ArrayVec<u64, 4>,
) -> WalkEnd
    requires levels { LEVELS ≤ 5 }
    requires start { start < LEVELS }
    requires node { node < 2 ^ 44 }
    requires path { path.old.items ≡ [] }
    ensures end { result ≡ radix_back (B.words bus.old) start node page }
    ensures path { path.new.items ≡ radix_path (B.words bus.old) start node page }
    ensures level { end_of result ≤ start }
    ensures length { length path.new.items + end_of result ≡ start }
    ensures bus { bus.new ≡ loaded_times B.loaded (start + 1 - end_of result) bus.old }
{
    let mut level = start;
    let mut at = node;
    loop {
        match take_step(bus, level, at, page) {
            Step::Ends(end) => return end,
            Step::Descends(next) => {
                path.push(next);
                at = next;
                level -= 1;
            }
        }
    }
}
