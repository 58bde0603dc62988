//! Sections that a walk fills.

ghost use Rattle.std.specs.Prelude.{◌≡◌, ◌≤◌, ◌<◌, ◌&&◌, is_some, length, IfSome};
ghost use Rattle.xl_model.specs.Base.{one_if};
ghost use Rattle.xl_model.specs.Placing.{holder_from};
ghost use Rattle.xl_model.specs.Sections.{way_where};
ghost use Rattle.xl_model.specs.Walks.{fills_m2};
ghost use Rattle.xl_cuckoo_walk.specs.Coding.{hit_of};
ghost use Rattle.xl_cuckoo_walk.specs.Plans.{is_counted, new_word, newest_in, filled};

use crate::cache::Sections;
use crate::coding::section_word;
use xl_cuckoo::Cuckoo;
use xl_model::{Leaf, Order};
use xl_sections::{Counts, parts};

/// The section of a page that a walk sought in the cache of its size: its key, and its word if it
/// was cached.
#[derive(Clone, Copy)]
pub(crate) struct Sought {
    pub(crate) size: Order,
    pub(crate) key: u64,
    pub(crate) hit: Option<u64>,
}

/// The way that holds a key, where the section keeps it.
fn way_if<const D: usize>(table: &Cuckoo<D>, key: u64, known: bool) -> Option<u64>
    requires { length table.now.ways ≤ 4 }
    ensures is { result ≡ way_where known (holder_from 0 table.now.ways key) }
    ensures small { IfSome result (λ w. w < 4) }
{
    if known { table.way_of(key) } else { None }
}

/// The word of the section of a key, by the counts of its leaves and the way of its own leaf.
#[tactic(auto, unfolding(crate::specs::Plans::new_word))]
pub(crate) fn word_for<const D: usize>(
    size: Order,
    key: u64,
    counts: &Counts,
    table: &Cuckoo<D>,
) -> u64
    requires { length table.now.ways ≤ 4 }
    ensures { result ≡ new_word size key counts.now.counts table.now.ways }
{
    let count = counts.count(key);
    let is_leaf = parts(count, size) != 0;
    section_word(
        parts(count, Order::K4) != 0,
        parts(count, Order::M2) != 0,
        parts(count, Order::G1) != 0,
        way_if(table, key, is_leaf),
    )
}

/// Puts the section of a key in front.
#[inline(never)]
fn fill<const D: usize>(
    cache: &mut Sections,
    size: Order,
    key: u64,
    counts: &Counts,
    table: &Cuckoo<D>,
)
    requires { length table.now.ways ≤ 4 }
    ensures { cache.new ≡ newest_in key (new_word size key counts.now.counts table.now.ways)
        cache.old }
{
    cache.put_newest(key, word_for(size, key, counts, table));
}

/// Puts the section that was sought in front, where the walk fills and the cache didn't have it.
#[inline(always)]
pub(crate) fn fill_if<const D: usize>(
    cache: &mut Sections,
    fills: bool,
    sought: Sought,
    counts: &Counts,
    table: &Cuckoo<D>,
)
    requires { length table.now.ways ≤ 4 }
    ensures { cache.new ≡ filled fills sought.hit sought.key
        (new_word sought.size sought.key counts.now.counts table.now.ways) cache.old }
{
    let Sought { size, key, hit } = sought;
    if fills && hit.is_none() && cache.is_kept() {
        fill(cache, size, key, counts, table);
    }
}

/// Whether a walk fills the cache of 2 MiB sections: it found a leaf that isn't of 1 GiB.
#[inline(always)]
pub(crate) fn fills_middle(found: Option<Leaf>) -> bool
    ensures { result ≡ fills_m2 found }
{
    match found {
        None => false,
        Some(leaf) => leaf.order.level() != 2,
    }
}

/// One where the cache hit.
#[inline(always)]
pub(crate) fn one_hit(hit: Option<u64>) -> u64
    ensures is { (tag : _) → result ≡ one_if (is_some (hit_of tag hit)) }
    ensures small { result ≤ 1 }
{
    match hit {
        None => 0,
        Some(_) => 1,
    }
}
