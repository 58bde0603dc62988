//! The walk.

ghost use Rattle.std.specs.Prelude.{◌≡◌};
ghost use Rattle.xl_model.specs.PageWalks.{IsPageWalk, walk_of_page};
ghost use Rattle.xl_model.specs.Structures.{IsPage};
ghost use Rattle.xl_tagged.specs.Slots.{small_known};
ghost use Rattle.xl_cuckoo_walk.specs.Parts.{IsRow, row_state};

use crate::fill::{Sought, fill_if, fills_middle, one_hit};
use crate::parts::Parts;
use crate::plan::{Hits, Plan, planned};
use crate::probe::{probe_next, probe_order, probe_small};
use crate::sole::{Sole, leave_small, sole_of};
use xl_model::{Order, PageWalk, Walk};
use xl_pte::words_read_back;
use xl_sections::section;

/// The walk of a page whose sections are both cached, that found this leaf of 4 KiB or none.
#[inline(always)]
fn small_walk(_space: u16, _page: u64, found: Option<u64>) -> PageWalk
    ensures { walk_of_page _space _page result
        ≡ record { leaf = small_known _space _page found; cache_hits = 2 } }
{
    match found {
        Some(word) => PageWalk::Small {
            word,
            cache_hits: 2,
        },
        None => PageWalk::Any {
            walk: Walk {
                leaf: None,
                cache_hits: 2,
            },
        },
    }
}

/// The walk of a page. Where its sections are in front of both caches and leave one order alone, no
/// more than that order is looked at. A leaf of 4 KiB comes as its word then.
#[inline(always)]
pub(crate) fn walk_page<const D: usize>(parts: &mut Parts<D>, space: u16, page: u64) -> PageWalk
    requires whole { IsRow parts.old }
    requires page { IsPage (row_state parts.old).shape space page }
    ensures whole { IsRow parts.new }
    ensures walks { IsPageWalk space page (row_state parts.old) result (row_state parts.new) }
{
    words_read_back();
    let middle_key = section(space, page, Order::M2);
    let large_key = section(space, page, Order::G1);
    let middle = parts.middle_cache.front(middle_key);
    let large = parts.large_cache.front(large_key);
    match sole_of(middle, large) {
        Sole::Small => {
            let found = probe_small(&mut parts.k4, space, page);
            small_walk(space, page, found)
        }
        Sole::Middle(way) => {
            let leaf = probe_order(&mut parts.m2, Plan::At(way), Order::M2, space, page);
            PageWalk::Any {
                walk: Walk {
                    leaf,
                    cache_hits: 2,
                },
            }
        }
        Sole::Unknown => walk_next(parts, space, page),
    }
}

/// The walk of any page: the cached sections of the page say which orders are possible, and in
/// which way a large leaf is; the possible orders are probed, and sections are cached that weren't.
/// Where both sections are cached and leave 4 KiB alone, only that is probed.
fn walk_next<const D: usize>(parts: &mut Parts<D>, space: u16, page: u64) -> PageWalk
    requires whole { IsRow parts.old }
    requires page { IsPage (row_state parts.old).shape space page }
    ensures whole { IsRow parts.new }
    ensures walks { IsPageWalk space page (row_state parts.old) result (row_state parts.new) }
{
    words_read_back();
    let middle_key = section(space, page, Order::M2);
    let large_key = section(space, page, Order::G1);
    let middle = parts.middle_cache.touch(middle_key);
    let large = parts.large_cache.touch(large_key);
    if leave_small(middle, large) {
        let found = probe_small(&mut parts.k4, space, page);
        return small_walk(space, page, found);
    }
    let hits = Hits { middle, large };
    let k4_plan = planned(Order::K4, hits);
    let m2_plan = planned(Order::M2, hits);
    let g1_plan = planned(Order::G1, hits);
    let k4 = probe_order(&mut parts.k4, k4_plan, Order::K4, space, page);
    let m2 = probe_next(k4, &mut parts.m2, m2_plan, Order::M2, space, page);
    let leaf = probe_next(m2, &mut parts.g1, g1_plan, Order::G1, space, page);
    fill_if(
        &mut parts.middle_cache,
        fills_middle(leaf),
        Sought {
            size: Order::M2,
            key: middle_key,
            hit: middle,
        },
        &parts.middle,
        &parts.m2,
    );
    fill_if(
        &mut parts.large_cache,
        leaf.is_some(),
        Sought {
            size: Order::G1,
            key: large_key,
            hit: large,
        },
        &parts.large,
        &parts.g1,
    );
    PageWalk::Any {
        walk: Walk {
            leaf,
            cache_hits: one_hit(middle) + one_hit(large),
        },
    }
}
