//! Invalidates walk-cache entries after a change.

ghost use Rattle.std.specs.Prelude.{◌≡◌, ◌≤◌, ◌<◌, ◌+◌, ◌*◌, ◌/◌, ◌^◌, ◌∷◌, [], length};
ghost use Rattle.xl_model.specs.Addresses.{pages_of};
ghost use Rattle.xl_cuckoo_walk.specs.Plans.{new_word, refreshed, keys_from};
ghost use Rattle.xl_cuckoo_walk.specs.Changes.{page_keys, keys_moved, compared};

use crate::cache::Sections;
use crate::fill::word_for;
use crate::parts::Parts;
use xl_cuckoo::Cuckoo;
use xl_model::Order;
use xl_sections::{Counts, section};

/// Compares the sections of the keys that the last insertion displaced, from this one on.
pub(crate) fn refresh_moved<const D: usize>(
    cache: &mut Sections,
    at: usize,
    size: Order,
    counts: &Counts,
    table: &Cuckoo<D>,
)
    requires ways { length table.now.ways ≤ 4 }
    requires at { at ≤ 64 }
    ensures { cache.new ≡ refreshed (λ key. new_word size key counts.now.counts table.now.ways)
        (keys_from at table.now.moved) cache.old }
{
    match table.moved(at) {
        None => (),
        Some(moved) => {
            cache.refresh(moved.key, word_for(size, moved.key, counts, table));
            refresh_moved(cache, at + 1, size, counts, table);
        }
    }
}

/// Compares the section of a page.
pub(crate) fn refresh_own<const D: usize>(
    cache: &mut Sections,
    space: u16,
    page: u64,
    size: Order,
    counts: &Counts,
    table: &Cuckoo<D>,
)
    requires ways { length table.now.ways ≤ 4 }
    requires space_in { space < 64 }
    requires page_in { page < 2 ^ 45 }
    ensures { cache.new ≡ refreshed (λ key. new_word size key counts.now.counts table.now.ways)
        ((space * 2 ^ 45 + page / pages_of size) ∷ []) cache.old }
{
    if cache.is_kept() {
        let key = section(space, page, size);
        cache.refresh(key, word_for(size, key, counts, table));
    }
}

/// Compares the sections of a leaf's pages, of both sizes.
pub(crate) fn refresh_leaf<const D: usize>(parts: &mut Parts<D>, space: u16, first: u64)
    requires middle { length parts.old.tables.m2.ways ≤ 4 }
    requires large { length parts.old.tables.g1.ways ≤ 4 }
    requires space_in { space < 64 }
    requires page_in { first < 2 ^ 45 }
    ensures { parts.new ≡ compared (page_keys space first) parts.old }
{
    refresh_own(
        &mut parts.middle_cache,
        space,
        first,
        Order::M2,
        &parts.middle,
        &parts.m2,
    );
    refresh_own(
        &mut parts.large_cache,
        space,
        first,
        Order::G1,
        &parts.large,
        &parts.g1,
    );
}

/// Compares the sections that are leaves of this order which the last insertion of one displaced:
/// they are in other ways now.
pub(crate) fn refresh_displaced<const D: usize>(parts: &mut Parts<D>, order: Order)
    requires middle { length parts.old.tables.m2.ways ≤ 4 }
    requires large { length parts.old.tables.g1.ways ≤ 4 }
    ensures { parts.new ≡ compared (keys_moved order parts.old) parts.old }
{
    match order {
        Order::K4 => (),
        Order::M2 => refresh_moved(
            &mut parts.middle_cache,
            0,
            Order::M2,
            &parts.middle,
            &parts.m2,
        ),
        Order::G1 => refresh_moved(
            &mut parts.large_cache,
            0,
            Order::G1,
            &parts.large,
            &parts.g1,
        ),
    }
}
