//! The work on the leaves that a plain table keeps.

ghost use Rattle.std.specs.Prelude.{◌≡◌, ◌+◌, ◌*◌, ◌^◌, ◌<◌, ◌≤◌, ◌&&◌, nat_le, nat_lt, length, map, find};
ghost use Rattle.std.specs.List.{All, list_any, insert};
ghost use Rattle.std.specs.Vec.{vec_len, vec_capacity};
ghost use Rattle.xl_model.specs.Addresses.{pages_of, level_of};
ghost use Rattle.xl_model.specs.Mapping.{covers as is_covering, meets_block, is_leaf};
ghost use Rattle.xl_model.specs.Chains.{tag_of as order_tag, leaf_tag as tag_of_leaf, bucket_of as tag_bucket, chain_of, examined};
ghost use Rattle.xl_model.specs.Walks.{orders_tried, orders_up_to};
ghost use Rattle.xl_model_table.specs.Plain.{search_loads, walk_loads as loads_of_walk};
ghost use Rattle.xl_model_lemmas.specs.Kept.{IsPlaced};
ghost use Rattle.xl_model_table.specs.Kept.{in_front, without_named, protected_where, with_perm_named};

use xl_model::{Leaf, Order, Perm, mix};

/// Whether `page` is below the end of the block of this order at page `first`.
fn is_below_end(page: u64, first: u64, order: Order) -> bool
    ensures { result ≡ nat_lt page (first + pages_of order) }
{
    page < first || page - first < order.pages()
}

fn meets(leaf: &Leaf, space: u16, first: u64, order: Order) -> bool
    ensures { result ≡ meets_block space first order leaf.now }
{
    leaf.space == space
        && is_below_end(leaf.first, first, order)
        && is_below_end(first, leaf.first, leaf.order)
}

fn covers(leaf: &Leaf, space: u16, page: u64) -> bool
    ensures { result ≡ is_covering space page leaf.now }
{
    leaf.space == space && leaf.first <= page && is_below_end(page, leaf.first, leaf.order)
}

fn is_named(leaf: &Leaf, space: u16, first: u64, order: Order) -> bool
    ensures { result ≡ is_leaf space first order leaf.now }
{
    leaf.space == space && leaf.first == first && leaf.order.level() == order.level()
}

/// Whether one of the leaves overlaps the block.
pub(crate) fn any_meets(items: &[Leaf], space: u16, first: u64, order: Order) -> bool
    ensures { result ≡ list_any (meets_block space first order) items.now }
{
    items.iter().any(|leaf| meets(leaf, space, first, order))
}

/// The leaf that covers the page.
pub(crate) fn covering(items: &[Leaf], space: u16, page: u64) -> Option<Leaf>
    ensures { result ≡ find (is_covering space page) items.now }
{
    for leaf in items {
        if covers(leaf, space, page) {
            return Some(*leaf);
        }
    }
    None
}

/// The leaf of this name.
pub(crate) fn named(items: &[Leaf], space: u16, first: u64, order: Order) -> Option<Leaf>
    ensures { result ≡ find (is_leaf space first order) items.now }
{
    for leaf in items {
        if is_named(leaf, space, first, order) {
            return Some(*leaf);
        }
    }
    None
}

/// The tag of the leaf of this order in which a page lies.
pub(crate) fn tag_of(space: u16, order: Order, page: u64) -> u64
    requires space_in { space < 64 }
    requires page_in { page < 2 ^ 45 }
    ensures { result ≡ order_tag 1 space order page }
{
    let key = space as u64 * (1 << 45) + page / order.pages();
    order.level() as u64 * (1 << 60) + key
}

fn leaf_tag(leaf: &Leaf) -> u64
    requires { IsPlaced leaf.now }
    ensures { result ≡ tag_of_leaf 1 leaf.now }
{
    tag_of(leaf.space, leaf.order, leaf.first)
}

fn bucket_of(buckets: u32, tag: u64) -> u64
    requires { 0 < buckets }
    ensures { result ≡ tag_bucket buckets tag }
{
    mix(tag) % buckets as u64
}

/// The loads of a search for the tag in its bucket: one for the bucket, and one for each leaf up to
/// and with the one that has the tag.
pub(crate) fn loads_of(items: &[Leaf], buckets: u32, tag: u64) -> u64
    requires some { 0 < buckets }
    requires placed { All IsPlaced items.now }
    requires few { length items.now ≤ 2 ^ 20 }
    ensures loads { result ≡ search_loads buckets tag items.now }
    ensures bounded { result ≤ 2 ^ 20 + 1 }
{
    let bucket = bucket_of(buckets, tag);
    let mut loads = 1;
    for leaf in items {
        let other = leaf_tag(leaf);
        if bucket_of(buckets, other) == bucket {
            loads += 1;
            if other == tag {
                return loads;
            }
        }
    }
    loads
}

/// The last order that a walk tries: that of the leaf which it finds, or the largest.
fn last_order(found: Option<Leaf>) -> Order
    ensures { orders_tried found ≡ orders_up_to result }
{
    match found {
        Some(leaf) => leaf.order,
        None => Order::G1,
    }
}

/// The loads of a walk that finds this leaf: those of a search for each order up to the last.
pub(crate) fn walk_loads(
    items: &[Leaf],
    buckets: u32,
    space: u16,
    page: u64,
    found: Option<Leaf>,
) -> u64
    requires some { 0 < buckets }
    requires placed { All IsPlaced items.now }
    requires few { length items.now ≤ 2 ^ 20 }
    requires space_in { space < 64 }
    requires page_in { page < 2 ^ 45 }
    ensures { result ≡ loads_of_walk buckets items.now space page found }
{
    let k4 = loads_of(items, buckets, tag_of(space, Order::K4, page));
    let m2 = loads_of(items, buckets, tag_of(space, Order::M2, page));
    let g1 = loads_of(items, buckets, tag_of(space, Order::G1, page));
    match last_order(found) {
        Order::K4 => k4,
        Order::M2 => k4 + m2,
        Order::G1 => k4 + m2 + g1,
    }
}

/// The place of a new leaf: before the first leaf of a bucket that isn't lower than its own.
pub(crate) fn place_of(items: &[Leaf], buckets: u32, leaf: &Leaf) -> usize
    requires some { 0 < buckets }
    requires placed { All IsPlaced items.now }
    requires new { IsPlaced leaf.now }
    ensures within { result ≤ length items.now }
    ensures place { insert items.now result leaf.now ≡ in_front buckets leaf.now items.now }
{
    let bucket = bucket_of(buckets, leaf_tag(leaf));
    for (i, item) in items.iter().enumerate() {
        if bucket <= bucket_of(buckets, leaf_tag(item)) {
            return i;
        }
    }
    items.len()
}

/// Takes the leaf of this name out.
pub(crate) fn take_out(items: &mut Vec<Leaf>, space: u16, first: u64, order: Order)
    ensures items { items.new.items ≡ without_named space first order items.old.items }
    ensures len { vec_len items.new ≤ vec_len items.old }
    ensures capacity { vec_capacity items.new ≡ vec_capacity items.old }
{
    items.retain(|leaf| !is_named(leaf, space, first, order));
}

/// The leaf, with this permission where it has this name.
fn given(leaf: Leaf, space: u16, first: u64, order: Order, perm: Perm) -> Leaf
    ensures { result ≡ protected_where (is_leaf space first order leaf) perm leaf }
{
    if is_named(&leaf, space, first, order) {
        Leaf { perm, ..leaf }
    } else {
        leaf
    }
}

/// Gives the leaf of this name another permission.
pub(crate) fn give_perm(items: &mut [Leaf], space: u16, first: u64, order: Order, perm: Perm)
    ensures { items.new ≡ with_perm_named space first order perm items.old }
{
    for leaf in items.iter_mut() {
        *leaf = given(*leaf, space, first, order, perm);
    }
}
