//! How a leaf is kept in an item of a recency list: the tag has its space, block and order, the
//! word has its frame and its permission.

ghost use Rattle.std.specs.Prelude.{ℕ, ◌≡◌, ◌<◌, ◌^◌, ◌+◌, ◌-◌, ◌*◌, ◌/◌, ◌%◌};
ghost use Rattle.xl_model.specs.Addresses.{pages_of};
ghost use Rattle.xl_array.specs.Coding.{tag_of as number_of};
ghost use Rattle.xl_model.specs.LeafWords.{leaf_with};
ghost use Rattle.xl_array.specs.Touches.{IsPageWord};
ghost use Rattle.xl_array.specs.Hits.{leaf_hit};
ghost use Rattle.xl_array.specs.Arrays.{IsFit};

use xl_model::{Leaf, Order, perm_code};

/// The tag of the leaf of the space and order that covers the page.
#[tactic(auto, unfolding(crate::specs::Coding::tag_of))]
pub(crate) fn tag_of(space: u16, page: u64, order: Order) -> u64
    requires space { space < 64 }
    requires page { page < 2 ^ 52 }
    ensures { result ≡ number_of space page order }
{
    match order {
        Order::K4 => (page * 64 + space as u64) * 3,
        Order::M2 => (page / 512 * 64 + space as u64) * 3 + 1,
        Order::G1 => (page / 262_144 * 64 + space as u64) * 3 + 2,
    }
}

/// A leaf that was hit, beside the space and the page that were looked for: its order, and in one
/// word its frame (times 16) and its permission (four bits: read, write, execute, user).
#[derive(Clone, Copy)]
pub struct Hit {
    pub word: u64,
    pub order: Order,
}

/// The word of a leaf: its frame (times 16) and its permission.
#[tactic(auto, using(crate::proofs::FillLemmas::word_back))]
#[inline(always)]
pub fn word_of(leaf: Leaf) -> u64
    requires { IsFit leaf }
    ensures { leaf_with leaf.space leaf.first leaf.order result ≡ leaf }
{
    leaf.frame * 16 + perm_code(leaf.perm)
}

/// What is hit of a leaf, beside its space and its first page.
#[inline]
pub fn hit_of(leaf: Leaf) -> Hit
    requires { IsFit leaf }
    ensures { leaf_hit leaf.space leaf.first result ≡ leaf }
{
    Hit {
        word: word_of(leaf),
        order: leaf.order,
    }
}

/// Offset of the page in its block of the order.
#[inline]
fn following_start(order: Order, page: u64) -> u64
    ensures is { result ≡ page - page / pages_of order * pages_of order }
    ensures few { result < 2 ^ 18 }
{
    match order {
        Order::K4 => 0,
        Order::M2 => page % 512,
        Order::G1 => page % 262_144,
    }
}

/// The word of the page in a leaf that was hit: the page's frame (times 16), and the leaf's
/// permission.
#[inline]
pub fn page_word(page: u64, hit: Hit) -> u64
    ensures { (space : ℕ) → IsPageWord page result (leaf_hit space page hit) }
{
    hit.word.wrapping_add(following_start(hit.order, page) * 16)
}

/// The number of the block of the order that has the page.
#[inline]
pub(crate) fn block_of(order: Order, page: u64) -> u64
    ensures { result ≡ page / pages_of order }
{
    match order {
        Order::K4 => page,
        Order::M2 => page / 512,
        Order::G1 => page / 262_144,
    }
}

/// The first page of the block of the order that has the page: a mask for each order, where a
/// division by the order's pages would cost more than all else of a look.
#[inline]
pub fn block_start(order: Order, page: u64) -> u64
    ensures { result ≡ page / pages_of order * pages_of order }
{
    match order {
        Order::K4 => page,
        Order::M2 => page / 512 * 512,
        Order::G1 => page / 262_144 * 262_144,
    }
}
