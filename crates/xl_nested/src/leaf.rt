//! Questions to a leaf.

ghost use Rattle.std.specs.Prelude.{◌≡◌, ◌+◌, ◌/◌, ◌^◌, ◌<◌, Some, IfSome};
ghost use Rattle.xl_model.specs.Addresses.{pages_of};
ghost use Rattle.xl_model.specs.Mapping.{is_leaf, reply_by};
ghost use Rattle.xl_nested_model.specs.Stages.{frame_of};
ghost use Rattle.xl_nested.specs.Coding.{frame_said, IsPageWord};
ghost use Rattle.xl_nested.specs.Walks.{IsFor};

use xl_model::{Kind, Leaf, Order, allows, perm_code, word_allows};

/// Whether a leaf is the one of this space, first page and order.
#[inline(always)]
pub(crate) fn is_named(leaf: &Leaf, space: u16, first: u64, order: Order) -> bool
    ensures { result ≡ is_leaf space first order leaf.now }
{
    leaf.space == space && (leaf.first == first && leaf.order.level() == order.level())
}

/// The frame of a page that a leaf covers, where the leaf allows the access.
#[inline(always)]
pub(crate) fn frame_in(leaf: Leaf, page: u64, kind: Kind) -> Option<u64>
    requires { IsFor page leaf }
    ensures frame { result ≡ frame_of (reply_by (Some leaf) page kind) }
    ensures within { IfSome result (λ frame. frame < leaf.frame + pages_of leaf.order) }
{
    if allows(leaf.perm, kind) {
        Some(leaf.frame + (page - leaf.first))
    } else {
        None
    }
}

/// The word of a page that a leaf covers: its frame times 16, and the leaf's permission.
#[inline(always)]
pub(crate) fn word_in(leaf: Leaf, page: u64) -> u64
    requires { IsFor page leaf }
    ensures says { IsPageWord page result leaf }
    ensures small { result < 2 ^ 49 }
{
    (leaf.frame + (page - leaf.first)) * 16 + perm_code(leaf.perm)
}

/// The frame that a word says, where its permission allows the access.
#[inline(always)]
pub(crate) fn frame_allowed(word: u64, kind: Kind) -> Option<u64>
    ensures frame { result ≡ frame_said kind word }
    ensures within { IfSome result (λ frame. frame ≡ word / 16) }
{
    if word_allows(word, kind) {
        Some(word / 16)
    } else {
        None
    }
}
