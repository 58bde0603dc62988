//! The walk of a table without walk caches.

ghost use Rattle.std.specs.Prelude.{◌≡◌, ◌-◌, Some, IfSome, IfNone};
ghost use Rattle.xl_model.specs.Base.{plus};
ghost use Rattle.xl_model.specs.LeafWords.{small_leaf};
ghost use Rattle.xl_model.specs.Mapping.{leaf_at_page};
ghost use Rattle.xl_model.specs.Structures.{IsPage};
ghost use Rattle.xl_model.specs.Walks.{end_level};
ghost use Rattle.xl_radix.specs.Steps.{shape_of};

use crate::row::{descend, found_leaf, root, straight};
use arrayvec::ArrayVec;
use xl_model::Leaf;
use xl_radix::Radix;

/// Walks a page from the root of its space, whatever the walk ends with.
#[inline(never)]
fn find_slowly<const LEVELS: usize>(
    radix: &mut Radix<LEVELS>,
    space: u16,
    page: u64,
) -> Option<Leaf>
    requires { IsPage (shape_of LEVELS radix.old) space page }
    ensures leaf { result ≡ leaf_at_page space page radix.old.leaves }
    ensures loads { radix.new ≡ record radix.old {
      loads = plus radix.old.loads (LEVELS - end_level (LEVELS - 1) 0 space page radix.old.leaves);
    } }
{
    radix.words_read_back();
    let mut path = ArrayVec::new();
    let end = descend(radix, root(LEVELS, space), space, page, &mut path);
    found_leaf(space, page, end)
}

/// The word of the leaf of 4 KiB that covers a page: its frame (times 16) and its permission, by
/// the walk of `find_leaf`. `None`: not taken; no load is made.
#[inline(always)]
pub fn find_word<const LEVELS: usize>(
    radix: &mut Radix<LEVELS>,
    space: u16,
    page: u64,
) -> Option<u64>
    requires { IsPage (shape_of LEVELS radix.old) space page }
    ensures leaf { IfSome result (λ word.
        leaf_at_page space page radix.old.leaves ≡ Some (small_leaf space page word)) }
    ensures loads { IfSome result (λ _. radix.new ≡ record radix.old {
      loads = plus radix.old.loads (LEVELS - end_level (LEVELS - 1) 0 space page radix.old.leaves);
    }) }
    ensures none { IfNone result (radix.new ≡ radix.old) }
{
    radix.words_read_back();
    straight(radix, root(LEVELS, space), space, page, None, &mut [0; 4])
}

/// The leaf that covers a page, None exactly where none does, by a walk of the table's words from
/// the root of the page's space. It makes one load for each level down to the page's last node.
pub fn find_leaf<const LEVELS: usize>(
    radix: &mut Radix<LEVELS>,
    space: u16,
    page: u64,
) -> Option<Leaf>
    requires { IsPage (shape_of LEVELS radix.old) space page }
    ensures leaf { result ≡ leaf_at_page space page radix.old.leaves }
    ensures loads { radix.new ≡ record radix.old {
      loads = plus radix.old.loads (LEVELS - end_level (LEVELS - 1) 0 space page radix.old.leaves);
    } }
{
    match find_word(radix, space, page) {
        Some(word) => Some(Leaf::small(space, page, word)),
        None => find_slowly(radix, space, page),
    }
}
