//! The trait of the five tables.

ghost use Rattle.std.specs.Prelude.{◌≡◌, false, IfSome, IfNone};
ghost use Rattle.xl_model.specs.Mapping.{leaf_at_page, meets_any};
ghost use Rattle.xl_model.specs.Changes.{Insert, Remove, Protect, Relocate, IsNamed};
ghost use Rattle.xl_model.specs.PageWalks.{IsPageWalk, IsAllowedWalk, IsSameWalk};
ghost use Rattle.xl_model.specs.Structures.{TableState, IsBlock, IsPage, IsLeafFor, IsChange, IsWalk, IsFence};

use crate::address::{Kind, Order};
use crate::event::Reach;
use crate::leaf::Leaf;
use crate::perm::Perm;
use crate::work::{PageWalk, Refused, Walk, Work};

/// A table of a row: holds the leaves of its mapping, and is walked. Contracts see it as its
/// `table`: the leaves, sorted by space and first page, the shape, the walk caches and the loads.
///
/// Only `walk` changes the loads. A refused change leaves the leaves and the caches, and of the
/// shape all but the growths that a cuckoo table was forced to. After a change that is made exactly
/// the entries of the precise purge have left the caches, and `Work` says how many. No call
/// allocates.
pub trait Structure: Drop {
    ghost table: { Self → TableState };

    /// Whether a leaf of the space has a page of the block of this order at page `first`.
    fn meets(&self, space: u16, first: u64, order: Order) -> bool
        requires { IsBlock (table self.now).shape space first order }
        ensures { result ≡ meets_any space first order (table self.now).leaves };

    /// The leaf that covers the page, None exactly where there is none.
    fn leaf_at(&self, space: u16, page: u64) -> Option<Leaf>
        requires { IsPage (table self.now).shape space page }
        ensures { result ≡ leaf_at_page space page (table self.now).leaves };

    /// Adds a leaf that overlaps no other. Refused where there is no room, and then where every way
    /// of a cuckoo table is at its cap.
    fn insert(&mut self, leaf: Leaf) -> Result<Work, Refused>
        requires valid { IsLeafFor (table self.old).shape leaf }
        requires free { meets_any leaf.space leaf.first leaf.order (table self.old).leaves ≡ false }
        ensures changes { IsChange (Insert leaf) (table self.old) result (table self.new) };

    /// Drops a leaf that is there. Refused where a table of ranges has no room for the result.
    fn remove(&mut self, space: u16, first: u64, order: Order) -> Result<Work, Refused>
        requires { IsNamed space first order (table self.old).leaves }
        ensures changes { IsChange (Remove space first order) (table self.old) result
            (table self.new) };

    /// Gives a leaf that is there another permission. Refused as `remove`.
    fn protect(&mut self, space: u16, first: u64, order: Order, perm: Perm) -> Result<Work, Refused>
        requires { IsNamed space first order (table self.old).leaves }
        ensures changes { IsChange (Protect space first order perm) (table self.old) result
            (table self.new) };

    /// Moves a leaf that is there to the page `to`, where no leaf overlaps it, with its frame and
    /// permission. Refused as `insert`, judged with both leaves there, and for ranges on the result
    /// too.
    fn relocate(&mut self, space: u16, first: u64, to: u64, order: Order) -> Result<Work, Refused>
        requires there { IsNamed space first order (table self.old).leaves }
        requires valid { IsBlock (table self.old).shape space to order }
        requires free { meets_any space to order (table self.old).leaves ≡ false }
        ensures changes { IsChange (Relocate space first to order) (table self.old) result
            (table self.new) };

    /// The leaf that covers the page, found by a walk, with the cache hits of the walk. The loads
    /// rise by those of the walk, and the caches are touched and filled.
    fn walk(&mut self, space: u16, page: u64) -> PageWalk
        requires { IsPage (table self.old).shape space page }
        ensures walks { IsPageWalk space page (table self.old) result (table self.new) };

    /// Fast path of `walk`. Where `cached`, it begins at a level-0 node in the lowest cache, else
    /// there is no cache; only for a 4 KiB leaf that permits `kind`. Returns the leaf's word.
    /// `None`: not taken, and a walk of the page has the result that it had.
    #[inline(always)]
    fn walk_allowed(&mut self, _space: u16, _page: u64, _kind: Kind, _cached: bool) -> Option<u64>
        requires { IsPage (table self.old).shape _space _page }
        ensures some { IfSome result (λ word.
            IsAllowedWalk _space _page _kind _cached word (table self.old) (table self.new)) }
        ensures none { IfNone result
            (IsSameWalk _space _page (table self.old) (table self.new)) }
    {
        None
    }

    /// Removes from the caches what a fence reaches, and says how many entries left.
    fn fence(&mut self, reach: Reach) -> u64
        ensures fences { IsFence reach (table self.old) result (table self.new) };

    /// The loads of all walks so far, modulo 2^64.
    fn loads(&self) -> u64
        ensures { result ≡ (table self.now).loads };
}
