//! The arrays of a row, and the pages that are known of the first ones: one serves all accesses, or
//! one fetches and one data.

ghost use Rattle.std.specs.Prelude.{Bool, ◌≡◌, true, List, map};
ghost use Rattle.xl_model.specs.Tlb.{TlbArray};
ghost use Rattle.xl_tlb.specs.Fronts.{HasEights};
ghost use Rattle.xl_tlb.specs.Firsts.{IsKnown, first_in, numbers_of};
ghost use Rattle.xl_tlb.specs.Tlbs.{spec_of};

use crate::levels::Levels;
use crate::newest::MruPages;
use xl_model::Kind;

/// Which pages the newest leaves of the first arrays answered of late.
#[derive(Drop)]
pub(crate) struct KnownPages {
    pub newest: MruPages,
    /// The numbers of the first arrays of fetches, of loads and of stores.
    numbers: [usize; 3],
    /// Whether the sets of the array with number 0 are a multiple of eight. Where they aren't, one
    /// page is known at most.
    pub eights: bool,
}

/// The arrays of a row, and what is known of the first ones. It lies outside the shape, so that a
/// page that is known is answered before the shape is asked.
#[derive(Drop)]
pub(crate) struct Known {
    pub levels: Levels,
    pub pages: KnownPages,
}

impl KnownPages {
    /// No page is known; fetches and data have a first array each or not.
    pub fn none(split: bool, eights: bool) -> KnownPages
        ensures { (arrays : List TlbArray) → (eights ≡ true → HasEights arrays)
            → IsKnown split result arrays }
    {
        let data = if split { 1 } else { 0 };
        KnownPages {
            newest: MruPages::none(),
            numbers: [0, data, data],
            eights,
        }
    }

    /// The number of the first array of accesses of this kind.
    #[inline(always)]
    pub fn first(&self, kind: Kind) -> usize
        ensures { (split : Bool) → self.now.numbers ≡ numbers_of split
            → result ≡ first_in split kind }
    {
        let place = match kind {
            Kind::Fetch => 0,
            Kind::Load => 1,
            Kind::Store => 2,
        };
        self.numbers[place]
    }

    /// No page is known from now on, whatever changes in the arrays but their specs.
    #[inline(always)]
    pub fn forget(&mut self)
        ensures { (split : Bool) (old new : List TlbArray) → IsKnown split self.old old
            → map spec_of new ≡ map spec_of old → IsKnown split self.new new }
    {
        self.newest.forget();
    }
}
