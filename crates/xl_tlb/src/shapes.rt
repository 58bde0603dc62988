//! The shapes that a row's arrays have, chosen once, at opening.

ghost use Rattle.std.specs.Prelude.{◌≡◌, ◌<◌, ◌^◌, IfSome, IfNone};
ghost use Rattle.xl_model.specs.declared.address.Order.TheVariants as order_of;
ghost use Rattle.xl_model.specs.LeafWords.{small_leaf};
ghost use Rattle.xl_tlb.specs.Answers.{IsLooked, IsWord};
ghost use Rattle.xl_tlb.specs.Fits.{fits_in};
ghost use Rattle.xl_array.specs.Lookup.{IsLookup};
ghost use Rattle.xl_tlb.specs.Tlbs.{tlb_filled};

use crate::known::{Known, KnownPages};
use crate::levels::Levels;
use crate::one::{One, has_eights, is_one};
use crate::paired::{Paired, are_joint, are_split};
use crate::shape::{fill, search};
use xl_array::{Hit, Lookup};
use xl_model::{Kind, Order};

/// The shape of a row's arrays.
#[derive(Clone, Copy)]
pub(crate) enum AnyShape {
    Joint,
    Split,
    One,
    /// Any arrays, or none: they are looked at in turn, and nothing is known of them.
    InTurn,
}

impl AnyShape {
    /// The shape of these arrays, and that nothing is known of them.
    pub fn of(levels: &Levels) -> (AnyShape, KnownPages)
        ensures { fits_in result.0 result.1 levels.now.arrays }
    {
        let arrays: &[_] = &levels.arrays;
        let eights = has_eights(arrays);
        if are_joint(arrays) {
            return (AnyShape::Joint, KnownPages::none(false, eights));
        }
        if are_split(arrays) {
            return (AnyShape::Split, KnownPages::none(true, eights));
        }
        if is_one(arrays) {
            return (AnyShape::One, KnownPages::none(false, eights));
        }
        (AnyShape::InTurn, KnownPages::none(false, false))
    }

    /// The word of a page that was answered of late by a leaf of 4 KiB that is still the newest of
    /// its set of the first array of this kind: it is answered so again. None elsewhere; then
    /// nothing changes.
    #[inline(always)]
    fn recall(self, known: &mut Known, kind: Kind, lookup: Lookup) -> Option<u64>
        requires lookup { IsLookup order_of.K4 lookup }
        requires fits { fits_in self known.old.pages known.old.levels.arrays }
        ensures some { IfSome result (λ word. IsWord kind lookup.space lookup.page word
            known.old.levels known.new.levels) }
        ensures none { IfNone result (known.new.levels ≡ known.old.levels) }
        ensures fits { fits_in self known.new.pages known.new.levels.arrays }
    {
        let first = known.pages.first(kind);
        let Some(word) = known.pages.newest.word(first, lookup) else {
            return None;
        };
        known.levels.hit(first);
        Some(word)
    }

    /// Looks for the page whose leaf of 4 KiB is sought, for an access of this kind, and gives its
    /// word, as `look` of `Tlb` does.
    #[inline(always)]
    pub fn look(self, known: &mut Known, kind: Kind, lookup: Lookup) -> Option<u64>
        requires lookup { IsLookup order_of.K4 lookup }
        requires fits { fits_in self known.old.pages known.old.levels.arrays }
        ensures looked { IsLooked kind lookup.space lookup.page result
            known.old.levels known.new.levels }
        ensures fits { fits_in self known.new.pages known.new.levels.arrays }
    {
        if let Some(word) = self.recall(known, kind, lookup) {
            return Some(word);
        }
        let Lookup { space, page, tag } = lookup;
        match self {
            AnyShape::Joint => search::<Paired<false>>(known, kind, space, page, tag),
            AnyShape::Split => search::<Paired<true>>(known, kind, space, page, tag),
            AnyShape::One => search::<One>(known, kind, space, page, tag),
            AnyShape::InTurn => known.levels.look(kind, space, page),
        }
    }

    /// Fills the arrays that serve accesses of this kind with a leaf of 4 KiB, by its word.
    #[inline(always)]
    pub fn fill_small(self, known: &mut Known, kind: Kind, space: u16, page: u64, word: u64)
        requires space { space < 64 }
        requires page { page < 2 ^ 52 }
        requires fits { fits_in self known.old.pages known.old.levels.arrays }
        ensures filled { known.new.levels
            ≡ tlb_filled kind (small_leaf space page word) known.old.levels }
        ensures fits { fits_in self known.new.pages known.new.levels.arrays }
    {
        match self {
            AnyShape::Joint => fill::<Paired<false>>(known, kind, space, page, word),
            AnyShape::Split => fill::<Paired<true>>(known, kind, space, page, word),
            AnyShape::One => fill::<One>(known, kind, space, page, word),
            AnyShape::InTurn => {
                let order = Order::K4;
                known.levels.fill(kind, space, page, Hit { word, order });
            }
        }
    }
}
