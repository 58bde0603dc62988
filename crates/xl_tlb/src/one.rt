//! One array that serves all accesses, of any width.
//!
//! Taken where it takes leaves of 4 KiB. No other levels are looked for, and an array of four or
//! eight ways with sets by a mask is looked at in line: saves the look in turn.

ghost use Rattle.std.specs.Prelude.{◌≡◌, true, false, map};
ghost use Rattle.xl_model.specs.declared.address.Order.TheVariants as order_of;
ghost use Rattle.xl_tlb.specs.Fronts.{FirstLacks, HasEights};
ghost use Rattle.xl_tlb.specs.Shapes.{AtOne, IsAloneFill, IsAloneLook, IsOne};
ghost use Rattle.xl_tlb.specs.Firsts.{alone_at};
ghost use Rattle.xl_array.specs.Lookup.{IsLookup};
ghost use Rattle.xl_tlb.specs.Tlbs.{spec_of};

use crate::known::KnownPages;
use crate::levels::{Answered, Levels};
use crate::pair::{Step, first_and_rest};
use crate::shape::Shape;
use xl_array::{AnyArray, Lookup};
use xl_model::{Kind, Serves};

/// One such array.
pub(crate) struct One;

/// Whether this is one such array.
pub(crate) fn is_one(arrays: &[AnyArray]) -> bool
    ensures { result ≡ true → IsOne (map spec_of arrays.now) }
{
    let [first] = arrays else {
        return false;
    };
    match first.serving() {
        Serves::All => first.takes_small(),
        Serves::Fetch | Serves::Data => false,
    }
}

/// Whether the sets of the first array are a multiple of eight.
pub(crate) fn has_eights(arrays: &[AnyArray]) -> bool
    ensures { result ≡ true → HasEights arrays.now }
{
    let Some((first, _rest)) = arrays.split_first() else {
        return false;
    };
    first.has_eights()
}

/// Takes a step in the one array.
#[inline(always)]
fn look_alone<P: Step>(arrays: &mut [AnyArray], lookup: Lookup) -> Answered
    requires lookup { IsLookup order_of.K4 lookup }
    requires one { IsOne (map spec_of arrays.old) }
    requires lacks { P.lacks ≡ true → FirstLacks lookup.space lookup.page (alone_at 0 arrays.old) }
    ensures { AtOne (IsAloneLook lookup.space lookup.page result) arrays.old arrays.new }
{
    let (first, _none) = first_and_rest(arrays);
    P::look_alone(first, lookup)
}

/// Fills the array with the leaf of 4 KiB that is sought.
#[inline(always)]
fn fill_alone(arrays: &mut [AnyArray], lookup: Lookup, word: u64)
    requires lookup { IsLookup order_of.K4 lookup }
    requires one { IsOne (map spec_of arrays.old) }
    ensures { AtOne (IsAloneFill lookup.space lookup.page word) arrays.old arrays.new }
{
    let (first, _none) = first_and_rest(arrays);
    let set = first.set_of(lookup);
    first.fill_in(set, lookup, word);
}

impl Shape for One {
    ghost split = { false };

    ghost fits = { IsOne };

    #[inline(always)]
    fn first(_kind: Kind) -> usize {
        0
    }

    #[inline(always)]
    fn has_eights(pages: &KnownPages) -> bool {
        pages.eights
    }

    #[inline(always)]
    fn look_in<P: Step>(levels: &mut Levels, _kind: Kind, lookup: Lookup) -> Answered {
        let answered = look_alone::<P>(&mut levels.arrays, lookup);
        levels.count_alone(answered)
    }

    #[inline(always)]
    fn fill_in(levels: &mut Levels, _kind: Kind, lookup: Lookup, word: u64) {
        fill_alone(&mut levels.arrays, lookup, word);
        levels.fills = levels.fills.wrapping_add(1);
    }
}
