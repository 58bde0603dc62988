//! A look and a fill of two common arrays, a first one and a second one of a higher level, and the
//! steps of a look.

ghost use Rattle.std.specs.Prelude.{◌≡◌, ◌<◌, length, Bool, true, false, None};
ghost use Rattle.std.specs.Borrow.{sem, Array, LendsBoth};
ghost use Rattle.std.specs.Prelude.{◌∷◌};
ghost use Rattle.std.specs.List.{IsFirstAndRest};
ghost use Rattle.xl_model.specs.declared.address.Order.TheVariants as order_of;
ghost use Rattle.xl_model.specs.Tlb.{array_hit, takes_order};
ghost use Rattle.xl_array.specs.Touches.{LacksSmall};
ghost use Rattle.xl_array.specs.Lookup.{IsAt, IsLookup};
ghost use Rattle.xl_tlb.specs.Shapes.{IsAloneLook, IsOfPair, IsPairLook, IsPairFill};

use crate::levels::Answered;
use xl_array::{AnyArray, Lookup};

/// What a look for a leaf of 4 KiB in two arrays saw: the leaf's word, and which array hits; or the
/// word of the page of a larger leaf, which the first one hits; or that none does; or nothing, where
/// another step may answer, and then nothing changed.
#[derive(Clone, Copy)]
pub(crate) enum Seen {
    First { word: u64 },
    Second { word: u64 },
    Large { word: u64 },
    Nowhere,
    Unknown,
}

/// The first item and the others, where it is known that there are some.
#[inline(always)]
pub(crate) fn first_and_rest<T>(items: &mut [T]) -> (&mut T, &mut [T])
    requires { 0 < length items.old }
    ensures parts { IsFirstAndRest items.old result.0.now result.1.now }
    ensures* writes_back { sem 𝓛 (LendsBoth (Array T.row 0) T.row (Array T.row 0)
        items.entry result ◌∷◌) }
{
    let (front, rest) = items.split_at_mut(1);
    (&mut front[0], rest)
}

/// Looks for the leaf of 4 KiB that is sought in the second array, where the first one misses its
/// page, which is filled then. Unknown where a larger leaf may answer; then nothing changes.
#[inline(always)]
fn look_second(first: &mut AnyArray, second: &mut AnyArray, lookup: Lookup) -> Seen
    requires lookup { IsLookup order_of.K4 lookup }
    requires lacks { LacksSmall lookup.space lookup.page first.old }
    requires missed { None ≡ array_hit first.old lookup.space lookup.page }
    requires first { IsOfPair first.old.spec }
    requires second { IsOfPair second.old.spec }
    ensures { IsPairLook lookup.space lookup.page result first.old second.old first.new second.new }
{
    let place = second.common_set_of(lookup);
    let Some(word) = second.touch_common(place, lookup) else {
        if second.has_large() {
            return Seen::Unknown;
        }
        return Seen::Nowhere;
    };
    let set = first.common_set_of(lookup);
    first.fill_common(set, lookup, word);
    Seen::Second { word }
}

/// A step of a look. Each is a type, so that what is compiled in line for one has no code of the
/// others: a function that grows very large is not in line, and one that makes no call saves no
/// registers.
pub(crate) trait Step {
    /// Whether the first array is known to lack the leaf of 4 KiB that is sought.
    ghost lacks: { Bool };

    /// Takes the step in two arrays. Unknown where another step may answer; then nothing changes.
    fn look_pair(first: &mut AnyArray, second: &mut AnyArray, lookup: Lookup) -> Seen
        requires lookup { IsLookup order_of.K4 lookup }
        requires first { IsOfPair first.old.spec }
        requires second { IsOfPair second.old.spec }
        requires lacks { lacks ≡ true → LacksSmall lookup.space lookup.page first.old }
        ensures { IsPairLook lookup.space lookup.page result first.old second.old first.new
            second.new };

    /// Takes the step in one array.
    fn look_alone(first: &mut AnyArray, lookup: Lookup) -> Answered
        requires lookup { IsLookup order_of.K4 lookup }
        requires takes { takes_order first.old.spec order_of.K4 ≡ true }
        requires lacks { lacks ≡ true → LacksSmall lookup.space lookup.page first.old }
        ensures { IsAloneLook lookup.space lookup.page result first.old first.new };
}

/// Looks for the leaf of 4 KiB that is sought in the first array.
pub(crate) struct FirstStep;

/// Looks for the leaf of 4 KiB that is sought in the second array, with which the first is filled.
/// Unknown where the first may hold larger leaves.
pub(crate) struct NextStep;

/// Looks for a larger leaf of the page in the first array, which lacks that of 4 KiB, and then for
/// that of 4 KiB in the second one, with which the first is filled.
pub(crate) struct LargeStep;

impl Step for FirstStep {
    ghost lacks = { false };

    #[inline(always)]
    fn look_pair(first: &mut AnyArray, _second: &mut AnyArray, lookup: Lookup) -> Seen {
        let set = first.common_set_of(lookup);
        match first.touch_common(set, lookup) {
            Some(word) => Seen::First { word },
            None => Seen::Unknown,
        }
    }

    #[inline(always)]
    fn look_alone(first: &mut AnyArray, lookup: Lookup) -> Answered {
        let set = first.set_of(lookup);
        match first.touch_small(set, lookup) {
            Some(word) => Answered::Word { word },
            None if first.has_large() => Answered::Unknown,
            None => Answered::Nowhere,
        }
    }
}

impl Step for NextStep {
    ghost lacks = { true };

    #[inline(always)]
    fn look_pair(first: &mut AnyArray, second: &mut AnyArray, lookup: Lookup) -> Seen {
        if first.has_large() {
            return Seen::Unknown;
        }
        look_second(first, second, lookup)
    }

    #[inline(always)]
    fn look_alone(_first: &mut AnyArray, _lookup: Lookup) -> Answered {
        Answered::Unknown
    }
}

impl Step for LargeStep {
    ghost lacks = { true };

    #[inline(always)]
    fn look_pair(first: &mut AnyArray, second: &mut AnyArray, lookup: Lookup) -> Seen {
        if let Some(word) = first.touch_large(lookup.space, lookup.page) {
            return Seen::Large { word };
        }
        look_second(first, second, lookup)
    }

    #[inline(always)]
    fn look_alone(first: &mut AnyArray, lookup: Lookup) -> Answered {
        match first.touch_large(lookup.space, lookup.page) {
            Some(word) => Answered::Large { word },
            None => Answered::Nowhere,
        }
    }
}

/// Fills both arrays with the leaf of 4 KiB that is sought.
#[inline(always)]
pub(crate) fn fill_pair(first: &mut AnyArray, second: &mut AnyArray, lookup: Lookup, word: u64)
    requires lookup { IsLookup order_of.K4 lookup }
    requires first { IsOfPair first.old.spec }
    requires second { IsOfPair second.old.spec }
    ensures { IsPairFill lookup.space lookup.page word first.old second.old first.new second.new }
{
    let place = first.common_set_of(lookup);
    first.fill_common(place, lookup, word);
    let set = second.common_set_of(lookup);
    second.fill_common(set, lookup, word);
}
