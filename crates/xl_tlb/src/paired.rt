//! Two levels of common arrays: a first one with one array, or with one for fetches and one for
//! data, and a second one with one array.
//!
//! Taken where each takes leaves of 4 KiB and has four or eight ways and sets by a mask, those of
//! the first level a multiple of eight of them, and the second array serves all. The first array of the access's kind and the second one are looked at in line:
//! saves the look in turn, and asks nothing for larger leaves where there are none.

ghost use Rattle.std.specs.Prelude.{◌≡◌, true, false, map};
ghost use Rattle.xl_model.specs.declared.address.Order.TheVariants as order_of;
ghost use Rattle.xl_tlb.specs.Fronts.{FirstLacks};
ghost use Rattle.xl_tlb.specs.Firsts.{alone_at, first_in};
ghost use Rattle.xl_tlb.specs.Shapes.{ArePaired, AtPair, IsFirst, IsPairFill, IsPairLook, IsSecond, firsts_in};
ghost use Rattle.xl_array.specs.Lookup.{IsLookup};
ghost use Rattle.xl_tlb.specs.Tlbs.{spec_of};

use crate::known::KnownPages;
use crate::levels::{Answered, Levels};
use crate::pair::{Seen, Step, fill_pair, first_and_rest};
use crate::shape::Shape;
use xl_array::{AnyArray, Lookup};
use xl_model::{Kind, Serves};

/// Two such levels. Where they are split, fetches and data have a first array each.
pub(crate) struct Paired<const SPLIT: bool>;

/// Whether this is a first array below this second one.
fn is_first(first: &AnyArray, second: &AnyArray) -> bool
    ensures { result ≡ true → IsFirst first.now.spec second.now.spec }
{
    let below = first.level() < second.level();
    below && first.takes_small() && first.is_common() && first.has_eights()
}

/// Whether this is a second array.
fn is_second(second: &AnyArray) -> bool
    ensures { result ≡ true → IsSecond second.now.spec }
{
    match second.serving() {
        Serves::All => second.takes_small() && second.is_common(),
        Serves::Fetch | Serves::Data => false,
    }
}

/// Whether these are two such levels with one first array.
pub(crate) fn are_joint(arrays: &[AnyArray]) -> bool
    ensures { result ≡ true → ArePaired false (map spec_of arrays.now) }
{
    let [first, second] = arrays else {
        return false;
    };
    match first.serving() {
        Serves::All => is_first(first, second) && is_second(second),
        Serves::Fetch | Serves::Data => false,
    }
}

/// Whether these are two such levels with a first array for fetches and one for data.
pub(crate) fn are_split(arrays: &[AnyArray]) -> bool
    ensures { result ≡ true → ArePaired true (map spec_of arrays.now) }
{
    let [fetches, data, second] = arrays else {
        return false;
    };
    match (fetches.serving(), data.serving()) {
        (Serves::Fetch, Serves::Data) => {
            is_first(fetches, second) && is_first(data, second) && is_second(second)
        }
        _ => false,
    }
}

/// How many first arrays there are, which is the number of the second one.
#[inline(always)]
fn first_count<const SPLIT: bool>() -> usize
    ensures { result ≡ firsts_in SPLIT }
{
    if SPLIT { 2 } else { 1 }
}

/// The number of the first array of accesses of this kind.
#[inline(always)]
fn first_of<const SPLIT: bool>(kind: Kind) -> usize
    ensures { result ≡ first_in SPLIT kind }
{
    if !SPLIT {
        return 0;
    }
    match kind {
        Kind::Fetch => 0,
        Kind::Load | Kind::Store => 1,
    }
}

/// Takes a step in the two arrays that serve an access of this kind.
#[inline(always)]
fn look_paired<const SPLIT: bool, P: Step>(
    arrays: &mut [AnyArray],
    kind: Kind,
    lookup: Lookup,
) -> Seen
    requires lookup { IsLookup order_of.K4 lookup }
    requires paired { ArePaired SPLIT (map spec_of arrays.old) }
    requires lacks { P.lacks ≡ true → FirstLacks lookup.space lookup.page
        (alone_at (first_in SPLIT kind) arrays.old) }
    ensures { AtPair (IsPairLook lookup.space lookup.page result) SPLIT kind arrays.old arrays.new }
{
    let (firsts, rest) = arrays.split_at_mut(first_count::<SPLIT>());
    let (second, _none) = first_and_rest(rest);
    P::look_pair(&mut firsts[first_of::<SPLIT>(kind)], second, lookup)
}

/// Like `fill_pair`, with the two arrays that serve an access of this kind.
#[inline(always)]
fn fill_paired<const SPLIT: bool>(arrays: &mut [AnyArray], kind: Kind, lookup: Lookup, word: u64)
    requires lookup { IsLookup order_of.K4 lookup }
    requires paired { ArePaired SPLIT (map spec_of arrays.old) }
    ensures { AtPair (IsPairFill lookup.space lookup.page word) SPLIT kind arrays.old arrays.new }
{
    let (firsts, rest) = arrays.split_at_mut(first_count::<SPLIT>());
    let (second, _none) = first_and_rest(rest);
    fill_pair(&mut firsts[first_of::<SPLIT>(kind)], second, lookup, word);
}

impl<const SPLIT: bool> Shape for Paired<SPLIT> {
    ghost split = { SPLIT };

    ghost fits = { ArePaired SPLIT };

    #[inline(always)]
    fn first(kind: Kind) -> usize {
        first_of::<SPLIT>(kind)
    }

    #[inline(always)]
    fn has_eights(_pages: &KnownPages) -> bool {
        true
    }

    #[inline(always)]
    fn look_in<P: Step>(levels: &mut Levels, kind: Kind, lookup: Lookup) -> Answered {
        let seen = look_paired::<SPLIT, P>(&mut levels.arrays, kind, lookup);
        levels.count(first_of::<SPLIT>(kind), first_count::<SPLIT>(), seen)
    }

    #[inline(always)]
    fn fill_in(levels: &mut Levels, kind: Kind, lookup: Lookup, word: u64) {
        fill_paired::<SPLIT>(&mut levels.arrays, kind, lookup, word);
        levels.fills = levels.fills.wrapping_add(2);
    }
}
