//! The shape of a row's arrays: how a page is looked up in them.

ghost use Rattle.std.specs.Prelude.{◌≡◌, ◌<◌, ◌^◌, Bool, List, map, true};
ghost use Rattle.xl_model.specs.Tlb.{TlbArray};
ghost use Rattle.xl_model.specs.declared.address.Kind.{Kind as KindOf};
ghost use Rattle.xl_model.specs.declared.address.Order.TheVariants as order_of;
ghost use Rattle.xl_model.specs.declared.row.TlbSpec.{TlbSpec as SpecOf};
ghost use Rattle.xl_model.specs.LeafWords.{small_leaf};
ghost use Rattle.xl_tlb.specs.Answers.{IsLooked};
ghost use Rattle.xl_tlb.specs.Firsts.{Fits, IsKept, alone_at, first_in};
ghost use Rattle.xl_tlb.specs.Fronts.{FirstLacks, HasEights};
ghost use Rattle.xl_tlb.specs.Known.{IsKey};
ghost use Rattle.xl_tlb.specs.Shapes.{IsAnswered, IsKnownAnswer, IsKnownFill};
ghost use Rattle.xl_array.specs.Lookup.{IsLookup};
ghost use Rattle.xl_tlb.specs.Tlbs.{spec_of, tlb_filled};

use crate::known::{Known, KnownPages};
use crate::levels::{Answered, Levels};
use crate::pair::{FirstStep, LargeStep, NextStep, Step};
use xl_array::Lookup;
use xl_model::{Kind, Order};

/// A shape of a row's arrays.
pub(crate) trait Shape {
    /// Whether data have a first array of their own.
    ghost split: { Bool };

    /// Arrays with these specs are of this shape.
    ghost fits: { List SpecOf → Type 0 };

    /// The number of the first array of accesses of this kind.
    fn first(kind: Kind) -> usize
        ensures value { result ≡ first_in split kind }
        ensures few { result < 2 };

    /// Whether the sets of the first arrays are a multiple of eight.
    fn has_eights(pages: &KnownPages) -> bool
        ensures { (arrays : List TlbArray) → Fits split fits pages.now arrays → result ≡ true
            → (kind : KindOf) → HasEights (alone_at (first_in split kind) arrays) };

    /// Takes a step of a look for the page whose leaf of 4 KiB is sought, and counts what it finds.
    /// Such a leaf is the newest of its set of the first array then. Unknown where another step may
    /// answer; then nothing changes.
    fn look_in<P: Step>(levels: &mut Levels, kind: Kind, lookup: Lookup) -> Answered
        requires lookup { IsLookup order_of.K4 lookup }
        requires fits { fits (map spec_of levels.old.arrays) }
        requires lacks { P.lacks ≡ true → FirstLacks lookup.space lookup.page
            (alone_at (first_in split kind) levels.old.arrays) }
        ensures { IsKnownAnswer split kind lookup.space lookup.page result
            levels.old levels.new };

    /// Fills the arrays that serve accesses of this kind with the leaf of 4 KiB that is sought.
    fn fill_in(levels: &mut Levels, kind: Kind, lookup: Lookup, word: u64)
        requires lookup { IsLookup order_of.K4 lookup }
        requires fits { fits (map spec_of levels.old.arrays) }
        ensures { IsKnownFill split kind lookup.space lookup.page word
            levels.old levels.new };
}

/// Keeps the word of a page that is the newest of its set of the first array of this kind.
#[inline(always)]
fn keep<S: Shape>(pages: &mut KnownPages, kind: Kind, lookup: Lookup, word: u64)
    requires { IsLookup order_of.K4 lookup }
    ensures { (old new : List TlbArray) → Fits S.split S.fits pages.old old
        → map spec_of new ≡ map spec_of old
        → IsKept S.split kind lookup.space lookup.page word old new
        → Fits S.split S.fits pages.new new }
{
    let eights = S::has_eights(pages);
    pages.newest.renew(S::first(kind), eights, lookup, word);
}

/// Takes a step of a look, and keeps what it finds, where that is a leaf of 4 KiB.
#[inline(always)]
fn look_once<S: Shape, P: Step>(known: &mut Known, kind: Kind, lookup: Lookup) -> Answered
    requires lookup { IsLookup order_of.K4 lookup }
    requires fits { Fits S.split S.fits known.old.pages known.old.levels.arrays }
    requires lacks { P.lacks ≡ true → FirstLacks lookup.space lookup.page
        (alone_at (first_in S.split kind) known.old.levels.arrays) }
    ensures answer { IsAnswered S.split kind lookup.space lookup.page result
        known.old.levels known.new.levels }
    ensures fits { Fits S.split S.fits known.new.pages known.new.levels.arrays }
{
    match S::look_in::<P>(&mut known.levels, kind, lookup) {
        Answered::Word { word } => {
            keep::<S>(&mut known.pages, kind, lookup, word);
            Answered::Word { word }
        }
        Answered::Large { word } => {
            known.pages.forget();
            Answered::Large { word }
        }
        Answered::Nowhere => Answered::Nowhere,
        Answered::Unknown => Answered::Unknown,
    }
}

/// Looks for a page that isn't known, whose leaf of 4 KiB has this tag, and gives its word, as
/// `look` of `Tlb` does.
#[inline(never)]
pub(crate) fn search<S: Shape>(
    known: &mut Known,
    kind: Kind,
    space: u16,
    page: u64,
    tag: u64,
) -> Option<u64>
    requires key { IsKey tag space page }
    requires fits { Fits S.split S.fits known.old.pages known.old.levels.arrays }
    ensures looked { IsLooked kind space page result known.old.levels known.new.levels }
    ensures fits { Fits S.split S.fits known.new.pages known.new.levels.arrays }
{
    let lookup = Lookup { space, page, tag };
    match look_once::<S, FirstStep>(known, kind, lookup) {
        Answered::Word { word } => Some(word),
        Answered::Large { word } => Some(word),
        Answered::Nowhere => None,
        Answered::Unknown => search_above::<S>(known, kind, space, page, tag),
    }
}

/// Like `search`, where the first array has no leaf of 4 KiB of the page, and maybe a larger one.
#[inline(never)]
fn search_above<S: Shape>(
    known: &mut Known,
    kind: Kind,
    space: u16,
    page: u64,
    tag: u64,
) -> Option<u64>
    requires key { IsKey tag space page }
    requires fits { Fits S.split S.fits known.old.pages known.old.levels.arrays }
    requires lacks { FirstLacks space page (alone_at (first_in S.split kind) known.old.levels.arrays) }
    ensures looked { IsLooked kind space page result known.old.levels known.new.levels }
    ensures fits { Fits S.split S.fits known.new.pages known.new.levels.arrays }
{
    let lookup = Lookup { space, page, tag };
    match look_once::<S, NextStep>(known, kind, lookup) {
        Answered::Word { word } => Some(word),
        Answered::Large { word } => Some(word),
        Answered::Nowhere => None,
        Answered::Unknown => search_large::<S>(known, kind, space, page, tag),
    }
}

/// Like `search_above`, where the first array may hold larger leaves.
#[inline(never)]
fn search_large<S: Shape>(
    known: &mut Known,
    kind: Kind,
    space: u16,
    page: u64,
    tag: u64,
) -> Option<u64>
    requires key { IsKey tag space page }
    requires fits { Fits S.split S.fits known.old.pages known.old.levels.arrays }
    requires lacks { FirstLacks space page (alone_at (first_in S.split kind) known.old.levels.arrays) }
    ensures looked { IsLooked kind space page result known.old.levels known.new.levels }
    ensures fits { Fits S.split S.fits known.new.pages known.new.levels.arrays }
{
    let lookup = Lookup { space, page, tag };
    match look_once::<S, LargeStep>(known, kind, lookup) {
        Answered::Word { word } => Some(word),
        Answered::Large { word } => Some(word),
        Answered::Nowhere => None,
        Answered::Unknown => look_in_turn::<S>(known, kind, space, page),
    }
}

/// Like `search`, level by level.
#[inline(never)]
fn look_in_turn<S: Shape>(known: &mut Known, kind: Kind, space: u16, page: u64) -> Option<u64>
    requires space { space < 64 }
    requires page { page < 2 ^ 52 }
    requires fits { Fits S.split S.fits known.old.pages known.old.levels.arrays }
    ensures looked { IsLooked kind space page result known.old.levels known.new.levels }
    ensures fits { Fits S.split S.fits known.new.pages known.new.levels.arrays }
{
    known.pages.forget();
    known.levels.look(kind, space, page)
}

/// Fills the arrays that serve accesses of this kind with a leaf of 4 KiB, by its word, and keeps
/// it: mostly its page is looked up again.
#[inline(never)]
pub(crate) fn fill<S: Shape>(known: &mut Known, kind: Kind, space: u16, page: u64, word: u64)
    requires space { space < 64 }
    requires page { page < 2 ^ 52 }
    requires fits { Fits S.split S.fits known.old.pages known.old.levels.arrays }
    ensures filled { known.new.levels
        ≡ tlb_filled kind (small_leaf space page word) known.old.levels }
    ensures fits { Fits S.split S.fits known.new.pages known.new.levels.arrays }
{
    let lookup = Lookup::of(space, page, Order::K4);
    S::fill_in(&mut known.levels, kind, lookup, word);
    keep::<S>(&mut known.pages, kind, lookup, word);
}
