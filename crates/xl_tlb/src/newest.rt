//! Memo of pages that hit the newest leaf of their set in a first array.

ghost use Rattle.std.specs.Prelude.{ℕ, true, ◌≡◌, ◌<◌, ◌%◌, List, IfSome};
ghost use Rattle.xl_model.specs.Tlb.{TlbArray};
ghost use Rattle.xl_tlb.specs.Fronts.{IsFront, FrontsStay};
ghost use Rattle.xl_tlb.specs.Known.{Knows, StaysKnown, page_place};
ghost use Rattle.xl_array.specs.Lookup.{IsLookup};
ghost use Rattle.xl_model.specs.declared.address.Order.TheVariants as order;

use xl_array::Lookup;

/// For eight pages at most of each of two first arrays, the words of the leaves that answer them:
/// each is the newest of its set of that array. The last three bits of a page's number give its
/// place, beside that of the other array, and its key is the tag of its leaf.
#[derive(Clone, Copy)]
pub(crate) struct MruPages {
    keys: [u64; 16],
    words: [u64; 16],
}

/// The place of a page of the first array with this number.
#[inline(always)]
fn place_of(first: usize, page: u64) -> usize
    requires { first < 2 }
    ensures { result ≡ page_place first page }
{
    (page % 8) as usize * 2 + first
}

/// Empty slot; no tag has this value.
const NONE: u64 = u64::MAX;

impl MruPages {
    /// All places empty.
    pub fn none() -> MruPages
        ensures { (first : ℕ) (arrays : List TlbArray) → Knows first result arrays }
    {
        MruPages {
            keys: [NONE; 16],
            words: [0; 16],
        }
    }

    /// Empties all places.
    #[inline]
    pub fn forget(&mut self)
        ensures { (first : ℕ) (arrays : List TlbArray) → Knows first self.new arrays }
    {
        self.keys = [NONE; 16];
    }

    /// Empties what may have lost its front, where leaves came to or moved in the set of this page of
    /// a first array. Where the sets are a multiple of eight, the pages of the set have the page's
    /// last three bits, and so one place.
    #[inline]
    pub fn forget_place(&mut self, first: usize, eights: bool, page: u64)
        requires { first < 2 }
        ensures known { (old new : List TlbArray) → Knows first self.old old
            → (eights ≡ true → FrontsStay (page % 8) old new) → Knows first self.new new }
        ensures others { StaysKnown first self.old self.new }
    {
        if !eights {
            self.forget();
        }
        let place = place_of(first, page);
        self.keys[place] = NONE;
    }

    /// The word of the leaf of this first array that the page hits, where the memo has it.
    #[inline]
    pub fn word(&self, first: usize, lookup: Lookup) -> Option<u64>
        requires first { first < 2 }
        requires lookup { IsLookup order.K4 lookup }
        ensures { (arrays : List TlbArray) → Knows first self.now arrays
            → IfSome result (λ word. IsFront lookup.space lookup.page word arrays) }
    {
        let place = place_of(first, lookup.page);
        if self.keys[place] == lookup.tag {
            return Some(self.words[place]);
        }
        None
    }

    /// Keeps the word of the leaf that the page hits, after leaves of its set moved.
    #[inline]
    pub fn renew(&mut self, first: usize, eights: bool, lookup: Lookup, word: u64)
        requires first { first < 2 }
        requires lookup { IsLookup order.K4 lookup }
        ensures known { (old new : List TlbArray) → Knows first self.old old
            → (eights ≡ true → FrontsStay (lookup.page % 8) old new)
            → IsFront lookup.space lookup.page word new → Knows first self.new new }
        ensures others { StaysKnown first self.old self.new }
    {
        self.forget_place(first, eights, lookup.page);
        self.keep(first, lookup, word);
    }

    /// Keeps the word of the leaf that the page hits.
    #[inline]
    fn keep(&mut self, first: usize, lookup: Lookup, word: u64)
        requires first { first < 2 }
        requires lookup { IsLookup order.K4 lookup }
        ensures known { (arrays : List TlbArray) → Knows first self.old arrays
            → IsFront lookup.space lookup.page word arrays → Knows first self.new arrays }
        ensures others { StaysKnown first self.old self.new }
    {
        let place = place_of(first, lookup.page);
        self.keys[place] = lookup.tag;
        self.words[place] = word;
    }
}
