//! What a place of a list has: a leaf, or nothing.

ghost use Rattle.std.specs.Prelude.{◌≡◌, ◌==◌, ◌<◌, ◌^◌, true, false, IfSome};
ghost use Rattle.xl_curve.specs.Places.{IsNamed, gives_way as gives_way_to, is_vacant, leaf_in as leaf_kept, mark_of, place_of, same_words};
ghost use Rattle.xl_model.specs.Addresses.{order_at};
ghost use Rattle.xl_array.specs.Arrays.{IsFit};
ghost use Rattle.xl_model.specs.LeafWords.{small_leaf};
ghost use Rattle.xl_curve_model.specs.Curves.{same_leaf};
ghost use Rattle.xl_model.specs.Ranges.{same_perm};

use xl_model::{Leaf, Order, Perm, perm_code, perm_of};

/// A leaf in two words, or a hole. The tag has the leaf's space, first page and order, the word its
/// frame and permission. No leaf has the hole's tag.
#[derive(Clone, Copy)]
pub(crate) struct Place {
    tag: u64,
    word: u64,
}

/// A place with nothing in it.
pub(crate) const HOLE: Place = Place {
    tag: u64::MAX,
    word: 0,
};

/// The mark of a place with nothing in it. No leaf's place has it.
pub(crate) const HOLE_MARK: u8 = 255;

/// The order of a level.
fn order_of(level: u64) -> Order
    ensures { result ≡ order_at level }
{
    match level {
        0 => Order::K4,
        1 => Order::M2,
        _ => Order::G1,
    }
}

/// Whether two permissions are the same.
#[inline(always)]
fn are_same_perms(perm: Perm, other: Perm) -> bool
    ensures { result ≡ same_perm perm other }
{
    perm.r == other.r && perm.w == other.w && perm.x == other.x && perm.u == other.u
}

/// Whether two words have the same frame and permission.
#[inline(always)]
fn are_same_words(word: u64, other: u64) -> bool
    ensures { result ≡ same_words word other }
{
    other == word || (other / 16 == word / 16 && are_same_perms(perm_of(word), perm_of(other)))
}

/// Whether a place can have a leaf of this space that begins at this page.
#[inline(always)]
fn is_kept(space: u16, first: u64) -> bool
    ensures space { result ≡ true → space < 64 }
    ensures first { result ≡ true → first < 2 ^ 52 }
{
    space < 64 && first < 1 << 52
}

impl Place {
    /// The place of a leaf.
    #[inline(always)]
    pub fn of(leaf: Leaf) -> Place
        requires { IsFit leaf }
        ensures solid { is_vacant result ≡ false }
        ensures leaf { leaf_kept result ≡ leaf }
    {
        Place {
            tag: (leaf.first * 64 + leaf.space as u64) * 3 + leaf.order.level() as u64,
            word: leaf.frame * 16 + perm_code(leaf.perm),
        }
    }

    /// The place of the leaf of 4 KiB of a page, with the frame (times 16) and the permission of
    /// this word.
    #[inline(always)]
    pub fn small(space: u16, page: u64, word: u64) -> Place
        requires { IsFit (small_leaf space page word) }
        ensures solid { is_vacant result ≡ false }
        ensures leaf { leaf_kept result ≡ small_leaf space page word }
    {
        Place {
            tag: (page * 64 + space as u64) * 3,
            word,
        }
    }

    /// A place whose leaf has this space, first page and order, where a place can have them.
    #[inline(always)]
    pub fn named(space: u16, first: u64, order: Order) -> Option<Place>
        ensures { IfSome result (IsNamed space first order) }
    {
        if !is_kept(space, first) {
            return None;
        }
        Some(Place {
            tag: (first * 64 + space as u64) * 3 + order.level() as u64,
            word: 0,
        })
    }

    /// Whether the place is a hole.
    #[inline(always)]
    pub fn is_hole(self) -> bool
        ensures { result ≡ is_vacant self }
    {
        self.tag == u64::MAX
    }

    /// The mark of the place, a byte in which most leaves differ, so that many places are looked at
    /// together. By a prime the marks of neighbouring pages differ, also of pages at regular
    /// distances.
    #[inline(always)]
    pub fn mark(self) -> u8
        ensures { result ≡ mark_of self }
    {
        if self.is_hole() {
            return HOLE_MARK;
        }
        (self.tag % 251) as u8
    }

    /// The leaf of the place, where it has one.
    #[tactic(auto, unfolding(crate::specs::Places::leaf_in))]
    pub fn leaf(self) -> Leaf
        ensures { result ≡ leaf_kept self }
    {
        Leaf {
            space: (self.tag / 3 % 64) as u16,
            first: self.tag / 3 / 64,
            order: order_of(self.tag % 3),
            frame: self.word / 16,
            perm: perm_of(self.word),
        }
    }

    /// Whether the other place has the same leaf, where both have one.
    #[inline(always)]
    pub fn is_same(self, other: Place) -> bool
        ensures same { result ≡ same_leaf (leaf_kept self) (leaf_kept other) }
        ensures tag { result ≡ true → other.tag ≡ self.tag }
    {
        other.tag == self.tag && are_same_words(self.word, other.word)
    }

    /// Whether the other place has the same two words.
    #[inline(always)]
    pub fn is_equal(self, other: Place) -> bool
        ensures { result ≡ true → other ≡ self }
    {
        other.tag == self.tag && other.word == self.word
    }

    /// Whether the place has the tag of the other.
    #[inline(always)]
    pub fn has_tag(self, other: Place) -> bool
        ensures { result ≡ (self.tag == other.tag) }
    {
        self.tag == other.tag
    }

    /// Whether the place gives way to a leaf that moves to the front: it is no hole, and has
    /// another leaf.
    #[inline(always)]
    pub fn gives_way(self, leaf: Place) -> bool
        ensures { result ≡ gives_way_to (same_leaf (leaf_kept leaf)) (place_of self) }
    {
        if self.is_hole() {
            return false;
        }
        !leaf.is_same(self)
    }
}
