//! A TLB array of a width that is known when the program runs.

ghost use Rattle.std.specs.Prelude.{ℕ, true, false, is_some, ◌≡◌, ◌↔◌, ◌<◌, ◌≤◌, ◌^◌, ◌+◌, ◌*◌, ◌%◌, None, IfSome, IfNone, IfOk};
ghost use Rattle.xl_model.specs.Tlb.{array_filled, array_hit, found_as, opening_array, serves_kind, takes_order, is_purged, reaches_leaf, array_without, leaves_in_sets};
ghost use Rattle.xl_model.specs.declared.address.Order.TheVariants as order_of;
ghost use Rattle.xl_model.specs.Base.{one_if};
ghost use Rattle.xl_array.specs.Any.{array_in, width_in};
ghost use Rattle.xl_array.specs.Arrays.{IsCommon, IsFit, InLimits};
ghost use Rattle.xl_array.specs.Lookup.{IsAt, IsFilled, IsLookup, IsTouched};
ghost use Rattle.xl_array.specs.Touches.{IsFrontHit, IsPageTouch, LacksSmall};
ghost use Rattle.xl_model.specs.LeafWords.{small_leaf};
ghost use Rattle.xl_array.specs.Held.{Counts, Smalls};
ghost use Rattle.xl_array.specs.Hits.{hit_leaf, leaf_hit, hit_touched};
ghost use Rattle.xl_recency.specs.Widths.{IsWidth};

use crate::array::{Array, Filled};
use crate::coding::Hit;
use crate::lookup::Lookup;
use crate::places::Places;
use std::alloc::Global;
use std::marker::Model;
use xl_model::{Kind, Leaf, NoMemory, Order, Purge, Reach, Serves, TlbSpec};

/// The array of each width.
#[derive(Drop)]
enum Arrays {
    W1(Array<1>),
    W2(Array<2>),
    W4(Array<4>),
    W6(Array<6>),
    W8(Array<8>),
    W12(Array<12>),
    W16(Array<16>),
    W32(Array<32>),
    W64(Array<64>),
}

/// A TLB array of a width from 1 to 64. Contracts see what they see of `Array`.
#[derive(Drop)]
pub struct AnyArray {
    array: Arrays,
    /// How many leaves it holds, so that an empty array is not looked through.
    held: u64,
    /// Whether it may hold leaves above 4 KiB. Where it can't, none of theirs is looked for.
    large: bool,
    /// Where its leaves are, so that this is read without a match on its width.
    places: Places,
}

impl Model for AnyArray {
    ghost use Rattle.xl_model.specs.Tlb.{TlbArray};

    ghost Value = { TlbArray };

    ghost use Rattle.xl_array.specs.Any.{array_in};

    ghost view = { λ a. array_in a.array };

    ghost use Rattle.xl_array.specs.Held.{IsKnown};

    ghost invariant = { λ a. IsKnown a.held a.large a.places (array_in a.array) };
}

/// Counts a leaf more, if there is one.
fn raise(held: &mut u64, grown: bool)
    ensures { (n : ℕ) → Counts held.old n → Counts held.new (one_if grown + n) }
{
    if grown {
        *held = held.saturating_add(1);
    }
}

/// The count after `left` leaves were removed.
fn lowered(held: u64, left: u64) -> u64
    ensures { (n m : ℕ) → Counts held n → left + m ≡ n → Counts result m }
{
    if held == u64::MAX {
        return held;
    }
    held.saturating_sub(left)
}

/// Whether there may be leaves above 4 KiB, with one more leaf of this order.
pub fn with_order(large: bool, order: Order) -> bool
    ensures same { order ≡ order_of.K4 → result ≡ large }
    ensures new { result ≡ false → order ≡ order_of.K4 }
{
    match order {
        Order::K4 => large,
        Order::M2 | Order::G1 => true,
    }
}

/// `$call` with the array of the width.
macro_rules! at_width {
    ($arrays:expr, $array:ident => $call:expr) => {
        match $arrays {
            Arrays::W1($array) => $call,
            Arrays::W2($array) => $call,
            Arrays::W4($array) => $call,
            Arrays::W6($array) => $call,
            Arrays::W8($array) => $call,
            Arrays::W12($array) => $call,
            Arrays::W16($array) => $call,
            Arrays::W32($array) => $call,
            Arrays::W64($array) => $call,
        }
    };
}

/// `$call` with the array, which has four or eight ways: so few the compiler does put in line.
macro_rules! at_common_width {
    ($arrays:expr, $array:ident => $call:expr) => {
        match $arrays {
            Arrays::W4($array) => $call,
            Arrays::W8($array) => $call,
            _ => unreachable!(),
        }
    };
}

/// An array's width is that of its variant.
#[inline(always)]
fn know_width(arrays: &Arrays)
    ensures { (array_in arrays.now).spec.width ≡ width_in arrays.now }
{
    at_width!(arrays, array => array.know_width())
}

/// An array with empty sets.
fn open_array(alloc: Global, spec: TlbSpec) -> Result<Arrays, NoMemory>
    requires sets { 0 < spec.sets }
    requires some { 0 < spec.width }
    requires width { IsWidth spec.width }
    ensures { IfOk result (λ arrays. array_in arrays ≡ opening_array spec) }
{
    Ok(match spec.width {
        1 => Arrays::W1(Array::open(alloc, spec)?),
        2 => Arrays::W2(Array::open(alloc, spec)?),
        4 => Arrays::W4(Array::open(alloc, spec)?),
        6 => Arrays::W6(Array::open(alloc, spec)?),
        8 => Arrays::W8(Array::open(alloc, spec)?),
        12 => Arrays::W12(Array::open(alloc, spec)?),
        16 => Arrays::W16(Array::open(alloc, spec)?),
        32 => Arrays::W32(Array::open(alloc, spec)?),
        _ => Arrays::W64(Array::open(alloc, spec)?),
    })
}

/// Brings the leaf of 4 KiB that is sought to the front of its set, and gives its word.
#[inline(never)]
fn touch_at_width(arrays: &mut Arrays, set: usize, lookup: Lookup) -> Option<u64>
    requires { IsAt order_of.K4 set lookup (array_in arrays.old).spec }
    ensures { IsTouched order_of.K4 lookup (array_in arrays.old) result (array_in arrays.new) }
{
    at_width!(arrays, array => array.touch_in(set, lookup))
}

/// Does what `touch_at_width` does in a common array, inlined.
#[inline(always)]
fn touch_at_common(arrays: &mut Arrays, set: usize, lookup: Lookup) -> Option<u64>
    requires at { IsAt order_of.K4 set lookup (array_in arrays.old).spec }
    requires common { IsCommon (array_in arrays.old).spec }
    ensures { IsTouched order_of.K4 lookup (array_in arrays.old) result (array_in arrays.new) }
{
    know_width(arrays);
    at_common_width!(arrays, array => array.touch_in(set, lookup))
}

/// Looks for the page in the orders that the array takes, from 4 KiB up; in 4 KiB alone where there
/// are no larger leaves.
fn look_at_width(arrays: &mut Arrays, space: u16, page: u64, large: bool) -> Option<Hit>
    requires space { space < 64 }
    requires page { page < 2 ^ 52 }
    requires smalls { Smalls large (array_in arrays.old).sets }
    ensures found { hit_leaf space page result ≡ array_hit (array_in arrays.old) space page }
    ensures some { IfSome result (λ hit.
        array_in arrays.new ≡ hit_touched space page hit (array_in arrays.old)) }
    ensures none { IfNone result (array_in arrays.new ≡ array_in arrays.old) }
{
    at_width!(arrays, array => array.look(space, page, large))
}

/// Brings a leaf above 4 KiB that covers the page to the front of its set, where none of 4 KiB does,
/// and gives the word of the page.
fn touch_large_at_width(arrays: &mut Arrays, space: u16, page: u64) -> Option<u64>
    requires space { space < 64 }
    requires page { page < 2 ^ 52 }
    requires lacks { LacksSmall space page (array_in arrays.old) }
    ensures some { IfSome result (λ word.
        IsPageTouch space page word (array_in arrays.old) (array_in arrays.new)) }
    ensures none { IfNone result (array_in arrays.new ≡ array_in arrays.old) }
    ensures missed { IfNone result (None ≡ array_hit (array_in arrays.old) space page) }
{
    at_width!(arrays, array => array.touch_large(space, page))
}

/// Fills the array with the leaf sought. Returns whether the number of entries grew.
#[inline(never)]
fn fill_at_width(arrays: &mut Arrays, set: usize, lookup: Lookup, word: u64) -> bool
    requires { IsAt order_of.K4 set lookup (array_in arrays.old).spec }
    ensures { IsFilled order_of.K4 lookup word (array_in arrays.old) result (array_in arrays.new) }
{
    at_width!(arrays, array => array.fill_in(set, lookup, word, Order::K4))
}

/// Does what `fill_at_width` does in a common array, inlined.
#[inline(always)]
fn fill_at_common(arrays: &mut Arrays, set: usize, lookup: Lookup, word: u64) -> bool
    requires at { IsAt order_of.K4 set lookup (array_in arrays.old).spec }
    requires common { IsCommon (array_in arrays.old).spec }
    ensures { IsFilled order_of.K4 lookup word (array_in arrays.old) result (array_in arrays.new) }
{
    know_width(arrays);
    at_common_width!(arrays, array => array.fill_in(set, lookup, word, Order::K4))
}

/// Fills the array with a leaf that was hit elsewhere.
fn fill_hit_in_array(arrays: &mut Arrays, space: u16, page: u64, hit: Hit) -> Filled
    requires space { space < 64 }
    requires page { page < 2 ^ 52 }
    ensures taken { result.taken ≡ takes_order (array_in arrays.old).spec hit.order }
    ensures array { array_in arrays.new
        ≡ array_filled (leaf_hit space page hit) (array_in arrays.old) }
    ensures grown { leaves_in_sets (array_in arrays.new).sets
        ≡ one_if result.grown + leaves_in_sets (array_in arrays.old).sets }
{
    at_width!(arrays, array => array.fill_hit(space, page, hit))
}

/// Drops what a purge takes at a change of this leaf, and gives how many items left.
fn purge_in(arrays: &mut Arrays, purge: Purge, leaf: Leaf) -> u64
    requires { IsFit leaf }
    ensures array { array_in arrays.new
        ≡ array_without (is_purged purge leaf) (array_in arrays.old) }
    ensures left { result + leaves_in_sets (array_in arrays.new).sets
        ≡ leaves_in_sets (array_in arrays.old).sets }
    ensures most { result ≤ 64 * 2 ^ 32 }
{
    at_width!(arrays, array => array.purge(purge, leaf))
}

/// Drops what a fence reaches, and gives how many items left.
fn fence_in(arrays: &mut Arrays, reach: Reach) -> u64
    requires { InLimits reach }
    ensures array { array_in arrays.new ≡ array_without (reaches_leaf reach) (array_in arrays.old) }
    ensures left { result + leaves_in_sets (array_in arrays.new).sets
        ≡ leaves_in_sets (array_in arrays.old).sets }
    ensures most { result ≤ 64 * 2 ^ 32 }
{
    at_width!(arrays, array => array.fence(reach))
}

impl AnyArray {
    /// An array with empty sets. `NoMemory` where the allocator has none for them.
    pub fn open(alloc: Global, spec: TlbSpec) -> Result<AnyArray, NoMemory>
        requires sets { 0 < spec.sets }
        requires some { 0 < spec.width }
        requires width { IsWidth spec.width }
        ensures { IfOk result (λ array. array ≡ opening_array spec) }
    {
        let array = open_array(alloc, spec)?;
        Ok(AnyArray {
            array,
            held: 0,
            large: false,
            places: Places::of(spec),
        })
    }

    /// The array's level.
    #[inline]
    pub fn level(&self) -> u8
        ensures { result ≡ self.now.spec.level }
    {
        self.places.level()
    }

    /// Whether it serves accesses of this kind.
    #[inline(always)]
    pub fn serves(&self, kind: Kind) -> bool
        ensures { result ≡ serves_kind kind self.now }
    {
        self.places.serves(kind)
    }

    /// Which accesses it serves.
    pub fn serving(&self) -> Serves
        ensures { result ≡ self.now.spec.serves }
    {
        self.places.serving()
    }

    /// Whether it takes leaves of 4 KiB.
    #[inline]
    pub fn takes_small(&self) -> bool
        ensures { result ≡ takes_order self.now.spec order_of.K4 }
    {
        self.places.takes(Order::K4)
    }

    /// Whether it may hold leaves above 4 KiB. Where it can't, a look is one for leaves of 4 KiB.
    #[inline]
    pub fn has_large(&self) -> bool
        ensures { result ≡ false → (space page : ℕ)
            → array_hit self.now space page ≡ found_as self.now space page order_of.K4 }
    {
        self.large
    }

    /// Whether it is known that it holds no leaf, so that it hits with none.
    #[inline(always)]
    pub fn is_empty(&self) -> bool
        ensures { result ≡ true → (space page : ℕ) → None ≡ array_hit self.now space page }
    {
        self.held == 0
    }

    /// Whether it has four or eight ways, and finds its sets by a mask.
    pub fn is_common(&self) -> bool
        ensures { result ≡ true → IsCommon self.now.spec }
    {
        self.places.are_common()
    }

    /// Whether its sets are a multiple of eight.
    pub fn has_eights(&self) -> bool
        ensures { (result ≡ true) ↔ (self.now.spec.sets % 8 ≡ 0) }
    {
        self.places.are_by_eight()
    }

    /// The set of the leaf of 4 KiB that is sought.
    #[inline(always)]
    pub fn set_of(&self, lookup: Lookup) -> usize
        requires lookup { IsLookup order_of.K4 lookup }
        requires takes { takes_order self.now.spec order_of.K4 ≡ true }
        ensures { IsAt order_of.K4 result lookup self.now.spec }
    {
        self.places.set_of(lookup.page, Order::K4)
    }

    /// Does what `set_of` does in a common array, by a mask.
    #[inline(always)]
    pub fn common_set_of(&self, lookup: Lookup) -> usize
        requires lookup { IsLookup order_of.K4 lookup }
        requires takes { takes_order self.now.spec order_of.K4 ≡ true }
        requires common { IsCommon self.now.spec }
        ensures { IsAt order_of.K4 result lookup self.now.spec }
    {
        self.places.set_by_mask(lookup.page)
    }

    /// Brings the leaf of 4 KiB that is sought to the front of its set, and gives its word.
    #[inline(always)]
    pub fn touch_in(&mut self, set: usize, lookup: Lookup) -> Option<u64>
        requires { IsAt order_of.K4 set lookup self.old.spec }
        ensures { IsTouched order_of.K4 lookup self.old result self.new }
    {
        touch_at_width(&mut self.array, set, lookup)
    }

    /// Does what `touch_in` does in a common array, inlined.
    #[inline(always)]
    pub fn touch_common(&mut self, set: usize, lookup: Lookup) -> Option<u64>
        requires at { IsAt order_of.K4 set lookup self.old.spec }
        requires common { IsCommon self.old.spec }
        ensures { IsTouched order_of.K4 lookup self.old result self.new }
    {
        touch_at_common(&mut self.array, set, lookup)
    }

    /// Does what `touch_in` does, inlined where the array is a common one.
    #[inline(always)]
    pub fn touch_small(&mut self, set: usize, lookup: Lookup) -> Option<u64>
        requires { IsAt order_of.K4 set lookup self.old.spec }
        ensures { IsTouched order_of.K4 lookup self.old result self.new }
    {
        if self.is_common() {
            return self.touch_common(set, lookup);
        }
        self.touch_in(set, lookup)
    }

    /// Looks for the page in the orders that the array takes, from 4 KiB up; in 4 KiB alone where
    /// there are no larger leaves.
    pub fn look(&mut self, space: u16, page: u64) -> Option<Hit>
        requires space { space < 64 }
        requires page { page < 2 ^ 52 }
        ensures found { hit_leaf space page result ≡ array_hit self.old space page }
        ensures some { IfSome result (λ hit. self.new ≡ hit_touched space page hit self.old) }
        ensures none { IfNone result (self.new ≡ self.old) }
    {
        if self.is_empty() {
            return None;
        }
        look_at_width(&mut self.array, space, page, self.large)
    }

    /// Brings a leaf above 4 KiB that covers the page to the front of its set, where none of 4 KiB
    /// does, and gives the word of the page. None where the array misses the page; then nothing
    /// changes.
    #[inline(always)]
    pub fn touch_large(&mut self, space: u16, page: u64) -> Option<u64>
        requires space { space < 64 }
        requires page { page < 2 ^ 52 }
        requires lacks { LacksSmall space page self.old }
        ensures some { IfSome result (λ word. IsPageTouch space page word self.old self.new) }
        ensures none { IfNone result (self.new ≡ self.old) }
        ensures missed { IfNone result (None ≡ array_hit self.old space page) }
    {
        touch_large_at_width(&mut self.array, space, page)
    }

    /// Fills the array with a leaf that was hit elsewhere. Whether it takes it.
    pub fn fill_hit(&mut self, space: u16, page: u64, hit: Hit) -> bool
        requires space { space < 64 }
        requires page { page < 2 ^ 52 }
        ensures taken { result ≡ takes_order self.old.spec hit.order }
        ensures array { self.new ≡ array_filled (leaf_hit space page hit) self.old }
    {
        let filled = fill_hit_in_array(&mut self.array, space, page, hit);
        raise(&mut self.held, filled.grown);
        self.large = with_order(self.large, hit.order);
        filled.taken
    }

    /// Fills the array with the leaf of 4 KiB that is sought, which is the newest of its set then.
    #[inline(always)]
    pub fn fill_in(&mut self, set: usize, lookup: Lookup, word: u64)
        requires { IsAt order_of.K4 set lookup self.old.spec }
        ensures array { self.new
            ≡ array_filled (small_leaf lookup.space lookup.page word) self.old }
        ensures front { IsFrontHit lookup.space lookup.page word self.new }
    {
        let grown = fill_at_width(&mut self.array, set, lookup, word);
        raise(&mut self.held, grown);
    }

    /// Does what `fill_in` does in a common array, inlined.
    #[inline(always)]
    pub fn fill_common(&mut self, set: usize, lookup: Lookup, word: u64)
        requires at { IsAt order_of.K4 set lookup self.old.spec }
        requires common { IsCommon self.old.spec }
        ensures array { self.new
            ≡ array_filled (small_leaf lookup.space lookup.page word) self.old }
        ensures front { IsFrontHit lookup.space lookup.page word self.new }
    {
        let grown = fill_at_common(&mut self.array, set, lookup, word);
        raise(&mut self.held, grown);
    }

    /// Whether the array hits, as `look` would.
    pub fn hits(&self, space: u16, page: u64) -> bool
        requires space { space < 64 }
        requires page { page < 2 ^ 52 }
        ensures { result ≡ is_some (array_hit self.now space page) }
    {
        at_width!(&self.array, array => array.hits(space, page, self.large))
    }

    /// Drops what a purge takes at a change of this leaf, and gives how many items left.
    pub fn purge(&mut self, purge: Purge, leaf: Leaf) -> u64
        requires { IsFit leaf }
        ensures array { self.new ≡ array_without (is_purged purge leaf) self.old }
        ensures left { result + leaves_in_sets self.new.sets ≡ leaves_in_sets self.old.sets }
        ensures most { result ≤ 64 * 2 ^ 32 }
    {
        if self.held == 0 {
            return 0;
        }
        let left = purge_in(&mut self.array, purge, leaf);
        self.held = lowered(self.held, left);
        left
    }

    /// Drops what a fence reaches, and gives how many items left.
    pub fn fence(&mut self, reach: Reach) -> u64
        requires { InLimits reach }
        ensures array { self.new ≡ array_without (reaches_leaf reach) self.old }
        ensures left { result + leaves_in_sets self.new.sets ≡ leaves_in_sets self.old.sets }
        ensures most { result ≤ 64 * 2 ^ 32 }
    {
        if self.held == 0 {
            return 0;
        }
        let left = fence_in(&mut self.array, reach);
        self.held = lowered(self.held, left);
        left
    }
}
