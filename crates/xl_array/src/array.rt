//! One TLB array.

ghost use Rattle.std.specs.Prelude.{is_some, true, None, ◌≡◌, ◌<◌, ◌≤◌, ◌^◌, ◌+◌, ◌*◌, ◌/◌, ◌%◌, find, length, map, IfSome, IfNone, IfOk};
ghost use Rattle.xl_model.specs.Base.{one_if};
ghost use Rattle.xl_model.specs.Ranges.{same_perm as is_same_perm};
ghost use Rattle.xl_model.specs.Mapping.{covers};
ghost use Rattle.xl_recency.specs.Lists.{PurgesAll, PurgesIn};
ghost use Rattle.xl_array.specs.Hits.{word_leaf, hit_leaf, leaf_hit, word_touched, hit_touched};
ghost use Rattle.xl_array.specs.Coding.{has_block, has_space, is_item};
ghost use Rattle.xl_array.specs.Arrays.{IsFit, InLimits, is_same, is_of_space, is_any, covers_anywhere, covers_anywhere_as};
ghost use Rattle.xl_model.specs.Tlb.{covers_as, found_as, array_filled, array_hit, opening_array, takes_order, array_without, is_purged, reaches_leaf, first_found, leaves_in_sets};
ghost use Rattle.xl_model.specs.declared.address.Order.TheVariants as order;
ghost use Rattle.xl_array.specs.Equal.{is_equal, keeps_leaf};
ghost use Rattle.xl_array.specs.Held.{Smalls};
ghost use Rattle.xl_array.specs.Lookup.{IsAt, IsFilled, IsTouched};
ghost use Rattle.xl_array.specs.Touches.{IsPageTouch, LacksSmall};

use crate::coding::{Hit, hit_of, page_word, tag_of};
use crate::lookup::Lookup;
use crate::places::Places;
use std::alloc::Global;
use std::marker::Model;
use xl_model::{Leaf, NoMemory, Order, Perm, Purge, Reach, TlbSpec, perm_of};
use xl_recency::{Item, Sets};

/// What a fill did: whether the array takes the leaf's order, and whether it holds a leaf more.
#[derive(Clone, Copy)]
pub struct Filled {
    pub taken: bool,
    pub grown: bool,
}

/// The array doesn't take the leaf's order.
const NOT_TAKEN: Filled = Filled {
    taken: false,
    grown: false,
};

/// A TLB array of `W` ways. Contracts see its spec and the lists of its sets, newest first.
#[derive(Drop)]
pub struct Array<const W: usize> {
    spec: Places,
    sets: Sets<W>,
}

impl<const W: usize> Model for Array<W> {
    ghost use Rattle.std.specs.Prelude.{map};
    ghost use Rattle.xl_model.specs.Tlb.{TlbArray};
    ghost use Rattle.xl_array.specs.Coding.{leaves_of};
    ghost use Rattle.xl_array.specs.Arrays.{IsArray};

    ghost Value = { TlbArray };

    ghost view = { λ a. record { spec = a.spec; sets = map leaves_of a.sets } };

    ghost invariant = { λ a. IsArray a.spec (map leaves_of a.sets) W };
}

/// Two permissions are the same.
fn same_perm(p: Perm, q: Perm) -> bool
    ensures { result ≡ is_same_perm p q }
{
    p.r == q.r && p.w == q.w && p.x == q.x && p.u == q.u
}

/// Whether an item keeps the leaf with this tag, frame and permission.
fn keeps(item: &Item, tag: u64, frame: u64, perm: Perm) -> bool
    ensures { result ≡ keeps_leaf tag frame perm item.now }
{
    item.tag == tag && (item.word / 16 == frame && same_perm(perm_of(item.word), perm))
}

/// Removes the items of the set that keep the leaf with this tag, frame and permission.
fn drop_kept<const W: usize>(
    sets: &mut Sets<W>,
    set: usize,
    tag: u64,
    frame: u64,
    perm: Perm,
) -> u64
    requires width { W ≤ 64 }
    requires set { set < length sets.old }
    ensures gone { PurgesIn (keeps_leaf tag frame perm) set sets.old sets.new result }
    ensures most { result ≤ 64 }
{
    sets.remove_in(set, |item| keeps(item, tag, frame, perm))
}

/// Removes the items of the set with this tag in whatever space; the tag names space 0.
fn drop_block<const W: usize>(sets: &mut Sets<W>, set: usize, tag: u64) -> u64
    requires width { W ≤ 64 }
    requires set { set < length sets.old }
    ensures gone { PurgesIn (has_block tag) set sets.old sets.new result }
    ensures most { result ≤ 64 }
{
    sets.remove_in(set, |item| item.tag - item.tag / 3 % 64 * 3 == tag)
}

/// Removes the items of a space.
fn drop_of_space<const W: usize>(sets: &mut Sets<W>, space: u16) -> u64
    requires width { W ≤ 64 }
    ensures gone { PurgesAll (has_space space) sets.old sets.new result }
    ensures most { result ≤ 64 * length sets.old }
{
    sets.remove_where(|item| item.tag / 3 % 64 == space as u64)
}

/// Removes all items.
fn drop_each<const W: usize>(sets: &mut Sets<W>) -> u64
    requires width { W ≤ 64 }
    ensures gone { PurgesAll is_item sets.old sets.new result }
    ensures most { result ≤ 64 * length sets.old }
{
    sets.remove_where(|_| true)
}

impl<const W: usize> Array<W> {
    /// An array with empty sets. `NoMemory` where the allocator has none for them.
    pub fn open(alloc: Global, spec: TlbSpec) -> Result<Array<W>, NoMemory>
        requires sets { 0 < spec.sets }
        requires width { spec.width ≡ W }
        requires some { 0 < W }
        requires most { W ≤ 64 }
        ensures { IfOk result (λ array. array ≡ opening_array spec) }
    {
        let sets = Sets::open(alloc, spec.sets)?;
        Ok(Array {
            spec: Places::of(spec),
            sets,
        })
    }

    /// Brings the leaf of 4 KiB that is sought to the front of its set, and gives its word.
    #[inline(always)]
    pub(crate) fn touch_in(&mut self, set: usize, lookup: Lookup) -> Option<u64>
        requires { IsAt order.K4 set lookup self.old.spec }
        ensures { IsTouched order.K4 lookup self.old result self.new }
    {
        let Some(item) = self.sets.touch(set, lookup.tag) else {
            return None;
        };
        Some(item.word)
    }

    /// Brings the newest leaf of the order that covers the page to the front of its set, and gives
    /// its word. None where none covers it, or the array doesn't take the order; then nothing
    /// changes.
    #[inline(always)]
    fn touch(&mut self, space: u16, page: u64, order: Order) -> Option<u64>
        requires space { space < 64 }
        requires page { page < 2 ^ 52 }
        ensures found { word_leaf space page order result ≡ found_as self.old space page order }
        ensures some { IfSome result (λ w. self.new ≡ word_touched space page order w self.old) }
        ensures none { IfNone result (self.new ≡ self.old) }
    {
        if !self.takes(order) {
            return None;
        }
        let set = self.spec.set_of(page, order);
        let Some(item) = self.sets.touch_near(set, tag_of(space, page, order)) else {
            return None;
        };
        Some(item.word)
    }

    /// Looks for the page in the orders that the array takes, from 4 KiB up, and moves the leaf
    /// found to the front of its set. Without `large` there are no leaves above 4 KiB, and none is
    /// looked for.
    #[inline(always)]
    #[tactic(auto, unfolding(xl_model::specs::Tlb::array_hit))]
    pub fn look(&mut self, space: u16, page: u64, large: bool) -> Option<Hit>
        requires space { space < 64 }
        requires page { page < 2 ^ 52 }
        requires smalls { Smalls large self.old.sets }
        ensures found { hit_leaf space page result ≡ array_hit self.old space page }
        ensures some { IfSome result (λ hit. self.new ≡ hit_touched space page hit self.old) }
        ensures none { IfNone result (self.new ≡ self.old) }
    {
        match self.touch(space, page, Order::K4) {
            Some(word) => Some(Hit {
                word,
                order: Order::K4,
            }),
            None if large => self.look_above(space, page),
            None => None,
        }
    }

    /// Does what `look` does, and gives the word of the page.
    #[inline(always)]
    pub fn look_page(&mut self, space: u16, page: u64, large: bool) -> Option<u64>
        requires space { space < 64 }
        requires page { page < 2 ^ 52 }
        requires smalls { Smalls large self.old.sets }
        ensures some { IfSome result (λ word. IsPageTouch space page word self.old self.new) }
        ensures none { IfNone result (self.new ≡ self.old) }
        ensures missed { IfNone result (None ≡ array_hit self.old space page) }
    {
        match self.touch(space, page, Order::K4) {
            Some(word) => Some(word),
            None if large => self.touch_large(space, page),
            None => None,
        }
    }

    /// Brings a leaf above 4 KiB that covers the page to the front of its set, where none of 4 KiB
    /// does, and gives the word of the page. Out of line: larger leaves are few.
    #[inline(never)]
    #[tactic(auto, unfolding(xl_model::specs::Tlb::array_hit))]
    pub(crate) fn touch_large(&mut self, space: u16, page: u64) -> Option<u64>
        requires space { space < 64 }
        requires page { page < 2 ^ 52 }
        requires lacks { LacksSmall space page self.old }
        ensures some { IfSome result (λ word. IsPageTouch space page word self.old self.new) }
        ensures none { IfNone result (self.new ≡ self.old) }
        ensures missed { IfNone result (None ≡ array_hit self.old space page) }
    {
        let Some(hit) = self.look_above(space, page) else {
            return None;
        };
        Some(page_word(page, hit))
    }

    /// Looks for the page in the orders above 4 KiB that the array takes.
    fn look_above(&mut self, space: u16, page: u64) -> Option<Hit>
        requires space { space < 64 }
        requires page { page < 2 ^ 52 }
        ensures found { hit_leaf space page result ≡ first_found
            (found_as self.old space page order.M2) (found_as self.old space page order.G1) }
        ensures some { IfSome result (λ hit. self.new ≡ hit_touched space page hit self.old) }
        ensures none { IfNone result (self.new ≡ self.old) }
    {
        match self.touch(space, page, Order::M2) {
            Some(word) => Some(Hit {
                word,
                order: Order::M2,
            }),
            None => match self.touch(space, page, Order::G1) {
                Some(word) => Some(Hit {
                    word,
                    order: Order::G1,
                }),
                None => None,
            },
        }
    }

    /// The array is of the width that its spec says.
    #[inline(always)]
    pub(crate) fn know_width(&self)
        ensures { self.now.spec.width ≡ W }
    {
        // Reading a field brings in the type's invariant.
        let _sets = &self.sets;
    }

    /// Whether the array takes leaves of this order.
    pub fn takes(&self, order: Order) -> bool
        ensures { result ≡ takes_order self.now.spec order }
    {
        self.spec.takes(order)
    }

    /// Whether the array hits, as `look` would.
    #[tactic(auto, unfolding(xl_model::specs::Tlb::array_hit))]
    pub fn hits(&self, space: u16, page: u64, large: bool) -> bool
        requires space { space < 64 }
        requires page { page < 2 ^ 52 }
        requires smalls { Smalls large self.now.sets }
        ensures { result ≡ is_some (array_hit self.now space page) }
    {
        self.has(space, page, Order::K4)
            || large && (self.has(space, page, Order::M2) || self.has(space, page, Order::G1))
    }

    fn has(&self, space: u16, page: u64, order: Order) -> bool
        requires space { space < 64 }
        requires page { page < 2 ^ 52 }
        ensures { result ≡ is_some (found_as self.now space page order) }
    {
        if !self.takes(order) {
            return false;
        }
        let set = self.spec.set_of(page, order);
        let tag = tag_of(space, page, order);
        let Some(_item) = self.sets.find(set, tag) else {
            return false;
        };
        true
    }

    /// Puts the leaf in front of its set, where the array takes its order.
    pub fn fill(&mut self, leaf: Leaf) -> Filled
        requires { IsFit leaf }
        ensures taken { result.taken ≡ takes_order self.old.spec leaf.order }
        ensures array { self.new ≡ array_filled leaf self.old }
        ensures grown { leaves_in_sets self.new.sets
            ≡ one_if result.grown + leaves_in_sets self.old.sets }
    {
        self.fill_hit(leaf.space, leaf.first, hit_of(leaf))
    }

    /// Fills the array with a leaf that was hit elsewhere, where the array takes its order.
    pub fn fill_hit(&mut self, space: u16, page: u64, hit: Hit) -> Filled
        requires space { space < 64 }
        requires page { page < 2 ^ 52 }
        ensures taken { result.taken ≡ takes_order self.old.spec hit.order }
        ensures array { self.new ≡ array_filled (leaf_hit space page hit) self.old }
        ensures grown { leaves_in_sets self.new.sets
            ≡ one_if result.grown + leaves_in_sets self.old.sets }
    {
        if !self.takes(hit.order) {
            return NOT_TAKEN;
        }
        let set = self.spec.set_of(page, hit.order);
        let lookup = Lookup::of(space, page, hit.order);
        Filled {
            taken: true,
            grown: self.fill_in(set, lookup, hit.word, hit.order),
        }
    }

    /// Fills the set with the leaf sought, with this word; evicts the oldest leaf. Returns whether
    /// the number of entries grew.
    #[inline(always)]
    pub(crate) fn fill_in(&mut self, set: usize, lookup: Lookup, word: u64, _order: Order) -> bool
        requires { IsAt _order set lookup self.old.spec }
        ensures { IsFilled _order lookup word self.old result self.new }
    {
        let item = Item {
            tag: lookup.tag,
            word,
        };
        let left = self.sets.fill(set, item);
        !left.is_some()
    }

    /// Drops the leaf, and gives how many items left. It looks at one set.
    pub fn drop_leaf(&mut self, leaf: Leaf) -> u64
        requires { IsFit leaf }
        ensures array { self.new ≡ array_without (is_same leaf) self.old }
        ensures left { result + leaves_in_sets self.new.sets ≡ leaves_in_sets self.old.sets }
        ensures most { result ≤ 64 }
    {
        let set = self.spec.set_of(leaf.first, leaf.order);
        let tag = tag_of(leaf.space, leaf.first, leaf.order);
        self.sets.remove_tag(set, tag)
    }

    /// Drops the leaf where the array holds it as it is, with its frame and its permission, and
    /// gives how many items left. It looks at one set.
    pub fn drop_equal(&mut self, leaf: Leaf) -> u64
        requires { IsFit leaf }
        ensures array { self.new ≡ array_without (is_equal leaf) self.old }
        ensures left { result + leaves_in_sets self.new.sets ≡ leaves_in_sets self.old.sets }
        ensures most { result ≤ 64 }
    {
        let set = self.spec.set_of(leaf.first, leaf.order);
        let tag = tag_of(leaf.space, leaf.first, leaf.order);
        drop_kept(&mut self.sets, set, tag, leaf.frame, leaf.perm)
    }

    /// Drops what a purge takes at a change of this leaf, and gives how many items left.
    pub(crate) fn purge(&mut self, purge: Purge, leaf: Leaf) -> u64
        requires { IsFit leaf }
        ensures array { self.new ≡ array_without (is_purged purge leaf) self.old }
        ensures left { result + leaves_in_sets self.new.sets ≡ leaves_in_sets self.old.sets }
        ensures most { result ≤ 64 * 2 ^ 32 }
    {
        match purge {
            Purge::Page => self.drop_leaf(leaf),
            Purge::Space => self.drop_space(leaf.space),
            Purge::All => self.drop_all(),
        }
    }

    /// Drops what a fence reaches, and gives how many items left.
    pub(crate) fn fence(&mut self, reach: Reach) -> u64
        requires { InLimits reach }
        ensures array { self.new ≡ array_without (reaches_leaf reach) self.old }
        ensures left { result + leaves_in_sets self.new.sets ≡ leaves_in_sets self.old.sets }
        ensures most { result ≤ 64 * 2 ^ 32 }
    {
        match reach {
            Reach::All => self.drop_all(),
            Reach::Space { space } => self.drop_space(space),
            Reach::Addr { page } => self.drop_anywhere(page),
            Reach::Page { space, page } => self.drop_page(space, page),
        }
    }

    /// Drops the leaf of the order that covers the page, and gives how many items left. It looks at
    /// one set.
    fn drop_as(&mut self, space: u16, page: u64, order: Order) -> u64
        requires space { space < 64 }
        requires page { page < 2 ^ 52 }
        ensures array { self.new ≡ array_without (covers_as space page order) self.old }
        ensures left { result + leaves_in_sets self.new.sets ≡ leaves_in_sets self.old.sets }
        ensures most { result ≤ 64 }
    {
        let set = self.spec.set_of(page, order);
        let tag = tag_of(space, page, order);
        self.sets.remove_tag(set, tag)
    }

    /// Drops the leaves of the order that cover the page in any space, and gives how many items
    /// left. It looks at one set.
    fn drop_anywhere_as(&mut self, page: u64, order: Order) -> u64
        requires { page < 2 ^ 52 }
        ensures array { self.new ≡ array_without (covers_anywhere_as page order) self.old }
        ensures left { result + leaves_in_sets self.new.sets ≡ leaves_in_sets self.old.sets }
        ensures most { result ≤ 64 }
    {
        let set = self.spec.set_of(page, order);
        let tag = tag_of(0, page, order);
        drop_block(&mut self.sets, set, tag)
    }

    /// Drops the leaves of the space that cover the page, and gives how many items left. It looks
    /// at one set for each order.
    pub fn drop_page(&mut self, space: u16, page: u64) -> u64
        requires space { space < 64 }
        requires page { page < 2 ^ 52 }
        ensures array { self.new ≡ array_without (covers space page) self.old }
        ensures left { result + leaves_in_sets self.new.sets ≡ leaves_in_sets self.old.sets }
        ensures most { result ≤ 64 * 2 ^ 32 }
    {
        self.drop_as(space, page, Order::K4)
            + self.drop_as(space, page, Order::M2)
            + self.drop_as(space, page, Order::G1)
    }

    /// Drops the leaves of any space that cover the page, and gives how many items left. It looks
    /// at one set for each order.
    pub fn drop_anywhere(&mut self, page: u64) -> u64
        requires { page < 2 ^ 52 }
        ensures array { self.new ≡ array_without (covers_anywhere page) self.old }
        ensures left { result + leaves_in_sets self.new.sets ≡ leaves_in_sets self.old.sets }
        ensures most { result ≤ 64 * 2 ^ 32 }
    {
        self.drop_anywhere_as(page, Order::K4)
            + self.drop_anywhere_as(page, Order::M2)
            + self.drop_anywhere_as(page, Order::G1)
    }

    /// Drops the leaves of a space, and gives how many items left.
    pub fn drop_space(&mut self, space: u16) -> u64
        ensures array { self.new ≡ array_without (is_of_space space) self.old }
        ensures left { result + leaves_in_sets self.new.sets ≡ leaves_in_sets self.old.sets }
        ensures most { result ≤ 64 * 2 ^ 32 }
    {
        self.spec.sets_are_few();
        drop_of_space(&mut self.sets, space)
    }

    /// Drops all leaves, and gives how many items left.
    pub fn drop_all(&mut self) -> u64
        ensures array { self.new ≡ array_without is_any self.old }
        ensures left { result + leaves_in_sets self.new.sets ≡ leaves_in_sets self.old.sets }
        ensures most { result ≤ 64 * 2 ^ 32 }
    {
        self.spec.sets_are_few();
        drop_each(&mut self.sets)
    }
}
