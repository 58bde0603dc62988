//! Recency lists of one width, by number.

ghost use Rattle.std.specs.Prelude.{◌≡◌, ◌+◌, ◌*◌, ◌^◌, ◌<◌, ◌≤◌, [], length, find, replicate, slice_index_or, IfOk};
ghost use Rattle.std.specs.Fn.{FnReturnsAt};
ghost use Rattle.xl_recency.specs.Lists.{IsTest, items_in, TouchesIn, FillsIn, PurgesIn, PurgesAll};
ghost use Rattle.xl_recency.specs.Marks.{has_tag};

use crate::item::{BLANK, Item};
use crate::marked::Marked;
use crate::ways::Ways;
use std::alloc::Global;
use std::marker::Model;
use xl_model::NoMemory;

/// Sets of at most `W` items each. Where `W` is above 32 they are lists of marks, in which a
/// search and a move cost the same wherever the item is: half the instructions of an access. The
/// width is known when the program is compiled, so that the choice costs nothing, and one of the
/// two has no lists. Contracts see the list of the sets' lists, newest first each.
#[derive(Drop)]
pub struct Sets<const W: usize> {
    few: Vec<Ways<Item, W>>,
    many: Vec<Marked<W>>,
}

impl<const W: usize> Model for Sets<W> {
    ghost use Rattle.std.specs.Prelude.{List, length, ◌≤◌, ◌^◌};
    ghost use Rattle.xl_recency.specs.declared.item.Item.{Item};
    ghost use Rattle.xl_recency.specs.Widths.{of_width};

    ghost Value = { List (List Item) };

    ghost view = { λ s. of_width W s.few.items s.many.items };

    ghost invariant = { λ s. length (of_width W s.few.items s.many.items) ≤ 2 ^ 32 };
}

impl<const W: usize> Sets<W> {
    /// Empty sets, as many as `count` says.
    pub fn open(alloc: Global, count: u32) -> Result<Sets<W>, NoMemory>
        requires { W ≤ 64 }
        ensures { IfOk result (λ sets. sets ≡ replicate count []) }
    {
        let wide = W > 32;
        let mut few = Vec::with_capacity(alloc, if wide { 0 } else { count as usize })?;
        let mut many = Vec::with_capacity(alloc, if wide { count as usize } else { 0 })?;
        'opened: for _ in 0..count {
            let full = if wide {
                many.push(Marked::open(alloc)?).is_err()
            } else {
                few.push(Ways::open(alloc, BLANK)?).is_err()
            };
            if full {
                return Err(NoMemory);
            }
        }
        Ok(Sets { few, many })
    }

    /// Moves the newest item of the set with the tag to the front, and returns it. `None` where
    /// none has it; then nothing changes.
    #[inline(always)]
    pub fn touch(&mut self, set: usize, tag: u64) -> Option<Item>
        requires width { W ≤ 64 }
        requires set { set < length self.old }
        ensures { TouchesIn (has_tag tag) set self.old self.new result }
    {
        if W <= 32 {
            let list = &mut self.few[set];
            return list.touch(|item| item.tag == tag);
        }
        let list = &mut self.many[set];
        list.touch(tag)
    }

    /// Does what `touch` does, where mostly one of the two newest items has the tag. In sets of at
    /// most 32 there is no branch between these two.
    #[inline(always)]
    pub fn touch_near(&mut self, set: usize, tag: u64) -> Option<Item>
        requires width { W ≤ 64 }
        requires set { set < length self.old }
        ensures { TouchesIn (has_tag tag) set self.old self.new result }
    {
        if W <= 32 {
            let list = &mut self.few[set];
            return list.touch_near(tag);
        }
        let list = &mut self.many[set];
        list.touch(tag)
    }

    /// The newest item of the set with the tag.
    pub fn find(&self, set: usize, tag: u64) -> Option<Item>
        requires width { W ≤ 64 }
        requires set { set < length self.now }
        ensures { result ≡ find (has_tag tag) (slice_index_or self.now set []) }
    {
        if W <= 32 {
            let list = &self.few[set];
            return list.find(|item| item.tag == tag);
        }
        let list = &self.many[set];
        list.find(tag)
    }

    /// Puts the item in front of the set, and returns the item evicted: `Some` where the set was
    /// full.
    #[inline(always)]
    pub fn fill(&mut self, set: usize, item: Item) -> Option<Item>
        requires some { 0 < W }
        requires width { W ≤ 64 }
        requires set { set < length self.old }
        ensures { FillsIn W set item self.old self.new result }
    {
        if W <= 32 {
            let list = &mut self.few[set];
            return list.fill(item);
        }
        let list = &mut self.many[set];
        list.fill(item)
    }

    /// Removes the items of one set with the tag; the others stay in order. Returns how many it
    /// removed.
    pub fn remove_tag(&mut self, set: usize, tag: u64) -> u64
        requires width { W ≤ 64 }
        requires set { set < length self.old }
        ensures gone { PurgesIn (has_tag tag) set self.old self.new result }
        ensures most { result ≤ 64 }
    {
        if W <= 32 {
            return self.remove_in(set, |item| item.tag == tag);
        }
        let list = &mut self.many[set];
        list.remove_tag(tag)
    }

    /// Removes the items of one set that pass the test; the others stay in order. Returns how many
    /// it removed.
    pub fn remove_in<P: Fn(&Item) -> bool>(&mut self, set: usize, test: P) -> u64
        requires width { W ≤ 64 }
        requires set { set < length self.old }
        requires test { P.IsAlwaysCallable test }
        ensures kept { (q : _) → IsTest (FnReturnsAt P.Fn test) q →
            PurgesIn q set self.old self.new result }
        ensures count { result + items_in self.new ≡ items_in self.old }
        ensures most { result ≤ 64 }
    {
        self.remove(set, &test)
    }

    /// Removes the items of every set that pass the test; the others stay in order. Returns how
    /// many it removed.
    pub fn remove_where<P: Fn(&Item) -> bool>(&mut self, test: P) -> u64
        requires width { W ≤ 64 }
        requires test { P.IsAlwaysCallable test }
        ensures kept { (q : _) → IsTest (FnReturnsAt P.Fn test) q →
            PurgesAll q self.old self.new result }
        ensures count { result + items_in self.new ≡ items_in self.old }
        ensures most { result ≤ 64 * length self.old }
    {
        let mut count = 0;
        for set in 0..self.len() {
            count += self.remove(set, &test);
        }
        count
    }

    /// How many sets there are.
    fn len(&self) -> usize
        ensures value { result ≡ length self.now }
        ensures most { result ≤ 2 ^ 32 }
    {
        if W <= 32 {
            return self.few.len();
        }
        self.many.len()
    }

    /// What `remove_in` does, by a test that is kept.
    fn remove<P: Fn(&Item) -> bool>(&mut self, set: usize, test: &P) -> u64
        requires width { W ≤ 64 }
        requires set { set < length self.old }
        requires test { P.IsAlwaysCallable test.now }
        ensures kept { (q : _) → IsTest (FnReturnsAt P.Fn test.now) q →
            PurgesIn q set self.old self.new result }
        ensures count { result + items_in self.new ≡ items_in self.old }
        ensures most { result ≤ 64 }
        ensures sets { length self.new ≡ length self.old }
    {
        if W <= 32 {
            let list = &mut self.few[set];
            return list.remove(test);
        }
        let list = &mut self.many[set];
        list.remove(test)
    }
}
