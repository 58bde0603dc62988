//! A recency list of many items.

ghost use Rattle.std.specs.Prelude.{◌≡◌, ◌+◌, ◌<◌, ◌≤◌, [], length, find, IfOk, IsOk};
ghost use Rattle.std.specs.Fn.{FnReturnsAt};
ghost use Rattle.xl_recency.specs.Lists.{IsTest, Touches, Fills, Purges};
ghost use Rattle.xl_recency.specs.Marks.{has_tag};

use crate::item::{BLANK, Item};
use crate::marks::{
    any_passes, fill_item, find_tag, keep_items, marks_of, slots_in_turn, touch_tag,
};
use std::alloc::Global;
use std::marker::Model;
use xl_model::NoMemory;

/// A recency list of at most `W` items, for more than 32: each item stays in its slot, and of
/// each place a mark, a byte of its item's tag, and the slot's number move. So a search compares
/// bytes, sixteen at a time, and a move costs the same wherever the item was. Contracts see the
/// list, newest first.
#[derive(Drop)]
pub struct Marked<const W: usize> {
    len: usize,
    /// The mark of the item at each place.
    marks: [u8; W],
    /// The slot of each place, also past the last item.
    slots: [u8; W],
    items: [Item; W],
}

impl<const W: usize> Model for Marked<W> {
    ghost use Rattle.std.specs.Prelude.{List, take, ◌≤◌};
    ghost use Rattle.xl_recency.specs.declared.item.Item.{Item};
    ghost use Rattle.xl_recency.specs.Marks.{AreMarked, in_order};

    ghost Value = { List Item };

    ghost view = { λ s. take s.len (in_order s.items s.slots) };

    ghost invariant = { λ s. (s.len ≤ W) × (W ≤ 64) × AreMarked W s.marks s.slots s.items };
}

impl<const W: usize> Marked<W> {
    /// An empty list. Stored inline; never allocates.
    pub fn open(_alloc: Global) -> Result<Marked<W>, NoMemory>
        requires { W ≤ 64 }
        ensures ok { IsOk result }
        ensures empty { IfOk result (λ marked. marked ≡ []) }
    {
        let items = [BLANK; W];
        Ok(Marked {
            len: 0,
            marks: marks_of(&items),
            slots: slots_in_turn(),
            items,
        })
    }

    /// Moves the newest item with the tag to the front, and returns it. `None` where none has it;
    /// then nothing changes.
    #[inline(always)]
    pub fn touch(&mut self, tag: u64) -> Option<Item>
        ensures { Touches (has_tag tag) self.old self.new result }
    {
        touch_tag(&mut self.marks, &mut self.slots, &self.items, self.len, tag)
    }

    /// The newest item with the tag.
    pub fn find(&self, tag: u64) -> Option<Item>
        ensures { result ≡ find (has_tag tag) self.now }
    {
        find_tag(&self.marks, &self.slots, &self.items, self.len, tag)
    }

    /// Inserts the item in front, and returns the item evicted: `Some` where the list was full.
    pub fn fill(&mut self, item: Item) -> Option<Item>
        requires { 0 < W }
        ensures { Fills W item self.old self.new result }
    {
        fill_item(
            &mut self.marks,
            &mut self.slots,
            &mut self.items,
            &mut self.len,
            item,
        )
    }

    /// Removes the items with the tag; the others stay in order. Returns how many it removed. Where
    /// none has it, marks alone are compared.
    pub fn remove_tag(&mut self, tag: u64) -> u64
        ensures kept { Purges (has_tag tag) self.old self.new result }
        ensures most { result ≤ W }
    {
        match self.find(tag) {
            Some(_item) => self.remove(&|item| item.tag == tag),
            None => 0,
        }
    }

    /// Removes the items that pass the test; the others stay in order. Returns how many it removed.
    pub(crate) fn remove<P: Fn(&Item) -> bool>(&mut self, test: &P) -> u64
        requires { P.IsAlwaysCallable test.now }
        ensures kept { (q : _) → IsTest (FnReturnsAt P.Fn test.now) q →
            Purges q self.old self.new result }
        ensures count { result + length self.new ≡ length self.old }
        ensures most { result ≤ W }
    {
        if !any_passes(&self.slots, &self.items, self.len, test) {
            return 0;
        }
        let before = self.len;
        self.len = keep_items(
            &mut self.marks,
            &mut self.slots,
            &mut self.items,
            before,
            test,
        );
        (before - self.len) as u64
    }
}
