//! The recency list as an array with the newest item first.

ghost use Rattle.std.specs.Prelude.{◌≡◌, ◌+◌, ◌<◌, ◌≤◌, [], length, find, IsOk, IfOk};
ghost use Rattle.std.specs.Fn.{FnReturnsAt};
ghost use Rattle.xl_recency.specs.Lists.{IsTest, Touches, Fills, Purges};
ghost use Rattle.xl_recency.specs.Marks.{has_tag};

use crate::item::Item;
use crate::kernel::{fill_slots, item_at, keep_failing, place_of, touch_near, touch_slots};
use std::alloc::Global;
use std::marker::Model;
use xl_model::NoMemory;

/// A recency list of at most `W` items. Contracts see the list, newest first.
#[derive(Drop)]
pub struct Ways<T, const W: usize> {
    /// Stands in front, so that it shares a line with the newest items.
    len: usize,
    /// Unused: behind it items of 16 bytes lie at multiples of 16, and none in two lines.
    _spare: u64,
    slots: [T; W],
}

impl<T, const W: usize> Model for Ways<T, W> {
    ghost use Rattle.std.specs.Prelude.{List, take, ◌≤◌};

    ghost Value = { List T };

    ghost view = { λ s. take s.len s.slots };

    ghost invariant = { λ s. s.len ≤ W };
}

impl<T: Copy, const W: usize> Ways<T, W> {
    /// An empty list. Stored inline; never allocates. `blank` fills unused slots; contracts never
    /// see it.
    pub fn open(_alloc: Global, blank: T) -> Result<Ways<T, W>, NoMemory>
        ensures ok { IsOk result }
        ensures empty { IfOk result (λ ways. ways ≡ []) }
    {
        Ok(Ways {
            len: 0,
            _spare: 0,
            slots: [blank; W],
        })
    }

    /// How many items the list holds.
    pub fn len(&self) -> usize
        ensures value { result ≡ length self.now }
        ensures few { result ≤ W }
    {
        let items: &[T] = &self.slots[..self.len];
        items.len()
    }

    /// Moves the newest item that passes the test to the front, and returns it. `None` where none
    /// passes; then nothing changes.
    #[inline(always)]
    pub fn touch<P: Fn(&T) -> bool>(&mut self, test: P) -> Option<T>
        requires { P.IsAlwaysCallable test }
        ensures { (q : _) → IsTest (FnReturnsAt P.Fn test) q → Touches q self.old self.new result }
    {
        touch_slots(&mut self.slots, self.len, &test)
    }

    /// The newest item that passes the test.
    pub fn find<P: Fn(&T) -> bool>(&self, test: P) -> Option<T>
        requires { P.IsAlwaysCallable test }
        ensures { (q : _) → IsTest (FnReturnsAt P.Fn test) q → result ≡ find q self.now }
    {
        let place = place_of(&self.slots, self.len, &test);
        item_at(&self.slots[..self.len], place, &test)
    }

    /// Inserts the item in front, and returns the item evicted: `Some` where the list was full.
    #[inline(always)]
    pub fn fill(&mut self, item: T) -> Option<T>
        requires { 0 < W }
        ensures { Fills W item self.old self.new result }
    {
        fill_slots(&mut self.slots, &mut self.len, W, item)
    }

    /// Removes the items that pass the test; the others stay in order. Returns how many it removed.
    pub fn remove_where<P: Fn(&T) -> bool>(&mut self, test: P) -> u64
        requires { P.IsAlwaysCallable test }
        ensures kept { (q : _) → IsTest (FnReturnsAt P.Fn test) q →
            Purges q self.old self.new result }
        ensures count { result + length self.new ≡ length self.old }
        ensures most { result ≤ W }
    {
        self.remove(&test)
    }

    /// What `remove_where` does, by a test that is kept.
    pub(crate) fn remove<P: Fn(&T) -> bool>(&mut self, test: &P) -> u64
        requires { P.IsAlwaysCallable test.now }
        ensures kept { (q : _) → IsTest (FnReturnsAt P.Fn test.now) q →
            Purges q self.old self.new result }
        ensures count { result + length self.new ≡ length self.old }
        ensures most { result ≤ W }
    {
        let before = self.len;
        self.len = keep_failing(&mut self.slots[..before], test);
        (before - self.len) as u64
    }
}

impl<const W: usize> Ways<Item, W> {
    /// Moves the newest item with the tag to the front, and returns it, where mostly that is one of
    /// the two newest of all. `None` where none has it; then nothing changes.
    #[inline(always)]
    pub(crate) fn touch_near(&mut self, tag: u64) -> Option<Item>
        ensures { Touches (has_tag tag) self.old self.new result }
    {
        touch_near(&mut self.slots, self.len, tag)
    }
}
