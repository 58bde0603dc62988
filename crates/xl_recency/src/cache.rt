//! A recency list of a width that is known when the program runs.

ghost use Rattle.std.specs.Prelude.{◌≡◌, ◌+◌, ◌∷◌, ◌≤◌, [], length, take, IfNone, IfOk, IfSome, IsOk};
ghost use Rattle.std.specs.Fn.{FnReturnsAt};
ghost use Rattle.xl_model.specs.Caches.{empty_cache};
ghost use Rattle.xl_recency.specs.Lists.{IsTest, Touches, Fills, Purges};
ghost use Rattle.xl_recency.specs.Widths.{IsWidth};

use crate::kernel::{fill_slots, keep_failing, touch_slots};
use std::alloc::Global;
use std::marker::Model;
use xl_model::NoMemory;

/// A recency list of a width from 0 to 64, in the first of 64 slots. Contracts see the width and
/// the list, newest first.
#[derive(Drop)]
pub struct Cache<T> {
    width: usize,
    len: usize,
    slots: [T; 64],
}

impl<T> Model for Cache<T> {
    ghost use Rattle.std.specs.Prelude.{take, ◌≤◌};
    ghost use Rattle.xl_model.specs.Caches.{Cached};

    ghost Value = { Cached T };

    ghost use Rattle.xl_recency.specs.Widths.{cached};

    ghost view = { λ c. cached c.width (take c.len c.slots) };

    ghost invariant = { λ c. (c.len ≤ c.width) × (c.width ≤ 64) };
}

impl<T: Copy> Cache<T> {
    /// An empty list of the width. Stored inline; never allocates. `blank` fills unused slots;
    /// contracts never see it.
    pub fn open(_alloc: Global, width: u8, blank: T) -> Result<Cache<T>, NoMemory>
        requires { IsWidth width }
        ensures ok { IsOk result }
        ensures empty { IfOk result (λ cache. cache ≡ empty_cache width) }
    {
        Ok(Cache {
            width: width as usize,
            len: 0,
            slots: [blank; 64],
        })
    }

    /// How many items the list holds.
    pub fn len(&self) -> usize
        ensures value { result ≡ length self.now.items }
        ensures few { result ≤ self.now.width }
        ensures width { self.now.width ≤ 64 }
    {
        let items: &[T] = &self.slots[..self.len];
        items.len()
    }

    /// The newest item.
    #[inline(always)]
    pub fn newest(&self) -> Option<T>
        ensures some { IfSome result (λ item. take 1 self.now.items ≡ item ∷ []) }
        ensures none { IfNone result (self.now.items ≡ []) }
    {
        if self.len == 0 {
            return None;
        }
        Some(self.slots[0])
    }

    /// Moves the newest item that passes the test to the front, and returns it. `None` where none
    /// passes; then nothing changes.
    pub fn touch<P: Fn(&T) -> bool>(&mut self, test: P) -> Option<T>
        requires { P.IsAlwaysCallable test }
        ensures touched { (q : _) → IsTest (FnReturnsAt P.Fn test) q →
            Touches q self.old.items self.new.items result }
        ensures width { self.new.width ≡ self.old.width }
    {
        touch_slots(&mut self.slots, self.len, &test)
    }

    /// Puts the item in front, and returns the item evicted: `Some` where the list was full. At
    /// width 0 that is the item itself.
    pub fn fill(&mut self, item: T) -> Option<T>
        ensures filled { Fills self.old.width item self.old.items self.new.items result }
        ensures width { self.new.width ≡ self.old.width }
    {
        if self.width == 0 {
            return Some(item);
        }
        fill_slots(&mut self.slots, &mut self.len, self.width, item)
    }

    /// Removes the items that pass the test; the others stay in order. Returns how many it removed.
    pub fn remove_where<P: Fn(&T) -> bool>(&mut self, test: P) -> u64
        requires { P.IsAlwaysCallable test }
        ensures kept { (q : _) → IsTest (FnReturnsAt P.Fn test) q →
            Purges q self.old.items self.new.items result }
        ensures count { result + length self.new.items ≡ length self.old.items }
        ensures most { result ≤ 64 }
        ensures width { self.new.width ≡ self.old.width }
    {
        let before = self.len;
        self.len = keep_failing(&mut self.slots[..before], &test);
        (before - self.len) as u64
    }
}
