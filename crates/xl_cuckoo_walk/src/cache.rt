//! A cache of sections.

ghost use Rattle.std.specs.Prelude.{◌≡◌, ◌+◌, ◌≤◌, length, find, IfOk, false};
ghost use Rattle.xl_model.specs.Caches.{empty_cache};
ghost use Rattle.xl_model.specs.Recency.{purged};
ghost use Rattle.xl_recency.specs.Widths.{IsWidth};
ghost use Rattle.xl_cuckoo_walk.specs.Coding.{has_tag, word_of_item, is_old};
ghost use Rattle.xl_cuckoo_walk.specs.Known.{IsFrontIf, word_known};
ghost use Rattle.xl_cuckoo_walk.specs.Plans.{touched_in, newest_in, fenced};

use crate::coding::{fence_cache, put_newest, refresh, touch};
use std::alloc::Global;
use std::marker::Model;
use xl_model::{NoMemory, Reach};
use xl_recency::{BLANK, Cache, Item};

/// A recency list of sections. Contracts see its width and its sections as items, newest first.
#[derive(Drop)]
pub(crate) struct Sections {
    list: Cache<Item>,
    /// False only where the width is 0: then nothing is looked for.
    is_kept: bool,
    /// The tag of the last touch, and the word that it found: that section is in front. 0 where
    /// this isn't known, since no section's word is 0.
    tag: u64,
    word: u64,
}

impl Model for Sections {
    ghost use Rattle.xl_model.specs.Caches.{Cached};
    ghost use Rattle.xl_recency.specs.declared.item.Item.{Item};
    ghost use Rattle.xl_cuckoo_walk.specs.Known.{IsKnown};

    ghost Value = { Cached Item };

    ghost view = { λ s. s.list };

    ghost invariant = { λ s. IsKnown s.is_kept s.tag s.word s.list };
}

/// The word of a section that a touch found, 0 where it found none.
fn known(word: Option<u64>) -> u64
    ensures { result ≡ word_known word }
{
    match word {
        None => 0,
        Some(word) => word,
    }
}

impl Sections {
    /// An empty cache of this width.
    pub fn open(alloc: Global, width: u8) -> Result<Sections, NoMemory>
        requires { IsWidth width }
        ensures empty { IfOk result (λ cache. cache ≡ empty_cache width) }
    {
        let list = Cache::open(alloc, width, BLANK)?;
        Ok(Sections {
            list,
            is_kept: width != 0,
            tag: 0,
            word: 0,
        })
    }

    /// Whether sections are kept. If not, there is none.
    #[inline(always)]
    pub fn is_kept(&self) -> bool
        ensures { result ≡ false → self.now ≡ empty_cache 0 }
    {
        self.is_kept
    }

    /// How many sections are cached.
    pub fn len(&self) -> usize
        ensures value { result ≡ length self.now.items }
        ensures few { result ≤ 64 }
    {
        self.list.len()
    }

    /// The word of the section of this tag where that is known to be in front: then a touch finds
    /// it and moves nothing. Else 0.
    #[inline(always)]
    pub fn front(&self, tag: u64) -> u64
        ensures { IsFrontIf tag result self.now.items }
    {
        if self.tag == tag { self.word } else { 0 }
    }

    /// Moves the section of this tag to the front, and returns its word.
    #[inline(always)]
    pub fn touch(&mut self, tag: u64) -> Option<u64>
        ensures found { result ≡ word_of_item (find (has_tag tag) self.old.items) }
        ensures moved { self.new ≡ touched_in tag self.old }
    {
        if !self.is_kept {
            return None;
        }
        if self.tag == tag && self.word != 0 {
            return Some(self.word);
        }
        self.touch_next(tag)
    }

    /// Looks through the list.
    #[inline(never)]
    fn touch_next(&mut self, tag: u64) -> Option<u64>
        ensures found { result ≡ word_of_item (find (has_tag tag) self.old.items) }
        ensures moved { self.new ≡ touched_in tag self.old }
    {
        let word = touch(&mut self.list, tag);
        self.tag = tag;
        self.word = known(word);
        word
    }

    /// Puts a section in front.
    pub fn put_newest(&mut self, tag: u64, word: u64)
        ensures { self.new ≡ newest_in tag word self.old }
    {
        self.word = 0;
        put_newest(&mut self.list, tag, word);
    }

    /// Removes the section of this tag where it isn't as this word says.
    pub fn refresh(&mut self, tag: u64, word: u64)
        ensures { self.new ≡ record self.old { items = purged (is_old tag word) self.old.items } }
    {
        self.word = 0;
        refresh(&mut self.list, tag, word);
    }

    /// Removes what a fence reaches. Returns how many sections it removed.
    pub fn fence(&mut self, reach: Reach) -> u64
        ensures left { self.new ≡ fenced reach self.old }
        ensures count { result + length self.new.items ≡ length self.old.items }
        ensures most { result ≤ 64 }
    {
        self.word = 0;
        fence_cache(&mut self.list, reach)
    }
}
