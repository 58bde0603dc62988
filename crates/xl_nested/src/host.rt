//! The host.

ghost use Rattle.std.specs.Prelude.{◌≡◌, ◌^◌, ◌<◌, ◌≤◌, None, find, IfOk, IfSome};
ghost use Rattle.xl_model.specs.Base.{plus};
ghost use Rattle.xl_nested_model.specs.Rules.{host_map, map_rule, unmap_rule, gmapped, gunmapped};
ghost use Rattle.xl_nested_model.specs.Stages.{covers_guest, host_leaf, host_page, host_space, opening_host, stage2, translated};
ghost use Rattle.xl_recency.specs.Widths.{IsWidth};
ghost use Rattle.xl_nested.specs.Coding.{IsFound};
ghost use Rattle.xl_nested.specs.Commands.{IsPlace, IsServed};
ghost use Rattle.xl_nested.specs.Kept.{stage_of};

use crate::front_cache::FrontCache;
use crate::leaf::{frame_allowed, word_in};
use crate::stage::Stage;
use std::alloc::Global;
use std::marker::Model;
use xl_frames::Frames;
use xl_model::{Kind, Leaf, NoMemory, Order, Perm};
use xl_nested_model::NestRefusal;
use xl_radix::Radix;

/// The host's table, its frames, and the G cache of the table's leaves, with the cache's hits.
/// Contracts see all of it but which frames are free, which follows from the leaves.
#[derive(Drop)]
pub(crate) struct Host {
    stage: Stage,
    frames: Frames,
    cache: FrontCache,
    hits: u64,
}

impl Model for Host {
    ghost use Rattle.xl_nested_model.specs.Stages.{Host as HostState};
    ghost use Rattle.xl_nested.specs.Kept.{host_of, IsHost};

    ghost Value = { HostState };

    ghost view = { λ h. host_of h.stage h.frames h.cache h.hits };

    ghost invariant = { λ h. IsHost h.stage h.frames h.cache };
}

/// The space of a guest page in the host's table.
#[inline(always)]
fn space_of(guest_page: u64) -> u16
    requires { guest_page < 2 ^ 29 }
    ensures value { result ≡ host_space guest_page }
    ensures few { result < 4 }
{
    (guest_page >> 27) as u16
}

/// The page of a guest page in its space.
#[inline(always)]
fn page_in(guest_page: u64) -> u64
    ensures value { result ≡ host_page guest_page }
    ensures low { result < 2 ^ 27 }
{
    guest_page % (1 << 27)
}

/// Counts a hit.
fn count_hit(hits: &mut u64)
    ensures { hits.new ≡ plus hits.old 1 }
{
    *hits = hits.wrapping_add(1);
}

impl Host {
    /// A host without leaves, whose frames are all free.
    pub fn open(alloc: Global, frames: u32, nodes: u32, width: u8) -> Result<Host, NoMemory>
        requires frames { (1 ≤ frames) × (frames ≤ 2 ^ 22) }
        requires nodes { (4 ≤ nodes) × (nodes ≤ 16384) }
        requires width { IsWidth width }
        ensures { IfOk result (λ host. host ≡ opening_host frames nodes width) }
    {
        let stage = Stage::open(alloc, 4, nodes)?;
        let frames = Frames::open(alloc, frames)?;
        let cache = FrontCache::open(alloc, width)?;
        Ok(Host {
            stage,
            frames,
            cache,
            hits: 0,
        })
    }

    /// The host's table.
    pub fn table(&self) -> &Radix<3>
        ensures { stage_of result.now ≡ self.entry.now.stage }
    {
        self.stage.table()
    }

    /// The hits of the G cache.
    pub fn hits(&self) -> u64
        ensures { result ≡ self.now.hits }
    {
        self.hits
    }

    /// The host's frame of a guest page, where it has one for an access of this kind.
    #[inline(always)]
    pub fn translate(&mut self, guest_page: u64, kind: Kind) -> Option<u64>
        requires { guest_page < 2 ^ 29 }
        ensures frame { result ≡ stage2 self.old.stage.leaves guest_page kind }
        ensures after { self.new ≡ translated guest_page self.old }
        ensures small { IfSome result (λ frame. frame < 2 ^ 52) }
    {
        let word = self.word_of(guest_page)?;
        frame_allowed(word, kind)
    }

    /// The word of a guest page in the leaf that covers it: from the G cache, or else by a walk.
    #[inline(always)]
    fn word_of(&mut self, guest_page: u64) -> Option<u64>
        requires { guest_page < 2 ^ 29 }
        ensures word { IsFound (host_page guest_page) result
            (host_leaf guest_page self.old.stage.leaves) }
        ensures after { self.new ≡ translated guest_page self.old }
        ensures small { IfSome result (λ word. word < 2 ^ 49) }
    {
        match self.cache.touch(guest_page) {
            Some(word) => {
                count_hit(&mut self.hits);
                Some(word)
            }
            None => self.walk(guest_page),
        }
    }

    /// The word of a guest page that no leaf of the G cache covers, by a walk. A leaf found fills
    /// the cache. A leaf of 4 KiB is returned and kept by its word.
    #[inline(never)]
    fn walk(&mut self, guest_page: u64) -> Option<u64>
        requires page { guest_page < 2 ^ 29 }
        requires missed { find (covers_guest guest_page) self.old.cache.items ≡ None }
        ensures word { IsFound (host_page guest_page) result
            (host_leaf guest_page self.old.stage.leaves) }
        ensures after { self.new ≡ translated guest_page self.old }
        ensures small { IfSome result (λ word. word < 2 ^ 49) }
    {
        let found = self
            .stage
            .walk_small(space_of(guest_page), page_in(guest_page));
        match found {
            Some(word) => {
                self.cache.fill_small(guest_page, word);
                Some(word)
            }
            None => self.walk_slowly(guest_page),
        }
    }

    /// What `walk` does, whatever the walk ends with.
    #[inline(never)]
    fn walk_slowly(&mut self, guest_page: u64) -> Option<u64>
        requires page { guest_page < 2 ^ 29 }
        requires missed { find (covers_guest guest_page) self.old.cache.items ≡ None }
        ensures word { IsFound (host_page guest_page) result
            (host_leaf guest_page self.old.stage.leaves) }
        ensures after { self.new ≡ translated guest_page self.old }
        ensures small { IfSome result (λ word. word < 2 ^ 49) }
    {
        let page = page_in(guest_page);
        let leaf = self.stage.walk(space_of(guest_page), page)?;
        self.cache.fill(leaf);
        Some(word_in(leaf, page))
    }

    /// Maps a block of guest pages to the lowest free block of frames.
    ///
    /// # Errors
    ///
    /// `Overlap` where the block overlaps a leaf, else `NoFrames` where no block of frames is free,
    /// else `NoTable` where the table has no room.
    pub fn map(&mut self, guest_page: u64, order: Order, perm: Perm) -> Result<(), NestRefusal>
        requires { IsPlace guest_page order (2 ^ 29) }
        ensures { IsServed (map_rule (host_space guest_page) (host_page guest_page) order
            (host_map guest_page order perm self.old) self.old.stage)
            result self.old (gmapped guest_page order perm self.old) self.new }
    {
        let space = space_of(guest_page);
        let first = page_in(guest_page);
        if self.stage.meets(space, first, order) {
            return Err(NestRefusal::Overlap);
        }
        let Some(frame) = self.frames.take(order) else {
            return Err(NestRefusal::NoFrames);
        };
        let leaf = Leaf {
            space,
            first,
            order,
            frame,
            perm,
        };
        match self.stage.add(leaf) {
            Ok(()) => Ok(()),
            Err(refusal) => {
                self.frames.give(frame, order);
                Err(refusal)
            }
        }
    }

    /// Takes out the leaf of this first guest page and order, from the G cache too, and gives its
    /// frames back.
    ///
    /// # Errors
    ///
    /// `Absent` where there is none.
    pub fn unmap(&mut self, guest_page: u64, order: Order) -> Result<(), NestRefusal>
        requires { IsPlace guest_page order (2 ^ 29) }
        ensures { IsServed (unmap_rule (host_space guest_page) (host_page guest_page) order
            self.old.stage)
            result self.old (gunmapped guest_page order self.old) self.new }
    {
        let space = space_of(guest_page);
        let first = page_in(guest_page);
        let Some(leaf) = self.stage.named(space, first, order) else {
            return Err(NestRefusal::Absent);
        };
        self.stage.remove(space, first, order);
        self.frames.give(leaf.frame, order);
        self.cache.drop_leaf(guest_page, order);
        Ok(())
    }
}
