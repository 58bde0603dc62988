//! A treap of ranges.

ghost use Rattle.std.specs.Prelude.{◌≡◌, ◌<◌, ◌+◌, ◌*◌, ◌^◌, ◌≤◌, true, length, find, [], IfOk, OnOk, OnErr};
ghost use Rattle.std.specs.List.{list_any};
ghost use Rattle.std.specs.Vec.{vec_capacity};
ghost use Rattle.xl_model.specs.Base.{plus};
ghost use Rattle.xl_model.specs.Ranges.{range_key, holds_page, range_reads};
ghost use Rattle.xl_treap.specs.Treaps.{TreapView, TreapState, IsApart, keeping, key_at, with_range, without_range, resized, last_below, first_from, of_space, has_key};
ghost use Rattle.xl_treap.specs.Lines.{range_of_link};
ghost use Rattle.xl_treap.specs.Back.{tree_back, loaded_along};
ghost use Rattle.xl_treap.specs.Kept.{WordsReadBack, upto};

use crate::along::{Search, seek};
use crate::beside::nodes_beside;
use crate::joining::{give_pages, take_out};
use crate::node::{key_of, range_in};
use crate::own_search::node_with;
use crate::parting::put_in;
use std::alloc::Global;
use std::marker::Model;
use xl_model::{Full, NoMemory, Range};
use xl_phys::{Bus, line_of};

/// Ranges, none over another, as a treap in words: a node is a line of its range's key, which is
/// 2^52 for each space before it and its first page, its pages, the word of its frame, permission
/// and order, and two links. Keys rise from left to right, and the hashes of keys rise downwards.
/// Contracts see the ranges as a list, sorted by their keys. Nothing is allocated after `open`.
#[derive(Drop)]
pub struct Treap {
    words: Vec<u64>,
    free: Vec<u32>,
    path: Vec<u32>,
    root: u32,
    loads: u64,
}

impl Model for Treap {
    ghost use Rattle.std.specs.Prelude.{◌≡◌, ◌+◌, ◌*◌, ◌≤◌, ◌^◌, length};
    ghost use Rattle.std.specs.Vec.{vec_capacity};
    ghost use Rattle.xl_treap.specs.Treaps.{TreapState};
    ghost use Rattle.xl_treap.specs.Kept.{IsKept, seen_in};

    ghost Value = { TreapState };

    ghost view = { λ t. seen_in t.words.items t.root (length t.path.items) t.loads };

    ghost invariant = { λ t. IsKept t.words.items t.root (length t.path.items) t.free.items
        (vec_capacity t.free) };
}

/// The ranges beside a place, where there are any.
#[derive(Clone, Copy)]
pub struct Neighbours {
    /// The last range before it.
    pub before: Option<Range>,
    /// The first range from it on.
    pub from: Option<Range>,
}

/// The range that holds a page, and how many ranges were read to find it.
#[derive(Clone, Copy)]
struct Looked {
    range: Option<Range>,
    loads: u32,
}

/// The numbers below `n`.
fn numbers(alloc: Global, n: u32) -> Result<Vec<u32>, NoMemory>
    ensures items { IfOk result (λ v. v.items ≡ upto n) }
    ensures room { IfOk result (λ v. n ≤ vec_capacity v) }
{
    let mut all = Vec::with_capacity(alloc, n as usize)?;
    for i in 0..n {
        if all.push(i).is_err() {
            return Err(NoMemory);
        }
    }
    Ok(all)
}

/// The range of the node of a link.
fn range_of(words: &[u64], at: usize) -> Option<Range>
    requires { 4 * at ≤ length words.now }
    ensures { result ≡ range_of_link words.now at }
{
    if at == 0 {
        return None;
    }
    let line = 4 * (at - 1);
    range_in(words[line], words[line + 1], words[line + 2])
}

/// The range of the node of a link, where it is one of this space.
fn range_at(words: &[u64], at: u32, space: u16) -> Option<Range>
    requires { 4 * at ≤ length words.now }
    ensures { result ≡ of_space space (range_of_link words.now at) }
{
    match range_of(words, at as usize) {
        Some(range) => {
            if range.space == space {
                Some(range)
            } else {
                None
            }
        }
        None => None,
    }
}

impl Treap {
    /// A treap that holds nothing, with room for this many ranges.
    ///
    /// # Errors
    ///
    /// `NoMemory` where there is no memory.
    pub fn open(alloc: Global, nodes: u32) -> Result<Treap, NoMemory>
        requires { (1 ≤ nodes) × (nodes ≤ 2 ^ 16 + 1) }
        ensures kept { IfOk result (λ t. t.seen.kept ≡ []) }
        ensures nodes { IfOk result (λ t. t.seen.nodes ≡ nodes) }
        ensures loads { IfOk result (λ t. t.seen.loads ≡ 0) }
    {
        let words = vec![in alloc; 0u64; 4 * nodes as usize]?;
        let path = vec![in alloc; 0u32; nodes as usize]?;
        let free = numbers(alloc, nodes)?;
        Ok(Treap {
            words,
            free,
            path,
            root: 0,
            loads: 0,
        })
    }

    /// Holds one range more, which lies over none that is held. Full exactly where as many ranges
    /// are held as there are nodes; then nothing changes.
    pub fn insert(&mut self, range: Range) -> Result<(), Full>
        requires { IsApart 0 (with_range range self.old.seen.kept) }
        ensures ok { OnOk result
            (self.new.seen ≡ keeping self.old.seen (with_range range self.old.seen.kept)) }
        ensures room { OnOk result (length self.old.seen.kept < self.old.seen.nodes) }
        ensures full { OnErr result (length self.old.seen.kept ≡ self.old.seen.nodes) }
        ensures same { OnErr result (self.new ≡ self.old) }
    {
        match self.free.pop() {
            None => Err(Full),
            Some(node) => {
                self.root = put_in(&mut self.words, &mut self.path, self.root, node, range);
                Ok(())
            }
        }
    }

    /// Takes out the range of the space that starts at page `start`, which is held.
    pub fn remove(&mut self, space: u16, start: u64)
        requires { list_any (has_key (key_at space start)) self.old.seen.kept ≡ true }
        ensures { self.new.seen
            ≡ keeping self.old.seen (without_range (key_at space start) self.old.seen.kept) }
    {
        let root = self.root;
        let key = key_of(space, start);
        let taken = take_out(&mut self.words, &mut self.path, root, key);
        self.root = taken.root;
        match self.free.push(taken.node) {
            Ok(()) => (),
            Err(_) => unreachable!(),
        }
    }

    /// Gives the range of the space that starts at page `start`, which is held, `pages` pages. It
    /// then lies over no other.
    pub fn resize(&mut self, space: u16, start: u64, pages: u64)
        requires held { list_any (has_key (key_at space start)) self.old.seen.kept ≡ true }
        requires apart { IsApart 0 (resized (key_at space start) pages self.old.seen.kept) }
        ensures { self.new.seen
            ≡ keeping self.old.seen (resized (key_at space start) pages self.old.seen.kept) }
    {
        let root = self.root;
        let key = key_of(space, start);
        give_pages(&mut self.words, &mut self.path, root, key, pages);
    }

    /// The range that holds the page, None exactly where there is none.
    pub fn find(&self, space: u16, page: u64) -> Option<Range>
        requires space_in { space < 64 }
        requires page_in { page < 2 ^ 52 }
        ensures { result ≡ find (holds_page space page) self.now.seen.kept }
    {
        self.look(space, page).range
    }

    /// Searches the treap's own words for the range that holds the page.
    #[inline(always)]
    fn look(&self, space: u16, page: u64) -> Looked
        requires space_in { space < 64 }
        requires page_in { page < 2 ^ 52 }
        ensures range { result.range ≡ find (holds_page space page) self.now.seen.kept }
        ensures loads { result.loads ≡ range_reads self.now.seen.kept space page }
    {
        let found = node_with(&self.words, self.root, key_of(space, page));
        Looked {
            range: range_of(&self.words, found.at),
            loads: found.loads,
        }
    }

    /// The last range of the space that starts below the page, None exactly where there is none.
    pub fn before(&self, space: u16, page: u64) -> Option<Range>
        requires space_in { space < 64 }
        requires page_in { page ≤ 2 ^ 52 }
        ensures { result ≡ of_space space (last_below (key_at space page) self.now.seen.kept) }
    {
        let found = nodes_beside(&self.words, self.root, key_of(space, page));
        range_at(&self.words, found.before, space)
    }

    /// The ranges of the space beside the start of the page: the last one that starts below it, and
    /// the first one that starts there or above, None exactly where there is none.
    pub fn beside(&self, space: u16, page: u64) -> Neighbours
        requires space_in { space < 64 }
        requires page_in { page ≤ 2 ^ 52 }
        ensures before { result.before
            ≡ of_space space (last_below (key_at space page) self.now.seen.kept) }
        ensures from { result.from
            ≡ of_space space (first_from (key_at space page) self.now.seen.kept) }
    {
        let found = nodes_beside(&self.words, self.root, key_of(space, page));
        Neighbours {
            before: range_at(&self.words, found.before, space),
            from: range_at(&self.words, found.from, space),
        }
    }

    /// How many ranges are held.
    pub fn len(&self) -> u32
        ensures { result ≡ length self.now.seen.kept }
    {
        (self.path.len() - self.free.len()) as u32
    }

    /// The range that holds the page, found by a search of the treap's own words, which counts a
    /// load for each range that it reads.
    pub fn walk(&mut self, space: u16, page: u64) -> Option<Range>
        requires space_in { space < 64 }
        requires page_in { page < 2 ^ 52 }
        ensures found { result ≡ find (holds_page space page) self.old.seen.kept }
        ensures loads { self.new.seen ≡ record self.old.seen {
          loads = plus self.old.seen.loads (range_reads self.old.seen.kept space page);
        } }
        ensures words { self.new.words ≡ self.old.words }
        ensures root { self.new.root ≡ self.old.root }
    {
        let looked = self.look(space, page);
        self.loads = self.loads.wrapping_add(looked.loads as u64);
        looked.range
    }

    /// Searches the words of any bus for the range that holds the page: from the root down, one
    /// load for each node examined. `root` is a node's number plus one, or 0.
    pub fn search<B: Bus>(bus: &mut B, root: u32, nodes: u32, space: u16, page: u64) -> Search
        requires space_in { space < 64 }
        requires page_in { page < 2 ^ 52 }
        ensures end { result ≡ tree_back (B.words bus.old) root nodes space page }
        ensures bus { bus.new
            ≡ loaded_along B.loaded (B.words bus.old) root nodes (key_at space page) bus.old }
    {
        seek(bus, root, nodes, key_of(space, page))
    }

    /// The link to the node at the top: its number plus one, or 0 where nothing is held.
    pub fn root(&self) -> u32
        ensures { result ≡ self.now.root }
    {
        self.root
    }

    /// What the type keeps: the words are those of a treap of the ranges that are held, and a
    /// search of them finds what is held.
    pub fn words_read_back(&self)
        ensures { WordsReadBack self.now }
    {
        // Reading a field brings in the type's invariant.
        let _words = &self.words;
    }
}

impl Bus for Treap {
    ghost use Rattle.std.specs.Prelude.{refl};
    ghost use Rattle.xl_phys.specs.Lines.{counted};
    ghost use Rattle.xl_treap.specs.Kept.{after_load};

    ghost words = { λ t. t.words };

    ghost count = { λ t. t.seen.loads };

    ghost loaded = { λ t. after_load t };

    fn load(&mut self, line: usize) -> Option<[u64; 4]> {
        self.loads = self.loads.wrapping_add(1);
        line_of(&self.words, line)
    }

    fn loads(&self) -> u64 {
        self.loads
    }

    ghost words_stay = { λ t. refl };

    ghost counts_one = { λ t. refl };
}
