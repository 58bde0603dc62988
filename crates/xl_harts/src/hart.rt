//! One hart.

ghost use Rattle.std.specs.Prelude.{◌≡◌, ◌<◌, ◌≤◌, ◌+◌, ◌^◌, IfOk, IfSome, IfNone, Some};
ghost use Rattle.xl_hart_model.specs.Harts.{opening_hart, hart_replied, hart_asked, hart_fenced, array_fenced, array_walked};
ghost use Rattle.xl_model.specs.LeafWords.{small_leaf};
ghost use Rattle.xl_model.specs.Tally.{IsSmall};
ghost use Rattle.xl_model.specs.Tlb.{leaves_in_sets};
ghost use Rattle.xl_array.specs.Arrays.{IsFit};
ghost use Rattle.xl_array.specs.Held.{Smalls};
ghost use Rattle.xl_harts.specs.Looks.{IsSeen, IsUnseen, hart_filled};

use std::alloc::Global;
use std::marker::Model;
use xl_array::{Array, Hit, with_order};
use xl_hart_model::{HartCounts, HartSpec, Request};
use xl_model::{Leaf, NoMemory, Order, Reply, Serves, TlbSpec};

/// A hart: its current space, its TLB array, how many requests are in its queue, and its counts.
#[derive(Drop)]
pub(crate) struct Hart {
    space: u16,
    array: Array<8>,
    /// Whether the array may hold leaves above 4 KiB. Where it can't, none of theirs is looked for.
    large: bool,
    waiting: usize,
    counts: HartCounts,
}

impl Model for Hart {
    ghost use Rattle.xl_hart_model.specs.Harts.{Hart as HartState};

    ghost Value = { HartState };

    ghost view = { λ h. record {
      space = h.space;
      array = h.array;
      waiting = h.waiting;
      counts = h.counts;
    } };

    ghost use Rattle.xl_array.specs.Held.{Smalls};

    ghost invariant = { λ h. Smalls h.large h.array.sets };
}

/// Fills an array with what a walk found. `large` is whether it may hold leaves above 4 KiB.
fn fill_found(array: &mut Array<8>, large: &mut bool, found: Option<Leaf>)
    requires { IfSome found IsFit }
    ensures array { array.new ≡ array_walked found array.old }
    ensures smalls { Smalls large.old array.old.sets → Smalls large.new array.new.sets }
{
    if let Some(leaf) = found {
        array.fill(leaf);
        *large = with_order(*large, leaf.order);
    }
}

/// Drops the leaf before a request, if there is one, and gives how many entries left.
fn drop_before(array: &mut Array<8>, before: Option<Leaf>) -> u64
    requires { IfSome before IsFit }
    ensures array { array.new ≡ array_fenced before array.old }
    ensures left { result + leaves_in_sets array.new.sets ≡ leaves_in_sets array.old.sets }
{
    match before {
        Some(leaf) => array.drop_equal(leaf),
        None => 0,
    }
}

impl Hart {
    /// A hart in space 0, whose array and queue are empty.
    pub fn open(alloc: Global, spec: &HartSpec) -> Result<Hart, NoMemory>
        requires { 1 ≤ spec.now.sets }
        ensures { IfOk result (λ hart. hart ≡ opening_hart spec.now) }
    {
        let array = Array::open(
            alloc,
            TlbSpec {
                level: 1,
                sets: spec.sets,
                width: 8,
                k4: true,
                m2: true,
                g1: true,
                serves: Serves::All,
            },
        )?;
        Ok(Hart {
            space: 0,
            array,
            large: false,
            waiting: 0,
            counts: HartCounts::none(),
        })
    }

    /// The current space.
    pub fn space(&self) -> u16
        ensures { result ≡ self.now.space }
    {
        self.space
    }

    /// How many requests are in the queue.
    pub fn waiting(&self) -> usize
        ensures { result ≡ self.now.waiting }
    {
        self.waiting
    }

    /// The counts so far.
    pub fn counts(&self) -> HartCounts
        ensures { result ≡ self.now.counts }
    {
        self.counts
    }

    /// Looks for a page of the current space in the array: the word of the page in the newest leaf
    /// that covers it, which counts a hit.
    pub fn look(&mut self, page: u64) -> Option<u64>
        requires space { self.old.space < 64 }
        requires page { page < 2 ^ 52 }
        ensures some { IfSome result (λ word. IsSeen page word self.old self.new) }
        ensures none { IfNone result (IsUnseen page self.old self.new) }
    {
        let word = self.array.look_page(self.space, page, self.large)?;
        self.counts.hit();
        Some(word)
    }

    /// Fills the array with the leaf of 4 KiB with this word, which a walk of `loads` loads found.
    pub fn fill_small(&mut self, page: u64, word: u64, loads: u64)
        requires space { self.old.space < 64 }
        requires page { page < 2 ^ 52 }
        ensures { self.new ≡ hart_filled (Some (small_leaf self.old.space page word)) loads
            self.old }
    {
        let order = Order::K4;
        self.array.fill_hit(self.space, page, Hit { word, order });
        self.counts.miss(loads);
    }

    /// Fills the array with what a walk of `loads` loads found.
    pub fn fill(&mut self, found: Option<Leaf>, loads: u64)
        requires { IfSome found IsFit }
        ensures { self.new ≡ hart_filled found loads self.old }
    {
        fill_found(&mut self.array, &mut self.large, found);
        self.counts.miss(loads);
    }

    /// Counts an access by its reply.
    pub fn reply(&mut self, reply: Reply, va: u64)
        requires { IsSmall reply }
        ensures { self.new ≡ hart_replied reply va self.old }
    {
        self.counts.reply(reply, va);
    }

    /// Makes a space the current one.
    pub fn switch(&mut self, space: u16)
        ensures { self.new ≡ record self.old { space = space } }
    {
        self.space = space;
    }

    /// Puts a request more into the queue.
    pub fn ask(&mut self)
        requires { self.old.waiting < 2 ^ 63 }
        ensures { self.new ≡ hart_asked self.old }
    {
        self.waiting += 1;
    }

    /// Takes a request, the oldest of the queue: the leaf before it leaves the array.
    pub fn fence(&mut self, request: Request)
        requires some { 0 < self.old.waiting }
        requires fit { IfSome request.before IsFit }
        ensures { self.new ≡ hart_fenced request self.old }
    {
        let left = drop_before(&mut self.array, request.before);
        self.counts.take(left);
        self.waiting -= 1;
    }
}
