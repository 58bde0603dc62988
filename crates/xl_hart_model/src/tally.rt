//! Counting of harts, modulo 2^64.

ghost use Rattle.std.specs.Prelude.{◌≡◌, ◌<◌};
ghost use Rattle.xl_hart_model.specs.Tally.{no_hart_counts, hart_refusal_place, count_hart_reply, count_hit, count_miss, count_taken};
ghost use Rattle.xl_model.specs.Tally.{IsSmall};

use crate::hart::{HartCounts, HartRefusal};
use xl_model::Reply;

impl HartRefusal {
    /// The place of the refusal among the twelve, from 0; its number is one more.
    pub fn place(&self) -> usize
        ensures value { result ≡ hart_refusal_place self.now }
        ensures within { result < 12 }
    {
        match self {
            HartRefusal::Mapping(refusal) => refusal.place(),
            HartRefusal::QueueFull => 9,
            HartRefusal::NothingToTake => 10,
            HartRefusal::BadHart => 11,
        }
    }
}

impl HartCounts {
    /// All counts 0.
    #[tactic(auto, unfolding(crate::specs::Tally::no_hart_counts))]
    pub fn none() -> HartCounts
        ensures { result ≡ no_hart_counts }
    {
        HartCounts {
            accesses: 0,
            ok: 0,
            unmapped: 0,
            denied: 0,
            not_canonical: 0,
            hits: 0,
            misses: 0,
            reads: 0,
            taken: 0,
            invalidated: 0,
            pasum: 0,
        }
    }

    /// Counts an access by its reply; of one that is served, adds the physical address to `pasum`.
    /// A frame is below 2^52.
    #[tactic(auto, unfolding(crate::specs::Tally::count_hart_reply))]
    pub fn reply(&mut self, reply: Reply, va: u64)
        requires { IsSmall reply }
        ensures { self.new ≡ count_hart_reply reply va self.old }
    {
        self.accesses = self.accesses.wrapping_add(1);
        match reply {
            Reply::Frame(frame) => {
                self.ok = self.ok.wrapping_add(1);
                self.pasum = self.pasum.wrapping_add(frame * 4096 + va % 4096);
            }
            Reply::NotCanonical => self.not_canonical = self.not_canonical.wrapping_add(1),
            Reply::Unmapped => self.unmapped = self.unmapped.wrapping_add(1),
            Reply::Denied => self.denied = self.denied.wrapping_add(1),
        }
    }

    /// Counts a hit of the array.
    #[tactic(auto, unfolding(crate::specs::Tally::count_hit))]
    pub fn hit(&mut self)
        ensures { self.new ≡ count_hit self.old }
    {
        self.hits = self.hits.wrapping_add(1);
    }

    /// Counts a miss of the array, with the loads of the walk.
    #[tactic(auto, unfolding(crate::specs::Tally::count_miss))]
    pub fn miss(&mut self, loads: u64)
        ensures { self.new ≡ count_miss loads self.old }
    {
        self.misses = self.misses.wrapping_add(1);
        self.reads = self.reads.wrapping_add(loads);
    }

    /// Counts a request that was taken, with the entries that left the array.
    #[tactic(auto, unfolding(crate::specs::Tally::count_taken))]
    pub fn take(&mut self, left: u64)
        ensures { self.new ≡ count_taken left self.old }
    {
        self.taken = self.taken.wrapping_add(1);
        self.invalidated = self.invalidated.wrapping_add(left);
    }
}
