//! Counting, modulo 2^64.

ghost use Rattle.std.specs.Prelude.{◌≡◌, ◌<◌, ◌^◌};
ghost use Rattle.xl_model.specs.Tally.{IsSmall, no_counts, refusal_place, count_refusal, count_reply, count_walk, count_fills, count_work, count_accepted, count_invalidated, count_fence};

use crate::event::Refusal;
use crate::leaf::Reply;
use crate::row::Counts;
use crate::work::Work;

impl Refusal {
    /// The place of the refusal among the nine, from 0; its number is one more.
    pub fn place(&self) -> usize
        ensures value { result ≡ refusal_place self.now }
        ensures within { result < 9 }
    {
        match self {
            Refusal::BadSpace => 0,
            Refusal::NotCanonical => 1,
            Refusal::Misaligned => 2,
            Refusal::Unmapped => 3,
            Refusal::WrongSize => 4,
            Refusal::Overlap => 5,
            Refusal::NoFrames => 6,
            Refusal::NoTable => 7,
            Refusal::WayAtCap => 8,
        }
    }
}

impl Counts {
    /// All counts 0, for a row with this number of TLB arrays.
    #[tactic(auto, unfolding(crate::specs::Tally::no_counts))]
    pub fn none(arrays: usize) -> Counts
        ensures { result ≡ no_counts arrays }
    {
        Counts {
            accesses: 0,
            ok: 0,
            unmapped: 0,
            denied: 0,
            not_canonical: 0,
            accepted: 0,
            refused: [0; 9],
            walks: 0,
            reads: 0,
            wc_hits: 0,
            fills: 0,
            kicks: 0,
            undone: 0,
            migrated: 0,
            growths: 0,
            fences: 0,
            invalidated: 0,
            pasum: 0,
            arrays,
            hits: [0; 6],
            misses: [0; 6],
        }
    }

    /// Counts a refused command.
    #[tactic(auto, unfolding(crate::specs::Tally::count_refusal))]
    pub fn refuse(&mut self, refusal: Refusal)
        ensures { self.new ≡ count_refusal refusal self.old }
    {
        let place = refusal.place();
        self.refused[place] = self.refused[place].wrapping_add(1);
    }

    /// Counts an access by its reply; of one that is served, adds the physical address to `pasum`.
    /// A frame is below 2^52.
    #[tactic(auto, unfolding(crate::specs::Tally::count_reply))]
    pub fn reply(&mut self, reply: Reply, va: u64)
        requires { IsSmall reply }
        ensures { self.new ≡ count_reply reply va self.old }
    {
        self.accesses = self.accesses.wrapping_add(1);
        match reply {
            Reply::Frame(frame) => {
                self.ok = self.ok.wrapping_add(1);
                self.pasum = self.pasum.wrapping_add(frame * 4096 + va % 4096);
            }
            Reply::NotCanonical => self.not_canonical = self.not_canonical.wrapping_add(1),
            Reply::Unmapped => self.unmapped = self.unmapped.wrapping_add(1),
            Reply::Denied => self.denied = self.denied.wrapping_add(1),
        }
    }

    /// Counts a walk with its loads and its hits of walk caches.
    #[tactic(auto, unfolding(crate::specs::Tally::count_walk))]
    pub fn walk(&mut self, reads: u64, cache_hits: u64)
        ensures { self.new ≡ count_walk reads cache_hits self.old }
    {
        self.walks = self.walks.wrapping_add(1);
        self.reads = self.reads.wrapping_add(reads);
        self.wc_hits = self.wc_hits.wrapping_add(cache_hits);
    }

    /// Counts fills of TLB arrays.
    #[tactic(auto, unfolding(crate::specs::Tally::count_fills))]
    pub fn fill(&mut self, fills: u64)
        ensures { self.new ≡ count_fills fills self.old }
    {
        self.fills = self.fills.wrapping_add(fills);
    }

    /// Counts what a command did in the table.
    #[tactic(auto, unfolding(crate::specs::Tally::count_work))]
    pub fn work(&mut self, work: Work)
        ensures { self.new ≡ count_work work self.old }
    {
        self.kicks = self.kicks.wrapping_add(work.kicks);
        self.undone = self.undone.wrapping_add(work.undone);
        self.migrated = self.migrated.wrapping_add(work.migrated);
        self.growths = self.growths.wrapping_add(work.growths);
        self.invalidated = self.invalidated.wrapping_add(work.invalidated);
    }

    /// Counts a command that is done.
    #[tactic(auto, unfolding(crate::specs::Tally::count_accepted))]
    pub fn accept(&mut self)
        ensures { self.new ≡ count_accepted self.old }
    {
        self.accepted = self.accepted.wrapping_add(1);
    }

    /// Counts entries invalidated in the arrays and walk caches.
    #[tactic(auto, unfolding(crate::specs::Tally::count_invalidated))]
    pub fn invalidate(&mut self, entries: u64)
        ensures { self.new ≡ count_invalidated entries self.old }
    {
        self.invalidated = self.invalidated.wrapping_add(entries);
    }

    /// Counts a fence that is done.
    #[tactic(auto, unfolding(crate::specs::Tally::count_fence))]
    pub fn fence(&mut self)
        ensures { self.new ≡ count_fence self.old }
    {
        self.fences = self.fences.wrapping_add(1);
    }
}
