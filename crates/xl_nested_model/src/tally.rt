//! Counting of a guest over a host, modulo 2^64.

ghost use Rattle.std.specs.Prelude.{◌≡◌, ◌<◌};
ghost use Rattle.xl_nested_model.specs.Tally.{IsSmallNest, no_nest_counts, nest_place, count_nest_refusal, count_nest_reply, count_nest_accepted};

use crate::nest::{NestCounts, NestRefusal, NestReply};

impl NestRefusal {
    /// The place of the refusal among the six, from 0; its number is one more.
    pub fn place(&self) -> usize
        ensures value { result ≡ nest_place self.now }
        ensures within { result < 6 }
    {
        match self {
            NestRefusal::BadAddress => 0,
            NestRefusal::Misaligned => 1,
            NestRefusal::Absent => 2,
            NestRefusal::Overlap => 3,
            NestRefusal::NoFrames => 4,
            NestRefusal::NoTable => 5,
        }
    }
}

impl NestCounts {
    /// All counts 0.
    #[tactic(auto, unfolding(crate::specs::Tally::no_nest_counts))]
    pub fn none() -> NestCounts
        ensures { result ≡ no_nest_counts }
    {
        NestCounts {
            accesses: 0,
            ok: 0,
            page_faults: 0,
            guest_faults: 0,
            accepted: 0,
            refused: [0; 6],
            reads: 0,
            hits: 0,
            pasum: 0,
        }
    }

    /// Counts a refused command.
    #[tactic(auto, unfolding(crate::specs::Tally::count_nest_refusal))]
    pub fn refuse(&mut self, refusal: NestRefusal)
        ensures { self.new ≡ count_nest_refusal refusal self.old }
    {
        let place = refusal.place();
        self.refused[place] = self.refused[place].wrapping_add(1);
    }

    /// Counts an access by its reply, and adds the physical address of one that was served to
    /// `pasum`.
    #[tactic(auto, unfolding(crate::specs::Tally::count_nest_reply))]
    pub fn reply(&mut self, reply: NestReply, va: u64)
        requires { IsSmallNest reply }
        ensures { self.new ≡ count_nest_reply reply va self.old }
    {
        self.accesses = self.accesses.wrapping_add(1);
        match reply {
            NestReply::Frame(frame) => {
                self.ok = self.ok.wrapping_add(1);
                self.pasum = self.pasum.wrapping_add(frame * 4096 + va % 4096);
            }
            NestReply::PageFault => self.page_faults = self.page_faults.wrapping_add(1),
            NestReply::GuestFault => self.guest_faults = self.guest_faults.wrapping_add(1),
        }
    }

    /// Counts a command that was done.
    #[tactic(auto, unfolding(crate::specs::Tally::count_nest_accepted))]
    pub fn accept(&mut self)
        ensures { self.new ≡ count_nest_accepted self.old }
    {
        self.accepted = self.accepted.wrapping_add(1);
    }
}
