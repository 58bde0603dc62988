//! Several harts that share one table: their limits, their events, their requests and their counts.

use xl_model::{Event, Leaf, Refusal, Reply};

/// The limits of harts over one Sv39 radix table: how many harts there are, how many requests a
/// queue holds, the data frames, the table's nodes, the spaces, and the sets of each hart's TLB
/// array.
#[derive(Clone, Copy)]
pub struct HartSpec {
    pub harts: u16,
    pub queue: u16,
    pub frames: u32,
    pub nodes: u32,
    pub spaces: u16,
    pub sets: u32,
}

/// One step of harts: another one becomes the current one, one takes the oldest request of its
/// queue, or the current one is served an event.
#[derive(Clone, Copy)]
pub enum HartEvent {
    Hart { hart: u16 },
    Take { hart: u16 },
    Own { event: Event },
}

/// Why an event of harts is refused: as an event of a row (1 to 8), or by the queues and harts (10
/// to 12).
#[derive(Clone, Copy)]
pub enum HartRefusal {
    Mapping(Refusal),
    QueueFull,
    NothingToTake,
    BadHart,
}

/// The result of an event of harts.
#[derive(Clone, Copy)]
pub enum HartOutcome {
    Replied(Reply),
    Done,
    Refused(HartRefusal),
}

/// A request of a remote fence (a TLB shootdown): the leaf as it was before a command, and as it is
/// after it.
#[derive(Clone, Copy)]
pub struct Request {
    pub before: Option<Leaf>,
    pub after: Option<Leaf>,
}

/// The counts of a hart.
#[derive(Clone, Copy)]
pub struct HartCounts {
    pub accesses: u64,
    pub ok: u64,
    pub unmapped: u64,
    pub denied: u64,
    pub not_canonical: u64,
    pub hits: u64,
    pub misses: u64,
    pub reads: u64,
    pub taken: u64,
    pub invalidated: u64,
    pub pasum: u64,
}

/// The counts of all harts together: commands that were done, refusals by their numbers, requests
/// in all queues, and frames held back.
#[derive(Clone, Copy)]
pub struct AllCounts {
    pub accepted: u64,
    pub refused: [u64; 12],
    pub waiting: u64,
    pub held: u64,
}
