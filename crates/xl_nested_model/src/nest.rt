//! A guest over a host: the events that they serve, and the outcomes.

use xl_model::{Kind, Order, Perm};

/// The sizes of a guest with tables of its own and of the host below it. Node n of the guest's
/// table lies in guest page `base + n`.
#[derive(Clone, Copy)]
pub struct Nest {
    /// The guest page of the guest's first node.
    pub base: u64,
    /// The most nodes that the guest's table can have, 1 to 16384.
    pub nodes: u32,
    /// The host's data frames, 1 to 4194304.
    pub frames: u32,
    /// The most nodes that the host's table can have, its four roots among them, 4 to 16384.
    pub g_nodes: u32,
    /// The width of the G cache, a recency list of leaves of the host's table.
    pub g_cache: u8,
}

/// One event: an access of the guest, or a command of one leaf. `GMap` and `GUnmap` change the
/// host's table, the G-stage; `VMap` and `VUnmap` change the guest's, the VS-stage.
#[derive(Clone, Copy)]
pub enum NestEvent {
    Access {
        va: u64,
        kind: Kind,
    },
    GMap {
        gaddr: u64,
        order: Order,
        perm: Perm,
    },
    GUnmap {
        gaddr: u64,
        order: Order,
    },
    VMap {
        va: u64,
        order: Order,
        gaddr: u64,
        perm: Perm,
    },
    VUnmap {
        va: u64,
        order: Order,
    },
}

/// The reply to an access: the host's frame of its page, a page fault of the VS-stage, or a
/// guest-page fault of the G-stage.
#[derive(Clone, Copy)]
pub enum NestReply {
    Frame(u64),
    PageFault,
    GuestFault,
}

/// Why a command is refused: 1 to 6 in this order, in which they are tested.
#[derive(Clone, Copy)]
pub enum NestRefusal {
    /// The virtual address isn't canonical in Sv39, or the guest physical address has more than 41
    /// bits.
    BadAddress,
    /// An address isn't a multiple of the leaf's size.
    Misaligned,
    /// An unmap, and no leaf has exactly this first page and size.
    Absent,
    /// A map, and a leaf of the same stage has a page of the block.
    Overlap,
    /// A map at the host, and no aligned block of its frames is free.
    NoFrames,
    /// A map, and the stage's table has too few nodes left.
    NoTable,
}

/// The outcome of an event: an access has a reply, a command is done or refused.
#[derive(Clone, Copy)]
pub enum NestOutcome {
    Replied(NestReply),
    Done,
    Refused(NestRefusal),
}

/// The counts, each modulo 2^64.
#[derive(Clone, Copy)]
pub struct NestCounts {
    pub accesses: u64,
    pub ok: u64,
    pub page_faults: u64,
    pub guest_faults: u64,
    pub accepted: u64,
    /// The refused commands, by the refusal's place.
    pub refused: [u64; 6],
    /// The loads of both tables.
    pub reads: u64,
    /// The hits of the G cache.
    pub hits: u64,
    /// The sum of the host's physical addresses of the accesses that were served.
    pub pasum: u64,
}
