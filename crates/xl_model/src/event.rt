//! The events that a row is served, and their outcomes.

use crate::address::{Kind, Order};
use crate::leaf::Reply;
use crate::perm::Perm;

/// What a fence reaches, by address (the four scopes of SFENCE.VMA, RISC-V Privileged manual).
#[derive(Clone, Copy)]
pub enum Scope {
    All,
    Space { space: u16 },
    Addr { va: u64 },
    Page { space: u16, va: u64 },
}

/// What a fence reaches, by page.
#[derive(Clone, Copy)]
pub enum Reach {
    All,
    Space { space: u16 },
    Addr { page: u64 },
    Page { space: u16, page: u64 },
}

/// One step of a row: an access of the current space, or a command of one leaf.
#[derive(Clone, Copy)]
pub enum Event {
    Access {
        va: u64,
        kind: Kind,
    },
    Map {
        space: u16,
        va: u64,
        order: Order,
        perm: Perm,
    },
    Unmap {
        space: u16,
        va: u64,
        order: Order,
    },
    Protect {
        space: u16,
        va: u64,
        order: Order,
        perm: Perm,
    },
    Move {
        space: u16,
        from: u64,
        to: u64,
        order: Order,
    },
    Space {
        space: u16,
    },
    Fence {
        scope: Scope,
    },
}

/// Why a command is refused, numbered from 1 in this order, which is also the order in which they
/// are tested.
#[derive(Clone, Copy)]
pub enum Refusal {
    BadSpace,
    NotCanonical,
    Misaligned,
    Unmapped,
    WrongSize,
    Overlap,
    NoFrames,
    NoTable,
    WayAtCap,
}

/// The result of an event: an access has a reply, a command is done or refused.
#[derive(Clone, Copy)]
pub enum Outcome {
    Replied(Reply),
    Done,
    Refused(Refusal),
}
