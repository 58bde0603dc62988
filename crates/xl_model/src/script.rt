//! The lines of a script, and the items of a script and a trace.

use crate::address::{Kind, Order};
use crate::event::{Event, Scope};
use crate::perm::Perm;

/// An area whose pages are mapped on demand: an access to one of them that no leaf covers is
/// followed by a map of a leaf of `order` with `perm`. Its pages are the `pages` pages of 4 KiB
/// from `page` on, numbered by address / 4096.
#[derive(Clone, Copy)]
pub struct Area {
    pub space: u16,
    pub page: u64,
    pub pages: u64,
    pub order: Order,
    pub perm: Perm,
}

/// A line of a script. With `n` it is `n` events, whose blocks follow one another from the address
/// on.
#[derive(Clone, Copy)]
pub enum Command {
    Map {
        space: u16,
        va: u64,
        order: Order,
        perm: Perm,
        n: u32,
    },
    Unmap {
        space: u16,
        va: u64,
        order: Order,
        n: u32,
    },
    Protect {
        space: u16,
        va: u64,
        order: Order,
        perm: Perm,
        n: u32,
    },
    Move {
        space: u16,
        from: u64,
        to: u64,
        order: Order,
        n: u32,
    },
    Space {
        space: u16,
    },
    Fence {
        scope: Scope,
    },
    Demand {
        area: Area,
    },
    /// Replays the next `n` records of the trace, or as many as are left.
    Run {
        n: u64,
    },
    /// Replays all records that are left.
    RunRest,
}

/// What a row is served: an event of a command, an area, or an access with the number of its
/// record.
#[derive(Clone, Copy)]
pub enum Item {
    Command(Event),
    Declared(Area),
    Referenced { number: u64, va: u64, kind: Kind },
}
