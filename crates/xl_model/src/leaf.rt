//! Leaves of a mapping, ranges of leaves, and the reply to an access.

ghost use Rattle.std.specs.Prelude.{◌≡◌};

use crate::address::Order;
use crate::perm::Perm;

/// A leaf of a mapping: the pages of `space` (the ASID) from `first` (a VPN) on, as many as `order`
/// (the page size) says, are in as many data frames from `frame` (a PPN) on.
#[derive(Clone, Copy)]
pub struct Leaf {
    pub space: u16,
    pub first: u64,
    pub order: Order,
    pub frame: u64,
    pub perm: Perm,
}

impl Leaf {
    /// The same leaf, put together field by field, for a leaf that a call returned: it then needn't
    /// be in memory where it joins one from elsewhere.
    #[inline(always)]
    pub fn by_fields(self) -> Leaf
        ensures { result ≡ self }
    {
        Leaf {
            space: self.space,
            first: self.first,
            order: self.order,
            frame: self.frame,
            perm: self.perm,
        }
    }
}

/// A run of leaves of one space, order and permission, consecutive in pages and in frames
/// (Karakostas and others, 2015).
#[derive(Clone, Copy)]
pub struct Range {
    pub space: u16,
    pub start: u64,
    pub pages: u64,
    pub frame: u64,
    pub order: Order,
    pub perm: Perm,
}

/// The reply to an access: the data frame of its page, or why there is none.
#[derive(Clone, Copy)]
pub enum Reply {
    Frame(u64),
    NotCanonical,
    Unmapped,
    Denied,
}
