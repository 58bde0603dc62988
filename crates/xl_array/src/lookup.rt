//! What is looked for in an array.

ghost use Rattle.std.specs.Prelude.{◌≡◌, ◌<◌, ◌^◌};
ghost use Rattle.xl_array.specs.Lookup.{IsLookup};

use crate::coding::tag_of;
use xl_model::Order;

/// A page of a space that is looked for, with the tag of its leaf of an order, so that all arrays
/// are asked with one tag.
#[derive(Clone, Copy)]
pub struct Lookup {
    pub space: u16,
    pub page: u64,
    pub tag: u64,
}

impl Lookup {
    /// The page with the tag of its leaf of the order.
    #[inline(always)]
    pub fn of(space: u16, page: u64, order: Order) -> Lookup
        requires space { space < 64 }
        requires page { page < 2 ^ 52 }
        ensures lookup { IsLookup order result }
        ensures space { result.space ≡ space }
        ensures page { result.page ≡ page }
    {
        Lookup {
            space,
            page,
            tag: tag_of(space, page, order),
        }
    }
}
