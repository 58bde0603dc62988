//! The map that a demand area demands.

ghost use Rattle.std.specs.Prelude.{◌≡◌};
ghost use Rattle.xl_model.specs.Items.{map_of};

use xl_model::{Area, Event};

/// The map that an area demands for an address.
pub fn map_for(area: Area, va: u64) -> Event
    ensures { result ≡ map_of area va }
{
    let bytes = area.order.bytes();
    Event::Map {
        space: area.space,
        va: va / bytes * bytes,
        order: area.order,
        perm: area.perm,
    }
}
