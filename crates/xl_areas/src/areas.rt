//! The areas.

ghost use Rattle.std.specs.Prelude.{◌≡◌, ◌<◌, ◌++◌, [], ◌∷◌, length, IfOk};
ghost use Rattle.xl_model.specs.Items.{area_for};

use crate::bounds::{Bound, add_later, answer, cut, end_of, key_of};
use std::alloc::Global;
use std::marker::Model;
use xl_model::{Area, NoMemory};

/// The most areas of a script.
const MOST: usize = 256;

/// The areas that a script declared so far, at most 256, and their index. Contracts see the areas,
/// in the order in which they were declared.
#[derive(Drop)]
pub struct Areas {
    areas: Vec<Area>,
    bounds: Vec<Bound>,
}

impl Model for Areas {
    ghost use Rattle.std.specs.Prelude.{List, ◌≤◌};
    ghost use Rattle.std.specs.Vec.{vec_capacity};
    ghost use Rattle.xl_model.specs.declared.script.Area.{Area};
    ghost use Rattle.xl_areas.specs.Kept.{AreKept};

    ghost Value = { List Area };

    ghost view = { λ a. a.areas.items };

    ghost invariant = { λ a. AreKept a.areas a.bounds };
}

impl Areas {
    /// No areas. All memory that they want is taken here.
    ///
    /// # Errors
    ///
    /// `NoMemory` where there is no memory.
    pub fn open(alloc: Global) -> Result<Areas, NoMemory>
        ensures { IfOk result (λ a. a ≡ []) }
    {
        Ok(Areas {
            areas: Vec::with_capacity(alloc, MOST)?,
            bounds: Vec::with_capacity(alloc, 2 * MOST)?,
        })
    }

    /// The first area of the space that has the address's page.
    pub fn find(&self, space: u16, va: u64) -> Option<Area>
        ensures { result ≡ area_for space va self.now }
    {
        answer(self.bounds.as_slice(), key_of(space, va / 4096))
    }

    /// Declares an area.
    pub fn declare(&mut self, area: Area)
        requires { length self.old < 256 }
        ensures { self.new ≡ self.old ++ area ∷ [] }
    {
        cut(&mut self.bounds, key_of(area.space, area.page));
        cut(&mut self.bounds, end_of(&area));
        add_later(&mut self.bounds, &area);
        self.areas.push(area).unwrap();
    }
}
