//! What an access of an address looks for.

ghost use Rattle.std.specs.Prelude.{◌≡◌, true, IfSome};
ghost use Rattle.xl_model.specs.Addresses.{is_canonical, page_of};
ghost use Rattle.xl_model.specs.Mapping.{leaf_at_page};
ghost use Rattle.xl_array.specs.Arrays.{IsFit};

use crate::machine::Machine;
use xl_model::{Leaf, Structure};

impl<S: Structure> Machine<S> {
    /// Whether an address is canonical in the row's mode.
    #[inline(always)]
    pub fn is_canonical(&self, va: u64) -> bool
        ensures { result ≡ is_canonical self.now.row.mode va }
    {
        self.span.canonical(va)
    }

    /// The page of an address.
    #[inline(always)]
    pub fn page_of(&self, va: u64) -> u64
        ensures { result ≡ page_of self.now.row.mode va }
    {
        self.span.page_of(va)
    }

    /// The leaf that covers the page of an address in the current space.
    #[inline(always)]
    pub fn covering(&self, va: u64) -> Option<Leaf>
        ensures leaf { result ≡ leaf_at_page self.now.state.space
            (page_of self.now.row.mode va) self.now.state.table.leaves }
        ensures fit { IfSome result IsFit }
    {
        let page = self.span.page_of(va);
        self.table.leaf_at(self.space, page)
    }
}
