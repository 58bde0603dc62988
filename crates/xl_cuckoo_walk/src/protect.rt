//! Leaves that get another permission.

ghost use Rattle.std.specs.Prelude.{◌≡◌};
ghost use Rattle.xl_model.specs.Changes.{Protect, IsNamed};
ghost use Rattle.xl_model.specs.Structures.{IsChange};
ghost use Rattle.xl_cuckoo_walk.specs.Parts.{IsRow, row_state};

use crate::parts::Parts;
use crate::tables::{reword, word_in};
use xl_model::{Order, Perm, Refused, Work};
use xl_pte::words_read_back;
use xl_sections::section;
use xl_tagged::give_perm;

/// Gives a leaf that is there another permission. Sections have no permissions, so none leaves the
/// caches.
pub(crate) fn protect_leaf<const D: usize>(
    parts: &mut Parts<D>,
    space: u16,
    first: u64,
    order: Order,
    perm: Perm,
) -> Result<Work, Refused>
    requires whole { IsRow parts.old }
    requires named { IsNamed space first order (row_state parts.old).leaves }
    ensures whole { IsRow parts.new }
    ensures changes { IsChange (Protect space first order perm) (row_state parts.old) result
        (row_state parts.new) }
{
    words_read_back();
    let key = section(space, first, order);
    match word_in(parts, order, key) {
        None => unreachable!(),
        Some(word) => {
            reword(parts, order, key, give_perm(word, perm));
            Ok(Work::none())
        }
    }
}
