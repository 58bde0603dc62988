//! The table of an order.

ghost use Rattle.std.specs.Prelude.{◌≡◌, ◌<◌, length, IfOk, IfErr, IsSome, None};
ghost use Rattle.xl_model.specs.Shapes.{ways_of};
ghost use Rattle.xl_cuckoo.specs.Table.{value_of};
ghost use Rattle.xl_cuckoo_walk.specs.Parts.{ways_in, table_of};
ghost use Rattle.xl_cuckoo_walk.specs.Changes.{with_word_in, without_key_in, with_put_in, IsPut, IsCapped};

use crate::parts::Parts;
use xl_cuckoo::WayAtCap;
use xl_model::{Moves, Order};

/// The word that the table of an order keeps for a key.
pub(crate) fn word_in<const D: usize>(parts: &Parts<D>, order: Order, key: u64) -> Option<u64>
    ensures { result ≡ value_of key (ways_of order (ways_in parts.now)) }
{
    match order {
        Order::K4 => parts.k4.get(key),
        Order::M2 => parts.m2.get(key),
        Order::G1 => parts.g1.get(key),
    }
}

/// Keeps another word for a key that the table of an order holds.
pub(crate) fn reword<const D: usize>(parts: &mut Parts<D>, order: Order, key: u64, word: u64)
    requires held { IsSome (value_of key (table_of order parts.old).ways) }
    requires some { 0 < word }
    ensures { parts.new ≡ with_word_in order key word parts.old }
{
    match order {
        Order::K4 => parts.k4.set_word(key, word),
        Order::M2 => parts.m2.set_word(key, word),
        Order::G1 => parts.g1.set_word(key, word),
    }
}

/// Takes a key out of the table of an order, which holds it.
pub(crate) fn take<const D: usize>(parts: &mut Parts<D>, order: Order, key: u64)
    requires { IsSome (value_of key (table_of order parts.old).ways) }
    ensures { parts.new ≡ without_key_in order key parts.old }
{
    match order {
        Order::K4 => parts.k4.remove(key),
        Order::M2 => parts.m2.remove(key),
        Order::G1 => parts.g1.remove(key),
    }
}

/// Inserts a key into the table of an order, which doesn't hold it.
pub(crate) fn put<const D: usize>(
    parts: &mut Parts<D>,
    order: Order,
    key: u64,
    word: u64,
) -> Result<Moves, WayAtCap>
    requires free { value_of key (table_of order parts.old).ways ≡ None }
    requires some { 0 < word }
    ensures ok { IfOk result (λ m. IsPut order (record { key = key; word = word })
        parts.old parts.new m) }
    ensures err { IfErr result (λ e. IsCapped order (record { key = key; word = word })
        parts.old parts.new e.moves) }
    ensures same { parts.new ≡ with_put_in order (table_of order parts.new) parts.old }
    ensures width { length (table_of order parts.new).ways
        ≡ length (table_of order parts.old).ways }
{
    match order {
        Order::K4 => parts.k4.insert(key, word),
        Order::M2 => parts.m2.insert(key, word),
        Order::G1 => parts.g1.insert(key, word),
    }
}
