//! Words changed, and keys taken out.

ghost use Rattle.std.specs.Prelude.{◌≡◌, ◌<◌, true, length, map, slice_set, IsSome};
ghost use Rattle.xl_model.specs.Ways.{with_word, without_entry};
ghost use Rattle.xl_model.specs.Placing.{is_held};
ghost use Rattle.xl_cuckoo.specs.State.{state_at, shapes, changed_by};
ghost use Rattle.xl_cuckoo.specs.Table.{value_of, AreOnce};

use crate::reading::holder;
use xl_way::Way;

/// Keeps another word for a key that one way holds.
fn set_word_at(ways: &mut [Way], at: usize, key: u64, word: u64)
    requires within { at < length ways.old }
    requires held { is_held (state_at ways.old at).shape key ≡ true }
    requires some { 0 < word }
    ensures { ways.new
        ≡ slice_set ways.old at (changed_by (with_word key word) (state_at ways.old at)) }
{
    let way = &mut ways[at];
    way.set_word(key, word);
}

/// Takes a key out of the way that holds it.
fn clear_at(ways: &mut [Way], at: usize, key: u64)
    requires within { at < length ways.old }
    requires held { is_held (state_at ways.old at).shape key ≡ true }
    ensures { ways.new
        ≡ slice_set ways.old at (changed_by (without_entry key) (state_at ways.old at)) }
{
    let way = &mut ways[at];
    way.clear(key);
}

/// Keeps another word for a key that is held.
pub(crate) fn set_word(ways: &mut [Way], key: u64, word: u64)
    requires held { IsSome (value_of key (shapes ways.old)) }
    requires once { AreOnce (shapes ways.old) }
    requires some { 0 < word }
    ensures { ways.new ≡ map (changed_by (with_word key word)) ways.old }
{
    match holder(ways, key) {
        Some(at) => set_word_at(ways, at, key, word),
        None => unreachable!(),
    }
}

/// Takes out a key that is held.
pub(crate) fn remove(ways: &mut [Way], key: u64)
    requires held { IsSome (value_of key (shapes ways.old)) }
    requires once { AreOnce (shapes ways.old) }
    ensures { ways.new ≡ map (changed_by (without_entry key)) ways.old }
{
    match holder(ways, key) {
        Some(at) => clear_at(ways, at, key),
        None => unreachable!(),
    }
}
