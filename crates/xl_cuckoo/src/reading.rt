//! What the ways hold of a key.

ghost use Rattle.std.specs.Prelude.{◌≡◌, ◌<◌, length, IfSome};
ghost use Rattle.xl_model.specs.Placing.{holder_from};
ghost use Rattle.xl_way.specs.Slots.{word_of};
ghost use Rattle.xl_cuckoo.specs.State.{state_at, shapes};
ghost use Rattle.xl_cuckoo.specs.Table.{value_of};

use xl_way::Way;

/// The word that some way keeps for a key.
#[inline(always)]
pub(crate) fn value(ways: &[Way], key: u64) -> Option<u64>
    ensures { result ≡ value_of key (shapes ways.now) }
{
    for way in ways {
        if let Some(word) = way.get(key) {
            return Some(word);
        }
    }
    None
}

/// The number of the way that holds a key.
pub(crate) fn holder(ways: &[Way], key: u64) -> Option<usize>
    ensures is { result ≡ holder_from 0 (shapes ways.now) key }
    ensures inside { IfSome result (λ at. at < length ways.now) }
{
    for (at, way) in ways.iter().enumerate() {
        if way.get(key).is_some() {
            return Some(at);
        }
    }
    None
}

/// The word that one way keeps for a key.
#[inline(always)]
pub(crate) fn value_at(ways: &[Way], at: usize, key: u64) -> Option<u64>
    requires { at < length ways.now }
    ensures { result ≡ word_of key (state_at ways.now at).shape.entries }
{
    let way = &ways[at];
    way.get(key)
}
