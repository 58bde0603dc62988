//! One way of several.

ghost use Rattle.std.specs.Prelude.{◌≡◌, ◌↔◌, ◌<◌, ◌≤◌, IsTrue, length, IfSome, Some, None};
ghost use Rattle.xl_model.specs.Ways.{occupant};
ghost use Rattle.xl_model.specs.Placing.{next_way};
ghost use Rattle.xl_cuckoo.specs.State.{state_at, put_at};
ghost use Rattle.xl_cuckoo.specs.Undo.{previous_way};

use xl_model::Entry;
use xl_way::Way;

/// Puts an entry into its slot of one way, and returns the entry that was there.
pub(crate) fn swap_at(ways: &mut [Way], at: usize, entry: Entry) -> Option<Entry>
    requires within { at < length ways.old }
    requires full { 0 < entry.word }
    ensures left { result ≡ occupant (state_at ways.old at).shape entry.key }
    ensures ways { ways.new ≡ put_at ways.old at entry }
    ensures back { IfSome result (λ e. put_at ways.new at e ≡ ways.old) }
    ensures again { IfSome result (λ e. occupant (state_at ways.new at).shape e.key ≡ Some entry) }
    ensures full { IfSome result (λ e. 0 < e.word) }
{
    let way = &mut ways[at];
    way.swap(entry.key, entry.word)
}

/// Whether a key's slot of one way is empty.
pub(crate) fn is_free_at(ways: &[Way], at: usize, key: u64) -> bool
    requires { at < length ways.now }
    ensures { IsTrue result ↔ (occupant (state_at ways.now at).shape key ≡ None) }
{
    let way = &ways[at];
    way.is_free(key)
}

/// The way after this one, round all ways. By a comparison: a division would cost more than all
/// else of a displacement.
pub(crate) fn next(count: usize, at: usize) -> usize
    requires within { at < count }
    requires few { count ≤ 4 }
    ensures is { result ≡ next_way count at }
    ensures inside { result < count }
{
    if at + 1 == count { 0 } else { at + 1 }
}

/// The way before this one, round all ways.
pub(crate) fn previous(count: usize, at: usize) -> usize
    requires within { at < count }
    requires few { count ≤ 4 }
    ensures is { result ≡ previous_way count at }
    ensures inside { result < count }
{
    if at == 0 { count - 1 } else { at - 1 }
}
