//! The bounds of areas.

ghost use Rattle.std.specs.Prelude.{◌≡◌, ◌+◌, ◌*◌, ◌^◌, ◌<◌, ◌≤◌, None, length, map, nat_le};
ghost use Rattle.std.specs.Vec.{vec_capacity};
ghost use Rattle.xl_areas.specs.Bounds.{key_at, has_key as is_in, answer_at, count_to, cut_at, with_later, AreRising, IsPlaced};

use xl_model::Area;

/// The area that serves keys from this one up to the next bound, if one does.
#[derive(Clone, Copy)]
pub(crate) struct Bound {
    pub key: u128,
    pub area: Option<Area>,
}

/// The key of a page of a space.
pub(crate) fn key_of(space: u16, page: u64) -> u128
    ensures value { result ≡ key_at space page }
    ensures small { result < 2 ^ 82 }
{
    space as u128 * 36_893_488_147_419_103_232 + page as u128
}

/// The key after an area's last page.
pub(crate) fn end_of(area: &Area) -> u128
    ensures value { result ≡ key_at area.now.space area.now.page + area.now.pages }
    ensures placed { IsPlaced area.now }
{
    key_of(area.space, area.page) + area.pages as u128
}

/// Whether a key lies in an area.
fn has_key(key: u128, area: &Area) -> bool
    ensures { result ≡ is_in key area.now }
{
    key_of(area.space, area.page) <= key && key < end_of(area)
}

/// How many bounds lie at or below a key.
fn count(bounds: &[Bound], key: u128) -> usize
    requires { AreRising 0 bounds.now }
    ensures value { result ≡ count_to key bounds.now }
    ensures within { result ≤ length bounds.now }
{
    bounds.partition_point(
        |bound: &Bound| -> bool
            ensures { result ≡ nat_le bound.now.key key }
        { bound.key <= key },
    )
}

/// The area that serves a key.
pub(crate) fn answer(bounds: &[Bound], key: u128) -> Option<Area>
    requires { AreRising 0 bounds.now }
    ensures { result ≡ answer_at key None bounds.now }
{
    let count = count(bounds, key);
    if count == 0 {
        return None;
    }
    bounds[count - 1].area
}

/// Puts a bound at a key, which changes no key's area.
pub(crate) fn cut(bounds: &mut Vec<Bound>, key: u128)
    requires rising { AreRising 0 bounds.old.items }
    requires room { length bounds.old.items < vec_capacity bounds.old }
    ensures cut { bounds.new.items ≡ cut_at key None bounds.old.items }
    ensures room { vec_capacity bounds.old ≤ vec_capacity bounds.new }
{
    let area = answer(bounds.as_slice(), key);
    let place = count(bounds.as_slice(), key);
    bounds.insert(place, Bound { key, area }).unwrap();
}

/// The bound, where an area declared later serves its key if none did.
fn later(bound: Bound, area: &Area) -> Bound
    ensures { result ≡ with_later area.now bound }
{
    if bound.area.is_none() && has_key(bound.key, area) {
        return Bound {
            key: bound.key,
            area: Some(*area),
        };
    }
    bound
}

/// Lets an area declared later serve keys that no other serves.
pub(crate) fn add_later(bounds: &mut [Bound], area: &Area)
    ensures { bounds.new ≡ map (with_later area.now) bounds.old }
{
    for bound in bounds.iter_mut() {
        *bound = later(*bound, area);
    }
}
