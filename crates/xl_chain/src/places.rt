//! The index of chains that can be long: for each tag its place, the number of the word that leads
//! to its entry. It is the head of its bucket, or the second word of the entry before it.

ghost use Rattle.std.specs.Prelude.{ℕ, ◌≡◌, ◌<◌, ◌+◌, ◌*◌, ◌^◌, ◌≤◌, true, false, length, [], IfOk, OnOk, OnErr};
ghost use Rattle.xl_model.specs.Chains.{has_tag};
ghost use Rattle.xl_chain.specs.Held.{ChainState, tags_of, held_with, found_of, without_tag};
ghost use Rattle.xl_chain.specs.Kept.{IsInserted};
ghost use Rattle.xl_chain.specs.Places.{known, moved, IsIndex, IsIndexed};

use crate::entries::Entries;
use crate::shape::Seek;
use std::alloc::Global;
use xl_model::{Full, NoMemory};

/// Up to this number of entries a bucket, the chain is searched: an index is no faster.
const FEW_FOR_A_BUCKET: u32 = 8;

/// An index of entries of which none is held, where their chains can be long.
pub(crate) fn open_places<const V: usize>(
    alloc: Global,
    entries: &Entries<V>,
) -> Result<Option<Entries<1>>, NoMemory>
    requires { entries.now.held ≡ [] }
    ensures { IfOk result (λ places. IsIndexed entries.now places) }
{
    entries.words_read_back();
    let shape = entries.shape();
    if shape.entries <= FEW_FOR_A_BUCKET * shape.buckets {
        return Ok(None);
    }
    Ok(Some(Entries::open(alloc, shape.entries, shape.entries)?))
}

/// The place that the index has for a tag.
#[inline(never)]
fn place_known(places: &Entries<1>, tag: u64) -> Option<usize>
    ensures { result ≡ known places.now tag }
{
    match places.look(tag) {
        Seek::Found { value, .. } => Some(value as usize),
        _ => None,
    }
}

/// The search result for the tag; counts no loads.
#[inline(always)]
pub(crate) fn look_placed<const V: usize>(
    entries: &Entries<V>,
    places: &Entries<1>,
    tag: u64,
) -> Seek
    requires { IsIndex entries.now places.now }
    ensures { result ≡ found_of (held_with tag entries.now.held) }
{
    entries.words_read_back();
    match place_known(places, tag) {
        None => Seek::Absent,
        Some(place) => entries.look_at(place),
    }
}

/// Writes another place of a tag into the index, where there is a tag and the index has it.
fn set_place(places: &mut Entries<1>, tag: Option<u64>, place: usize)
    ensures known { (t : ℕ) → known places.new t ≡ moved tag place (known places.old) t }
    ensures count { length places.new.held ≡ length places.old.held }
    ensures shape { places.new.shape ≡ places.old.shape }
{
    places.words_read_back();
    match tag {
        None => (),
        Some(tag) => match places.look(tag) {
            Seek::Found { entry, .. } => places.set_value(entry, 0, place as u64),
            _ => (),
        },
    }
}

/// Takes out the entry of a tag that is held. The entry after it has its place from then on.
#[inline(never)]
pub(crate) fn remove_placed<const V: usize>(
    entries: &mut Entries<V>,
    places: &mut Entries<1>,
    tag: u64,
)
    requires index { IsIndex entries.old places.old }
    requires held { has_tag (tags_of entries.old.held) tag ≡ true }
    ensures held { entries.new.held ≡ without_tag tag entries.old.held }
    ensures shape { entries.new.shape ≡ entries.old.shape }
    ensures loads { entries.new.loads ≡ entries.old.loads }
    ensures index { IsIndex entries.new places.new }
{
    entries.words_read_back();
    match place_known(places, tag) {
        None => unreachable!(),
        Some(place) => {
            entries.remove_at(place);
            let following = entries.tag_led(place);
            set_place(places, following, place);
            places.remove(tag);
        }
    }
}

/// Holds the tag with these values, in front of its bucket. After it is the entry that was in front
/// there, whose place is the new entry's word from then on.
#[inline(never)]
pub(crate) fn insert_placed<const V: usize>(
    entries: &mut Entries<V>,
    places: &mut Entries<1>,
    tag: u64,
    values: [u64; V],
) -> Result<(), Full>
    requires index { IsIndex entries.old places.old }
    requires absent { has_tag (tags_of entries.old.held) tag ≡ false }
    ensures ok { OnOk result (IsInserted tag values.entry entries.old entries.new) }
    ensures full { OnErr result (length entries.old.held ≡ entries.old.shape.entries) }
    ensures same { OnErr result (entries.new ≡ entries.old) }
    ensures index { IsIndex entries.new places.new }
{
    entries.words_read_back();
    let head = entries.head(tag);
    let first = entries.tag_led(head);
    let next = entries.insert(tag, values)?;
    set_place(places, first, next);
    match places.insert(tag, [head as u64]) {
        Ok(_) => Ok(()),
        Err(_) => unreachable!(),
    }
}
