//! The recency list that leaves each item in its place and stamps it: the newest has the greatest
//! stamp. Its calls scan the stamps, under the contracts of the array.

ghost use Rattle.std.specs.Prelude.{◌≡◌, ℕ, ◌+◌, ◌-◌, ◌^◌, ◌<◌, ◌≤◌, true, false, None, Some, [], length, take, map, slice_index_or, IfOk, IfSome, IfNone};
ghost use Rattle.std.specs.Fn.{FnReturnsAt};
ghost use Rattle.xl_model.specs.Recency.{purged};
ghost use Rattle.xl_recency.specs.Lists.{IsTest, Touches, Fills, Purges};
ghost use Rattle.xl_stamped.specs.Stamps.{newest_first, AreStamps, IsNewest, NoneMeets, rank_of, renumbered};

use std::alloc::Global;
use std::marker::Model;
use xl_model::NoMemory;
use xl_recency::Item;

/// An item with the stamp of its last touch or fill.
#[derive(Clone, Copy)]
struct Place {
    stamp: u64,
    item: Item,
}

/// A recency list of at most `W` items. Contracts see the list, newest first.
#[derive(Drop)]
pub struct Ways<const W: usize> {
    places: Vec<Place>,
    len: usize,
    last: u64,
}

impl<const W: usize> Model for Ways<W> {
    ghost use Rattle.std.specs.Prelude.{◌≡◌, ◌≤◌, List, length, take};
    ghost use Rattle.xl_recency.specs.declared.item.Item.{Item};

    ghost Value = { List Item };

    ghost use Rattle.xl_stamped.specs.Stamps.{newest_first, AreStamps};

    ghost view = { λ s. newest_first (take s.len s.places.items) };

    ghost invariant = { λ s. (s.len ≤ W) × (length s.places.items ≡ W) × (W ≤ 64) ×
        AreStamps s.last (take s.len s.places.items) };
}

/// The place of an item that passes the test.
fn first_meeting<P: Fn(&Item) -> bool>(places: &[Place], test: &P) -> Option<usize>
    requires { P.IsAlwaysCallable test.now }
    ensures within { IfSome result (λ at. at < length places.now) }
    ensures some { IfSome result (λ at. (d : _) →
        FnReturnsAt P.Fn test.now (slice_index_or places.now at d).item true) }
    ensures before { IfSome result (λ at. (k : ℕ) (d : _) → k < at →
        FnReturnsAt P.Fn test.now (slice_index_or places.now k d).item false) }
    ensures none { IfNone result (NoneMeets (FnReturnsAt P.Fn test.now) places.now) }
{
    for (i, place) in places.iter().enumerate() {
        if test(&place.item) {
            return Some(i);
        }
    }
    None
}

/// The place with the greatest stamp among those whose items pass the test: none does before
/// `first`, which does.
fn newest_from<P: Fn(&Item) -> bool>(places: &[Place], first: usize, test: &P) -> usize
    requires test { P.IsAlwaysCallable test.now }
    requires within { first < length places.now }
    requires meets { (d : _) → FnReturnsAt P.Fn test.now (slice_index_or
        places.now first d).item true }
    requires before { (k : ℕ) (d : _) → k < first →
        FnReturnsAt P.Fn test.now (slice_index_or places.now k d).item false }
    ensures within { result < length places.now }
    ensures newest { IsNewest (FnReturnsAt P.Fn test.now) places.now (length places.now) result }
{
    let mut newest = first;
    for i in first + 1..places.len() {
        if places[newest].stamp < places[i].stamp && test(&places[i].item) {
            newest = i;
        }
    }
    newest
}

/// The place with the least stamp.
fn oldest(places: &[Place]) -> usize
    requires { 0 < length places.now }
    ensures within { result < length places.now }
    ensures least { (k : ℕ) (d : _) → k < length places.now →
        (slice_index_or places.now result d).stamp ≤ (slice_index_or places.now k d).stamp }
{
    let mut oldest = 0;
    for i in 0..places.len() {
        if places[i].stamp < places[oldest].stamp {
            oldest = i;
        }
    }
    oldest
}

/// How many places have a stamp up to this one.
fn rank(places: &[Place], stamp: u64) -> usize
    ensures { result ≡ rank_of places.now stamp }
{
    places.iter().filter(|place| place.stamp <= stamp).count()
}

/// Numbers the stamps anew from 1, from the oldest to the newest.
fn renumber(places: &mut [Place], ranks: &mut [u64])
    requires { length ranks.old ≡ length places.old }
    ensures { places.new ≡ map (renumbered places.old) places.old }
{
    for i in 0..places.len() {
        ranks[i] = rank(places, places[i].stamp) as u64;
    }
    for i in 0..places.len() {
        places[i].stamp = ranks[i];
    }
}

/// Makes room for one more stamp after `last`: where stamps are at their end, they are numbered
/// anew.
fn make_room(places: &mut [Place], last: &mut u64)
    requires few { length places.old ≤ 64 }
    requires stamps { AreStamps last.old places.old }
    ensures same { newest_first places.new ≡ newest_first places.old }
    ensures stamps { AreStamps last.new places.new }
    ensures room { last.new < 2 ^ 64 - 1 }
{
    if *last < u64::MAX {
        return;
    }
    let mut ranks = [0; 64];
    let count = places.len();
    renumber(places, &mut ranks[..count]);
    *last = count as u64;
}

/// Gives the newest item that passes the test a new greatest stamp.
fn touch_newest<P: Fn(&Item) -> bool>(
    places: &mut [Place],
    last: &mut u64,
    test: &P,
) -> Option<Item>
    requires test { P.IsAlwaysCallable test.now }
    requires few { length places.old ≤ 64 }
    requires stamps { AreStamps last.old places.old }
    ensures touched { (q : _) → IsTest (FnReturnsAt P.Fn test.now) q →
        Touches q (newest_first places.old) (newest_first places.new) result }
    ensures stamps { AreStamps last.new places.new }
{
    make_room(places, last);
    match first_meeting(places, test) {
        Some(first) => {
            let at = newest_from(places, first, test);
            let item = places[at].item;
            *last += 1;
            places[at] = Place { stamp: *last, item };
            Some(item)
        }
        None => None,
    }
}

/// Puts the item in the place at `len`, of which all before it are used.
fn fill_place(places: &mut [Place], len: usize, last: &mut u64, item: Item)
    requires few { length places.old ≤ 64 }
    requires free { len < length places.old }
    requires stamps { AreStamps last.old (take len places.old) }
    ensures filled { Fills (length places.old) item
        (newest_first (take len places.old)) (newest_first (take (len + 1) places.new)) None }
    ensures stamps { AreStamps last.new (take (len + 1) places.new) }
{
    make_room(&mut places[..len], last);
    *last += 1;
    places[len] = Place { stamp: *last, item };
}

/// Puts the item in the place of the oldest, and returns that item.
fn replace_oldest(places: &mut [Place], last: &mut u64, item: Item) -> Item
    requires some { 0 < length places.old }
    requires few { length places.old ≤ 64 }
    requires stamps { AreStamps last.old places.old }
    ensures filled { Fills (length places.old) item
        (newest_first places.old) (newest_first places.new) (Some result) }
    ensures stamps { AreStamps last.new places.new }
{
    make_room(places, last);
    let at = oldest(places);
    let left = places[at].item;
    *last += 1;
    places[at] = Place { stamp: *last, item };
    left
}

/// Moves the places whose items fail the test to the front: how many there are.
fn keep_places<P: Fn(&Item) -> bool>(places: &mut [Place], test: &P) -> usize
    requires { P.IsAlwaysCallable test.now }
    ensures within { result ≤ length places.old }
    ensures kept { (q : _) → IsTest (FnReturnsAt P.Fn test.now) q →
        (last : ℕ) → AreStamps last places.old →
        newest_first (take result places.new) ≡ purged q (newest_first places.old) }
    ensures stamps { (last : ℕ) → AreStamps last places.old →
        AreStamps last (take result places.new) }
{
    let mut kept = 0;
    for i in 0..places.len() {
        let place = places[i];
        if !test(&place.item) {
            places[kept] = place;
            kept += 1;
        }
    }
    kept
}

/// `touch_newest` on the first `len` places, which are used.
fn touch_used<P: Fn(&Item) -> bool>(
    places: &mut [Place],
    len: usize,
    last: &mut u64,
    test: &P,
) -> Option<Item>
    requires test { P.IsAlwaysCallable test.now }
    requires used { len ≤ length places.old }
    requires few { length places.old ≤ 64 }
    requires stamps { AreStamps last.old (take len places.old) }
    ensures touched { (q : _) → IsTest (FnReturnsAt P.Fn test.now) q →
        Touches q (newest_first (take len places.old)) (newest_first (take len places.new)) result }
    ensures stamps { AreStamps last.new (take len places.new) }
{
    touch_newest(&mut places[..len], last, test)
}

/// `keep_places` on the first `len` places, which are used.
fn keep_used<P: Fn(&Item) -> bool>(places: &mut [Place], len: usize, test: &P) -> usize
    requires test { P.IsAlwaysCallable test.now }
    requires used { len ≤ length places.old }
    ensures within { result ≤ len }
    ensures count { (len - result) + length (newest_first (take result places.new)) ≡
        length (newest_first (take len places.old)) }
    ensures kept { (q : _) → IsTest (FnReturnsAt P.Fn test.now) q →
        (last : ℕ) → AreStamps last (take len places.old) →
        newest_first (take result places.new) ≡ purged q (newest_first (take len places.old)) }
    ensures stamps { (last : ℕ) → AreStamps last (take len places.old) →
        AreStamps last (take result places.new) }
{
    keep_places(&mut places[..len], test)
}

impl<const W: usize> Ways<W> {
    /// An empty list. Its places are all there from now on.
    pub fn open(alloc: Global) -> Result<Ways<W>, NoMemory>
        requires { W ≤ 64 }
        ensures { IfOk result (λ ways. ways ≡ []) }
    {
        Ways::open_at(alloc, 1)
    }

    /// An empty list whose first stamp is `next`. Lists opened at other stamps return the same.
    pub fn open_at(alloc: Global, next: u64) -> Result<Ways<W>, NoMemory>
        requires width { W ≤ 64 }
        requires next { 1 ≤ next }
        ensures { IfOk result (λ ways. ways ≡ []) }
    {
        let free = Place {
            stamp: 0,
            item: Item { tag: 0, word: 0 },
        };
        let places = vec![in alloc; free; W]?;
        Ok(Ways {
            places,
            len: 0,
            last: next - 1,
        })
    }

    /// Moves the newest item that passes the test to the front, and returns it. `None` where none
    /// passes; then nothing changes.
    pub fn touch<P: Fn(&Item) -> bool>(&mut self, test: P) -> Option<Item>
        requires { P.IsAlwaysCallable test }
        ensures { (q : _) → IsTest (FnReturnsAt P.Fn test) q → Touches q self.old self.new result }
    {
        touch_used(&mut self.places, self.len, &mut self.last, &test)
    }

    /// Puts the item in front, and returns the item evicted: `Some` where the list was full.
    pub fn fill(&mut self, item: Item) -> Option<Item>
        requires { 0 < W }
        ensures { Fills W item self.old self.new result }
    {
        if self.len < W {
            fill_place(&mut self.places, self.len, &mut self.last, item);
            self.len += 1;
            None
        } else {
            Some(replace_oldest(&mut self.places, &mut self.last, item))
        }
    }

    /// Removes the items that pass the test; the others stay in order. Returns how many it removed.
    pub fn remove_where<P: Fn(&Item) -> bool>(&mut self, test: P) -> u64
        requires { P.IsAlwaysCallable test }
        ensures kept { (q : _) → IsTest (FnReturnsAt P.Fn test) q →
            Purges q self.old self.new result }
        ensures count { result + length self.new ≡ length self.old }
        ensures most { result ≤ W }
    {
        let before = self.len;
        self.len = keep_used(&mut self.places, before, &test);
        (before - self.len) as u64
    }
}
