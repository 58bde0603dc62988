//! The search of words of one's own, in which every chain can be followed to its end.

ghost use Rattle.std.specs.Prelude.{◌≡◌, ◌<◌, ◌+◌, ◌-◌, ◌*◌, ◌≤◌, length, slice_index};
ghost use Rattle.xl_chain.specs.Layout.{IsShape, base_at};
ghost use Rattle.xl_chain.specs.Back.{chain_back, chain_loads};
ghost use Rattle.xl_chain.specs.Kept.{AreLinked};
ghost use Rattle.xl_chain.specs.Steps.{Leads};
ghost use Rattle.xl_chain.specs.Places.{found_by};

use crate::shape::{ChainShape, Seek, base_of, bucket_of};

/// A search result, and the loads that it counts for.
#[derive(Drop)]
pub(crate) struct Sought {
    pub(crate) end: Seek,
    pub(crate) loads: u64,
}

/// The first word of the entry to which a word leads, where entries have `V` values.
#[inline(always)]
fn led_to<const V: usize>(shape: ChainShape, at: u64) -> usize
    requires shape { IsShape shape }
    requires lines { V + 3 ≡ 4 * shape.lines }
    requires some { 0 < at }
    requires inside { at ≤ shape.entries }
    ensures base { result ≡ base_at shape (at - 1) }
    ensures within { result + 4 ≤ base_at shape shape.entries }
{
    (shape.buckets as usize + 3) / 4 * 4 + (at - 1) as usize * (V + 3)
}

/// Like `seek`, with the same result. No line is missing and each chain ends, so nothing but the
/// words themselves is looked at.
#[inline(always)]
pub(crate) fn search<const V: usize>(words: &[u64], shape: ChainShape, tag: u64) -> Sought
    requires lines { V + 3 ≡ 4 * shape.lines }
    requires linked { AreLinked shape words.now }
    ensures end { result.end ≡ chain_back words.now shape tag }
    ensures loads { result.loads ≡ chain_loads words.now shape tag }
{
    let mut at = words[bucket_of(shape, tag)];
    let mut loads = 1;
    'along: while at != 0 {
        let base = led_to::<V>(shape, at);
        loads += 1;
        if words[base] == tag {
            let entry = (at - 1) as u32;
            let value = words[base + 2];
            return Sought {
                end: Seek::Found { entry, value },
                loads,
            };
        }
        at = words[base + 1];
    }
    Sought {
        end: Seek::Absent,
        loads,
    }
}

/// The result of a search that finds its tag in the entry to which the word at a place leads.
pub(crate) fn found_from(words: &[u64], shape: ChainShape, place: usize) -> Seek
    requires shape { IsShape shape }
    requires size { length words.now ≡ base_at shape shape.entries }
    requires leads { Leads shape words.now place }
    ensures { result ≡ found_by shape words.now (slice_index words.now place) }
{
    let entry = (words[place] - 1) as u32;
    Seek::Found {
        entry,
        value: words[base_of(shape, entry) + 2],
    }
}
