//! Bulk path: single-page records in Lackey's own form, with sizes below 100.
//!
//! Taken where several records are held. The lines whose pages are kept are read in a loop of their
//! own, the others in a second one: saves a call and the reader's tests a record.

ghost use Rattle.std.specs.Prelude.{◌≡◌, ◌↔◌, ◌+◌, ◌-◌, ◌^◌, ◌<◌, ◌≤◌, ◌++◌, length, take, drop, true, IfSome};
ghost use Rattle.xl_lackey.specs.Skims.{batch_size, read_of, accesses_in_page, runs_both, HasRoom, IsCounted, IsRecordLine, IsSure, Runs};

use crate::access::stays_in_page;
use crate::batch::{Batch, ROOM, put};
use crate::front::front_of;
use crate::near::{NEAR, near_numbers};
use crate::prefixes::PrefixCache;
use xl_model::Kind;

/// An access of the trace.
#[derive(Clone, Copy)]
pub struct Access {
    pub va: u64,
    pub kind: Kind,
}

impl Default for Access {
    fn default() -> Access {
        Access {
            va: 0,
            kind: Kind::Fetch,
        }
    }
}

/// A line that was read: how many bytes it has with its newline, and its access; of a modify the
/// load, which a store follows at the same place. `count` is how many accesses these are.
#[derive(Clone, Copy)]
pub(crate) struct PageRecord {
    pub(crate) used: usize,
    pub(crate) va: u64,
    pub(crate) kind: Kind,
    pub(crate) is_modify: bool,
    pub(crate) count: usize,
}

/// The first line of a text, in Lackey's own form, where it is a record whose bytes lie in one
/// page. `None`: not taken.
#[inline(always)]
fn page_record(text: &[u8]) -> Option<PageRecord>
    requires { 23 ≤ length text.now }
    ensures line { IfSome result (λ r. IsRecordLine text.now r.used (read_of r)) }
    ensures count { IfSome result IsCounted }
{
    let (front, numbers) = front_of(text)?;
    let found = near_numbers(numbers)?;
    if !stays_in_page(found.addr, found.above) {
        return None;
    }
    Some(PageRecord {
        used: found.used,
        va: found.addr,
        kind: front.kind,
        is_modify: front.is_modify,
        count: front.count as usize,
    })
}

/// Whether there is room for the accesses of a record in one page, which are two at most.
#[inline(always)]
pub fn has_room(batch: &Batch) -> bool
    ensures { (result ≡ true) ↔ HasRoom batch.now.items }
{
    batch.len() <= ROOM - 2
}

/// Appends the access of a record in one page, and the store after it where the record is a modify.
#[inline(always)]
pub fn put_accesses(into: &mut Batch, va: u64, kind: Kind, is_modify: bool)
    requires { HasRoom into.old.items }
    ensures { into.new.items ≡ into.old.items ++ accesses_in_page is_modify va kind }
{
    into.push(Access { va, kind });
    if is_modify {
        into.push(Access {
            va,
            kind: Kind::Store,
        });
    }
}

/// Records, `most` at most, that can be read without bounds checks: their lines end in the text, of
/// which `rest` bytes are left, and there is room for their accesses.
#[inline(always)]
fn sure_records(rest: usize, into: &Batch, most: u64) -> u64
    ensures sure { IsSure result rest into.now.items }
    ensures few { result ≤ most }
{
    let room = ROOM - into.len();
    (room.min(rest / NEAR) as u64).min(most)
}

/// How many bytes of a text were read, and how many records these are, a line each.
#[derive(Clone, Copy)]
pub(crate) struct Run {
    pub(crate) used: usize,
    pub(crate) taken: u64,
}

impl Run {
    /// Lines that were read, and more after them.
    #[inline(always)]
    fn then(self, more: Run) -> Run
        requires used { self.used + more.used < 2 ^ 64 }
        requires taken { self.taken + more.taken < 2 ^ 64 }
        ensures { result ≡ runs_both self more }
    {
        Run {
            used: self.used + more.used,
            taken: self.taken + more.taken,
        }
    }
}

/// The same, with the number of accesses after it.
#[derive(Clone, Copy)]
pub(crate) struct Plain {
    pub(crate) run: Run,
    pub(crate) len: usize,
}

/// Reads the first lines of a text, `most` at most, while their pages are kept, and puts their
/// accesses after the first `len` slots. A loop of its own, in which all that it needs stays in
/// registers.
#[inline(never)]
pub(crate) fn skim_kept(
    text: &[u8],
    slots: &mut [Access],
    len: usize,
    most: u64,
    prefixes: &PrefixCache,
) -> Run
    requires places { length slots.old ≡ batch_size }
    requires len { len ≤ batch_size }
    requires sure { IsSure most (length text.now) (take len slots.old) }
    ensures runs { Runs text.now (take len slots.old) (take (len + result.taken) slots.new) result }
    ensures places { length slots.new ≡ batch_size }
    ensures few { result.taken ≤ most }
    ensures sure { IsSure (most - result.taken) (length text.now - result.used)
        (take (len + result.taken) slots.new) }
{
    let mut used = 0;
    let mut taken = 0;
    'kept: while taken < most {
        let Some((count, access)) = prefixes.record(&text[used..]) else {
            break;
        };
        put(slots, len + taken as usize, access);
        used += count;
        taken += 1;
    }
    Run { used, taken }
}

/// Writes the access of a line into slot `at`, and a store into the next one. Returns how many of
/// the two count. No branch asks whether a line is a modify: it would be predicted badly.
#[inline(always)]
fn put_record(slots: &mut [Access], at: usize, found: PageRecord) -> usize
    requires room { at + 2 ≤ length slots.old }
    requires count { IsCounted found }
    ensures items { take (at + result) slots.new ≡ take at slots.old ++ read_of found }
    ensures places { length slots.new ≡ length slots.old }
    ensures some { 1 ≤ result }
    ensures few { result ≤ 2 }
{
    let PageRecord { va, kind, .. } = found;
    put(slots, at, Access { va, kind });
    let kind = Kind::Store;
    put(slots, at + 1, Access { va, kind });
    found.count
}

/// Where to put no access of a further record, after `len` accesses and those of `most` records at
/// most.
#[inline(always)]
fn full_at(len: usize, most: u64) -> usize
    ensures room { result < batch_size }
    ensures few { result ≤ len + most }
{
    (len as u64).saturating_add(most).min(ROOM as u64 - 1) as usize
}

/// Reads the first lines of a text, `most` at most, whether their pages are kept or not, and puts
/// their accesses after the first `len` slots.
#[inline(never)]
pub(crate) fn skim_plain(text: &[u8], slots: &mut [Access], len: usize, most: u64) -> Plain
    requires places { length slots.old ≡ batch_size }
    requires len { len ≤ batch_size }
    ensures runs { Runs text.now (take len slots.old) (take result.len slots.new) result.run }
    ensures places { length slots.new ≡ batch_size }
    ensures len { result.len ≤ batch_size }
    ensures few { result.run.taken ≤ most }
{
    let mut used = 0;
    let mut taken = 0;
    let mut end = len;
    if text.len() < NEAR {
        let run = Run { used, taken };
        return Plain { run, len: end };
    }
    let last = text.len() - NEAR;
    let full = full_at(len, most);
    'plain: while end < full && used <= last {
        let Some(found) = page_record(&text[used..]) else {
            break;
        };
        end += put_record(slots, end, found);
        used += found.used;
        taken += 1;
    }
    let run = Run { used, taken };
    Plain { run, len: end }
}

/// Reads the first lines of a text, `most` at most: those whose pages are kept, and some after
/// them. The page of the first of these is kept from then on.
#[inline(always)]
fn skim_some(text: &[u8], into: &mut Batch, most: u64, prefixes: &mut PrefixCache) -> Run
    ensures runs { Runs text.now into.old.items into.new.items result }
    ensures few { result.taken ≤ most }
{
    let sure = sure_records(text.len(), into, most);
    let kept = into.skim_kept(text, sure, prefixes);
    if kept.taken == sure {
        return kept;
    }
    let rest = &text[kept.used..];
    prefixes.keep(rest);
    let plain = prefixes.plain_lines(kept.taken).min(most - kept.taken);
    kept.then(into.skim_plain(rest, plain))
}

/// Reads up to `most` single-page records of a text; stops at the first other line, or where there
/// is no room.
#[inline(always)]
pub(crate) fn skim_lines(
    text: &[u8],
    into: &mut Batch,
    most: u64,
    prefixes: &mut PrefixCache,
) -> Run
    ensures runs { Runs text.now into.old.items into.new.items result }
    ensures few { result.taken ≤ most }
{
    let mut run = Run { used: 0, taken: 0 };
    'skim: loop {
        let more = skim_some(&text[run.used..], into, most - run.taken, prefixes);
        run = run.then(more);
        if more.taken == 0 {
            break;
        }
    }
    run
}
