//! The made trace.

ghost use Rattle.std.specs.Prelude.{◌≡◌, ℕ, ◌<◌, ◌≤◌, ◌+◌, ◌*◌, ◌^◌, ◌++◌, true, false, [], length, take, IfSome, IfNone};
ghost use Rattle.xl_lackey.specs.Skims.{HasRoom, Takes};
ghost use Rattle.xl_made.specs.Made.{made_trace};
ghost use Rattle.xl_made.specs.Taken.{IsFirst, TakesFirst};

use crate::record::{LINE, line, put, put_record, reference};
use rand_core::utils::NextWord;
use rand_pcg::Lcg64Xsh32;
use std::marker::Model;
use xl_lackey::{Batch, Reference, has_room};

/// A trace that is made while it is read. Contracts see the bytes that are still to come. They come
/// as text, in whole lines, or as what the lines are read as.
#[derive(Drop)]
pub struct MadeTrace {
    generator: Lcg64Xsh32,
    /// How many records are still to be made.
    left: u32,
}

impl Model for MadeTrace {
    ghost use Rattle.std.specs.Prelude.{ℕ, List};
    ghost use Rattle.xl_made.specs.Made.{record_lines};

    ghost Value = { List ℕ };

    ghost view = { λ t. record_lines t.left t.generator };
}

impl MadeTrace {
    /// The trace of `n` records.
    pub fn new(n: u32) -> MadeTrace
        ensures { result ≡ made_trace n }
    {
        MadeTrace {
            generator: Lcg64Xsh32::new(42, 54),
            left: n,
        }
    }

    /// Gives the next lines into the buffer, as many whole ones as it has room for, and returns how
    /// many bytes they are; none into a buffer with room for a line only at the end.
    pub fn piece(&mut self, buf: &mut [u8]) -> usize
        ensures count { result ≤ length buf.old }
        ensures given { self.old ≡ take result buf.new ++ self.new }
        ensures end { result ≡ 0 → 14 ≤ length buf.old → self.old ≡ [] }
    {
        let lines = (buf.len() / LINE).min(self.left as usize);
        for i in 0..lines {
            self.give_line(buf, i * LINE);
        }
        lines * LINE
    }

    /// Gives the next line into the buffer at a place.
    fn give_line(&mut self, buf: &mut [u8], at: usize)
        requires some { 14 ≤ length self.old }
        requires room { at + 14 ≤ length buf.old }
        ensures given { take at buf.old ++ self.old ≡ take (at + 14) buf.new ++ self.new }
        ensures less { length self.old ≡ 14 + length self.new }
        ensures size { length buf.new ≡ length buf.old }
    {
        let line = line(self.generator.next_word());
        self.left -= 1;
        put(buf, at, &line);
    }

    /// Takes the next record, as its line is read, which has this number. None at the end.
    pub fn next(&mut self, line: u64) -> Option<Reference>
        ensures some { IfSome result (λ r. IsFirst r.letter r.addr r.size self.old self.new) }
        ensures line { IfSome result (λ r. r.line ≡ line) }
        ensures none { IfNone result (self.old ≡ []) }
        ensures end { IfNone result (self.new ≡ []) }
    {
        if self.left == 0 {
            return None;
        }
        let word = self.generator.next_word();
        self.left -= 1;
        Some(reference(word, line))
    }

    /// Takes the next records, `most` at most, as their lines are read, and appends their accesses,
    /// while there is room for two. Returns how many were taken.
    #[inline(always)]
    pub fn skim(&mut self, into: &mut Batch, most: u64) -> u64
        ensures takes { (n : ℕ) → n < 2 ^ 64
            → Takes n self.old self.new into.old.items into.new.items result }
        ensures few { result ≤ most }
        ensures no_more { length self.new ≤ length self.old }
    {
        let mut taken = 0;
        while taken < most && has_room(into) {
            if !self.put_next(into) {
                return taken;
            }
            taken += 1;
        }
        taken
    }

    /// Takes the next record, and puts its accesses after those that are there; false at the end,
    /// where nothing changes.
    #[inline(always)]
    fn put_next(&mut self, into: &mut Batch) -> bool
        requires { HasRoom into.old.items }
        ensures some { result ≡ true → TakesFirst self.old self.new into.old.items into.new.items }
        ensures none { result ≡ false → self.new ≡ self.old }
        ensures still { result ≡ false → into.new.items ≡ into.old.items }
        ensures no_more { length self.new ≤ length self.old }
    {
        if self.left == 0 {
            return false;
        }
        let word = self.generator.next_word();
        self.left -= 1;
        put_record(into, word);
        true
    }
}
