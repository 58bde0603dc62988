//! A reader that is fed the trace in pieces.

ghost use Rattle.std.specs.Prelude.{◌≡◌, ◌≢◌, ◌↔◌, ℕ, ◌+◌, ◌-◌, ◌<◌, ◌≤◌, ◌++◌, [], List, Bool, true, false, length, take, drop, Option, Some, None, IfOk, IfSome, IfNone};
ghost use Rattle.xl_lackey.specs.Lines.{parted};
ghost use Rattle.xl_lackey.specs.Stream.{fresh, left, left_by, records_of, NeedsMore};
ghost use Rattle.xl_lackey.specs.Answers.{Answers};
ghost use Rattle.xl_lackey.specs.Skims.{Skimmed};

use crate::batch::Batch;
use crate::fault::Fault;
use crate::line::{Verdict, judge};
use crate::near::near_line;
use crate::next::Next;
use crate::prefixes::PrefixCache;
use crate::reference::Reference;
use crate::scan::read_lines;
use crate::skim::skim_lines;
use std::alloc::Global;
use std::marker::Model;
use std::mem::swap;
use xl_model::NoMemory;

/// How many bytes a reader holds at most.
const ROOM: usize = 65536;

/// Bytes kept of an over-long line: the longest good one, a carriage return, and one more.
const KEPT_BYTES: usize = 258;

/// A reader of a trace, which is fed the trace's bytes in pieces.
#[derive(Drop)]
pub struct Reader {
    buf: Vec<u8>,
    start: usize,
    end: usize,
    lines: u64,
    finished: bool,
    bad: Option<Fault>,
    prefixes: PrefixCache,
}

impl Model for Reader {
    ghost use Rattle.std.specs.Prelude.{◌≡◌, ◌≤◌, take, drop};
    ghost use Rattle.std.specs.Vec.{vec_len};
    ghost use Rattle.xl_lackey.specs.Stream.{State};

    ghost Value = { State };

    ghost view = { λ r. record {
      lines = r.lines;
      held = drop r.start (take r.end r.buf.items);
      finished = r.finished;
      bad = r.bad;
    } };

    ghost invariant = { λ r. (vec_len r.buf ≡ 65536) × (r.start ≤ r.end) × (r.end ≤ 65536) };
}

impl Reader {
    /// A reader that was fed nothing yet. All memory that it wants is taken here; `NoMemory` where
    /// the allocator has none.
    pub fn open(alloc: Global) -> Result<Reader, NoMemory>
        ensures new { IfOk result (λ r. r ≡ fresh) }
        ensures reads { IfOk result (λ r. (rest : List ℕ) → left r rest ≡ records_of rest) }
    {
        let Ok(buf) = vec![in alloc; 0; ROOM] else {
            return Err(NoMemory);
        };
        Ok(Reader {
            buf,
            start: 0,
            end: 0,
            lines: 0,
            finished: false,
            bad: None,
            prefixes: PrefixCache::new(),
        })
    }

    /// How many bytes the next piece may have.
    pub fn room(&self) -> usize
        ensures { result + length self.now.held ≡ 65536 }
    {
        ROOM - (self.end - self.start)
    }

    /// Takes the next bytes of the trace: `count` bytes in `piece`, after as many places as bytes
    /// are held. The reader takes that buffer and leaves its own for it, so that only what is held
    /// is moved.
    pub fn exchange(&mut self, piece: &mut Vec<u8>, count: usize)
        requires size { length piece.old.items ≡ 65536 }
        requires room { count + length self.old.held ≤ 65536 }
        requires unfinished { self.old.finished ≡ false }
        ensures held { self.new ≡ record self.old {
          held = self.old.held ++ take count (drop (length self.old.held) piece.old.items);
        } }
        ensures reads { (last : Bool) (rest : List ℕ) → left_by last self.new rest
            ≡ left_by last self.old (take count (drop (length self.old.held) piece.old.items)
            ++ rest) }
        ensures size { length piece.new.items ≡ 65536 }
    {
        let held = self.end - self.start;
        put_first(piece.as_mut_slice(), self.held());
        swap(&mut self.buf, piece);
        self.start = 0;
        self.end = held + count;
    }

    /// Says that the trace has ended.
    pub fn finish(&mut self)
        ensures finished { self.new ≡ record self.old { finished = true } }
        ensures reads { left self.new [] ≡ left self.old [] }
    {
        self.finished = true;
    }

    /// The next record, or why there is none now.
    pub fn next(&mut self) -> Next
        ensures answers { Answers result self.old self.new }
        ensures more { (result ≡ Next.More) ↔ NeedsMore self.old }
    {
        if let Some(fault) = self.bad_line() {
            return Next::BadLine {
                line: fault.line,
                reason: fault.reason,
            };
        }
        let scan = read_lines(self.held(), self.lines());
        self.pass(scan.used, scan.lines);
        match scan.verdict {
            Verdict::Skipped => self.end_of_held(),
            Verdict::Found { letter, addr, size } => Next::Found(Reference {
                letter,
                addr,
                size,
                line: scan.lines,
            }),
            Verdict::Bad { reason } => self.refuse(scan.lines, reason),
        }
    }

    /// The next record, where its line is in Lackey's own form with a size below 100 and is at least
    /// 23 bytes before the end of what is held. None: nothing was read, ask `next`. The record is
    /// returned in registers, where `next` returns it through memory.
    #[inline(always)]
    pub fn next_near(&mut self) -> Option<Reference>
        ensures some { IfSome result (λ r. Answers (Next.Found r) self.old self.new) }
        ensures none { IfNone result (self.new ≡ self.old) }
    {
        let None = self.bad_line() else {
            return None;
        };
        let (letter, found) = near_line(self.held())?;
        let line = self.lines().wrapping_add(1);
        self.pass(found.used, line);
        Some(Reference {
            letter,
            addr: found.addr,
            size: found.above + 1,
            line,
        })
    }

    /// Takes the next records, `most` at most, while each is in Lackey's own form and its bytes lie
    /// in one page; appends their accesses, while there is room. Returns how many were taken,
    /// perhaps none.
    #[inline(always)]
    pub fn skim(&mut self, into: &mut Batch, most: u64) -> u64
        ensures skims { Skimmed self.old self.new into.old.items into.new.items result }
        ensures few { result ≤ most }
    {
        let None = self.bad_line() else {
            return 0;
        };
        let lines = self.lines;
        let text = &self.buf.as_slice()[self.start..self.end];
        let run = skim_lines(text, into, most, &mut self.prefixes);
        self.pass(run.used, lines.wrapping_add(run.taken));
        run.taken
    }

    /// Where no newline is held: returns that more bytes are needed, or judges the last line.
    fn end_of_held(&mut self) -> Next
        requires good { self.old.bad ≡ None }
        requires no_newline { parted 10 self.old.held ≡ None }
        ensures answers { Answers result self.old self.new }
        ensures more { (result ≡ Next.More) ↔ (self.old.finished ≡ false) }
    {
        if self.is_finished() {
            self.last_line()
        } else {
            self.truncate();
            Next::More
        }
    }

    /// Judges the last line, which no newline ends, where it isn't empty.
    fn last_line(&mut self) -> Next
        requires good { self.old.bad ≡ None }
        requires no_newline { parted 10 self.old.held ≡ None }
        requires finished { self.old.finished ≡ true }
        ensures answers { Answers result self.old self.new }
        ensures more { result ≢ Next.More }
    {
        let count = self.held().len();
        if count == 0 {
            return Next::End;
        }
        let verdict = judge(self.held());
        let line = self.lines().wrapping_add(1);
        self.pass(count, line);
        match verdict {
            Verdict::Skipped => Next::End,
            Verdict::Found { letter, addr, size } => Next::Found(Reference {
                letter,
                addr,
                size,
                line,
            }),
            Verdict::Bad { reason } => self.refuse(line, reason),
        }
    }

    fn held(&self) -> &[u8]
        ensures value { result.now ≡ self.entry.now.held }
        ensures few { length result.now ≤ 65536 }
    {
        &self.buf.as_slice()[self.start..self.end]
    }

    fn lines(&self) -> u64
        ensures { result ≡ self.now.lines }
    {
        self.lines
    }

    fn is_finished(&self) -> bool
        ensures { result ≡ self.now.finished }
    {
        self.finished
    }

    fn bad_line(&self) -> Option<Fault>
        ensures { result ≡ self.now.bad }
    {
        self.bad
    }

    /// Drops the first `used` bytes held; `lines` lines have ended in all.
    fn pass(&mut self, used: usize, lines: u64)
        requires { used ≤ length self.old.held }
        ensures { self.new ≡ record self.old { lines = lines; held = drop used self.old.held } }
    {
        self.start += used;
        self.lines = lines;
    }

    /// Truncates an over-long line to what judging it needs.
    fn truncate(&mut self)
        ensures { self.new ≡ record self.old { held = take 258 self.old.held } }
    {
        self.end = self.end.min(self.start + KEPT_BYTES);
    }

    fn refuse(&mut self, line: u64, reason: u8) -> Next
        ensures answer { result ≡ Next.BadLine line reason }
        ensures kept { self.new
            ≡ record self.old { bad = Some (record { line = line; reason = reason }) } }
    {
        self.bad = Some(Fault { line, reason });
        Next::BadLine { line, reason }
    }
}

/// Writes bytes over the first ones.
fn put_first(buf: &mut [u8], bytes: &[u8])
    requires { length bytes.now ≤ length buf.old }
    ensures { buf.new ≡ bytes.now ++ drop (length bytes.now) buf.old }
{
    buf[..bytes.len()].copy_from_slice(bytes);
}
