//! A trace that is read in pieces while it is replayed.

ghost use Rattle.std.specs.Prelude.{◌≡◌, ℕ, ◌+◌, ◌-◌, ◌^◌, ◌<◌, ◌≤◌, ◌⊎◌, ◌++◌, [], List, true, false, min, length, take, drop, nat_lt, Option, Some, None, Ok, IfOk, IfErr, OnOk, IfSome, IfNone, IsSome};
ghost use Rattle.xl_outside.specs.Folders.{file_of, FolderAfter, fate_by, unread_fate};
ghost use Rattle.xl_lackey.specs.Stream.{due};
ghost use Rattle.xl_lackey.specs.Answers.{Answers};
ghost use Rattle.xl_serving.specs.Traces.{Progress, at_first, next_number, trail_of, left_of};
ghost use Rattle.xl_course.specs.Stops.{stop_fate, StopsSource};
ghost use Rattle.xl_course.specs.Sources.{Gives, Skims};
ghost use Rattle.xl_serving.specs.Tapes.{IsFedFrom, FillAnswers, FeedAnswers, MoreAnswers, to_come, size_of};

use std::alloc::Global;
use std::marker::Model;
use xl_course::{Numbered, Stop};
use xl_lackey::{Batch, Next, Reader, Reference};
use xl_model::{InputFault, NoMemory};
use xl_outside::{Folder, Unread};

/// The most bytes of a trace.
const LIMIT: u64 = 1 << 34;

/// How many bytes a piece has at most.
const PIECE: usize = 65536;

/// A trace that is read while it is replayed: the file's next bytes are read only where the reader
/// holds no line that it can return.
#[derive(Drop)]
pub(crate) struct Tape {
    reader: Reader,
    /// The place in the file up to which it was fed to the reader.
    at: u64,
    /// The number of the next record.
    number: u64,
    /// The bytes of a piece on their way from the folder to the reader.
    piece: Vec<u8>,
}

impl Model for Tape {
    ghost use Rattle.std.specs.Prelude.{◌≡◌, ◌≤◌, ◌^◌};
    ghost use Rattle.std.specs.Vec.{vec_len};
    ghost use Rattle.xl_serving.specs.Traces.{Progress};

    ghost Value = { Progress };

    ghost view = { λ t. record { reader = t.reader; at = t.at; number = t.number } };

    ghost invariant = { λ t. (vec_len t.piece ≡ 65536) × (t.at ≤ 2 ^ 34) };
}

impl Tape {
    /// A trace of which nothing was read yet. All memory that it wants is taken here.
    pub(crate) fn open(alloc: Global) -> Result<Tape, NoMemory>
        ensures { IfOk result (λ t. (file : Option (List ℕ)) → IsFedFrom file t
            × (left_of file t ≡ trail_of file)) }
    {
        Ok(Tape {
            reader: Reader::open(alloc)?,
            at: 0,
            number: 1,
            piece: vec![in alloc; 0; PIECE]?,
        })
    }

    /// The next record of the file `name`, or None at its end.
    pub(crate) fn next<F: Folder>(
        &mut self,
        folder: &mut F,
        name: &str,
    ) -> Result<Option<Numbered>, Stop>
        ensures known { IfSome (F.folder.files folder.old) (λ fs.
            IsFedFrom (file_of fs name.now) self.old
            → Gives (IsFedFrom (file_of fs name.now) self.new)
            (left_of (file_of fs name.now) self.old)
            (left_of (file_of fs name.now) self.new) result) }
        ensures leaves { FolderAfter F.folder folder.old folder.new
            (fate_by stop_fate result) }
        ensures caused { IfErr result StopsSource }
        ensures shrinks { IfOk result (λ r. IsSome r → size_of self.new < size_of self.old) }
    {
        'pieces: loop {
            match self.answer() {
                Next::Found(reference) => return Ok(Some(self.number(reference))),
                Next::End => return Ok(None),
                Next::BadLine { line, reason } => {
                    return Err(Stop::Input(InputFault::TraceLine { line, reason }));
                }
                Next::More => self.fill(folder, name)?,
            }
        }
    }

    /// The next record, where its whole line is held, in Lackey's own form, and its bytes lie in one
    /// page. None: nothing changes.
    #[inline(always)]
    pub(crate) fn next_held(&mut self) -> Option<Numbered>
        ensures some { IfSome result (λ r. (file : Option (List ℕ)) → IsFedFrom file self.old
            → Gives (IsFedFrom file self.new) (left_of file self.old) (left_of file self.new)
            (Ok (Some r))) }
        ensures none { IfNone result (self.new ≡ self.old) }
        ensures shrinks { IsSome result → size_of self.new < size_of self.old }
    {
        match self.reader.next_near() {
            Some(reference) => Some(self.number(reference)),
            None => None,
        }
    }

    /// Takes the next records that are held, `most` at most, while each is in Lackey's own form and
    /// its bytes lie in one page; appends their accesses, while there is room. Returns how many
    /// were taken, perhaps none.
    pub(crate) fn skim(&mut self, into: &mut Batch, most: u64) -> u64
        ensures skims { (file : Option (List ℕ)) → IsFedFrom file self.old
            → Skims (IsFedFrom file self.new) (left_of file self.old) (left_of file self.new)
            into.old.items into.new.items result }
        ensures few { result ≤ most }
        ensures no_more { size_of self.new ≤ size_of self.old }
        ensures no_fewer { length into.old.items ≤ length into.new.items }
    {
        let taken = self.reader.skim(into, most);
        self.number = self.number.wrapping_add(taken);
        taken
    }

    /// What the reader has next.
    fn answer(&mut self) -> Next
        ensures answers { Answers result self.old.reader self.new.reader }
        ensures at { self.new.at ≡ self.old.at }
        ensures number { self.new.number ≡ self.old.number }
        ensures deferred { result ≡ Next.More →
            (self.old.reader.finished ≡ false) × (self.new.reader.finished ≡ false) }
    {
        self.reader.next()
    }

    /// Numbers a record.
    fn number(&mut self, reference: Reference) -> Numbered
        ensures numbered { result ≡ record { number = self.old.number; reference = reference } }
        ensures next { self.new ≡ record self.old { number = next_number self.old.number } }
    {
        let number = self.number;
        self.number = number.wrapping_add(1);
        Numbered { number, reference }
    }

    /// Feeds the next piece of the file, or says that it has ended.
    #[inline(never)]
    fn fill<F: Folder>(&mut self, folder: &mut F, name: &str) -> Result<(), Stop>
        requires unfinished { self.old.reader.finished ≡ false }
        requires room { length self.old.reader.held ≤ 258 }
        requires none { due self.old.reader [] ≡ ([], None) }
        ensures known { IfSome (F.folder.files folder.old) (λ fs.
            IsFedFrom (file_of fs name.now) self.old
            → FillAnswers (file_of fs name.now) result self.old self.new) }
        ensures leaves { FolderAfter F.folder folder.old folder.new
            (fate_by stop_fate result) }
        ensures caused { IfErr result StopsSource }
        ensures less { OnOk result (to_come self.new < to_come self.old) }
        ensures no_more { OnOk result (size_of self.new ≤ size_of self.old) }
    {
        if self.at() == LIMIT {
            self.end_at_limit(folder, name)
        } else {
            self.next_piece(folder, name)
        }
    }

    /// At the limit: the file ends there, or it is too long.
    fn end_at_limit<F: Folder>(&mut self, folder: &mut F, name: &str) -> Result<(), Stop>
        requires unfinished { self.old.reader.finished ≡ false }
        requires none { due self.old.reader [] ≡ ([], None) }
        requires limit { self.old.at ≡ 2 ^ 34 }
        ensures known { IfSome (F.folder.files folder.old) (λ fs.
            IsFedFrom (file_of fs name.now) self.old
            → FillAnswers (file_of fs name.now) result self.old self.new) }
        ensures leaves { FolderAfter F.folder folder.old folder.new
            (fate_by stop_fate result) }
        ensures caused { IfErr result StopsSource }
        ensures less { OnOk result (to_come self.new < to_come self.old) }
        ensures no_more { OnOk result (size_of self.new ≤ size_of self.old) }
    {
        let more = has_more(folder, name, LIMIT)?;
        if more {
            return Err(Stop::Input(InputFault::TraceTooLong));
        }
        self.finish();
        Ok(())
    }

    /// Below the limit: feeds the next piece, and finishes the reader where the file has ended.
    fn next_piece<F: Folder>(&mut self, folder: &mut F, name: &str) -> Result<(), Stop>
        requires unfinished { self.old.reader.finished ≡ false }
        requires room { length self.old.reader.held ≤ 258 }
        requires below { self.old.at < 2 ^ 34 }
        ensures known { IfSome (F.folder.files folder.old) (λ fs.
            IsFedFrom (file_of fs name.now) self.old
            → FillAnswers (file_of fs name.now) result self.old self.new) }
        ensures leaves { FolderAfter F.folder folder.old folder.new
            (fate_by stop_fate result) }
        ensures caused { IfErr result StopsSource }
        ensures less { OnOk result (to_come self.new < to_come self.old) }
        ensures no_more { OnOk result (size_of self.new ≤ size_of self.old) }
    {
        let count = self.pull(folder, name)?;
        if count == 0 {
            self.finish();
        }
        Ok(())
    }

    /// Feeds the next piece, and returns how many bytes it has.
    fn pull<F: Folder>(&mut self, folder: &mut F, name: &str) -> Result<usize, Unread>
        requires unfinished { self.old.reader.finished ≡ false }
        requires room { length self.old.reader.held ≤ 258 }
        requires below { self.old.at < 2 ^ 34 }
        ensures known { IfSome (F.folder.files folder.old) (λ fs.
            FeedAnswers (file_of fs name.now) self.old.at result self.old.reader self.new.reader) }
        ensures leaves { FolderAfter F.folder folder.old folder.new
            (fate_by unread_fate result) }
        ensures at { IfOk result (λ n. (self.new.at ≡ self.old.at + n)
            × (self.new.number ≡ self.old.number)) }
        ensures most { IfOk result (λ n. self.old.at + n ≤ 2 ^ 34) }
        ensures held { IfOk result
            (λ n. length self.new.reader.held ≡ length self.old.reader.held + n) }
        ensures unfinished { OnOk result (self.new.reader.finished ≡ false) }
    {
        let wanted = self.wanted();
        let piece = &mut self.piece;
        let count = feed_from(&mut self.reader, piece, wanted, self.at, folder, name)?;
        self.at += count as u64;
        Ok(count)
    }

    /// How many bytes the next piece may have: all for which the reader has room, or all to the
    /// limit.
    fn wanted(&self) -> usize
        requires room { length self.now.reader.held ≤ 258 }
        requires below { self.now.at < 2 ^ 34 }
        ensures { result ≡ min (2 ^ 34 - self.now.at) (65536 - length self.now.reader.held) }
    {
        let left = LIMIT - self.at;
        left.min(self.reader.room() as u64) as usize
    }

    fn at(&self) -> u64
        ensures value { result ≡ self.now.at }
        ensures most { result ≤ 2 ^ 34 }
    {
        self.at
    }

    fn finish(&mut self)
        ensures { self.new
            ≡ record self.old { reader = record self.old.reader { finished = true } } }
    {
        self.reader.finish();
    }
}

/// Reads a piece of a file, of at most `wanted` bytes from a place on, into the buffer, after as
/// many places as bytes are held, feeds it, and returns how many bytes it has. The reader's buffer
/// comes in place of the piece's.
fn feed_from<F: Folder>(
    reader: &mut Reader,
    buf: &mut Vec<u8>,
    wanted: usize,
    at: u64,
    folder: &mut F,
    name: &str,
) -> Result<usize, Unread>
    requires unfinished { reader.old.finished ≡ false }
    requires wanted { 0 < wanted }
    requires size { length buf.old.items ≡ 65536 }
    requires room { wanted + length reader.old.held ≤ 65536 }
    ensures count { IfOk result (λ n. n ≤ wanted) }
    ensures size { length buf.new.items ≡ 65536 }
    ensures known { IfSome (F.folder.files folder.old) (λ fs.
        FeedAnswers (file_of fs name.now) at result reader.old reader.new) }
    ensures leaves { FolderAfter F.folder folder.old folder.new
        (fate_by unread_fate result) }
    ensures held { IfOk result (λ n. length reader.new.held ≡ length reader.old.held + n) }
    ensures unfinished { OnOk result (reader.new.finished ≡ false) }
{
    let held = PIECE - reader.room();
    let piece = &mut buf.as_mut_slice()[held..held + wanted];
    let count = folder.read_at(name, at, piece)?;
    reader.exchange(buf, count);
    Ok(count)
}

/// Whether a file has bytes from a place on.
fn has_more<F: Folder>(folder: &mut F, name: &str, at: u64) -> Result<bool, Unread>
    ensures known { IfSome (F.folder.files folder.old) (λ fs.
        MoreAnswers (file_of fs name.now) at result) }
    ensures leaves { FolderAfter F.folder folder.old folder.new
        (fate_by unread_fate result) }
{
    let mut byte = [0; 1];
    let count = folder.read_at(name, at, &mut byte)?;
    Ok(count > 0)
}
