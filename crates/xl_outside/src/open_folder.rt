//! A folder over files that are opened.

ghost use Rattle.std.specs.Prelude.{◌≡◌, ℕ, ◌+◌, ◌≤◌, length, Option, Some, Result, Err, IfOk, IfSome};
ghost use Rattle.std.specs.Option.{ForSome};
ghost use Rattle.xl_outside.specs.Folders.{Files, file_of, ReadsFile};
ghost use Rattle.xl_outside.specs.Streams.{IsFileOf, Holds};

use crate::folder::{Folder, Unread};
use crate::stream::{Opener, Placed, Stream};

/// A folder over files that are opened: contracts know its files where they know its opener's.
///
/// The last file stays open, and a read that continues where the last one ended reads on: so a long
/// file costs one opening and no seek, and a pipe can be read.
#[derive(Drop)]
pub struct OpenFolder<O: Opener<S>, S: Stream> {
    opener: O,
    last: Option<Placed<S>>,
    faults: u64,
    absences: u64,
    ghost held: { ForSome (O.files opener)
        (λ fs. ForSome last (λ p. IsFileOf fs (S.state p.stream))) },
}

impl<O: Opener<S> + Drop, S: Stream + Drop> OpenFolder<O, S> {
    pub fn over(opener: O) -> OpenFolder<O, S>
        ensures opener { result.opener ≡ opener }
        ensures faults { result.faults ≡ 0 }
        ensures absences { result.absences ≡ 0 }
    {
        OpenFolder {
            opener,
            last: None,
            faults: 0,
            absences: 0,
        }
    }

    /// Reads from the last file, or else from the file of this name, which is then the last one.
    fn read(&mut self, name: &str, at: u64, buf: &mut [u8]) -> Result<usize, Unread>
        ensures count { IfOk result (λ n. n ≤ length buf.new) }
        ensures known { IfSome (O.files self.old.opener)
            (λ fs. ReadsFile (file_of fs name.now) at result buf.old buf.new) }
        ensures opener { self.new.opener ≡ self.old.opener }
        ensures faults { self.new.faults ≡ self.old.faults }
        ensures absences { self.new.absences ≡ self.old.absences }
    {
        let last = self.last.take();
        let (placed, count) = self.placed(last, name)?.read_at(at, buf)?;
        self.last = Some(placed);
        Ok(count)
    }

    /// The last file, where it was opened by this name, or else the file of this name at its front.
    fn placed(&self, last: Option<Placed<S>>, name: &str) -> Result<Placed<S>, Unread>
        requires { ForSome (O.files self.now.opener)
            (λ fs. ForSome last (λ p. IsFileOf fs (S.state p.stream))) }
        ensures { IfSome (O.files self.now.opener)
            (λ fs. Holds result (λ p. S.state p.stream) name.now (file_of fs name.now)) }
    {
        if let Some(placed) = last {
            if placed.is_named(name) {
                return Ok(placed);
            }
        }
        Ok(Placed::front(self.opener.open(name)?))
    }
}

impl<O: Opener<S> + Drop, S: Stream + Drop> Folder for OpenFolder<O, S> {
    /// It doesn't know whether a read will fail.
    ghost folder = { record {
      files = λ f. O.files f.opener;
      faults = λ f. f.faults;
      absences = λ f. f.absences;
      steady = λ _. ⊥;
    } };

    fn read_at(&mut self, name: &str, at: u64, buf: &mut [u8]) -> Result<usize, Unread> {
        let answer = self.read(name, at, buf);
        match answer {
            Ok(_) => {}
            Err(Unread::Missing) => self.absences = self.absences.saturating_add(1),
            Err(Unread::Failed) => self.faults = self.faults.saturating_add(1),
        }
        answer
    }
}
