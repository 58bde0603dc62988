//! Where the records of a trace come from.

ghost use Rattle.std.specs.Prelude.{◌≡◌, ℕ, ◌<◌, ◌≤◌, length, Ok, Some, IfSome, IfNone, IsSome, IfOk, IfErr};
ghost use Rattle.xl_model.specs.Courses.{Trail};
ghost use Rattle.xl_outside.specs.Folders.{Files, FolderAfter, fate_by};
ghost use Rattle.xl_course.specs.Stops.{stop_fate, StopsSource};
ghost use Rattle.xl_course.specs.Sources.{Gives, Skims};

use crate::stop::Stop;
use xl_lackey::{Batch, Reference};
use xl_outside::Folder;

/// A record of the trace, with its number.
#[derive(Clone, Copy)]
pub struct Numbered {
    pub number: u64,
    pub reference: Reference,
}

/// A trace that is read while it is replayed. It knows of itself which file it reads, if any.
pub trait Source: Sized {
    /// What is left of it, where the folder holds these files.
    ghost left: { Self → Files → Trail };

    /// It was fed from these files alone.
    ghost reads_from: { Self → Files → Type 0 };

    /// How much is left at most, whatever the files.
    ghost size: { Self → ℕ };

    /// The next record, or None at the end.
    fn next<F: Folder>(&mut self, folder: &mut F) -> Result<Option<Numbered>, Stop>
        ensures known { IfSome (F.folder.files folder.old) (λ fs. reads_from self.old fs
            → Gives (reads_from self.new fs) (left self.old fs) (left self.new fs) result) }
        ensures leaves { FolderAfter F.folder folder.old folder.new
            (fate_by stop_fate result) }
        ensures caused { IfErr result StopsSource }
        ensures shrinks { IfOk result (λ r. IsSome r → size self.new < size self.old) };

    /// The next record, where it is at hand: no file is read for it, and it is returned in registers.
    /// None: nothing changes, ask `next`.
    fn next_held(&mut self) -> Option<Numbered>
        ensures some { IfSome result (λ r. (fs : Files) → reads_from self.old fs
            → Gives (reads_from self.new fs) (left self.old fs) (left self.new fs)
            (Ok (Some r))) }
        ensures none { IfNone result (self.new ≡ self.old) }
        ensures shrinks { IsSome result → size self.new < size self.old };

    /// Takes the next records that are held, `most` at most, while each is in Lackey's own form and
    /// its bytes lie in one page; appends their accesses, while there is room. Returns how many
    /// were taken, perhaps none.
    fn skim(&mut self, into: &mut Batch, most: u64) -> u64
        ensures skims { (fs : Files) → reads_from self.old fs
            → Skims (reads_from self.new fs) (left self.old fs) (left self.new fs)
            into.old.items into.new.items result }
        ensures few { result ≤ most }
        ensures no_more { size self.new ≤ size self.old }
        ensures no_fewer { length into.old.items ≤ length into.new.items };
}
