//! Where the records of a run come from: a file, or none.

ghost use Rattle.std.specs.Prelude.{◌≡◌, ℕ, List, Option, None, IfOk};
ghost use Rattle.xl_model.specs.Courses.{at_end};
ghost use Rattle.xl_outside.specs.Folders.{file_of};
ghost use Rattle.xl_serving.specs.Traces.{left_of, trail_of};
ghost use Rattle.xl_serving.specs.Tapes.{IsFedFrom, size_of};

use crate::tape::Tape;
use std::alloc::Global;
use xl_course::{Numbered, Source, Stop};
use xl_lackey::Batch;
use xl_model::NoMemory;
use xl_outside::Folder;

/// The trace of a file, by its name.
#[derive(Drop)]
pub struct TraceFile<'a> {
    name: &'a str,
    tape: Tape,
}

impl<'a> TraceFile<'a> {
    /// The trace of the file of this name, of which nothing was read yet. All memory that it wants
    /// is taken here.
    pub fn open(alloc: Global, name: &'a str) -> Result<TraceFile<'a>, NoMemory>
        ensures name { IfOk result (λ t. t.name.now ≡ name.entry.now) }
        ensures unread { IfOk result (λ t. (file : Option (List ℕ)) → IsFedFrom file t.tape
            × (left_of file t.tape ≡ trail_of file)) }
    {
        let tape = Tape::open(alloc)?;
        Ok(TraceFile { name, tape })
    }
}

impl Source for TraceFile<'_> {
    ghost left = { λ t fs. left_of (file_of fs t.name.now) t.tape };

    ghost reads_from = { λ t fs. IsFedFrom (file_of fs t.name.now) t.tape };

    ghost size = { λ t. size_of t.tape };

    #[inline(always)]
    fn next<F: Folder>(&mut self, folder: &mut F) -> Result<Option<Numbered>, Stop> {
        self.tape.next(folder, self.name)
    }

    #[inline(always)]
    fn next_held(&mut self) -> Option<Numbered> {
        self.tape.next_held()
    }

    #[inline(always)]
    fn skim(&mut self, into: &mut Batch, most: u64) -> u64 {
        self.tape.skim(into, most)
    }
}

/// The trace of a run that names none: it has no records.
#[derive(Drop)]
pub struct NoTrace;

impl Source for NoTrace {
    ghost left = { λ _ _. at_end None };

    ghost reads_from = { λ _ _. Unit {0} };

    ghost size = { λ _. 0 };

    fn next<F: Folder>(&mut self, _folder: &mut F) -> Result<Option<Numbered>, Stop> {
        Ok(None)
    }

    fn next_held(&mut self) -> Option<Numbered> {
        None
    }

    fn skim(&mut self, _into: &mut Batch, _most: u64) -> u64 {
        0
    }
}
