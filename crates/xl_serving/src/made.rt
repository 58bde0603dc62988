//! The made trace, whose records are taken as they are made.

ghost use Rattle.std.specs.Prelude.{◌≡◌, ◌<◌, length, None, IfSome, IfNone, IsSome};
ghost use Rattle.xl_model.specs.Courses.{at_end};
ghost use Rattle.xl_course.specs.Sources.{found_of};
ghost use Rattle.xl_serving.specs.Traces.{made_left, made_trail, with_record};

use std::marker::Model;
use xl_course::{Numbered, Source, Stop};
use xl_lackey::Batch;
use xl_made::MadeTrace;
use xl_outside::Folder;

/// A made trace. What is left of it is what its text would be read as, which is never written: each
/// record is taken as its line says it.
#[derive(Drop)]
pub struct MadeTape {
    trace: MadeTrace,
    /// How many records were given, modulo 2^64.
    given: u64,
}

impl Model for MadeTape {
    ghost use Rattle.xl_serving.specs.Traces.{MadeProgress};

    ghost Value = { MadeProgress };

    ghost view = { λ t. record { given = t.given; rest = t.trace } };
}

impl Source for MadeTape {
    ghost left = { λ t _. made_left t };

    ghost reads_from = { λ _ _. Unit {0} };

    ghost size = { λ t. length t.rest };

    fn next<F: Folder>(&mut self, _folder: &mut F) -> Result<Option<Numbered>, Stop> {
        match self.take_next() {
            Some(found) => Ok(Some(found)),
            None => Ok(None),
        }
    }

    fn next_held(&mut self) -> Option<Numbered> {
        self.take_next()
    }

    fn skim(&mut self, into: &mut Batch, most: u64) -> u64 {
        let taken = self.trace.skim(into, most);
        self.given = self.given.wrapping_add(taken);
        taken
    }
}

impl MadeTape {
    /// The trace of `n` records, of which none was given yet.
    pub fn of(n: u32) -> MadeTape
        ensures { made_left result ≡ made_trail n }
    {
        MadeTape {
            trace: MadeTrace::new(n),
            given: 0,
        }
    }

    /// The next record, or None at the end.
    fn take_next(&mut self) -> Option<Numbered>
        ensures some { IfSome result
            (λ r. made_left self.old ≡ with_record (found_of r) (made_left self.new)) }
        ensures none { IfNone result (made_left self.old ≡ at_end None) }
        ensures same { IfNone result (self.new ≡ self.old) }
        ensures shrinks { IsSome result → length self.new.rest < length self.old.rest }
    {
        let number = self.given.wrapping_add(1);
        let Some(reference) = self.trace.next(number) else {
            return None;
        };
        self.given = number;
        Some(Numbered { number, reference })
    }
}
