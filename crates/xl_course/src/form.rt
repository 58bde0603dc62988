//! What a form of the program serves, and how.

ghost use Rattle.std.specs.Prelude.{◌≡◌, ℕ, ◌<◌, ◌≤◌, Bool, List, [], ◌∷◌, length, slice_get, Some, is_ok};
ghost use Rattle.xl_outside.specs.Folders.{Files};
ghost use Rattle.xl_course.specs.declared.form.Step.{Step};
ghost use Rattle.xl_course.specs.Meanings.{Meaning};
ghost use Rattle.xl_course.specs.Serving.{HasServed, Skimmed};
ghost use Rattle.xl_course.specs.Accounts.{EndAfter};

use crate::source::Source;
use crate::stop::Stop;
use xl_lackey::Access;
use xl_outside::{Failed, Sink};

/// A step of a script: a command of the form's own, or records of the trace.
#[derive(Clone, Copy)]
pub enum Step<C> {
    /// A command.
    Own(C),
    /// The next `n` records of the trace, or as many as are left.
    Run(u64),
    /// All records that are left.
    RunRest,
}

/// What a run is asked for, beside its trace: a script, lines of its accesses and commands, and the
/// end of its report.
pub trait Orders {
    /// The commands of the script.
    type Command: Copy;

    /// What is asked for at the end of the report.
    type End: Copy;

    /// The steps of the script.
    ghost steps: { Self → List (Step Self.Command) };

    /// Whether lines of accesses and commands are asked for.
    ghost answers: { Self → Bool };

    /// The end that is asked for.
    ghost end: { Self → Self.End };

    /// How many steps the script has.
    fn len(&self) -> usize
        ensures { result ≡ length (steps self.now) };

    /// The step of this number, from 0.
    fn step(&self, i: usize) -> Step<Self::Command>
        requires { i < length (steps self.now) }
        ensures { slice_get (steps self.now) i ≡ Some result };

    /// Whether lines of accesses and commands are asked for.
    fn answers(&self) -> bool
        ensures { result ≡ answers self.now };

    /// The end that is asked for.
    fn end(&self) -> Self::End
        ensures { result ≡ end self.now };
}

/// A form of the program: how it serves commands and accesses to what a rack holds, and how it ends
/// its report. It may keep state beside the rack, and queue items where no line is written.
pub trait Form<R>: Sized {
    /// The commands of its script.
    type Command: Copy;

    /// What is asked for at the end of its report.
    type End: Copy;

    /// What is served, one after another.
    ghost Item: { Type 0 };

    /// What items change.
    ghost State: { Type 0 };

    /// What commands and accesses are, what items do, and their lines.
    ghost meaning: { Meaning Self.Command Item State };

    /// The state once the queue is flushed.
    ghost state: { Self → R → State };

    /// These commands may still be served, one after another.
    ghost can: { Self → R → List Self.Command → Type 0 };

    /// The end of the report.
    ghost last: { Self.End → State → List ℕ };

    /// Whether it is made in memory before it is put.
    ghost late: { Self.End → Bool };

    /// What the rack holds of a state.
    ghost holds: { R → State → Type 0 };

    /// Serves a command.
    fn command<K: Sink>(
        &mut self,
        rack: &mut R,
        command: Self::Command,
        answers: bool,
        out: &mut K,
    ) -> Result<(), Failed>
        requires { (rest : List Self.Command) × can self.old rack.old (command ∷ rest) }
        ensures served { HasServed meaning K.sink answers
            (meaning.items command) (state self.old rack.old) (state self.new rack.new)
            out.old out.new (is_ok result) }
        ensures can { (rest : List Self.Command)
            → can self.old rack.old (command ∷ rest) → can self.new rack.new rest };

    /// Serves an access of the record of this number. It may be queued where no line is written.
    fn access<K: Sink>(
        &mut self,
        rack: &mut R,
        number: u64,
        access: Access,
        answers: bool,
        out: &mut K,
    ) -> Result<(), Failed>
        ensures served { HasServed meaning K.sink answers
            (meaning.referenced number access.va access.kind ∷ [])
            (state self.old rack.old) (state self.new rack.new) out.old out.new (is_ok result) }
        ensures can { (commands : List Self.Command)
            → can self.old rack.old commands → can self.new rack.new commands };

    /// Serves the accesses of the next records, of `most` at most and perhaps none, of which no
    /// line is written. Returns of how many records.
    fn skim<T: Source>(&mut self, rack: &mut R, source: &mut T, most: u64) -> u64
        ensures skims { (fs : Files) → T.reads_from source.old fs
            → Skimmed meaning (T.reads_from source.new fs) (T.left source.old fs)
            (T.left source.new fs)
            (state self.old rack.old) (state self.new rack.new) result }
        ensures few { result ≤ most }
        ensures no_more { T.size source.new ≤ T.size source.old }
        ensures can { (commands : List Self.Command)
            → can self.old rack.old commands → can self.new rack.new commands };

    /// Flushes the queue, and writes the end of the report.
    fn finish<K: Sink>(&mut self, rack: &mut R, end: Self::End, out: &mut K) -> Result<(), Stop>
        ensures written { EndAfter K.sink (late end)
            (last end (state self.old rack.old)) out.old out.new result }
        ensures holds { holds rack.new (state self.old rack.old) };
}
