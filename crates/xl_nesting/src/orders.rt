//! What a run of the form is asked for.

ghost use Rattle.std.specs.Prelude.{All, map};
ghost use Rattle.xl_course.specs.Courses.{commands_of};
ghost use Rattle.xl_nested_script.specs.Lines.{IsPlaced};
ghost use Rattle.xl_nesting.specs.Nesting.{step_of};

use xl_course::{Orders, Step};
use xl_nested_script::{NestCommand, NestScript};

/// What a run is asked for: a script, and whether a line is wanted for each access.
#[derive(Clone, Copy)]
pub struct NestOrders<'a> {
    pub script: &'a NestScript,
    pub answers: bool,
}

impl NestOrders<'_> {
    /// What the script's commands name lies in 64 bits.
    pub(crate) fn fit(&self)
        ensures { All IsPlaced (commands_of (map step_of self.now.script.now.commands)) }
    {
        let _len = self.script.len();
    }
}

impl Orders for NestOrders<'_> {
    type Command = NestCommand;

    type End = ();

    ghost steps = { λ o. map step_of o.script.now.commands };

    ghost answers = { λ o. o.answers };

    ghost end = { λ _. tt };

    fn len(&self) -> usize {
        self.script.len()
    }

    fn step(&self, i: usize) -> Step<NestCommand> {
        match self.script.command(i) {
            NestCommand::Run { n } => Step::Run(n),
            NestCommand::RunRest => Step::RunRest,
            command => Step::Own(command),
        }
    }

    fn answers(&self) -> bool {
        self.answers
    }

    fn end(&self) {}
}
