//! What a run of harts is asked for.

ghost use Rattle.std.specs.Prelude.{All, map};
ghost use Rattle.xl_course.specs.Courses.{commands_of};
ghost use Rattle.xl_hart_script.specs.Scripts.{IsReady};
ghost use Rattle.xl_harting.specs.Harting.{step_of};

use xl_course::{Orders, Step};
use xl_hart_script::{HartCommand, HartScript};

/// What a run is asked for: a script, and whether a line is wanted for each access.
#[derive(Clone, Copy)]
pub struct HartOrders<'a> {
    pub script: &'a HartScript,
    pub answers: bool,
}

impl HartOrders<'_> {
    /// What the script's commands name lies in 64 bits, and no event of them is a fence.
    pub(crate) fn fit(&self)
        ensures { All IsReady (commands_of (map step_of self.now.script.now.commands)) }
    {
        let _len = self.script.len();
    }
}

impl Orders for HartOrders<'_> {
    type Command = HartCommand;

    type End = ();

    ghost steps = { λ o. map step_of o.script.now.commands };

    ghost answers = { λ o. o.answers };

    ghost end = { λ _. tt };

    fn len(&self) -> usize {
        self.script.len()
    }

    fn step(&self, i: usize) -> Step<HartCommand> {
        match self.script.command(i) {
            HartCommand::Run { n } => Step::Run(n),
            HartCommand::RunRest => Step::RunRest,
            command => Step::Own(command),
        }
    }

    fn answers(&self) -> bool {
        self.answers
    }

    fn end(&self) {}
}
