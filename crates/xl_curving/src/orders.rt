//! What a run of the form is asked for.

ghost use Rattle.std.specs.Prelude.{◌≡◌, false};
ghost use Rattle.xl_serving.specs.Plain.{steps_of};

use xl_course::{Orders, Step};
use xl_model::Command;
use xl_serving::PlainOrders;

/// What a run of the form is asked for: the script of a plain run, and the number of sets.
#[derive(Clone, Copy)]
pub struct CurveOrders<'a> {
    pub plain: PlainOrders<'a>,
    pub sets: u32,
}

impl Orders for CurveOrders<'_> {
    type Command = Command;

    type End = u32;

    ghost steps = { λ o. steps_of o.plain.script.now };

    ghost answers = { λ _. false };

    ghost end = { λ o. o.sets };

    fn len(&self) -> usize {
        self.plain.len()
    }

    fn step(&self, i: usize) -> Step<Command> {
        self.plain.step(i)
    }

    fn answers(&self) -> bool {
        false
    }

    fn end(&self) -> u32 {
        self.sets
    }
}
