//! A change of the current space.

ghost use Rattle.std.specs.Prelude.{◌≡◌, None};
ghost use Rattle.xl_model.specs.declared.event.Event.TheVariants as event;
ghost use Rattle.xl_machine.specs.Rules.{rule_of};
ghost use Rattle.xl_machine.specs.Served.{after_of};

use crate::machine::Machine;
use xl_model::Structure;

impl<S: Structure> Machine<S> {
    /// Makes a space of the row the current one.
    pub(crate) fn switch(&mut self, space: u16)
        requires { rule_of (event.Space space) self.old ≡ None }
        ensures { self.new ≡ after_of (event.Space space) self.old }
    {
        self.space = space;
        self.counts.accept();
    }
}
