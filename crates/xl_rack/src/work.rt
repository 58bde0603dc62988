//! What rows are served without lines.

ghost use Rattle.std.specs.Prelude.{◌≡◌};
ghost use Rattle.xl_model.specs.Scenes.{Served};

use xl_machine::Machine;
use xl_model::Structure;

/// What a row is served. A call is compiled for each type, so that its kind is known where it is
/// served.
pub(crate) trait Work {
    /// The row after it.
    ghost done: { Self → Served → Served };

    /// Serves it to a machine.
    fn serve<S: Structure>(&self, machine: &mut Machine<S>)
        ensures done { machine.new ≡ done self.now machine.old }
        ensures row { machine.new.row ≡ machine.old.row };
}
