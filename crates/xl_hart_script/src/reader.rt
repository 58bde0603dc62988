//! The reading of a script, line by line.

ghost use Rattle.std.specs.Prelude.{◌≡◌, None, IfSome};
ghost use Rattle.xl_hart_laws.specs.Kept.{IsHartSpec};
ghost use Rattle.xl_script.specs.Scripts.{Follows};
ghost use Rattle.xl_script.specs.Texts.{words_of};
ghost use Rattle.xl_hart_script.specs.Scripts.{harts_said};

use crate::command::{HartCommand, Line};
use crate::lines::line_of;
use std::marker::Model;
use xl_hart_model::HartSpec;
use xl_script::Form;
use xl_script::reading::first_word;

/// A script, as far as it was read: it has a head once that was read.
#[derive(Drop)]
pub(crate) struct Reader {
    head: Option<HartSpec>,
}

impl Model for Reader {
    ghost use Rattle.std.specs.Prelude.{Option, IfSome};
    ghost use Rattle.xl_hart_model.specs.declared.hart.HartSpec.{HartSpec};
    ghost use Rattle.xl_hart_laws.specs.Kept.{IsHartSpec};

    ghost Value = { Option HartSpec };

    ghost view = { λ r. r.head };

    ghost invariant = { λ r. IfSome r.head IsHartSpec };
}

impl Reader {
    /// A script of which nothing was read.
    pub(crate) fn new() -> Reader
        ensures { result ≡ None }
    {
        Reader { head: None }
    }

    /// The head, if it was read.
    pub(crate) fn head(&self) -> Option<HartSpec>
        ensures value { result ≡ self.now }
        ensures limits { IfSome result IsHartSpec }
    {
        self.head
    }
}

impl Form for Reader {
    type Command = HartCommand;

    ghost said = { harts_said };

    fn read_line(&mut self, line: &[u8]) -> Result<Option<HartCommand>, u8>
        ensures { Follows result self.new (harts_said self.old (words_of line.now)) }
    {
        let Some(first) = first_word(line) else {
            return Ok(None);
        };
        match line_of(self.head.is_some(), first, line) {
            Ok(Line::Head(spec)) => {
                self.head = Some(spec);
                Ok(None)
            }
            Ok(Line::Own(command)) => Ok(Some(command)),
            Err(reason) => Err(reason.code()),
        }
    }
}
