//! The reading of a script, line by line.

ghost use Rattle.std.specs.Prelude.{◌≡◌, None, IfSome};
ghost use Rattle.xl_nested_model.specs.Nested.{IsNest};
ghost use Rattle.xl_script.specs.Scripts.{Follows};
ghost use Rattle.xl_script.specs.Texts.{words_of};
ghost use Rattle.xl_nested_script.specs.Scripts.{nest_said};

use crate::command::{Line, NestCommand};
use crate::lines::line_of;
use std::marker::Model;
use xl_nested_model::Nest;
use xl_script::Form;
use xl_script::reading::first_word;

/// A script, as far as it was read: it has a head once that was read.
#[derive(Drop)]
pub(crate) struct Reader {
    head: Option<Nest>,
}

impl Model for Reader {
    ghost use Rattle.std.specs.Prelude.{Option, IfSome};
    ghost use Rattle.xl_nested_model.specs.declared.nest.Nest.{Nest};
    ghost use Rattle.xl_nested_model.specs.Nested.{IsNest};

    ghost Value = { Option Nest };

    ghost view = { λ r. r.head };

    ghost invariant = { λ r. IfSome r.head IsNest };
}

impl Reader {
    /// A script of which nothing was read.
    pub(crate) fn new() -> Reader
        ensures { result ≡ None }
    {
        Reader { head: None }
    }

    /// The head, if it was read.
    pub(crate) fn head(&self) -> Option<Nest>
        ensures value { result ≡ self.now }
        ensures limits { IfSome result IsNest }
    {
        self.head
    }
}

impl Form for Reader {
    type Command = NestCommand;

    ghost said = { nest_said };

    fn read_line(&mut self, line: &[u8]) -> Result<Option<NestCommand>, u8>
        ensures { Follows result self.new (nest_said self.old (words_of line.now)) }
    {
        let Some(first) = first_word(line) else {
            return Ok(None);
        };
        match line_of(self.head.is_some(), first, line) {
            Ok(Line::Head(nest)) => {
                self.head = Some(nest);
                Ok(None)
            }
            Ok(Line::Own(command)) => Ok(Some(command)),
            Err(reason) => Err(reason.code()),
        }
    }
}
