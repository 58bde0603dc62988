//! The form of a run's script.

ghost use Rattle.std.specs.Prelude.{◌≡◌, ◌<◌, ◌≤◌, Result, Ok, Err};
ghost use Rattle.xl_model.specs.declared.script.Command.{Command};
ghost use Rattle.xl_script.specs.Texts.{words_of};
ghost use Rattle.xl_script.specs.Scripts.{Follows};
ghost use Rattle.xl_script.specs.Plain.{plain_said, counted, counted_line, Counts};

use crate::form::Form;
use crate::lines::{named, placed};
use crate::reading::Reason;
use crate::text::next_word;
use std::marker::Model;
use xl_model::Command;

/// The most areas of a script.
const AREAS: u32 = 256;

/// A run's script, as far as it was read: how many areas it has.
#[derive(Drop)]
pub(crate) struct Plain {
    areas: u32,
}

impl Model for Plain {
    ghost use Rattle.std.specs.Prelude.{ℕ};

    ghost Value = { ℕ };

    ghost view = { λ p. p.areas };
}

impl Plain {
    /// A script of which nothing was read.
    pub(crate) fn new() -> Plain
        ensures { result ≡ 0 }
    {
        Plain { areas: 0 }
    }

    /// Counts the area that a command declares, if it is one.
    fn count(&mut self, command: Command) -> Result<Command, Reason>
        ensures { Counts result self.new (counted self.old command) }
    {
        if let Command::Demand { .. } = command {
            if self.areas >= AREAS {
                return Err(Reason::TooManyAreas);
            }
            self.areas += 1;
        }
        Ok(command)
    }

    /// The command of a line, by its first word and what follows it.
    fn command(&mut self, first: &[u8], rest: &[u8]) -> Result<Command, Reason>
        ensures { Counts result self.new (counted_line self.old first.now (words_of rest.now)) }
    {
        let command = placed(named(first, rest)?)?;
        self.count(command)
    }
}

impl Form for Plain {
    type Command = Command;

    ghost said = { plain_said };

    fn read_line(&mut self, line: &[u8]) -> Result<Option<Command>, u8>
        ensures { Follows result self.new (plain_said self.old (words_of line.now)) }
    {
        let Some((first, rest)) = next_word(line) else {
            return Ok(None);
        };
        match self.command(first, rest) {
            Ok(command) => Ok(Some(command)),
            Err(reason) => Err(reason.code()),
        }
    }
}
