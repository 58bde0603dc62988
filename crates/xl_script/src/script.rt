//! A script, and its reading.

ghost use Rattle.std.specs.Prelude.{◌≡◌, ◌<◌, ◌≤◌, ◌↔◌, All, length, slice_get, count_by};
ghost use Rattle.xl_script.specs.Placing.{IsPlaced, is_area};
ghost use Rattle.xl_script.specs.Plain.{script_of, Answers};

use crate::fault::ScriptFault;
use crate::form::read_text;
use crate::plain::Plain;
use std::alloc::Global;
use std::marker::Model;
use std::mem::size_of;
use xl_model::Command;

/// A line takes no more memory than this.
const _: () = prove!(size_of::<Command>() <= 64);

/// The commands of a script, in the order of its lines. All that they name lies in 64 bits, and at
/// most 256 of them declare an area.
#[derive(Drop)]
pub struct Script {
    commands: Vec<Command>,
}

impl Model for Script {
    ghost use Rattle.std.specs.Prelude.{List, ◌≤◌, All, count_by};
    ghost use Rattle.xl_model.specs.declared.script.Command.{Command};
    ghost use Rattle.xl_script.specs.Placing.{IsPlaced, is_area};

    ghost Value = { List Command };

    ghost view = { λ s. s.commands.items };

    ghost invariant = { λ s. (All IsPlaced s.commands.items)
        × (count_by is_area s.commands.items ≤ 256) };
}

impl Script {
    /// The number of commands.
    pub fn len(&self) -> usize
        ensures value { result ≡ length self.now }
        ensures few_areas { count_by is_area self.now ≤ 256 }
    {
        self.commands.len()
    }

    /// The command at this place, from 0. What it names lies in 64 bits.
    pub fn command(&self, i: usize) -> Command
        requires { i < length self.now }
        ensures value { slice_get self.now i ≡ Some result }
        ensures placed { IsPlaced result }
    {
        self.commands[i]
    }

    /// All that the commands name lies in 64 bits, and at most 256 of them declare an area.
    pub fn fits(&self)
        ensures placed { All IsPlaced self.now }
        ensures few_areas { count_by is_area self.now ≤ 256 }
    {
        let _commands = &self.commands;
    }
}

/// Reads a script. It is too long where it has more than 1,048,576 bytes; else it is refused by the
/// first line that is no line of a script. Where there is no memory, the answer may be that.
#[tactic(auto, unfolding(crate::specs::Plain::script_of))]
pub fn parse(alloc: Global, text: &[u8]) -> Result<Script, ScriptFault>
    ensures reading { Answers result (script_of text.now) }
    ensures too_long { (result ≡ Err ScriptFault.TooLong) ↔ (1048576 < length text.now) }
{
    let commands = read_text(alloc, text, &mut Plain::new())?;
    Ok(Script { commands })
}
