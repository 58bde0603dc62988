//! A script, and its reading.

ghost use Rattle.std.specs.Prelude.{◌≡◌, ◌<◌, ◌↔◌, Some, All, length, slice_get};
ghost use Rattle.xl_nested_model.specs.Nested.{IsNest};
ghost use Rattle.xl_nested_script.specs.Scripts.{nest_script_of, Answers, IsReady};

use crate::command::NestCommand;
use crate::reader::Reader;
use std::alloc::Global;
use std::marker::Model;
use std::mem::size_of;
use xl_nested_model::Nest;
use xl_script::{ScriptFault, read_text};

/// A line takes no more memory than this.
const _: () = prove!(size_of::<NestCommand>() <= 64);

/// The sizes in the head of a script, and its commands in the order of its lines. All that they
/// name lies in 64 bits, and each map at the host is for users.
#[derive(Drop)]
pub struct NestScript {
    nest: Nest,
    commands: Vec<NestCommand>,
}

impl Model for NestScript {
    ghost use Rattle.std.specs.Prelude.{All};
    ghost use Rattle.xl_nested_model.specs.Nested.{IsNest};
    ghost use Rattle.xl_nested_script.specs.Scripts.{IsReady, NestText};

    ghost Value = { NestText };

    ghost view = { λ s. record { nest = s.nest; commands = s.commands.items } };

    ghost invariant = { λ s. IsNest s.nest × All IsReady s.commands.items };
}

impl NestScript {
    /// The sizes, in their limits.
    pub fn nest(&self) -> Nest
        ensures value { result ≡ self.now.nest }
        ensures limits { IsNest result }
    {
        self.nest
    }

    /// The number of commands.
    pub fn len(&self) -> usize
        ensures value { result ≡ length self.now.commands }
        ensures ready { All IsReady self.now.commands }
    {
        self.commands.len()
    }

    /// The command at this place, from 0. What it names lies in 64 bits, and a map at the host is
    /// for users.
    pub fn command(&self, i: usize) -> NestCommand
        requires { i < length self.now.commands }
        ensures value { slice_get self.now.commands i ≡ Some result }
        ensures ready { IsReady result }
    {
        self.commands[i]
    }
}

/// Reads a script. It is too long where it has more than 1,048,576 bytes; else it is refused by its
/// first bad line, or at line 1 where it has no head. Where there is no memory, the answer may be
/// that.
///
/// The reasons of a bad line: 1, its first word names no line; 8, it is a head and not the first
/// line, or no head and the first; 2, it has too few or too many words; 3, a number or an address;
/// 4, a page's size; 5, a permission, or one without u of a map at the host; 6, it names bytes past
/// the last address, or the guest's nodes aren't all guest pages. 1 and 8 are tested first, 2
/// before the words, and each word in turn.
#[tactic(auto, unfolding(crate::specs::Scripts::nest_script_of))]
pub fn parse_nest(alloc: Global, text: &[u8]) -> Result<NestScript, ScriptFault>
    ensures reading { Answers result (nest_script_of text.now) }
    ensures too_long { (result ≡ Err ScriptFault.TooLong) ↔ (1048576 < length text.now) }
{
    let mut reader = Reader::new();
    let commands = read_text(alloc, text, &mut reader)?;
    match reader.head() {
        Some(nest) => Ok(NestScript { nest, commands }),
        None => Err(ScriptFault::BadLine { line: 1, reason: 8 }),
    }
}
