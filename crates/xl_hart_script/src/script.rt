//! A script, and its reading.

ghost use Rattle.std.specs.Prelude.{◌≡◌, ◌<◌, ◌↔◌, Some, All, length, slice_get};
ghost use Rattle.xl_hart_laws.specs.Kept.{IsHartSpec};
ghost use Rattle.xl_hart_script.specs.Scripts.{harts_script_of, Answers, IsReady};

use crate::command::HartCommand;
use crate::reader::Reader;
use std::alloc::Global;
use std::marker::Model;
use std::mem::size_of;
use xl_hart_model::HartSpec;
use xl_script::{ScriptFault, read_text};

/// A line takes no more memory than this.
const _: () = prove!(size_of::<HartCommand>() <= 64);

/// The limits in the head of a script, and its commands in the order of its lines. All that they
/// name lies in 64 bits, and no event is a fence.
#[derive(Drop)]
pub struct HartScript {
    spec: HartSpec,
    commands: Vec<HartCommand>,
}

impl Model for HartScript {
    ghost use Rattle.std.specs.Prelude.{All};
    ghost use Rattle.xl_hart_laws.specs.Kept.{IsHartSpec};
    ghost use Rattle.xl_hart_script.specs.Scripts.{HartText, IsReady};

    ghost Value = { HartText };

    ghost view = { λ s. record { spec = s.spec; commands = s.commands.items } };

    ghost invariant = { λ s. IsHartSpec s.spec × All IsReady s.commands.items };
}

impl HartScript {
    /// The limits of the head.
    pub fn spec(&self) -> HartSpec
        ensures value { result ≡ self.now.spec }
        ensures limits { IsHartSpec result }
    {
        self.spec
    }

    /// The number of commands.
    pub fn len(&self) -> usize
        ensures value { result ≡ length self.now.commands }
        ensures ready { All IsReady self.now.commands }
    {
        self.commands.len()
    }

    /// The command at this place, from 0. What it names lies in 64 bits, and its events are no
    /// fences.
    pub fn command(&self, i: usize) -> HartCommand
        requires { i < length self.now.commands }
        ensures value { slice_get self.now.commands i ≡ Some result }
        ensures ready { IsReady result }
    {
        self.commands[i]
    }
}

/// Reads a script. It is too long where it has more than 1,048,576 bytes; else it is refused by its
/// first bad line, or at line 1 where it has no head. Where there is no memory, the answer may be
/// that.
///
/// The reasons of a bad line: 1, its first word names no line; 8, it is a head and not the first
/// line, or no head and the first; 2, it has too few or too many words; 3, a number or an address,
/// or a head with fewer nodes than spaces; 4, a page's size; 5, a permission; 6, it names bytes
/// past the last address. 1 and 8 are tested first, 2 before the words, and each word in turn.
#[tactic(auto, unfolding(crate::specs::Scripts::harts_script_of))]
pub fn parse_harts(alloc: Global, text: &[u8]) -> Result<HartScript, ScriptFault>
    ensures reading { Answers result (harts_script_of text.now) }
    ensures too_long { (result ≡ Err ScriptFault.TooLong) ↔ (1048576 < length text.now) }
{
    let mut reader = Reader::new();
    let commands = read_text(alloc, text, &mut reader)?;
    match reader.head() {
        Some(spec) => Ok(HartScript { spec, commands }),
        None => Err(ScriptFault::BadLine { line: 1, reason: 8 }),
    }
}
