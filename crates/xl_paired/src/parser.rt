//! The reading of a script's file.

ghost use Rattle.std.specs.Prelude.{◌≡◌, ℕ, List, Result, take, IfErr, IfSome};
ghost use Rattle.xl_outside.specs.Folders.{FolderAfter, fate_by, Fine};
ghost use Rattle.xl_script.specs.declared.fault.ScriptFault.{ScriptFault};
ghost use Rattle.xl_course.specs.Stops.{stop_fate, StopsOpening};
ghost use Rattle.xl_serving.specs.Inputs.{Finds};
ghost use Rattle.xl_paired.specs.Pairs.{Reads, script_in, script_said};

use std::alloc::Global;
use xl_course::Stop;
use xl_outside::{Folder, read_whole};
use xl_script::ScriptFault;
use xl_serving::script_stop;

/// The most bytes of a script.
const MOST: usize = 1_048_576;

/// A reader of scripts.
pub trait Parser {
    /// A script that was read.
    type Script;

    /// What a script says.
    ghost Said: { Type 0 };

    /// What a script that was read says.
    ghost said: { Self.Script → Said };

    /// What a text says, or why it is refused.
    ghost says: { List ℕ → Result Said ScriptFault };

    /// Reads a script. Where there is no memory, the answer may be that.
    fn parse(alloc: Global, text: &[u8]) -> Result<Self::Script, ScriptFault>
        ensures { Reads said result (says text.now) };

    /// A text with more bytes than a script may have is refused by the first of them.
    ghost cut: { (text : List ℕ) → says (take 1048577 text) ≡ says text };
}

/// Reads the script of the file of this name.
///
/// # Errors
///
/// What is wrong with the file or its text, or that a read failed, or that there is no memory.
pub fn read_script<P: Parser, F: Folder>(
    alloc: Global,
    folder: &mut F,
    name: &str,
) -> Result<P::Script, Stop>
    ensures known { IfSome (F.folder.files folder.old) (λ fs.
        Finds P.said result (script_in P.says name.now fs)) }
    ensures leaves { FolderAfter F.folder folder.old folder.new
        (fate_by stop_fate result) }
    ensures before { IfErr result StopsOpening }
{
    let text = read_whole(alloc, folder, name, MOST)?;
    script_of::<P>(alloc, text.as_slice())
}

/// The script of a text.
fn script_of<P: Parser>(alloc: Global, text: &[u8]) -> Result<P::Script, Stop>
    ensures said { Finds P.said result (script_said P.says text.now) }
    ensures before { IfErr result StopsOpening }
    ensures fine { fate_by stop_fate result ≡ Fine }
{
    match P::parse(alloc, text) {
        Ok(script) => Ok(script),
        Err(fault) => Err(script_stop(fault)),
    }
}
