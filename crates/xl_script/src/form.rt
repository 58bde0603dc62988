//! A text of lines, read into commands.

ghost use Rattle.std.specs.Prelude.{◌≡◌, ◌<◌, ◌↔◌, ◌+◌, ◌==◌, count_by, ◌++◌, ◌∷◌, [], length, ℕ, List, OnOk, IfErr};
ghost use Rattle.xl_script.specs.Texts.{words_of};
ghost use Rattle.xl_script.specs.Scripts.{Said, Follows, Gives, Adds, text_read};

use crate::fault::ScriptFault;
use crate::text::line;
use memchr::memchr_iter;
use std::alloc::Global;

/// The most bytes that a script may have.
const LIMIT: usize = 1_048_576;

/// A kind of script: what its lines say, one after another.
pub trait Form {
    /// What a line may give.
    type Command: Drop;

    /// What the words of a line say after the lines before it.
    ghost said: { Self → List (List ℕ) → Said Self Self.Command };

    /// The command of the next line; None where it has none. Else the number of the first reason
    /// for which it is bad.
    fn read_line(&mut self, line: &[u8]) -> Result<Option<Self::Command>, u8>
        ensures { Follows result self.new (said self.old (words_of line.now)) };
}

/// The number of lines of a text, at least, so that it has no more commands.
fn count_lines(text: &[u8]) -> usize
    ensures { result ≡ count_by (λ byte. byte == 10) text.now + 1 }
{
    memchr_iter(b'\n', text).count() + 1
}

/// Puts a command after the others.
fn push<C: Drop>(commands: &mut Vec<C>, command: C) -> Result<(), ScriptFault>
    ensures ok { OnOk result (commands.new.items ≡ commands.old.items ++ command ∷ []) }
    ensures err { IfErr result (λ f. f ≡ ScriptFault.NoMemory) }
{
    if commands.push(command).is_err() {
        return Err(ScriptFault::NoMemory);
    }
    Ok(())
}

/// Takes in the next line, which has this number.
fn add_line<F: Form>(
    commands: &mut Vec<F::Command>,
    form: &mut F,
    number: u64,
    line: &[u8],
) -> Result<(), ScriptFault>
    ensures { Adds result commands.old.items commands.new.items form.new number
        (F.said form.old (words_of line.now)) }
{
    match form.read_line(line) {
        Ok(Some(command)) => push(commands, command),
        Ok(None) => Ok(()),
        Err(reason) => Err(ScriptFault::BadLine {
            line: number,
            reason,
        }),
    }
}

/// The commands of a text of this form. It is too long where it has more than 1,048,576 bytes; else
/// it is refused by its first bad line. Where there is no memory, the answer may be that. The form
/// has then read all lines up to the first bad one.
#[tactic(auto, unfolding(crate::specs::Scripts::text_read))]
pub fn read_text<F: Form>(
    alloc: Global,
    text: &[u8],
    form: &mut F,
) -> Result<Vec<F::Command>, ScriptFault>
    ensures reading { Gives (λ v. v.items) result form.new (text_read F.said form.old text.now) }
    ensures too_long { (result ≡ Err ScriptFault.TooLong) ↔ (1048576 < length text.now) }
{
    if text.len() > LIMIT {
        return Err(ScriptFault::TooLong);
    }
    let mut commands = Vec::with_capacity(alloc, count_lines(text))?;
    let mut number = 1;
    let mut at = 0;
    while at < text.len() {
        let (end, next) = line(text, at);
        add_line(&mut commands, form, number, &text[at..end])?;
        at = next;
        number += 1;
    }
    Ok(commands)
}
