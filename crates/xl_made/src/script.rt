//! The made script.

ghost use Rattle.std.specs.Prelude.{◌≡◌, IfOk, OnOk};
ghost use Rattle.xl_made.specs.Made.{made_script, with_unmap};

use crate::digits::hex_text;
use crate::record::FIRST;
use rand_core::utils::NextWord;
use rand_pcg::Lcg64Xsh32;
use std::alloc::{AllocError, Global};
use xl_model::NoMemory;

/// The script for a made trace of `n` records.
///
/// # Errors
///
/// `NoMemory` where there is no memory.
pub fn made_script(alloc: Global, n: u32) -> Result<Vec<u8>, NoMemory>
    ensures { IfOk result (λ script. script.items ≡ made_script n) }
{
    let mut script = Vec::from_slice(alloc, b"demand 0 10000000 4096 4k rwxu\n")?;
    let mut generator = Lcg64Xsh32::new(42, 55);
    for _ in 0..n / 64 {
        add_unmap(&mut script, generator.next_word())?;
    }
    Ok(script)
}

/// Puts the lines that run 64 records and unmap the page of a word at the script's end.
#[tactic(auto, unfolding(crate::specs::Made::with_unmap))]
fn add_unmap(script: &mut Vec<u8>, word: u32) -> Result<(), AllocError>
    ensures { OnOk result (script.new.items ≡ with_unmap word script.old.items) }
{
    script.extend_from_slice(b"run 64\nunmap 0 ")?;
    script.extend_from_slice(&hex_text(FIRST + word % 4096 * 4096))?;
    script.extend_from_slice(b" 4k\n")
}
