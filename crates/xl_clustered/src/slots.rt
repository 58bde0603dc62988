//! Sixteen slots under a tag.

ghost use Rattle.std.specs.Prelude.{◌≡◌, ◌<◌, ◌≤◌, length, OnOk, OnErr};
ghost use Rattle.xl_tagged.specs.Forms.{Sixteen, values_under, word_at};
ghost use Rattle.xl_tagged.specs.Groups.{IsFull};
ghost use Rattle.xl_tagged.specs.Steps.{IsPut, IsSet, IsTaken, given_word};
ghost use Rattle.xl_tagged.specs.Tagged.{AreSized};
ghost use Rattle.xl_clustered.specs.Blocks.{AreBlocks};

use crate::block::{new_block, rewrite};
use xl_chain::{Chains, Seek};
use xl_model::{Full, Perm};
use xl_tagged::give_perm;

/// Puts a word into an empty slot: into the block of its tag, or into a new block where there is
/// none.
pub(crate) fn put(chains: &mut Chains<17>, tag: u64, slot: usize, word: u64) -> Result<(), Full>
    requires place { (slot < 16) × (0 < word) }
    requires empty { word_at Sixteen (values_under chains.old.held) tag slot ≡ 0 }
    requires sized { AreSized Sixteen chains.old.held }
    requires within { length chains.old.held ≤ chains.old.shape.entries }
    requires blocks { AreBlocks chains.old.held }
    ensures ok { OnOk result (IsPut Sixteen tag slot word chains.old chains.new) }
    ensures full { OnErr result (IsFull tag chains.old) }
    ensures same { OnErr result (chains.new ≡ chains.old) }
    ensures blocks { AreBlocks chains.new.held }
{
    chains.words_read_back();
    match chains.look(tag) {
        Seek::Found { entry, value } => {
            rewrite(chains, entry, value + 1, slot, word);
            Ok(())
        }
        _ => chains.insert(tag, new_block(slot, word)),
    }
}

/// Empties a slot that is in use. A block with no slot in use is removed.
pub(crate) fn take(chains: &mut Chains<17>, tag: u64, slot: usize)
    requires slot { slot < 16 }
    requires used { word_at Sixteen (values_under chains.old.held) tag slot ≡ 0 → ⊥ }
    requires sized { AreSized Sixteen chains.old.held }
    requires within { length chains.old.held ≤ chains.old.shape.entries }
    requires blocks { AreBlocks chains.old.held }
    ensures taken { IsTaken Sixteen tag slot chains.old chains.new }
    ensures blocks { AreBlocks chains.new.held }
{
    chains.words_read_back();
    match chains.look(tag) {
        Seek::Found { entry, value } => {
            if value > 1 {
                rewrite(chains, entry, value - 1, slot, 0);
            } else {
                chains.remove(tag);
            }
        }
        _ => unreachable!(),
    }
}

/// Gives the leaf of a slot that is in use another permission.
pub(crate) fn give(chains: &mut Chains<17>, tag: u64, slot: usize, perm: Perm)
    requires slot { slot < 16 }
    requires used { word_at Sixteen (values_under chains.old.held) tag slot ≡ 0 → ⊥ }
    requires sized { AreSized Sixteen chains.old.held }
    requires within { length chains.old.held ≤ chains.old.shape.entries }
    requires blocks { AreBlocks chains.old.held }
    ensures given { IsSet Sixteen tag slot
        (given_word perm (word_at Sixteen (values_under chains.old.held) tag slot))
        chains.old chains.new }
    ensures blocks { AreBlocks chains.new.held }
{
    chains.words_read_back();
    match chains.look(tag) {
        Seek::Found { entry, value } => {
            let word = chains.value(entry, slot + 1);
            rewrite(chains, entry, value, slot, give_perm(word, perm));
        }
        _ => unreachable!(),
    }
}
