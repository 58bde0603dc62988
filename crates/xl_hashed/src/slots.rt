//! One leaf under a tag: its word is value 0 of the tag's entry.

ghost use Rattle.std.specs.Prelude.{◌≡◌, ◌≤◌, false, true, length, OnOk, OnErr};
ghost use Rattle.xl_model.specs.Chains.{has_tag};
ghost use Rattle.xl_chain.specs.Held.{tags_of};
ghost use Rattle.xl_tagged.specs.Forms.{One, values_under, word_at};
ghost use Rattle.xl_tagged.specs.Groups.{IsFull};
ghost use Rattle.xl_tagged.specs.Steps.{IsPut, IsSet, IsTaken, given_word};
ghost use Rattle.xl_tagged.specs.Tagged.{AreSized};

use xl_chain::{Chains, Seek};
use xl_model::{Full, Perm};
use xl_tagged::give_perm;

/// Puts a word under a tag that isn't held.
pub(crate) fn put(chains: &mut Chains<1>, tag: u64, word: u64) -> Result<(), Full>
    requires absent { has_tag (tags_of chains.old.held) tag ≡ false }
    requires sized { AreSized One chains.old.held }
    ensures ok { OnOk result (IsPut One tag 0 word chains.old chains.new) }
    ensures full { OnErr result (IsFull tag chains.old) }
    ensures same { OnErr result (chains.new ≡ chains.old) }
{
    chains.insert(tag, [word])
}

/// Takes a tag out that is held.
pub(crate) fn take(chains: &mut Chains<1>, tag: u64)
    requires held { has_tag (tags_of chains.old.held) tag ≡ true }
    requires sized { AreSized One chains.old.held }
    requires within { length chains.old.held ≤ chains.old.shape.entries }
    ensures { IsTaken One tag 0 chains.old chains.new }
{
    chains.remove(tag);
}

/// Gives the leaf under a tag that is held another permission.
pub(crate) fn give(chains: &mut Chains<1>, tag: u64, perm: Perm)
    requires held { has_tag (tags_of chains.old.held) tag ≡ true }
    requires sized { AreSized One chains.old.held }
    requires within { length chains.old.held ≤ chains.old.shape.entries }
    ensures { IsSet One tag 0 (given_word perm (word_at One (values_under chains.old.held) tag 0))
        chains.old chains.new }
{
    chains.words_read_back();
    match chains.look(tag) {
        Seek::Found { entry, value } => chains.set_value(entry, 0, give_perm(value, perm)),
        _ => unreachable!(),
    }
}
