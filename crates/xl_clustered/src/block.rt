//! Words of a block: its number of slots in use is value 0, and its slots are values 1 to 16.

ghost use Rattle.std.specs.Prelude.{◌≡◌, ◌<◌, true};
ghost use Rattle.std.specs.List.{list_any};
ghost use Rattle.xl_chain.specs.Held.{is_entry};
ghost use Rattle.xl_clustered.specs.Blocks.{IsNewBlock, rewritten};

use xl_chain::Chains;

/// The values of a block with one slot in use.
pub(crate) fn new_block(slot: usize, word: u64) -> [u64; 17]
    requires { slot < 16 }
    ensures { IsNewBlock slot word result }
{
    let mut values = [0; 17];
    values[0] = 1;
    values[slot + 1] = word;
    values
}

/// Gives an entry another number of slots in use, and a slot another word.
pub(crate) fn rewrite(chains: &mut Chains<17>, entry: u32, used: u64, slot: usize, word: u64)
    requires held { list_any (is_entry entry) chains.old.held ≡ true }
    requires slot { slot < 16 }
    ensures held { chains.new.held ≡ rewritten entry used slot word chains.old.held }
    ensures shape { chains.new.shape ≡ chains.old.shape }
    ensures loads { chains.new.loads ≡ chains.old.loads }
{
    chains.set_value(entry, 0, used);
    chains.set_value(entry, slot + 1, word);
}
