//! Memory by itself.

ghost use Rattle.std.specs.Prelude.{◌≡◌, ◌+◌, ◌*◌, ◌%◌, ◌^◌, ◌<◌, ◌≤◌, length, slice_set, replicate, IfOk};

use crate::bus::{Bus, line_of};
use std::alloc::Global;
use std::marker::Model;
use xl_model::NoMemory;

/// Memory of words, all 0 at first. Contracts see its words and its loads.
#[derive(Drop)]
pub struct PhysMem {
    words: Vec<u64>,
    loads: u64,
}

impl Model for PhysMem {
    ghost use Rattle.xl_phys.specs.Lines.{Memory};

    ghost Value = { Memory };

    ghost view = { λ m. record { words = m.words.items; loads = m.loads } };
}

impl PhysMem {
    /// A memory of `words` words. Each is 0, and no load was made.
    ///
    /// # Errors
    ///
    /// `NoMemory` where there is no memory.
    pub fn open(alloc: Global, words: usize) -> Result<PhysMem, NoMemory>
        requires lines { words % 4 ≡ 0 }
        requires small { words ≤ 2 ^ 23 }
        ensures words { IfOk result (λ m. m.words ≡ replicate words 0) }
        ensures loads { IfOk result (λ m. m.loads ≡ 0) }
    {
        let words = vec![in alloc; 0u64; words]?;
        Ok(PhysMem { words, loads: 0 })
    }

    /// Puts `value` in place of word `at`, without a load.
    pub fn poke(&mut self, at: usize, value: u64)
        requires { at < length self.old.words }
        ensures words { self.new.words ≡ slice_set self.old.words at value }
        ensures loads { self.new.loads ≡ self.old.loads }
    {
        self.words[at] = value;
    }
}

impl Bus for PhysMem {
    ghost use Rattle.std.specs.Prelude.{refl};
    ghost use Rattle.xl_phys.specs.Lines.{counted};

    ghost words = { λ m. m.words };

    ghost count = { λ m. m.loads };

    ghost loaded = { λ m. record m { loads = counted m.loads } };

    fn load(&mut self, line: usize) -> Option<[u64; 4]> {
        self.loads = self.loads.wrapping_add(1);
        line_of(&self.words, line)
    }

    fn loads(&self) -> u64 {
        self.loads
    }

    ghost words_stay = { λ m. refl };

    ghost counts_one = { λ m. refl };
}
