//! A leaf's frame and permission in one word: the frame times 16, and four bits.

ghost use Rattle.std.specs.Prelude.{◌≡◌, ◌<◌};
ghost use Rattle.xl_model.specs.LeafWords.{perm_at, perm_code as code_of_perm, small_leaf};

use crate::address::Order;
use crate::leaf::Leaf;
use crate::perm::Perm;

/// The code of a permission: a bit each for read, write, execute and user.
#[tactic(auto, unfolding(crate::specs::LeafWords::perm_code))]
pub fn perm_code(perm: Perm) -> u64
    ensures value { result ≡ code_of_perm perm }
    ensures small { result < 16 }
{
    perm.r as u64 + perm.w as u64 * 2 + perm.x as u64 * 4 + perm.u as u64 * 8
}

/// The permission in the lowest four bits of a word: read, write, execute and user.
#[tactic(auto, unfolding(crate::specs::LeafWords::perm_at))]
pub fn perm_of(word: u64) -> Perm
    ensures { result ≡ perm_at word }
{
    let w = word / 2 % 2 == 1;
    let x = word / 4 % 2 == 1;
    let u = word / 8 % 2 == 1;
    if word % 2 == 1 {
        return Perm { r: true, w, x, u };
    }
    Perm {
        r: false,
        w: false,
        x: true,
        u,
    }
}

impl Leaf {
    /// The leaf of 4 KiB of a page, with the frame (times 16) and the permission of its word.
    #[inline(always)]
    pub fn small(space: u16, page: u64, word: u64) -> Leaf
        ensures { result ≡ small_leaf space page word }
    {
        Leaf {
            space,
            first: page,
            order: Order::K4,
            frame: word / 16,
            perm: perm_of(word),
        }
    }
}
