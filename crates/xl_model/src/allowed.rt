//! What permissions allow, by a mask.

ghost use Rattle.std.specs.Prelude.{◌≡◌, ℕ, ◌<◌, ◌/◌, ◌%◌, ◌^◌, ◌==◌};
ghost use Rattle.xl_model.specs.Addresses.{allows as is_allowed};
ghost use Rattle.xl_model.specs.LeafWords.{perm_at};

use crate::address::Kind;
use crate::leaf_word::perm_code;
use crate::perm::Perm;

/// Which permissions allow an access of this kind: a bit for each of their sixteen codes, and all
/// of them twice, so that a processor takes five bits of a word as it shifts. Which kind comes next
/// can't be predicted, so the mask is looked up.
fn allowed_codes(kind: Kind) -> u32
    ensures { (code : ℕ) → code < 32
        → (result / 2 ^ code % 2 == 1) ≡ is_allowed (perm_at code) kind }
{
    match kind {
        Kind::Fetch => 0xf500_f500,
        Kind::Load => 0xaa00_aa00,
        Kind::Store => 0x8800_8800,
    }
}

/// Whether a leaf with the permission of this word serves a user access of this kind.
#[inline]
pub fn word_allows(word: u64, kind: Kind) -> bool
    ensures { result ≡ is_allowed (perm_at word) kind }
{
    (allowed_codes(kind) >> (word % 32)) % 2 == 1
}

/// Whether a leaf with this permission serves a user access of this kind.
#[inline]
pub fn allows(perm: Perm, kind: Kind) -> bool
    ensures { result ≡ is_allowed perm kind }
{
    word_allows(perm_code(perm), kind)
}
