//! Words and what they say.

ghost use Rattle.std.specs.Prelude.{ℕ, ◌≡◌, ◌==◌, ◌≤◌, ◌<◌, ◌/◌, ◌%◌, ◌^◌, IfSome, IfNone};
ghost use Rattle.xl_model.specs.Words.{pointer_word, leaf_word as word_of_leaf};
ghost use Rattle.xl_pte.specs.Decode.{bit as bit_of, low_allows, pointer_at as pointer_said, leaf_at as leaf_said, decode_of, IsProper, SaysSmall, SaysNone, SaysAllowed, SaysNoneAllowed};

use xl_model::{Kind, Perm};

/// What a PTE word says at a level of the table.
#[derive(Clone, Copy)]
pub enum Pte {
    /// There is nothing.
    Invalid,
    /// The walk continues in this node, one level down.
    Pointer { node: u64 },
    /// A leaf of this level, from this frame on.
    Leaf { frame: u64, perm: Perm },
    /// A word that the manual, or this project's profile of it, reserves.
    Reserved,
    /// A leaf above level 0 whose frame isn't a multiple of its size.
    Misaligned,
}

/// The word of a pointer to `node`: V alone is set.
#[tactic(auto, unfolding(xl_model::specs::Words::pointer_word))]
pub fn pointer(node: u64) -> u64
    requires { node < 2 ^ 44 }
    ensures { result ≡ pointer_word node }
{
    node * 1024 + 1
}

/// The word of a leaf that begins at `frame`: V, A, D and the permission bits are set.
#[tactic(auto, unfolding(xl_model::specs::Words::leaf_word))]
pub fn leaf_word(frame: u64, perm: Perm) -> u64
    requires { frame < 2 ^ 44 }
    ensures { result ≡ word_of_leaf frame perm }
{
    let flags = 0xc1
        + (perm.r as u64 * 2 + (perm.w as u64 * 4 + (perm.x as u64 * 8 + perm.u as u64 * 16)));
    frame * 1024 + flags
}

/// Whether bit `k` of `word` is set.
fn bit(word: u64, k: u32) -> bool
    requires { k < 64 }
    ensures { result ≡ bit_of word k }
{
    (word >> k) % 2 == 1
}

/// The word of node `number` at `level`: reserved at level 0, where no walk continues.
fn pointer_at(level: usize, number: u64) -> Pte
    ensures { result ≡ pointer_said level number }
{
    if level == 0 {
        Pte::Reserved
    } else {
        Pte::Pointer { node: number }
    }
}

/// The word of a leaf of `level` from frame `number` on.
fn leaf_at(level: usize, number: u64, perm: Perm) -> Pte
    requires { level ≤ 4 }
    ensures { result ≡ leaf_said level number perm }
{
    if number % (1 << (9 * level)) == 0 {
        Pte::Leaf {
            frame: number,
            perm,
        }
    } else {
        Pte::Misaligned
    }
}

/// What `word` says at `level`. A number in the result is below 2^44. Bits G, A, D and RSW are not
/// looked at, and bit U of a pointer isn't either; any of bits 54 to 63 makes the word reserved.
#[tactic(auto, unfolding(crate::specs::Decode::decode_of))]
pub fn decode(word: u64, level: usize) -> Pte
    requires { level ≤ 4 }
    ensures value { result ≡ decode_of word level }
    ensures proper { IsProper result }
{
    if word % 2 == 0 {
        return Pte::Invalid;
    }
    if word >> 54 != 0 {
        return Pte::Reserved;
    }
    let number = word >> 10;
    let (r, w, x, u) = (bit(word, 1), bit(word, 2), bit(word, 3), bit(word, 4));
    match (r, w, x) {
        (false, true, _) => Pte::Reserved,
        (false, false, false) => pointer_at(level, number),
        (false, false, true) => leaf_at(level, number, Perm { r, w, x, u }),
        (true, _, _) => leaf_at(level, number, Perm { r, w, x, u }),
    }
}

/// The codes that the permission of a leaf may have, a bit for each of the sixteen: it may be read,
/// or else executed and not written. One look at a bit costs less than a test of three.
const LEGAL: u64 = 0xbaba;

/// The frame (times 16) and the permission of the leaf in a word of level 0: the
/// permission's bits are in both words in the same order. None where it says no leaf.
#[inline(always)]
pub fn small_word(word: u64) -> Option<u64>
    ensures some { IfSome result (SaysSmall word) }
    ensures none { IfNone result (SaysNone word) }
{
    let code = word / 2 % 16;
    if word % 2 == 1 && word >> 54 == 0 && (LEGAL >> code) % 2 == 1 {
        Some(word / 1024 * 16 + code)
    } else {
        None
    }
}

/// A bit for each value of a word's six lowest bits: whether they say a leaf that allows an access
/// of this kind. Which kind comes next can't be predicted, so the mask is looked up.
fn allowed_bits(kind: Kind) -> u64
    ensures { (low : ℕ) → low < 64 → (result / 2 ^ low % 2 == 1) ≡ low_allows low kind }
{
    match kind {
        Kind::Fetch => 0x8a00_0000_8a00_0000,
        Kind::Load => 0x8888_0000_8888_0000,
        Kind::Store => 0x8080_0000_8080_0000,
    }
}

/// As `small_word`, for a leaf that allows an access of this kind alone: one look at a bit says
/// that too.
#[inline(always)]
pub fn allowed_word(word: u64, kind: Kind) -> Option<u64>
    ensures some { IfSome result (SaysAllowed word kind) }
    ensures none { IfNone result (SaysNoneAllowed word kind) }
{
    if word >> 54 == 0 && (allowed_bits(kind) >> (word % 64)) % 2 == 1 {
        Some(word / 1024 * 16 + word / 2 % 16)
    } else {
        None
    }
}
