//! The words for a page's size and for a permission.

ghost use Rattle.std.specs.Prelude.{◌≡◌, codes};
ghost use Rattle.std.specs.Str.{bytes_eq};
ghost use Rattle.xl_script.specs.Words.{order_of, perm_of, flag};

use xl_model::{Order, Perm};

/// Whether a word is this text.
pub fn is(word: &[u8], text: &[u8]) -> bool
    ensures { result ≡ bytes_eq word.now text.now }
{
    word == text
}

/// The size of a leaf: `4k`, `2m` or `1g`. None for any other word.
#[tactic(auto, unfolding(crate::specs::Words::order_of))]
pub fn order_word(word: &[u8]) -> Option<Order>
    ensures { result ≡ order_of word.now }
{
    if is(word, b"4k") {
        Some(Order::K4)
    } else if is(word, b"2m") {
        Some(Order::M2)
    } else if is(word, b"1g") {
        Some(Order::G1)
    } else {
        None
    }
}

/// One character of a permission: its letter where the bit is set, `-` where it isn't.
fn flag(letter: u8, byte: u8) -> Option<bool>
    ensures { result ≡ flag letter byte }
{
    if byte == letter {
        Some(true)
    } else if byte == b'-' {
        Some(false)
    } else {
        None
    }
}

/// A permission, as four characters: `r`, `w`, `x` and `u`, or `-` in the place of each. None where
/// the word is none, and where the permission isn't legal.
pub fn perm_word(word: &[u8]) -> Option<Perm>
    ensures { result ≡ perm_of word.now }
{
    let [r, w, x, u] = word else {
        return None;
    };
    let Some(r) = flag(b'r', *r) else {
        return None;
    };
    let Some(w) = flag(b'w', *w) else {
        return None;
    };
    let Some(x) = flag(b'x', *x) else {
        return None;
    };
    let Some(u) = flag(b'u', *u) else {
        return None;
    };
    Perm::new(r, w, x, u)
}
