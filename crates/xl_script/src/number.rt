//! Numbers as scripts write them.

ghost use Rattle.std.specs.Prelude.{◌≡◌, ◌+◌, ◌*◌, ◌^◌, ◌<◌, ◌≤◌, IfSome, IsTrue, SomeIff};
ghost use Rattle.std.specs.Char.{digit_value};
ghost use Rattle.xl_text.specs.Numbers.{number_in};
ghost use Rattle.xl_script.specs.Numbers.{decimal_of, hexadecimal_of, without_prefix, below};

/// The most digits of a hexadecimal number.
const DIGITS: usize = 16;

/// A number with one digit more in this base. None where the byte is no digit, or the number passes
/// 2^64 - 1.
fn with_digit(n: u64, digit: u8, base: u32) -> Option<u64>
    requires least { 2 ≤ base }
    requires most { base ≤ 36 }
    ensures { SomeIff result
        ((digit_value digit < base) × (n * base + digit_value digit < 2 ^ 64))
        (n * base + digit_value digit) }
{
    let Some(value) = char::from(digit).to_digit(base) else {
        return None;
    };
    let Some(shifted) = n.checked_mul(u64::from(base)) else {
        return None;
    };
    shifted.checked_add(u64::from(value))
}

/// The number of digits in this base. `None` where a byte is no digit of the base, or the number
/// passes 2^64 - 1.
fn number(digits: &[u8], base: u32) -> Option<u64>
    requires least { 2 ≤ base }
    requires most { base ≤ 36 }
    ensures { result ≡ below (2 ^ 64) (number_in base digits.now) }
{
    let mut n = 0;
    for digit in digits {
        let Some(next) = with_digit(n, *digit, base) else {
            return None;
        };
        n = next;
    }
    Some(n)
}

/// A decimal number from `least` to `most`, with no sign and with no zero before other digits. None
/// where the word is none.
#[tactic(auto, unfolding(crate::specs::Numbers::decimal_of))]
pub fn decimal(word: &[u8], least: u64, most: u64) -> Option<u64>
    ensures value { result ≡ decimal_of least most word.now }
    ensures within { IfSome result (λ n. (least ≤ n) × (n ≤ most)) }
{
    if word.is_empty() || (word.len() > 1 && word[0] == b'0') {
        return None;
    }
    let Some(n) = number(word, 10) else {
        return None;
    };
    if least <= n && n <= most {
        Some(n)
    } else {
        None
    }
}

/// A word without `0x` at its front.
fn without_prefix(word: &[u8]) -> &[u8]
    ensures { result.now ≡ without_prefix word.now }
{
    match word {
        [b'0', b'x', digits @ ..] => digits,
        _ => word,
    }
}

/// A hexadecimal number of 1 to 16 digits of either case, with or without `0x` before them. None
/// where the word is none.
#[tactic(auto, unfolding(crate::specs::Numbers::hexadecimal_of))]
pub fn hexadecimal(word: &[u8]) -> Option<u64>
    ensures { result ≡ hexadecimal_of word.now }
{
    let digits = without_prefix(word);
    if digits.is_empty() || digits.len() > DIGITS {
        return None;
    }
    number(digits, 16)
}
