//! Lines in the form that Lackey itself writes, with a short size: nearly all lines of a trace.

ghost use Rattle.std.specs.Prelude.{◌≡◌, ◌+◌, ◌^◌, ◌<◌, ◌≤◌, length, take, Some, IfSome};
ghost use Rattle.xl_lackey.specs.declared.line.Verdict.TheVariants.{Found};
ghost use Rattle.xl_lackey.specs.Digits.{hex_value};
ghost use Rattle.xl_lackey.specs.Nears.{IsNumbers};
ghost use Rattle.xl_lackey.specs.Scans.{IsFirstLine};

use crate::digits::{address, eight_digits, near_digit, near_size};
use crate::front::front_of;
use crate::line::fits;
use crate::reference::Letter;

/// The most bytes of a line that is read here, with an address of 16 digits.
pub(crate) const NEAR: usize = 23;

/// What is after the letter of a line: an address and a size (`above`, the bytes above the first),
/// and how many bytes the line has with its newline.
#[derive(Clone, Copy)]
pub(crate) struct Numbers {
    pub(crate) addr: u64,
    pub(crate) above: u32,
    pub(crate) used: usize,
}

/// The first line of a text, where it is such a line: its letter and what is after it. `None`: use
/// the general reader.
#[inline(always)]
pub(crate) fn near_line(text: &[u8]) -> Option<(Letter, Numbers)>
    ensures line { IfSome result
        (λ r. IsFirstLine text.now r.1.used (Found r.0 r.1.addr (r.1.above + 1))) }
    ensures small { IfSome result (λ r. r.1.above < 99) }
{
    if text.len() < NEAR {
        return None;
    }
    let (front, numbers) = front_of(text)?;
    let found = near_numbers(numbers)?;
    Some((front.letter, found))
}

/// The numbers of a line with an address of eight digits or more and a size of one digit or of two.
/// Those of eight digits and of one, which most lines have, are looked for first, since all is at
/// fixed places there.
#[inline(always)]
pub(crate) fn near_numbers(text: &[u8]) -> Option<Numbers>
    requires { 20 ≤ length text.now }
    ensures { IfSome result (IsNumbers text.now) }
{
    let addr = eight_digits(text)?;
    if let Some(above) = near_digit(text) {
        return Some(Numbers {
            addr,
            above,
            used: 14,
        });
    }
    other_numbers(text, addr)
}

/// The same of all other such lines; the first eight digits are read already.
#[inline(always)]
fn other_numbers(text: &[u8], eight: u64) -> Option<Numbers>
    requires long { 20 ≤ length text.now }
    requires value { hex_value 0 (take 8 text.now) ≡ Some eight }
    requires small { eight < 16 ^ 8 }
    ensures { IfSome result (IsNumbers text.now) }
{
    let (addr, comma) = address(text, eight, 8)?;
    let (size, digits) = near_size(&text[comma + 1..])?;
    if fits(addr, size) {
        Some(Numbers {
            addr,
            above: size - 1,
            used: comma + digits + 5,
        })
    } else {
        None
    }
}
