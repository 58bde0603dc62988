//! Addresses as text.

ghost use Rattle.std.specs.Prelude.{◌≡◌, ◌<◌};
ghost use Rattle.xl_model.specs.Lines.{hex_digits, hex_glyph};

/// The hexadecimal digits, in lower case.
const GLYPHS: [u8; 16] = *b"0123456789abcdef";

/// The hexadecimal digit of a value.
#[inline(always)]
fn glyph(value: u32) -> u8
    requires { value < 16 }
    ensures { result ≡ hex_glyph value }
{
    GLYPHS[value as usize]
}

/// The 8 hexadecimal digits of a number, in lower case.
pub(crate) fn hex_text(n: u32) -> [u8; 8]
    ensures { result ≡ hex_digits 8 n }
{
    let mut text = [0; 8];
    let mut left = n;
    for i in (0..8usize).rev() {
        text[i] = glyph(left % 16);
        left /= 16;
    }
    text
}
