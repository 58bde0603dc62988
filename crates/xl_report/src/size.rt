//! How many digits a number has.

ghost use Rattle.std.specs.Prelude.{◌≡◌, ◌<◌, ◌≤◌, length, decimal};

/// The number of a number's decimal digits.
#[inline(always)]
pub(crate) fn digits(n: u64) -> usize
    ensures size { result ≡ length (decimal n) }
    ensures most { result ≤ 20 }
{
    if n < 10 {
        return 1;
    }
    let mut left = n;
    let mut last = 0;
    while left >= 10_000 {
        left /= 10_000;
        last += 4;
    }
    last + few_digits(left)
}

/// The number of decimal digits of a number below 10000.
#[inline(always)]
fn few_digits(n: u64) -> usize
    requires { n < 10000 }
    ensures { result ≡ length (decimal n) }
{
    if n < 100 {
        if n < 10 { 1 } else { 2 }
    } else if n < 1000 {
        3
    } else {
        4
    }
}
