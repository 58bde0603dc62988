//! The addresses of a mode.

ghost use Rattle.std.specs.Prelude.{◌≡◌};
ghost use Rattle.xl_model.specs.Addresses.{is_canonical, page_of as page_number};

use std::marker::Model;
use xl_model::Mode;

/// Which addresses of a mode are canonical and of which pages they are, by numbers computed at
/// opening, so that an access needs no match on the mode. Contracts see the mode.
#[derive(Drop)]
pub(crate) struct Span {
    mode: Mode,
    /// How many addresses each of the two halves has: one at the front of all addresses, one at
    /// their end.
    half: u64,
    /// How many there are of both.
    both: u64,
    /// The number of the last page: a mask, since the pages are a power of two.
    last_page: u64,
}

impl Model for Span {
    ghost use Rattle.xl_model.specs.declared.address.Mode.{Mode};
    ghost use Rattle.xl_machine.specs.Served.{IsSpan};

    ghost Value = { Mode };

    ghost view = { λ s. s.mode };

    ghost invariant = { λ s. IsSpan s.half s.both s.last_page s.mode };
}

impl Span {
    /// The span of a mode.
    pub fn of(mode: Mode) -> Span
        ensures { result ≡ mode }
    {
        let bits = match mode {
            Mode::Sv39 => 27,
            Mode::Sv48 => 36,
            Mode::Sv57 => 45,
        };
        Span {
            mode,
            half: 1 << (bits + 11),
            both: 1 << (bits + 12),
            last_page: (1 << bits) - 1,
        }
    }

    /// Whether an address is canonical.
    #[inline(always)]
    pub fn canonical(&self, va: u64) -> bool
        ensures { result ≡ is_canonical self.now va }
    {
        va.wrapping_add(self.half) < self.both
    }

    /// The number of the page of an address.
    #[inline(always)]
    pub fn page_of(&self, va: u64) -> u64
        ensures { result ≡ page_number self.now va }
    {
        va / 4096 & self.last_page
    }
}
