//! Addresses, page sizes and kinds of access.

ghost use Rattle.std.specs.Prelude.{◌≡◌, ◌*◌};
ghost use Rattle.xl_model.specs.Addresses.{levels_of, level_of, pages_of, is_canonical, page_of as page_number, code_of};

/// The mode of the walk (RISC-V Privileged manual, Sv39, Sv48 and Sv57).
#[derive(Clone, Copy)]
pub enum Mode {
    Sv39,
    Sv48,
    Sv57,
}

impl Mode {
    /// The levels of the mode's radix table: 3, 4 or 5.
    pub fn levels(&self) -> usize
        ensures { result ≡ levels_of self.now }
    {
        match self {
            Mode::Sv39 => 3,
            Mode::Sv48 => 4,
            Mode::Sv57 => 5,
        }
    }
}

/// The size of a leaf (the page size): 4 KiB, 2 MiB or 1 GiB, which are 2^0, 2^9 and 2^18 pages.
#[derive(Clone, Copy)]
pub enum Order {
    K4,
    M2,
    G1,
}

impl Order {
    /// The 4 KiB pages of a leaf of this order.
    pub fn pages(&self) -> u64
        ensures { result ≡ pages_of self.now }
    {
        match self {
            Order::K4 => 1,
            Order::M2 => 512,
            Order::G1 => 262_144,
        }
    }

    /// The bytes of a leaf of this order.
    pub fn bytes(&self) -> u64
        ensures { result ≡ 4096 * pages_of self.now }
    {
        4096 * self.pages()
    }

    /// The level of a radix table at which a leaf of this order is.
    pub fn level(&self) -> usize
        ensures { result ≡ level_of self.now }
    {
        match self {
            Order::K4 => 0,
            Order::M2 => 1,
            Order::G1 => 2,
        }
    }
}

/// The kind of an access.
#[derive(Clone, Copy)]
pub enum Kind {
    Fetch,
    Load,
    Store,
}

/// Whether `va` is canonical in `mode`: the bits from the highest bit of the mode's virtual address
/// up to bit 63 are all equal (RISC-V Privileged manual).
#[tactic(auto, unfolding(crate::specs::Addresses::is_canonical))]
pub fn canonical(mode: Mode, va: u64) -> bool
    ensures { result ≡ is_canonical mode va }
{
    match mode {
        Mode::Sv39 => va >> 38 == 0 || va >> 38 == (1 << 26) - 1,
        Mode::Sv48 => va >> 47 == 0 || va >> 47 == (1 << 17) - 1,
        Mode::Sv57 => va >> 56 == 0 || va >> 56 == (1 << 8) - 1,
    }
}

/// The number of the page of `va` in `mode` (the VPN).
#[tactic(auto, unfolding(crate::specs::Addresses::page_of))]
pub fn page_of(mode: Mode, va: u64) -> u64
    ensures { result ≡ page_number mode va }
{
    let page = va / 4096;
    match mode {
        Mode::Sv39 => page % (1 << 27),
        Mode::Sv48 => page % (1 << 36),
        Mode::Sv57 => page % (1 << 45),
    }
}

/// The code of the page fault of an access of this kind (RISC-V Privileged manual).
pub fn code(kind: Kind) -> u8
    ensures { result ≡ code_of kind }
{
    match kind {
        Kind::Fetch => 12,
        Kind::Load => 13,
        Kind::Store => 15,
    }
}
