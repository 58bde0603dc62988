//! Why a line is bad.

ghost use Rattle.std.specs.Prelude.{◌≡◌};
ghost use Rattle.xl_script.specs.Reading.{code_of};

/// What is wrong with a line, of any form of script. Reasons are tested in the order of the
/// variants but for `Head`, which comes after `FirstWord`.
#[derive(Clone, Copy)]
pub enum Reason {
    /// The first word names no line.
    FirstWord,
    /// There are too few or too many words.
    WordCount,
    /// A word is no number or address, or passes its limits.
    Number,
    /// A word is no page size.
    Order,
    /// A word is no permission, or none that the line takes.
    Perm,
    /// What the line names lies past the last address.
    PastTheEnd,
    /// The 257th area.
    TooManyAreas,
    /// A first line that is no head, or a later one that is.
    Head,
}

impl Reason {
    /// The number by which a reason is reported.
    pub fn code(self) -> u8
        ensures { result ≡ code_of self }
    {
        match self {
            Reason::FirstWord => 1,
            Reason::WordCount => 2,
            Reason::Number => 3,
            Reason::Order => 4,
            Reason::Perm => 5,
            Reason::PastTheEnd => 6,
            Reason::TooManyAreas => 7,
            Reason::Head => 8,
        }
    }
}
