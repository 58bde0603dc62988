//! Why a text is no script.

use std::alloc::AllocError;
use std::error::Error;
use std::fmt;

/// Why a script is not read.
#[derive(Clone, Copy, Debug)]
pub enum ScriptFault {
    /// The first bad line, by its number from 1, and the first that is wrong with it: 1, its first
    /// word names no line; 2, it has too few or too many words; 3, a number or an address; 4, a
    /// page's size; 5, a permission; 6, it names bytes past the last address, or an area that isn't
    /// of whole pages of its size; 7, it declares the 257th area. Other kinds of script have
    /// further reasons.
    BadLine { line: u64, reason: u8 },

    /// The text has more than 1,048,576 bytes.
    TooLong,

    /// There is no memory for the commands.
    NoMemory,
}

impl From<AllocError> for ScriptFault {
    ghost use Rattle.std.specs.Prelude.{◌≡◌};
    ghost use Rattle.xl_script.specs.declared.fault.ScriptFault.TheVariants.{NoMemory};

    ghost from_gives = { λ _ f. f ≡ NoMemory };

    fn from(_error: AllocError) -> ScriptFault {
        ScriptFault::NoMemory
    }
}

impl fmt::Display for ScriptFault {
    fn fmt<W: fmt::Write>(&self, f: &mut fmt::Formatter<W>) -> fmt::Result {
        match self {
            ScriptFault::BadLine { line, reason } => write!(f, "line {line}: reason {reason}"),
            ScriptFault::TooLong => write!(f, "too long"),
            ScriptFault::NoMemory => write!(f, "no memory"),
        }
    }
}

impl Error for ScriptFault {}
