//! Why a text has no rows.

ghost use Rattle.std.specs.Prelude.{◌≡◌};
ghost use Rattle.xl_config.specs.Config.{fault_of, rule_number};

use std::alloc::AllocError;
use std::error::Error;
use std::fmt;

/// Why a text has no rows.
#[derive(Clone, Copy, Debug)]
pub enum ConfigFault {
    /// The text has more than 65,536 bytes.
    TooLong,

    /// The text is no TOML document.
    BadToml,

    /// The first key, in the order of the tests, that breaks a rule. Rows are numbered from 1, and
    /// row 0 is the document. Of the rules, 1 says that the key is missing, 2 that its value has
    /// another type, 3 that it is outside its limits, 4 that no such key may be there, 5 that it
    /// disagrees with others.
    BadKey { row: u32, key: u8, rule: u8 },

    /// There is no memory for the document or the rows.
    NoMemory,
}

impl From<AllocError> for ConfigFault {
    ghost use Rattle.std.specs.Prelude.{◌≡◌};
    ghost use Rattle.xl_config.specs.declared.fault.ConfigFault.TheVariants.{NoMemory};

    ghost from_gives = { λ _ f. f ≡ NoMemory };

    fn from(_error: AllocError) -> ConfigFault {
        ConfigFault::NoMemory
    }
}

impl fmt::Display for ConfigFault {
    fn fmt<W: fmt::Write>(&self, f: &mut fmt::Formatter<W>) -> fmt::Result {
        match self {
            ConfigFault::TooLong => write!(f, "too long"),
            ConfigFault::BadToml => write!(f, "not TOML"),
            ConfigFault::BadKey { row, key, rule } => {
                write!(f, "row {row} key {key} rule {rule}")
            }
            ConfigFault::NoMemory => write!(f, "no memory"),
        }
    }
}

impl Error for ConfigFault {}

/// A rule that a key may break.
#[derive(Clone, Copy)]
pub(crate) enum Rule {
    Missing,
    WrongType,
    Outside,
    NotAllowed,
    Disagrees,
}

impl Rule {
    /// The number by which a rule is reported.
    fn number(self) -> u8
        ensures { result ≡ rule_number self }
    {
        match self {
            Rule::Missing => 1,
            Rule::WrongType => 2,
            Rule::Outside => 3,
            Rule::NotAllowed => 4,
            Rule::Disagrees => 5,
        }
    }
}

/// A key that breaks a rule, and its row.
#[derive(Clone, Copy)]
pub(crate) struct KeyFault {
    pub(crate) row: u32,
    pub(crate) key: u8,
    pub(crate) rule: Rule,
}

impl KeyFault {
    /// The fault of the text that has the key.
    pub(crate) fn of_text(self) -> ConfigFault
        ensures { result ≡ fault_of self }
    {
        ConfigFault::BadKey {
            row: self.row,
            key: self.key,
            rule: self.rule.number(),
        }
    }
}
