//! What can be wrong with the input of a run.

/// Why the input ends a run. Lines are numbered from 1; reasons, keys and rules are those of the
/// formats.
#[derive(Clone, Copy, Debug)]
pub enum InputFault {
    /// The words are not the program's.
    Words,
    /// The configuration has more than 65,536 bytes.
    ConfigTooLong,
    /// The configuration is no TOML document.
    ConfigNotToml,
    /// The first key of the configuration that breaks a rule; rows are numbered from 1, and 0 is
    /// the document.
    ConfigKey { row: u32, key: u8, rule: u8 },
    /// The script has more than 1,048,576 bytes.
    ScriptTooLong,
    /// The script's first bad line.
    ScriptLine { line: u64, reason: u8 },
    /// The trace has more than 2^34 bytes.
    TraceTooLong,
    /// The trace's first bad line.
    TraceLine { line: u64, reason: u8 },
    /// A file that the words name isn't there.
    NoFile,
}
