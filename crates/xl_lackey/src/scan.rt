//! The next line of a text that matters.

ghost use Rattle.std.specs.Prelude.{◌≡◌, None, IfSome, IfNone};
ghost use Rattle.xl_lackey.specs.Usual.{judged_line};
ghost use Rattle.xl_lackey.specs.Scans.{IsFirstLine, Scans};

use crate::line::{Verdict, judge};
use crate::near::near_line;
use memchr::memchr;

/// How far the lines of a text were read: up to its first line that isn't skipped, or over all that
/// a newline ends.
#[derive(Clone, Copy)]
pub(crate) struct Scan {
    /// The bytes of the lines that were read, with their newlines.
    pub(crate) used: usize,
    /// The lines that ended so far, modulo 2^64.
    pub(crate) lines: u64,
    /// What the last of them is; Skipped where all are.
    pub(crate) verdict: Verdict,
}

/// Reads the lines of a text, after `before` other lines.
pub(crate) fn read_lines(text: &[u8], before: u64) -> Scan
    ensures { Scans before text.now result }
{
    let mut used = 0;
    let mut lines = before;
    while let Some((count, verdict)) = first_line(&text[used..]) {
        used += count;
        lines = lines.wrapping_add(1);
        match verdict {
            Verdict::Skipped => {}
            verdict => return Scan {
                used,
                lines,
                verdict,
            },
        }
    }
    Scan {
        used,
        lines,
        verdict: Verdict::Skipped,
    }
}

/// The first line of a text that a newline ends: how many bytes it has with the newline, and what
/// it is.
fn first_line(text: &[u8]) -> Option<(usize, Verdict)>
    ensures some { IfSome result (λ r. IsFirstLine text.now r.0 r.1) }
    ensures none { IfNone result (judged_line text.now ≡ None) }
{
    if let Some((letter, found)) = near_line(text) {
        let verdict = Verdict::Found {
            letter,
            addr: found.addr,
            size: found.above + 1,
        };
        return Some((found.used, verdict));
    }
    let at = memchr(b'\n', text)?;
    Some((at + 1, judge(&text[..at])))
}
