//! A sink over what is written to.

ghost use Rattle.std.specs.Prelude.{◌≡◌, ℕ, ◌≤◌, List, Option, length, take, IfOk, OnErr};
ghost use Rattle.xl_outside.specs.Sinks.{with_more, IsFlushed};
ghost use Rattle.xl_outside.specs.Fronts.{more_none};

use crate::sink::{Failed, Sink};
use std::io;

/// What bytes are written to.
pub trait Writer {
    /// All bytes that were written, where they are known.
    ghost text: { Self → Option (List ℕ) };

    /// Writes the first bytes of these, and returns how many.
    fn write_some(&mut self, bytes: &[u8]) -> io::Result<usize>
        ensures count { IfOk result (λ n. n ≤ length bytes.now) }
        ensures took { IfOk result
            (λ n. text self.new ≡ with_more (text self.old) (take n bytes.now)) }
        ensures failed { OnErr result (text self.new ≡ text self.old) };
}

/// A sink over what is written to: contracts know its output where they know its writer's. A write
/// that fails, or takes none of the bytes, is a fault.
#[derive(Drop)]
pub struct OpenSink<W: Writer> {
    to: W,
    faults: u64,
}

impl<W: Writer + Drop> OpenSink<W> {
    pub fn over(to: W) -> OpenSink<W>
        ensures to { result.to ≡ to }
        ensures faults { result.faults ≡ 0 }
    {
        OpenSink { to, faults: 0 }
    }
}

impl<W: Writer + Drop> Sink for OpenSink<W> {
    /// It doesn't know of any room.
    ghost sink = { record {
      taken = λ s. W.text s.to;
      outside = λ s. record { written = W.text s.to; faults = s.faults };
      roomy = λ _ _. ⊥;
    } };

    fn put(&mut self, bytes: &[u8]) -> Result<usize, Failed> {
        if bytes.is_empty() {
            return Ok(0);
        }
        match self.to.write_some(bytes) {
            Ok(count) if count > 0 => Ok(count),
            _ => {
                self.faults = self.faults.saturating_add(1);
                Err(Failed)
            }
        }
    }

    fn flush(&mut self) -> Result<(), Failed> {
        Ok(())
    }

    ghost fronts = { λ s. more_none (W.text s.to) };
}
