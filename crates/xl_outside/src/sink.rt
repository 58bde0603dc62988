//! A sink that takes bytes.

ghost use Rattle.std.specs.Prelude.{◌≡◌, ℕ, ◌+◌, ◌-◌, ◌^◌, ◌<◌, ◌≤◌, length, take, drop, List, Option, Ok, IfOk, OnOk, OnErr, is_ok};
ghost use Rattle.xl_outside.specs.Sinks.{SinkMeaning, IsMore, PutAfter, SinkAfter, FlushAfter, SentAfter, IsFlushed};

use crate::text::{LONGEST, Text};
use thiserror::Error;

/// A put failed, and took nothing.
#[derive(Clone, Copy, Debug, Error)]
#[error("a put failed")]
pub struct Failed;

/// What takes bytes, some at a time, and writes them outside: at once, or at the latest where it is
/// flushed.
pub trait Sink {
    /// What it took, what it has done outside, and for how much more it has room.
    ghost sink: { SinkMeaning Self };

    /// Takes the first bytes of the piece, and returns how many. 0 for a piece that isn't empty
    /// counts as a fault; for an empty piece it returns 0, which counts as none.
    fn put(&mut self, bytes: &[u8]) -> Result<usize, Failed>
        ensures count { IfOk result (λ n. n ≤ length bytes.now) }
        ensures empty { length bytes.now ≡ 0 → result ≡ Ok 0 }
        ensures leaves { PutAfter sink bytes.now self.old self.new result };

    /// Puts a whole piece, in as many puts as it takes. Where one of them fails or takes nothing,
    /// the first bytes of the piece were taken.
    fn put_all(&mut self, bytes: &[u8]) -> Result<(), Failed>
        ensures { SinkAfter sink bytes.now self.old self.new (is_ok result) }
    {
        let mut done = 0;
        while done < bytes.len() {
            match self.put(&bytes[done..]) {
                Ok(0) => return Err(Failed),
                Ok(count) => done += count,
                Err(failed) => return Err(failed),
            }
        }
        Ok(())
    }

    /// Puts a whole text. It is put together apart where the sink has no room of its own. Where a
    /// put fails, the first bytes of the text were taken.
    fn put_text<T: Text>(&mut self, text: &T) -> Result<(), Failed>
        ensures { SinkAfter sink (T.bytes text.now) self.old self.new (is_ok result) }
    {
        let mut room = [0; LONGEST];
        let piece = &mut room[..text.len()];
        text.write(piece);
        self.put_all(piece)
    }

    /// Writes what it took and has not yet written.
    fn flush(&mut self) -> Result<(), Failed>
        ensures { FlushAfter sink self.old self.new (is_ok result) };

    /// What is written is the front of what it took.
    ghost fronts: { (s : Self) → IsMore (sink.outside s).written (sink.taken s) };
}

/// Puts a whole piece, in as many puts as it takes. Where one of them fails or takes nothing, the
/// first bytes of the piece were taken.
pub fn put_all<K: Sink>(out: &mut K, bytes: &[u8]) -> Result<(), Failed>
    ensures { SinkAfter K.sink bytes.now out.old out.new (is_ok result) }
{
    out.put_all(bytes)
}

/// Puts a whole piece and flushes, so that the piece is written. Where a put fails, the first bytes
/// of the piece may have been written.
pub fn send_all<K: Sink>(out: &mut K, bytes: &[u8]) -> Result<(), Failed>
    requires { IsFlushed K.sink out.old }
    ensures { SentAfter K.sink bytes.now out.old out.new (is_ok result) }
{
    match put_all(out, bytes) {
        Ok(()) => out.flush(),
        Err(failed) => Err(failed),
    }
}
