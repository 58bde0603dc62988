//! A sink that gathers what it takes.

ghost use Rattle.std.specs.Prelude.{◌≡◌, ◌+◌, ℕ, [], length, true, is_ok, OnOk};
ghost use Rattle.xl_outside.specs.Sinks.{Proceeds, IsMore, with_more};
ghost use Rattle.xl_outside.specs.Fronts.{fronts_held};

use crate::held::Held;
use crate::sink::{Failed, Sink};
use crate::text::Text;

/// A sink over another one that gathers what it takes: the other one gets it where there is no more
/// room here, and where this one is flushed.
#[derive(Drop)]
pub struct Buffered<K: Sink> {
    to: K,
    held: Held,
}

impl<K: Sink + Drop> Buffered<K> {
    /// A sink over this one that holds nothing.
    pub fn over(to: K) -> Buffered<K>
        ensures to { result.to ≡ to }
        ensures nothing { result.held ≡ [] }
    {
        Buffered {
            to,
            held: Held::new(),
        }
    }

    /// The sink that gets what is gathered.
    pub fn sink(&self) -> &K
        ensures { result.now ≡ self.entry.now.to }
    {
        &self.to
    }

    /// Puts all that is held to the other sink.
    #[inline(never)]
    fn pass_on(&mut self) -> Result<(), Failed>
        ensures none { OnOk result (self.new.held ≡ []) }
        ensures kept { with_more (K.sink.taken self.new.to) self.new.held
            ≡ with_more (K.sink.taken self.old.to) self.old.held }
        ensures proceeds { Proceeds (is_ok result)
            (K.sink.outside self.old.to) (K.sink.outside self.new.to) }
        ensures calm { (room : ℕ) → K.sink.roomy self.old.to (length self.old.held + room)
            → (is_ok result ≡ true) × K.sink.roomy self.new.to room }
    {
        while !self.held.is_empty() {
            match self.to.put(self.held.bytes()) {
                Ok(0) => return Err(Failed),
                Ok(count) => self.held.drop_front(count),
                Err(failed) => return Err(failed),
            }
        }
        Ok(())
    }
}

impl<K: Sink + Drop> Sink for Buffered<K> {
    ghost sink = { record {
      taken = λ s. with_more (K.sink.taken s.to) s.held;
      outside = λ s. K.sink.outside s.to;
      roomy = λ s room. K.sink.roomy s.to (length s.held + room);
    } };

    fn put(&mut self, bytes: &[u8]) -> Result<usize, Failed> {
        if bytes.len() > self.held.room() {
            self.pass_on()?;
        }
        let count = bytes.len().min(self.held.room());
        self.held.add(&bytes[..count]);
        Ok(count)
    }

    #[inline(always)]
    fn put_text<T: Text>(&mut self, text: &T) -> Result<(), Failed> {
        let len = text.len();
        if len > self.held.room() {
            self.pass_on()?;
        }
        self.held.add_text(text, len);
        Ok(())
    }

    fn flush(&mut self) -> Result<(), Failed> {
        self.pass_on()?;
        self.to.flush()
    }

    ghost fronts = { λ s. fronts_held (K.sink.outside s.to).written (K.sink.taken s.to) s.held
        (K.fronts s.to) };
}
