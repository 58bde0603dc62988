//! What a sink holds that gathers bytes.

ghost use Rattle.std.specs.Prelude.{◌≡◌, ◌==◌, ◌+◌, ◌≤◌, ◌++◌, [], length, drop};

use crate::text::Text;
use std::marker::Model;

/// How many bytes are held at most.
const ROOM: usize = 65_536;

/// Bytes that are held, at most `ROOM`. Contracts see them, and nothing else.
#[derive(Drop)]
pub(crate) struct Held {
    bytes: [u8; ROOM],
    len: usize,
}

impl Model for Held {
    ghost use Rattle.std.specs.Prelude.{ℕ, List, take, ◌≤◌};

    ghost Value = { List ℕ };

    ghost view = { λ h. take h.len h.bytes };

    ghost invariant = { λ h. h.len ≤ 65536 };
}

impl Held {
    /// Nothing is held.
    pub(crate) fn new() -> Held
        ensures { result ≡ [] }
    {
        Held {
            bytes: [0; ROOM],
            len: 0,
        }
    }

    /// Whether nothing is held.
    pub(crate) fn is_empty(&self) -> bool
        ensures { result ≡ (length self.now == 0) }
    {
        self.len == 0
    }

    /// What is held.
    pub(crate) fn bytes(&self) -> &[u8]
        ensures { result.now ≡ self.entry.now }
    {
        &self.bytes[..self.len]
    }

    /// For how many more bytes there is room.
    #[inline(always)]
    pub(crate) fn room(&self) -> usize
        ensures { result + length self.now ≡ 65536 }
    {
        ROOM - self.len
    }

    /// Holds these bytes after the others.
    pub(crate) fn add(&mut self, bytes: &[u8])
        requires { length self.old + length bytes.now ≤ 65536 }
        ensures { self.new ≡ self.old ++ bytes.now }
    {
        let end = self.len + bytes.len();
        self.bytes[self.len..end].copy_from_slice(bytes);
        self.len = end;
    }

    /// Holds a text of this length after the others; it is put together here.
    #[inline(always)]
    pub(crate) fn add_text<T: Text>(&mut self, text: &T, len: usize)
        requires len { len ≡ length (T.bytes text.now) }
        requires room { length self.old + len ≤ 65536 }
        ensures { self.new ≡ self.old ++ T.bytes text.now }
    {
        let end = self.len + len;
        text.write(&mut self.bytes[self.len..end]);
        self.len = end;
    }

    /// Drops the first bytes.
    pub(crate) fn drop_front(&mut self, count: usize)
        requires { count ≤ length self.old }
        ensures { self.new ≡ drop count self.old }
    {
        self.bytes.copy_within(count..self.len, 0);
        self.len -= count;
    }
}
