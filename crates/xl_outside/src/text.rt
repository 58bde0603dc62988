//! Texts that a sink puts together where they stay.

ghost use Rattle.std.specs.Prelude.{◌≡◌, ◌≤◌, List, ℕ, length};

/// The most bytes of a text.
pub(crate) const LONGEST: usize = 112;

/// A text of at most 112 bytes that is put together where it stays: a copy of what was just written
/// in small pieces stalls until they are stored.
pub trait Text {
    /// Its bytes.
    ghost bytes: { Self → List ℕ };

    /// How many bytes it has.
    fn len(&self) -> usize
        ensures size { result ≡ length (bytes self.now) }
        ensures most { result ≤ 112 };

    /// Fills a room of its length.
    fn write(&self, room: &mut [u8])
        requires { length room.old ≡ length (bytes self.now) }
        ensures { room.new ≡ bytes self.now };
}
