//! What a walk reads from.

ghost use Rattle.std.specs.Prelude.{ℕ, ◌≡◌, ◌+◌, ◌*◌, ◌/◌, ◌<◌, List, length, IfSome, IfNone};
ghost use Rattle.xl_phys.specs.Lines.{IsLine, IsWord, counted};

/// A memory of words that is loaded by lines of four words: line k has words `4 * k` to
/// `4 * k + 3`. A walk that is given a bus and numbers alone can answer only from what it loads.
pub trait Bus {
    /// The words.
    ghost words: { Self → List ℕ };

    /// The loads made so far, modulo 2^64.
    ghost count: { Self → ℕ };

    /// The bus after a load. By this the owner of a bus knows that the rest of it stayed as it was.
    ghost loaded: { Self → Self };

    /// Loads line `line`, and counts one load. None exactly where the line's four words aren't all
    /// there; that counts too.
    fn load(&mut self, line: usize) -> Option<[u64; 4]>
        ensures some { IfSome result (IsLine (words self.old) line) }
        ensures none { IfNone result (length (words self.old) < 4 * line + 4) }
        ensures after { self.new ≡ loaded self.old };

    /// Loads the line of word `place`, and returns that word. `None` exactly where the line's four
    /// words aren't all there; that counts too.
    fn word(&mut self, place: usize) -> Option<u64>
        ensures some { IfSome result (IsWord (words self.old) place) }
        ensures none { IfNone result (length (words self.old) < 4 * (place / 4) + 4) }
        ensures after { self.new ≡ loaded self.old }
    {
        let line = self.load(place / 4)?;
        Some(line[place % 4])
    }

    /// The loads made so far, modulo 2^64.
    fn loads(&self) -> u64
        ensures { result ≡ count self.now };

    ghost words_stay: { (b : Self) → words (loaded b) ≡ words b };

    ghost counts_one: { (b : Self) → count (loaded b) ≡ counted (count b) };
}

/// The word at `place`, None where its line isn't all there.
pub fn word_of(words: &[u64], place: usize) -> Option<u64>
    ensures some { IfSome result (IsWord words.now place) }
    ensures none { IfNone result (length words.now < 4 * (place / 4) + 4) }
{
    if place / 4 >= words.len() / 4 {
        None
    } else {
        Some(words[place])
    }
}

/// The four words of line `line` of `words`, None where they aren't all there.
pub fn line_of(words: &[u64], line: usize) -> Option<[u64; 4]>
    ensures some { IfSome result (IsLine words.now line) }
    ensures none { IfNone result (length words.now < 4 * line + 4) }
{
    if line >= words.len() / 4 {
        return None;
    }
    let at = 4 * line;
    Some([words[at], words[at + 1], words[at + 2], words[at + 3]])
}
