//! Blocks of guest pages that have one leaf.

ghost use Rattle.std.specs.Prelude.{◌≡◌, ℕ, ◌<◌, ◌^◌, true, false, IfSome, IfNone};
ghost use Rattle.xl_nested.specs.Fronts.{has_page, word_at as word_of_page, IsSmallBlock};

/// The guest pages of a leaf of the host: the first, how many there are, and the word of the first,
/// its frame times 16 and the leaf's permission. Without pages it is the block of no leaf.
#[derive(Clone, Copy)]
pub(crate) struct Block {
    pub first: u64,
    pub pages: u64,
    pub word: u64,
}

impl Block {
    /// The block of no leaf.
    pub fn none() -> Block
        ensures none { result.pages ≡ 0 }
        ensures small { IsSmallBlock result }
    {
        Block {
            first: 0,
            pages: 0,
            word: 0,
        }
    }

    /// The word of a guest page that the block has.
    #[inline(always)]
    pub fn word_at(&self, guest_page: u64) -> u64
        requires small { IsSmallBlock self.now }
        requires within { has_page self.now guest_page ≡ true }
        ensures word { result ≡ word_of_page self.now guest_page }
        ensures small { result < 2 ^ 49 }
    {
        self.word + (guest_page - self.first) * 16
    }

    /// The word of a guest page, where the block has the page.
    #[inline(always)]
    pub fn word_of(&self, guest_page: u64) -> Option<u64>
        requires { IsSmallBlock self.now }
        ensures within { IfSome result (λ _. has_page self.now guest_page ≡ true) }
        ensures word { IfSome result (λ word. word ≡ word_of_page self.now guest_page) }
        ensures small { IfSome result (λ word. word < 2 ^ 49) }
        ensures none { IfNone result (has_page self.now guest_page ≡ false) }
    {
        if self.first <= guest_page && guest_page - self.first < self.pages {
            Some(self.word_at(guest_page))
        } else {
            None
        }
    }

    /// This block where it has no page of the other one, else the block of no leaf.
    pub fn beside(self, other: &Block) -> Block
        requires small { IsSmallBlock self }
        requires other { IsSmallBlock other.now }
        ensures same { 0 < result.pages → result ≡ self }
        ensures small { IsSmallBlock result }
        ensures apart { (guest_page : ℕ) → has_page other.now guest_page ≡ true →
            has_page result guest_page ≡ false }
    {
        if self.first + self.pages <= other.first || other.first + other.pages <= self.first {
            self
        } else {
            Block::none()
        }
    }
}
