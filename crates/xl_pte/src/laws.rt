//! Laws of words.

ghost use Rattle.xl_pte.specs.ReadBack.{MadeWordsReadBack};

/// What `pointer` and `leaf_word` make, `decode` reads back: a pointer at each level from 1 to 4, a
/// leaf at each level from 0 to 4 at which its frame is aligned.
#[tactic(auto, unfolding(xl_model::specs::Words::pointer_word, xl_model::specs::Words::leaf_word, crate::specs::Decode::decode_of))]
pub fn words_read_back()
    ensures { MadeWordsReadBack }
{}
