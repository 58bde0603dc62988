//! Bits in words, on three levels: a word of the second has a bit for each of 64 words of the
//! first, and a word of the third a bit for each of 64 words of the second. The third has few
//! words.

ghost use Rattle.std.specs.Prelude.{ℕ, ◌≡◌, ◌<◌, ◌≤◌, ◌+◌, ◌*◌, ◌/◌, ◌^◌, ◌==◌, length, slice_index, IfSome, IfNone, IsTrue, ◌↔◌, ◌⊎◌};
ghost use Rattle.xl_numbers.specs.Bits.{bit_of, IsStack, IsFirstWord, IsFirstBit, IsPut, IsWord, AreWords, AreOnes, NoWord, IsAlike};

/// The first word that isn't 0.
#[inline(always)]
fn first_word(words: &[u64]) -> Option<usize>
    ensures some { IfSome result (IsFirstWord words.now) }
    ensures none { IfNone result (NoWord words.now) }
{
    for at in 0..words.len() {
        if words[at] != 0 {
            return Some(at);
        }
    }
    None
}

/// The first bit that is set, where this word is the first that isn't 0.
fn first_bit(words: &[u64], at: usize) -> usize
    requires first { IsFirstWord words.now at }
    requires few { at < 2 ^ 16 }
    ensures { IsFirstBit words.now result }
{
    at * 64 + words[at].trailing_zeros() as usize
}

/// Sets a bit.
fn raise_bit(words: &mut [u64], k: usize)
    requires { k < 64 * length words.old }
    ensures { IsPut words.old words.new k 1 }
{
    words[k / 64] |= 1 << (k % 64);
}

/// Clears a bit. Returns whether its word is 0 now.
fn drop_bit(words: &mut [u64], k: usize) -> bool
    requires { k < 64 * length words.old }
    ensures put { IsPut words.old words.new k 0 }
    ensures empty { result ≡ (slice_index words.new (k / 64) == 0) }
{
    words[k / 64] &= !(1 << (k % 64));
    words[k / 64] == 0
}

/// The lowest number of a set.
pub(crate) fn lowest(low: &[u64], middle: &[u64], top: &[u64]) -> Option<usize>
    requires { IsStack low.now middle.now top.now }
    ensures some { IfSome result (IsFirstBit low.now) }
    ensures none { IfNone result ((k : ℕ) → bit_of low.now k ≡ 0) }
{
    match first_word(top) {
        Some(at) => {
            let part = first_bit(top, at);
            let word = first_bit(middle, part);
            Some(first_bit(low, word))
        }
        None => None,
    }
}

/// Puts a number into a set.
pub(crate) fn put_number(low: &mut [u64], middle: &mut [u64], top: &mut [u64], number: usize)
    requires stack { IsStack low.old middle.old top.old }
    requires within { number < 64 * length low.old }
    ensures stack { IsStack low.new middle.new top.new }
    ensures put { IsPut low.old low.new number 1 }
{
    raise_bit(low, number);
    raise_bit(middle, number / 64);
    raise_bit(top, number / 4096);
}

/// Takes a number out that is in a set.
pub(crate) fn drop_number(low: &mut [u64], middle: &mut [u64], top: &mut [u64], number: usize)
    requires stack { IsStack low.old middle.old top.old }
    requires within { number < 64 * length low.old }
    requires there { bit_of low.old number ≡ 1 }
    ensures stack { IsStack low.new middle.new top.new }
    ensures put { IsPut low.old low.new number 0 }
{
    if !drop_bit(low, number) {
        return;
    }
    if !drop_bit(middle, number / 64) {
        return;
    }
    drop_bit(top, number / 4096);
}

/// Writes a word.
#[inline(always)]
fn write_word(words: &mut [u64], at: usize, word: u64)
    requires { at < length words.old }
    ensures { IsWord words.old words.new at word }
{
    words[at] = word;
}

/// Writes 64 numbers of a set at once: the word of their bits.
#[inline(always)]
fn put_word(low: &mut [u64], middle: &mut [u64], top: &mut [u64], at: usize, word: u64)
    requires stack { IsStack low.old middle.old top.old }
    requires within { at < length low.old }
    ensures stack { IsStack low.new middle.new top.new }
    ensures word { IsWord low.old low.new at word }
{
    write_word(low, at, word);
    if word != 0 {
        raise_bit(middle, at);
        raise_bit(top, at / 64);
    } else if drop_bit(middle, at) {
        drop_bit(top, at / 64);
    } else {
        raise_bit(top, at / 64);
    }
}

/// Writes the same word to as many words as `count` says, from `first` on.
#[inline(always)]
fn write_words(words: &mut [u64], first: usize, count: usize, word: u64)
    requires { first + count ≤ length words.old }
    ensures { AreWords words.old words.new first count word }
{
    for i in 0..count {
        write_word(words, first + i, word);
    }
}

/// Writes the same word to the 64 words of a set below one word.
fn put_group(low: &mut [u64], middle: &mut [u64], top: &mut [u64], group: usize, word: u64)
    requires stack { IsStack low.old middle.old top.old }
    requires within { 64 * group + 64 ≤ length low.old }
    ensures stack { IsStack low.new middle.new top.new }
    ensures words { AreWords low.old low.new (64 * group) 64 word }
{
    write_words(low, 64 * group, 64, word);
    if word != 0 {
        write_word(middle, group, u64::MAX);
        raise_bit(top, group);
    } else {
        write_word(middle, group, 0);
        drop_bit(top, group);
    }
}

/// Writes the same word to as many parts of a set as `count` says. A part has `SIZE` words: the 64
/// below one word, or one word.
fn put_parts<const SIZE: usize>(
    low: &mut [u64],
    middle: &mut [u64],
    top: &mut [u64],
    first: usize,
    count: usize,
    word: u64,
)
    requires stack { IsStack low.old middle.old top.old }
    requires size { (SIZE ≡ 64) ⊎ (SIZE ≡ 1) }
    requires within { SIZE * (first + count) ≤ length low.old }
    ensures stack { IsStack low.new middle.new top.new }
    ensures words { AreWords low.old low.new (SIZE * first) (SIZE * count) word }
{
    for i in 0..count {
        if SIZE == 64 {
            put_group(low, middle, top, first + i, word);
        } else {
            put_word(low, middle, top, first + i, word);
        }
    }
}

/// Writes the same word to as many words of a set as `count` says, from `first` on.
pub(crate) fn put_words(
    low: &mut [u64],
    middle: &mut [u64],
    top: &mut [u64],
    first: usize,
    count: usize,
    word: u64,
)
    requires stack { IsStack low.old middle.old top.old }
    requires within { first + count ≤ length low.old }
    ensures stack { IsStack low.new middle.new top.new }
    ensures words { AreWords low.old low.new first count word }
{
    if first % 64 == 0 && count % 64 == 0 {
        put_parts::<64>(low, middle, top, first / 64, count / 64, word);
    } else {
        put_parts::<1>(low, middle, top, first, count, word);
    }
}

/// Whether as many words as `count` says, from `first` on, have all their bits set.
#[inline(always)]
pub(crate) fn all_ones(words: &[u64], first: usize, count: usize) -> bool
    requires { first + count ≤ length words.now }
    ensures { IsTrue result ↔ AreOnes words.now first count }
{
    for i in 0..count {
        if words[first + i] != u64::MAX {
            return false;
        }
    }
    true
}

/// Whether a bit is set.
#[inline(always)]
pub(crate) fn has_bit(words: &[u64], k: usize) -> bool
    requires { k < 64 * length words.now }
    ensures { result ≡ (bit_of words.now k == 1) }
{
    words[k / 64] >> (k % 64) & 1 == 1
}

/// The word of 64 bits that are all set, or all clear.
#[inline(always)]
pub(crate) fn word_of(set: bool) -> u64
    ensures { IsAlike result set }
{
    if set { u64::MAX } else { 0 }
}
