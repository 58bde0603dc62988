//! The hashes of tables: the finalizer of SplitMix64 (Steele, Lea and Flood, 2014).

ghost use Rattle.std.specs.Prelude.{◌≡◌, ◌<◌, ◌%◌};
ghost use Rattle.xl_model.specs.Hashes.{mix as mixed, way_hash as hashed};

/// `x` mixed, so that each bit of it moves about half of the bits of the result.
#[tactic(auto, unfolding(crate::specs::Hashes::mix))]
pub fn mix(x: u64) -> u64
    ensures { result ≡ mixed x }
{
    let x = (x ^ (x >> 30)).wrapping_mul(0xbf58_476d_1ce4_e5b9);
    let x = (x ^ (x >> 27)).wrapping_mul(0x94d0_49bb_1331_11eb);
    x ^ (x >> 31)
}

/// The remainder of a number by a count: a mask gives it where the count is a power of two, and a
/// division else, which costs more than the rest of a look.
#[tactic(auto, using(crate::proofs::PowerLemmas::masked))]
#[inline]
pub fn remainder(number: u64, count: u32) -> usize
    requires { 0 < count }
    ensures value { result ≡ number % count }
    ensures within { result < count }
{
    let count = count as u64;
    if count.is_power_of_two() {
        return (number & (count - 1)) as usize;
    }
    (number % count) as usize
}

/// The hash of `key` in cuckoo way `way`: `mix` of the key moved by `way + 1` golden ratios.
/// Of `n` ways a key's first is `way_hash(n, key) % n`.
#[tactic(auto, unfolding(crate::specs::Hashes::way_hash))]
pub fn way_hash(way: u64, key: u64) -> u64
    ensures { result ≡ hashed way key }
{
    mix(key.wrapping_add(way.wrapping_add(1).wrapping_mul(0x9e37_79b9_7f4a_7c15)))
}
