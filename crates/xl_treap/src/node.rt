//! The words of a node.

ghost use Rattle.std.specs.Prelude.{◌≡◌, ◌<◌, ◌+◌, ◌*◌, ◌^◌, ◌≤◌, length, slice_index};
ghost use Rattle.xl_model.specs.Addresses.{level_of};
ghost use Rattle.xl_model.specs.Ranges.{is_above as above};
ghost use Rattle.xl_treap.specs.Treaps.{key_at};
ghost use Rattle.xl_treap.specs.Lines.{order_said, range_said, node_word, side_in, link_at};
ghost use Rattle.xl_treap.specs.Steps.{IsLinked, IsLined, IsSized, IsHung, step_at};

use xl_model::{Order, Range, mix};
use xl_pte::{Pte, decode, leaf_word};

/// The key of a page of a space.
pub(crate) fn key_of(space: u16, page: u64) -> u64
    requires { key_at space page < 2 ^ 64 }
    ensures { result ≡ key_at space page }
{
    space as u64 * (1 << 52) + page
}

/// Whether key `a` is above key `b`: it has the lesser hash, or of two equal ones it is the
/// lesser.
pub(crate) fn is_above(a: u64, b: u64) -> bool
    ensures { result ≡ above a b }
{
    let (first, second) = (mix(a), mix(b));
    first < second || (first == second && a <= b)
}

/// The order of this number. There is none of number 3.
fn order_of(number: u64) -> Option<Order>
    requires { number < 4 }
    ensures { result ≡ order_said number }
{
    match number {
        0 => Some(Order::K4),
        1 => Some(Order::M2),
        2 => Some(Order::G1),
        _ => None,
    }
}

/// The range that the first three words of a node say. None where the third isn't that of a
/// range.
#[tactic(auto, unfolding(crate::specs::Lines::range_said))]
pub(crate) fn range_in(key: u64, pages: u64, word: u64) -> Option<Range>
    ensures { result ≡ range_said key pages word }
{
    match order_of(word >> 62) {
        None => None,
        Some(order) => match decode(word % (1 << 62), 0) {
            Pte::Leaf { frame, perm } => Some(Range {
                space: (key >> 52) as u16,
                start: key % (1 << 52),
                pages,
                frame,
                order,
                perm,
            }),
            _ => None,
        },
    }
}

/// The number of an order, at bits 62 and 63.
fn order_bits(order: Order) -> u64
    ensures is { result ≡ level_of order * 2 ^ 62 }
    ensures high { result ≤ 2 ^ 63 }
{
    match order {
        Order::K4 => 0,
        Order::M2 => 1 << 62,
        Order::G1 => 1 << 63,
    }
}

/// The word of a range's frame, permission and order.
#[tactic(auto, unfolding(crate::specs::Lines::node_word), using(crate::proofs::WordLemmas::leaf_small))]
pub(crate) fn word_of(range: Range) -> u64
    requires { range.frame < 2 ^ 44 }
    ensures { result ≡ node_word range }
{
    leaf_word(range.frame, range.perm) + order_bits(range.order)
}

/// A side of a node: that of the keys below its own, or that of the keys above it.
#[derive(Clone, Copy)]
pub(crate) enum Side {
    Low,
    High,
}

/// A node's link on a side.
pub(crate) fn link_of(words: &[u64], node: u32, side: Side) -> u32
    requires { 4 * node + 4 ≤ length words.now }
    ensures { result ≡ link_at side words.now node }
{
    let links = words[4 * node as usize + 3];
    match side {
        Side::Low => (links % (1 << 32)) as u32,
        Side::High => (links >> 32) as u32,
    }
}

/// The side of a node on which the place of a key is.
fn side_of(words: &[u64], node: u32, key: u64) -> Side
    requires { 4 * node + 4 ≤ length words.now }
    ensures { result ≡ side_in words.now node key }
{
    if words[4 * node as usize] < key {
        Side::High
    } else {
        Side::Low
    }
}

/// One step down from a node towards the place of a key. Both links are read in one word before one
/// is chosen: a link read by its side would wait for the key.
#[inline(always)]
pub(crate) fn step_of(words: &[u64], node: u32, key: u64) -> u32
    requires { 4 * node + 4 ≤ length words.now }
    ensures { result ≡ step_at words.now node key }
{
    let links = words[4 * node as usize + 3];
    let (low, high) = (links % (1 << 32), links >> 32);
    (if words[4 * node as usize] < key {
        high
    } else {
        low
    }) as u32
}

/// Gives a node its two links.
pub(crate) fn set_links(words: &mut [u64], node: u32, low: u32, high: u32)
    requires { 4 * node + 4 ≤ length words.old }
    ensures { IsLinked words.old words.new node low high }
{
    words[4 * node as usize + 3] = high as u64 * (1 << 32) + low as u64;
}

/// Puts the link `at` in place of a node's link towards the place of a key.
pub(crate) fn hang(words: &mut [u64], node: u32, key: u64, at: u32)
    requires { 4 * node + 4 ≤ length words.old }
    ensures { IsHung words.old words.new node (side_in words.old node key) at }
{
    let (low, high) = (
        link_of(words, node, Side::Low),
        link_of(words, node, Side::High),
    );
    match side_of(words, node, key) {
        Side::Low => set_links(words, node, at, high),
        Side::High => set_links(words, node, low, at),
    }
}

/// Gives a node the words of a range.
pub(crate) fn set_line(words: &mut [u64], node: u32, range: Range)
    requires line { 4 * node + 4 ≤ length words.old }
    requires key_in { key_at range.space range.start < 2 ^ 64 }
    requires frame_in { range.frame < 2 ^ 44 }
    ensures { IsLined words.old words.new node range }
{
    let at = 4 * node as usize;
    words[at] = key_of(range.space, range.start);
    words[at + 1] = range.pages;
    words[at + 2] = word_of(range);
}

/// Gives a node `pages` pages.
pub(crate) fn set_pages(words: &mut [u64], node: u32, pages: u64)
    requires { 4 * node + 4 ≤ length words.old }
    ensures { IsSized words.old words.new node pages }
{
    words[4 * node as usize + 1] = pages;
}
