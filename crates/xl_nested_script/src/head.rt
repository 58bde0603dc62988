//! The head of a script.

ghost use Rattle.std.specs.Prelude.{◌≡◌, ◌+◌, ◌^◌, ◌≤◌, drop, nat_le, IfOk, IsTrue};
ghost use Rattle.xl_model.specs.Rows.{is_width as has_width};
ghost use Rattle.xl_nested_model.specs.Nested.{IsNest};
ghost use Rattle.xl_script.specs.Texts.{words_of};
ghost use Rattle.xl_nested_script.specs.Lines.{head_at, head_line, head_words, width_in};

use xl_nested_model::Nest;
use xl_script::reading::{Reason, address, needed, next_at, number};

/// The most nodes of a table.
const NODES: u64 = 16_384;

/// The most frames of the host.
const FRAMES: u64 = 1 << 22;

/// The number of guest pages.
const GUEST_PAGES: u64 = 1 << 29;

/// The widths of recency lists.
const WIDTHS: [u64; 10] = [0, 1, 2, 4, 6, 8, 12, 16, 32, 64];

fn is_width(n: u64) -> bool
    ensures { result ≡ has_width n }
{
    WIDTHS.iter().any(|width| *width == n)
}

/// The width of the G cache.
fn width(word: &[u8]) -> Result<u8, Reason>
    ensures value { result ≡ width_in word.now }
    ensures width { IfOk result (λ w. IsTrue (has_width w)) }
{
    let n = number(word, 0, 64)?;
    if is_width(n) {
        Ok(n as u8)
    } else {
        Err(Reason::Number)
    }
}

/// Whether the guest's nodes are guest pages.
fn nodes_fit(nest: Nest) -> bool
    ensures { result ≡ nat_le (nest.base + nest.nodes) (2 ^ 29) }
{
    nest.base <= GUEST_PAGES && nest.nodes as u64 <= GUEST_PAGES - nest.base
}

/// The sizes, where the guest's nodes are guest pages.
fn head_at(nest: Nest) -> Result<Nest, Reason>
    ensures value { result ≡ head_at nest }
    ensures within { IfOk result (λ n. (n ≡ nest) × (nest.base + nest.nodes ≤ 2 ^ 29)) }
{
    if nodes_fit(nest) {
        Ok(nest)
    } else {
        Err(Reason::PastTheEnd)
    }
}

/// The sizes, by their five words.
#[tactic(auto, unfolding(crate::specs::Lines::head_words))]
fn head_by(
    base: &[u8],
    nodes: &[u8],
    frames: &[u8],
    g_nodes: &[u8],
    g_cache: &[u8],
) -> Result<Nest, Reason>
    ensures value { result ≡ head_words base.now nodes.now frames.now g_nodes.now g_cache.now }
    ensures limits { IfOk result IsNest }
{
    let base = address(base)?;
    let nodes = number(nodes, 1, NODES)?;
    let frames = number(frames, 1, FRAMES)?;
    let g_nodes = number(g_nodes, 4, NODES)?;
    let g_cache = width(g_cache)?;
    head_at(Nest {
        base,
        nodes: nodes as u32,
        frames: frames as u32,
        g_nodes: g_nodes as u32,
        g_cache,
    })
}

/// `guest BASE NODES FRAMES GNODES GCACHE`, by its words after the first.
pub(crate) fn head_line(line: &[u8]) -> Result<Nest, Reason>
    ensures value { result ≡ head_line (drop 1 (words_of line.now)) }
    ensures limits { IfOk result IsNest }
{
    let (base, at) = needed(line, 1)?;
    let (nodes, at) = needed(line, at)?;
    let (frames, at) = needed(line, at)?;
    let (g_nodes, at) = needed(line, at)?;
    let (g_cache, at) = needed(line, at)?;
    if next_at(line, at).is_some() {
        return Err(Reason::WordCount);
    }
    head_by(base, nodes, frames, g_nodes, g_cache)
}
