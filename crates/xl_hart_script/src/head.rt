//! The head of a script.

ghost use Rattle.std.specs.Prelude.{◌≡◌, ◌≤◌, drop, IfOk};
ghost use Rattle.xl_script.specs.Texts.{words_of};
ghost use Rattle.xl_hart_script.specs.Lines.{head_line, head_words};
ghost use Rattle.xl_hart_laws.specs.Kept.{IsHartSpec};

use xl_hart_model::HartSpec;
use xl_script::reading::{Reason, needed, next_at, number};

/// The most nodes of a table.
const NODES: u64 = 16_384;

/// The most frames.
const FRAMES: u64 = 1 << 22;

/// The limits, by their six words.
#[tactic(auto, unfolding(crate::specs::Lines::head_words))]
fn head_by(
    harts: &[u8],
    queue: &[u8],
    frames: &[u8],
    nodes: &[u8],
    spaces: &[u8],
    sets: &[u8],
) -> Result<HartSpec, Reason>
    ensures value { result
        ≡ head_words harts.now queue.now frames.now nodes.now spaces.now sets.now }
    ensures limits { IfOk result IsHartSpec }
{
    let harts = number(harts, 1, 8)?;
    let queue = number(queue, 1, 64)?;
    let frames = number(frames, 1, FRAMES)?;
    let nodes = number(nodes, 1, NODES)?;
    let spaces = number(spaces, 1, 64)?;
    let sets = number(sets, 1, 2_048)?;
    if nodes < spaces {
        return Err(Reason::Number);
    }
    Ok(HartSpec {
        harts: harts as u16,
        queue: queue as u16,
        frames: frames as u32,
        nodes: nodes as u32,
        spaces: spaces as u16,
        sets: sets as u32,
    })
}

/// `harts COUNT QUEUE FRAMES NODES SPACES SETS`, by its words after the first.
pub(crate) fn head_line(line: &[u8]) -> Result<HartSpec, Reason>
    ensures value { result ≡ head_line (drop 1 (words_of line.now)) }
    ensures limits { IfOk result IsHartSpec }
{
    let (harts, at) = needed(line, 1)?;
    let (queue, at) = needed(line, at)?;
    let (frames, at) = needed(line, at)?;
    let (nodes, at) = needed(line, at)?;
    let (spaces, at) = needed(line, at)?;
    let (sets, at) = needed(line, at)?;
    if next_at(line, at).is_some() {
        return Err(Reason::WordCount);
    }
    head_by(harts, queue, frames, nodes, spaces, sets)
}
