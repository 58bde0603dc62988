//! A step of a walk.

ghost use Rattle.std.specs.Prelude.{Some, ◌≡◌, ◌<◌, ◌≤◌, ◌^◌};
ghost use Rattle.xl_pte.specs.Decode.{decode_of};
ghost use Rattle.xl_radix_walk.specs.Path.{step_of, IsStep};

use crate::quick::pointed;
use xl_phys::Bus;
use xl_pte::{Pte, decode};
use xl_radix::{WalkEnd, index_of};

/// The node that a walk enters next, one level down, or the walk's result.
pub(crate) enum Step {
    Descends(u64),
    Ends(WalkEnd),
}

/// The step that a word says.
fn step_at(word: Pte, level: usize) -> Step
    ensures { result ≡ step_of (Some word) level }
{
    match word {
        Pte::Pointer { node } => Step::Descends(node),
        Pte::Invalid => Step::Ends(WalkEnd::Invalid { level }),
        Pte::Leaf { frame, perm } => Step::Ends(WalkEnd::Leaf { level, frame, perm }),
        Pte::Reserved => Step::Ends(WalkEnd::Reserved { level }),
        Pte::Misaligned => Step::Ends(WalkEnd::Misaligned { level }),
    }
}

/// What a word says, pointers first.
fn judged(word: u64, level: usize) -> Step
    requires { level < 5 }
    ensures { result ≡ step_of (Some (decode_of word level)) level }
{
    if level > 0 {
        if let Some(next) = pointed(word) {
            return Step::Descends(next);
        }
    }
    step_at(decode(word, level), level)
}

/// Loads the word of the page in `node` of this level, and says what it says.
pub(crate) fn take_step<B: Bus>(bus: &mut B, level: usize, node: u64, page: u64) -> Step
    requires level { level < 5 }
    requires node { node < 2 ^ 44 }
    ensures is_step { IsStep (B.words bus.old) level node page result }
    ensures bus { bus.new ≡ B.loaded bus.old }
{
    let place = node * 512 + index_of(page, level) as u64;
    match bus.word(place as usize) {
        None => Step::Ends(WalkEnd::OutOfBus { level }),
        Some(word) => judged(word, level),
    }
}
