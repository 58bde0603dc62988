//! Requests that are taken.

ghost use Rattle.std.specs.Prelude.{◌≡◌, ◌<◌, ◌≤◌, ◌+◌, None, length, take, slice_get};
ghost use Rattle.circular_buffer.specs.Buffer.{buffer};
ghost use Rattle.xl_model.specs.Addresses.{pages_of};
ghost use Rattle.xl_hart_model.specs.Harts.{after_hart_event, hart_refusal, oldest};
ghost use Rattle.xl_hart_model.specs.declared.hart.HartEvent.TheVariants as step;
ghost use Rattle.xl_harts.specs.Pools.{Fits, IsReleasing, pool_after, released};

use crate::hart::Hart;
use crate::harts::Harts;
use crate::queue::longest_of;
use circular_buffer::HeapCircularBuffer;
use xl_frames::Frames;
use xl_hart_model::Request;

/// The oldest request of a hart's queue.
fn oldest_of(requests: &HeapCircularBuffer<Request>, hart: &Hart) -> Request
    requires some { 0 < hart.now.waiting }
    requires there { hart.now.waiting ≤ length requests.now.items }
    ensures { result ≡ oldest hart.now requests.now.items }
{
    let Some(request) = requests.get(hart.waiting() - 1) else {
        unreachable!()
    };
    *request
}

/// Gives back the frames that a request held back.
fn give_back(frames: &mut Frames, request: Request)
    requires { Fits request frames.old }
    ensures { frames.new ≡ pool_after request frames.old }
{
    if let Some(leaf) = request.before {
        if request.after.is_none() {
            frames.give(leaf.frame, leaf.order);
        }
    }
}

/// Lets go of the oldest request where no queue has it any more, and gives back the frames that it
/// held back.
fn release_oldest(requests: &mut HeapCircularBuffer<Request>, frames: &mut Frames, longest: usize)
    requires { IsReleasing longest requests.old.items frames.old }
    ensures requests { requests.new ≡ buffer (take longest requests.old.items)
        requests.old.capacity }
    ensures frames { frames.new ≡ released longest requests.old.items frames.old }
{
    if longest < requests.len() {
        if let Some(request) = requests.pop_back() {
            give_back(frames, request);
        }
    }
}

impl Harts {
    /// A hart takes the oldest request of its queue.
    pub(crate) fn take_request(&mut self, hart: u16)
        requires { hart_refusal self.old (step.Take hart) ≡ None }
        ensures { self.new ≡ after_hart_event (step.Take hart) self.old }
    {
        let request = oldest_of(&self.requests, &self.harts[hart as usize]);
        self.harts[hart as usize].fence(request);
        release_oldest(
            &mut self.requests,
            &mut self.frames,
            longest_of(&self.harts),
        );
    }
}
