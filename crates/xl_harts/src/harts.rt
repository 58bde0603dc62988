//! Harts, and their accessors.

ghost use Rattle.std.specs.Prelude.{◌≡◌, ◌<◌, ◌≤◌, ◌*◌, ◌^◌, [], replicate, length, IfOk};
ghost use Rattle.xl_hart_laws.specs.Kept.{IsHartSpec};
ghost use Rattle.xl_hart_model.specs.Tally.{frames_in};
ghost use Rattle.xl_hart_model.specs.Harts.{all_counts, hart_at, opening_hart, opening_harts, waiting_in};
ghost use Rattle.xl_hart_model.specs.Requests.{held_leaves, with_held};

use crate::hart::Hart;
use circular_buffer::HeapCircularBuffer;
use std::alloc::Global;
use std::marker::Model;
use xl_frames::Frames;
use xl_hart_model::{AllCounts, HartCounts, HartSpec, Request};
use xl_model::NoMemory;
use xl_radix_walk::RadixRow;

/// Harts over one table. The requests that some hart has still to take are in one ring, newest
/// first, for a request enters every queue at once. Contracts see the state of the definitions.
#[derive(Drop)]
pub struct Harts {
    pub(crate) spec: HartSpec,
    pub(crate) table: RadixRow<3>,
    /// The frames that are neither mapped nor held back are free.
    pub(crate) frames: Frames,
    pub(crate) requests: HeapCircularBuffer<Request>,
    pub(crate) harts: Vec<Hart>,
    pub(crate) current: u16,
    pub(crate) accepted: u64,
    pub(crate) refused: [u64; 12],
}

impl Model for Harts {
    ghost use Rattle.xl_hart_model.specs.Harts.{HartsState};
    ghost use Rattle.xl_radix_walk.specs.Row.{row_table};
    ghost use Rattle.xl_harts.specs.Views.{IsHarts, state_of};

    ghost Value = { HartsState };

    ghost view = { λ m. state_of m.spec (row_table 3 m.table) m.requests.items m.harts.items
        m.current m.accepted m.refused };

    ghost invariant = { λ m. IsHarts (state_of m.spec (row_table 3 m.table) m.requests.items
        m.harts.items m.current m.accepted m.refused) m.requests.capacity m.frames };
}

/// As many harts as the spec says, at their opening.
fn open_harts(alloc: Global, spec: &HartSpec) -> Result<Vec<Hart>, NoMemory>
    requires { 1 ≤ spec.now.sets }
    ensures { IfOk result (λ harts. harts.items ≡
        replicate spec.now.harts (opening_hart spec.now)) }
{
    let mut harts = Vec::with_capacity(alloc, spec.harts as usize)?;
    'opened: for _ in 0..spec.harts {
        if harts.push(Hart::open(alloc, spec)?).is_err() {
            return Err(NoMemory);
        }
    }
    Ok(harts)
}

/// How many requests are in all queues.
fn waiting(harts: &[Hart]) -> u64
    requires { waiting_in harts.now < 2 ^ 64 }
    ensures { result ≡ waiting_in harts.now }
{
    let Some((hart, rest)) = harts.split_first() else {
        return 0;
    };
    hart.waiting() as u64 + waiting(rest)
}

impl Harts {
    /// Harts at the opening: nothing is mapped, and hart 0 is the current one.
    ///
    /// # Errors
    ///
    /// `NoMemory` where there is no memory.
    pub fn open(alloc: Global, spec: HartSpec) -> Result<Harts, NoMemory>
        requires { IsHartSpec spec }
        ensures { IfOk result (λ harts. harts ≡ opening_harts spec) }
    {
        let table = RadixRow::open(alloc, spec.nodes, spec.spaces, [0; 4])?;
        let frames = Frames::open(alloc, spec.frames)?;
        let requests = HeapCircularBuffer::with_capacity(alloc, spec.queue as usize)?;
        let harts = open_harts(alloc, &spec)?;
        Ok(Harts {
            spec,
            table,
            frames,
            requests,
            harts,
            current: 0,
            accepted: 0,
            refused: [0; 12],
        })
    }

    /// How many harts there are.
    pub fn len(&self) -> u16
        ensures { result ≡ length self.now.harts }
    {
        self.spec.harts
    }

    /// The current hart.
    pub fn current(&self) -> u16
        ensures value { result ≡ self.now.current }
        ensures within { result < length self.now.harts }
    {
        self.current
    }

    /// The current space of a hart.
    pub fn space(&self, hart: u16) -> u16
        requires { hart < length self.now.harts }
        ensures { result ≡ (hart_at hart self.now).space }
    {
        self.harts[hart as usize].space()
    }

    /// The counts of a hart so far.
    pub fn counts(&self, hart: u16) -> HartCounts
        requires { hart < length self.now.harts }
        ensures { result ≡ (hart_at hart self.now).counts }
    {
        self.harts[hart as usize].counts()
    }

    /// The counts of all harts together.
    pub fn all(&self) -> AllCounts
        ensures { result ≡ all_counts self.now }
    {
        AllCounts {
            accepted: self.accepted,
            refused: self.refused,
            waiting: waiting(&self.harts),
            held: held_frames(&self.requests),
        }
    }
}

/// How many frames requests hold back.
fn held_frames(requests: &HeapCircularBuffer<Request>) -> u64
    requires { length requests.now.items ≤ 64 }
    ensures { result ≡ frames_in (held_leaves requests.now.items) }
{
    let (front, back) = requests.as_slices();
    held_in(front) + held_in(back)
}

/// How many frames some requests hold back.
fn held_in(requests: &[Request]) -> u64
    requires { length requests.now ≤ 64 }
    ensures held { result ≡ frames_in (held_leaves requests.now) }
    ensures few { result ≤ 2 ^ 18 * length requests.now }
{
    let Some((request, rest)) = requests.split_first() else {
        return 0;
    };
    frames_held(request) + held_in(rest)
}

/// How many frames a request holds back: those of an unmap's leaf.
fn frames_held(request: &Request) -> u64
    ensures held { result ≡ frames_in (with_held request.now.before request.now.after []) }
    ensures few { result ≤ 2 ^ 18 }
{
    match request.before {
        Some(leaf) if request.after.is_none() => leaf.order.pages(),
        _ => 0,
    }
}
