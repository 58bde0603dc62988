//! One event of harts.

ghost use Rattle.std.specs.Prelude.{◌≡◌, ◌<◌, length};
ghost use Rattle.xl_hart_laws.specs.Laws.{IsCoherent};
ghost use Rattle.xl_hart_model.specs.Harts.{after_hart_event, hart_outcome, hart_refusal, hart_switched};
ghost use Rattle.xl_model.specs.declared.event.Event.TheVariants as event;
ghost use Rattle.xl_hart_model.specs.declared.hart.HartEvent.TheVariants as step;
ghost use Rattle.xl_hart_model.specs.declared.hart.HartOutcome.TheVariants as outcome;
ghost use Rattle.xl_harts.specs.Events.{HasSmallReplies, IsNoFence, IsServable, outcome_of, refused_by};
ghost use Rattle.xl_harts.specs.Views.{after_own, refusal_of};

use crate::harts::Harts;
use crate::refusal::space_refusal;
use xl_hart_model::{HartEvent, HartOutcome, HartRefusal};
use xl_model::{Event, Order, Perm};

impl Harts {
    /// Serves an event: an access has a reply, a command is done, or refused for the first reason
    /// that holds. Before it and after it harts are coherent: each reply to one is of a mapping
    /// that its queue leads back to, no map takes a frame that an array reaches, and the frame of
    /// each reply is in the mapping or held back. A frame in a reply is below 2^52.
    #[inline(always)]
    pub fn step(&mut self, event: HartEvent) -> HartOutcome
        requires { IsServable event }
        ensures outcome { result ≡ hart_outcome event self.old }
        ensures after { self.new ≡ after_hart_event event self.old }
        ensures coherent { IsCoherent self.old }
        ensures stays { IsCoherent self.new }
        ensures small { HasSmallReplies self.old }
    {
        self.note_coherence();
        let outcome = self.serve(event);
        self.note_coherence();
        outcome
    }

    /// Harts are coherent, and their replies are small.
    #[inline(always)]
    pub(crate) fn note_coherence(&self)
        ensures coherent { IsCoherent self.now }
        ensures small { HasSmallReplies self.now }
    {
        // Reading a field brings in the type's invariant.
        let _requests = &self.requests;
    }

    /// Serves an event; an access at once.
    #[inline(always)]
    fn serve(&mut self, event: HartEvent) -> HartOutcome
        requires { IsServable event }
        ensures outcome { result ≡ hart_outcome event self.old }
        ensures after { self.new ≡ after_hart_event event self.old }
    {
        match event {
            HartEvent::Own { event } => self.serve_own(event),
            HartEvent::Take { hart } => self.take_or_refuse(hart),
            HartEvent::Hart { hart } => self.choose_or_refuse(hart),
        }
    }

    /// Serves an event for the current hart.
    #[inline(always)]
    fn serve_own(&mut self, event: Event) -> HartOutcome
        requires { IsNoFence event }
        ensures outcome { result ≡ outcome_of event self.old }
        ensures after { self.new ≡ after_own event self.old }
    {
        match event {
            Event::Access { va, kind } => HartOutcome::Replied(self.access(va, kind)),
            _ => self.command(event),
        }
    }

    /// Serves an event for which refusals are looked for.
    #[inline(never)]
    fn command(&mut self, event: Event) -> HartOutcome
        requires { IsNoFence event }
        ensures outcome { result ≡ outcome_of event self.old }
        ensures after { self.new ≡ after_own event self.old }
    {
        match event {
            Event::Access { va, kind } => HartOutcome::Replied(self.access(va, kind)),
            Event::Map {
                space,
                va,
                order,
                perm,
            } => self.map_or_refuse(space, va, order, perm),
            Event::Unmap { space, va, order } => self.unmap_or_refuse(space, va, order),
            Event::Protect {
                space,
                va,
                order,
                perm,
            } => self.protect_or_refuse(space, va, order, perm),
            Event::Move {
                space,
                from,
                to,
                order,
            } => self.move_or_refuse(space, from, to, order),
            Event::Space { space } => self.switch_or_refuse(space),
            Event::Fence { .. } => unreachable!(),
        }
    }

    /// Serves a map, or counts the first refusal that holds.
    fn map_or_refuse(&mut self, space: u16, va: u64, order: Order, perm: Perm) -> HartOutcome
        ensures outcome { result ≡ outcome_of (event.Map space va order perm) self.old }
        ensures after { self.new ≡ after_own (event.Map space va order perm) self.old }
    {
        if let Some(refusal) = self.map_refusal(space, va, order, perm) {
            return self.refuse(refusal);
        }
        self.map(space, va, order, perm);
        HartOutcome::Done
    }

    /// Serves an unmap, or counts the first refusal that holds.
    fn unmap_or_refuse(&mut self, space: u16, va: u64, order: Order) -> HartOutcome
        ensures outcome { result ≡ outcome_of (event.Unmap space va order) self.old }
        ensures after { self.new ≡ after_own (event.Unmap space va order) self.old }
    {
        match self.change_refusal(space, va, order) {
            Ok(old) => {
                self.unmap(space, va, order, old);
                HartOutcome::Done
            }
            Err(refusal) => self.refuse(refusal),
        }
    }

    /// Serves a protect, or counts the first refusal that holds.
    fn protect_or_refuse(&mut self, space: u16, va: u64, order: Order, perm: Perm) -> HartOutcome
        ensures outcome { result ≡ outcome_of (event.Protect space va order perm) self.old }
        ensures after { self.new ≡ after_own (event.Protect space va order perm) self.old }
    {
        match self.change_refusal(space, va, order) {
            Ok(old) => {
                self.protect(space, va, order, perm, old);
                HartOutcome::Done
            }
            Err(refusal) => self.refuse(refusal),
        }
    }

    /// Serves a move, or counts the first refusal that holds.
    fn move_or_refuse(&mut self, space: u16, from: u64, to: u64, order: Order) -> HartOutcome
        ensures outcome { result ≡ outcome_of (event.Move space from to order) self.old }
        ensures after { self.new ≡ after_own (event.Move space from to order) self.old }
    {
        match self.move_refusal(space, from, to, order) {
            Ok(old) => {
                self.relocate(space, from, to, order, old);
                HartOutcome::Done
            }
            Err(refusal) => self.refuse(refusal),
        }
    }

    /// Makes a space the current hart's, or counts the refusal of one that isn't of the spec.
    fn switch_or_refuse(&mut self, space: u16) -> HartOutcome
        ensures outcome { result ≡ outcome_of (event.Space space) self.old }
        ensures after { self.new ≡ after_own (event.Space space) self.old }
    {
        if let Some(refusal) = space_refusal(&self.spec, space) {
            return self.refuse(HartRefusal::Mapping(refusal));
        }
        self.switch(space);
        HartOutcome::Done
    }

    /// Makes a space the current hart's.
    fn switch(&mut self, space: u16)
        requires { space < self.old.spec.spaces }
        ensures { self.new ≡ hart_switched space self.old }
    {
        self.harts[self.current as usize].switch(space);
        self.accepted = self.accepted.wrapping_add(1);
    }

    /// Makes a hart the current one, or counts the refusal of a number that no hart has.
    fn choose_or_refuse(&mut self, hart: u16) -> HartOutcome
        ensures outcome { result ≡ hart_outcome (step.Hart hart) self.old }
        ensures after { self.new ≡ after_hart_event (step.Hart hart) self.old }
    {
        if hart as usize >= self.harts.len() {
            return self.refuse(HartRefusal::BadHart);
        }
        self.choose(hart);
        HartOutcome::Done
    }

    /// Makes a hart the current one.
    fn choose(&mut self, hart: u16)
        requires { hart < length self.old.harts }
        ensures { self.new ≡ record self.old { current = hart } }
    {
        self.current = hart;
    }

    /// The first refusal of a take.
    fn take_refusal(&self, hart: u16) -> Option<HartRefusal>
        ensures { result ≡ hart_refusal self.now (step.Take hart) }
    {
        if hart as usize >= self.harts.len() {
            return Some(HartRefusal::BadHart);
        }
        if self.harts[hart as usize].waiting() == 0 {
            return Some(HartRefusal::NothingToTake);
        }
        None
    }

    /// A hart takes the oldest request of its queue, or the first refusal is counted.
    fn take_or_refuse(&mut self, hart: u16) -> HartOutcome
        ensures outcome { result ≡ hart_outcome (step.Take hart) self.old }
        ensures after { self.new ≡ after_hart_event (step.Take hart) self.old }
    {
        if let Some(refusal) = self.take_refusal(hart) {
            return self.refuse(refusal);
        }
        self.take_request(hart);
        HartOutcome::Done
    }

    /// Counts a refusal, and nothing else changes.
    fn refuse(&mut self, refusal: HartRefusal) -> HartOutcome
        ensures outcome { result ≡ outcome.Refused refusal }
        ensures after { self.new ≡ refused_by refusal self.old }
    {
        let place = refusal.place();
        self.refused[place] = self.refused[place].wrapping_add(1);
        HartOutcome::Refused(refusal)
    }
}
