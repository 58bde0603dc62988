//! One event of a machine.

ghost use Rattle.std.specs.Prelude.{◌≡◌};
ghost use Rattle.xl_model.specs.RowRun.{outcome_of};
ghost use Rattle.xl_model.specs.declared.event.Outcome.TheVariants as outcome;
ghost use Rattle.xl_model.specs.declared.event.Event.TheVariants as event;
ghost use Rattle.xl_machine.specs.Served.{after_of, refused_by};

use crate::machine::Machine;
use crate::refusal::{fence_refusal, space_refusal};
use xl_model::{Event, Order, Outcome, Perm, Refusal, Scope, Structure};

impl<S: Structure> Machine<S> {
    /// Serves an event: an access is replied to, a command is done, or refused for the first reason
    /// that holds.
    #[inline(always)]
    pub fn step(&mut self, event: Event) -> Outcome
        ensures outcome { result ≡ outcome_of self.old.row event self.old.state }
        ensures after { self.new ≡ after_of event self.old }
    {
        match event {
            Event::Access { va, kind } => Outcome::Replied(self.access(va, kind)),
            _ => self.rule_and_serve(event),
        }
    }

    /// Serves an event for which refusals are looked for.
    #[inline(never)]
    fn rule_and_serve(&mut self, event: Event) -> Outcome
        ensures outcome { result ≡ outcome_of self.old.row event self.old.state }
        ensures after { self.new ≡ after_of event self.old }
    {
        match event {
            Event::Access { va, kind } => Outcome::Replied(self.access(va, kind)),
            Event::Map {
                space,
                va,
                order,
                perm,
            } => self.map_or_refuse(space, va, order, perm),
            Event::Unmap { space, va, order } => self.unmap_or_refuse(space, va, order),
            Event::Protect {
                space,
                va,
                order,
                perm,
            } => self.protect_or_refuse(space, va, order, perm),
            Event::Move {
                space,
                from,
                to,
                order,
            } => self.move_or_refuse(space, from, to, order),
            Event::Space { space } => self.switch_or_refuse(space),
            Event::Fence { scope } => self.fence_or_refuse(scope),
        }
    }

    /// Serves a map, or counts the first refusal that holds.
    fn map_or_refuse(&mut self, space: u16, va: u64, order: Order, perm: Perm) -> Outcome
        ensures outcome { result
            ≡ outcome_of self.old.row (event.Map space va order perm) self.old.state }
        ensures after { self.new ≡ after_of (event.Map space va order perm) self.old }
    {
        match self.map_refusal(space, va, order) {
            Some(refusal) => self.refuse_event(refusal),
            None => self.map(space, va, order, perm),
        }
    }

    /// Serves an unmap, or counts the first refusal that holds.
    fn unmap_or_refuse(&mut self, space: u16, va: u64, order: Order) -> Outcome
        ensures outcome { result
            ≡ outcome_of self.old.row (event.Unmap space va order) self.old.state }
        ensures after { self.new ≡ after_of (event.Unmap space va order) self.old }
    {
        match self.leaf_to_change(space, va, order) {
            Ok(old) => self.unmap(space, va, order, old),
            Err(refusal) => self.refuse_event(refusal),
        }
    }

    /// Serves a protect, or counts the first refusal that holds.
    fn protect_or_refuse(&mut self, space: u16, va: u64, order: Order, perm: Perm) -> Outcome
        ensures outcome { result
            ≡ outcome_of self.old.row (event.Protect space va order perm) self.old.state }
        ensures after { self.new ≡ after_of (event.Protect space va order perm) self.old }
    {
        match self.leaf_to_change(space, va, order) {
            Ok(old) => self.protect(space, va, order, perm, old),
            Err(refusal) => self.refuse_event(refusal),
        }
    }

    /// Serves a move, or counts the first refusal that holds.
    fn move_or_refuse(&mut self, space: u16, from: u64, to: u64, order: Order) -> Outcome
        ensures outcome { result
            ≡ outcome_of self.old.row (event.Move space from to order) self.old.state }
        ensures after { self.new ≡ after_of (event.Move space from to order) self.old }
    {
        match self.leaf_to_move(space, from, to, order) {
            Ok(old) => self.relocate(space, from, to, order, old),
            Err(refusal) => self.refuse_event(refusal),
        }
    }

    /// Serves a change of the current space, or counts the refusal of a space that isn't the row's.
    fn switch_or_refuse(&mut self, space: u16) -> Outcome
        ensures outcome { result ≡ outcome_of self.old.row (event.Space space) self.old.state }
        ensures after { self.new ≡ after_of (event.Space space) self.old }
    {
        if let Some(refusal) = space_refusal(&self.row, space) {
            return self.refuse_event(refusal);
        }
        self.switch(space);
        Outcome::Done
    }

    /// Serves a fence, or counts the first refusal that holds.
    fn fence_or_refuse(&mut self, scope: Scope) -> Outcome
        ensures outcome { result ≡ outcome_of self.old.row (event.Fence scope) self.old.state }
        ensures after { self.new ≡ after_of (event.Fence scope) self.old }
    {
        if let Some(refusal) = fence_refusal(&self.row, scope) {
            return self.refuse_event(refusal);
        }
        self.fence(scope);
        Outcome::Done
    }

    /// Counts the refusal of an event, and nothing else changes.
    fn refuse_event(&mut self, refusal: Refusal) -> Outcome
        ensures outcome { result ≡ outcome.Refused refusal }
        ensures after { self.new ≡ refused_by refusal self.old }
    {
        self.counts.refuse(refusal);
        Outcome::Refused(refusal)
    }
}
