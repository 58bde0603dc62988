//! The commands, and one event.

ghost use Rattle.std.specs.Prelude.{◌≡◌, ◌/◌, None};
ghost use Rattle.xl_model.specs.Addresses.{page_of as page_number};
ghost use Rattle.xl_nested_model.specs.Rules.{gmap_rule, gunmap_rule, vmap_rule, vunmap_rule, gmapped, gunmapped, vmapped, vunmapped};
ghost use Rattle.xl_nested_model.specs.Nested.{after_nest_event, nest_outcome};
ghost use Rattle.xl_nested_model.specs.Tally.{IsSmallOutcome};
ghost use Rattle.xl_model.specs.declared.address.Mode.TheVariants as mode;
ghost use Rattle.xl_nested_model.specs.declared.nest.NestEvent.TheVariants as event;
ghost use Rattle.xl_nested.specs.Laws.{EventLaws};
ghost use Rattle.xl_nested.specs.Commands.{IsServed, IsSettled, counts_settled, gaddr_rule, outcome_settled, pair_rule, va_rule};

use crate::guest::Guest;
use crate::host::Host;
use crate::nested::Nested;
use xl_model::{Mode, Order, Perm, canonical, page_of};
use xl_nested_model::{NestCounts, NestEvent, NestOutcome, NestRefusal};

/// The refusal of a guest physical address: 1 and 2.
fn gaddr_refusal(gaddr: u64, order: Order) -> Option<NestRefusal>
    ensures { result ≡ gaddr_rule gaddr order None }
{
    if gaddr >= 1 << 41 {
        return Some(NestRefusal::BadAddress);
    }
    if gaddr % order.bytes() != 0 {
        return Some(NestRefusal::Misaligned);
    }
    None
}

/// The refusal of a virtual address: 1 and 2.
fn va_refusal(va: u64, order: Order) -> Option<NestRefusal>
    ensures { result ≡ va_rule va order None }
{
    if !canonical(Mode::Sv39, va) {
        return Some(NestRefusal::BadAddress);
    }
    if va % order.bytes() != 0 {
        return Some(NestRefusal::Misaligned);
    }
    None
}

/// The refusal of a virtual address beside a guest physical address: 1 of either, then 2 of either.
fn pair_refusal(va: u64, gaddr: u64, order: Order) -> Option<NestRefusal>
    ensures { result ≡ pair_rule va gaddr order None }
{
    if !canonical(Mode::Sv39, va) || gaddr >= 1 << 41 {
        return Some(NestRefusal::BadAddress);
    }
    if va % order.bytes() != 0 || gaddr % order.bytes() != 0 {
        return Some(NestRefusal::Misaligned);
    }
    None
}

/// Maps at the host, or returns the first refusal that holds.
fn gmap(host: &mut Host, gaddr: u64, order: Order, perm: Perm) -> Result<(), NestRefusal>
    ensures { IsServed (gmap_rule gaddr order perm host.old)
        result host.old (gmapped (gaddr / 4096) order perm host.old) host.new }
{
    if let Some(refusal) = gaddr_refusal(gaddr, order) {
        return Err(refusal);
    }
    host.map(gaddr / 4096, order, perm)
}

/// Unmaps at the host, or returns the first refusal that holds.
fn gunmap(host: &mut Host, gaddr: u64, order: Order) -> Result<(), NestRefusal>
    ensures { IsServed (gunmap_rule gaddr order host.old)
        result host.old (gunmapped (gaddr / 4096) order host.old) host.new }
{
    if let Some(refusal) = gaddr_refusal(gaddr, order) {
        return Err(refusal);
    }
    host.unmap(gaddr / 4096, order)
}

/// Maps at the guest, or returns the first refusal that holds.
fn vmap(guest: &mut Guest, va: u64, order: Order, gaddr: u64, perm: Perm) -> Result<(), NestRefusal>
    ensures { IsServed (vmap_rule va order gaddr perm guest.old)
        result guest.old (vmapped (page_number mode.Sv39 va) order (gaddr / 4096) perm guest.old)
        guest.new }
{
    if let Some(refusal) = pair_refusal(va, gaddr, order) {
        return Err(refusal);
    }
    guest.map(page_of(Mode::Sv39, va), order, gaddr / 4096, perm)
}

/// Unmaps at the guest, or returns the first refusal that holds.
fn vunmap(guest: &mut Guest, va: u64, order: Order) -> Result<(), NestRefusal>
    ensures { IsServed (vunmap_rule va order guest.old)
        result guest.old (vunmapped (page_number mode.Sv39 va) order guest.old) guest.new }
{
    if let Some(refusal) = va_refusal(va, order) {
        return Err(refusal);
    }
    guest.unmap(page_of(Mode::Sv39, va), order)
}

/// Counts a command as done or refused, and gives its outcome.
fn put_in_order(counts: &mut NestCounts, served: Result<(), NestRefusal>) -> NestOutcome
    ensures outcome { result ≡ outcome_settled served }
    ensures counts { counts.new ≡ counts_settled served counts.old }
{
    match served {
        Ok(()) => {
            counts.accept();
            NestOutcome::Done
        }
        Err(refusal) => {
            counts.refuse(refusal);
            NestOutcome::Refused(refusal)
        }
    }
}

impl Nested {
    /// Serves an event: an access has a reply, a command is done or refused for the first reason
    /// that holds.
    pub fn step(&mut self, event: NestEvent) -> NestOutcome
        ensures outcome { result ≡ nest_outcome event self.old }
        ensures after { self.new ≡ after_nest_event event self.old }
        ensures laws { EventLaws event result self.old self.new }
        ensures small { IsSmallOutcome result }
    {
        match event {
            NestEvent::Access { va, kind } => NestOutcome::Replied(self.access(va, kind)),
            NestEvent::GMap { gaddr, order, perm } => self.gmap_or_refuse(gaddr, order, perm),
            NestEvent::GUnmap { gaddr, order } => self.gunmap_or_refuse(gaddr, order),
            NestEvent::VMap {
                va,
                order,
                gaddr,
                perm,
            } => self.vmap_or_refuse(va, order, gaddr, perm),
            NestEvent::VUnmap { va, order } => self.vunmap_or_refuse(va, order),
        }
    }

    /// Serves a map at the host, or counts the first refusal that holds.
    fn gmap_or_refuse(&mut self, gaddr: u64, order: Order, perm: Perm) -> NestOutcome
        ensures { IsSettled (event.GMap gaddr order perm) result self.old self.new }
    {
        let served = gmap(&mut self.host, gaddr, order, perm);
        put_in_order(&mut self.counts, served)
    }

    /// Serves an unmap at the host, or counts the first refusal that holds.
    fn gunmap_or_refuse(&mut self, gaddr: u64, order: Order) -> NestOutcome
        ensures { IsSettled (event.GUnmap gaddr order) result self.old self.new }
    {
        let served = gunmap(&mut self.host, gaddr, order);
        put_in_order(&mut self.counts, served)
    }

    /// Serves a map at the guest, or counts the first refusal that holds.
    fn vmap_or_refuse(&mut self, va: u64, order: Order, gaddr: u64, perm: Perm) -> NestOutcome
        ensures { IsSettled (event.VMap va order gaddr perm) result self.old self.new }
    {
        let served = vmap(&mut self.guest, va, order, gaddr, perm);
        put_in_order(&mut self.counts, served)
    }

    /// Serves an unmap at the guest, or counts the first refusal that holds.
    fn vunmap_or_refuse(&mut self, va: u64, order: Order) -> NestOutcome
        ensures { IsSettled (event.VUnmap va order) result self.old self.new }
    {
        let served = vunmap(&mut self.guest, va, order);
        put_in_order(&mut self.counts, served)
    }
}
