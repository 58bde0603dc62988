//! The events of a command, and accesses.

ghost use Rattle.std.specs.Prelude.{◌≡◌, ◌+◌, ◌^◌, ◌<◌, map};
ghost use Rattle.xl_model.specs.Courses.{block_address};
ghost use Rattle.xl_nested_model.specs.declared.nest.NestEvent.TheVariants as event;
ghost use Rattle.xl_nested_model.specs.Nested.{after_nest_event};
ghost use Rattle.xl_nested_model.specs.Stages.{nested as reply_of};
ghost use Rattle.xl_nested_model.specs.Tally.{IsSmallNest};
ghost use Rattle.xl_script.specs.Placing.{AreInMemory};
ghost use Rattle.xl_nested_script.specs.Lines.{event_ends};
ghost use Rattle.xl_course.specs.Meanings.{states_after};
ghost use Rattle.xl_paired.specs.Pairs.{Command, accesses_after, events_from, meaning_of};
ghost use Rattle.xl_nesting.specs.Nesting.{event_at, nested_form};

use xl_lackey::Access;
use xl_model::{Kind, Order};
use xl_nested::{NestEvent, NestReply, Nested};

/// The address of the block of this number, from 0, of those that follow one another.
fn block(address: u64, order: Order, i: u32) -> u64
    requires { block_address address order i < 2 ^ 64 }
    ensures { result ≡ block_address address order i }
{
    address + i as u64 * order.bytes()
}

/// The event of this number, from 0, of those whose first is given: each of its addresses is raised
/// by n blocks.
fn nth_event(first: NestEvent, i: u32) -> NestEvent
    requires { AreInMemory (event_ends first (i + 1)) }
    ensures { result ≡ event_at first i }
{
    match first {
        NestEvent::Access { .. } => first,
        NestEvent::GMap { gaddr, order, perm } => NestEvent::GMap {
            gaddr: block(gaddr, order, i),
            order,
            perm,
        },
        NestEvent::GUnmap { gaddr, order } => NestEvent::GUnmap {
            gaddr: block(gaddr, order, i),
            order,
        },
        NestEvent::VMap {
            va,
            order,
            gaddr,
            perm,
        } => NestEvent::VMap {
            va: block(va, order, i),
            order,
            gaddr: block(gaddr, order, i),
            perm,
        },
        NestEvent::VUnmap { va, order } => NestEvent::VUnmap {
            va: block(va, order, i),
            order,
        },
    }
}

/// Serves the events of a command, in rising number.
pub(crate) fn serve_events(nested: &mut Nested, first: NestEvent, n: u32)
    requires { AreInMemory (event_ends first n) }
    ensures { nested.new ≡ states_after (meaning_of nested_form)
        (map Command (events_from (event_at first) 0 n)) nested.old }
{
    for i in 0..n {
        nested.step(nth_event(first, i));
    }
}

/// Replies to an access.
#[tactic(auto, using(crate::proofs::AccessLemmas::after_access))]
#[inline(always)]
pub(crate) fn reply(nested: &mut Nested, va: u64, kind: Kind) -> NestReply
    ensures reply { result ≡ reply_of nested.old.guest nested.old.host.stage.leaves va kind }
    ensures small { IsSmallNest result }
    ensures after { nested.new ≡ after_nest_event (event.Access va kind) nested.old }
{
    nested.access(va, kind)
}

/// Serves accesses, one after another.
pub(crate) fn serve_accesses(nested: &mut Nested, accesses: &[Access])
    ensures { nested.new ≡ accesses_after nested_form accesses.now nested.old }
{
    for access in accesses {
        reply(nested, access.va, access.kind);
    }
}
