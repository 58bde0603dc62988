//! The events of a command, and accesses.

ghost use Rattle.std.specs.Prelude.{◌≡◌, ◌^◌, ◌<◌, map, true};
ghost use Rattle.xl_model.specs.Courses.{block_address};
ghost use Rattle.xl_model.specs.Tally.{IsSmall};
ghost use Rattle.xl_hart_model.specs.Harts.{after_hart_event, current_hart, hart_reply};
ghost use Rattle.xl_course.specs.Meanings.{states_after};
ghost use Rattle.xl_hart_script.specs.declared.command.HartCommand.TheVariants as command;
ghost use Rattle.xl_hart_script.specs.Lines.{fits_events, own_fits};
ghost use Rattle.xl_hart_script.specs.Scripts.{IsReady};
ghost use Rattle.xl_paired.specs.Pairs.{Command, accesses_after, events_from, meaning_of};
ghost use Rattle.xl_harting.specs.Harting.{access_of, event_at, harts_form, raised as raised_by};

use xl_hart_model::{HartEvent, HartOutcome};
use xl_harts::Harts;
use xl_lackey::Access;
use xl_model::{Event, Kind, Order, Reply};

/// The address of the block of this number, from 0, of those that follow one another.
fn block(address: u64, order: Order, i: u32) -> u64
    requires { block_address address order i < 2 ^ 64 }
    ensures { result ≡ block_address address order i }
{
    address + i as u64 * order.bytes()
}

/// Event number `i`, from 0, of `n` for the current hart, of which the first is given: each of its
/// addresses is raised by `i` blocks.
fn raised(first: Event, i: u32, n: u32) -> Event
    requires fits { own_fits first n ≡ true }
    requires within { i < n }
    ensures { result ≡ raised_by first i }
{
    match first {
        Event::Map {
            space,
            va,
            order,
            perm,
        } => Event::Map {
            space,
            va: block(va, order, i),
            order,
            perm,
        },
        Event::Unmap { space, va, order } => Event::Unmap {
            space,
            va: block(va, order, i),
            order,
        },
        Event::Protect {
            space,
            va,
            order,
            perm,
        } => Event::Protect {
            space,
            va: block(va, order, i),
            order,
            perm,
        },
        Event::Move {
            space,
            from,
            to,
            order,
        } => Event::Move {
            space,
            from: block(from, order, i),
            to: block(to, order, i),
            order,
        },
        _ => first,
    }
}

/// Event number `i`, from 0, of `n` of which the first is given.
fn nth_event(first: HartEvent, i: u32, n: u32) -> HartEvent
    requires fits { fits_events first n ≡ true }
    requires within { i < n }
    ensures { result ≡ event_at first i }
{
    match first {
        HartEvent::Own { event } => HartEvent::Own {
            event: raised(event, i, n),
        },
        _ => first,
    }
}

/// Serves the events of a command, in rising number.
pub(crate) fn serve_events(harts: &mut Harts, first: HartEvent, n: u32)
    requires { IsReady (command.Events first n) }
    ensures { harts.new ≡ states_after (meaning_of harts_form)
        (map Command (events_from (event_at first) 0 n)) harts.old }
{
    for i in 0..n {
        harts.step(nth_event(first, i, n));
    }
}

/// Replies to an access of the current hart.
#[inline(always)]
pub(crate) fn reply(harts: &mut Harts, va: u64, kind: Kind) -> Reply
    ensures reply { result ≡ hart_reply (current_hart harts.old) harts.old.table.leaves va kind }
    ensures small { IsSmall result }
    ensures after { harts.new ≡ after_hart_event (access_of va kind) harts.old }
{
    let event = Event::Access { va, kind };
    match harts.step(HartEvent::Own { event }) {
        HartOutcome::Replied(reply) => reply,
        _ => unreachable!(),
    }
}

/// Serves accesses of the current hart, one after another.
pub(crate) fn serve_accesses(harts: &mut Harts, accesses: &[Access])
    ensures { harts.new ≡ accesses_after harts_form accesses.now harts.old }
{
    harts.serve_accesses(accesses);
}
