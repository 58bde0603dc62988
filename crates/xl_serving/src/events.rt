//! The events of a command.

ghost use Rattle.std.specs.Prelude.{◌≡◌, ◌<◌};
ghost use Rattle.xl_script.specs.Placing.{IsPlaced};
ghost use Rattle.xl_serving.specs.Serving.{count_of, event_at};

use xl_model::{Command, Event};

/// How many events a command is.
pub fn count(command: Command) -> u32
    ensures { result ≡ count_of command }
{
    match command {
        Command::Map { n, .. } => n,
        Command::Unmap { n, .. } => n,
        Command::Protect { n, .. } => n,
        Command::Move { n, .. } => n,
        Command::Space { .. } => 1,
        Command::Fence { .. } => 1,
        Command::Demand { .. } => 0,
        Command::Run { .. } => 0,
        Command::RunRest => 0,
    }
}

/// The event of this number of a command, from 0.
pub fn nth_event(command: Command, i: u32) -> Event
    requires placed { IsPlaced command }
    requires within { i < count_of command }
    ensures { result ≡ event_at command i }
{
    let place = i as u64;
    match command {
        Command::Map {
            space,
            va,
            order,
            perm,
            ..
        } => Event::Map {
            space,
            va: va + place * order.bytes(),
            order,
            perm,
        },
        Command::Unmap {
            space,
            va,
            order,
            ..
        } => Event::Unmap {
            space,
            va: va + place * order.bytes(),
            order,
        },
        Command::Protect {
            space,
            va,
            order,
            perm,
            ..
        } => Event::Protect {
            space,
            va: va + place * order.bytes(),
            order,
            perm,
        },
        Command::Move {
            space,
            from,
            to,
            order,
            ..
        } => Event::Move {
            space,
            from: from + place * order.bytes(),
            to: to + place * order.bytes(),
            order,
        },
        Command::Space { space } => Event::Space { space },
        Command::Fence { scope } => Event::Fence { scope },
        Command::Demand { .. } => unreachable!(),
        Command::Run { .. } => unreachable!(),
        Command::RunRest => unreachable!(),
    }
}
