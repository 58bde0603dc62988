//! The commands of a script.

use xl_nested_model::{Nest, NestEvent};

/// A command: events, or a run of the next records of the trace, by their number or all that are
/// left. Event i of `Events`, from 0, is `first` with each of its addresses raised by i times the
/// order's size.
#[derive(Clone, Copy)]
pub enum NestCommand {
    Events { first: NestEvent, n: u32 },
    Run { n: u64 },
    RunRest,
}

/// What a line is: the head of the script, or a command.
#[derive(Clone, Copy)]
pub(crate) enum Line {
    Head(Nest),
    Own(NestCommand),
}
