//! Why a run stops, its status and its message.

ghost use Rattle.std.specs.Prelude.{◌≡◌, ◌+◌, ◌≤◌, ◌++◌, length, codes, decimal};
ghost use Rattle.xl_course.specs.declared.stop.Stop.TheVariants as why;
ghost use Rattle.xl_course.specs.Stops.{status_at, of_unread, of_read, status_of_fault};
ghost use Rattle.xl_course.specs.Messages.{message_at, with_place, with_fault};

use crate::status::Status;
use thiserror::Error;
use xl_model::{InputFault, NoMemory};
use xl_outside::{Failed, ReadStop, Unread};
use xl_report::Line;

/// Why a source gives no record, serving ends, or a run does: one type for all of a run, so that a
/// stop is handed on as it is. A clause at each call says which of these it may be.
#[derive(Clone, Copy, Debug, Error)]
pub enum Stop {
    /// Something is wrong with the words or a file.
    #[error("the input is at fault")]
    Input(InputFault),
    /// A read failed.
    #[error("a read failed")]
    ReadFault,
    /// A put failed.
    #[error("a write failed")]
    WriteFault,
    /// There is no memory.
    #[error("no memory")]
    NoMemory,
}

impl From<NoMemory> for Stop {
    ghost from_gives = { λ _ stop. stop ≡ why.NoMemory };

    fn from(_none: NoMemory) -> Stop {
        Stop::NoMemory
    }
}

impl From<Failed> for Stop {
    ghost from_gives = { λ _ stop. stop ≡ why.WriteFault };

    fn from(_failed: Failed) -> Stop {
        Stop::WriteFault
    }
}

impl From<Unread> for Stop {
    ghost from_gives = { λ unread stop. stop ≡ of_unread unread };

    fn from(unread: Unread) -> Stop {
        match unread {
            Unread::Missing => Stop::Input(InputFault::NoFile),
            Unread::Failed => Stop::ReadFault,
        }
    }
}

impl From<ReadStop> for Stop {
    ghost from_gives = { λ read stop. stop ≡ of_read read };

    fn from(read: ReadStop) -> Stop {
        match read {
            ReadStop::Missing => Stop::Input(InputFault::NoFile),
            ReadStop::Failed => Stop::ReadFault,
            ReadStop::NoMemory => Stop::NoMemory,
        }
    }
}

impl Stop {
    /// The status of a run that stops so.
    pub fn status(self) -> Status
        ensures { result ≡ status_at self }
    {
        match self {
            Stop::Input(fault) => fault_status(fault),
            Stop::ReadFault => Status::ReadFault,
            Stop::WriteFault => Status::WriteFault,
            Stop::NoMemory => Status::NoMemory,
        }
    }

    /// The message of a run that stops so.
    pub fn message(self) -> Line<1024>
        ensures { result ≡ message_at self }
    {
        let mut message = Line::<1024>::new();
        message.add(b"xlate: ");
        match self {
            Stop::Input(fault) => add_fault(&mut message, fault),
            Stop::ReadFault => message.add(b"read fault"),
            Stop::WriteFault => message.add(b"write fault"),
            Stop::NoMemory => message.add(b"no memory"),
        }
        message.add(b"\n");
        message
    }
}

/// The status of a run whose input has this fault.
fn fault_status(fault: InputFault) -> Status
    ensures { result ≡ status_of_fault fault }
{
    match fault {
        InputFault::Words => Status::Usage,
        InputFault::ConfigTooLong => Status::BadConfig,
        InputFault::ConfigNotToml => Status::BadConfig,
        InputFault::ConfigKey { .. } => Status::BadConfig,
        InputFault::ScriptTooLong => Status::BadScript,
        InputFault::ScriptLine { .. } => Status::BadScript,
        InputFault::TraceTooLong => Status::BadTrace,
        InputFault::TraceLine { .. } => Status::BadTrace,
        InputFault::NoFile => Status::NoFile,
    }
}

/// Adds what is wrong with the input.
fn add_fault(message: &mut Line<1024>, fault: InputFault)
    requires { length message.old ≤ 10 }
    ensures text { message.new ≡ with_fault message.old fault }
    ensures grows { length message.new ≤ length message.old + 200 }
{
    match fault {
        InputFault::Words => message.add(USAGE),
        InputFault::ConfigTooLong => message.add(b"configuration: too long"),
        InputFault::ConfigNotToml => message.add(b"configuration: not TOML"),
        InputFault::ConfigKey { row, key, rule } => add_key(message, row, key, rule),
        InputFault::ScriptTooLong => message.add(b"script: too long"),
        InputFault::ScriptLine { line, reason } => add_place(
            message,
            b"script line ",
            line,
            reason,
        ),
        InputFault::TraceTooLong => message.add(b"trace: too long"),
        InputFault::TraceLine { line, reason } => add_place(message, b"trace line ", line, reason),
        InputFault::NoFile => message.add(b"no file"),
    }
}

/// The words of the program.
const USAGE: &[u8] =
    b"usage: --config FILE [--script FILE] [--trace FILE] [--make N] [--answers] [--image] [--json]";

/// Adds the number of a bad line, and the reason for which it is bad.
fn add_place(message: &mut Line<1024>, text: &[u8], line: u64, reason: u8)
    requires { length message.old + length text.now ≤ 100 }
    ensures place { message.new ≡ with_place message.old text.now line reason }
    ensures grows { length message.new ≤ length message.old + length text.now + 60 }
{
    message.add(text);
    message.number(line);
    message.add(b": reason ");
    message.number(reason as u64);
}

/// Adds the key of a configuration that breaks a rule.
fn add_key(message: &mut Line<1024>, row: u32, key: u8, rule: u8)
    requires { length message.old ≤ 100 }
    ensures key { message.new ≡ message.old ++ codes "configuration row " ++ decimal row
        ++ codes " key " ++ decimal key ++ codes " rule " ++ decimal rule }
    ensures grows { length message.new ≤ length message.old + 100 }
{
    message.add(b"configuration row ");
    message.number(row as u64);
    message.add(b" key ");
    message.number(key as u64);
    message.add(b" rule ");
    message.number(rule as u64);
}
