//! Runs address-translation designs over a trace of memory accesses.
#![tactic(auto)]

ghost use Rattle.std.specs.Prelude.{◌≡◌, IfErr, IfOk, map, string_bytes};
ghost use Rattle.xl_outside.specs.Sinks.{IsFlushed};
ghost use Rattle.xlate.specs.Codes.{code_of, code_without};
ghost use Rattle.xlate.specs.Ends.{EndsWithCode, RunEnds};

use std::alloc::Global;
use std::env;
use std::io::ErrorKind;
use std::process::ExitCode;
use xl_bench::{Machines, Status, run};
use xl_course::{Stop, report_end};
use xl_outside::{Folder, HostErr, HostFolder, HostOut, Sink};

/// Why the system gives no words.
enum NoWords {
    /// There is no memory for them.
    Memory,
    /// They are not texts.
    Texts,
}

fn main(rt: HostRuntime) -> ExitCode {
    let mut folder = HostFolder::open(&rt);
    let mut out = HostOut::open(&rt);
    let mut err = HostErr::open(&rt);
    ExitCode::from(answer(rt.alloc(), words(&rt), &mut folder, &mut out, &mut err))
}

/// The program's name and the words after it.
fn words(rt: &HostRuntime) -> Result<Vec<String>, NoWords> {
    let args = match env::args(rt) {
        Ok(args) => args,
        Err(error) if error.kind() == ErrorKind::OutOfMemory => return Err(NoWords::Memory),
        Err(_) => return Err(NoWords::Texts),
    };
    match args.collect(rt.alloc()) {
        Ok(words) => Ok(words),
        Err(_) => Err(NoWords::Memory),
    }
}

/// Runs with these words, and returns the exit code.
fn answer<F: Folder, K: Sink, E: Sink>(
    alloc: Global,
    words: Result<Vec<String>, NoWords>,
    folder: &mut F,
    out: &mut K,
    err: &mut E,
) -> u8
    requires out_flushed { IsFlushed K.sink out.old }
    requires err_flushed { IsFlushed E.sink err.old }
    ensures lacking { IfErr words (λ why. result ≡ code_without why) }
    ensures ends { IfOk words (λ ws. EndsWithCode
        (record { folder = F.folder; out = K.sink; err = E.sink }) (map string_bytes ws.items)
        result
        (record { folder = folder.old; out = out.old; err = err.old })
        (record { folder = folder.new; out = out.new; err = err.new })) }
{
    match words {
        Ok(words) => code(serve(alloc, &words, folder, out, err)),
        Err(NoWords::Memory) => 7,
        Err(NoWords::Texts) => 9,
    }
}

/// Opens the machines, and runs.
fn serve<F: Folder, K: Sink, E: Sink>(
    alloc: Global,
    words: &Vec<String>,
    folder: &mut F,
    out: &mut K,
    err: &mut E,
) -> Status
    requires out_flushed { IsFlushed K.sink out.old }
    requires err_flushed { IsFlushed E.sink err.old }
    ensures { RunEnds (record { folder = F.folder; out = K.sink; err = E.sink })
        (map string_bytes words.now.items) result
        (record { folder = folder.old; out = out.old; err = err.old })
        (record { folder = folder.new; out = out.new; err = err.new }) }
{
    let Ok(mut machines) = Machines::open(alloc) else {
        report_end(err, Err(Stop::NoMemory));
        return Status::NoMemory;
    };
    run(alloc, words, folder, out, err, &mut machines)
}

/// The exit code of a status.
fn code(status: Status) -> u8
    ensures { result ≡ code_of status }
{
    match status {
        Status::Ok => 0,
        Status::Usage => 1,
        Status::BadConfig => 2,
        Status::BadScript => 3,
        Status::BadTrace => 4,
        Status::ReadFault => 5,
        Status::WriteFault => 6,
        Status::NoMemory => 7,
        Status::NoFile => 8,
    }
}
