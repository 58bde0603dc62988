//! A run of the program, in the form that its words ask for.

ghost use Rattle.std.specs.Prelude.{◌≡◌, ◌⊎◌, Err, IfSome, true, length, map, option_map, string_bytes};
ghost use Rattle.xl_outside.specs.Sinks.{Proceeds, IsFlushed};
ghost use Rattle.xl_words.specs.Words.{asked};
ghost use Rattle.xl_course.specs.Stops.{status_by, FolderLeft, is_all_put, is_status_put};
ghost use Rattle.xl_course.specs.Accounts.{text_of, Answers, SaysOfWords, Completes, Ends, message_of, Says};
ghost use Rattle.xl_bench.specs.Accounts.{account_of, machines_left, is_asked_late};
ghost use Rattle.xl_bench.specs.Machines.{no_machines, IsUnserved};

use crate::machines::Machines;
use std::alloc::Global;
use xl_course::{Status, Stop, report_end};
use xl_outside::{Folder, Sink};
use xl_serving::words_stop;
use xl_words::{Words, read};

/// Reads the words and the files that they name, opens the machines of the form that they ask for,
/// serves the script over the trace, and writes the report to `out`. At any status but Ok a line on
/// `err` says why. The words are the program's name and those after it: `--config F [--script F]
/// [--trace F] [--make N] [--answers] [--image] [--json]`, or `curve --sets N --config F [--script
/// F] [--trace F]`, or `nested` or `harts` with `--script F --trace F [--answers]`. All memory is
/// taken before the first event, but for the text of the rows as JSON: at status NoMemory nothing
/// was served, or that text alone is missing. At status Ok the machines are as the run leaves them.
pub fn run<F: Folder, K: Sink, E: Sink>(
    alloc: Global,
    words: &Vec<String>,
    folder: &mut F,
    out: &mut K,
    err: &mut E,
    machines: &mut Machines,
) -> Status
    requires none { machines.old ≡ no_machines }
    requires out_flushed { IsFlushed K.sink out.old }
    requires err_flushed { IsFlushed E.sink err.old }
    ensures known { IfSome (F.folder.files folder.old) (λ fs. Answers result
        (account_of (map string_bytes words.now.items) fs)
        (K.sink.outside out.old).written (K.sink.outside out.new).written) }
    ensures served { IfSome (F.folder.files folder.old) (λ fs. result ≡ Status.Ok
        → machines.new ≡ machines_left (map string_bytes words.now.items) fs) }
    ensures early { result ≡ Status.NoMemory → IsUnserved machines.new
        ⊎ ((is_asked_late (asked (map string_bytes words.now.items)) ≡ true)
        × IfSome (F.folder.files folder.old) (λ fs.
        machines.new ≡ machines_left (map string_bytes words.now.items) fs)) }
    ensures usage { SaysOfWords result (asked (map string_bytes words.now.items)) }
    ensures leaves { FolderLeft F.folder folder.old folder.new result }
    ensures proceeds { Proceeds (is_status_put result)
        (K.sink.outside out.old) (K.sink.outside out.new) }
    ensures said { IfSome (message_of result
        (option_map (account_of (map string_bytes words.now.items)) (F.folder.files folder.old)))
        (λ text. Says E.sink text err.old err.new) }
    ensures complete { F.folder.steady folder.old → IfSome (F.folder.files folder.old) (λ fs.
        K.sink.roomy out.old (length (text_of (account_of (map string_bytes words.now.items) fs)))
        → Completes result (account_of (map string_bytes words.now.items) fs)) }
{
    let end = report_of(alloc, words, folder, out, machines);
    report_end(err, end);
    Status::of(end)
}

/// Writes the report that the words ask for, in their form.
#[tactic(auto, unfolding(crate::specs::Accounts::account_of, crate::specs::Accounts::machines_left))]
fn report_of<F: Folder, K: Sink>(
    alloc: Global,
    words: &Vec<String>,
    folder: &mut F,
    out: &mut K,
    machines: &mut Machines,
) -> Result<(), Stop>
    requires none { machines.old ≡ no_machines }
    requires flushed { IsFlushed K.sink out.old }
    ensures known { IfSome (F.folder.files folder.old) (λ fs. Ends result
        (account_of (map string_bytes words.now.items) fs)
        K.sink.roomy (K.sink.outside out.old).written (K.sink.outside out.new).written
        out.old out.new
        (machines.new ≡ machines_left (map string_bytes words.now.items) fs)) }
    ensures early { result ≡ Err Stop.NoMemory → IsUnserved machines.new
        ⊎ ((is_asked_late (asked (map string_bytes words.now.items)) ≡ true)
        × IfSome (F.folder.files folder.old) (λ fs.
        machines.new ≡ machines_left (map string_bytes words.now.items) fs)) }
    ensures usage { SaysOfWords (status_by result) (asked (map string_bytes words.now.items)) }
    ensures leaves { FolderLeft F.folder folder.old folder.new
        (status_by result) }
    ensures proceeds { Proceeds (is_all_put result) (K.sink.outside out.old)
        (K.sink.outside out.new) }
{
    match read(alloc, words.as_slice()) {
        Ok(Words::Plain(words)) => xl_serving::report(
            alloc,
            &words,
            folder,
            out,
            &mut machines.rows,
        ),
        Ok(Words::Curve(words)) => xl_curving::report(
            alloc,
            &words,
            folder,
            out,
            &mut machines.rows,
        ),
        Ok(Words::Nested(words)) => xl_nesting::report(
            alloc,
            &words,
            folder,
            out,
            &mut machines.nested,
        ),
        Ok(Words::Harts(words)) => xl_harting::report(
            alloc,
            &words,
            folder,
            out,
            &mut machines.harts,
        ),
        Err(fault) => Err(words_stop(fault)),
    }
}
