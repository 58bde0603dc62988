//! A run of the form: the report of a script over a trace.

ghost use Rattle.std.specs.Prelude.{◌≡◌, Some, Err, IfErr, IfSome};
ghost use Rattle.xl_outside.specs.Sinks.{Proceeds, IsFlushed};
ghost use Rattle.xl_course.specs.Stops.{status_by, FolderLeft, is_all_put, StopsRun};
ghost use Rattle.xl_course.specs.Accounts.{Ends};
ghost use Rattle.xl_serving.specs.Inputs.{trail_in};
ghost use Rattle.xl_paired.specs.Pairs.{account_from, state_from};
ghost use Rattle.xl_words.specs.Words.{pair_of};
ghost use Rattle.xl_nesting.specs.Nesting.{nested_form};
ghost use Rattle.xl_nesting.specs.Accounts.{nested_account, nested_left};

use crate::form::Nesting;
use crate::orders::NestOrders;
use crate::reading::NestParser;
use std::alloc::Global;
use xl_course::Stop;
use xl_nested::Nested;
use xl_outside::{Folder, Sink};
use xl_paired::read_script;
use xl_serving::TraceFile;
use xl_words::Pair;

/// Reads the script, opens a guest over a host of its sizes, serves them the script over the trace,
/// and writes the report: a line for each access where answers are asked for, and the line of the
/// counts. All memory is taken before the first event. At Ok the guest over its host is there, as
/// the run leaves it.
#[inline(never)]
pub fn report<F: Folder, K: Sink>(
    alloc: Global,
    words: &Pair<'_>,
    folder: &mut F,
    out: &mut K,
    nested: &mut Option<Nested>,
) -> Result<(), Stop>
    requires { IsFlushed K.sink out.old }
    ensures known { IfSome (F.folder.files folder.old) (λ fs.
        Ends result (nested_account (pair_of words.now) fs)
        K.sink.roomy (K.sink.outside out.old).written (K.sink.outside out.new).written
        out.old out.new
        (nested.new ≡ nested_left (pair_of words.now) fs)) }
    ensures leaves { FolderLeft F.folder folder.old folder.new
        (status_by result) }
    ensures proceeds { Proceeds (is_all_put result) (K.sink.outside out.old)
        (K.sink.outside out.new) }
    ensures caused { IfErr result StopsRun }
    ensures early { result ≡ Err Stop.NoMemory → nested.new ≡ nested.old }
{
    let script = read_script::<NestParser, F>(alloc, folder, words.script)?;
    let orders = NestOrders {
        script: &script,
        answers: words.answers,
    };
    report_orders(alloc, &orders, words.trace, folder, out, nested)
}

/// Opens a guest over a host of a script's sizes, serves them the script over the trace of this
/// name, and writes the report.
fn report_orders<F: Folder, K: Sink>(
    alloc: Global,
    orders: &NestOrders<'_>,
    trace: &str,
    folder: &mut F,
    out: &mut K,
    nested: &mut Option<Nested>,
) -> Result<(), Stop>
    requires { IsFlushed K.sink out.old }
    ensures known { IfSome (F.folder.files folder.old) (λ fs.
        Ends result (account_from nested_form orders.now.answers (trail_in (Some trace.now) fs)
        orders.now.script.now)
        K.sink.roomy (K.sink.outside out.old).written (K.sink.outside out.new).written
        out.old out.new
        (nested.new ≡ Some (state_from nested_form (trail_in (Some trace.now) fs)
        orders.now.script.now))) }
    ensures leaves { FolderLeft F.folder folder.old folder.new
        (status_by result) }
    ensures proceeds { Proceeds (is_all_put result) (K.sink.outside out.old)
        (K.sink.outside out.new) }
    ensures caused { IfErr result StopsRun }
    ensures early { result ≡ Err Stop.NoMemory → nested.new ≡ nested.old }
{
    orders.fit();
    let mut machine = Nested::open(alloc, orders.script.nest())?;
    let mut source = TraceFile::open(alloc, trace)?;
    let mut form = Nesting::new();
    let end = xl_course::report(&mut form, &mut machine, orders, &mut source, folder, out);
    *nested = Some(machine);
    end
}
