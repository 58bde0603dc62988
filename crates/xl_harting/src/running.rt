//! A run of harts: the report of a script over a trace.

ghost use Rattle.std.specs.Prelude.{◌≡◌, Some, Err, IfErr, IfSome};
ghost use Rattle.xl_outside.specs.Sinks.{Proceeds, IsFlushed};
ghost use Rattle.xl_course.specs.Stops.{status_by, FolderLeft, is_all_put, StopsRun};
ghost use Rattle.xl_course.specs.Accounts.{Ends};
ghost use Rattle.xl_serving.specs.Inputs.{trail_in};
ghost use Rattle.xl_paired.specs.Pairs.{account_from, state_from};
ghost use Rattle.xl_words.specs.Words.{pair_of};
ghost use Rattle.xl_harting.specs.Harting.{harts_form, harts_account, harts_left};

use crate::form::Harting;
use crate::orders::HartOrders;
use crate::reading::HartParser;
use std::alloc::Global;
use xl_course::Stop;
use xl_harts::Harts;
use xl_outside::{Folder, Sink};
use xl_paired::read_script;
use xl_serving::TraceFile;
use xl_words::Pair;

/// Reads the script, opens its harts, serves them the script over the trace, and writes the report:
/// a line for each access where answers are asked for, a line for each hart, and one for all of
/// them. All memory is taken before the first event. At Ok the harts are there, as the run leaves
/// them.
#[inline(never)]
pub fn report<F: Folder, K: Sink>(
    alloc: Global,
    words: &Pair<'_>,
    folder: &mut F,
    out: &mut K,
    harts: &mut Option<Harts>,
) -> Result<(), Stop>
    requires { IsFlushed K.sink out.old }
    ensures known { IfSome (F.folder.files folder.old) (λ fs.
        Ends result (harts_account (pair_of words.now) fs)
        K.sink.roomy (K.sink.outside out.old).written (K.sink.outside out.new).written
        out.old out.new
        (harts.new ≡ harts_left (pair_of words.now) fs)) }
    ensures leaves { FolderLeft F.folder folder.old folder.new
        (status_by result) }
    ensures proceeds { Proceeds (is_all_put result) (K.sink.outside out.old)
        (K.sink.outside out.new) }
    ensures caused { IfErr result StopsRun }
    ensures early { result ≡ Err Stop.NoMemory → harts.new ≡ harts.old }
{
    let script = read_script::<HartParser, F>(alloc, folder, words.script)?;
    let orders = HartOrders {
        script: &script,
        answers: words.answers,
    };
    report_orders(alloc, &orders, words.trace, folder, out, harts)
}

/// Opens the harts of a script, serves them the script over the trace of this name, and writes the
/// report.
fn report_orders<F: Folder, K: Sink>(
    alloc: Global,
    orders: &HartOrders<'_>,
    trace: &str,
    folder: &mut F,
    out: &mut K,
    harts: &mut Option<Harts>,
) -> Result<(), Stop>
    requires { IsFlushed K.sink out.old }
    ensures known { IfSome (F.folder.files folder.old) (λ fs.
        Ends result (account_from harts_form orders.now.answers (trail_in (Some trace.now) fs)
        orders.now.script.now)
        K.sink.roomy (K.sink.outside out.old).written (K.sink.outside out.new).written
        out.old out.new
        (harts.new ≡ Some (state_from harts_form (trail_in (Some trace.now) fs)
        orders.now.script.now))) }
    ensures leaves { FolderLeft F.folder folder.old folder.new
        (status_by result) }
    ensures proceeds { Proceeds (is_all_put result) (K.sink.outside out.old)
        (K.sink.outside out.new) }
    ensures caused { IfErr result StopsRun }
    ensures early { result ≡ Err Stop.NoMemory → harts.new ≡ harts.old }
{
    orders.fit();
    let mut source = TraceFile::open(alloc, trace)?;
    let mut machine = Harts::open(alloc, orders.script.spec())?;
    let mut form = Harting::new();
    let end = xl_course::report(&mut form, &mut machine, orders, &mut source, folder, out);
    *harts = Some(machine);
    end
}
