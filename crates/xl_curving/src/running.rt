//! A run of the form: the curves of the rows of a configuration over a script and a trace.

ghost use Rattle.std.specs.Prelude.{◌≡◌, ◌<◌, ◌≤◌, [], None, Err, IfErr, IfSome};
ghost use Rattle.xl_outside.specs.Folders.{Files};
ghost use Rattle.xl_outside.specs.Sinks.{Proceeds, IsFlushed};
ghost use Rattle.xl_course.specs.Stops.{status_by, FolderLeft, is_all_put, StopsRun};
ghost use Rattle.xl_course.specs.Accounts.{Ends};
ghost use Rattle.xl_words.specs.Words.{curve_of, plain_of};
ghost use Rattle.xl_serving.specs.Inputs.{trail_for};
ghost use Rattle.xl_serving.specs.Plain.{start_of, rows_from, AreOpened};
ghost use Rattle.xl_curving.specs.Curving.{curve_account, curve_rows, curves_from, plain_words};

use crate::curving::Curving;
use crate::orders::CurveOrders;
use std::alloc::Global;
use xl_course::{Source, Stop};
use xl_outside::{Folder, Sink};
use xl_rack::Rack;
use xl_serving::{NoTrace, PlainOrders, TraceFile, open};
use xl_words::{CurveWords, Plain};

/// The words of a plain run over the same files.
fn plain_words<'a>(words: &CurveWords<'a>) -> Plain<'a>
    ensures { plain_of result ≡ plain_words (curve_of words.now) }
{
    Plain {
        config: words.config,
        script: words.script,
        trace: words.trace,
        made: None,
        answers: false,
        image: false,
        json: false,
    }
}

/// Reads the configuration and the script, opens the rows and their curves, serves the script over
/// the trace, and writes a line for each curve. All memory is taken before the first event.
#[inline(never)]
pub fn report<F: Folder, K: Sink>(
    alloc: Global,
    words: &CurveWords<'_>,
    folder: &mut F,
    out: &mut K,
    rows: &mut Rack,
) -> Result<(), Stop>
    requires some { 0 < words.now.sets }
    requires most { words.now.sets ≤ 256 }
    requires none { rows.old ≡ [] }
    requires flushed { IsFlushed K.sink out.old }
    ensures known { IfSome (F.folder.files folder.old) (λ fs.
        Ends result (curve_account (curve_of words.now) fs)
        K.sink.roomy (K.sink.outside out.old).written (K.sink.outside out.new).written
        out.old out.new
        (rows.new ≡ curve_rows (curve_of words.now) fs)) }
    ensures leaves { FolderLeft F.folder folder.old folder.new
        (status_by result) }
    ensures proceeds { Proceeds (is_all_put result) (K.sink.outside out.old)
        (K.sink.outside out.new) }
    ensures caused { IfErr result StopsRun }
    ensures early { result ≡ Err Stop.NoMemory → AreOpened rows.new }
{
    let plain = plain_words(words);
    let script = open(alloc, &plain, folder, rows)?;
    let orders = CurveOrders {
        plain: PlainOrders {
            script: &script,
            words: &plain,
        },
        sets: words.sets,
    };
    report_orders(alloc, &orders, folder, out, rows)
}

/// Serves the script over the trace that the words name, and writes the curves. Where they name
/// none, the trace has no records. Apart, so that rows are opened with no buffer of a trace on the
/// stack.
#[inline(never)]
fn report_orders<F: Folder, K: Sink>(
    alloc: Global,
    orders: &CurveOrders<'_>,
    folder: &mut F,
    out: &mut K,
    rows: &mut Rack,
) -> Result<(), Stop>
    requires some { 0 < orders.now.sets }
    requires most { orders.now.sets ≤ 256 }
    requires unmade { (plain_of orders.now.plain.words.now).made ≡ None }
    requires flushed { IsFlushed K.sink out.old }
    ensures known { IfSome (F.folder.files folder.old) (λ fs.
        Ends result (curves_from orders.now.sets
        (trail_for (plain_of orders.now.plain.words.now) fs)
        (start_of rows.old orders.now.plain.script.now))
        K.sink.roomy (K.sink.outside out.old).written (K.sink.outside out.new).written
        out.old out.new
        (rows.new ≡ rows_from (trail_for (plain_of orders.now.plain.words.now) fs)
        (start_of rows.old orders.now.plain.script.now))) }
    ensures leaves { FolderLeft F.folder folder.old folder.new
        (status_by result) }
    ensures proceeds { Proceeds (is_all_put result) (K.sink.outside out.old)
        (K.sink.outside out.new) }
    ensures caused { IfErr result StopsRun }
    ensures early { result ≡ Err Stop.NoMemory → rows.new ≡ rows.old }
{
    match orders.plain.words.trace {
        Some(name) => {
            let mut source = TraceFile::open(alloc, name)?;
            report_from(alloc, orders, &mut source, folder, out, rows)
        }
        None => report_from(alloc, orders, &mut NoTrace, folder, out, rows),
    }
}

/// Serves the script over a source of the records that the words ask for, and writes the curves.
fn report_from<T: Source, F: Folder, K: Sink>(
    alloc: Global,
    orders: &CurveOrders<'_>,
    source: &mut T,
    folder: &mut F,
    out: &mut K,
    rows: &mut Rack,
) -> Result<(), Stop>
    requires some { 0 < orders.now.sets }
    requires most { orders.now.sets ≤ 256 }
    requires flushed { IsFlushed K.sink out.old }
    requires unread { (fs : Files) → T.reads_from source.old fs
        × (T.left source.old fs ≡ trail_for (plain_of orders.now.plain.words.now) fs) }
    ensures known { IfSome (F.folder.files folder.old) (λ fs.
        Ends result (curves_from orders.now.sets
        (trail_for (plain_of orders.now.plain.words.now) fs)
        (start_of rows.old orders.now.plain.script.now))
        K.sink.roomy (K.sink.outside out.old).written (K.sink.outside out.new).written
        out.old out.new
        (rows.new ≡ rows_from (trail_for (plain_of orders.now.plain.words.now) fs)
        (start_of rows.old orders.now.plain.script.now))) }
    ensures leaves { FolderLeft F.folder folder.old folder.new
        (status_by result) }
    ensures proceeds { Proceeds (is_all_put result) (K.sink.outside out.old)
        (K.sink.outside out.new) }
    ensures caused { IfErr result StopsRun }
    ensures early { result ≡ Err Stop.NoMemory → rows.new ≡ rows.old }
{
    orders.plain.script.fits();
    let mut form = Curving::open(alloc, orders.sets, rows.len())?;
    xl_course::report(&mut form, rows, orders, source, folder, out)
}
