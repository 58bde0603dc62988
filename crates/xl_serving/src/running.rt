//! A run of the plain form: the report of the rows of a configuration over a script and a trace.

ghost use Rattle.std.specs.Prelude.{◌≡◌, ◌⊎◌, [], Err, IfErr, IfSome, true};
ghost use Rattle.xl_outside.specs.Folders.{Files};
ghost use Rattle.xl_outside.specs.Sinks.{Proceeds, IsFlushed};
ghost use Rattle.xl_course.specs.Stops.{status_by, FolderLeft, is_all_put, StopsRun};
ghost use Rattle.xl_course.specs.Accounts.{Ends};
ghost use Rattle.xl_words.specs.Words.{plain_of};
ghost use Rattle.xl_serving.specs.Inputs.{trail_for};
ghost use Rattle.xl_serving.specs.Plain.{start_of, account_from, rows_from, plain_account, plain_rows, AreOpened};

use crate::made::MadeTape;
use crate::opening::open;
use crate::plain::{Bench, PlainOrders};
use crate::rows::Rows;
use crate::trace::{NoTrace, TraceFile};
use std::alloc::Global;
use xl_course::{Source, Stop};
use xl_outside::{Folder, Sink};
use xl_words::Plain;

/// Reads the configuration and the script, opens the rows, serves the script over the trace, and
/// writes the report. All memory is taken before the first event, but for the text of the rows as
/// JSON.
pub fn report<R: Rows, F: Folder, K: Sink>(
    alloc: Global,
    words: &Plain<'_>,
    folder: &mut F,
    out: &mut K,
    rows: &mut R,
) -> Result<(), Stop>
    requires none { R.rows rows.old ≡ [] }
    requires flushed { IsFlushed K.sink out.old }
    ensures known { IfSome (F.folder.files folder.old) (λ fs.
        Ends result (plain_account (plain_of words.now) fs)
        K.sink.roomy (K.sink.outside out.old).written (K.sink.outside out.new).written
        out.old out.new
        (R.rows rows.new ≡ plain_rows (plain_of words.now) fs)) }
    ensures leaves { FolderLeft F.folder folder.old folder.new
        (status_by result) }
    ensures proceeds { Proceeds (is_all_put result) (K.sink.outside out.old)
        (K.sink.outside out.new) }
    ensures caused { IfErr result StopsRun }
    ensures early { result ≡ Err Stop.NoMemory → AreOpened (R.rows rows.new)
        ⊎ ((words.now.json ≡ true) × IfSome (F.folder.files folder.old) (λ fs.
        R.rows rows.new ≡ plain_rows (plain_of words.now) fs)) }
{
    let script = open(alloc, words, folder, rows)?;
    let orders = PlainOrders {
        script: &script,
        words,
    };
    report_orders(alloc, &orders, folder, out, rows)
}

/// Serves the script over the trace that the words name or ask to be made, and writes the report.
/// Where they do neither, the trace has no records. Apart, so that rows are opened with no buffer
/// of a trace on the stack.
#[inline(never)]
fn report_orders<R: Rows, F: Folder, K: Sink>(
    alloc: Global,
    orders: &PlainOrders<'_>,
    folder: &mut F,
    out: &mut K,
    rows: &mut R,
) -> Result<(), Stop>
    requires flushed { IsFlushed K.sink out.old }
    ensures known { IfSome (F.folder.files folder.old) (λ fs.
        Ends result (account_from (plain_of orders.now.words.now)
        (trail_for (plain_of orders.now.words.now) fs)
        (start_of (R.rows rows.old) orders.now.script.now))
        K.sink.roomy (K.sink.outside out.old).written (K.sink.outside out.new).written
        out.old out.new
        (R.rows rows.new ≡ rows_from (trail_for (plain_of orders.now.words.now) fs)
        (start_of (R.rows rows.old) orders.now.script.now))) }
    ensures leaves { FolderLeft F.folder folder.old folder.new
        (status_by result) }
    ensures proceeds { Proceeds (is_all_put result) (K.sink.outside out.old)
        (K.sink.outside out.new) }
    ensures caused { IfErr result StopsRun }
    ensures early { result ≡ Err Stop.NoMemory → (R.rows rows.new ≡ R.rows rows.old)
        ⊎ ((orders.now.words.now.json ≡ true) × IfSome (F.folder.files folder.old) (λ fs.
        R.rows rows.new ≡ rows_from (trail_for (plain_of orders.now.words.now) fs)
        (start_of (R.rows rows.old) orders.now.script.now))) }
{
    match orders.words.made {
        Some(records) => {
            let mut source = MadeTape::of(records);
            report_from(alloc, orders, &mut source, folder, out, rows)
        }
        None => match orders.words.trace {
            Some(name) => {
                let mut source = TraceFile::open(alloc, name)?;
                report_from(alloc, orders, &mut source, folder, out, rows)
            }
            None => report_from(alloc, orders, &mut NoTrace, folder, out, rows),
        },
    }
}

/// Serves the script over a source of the records that the words ask for, and writes the report.
fn report_from<R: Rows, T: Source, F: Folder, K: Sink>(
    alloc: Global,
    orders: &PlainOrders<'_>,
    source: &mut T,
    folder: &mut F,
    out: &mut K,
    rows: &mut R,
) -> Result<(), Stop>
    requires flushed { IsFlushed K.sink out.old }
    requires unread { (fs : Files) → T.reads_from source.old fs
        × (T.left source.old fs ≡ trail_for (plain_of orders.now.words.now) fs) }
    ensures known { IfSome (F.folder.files folder.old) (λ fs.
        Ends result (account_from (plain_of orders.now.words.now)
        (trail_for (plain_of orders.now.words.now) fs)
        (start_of (R.rows rows.old) orders.now.script.now))
        K.sink.roomy (K.sink.outside out.old).written (K.sink.outside out.new).written
        out.old out.new
        (R.rows rows.new ≡ rows_from (trail_for (plain_of orders.now.words.now) fs)
        (start_of (R.rows rows.old) orders.now.script.now))) }
    ensures leaves { FolderLeft F.folder folder.old folder.new
        (status_by result) }
    ensures proceeds { Proceeds (is_all_put result) (K.sink.outside out.old)
        (K.sink.outside out.new) }
    ensures caused { IfErr result StopsRun }
    ensures early { result ≡ Err Stop.NoMemory → (R.rows rows.new ≡ R.rows rows.old)
        ⊎ ((orders.now.words.now.json ≡ true) × IfSome (F.folder.files folder.old) (λ fs.
        R.rows rows.new ≡ rows_from (trail_for (plain_of orders.now.words.now) fs)
        (start_of (R.rows rows.old) orders.now.script.now))) }
{
    orders.script.fits();
    let mut bench = Bench::open(alloc)?;
    xl_course::report(&mut bench, rows, orders, source, folder, out)
}
