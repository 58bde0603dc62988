//! A script that is served over a trace, and the end of the report after it.

ghost use Rattle.std.specs.Prelude.{◌≡◌, Err, IfErr, IfSome, true};
ghost use Rattle.xl_outside.specs.Folders.{FolderAfter, fate_by};
ghost use Rattle.xl_outside.specs.Sinks.{Proceeds, IsFlushed};
ghost use Rattle.xl_course.specs.Meanings.{states_after};
ghost use Rattle.xl_course.specs.Courses.{commands_of, course};
ghost use Rattle.xl_course.specs.Stops.{status_by, FolderLeft, is_all_put, stop_fate, StopsRun};
ghost use Rattle.xl_course.specs.Accounts.{account, Ends, FlushesEnd, message_by, Says};

use crate::form::{Form, Orders};
use crate::serving::serve;
use crate::source::Source;
use crate::stop::Stop;
use xl_outside::{Folder, Sink, send_all};

/// Serves a script over a trace, and writes the end of the report.
fn replay<
    R,
    D: Form<R>,
    C: Orders<Command = D::Command, End = D::End>,
    T: Source,
    F: Folder,
    K: Sink,
>(
    form: &mut D,
    rack: &mut R,
    orders: &C,
    source: &mut T,
    folder: &mut F,
    out: &mut K,
) -> Result<(), Stop>
    requires { D.can form.old rack.old (commands_of (C.steps orders.now)) }
    ensures known { IfSome (F.folder.files folder.old) (λ fs. T.reads_from source.old fs
        → Ends result (account D.meaning (C.answers orders.now) (D.last (C.end orders.now))
        (D.late (C.end orders.now))
        (course D.meaning (C.steps orders.now) (T.left source.old fs)) (D.state form.old rack.old))
        K.sink.roomy (K.sink.taken out.old) (K.sink.taken out.new) out.old out.new
        (D.holds rack.new (states_after D.meaning
        (course D.meaning (C.steps orders.now) (T.left source.old fs)).items
        (D.state form.old rack.old)))) }
    ensures leaves { FolderAfter F.folder folder.old folder.new
        (fate_by stop_fate result) }
    ensures proceeds { Proceeds (is_all_put result) (K.sink.outside out.old)
        (K.sink.outside out.new) }
    ensures caused { IfErr result StopsRun }
    ensures early { result ≡ Err Stop.NoMemory → (D.late (C.end orders.now) ≡ true)
        × IfSome (F.folder.files folder.old) (λ fs. T.reads_from source.old fs
        → D.holds rack.new (states_after D.meaning
        (course D.meaning (C.steps orders.now) (T.left source.old fs)).items
        (D.state form.old rack.old))) }
{
    serve(form, rack, orders, source, folder, out)?;
    form.finish(rack, orders.end(), out)
}

/// Writes what the sink took and has not yet written, unless a put failed. Gives the run's end
/// after that.
fn flushed<K: Sink>(out: &mut K, end: Result<(), Stop>) -> Result<(), Stop>
    ensures { FlushesEnd K.sink out.old out.new end result }
{
    if let Err(Stop::WriteFault) = end {
        return end;
    }
    match out.flush() {
        Ok(()) => end,
        Err(_) => Err(Stop::WriteFault),
    }
}

/// Serves a script over a trace, writes the end of the report, and flushes. What is written is the
/// account of the script's course over what is left of the source, from the form's state on. At Ok
/// the rack holds the state after that course. For want of memory it ends only where the end of the
/// report is made in memory, and then the rack holds that state too.
pub fn report<
    R,
    D: Form<R>,
    C: Orders<Command = D::Command, End = D::End>,
    T: Source,
    F: Folder,
    K: Sink,
>(
    form: &mut D,
    rack: &mut R,
    orders: &C,
    source: &mut T,
    folder: &mut F,
    out: &mut K,
) -> Result<(), Stop>
    requires can { D.can form.old rack.old (commands_of (C.steps orders.now)) }
    requires flushed { IsFlushed K.sink out.old }
    ensures known { IfSome (F.folder.files folder.old) (λ fs. T.reads_from source.old fs
        → Ends result (account D.meaning (C.answers orders.now) (D.last (C.end orders.now))
        (D.late (C.end orders.now))
        (course D.meaning (C.steps orders.now) (T.left source.old fs)) (D.state form.old rack.old))
        K.sink.roomy (K.sink.outside out.old).written (K.sink.outside out.new).written
        out.old out.new
        (D.holds rack.new (states_after D.meaning
        (course D.meaning (C.steps orders.now) (T.left source.old fs)).items
        (D.state form.old rack.old)))) }
    ensures leaves { FolderLeft F.folder folder.old folder.new
        (status_by result) }
    ensures proceeds { Proceeds (is_all_put result) (K.sink.outside out.old)
        (K.sink.outside out.new) }
    ensures caused { IfErr result StopsRun }
    ensures early { result ≡ Err Stop.NoMemory → (D.late (C.end orders.now) ≡ true)
        × IfSome (F.folder.files folder.old) (λ fs. T.reads_from source.old fs
        → D.holds rack.new (states_after D.meaning
        (course D.meaning (C.steps orders.now) (T.left source.old fs)).items
        (D.state form.old rack.old))) }
{
    let end = replay(form, rack, orders, source, folder, out);
    flushed(out, end)
}

/// Says why the run stops. Where that can't be said, it isn't.
pub fn report_end<E: Sink>(err: &mut E, end: Result<(), Stop>)
    requires { IsFlushed E.sink err.old }
    ensures { Says E.sink (message_by end) err.old err.new }
{
    if let Err(stop) = end {
        let _ = send_all(err, stop.message().bytes());
    }
}
