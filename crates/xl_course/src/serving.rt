//! The steps of a script, served over a trace.

ghost use Rattle.std.specs.Prelude.{◌≡◌, ◌<◌, ◌≤◌, ◌∷◌, [], List, IfErr, IfOk, IfSome, is_ok, true};
ghost use Rattle.xl_model.specs.Courses.{Trail};
ghost use Rattle.xl_outside.specs.Folders.{Files, FolderAfter, fate_by};
ghost use Rattle.xl_outside.specs.Sinks.{Proceeds};
ghost use Rattle.xl_course.specs.declared.form.Step.{Step};
ghost use Rattle.xl_course.specs.Sources.{found_of};
ghost use Rattle.xl_course.specs.Courses.{commands_of, items_of, ran, ran_all, course_by, course, ended};
ghost use Rattle.xl_course.specs.Stops.{stop_fate, is_all_put, StopsServing};
ghost use Rattle.xl_course.specs.Serving.{HasServed, Serves, ServesNext, ServesPart, Skimmed};

use crate::form::{Form, Orders, Step};
use crate::source::{Numbered, Source};
use crate::stop::Stop;
use xl_lackey::{Access, nth_access, sole_access};
use xl_outside::{Failed, Folder, Sink};

/// Serves the steps of a script, and then the rest of the trace.
pub fn serve<
    R,
    D: Form<R>,
    C: Orders<Command = D::Command, End = D::End>,
    T: Source,
    F: Folder,
    K: Sink,
>(
    form: &mut D,
    rack: &mut R,
    orders: &C,
    source: &mut T,
    folder: &mut F,
    out: &mut K,
) -> Result<(), Stop>
    requires { D.can form.old rack.old (commands_of (C.steps orders.now)) }
    ensures known { IfSome (F.folder.files folder.old) (λ fs. T.reads_from source.old fs
        → Serves D.meaning K.sink (C.answers orders.now)
        (course D.meaning (C.steps orders.now) (T.left source.old fs)) (ended None)
        (D.state form.old rack.old) (D.state form.new rack.new) out.old out.new result) }
    ensures leaves { FolderAfter F.folder folder.old folder.new
        (fate_by stop_fate result) }
    ensures proceeds { Proceeds (is_all_put result) (K.sink.outside out.old)
        (K.sink.outside out.new) }
    ensures caused { IfErr result StopsServing }
{
    if orders.answers() {
        return serve_script::<R, D, C, T, F, K, true>(form, rack, orders, source, folder, out);
    }
    serve_script::<R, D, C, T, F, K, false>(form, rack, orders, source, folder, out)
}

/// Serves the steps of a script, and then the rest of the trace, with lines where ANSWERS.
fn serve_script<
    R,
    D: Form<R>,
    C: Orders<Command = D::Command, End = D::End>,
    T: Source,
    F: Folder,
    K: Sink,
    const ANSWERS: bool,
>(
    form: &mut D,
    rack: &mut R,
    orders: &C,
    source: &mut T,
    folder: &mut F,
    out: &mut K,
) -> Result<(), Stop>
    requires { D.can form.old rack.old (commands_of (C.steps orders.now)) }
    ensures known { IfSome (F.folder.files folder.old) (λ fs. T.reads_from source.old fs
        → Serves D.meaning K.sink ANSWERS
        (course D.meaning (C.steps orders.now) (T.left source.old fs)) (ended None)
        (D.state form.old rack.old) (D.state form.new rack.new) out.old out.new result) }
    ensures leaves { FolderAfter F.folder folder.old folder.new
        (fate_by stop_fate result) }
    ensures proceeds { Proceeds (is_all_put result) (K.sink.outside out.old)
        (K.sink.outside out.new) }
    ensures caused { IfErr result StopsServing }
{
    for i in 0..orders.len() {
        serve_step::<R, D, T, F, K, ANSWERS>(form, rack, orders.step(i), source, folder, out)?;
    }
    serve_rest::<R, D, T, F, K, ANSWERS>(form, rack, source, folder, out)
}

/// Serves a step of a script.
fn serve_step<R, D: Form<R>, T: Source, F: Folder, K: Sink, const ANSWERS: bool>(
    form: &mut D,
    rack: &mut R,
    step: Step<D::Command>,
    source: &mut T,
    folder: &mut F,
    out: &mut K,
) -> Result<(), Stop>
    requires { (rest : List (Step D.Command))
        × D.can form.old rack.old (commands_of (step ∷ rest)) }
    ensures known { IfSome (F.folder.files folder.old) (λ fs. T.reads_from source.old fs
        → ServesPart D.meaning K.sink ANSWERS (T.reads_from source.new fs)
        (course_by D.meaning step (T.left source.old fs)) (T.left source.new fs)
        (D.state form.old rack.old) (D.state form.new rack.new) out.old out.new result) }
    ensures leaves { FolderAfter F.folder folder.old folder.new
        (fate_by stop_fate result) }
    ensures proceeds { Proceeds (is_all_put result) (K.sink.outside out.old)
        (K.sink.outside out.new) }
    ensures caused { IfErr result StopsServing }
    ensures can { (rest : List (Step D.Command))
        → D.can form.old rack.old (commands_of (step ∷ rest))
        → D.can form.new rack.new (commands_of rest) }
{
    match step {
        Step::Own(command) => match form.command(rack, command, ANSWERS, out) {
            Ok(()) => Ok(()),
            Err(_) => Err(Stop::WriteFault),
        },
        Step::Run(n) => serve_run::<R, D, T, F, K, ANSWERS>(form, rack, source, folder, out, n),
        Step::RunRest => serve_rest::<R, D, T, F, K, ANSWERS>(form, rack, source, folder, out),
    }
}

/// Lets the form take the next records, `most` at most, where no line is written. Returns how many.
#[inline(always)]
fn skim<R, D: Form<R>, T: Source, const ANSWERS: bool>(
    form: &mut D,
    rack: &mut R,
    source: &mut T,
    most: u64,
) -> u64
    ensures skims { (fs : Files) → T.reads_from source.old fs
        → Skimmed D.meaning (T.reads_from source.new fs) (T.left source.old fs)
        (T.left source.new fs)
        (D.state form.old rack.old) (D.state form.new rack.new) result }
    ensures none { ANSWERS ≡ true → result ≡ 0 }
    ensures few { result ≤ most }
    ensures no_more { T.size source.new ≤ T.size source.old }
    ensures can { (commands : List D.Command)
        → D.can form.old rack.old commands → D.can form.new rack.new commands }
{
    if ANSWERS {
        return 0;
    }
    form.skim(rack, source, most)
}

/// Serves the next record, if there is one, and returns whether there was one. Where lines are
/// written, a record that is at hand is served apart: it stays in registers, while `next` gives
/// each through memory.
#[inline(always)]
fn serve_next<R, D: Form<R>, T: Source, F: Folder, K: Sink, const ANSWERS: bool>(
    form: &mut D,
    rack: &mut R,
    source: &mut T,
    folder: &mut F,
    out: &mut K,
) -> Result<bool, Stop>
    ensures known { IfSome (F.folder.files folder.old) (λ fs. T.reads_from source.old fs
        → ServesNext D.meaning K.sink ANSWERS (T.reads_from source.new fs)
        (T.left source.old fs) (T.left source.new fs)
        (D.state form.old rack.old) (D.state form.new rack.new) out.old out.new result) }
    ensures leaves { FolderAfter F.folder folder.old folder.new
        (fate_by stop_fate result) }
    ensures proceeds { Proceeds (is_all_put result) (K.sink.outside out.old)
        (K.sink.outside out.new) }
    ensures caused { IfErr result StopsServing }
    ensures shrinks { IfOk result (λ some. some ≡ true
        → T.size source.new < T.size source.old) }
    ensures can { (commands : List D.Command)
        → D.can form.old rack.old commands → D.can form.new rack.new commands }
{
    if ANSWERS {
        if let Some(found) = source.next_held() {
            serve_record::<R, D, K, ANSWERS>(form, rack, &found, out)?;
            return Ok(true);
        }
    }
    match source.next(folder) {
        Ok(Some(found)) => {
            serve_record::<R, D, K, ANSWERS>(form, rack, &found, out)?;
            Ok(true)
        }
        Ok(None) => Ok(false),
        Err(stop) => Err(stop),
    }
}

/// Serves all records that are left.
fn serve_rest<R, D: Form<R>, T: Source, F: Folder, K: Sink, const ANSWERS: bool>(
    form: &mut D,
    rack: &mut R,
    source: &mut T,
    folder: &mut F,
    out: &mut K,
) -> Result<(), Stop>
    ensures known { IfSome (F.folder.files folder.old) (λ fs. T.reads_from source.old fs
        → ServesPart D.meaning K.sink ANSWERS (T.reads_from source.new fs)
        (ran_all D.meaning (T.left source.old fs).records (T.left source.old fs).fault)
        (T.left source.new fs)
        (D.state form.old rack.old) (D.state form.new rack.new) out.old out.new result) }
    ensures leaves { FolderAfter F.folder folder.old folder.new
        (fate_by stop_fate result) }
    ensures proceeds { Proceeds (is_all_put result) (K.sink.outside out.old)
        (K.sink.outside out.new) }
    ensures caused { IfErr result StopsServing }
    ensures can { (commands : List D.Command)
        → D.can form.old rack.old commands → D.can form.new rack.new commands }
{
    'records: loop {
        skim::<R, D, T, ANSWERS>(form, rack, source, u64::MAX);
        match serve_next::<R, D, T, F, K, ANSWERS>(form, rack, source, folder, out) {
            Ok(true) => {}
            Ok(false) => return Ok(()),
            Err(stop) => return Err(stop),
        }
    }
}

/// Serves the next `n` records, or as many as are left.
fn serve_run<R, D: Form<R>, T: Source, F: Folder, K: Sink, const ANSWERS: bool>(
    form: &mut D,
    rack: &mut R,
    source: &mut T,
    folder: &mut F,
    out: &mut K,
    n: u64,
) -> Result<(), Stop>
    ensures known { IfSome (F.folder.files folder.old) (λ fs. T.reads_from source.old fs
        → ServesPart D.meaning K.sink ANSWERS (T.reads_from source.new fs)
        (ran D.meaning n (T.left source.old fs).records (T.left source.old fs).fault)
        (T.left source.new fs)
        (D.state form.old rack.old) (D.state form.new rack.new) out.old out.new result) }
    ensures leaves { FolderAfter F.folder folder.old folder.new
        (fate_by stop_fate result) }
    ensures proceeds { Proceeds (is_all_put result) (K.sink.outside out.old)
        (K.sink.outside out.new) }
    ensures caused { IfErr result StopsServing }
    ensures can { (commands : List D.Command)
        → D.can form.old rack.old commands → D.can form.new rack.new commands }
{
    let mut left = n;
    'records: while left > 0 {
        let taken = skim::<R, D, T, ANSWERS>(form, rack, source, left - 1);
        match serve_next::<R, D, T, F, K, ANSWERS>(form, rack, source, folder, out) {
            Ok(true) => {}
            Ok(false) => return Ok(()),
            Err(stop) => return Err(stop),
        }
        left -= taken + 1;
    }
    Ok(())
}

/// Serves the accesses of a record. Inlined, so that a record stays in registers.
#[inline(always)]
fn serve_record<R, D: Form<R>, K: Sink, const ANSWERS: bool>(
    form: &mut D,
    rack: &mut R,
    found: &Numbered,
    out: &mut K,
) -> Result<(), Failed>
    ensures served { HasServed D.meaning K.sink ANSWERS
        (items_of D.meaning (found_of found.now))
        (D.state form.old rack.old) (D.state form.new rack.new) out.old out.new (is_ok result) }
    ensures can { (commands : List D.Command)
        → D.can form.old rack.old commands → D.can form.new rack.new commands }
{
    match sole_access(&found.reference) {
        Some((va, kind)) => { form.access(rack, found.number, Access { va, kind }, ANSWERS, out) }
        None => serve_accesses::<R, D, K, ANSWERS>(form, rack, *found, out),
    }
}

/// Serves the accesses of a record, one by one. The record is taken by value: with a reference to
/// it, each record would be copied to memory, also where this isn't called.
#[inline(never)]
fn serve_accesses<R, D: Form<R>, K: Sink, const ANSWERS: bool>(
    form: &mut D,
    rack: &mut R,
    found: Numbered,
    out: &mut K,
) -> Result<(), Failed>
    ensures served { HasServed D.meaning K.sink ANSWERS
        (items_of D.meaning (found_of found))
        (D.state form.old rack.old) (D.state form.new rack.new) out.old out.new (is_ok result) }
    ensures can { (commands : List D.Command)
        → D.can form.old rack.old commands → D.can form.new rack.new commands }
{
    for i in 0..64 {
        let Some((va, kind)) = nth_access(&found.reference, i) else {
            return Ok(());
        };
        match form.access(rack, found.number, Access { va, kind }, ANSWERS, out) {
            Ok(()) => {}
            Err(failed) => return Err(failed),
        }
    }
    Ok(())
}
