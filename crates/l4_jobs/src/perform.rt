//! Writing what a job comes to.
ghost use Rattle.std.specs.Prelude.{◌≡◌, ◌≢◌, ◌⊎◌, IfErr, IfOk, None, Some, false, true};
ghost use Rattle.std.specs.Option.{option_copied};
ghost use Rattle.l4_commands.specs.Files.{alone, expected_of, file_of, second_file_of};
ghost use Rattle.l4_commands.specs.declared.job.Job.TheVariants.{Endings};
ghost use Rattle.l4_jobs.specs.Inner.Holding.{IsTextHeld};
ghost use Rattle.l4_jobs.specs.Inputs.{gives_nothing};
ghost use Rattle.l4_jobs.specs.Jobs.{IsDone, IsStatusOf};
ghost use Rattle.l4_jobs.specs.Outputs.{Output, output_of};
ghost use Rattle.l4_jobs.specs.Performing.{AreOpened, AreUnopened, IsLinesOut, IsOpened};
ghost use Rattle.l4_jobs.specs.Performing.{IsHeldOn, IsPerformed, IsPerformedOn, IsSaid, IsStopped};
ghost use Rattle.l4_jobs.specs.Performing.{IsTrulyDone, IsTrulyDoneOn, IsUnopened, IsWrittenOut};
ghost use Rattle.l4_jobs.specs.Performing.{asks_none, keeps_none, sinks};
ghost use Rattle.l4_jobs.specs.Streaming.{is_streamed};
ghost use Rattle.l4_streams.specs.Streams.{GivenGives, IsWrittenApart};

use crate::done::Done;
use crate::explanations::tell;
use crate::fault::{Fault, read_fault, report};
use crate::job::{EndingsJob, Job, StepJob};
use crate::jobs::done_for_text;
use crate::reading::read_text;
use crate::steps::hold;
use crate::streaming::{Stop, streamed_search, written_done};
use crate::streams::{Folder, Given, InFolder, NoRecords, Records, Sink, Source};
use l4_explore::progress::{Progress, Unheard};
use l4_script::machine::Machine;
use std::alloc::Global;
use std::io::BufRead;
use std::thread::Threads;

// Says what is said behind the lines.
fn say<E: Sink>(faults: &mut E, said: &[u8])
    ensures { IsSaid said.now (E.takes faults.old faults.new) (faults.new ≡ faults.old) }
{
    if !said.is_empty() {
        // Where this can't be written, only the status says so.
        let _ = faults.put(said);
    }
}

// Writes the lines and what is said behind them, and returns the exit status.
fn write_lines<W: Sink, E: Sink>(alloc: Global, done: &Done<'_>, out: &mut W, faults: &mut E) -> u8
    ensures { IsLinesOut (output_of done.now) (W.takes out.old out.new)
        (E.takes faults.old faults.new) (faults.new ≡ faults.old) result }
{
    match out.put(done.lines.as_slice()) {
        Ok(()) => {
            say(faults, done.said.as_slice());
            done.status
        }
        Err(_) => report(alloc, faults, &Fault::Write),
    }
}

// Writes all that a job comes to, and returns the exit status.
fn write_done<L: Records, W: Sink, E: Sink>(
    alloc: Global,
    done: &Done<'_>,
    records: &mut L,
    out: &mut W,
    faults: &mut E,
) -> u8
    ensures { IsWrittenOut (output_of done.now)
        (sinks (L.keeps records.old records.new) (records.new ≡ records.old)
        (W.takes out.old out.new) (out.new ≡ out.old)
        (E.takes faults.old faults.new) (faults.new ≡ faults.old)) result }
{
    let Some(kept) = &done.list else {
        return write_lines(alloc, done, out, faults);
    };
    match records.keep(kept.name, kept.text.as_slice()) {
        Ok(()) => write_lines(alloc, done, out, faults),
        Err(_) => report(alloc, faults, &Fault::Unwritten(kept.name)),
    }
}

// Does a job over its sources and sinks, and returns the exit status.
fn perform_over<
    R: Threads + Sync,
    M: Source,
    S: Source,
    X: Source,
    L: Records,
    W: Sink,
    E: Sink,
    P: Progress,
>(
    rt: &R,
    alloc: Global,
    explains: bool,
    job: &Job<'_>,
    machine: &mut M,
    second: &mut S,
    expects: &mut X,
    records: &mut L,
    out: &mut W,
    faults: &mut E,
    progress: &mut P,
) -> u8
    ensures performed { IsPerformed explains job.now (M.gives machine.old) (S.gives second.old)
        (X.gives expects.old)
        (sinks (L.keeps records.old records.new) (records.new ≡ records.old)
        (W.takes out.old out.new) (out.new ≡ out.old)
        (E.takes faults.old faults.new) (faults.new ≡ faults.old)) result }
    ensures unread { second_file_of job.now ≡ None → second.new ≡ second.old }
{
    let file = job.file();
    let text = match read_text(alloc, file, machine) {
        Ok(text) => text,
        Err(fault) => return tell(alloc, explains, file, b"", faults, &fault),
    };
    let text = text.as_slice();
    match done_for_text(rt, alloc, job, text, second, expects, progress) {
        Ok(done) => write_done(alloc, &done, records, out, faults),
        Err(fault) => tell(alloc, explains, file, text, faults, &fault),
    }
}

/// Does a job over two sources and two sinks, and returns the exit status. It records nothing and
/// expects nothing, whatever the job says of that: `perform_on_files` does.
///
/// 0: a run came to rest, a trace passed or was drawn whole, a search was whole, or a text has no
/// fault.
/// 3: a run did not come to rest, or a search was cut.
/// 4: a search found what it should not, or did not find what it should.
/// 1: a fault was reported, or a lint printed one.
///
/// The machine text is judged before the trace is read. An audit and a chart read a trace, and a
/// replay or a lint whose list is in a file reads that list in its place. The output is made whole
/// before any of it is written, and is written once. A fault is reported by one line. Where a step
/// of a trace is not possible, a chart draws the steps before it, and then the step is reported. An
/// audit that is to tell of such a step prints that first.
pub fn perform<R: Threads + Sync, M: Source, T: Source, W: Sink, E: Sink>(
    rt: &R,
    alloc: Global,
    job: &Job<'_>,
    machine: &mut M,
    trace: &mut T,
    out: &mut W,
    faults: &mut E,
) -> u8
    ensures performed { IsPerformed false (alone job.now) (M.gives machine.old) (T.gives trace.old)
        gives_nothing
        (sinks keeps_none (Unit {0}) (W.takes out.old out.new) (out.new ≡ out.old)
        (E.takes faults.old faults.new) (faults.new ≡ faults.old)) result }
    ensures headline { result ≢ 1 →
        IsTrulyDone job.now (M.gives machine.old) (W.takes out.old out.new) result }
    ensures faulty { ((o : Output) → IsDone (alone job.now) (M.gives machine.old)
        (T.gives trace.old) gives_nothing o → ⊥) → (result ≡ 1) × (out.new ≡ out.old) }
    ensures statuses { IsStatusOf (alone job.now) result }
    ensures unread { second_file_of job.now ≡ None → trace.new ≡ trace.old }
{
    let mut expects: Given<&[u8]> = Given::Nothing;
    perform_over(
        rt,
        alloc,
        false,
        &job.alone(),
        machine,
        trace,
        &mut expects,
        &mut NoRecords,
        out,
        faults,
        &mut Unheard,
    )
}

// Opens the file of this name, where there is one.
fn given_file<'a, F: Folder>(folder: &F, name: Option<&'a str>) -> Result<Given<F::File>, Fault<'a>>
    ensures ok { IfOk result (λ given.
        IsOpened (F.opens folder.now) (option_copied name.entry) given) }
    ensures err { IfErr result (IsUnopened (F.opens folder.now) (option_copied name.entry)) }
{
    let Some(name) = name else {
        return Ok(Given::Nothing);
    };
    match folder.open(name) {
        Ok(file) => Ok(Given::Source(file)),
        Err(kind) => Err(read_fault(name, kind)),
    }
}

/// The files of a job, opened.
#[derive(Drop)]
struct Files<F> {
    machine: Given<F>,
    second: Given<F>,
    expects: Given<F>,
}

// Opens the files of a job, in this order: the machine text, the trace or the list, and what is
// expected.
fn files_of<'a, F: Folder>(folder: &F, job: &Job<'a>) -> Result<Files<F::File>, Fault<'a>>
    ensures ok { IfOk result (λ files. AreOpened (F.opens folder.now) job.now
        (record { machine = files.machine; second = files.second; expects = files.expects })) }
    ensures err { IfErr result (AreUnopened (F.opens folder.now) job.now) }
{
    Ok(Files {
        machine: given_file(folder, Some(job.file()))?,
        second: given_file(folder, job.second_file())?,
        expects: given_file(folder, job.expected())?,
    })
}

// Does a search whose endings are written as they are found, and returns the exit status.
fn perform_streamed<F: Source, W: Sink, E: Sink, P: Progress>(
    alloc: Global,
    explains: bool,
    search: &EndingsJob<'_>,
    files: &mut Files<F>,
    out: &mut W,
    faults: &mut E,
    progress: &mut P,
) -> u8
    requires streamed { is_streamed search.now ≡ true }
    ensures { IsPerformed explains (Endings search.now) (GivenGives F.gives files.old.machine)
        gives_nothing (GivenGives F.gives files.old.expects)
        (sinks asks_none (Unit {0}) (W.takes out.old out.new) (out.new ≡ out.old)
        (E.takes faults.old faults.new) (faults.new ≡ faults.old)) result
        ⊎ IsStopped search.now (GivenGives F.gives files.old.machine)
        (GivenGives F.gives files.old.expects)
        (sinks asks_none (Unit {0}) (W.takes out.old out.new) (out.new ≡ out.old)
        (E.takes faults.old faults.new) (faults.new ≡ faults.old)) result }
{
    let file = search.file;
    let text = match read_text(alloc, file, &mut files.machine) {
        Ok(text) => text,
        Err(fault) => return tell(alloc, explains, file, b"", faults, &fault),
    };
    let text = text.as_slice();
    match written_done(alloc, text, search, &mut files.expects, out, progress) {
        Ok(left) => write_lines(alloc, &left, out, faults),
        Err(Stop::Faulty(fault)) => tell(alloc, explains, file, text, faults, &fault),
        Err(Stop::NoMemory) => report(alloc, faults, &Fault::NoMemory),
        Err(Stop::NotWritten) => report(alloc, faults, &Fault::Write),
    }
}

// Holds a session on a text, and returns the exit status.
fn perform_text_steps<R: BufRead, W: Sink, E: Sink>(
    alloc: Global,
    explains: bool,
    step: &StepJob<'_>,
    text: &[u8],
    input: &mut R,
    out: &mut W,
    faults: &mut E,
) -> u8
    ensures { IsTextHeld explains step.now text.now (R.remaining input.old)
        (sinks asks_none (Unit {0}) (W.takes out.old out.new) (out.new ≡ out.old)
        (E.takes faults.old faults.new) (faults.new ≡ faults.old)) result }
{
    let machine = match Machine::parse(alloc, text) {
        Ok(machine) => machine,
        Err(fault) => {
            return tell(
                alloc,
                explains,
                step.file,
                text,
                faults,
                &Fault::from(fault),
            );
        }
    };
    match hold(alloc, text, &machine, step, input, out) {
        Ok(()) => 0,
        Err(fault) => report(alloc, faults, &fault),
    }
}

/// Holds a session on the machine text in a file by the lines of an input, each of which is answered
/// before the next is read. Returns the exit status: 0, or 1 where a fault was reported. What was
/// told before that stays. With `explains` what explains a fault of the text stands behind its line.
///
/// `perform_on_files` comes to the same where the whole input is read first.
pub fn perform_steps<F: Folder, R: BufRead, W: Sink, E: Sink>(
    alloc: Global,
    folder: &F,
    explains: bool,
    step: &StepJob<'_>,
    input: &mut R,
    out: &mut W,
    faults: &mut E,
) -> u8
    ensures { IsHeldOn (F.opens folder.now) F.File.gives explains step.now
        (R.remaining input.old)
        (sinks asks_none (Unit {0}) (W.takes out.old out.new) (out.new ≡ out.old)
        (E.takes faults.old faults.new) (faults.new ≡ faults.old)) result }
{
    let file = step.file;
    let mut machine = match given_file(folder, Some(file)) {
        Ok(machine) => machine,
        Err(fault) => return tell(alloc, explains, file, b"", faults, &fault),
    };
    match read_text(alloc, file, &mut machine) {
        Ok(text) => {
            perform_text_steps(alloc, explains, step, text.as_slice(), input, out, faults)
        }
        Err(fault) => tell(alloc, explains, file, b"", faults, &fault),
    }
}

/// Does a job over the files that it names, and returns the exit status: that of what the job comes
/// to, or 1 where a fault was reported. 4 also stands for an expectation that does not hold.
///
/// It opens the machine text, then the trace or the list, and then what is expected, before it
/// reads anything. Everything is made whole before anything is written: first the record, where one
/// is asked for, then the lines, and then what of the expectations does not hold. A fault is told by
/// one line; with `explains`, as for a terminal, what explains it stands behind that. In a search,
/// `progress` hears how far the search has come, and that it has ended.
///
/// The endings of a search are written one by one, each as soon as it is found: not where a trace
/// or the answer about a condition is printed in their place, and not as objects. Where memory is
/// refused on the way, those that were written are whole; where the output does not take one, the
/// search ends there. Then that fault is told.
pub fn perform_on_files<R: Threads + Sync, F: Folder, W: Sink, E: Sink, P: Progress>(
    rt: &R,
    alloc: Global,
    folder: &F,
    explains: bool,
    job: &Job<'_>,
    out: &mut W,
    faults: &mut E,
    progress: &mut P,
) -> u8
    ensures performed { IsPerformedOn (F.opens folder.now) F.File.gives explains job.now
        (sinks (IsWrittenApart (F.tells_same folder.now) (F.writes folder.now)
        (Some (file_of job.now)) (second_file_of job.now) (expected_of job.now)) (Unit {0})
        (W.takes out.old out.new) (out.new ≡ out.old)
        (E.takes faults.old faults.new) (faults.new ≡ faults.old)) result }
    ensures headline { result ≢ 1 →
        IsTrulyDoneOn (F.opens folder.now) F.File.gives job.now (W.takes out.old out.new) result }
    ensures statuses { IsStatusOf job.now result }
{
    let mut files = match files_of(folder, job) {
        Ok(files) => files,
        Err(fault) => return tell(alloc, explains, job.file(), b"", faults, &fault),
    };
    if let Some(search) = streamed_search(job) {
        return perform_streamed(alloc, explains, &search, &mut files, out, faults, progress);
    }
    perform_over(
        rt,
        alloc,
        explains,
        job,
        &mut files.machine,
        &mut files.second,
        &mut files.expects,
        &mut InFolder {
            folder,
            file: job.file(),
            second: job.second_file(),
            expects: job.expected(),
        },
        out,
        faults,
        progress,
    )
}
