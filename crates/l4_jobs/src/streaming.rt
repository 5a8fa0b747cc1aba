//! A search whose endings are written as soon as each is found.
ghost use Rattle.std.specs.Prelude.{◌≡◌, IfErr, IfOk, None, Ok, true};
ghost use Rattle.std.specs.Option.{option_copied};
ghost use Rattle.l4_questions.specs.Beside.{shown_as};
ghost use Rattle.l4_questions.specs.Told.{BreaksOff, IsToldFirst};
ghost use Rattle.l4_script.specs.Versions.{machine_of_text};
ghost use Rattle.l4_jobs.specs.Expectations.{fault_of_expect};
ghost use Rattle.l4_jobs.specs.Jobs.{text_fault};
ghost use Rattle.l4_jobs.specs.Outputs.{output_of};
ghost use Rattle.l4_jobs.specs.Searches.{IsAnswerBy, IsAnswerDone, fault_of_rests};
ghost use Rattle.l4_jobs.specs.Streaming.{HasBegunBy, IsAllButWritten, IsSearchStop, IsStopFor};
ghost use Rattle.l4_jobs.specs.Streaming.{is_streamed, stop_of, streamed_of};
ghost use Rattle.l4_streams.specs.Streams.{TakesSome};
ghost use Rattle.l4_jobs.specs.declared.fault.Fault.TheVariants.{NoMemory as OutOfMemory};
ghost use Rattle.l4_jobs.specs.declared.streaming.Stop.TheVariants.{Faulty};

use crate::done::Done;
use crate::fault::Fault;
use crate::job::{EndingsJob, Job, Scheduler};
use crate::reading::read_all;
use crate::searches::{answer_out, beside_of, judge_rests, listing_for, question_of};
use crate::streams::{Sink, Source};
use l4_expect::expectations::{ExpectFault, Expectations};
use l4_expect::judging::Scope;
use l4_explore::progress::Progress;
use l4_questions::beside::Beside;
use l4_questions::question::{Question, QuestionFault};
use l4_questions::teller::{NotTold, TellFault, Teller};
use l4_questions::{Answer, told_answer, told_placed_answer};
use l4_script::machine::Machine;
use l4_script::text::TextFault;
use l4_types::errors::NoMemory;
use std::alloc::Global;

/// Why such a search has no answer.
#[derive(Debug, Drop)]
pub(crate) enum Stop<'a> {
    /// It has this fault, or memory was refused before it began. Nothing was written.
    Faulty(Fault<'a>),
    /// Memory was refused. The endings that were written are whole.
    NoMemory,
    /// The endings were not written whole.
    NotWritten,
}

impl<'a> From<Fault<'a>> for Stop<'a> {
    ghost from_gives = { λ of stop. stop ≡ Faulty of };

    fn from(fault: Fault<'a>) -> Self {
        Stop::Faulty(fault)
    }
}

impl From<NoMemory> for Stop<'_> {
    ghost from_gives = { λ _ stop. stop ≡ Faulty OutOfMemory };

    fn from(_: NoMemory) -> Self {
        Stop::Faulty(Fault::NoMemory)
    }
}

impl From<TextFault> for Stop<'_> {
    ghost from_gives = { λ of stop. stop ≡ Faulty (text_fault of.line of.kind) };

    fn from(fault: TextFault) -> Self {
        Stop::Faulty(Fault::from(fault))
    }
}

impl From<ExpectFault> for Stop<'_> {
    ghost from_gives = { λ of stop. stop ≡ Faulty (fault_of_expect of) };

    fn from(fault: ExpectFault) -> Self {
        Stop::Faulty(Fault::from(fault))
    }
}

impl From<TellFault> for Stop<'_> {
    ghost from_gives = { λ of stop. stop ≡ stop_of of };

    fn from(fault: TellFault) -> Self {
        match fault {
            TellFault::NotTold => Stop::NotWritten,
            TellFault::NoAnswer(QuestionFault::NoMemory) => Stop::NoMemory,
            TellFault::NoAnswer(fault) => Stop::Faulty(Fault::from(fault)),
        }
    }
}

// Whether its endings are printed in lines.
fn is_streamed(search: &EndingsJob<'_>) -> bool
    ensures { result ≡ is_streamed search.now }
{
    search.trace.is_none() && search.always.is_none() && !search.json
}

/// The search of a job whose endings are written as they are found, where it has one.
pub(crate) fn streamed_search<'a>(job: &Job<'a>) -> Option<EndingsJob<'a>>
    ensures { result ≡ streamed_of job.now }
{
    match *job {
        Job::Endings(search) if is_streamed(&search) => Some(search),
        _ => None,
    }
}

// What is told to it goes to a sink.
#[derive(Drop)]
struct Onto<'a, W> {
    sink: &'a mut W,
}

impl<W: Sink> Teller for Onto<'_, W> {
    ghost use Rattle.std.proofs.Common.{refl, ◌∙◌};
    ghost use Rattle.l4_streams.specs.Inner.Taking.{some_joined};

    ghost takes = { λ old new bytes all. (old.sink.ghost_name ≡ new.sink.ghost_name) ×
        TakesSome (W.takes old.sink.now new.sink.now) (new.sink.now ≡ old.sink.now) bytes all };

    fn tell(&mut self, lines: &[u8]) -> Result<(), NotTold> {
        if lines.is_empty() {
            return Ok(());
        }
        match self.sink.put(lines) {
            Ok(()) => Ok(()),
            Err(_) => Err(NotTold),
        }
    }

    ghost nothing = { λ x. (refl, (W.nothing x.sink.now, λ none. refl)) };

    ghost joined = { λ a b c front back all before behind. (
      before.0 ∙ behind.0,
      some_joined W.takes W.joined a.sink.now b.sink.now c.sink.now front back all before.1
          behind.1,
    ) };
}

// The answer of all histories, or of the runs that processors make, told as its endings are found.
fn told_by<P: Progress, T: Teller>(
    alloc: Global,
    machine: &Machine,
    scheduler: Scheduler,
    question: &Question<'_>,
    beside: Beside<'_, '_>,
    progress: &mut P,
    teller: &mut T,
) -> Result<Answer, TellFault>
    ensures ok { IfOk result (λ answer. IsToldFirst (T.takes teller.old teller.new)
        (λ lines. IsAnswerBy scheduler machine.now question.now (shown_as beside.entry.shown)
        (option_copied beside.entry.expected) lines answer.unmet.items answer.status)
        answer.lines.items) }
    ensures err { IfErr result (BreaksOff (T.takes teller.old teller.new) question.now
        (HasBegunBy scheduler (T.takes teller.old teller.new) machine.now question.now
        (shown_as beside.entry.shown))) }
{
    match scheduler {
        Scheduler::Any => told_answer(alloc, machine, question, beside, progress, teller),
        Scheduler::Placed => told_placed_answer(alloc, machine, question, beside, progress, teller),
    }
}

// Writes the endings that are asked for, each as soon as it is found. What the search comes to
// behind them.
fn written_endings<'a, W: Sink, P: Progress>(
    alloc: Global,
    text: &[u8],
    machine: &Machine,
    search: &EndingsJob<'_>,
    expected: Option<&Expectations<'_>>,
    out: &mut W,
    progress: &mut P,
) -> Result<Done<'a>, Stop<'a>>
    ensures rests { IfOk result (λ left. fault_of_rests machine.now search.now ≡ None) }
    ensures ok { IfOk result (λ left. IsToldFirst (W.takes out.old out.new)
        (λ lines. IsAnswerDone search.now text.now machine.now (option_copied expected.entry)
        (record (output_of left) { lines = lines }))
        (output_of left).lines) }
    ensures err { IfErr result (IsSearchStop search.now text.now machine.now
        (W.takes out.old out.new) (out.new ≡ out.old)) }
{
    judge_rests(alloc, machine, search)?;
    let question = question_of(search);
    let listing = listing_for(alloc, text, search.chart)?;
    let beside = beside_of(search, &listing, expected);
    let mut onto = Onto { sink: out };
    let answer = told_by(
        alloc,
        machine,
        search.scheduler,
        &question,
        beside,
        progress,
        &mut onto,
    )?;
    Ok(answer_out(answer))
}

// The same on the machine of a text. What is expected of each ending is read and judged first.
fn written_search<'a, X: Source, W: Sink, P: Progress>(
    alloc: Global,
    text: &[u8],
    machine: &Machine,
    search: &EndingsJob<'a>,
    expects: &mut X,
    out: &mut W,
    progress: &mut P,
) -> Result<Done<'a>, Stop<'a>>
    requires parsed { machine_of_text text.now ≡ Ok machine.now }
    requires streamed { is_streamed search.now ≡ true }
    ensures ok { IfOk result (λ left. IsAllButWritten search.now text.now (X.gives expects.old)
        (W.takes out.old out.new) (output_of left)) }
    ensures err { IfErr result (IsStopFor search.now text.now (X.gives expects.old)
        (W.takes out.old out.new) (out.new ≡ out.old)) }
{
    let Some(name) = search.expected else {
        return written_endings(alloc, text, machine, search, None, out, progress);
    };
    let asked = read_all(alloc, name, expects)?;
    let expected = Expectations::parse(alloc, Scope::Endings, asked.as_slice())?;
    written_endings(alloc, text, machine, search, Some(&expected), out, progress)
}

/// Writes the endings that a search of this text asks for, each as soon as it is found. What the
/// search comes to behind them. The text is judged first, then what is expected of each ending, and
/// then the threads that may rest and the limits: until then nothing is written.
pub(crate) fn written_done<'a, X: Source, W: Sink, P: Progress>(
    alloc: Global,
    text: &[u8],
    search: &EndingsJob<'a>,
    expects: &mut X,
    out: &mut W,
    progress: &mut P,
) -> Result<Done<'a>, Stop<'a>>
    requires streamed { is_streamed search.now ≡ true }
    ensures ok { IfOk result (λ left. IsAllButWritten search.now text.now (X.gives expects.old)
        (W.takes out.old out.new) (output_of left)) }
    ensures err { IfErr result (IsStopFor search.now text.now (X.gives expects.old)
        (W.takes out.old out.new) (out.new ≡ out.old)) }
{
    let machine = Machine::parse(alloc, text)?;
    written_search(alloc, text, &machine, search, expects, out, progress)
}
