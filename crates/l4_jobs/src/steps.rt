//! A session: a machine gone through step by step, by the lines of an input.
ghost use Rattle.std.specs.Prelude.{◌≡◌, ◌⊎◌, ℕ, List, [], IfErr, IfOk, IfSome, None, Ok, false};
ghost use Rattle.std.specs.Prelude.{map, true};
ghost use Rattle.std.specs.Io.KnownBytes.{IsAtEnd};
ghost use Rattle.l4_replay.specs.Entries.{entry_from};
ghost use Rattle.l4_steps.specs.Replies.{reply_from, reply_to};
ghost use Rattle.l4_steps.specs.Sessions.{IsSession, lines_of, session_text, told_of};
ghost use Rattle.l4_jobs.specs.Inner.Holding.{GivesLine};
ghost use Rattle.l4_jobs.specs.Outputs.{output_of};
ghost use Rattle.l4_jobs.specs.Steps.{IsHeld, IsHeldUpTo, IsInputUnread, IsStepDone, IsStepFault};
ghost use Rattle.l4_jobs.specs.Steps.{session_of};
ghost use Rattle.l4_jobs.specs.declared.fault.Fault.TheVariants.{NoMemory as OutOfMemory};
ghost use Rattle.l4_jobs.specs.declared.fault.Fault.TheVariants.{Write as NotTaken};

use crate::done::Done;
use crate::fault::{Fault, read_fault};
use crate::job::{INPUT, StepJob};
use crate::reading::read_all;
use crate::searches::text_form;
use crate::streams::{Sink, Source};
use l4_chart::listing::Listing;
use l4_chart::whole::TextForm;
use l4_replay::Entry;
use l4_script::machine::Machine;
use l4_steps::law_session;
use l4_steps::replies::{Reply, opening_text, reply_to};
use std::alloc::Global;
use std::io::BufRead;

// The next line of an input, with its end, where one is left.
fn next_line<R: BufRead>(alloc: Global, input: &mut R) -> Result<Option<Vec<u8>>, Fault<'static>>
    ensures line { IfOk result (λ found. IfSome found (λ line.
        GivesLine (R.remaining input.old) (R.remaining input.new) line.items)) }
    ensures end { IfOk result (λ found. found ≡ None → IsAtEnd (R.remaining input.old)) }
    ensures err { IfErr result (IsInputUnread (R.remaining input.old)) }
{
    let mut line = Vec::new(alloc);
    match input.read_until(b'\n', &mut line) {
        Ok(0) => Ok(None),
        Ok(_) => Ok(Some(line)),
        Err(error) => Err(read_fault(INPUT, error.kind())),
    }
}

// Tells the reply to a line behind these entries.
fn answer<W: Sink>(
    alloc: Global,
    machine: &Machine,
    listing: &Listing<'_>,
    form: TextForm,
    entries: &[Entry],
    line: &[u8],
    out: &mut W,
) -> Result<Reply, Fault<'static>>
    requires { IsSession machine.now (map entry_from entries.now) }
    ensures ok { IfOk result (λ r. reply_from r
        ≡ reply_to machine.now listing.now form (map entry_from entries.now) line.now) }
    ensures told { IfOk result (λ r. W.takes out.old out.new
        (reply_to machine.now listing.now form (map entry_from entries.now) line.now).text true) }
    ensures err { IfErr result (λ fault. ((fault ≡ OutOfMemory) × (out.new ≡ out.old)) ⊎
        ((fault ≡ NotTaken) × W.takes out.old out.new
        (reply_to machine.now listing.now form (map entry_from entries.now) line.now).text
        false)) }
{
    let reply = reply_to(alloc, machine, listing, form, entries, line)?;
    match out.put(reply.text.as_slice()) {
        Ok(()) => Ok(reply),
        Err(_) => Err(Fault::Write),
    }
}

// Answers lines up to the end of the input, or up to the one that ends the session.
fn answer_lines<R: BufRead, W: Sink>(
    alloc: Global,
    machine: &Machine,
    listing: &Listing<'_>,
    form: TextForm,
    input: &mut R,
    out: &mut W,
) -> Result<(), Fault<'static>>
    ensures ok { IfOk result (λ _. IsHeld (λ lines. told_of machine.now listing.now form lines [])
        (R.remaining input.old) (W.takes out.old out.new)) }
    ensures err { IfErr result (IsHeldUpTo
        (λ lines. told_of machine.now listing.now form lines [])
        (R.remaining input.old) (W.takes out.old out.new)) }
{
    law_session();
    let mut entries = Vec::new(alloc);
    for _ in 0..u64::MAX {
        let Some(line) = next_line(alloc, input)? else {
            return Ok(());
        };
        let reply = answer(
            alloc,
            machine,
            listing,
            form,
            entries.as_slice(),
            line.as_slice(),
            out,
        )?;
        if reply.ends {
            return Ok(());
        }
        entries = reply.entries;
    }
    // No input has so many lines.
    Err(Fault::NoMemory)
}

// Tells what is possible at the opening, and then answers lines.
fn hold_with<R: BufRead, W: Sink>(
    alloc: Global,
    machine: &Machine,
    listing: &Listing<'_>,
    form: TextForm,
    input: &mut R,
    out: &mut W,
) -> Result<(), Fault<'static>>
    ensures ok { IfOk result (λ _. IsHeld (session_text machine.now listing.now form)
        (R.remaining input.old) (W.takes out.old out.new)) }
    ensures err { IfErr result (IsHeldUpTo (session_text machine.now listing.now form)
        (R.remaining input.old) (W.takes out.old out.new)) }
{
    match out.put(opening_text(alloc, machine)?.as_slice()) {
        Ok(()) => answer_lines(alloc, machine, listing, form, input, out),
        Err(_) => Err(Fault::Write),
    }
}

/// Holds a session on the machine of a text: tells what is possible at the opening, and then the
/// reply to each line as soon as it is there. It ends with the input, or with the line that ends it.
///
/// Where it is stopped by a fault, what was told before stays.
pub(crate) fn hold<R: BufRead, W: Sink>(
    alloc: Global,
    text: &[u8],
    machine: &Machine,
    step: &StepJob<'_>,
    input: &mut R,
    out: &mut W,
) -> Result<(), Fault<'static>>
    ensures ok { IfOk result (λ _. IsHeld (session_of step.now text.now machine.now)
        (R.remaining input.old) (W.takes out.old out.new)) }
    ensures err { IfErr result (IsHeldUpTo (session_of step.now text.now machine.now)
        (R.remaining input.old) (W.takes out.old out.new)) }
{
    let listing = Listing::of(alloc, text)?;
    let form = text_form(step.chart);
    hold_with(alloc, machine, &listing, form, input, out)
}

// What a session tells whose input is there. Nothing but memory can be refused then.
fn told_lines<'a>(
    alloc: Global,
    text: &[u8],
    machine: &Machine,
    step: &StepJob<'_>,
    input: &[u8],
) -> Result<Vec<u8>, Fault<'a>>
    ensures ok { IfOk result (λ lines.
        lines.items ≡ session_of step.now text.now machine.now (lines_of input.now)) }
    ensures err { IfErr result (λ fault. fault ≡ OutOfMemory) }
{
    let mut left = input;
    let mut lines = Vec::new(alloc);
    match hold(alloc, text, machine, step, &mut left, &mut lines) {
        Ok(()) => Ok(lines),
        Err(_) => Err(Fault::NoMemory),
    }
}

/// What a session comes to whose input is there.
pub(crate) fn step_done<'a, S: Source>(
    alloc: Global,
    text: &[u8],
    machine: &Machine,
    step: &StepJob<'_>,
    second: &mut S,
) -> Result<Done<'a>, Fault<'a>>
    ensures ok { IfOk result (λ done. (input : List ℕ) × S.gives second.old (Ok input) ×
        IsStepDone step.now text.now machine.now input (output_of done)) }
    ensures err { IfErr result (λ fault. (fault ≡ OutOfMemory) ⊎
        IsStepFault (S.gives second.old) fault) }
{
    let input = read_all(alloc, INPUT, second)?;
    Ok(Done {
        lines: told_lines(alloc, text, machine, step, input.as_slice())?,
        list: None,
        said: Vec::new(alloc),
        status: 0,
    })
}
