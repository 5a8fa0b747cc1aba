//! The lines of a report: of each thread, of each undecided send, and of the ending.
ghost use Rattle.std.specs.Prelude.{◌≡◌, ◌<◌, ◌++◌, codes, decimal, map, flat_map, OnOk, OnErr};
ghost use Rattle.std.specs.String.{string_bytes};
ghost use Rattle.l4_types.specs.ReportView.{state_of_view, report_of_view};
ghost use Rattle.l4_reports.specs.ReportLines.{state_word, shown_registers, thread_line};
ghost use Rattle.l4_reports.specs.ReportLines.{waiting_line, ending_word, report_text};

use l4_types::errors::NoMemory;
use l4_types::ids::ThreadId;
use l4_types::registers::MESSAGE_REGISTERS;
use l4_types::reports::{Ending, State, ThreadView};
use l4_types::steps::Name;
use l4_words::spelling::{push_id, push_name, push_thread, push_words};
use std::alloc::AllocError;

/// Appends the report of a run: its threads in order of declaration, its undecided sends with their
/// destinations in order of beginning, and its ending. If memory is refused, nothing is appended.
pub fn write_report(
    threads: &[ThreadView],
    waiting: &[(Name, ThreadId)],
    ending: Ending,
    out: &mut Vec<u8>,
) -> Result<(), NoMemory>
    ensures ok { OnOk result
        (out.new.items ≡ out.old.items ++
        report_text (map report_of_view threads.now) waiting.now ending) }
    ensures err { OnErr result (out.new.items ≡ out.old.items) }
{
    let mut text = String::new(*out.allocator());
    push_views(&mut text, threads)?;
    push_sends(&mut text, waiting)?;
    writeln!(text, "ending {}", spelled_ending(ending))?;
    out.extend_from_slice(text.as_bytes())?;
    Ok(())
}

fn push_views(text: &mut String, threads: &[ThreadView]) -> Result<(), AllocError>
    ensures { OnOk result (string_bytes text.new ≡
        string_bytes text.old ++ flat_map thread_line (map report_of_view threads.now)) }
{
    for view in threads {
        push_view(text, view)?;
    }
    Ok(())
}

/// Appends the line of a thread.
#[tactic(auto, using(crate::proofs::Joined::thread_line_joined))]
pub fn push_view(text: &mut String, view: &ThreadView) -> Result<(), AllocError>
    ensures { OnOk result (string_bytes text.new ≡
        string_bytes text.old ++ thread_line (report_of_view view.now)) }
{
    text.push_str("thread")?;
    push_thread(text, view.id)?;
    push_state(text, view.state, view.regs.error)?;
    push_id(text, view.regs.from)?;
    push_id(text, view.regs.actual)?;
    push_words(text, shown(&view.regs.words))?;
    text.push('\n')?;
    Ok(())
}

fn push_state(text: &mut String, state: State, error: u64) -> Result<(), AllocError>
    ensures { OnOk result (string_bytes text.new ≡
        string_bytes text.old ++ codes " " ++ state_word (state_of_view state) ++ codes " " ++
        decimal error) }
{
    write!(text, " {} {error}", spelled_state(state))
}

/// The registers that a report shows: MR0, and those after it up to the last that is not 0.
fn shown(words: &[u64; MESSAGE_REGISTERS]) -> &[u64]
    ensures { result.now ≡ shown_registers words.now }
{
    let mut end = words.len();
    while end > 1 && words[end - 1] == 0 {
        end -= 1;
    }
    &words[..end]
}

fn push_sends(text: &mut String, waiting: &[(Name, ThreadId)]) -> Result<(), AllocError>
    ensures { OnOk result (string_bytes text.new ≡
        string_bytes text.old ++ flat_map waiting_line waiting.now) }
{
    for (name, destination) in waiting {
        push_send(text, *name, *destination)?;
    }
    Ok(())
}

#[tactic(auto, using(crate::proofs::Joined::waiting_line_joined))]
fn push_send(text: &mut String, name: Name, destination: ThreadId) -> Result<(), AllocError>
    ensures { OnOk result (string_bytes text.new ≡
        string_bytes text.old ++ waiting_line (name, destination)) }
{
    text.push_str("waiting")?;
    push_name(text, name)?;
    push_id(text, destination)?;
    text.push('\n')?;
    Ok(())
}

/// The word of a state in a report.
pub fn spelled_state(state: State) -> &'static str
    ensures { result.now ≡ state_word (state_of_view state) }
{
    match state {
        State::Ready => "ready",
        State::Sending => "sending",
        State::Receiving => "receiving",
        State::Ordering => "ordering",
        State::Ended => "ended",
        State::Deleted => "deleted",
    }
}

/// How a run ended, as a report has it: `quiet` or `spent`.
pub fn spelled_ending(ending: Ending) -> &'static str
    ensures { result.now ≡ ending_word ending }
{
    match ending {
        Ending::Quiet => "quiet",
        Ending::Spent => "spent",
    }
}
