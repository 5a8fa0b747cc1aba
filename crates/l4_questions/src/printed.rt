//! The last line of an answer about placed runs.
ghost use Rattle.std.specs.Prelude.{◌≡◌, IfOk};
ghost use Rattle.l4_questions.specs.Placed.{end_words, has_thread_on, share_processor};
ghost use Rattle.l4_questions.specs.Placed.{states_line, whole_words};

use l4_script::machine::{Declaration, Machine};
use l4_types::errors::NoMemory;
use std::alloc::Global;

// Whether one of these threads is on this processor.
fn has_thread_on(cpu: u8, threads: &[Declaration]) -> bool
    ensures { result ≡ has_thread_on cpu threads.now }
{
    threads.iter().any(|thread| thread.cpu() == cpu)
}

// Whether some two of these threads share a processor.
fn share_processor(threads: &[Declaration]) -> bool
    ensures { result ≡ share_processor threads.now }
{
    match threads {
        [] => false,
        [first, others @ ..] => has_thread_on(first.cpu(), others) || share_processor(others),
    }
}

/// The last line: the number of states, the depth to which all were found, and whether there are no
/// more, of which runs.
///
/// `NoMemory`: memory was refused.
pub(crate) fn states_line(
    alloc: Global,
    machine: &Machine,
    states: usize,
    depth: usize,
    is_whole: bool,
) -> Result<Vec<u8>, NoMemory>
    ensures { IfOk result (λ line. line.items ≡ states_line machine.now states depth is_whole) }
{
    let mut line = String::new(alloc);
    writeln!(
        line,
        "states {states} depth {depth} {}",
        spelled_end(machine, is_whole)
    )?;
    Ok(line.into_bytes())
}

fn spelled_whole(in_turn: bool) -> &'static str
    ensures { result.now ≡ whole_words in_turn }
{
    if in_turn {
        "whole, least ticks, in turn"
    } else {
        "whole, least ticks"
    }
}

// Whether there are no more, and of which runs.
fn spelled_end(machine: &Machine, is_whole: bool) -> &'static str
    ensures { result.now ≡ end_words machine.now is_whole }
{
    if is_whole {
        spelled_whole(share_processor(machine.threads()))
    } else {
        "cut"
    }
}
