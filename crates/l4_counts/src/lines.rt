//! The lines that tell what each thread did.
ghost use Rattle.std.specs.Prelude.{◌≡◌, ◌++◌, OnOk, OnErr};
ghost use Rattle.std.specs.String.{string_bytes};
ghost use Rattle.l4_counts.specs.Lines.{counts_line, counts_text, done_text, first_codes};
ghost use Rattle.l4_counts.specs.Lines.{last_codes, refused_text};
ghost use Rattle.l4_counts.specs.Inner.Threads.{counts_lines};

use crate::counts::Counts;
use crate::threads::counts_of_each;
use l4_history::history::History;
use l4_script::machine::{Declaration, Machine};
use l4_types::errors::NoMemory;
use l4_types::ids::GlobalId;
use l4_words::spelling::push_thread;
use std::alloc::{AllocError, Global};

/// Appends a line with the counts of each thread of a machine, in order of declaration. If memory
/// is refused, nothing is appended.
pub fn write_counts(
    alloc: Global,
    machine: &Machine,
    history: &History,
    out: &mut Vec<u8>,
) -> Result<(), NoMemory>
    ensures ok { OnOk result (out.new.items ≡ out.old.items ++
        counts_text machine.now history.now.steps) }
    ensures err { OnErr result (out.new.items ≡ out.old.items) }
{
    let counts = counts_of_each(alloc, machine, history)?;
    let mut text = String::new(alloc);
    push_all(&mut text, machine.threads(), counts.as_slice())?;
    out.extend_from_slice(text.as_bytes())?;
    Ok(())
}

fn push_all(text: &mut String, threads: &[Declaration], counts: &[Counts]) -> Result<(), AllocError>
    ensures { OnOk result (string_bytes text.new ≡ string_bytes text.old ++
        counts_lines threads.now counts.now) }
{
    for (declared, counts) in threads.iter().zip(counts) {
        push_counts(text, declared.id(), counts)?;
    }
    Ok(())
}

#[tactic(auto, using(crate::proofs::Joined::counts_line_joined))]
fn push_counts(text: &mut String, id: GlobalId, counts: &Counts) -> Result<(), AllocError>
    ensures { OnOk result (string_bytes text.new ≡
        string_bytes text.old ++ counts_line id counts.now) }
{
    text.push_str("counts")?;
    push_thread(text, id)?;
    push_done(text, counts)?;
    push_refused(text, counts)?;
    text.push('\n')?;
    Ok(())
}

fn push_done(text: &mut String, counts: &Counts) -> Result<(), AllocError>
    ensures { OnOk result (string_bytes text.new ≡ string_bytes text.old ++
        done_text counts.now) }
{
    write!(
        text,
        " turns {} sends {} delivered {} received {}",
        counts.turns, counts.sends, counts.delivered, counts.received
    )
}

#[tactic(auto, using(crate::proofs::Joined::refused_joined))]
fn push_refused(text: &mut String, counts: &Counts) -> Result<(), AllocError>
    ensures { OnOk result (string_bytes text.new ≡ string_bytes text.old ++
        refused_text counts.now) }
{
    text.push_str(" refused")?;
    push_first_codes(text, counts)?;
    push_last_codes(text, counts)?;
    Ok(())
}

fn push_first_codes(text: &mut String, counts: &Counts) -> Result<(), AllocError>
    ensures { OnOk result (string_bytes text.new ≡ string_bytes text.old ++
        first_codes counts.now) }
{
    write!(
        text,
        " 2:{} 3:{} 4:{}",
        counts.send_timeouts, counts.receive_timeouts, counts.sends_to_nobody
    )
}

fn push_last_codes(text: &mut String, counts: &Counts) -> Result<(), AllocError>
    ensures { OnOk result (string_bytes text.new ≡ string_bytes text.old ++
        last_codes counts.now) }
{
    write!(
        text,
        " 5:{} 6:{} 7:{}",
        counts.receives_from_nobody, counts.sends_cancelled, counts.receives_cancelled
    )
}
