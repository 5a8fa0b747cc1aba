//! Endings of placed threads that walks come to.
ghost use Rattle.std.specs.Prelude.{ℕ, ◌≡◌, ◌≤◌, min, IfOk, None, Some, Vec};
ghost use Rattle.std.proofs.Common.{Global};
ghost use Rattle.l4_explore.specs.Tries.{deepest};
ghost use Rattle.l4_replay.specs.declared.entries.Entry.{Entry as EntryOfList};
ghost use Rattle.l4_questions.specs.Limits.{question_fault};
ghost use Rattle.l4_questions.specs.Inner.PlacedWalked.{IsWalkedBy, LeadsToAsked};

use crate::asked::is_asked;
use crate::listed::Listed;
use crate::question::{Question, Wanted};
use crate::walked::{MOST_STEPS, MOST_TOO_LONG, NEAREST, WALKS, is_any_asked};
use l4_endings::endings;
use l4_explore::progress::Progress;
use l4_replay::Entry;
use l4_script::machine::Machine;
use l4_types::errors::NoMemory;
use l4_walks::PlacedWalks;
use std::alloc::Global;

// Whether there are more states than the nearest, and no ending among these is asked for.
fn is_far<P: Progress>(
    alloc: Global,
    machine: &Machine,
    question: &Question<'_>,
    depth: u32,
    progress: &mut P,
) -> Result<bool, NoMemory> {
    let near = endings(alloc, machine, depth, NEAREST, progress)?;
    if near.is_whole || near.states < NEAREST as usize {
        return Ok(false);
    }
    Ok(!is_any_asked(alloc, machine, question, &near.endings)?)
}

/// The entries to an ending that is asked for though none should exist, by walks: where there are too
/// many states for a search to be quick, and the nearest have none.
///
/// `NoMemory`: memory was refused.
pub(crate) fn placed_walked_ending<P: Progress>(
    alloc: Global,
    machine: &Machine,
    question: &Question<'_>,
    depth: u32,
    most: u32,
    progress: &mut P,
) -> Result<Option<Vec<Entry>>, NoMemory>
    requires lawful { question_fault question.now ≡ None }
    requires depth { depth ≡ question.now.depth }
    requires short { min depth deepest ≡ depth }
    ensures { IfOk result (λ walked. (entries : Vec EntryOfList Global) →
        walked ≡ Some entries → IsWalkedBy machine.now question.now entries) }
{
    let Wanted::NoEnding = question.wanted else {
        return Ok(None);
    };
    if most <= NEAREST || !is_far(alloc, machine, question, depth, progress)? {
        return Ok(None);
    }
    let walked = asked_walk(alloc, machine, question, depth.min(MOST_STEPS))?;
    Ok(walked)
}

// The entries of the first of some walks that comes to an ending that is asked for.
fn asked_walk(
    alloc: Global,
    machine: &Machine,
    question: &Question<'_>,
    most: u32,
) -> Result<Option<Vec<Entry>>, NoMemory>
    requires { most ≤ deepest }
    ensures { IfOk result (λ walked. (entries : Vec EntryOfList Global) →
        walked ≡ Some entries → LeadsToAsked machine.now question.now most entries) }
{
    let mut walks = PlacedWalks::new(machine);
    let mut too_long = 0;
    for _ in 0..WALKS {
        let Some(entries) = walks.next_walk(alloc, most)? else {
            too_long += 1;
            if too_long == MOST_TOO_LONG {
                break;
            }
            continue;
        };
        let ending = entries.ending(alloc, machine)?;
        if is_asked(question, &ending) {
            return Ok(Some(entries));
        }
    }
    Ok(None)
}
