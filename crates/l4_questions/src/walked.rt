//! Endings that walks come to.
ghost use Rattle.std.specs.List.{AllByRecursion};
ghost use Rattle.std.specs.Prelude.{ℕ, ◌≡◌, ◌≤◌, min, IfOk, None, Some, Vec};
ghost use Rattle.std.proofs.Common.{Global};
ghost use Rattle.l4_explore.specs.Tries.{deepest};
ghost use Rattle.l4_questions.specs.Limits.{question_fault};
ghost use Rattle.l4_questions.specs.Inner.Walked.{IsWalkedBy, LeadsToAsked};

use crate::asked::is_asked;
use crate::listed::Listed;
use crate::question::{Question, Wanted};
use l4_all_endings::all_endings;
use l4_explore::progress::Progress;
use l4_script::machine::Machine;
use l4_types::errors::NoMemory;
use l4_walks::Walks;
use std::alloc::Global;

/// A search looks at so many worlds before walks are tried, so that what is small is answered by it.
/// Of placed threads it looks at so many states.
pub(crate) const NEAREST: u32 = 10_000;

/// So many walks are tried, or fewer where so many are too long: then the machine seems to have no
/// ending. None takes more than so many steps but ticks, and of placed threads, than so many events.
pub(crate) const WALKS: u32 = 100;

pub(crate) const MOST_TOO_LONG: u32 = 20;

pub(crate) const MOST_STEPS: u32 = 2_000;

/// Whether one of these endings is asked for.
///
/// `NoMemory`: memory was refused.
pub(crate) fn is_any_asked<L: Listed>(
    alloc: Global,
    machine: &Machine,
    question: &Question<'_>,
    endings: &[L],
) -> Result<bool, NoMemory>
    requires { AllByRecursion (L.leads machine.now) endings.now }
{
    for entries in endings {
        if is_asked(question, &entries.ending(alloc, machine)?) {
            return Ok(true);
        }
    }
    Ok(false)
}

// Whether there are more worlds than the nearest, and no ending among these is asked for.
fn is_far<P: Progress>(
    alloc: Global,
    machine: &Machine,
    question: &Question<'_>,
    depth: u32,
    progress: &mut P,
) -> Result<bool, NoMemory> {
    let near = all_endings(alloc, machine, depth, NEAREST, progress)?;
    if near.is_whole || near.worlds < NEAREST as usize {
        return Ok(false);
    }
    Ok(!is_any_asked(alloc, machine, question, &near.endings)?)
}

/// The entries to an ending that is asked for though none should exist, by walks: where there are too
/// many worlds for a search to be quick, and the nearest have none.
///
/// `NoMemory`: memory was refused.
pub(crate) fn walked_ending<P: Progress>(
    alloc: Global,
    machine: &Machine,
    question: &Question<'_>,
    depth: u32,
    most: u32,
    progress: &mut P,
) -> Result<Option<Vec<u32>>, NoMemory>
    requires lawful { question_fault question.now ≡ None }
    requires depth { depth ≡ question.now.depth }
    requires short { min depth deepest ≡ depth }
    ensures { IfOk result (λ walked. (entries : Vec ℕ Global) → walked ≡ Some entries →
        IsWalkedBy machine.now question.now entries) }
{
    let Wanted::NoEnding = question.wanted else {
        return Ok(None);
    };
    if most <= NEAREST || !is_far(alloc, machine, question, depth, progress)? {
        return Ok(None);
    }
    let walked = asked_walk(alloc, machine, question, depth.min(MOST_STEPS))?;
    Ok(walked)
}

// The entries of the first of some walks that comes to an ending that is asked for.
fn asked_walk(
    alloc: Global,
    machine: &Machine,
    question: &Question<'_>,
    most: u32,
) -> Result<Option<Vec<u32>>, NoMemory>
    requires { most ≤ deepest }
    ensures { IfOk result (λ walked. (entries : Vec ℕ Global) → walked ≡ Some entries →
        LeadsToAsked machine.now question.now most entries) }
{
    let mut walks = Walks::new(alloc, machine)?;
    let mut too_long = 0;
    for _ in 0..WALKS {
        let Some(entries) = walks.next_walk(alloc, most)? else {
            too_long += 1;
            if too_long == MOST_TOO_LONG {
                break;
            }
            continue;
        };
        let ending = entries.ending(alloc, machine)?;
        if is_asked(question, &ending) {
            return Ok(Some(entries));
        }
    }
    Ok(None)
}
