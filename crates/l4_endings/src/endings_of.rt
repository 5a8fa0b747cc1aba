//! The endings of a machine.
ghost use Rattle.std.specs.Prelude.{ℕ, ◌≡◌, ◌<◌, ◌≤◌, ◌++◌, ◌∷◌, [], min, Bool, IfNone, IfOk, IfSome};
ghost use Rattle.std.specs.Prelude.{OnErr, OnOk, false, length, map, true};
ghost use Rattle.l4_explore.specs.Search.{seen_at, Seen};
ghost use Rattle.l4_explore.specs.Tries.{deepest};
ghost use Rattle.l4_states.specs.Endings.{ends_of, entries_of};
ghost use Rattle.l4_persistent.specs.Endings.{AreAllEndings, AreEndings};
ghost use Rattle.l4_endings.specs.Told.{AreChoices, AreTold, HaveBegun};
ghost use Rattle.l4_endings.specs.Inner.Tried.{entries_from, told};

use crate::memory::Memory;
use crate::tried::Choices;
use l4_explore::found::Found;
use l4_explore::listener::Listener;
use l4_explore::progress::Progress;
use l4_explore::search::{explore, explore_telling};
use l4_replay::Entry;
use l4_rounds::choices::choice;
use l4_script::machine::Machine;
use l4_types::errors::NoMemory;
use std::alloc::Global;

/// The result of a search for endings.
#[derive(Drop)]
pub struct FoundEndings {
    /// Each ending by the entries that lead there, a shortest schedule. Shorter schedules come first.
    pub endings: Vec<Vec<Entry>>,
    /// The number of states that the search has looked at, no two of them similar.
    pub states: usize,
    /// All endings of at most this many events are listed. Where the search is whole, this is how
    /// many entries lead to the farthest state that it has looked at.
    pub depth: usize,
    /// Whether all endings are listed.
    pub is_whole: bool,
}

/// The endings of all core runs of a machine of at most `depth` events, whose ticks go to the least
/// deadline of their processor, and whose clocks stay below 2^61. Similar endings are listed once.
/// They differ only in stamps, in numbers of sends, in how late it is, or in the order of letters
/// of different pairs of processors.
///
/// In each state it tries the choices of a persistent set of processors alone: of all others the
/// events may come later. It looks at no more than `most` states. Where there is one more, all
/// endings that fewer events lead to are found. No search goes deeper than 1,000,000 events. A
/// search that is not whole was cut off. Some state that it has found takes as many events as it
/// may go deep, or there is one more state. `progress` hears how far the search has come.
///
/// `NoMemory`: memory was refused.
pub fn endings<P: Progress>(
    alloc: Global,
    machine: &Machine,
    depth: u32,
    most: u32,
    progress: &mut P,
) -> Result<FoundEndings, NoMemory>
    requires { 0 < most }
    ensures all { IfOk result (λ r.
        AreAllEndings machine.now (told r.endings.items) r.depth r.is_whole) }
    ensures found { IfOk result (λ r.
        AreEndings machine.now (told r.endings.items) r.states (min depth deepest) most r.depth
        r.is_whole) }
    ensures few { IfOk result (λ r. r.states ≤ most) }
    ensures whole { IfOk result (λ r. r.is_whole ≡ true → r.depth < depth) }
{
    machine.facts();
    let memory = Memory::new(alloc, machine)?;
    let mut choices = Choices { machine, memory };
    let explored = explore(alloc, &mut choices, depth, most, progress)?;
    Ok(FoundEndings {
        endings: ends(alloc, machine, &explored.found)?,
        states: explored.found.len(),
        depth: explored.depth,
        is_whole: explored.is_whole,
    })
}

/// What a search for endings says of itself.
#[derive(Clone, Copy, Debug, PartialEq, Eq)]
pub struct Looked {
    /// The number of states that the search has looked at, no two of them similar.
    pub states: usize,
    /// As of `FoundEndings`.
    pub depth: usize,
    /// Whether the listener was told of all endings.
    pub is_whole: bool,
}

/// The same search, which keeps no ending, but tells `listener` of each as soon as it is found, in
/// the order of `endings`. `entries_at` gives the entries that lead there, for the state that the
/// listener is told of. None if the listener wanted to hear of no more.
///
/// `NoMemory`: memory was refused, to the listener perhaps. It has been told of the first endings.
pub fn endings_telling<P: Progress, L: Listener>(
    alloc: Global,
    machine: &Machine,
    depth: u32,
    most: u32,
    progress: &mut P,
    listener: &mut L,
) -> Result<Option<Looked>, NoMemory>
    requires some { 0 < most }
    requires may { (s : Seen) → AreChoices machine.now s.schedule → L.may_hear listener.old s }
    ensures all { IfOk result (λ looked. IfSome looked (λ r.
        AreTold machine.now (L.hears listener.old listener.new) r.states (min depth deepest) most
        r.depth r.is_whole)) }
    ensures few { IfOk result (λ looked. IfSome looked (λ r. r.states ≤ most)) }
    ensures whole { IfOk result (λ looked. IfSome looked (λ r.
        r.is_whole ≡ true → r.depth < depth)) }
    ensures stopped { IfOk result (λ looked. IfNone looked (
        HaveBegun machine.now (L.hears listener.old listener.new) false)) }
    ensures refused { OnErr result ((more : Bool) ×
        HaveBegun machine.now (L.hears listener.old listener.new) more) }
{
    machine.facts();
    let memory = Memory::new(alloc, machine)?;
    let mut choices = Choices { machine, memory };
    let Some(search) = explore_telling(alloc, &mut choices, depth, most, progress, listener)? else {
        return Ok(None);
    };
    Ok(Some(Looked {
        states: search.found.len(),
        depth: search.depth,
        is_whole: search.is_whole,
    }))
}

/// The entries of the schedule of a found state.
///
/// `NoMemory`: memory was refused.
pub fn entries_at(
    alloc: Global,
    machine: &Machine,
    found: &Found,
    place: usize,
) -> Result<Vec<Entry>, NoMemory>
    requires place { place < length found.now }
    requires choices { AreChoices machine.now (seen_at found.now place).schedule }
    ensures { IfOk result (λ entries. entries_from entries.items
        ≡ entries_of machine.now (seen_at found.now place).schedule) }
{
    let schedule = found.schedule(alloc, place)?;
    entries_of(alloc, machine, &schedule)
}

// The schedules of the states that are at rest.
fn ends(alloc: Global, machine: &Machine, found: &Found) -> Result<Vec<Vec<Entry>>, NoMemory>
    requires { (i : ℕ) → i < length found.now →
        AreChoices machine.now (seen_at found.now i).schedule }
    ensures { IfOk result (λ ends.
        told ends.items ≡ map (entries_of machine.now) (ends_of found.now)) }
{
    let mut ends = Vec::new(alloc);
    for place in 0..found.len() {
        list_end(alloc, machine, found, place, &mut ends)?;
    }
    Ok(ends)
}

// Appends the schedule of a state, where the state is at rest.
fn list_end(
    alloc: Global,
    machine: &Machine,
    found: &Found,
    place: usize,
    ends: &mut Vec<Vec<Entry>>,
) -> Result<(), NoMemory>
    requires place { place < length found.now }
    requires choices { AreChoices machine.now (seen_at found.now place).schedule }
    ensures { OnOk result (told ends.new.items ≡ told ends.old.items
        ++ map (entries_of machine.now) (ends_of (seen_at found.now place ∷ []))) }
{
    if !found.is_end(place) {
        return Ok(());
    }
    ends.push(entries_at(alloc, machine, found, place)?)?;
    Ok(())
}

// The entries of choices.
fn entries_of(alloc: Global, machine: &Machine, numbers: &[u32]) -> Result<Vec<Entry>, NoMemory>
    requires { AreChoices machine.now numbers.now }
    ensures { IfOk result (λ entries.
        entries_from entries.items ≡ entries_of machine.now numbers.now) }
{
    let cpus = machine.cpus();
    let mut entries = Vec::with_capacity(alloc, numbers.len())?;
    for number in numbers {
        entries.push(choice(cpus, *number))?;
    }
    Ok(entries)
}
