//! The outcome of processors that worked in threads of their caller's.
ghost use Rattle.std.specs.List.{range_with_len};
ghost use Rattle.std.specs.Option.{option_map};
ghost use Rattle.std.specs.Prelude.{ℕ, ◌≡◌, ◌↔◌, ◌⊎◌, false, true, map, slice_get, IfErr, IfOk};
ghost use Rattle.std.specs.Prelude.{IsErrOf, IsTrue, Some};
ghost use Rattle.l4_mail.specs.Ports.{AreWhole};
ghost use Rattle.l4_mail.specs.Rests.{are_all};
ghost use Rattle.l4_merge.specs.Merges.{is_at_rest};
ghost use Rattle.l4_proc.specs.Rests.{AreAsBefore, HaveHandledAll};
ghost use Rattle.l4_proc.specs.declared.processor.Processor.{Processor as ProcessorOfMachine};
ghost use Rattle.l4_types.specs.declared.reports.Ending.TheVariants.{Quiet};
ghost use Rattle.l4_machine.specs.Gathers.{core_of, pasts_of, with_number, AreOfOne, AreResting};
ghost use Rattle.l4_machine.specs.Gathers.{HaveNumbers};
ghost use Rattle.l4_machine.specs.Gathered.{IsGathered};
ghost use Rattle.l4_replay.specs.Inner.Homes.{IsAtHome};
ghost use Rattle.l4_machine.specs.Outcomes.{IsTrueOf, compact_findings_of, findings_of};

use crate::merging::{merged_history, place_of};
use crate::outcome::{CompactOutcome, Outcome, outcome_of};
use crate::run_history::RunHistory;
use l4_core::processor::Core;
use l4_mail::rests::RestFault;
use l4_merge::law_merge;
use l4_proc::processor::Processor;
use l4_proc::resting::rest;
use l4_replay::homes::OwnerView;
use l4_replay::{RunFault, law_core_run};
use l4_script::machine::Machine;
use l4_types::errors::NoMemory;
use l4_types::reports::Ending;
use std::alloc::Global;

/// The outcome of the processors of one `assemble` of this machine, in any order, for callers with
/// threads of their own. No other thread may be at work on them. The history is in order of stamp,
/// and of equal ones by processor.
///
/// `Strangers`: exactly where they are not all processors of the machine, each once. `NoMemory`:
/// memory was refused. With a fault the processors come back in their order, each as it was, save
/// that letters under way may have moved to the ports that they go to. The call can be made again.
#[tactic(auto, using(crate::proofs::Outcomes::gathered_is_true))]
pub fn gather<'m>(
    alloc: Global,
    machine: &Machine,
    processors: Vec<Processor<'m>>,
) -> Result<Outcome, (RunFault, Vec<Processor<'m>>)>
    requires { AreOfOne machine.now processors.items }
    ensures ok { IfOk result (λ o. IsGathered machine.now processors.entry.items (findings_of o)) }
    ensures headline { IfOk result (λ o. IsTrueOf machine.now (findings_of o)) }
    ensures err { IfErr result (λ e. (e.0 ≡ RunFault.NoMemory) ⊎ (e.0 ≡ RunFault.Strangers)) }
    ensures all { IfOk result (λ _. are_all (map (λ p. p.port) processors.entry.items) ≡ true) }
    ensures strangers { IfErr result (λ e. (e.0 ≡ RunFault.Strangers) ↔
        (are_all (map (λ p. p.port) processors.entry.items) ≡ false)) }
    ensures back { IfErr result (λ e. AreAsBefore processors.entry.items e.1.items) }
{
    let mut processors = processors;
    match gathered(alloc, machine, &mut processors) {
        Ok(outcome) => Ok(outcome),
        Err(fault) => Err((fault, processors)),
    }
}

fn gathered(
    alloc: Global,
    machine: &Machine,
    processors: &mut Vec<Processor<'_>>,
) -> Result<Outcome, RunFault>
    requires { AreOfOne machine.now processors.old.items }
    ensures ok { IfOk result (λ o. IsGathered machine.now processors.old.items (findings_of o)) }
    ensures err { IfErr result (λ fault. (fault ≡ RunFault.NoMemory) ⊎
        (fault ≡ RunFault.Strangers)) }
    ensures all { IfOk result (λ _. are_all (map (λ p. p.port) processors.old.items) ≡ true) }
    ensures strangers { IsErrOf result RunFault.Strangers ↔
        (are_all (map (λ p. p.port) processors.old.items) ≡ false) }
    ensures same { AreAsBefore processors.old.items processors.new.items }
{
    let all_handled = rest(alloc, processors)?;
    let outcome = rested_outcome(alloc, machine, processors.as_slice(), all_handled)?;
    Ok(outcome.into_outcome(alloc)?)
}

// The outcome of all processors of a machine, which have come to rest. `all_handled` says whether
// the rest found all letters handled.
fn rested_outcome<'m>(
    alloc: Global,
    machine: &'m Machine,
    processors: &[Processor<'m>],
    all_handled: bool,
) -> Result<CompactOutcome<'m>, NoMemory>
    requires one { AreOfOne machine.now processors.now }
    requires numbers { HaveNumbers machine.now.cpus processors.now }
    requires whole { AreWhole (map (λ p. p.port) processors.now) }
    requires handled { IsTrue all_handled ↔ HaveHandledAll processors.now }
    ensures { IfOk result (λ o. IsGathered machine.now processors.now (compact_findings_of o)) }
{
    law_core_run();
    law_merge();
    machine.facts();
    let (history, events) = merged_history(alloc, machine, processors)?;
    let ending = ending(processors, all_handled);
    let at_home = at_home(alloc, machine, processors)?;
    outcome_of(
        alloc,
        machine,
        RunHistory::Steps(history),
        at_home,
        all_handled,
        ending,
        events as u64,
    )
}

/// The threads and their last sends, as their own processors have them.
pub(crate) fn at_home(
    alloc: Global,
    machine: &Machine,
    processors: &[Processor<'_>],
) -> Result<OwnerView, NoMemory>
    requires one { AreOfOne machine.now processors.now }
    requires numbers { HaveNumbers machine.now.cpus processors.now }
    ensures { IfOk result (IsAtHome machine.now
        (map (λ past. past.local) (pasts_of machine.now processors.now))) }
{
    let cores = cores_of(alloc, processors, machine.cpus())?;
    OwnerView::new(alloc, machine, cores.as_slice())
}

// The cores of these processors, in the order of their numbers.
fn cores_of<'a, 'm>(
    alloc: Global,
    processors: &'a [Processor<'m>],
    cpus: u8,
) -> Result<Vec<&'a Core<'m>>, NoMemory>
    requires { HaveNumbers cpus processors.now }
    ensures { IfOk result (λ cores.
        map (λ c. Some c.now) cores.items ≡
        map (λ cpu. option_map core_of (with_number cpu processors.now)) (range_with_len 0 cpus)) }
{
    let mut cores = Vec::new(alloc);
    for cpu in 0..cpus {
        cores.push(processors[place_of(processors, cpu)].core())?;
    }
    Ok(cores)
}

/// `Quiet` where nothing is to be done, armed or under way. `all_handled` says whether a rest found
/// all letters handled.
pub(crate) fn ending(processors: &[Processor<'_>], all_handled: bool) -> Ending
    requires { IsTrue all_handled ↔ HaveHandledAll processors.now }
    ensures { (result ≡ Quiet) ↔ AreResting processors.now }
{
    if all_handled && are_at_rest(processors) {
        Ending::Quiet
    } else {
        Ending::Spent
    }
}

// Whether none of these processors has anything to do, or a deadline.
fn are_at_rest(processors: &[Processor<'_>]) -> bool
    ensures { IsTrue result ↔
        ((i : ℕ) (p : ProcessorOfMachine) → slice_get processors.now i ≡ Some p →
        is_at_rest p.worker.core.machine p.worker.core.cpu p.worker.core.local ≡ true) }
{
    for processor in processors {
        if !is_at_rest(processor) {
            return false;
        }
    }
    true
}

// Whether a processor has nothing to do, and no deadline.
fn is_at_rest(processor: &Processor<'_>) -> bool
    ensures { result ≡
        is_at_rest processor.now.worker.core.machine processor.now.worker.core.cpu
        processor.now.worker.core.local }
{
    let core = processor.core();
    !core.busy() && core.least_deadline().is_none()
}
