//! Processors that come to rest.
ghost use Rattle.std.specs.Prelude.{◌≡◌, ◌↔◌, ◌≤◌, ◌&&◌, false, true, is_some, map, nat_eq, not};
ghost use Rattle.std.specs.Prelude.{IfOk, IsErrOf, IsTrue, OnOk, vec_len};
ghost use Rattle.std.specs.Vec.{vec_capacity};
ghost use Rattle.std.specs.List.{list_all, list_any, AllZip};
ghost use Rattle.l4_core_model.specs.Runs.{is_empty};
ghost use Rattle.l4_mail.specs.Ports.{fabric_size, AreOneFabric, AreWhole};
ghost use Rattle.l4_mail.specs.Rests.{have_numbers, are_all};
ghost use Rattle.l4_mail.specs.declared.rests.RestFault.TheVariants as RestFault;
ghost use Rattle.l4_proc.specs.Rests.{AreAsBefore, HaveHandledAll};
ghost use Rattle.l4_proc.specs.Whole.{IsWhole};

use crate::processor::Processor;
use crate::worker::Worker;
use l4_mail::ports::Port;
use l4_mail::rests;
use l4_mail::rests::RestFault;
use l4_types::letters::Letter;
use std::alloc::Global;
use std::mem;

// Whether one of these processors has this number.
fn has_number(processors: &[Processor<'_>], cpu: usize) -> bool
    ensures { result ≡ list_any (λ p. nat_eq p.port.cpu cpu) processors.now }
{
    processors
        .iter()
        .any(|processor| usize::from(processor.port.cpu()) == cpu)
}

// Whether there is a processor of each number below this.
fn have_numbers(processors: &[Processor<'_>], below: usize) -> bool
    ensures { result ≡ have_numbers below (map (λ p. p.port) processors.now) }
{
    for cpu in 0..below {
        if !has_number(processors, cpu) {
            return false;
        }
    }
    true
}

// Whether each processor is of a fabric of `cpus` processors.
fn have_size(processors: &[Processor<'_>], cpus: usize) -> bool
    ensures { result ≡ list_all (λ p. nat_eq (fabric_size p.port) cpus) processors.now }
{
    processors
        .iter()
        .all(|processor| processor.port.fabric_size() == cpus)
}

// Whether these are all processors of their fabric, each once.
fn are_all(processors: &[Processor<'_>]) -> bool
    ensures { result ≡ are_all (map (λ p. p.port) processors.now) }
{
    !processors.is_empty()
        && have_size(processors, processors.len())
        && have_numbers(processors, processors.len())
}

// Whether no letter is under way.
fn is_empty(ways: &[(u8, u8, Vec<Letter>)]) -> bool
    ensures { result ≡ list_all (λ way. is_empty way.2.items) ways.now }
{
    ways.iter().all(|way| way.2.is_empty())
}

// Whether a letter is in hand.
fn any_in_hand(processors: &[Processor<'_>]) -> bool
    ensures { result ≡ list_any (λ p. is_some p.worker.hand) processors.now }
{
    processors.iter().any(|processor| processor.in_hand())
}

// Whether no letter is under way, and none in hand.
fn all_is_handled(ways: &[(u8, u8, Vec<Letter>)], processors: &[Processor<'_>]) -> bool
    ensures { result ≡
        (list_all (λ way. is_empty way.2.items) ways.now && not
        (list_any (λ p. is_some p.worker.hand) processors.now)) }
{
    is_empty(ways) && !any_in_hand(processors)
}

// Takes processors apart, in their order.
fn part<'m>(processors: Vec<Processor<'m>>, ports: &mut Vec<Port>, workers: &mut Vec<Worker<'m>>)
    requires empty { (vec_len ports.old ≡ 0) × (vec_len workers.old ≡ 0) }
    requires room { (vec_len processors ≤ vec_capacity ports.old) ×
        (vec_len processors ≤ vec_capacity workers.old) }
    ensures ports { ports.new.items ≡ map (λ p. p.port) processors.entry.items }
    ensures workers { workers.new.items ≡ map (λ p. p.worker) processors.entry.items }
    ensures whole { AllZip IsWhole ports.new.items workers.new.items }
{
    for processor in processors {
        let (port, worker) = processor.split();
        ports.push_reserved(port);
        workers.push_reserved(worker);
    }
}

// Puts processors together again.
fn join<'m>(ports: Vec<Port>, workers: Vec<Worker<'m>>, processors: &mut Vec<Processor<'m>>)
    requires whole { AllZip IsWhole ports.items workers.items }
    requires empty { vec_len processors.old ≡ 0 }
    requires room { vec_len ports ≤ vec_capacity processors.old }
    ensures ports { map (λ p. p.port) processors.new.items ≡ ports.items }
    ensures workers { map (λ p. p.worker) processors.new.items ≡ workers.entry.items }
    ensures capacity { vec_capacity processors.new ≡ vec_capacity processors.old }
{
    for (port, worker) in ports.into_iter().zip(workers) {
        processors.push_reserved(Processor::join(port, worker));
    }
}

/// Drains the mail of processors: every letter under way is moved to the processor that it goes to,
/// which handles it first. Returns whether no letter was under way, and none in hand. No other
/// thread may be at work on the processors. They are of one fabric, in any order, and stay in that
/// order. Whatever the call returns, only what their ports keep has changed.
///
/// `Numbers`: they are not all processors of their fabric. `NoMemory`: memory was refused; some
/// letters may have moved, none is lost, and the call can be made again.
pub fn rest(alloc: Global, processors: &mut Vec<Processor<'_>>) -> Result<bool, RestFault>
    requires { AreOneFabric (map (λ p. p.port) processors.old.items) }
    ensures numbers { IsErrOf result RestFault.Numbers ↔
        (are_all (map (λ p. p.port) processors.old.items) ≡ false) }
    ensures unchanged { are_all (map (λ p. p.port) processors.old.items) ≡ false →
        processors.new ≡ processors.old }
    ensures same { AreAsBefore processors.old.items processors.new.items }
    ensures one { AreOneFabric (map (λ p. p.port) processors.new.items) }
    ensures capacity { vec_capacity processors.new ≡ vec_capacity processors.old }
    ensures whole { OnOk result (AreWhole (map (λ p. p.port) processors.new.items)) }
    ensures all { IfOk result (λ all. IsTrue all ↔ HaveHandledAll processors.new.items) }
{
    if !are_all(processors) {
        return Err(RestFault::Numbers);
    }
    // One processor has no way to itself, so nothing is under way.
    if processors.len() == 1 {
        return Ok(!any_in_hand(processors));
    }
    rest_several(alloc, processors)
}

// Drains the mail of all processors of a fabric. It is a call of its own: a lone processor is spared
// the room for letters.
#[inline(never)]
fn rest_several(alloc: Global, processors: &mut Vec<Processor<'_>>) -> Result<bool, RestFault>
    requires one { AreOneFabric (map (λ p. p.port) processors.old.items) }
    requires all { are_all (map (λ p. p.port) processors.old.items) ≡ true }
    ensures numbers { IsErrOf result RestFault.Numbers ↔
        (are_all (map (λ p. p.port) processors.old.items) ≡ false) }
    ensures same { AreAsBefore processors.old.items processors.new.items }
    ensures one { AreOneFabric (map (λ p. p.port) processors.new.items) }
    ensures capacity { vec_capacity processors.new ≡ vec_capacity processors.old }
    ensures whole { OnOk result (AreWhole (map (λ p. p.port) processors.new.items)) }
    ensures all { IfOk result (λ all. IsTrue all ↔ HaveHandledAll processors.new.items) }
{
    let mut ports = Vec::with_capacity(alloc, processors.len())?;
    let mut workers = Vec::with_capacity(alloc, processors.len())?;
    let room = Vec::with_capacity(alloc, processors.capacity())?;
    part(mem::replace(processors, room), &mut ports, &mut workers);
    let rested = rests::rest(alloc, ports.as_mut_slice());
    join(ports, workers, processors);
    Ok(all_is_handled(&rested?, processors))
}
