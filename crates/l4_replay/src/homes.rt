//! The reports of threads and their last sends, as their own processors have them.
ghost use Rattle.std.specs.Prelude.{◌≡◌, ◌<◌, IfOk, IsTrue, Some, length, map, slice_get};
ghost use Rattle.std.specs.List.{AllByRecursion};
ghost use Rattle.l4_model.specs.Effects.{obeyed};
ghost use Rattle.l4_model.specs.History.{report_of};
ghost use Rattle.l4_model.specs.World.{Thread as ThreadOfModel};
ghost use Rattle.l4_core_model.specs.Local.{after_decision, declared, thread};
ghost use Rattle.l4_core_model.specs.Mail.{own_place};
ghost use Rattle.l4_types.specs.Inner.LetterView.{decision_of};
ghost use Rattle.l4_types.specs.ReportView.{report_of_view};
ghost use Rattle.l4_refines.specs.Laws.{IsUndeleted, home_reports};
ghost use Rattle.l4_replay.specs.Inner.Homes.{locals_of, sent_at_home, AreAllOf, IsAtHome};
ghost use Rattle.l4_replay.specs.Inner.Heard.{hears, hears_all, with_thread, HasPlaces};
ghost use Rattle.l4_replay.specs.Inner.Heard.{HaveRegisters, Hears};

use crate::letter_queue::Letters;
use l4_core::processor::Core;
use l4_script::machine::Machine;
use l4_thread::changes::Change;
use l4_types::errors::NoMemory;
use l4_types::ids::{GlobalId, ThreadId};
use l4_types::letter_ref::LetterRef;
use l4_types::letters::{Content, Decision};
use l4_types::reports::{State, ThreadView};
use std::alloc::Global;

/// The last send that a thread began: its number, and its destination while it is undecided.
#[derive(Clone, Copy)]
pub struct LastSend {
    pub(crate) k: u64,
    pub(crate) to: Option<ThreadId>,
}

/// The reports of a machine's threads, in order of declaration, and their last sends, as their own
/// processors have them.
#[derive(Drop)]
pub struct OwnerView {
    pub threads: Vec<ThreadView>,
    pub(crate) sends: Vec<LastSend>,
}

impl OwnerView {
    /// The threads and their last sends on these processors, which are all of the machine, in the
    /// order of their numbers.
    pub fn new(alloc: Global, machine: &Machine, cores: &[&Core<'_>]) -> Result<OwnerView, NoMemory>
        requires { AreAllOf machine.now (map (λ c. c.now) cores.now) }
        ensures { IfOk result (IsAtHome machine.now (locals_of (map (λ c. c.now) cores.now))) }
    {
        Ok(OwnerView {
            threads: threads(alloc, machine, cores)?,
            sends: last_sends(alloc, machine, cores)?,
        })
    }

    /// Hears these letters, which are under way to a processor: the threads that they answer are
    /// then as that processor will have them once it has handled the letters. Of two answers to one
    /// thread the last counts; in a core run there is one at most.
    pub fn hear(&mut self, machine: &Machine, core: &Core<'_>, letters: Letters<'_>)
        requires machine { core.now.machine ≡ machine.now }
        requires places { HasPlaces machine.now self.old }
        ensures places { HasPlaces machine.now self.new }
        ensures heard { Hears machine.now (hears_all core.now letters.entry) self.old self.new }
    {
        for letter in letters {
            self.hear_one(machine, core, &letter);
        }
    }

    // Hears a letter.
    fn hear_one(&mut self, machine: &Machine, core: &Core<'_>, letter: &LetterRef<'_>)
        requires machine { core.now.machine ≡ machine.now }
        requires places { HasPlaces machine.now self.old }
        ensures places { HasPlaces machine.now self.new }
        ensures heard { Hears machine.now (hears core.now letter.now) self.old self.new }
    {
        let (head, _) = letter.parts();
        match &head.content {
            Content::Done { name, decision } => {
                if let Some(place) = own_place(machine, core, name.thread()) {
                    self.end_send(machine, core, place, *decision);
                }
            }
            Content::OrderDone(caller) => {
                if let Some(place) = own_place(machine, core, *caller) {
                    self.end_order(machine, core, place);
                }
            }
            _ => {}
        }
    }

    // The send of the thread at this place is decided.
    fn end_send(&mut self, machine: &Machine, core: &Core<'_>, place: usize, decision: Decision)
        requires machine { core.now.machine ≡ machine.now }
        requires place { place < length machine.now.threads }
        requires places { HasPlaces machine.now self.old }
        ensures places { HasPlaces machine.now self.new }
        ensures heard { Hears machine.now (with_thread place
            (after_decision (decision_of decision) core.now.local.clock
            (thread core.now.local place))) self.old self.new }
    {
        let mut block = core.block(place).duplicate();
        block.change(&Change::EndSend(decision), core.clock());
        self.threads[place] = block.view();
        self.sends[place] = LastSend {
            k: core.begun(place),
            to: None,
        };
    }

    // The order of the thread at this place is done.
    fn end_order(&mut self, machine: &Machine, core: &Core<'_>, place: usize)
        requires machine { core.now.machine ≡ machine.now }
        requires place { place < length machine.now.threads }
        requires places { HasPlaces machine.now self.old }
        ensures places { HasPlaces machine.now self.new }
        ensures heard { Hears machine.now (with_thread place
            (obeyed (thread core.now.local place))) self.old self.new }
    {
        self.threads[place] = after_order(core.view(place));
        self.sends[place] = LastSend {
            k: core.begun(place),
            to: core.destination(place),
        };
    }

    /// Whether the registers of these threads are those of the world: on several processors those
    /// of a deleted thread may be others.
    pub fn have_registers(&self, machine: &Machine) -> bool
        ensures { IsTrue result →
            HaveRegisters machine.now (map report_of_view self.now.threads.items) }
    {
        machine.cpus() == 1 || are_undeleted(self.threads.as_slice())
    }
}

// The processor of the thread at this place.
fn home<'a, 'm>(machine: &Machine, cores: &[&'a Core<'m>], place: usize) -> &'a Core<'m>
    requires cores { AreAllOf machine.now (map (λ c. c.now) cores.now) }
    requires place { place < length machine.now.threads }
    ensures core { slice_get (map (λ c. c.now) cores.now) (declared machine.now place).cpu ≡
        Some result.now }
    ensures machine { result.now.machine ≡ machine.now }
{
    let cpu = machine.threads()[place].cpu();
    cores[usize::from(cpu)]
}

// The reports of all threads.
fn threads(
    alloc: Global,
    machine: &Machine,
    cores: &[&Core<'_>],
) -> Result<Vec<ThreadView>, NoMemory>
    requires { AreAllOf machine.now (map (λ c. c.now) cores.now) }
    ensures { IfOk result (λ views.
        map report_of_view views.items ≡
        home_reports machine.now (locals_of (map (λ c. c.now) cores.now))) }
{
    let mut views = Vec::new(alloc);
    for place in 0..machine.threads().len() {
        views.push(home(machine, cores, place).view(place))?;
    }
    Ok(views)
}

// The last sends of all threads.
fn last_sends(
    alloc: Global,
    machine: &Machine,
    cores: &[&Core<'_>],
) -> Result<Vec<LastSend>, NoMemory>
    requires { AreAllOf machine.now (map (λ c. c.now) cores.now) }
    ensures { IfOk result (λ sends.
        sends.items ≡ sent_at_home machine.now (locals_of (map (λ c. c.now) cores.now))) }
{
    let mut sends = Vec::new(alloc);
    for place in 0..machine.threads().len() {
        let core = home(machine, cores, place);
        sends.push(LastSend {
            k: core.begun(place),
            to: core.destination(place),
        })?;
    }
    Ok(sends)
}

// The place of this thread, if it is one of this processor.
fn own_place(machine: &Machine, core: &Core<'_>, id: GlobalId) -> Option<usize>
    requires { core.now.machine ≡ machine.now }
    ensures { result ≡ own_place machine.now core.now.cpu id }
{
    let place = machine.place_of(id)?;
    if core.is_own(place) {
        Some(place)
    } else {
        None
    }
}

// What is told of a thread once its order is done. A deleted thread keeps its registers.
fn after_order(thread: ThreadView) -> ThreadView
    ensures { (t : ThreadOfModel) → report_of_view thread ≡ report_of thread.id t →
        report_of_view result ≡ report_of thread.id (obeyed t) }
{
    let mut thread = thread;
    if thread.state != State::Deleted {
        thread.state = State::Ready;
        thread.regs.error = 0;
    }
    thread
}

// Whether none of these threads is deleted.
fn are_undeleted(threads: &[ThreadView]) -> bool
    ensures { IsTrue result → AllByRecursion IsUndeleted (map report_of_view threads.now) }
{
    for thread in threads {
        if thread.state == State::Deleted {
            return false;
        }
    }
    true
}
