//! Whom the scripts of a machine may yet post to.
ghost use Rattle.std.specs.Prelude.{ℕ, ◌≡◌, ◌<◌, ◌≤◌, ◌||◌, true, false, IfOk, Some, length, map};
ghost use Rattle.std.specs.Prelude.{slice_get};
ghost use Rattle.std.specs.List.{list_any};
ghost use Rattle.l4_model.specs.Machine.{Instr as ModelInstr, most_instructions, most_processors};
ghost use Rattle.l4_model.specs.Machine.{place_of};
ghost use Rattle.l4_core_model.specs.Local.{declared};
ghost use Rattle.l4_core_model.specs.Runs.{IsMachine};
ghost use Rattle.l4_first.specs.First as first;
ghost use Rattle.l4_first.specs.First.{instruction_deletes, is_delete, may_ask, tag_asks};
ghost use Rattle.l4_persistent.specs.Inner.Posts.{Aim, aims_of, has_aim, is_at, is_deletable};
ghost use Rattle.l4_persistent.specs.Inner.Posts.{may_name, may_propagate, names};
ghost use Rattle.l4_script.specs.Inner.Scripts.{id_from_of, instr_of};
ghost use Rattle.l4_types.specs.StepView.{order_kind_of};
ghost use Rattle.l4_sets.specs.Inner.Sets.{has};
ghost use Rattle.l4_sets.specs.Inner.Aimed.{aimed_at, is_aimed, is_aimed_behind, AreAimed, IsBelow};
ghost use Rattle.l4_sets.specs.Inner.Aimed.{IsSettledAt};

use crate::processors::Processors;
use l4_script::instructions::{IdFrom, Instr};
use l4_script::machine::Machine;
use l4_thread::sends::is_id_of;
use l4_types::errors::NoMemory;
use l4_types::ids::{GlobalId, ThreadId};
use l4_types::steps::OrderKind;
use std::alloc::{AllocError, Global};
use std::marker::Model;

/// Whom an instruction, or one behind it, may send or give an order to.
#[derive(Clone, Copy)]
pub(crate) struct Aimed {
    /// Threads of these processors.
    pub(crate) at: Processors,
    /// Whomever the register `from` names.
    pub(crate) at_last: bool,
}

impl Aimed {
    // Nobody.
    fn nobody() -> Aimed
        ensures { (aim : Aim) → is_aimed result aim ≡ false }
    {
        Aimed {
            at: Processors::none(),
            at_last: false,
        }
    }

    // Everybody.
    fn everybody() -> Aimed
        ensures { (aim : Aim) → IsBelow aim → is_aimed result aim ≡ true }
    {
        Aimed {
            at: Processors::from(0),
            at_last: true,
        }
    }

    // Whether they are the same.
    fn is(self, other: Aimed) -> bool
        ensures { result ≡ true → self ≡ other }
    {
        self.at == other.at && self.at_last == other.at_last
    }

    // Whom either may.
    fn union(self, other: Aimed) -> Aimed
        ensures { (aim : Aim) → is_aimed result aim ≡ (is_aimed self aim || is_aimed other aim) }
    {
        Aimed {
            at: self.at.union(other.at),
            at_last: self.at_last || other.at_last,
        }
    }
}

/// Whom the scripts of a machine may yet post to.
#[derive(Drop)]
pub struct Aims<'m> {
    machine: &'m Machine,
    // Of each thread, from each place of its script on.
    scripts: Vec<Vec<Aimed>>,
    // Whether some script deletes each thread.
    deletable: Vec<bool>,
    // Whether some message may be propagated.
    may_propagate: bool,
}

impl<'m> Model for Aims<'m> {
    ghost use Rattle.std.specs.Prelude.{map};
    ghost use Rattle.l4_model.specs.Machine.{Machine as ModelMachine};
    ghost use Rattle.l4_sets.specs.Inner.Aimed.{AreKnown};

    ghost Value = { ModelMachine };

    ghost view = { λ a. a.machine.now };

    ghost invariant = { λ a. AreKnown a.machine.now (map (λ s. s.items) a.scripts.items)
        a.deletable.items a.may_propagate };
}

impl<'m> Aims<'m> {
    /// What the scripts of a machine say. It takes time for each thread and each instruction of all.
    ///
    /// `NoMemory`: memory was refused.
    pub fn new(alloc: Global, machine: &'m Machine) -> Result<Aims<'m>, NoMemory>
        ensures { IfOk result (λ aims. aims ≡ machine.now) }
    {
        let threads = machine.threads();
        let mut scripts = Vec::with_capacity(alloc, threads.len())?;
        let mut deletable = Vec::with_capacity(alloc, threads.len())?;
        for declared in threads {
            scripts.push(aims_of_script(alloc, machine, declared.script())?)?;
            deletable.push(is_deletable(machine, declared.id()))?;
        }
        Ok(Aims {
            machine,
            scripts,
            deletable,
            may_propagate: may_propagate(machine),
        })
    }

    /// The machine.
    pub fn machine(&self) -> &'m Machine
        ensures { result.now ≡ self.now }
    {
        self.machine
    }

    /// The number of processors, 1 to 16.
    pub fn cpus(&self) -> u8
        ensures value { result ≡ self.now.cpus }
        ensures some { 1 ≤ result }
        ensures limit { result ≤ most_processors }
        ensures lawful { IsMachine self.now }
    {
        self.machine.cpus()
    }

    /// Gives the prover what always holds of it; no code.
    #[inline(always)]
    pub fn facts(&self)
        ensures some { 1 ≤ self.now.cpus }
        ensures limit { self.now.cpus ≤ most_processors }
        ensures lawful { IsMachine self.now }
    {
        self.machine.facts();
    }

    // Whom a thread may send or give an order to from a place of its script on.
    pub(crate) fn from(&self, thread: usize, place: usize) -> Aimed
        ensures known { (aim : Aim) → IsBelow aim → aims_of self.now thread place aim ≡ true →
            is_aimed result aim ≡ true }
        ensures short { (k : ℕ) (aim : Aim) → aims_of self.now thread k aim ≡ true →
            k < most_instructions }
    {
        if thread < self.scripts.len() {
            aimed_at(&self.scripts[thread], place)
        } else {
            Aimed::nobody()
        }
    }

    // Whether some script deletes a thread.
    pub(crate) fn is_deletable(&self, thread: usize) -> bool
        requires { thread < length self.now.threads }
        ensures { result ≡ is_deletable self.now (declared self.now thread).id }
    {
        self.deletable[thread]
    }

    // Whether some message may be propagated.
    pub(crate) fn may_propagate(&self) -> bool
        ensures { result ≡ may_propagate self.now }
    {
        self.may_propagate
    }
}

/// The processor of a declared thread.
pub(crate) fn home_of(machine: &Machine, id: GlobalId) -> Processors
    ensures { (cpu : ℕ) → has result cpu ≡ is_at machine.now cpu (place_of machine.now id) }
{
    machine.facts();
    match machine.place_of(id) {
        Some(place) => Processors::one(machine.threads()[place].cpu()),
        None => Processors::none(),
    }
}

/// The processor of the thread that an id names.
pub(crate) fn named_home(machine: &Machine, id: ThreadId) -> Processors
    ensures { (cpu : ℕ) → has result cpu ≡ names machine.now cpu id }
{
    match id.as_global() {
        Some(global) => home_of(machine, global),
        None => Processors::none(),
    }
}

// Whom an instruction itself sends or gives an order to.
fn own_aim(machine: &Machine, instr: &Instr) -> Aimed
    ensures { (aim : Aim) → IsBelow aim →
        is_aimed result aim ≡ has_aim machine.now (instr_of instr.now) aim }
{
    match *instr {
        Instr::Ipc(ipc) => aim_of(machine, ipc.to()),
        Instr::Order(target, _) => aim_of(machine, target),
        _ => Aimed::nobody(),
    }
}

// Whom an instruction may name: by a register it may be any thread.
fn aim_of(machine: &Machine, from: IdFrom) -> Aimed
    ensures { (aim : Aim) → IsBelow aim →
        is_aimed result aim ≡ may_name machine.now (id_from_of from) aim }
{
    match from {
        IdFrom::Fixed(id) => Aimed {
            at: named_home(machine, id),
            at_last: false,
        },
        IdFrom::Last => Aimed {
            at: Processors::none(),
            at_last: true,
        },
        IdFrom::InRegister(_, _) => Aimed {
            at: Processors::from(0),
            at_last: false,
        },
    }
}

// What is known of a place so far. Past the end of a script there is nothing.
fn aimed_at(aims: &[Aimed], place: usize) -> Aimed
    ensures { (aim : Aim) → is_aimed result aim ≡ is_aimed (aimed_at aims.now place) aim }
{
    if place < aims.len() {
        aims[place]
    } else {
        Aimed::nobody()
    }
}

// What is known of the places behind an instruction so far.
fn aims_behind(aims: &[Aimed], instr: &Instr, place: usize) -> Aimed
    requires { place < most_instructions }
    ensures { (aim : Aim) →
        is_aimed result aim ≡ is_aimed_behind aims.now (instr_of instr.now) place aim }
{
    match *instr {
        Instr::Jump(target) => aimed_at(aims, target as usize),
        Instr::OnErr(target)
        | Instr::OnLabel(_, target)
        | Instr::OnWord(_, _, target)
        | Instr::OnFrom(_, target) => {
            aimed_at(aims, place + 1).union(aimed_at(aims, target as usize))
        }
        Instr::End => aimed_at(aims, place),
        _ => aimed_at(aims, place + 1),
    }
}

// What is to be known of a place, by its instruction and by the places behind it.
fn aim_due(machine: &Machine, script: &[Instr], aims: &[Aimed], place: usize) -> Aimed
    requires place { place < length script.now }
    requires limit { length script.now ≤ most_instructions }
    requires each { length aims.now ≡ length script.now }
    ensures own { (i : ModelInstr) (aim : Aim) → IsBelow aim →
        slice_get (map instr_of script.now) place ≡ Some i →
        has_aim machine.now i aim ≡ true → is_aimed result aim ≡ true }
    ensures behind { (i : ModelInstr) (aim : Aim) →
        slice_get (map instr_of script.now) place ≡ Some i →
        is_aimed_behind aims.now i place aim ≡ true → is_aimed result aim ≡ true }
{
    aims[place]
        .union(own_aim(machine, &script[place]))
        .union(aims_behind(aims, &script[place], place))
}

// Whether all that is to be known is known.
fn are_settled(machine: &Machine, script: &[Instr], aims: &[Aimed]) -> bool
    requires limit { length script.now ≤ most_instructions }
    requires each { length aims.now ≡ length script.now }
    ensures { result ≡ true →
        (k : ℕ) → k < length script.now → IsSettledAt machine.now (map instr_of script.now) aims.now k }
{
    for place in 0..script.len() {
        if !aim_due(machine, script, aims, place).is(aims[place]) {
            return false;
        }
    }
    true
}

// Goes through a script once, from its end.
fn settle(machine: &Machine, script: &[Instr], aims: &mut [Aimed])
    requires limit { length script.now ≤ most_instructions }
    requires each { length aims.old ≡ length script.now }
    ensures { length aims.new ≡ length script.now }
{
    let mut below = script.len();
    while below > 0 {
        below -= 1;
        aims[below] = aim_due(machine, script, aims, below);
    }
}

// Whom a script may send or give an order to, from each of its places on. A round without news
// settles it, and each other one has news of a place: of a processor, or of `last`.
fn aims_of_script(
    alloc: Global,
    machine: &Machine,
    script: &[Instr],
) -> Result<Vec<Aimed>, AllocError>
    requires { length script.now ≤ most_instructions }
    ensures { IfOk result (λ aims.
        AreAimed machine.now (map instr_of script.now) aims.items) }
{
    let mut aims = Vec::from_elem(alloc, Aimed::nobody(), script.len())?;
    for _ in 0..script.len() * MOST_AIMS {
        if are_settled(machine, script, &aims) {
            return Ok(aims);
        }
        settle(machine, script, &mut aims);
    }
    let all = Vec::from_elem(alloc, Aimed::everybody(), script.len())?;
    Ok(all)
}

// Sixteen processors, and `last`.
const MOST_AIMS: usize = 17;

fn is_delete(what: OrderKind) -> bool
    ensures { result ≡ is_delete (order_kind_of what) }
{
    match what {
        OrderKind::Delete => true,
        _ => false,
    }
}

// Whether an instruction may name the thread: `last` and a register may have any id.
fn may_be(id: GlobalId, from: IdFrom) -> bool
    ensures { result ≡ first.may_name id (id_from_of from) }
{
    match from {
        IdFrom::Fixed(named) => is_id_of(named, id),
        IdFrom::Last | IdFrom::InRegister(_, _) => true,
    }
}

fn deletes(id: GlobalId, instr: &Instr) -> bool
    ensures { result ≡ instruction_deletes id (instr_of instr.now) }
{
    match *instr {
        Instr::Order(target, what) => may_be(id, target) && is_delete(what),
        _ => false,
    }
}

fn script_deletes(id: GlobalId, script: &[Instr]) -> bool
    ensures { result ≡ list_any (instruction_deletes id) (map instr_of script.now) }
{
    for instr in script {
        if deletes(id, instr) {
            return true;
        }
    }
    false
}

// Whether some script deletes a thread.
fn is_deletable(machine: &Machine, id: GlobalId) -> bool
    ensures { result ≡ is_deletable machine.now id }
{
    let threads = machine.threads();
    for declared in threads {
        if script_deletes(id, declared.script()) {
            return true;
        }
    }
    false
}

// Whether an instruction writes a tag that asks for propagation.
fn tag_asks(instr: &Instr) -> bool
    ensures { result ≡ tag_asks (instr_of instr.now) }
{
    match *instr {
        Instr::Tag(tag) => (tag.raw() / 4096) % 2 == 1,
        _ => false,
    }
}

// Whether an instruction may make a tag that asks for propagation.
fn may_ask(instr: &Instr) -> bool
    ensures { result ≡ may_ask (instr_of instr.now) }
{
    match instr.assigned() {
        Some(register) => register.number() == 0,
        None => tag_asks(instr),
    }
}

fn script_asks(script: &[Instr]) -> bool
    ensures { result ≡ list_any may_ask (map instr_of script.now) }
{
    for instr in script {
        if may_ask(instr) {
            return true;
        }
    }
    false
}

// Whether some message may be propagated.
fn may_propagate(machine: &Machine) -> bool
    ensures { result ≡ may_propagate machine.now }
{
    let threads = machine.threads();
    for declared in threads {
        if script_asks(declared.script()) {
            return true;
        }
    }
    false
}
