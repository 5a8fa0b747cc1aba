//! What scripts may ask that touches a thread.
ghost use Rattle.std.specs.Prelude.{◌≡◌, map};
ghost use Rattle.std.specs.List.{list_any};
ghost use Rattle.l4_model.specs.Conditions.{is_zero};
ghost use Rattle.l4_model.specs.Words.{is_id_of};
ghost use Rattle.l4_types.specs.Inner.PeriodView.{period_of};
ghost use Rattle.l4_types.specs.StepView.{order_kind_of};
ghost use Rattle.l4_script.specs.Inner.Scripts.{id_from_of, instr_of};
ghost use Rattle.l4_first.specs.First.{is_delete, instruction_deletes, instruction_concerns};
ghost use Rattle.l4_first.specs.First.{instruction_tries, tag_asks, may_ask, may_name, may_turn};
ghost use Rattle.l4_first.specs.First.{is_among_others};
ghost use Rattle.l4_outlooks.specs.Inner.Touches.{touches, script_asks};

use l4_script::instructions::{IdFrom, Instr};
use l4_script::machine::Machine;
use l4_types::ids::{GlobalId, ThreadId};
use l4_types::steps::OrderKind;
use l4_types::times::Period;

/// What an instruction of another thread may do to a thread.
#[derive(Clone, Copy)]
pub(crate) enum Touch {
    /// It deletes the thread.
    Deletion,
    /// It orders the thread, or deletes it.
    Order,
    /// It sends to the thread with time zero.
    Trial,
}

// Whether an id is that of this thread alone.
fn is_id_of(id: ThreadId, thread: GlobalId) -> bool
    ensures { result ≡ is_id_of id thread }
{
    match id.as_global() {
        Some(global) => global == thread,
        None => false,
    }
}

fn is_delete(what: OrderKind) -> bool
    ensures { result ≡ is_delete (order_kind_of what) }
{
    match what {
        OrderKind::Delete => true,
        _ => false,
    }
}

// Whether an instruction may name the thread: `last` and a register may have any id.
fn may_name(id: GlobalId, from: IdFrom) -> bool
    ensures { result ≡ may_name id (id_from_of from) }
{
    match from {
        IdFrom::Fixed(named) => is_id_of(named, id),
        IdFrom::Last | IdFrom::InRegister(_, _) => true,
    }
}

fn deletes(id: GlobalId, instr: &Instr) -> bool
    ensures { result ≡ instruction_deletes id (instr_of instr.now) }
{
    match *instr {
        Instr::Order(target, what) => may_name(id, target) && is_delete(what),
        _ => false,
    }
}

fn orders(id: GlobalId, instr: &Instr) -> bool
    ensures { result ≡ instruction_concerns id (instr_of instr.now) }
{
    match *instr {
        Instr::Order(target, _) => may_name(id, target),
        _ => false,
    }
}

// Whether a period is of no ticks.
fn is_zero(period: Period) -> bool
    ensures { result ≡ is_zero (period_of period) }
{
    matches!(period, Period::Zero | Period::Ticks(0))
}

fn tries(id: GlobalId, instr: &Instr) -> bool
    ensures { result ≡ instruction_tries id (instr_of instr.now) }
{
    match *instr {
        Instr::Ipc(ipc) => is_zero(ipc.send_period()) && may_name(id, ipc.to()),
        _ => false,
    }
}

fn touches(touch: Touch, id: GlobalId, instr: &Instr) -> bool
    ensures { result ≡ touches touch id (instr_of instr.now) }
{
    match touch {
        Touch::Deletion => deletes(id, instr),
        Touch::Order => orders(id, instr),
        Touch::Trial => tries(id, instr),
    }
}

fn script_touches(touch: Touch, id: GlobalId, script: &[Instr]) -> bool
    ensures { result ≡ list_any (touches touch id) (map instr_of script.now) }
{
    for instr in script {
        if touches(touch, id, instr) {
            return true;
        }
    }
    false
}

/// Whether some script of another thread does this to a thread.
pub(crate) fn is_touched(machine: &Machine, touch: Touch, id: GlobalId) -> bool
    ensures { result ≡ is_among_others machine.now id (touches touch id) }
{
    let threads = machine.threads();
    for declared in threads {
        if declared.id() != id && script_touches(touch, id, declared.script()) {
            return true;
        }
    }
    false
}

// Whether an instruction writes a tag that asks for propagation.
fn tag_asks(instr: &Instr) -> bool
    ensures { result ≡ tag_asks (instr_of instr.now) }
{
    match *instr {
        Instr::Tag(tag) => (tag.raw() / 4096) % 2 == 1,
        _ => false,
    }
}

// Whether an instruction may make a tag that asks for propagation.
fn may_ask(instr: &Instr) -> bool
    ensures { result ≡ may_ask (instr_of instr.now) }
{
    match instr.assigned() {
        Some(register) => register.number() == 0,
        None => tag_asks(instr),
    }
}

fn script_asks(script: &[Instr]) -> bool
    ensures { result ≡ list_any may_ask (map instr_of script.now) }
{
    for instr in script {
        if may_ask(instr) {
            return true;
        }
    }
    false
}

/// Whether a retarget may ever be owed.
pub(crate) fn may_turn(machine: &Machine) -> bool
    ensures { result ≡ may_turn machine.now }
{
    machine.retargets() && some_script_asks(machine)
}

fn some_script_asks(machine: &Machine) -> bool
    ensures { result ≡ list_any script_asks machine.now.threads }
{
    let threads = machine.threads();
    for declared in threads {
        if script_asks(declared.script()) {
            return true;
        }
    }
    false
}
