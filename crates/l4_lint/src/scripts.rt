//! What a script says of a place in it, and of the registers that its instructions write.
ghost use Rattle.std.specs.Prelude.{◌≡◌, Bool, MatchOption, map};
ghost use Rattle.std.specs.List.{list_any};
ghost use Rattle.l4_model.specs.Words.{word_of_tag};
ghost use Rattle.l4_model.specs.Machine.{instruction_at};
ghost use Rattle.l4_script.specs.Inner.Scripts.{instr_of};
ghost use Rattle.l4_lint.specs.Scripts.{carries, falls_through, is_cut, is_kept_low, is_led_to};
ghost use Rattle.l4_lint.specs.Scripts.{is_left_out, is_mute, is_sent, is_shorter, is_unheard};
ghost use Rattle.l4_lint.specs.Scripts.{is_unreached, leads_to, may_hear, next_tag, takes, uses};

use crate::ids::{hears_nobody, is_register, is_taken_from, may_receive};
use l4_script::instructions::Instr;
use l4_types::ids::GlobalId;
use l4_types::tags::MsgTag;

// The instruction at this place. Behind the last one that is an `end`.
fn instruction_at(script: &[Instr], place: usize) -> Instr
    ensures { instr_of result ≡ instruction_at (map instr_of script.now) place }
{
    match script.get(place) {
        Some(instruction) => *instruction,
        None => Instr::End,
    }
}

fn may_hear(instruction: &Instr) -> bool
    ensures { result ≡ may_hear (instr_of instruction.now) }
{
    match *instruction {
        Instr::Ipc(ipc) => may_receive(ipc.from()),
        _ => false,
    }
}

// Whether an instruction takes an id from this register.
fn takes(register: u64, instruction: &Instr) -> bool
    ensures { result ≡ takes register (instr_of instruction.now) }
{
    match *instruction {
        Instr::Vs(from) | Instr::Order(from, _) => is_taken_from(register, from),
        Instr::Ipc(ipc) => {
            is_taken_from(register, ipc.to()) || is_taken_from(register, ipc.from())
        }
        _ => false,
    }
}

// Whether a tag sends this register.
fn is_sent(register: u64, tag: MsgTag) -> bool
    ensures { result ≡ is_sent register (word_of_tag tag) }
{
    register <= tag.raw() % 64
}

// Whether an instruction is a tag that sends this register, copies or tests it, or takes an id from
// it.
fn carries(register: u64, instruction: &Instr) -> bool
    ensures { result ≡ carries register (instr_of instruction.now) }
{
    match *instruction {
        Instr::Tag(tag) => is_sent(register, tag),
        Instr::Copy(_, from) => is_register(register, from),
        Instr::OnWord(source, _, _) => is_register(register, source),
        _ => takes(register, instruction),
    }
}

// The same, or whether it may receive a tag that sends the register.
fn uses(register: u64, instruction: &Instr) -> bool
    ensures { result ≡ uses register (instr_of instruction.now) }
{
    match *instruction {
        Instr::Tag(tag) => is_sent(register, tag),
        Instr::Copy(_, from) => is_register(register, from),
        Instr::OnWord(source, _, _) => is_register(register, source),
        Instr::Vs(from) | Instr::Order(from, _) => is_taken_from(register, from),
        Instr::Ipc(ipc) => may_receive(ipc.from()) || is_taken_from(register, ipc.to()),
        _ => false,
    }
}

/// Whether an instruction of the script uses this register, or may send it.
pub(crate) fn is_used(register: u64, script: &[Instr]) -> bool
    ensures { result ≡ list_any (uses register) (map instr_of script.now) }
{
    for instruction in script {
        if uses(register, instruction) {
            return true;
        }
    }
    false
}

fn is_carried(register: u64, script: &[Instr]) -> bool
    ensures { result ≡ list_any (carries register) (map instr_of script.now) }
{
    for instruction in script {
        if carries(register, instruction) {
            return true;
        }
    }
    false
}

fn is_taken(register: u64, script: &[Instr]) -> bool
    ensures { result ≡ list_any (takes register) (map instr_of script.now) }
{
    for instruction in script {
        if takes(register, instruction) {
            return true;
        }
    }
    false
}

fn hears(script: &[Instr]) -> bool
    ensures { result ≡ list_any may_hear (map instr_of script.now) }
{
    for instruction in script {
        if may_hear(instruction) {
            return true;
        }
    }
    false
}

fn leads_to(place: usize, instruction: &Instr) -> bool
    ensures { result ≡ leads_to place (instr_of instruction.now) }
{
    match *instruction {
        Instr::Jump(target)
        | Instr::OnErr(target)
        | Instr::OnLabel(_, target)
        | Instr::OnWord(_, _, target)
        | Instr::OnFrom(_, target) => target == place as u64,
        _ => false,
    }
}

/// Whether a jump, an `onerr` or a branch of the script goes to this place.
pub(crate) fn is_led_to(script: &[Instr], place: usize) -> bool
    ensures { result ≡ is_led_to (map instr_of script.now) place }
{
    for instruction in script {
        if leads_to(place, instruction) {
            return true;
        }
    }
    false
}

fn falls_through(instruction: &Instr) -> bool
    ensures { result ≡ falls_through (instr_of instruction.now) }
{
    !matches!(*instruction, Instr::Jump(_) | Instr::End)
}

/// Whether nothing leads to this place: the instruction before goes elsewhere, and none goes here.
pub(crate) fn is_unreached(script: &[Instr], place: usize) -> bool
    ensures { result ≡ is_unreached (map instr_of script.now) place }
{
    place > 0 && !falls_through(&instruction_at(script, place - 1)) && !is_led_to(script, place)
}

// Whether nothing has been received behind this instruction. None where it is as it was before.
fn is_mute(own: GlobalId, instruction: &Instr) -> Option<bool>
    ensures { MatchOption result
        ((before : Bool) → is_mute own (instr_of instruction.now) before ≡ before)
        (λ mute. (before : Bool) → is_mute own (instr_of instruction.now) before ≡ mute) }
{
    match *instruction {
        Instr::Ipc(ipc) => Some(hears_nobody(own, ipc.from())),
        Instr::Jump(_) | Instr::End => Some(false),
        _ => None,
    }
}

/// Whether nothing has been received at this place: the only way there is from the start of the
/// script, or from an ipc that receives nothing.
pub(crate) fn is_unheard(own: GlobalId, script: &[Instr], place: usize) -> bool
    ensures { result ≡ is_unheard own (map instr_of script.now) place }
{
    let mut at = place;
    'back: while at > 0 {
        if is_led_to(script, at) {
            return false;
        }
        if let Some(is_mute) = is_mute(own, &instruction_at(script, at - 1)) {
            return is_mute;
        }
        at -= 1;
    }
    !is_led_to(script, 0)
}

// The tag that comes first, behind nothing but registers that are written.
fn next_tag(script: &[Instr]) -> Option<u64>
    ensures { result ≡ next_tag (map instr_of script.now) }
{
    for instruction in script {
        if let Instr::Tag(tag) = *instruction {
            return Some(tag.raw());
        }
        instruction.assigned()?;
    }
    None
}

fn is_shorter(register: u64, tag: Option<u64>) -> bool
    ensures { result ≡ is_shorter register tag }
{
    match tag {
        Some(word) => word % 64 < register,
        None => false,
    }
}

fn is_cut(register: u64, script: &[Instr], place: usize) -> bool
    ensures { result ≡ is_cut register (map instr_of script.now) place }
{
    place < script.len() && is_shorter(register, next_tag(&script[place + 1..]))
}

/// Whether the next tag behind this place leaves the register out, and nothing in the script but
/// what is received may have it sent, or uses it.
pub(crate) fn is_left_out(register: u64, script: &[Instr], place: usize) -> bool
    ensures { result ≡ is_left_out register (map instr_of script.now) place }
{
    is_used(register, script) && !is_carried(register, script) && is_cut(register, script, place)
}

/// Whether a message may overwrite this register below 32, from which the script takes an id.
pub(crate) fn is_kept_low(register: u64, script: &[Instr]) -> bool
    ensures { result ≡ is_kept_low register (map instr_of script.now) }
{
    register < 32 && is_taken(register, script) && hears(script)
}
