//! The lines that tell who waits for whom.
ghost use Rattle.std.specs.Prelude.{◌≡◌, ◌≤◌, ◌++◌, Some, codes, flat_map, length, map, take};
ghost use Rattle.std.specs.Prelude.{IfOk, OnOk, OnErr};
ghost use Rattle.std.specs.String.{string_bytes};
ghost use Rattle.l4_model.specs.History.{IsHistory, reached};
ghost use Rattle.l4_model.specs.World.{World};
ghost use Rattle.l4_types.specs.StepView.{step_of};
ghost use Rattle.l4_waits.specs.Circles.{circle_at};
ghost use Rattle.l4_waits.specs.Held.{held_sends};
ghost use Rattle.l4_waits.specs.Lines.{whom, how_word, wait_line, id_at, ids_at};
ghost use Rattle.l4_waits.specs.Lines.{circle_word, ids_line, circle_line, circle_lines};
ghost use Rattle.l4_waits.specs.Lines.{circles_text, held_line, held_lines, text_of, waits_text};
ghost use Rattle.l4_words.specs.Threads.{thread_word};

use crate::circles::{circle_at, nexts_of};
use crate::deadlocks::are_stuck;
use crate::held::held_sends;
use l4_audit::audit::{AuditFault, audited};
use l4_audit::auditor::Auditor;
use l4_audit::reasons::StepFault;
use l4_audit::waits::Wait;
use l4_history::history::History;
use l4_script::machine::Machine;
use l4_types::errors::NoMemory;
use l4_types::ids::{GlobalId, ThreadId};
use l4_types::steps::{Name, Step};
use l4_words::spelling::{push_id, push_name, push_thread};
use std::alloc::{AllocError, Global};

/// Appends who waits for whom at the end of an audit. A line for each thread that waits comes in
/// order of declaration. Then one for each circle comes in order of its first thread, and one for
/// each send of time zero that is held. If memory is refused, nothing is appended.
pub fn write_waits(alloc: Global, auditor: Auditor<'_>, out: &mut Vec<u8>) -> Result<(), NoMemory>
    ensures ok { OnOk result (out.new.items ≡ out.old.items ++
        waits_text auditor.entry.at.machine auditor.entry.at.world) }
    ensures err { OnErr result (out.new.items ≡ out.old.items) }
{
    let waits = auditor.waits(alloc)?;
    let held = held_sends(alloc, auditor.world())?;
    let steps = auditor.possible_late(alloc)?;
    let mut text = String::new(alloc);
    push_text(&mut text, waits.as_slice(), steps.as_slice())?;
    push_helds(&mut text, held.as_slice())?;
    out.extend_from_slice(text.as_bytes())?;
    Ok(())
}

/// Appends who waits for whom after the steps of a history, as `write_waits` does it.
pub fn write_waits_after(
    alloc: Global,
    machine: &Machine,
    history: &History,
    out: &mut Vec<u8>,
) -> Result<(), NoMemory>
    requires { IsHistory machine.now history.now.steps }
    ensures ok { OnOk result ((w : World) → reached machine.now history.now.steps ≡ Some w →
        out.new.items ≡ out.old.items ++ waits_text machine.now w) }
    ensures err { OnErr result (out.new.items ≡ out.old.items) }
{
    match audited(alloc, machine, history) {
        Ok(auditor) => write_waits(alloc, auditor, out),
        Err(AuditFault::NoMemory) => Err(NoMemory),
        Err(AuditFault::Refused { .. }) => unreachable!(),
    }
}

// The lines of the circles and of held sends at the end of an audit.
fn circles_of(alloc: Global, auditor: Auditor<'_>) -> Result<Vec<u8>, NoMemory>
    ensures { IfOk result (λ lines. lines.items ≡
        circles_text auditor.entry.at.machine auditor.entry.at.world) }
{
    let waits = auditor.waits(alloc)?;
    let sends = held_sends(alloc, auditor.world())?;
    let late = auditor.possible_late(alloc)?;
    let nexts = nexts_of(alloc, waits.as_slice())?;
    let mut text = String::new(alloc);
    push_circles(
        &mut text,
        waits.as_slice(),
        late.as_slice(),
        nexts.as_slice(),
    )?;
    push_helds(&mut text, sends.as_slice())?;
    Ok(text.into_bytes())
}

// The audit after the first `count` steps of a history.
fn audited_until<'m>(
    alloc: Global,
    machine: &'m Machine,
    history: &History,
    count: usize,
) -> Result<Auditor<'m>, NoMemory>
    requires within { count ≤ length history.now.steps }
    requires possible { IsHistory machine.now (take count history.now.steps) }
    ensures machine { IfOk result (λ auditor. auditor.at.machine ≡ machine.now) }
    ensures reached { IfOk result (λ auditor.
        reached machine.now (take count history.now.steps) ≡ Some auditor.at.world) }
{
    let mut auditor = Auditor::new(alloc, machine)?;
    for place in 0..count {
        let step = history.step(place);
        match auditor.step(&step) {
            Ok(()) => {}
            Err(StepFault::NoMemory) => return Err(NoMemory),
            Err(StepFault::Refused(_)) => unreachable!(),
        }
    }
    Ok(auditor)
}

/// The lines of the circles and of held sends after the first `count` steps of a history, as
/// `write_waits` has them.
///
/// `NoMemory`: memory was refused.
pub fn circles_after(
    alloc: Global,
    machine: &Machine,
    history: &History,
    count: usize,
) -> Result<Vec<u8>, NoMemory>
    requires within { count ≤ length history.now.steps }
    requires possible { IsHistory machine.now (take count history.now.steps) }
    ensures { IfOk result (λ lines. (w : World) →
        reached machine.now (take count history.now.steps) ≡ Some w →
        lines.items ≡ circles_text machine.now w) }
{
    let auditor = audited_until(alloc, machine, history, count)?;
    circles_of(alloc, auditor)
}

fn push_text(text: &mut String, waits: &[(GlobalId, Wait)], steps: &[Step]) -> Result<(), NoMemory>
    ensures { OnOk result (string_bytes text.new ≡ string_bytes text.old ++
        text_of waits.now (map step_of steps.now)) }
{
    push_waits(text, waits)?;
    let nexts = nexts_of(*text.allocator(), waits)?;
    push_circles(text, waits, steps, nexts.as_slice())
}

fn push_waits(text: &mut String, waits: &[(GlobalId, Wait)]) -> Result<(), AllocError>
    ensures { OnOk result (string_bytes text.new ≡
        string_bytes text.old ++ flat_map wait_line waits.now) }
{
    for (id, wait) in waits {
        push_wait(text, *id, wait)?;
    }
    Ok(())
}

#[tactic(auto, using(crate::proofs::Joined::wait_line_joined))]
fn push_wait(text: &mut String, id: GlobalId, wait: &Wait) -> Result<(), AllocError>
    ensures { OnOk result (string_bytes text.new ≡
        string_bytes text.old ++ wait_line (id, wait.now)) }
{
    text.push_str("waits")?;
    push_thread(text, id)?;
    push_id(text, whom(wait))?;
    text.push(' ')?;
    text.push_str(how(wait))?;
    text.push('\n')?;
    Ok(())
}

fn whom(wait: &Wait) -> ThreadId
    ensures { result ≡ whom wait.now }
{
    match wait {
        Wait::Send(to) | Wait::Arrival(to) => *to,
        Wait::Receive(from) => *from,
    }
}

fn how(wait: &Wait) -> &'static str
    ensures { result.now ≡ how_word wait.now }
{
    match wait {
        Wait::Send(_) | Wait::Arrival(_) => "send",
        Wait::Receive(_) => "receive",
    }
}

fn push_circles(
    text: &mut String,
    waits: &[(GlobalId, Wait)],
    steps: &[Step],
    nexts: &[Option<usize>],
) -> Result<(), NoMemory>
    ensures { OnOk result (string_bytes text.new ≡ string_bytes text.old ++
        circle_lines waits.now (map step_of steps.now) nexts.now) }
{
    for first in 0..nexts.len() {
        push_circle_at(text, waits, steps, nexts, first)?;
    }
    Ok(())
}

// Appends the line of the circle that begins with this place, where there is one.
fn push_circle_at(
    text: &mut String,
    waits: &[(GlobalId, Wait)],
    steps: &[Step],
    nexts: &[Option<usize>],
    first: usize,
) -> Result<(), NoMemory>
    ensures { OnOk result (string_bytes text.new ≡ string_bytes text.old ++
        circle_line waits.now (map step_of steps.now) (circle_at nexts.now first)) }
{
    let alloc = *text.allocator();
    if let Some(circle) = circle_at(alloc, nexts, first)? {
        let ids = ids_at(alloc, waits, circle.as_slice())?;
        push_circle(text, steps, ids.as_slice())?;
    }
    Ok(())
}

// The threads at these places among those that wait.
fn ids_at(
    alloc: Global,
    waits: &[(GlobalId, Wait)],
    places: &[usize],
) -> Result<Vec<GlobalId>, NoMemory>
    ensures { IfOk result (λ ids. ids.items ≡ ids_at waits.now places.now) }
{
    let mut ids = Vec::with_capacity(alloc, places.len())?;
    for place in places {
        ids.push(id_at(waits, *place))?;
    }
    Ok(ids)
}

fn id_at(waits: &[(GlobalId, Wait)], place: usize) -> GlobalId
    ensures { result ≡ id_at waits.now place }
{
    match waits.get(place) {
        Some((id, _)) => *id,
        None => GlobalId::default(),
    }
}

#[tactic(auto, using(crate::proofs::Joined::ids_line_joined))]
fn push_circle(text: &mut String, steps: &[Step], ids: &[GlobalId]) -> Result<(), AllocError>
    ensures { OnOk result (string_bytes text.new ≡ string_bytes text.old ++
        ids_line (map step_of steps.now) ids.now) }
{
    text.push_str(circle_word(are_stuck(steps, ids)))?;
    push_threads(text, ids)?;
    text.push('\n')?;
    Ok(())
}

fn push_helds(text: &mut String, sends: &[Name]) -> Result<(), AllocError>
    ensures { OnOk result (string_bytes text.new ≡ string_bytes text.old ++ held_lines sends.now) }
{
    for send in sends {
        push_held(text, *send)?;
    }
    Ok(())
}

#[tactic(auto, using(crate::proofs::Joined::held_line_joined))]
fn push_held(text: &mut String, send: Name) -> Result<(), AllocError>
    ensures { OnOk result (string_bytes text.new ≡ string_bytes text.old ++ held_line send) }
{
    text.push_str("held")?;
    push_name(text, send)?;
    text.push('\n')?;
    Ok(())
}

fn circle_word(stuck: bool) -> &'static str
    ensures { result.now ≡ circle_word stuck }
{
    if stuck { "deadlock" } else { "circle" }
}

fn push_threads(text: &mut String, ids: &[GlobalId]) -> Result<(), AllocError>
    ensures { OnOk result (string_bytes text.new ≡ string_bytes text.old ++
        flat_map (λ id. codes " " ++ thread_word id) ids.now) }
{
    for id in ids {
        push_thread(text, *id)?;
    }
    Ok(())
}
