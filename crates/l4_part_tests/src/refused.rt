// Calls to which memory may be refused. Each call is made, and made again if memory was refused.
// The refused call changes nothing; the second gives what the first would have given.
ghost use Rattle.std.specs.Prelude.{◌≡◌, map};
ghost use Rattle.l4_mail.specs.Ports.{AreOneFabric, place};

use crate::ports::{gives, send};
use crate::rows::{processor_of, push_answer};
use l4_core::processor::Core;
use l4_mail::fabric::fabric;
use l4_mail::ports::Port;
use l4_mail::rests::{RestFault, rest};
use l4_samples::{ACROSS, PING_TRACE, call_begins, call_ends};
use l4_script::machine::Machine;
use l4_script::text::{TextFault, TextFaultKind};
use l4_trace::fault::TraceFault;
use l4_trace::lines::write_event;
use l4_trace::reading::read_events;
use l4_types::errors::NoMemory;
use l4_types::letters::Letter;
use l4_types::steps::Step;
use std::process::Abort;
use std::test::Fail;

// A text of 40 threads on 16 processors, each with a script of 20 instructions.
fn long_text<R: AllocGlobal + Abort>(rt: &R) -> String {
    let script = "add 1 1\n".repeat(rt.alloc(), 20).expect(rt, "memory");
    let mut text = format!(in rt.alloc(); "l4 1 64\ncpus 16\n").expect(rt, "memory");
    for number in 0..40u32 {
        let cpu = number % 16;
        write!(text, "thread {number}.1 cpu {cpu} space 1\n{script}").expect(rt, "memory");
    }
    text
}

// The machine of a text, read again if memory was refused.
fn parsed(rt: &HostRuntime, text: &[u8]) -> Result<Machine, TextFault> {
    call_begins(rt, "parse");
    let read = Machine::parse(rt.alloc(), text);
    call_ends(rt);
    let kind = TextFaultKind::NoMemory;
    match read {
        Err(fault) if fault == TextFault { line: 0, kind } => Machine::parse(rt.alloc(), text),
        read => read,
    }
}

// Whether a machine has the threads of that text.
fn is_long(machine: &Machine) -> bool {
    for (place, thread) in machine.threads().iter().enumerate() {
        if thread.id().number() as usize != place || thread.script().len() != 20 {
            return false;
        }
    }
    machine.cpus() == 16 && machine.threads().len() == 40
}

#[test]
fn a_text_is_parsed(rt: HostRuntime) {
    let text = long_text(&rt);
    let machine = parsed(&rt, text.as_bytes()).expect(&rt, "a machine");
    assert!(rt; is_long(&machine));
}

// The second processor of a machine, made again if memory was refused.
fn made<'m>(rt: &HostRuntime, machine: &'m Machine) -> Option<Core<'m>> {
    call_begins(rt, "Core::new");
    let made = processor_of(rt.alloc(), machine, 1);
    call_ends(rt);
    match made {
        Some(core) => Some(core),
        None => processor_of(rt.alloc(), machine, 1),
    }
}

// The answers of a processor to two questions.
fn said<R: AllocGlobal + Abort>(rt: &R, core: &mut Core<'_>) -> String {
    let mut out = String::new(rt.alloc());
    push_answer(rt, &mut out, core, "turn");
    push_answer(rt, &mut out, core, "stands");
    out
}

// The one thread of the processor begins to wait.
#[test]
fn a_processor_is_made(rt: HostRuntime) {
    let machine = Machine::parse(rt.alloc(), ACROSS.as_bytes()).expect(&rt, "a machine");
    let mut core = made(&rt, &machine).expect(&rt, "a processor");
    let said = said(&rt, &mut core);
    assert!(rt; said.as_str() == "  at 1\n  wait 2.1\n  done 0 None\n");
}

// The steps of lines, read again if memory was refused.
fn steps_read(rt: &HostRuntime, lines: &[u8]) -> Result<Vec<Step>, TraceFault> {
    call_begins(rt, "read_events");
    let read = read_events(rt.alloc(), lines);
    call_ends(rt);
    match read {
        Err(TraceFault::NoMemory) => read_events(rt.alloc(), lines),
        read => read,
    }
}

// Whether the line of a step is appended, by a second call if memory was refused. The refused call
// appends nothing.
fn is_written<R: Print>(rt: &R, step: &Step, out: &mut Vec<u8>) -> bool {
    let before = out.len();
    call_begins(rt, "write_event");
    let written = write_event(step, out);
    call_ends(rt);
    written.is_ok() || (out.len() == before && write_event(step, out).is_ok())
}

// The lines of steps.
fn written<R: AllocGlobal + Abort + Print>(rt: &R, steps: &[Step]) -> Vec<u8> {
    let mut out = Vec::new(rt.alloc());
    for step in steps {
        assert!(rt; is_written(rt, step, &mut out));
    }
    out
}

#[test]
fn a_trace_is_read_and_written(rt: HostRuntime) {
    let lines = PING_TRACE.repeat(rt.alloc(), 3).expect(&rt, "memory");
    let steps = steps_read(&rt, lines.as_bytes()).expect(&rt, "steps");
    assert!(rt; steps.len() == 24);
    assert!(rt; written(&rt, steps.as_slice()).as_slice() == lines.as_bytes());
}

// The ports of four processors.
fn four_ports(rt: &HostRuntime) -> Result<Vec<Port>, NoMemory> {
    call_begins(rt, "fabric");
    let made = fabric(rt.alloc(), 4, 2);
    call_ends(rt);
    match made {
        Ok(ports) => Ok(ports),
        Err(NoMemory) => fabric(rt.alloc(), 4, 2),
    }
}

#[test]
fn a_fabric_is_made(rt: HostRuntime) {
    let mut ports = four_ports(&rt).expect(&rt, "ports");
    assert!(rt; ports.len() == 4 && send(&mut ports[3], 0, 5));
    ports[3].flush();
    assert!(rt; gives(&mut ports[0], 3, 5));
}

// Whether room for a letter is made, by a second call if memory was refused, and the letter is
// posted.
fn is_posted<R: Print>(rt: &R, poster: &mut Port, stamp: u64) -> bool {
    call_begins(rt, "reserve");
    let made = poster.reserve();
    call_ends(rt);
    let is_made = made.is_ok() || poster.reserve().is_ok();
    is_made && poster.has_room(1) && send(poster, 1, stamp)
}

// Twenty letters are posted, with room made for each.
fn post_twenty<R: Abort + Print>(rt: &R, poster: &mut Port) {
    for stamp in 0..20 {
        assert!(rt; is_posted(rt, poster, stamp));
    }
}

// Twenty letters come, in the order in which they were posted, and no other.
fn take_twenty<R: Abort>(rt: &R, poster: &mut Port, receiver: &mut Port) {
    for stamp in 0..20 {
        poster.flush();
        assert!(rt; gives(receiver, 0, stamp));
    }
    assert!(rt; receiver.take().is_none());
}

// What was posted before is still there.
#[test]
fn room_for_letters_is_made(rt: HostRuntime) {
    let mut ports = fabric(rt.alloc(), 2, 1).expect(&rt, "memory");
    let mut receiver = ports.pop().expect(&rt, "a port");
    let mut poster = ports.pop().expect(&rt, "a port");
    post_twenty(&rt, &mut poster);
    take_twenty(&rt, &mut poster, &mut receiver);
}

// What is under way between ports, looked for again if memory was refused.
fn rests<R: AllocGlobal + Abort + Print>(
    rt: &R,
    ports: &mut Vec<Port>,
) -> Result<Vec<(u8, u8, Vec<Letter>)>, RestFault>
    requires { AreOneFabric ports.old.items }
{
    call_begins(rt, "rest (ports)");
    let listed = rest(rt.alloc(), ports.as_mut_slice());
    call_ends(rt);
    match listed {
        Ok(list) => Ok(list),
        Err(fault) => {
            assert!(rt; fault == RestFault::NoMemory);
            rest(rt.alloc(), ports.as_mut_slice())
        }
    }
}

// Posts two letters: one gets into the ring, the other stays in the outbox.
fn send_two(port: &mut Port) -> bool
    ensures { place port.new ≡ place port.old }
{
    let sent = send(port, 0, 5) && send(port, 0, 6);
    port.flush();
    sent
}

// Whether, of the pairs of three processors, the one from 2 to 0 has two letters, and the next one
// none.
fn are_on_one_way(list: &[(u8, u8, Vec<Letter>)]) -> bool {
    if list.len() != 6 || list[4].2.len() != 2 {
        return false;
    }
    let (poster, receiver, letters) = &list[4];
    let stamps = [letters[0].stamp(), letters[1].stamp()];
    *poster == 2 && *receiver == 0 && stamps == [5, 6] && list[5].2.is_empty()
}

// Whether a port gives two letters, and no other.
fn gives_two(port: &mut Port) -> bool {
    gives(port, 2, 5) && gives(port, 2, 6) && port.take().is_none()
}

#[test]
fn ports_come_to_rest(rt: HostRuntime) -> Result<(), Fail> {
    let mut ports = fabric(rt.alloc(), 3, 1)?;
    assert!(rt; send_two(&mut ports[2]));
    let list = rests(&rt, &mut ports)?;
    assert!(rt; are_on_one_way(list.as_slice()) && ports.len() == 3);
    let port = ports.get_mut(0).ok_or("a port")?;
    assert!(rt; gives_two(port));
    Ok(())
}
