// Processors that take turns in an order that nobody planned, with each room of their rings from 1
// to 64. Whatever room there is, their steps are a history of the machine.
ghost use Rattle.std.specs.Prelude.{◌<◌, ◌≤◌, IfSome};
ghost use Rattle.l4_machine.specs.Gathers.{AreOfOne};
ghost use Rattle.l4_mail.specs.Inner.Fabrics.{most_room};

use crate::gates::busy_text;
use crate::gathers::gathered_again;
use crate::processors::{processors_of, work};
use crate::runs::{machine_of, passes};
use l4_proc::processor::Processor;
use l4_script::machine::Machine;

// How often a processor is asked to take turns, and how many at most each time.
const CALLS: u64 = 400;

const MOST_TURNS: u64 = 8;

// The next pseudo-random number (xorshift).
fn next(number: u64) -> u64 {
    let number = number ^ (number << 13);
    let number = number ^ (number >> 7);
    number ^ (number << 17)
}

// The processors of a machine with rings of this room, which have taken turns in an order that the
// room sets.
fn mixed<'m, R: AllocGlobal>(
    rt: &R,
    machine: &'m Machine,
    room: usize,
) -> Option<Vec<Processor<'m>>>
    requires { (0 < room) × (room ≤ most_room) }
    ensures { IfSome result (λ processors. AreOfOne machine.now processors.items) }
{
    let mut processors = processors_of(rt.alloc(), machine, room)?;
    let mut number = room as u64;
    for _ in 0..CALLS {
        number = next(number);
        let cpu = (number >> 32) as usize % 16;
        if cpu >= processors.len() {
            return None;
        }
        work(&mut processors[cpu], number % MOST_TURNS + 1);
    }
    Some(processors)
}

// Whether the steps of processors with rings of this room are a history.
fn come_to_a_history<R: AllocGlobal + Print>(rt: &R, machine: &Machine, room: usize) -> Option<bool>
    requires { (0 < room) × (room ≤ most_room) }
{
    let processors = mixed(rt, machine, room)?;
    let outcome = gathered_again(rt, machine, processors)?;
    Some(passes(rt.alloc(), machine, &outcome) && outcome.turns > CALLS)
}

#[test]
fn processors_come_to_a_history_whatever_room_their_rings_have(rt: HostRuntime) {
    let text = busy_text(rt.alloc()).expect(&rt, "a text");
    let machine = machine_of(rt.alloc(), text.as_str()).expect(&rt, "a machine");
    for room in 1..65 {
        assert!(rt;
            come_to_a_history(&rt, &machine, room) == Some(true),
            "{room}"
        );
    }
}
