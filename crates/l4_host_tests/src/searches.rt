// What a listener hears of a search. How many states it looks at, and how deep these lie, was found
// by a second emulator, which was written from the rules (trials/endings.py).
use l4_endings::endings;
use l4_explore::progress::Progress;
use l4_samples::{ACROSS, CALLS};
use l4_script::machine::Machine;
use std::alloc::Global;

const STATES_OF_ACROSS: usize = 11;

const DEPTH_OF_ACROSS: usize = 8;

// To a depth of 12, since the machine goes on for ever.
const STATES_OF_CALLS: usize = 21;

// What a listener has heard of a search.
#[derive(Clone, Copy, PartialEq, Eq, Debug)]
struct Heard {
    times: usize,
    // The last numbers.
    states: usize,
    depth: usize,
    // Whether a number was lower than the one before, or was heard after the end.
    has_fallen: bool,
    has_ended: bool,
}

impl Progress for Heard {
    fn looked_at(&mut self, states: usize, depth: usize) {
        if states < self.states || depth < self.depth || self.has_ended {
            self.has_fallen = true;
        }
        self.times = self.times.saturating_add(1);
        self.states = states;
        self.depth = depth;
    }

    fn ended(&mut self) {
        self.has_ended = true;
    }
}

// What is heard of a search for the endings of a machine text to this depth.
fn hear(alloc: Global, text: &str, depth: u32) -> Option<Heard> {
    let machine = Machine::parse(alloc, text.as_bytes()).ok()?;
    let mut heard = Heard {
        times: 0,
        states: 0,
        depth: 0,
        has_fallen: false,
        has_ended: false,
    };
    endings(alloc, &machine, depth, 10_000, &mut heard).ok()?;
    Some(heard)
}

// A whole search goes on from each state, and no state is deeper than the last one.
#[test]
fn a_listener_hears_of_each_state(rt: HostRuntime) {
    let heard = hear(rt.alloc(), ACROSS, 1_000);
    let wanted = Heard {
        times: STATES_OF_ACROSS,
        states: STATES_OF_ACROSS,
        depth: DEPTH_OF_ACROSS,
        has_fallen: false,
        has_ended: true,
    };
    assert!(rt; heard == Some(wanted));
}

// A search that is cut at a depth goes on from all states above that depth.
#[test]
fn a_listener_hears_rising_numbers(rt: HostRuntime) {
    let Some(heard) = hear(rt.alloc(), CALLS, 12) else {
        panic!(rt; "memory was refused");
    };
    assert!(rt; heard.states <= STATES_OF_CALLS && heard.depth == 11);
    assert!(rt; heard.has_ended && !heard.has_fallen);
}
