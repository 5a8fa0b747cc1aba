// What a listener is told of a search for endings: that it is told early no contract says.

use l4_endings::{Looked, endings, endings_telling, entries_at};
use l4_explore::found::Found;
use l4_explore::listener::Listener;
use l4_explore::progress::{Progress, Unheard};
use l4_replay::Entry;
use l4_samples::ACROSS;
use l4_script::machine::Machine;
use std::alloc::{AllocError, Global};

// A send without time, and a receive. It comes to two endings: the send finds the other thread, or
// it is refused.
const UNTIMELY: &str = "l4 1 64
cpus 2
thread 1.1 cpu 0 space 1
ipc 2.1 nil zero never
thread 2.1 cpu 1 space 2
ipc nil any never never
";

// What was told of the endings of a machine, at most so many.
#[derive(Drop)]
struct Told<'m> {
    machine: &'m Machine,
    endings: Vec<Vec<Entry>>,
    most: usize,
}

impl<'m> Listener for Told<'m> {
    ghost use Rattle.l4_endings.specs.Told.{AreChoices};

    ghost may_hear = { λ told seen. AreChoices told.machine.now seen.schedule };

    ghost hears = { λ old new ends more. Unit {0} };

    fn told(&mut self, alloc: Global, found: &Found, place: usize) -> Result<bool, AllocError> {
        let Ok(entries) = entries_at(alloc, self.machine, found, place) else {
            return Err(AllocError);
        };
        self.endings.push(entries)?;
        Ok(self.endings.len() < self.most)
    }

    ghost silent = { λ x. tt };

    ghost joined = { λ a b c front back more before behind. tt };
}

// How many states a search has looked at.
#[derive(Clone, Copy)]
struct Count(usize);

impl Progress for Count {
    fn looked_at(&mut self, states: usize, _depth: usize) {
        self.0 = states;
    }

    fn ended(&mut self) {}
}

// What a search says of itself, what it told of at most so many endings, and at how many states it
// looked.
fn tell(
    alloc: Global,
    machine: &Machine,
    most: usize,
) -> Option<(Option<Looked>, Vec<Vec<Entry>>, usize)> {
    let mut told = Told {
        machine,
        endings: Vec::new(alloc),
        most,
    };
    let mut count = Count(0);
    let looked = endings_telling(alloc, machine, 1_000, 10_000, &mut count, &mut told).ok()?;
    Some((looked, told.endings, count.0))
}

#[test]
fn all_endings_are_told(rt: HostRuntime) {
    for (text, count) in [(ACROSS, 1), (UNTIMELY, 2)] {
        let machine = Machine::parse(rt.alloc(), text.as_bytes())
            .ok()
            .expect(&rt, "text");
        let listed = endings(rt.alloc(), &machine, 1_000, 10_000, &mut Unheard)
            .ok()
            .expect(&rt, "memory");
        let (looked, told, _) = tell(rt.alloc(), &machine, 100).expect(&rt, "memory");
        let looked = looked.expect(&rt, "the end");
        assert!(rt; listed.endings.len() == count && told == listed.endings);
        assert!(rt; looked.states == listed.states && looked.depth == listed.depth);
        assert!(rt; looked.is_whole && listed.is_whole);
    }
}

#[test]
fn a_listener_stops_a_search(rt: HostRuntime) {
    let machine = Machine::parse(rt.alloc(), UNTIMELY.as_bytes())
        .ok()
        .expect(&rt, "text");
    let (looked, told, states) = tell(rt.alloc(), &machine, 1).expect(&rt, "memory");
    let (_, all, whole) = tell(rt.alloc(), &machine, 100).expect(&rt, "memory");
    assert!(rt; looked.is_none() && told.len() == 1 && told.first() == all.first());
    assert!(rt; states < whole);
}
