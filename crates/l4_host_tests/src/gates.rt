// Runs of 16 processors under gates that hold some of them back, as the host by itself would hardly
// do. Whatever a gate does, the run comes to its end, and its history is one of the machine. A gate
// holds nobody for ever: after a number of looks it lets go.
use crate::runs::comes_to;
use l4_proc::gate::Gate;
use std::alloc::{AllocError, Global};
use std::sync::atomic::{AtomicU64, Ordering};
use std::thread;
use std::thread::Threads;

const CPUS: u8 = 16;

// How many turns each processor has in the first round.
const SHARE: u64 = 100;

const TURNS: u64 = 1_600;

// Writes the three threads of a processor. One calls the server of the next processor, and one is a
// server. The third cancels what goes on two processors further, and calls the server there.
fn write_threads(text: &mut String, cpu: u8) -> Result<(), AllocError> {
    let cpu = u32::from(cpu);
    let next = 100 + (cpu + 1) % 16;
    let (other, server) = (1 + (cpu + 2) % 16, 100 + (cpu + 2) % 16);
    writeln!(
        text,
        "thread {}.1 cpu {cpu} space 1\nipc {next}.1 {next}.1 never never\nadd 1 1\njump 0",
        cpu + 1
    )?;
    writeln!(
        text,
        "thread {}.1 cpu {cpu} space 1\nipc nil any never never\nipc last any 7 never\njump 1",
        100 + cpu
    )?;
    writeln!(
        text,
        "thread {}.1 cpu {cpu} space 1\nexregs {other}.1 SR\nipc {server}.1 {server}.1 5 9",
        200 + cpu
    )?;
    writeln!(text, "exregs {server}.1 S\njump 0")
}

/// The text of a machine with these threads on each of 16 processors.
pub(crate) fn busy_text(alloc: Global) -> Result<String, AllocError> {
    let mut text = format!(in alloc; "l4 1 64\ncpus {CPUS}\n")?;
    for cpu in 0..CPUS {
        write_threads(&mut text, cpu)?;
    }
    Ok(text)
}

// Whether a run comes to its end under a gate, and its turns are used up.
fn is_lasting<R: AllocGlobal + Threads + Sync, G: Gate + Sync>(
    rt: &R,
    text: &str,
    gate: &G,
) -> bool {
    match comes_to(rt, text, TURNS, gate) {
        Some(outcome) => outcome.turns >= TURNS,
        None => false,
    }
}

// Looks until the number has this value, at most `looks` times. Returns whether it has.
fn look_for(number: &AtomicU64, value: u64, looks: u32) -> bool {
    for look in 0..looks {
        if number.load(Ordering::SeqCst) >= value {
            return true;
        }
        if look % 64 == 63 {
            thread::yield_now();
        }
    }
    false
}

// Stops one processor for 10,000 looks before each turn.
#[derive(Drop)]
struct Stopped {
    cpu: u8,
    looks: AtomicU64,
}

impl Gate for Stopped {
    fn before(&self, cpu: u8, _turn: u64) {
        if cpu == self.cpu {
            for _ in 0..10_000u32 {
                self.looks.load(Ordering::SeqCst);
            }
        }
    }
}

#[test]
fn one_is_stopped_at_every_turn(rt: HostRuntime) {
    let text = busy_text(rt.alloc()).expect(&rt, "a text");
    for cpu in [0, 7, 15] {
        let looks = AtomicU64::new(0);
        assert!(rt;
            is_lasting(&rt, text.as_str(), &Stopped { cpu, looks }),
            "{cpu}"
        );
    }
}

// Lets one processor take its share alone. The others may begin when this processor has tried its
// last turn, or has found nothing to do and tries a turn again.
#[derive(Drop)]
struct Alone {
    cpu: u8,
    last: AtomicU64,
    open: AtomicU64,
    missed: AtomicU64,
}

impl Gate for Alone {
    fn before(&self, cpu: u8, turn: u64) {
        if cpu == self.cpu {
            if self.last.swap(turn, Ordering::SeqCst) == turn || turn >= SHARE {
                self.open.store(1, Ordering::SeqCst);
            }
        } else if !look_for(&self.open, 1, 100_000_000) {
            self.missed.fetch_add(1, Ordering::SeqCst);
        }
    }
}

// Whether nobody has looked in vain if a processor has its share alone.
fn has_share_alone<R: AllocGlobal + Threads + Sync>(rt: &R, text: &str, cpu: u8) -> bool {
    let gate = Alone {
        cpu,
        last: AtomicU64::new(0),
        open: AtomicU64::new(0),
        missed: AtomicU64::new(0),
    };
    is_lasting(rt, text, &gate) && gate.missed.load(Ordering::SeqCst) == 0
}

#[test]
fn each_has_its_share_alone_first(rt: HostRuntime) {
    let text = busy_text(rt.alloc()).expect(&rt, "a text");
    for cpu in 0..CPUS {
        assert!(rt; has_share_alone(&rt, text.as_str(), cpu), "{cpu}");
    }
}

// Lets the processors take one turn after the other, at odd turns in the order of their numbers, at
// even turns in reverse. A processor that has nothing to do is not waited for.
#[derive(Drop)]
struct Reversed {
    place: AtomicU64,
}

impl Gate for Reversed {
    fn before(&self, cpu: u8, turn: u64) {
        let cpus = u64::from(CPUS);
        let number = u64::from(cpu);
        let within = if turn % 2 == 1 {
            number
        } else {
            cpus.saturating_sub(number + 1)
        };
        let place = turn.saturating_mul(cpus).saturating_add(within);
        look_for(&self.place, place, 1_000);
        self.place
            .fetch_max(place.saturating_add(1), Ordering::SeqCst);
    }
}

#[test]
fn the_order_is_turned_round_at_each_turn(rt: HostRuntime) {
    let text = busy_text(rt.alloc()).expect(&rt, "a text");
    for _ in 0..4 {
        let place = AtomicU64::new(u64::from(CPUS));
        assert!(rt; is_lasting(&rt, text.as_str(), &Reversed { place }));
    }
}
