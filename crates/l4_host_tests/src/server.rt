//! A test of a server by the crate `l4` alone. A client calls the server, and the test looks at the
//! answer that the client got.

use l4::{Ending, GlobalId, Machine, Open, Outcome, State, ThreadId, ThreadView, check, run};

// The server adds 100 to the word that a client sends, answers, and waits for the next client.
const SERVER: &str = "l4 1 64
cpus 1
thread 1.1 cpu 0 space 1
set 1 5
tag 0x10001
ipc 9.1 9.1 never never
thread 9.1 cpu 0 space 2
ipc nil any never never
add 1 100
ipc last any zero never
jump 1
";

// The thread of this number in its first version.
fn thread(outcome: &Outcome, number: u32) -> Option<&ThreadView> {
    let id = GlobalId::new(number, 1)?;
    outcome.threads.iter().find(|thread| thread.id == id)
}

// Whether a thread was answered with this word, from the server, without an error.
fn is_answered(client: &ThreadView, word: u64) -> bool {
    client.state == State::Ended
        && client.regs.error == 0
        && Some(client.regs.from) == ThreadId::global(9, 1)
        && client.regs.words[1] == word
}

#[test]
fn a_client_gets_its_answer(rt: HostRuntime) {
    let machine = Machine::parse(rt.alloc(), SERVER.as_bytes());
    let machine = machine.ok().expect(&rt, "a machine");
    let outcome = run(&rt, rt.alloc(), &machine, 1_000, &Open);
    let outcome = outcome.ok().expect(&rt, "an outcome");
    let client = thread(&outcome, 1).expect(&rt, "the client");
    let server = thread(&outcome, 9).expect(&rt, "the server");
    assert!(rt; is_answered(client, 105), "{client:?}");
    assert!(rt; server.state == State::Receiving);
    assert!(rt; outcome.ending == Ending::Quiet && outcome.waiting.is_empty());
    assert!(rt; check(rt.alloc(), &machine, outcome.history.as_slice()).is_ok());
}
