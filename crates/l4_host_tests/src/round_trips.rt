// The calls that go from a machine to a trace or a list and back. Their contracts say what they come
// to; that they come to it if memory is ample is tested. What the program records and replays is
// tried by `.ci/command-lines`.
use crate::runs::machine_of;
use l4::round_trips::{audited_replay, audited_run, replayed_run};
use l4_proc::gate::Open;
use l4_samples::ACROSS;

#[test]
fn what_is_written_is_read_back(rt: HostRuntime) {
    let machine = machine_of(rt.alloc(), ACROSS).expect(&rt, "a machine");
    assert!(rt; audited_run(&rt, rt.alloc(), &machine, 100, &Open).is_ok());
    assert!(rt; audited_replay(rt.alloc(), &machine, &[0; 8]).is_ok());
    assert!(rt; replayed_run(&rt, rt.alloc(), &machine, 100, &Open).is_ok());
}
