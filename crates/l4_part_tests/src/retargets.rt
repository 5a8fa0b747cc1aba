// Profile 2: an originator waits for the thread that its message was handed to.
use crate::rows::ask;

// On three processors: a client that calls a server, the server, which hands the message on in the
// client's name, and a worker, which answers.
const APART: &str = "l4 2 64
cpus 3
thread 1.1 cpu 0 space 1
ipc 2.1 2.1 never never
thread 2.1 cpu 1 space 1
ipc nil any never never
vs 1.1
tag 0x1000
ipc 3.1 nil never never
thread 3.1 cpu 2 space 2
ipc nil any never never
ipc last nil never never
";

// The three threads on one processor.
const TOGETHER: &str = "l4 2 64
cpus 1
thread 1.1 cpu 0 space 1
ipc 2.1 2.1 never never
thread 2.1 cpu 0 space 1
ipc nil any never never
vs 1.1
tag 0x1000
ipc 3.1 nil never never
thread 3.1 cpu 0 space 2
ipc nil any never never
ipc last nil never never
";

// The message is handed to the worker. The worker's processor decides the send, and then tells for
// which thread the originator is to wait. In one section the client turns to the worker after its
// call is decided, in the other one before.
const BY_LETTERS: &str = "cpu 2
turn
  at 1
  wait 3.1
letter 7 waits deliver 2.1#1 3.1 1.1 2.1 1000
  at 8
  queue 2.1#1
  deliver 2.1#1 3.1 1.1 2.1 5000
  to 1 at 8 done 2.1#1 Delivered
  to 0 at 8 retarget 2.1#1 1.1 2.1 3.1

cpu 0
turn
  at 1
  begin 1.1#1
  to 1 at 1 waits deliver 1.1#1 2.1 1.1 1.1 0
letter 1 done 1.1#1 Delivered
  at 2
letter 2 retarget 2.1#1 1.1 2.1 3.1
  at 3
  retarget 2.1#1
letter 3 waits deliver 3.1#1 1.1 3.1 3.1 0
  at 4
  queue 3.1#1
  deliver 3.1#1 1.1 3.1 3.1 4000
  to 2 at 4 done 3.1#1 Delivered

cpu 0
turn
  at 1
  begin 1.1#1
  to 1 at 1 waits deliver 1.1#1 2.1 1.1 1.1 0
letter 1 retarget 2.1#1 1.1 2.1 3.1
  at 2
  retarget 2.1#1
letter 2 done 1.1#1 Delivered
  at 3
letter 3 waits deliver 3.1#1 1.1 3.1 3.1 0
  at 4
  queue 3.1#1
  deliver 3.1#1 1.1 3.1 3.1 4000
  to 2 at 4 done 3.1#1 Delivered
";

// On one processor the client turns in the next turn.
const IN_TURNS: &str = "cpu 0
turn
  at 1
  begin 1.1#1
  queue 1.1#1
turn
  at 2
  wait 2.1
turn
  at 3
  deliver 1.1#1 2.1 1.1 1.1 0
turn
  at 4
  wait 3.1
turn
  at 5
  local 2.1
turn
  at 6
  local 2.1
turn
  at 7
  begin 2.1#1
  queue 2.1#1
  deliver 2.1#1 3.1 1.1 2.1 1000
turn
  at 8
  retarget 2.1#1
turn
  at 9
  begin 3.1#1
  queue 3.1#1
  deliver 3.1#1 1.1 3.1 3.1 0
turn
  at 10
  local 2.1
turn
  at 11
  local 1.1
turn
  at 12
  local 3.1
stands
  done 0 None
";

#[test]
fn an_originator_turns_to_whom_its_message_is_handed(rt: HostRuntime) {
    ask(&rt, APART, BY_LETTERS);
    ask(&rt, TOGETHER, IN_TURNS);
}
