// Processors by themselves, asked by hand.
use crate::rows::ask;
use l4_samples::ACROSS;

// Two processors. The first has a thread that calls, one that sends, one that orders and one that
// goes on for ever. The second has two threads without a script.
pub(crate) const BUSY: &str = "l4 1 64
cpus 2
thread 1.1 cpu 0 space 1
ipc 5.1 any never never
thread 2.1 cpu 0 space 1
ipc 3.1 nil never never
thread 3.1 cpu 0 space 1
exregs 6.1 R
thread 4.1 cpu 0 space 1
jump 0
thread 5.1 cpu 1 space 1
thread 6.1 cpu 1 space 1
";

// A receive of five microseconds.
const TIMED: &str = "l4 1 64
cpus 1
thread 1.1 cpu 0 space 1
ipc nil any never 5
";

// The thread begins to receive and is timed out.
const WAITS_FOR_ITS_CLOCK: &str = "cpu 0
stands
  busy 0 None
turn
  at 1
  wait 1.1
stands
  done 0 Some(5)
turn
  idle
advance 5
  at 2
  tick 0 5
stands
  busy 5 Some(5)
turn
  at 3
  rtimeout 1.1
turn
  at 4
  local 1.1
stands
  done 5 None
";

#[test]
fn a_processor_waits_for_its_clock(rt: HostRuntime) {
    ask(&rt, TIMED, WAITS_FOR_ITS_CLOCK);
}

// Clocks and stamps are below 2^62. In the second section a processor is as busy as it can be. It
// knows of a send under way to another processor, of a send that waits here, and of an order under
// way. It also knows of a send from elsewhere that waits here. Then its stamps are used up.
const CLOCKS_AND_STAMPS_END: &str = "cpu 0
can 4611686018427387902
  true
can 4611686018427387903
  false
advance 0
  Clock
advance 4611686018427387904
  Clock
advance 4611686018427387903
  at 1
  tick 0 4611686018427387903
advance 4611686018427387903
  Clock

cpu 0
turn
  at 1
  begin 1.1#1
  to 1 at 1 waits deliver 1.1#1 5.1 1.1 1.1 0
turn
  at 2
  begin 2.1#1
  queue 2.1#1
turn
  at 3
  order 3.1 6.1 R
  to 1 at 3 order 3.1 6.1 CancelReceive
turn
  at 4
  local 4.1
letter 1 waits deliver 5.1#1 3.1 5.1 5.1 70001 a
  at 5
  queue 5.1#1
letter 4611686018427387903 waits deliver 6.1#1 3.1 6.1 6.1 70001 a
  Stamp
# Whether it is lawful is judged first.
letter 4611686018427387903 waits deliver 6.1#1 5.1 6.1 6.1 70001 a
  Mail
letter 4611686018427387902 waits deliver 6.1#1 3.1 6.1 6.1 70001 a
  at 4611686018427387903
  queue 6.1#1
can 0
  false
stands
  busy 0 None
advance 1
  Stamp
advance 0
  Clock
";

#[test]
fn clocks_and_stamps_end_below_two_to_the_62nd(rt: HostRuntime) {
    ask(&rt, BUSY, CLOCKS_AND_STAMPS_END);
}

// In the first section a processor of its own handles each letter. The stamp is one more than those
// of the letter and of the last event. In the second section letters find nothing left to do.
const LETTERS_ARE_ANSWERED: &str = "cpu 0
turn
  at 1
  begin 1.1#1
  to 1 at 1 waits deliver 1.1#1 5.1 1.1 1.1 0
turn
  at 2
  begin 2.1#1
  queue 2.1#1
turn
  at 3
  order 3.1 6.1 R
  to 1 at 3 order 3.1 6.1 CancelReceive
turn
  at 4
  local 4.1
letter 1 waits deliver 5.1#1 3.1 5.1 5.1 70001 a
  at 5
  queue 5.1#1
? letter 9 waits deliver 6.1#1 3.1 6.1 6.1 70001 a
  at 10
  queue 6.1#1
? letter 9 now deliver 6.1#1 4.1 6.1 6.1 70001 a
  at 10
  stimeout 6.1#1
  to 1 at 10 done 6.1#1 Refused(TimedOut)
# Where it waits counts, and not at whom the letter looks for it.
? letter 9 withdraw 5.1#1 3.1 ByTimeout
  at 10
  stimeout 5.1#1
  to 1 at 10 done 5.1#1 Refused(TimedOut)
? letter 9 withdraw 5.1#1 4.1 ByTimeout
  at 10
  stimeout 5.1#1
  to 1 at 10 done 5.1#1 Refused(TimedOut)
? letter 9 withdraw 6.1#1 3.1 ByTimeout
  at 10
? letter 9 withdraw 5.1#1 3.1 ByCancel
  at 10
  scancel 5.1#1
  to 1 at 10 done 5.1#1 Refused(Cancelled)
? letter 9 withdraw 5.1#1 4.1 ByCancel
  at 10
  scancel 5.1#1
  to 1 at 10 done 5.1#1 Refused(Cancelled)
? letter 9 withdraw 6.1#1 3.1 ByCancel
  at 10
? letter 9 withdraw 5.1#1 3.1 ByDeletion
  at 10
  drop 5.1#1
  to 1 at 10 done 5.1#1 Refused(Dropped)
? letter 9 withdraw 5.1#1 4.1 ByDeletion
  at 10
  drop 5.1#1
  to 1 at 10 done 5.1#1 Refused(Dropped)
? letter 9 withdraw 6.1#1 3.1 ByDeletion
  at 10
? letter 9 order 5.1 4.1 CancelBoth
  at 10
  obey 5.1
  to 1 at 10 obeyed 5.1
? letter 9 order 5.1 4.1 Delete
  at 10
  obey 5.1
  to 1 at 10 obeyed 5.1
? letter 9 order 5.1 1.1 CancelReceive
  at 10
  obey 5.1
  to 1 at 10 obeyed 5.1
# What the target has elsewhere is withdrawn.
? letter 9 order 5.1 1.1 CancelSend
  at 10
  obey 5.1
  to 1 at 10 withdraw 1.1#1 5.1 ByCancel
  to 1 at 10 obeyed 5.1
? letter 9 order 5.1 1.1 CancelBoth
  at 10
  obey 5.1
  to 1 at 10 withdraw 1.1#1 5.1 ByCancel
  to 1 at 10 obeyed 5.1
? letter 9 order 5.1 1.1 Delete
  at 10
  obey 5.1
  to 1 at 10 withdraw 1.1#1 5.1 ByDeletion
  to 1 at 10 obeyed 5.1
# What is only noted tells no step.
? letter 9 done 1.1#1 Delivered
  at 10
? letter 9 done 1.1#1 Refused(TimedOut)
  at 10
? letter 9 gone 5.1
  at 10
? letter 9 obeyed 3.1
  at 10

cpu 0
turn
  at 1
  begin 1.1#1
  to 1 at 1 waits deliver 1.1#1 5.1 1.1 1.1 0
turn
  at 2
  begin 2.1#1
  queue 2.1#1
turn
  at 3
  order 3.1 6.1 R
  to 1 at 3 order 3.1 6.1 CancelReceive
turn
  at 4
  local 4.1
letter 1 waits deliver 5.1#1 3.1 5.1 5.1 70001 a
  at 5
  queue 5.1#1
# A thread is deleted whose order is under way.
letter 1 order 6.1 3.1 Delete
  at 6
  obey 6.1
  to 1 at 6 obeyed 6.1
letter 1 obeyed 3.1
  at 7
# Those that wait at it are refused.
turn
  at 8
  snobody 2.1#1
turn
  at 9
  snobody 5.1#1
  to 1 at 9 done 5.1#1 Refused(Nobody)
# A letter about a send that is refused finds nothing, and the deletion is told.
letter 8 withdraw 5.1#1 3.1 ByTimeout
  at 10
turn
  at 11
  to 1 at 11 gone 3.1
turn
  at 12
  local 4.1
turn
  at 13
  local 2.1
";

#[test]
fn each_lawful_letter_has_its_steps_and_its_answers(rt: HostRuntime) {
    ask(&rt, BUSY, LETTERS_ARE_ANSWERED);
}

// A thread begins a send to another processor, waits for the end of the send, and learns of it. On
// the other processor, the thread that waits for the send takes it.
const TWO_PROCESSORS_TALK: &str = "cpu 0
turn
  at 1
  local 1.1
turn
  at 2
  local 1.1
turn
  at 3
  begin 1.1#1
  to 1 at 3 waits deliver 1.1#1 2.1 1.1 1.1 70001 a
stands
  done 0 None
turn
  idle
letter 4 done 1.1#1 Delivered
  at 5
turn
  at 6
  local 1.1
stands
  done 0 None

cpu 1
turn
  at 1
  wait 2.1
letter 3 waits deliver 1.1#1 2.1 1.1 1.1 70001 a
  at 4
  queue 1.1#1
  deliver 1.1#1 2.1 1.1 1.1 74001 a
  to 0 at 4 done 1.1#1 Delivered
turn
  at 5
  local 2.1
stands
  done 0 None
";

// Two threads, of which each asks for the deletion of the other one.
const HOSTILE: &str = "l4 1 64
cpus 2
thread 1.1 cpu 0 space 1
delete 2.1
thread 2.1 cpu 1 space 2
delete 1.1
";

// The order of a thread goes to the processor of the other thread. An order about the thread itself
// comes from there. This order is done, and both threads are gone.
const TWO_DELETIONS_MEET: &str = "cpu 0
turn
  at 1
  order 1.1 2.1 delete
  to 1 at 1 order 1.1 2.1 Delete
letter 1 order 2.1 1.1 Delete
  at 2
  obey 2.1
  to 1 at 2 obeyed 2.1
letter 2 obeyed 1.1
  at 3
turn
  at 4
  to 1 at 4 gone 1.1
letter 4 gone 2.1
  at 5
stands
  done 0 None

cpu 1
turn
  at 1
  order 2.1 1.1 delete
  to 0 at 1 order 2.1 1.1 Delete
letter 1 order 1.1 2.1 Delete
  at 2
  obey 1.1
  to 0 at 2 obeyed 1.1
letter 2 obeyed 2.1
  at 3
turn
  at 4
  to 0 at 4 gone 2.1
letter 4 gone 1.1
  at 5
stands
  done 0 None
";

#[test]
fn processors_talk_by_letters(rt: HostRuntime) {
    ask(&rt, ACROSS, TWO_PROCESSORS_TALK);
    ask(&rt, HOSTILE, TWO_DELETIONS_MEET);
}
