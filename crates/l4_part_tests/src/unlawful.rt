// Letters that are not lawful for the processor that they come to. The processor refuses each, and
// goes on as one that was not asked.
use crate::rows::ask;
use crate::sessions::BUSY;

const IN_PROFILE_1: &str = "cpu 0
turn
  at 1
  begin 1.1#1
  to 1 at 1 waits deliver 1.1#1 5.1 1.1 1.1 0
turn
  at 2
  begin 2.1#1
  queue 2.1#1
turn
  at 3
  order 3.1 6.1 R
  to 1 at 3 order 3.1 6.1 CancelReceive
turn
  at 4
  local 4.1
letter 1 waits deliver 5.1#1 3.1 5.1 5.1 70001 a
  at 5
  queue 5.1#1
stands
  busy 0 None
# A send must be of a thread elsewhere to one here: to a thread of another processor, and to nobody; of a thread here, and of nobody;
# of a thread that has a send here already.
letter 9 waits deliver 6.1#1 5.1 6.1 6.1 70001 a
  Mail
letter 9 now deliver 6.1#1 5.1 6.1 6.1 70001 a
  Mail
letter 9 waits deliver 6.1#1 7.1 6.1 6.1 70001 a
  Mail
letter 9 now deliver 6.1#1 7.1 6.1 6.1 70001 a
  Mail
letter 9 waits deliver 4.1#1 3.1 4.1 4.1 70001 a
  Mail
letter 9 now deliver 4.1#1 3.1 4.1 4.1 70001 a
  Mail
letter 9 waits deliver 7.1#1 3.1 7.1 7.1 70001 a
  Mail
letter 9 now deliver 7.1#1 3.1 7.1 7.1 70001 a
  Mail
letter 9 waits deliver 5.1#1 3.1 5.1 5.1 70001 a
  Mail
letter 9 now deliver 5.1#1 3.1 5.1 5.1 70001 a
  Mail
letter 9 waits deliver 5.1#1 2.1 5.1 5.1 70001 a
  Mail
letter 9 now deliver 5.1#1 2.1 5.1 5.1 70001 a
  Mail
# It must name its sender and its receiver: a receiver of another version, another send, another sender, and one that shows nobody.
letter 9 waits deliver 6.1#1 3.2 6.1 6.1 70001 a
  Mail
letter 9 waits deliver 5.1#2 3.1 5.1 5.1 70001 a
  Mail
letter 9 waits deliver 6.1#1 3.1 6.1 5.1 70001 a
  Mail
letter 9 waits deliver 6.1#1 3.1 6.1 1.1 70001 a
  Mail
letter 9 waits deliver 6.1#1 3.1 7.1 6.1 70001 a
  Mail
letter 9 waits deliver 7.1#1 3.1 6.1 7.1 70001 a
  Mail
# A decision must be of the split send of a thread here: of a send that waits here, of threads that have none, of threads elsewhere, and of
# nobody; of another send.
letter 9 done 2.1#1 Delivered
  Mail
letter 9 done 3.1#1 Delivered
  Mail
letter 9 done 4.1#1 Delivered
  Mail
letter 9 done 5.1#1 Delivered
  Mail
letter 9 done 6.1#1 Delivered
  Mail
letter 9 done 7.1#1 Delivered
  Mail
letter 9 done 1.1#2 Delivered
  Mail
letter 9 done 2.1#1 Refused(TimedOut)
  Mail
letter 9 done 3.1#1 Refused(TimedOut)
  Mail
letter 9 done 4.1#1 Refused(TimedOut)
  Mail
letter 9 done 5.1#1 Refused(TimedOut)
  Mail
letter 9 done 6.1#1 Refused(TimedOut)
  Mail
letter 9 done 7.1#1 Refused(TimedOut)
  Mail
letter 9 done 1.1#2 Refused(TimedOut)
  Mail
letter 9 done 2.1#1 Refused(Nobody)
  Mail
letter 9 done 3.1#1 Refused(Nobody)
  Mail
letter 9 done 4.1#1 Refused(Nobody)
  Mail
letter 9 done 5.1#1 Refused(Nobody)
  Mail
letter 9 done 6.1#1 Refused(Nobody)
  Mail
letter 9 done 7.1#1 Refused(Nobody)
  Mail
letter 9 done 1.1#2 Refused(Nobody)
  Mail
letter 9 done 2.1#1 Refused(Cancelled)
  Mail
letter 9 done 3.1#1 Refused(Cancelled)
  Mail
letter 9 done 4.1#1 Refused(Cancelled)
  Mail
letter 9 done 5.1#1 Refused(Cancelled)
  Mail
letter 9 done 6.1#1 Refused(Cancelled)
  Mail
letter 9 done 7.1#1 Refused(Cancelled)
  Mail
letter 9 done 1.1#2 Refused(Cancelled)
  Mail
letter 9 done 2.1#1 Refused(Dropped)
  Mail
letter 9 done 3.1#1 Refused(Dropped)
  Mail
letter 9 done 4.1#1 Refused(Dropped)
  Mail
letter 9 done 5.1#1 Refused(Dropped)
  Mail
letter 9 done 6.1#1 Refused(Dropped)
  Mail
letter 9 done 7.1#1 Refused(Dropped)
  Mail
letter 9 done 1.1#2 Refused(Dropped)
  Mail
# A withdrawal must be of a send from elsewhere to a thread here: from a thread elsewhere, and from nobody; of threads here, and of nobody.
letter 9 withdraw 5.1#1 6.1 ByTimeout
  Mail
letter 9 withdraw 5.1#1 7.1 ByTimeout
  Mail
letter 9 withdraw 1.1#1 3.1 ByTimeout
  Mail
letter 9 withdraw 2.1#1 3.1 ByTimeout
  Mail
letter 9 withdraw 7.1#1 3.1 ByTimeout
  Mail
letter 9 withdraw 5.1#1 3.2 ByTimeout
  Mail
letter 9 withdraw 5.1#1 6.1 ByCancel
  Mail
letter 9 withdraw 5.1#1 7.1 ByCancel
  Mail
letter 9 withdraw 1.1#1 3.1 ByCancel
  Mail
letter 9 withdraw 2.1#1 3.1 ByCancel
  Mail
letter 9 withdraw 7.1#1 3.1 ByCancel
  Mail
letter 9 withdraw 5.1#1 3.2 ByCancel
  Mail
letter 9 withdraw 5.1#1 6.1 ByDeletion
  Mail
letter 9 withdraw 5.1#1 7.1 ByDeletion
  Mail
letter 9 withdraw 1.1#1 3.1 ByDeletion
  Mail
letter 9 withdraw 2.1#1 3.1 ByDeletion
  Mail
letter 9 withdraw 7.1#1 3.1 ByDeletion
  Mail
letter 9 withdraw 5.1#1 3.2 ByDeletion
  Mail
# A deletion must be of a thread elsewhere.
letter 9 gone 1.1
  Mail
letter 9 gone 2.1
  Mail
letter 9 gone 3.1
  Mail
letter 9 gone 4.1
  Mail
letter 9 gone 7.1
  Mail
letter 9 gone 3.2
  Mail
# An order must be of a thread elsewhere about one here: about a thread elsewhere, and about nobody; of threads here, and of nobody.
letter 9 order 5.1 6.1 CancelSend
  Mail
letter 9 order 5.1 5.1 CancelSend
  Mail
letter 9 order 5.1 7.1 CancelSend
  Mail
letter 9 order 3.1 2.1 CancelSend
  Mail
letter 9 order 4.1 4.1 CancelSend
  Mail
letter 9 order 7.1 2.1 CancelSend
  Mail
letter 9 order 5.1 3.2 CancelSend
  Mail
letter 9 order 5.1 6.1 CancelReceive
  Mail
letter 9 order 5.1 5.1 CancelReceive
  Mail
letter 9 order 5.1 7.1 CancelReceive
  Mail
letter 9 order 3.1 2.1 CancelReceive
  Mail
letter 9 order 4.1 4.1 CancelReceive
  Mail
letter 9 order 7.1 2.1 CancelReceive
  Mail
letter 9 order 5.1 3.2 CancelReceive
  Mail
letter 9 order 5.1 6.1 CancelBoth
  Mail
letter 9 order 5.1 5.1 CancelBoth
  Mail
letter 9 order 5.1 7.1 CancelBoth
  Mail
letter 9 order 3.1 2.1 CancelBoth
  Mail
letter 9 order 4.1 4.1 CancelBoth
  Mail
letter 9 order 7.1 2.1 CancelBoth
  Mail
letter 9 order 5.1 3.2 CancelBoth
  Mail
letter 9 order 5.1 6.1 Delete
  Mail
letter 9 order 5.1 5.1 Delete
  Mail
letter 9 order 5.1 7.1 Delete
  Mail
letter 9 order 3.1 2.1 Delete
  Mail
letter 9 order 4.1 4.1 Delete
  Mail
letter 9 order 7.1 2.1 Delete
  Mail
letter 9 order 5.1 3.2 Delete
  Mail
# The end of an order must be for a thread here that gave one.
letter 9 obeyed 1.1
  Mail
letter 9 obeyed 2.1
  Mail
letter 9 obeyed 4.1
  Mail
letter 9 obeyed 5.1
  Mail
letter 9 obeyed 6.1
  Mail
letter 9 obeyed 7.1
  Mail
letter 9 obeyed 3.2
  Mail
# There are no retargets in profile 1.
letter 9 retarget 2.1#1 1.1 5.1 6.1
  Mail
# It goes on as one that was not asked.
turn
  at 6
  local 4.1
letter 1 done 1.1#1 Delivered
  at 7
turn
  at 8
  local 4.1
letter 1 obeyed 3.1
  at 9
turn
  at 10
  local 4.1
letter 1 withdraw 5.1#1 3.1 ByCancel
  at 11
  scancel 5.1#1
  to 1 at 11 done 5.1#1 Refused(Cancelled)
turn
  at 12
  local 3.1
turn
  at 13
  local 4.1
turn
  at 14
  local 4.1
turn
  at 15
  local 4.1
";

// A retarget must be of an originator here, since a message came elsewhere.
const IN_PROFILE_2: &str = "cpu 0
turn
  at 1
  begin 1.1#1
  to 1 at 1 waits deliver 1.1#1 5.1 1.1 1.1 0
turn
  at 2
  begin 2.1#1
  queue 2.1#1
turn
  at 3
  order 3.1 6.1 R
  to 1 at 3 order 3.1 6.1 CancelReceive
turn
  at 4
  local 4.1
letter 1 waits deliver 5.1#1 3.1 5.1 5.1 70001 a
  at 5
  queue 5.1#1
stands
  busy 0 None
# Of threads elsewhere, and of nobody.
letter 9 retarget 2.1#1 5.1 5.1 6.1
  Mail
letter 9 retarget 2.1#1 6.1 5.1 6.1
  Mail
letter 9 retarget 2.1#1 7.1 5.1 6.1
  Mail
# From nobody. To threads here, and to nobody.
letter 9 retarget 2.1#1 1.1 7.1 6.1
  Mail
letter 9 retarget 2.1#1 1.1 5.1 1.1
  Mail
letter 9 retarget 2.1#1 1.1 5.1 2.1
  Mail
letter 9 retarget 2.1#1 1.1 5.1 3.1
  Mail
letter 9 retarget 2.1#1 1.1 5.1 4.1
  Mail
letter 9 retarget 2.1#1 1.1 5.1 7.1
  Mail
# It goes on as one that was not asked.
turn
  at 6
  local 4.1
letter 1 done 1.1#1 Delivered
  at 7
turn
  at 8
  local 4.1
letter 1 obeyed 3.1
  at 9
turn
  at 10
  local 4.1
letter 1 withdraw 5.1#1 3.1 ByCancel
  at 11
  scancel 5.1#1
  to 1 at 11 done 5.1#1 Refused(Cancelled)
turn
  at 12
  local 3.1
turn
  at 13
  local 4.1
turn
  at 14
  local 4.1
turn
  at 15
  local 4.1
";

#[test]
fn letters_that_are_not_lawful_are_refused(rt: HostRuntime) {
    ask(&rt, BUSY, IN_PROFILE_1);
    let profile_2 = BUSY
        .replacen(rt.alloc(), "l4 1", "l4 2", 1)
        .expect(&rt, "memory");
    ask(&rt, profile_2.as_str(), IN_PROFILE_2);
}
