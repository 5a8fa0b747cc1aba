//! Whom a processor waits for, and whom it may post to.
ghost use Rattle.std.specs.Prelude.{ℕ, ◌≡◌, ◌<◌, ◌≤◌, ◌⊎◌, ◌||◌, ◌&&◌, true, false, length};
ghost use Rattle.l4_model.specs.Machine.{most_instructions};
ghost use Rattle.l4_model.specs.World.{is_alive};
ghost use Rattle.l4_core_model.specs.Local.{thread};
ghost use Rattle.l4_persistent.specs.Inner.Posts.{aims_of, goes_on_at, may_aim, may_post_by};
ghost use Rattle.l4_persistent.specs.Inner.Posts.{may_tell, orders_to, sends_to, waits_for};
ghost use Rattle.l4_sets.specs.Inner.Contacts.{AreContacts};
ghost use Rattle.l4_sets.specs.Inner.Sets.{has, most};

use crate::aims::{Aims, home_of, named_home};
use crate::processors::Processors;
use l4_core::processor::Core;
use l4_script::machine::{MOST_INSTRUCTIONS, Machine};
use l4_thread::tcb::Tcb;

/// Whom a processor waits for, and whom it may post to, by what it knows.
#[derive(Clone, Copy)]
pub struct Contacts {
    /// The processors for whom a thread of it waits: its undecided send, or its undone order, goes
    /// to one of their threads.
    pub waits: Processors,
    /// The processors to which it may post by its own threads: while it waits for none of them, and
    /// they don't wait for it, it posts to no other ones.
    pub posts: Processors,
}

impl Contacts {
    /// Nobody.
    pub fn none() -> Contacts
        ensures waits { (cpu : ℕ) → has result.waits cpu ≡ false }
        ensures posts { (cpu : ℕ) → has result.posts cpu ≡ false }
    {
        Contacts {
            waits: Processors::none(),
            posts: Processors::none(),
        }
    }

    // With those of one more thread.
    fn union(self, other: Contacts) -> Contacts
        ensures waits { (cpu : ℕ) →
            has result.waits cpu ≡ (has self.waits cpu || has other.waits cpu) }
        ensures posts { (cpu : ℕ) →
            has result.posts cpu ≡ (has self.posts cpu || has other.posts cpu) }
    {
        Contacts {
            waits: self.waits.union(other.waits),
            posts: self.posts.union(other.posts),
        }
    }
}

// The processor to which the send of a thread goes that is undecided.
fn send_home(machine: &Machine, block: &Tcb) -> Processors
    ensures { (cpu : ℕ) → has result cpu ≡ sends_to machine.now cpu block.now.thread.send }
{
    match block.send() {
        Some(send) => named_home(machine, send.to()),
        None => Processors::none(),
    }
}

// The processor to which the order of a thread goes that is undone.
fn order_home(machine: &Machine, block: &Tcb) -> Processors
    ensures { (cpu : ℕ) → has result cpu ≡ orders_to machine.now cpu block.now.thread.order }
{
    match block.order() {
        Some(order) => home_of(machine, order.target()),
        None => Processors::none(),
    }
}

// Where the script of a thread goes on: behind its order, while that is undone. There is nothing
// past the end of a script.
fn next_place(block: &Tcb) -> usize
    ensures { (result ≡ goes_on_at block.now.thread)
        ⊎ ((most_instructions ≤ result) × (most_instructions ≤ goes_on_at block.now.thread)) }
{
    let place = block.thread().place();
    if place < MOST_INSTRUCTIONS && block.order().is_some() {
        place + 1
    } else {
        place
    }
}

// Whom a thread may yet send or give an order to.
fn aimed_homes(aims: &Aims<'_>, place: usize, block: &Tcb) -> Processors
    ensures { (cpu : ℕ) → cpu < most →
        (is_alive block.now.thread.phase
        && may_aim aims.now (aims_of aims.now) cpu place block.now.thread) ≡ true →
        has result cpu ≡ true }
{
    if block.is_deleted() {
        return Processors::none();
    }
    let aimed = aims.from(place, next_place(block));
    if aimed.at_last {
        aimed
            .at
            .union(named_home(aims.machine(), block.thread().regs().from))
    } else {
        aimed.at
    }
}

// Whom a processor may yet tell that a thread of it is deleted.
fn untold(aims: &Aims<'_>, core: &Core<'_>, place: usize) -> Processors
    requires same { aims.now ≡ core.now.machine }
    requires place { place < length core.now.machine.threads }
    ensures { (cpu : ℕ) → cpu < most → may_tell aims.now cpu core.now.local place ≡ true →
        has result cpu ≡ true }
{
    let told = core.notified_up_to(place);
    if aims.is_deletable(place) && told < 32 {
        Processors::from(told)
    } else {
        Processors::none()
    }
}

// The contacts of one thread of a processor.
fn of_thread(aims: &Aims<'_>, core: &Core<'_>, place: usize) -> Contacts
    requires same { aims.now ≡ core.now.machine }
    requires place { place < length core.now.machine.threads }
    ensures waits { (cpu : ℕ) → cpu < most →
        waits_for aims.now cpu (thread core.now.local place) ≡ true →
        has result.waits cpu ≡ true }
    ensures posts { (cpu : ℕ) → cpu < most →
        may_post_by aims.now (aims_of aims.now) cpu core.now.local place ≡ true →
        has result.posts cpu ≡ true }
{
    let block = core.block(place);
    let sends = send_home(aims.machine(), block);
    Contacts {
        waits: sends.union(order_home(aims.machine(), block)),
        posts: sends
            .union(aimed_homes(aims, place, block))
            .union(untold(aims, core, place)),
    }
}

impl Aims<'_> {
    /// The contacts of a processor of the machine.
    pub fn contacts(&self, core: &Core<'_>) -> Contacts
        requires { self.now ≡ core.now.machine }
        ensures { AreContacts self.now core.now.cpu core.now.local result }
    {
        let mut contacts = Contacts::none();
        if self.may_propagate() {
            contacts.posts = Processors::from(0);
        }
        for place in 0..core.thread_count() {
            if core.is_own(place) {
                contacts = contacts.union(of_thread(self, core, place));
            }
        }
        contacts
    }
}
