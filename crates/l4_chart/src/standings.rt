//! What each thread is in behind the last row of a chart, and what it waits for.
ghost use Rattle.std.specs.Prelude.{◌≡◌, ◌++◌, IfOk, OnOk, codes, option_and_then};
ghost use Rattle.std.specs.Option.{option_map};
ghost use Rattle.l4_model.specs.World.{receive_now};
ghost use Rattle.l4_types.specs.Ids.{global_of};
ghost use Rattle.l4_types.specs.StepView.{order_kind_of};
ghost use Rattle.l4_trace.specs.Lines.{order_kind_word};
ghost use Rattle.l4_chart.specs.Standings.{from_words, instruction_in, instruction_place, is_deleted};
ghost use Rattle.l4_chart.specs.Standings.{is_ready, kind_of_state, ordering_words, sending_word};
ghost use Rattle.l4_chart.specs.Standings.{sending_words};
ghost use Rattle.l4_chart.specs.Standings.{standing_in, standing_mark, standing_of, standing_words};
ghost use Rattle.l4_chart.specs.Standings.{standings_in, state_word, target_words};

use crate::columns::Column;
use crate::ink::{push_id, push_text, push_thread};
use crate::listing::{Instruction, Listing};
use crate::marks::{Kind, Mark};
use crate::words::push_at;
use l4_audit::found::Found;
use l4_audit::world::World;
use l4_thread::orders::PendingOrder;
use l4_types::errors::NoMemory;
use l4_types::ids::{GlobalId, ThreadId};
use l4_types::reports::State;
use l4_types::steps::OrderKind;
use std::alloc::Global;

/// What a thread is in, and what it waits for.
#[derive(Debug, Drop)]
pub struct Standing<'t> {
    /// The thread.
    pub id: GlobalId,
    /// What it is in.
    pub state: State,
    /// Where its undecided send goes to, if it has one. That of a deleted thread goes on.
    pub to: Option<ThreadId>,
    /// Whom its receive phase accepts, if it is in one.
    pub from: Option<ThreadId>,
    /// What it asked for and is not done, if there is anything. That of a deleted thread goes on.
    pub order: Option<PendingOrder>,
    /// The instruction that it is in, or runs next.
    pub at: Option<Instruction<'t>>,
}

// The place in its script of the instruction that a thread runs next, or is in.
fn instruction_place(state: State, place: usize) -> Option<usize>
    ensures { result ≡ instruction_place state place }
{
    match state {
        State::Ready | State::Ordering => Some(place),
        State::Sending | State::Receiving => Some(place.saturating_sub(1)),
        State::Ended | State::Deleted => None,
    }
}

// That instruction.
fn instruction_in<'t>(listing: &Listing<'t>, found: &Found<'_>) -> Option<Instruction<'t>>
    ensures { result ≡ instruction_in listing.now found.now }
{
    let place = instruction_place(found.state(), found.tcb.thread().place())?;
    listing.instruction(found.place(), place)
}

// Where its undecided send goes to.
fn destination(found: &Found<'_>) -> Option<ThreadId>
    ensures { result ≡ option_map (λ send. send.to) found.now.now.send }
{
    Some(found.tcb.send()?.to())
}

// Whom its receive phase accepts.
fn accepted(found: &Found<'_>) -> Option<ThreadId>
    ensures { result ≡ option_map (λ receive. receive.from) (receive_now found.now.now.phase) }
{
    Some(found.receiving()?.from())
}

fn standing_of<'t>(listing: &Listing<'t>, found: &Found<'_>) -> Standing<'t>
    ensures { result ≡ standing_of listing.now found.now }
{
    Standing {
        id: found.id(),
        state: found.state(),
        to: destination(found),
        from: accepted(found),
        order: found.asked(),
        at: instruction_in(listing, found),
    }
}

// What the thread of a column is in.
fn standing_in<'t>(
    listing: &Listing<'t>,
    world: &World<'_>,
    column: &Column,
) -> Option<Standing<'t>>
    ensures { result ≡
        standing_in world.now.machine listing.now world.now.world column.now }
{
    let found = world.found(column.id)?;
    Some(standing_of(listing, &found))
}

/// What the threads of these columns are in.
pub(crate) fn standings_in<'t>(
    alloc: Global,
    listing: &Listing<'t>,
    world: &World<'_>,
    columns: &[Column],
) -> Result<Vec<Standing<'t>>, NoMemory>
    ensures { IfOk result (λ standings. standings.items ≡
        standings_in world.now.machine listing.now world.now.world columns.now) }
{
    let mut standings = Vec::new(alloc);
    for column in columns {
        if let Some(standing) = standing_in(listing, world, column) {
            standings.push(standing)?;
        }
    }
    Ok(standings)
}

// The mark of a thread that has no undecided send to a thread.
fn kind_of(state: State) -> Kind
    ensures { result ≡ kind_of_state state }
{
    match state {
        State::Ready => Kind::Ready,
        State::Sending => Kind::Begin,
        State::Receiving => Kind::Wait,
        State::Ordering => Kind::Order,
        State::Ended => Kind::Ended,
        State::Deleted => Kind::Deleted,
    }
}

fn state_word(state: State) -> &'static str
    ensures { result.now ≡ state_word state }
{
    match state {
        State::Ready => " ready",
        State::Sending => " sending",
        State::Receiving => " receiving",
        State::Ordering => " ordering",
        State::Ended => " ended",
        State::Deleted => " deleted",
    }
}

fn is_deleted(state: State) -> bool
    ensures { result ≡ is_deleted state }
{
    matches!(state, State::Deleted)
}

fn is_ready(state: State) -> bool
    ensures { result ≡ is_ready state }
{
    matches!(state, State::Ready)
}

fn sending_word(deleted: bool) -> &'static str
    ensures { result.now ≡ sending_word deleted }
{
    if deleted { ", sending to" } else { " to" }
}

// Appends where its undecided send goes to, if it has one.
fn push_sending(out: &mut Vec<u8>, deleted: bool, to: Option<ThreadId>) -> Result<(), NoMemory>
    ensures { OnOk result (out.new.items ≡ out.old.items ++ sending_words deleted to) }
{
    let Some(to) = to else {
        return Ok(());
    };
    push_text(out, sending_word(deleted))?;
    push_id(out, to)
}

// Appends whom its receive phase accepts, if it is in one.
fn push_from(out: &mut Vec<u8>, from: Option<ThreadId>) -> Result<(), NoMemory>
    ensures { OnOk result (out.new.items ≡ out.old.items ++ from_words from) }
{
    let Some(from) = from else {
        return Ok(());
    };
    push_text(out, " from")?;
    push_id(out, from)
}

fn spelled_kind(what: OrderKind) -> &'static str
    ensures { result.now ≡ order_kind_word (order_kind_of what) }
{
    match what {
        OrderKind::CancelSend => "S",
        OrderKind::CancelReceive => "R",
        OrderKind::CancelBoth => "SR",
        OrderKind::Delete => "delete",
    }
}

fn push_target(out: &mut Vec<u8>, order: PendingOrder) -> Result<(), NoMemory>
    ensures { OnOk result (out.new.items ≡ out.old.items ++ target_words order) }
{
    push_text(out, " ")?;
    push_thread(out, order.target())?;
    push_text(out, " ")?;
    push_text(out, spelled_kind(order.what()))
}

// Appends its undone order, if it has one.
fn push_ordering(
    out: &mut Vec<u8>,
    deleted: bool,
    order: Option<PendingOrder>,
) -> Result<(), NoMemory>
    ensures { OnOk result (out.new.items ≡ out.old.items ++ ordering_words deleted order) }
{
    let Some(order) = order else {
        return Ok(());
    };
    push_text(out, if deleted { ", ordering" } else { "" })?;
    push_target(out, order)
}

impl Standing<'_> {
    /// The mark of the thread. An arrow is a send that has not arrived.
    pub fn mark(&self) -> Mark
        ensures { result ≡ standing_mark self.now }
    {
        match self.receiver() {
            Some(receiver) => Mark::Arrow {
                sender: self.id,
                receiver,
            },
            None => Mark::Point {
                thread: self.id,
                kind: kind_of(self.state),
            },
        }
    }

    // The thread that its undecided send goes to.
    fn receiver(&self) -> Option<GlobalId>
        ensures { result ≡ option_and_then global_of self.now.to }
    {
        self.to?.as_global()
    }

    /// Appends what it is in, and what it waits for, in words.
    pub(crate) fn push_words(&self, out: &mut Vec<u8>) -> Result<(), NoMemory>
        ensures { OnOk result (out.new.items ≡ out.old.items ++ standing_words self.now) }
    {
        let deleted = is_deleted(self.state);
        push_thread(out, self.id)?;
        push_text(out, state_word(self.state))?;
        push_sending(out, deleted, self.to)?;
        push_from(out, self.from)?;
        push_ordering(out, deleted, self.order)?;
        push_at(out, is_ready(self.state), &self.at)
    }
}
