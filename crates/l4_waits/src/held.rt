//! Sends of time zero that are held.
ghost use Rattle.std.specs.Prelude.{◌≡◌, ◌++◌, IfOk, OnOk, None, Some, true};
ghost use Rattle.std.specs.Option.{option_to_list};
ghost use Rattle.l4_model.specs.Machine.{Machine as ModelMachine};
ghost use Rattle.l4_model.specs.World.{Name as SendName, Send, World as ModelWorld, is_alive};
ghost use Rattle.l4_model.specs.World.{receive_now};
ghost use Rattle.l4_model.specs.Conditions.{Found as ModelFound, is_zero, receiver_of};
ghost use Rattle.l4_types.specs.Inner.PeriodView.{period_of};
ghost use Rattle.l4_audit.specs.Possible.{last_name};
ghost use Rattle.l4_waits.specs.Held.{IsKept, IsNotRefusable, held, held_of, held_sends, is_held};

use l4_audit::found::{Found, Pending};
use l4_audit::world::World;
use l4_types::errors::NoMemory;
use l4_types::ids::GlobalId;
use l4_types::steps::Name;
use l4_types::times::Period;
use std::alloc::Global;

/// The sends of time zero of a world that are held, in order of declaration of their threads. The
/// receiver of each is in a call to another processor that would accept the send once it is decided
/// (docs/MODEL.md, *Steps*).
///
/// `NoMemory`: memory was refused.
pub fn held_sends(alloc: Global, world: &World<'_>) -> Result<Vec<Name>, NoMemory>
    ensures { IfOk result (λ sends. sends.items ≡ held_sends world.now.machine world.now.world) }
{
    let mut sends = Vec::new(alloc);
    for declared in world.machine().threads() {
        push_held(world, declared.id(), &mut sends)?;
    }
    Ok(sends)
}

// Appends the last send of a thread, if it is held.
fn push_held(world: &World<'_>, id: GlobalId, sends: &mut Vec<Name>) -> Result<(), NoMemory>
    ensures { OnOk result (sends.new.items ≡ sends.old.items ++
        option_to_list (held_of world.now.machine world.now.world id)) }
{
    if let Some(name) = held_of(world, id) {
        sends.push(name)?;
    }
    Ok(())
}

// The last send of a thread, if it is held.
fn held_of(world: &World<'_>, id: GlobalId) -> Option<Name>
    ensures { result ≡ held_of world.now.machine world.now.world id }
{
    let thread = world.found(id)?;
    held(world, last_name(&thread)?)
}

// The name of the last send of a thread, if it began one.
fn last_name(thread: &Found<'_>) -> Option<Name>
    ensures { result ≡ last_name thread.now }
{
    Name::new(thread.id(), thread.begun())
}

// A send, if it is held.
fn held(world: &World<'_>, name: Name) -> Option<Name>
    ensures { result ≡ held world.now.machine world.now.world name }
{
    let pending = world.undecided(name)?;
    if is_held(world, &pending) {
        Some(name)
    } else {
        None
    }
}

// Whether an undecided send is held.
fn is_held(world: &World<'_>, pending: &Pending<'_>) -> bool
    ensures { result ≡ is_held world.now.machine pending.now.send
        (receiver_of world.now.machine world.now.world pending.now) }
{
    let Some(receiver) = world.receiver_of(pending) else {
        return false;
    };
    let send = pending.send();
    is_zero(send.period())
        && receiver.receiving().is_none()
        && receiver.may_still_accept(world.machine(), send.message().shown())
}

// Whether a period is of no ticks.
fn is_zero(period: Period) -> bool
    ensures { result ≡ is_zero (period_of period) }
{
    matches!(period, Period::Zero | Period::Ticks(0))
}

/// What is told as held is not refused for its time there.
pub fn law_held_is_kept()
    ensures { (m : ModelMachine) (w : ModelWorld) (s : SendName) → held m w s ≡ Some s →
        IsKept m w s }
{}

/// A send of time zero to a receiver that is alive and in no receive phase is told as held exactly
/// where it may not be refused.
pub fn law_kept_is_held()
    ensures { (m : ModelMachine) (send : Send) (r : ModelFound) → is_zero send.period ≡ true →
        is_alive r.now.phase ≡ true → receive_now r.now.phase ≡ None → IsNotRefusable m send r }
{}
