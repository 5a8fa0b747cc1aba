//! The states that core runs come to, as rows of numbers.
ghost use Rattle.std.specs.Prelude.{ℕ, List, not, slice_get, ◌&&◌, ◌≡◌, ◌<◌, ◌≤◌, ◌+◌, ◌*◌, IfOk, OnOk};
ghost use Rattle.l4_model.specs.Machine.{Machine as MachineOfModel};
ghost use Rattle.std.specs.Option.{option_map};
ghost use Rattle.l4_core_model.specs.Runs.{Run, is_empty, local_at_rest};
ghost use Rattle.l4_states.specs.Choices.{IsNear};
ghost use Rattle.l4_replay.specs.UnderWay.{HasRun, IsRun};
ghost use Rattle.l4_bisimilar.specs.Alike.{contents};
ghost use Rattle.l4_states.specs.Inner.Codes.{chained, content_code};
ghost use Rattle.l4_codes.specs.Inner.Written.{Writes};
ghost use Rattle.l4_parts.specs.Inner.Known.{AreTrue, HasAt, IsRow};
ghost use Rattle.l4_parts.specs.Inner.Numbers.{AreLonger};

use l4_codes::code::Code;
use l4_codes::letters::put_letter;
use l4_codes::processors::put_core;
use l4_parts::parts::{Part, Parts};
use l4_replay::{Letters, Walk};
use l4_rounds::choices::least_deadline;
use l4_sets::{Aims, Contacts};
use std::alloc::{AllocError, Global};

// Whether nothing is to be done on a processor, given its least deadline.
fn rests_until(is_busy: bool, deadline: Option<u64>) -> bool
    ensures { (armed : List (ℕ × ℕ)) → deadline ≡ option_map (λ e. e.0) (slice_get armed 0) →
        result ≡ (not is_busy && is_empty armed) }
{
    match deadline {
        Some(_) => false,
        None => !is_busy,
    }
}

// How many choices a processor has by itself: its turn, and a tick.
fn moves_of(walk: &Walk<'_>, cpu: u8) -> u32
    requires run { HasRun walk.now }
    requires cpu { cpu < walk.now.machine.cpus }
{
    let core = walk.core(cpu);
    let may_tick = match core.least_deadline() {
        Some(deadline) => deadline > core.clock(),
        None => false,
    };
    u32::from(core.busy()) + u32::from(may_tick)
}

// Whether nothing is to be done or armed on a processor. Its least deadline is near.
fn is_resting(walk: &Walk<'_>, cpu: u8) -> bool
    requires run { HasRun walk.now }
    requires cpu { cpu < walk.now.machine.cpus }
    ensures rests { (m : MachineOfModel) (r : Run) → IsRun m r walk.now →
        result ≡ local_at_rest m r.system cpu }
    ensures near { (m : MachineOfModel) (r : Run) → IsRun m r walk.now → IsNear r.system cpu }
{
    let _near = least_deadline(walk, cpu);
    let core = walk.core(cpu);
    rests_until(core.busy(), core.least_deadline())
}

// The number of what a processor knows.
fn number_of_core(
    alloc: Global,
    aims: &Aims<'_>,
    parts: &mut Parts,
    walk: &Walk<'_>,
    cpu: u8,
) -> Result<u32, AllocError>
    requires run { HasRun walk.now }
    requires same { aims.now ≡ walk.now.machine }
    requires cpu { cpu < walk.now.machine.cpus }
    ensures longer { AreLonger parts.old.parts.items parts.new.parts.items }
    ensures are { (m : MachineOfModel) (r : Run) → IsRun m r walk.now →
        AreTrue m parts.old.parts.items → AreTrue m parts.new.parts.items }
    ensures number { (m : MachineOfModel) (r : Run) → IsRun m r walk.now →
        IfOk result (HasAt m r.system parts.new.parts.items cpu) }
{
    let rests = is_resting(walk, cpu);
    let core = walk.core(cpu);
    let mut code = Code::new(alloc);
    put_core(&mut code, core)?;
    parts.number_of(Part {
        place: u32::from(cpu),
        code,
        rests,
        contacts: aims.contacts(core),
        moves: moves_of(walk, cpu),
    })
}

// Writes the contents of letters, in order.
fn put_letters(code: &mut Code, letters: Letters<'_>) -> Result<(), AllocError>
    ensures { OnOk result (Writes (chained content_code (contents letters.entry))
        code.old code.new) }
{
    for letter in letters {
        code.put(1)?;
        put_letter(code, &letter)?;
    }
    code.put(0)
}

// The number of the letters of a pair, by their place.
fn number_of_letters(
    alloc: Global,
    parts: &mut Parts,
    walk: &Walk<'_>,
    cpus: u8,
    place: u32,
) -> Result<u32, AllocError>
    requires run { HasRun walk.now }
    requires cpus { cpus ≡ walk.now.machine.cpus }
    requires past { cpus ≤ place }
    requires inside { place < cpus + cpus * cpus }
    ensures longer { AreLonger parts.old.parts.items parts.new.parts.items }
    ensures are { (m : MachineOfModel) (r : Run) → IsRun m r walk.now →
        AreTrue m parts.old.parts.items → AreTrue m parts.new.parts.items }
    ensures number { (m : MachineOfModel) (r : Run) → IsRun m r walk.now →
        IfOk result (HasAt m r.system parts.new.parts.items place) }
{
    let count = u32::from(cpus);
    let to = ((place - count) / count) as u8;
    let from = ((place - count) % count) as u8;
    let rests = walk.letters(to, from).is_empty();
    let mut code = Code::new(alloc);
    put_letters(&mut code, walk.letters(to, from))?;
    parts.number_of(Part {
        place,
        code,
        rests,
        contacts: Contacts::none(),
        moves: u32::from(!rests),
    })
}

// The number of the part at a place.
fn number_of(
    alloc: Global,
    aims: &Aims<'_>,
    parts: &mut Parts,
    walk: &Walk<'_>,
    cpus: u8,
    place: u32,
) -> Result<u32, AllocError>
    requires run { HasRun walk.now }
    requires same { aims.now ≡ walk.now.machine }
    requires cpus { cpus ≡ walk.now.machine.cpus }
    requires inside { place < cpus + cpus * cpus }
    ensures longer { AreLonger parts.old.parts.items parts.new.parts.items }
    ensures are { (m : MachineOfModel) (r : Run) → IsRun m r walk.now →
        AreTrue m parts.old.parts.items → AreTrue m parts.new.parts.items }
    ensures number { (m : MachineOfModel) (r : Run) → IsRun m r walk.now →
        IfOk result (HasAt m r.system parts.new.parts.items place) }
{
    if place < u32::from(cpus) {
        return number_of_core(alloc, aims, parts, walk, place as u8);
    }
    number_of_letters(alloc, parts, walk, cpus, place)
}

/// The row of the state that a core run has come to. Parts that are new are added.
///
/// `AllocError`: memory was refused.
pub(crate) fn row_of(
    alloc: Global,
    aims: &Aims<'_>,
    parts: &mut Parts,
    walk: &Walk<'_>,
    cpus: u8,
) -> Result<Vec<u32>, AllocError>
    requires run { HasRun walk.now }
    requires same { aims.now ≡ walk.now.machine }
    requires cpus { cpus ≡ walk.now.machine.cpus }
    requires most { cpus < 17 }
    ensures longer { AreLonger parts.old.parts.items parts.new.parts.items }
    ensures are { (m : MachineOfModel) (r : Run) → IsRun m r walk.now →
        AreTrue m parts.old.parts.items → AreTrue m parts.new.parts.items }
    ensures row { (m : MachineOfModel) (r : Run) → IsRun m r walk.now →
        IfOk result (λ row. IsRow m r.system parts.new.parts.items row.items) }
{
    let count = u32::from(cpus) + u32::from(cpus) * u32::from(cpus);
    let mut row = Vec::with_capacity(alloc, count as usize)?;
    for place in 0..count {
        row.push(number_of(alloc, aims, parts, walk, cpus, place)?)?;
    }
    Ok(row)
}
