//! Breadth-first search.
ghost use Rattle.std.specs.Prelude.{ℕ, ◌≡◌, ◌<◌, ◌≤◌, ◌+◌, ◌∷◌, [], min, false, true, Bool, IfNone, IfOk, IfSome};
ghost use Rattle.std.specs.Prelude.{MatchResult, OnErr, OnOk, Some, length};
ghost use Rattle.l4_explore.specs.Search.{depth_of, met, seen_at, AreFound, AreWithin, IsCut};
ghost use Rattle.l4_explore.specs.Search.{IsExplored, IsSearched, IsStopped, OfferTheSame, Seen};
ghost use Rattle.l4_explore.specs.Told.{ends_among, HasBegun};
ghost use Rattle.l4_explore.specs.Tries.{deepest};
ghost use Rattle.l4_explore.specs.Inner.Told.{AreMore, IsToldOn};
ghost use Rattle.l4_explore.specs.Inner.Views.{next_from};

use crate::found::Found;
use crate::listener::Listener;
use crate::progress::{Progress, Unheard};
use crate::tries::{Choice, Tries};
use std::alloc::{AllocError, Global};

/// No search goes deeper.
pub const DEEPEST: u32 = 1_000_000;

/// What a search has found.
#[derive(Drop)]
pub struct Explored {
    /// The states, in the order of their schedules: the shorter ones first, those of one length by
    /// their entries.
    pub found: Found,
    /// The search went on from each state that fewer than this many entries lead to. If it is
    /// whole, this is how many entries the longest schedule has.
    pub depth: usize,
    /// Whether the search went on from all states.
    pub is_whole: bool,
}

/// Finds the first `most` states that choices lead to, by schedules of at most `depth` entries.
/// Each is found once, with the first schedule of choices that leads there. No search goes deeper
/// than 1,000,000 entries. `progress` hears how far the search has come: once for each state that
/// the search goes on from, and at last that it has ended.
///
/// `AllocError`: memory was refused, or a search would keep 4 GiB of parts of codes, or of their
/// numbers.
pub fn explore<T: Tries, P: Progress>(
    alloc: Global,
    tries: &mut T,
    depth: u32,
    most: u32,
    progress: &mut P,
) -> Result<Explored, AllocError>
    requires { 0 < most }
    ensures explored { IfOk result (λ r.
        IsExplored (T.state_of tries.old) (T.offers tries.old) r.found r.depth r.is_whole) }
    ensures few { IfOk result (λ r. length r.found ≤ most) }
    ensures whole { IfOk result (λ r.
        r.is_whole ≡ true → (r.depth ≡ depth_of r.found) × (r.depth < depth)) }
    ensures cut { IfOk result (λ r.
        r.is_whole ≡ false →
        IsCut (T.state_of tries.old) (T.offers tries.old) r.found (min depth deepest) most r.depth) }
{
    match explore_telling(alloc, tries, depth, most, progress, &mut Unheard)? {
        Some(explored) => Ok(explored),
        None => unreachable!(),
    }
}

/// The same search, which tells `listener` of each end that it finds, in their order: of those that
/// the choices of a state lead to as soon as it has gone on from that state. None if the listener
/// wanted to hear of no more.
///
/// `AllocError`: as of `explore`, or memory was refused to the listener. What it was told of is a
/// beginning of the ends of a beginning of the search.
pub fn explore_telling<T: Tries, P: Progress, L: Listener>(
    alloc: Global,
    tries: &mut T,
    depth: u32,
    most: u32,
    progress: &mut P,
    listener: &mut L,
) -> Result<Option<Explored>, AllocError>
    requires some { 0 < most }
    requires may { (s : Seen) → T.state_of tries.old s.schedule ≡ Some s.state →
        length s.schedule ≤ min depth deepest → L.may_hear listener.old s }
    ensures explored { IfOk result (λ explored. IfSome explored (λ r.
        IsExplored (T.state_of tries.old) (T.offers tries.old) r.found r.depth r.is_whole)) }
    ensures few { IfOk result (λ explored. IfSome explored (λ r. length r.found ≤ most)) }
    ensures whole { IfOk result (λ explored. IfSome explored (λ r.
        r.is_whole ≡ true → (r.depth ≡ depth_of r.found) × (r.depth < depth))) }
    ensures cut { IfOk result (λ explored. IfSome explored (λ r.
        r.is_whole ≡ false →
        IsCut (T.state_of tries.old) (T.offers tries.old) r.found (min depth deepest) most
        r.depth)) }
    ensures told { IfOk result (λ explored. IfSome explored (λ r.
        L.hears listener.old listener.new (ends_among r.found) true)) }
    ensures stopped { IfOk result (λ explored. IfNone explored (
        HasBegun (T.state_of tries.old) (T.offers tries.old) (min depth deepest)
        (L.hears listener.old listener.new) false)) }
    ensures refused { OnErr result ((more : Bool) ×
        HasBegun (T.state_of tries.old) (T.offers tries.old) (min depth deepest)
        (L.hears listener.old listener.new) more) }
{
    let explored = explore_on(alloc, tries, depth.min(DEEPEST), most, progress, listener);
    progress.ended();
    explored
}

// Goes on from one state after the other.
fn explore_on<T: Tries, P: Progress, L: Listener>(
    alloc: Global,
    tries: &mut T,
    depth: u32,
    most: u32,
    progress: &mut P,
    listener: &mut L,
) -> Result<Option<Explored>, AllocError>
    requires some { 0 < most }
    requires short { depth ≤ deepest }
    requires may { (s : Seen) → T.state_of tries.old s.schedule ≡ Some s.state →
        length s.schedule ≤ depth → L.may_hear listener.old s }
    ensures explored { IfOk result (λ explored. IfSome explored (λ r.
        IsExplored (T.state_of tries.old) (T.offers tries.old) r.found r.depth r.is_whole)) }
    ensures few { IfOk result (λ explored. IfSome explored (λ r. length r.found ≤ most)) }
    ensures whole { IfOk result (λ explored. IfSome explored (λ r.
        r.is_whole ≡ true → (r.depth ≡ depth_of r.found) × (r.depth < depth))) }
    ensures cut { IfOk result (λ explored. IfSome explored (λ r.
        r.is_whole ≡ false →
        IsCut (T.state_of tries.old) (T.offers tries.old) r.found depth most r.depth)) }
    ensures told { IfOk result (λ explored. IfSome explored (λ r.
        L.hears listener.old listener.new (ends_among r.found) true)) }
    ensures stopped { IfOk result (λ explored. IfNone explored (
        HasBegun (T.state_of tries.old) (T.offers tries.old) depth
        (L.hears listener.old listener.new) false)) }
    ensures refused { OnErr result ((more : Bool) ×
        HasBegun (T.state_of tries.old) (T.offers tries.old) depth
        (L.hears listener.old listener.new) more) }
{
    let mut found = Found::new(alloc, tries.opening(alloc)?)?;
    if !tell(alloc, &found, 0, listener)? {
        return Ok(None);
    }
    let mut next = 0;
    while next < found.len() {
        let reached = found.depth(next);
        if reached >= depth as usize {
            return Ok(Some(Explored {
                found,
                depth: depth as usize,
                is_whole: false,
            }));
        }
        let before = found.len();
        progress.looked_at(before, reached);
        let are_all = expand(alloc, tries, &mut found, next, most)?;
        if !tell(alloc, &found, before, listener)? {
            return Ok(None);
        }
        if !are_all {
            return Ok(Some(Explored {
                found,
                depth: reached,
                is_whole: false,
            }));
        }
        next += 1;
    }
    let deepest = found.depth(found.len() - 1);
    Ok(Some(Explored {
        found,
        depth: deepest,
        is_whole: true,
    }))
}

// Tells of the ends among the found states from a place on. False if the listener wants to hear of
// no more.
fn tell<L: Listener>(
    alloc: Global,
    found: &Found,
    from: usize,
    listener: &mut L,
) -> Result<bool, AllocError>
    requires inside { from ≤ length found.now }
    requires may { (i : ℕ) → i < length found.now → L.may_hear listener.old (seen_at found.now i) }
    ensures told { IfOk result (IsToldOn L.hears listener.old listener.new found.now from) }
    ensures refused { OnErr result (
        IsToldOn L.hears listener.old listener.new found.now from false) }
    ensures same { (s : Seen) → L.may_hear listener.old s → L.may_hear listener.new s }
{
    for place in from..found.len() {
        if !tell_of(alloc, found, place, listener)? {
            return Ok(false);
        }
    }
    Ok(true)
}

// Tells of the state at a place, if it is an end.
fn tell_of<L: Listener>(
    alloc: Global,
    found: &Found,
    place: usize,
    listener: &mut L,
) -> Result<bool, AllocError>
    requires inside { place < length found.now }
    requires may { L.may_hear listener.old (seen_at found.now place) }
    ensures heard { MatchResult result
        (λ more. L.hears listener.old listener.new (ends_among (seen_at found.now place ∷ [])) more)
        (λ _. L.hears listener.old listener.new (ends_among (seen_at found.now place ∷ [])) false) }
    ensures same { (s : Seen) → L.may_hear listener.old s → L.may_hear listener.new s }
{
    if !found.is_end(place) {
        return Ok(true);
    }
    listener.told(alloc, found, place)
}

// Goes on from the state at `next` by all its choices. False if there is one state more than are
// wanted.
fn expand<T: Tries>(
    alloc: Global,
    tries: &mut T,
    found: &mut Found,
    next: usize,
    most: u32,
) -> Result<bool, AllocError>
    requires searched { IsSearched (T.state_of tries.old) (T.offers tries.old) found.old next }
    requires inside { next < length found.old }
    requires few { length found.old ≤ most }
    requires short { length (seen_at found.old next).schedule < deepest }
    ensures few { OnOk result (length found.new ≤ most) }
    ensures found { OnOk result (AreFound (T.state_of tries.old) found.new) }
    ensures more { OnOk result (AreMore found.old found.new) }
    ensures same { OnOk result (seen_at found.new next ≡ seen_at found.old next) }
    ensures near { OnOk result (
        AreWithin found.new (length (seen_at found.old next).schedule + 1)) }
    ensures all { IfOk result (λ all. all ≡ true →
        IsSearched (T.state_of tries.old) (T.offers tries.old) found.new (next + 1)) }
    ensures stopped { IfOk result (λ all. all ≡ false →
        IsStopped (T.state_of tries.old) (T.offers tries.old) found.new next) }
    ensures full { IfOk result (λ all. all ≡ false → length found.new ≡ most) }
    ensures same_states { T.state_of tries.new ≡ T.state_of tries.old }
    ensures same_offers { OfferTheSame (T.offers tries.old) (T.offers tries.new) }
{
    for choice in tries.choices(alloc, found, next)? {
        if !meet(found, next, choice, most)? {
            return Ok(false);
        }
    }
    Ok(true)
}

// Adds the state that one more entry leads to, unless it was found before. False if it is one more
// than are wanted.
fn meet(found: &mut Found, from: usize, choice: Choice, most: u32) -> Result<bool, AllocError>
    requires { from < length found.old }
    ensures { IfOk result (λ more. (found.new, more) ≡ met found.old from most (next_from choice)) }
{
    if found.has(&choice.reached.code) {
        return Ok(true);
    }
    if found.len() >= most as usize {
        return Ok(false);
    }
    found.add(from, choice.entry, choice.reached)?;
    Ok(true)
}
