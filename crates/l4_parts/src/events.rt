//! What choices do, remembered by the parts that they read.
ghost use Rattle.std.specs.Prelude.{◌≡◌, ◌<◌, ◌⊎◌, ◌++◌, ◌∷◌, [], true, IfOk, IfSome, OnOk, length};
ghost use Rattle.std.specs.Prelude.{slice_get, Some};
ghost use Rattle.l4_parts.specs.Inner.Known.{number_at, written, AreWrites, Fit};
ghost use Rattle.l4_parts.specs.Inner.Events.{Matches};

use std::alloc::{AllocError, Global};

/// At a place one part becomes another one.
#[derive(Clone, Copy)]
pub struct Write {
    /// The place.
    pub place: u32,
    /// The number of the part that was there.
    pub old: u32,
    /// The number of the part that it becomes.
    pub new: u32,
}

/// What a choice does wherever its processor knows what a part says, and the letters that it takes
/// one of are those of another part.
#[derive(Drop)]
pub struct Event {
    /// The choice.
    pub choice: u32,
    /// The number of its processor's part.
    pub part: u32,
    /// The number of the part that it takes a letter of. Where it takes none, this is `part`.
    pub queue: u32,
    /// Whether the choice can be made.
    pub is_possible: bool,
    /// What becomes of parts, where they are as it says.
    pub writes: Vec<Write>,
}

/// Events, each found by its processor's part.
#[derive(Drop)]
pub struct Events {
    /// The events, by their numbers.
    pub events: Vec<Event>,
    // Of each part the number of its last event, plus 1, or 0. A chain leads to lower numbers.
    lasts: Vec<u32>,
    // Of each event the same of the one before it.
    befores: Vec<u32>,
}

impl Events {
    /// No events.
    pub fn new(alloc: Global) -> Events
        ensures { length result.events.items ≡ 0 }
    {
        Events {
            events: Vec::new(alloc),
            lasts: Vec::new(alloc),
            befores: Vec::new(alloc),
        }
    }

    /// The number of the event of a choice, where the row has the parts that it reads.
    pub fn find(&self, row: &[u32], choice: u32, part: u32, queue: u32) -> Option<usize>
        ensures { IfSome result (Matches self.now.events.items row.now choice part queue) }
    {
        let mut next = self.last(part);
        while next > 0 {
            let number = (next - 1) as usize;
            if number >= self.events.len() || number >= self.befores.len() {
                return None;
            }
            if is_event(&self.events[number], row, choice, part, queue) {
                return Some(number);
            }
            let before = self.befores[number];
            if before >= next {
                return None;
            }
            next = before;
        }
        None
    }

    // The number of the last event of a part, plus 1, or 0.
    fn last(&self, part: u32) -> u32 {
        if part as usize >= self.lasts.len() {
            return 0;
        }
        self.lasts[part as usize]
    }

    /// Adds an event, and returns its number.
    ///
    /// `AllocError`: memory was refused, or there are 2^32 events.
    pub fn add(&mut self, event: Event) -> Result<usize, AllocError>
        ensures kept { (self.new.events.items ≡ self.old.events.items)
            ⊎ (self.new.events.items ≡ self.old.events.items ++ event ∷ []) }
        ensures number { IfOk result (λ number.
            slice_get self.new.events.items number ≡ Some event) }
    {
        let number = self.events.len();
        if number >= u32::MAX as usize {
            return Err(AllocError);
        }
        let part = event.part;
        let before = self.last(part);
        self.befores.push(before)?;
        self.put_last(part, number as u32 + 1)?;
        self.events.push(event)?;
        Ok(number)
    }

    // Makes an event the last one of a part.
    fn put_last(&mut self, part: u32, last: u32) -> Result<(), AllocError>
        ensures { self.new.events ≡ self.old.events }
    {
        while self.lasts.len() <= part as usize {
            self.lasts.push(0)?;
        }
        self.lasts[part as usize] = last;
        Ok(())
    }
}

// Whether it is the event of a choice, and the row has the parts that it reads.
fn is_event(event: &Event, row: &[u32], choice: u32, part: u32, queue: u32) -> bool
    ensures choice { result ≡ true → event.now.choice ≡ choice }
    ensures part { result ≡ true → event.now.part ≡ part }
    ensures queue { result ≡ true → event.now.queue ≡ queue }
    ensures fit { result ≡ true → Fit event.now.writes.items row.now }
{
    event.choice == choice && event.part == part && event.queue == queue && fit(&event.writes, row)
}

// Whether a row has the parts that are written over.
fn fit(writes: &[Write], row: &[u32]) -> bool
    ensures { result ≡ true → Fit writes.now row.now }
{
    for write in writes {
        if !has(row, write.place, write.old) {
            return false;
        }
    }
    true
}

// Whether a row has a number at a place.
fn has(row: &[u32], place: u32, number: u32) -> bool
    ensures inside { result ≡ true → place < length row.now }
    ensures is { result ≡ true → number_at row.now place ≡ number }
{
    let place = place as usize;
    place < row.len() && row[place] == number
}

/// Writes what becomes of parts into a row.
pub fn apply(writes: &[Write], row: &mut [u32])
    requires { Fit writes.now row.old }
    ensures { row.new ≡ written writes.now row.old }
{
    for write in writes {
        row[write.place as usize] = write.new;
    }
}

/// What becomes of the parts of a row that differ from those of another one.
///
/// `AllocError`: memory was refused.
pub fn writes_of(alloc: Global, old: &[u32], new: &[u32]) -> Result<Vec<Write>, AllocError>
    requires long { length new.now ≡ length old.now }
    requires few { length old.now < 1000 }
    ensures { IfOk result (λ writes. AreWrites old.now new.now (length old.now) writes.items) }
{
    let mut writes = Vec::new(alloc);
    for place in 0..old.len() {
        put_write(&mut writes, place as u32, old[place], new[place])?;
    }
    Ok(writes)
}

// Appends what becomes of a part, unless it stays.
fn put_write(writes: &mut Vec<Write>, place: u32, old: u32, new: u32) -> Result<(), AllocError>
    ensures { OnOk result (
        ((old ≡ new) × (writes.new.items ≡ writes.old.items))
        ⊎ (writes.new.items ≡ writes.old.items ++ (record {
          place = place;
          old = old;
          new = new;
        }) ∷ [])) }
{
    if old == new {
        return Ok(());
    }
    writes.push(Write { place, old, new })?;
    Ok(())
}
