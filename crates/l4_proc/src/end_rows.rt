//! The ends of the events of a log, most of them in 8 bytes.
ghost use Rattle.std.specs.Prelude.{◌≡◌, ◌≤◌, ◌^◌, IfSome};
ghost use Rattle.l4_proc.specs.Inner.EndRows.{IsShort};

use l4_types::errors::NoMemory;
use std::alloc::Global;
use std::marker::Model;

// Room is reserved for this many ends at once: to ask each time costs more than a push.
const CHUNK_ENDS: usize = 64;

// Behind the first chunk rows get this much room, 128 KiB. The allocator maps such a piece: to grow
// moves its pages, where a smaller one is copied, and pages that nobody has touched take no memory.
const MAPPED_ENDS: usize = 16_384;

// Indexes of wide ends are below this. A log that would need more of them finds no memory.
const INDEXES: usize = 1 << 32;

/// The end of an event. Its steps lie between the end of the event before and this index.
#[derive(Clone, Copy)]
pub(crate) struct End {
    pub(crate) stamp: u64,
    pub(crate) place: usize,
    /// What the processor did, as a number (`choice`).
    pub(crate) choice: u64,
}

/// An end in 8 bytes.
#[derive(Clone, Copy)]
pub(crate) enum Row {
    /// The stamp is this far ahead of that of the last end before the chunk: stamps rise.
    Short { choice: u8, ahead: u16, place: u32 },
    /// An end that takes more room, by its index among those: that of a tick, one behind 2^32
    /// steps, or one whose stamp is 2^16 ahead.
    Wide(u32),
}

impl Row {
    /// The row of an end in a chunk with this base. None where it takes more room.
    #[inline(always)]
    fn new(base: u64, end: End) -> Option<Row>
        requires { base ≤ 2 ^ 63 }
        ensures { IfSome result (IsShort base end) }
    {
        let ahead = end.stamp.wrapping_sub(base);
        if ahead > u64::from(u16::MAX) {
            return None;
        }
        if end.place > u32::MAX as usize || end.choice > u64::from(u8::MAX) {
            return None;
        }
        Some(Row::Short {
            choice: end.choice as u8,
            ahead: ahead as u16,
            place: end.place as u32,
        })
    }
}

/// The ends of events in order, and room for more of them.
#[derive(Drop)]
pub(crate) struct Ends {
    rows: Vec<Row>,
    // For each chunk of rows the stamp that theirs are ahead of.
    bases: Vec<u64>,
    // The last of them.
    base: u64,
    wide: Vec<End>,
    room: usize,
}

impl Model for Ends {
    ghost use Rattle.std.specs.Prelude.{◌+◌, ◌^◌, ◌≤◌, All, length, vec_len};
    ghost use Rattle.std.specs.Vec.{vec_capacity};
    ghost use Rattle.l4_proc.specs.Inner.EndRows.{HasBases, IsRow, ToldEnds, ends_from};

    ghost Value = { ToldEnds };

    ghost view = { λ e. record {
      items = ends_from e.bases.items e.wide.items e.rows.items 0;
      room = e.room;
    } };

    ghost invariant = { λ e. All (IsRow (length e.wide.items)) e.rows.items ×
        (vec_len e.rows + e.room ≤ vec_capacity e.rows) ×
        (vec_len e.wide + e.room ≤ vec_capacity e.wide) × (vec_len e.wide + e.room ≤ 2 ^ 32) ×
        HasBases e.bases.items e.base (vec_len e.rows) e.room };
}

impl Ends {
    ghost use Rattle.std.specs.Prelude.{◌≡◌, ◌<◌, ◌≤◌, ◌^◌, [], ◌∷◌, ◌++◌, OnOk, Some, length, slice_get};

    /// No ends, and no room. It takes no memory.
    pub(crate) fn new(alloc: Global) -> Ends
        ensures { result ≡ record { items = []; room = 0 } }
    {
        Ends {
            rows: Vec::new(alloc),
            bases: Vec::new(alloc),
            base: 0,
            wide: Vec::new(alloc),
            room: 0,
        }
    }

    /// How many there are, below 2^63.
    #[tactic(auto, using(crate::proofs::EndRows::as_many_ends))]
    pub(crate) fn len(&self) -> usize
        ensures value { result ≡ length self.now.items }
        ensures fits { result < 2 ^ 63 }
    {
        self.rows.as_slice().len()
    }

    /// Gives the prover what always holds of it; no code.
    #[inline(always)]
    pub(crate) fn facts(&self)
        ensures { length self.now.items < 2 ^ 63 }
    {
        let _ = self.len();
    }

    /// Makes room for one more.
    #[inline(always)]
    pub(crate) fn reserve(&mut self) -> Result<(), NoMemory>
        ensures items { self.new.items ≡ self.old.items }
        ensures ok { OnOk result (0 < self.new.room) }
    {
        if self.room == 0 {
            return self.grow();
        }
        Ok(())
    }

    // The stamp of the last end: those of the next chunk are ahead of it. 0 where there is none.
    fn next_base(&self) -> u64
        ensures { result ≤ 2 ^ 63 }
    {
        match self.len() {
            0 => 0,
            len => self.get(len - 1).stamp.min(1 << 63),
        }
    }

    // Makes room for many at once.
    #[inline(never)]
    fn grow(&mut self) -> Result<(), NoMemory>
        requires { self.old.room ≡ 0 }
        ensures items { self.new.items ≡ self.old.items }
        ensures ok { OnOk result (0 < self.new.room) }
    {
        let base = self.next_base();
        if self.wide.len() > INDEXES - CHUNK_ENDS {
            return Err(NoMemory);
        }
        let more = if self.rows.len() == CHUNK_ENDS {
            MAPPED_ENDS
        } else {
            CHUNK_ENDS
        };
        self.rows.reserve(more)?;
        self.wide.reserve(CHUNK_ENDS)?;
        self.bases.push(base)?;
        self.base = base;
        self.room = CHUNK_ENDS;
        Ok(())
    }

    /// Appends an end. It takes no memory: the caller has reserved room.
    #[inline(always)]
    pub(crate) fn push(&mut self, end: End)
        requires { 0 < self.old.room }
        ensures { self.new.items ≡ self.old.items ++ end ∷ [] }
    {
        match Row::new(self.base, end) {
            Some(row) => {
                self.rows.push_reserved(row);
                self.room -= 1;
            }
            None => {
                self.rows.push_reserved(Row::Wide(self.wide.len() as u32));
                self.wide.push_reserved(end);
                self.room -= 1;
            }
        }
    }

    /// The i-th end, counted from 0.
    #[inline(always)]
    #[tactic(auto, using(crate::proofs::EndRows::as_many_ends))]
    pub(crate) fn get(&self, i: usize) -> End
        requires { i < length self.now.items }
        ensures { slice_get self.now.items i ≡ Some result }
    {
        match self.rows[i] {
            Row::Short {
                choice,
                ahead,
                place,
            } => End {
                stamp: self.bases[i / CHUNK_ENDS] + u64::from(ahead),
                place: place as usize,
                choice: u64::from(choice),
            },
            Row::Wide(at) => self.wide[at as usize],
        }
    }
}
