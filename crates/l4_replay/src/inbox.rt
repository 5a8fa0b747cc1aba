//! The letters that have arrived at a processor.
ghost use Rattle.std.specs.Prelude.{◌≡◌, ◌≤◌, [], IfOk, length, replicate};
ghost use Rattle.l4_model.specs.Machine.{most_processors};
ghost use Rattle.l4_replay.specs.Inner.Posters.{MarksPosters};

use crate::letter_queue::{LetterQueue, Letters};
use l4_script::machine::Machine;
use l4_types::errors::NoMemory;
use l4_types::letter_ref::LetterRef;
use std::alloc::{AllocError, Global};

/// For each processor of a machine the letters that came from it and were not taken yet.
#[derive(Drop)]
pub(crate) struct Inbox {
    queues: Vec<LetterQueue>,
    // Bit p is set where there are letters from processor p: a turn need not look at each queue.
    posters: u64,
    ghost few: { length queues.items ≤ most_processors },
    ghost marks: { MarksPosters posters queues.items },
}

impl Inbox {
    ghost use Rattle.std.specs.Prelude.{◌≡◌, ◌<◌, ◌++◌, ◌∷◌, ◌↔◌, [], IfOk, IsTrue, OnErr, OnOk};
    ghost use Rattle.std.specs.Prelude.{drop, length, replicate, slice_get, slice_index_or};
    ghost use Rattle.l4_model.specs.World.{changed};
    ghost use Rattle.l4_replay.specs.Inner.Inboxes.{letters_in};
    ghost use Rattle.l4_replay.specs.Inner.Posters.{AreEmpty, PostsFirst};

    /// An empty inbox of a processor of this machine.
    pub(crate) fn new(alloc: Global, machine: &Machine) -> Result<Inbox, NoMemory>
        ensures { IfOk result (λ inbox. letters_in inbox ≡ replicate machine.now.cpus []) }
    {
        Ok(Inbox {
            queues: empty_queues(alloc, machine.cpus())?,
            posters: 0,
        })
    }

    /// The first of the letters that came from this processor.
    pub(crate) fn first(&self, from: u8) -> Option<LetterRef<'_>>
        requires { from < length (letters_in self.now) }
        ensures { result ≡ slice_get (slice_index_or (letters_in self.now) from []) 0 }
    {
        self.queues[usize::from(from)].first()
    }

    /// Drops the first of the letters that came from this processor.
    pub(crate) fn drop_first(&mut self, from: u8)
        requires { from < length (letters_in self.old) }
        ensures { letters_in self.new ≡ changed (drop 1) (letters_in self.old) from }
    {
        let letters = &mut self.queues[usize::from(from)];
        letters.drop_first();
        if letters.is_empty() {
            self.posters &= !(1 << from);
        }
    }

    /// Appends a letter from a processor. If memory is refused, nothing is changed.
    #[inline(always)]
    pub(crate) fn put(&mut self, from: u8, letter: &LetterRef<'_>) -> Result<(), AllocError>
        requires { from < length (letters_in self.old) }
        ensures ok { OnOk result (letters_in self.new ≡
            changed (λ letters. letters ++ letter.now ∷ []) (letters_in self.old) from) }
        ensures err { OnErr result (letters_in self.new ≡ letters_in self.old) }
    {
        self.queues[usize::from(from)].push(letter)?;
        self.posters |= 1 << from;
        Ok(())
    }

    /// The letters that came from a processor and were not taken yet.
    pub(crate) fn letters(&self, from: u8) -> Letters<'_>
        requires { from < length (letters_in self.now) }
        ensures { result ≡ slice_index_or (letters_in self.now) from [] }
    {
        self.queues[usize::from(from)].letters()
    }

    /// Whether each letter that has come was taken.
    pub(crate) fn is_empty(&self) -> bool
        ensures { IsTrue result ↔ AreEmpty (letters_in self.now) }
    {
        self.first_poster().is_none()
    }

    /// The lowest processor that letters have come from.
    pub(crate) fn first_poster(&self) -> Option<u8>
        ensures { PostsFirst (letters_in self.now) result }
    {
        if self.posters == 0 {
            return None;
        }
        Some(self.posters.trailing_zeros() as u8)
    }
}

// An empty queue of letters from each of `cpus` processors.
fn empty_queues(alloc: Global, cpus: u8) -> Result<Vec<LetterQueue>, NoMemory>
    ensures { IfOk result (λ queues. queues.items ≡ replicate cpus []) }
{
    let mut queues = Vec::with_capacity(alloc, usize::from(cpus))?;
    for _ in 0..cpus {
        queues.push(LetterQueue::new(alloc))?;
    }
    Ok(queues)
}
