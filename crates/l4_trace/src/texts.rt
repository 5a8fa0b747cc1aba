//! Words of lines that come again: threads, and the name of the last send. What was spelled is kept
//! as text.
ghost use Rattle.std.specs.Prelude.{◌≡◌, ◌<◌, ◌≤◌, ◌+◌, ◌-◌, ◌++◌, [], All, OnOk, codes, drop, length, take, true};
ghost use Rattle.l4_model.specs.Words.{is_global};
ghost use Rattle.l4_trace.specs.Lines.{is_name, name_word, thread_word};
ghost use Rattle.l4_trace.specs.Inner.Texts.{EndsWith, IsNameText, IsThreadText};

use l4_types::errors::NoMemory;
use l4_types::ids::GlobalId;
use l4_types::steps::Name;
use l4_words::digits::write_bytes;
use l4_words::pieces::{NAME_BYTES, THREAD_BYTES, write_name, write_send_number, write_thread};
use std::alloc::Global;

/// Writes the words of a line that name threads and sends, each with the space before it.
pub(crate) trait Speller {
    /// Writes a space and a thread just before `end` in the line. Returns where they start.
    fn write_thread(&mut self, thread: GlobalId, line: &mut [u8], end: usize) -> usize
        requires room { THREAD_BYTES ≤ end }
        requires within { end ≤ length line.old }
        ensures room { end ≤ result + THREAD_BYTES }
        ensures within { result ≤ end }
        ensures written { drop result line.new ≡ codes " " ++
            thread_word thread ++ drop end line.old }
        ensures spelled { is_global thread ≡ true };

    /// Writes a space and the name of a send just before `end` in the line. Returns where they
    /// start.
    fn write_name(&mut self, name: Name, line: &mut [u8], end: usize) -> usize
        requires room { NAME_BYTES ≤ end }
        requires within { end ≤ length line.old }
        ensures room { end ≤ result + NAME_BYTES }
        ensures within { result ≤ end }
        ensures written { drop result line.new ≡ codes " " ++ name_word name ++ drop end line.old }
        ensures spelled { is_name name ≡ true };
}

/// Spells each word anew.
#[derive(Drop)]
pub(crate) struct Anew;

impl Speller for Anew {
    fn write_thread(&mut self, thread: GlobalId, line: &mut [u8], end: usize) -> usize {
        write_thread(thread, line, end)
    }

    fn write_name(&mut self, name: Name, line: &mut [u8], end: usize) -> usize {
        write_name(name, line, end)
    }
}

// So many bytes are copied for a thread, and for a name: these are short, mostly.
const THREAD_TEXT: usize = 16;

const NAME_TEXT: usize = 32;

// How many threads are kept: threads of consecutive numbers never share a slot.
const SLOTS: usize = 1024;

/// A thread as text: a space and its word end the bytes.
#[derive(Clone, Copy)]
pub(crate) struct ThreadText {
    pub(crate) thread: GlobalId,
    pub(crate) start: usize,
    pub(crate) bytes: [u8; THREAD_TEXT],
}

impl ThreadText {
    // The text of a thread whose word is short.
    fn new(thread: GlobalId, word: &[u8]) -> ThreadText
        requires word { word.now ≡ codes " " ++ thread_word thread }
        requires short { length word.now ≤ THREAD_TEXT }
        requires spelled { is_global thread ≡ true }
        ensures text { IsThreadText result }
        ensures thread { result.thread ≡ thread }
    {
        let mut bytes = [0; THREAD_TEXT];
        let start = write_bytes(word, &mut bytes, THREAD_TEXT);
        ThreadText {
            thread,
            start,
            bytes,
        }
    }

    // Writes it just before `end` in the line.
    #[inline(always)]
    fn write(&self, line: &mut [u8], end: usize) -> usize
        requires text { IsThreadText self.now }
        requires room { THREAD_TEXT ≤ end }
        requires within { end ≤ length line.old }
        ensures room { end ≤ result + THREAD_TEXT }
        ensures within { result ≤ end }
        ensures written { drop result line.new ≡ codes " " ++
            thread_word self.now.thread ++ drop end line.old }
    {
        write_bytes(&self.bytes, line, end) + self.start
    }
}

/// The name of a send as text: a space and its word end the bytes.
#[derive(Clone, Copy)]
pub(crate) struct NameText {
    pub(crate) name: Name,
    pub(crate) start: usize,
    pub(crate) bytes: [u8; NAME_TEXT],
}

impl NameText {
    // The text of the first send of 0.1.
    fn new() -> NameText
        ensures { IsNameText result }
    {
        let name = Name::new(GlobalId::default(), 1).unwrap();
        NameText {
            name,
            start: 26,
            bytes: *b"                           0.1#1",
        }
    }

    // The text of a name that stands in a line, between these places.
    #[inline(always)]
    fn of(name: Name, line: &[u8], start: usize, end: usize) -> NameText
        requires room { NAME_TEXT ≤ end }
        requires within { end ≤ length line.now }
        requires before { start ≤ end }
        requires short { end ≤ start + NAME_TEXT }
        requires text { take (end - start) (drop start line.now) ≡ codes " " ++ name_word name }
        requires spelled { is_name name ≡ true }
        ensures { IsNameText result }
    {
        let mut bytes = [0; NAME_TEXT];
        bytes.copy_from_slice(&line[end - NAME_TEXT..end]);
        NameText {
            name,
            start: start + NAME_TEXT - end,
            bytes,
        }
    }

    // Writes it just before `end` in the line.
    #[inline(always)]
    fn write(&self, line: &mut [u8], end: usize) -> usize
        requires text { IsNameText self.now }
        requires room { NAME_TEXT ≤ end }
        requires within { end ≤ length line.old }
        ensures room { end ≤ result + NAME_TEXT }
        ensures within { result ≤ end }
        ensures written { drop result line.new ≡ codes " " ++
            name_word self.now.name ++ drop end line.old }
    {
        write_bytes(&self.bytes, line, end) + self.start
    }
}

/// What was spelled, as text. A slot keeps the first thread that came to it.
#[derive(Drop)]
pub(crate) struct Texts {
    threads: Vec<ThreadText>,
    last: NameText,
    ghost threads_are: { All IsThreadText threads.items },
    ghost last_is: { IsNameText last },
}

// The slot of a thread.
#[inline(always)]
fn slot_of(thread: GlobalId) -> usize
    ensures { result < SLOTS }
{
    thread.number() as usize % SLOTS
}

impl Texts {
    /// No texts. It takes no memory.
    pub(crate) fn new(alloc: Global) -> Texts {
        Texts {
            threads: Vec::new(alloc),
            last: NameText::new(),
        }
    }

    /// Makes room for texts. In each slot stands a thread that belongs into another one.
    #[inline(never)]
    pub(crate) fn open(&mut self) -> Result<(), NoMemory> {
        let least = GlobalId::default();
        self.threads.resize(SLOTS, ThreadText::new(least, b" 0.1"))?;
        let other = GlobalId::new(1, 1).unwrap();
        self.threads[0] = ThreadText::new(other, b" 1.1");
        Ok(())
    }

    // Writes a thread that is not kept, and keeps it where its slot is free.
    #[inline(never)]
    fn spell(&mut self, thread: GlobalId, line: &mut [u8], end: usize) -> usize
        requires room { THREAD_BYTES ≤ end }
        requires within { end ≤ length line.old }
        ensures room { end ≤ result + THREAD_BYTES }
        ensures within { result ≤ end }
        ensures written { drop result line.new ≡ codes " " ++
            thread_word thread ++ drop end line.old }
        ensures spelled { is_global thread ≡ true }
    {
        let mut bytes = [0; THREAD_BYTES];
        let start = write_thread(thread, &mut bytes, THREAD_BYTES);
        let word = &bytes[start..];
        self.keep(thread, word);
        write_bytes(word, line, end)
    }

    // Keeps a short word, where its slot is free.
    fn keep(&mut self, thread: GlobalId, word: &[u8])
        requires word { word.now ≡ codes " " ++ thread_word thread }
        requires spelled { is_global thread ≡ true }
    {
        let slot = slot_of(thread);
        if word.len() > THREAD_TEXT || slot >= self.threads.len() {
            return;
        }
        if slot_of(self.threads[slot].thread) != slot {
            self.threads[slot] = ThreadText::new(thread, word);
        }
    }

    // Writes a name that is not the last one, and keeps it where it is short.
    #[inline(always)]
    fn spell_name(&mut self, name: Name, line: &mut [u8], end: usize) -> usize
        requires room { NAME_BYTES ≤ end }
        requires within { end ≤ length line.old }
        ensures room { end ≤ result + NAME_BYTES }
        ensures within { result ≤ end }
        ensures written { drop result line.new ≡ codes " " ++ name_word name ++ drop end line.old }
        ensures spelled { is_name name ≡ true }
    {
        let hash = write_send_number(name.k(), line, end);
        let start = self.write_thread(name.thread(), line, hash);
        if end - start <= NAME_TEXT {
            self.last = NameText::of(name, line, start, end);
        }
        start
    }
}

impl Speller for Texts {
    #[inline(always)]
    fn write_thread(&mut self, thread: GlobalId, line: &mut [u8], end: usize) -> usize {
        let slot = slot_of(thread);
        if slot < self.threads.len() && self.threads[slot].thread == thread {
            return self.threads[slot].write(line, end);
        }
        self.spell(thread, line, end)
    }

    #[inline(always)]
    fn write_name(&mut self, name: Name, line: &mut [u8], end: usize) -> usize {
        if self.last.name == name {
            return self.last.write(line, end);
        }
        self.spell_name(name, line, end)
    }
}
