//! The lines that most traces consist of, read from the front of a text as they come, without a look
//! for their end. What is none of them is left to `steps`.
ghost use Rattle.std.specs.Prelude.{◌≡◌, ◌<◌, ◌≤◌, ◌++◌, ◌∷◌, true, IsTrue, IfSome, decimal};
ghost use Rattle.std.specs.Prelude.{length};
ghost use Rattle.l4_model.specs.Words.{is_global, register_count};
ghost use Rattle.l4_model.specs.Steps.{Tick as ModelTick};
ghost use Rattle.l4_types.specs.StepView.{delivered as seen_delivery};
ghost use Rattle.l4_trace.specs.Inner.Forward.{BeginsWith, told_step};
ghost use Rattle.l4_trace.specs.Lines.{is_name, is_tag_of, name_word, thread_word};

use crate::reader::ReadWords;
use crate::steps::{delivered, read_words};
use l4_types::ids::GlobalId;
use l4_types::step_ref::DeliveryRef;
use l4_types::steps::{Name, Tick};
use l4_words::lines::split_line;
use l4_words::words::Words;
use std::marker::Model;

// A decimal number of this many digits is below 2^64.
const FEW_DIGITS: usize = 16;

/// What the line of a delivery tells before the words of its message.
#[derive(Clone, Copy)]
pub(crate) struct Told {
    pub(crate) name: Name,
    pub(crate) receiver: GlobalId,
    pub(crate) shown: GlobalId,
    pub(crate) actual: GlobalId,
    pub(crate) tag: u64,
}

impl Told {
    /// The delivery, with the words of its message.
    #[inline(always)]
    pub(crate) fn delivery<'w>(&self, words: &'w [u64]) -> DeliveryRef<'w>
        requires few { length words.now < register_count }
        requires tag { is_tag_of self.now.tag words.now ≡ true }
        ensures { seen_delivery result ≡ told_step self.now words.now }
    {
        let (name, receiver, shown) = (self.name, self.receiver, self.shown);
        delivered(name, receiver, shown, self.actual, self.tag, words).unwrap()
    }
}

/// What is left of a text that is read from its front. Where a call returns None, no clause says
/// what is left.
#[derive(Drop)]
pub(crate) struct Front<'t> {
    rest: &'t [u8],
}

impl<'t> Model for Front<'t> {
    ghost use Rattle.std.specs.Prelude.{List, ℕ};

    ghost Value = { List ℕ };

    ghost view = { λ f. f.rest.now };
}

impl<'t> Front<'t> {
    #[inline(always)]
    pub(crate) fn of(text: &'t [u8]) -> Front<'t>
        ensures { result ≡ text.now }
    {
        Front { rest: text }
    }

    #[inline(always)]
    pub(crate) fn rest(&self) -> &'t [u8]
        ensures { result.now ≡ self.now }
    {
        self.rest
    }

    #[inline(always)]
    fn byte(&mut self, byte: u8) -> Option<()>
        ensures { IfSome result (λ _. self.old ≡ byte ∷ self.new) }
    {
        let text = self.rest;
        if text.is_empty() || text[0] != byte {
            return None;
        }
        self.rest = &text[1..];
        Some(())
    }

    #[inline(always)]
    fn bytes(&mut self, bytes: &[u8]) -> Option<()>
        ensures { IfSome result (λ _. self.old ≡ bytes.now ++ self.new) }
    {
        self.rest = behind(bytes, self.rest)?;
        Some(())
    }

    // A decimal number, of more digits than 16 the first ones. Behind a zero in front no digit is
    // read.
    #[inline(always)]
    fn decimal(&mut self) -> Option<u64>
        ensures { IfSome result (λ number. self.old ≡ decimal number ++ self.new) }
    {
        let text = self.rest;
        if text.is_empty() || !is_digit(text[0]) {
            return None;
        }
        if text[0] == b'0' {
            self.rest = &text[1..];
            return Some(0);
        }
        let most = text.len().min(FEW_DIGITS);
        let mut value = u64::from(text[0] - b'0');
        let mut count = 1;
        while count < most && is_digit(text[count]) {
            value = value * 10 + u64::from(text[count] - b'0');
            count += 1;
        }
        self.rest = &text[count..];
        Some(value)
    }

    #[inline(always)]
    fn thread(&mut self) -> Option<GlobalId>
        ensures word { IfSome result (λ thread. self.old ≡ thread_word thread ++ self.new) }
        ensures global { IfSome result (λ thread. is_global thread ≡ true) }
    {
        let number = self.decimal()?;
        self.byte(b'.')?;
        let version = self.decimal()?;
        GlobalId::new(u32::try_from(number).ok()?, u32::try_from(version).ok()?)
    }

    #[inline(always)]
    fn name(&mut self) -> Option<Name>
        ensures word { IfSome result (λ name. self.old ≡ name_word name ++ self.new) }
        ensures name { IfSome result (λ name. is_name name ≡ true) }
    {
        let thread = self.thread()?;
        self.byte(b'#')?;
        Name::new(thread, self.decimal()?)
    }

    #[inline(always)]
    fn spaced_thread(&mut self) -> Option<GlobalId>
        ensures word { IfSome result (λ thread. self.old ≡ 32 ∷ thread_word thread ++ self.new) }
        ensures global { IfSome result (λ thread. is_global thread ≡ true) }
    {
        self.byte(b' ')?;
        self.thread()
    }

    /// The thread of a line that these bytes begin.
    #[inline(always)]
    pub(crate) fn thread_line(&mut self, bytes: &[u8]) -> Option<GlobalId>
        ensures line { IfSome result (λ thread.
            self.old ≡ bytes.now ++ thread_word thread ++ 10 ∷ self.new) }
        ensures global { IfSome result (λ thread. is_global thread ≡ true) }
    {
        self.bytes(bytes)?;
        let thread = self.thread()?;
        self.byte(b'\n')?;
        Some(thread)
    }

    /// The name of a line that these bytes begin.
    #[inline(always)]
    pub(crate) fn name_line(&mut self, bytes: &[u8]) -> Option<Name>
        ensures line { IfSome result (λ name.
            self.old ≡ bytes.now ++ name_word name ++ 10 ∷ self.new) }
        ensures name { IfSome result (λ name. is_name name ≡ true) }
    {
        self.bytes(bytes)?;
        let name = self.name()?;
        self.byte(b'\n')?;
        Some(name)
    }

    /// The tick of a line.
    #[inline(always)]
    pub(crate) fn tick_line(&mut self) -> Option<Tick>
        ensures { IfSome result (λ tick.
            BeginsWith (ModelTick tick.cpu tick.clock) self.new self.old) }
    {
        self.bytes(b"tick ")?;
        let cpu = self.decimal()?;
        self.byte(b' ')?;
        let tick = Tick::new(u8::try_from(cpu).ok()?, self.decimal()?)?;
        self.byte(b'\n')?;
        Some(tick)
    }

    /// What is told by the line of a delivery. The words of its message replace those in `words`.
    #[inline(always)]
    pub(crate) fn delivery_line(&mut self, words: &mut ReadWords) -> Option<Told>
        ensures { IfSome result (λ told.
            BeginsWith (told_step told words.new.items) self.new self.old) }
    {
        self.bytes(b"deliver ")?;
        let name = self.name()?;
        let receiver = self.spaced_thread()?;
        let shown = self.spaced_thread()?;
        let actual = self.spaced_thread()?;
        self.byte(b' ')?;
        let (line, rest) = split_line(self.rest)?;
        let mut operands = Words::of(line);
        let tag = operands.next_hexadecimal()?;
        read_words(operands, words)?;
        if !is_tag_of(tag, words.as_slice()) {
            return None;
        }
        self.rest = rest;
        Some(Told {
            name,
            receiver,
            shown,
            actual,
            tag,
        })
    }
}

// What follows some bytes in front of a text.
#[inline(always)]
fn behind<'t>(bytes: &[u8], text: &'t [u8]) -> Option<&'t [u8]>
    ensures { IfSome result (λ rest. text.now ≡ bytes.now ++ rest.now) }
{
    if text.len() < bytes.len() {
        return None;
    }
    for (place, byte) in bytes.iter().enumerate() {
        if text[place] != *byte {
            return None;
        }
    }
    Some(&text[bytes.len()..])
}

#[inline(always)]
fn is_digit(byte: u8) -> bool
    ensures { IsTrue result → (48 ≤ byte) × (byte ≤ 57) }
{
    byte >= b'0' && byte <= b'9'
}

// Whether a word is the tag of a delivery of these words.
#[inline(always)]
fn is_tag_of(tag: u64, words: &[u64]) -> bool
    ensures { result ≡ is_tag_of tag words.now }
{
    (tag >> 6) & 0x3f == 0
        && (tag >> 13) & 1 == 0
        && (tag >> 15) & 1 == 0
        && (tag & 0x3f) as usize == words.len()
}
