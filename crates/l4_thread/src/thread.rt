//! The part of a thread that its own instructions read and write.
ghost use Rattle.std.specs.Prelude.{◌≡◌, ◌<◌, ◌^◌, ◌+◌, ◌%◌, ◌==◌, IfSome, false, true, take, drop};
ghost use Rattle.std.specs.Prelude.{length, List, [], ℕ, slice_set, unwrap_or};
ghost use Rattle.std.specs.Option.{option_map};
ghost use Rattle.l4_model.specs.Words.{NilThread, id_in, is_same, word_in, tag_of_word};
ghost use Rattle.l4_model.specs.Words.{word_of_tag, word_limit, register_count};
ghost use Rattle.l4_model.specs.World.{opening_context};
ghost use Rattle.l4_model.specs.Rules.{failed, sent, received, ordered, advanced, ran, register};
ghost use Rattle.l4_model.specs.Rules.{computed, id_from, place_if, receive_phase};
ghost use Rattle.l4_types.specs.Inner.Codes.{code_of};
ghost use Rattle.l4_types.specs.Inner.FormatView.{format_of};
ghost use Rattle.l4_types.specs.Inner.OperationView.{operation_of};
ghost use Rattle.l4_types.specs.Inner.PeriodView.{period_of, IsTimely};
ghost use Rattle.l4_script.specs.Inner.Scripts.{id_from_of, instr_of, ipc_of};
ghost use Rattle.l4_thread.specs.Inner.Held.{message_of};
ghost use Rattle.l4_thread.specs.Inner.Messages.{unlabelled};
ghost use Rattle.l4_thread.specs.Inner.Requests.{originator_if, message_if, propagates, phases_of};
ghost use Rattle.l4_thread.specs.Inner.Requests.{phases_from, phases_held, phases_begun};
ghost use Rattle.l4_thread.specs.Inner.Requests.{receive_from, counted, AreTimely, AreTimelyHeld};
ghost use Rattle.l4_thread.specs.Inner.Requests.{asks_to_send, is_end};

use crate::requests::{Begun, Request};
use crate::sends::{Head, Words};
use l4_script::instructions::{IdFrom, Instr, Ipc, Register, Source};
use l4_types::errors::IpcError;
use l4_types::formats::Format;
use l4_types::ids::{GlobalId, ThreadId};
use l4_types::message_ref::MessageRef;
use l4_types::messages::Message;
use l4_types::operations::Operation;
use l4_types::registers::Regs;
use l4_types::tags::MsgTag;
use l4_types::times::Period;
use std::marker::Model;

/// A thread: its id, its registers, its place in its script, and how many sends it began.
#[derive(Drop)]
pub struct Thread {
    id: GlobalId,
    regs: Regs,
    place: usize,
    begun: u64,
}

impl Model for Thread {
    ghost use Rattle.l4_thread.specs.Inner.Parts.{Part};

    ghost Value = { Part };

    ghost view = { λ t. record {
      id = t.id;
      context = record {
        words = t.regs.words;
        error = t.regs.error;
        from = t.regs.from;
        actual = t.regs.actual;
        place = t.place;
        begun = t.begun;
      };
    } };
}

impl Thread {
    /// A thread that has run nothing.
    pub fn new(id: GlobalId) -> Thread
        ensures { result ≡ record { id = id; context = opening_context } }
    {
        Thread {
            id,
            regs: Regs::new(),
            place: 0,
            begun: 0,
        }
    }

    /// A copy.
    pub(crate) fn duplicate(&self) -> Thread
        ensures { result ≡ self.now }
    {
        Thread {
            id: self.id,
            regs: self.regs,
            place: self.place,
            begun: self.begun,
        }
    }

    /// The thread's id.
    pub fn id(&self) -> GlobalId
        ensures { result ≡ self.now.id }
    {
        self.id
    }

    /// The registers.
    pub fn regs(&self) -> &Regs
        ensures { result.now ≡ record {
          words = self.now.context.words;
          error = self.now.context.error;
          from = self.now.context.from;
          actual = self.now.context.actual;
        } }
    {
        &self.regs
    }

    /// The place in the script, counted from 0.
    pub fn place(&self) -> usize
        ensures { result ≡ self.now.context.place }
    {
        self.place
    }

    /// How many sends the thread began.
    pub fn begun(&self) -> u64
        ensures { result ≡ self.now.context.begun }
    {
        self.begun
    }

    /// Whether a send of it asks for propagation: bit 12 of message register 0 (manual: MsgTag,
    /// `p`).
    pub fn propagates(&self) -> bool
        ensures { result ≡ propagates self.now.context }
    {
        MsgTag::propagates_in(self.regs.words[0])
    }

    /// Sets the number of a stand-in's send.
    pub(crate) fn begin_at(&mut self, k: u64)
        ensures { self.new ≡ record self.old { context = record self.old.context { begun = k } } }
    {
        self.begun = k;
    }

    // Goes on to the next instruction.
    fn advance(&mut self)
        requires { self.old.context.place + 1 < 2 ^ 64 }
        ensures { self.new ≡ record self.old { context = advanced self.old.context } }
    {
        self.place += 1;
    }

    // Sets a message register to a word.
    fn set(&mut self, register: Register, word: u64)
        ensures { self.new ≡ record self.old {
          context = record self.old.context {
            words = slice_set self.old.context.words register word;
          };
        } }
    {
        self.regs.words[usize::from(register.number())] = word;
    }

    // The word in a message register.
    fn register(&self, number: u8) -> u64
        requires { number < register_count }
        ensures { result ≡ register self.now.context number }
    {
        self.regs.words[usize::from(number)]
    }

    // A message register becomes what an operation makes of it and a word, as a format counts it.
    fn compute(&mut self, format: Format, operation: Operation, to: Register, word: u64)
        ensures { self.new ≡ record self.old {
          context = record self.old.context {
            words = slice_set self.old.context.words to
                (computed (operation_of operation) (register self.old.context to) word
                % word_limit (format_of format));
          };
        } }
    {
        let computed = format.computed(operation, self.register(to.number()), word);
        self.set(to, computed);
    }

    // Whether the tag in message register 0 has this label.
    fn has_label(&self, label: u64) -> bool
        ensures { result ≡ ((tag_of_word (register self.now.context 0)).label == label) }
    {
        MsgTag::label_in(self.regs.words[0]) == label
    }

    // Whether the register `from` has this id.
    fn is_from(&self, id: ThreadId) -> bool
        ensures { result ≡ is_same self.now.context.from id }
    {
        self.regs.from.raw() == id.raw()
    }

    // Goes on at a place of the script where a test holds, else at the next instruction. The script
    // does not end with it.
    fn branch(&mut self, holds: bool, place: u64) -> bool
        requires { self.old.context.place + 1 < 2 ^ 64 }
        ensures context { self.new ≡ record self.old {
          context = record self.old.context { place = place_if self.old.context place holds };
        } }
        ensures ends { result ≡ false }
    {
        if holds {
            self.jump(place);
        } else {
            self.advance();
        }
        false
    }

    // Goes on at a place of the script.
    fn jump(&mut self, place: u64)
        ensures { self.new ≡ record self.old {
          context = record self.old.context { place = place };
        } }
    {
        self.place = place as usize;
    }

    /// Runs an instruction that concerns nobody else (manual: Messages and Message Registers,
    /// Thread Control Registers), and returns whether the script ends with it. An Ipc run here has
    /// no phases; an order run here is refused with ErrorCode 2.
    pub fn local(&mut self, instr: &Instr) -> bool
        requires room { is_end (instr_of instr.now) ≡ false → self.old.context.place + 1 < 2 ^ 64 }
        ensures context { self.new ≡ record self.old {
          context = ran (instr_of instr.now) self.old.context;
        } }
        ensures ends { result ≡ is_end (instr_of instr.now) }
    {
        match instr {
            Instr::Set(register, word) => self.set(*register, *word),
            Instr::Copy(register, source) => self.set(*register, self.register(source.number())),
            Instr::Compute(operation, register, word) => {
                self.compute(Format::W64, *operation, *register, *word);
            }
            Instr::ShortCompute(operation, register, word) => {
                self.compute(Format::W32, *operation, *register, *word);
            }
            Instr::Tag(tag) => self.regs.words[0] = tag.raw(),
            Instr::Vs(from) => self.regs.actual = self.id_from(*from),
            Instr::Ipc(_) => self.sent(),
            Instr::Order(_, _) => self.regs.error = 2,
            Instr::Jump(place) => {
                self.jump(*place);
                return false;
            }
            Instr::OnErr(place) if self.regs.error != 0 => {
                self.jump(*place);
                return false;
            }
            Instr::OnErr(_) => {}
            Instr::From(register) => self.set(*register, self.word_from(Format::W64)),
            Instr::ShortFrom(register) => self.set(*register, self.word_from(Format::W32)),
            Instr::OnLabel(label, place) => return self.branch(self.has_label(*label), *place),
            Instr::OnWord(source, word, place) => {
                return self.branch(self.register(source.number()) == *word, *place);
            }
            Instr::OnFrom(id, place) => return self.branch(self.is_from(*id), *place),
            Instr::End => return true,
        }
        self.advance();
        false
    }

    /// Begins the phases of an Ipc (manual: Ipc), of which there may be none. `permitted` says
    /// whether the thread may show the originator that its VirtualSender names. Other instructions
    /// have no phases.
    pub fn request(&mut self, instr: &Instr, permitted: bool) -> Request
        requires room { is_end (instr_of instr.now) ≡ false → self.old.context.place + 1 < 2 ^ 64 }
        requires count { asks_to_send self.old.context (instr_of instr.now) ≡ true →
            self.old.context.begun + 1 < 2 ^ 64 }
        ensures phases { phases_from result ≡
            phases_of permitted self.old.id self.old.context (instr_of instr.now) }
        ensures timely { AreTimely result }
        ensures context { self.new ≡ record self.old {
          context = phases_begun
              (phases_of permitted self.old.id self.old.context (instr_of instr.now))
              self.old.context;
        } }
    {
        let begun = self.begin_phases(instr, permitted);
        let receive = begun.receive;
        if let Some(phase) = begun.send {
            let send = Some(self.with_message(phase));
            return Request { send, receive };
        }
        Request {
            send: None,
            receive,
        }
    }

    /// Begins the phases as `request` does, and leaves the words in the registers: beginning a
    /// phase does not change them.
    pub(crate) fn begin_phases(&mut self, instr: &Instr, permitted: bool) -> Begun
        requires room { is_end (instr_of instr.now) ≡ false → self.old.context.place + 1 < 2 ^ 64 }
        requires count { asks_to_send self.old.context (instr_of instr.now) ≡ true →
            self.old.context.begun + 1 < 2 ^ 64 }
        ensures phases { phases_held [] self.old.context.words result ≡
            phases_of permitted self.old.id self.old.context (instr_of instr.now) }
        ensures stays { (apart : List ℕ) → phases_held apart self.old.context.words result ≡
            phases_of permitted self.old.id self.old.context (instr_of instr.now) }
        ensures timely { AreTimelyHeld result }
        ensures context { self.new ≡ record self.old {
          context = phases_begun
              (phases_of permitted self.old.id self.old.context (instr_of instr.now))
              self.old.context;
        } }
    {
        match instr {
            Instr::Ipc(ipc) => self.begin(ipc, permitted),
            _ => Begun::NONE,
        }
    }

    /// Ends an Ipc that received a message, with this tag in message register 0. Registers past its
    /// words keep their contents.
    pub fn received(&mut self, message: &Message, tag: MsgTag)
        ensures { self.new ≡ record self.old {
          context = received message.now (word_of_tag tag) self.old.context;
        } }
    {
        self.received_words(message.words(), message.shown(), message.actual(), tag);
    }

    /// Ends an Ipc that received a message of these words, at most 63. It shows one sender, and
    /// another one may have sent it.
    pub(crate) fn received_words(
        &mut self,
        words: &[u64],
        shown: GlobalId,
        actual: GlobalId,
        tag: MsgTag,
    )
        requires { length words.now < register_count }
        ensures { self.new ≡ record self.old {
          context = received (unlabelled words.now shown actual)
              (word_of_tag tag) self.old.context;
        } }
    {
        let end = words.len() + 1;
        self.regs.words[0] = tag.raw();
        if !words.is_empty() {
            self.regs.words[1..end].copy_from_slice(words);
        }
        self.regs.error = 0;
        self.regs.from = shown.id();
        self.regs.actual = actual.id();
    }

    /// Ends an Ipc that succeeded without a receive phase.
    pub fn sent(&mut self)
        ensures { self.new ≡ record self.old { context = sent self.old.context } }
    {
        self.regs.words[0] = 0;
        self.regs.error = 0;
        self.regs.from = ThreadId::NIL;
    }

    /// Ends an Ipc that failed.
    pub fn fail(&mut self, error: IpcError)
        ensures { self.new ≡ record self.old { context = failed (code_of error) self.old.context } }
    {
        self.regs.words[0] = MsgTag::FAILED.raw();
        self.regs.error = error.code();
        self.regs.from = ThreadId::NIL;
    }

    /// Ends an order: it was done, ErrorCode 0, or refused, ErrorCode 2 (manual: ExchangeRegisters,
    /// ThreadControl).
    pub fn ordered(&mut self, code: u64)
        requires { self.old.context.place + 1 < 2 ^ 64 }
        ensures { self.new ≡ record self.old { context = ordered code self.old.context } }
    {
        self.regs.error = code;
        self.advance();
    }

    // Begins the phases of an Ipc.
    fn begin(&mut self, ipc: &Ipc, permitted: bool) -> Begun
        requires room { self.old.context.place + 1 < 2 ^ 64 }
        requires count { asks_to_send self.old.context (ipc_of ipc.now) ≡ true →
            self.old.context.begun + 1 < 2 ^ 64 }
        ensures phases { phases_held [] self.old.context.words result ≡
            phases_of permitted self.old.id self.old.context (ipc_of ipc.now) }
        ensures stays { (apart : List ℕ) → phases_held apart self.old.context.words result ≡
            phases_of permitted self.old.id self.old.context (ipc_of ipc.now) }
        ensures timely { AreTimelyHeld result }
        ensures context { self.new ≡ record self.old {
          context = phases_begun (phases_of permitted self.old.id self.old.context (ipc_of ipc.now))
              self.old.context;
        } }
    {
        let to = self.id_from(ipc.to());
        let receive = self.receive_phase(ipc);
        if to == ThreadId::NIL {
            if receive.is_some() {
                self.advance();
            }
            return Begun {
                send: None,
                receive,
            };
        }
        let head = self.head(permitted);
        self.count();
        Begun {
            send: Some((to, head, ipc.send_period())),
            receive,
        }
    }

    /// Counts one more send.
    pub(crate) fn count(&mut self)
        requires room { self.old.context.place + 1 < 2 ^ 64 }
        requires count { self.old.context.begun + 1 < 2 ^ 64 }
        ensures { self.new ≡ record self.old { context = counted self.old.context } }
    {
        self.advance();
        self.begun += 1;
    }

    /// The id that an instruction names, as the registers are now.
    #[inline(always)]
    pub fn id_from(&self, from: IdFrom) -> ThreadId
        ensures { result ≡ id_from self.now.context (id_from_of from) }
    {
        match from {
            IdFrom::Fixed(id) => id,
            IdFrom::Last => self.regs.from,
            IdFrom::InRegister(format, source) => self.id_in(format, source),
        }
    }

    // The id whose word a message register has, nilthread where it is no word of the format.
    #[inline(always)]
    fn id_in(&self, format: Format, source: Source) -> ThreadId
        ensures { result ≡ unwrap_or
            (id_in (format_of format) (register self.now.context source)) NilThread }
    {
        ThreadId::from_raw_in(format, self.register(source.number())).unwrap_or(ThreadId::NIL)
    }

    // The word of the id that the register `from` has, 0 where the format has none.
    #[inline(always)]
    fn word_from(&self, format: Format) -> u64
        ensures { result ≡ unwrap_or (word_in (format_of format) self.now.context.from) 0 }
    {
        self.regs.from.raw_in(format).unwrap_or(0)
    }

    /// The receive phase of an Ipc that begins now, unless its specifier is nilthread.
    #[inline(always)]
    pub(crate) fn receive_phase(&self, ipc: &Ipc) -> Option<(ThreadId, Period)>
        ensures value { option_map receive_from result ≡ receive_phase
            (id_from self.now.context (id_from_of ipc.now.from)) (period_of ipc.now.receive_period) }
        ensures timely { IfSome result (λ r. IsTimely r.1) }
    {
        let from = self.id_from(ipc.from());
        if from == ThreadId::NIL {
            None
        } else {
            Some((from, ipc.receive_period()))
        }
    }

    // The originator that a send of this thread shows, where bit 12 of message register 0 asks for
    // propagation and the thread may show it.
    fn originator(&self, permitted: bool) -> Option<GlobalId>
        ensures { result ≡ originator_if permitted self.now.context }
    {
        if permitted && self.propagates() {
            self.regs.actual.as_global()
        } else {
            None
        }
    }

    /// The first `count` words from message register 1 on.
    pub(crate) fn words(&self, count: u8) -> &[u64]
        requires { count < register_count }
        ensures value { result.now ≡ take count (drop 1 self.now.context.words) }
        ensures fits { length result.now < register_count }
    {
        &self.regs.words[1..usize::from(count) + 1]
    }

    /// The message of a send that it begins now and that shows no originator.
    pub fn ordinary_message(&self) -> MessageRef<'_>
        ensures { result ≡ message_if false self.now.id self.now.context }
    {
        let mr0 = self.regs.words[0];
        let words = self.words(MsgTag::untyped_in(mr0));
        MessageRef::new(MsgTag::label_in(mr0), false, words, self.id, self.id)
    }

    // A send phase with its message.
    fn with_message(&self, phase: (ThreadId, Head, Period)) -> (ThreadId, Message, Period)
        ensures to { result.0 ≡ phase.0 }
        ensures message { result.1 ≡ message_of [] self.now.context.words phase.1 }
        ensures period { result.2 ≡ phase.2 }
    {
        let (to, head, period) = phase;
        (to, self.message(&head), period)
    }

    // The message of this head, whose words are in the registers.
    fn message(&self, head: &Head) -> Message
        ensures { result ≡ message_of [] self.now.context.words head.now }
    {
        let words = match head.words() {
            Words::InRegisters(count) => self.words(count),
            Words::Apart => &[],
        };
        head.with_words(words).to_message()
    }

    // The message of a send that this thread begins now, but for its words.
    fn head(&self, permitted: bool) -> Head
        ensures { (apart : List ℕ) → message_of apart self.now.context.words result ≡
            message_if permitted self.now.id self.now.context }
    {
        let originator = self.originator(permitted);
        let mr0 = self.regs.words[0];
        Head::in_registers(
            MsgTag::label_in(mr0),
            MsgTag::untyped_in(mr0),
            originator.is_some(),
            originator.unwrap_or(self.id),
            self.id,
        )
    }
}
