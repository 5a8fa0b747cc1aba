//! The instructions of a script.
ghost use Rattle.std.specs.Prelude.{◌≡◌, ◌<◌, IfSome, IsSome, ◌↔◌};
ghost use Rattle.l4_model.specs.Words.{register_count};
ghost use Rattle.l4_model.specs.Rules.{assigned_by};
ghost use Rattle.l4_types.specs.Inner.PeriodView.{IsTimely};
ghost use Rattle.l4_script.specs.Inner.Scripts.{instr_of};
ghost use Rattle.l4_script.specs.Second.Statements.{with_place};

use l4_types::formats::Format;
use l4_types::ids::ThreadId;
use l4_types::operations::Operation;
use l4_types::registers::MESSAGE_REGISTERS;
use l4_types::steps::OrderKind;
use l4_types::tags::MsgTag;
use l4_types::times::Period;
use std::marker::Model;

/// A message register that a script may write with any word: MR1 to MR63 (manual: Messages and
/// Message Registers).
#[derive(Clone, Copy, PartialEq, Eq, Debug)]
pub struct Register {
    number: u8,
}

impl Model for Register {
    ghost use Rattle.std.specs.Prelude.{ℕ, ◌<◌};

    ghost Value = { ℕ };

    ghost view = { λ r. r.number };

    ghost use Rattle.l4_model.specs.Words.{register_count};

    ghost invariant = { (λ r. (0 < r.number) × (r.number < register_count)) };

    ghost inverse = { λ n. record { number = n } };
}

impl Register {
    /// The register of this number, or None where it is 0 or above 63.
    pub fn new(number: u8) -> Option<Register>
        ensures some { IfSome result (λ register. register ≡ number) }
        ensures when { IsSome result ↔ ((0 < number) × (number < register_count)) }
    {
        if number == 0 || usize::from(number) >= MESSAGE_REGISTERS {
            return None;
        }
        Some(Register { number })
    }

    /// The number of the register, 1 to 63.
    pub fn number(&self) -> u8
        ensures value { result ≡ self.now }
        ensures lower { 0 < result }
        ensures upper { result < register_count }
    {
        self.number
    }
}

/// A message register that a script may read: MR0 to MR63 (manual: Messages and Message Registers).
#[derive(Clone, Copy, PartialEq, Eq, Debug)]
pub struct Source {
    index: u8,
}

impl Model for Source {
    ghost use Rattle.std.specs.Prelude.{ℕ, ◌<◌};

    ghost Value = { ℕ };

    ghost view = { λ r. r.index };

    ghost use Rattle.l4_model.specs.Words.{register_count};

    ghost invariant = { (λ r. r.index < register_count) };

    ghost inverse = { λ n. record { index = n } };
}

impl Source {
    /// The register of this number, or None where it is above 63.
    pub fn new(number: u8) -> Option<Source>
        ensures some { IfSome result (λ source. source ≡ number) }
        ensures when { IsSome result ↔ (number < register_count) }
    {
        if usize::from(number) >= MESSAGE_REGISTERS {
            return None;
        }
        Some(Source { index: number })
    }

    /// The number of the register, 0 to 63.
    pub fn number(&self) -> u8
        ensures value { result ≡ self.now }
        ensures upper { result < register_count }
    {
        self.index
    }
}

/// Where an instruction has an id from.
#[derive(Clone, Copy, PartialEq, Eq, Debug)]
pub enum IdFrom {
    /// It stands there.
    Fixed(ThreadId),
    /// What the register `from` has at that moment.
    Last,
    /// The id whose word of this format the register has then, nilthread where it is none.
    InRegister(Format, Source),
}

/// An Ipc of a script (manual: Ipc). Its periods are below 2^42 ticks, as a time can spell no
/// longer one.
#[derive(Clone, Copy, PartialEq, Eq, Debug)]
pub struct Ipc {
    to: IdFrom,
    from: IdFrom,
    send_period: Period,
    receive_period: Period,
}

impl Model for Ipc {
    ghost use Rattle.l4_types.specs.Inner.PeriodView.{IsTimely};
    ghost use Rattle.l4_script.specs.Inner.Calls.{Call};

    ghost Value = { Call };

    ghost view = { λ i. record {
      to = i.to;
      from = i.from;
      send_period = i.send_period;
      receive_period = i.receive_period;
    } };

    ghost invariant = { λ i. IsTimely i.send_period × IsTimely i.receive_period };

    ghost inverse = { λ i. record {
      to = i.to;
      from = i.from;
      send_period = i.send_period;
      receive_period = i.receive_period;
    } };
}

impl Ipc {
    /// An Ipc with these phases. There is a send phase unless `to` is nilthread, and a receive
    /// phase unless `from` is nilthread.
    pub(crate) fn new(to: IdFrom, from: IdFrom, send_period: Period, receive_period: Period) -> Ipc
        requires send { IsTimely send_period }
        requires receive { IsTimely receive_period }
        ensures { result ≡ record {
          to = to;
          from = from;
          send_period = send_period;
          receive_period = receive_period;
        } }
    {
        Ipc {
            to,
            from,
            send_period,
            receive_period,
        }
    }

    /// Where it sends to. To nilthread there is no send phase.
    pub fn to(&self) -> IdFrom
        ensures { result ≡ self.now.to }
    {
        self.to
    }

    /// Whom its receive phase accepts (manual: Ipc, `FromSpecifier`). With nilthread there is no
    /// receive phase.
    pub fn from(&self) -> IdFrom
        ensures { result ≡ self.now.from }
    {
        self.from
    }

    /// How long its send phase may wait, below 2^42 ticks.
    pub fn send_period(&self) -> Period
        ensures value { result ≡ self.now.send_period }
        ensures timely { IsTimely result }
    {
        self.send_period
    }

    /// How long its receive phase may wait, below 2^42 ticks.
    pub fn receive_period(&self) -> Period
        ensures value { result ≡ self.now.receive_period }
        ensures timely { IsTimely result }
    {
        self.receive_period
    }
}

/// One instruction of a script.
#[derive(Clone, Copy, PartialEq, Eq, Debug)]
pub enum Instr {
    /// The register becomes the word.
    Set(Register, u64),
    /// The register becomes what the other one has.
    Copy(Register, Source),
    /// The register becomes what the operation makes of it and the word, modulo 2^64 (texts of 64
    /// bits).
    Compute(Operation, Register, u64),
    /// The register becomes what the operation makes of it and the word, modulo 2^32 (texts of 32
    /// bits).
    ShortCompute(Operation, Register, u64),
    /// MR0 becomes the tag.
    Tag(MsgTag),
    /// The register that is VirtualSender and ActualSender becomes the id (manual: Thread Control
    /// Registers).
    Vs(IdFrom),
    /// The system call (manual: Ipc).
    Ipc(Ipc),
    /// An order to cancel or delete a thread (manual: ExchangeRegisters, ThreadControl).
    Order(IdFrom, OrderKind),
    /// Goes on at this place of the script, counted from 0.
    Jump(u64),
    /// Goes on at this place if ErrorCode is not 0, else at the next instruction.
    OnErr(u64),
    /// The register becomes the word of the id that `from` has (texts of 64 bits).
    From(Register),
    /// The register becomes the word of the id that `from` has (texts of 32 bits).
    ShortFrom(Register),
    /// Goes on at this place if the label of MR0 is the first number, else at the next instruction.
    OnLabel(u64, u64),
    /// Goes on at this place if the register has the word, else at the next instruction.
    OnWord(Source, u64, u64),
    /// Goes on at this place if the register `from` has the id, else at the next instruction.
    OnFrom(ThreadId, u64),
    /// The thread has ended.
    End,
}

impl Instr {
    /// The register that it assigns a value.
    pub fn assigned(&self) -> Option<Register>
        ensures { result ≡ assigned_by (instr_of self.now) }
    {
        match *self {
            Instr::Set(register, _)
            | Instr::Copy(register, _)
            | Instr::Compute(_, register, _)
            | Instr::ShortCompute(_, register, _)
            | Instr::From(register)
            | Instr::ShortFrom(register) => Some(register),
            _ => None,
        }
    }

    /// Goes on at this place, if it goes on at one.
    #[inline(always)]
    pub(crate) fn set_place(&mut self, place: u64)
        ensures { instr_of self.new ≡ with_place place (instr_of self.old) }
    {
        match self {
            Instr::Jump(at) => *at = place,
            Instr::OnErr(at) => *at = place,
            Instr::OnLabel(_, at) => *at = place,
            Instr::OnWord(_, _, at) => *at = place,
            Instr::OnFrom(_, at) => *at = place,
            _ => {}
        }
    }
}
