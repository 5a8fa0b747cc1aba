//! What the lines of a machine text say.
ghost use Rattle.std.specs.Prelude.{◌≡◌, ◌<◌, ◌≤◌, IfOk};
ghost use Rattle.std.specs.Option.{option_map};
ghost use Rattle.std.specs.Str.{bytes_eq};
ghost use Rattle.l4_model.specs.Words.{last_register};
ghost use Rattle.l4_model.specs.Machine.{most_processors};
ghost use Rattle.l4_types.specs.Inner.FormatView.{format_of};
ghost use Rattle.l4_types.specs.Inner.OperationView.{operation_of};
ghost use Rattle.l4_types.specs.StepView.{order_kind_of};
ghost use Rattle.l4_script.specs.declared.text.fault.TextFaultKind.TheVariants.{BadId, BadLine};
ghost use Rattle.l4_words.specs.Words.{one};
ghost use Rattle.l4_script.specs.Ids.{id_of};
ghost use Rattle.l4_script.specs.Judged.{Returns, needs};
ghost use Rattle.l4_script.specs.Inner.Scripts.{id_from_of, instr_of};
ghost use Rattle.l4_script.specs.Numbers.{number_from};
ghost use Rattle.l4_script.specs.Statements.{heading_by, format_line, processors_line};
ghost use Rattle.l4_script.specs.Statements.{processor_of, declaration_of, word_value};
ghost use Rattle.l4_script.specs.Statements.{register_value, computed_value, assign_of};
ghost use Rattle.l4_script.specs.Statements.{tag_of, vs_of};
ghost use Rattle.l4_script.specs.Statements.{destination_of, ipc_of, bits_of, exregs_of, delete_of};
ghost use Rattle.l4_script.specs.Statements.{target_of, jump_of, on_error_of, end_of};
ghost use Rattle.l4_script.specs.Statements.{instruction_of};
ghost use Rattle.l4_script.specs.Inner.Headings.{heading_of};

use super::fault::TextFaultKind;
use super::ids::{id, thread_in};
use super::lines::after;
use super::numbers::{number, number_from, time, word_from};
use super::operations::operation;
use crate::instructions::{IdFrom, Instr, Ipc, Register, Source};
use crate::machine::Declaration;
use l4_types::formats::Format;
use l4_types::ids::ThreadId;
use l4_types::operations::Operation;
use l4_types::registers::MESSAGE_REGISTERS;
use l4_types::steps::{MOST_PROCESSORS, OrderKind};
use l4_types::tags::{MsgTag, TagFault};
use l4_words::words::Words;
use std::alloc::Global;

pub(super) const CPU: &[u8] = b"cpu";

pub(super) const SPACE: &[u8] = b"space";

pub(super) const SET: &[u8] = b"set";

pub(super) const COPY: &[u8] = b"copy";

pub(super) const TAG: &[u8] = b"tag";

pub(super) const VIRTUAL_SENDER: &[u8] = b"vs";

pub(super) const IPC: &[u8] = b"ipc";

pub(super) const EXCHANGE_REGISTERS: &[u8] = b"exregs";

pub(super) const DELETE: &[u8] = b"delete";

pub(super) const JUMP: &[u8] = b"jump";

pub(super) const ON_ERROR: &[u8] = b"onerr";

pub(super) const END: &[u8] = b"end";

pub(super) const LAST_REGISTER: u64 = MESSAGE_REGISTERS as u64 - 1;

/// The only word left, else `BadLine`.
pub(super) fn only<'a>(words: Words<'a>) -> Result<&'a [u8], TextFaultKind>
    ensures { Returns (λ word. word.now) result (needs (one words.entry) BadLine) }
{
    words.one().ok_or(TextFaultKind::BadLine)
}

/// What a first line says.
#[derive(Clone, Copy, Debug)]
pub struct Heading {
    /// Whether the machine retargets.
    pub(super) retargeting: bool,
    /// The format of its words.
    pub(super) format: Format,
}

impl Heading {
    /// The format of the words.
    pub fn format(&self) -> Format
        ensures { result ≡ self.now.format }
    {
        self.format
    }
}

/// What a profile and the number of bits of a word say. None where there is no such first line.
pub(super) fn heading_by(profile: u64, width: u64) -> Option<Heading>
    ensures { option_map heading_of result ≡ heading_by profile width }
{
    let (retargeting, format) = match (profile, width) {
        (1, 64) => (false, Format::W64),
        (1, 32) => (false, Format::W32),
        (2, 64) => (true, Format::W64),
        (2, 32) => (true, Format::W32),
        _ => return None,
    };
    Some(Heading {
        retargeting,
        format,
    })
}

/// The first line: `l4`, a profile and the number of bits of a word.
#[tactic(auto, unfolding(crate::specs::Statements::format_line))]
pub(super) fn format_line(words: Words<'_>) -> Result<Heading, TextFaultKind>
    ensures { Returns heading_of result (format_line words.entry) }
{
    let (profile, width) = after(b"l4", words)?.two().ok_or(TextFaultKind::BadLine)?;
    let profile = number(profile).ok_or(TextFaultKind::BadNumber)?;
    let width = number(width).ok_or(TextFaultKind::BadNumber)?;
    heading_by(profile, width).ok_or(TextFaultKind::BadNumber)
}

/// The line `cpus N`.
#[tactic(auto, unfolding(crate::specs::Statements::processors_line))]
pub(super) fn processors_line(words: Words<'_>) -> Result<u8, TextFaultKind>
    ensures value { result ≡ processors_line words.entry }
    ensures some { IfOk result (λ cpus. 1 ≤ cpus) }
    ensures limit { IfOk result (λ cpus. cpus ≤ most_processors) }
{
    let number = only(after(b"cpus", words)?)?;
    let cpus = number_from(1, u64::from(MOST_PROCESSORS), number)?;
    Ok(cpus as u8)
}

/// A processor below their number: `BadNumber` where the word is no number, `BadCpu` where it is
/// not below.
#[tactic(auto, unfolding(crate::specs::Statements::processor_of))]
pub fn processor(cpus: u8, word: &[u8]) -> Result<u8, TextFaultKind>
    ensures value { result ≡ processor_of cpus word.now }
    ensures below { IfOk result (λ cpu. cpu < cpus) }
{
    let cpu = number(word).ok_or(TextFaultKind::BadNumber)?;
    if cpu < u64::from(cpus) {
        Ok(cpu as u8)
    } else {
        Err(TextFaultKind::BadCpu)
    }
}

/// The declaration that follows `thread`.
#[tactic(auto, unfolding(crate::specs::Statements::declaration_of))]
pub(super) fn declaration(
    alloc: Global,
    format: Format,
    cpus: u8,
    operands: Words<'_>,
) -> Result<Declaration, TextFaultKind>
    ensures value { result ≡ declaration_of (format_of format) cpus operands.entry }
    ensures home { IfOk result (λ thread. thread.cpu < cpus) }
{
    let (id, cpu_keyword, cpu, space_keyword, space) = operands
        .five()
        .ok_or(TextFaultKind::BadLine)?;
    if cpu_keyword != CPU || space_keyword != SPACE {
        return Err(TextFaultKind::BadLine);
    }
    let id = thread_in(format, id).ok_or(TextFaultKind::BadId)?;
    let cpu = processor(cpus, cpu)?;
    let space = number_from(0, u64::from(u32::MAX), space)?;
    Ok(Declaration::new(alloc, id, cpu, space as u32))
}

pub(super) fn register(word: &[u8]) -> Result<Register, TextFaultKind>
    ensures { result ≡ number_from 1 last_register word.now }
{
    let number = number_from(1, LAST_REGISTER, word)?;
    Register::new(number as u8).ok_or(TextFaultKind::BadNumber)
}

pub(super) fn source(word: &[u8]) -> Result<Source, TextFaultKind>
    ensures { result ≡ number_from 0 last_register word.now }
{
    let number = number_from(0, LAST_REGISTER, word)?;
    Source::new(number as u8).ok_or(TextFaultKind::BadNumber)
}

/// The instruction `set` with these operands.
#[inline(never)]
#[tactic(auto, unfolding(crate::specs::Statements::assign_of))]
pub(super) fn set(format: Format, operands: Words<'_>) -> Result<Instr, TextFaultKind>
    ensures { Returns instr_of result (assign_of (word_value (format_of format)) operands.entry) }
{
    let (first, second) = operands.two().ok_or(TextFaultKind::BadLine)?;
    let register = register(first)?;
    let word = word_from(format, second)?;
    Ok(Instr::Set(register, word))
}

/// The instruction `copy` with these operands.
#[inline(never)]
#[tactic(auto, unfolding(crate::specs::Statements::assign_of))]
pub(super) fn copy(operands: Words<'_>) -> Result<Instr, TextFaultKind>
    ensures { Returns instr_of result (assign_of register_value operands.entry) }
{
    let (first, second) = operands.two().ok_or(TextFaultKind::BadLine)?;
    let register = register(first)?;
    let source = source(second)?;
    Ok(Instr::Copy(register, source))
}

/// The instruction that does an operation, with these operands.
#[inline(never)]
#[tactic(auto, unfolding(crate::specs::Statements::assign_of))]
pub(super) fn compute(
    format: Format,
    operation: Operation,
    operands: Words<'_>,
) -> Result<Instr, TextFaultKind>
    ensures { Returns instr_of result
        (assign_of (computed_value (format_of format) (operation_of operation)) operands.entry) }
{
    let (first, second) = operands.two().ok_or(TextFaultKind::BadLine)?;
    let register = register(first)?;
    let word = word_from(format, second)?;
    match format {
        Format::W64 => Ok(Instr::Compute(operation, register, word)),
        Format::W32 => Ok(Instr::ShortCompute(operation, register, word)),
    }
}

/// The instruction `tag` with these operands.
#[inline(never)]
#[tactic(auto, unfolding(crate::specs::Statements::tag_of, crate::specs::Numbers::word_from))]
pub(super) fn tag(format: Format, operands: Words<'_>) -> Result<Instr, TextFaultKind>
    ensures { Returns instr_of result (tag_of (format_of format) operands.entry) }
{
    let word = number(only(operands)?).ok_or(TextFaultKind::BadNumber)?;
    match MsgTag::from_raw_in(format, word) {
        Ok(tag) => Ok(Instr::Tag(tag)),
        Err(TagFault::Wide) => Err(TextFaultKind::BadNumber),
        Err(TagFault::TypedItems) => Err(TextFaultKind::TypedItems),
    }
}

fn thread_id(format: Format, word: &[u8]) -> Result<ThreadId, TextFaultKind>
    ensures { result ≡ needs (id_of (format_of format) word.now) BadId }
{
    id(format, word).ok_or(TextFaultKind::BadId)
}

/// The instruction `vs` with these operands.
#[inline(never)]
#[tactic(auto, unfolding(crate::specs::Statements::vs_of))]
fn vs(format: Format, operands: Words<'_>) -> Result<Instr, TextFaultKind>
    ensures { Returns instr_of result (vs_of (format_of format) operands.entry) }
{
    Ok(Instr::Vs(IdFrom::Fixed(thread_id(format, only(operands)?)?)))
}

/// Where an ipc sends to: an id, or `last`. Else `BadId`.
#[tactic(auto, unfolding(crate::specs::Statements::destination_of))]
pub fn destination(format: Format, word: &[u8]) -> Result<IdFrom, TextFaultKind>
    ensures { Returns id_from_of result (destination_of (format_of format) word.now) }
{
    match word {
        b"last" => Ok(IdFrom::Last),
        _ => Ok(IdFrom::Fixed(thread_id(format, word)?)),
    }
}

/// The instruction `ipc` with these operands.
#[inline(never)]
#[tactic(auto, unfolding(crate::specs::Statements::ipc_of))]
fn ipc(format: Format, operands: Words<'_>) -> Result<Instr, TextFaultKind>
    ensures { Returns instr_of result (ipc_of (format_of format) operands.entry) }
{
    let (to, from, send, receive) = operands.four().ok_or(TextFaultKind::BadLine)?;
    let to = destination(format, to)?;
    let from = IdFrom::Fixed(thread_id(format, from)?);
    let send = time(send)?;
    let receive = time(receive)?;
    Ok(Instr::Ipc(Ipc::new(to, from, send, receive)))
}

/// The bits `S`, `R` or `SR` (manual: ExchangeRegisters). None for any other word.
#[tactic(auto, unfolding(crate::specs::Statements::bits_of))]
pub fn bits(word: &[u8]) -> Option<OrderKind>
    ensures { option_map order_kind_of result ≡ bits_of word.now }
{
    match word {
        b"S" => Some(OrderKind::CancelSend),
        b"R" => Some(OrderKind::CancelReceive),
        b"SR" => Some(OrderKind::CancelBoth),
        _ => None,
    }
}

/// The instruction `exregs` with these operands.
#[inline(never)]
#[tactic(auto, unfolding(crate::specs::Statements::exregs_of))]
fn exregs(format: Format, operands: Words<'_>) -> Result<Instr, TextFaultKind>
    ensures { Returns instr_of result (exregs_of (format_of format) operands.entry) }
{
    let (target, bits_keyword) = operands.two().ok_or(TextFaultKind::BadLine)?;
    let what = bits(bits_keyword).ok_or(TextFaultKind::BadLine)?;
    let target = IdFrom::Fixed(thread_id(format, target)?);
    Ok(Instr::Order(target, what))
}

/// The instruction `delete` with these operands.
#[inline(never)]
#[tactic(auto, unfolding(crate::specs::Statements::delete_of))]
fn delete(format: Format, operands: Words<'_>) -> Result<Instr, TextFaultKind>
    ensures { Returns instr_of result (delete_of (format_of format) operands.entry) }
{
    let target = IdFrom::Fixed(thread_id(format, only(operands)?)?);
    Ok(Instr::Order(target, OrderKind::Delete))
}

/// The operand of `jump` or `onerr`.
#[tactic(auto, unfolding(crate::specs::Statements::target_of))]
fn target(operands: Words<'_>) -> Result<u64, TextFaultKind>
    ensures { result ≡ target_of operands.entry }
{
    number(only(operands)?).ok_or(TextFaultKind::BadNumber)
}

/// The instruction `jump` with this operand.
#[inline(never)]
fn jump(operands: Words<'_>) -> Result<Instr, TextFaultKind>
    ensures { Returns instr_of result (jump_of operands.entry) }
{
    Ok(Instr::Jump(target(operands)?))
}

/// The instruction `onerr` with this operand.
#[inline(never)]
fn on_error(operands: Words<'_>) -> Result<Instr, TextFaultKind>
    ensures { Returns instr_of result (on_error_of operands.entry) }
{
    Ok(Instr::OnErr(target(operands)?))
}

/// The instruction `end`, which has no operands.
#[inline(always)]
pub(super) fn end(mut operands: Words<'_>) -> Result<Instr, TextFaultKind>
    ensures { Returns instr_of result (end_of operands.entry) }
{
    match operands.next() {
        None => Ok(Instr::End),
        Some(_) => Err(TextFaultKind::BadLine),
    }
}

/// Whether a word is this one. Where the keyword is known, nothing is called, as `==` would.
#[inline(always)]
#[tactic(auto, using(crate::proofs::Keywords::other_length, crate::proofs::Keywords::same_byte, crate::proofs::Keywords::other_byte))]
pub(super) fn is(word: &[u8], keyword: &[u8]) -> bool
    ensures { result ≡ bytes_eq word.now keyword.now }
{
    if word.len() != keyword.len() {
        return false;
    }
    for place in 0..word.len() {
        if word[place] != keyword[place] {
            return false;
        }
    }
    true
}

/// An instruction of this name, or the first fault of its line: `BadLine`, `BadNumber`, `BadId` or
/// `TypedItems`.
#[inline(always)]
#[tactic(auto, unfolding(crate::specs::Statements::instruction_of, crate::specs::Statements::value_of, crate::specs::Statements::other_of))]
pub fn instruction(format: Format, name: &[u8], operands: Words<'_>) -> Result<Instr, TextFaultKind>
    ensures { Returns instr_of result (instruction_of (format_of format) name.now operands.entry) }
{
    if is(name, SET) {
        return set(format, operands);
    }
    if is(name, COPY) {
        return copy(operands);
    }
    if let Some(operation) = operation(name) {
        return compute(format, operation, operands);
    }
    if is(name, TAG) {
        return tag(format, operands);
    }
    if is(name, VIRTUAL_SENDER) {
        return vs(format, operands);
    }
    if is(name, IPC) {
        return ipc(format, operands);
    }
    if is(name, EXCHANGE_REGISTERS) {
        return exregs(format, operands);
    }
    if is(name, DELETE) {
        return delete(format, operands);
    }
    if is(name, JUMP) {
        return jump(operands);
    }
    if is(name, ON_ERROR) {
        return on_error(operands);
    }
    if is(name, END) {
        return end(operands);
    }
    Err(TextFaultKind::BadLine)
}
