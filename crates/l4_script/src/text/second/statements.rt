//! What the lines of scripts of version 2 say, beside those of version 1.
ghost use Rattle.std.specs.Prelude.{◌≡◌, ◌<◌, ◌≤◌, ◌∷◌, true, IfOk};
ghost use Rattle.std.specs.Option.{option_copied, option_map};
ghost use Rattle.l4_model.specs.Words.{global_id, is_global, label_limit_in};
ghost use Rattle.l4_types.specs.Inner.FormatView.{format_of};
ghost use Rattle.l4_script.specs.Judged.{Returns};
ghost use Rattle.l4_script.specs.Inner.Headings.{heading_of};
ghost use Rattle.l4_script.specs.Inner.Scripts.{instr_of};
ghost use Rattle.l4_script.specs.Inner.Second.{heir_of, home_words_view, thread_words_view};
ghost use Rattle.l4_script.specs.Inner.Second.{unplaced_of};
ghost use Rattle.l4_script.specs.Second.Statements.{is_second_heading, second_format_line};
ghost use Rattle.l4_script.specs.Second.Statements.{source_words_of, home_words_of, many_words_of};
ghost use Rattle.l4_script.specs.Second.Statements.{thread_words_of, last_number};
ghost use Rattle.l4_script.specs.Second.Statements.{second_declaration_of};
ghost use Rattle.l4_script.specs.Second.Statements.{targeting, from_of, second_vs_of};
ghost use Rattle.l4_script.specs.Second.Statements.{second_ipc_of, second_exregs_of};
ghost use Rattle.l4_script.specs.Second.Statements.{second_delete_of, goes_to, on_label_of};
ghost use Rattle.l4_script.specs.Second.Statements.{on_word_of, on_from_of};
ghost use Rattle.l4_script.specs.Second.Statements.{plain_of, without_target};
ghost use Rattle.l4_script.specs.Second.Statements.{second_instruction_of};

use super::super::fault::TextFaultKind;
use super::super::lines::after;
use super::super::numbers::{number, number_from, word_from};
use super::super::operations::operation;
use super::super::statements::{
    COPY, CPU, DELETE, END, EXCHANGE_REGISTERS, Heading, IPC, JUMP, ON_ERROR, SET, SPACE, TAG,
    VIRTUAL_SENDER, bits, compute, copy, end, heading_by, is, only, processor, register, set,
    source, tag,
};
use super::names::{Named, id_named, thread_named};
use super::operands::{Place, id_or_last, id_or_register, named_place, second_time};
use crate::instructions::{Instr, Ipc};
use l4_types::formats::Format;
use l4_types::ids::GlobalId;
use l4_types::steps::OrderKind;
use l4_words::words::Words;

const FORMAT: &[u8] = b"l4";

const AS: &[u8] = b"as";

const TO: &[u8] = b"to";

const FROM: &[u8] = b"from";

const ON_LABEL: &[u8] = b"onlabel";

const ON_WORD: &[u8] = b"onword";

const ON_FROM: &[u8] = b"onfrom";

/// Whether words are `l4 P B 2`, whatever P and B are.
pub(super) fn is_heading(words: Words<'_>) -> bool
    ensures { result ≡ is_second_heading words.entry }
{
    match words.four() {
        Some((l4, _, _, version)) => is(l4, FORMAT) && number(version) == Some(2),
        None => false,
    }
}

/// The first line: `l4`, a profile, the number of bits of a word, and `2`.
#[tactic(auto, unfolding(crate::specs::Second::Statements::second_format_line))]
pub(super) fn format_line(words: Words<'_>) -> Result<Heading, TextFaultKind>
    ensures { Returns heading_of result (second_format_line words.entry) }
{
    let (profile, width, _) = after(FORMAT, words)?.three().ok_or(TextFaultKind::BadLine)?;
    let profile = number(profile).ok_or(TextFaultKind::BadNumber)?;
    let width = number(width).ok_or(TextFaultKind::BadNumber)?;
    heading_by(profile, width).ok_or(TextFaultKind::BadNumber)
}

/// A thread line: what it declares.
#[derive(Drop)]
pub struct Heir<'a> {
    /// The id of the first thread.
    pub id: GlobalId,
    /// The greatest number: that of the first thread where there are no others.
    pub last: u32,
    /// The number of their processor.
    pub cpu: u8,
    /// The number of their address space.
    pub space: u32,
    /// The thread whose script they have.
    pub source: Option<&'a [u8]>,
}

// The home of threads: `cpu P space S`, and whose script they have: `as ID`, or nothing.
#[derive(Drop)]
pub(super) struct HomeWords<'a> {
    cpu: &'a [u8],
    space: &'a [u8],
    source: Option<&'a [u8]>,
}

// The words of a thread line: `ID` or `ID to ID`, and behind it their home.
#[derive(Drop)]
pub(super) struct ThreadWords<'a> {
    id: &'a [u8],
    last: Option<&'a [u8]>,
    home: HomeWords<'a>,
}

// `as ID` or nothing.
fn source_words<'a>(mut words: Words<'a>) -> Option<Option<&'a [u8]>>
    ensures { option_map option_copied result ≡ source_words_of words.entry }
{
    match words.next() {
        None => Some(None),
        Some(keyword) if is(keyword, AS) => Some(Some(words.one()?)),
        Some(_) => None,
    }
}

// A home by its first word and those behind it.
fn home_words<'a>(first: &[u8], mut words: Words<'a>) -> Option<HomeWords<'a>>
    ensures { option_map home_words_view result ≡ home_words_of (first.now ∷ words.entry) }
{
    let cpu = words.next()?;
    let second = words.next()?;
    let space = words.next()?;
    if !is(first, CPU) || !is(second, SPACE) {
        return None;
    }
    let source = source_words(words)?;
    Some(HomeWords { cpu, space, source })
}

// What follows `ID to`: many threads have the script of another.
fn many_words<'a>(id: &'a [u8], mut words: Words<'a>) -> Option<ThreadWords<'a>>
    ensures { option_map thread_words_view result ≡ many_words_of id.now words.entry }
{
    let last = Some(words.next()?);
    let keyword = words.next()?;
    let home = home_words(keyword, words)?;
    if home.source.is_none() {
        return None;
    }
    Some(ThreadWords { id, last, home })
}

fn thread_words<'a>(mut words: Words<'a>) -> Option<ThreadWords<'a>>
    ensures { option_map thread_words_view result ≡ thread_words_of words.entry }
{
    let id = words.next()?;
    let keyword = words.next()?;
    if is(keyword, TO) {
        return many_words(id, words);
    }
    let home = home_words(keyword, words)?;
    Some(ThreadWords {
        id,
        last: None,
        home,
    })
}

// The last thread has the version of the first one, and no lower number.
fn last_number(
    format: Format,
    names: &[Named<'_>],
    first: GlobalId,
    word: Option<&[u8]>,
) -> Result<u32, TextFaultKind>
    ensures value { result ≡
        last_number (format_of format) names.now first (option_copied word.entry) }
    ensures lawful { IfOk result (λ last. is_global (global_id last first.version) ≡ true) }
{
    let Some(word) = word else {
        return Ok(first.number());
    };
    let last = thread_named(format, names, word)?;
    if last.version() != first.version() || last.number() < first.number() {
        return Err(TextFaultKind::BadId);
    }
    Ok(last.number())
}

/// The declaration that follows `thread`.
#[tactic(auto, unfolding(crate::specs::Second::Statements::second_declaration_of))]
pub(super) fn declaration<'a>(
    format: Format,
    names: &[Named<'_>],
    cpus: u8,
    operands: Words<'a>,
) -> Result<Heir<'a>, TextFaultKind>
    ensures value { Returns heir_of result
        (second_declaration_of (format_of format) names.now cpus operands.entry) }
    ensures home { IfOk result (λ heir. heir.cpu < cpus) }
    ensures rises { IfOk result (λ heir. heir.id.number ≤ heir.last) }
    ensures lawful { IfOk result (λ heir. is_global (global_id heir.last heir.id.version) ≡ true) }
{
    let words = thread_words(operands).ok_or(TextFaultKind::BadLine)?;
    let id = thread_named(format, names, words.id)?;
    let last = last_number(format, names, id, words.last)?;
    let cpu = processor(cpus, words.home.cpu)?;
    let space = number_from(0, u64::from(u32::MAX), words.home.space)? as u32;
    Ok(Heir {
        id,
        last,
        cpu,
        space,
        source: words.home.source,
    })
}

/// An instruction, and the instruction of its script that it names, if it names one: then its own
/// place is 0 as yet.
#[derive(Clone, Copy)]
pub struct Unplaced<'a> {
    /// The instruction.
    pub instr: Instr,
    /// The instruction that it names.
    pub target: Option<Place<'a>>,
}

fn with_target(instr: Instr, word: &[u8]) -> Result<Unplaced<'_>, TextFaultKind>
    ensures { Returns unplaced_of result (targeting (instr_of instr) word.now) }
{
    let target = Some(named_place(word)?);
    Ok(Unplaced { instr, target })
}

/// The instruction `from` with this operand.
#[inline(never)]
#[tactic(auto, unfolding(crate::specs::Second::Statements::from_of))]
fn from(format: Format, operands: Words<'_>) -> Result<Instr, TextFaultKind>
    ensures { Returns instr_of result (from_of (format_of format) operands.entry) }
{
    let register = register(only(operands)?)?;
    match format {
        Format::W64 => Ok(Instr::From(register)),
        Format::W32 => Ok(Instr::ShortFrom(register)),
    }
}

/// The instruction `vs` with this operand.
#[inline(never)]
#[tactic(auto, unfolding(crate::specs::Second::Statements::second_vs_of))]
fn vs(format: Format, names: &[Named<'_>], operands: Words<'_>) -> Result<Instr, TextFaultKind>
    ensures { Returns instr_of result
        (second_vs_of (format_of format) names.now operands.entry) }
{
    Ok(Instr::Vs(id_or_last(format, names, only(operands)?)?))
}

/// The instruction `ipc` with these operands.
#[inline(never)]
#[tactic(auto, unfolding(crate::specs::Second::Statements::second_ipc_of))]
fn ipc(format: Format, names: &[Named<'_>], operands: Words<'_>) -> Result<Instr, TextFaultKind>
    ensures { Returns instr_of result
        (second_ipc_of (format_of format) names.now operands.entry) }
{
    let (to, from, send, receive) = operands.four().ok_or(TextFaultKind::BadLine)?;
    let to = id_or_last(format, names, to)?;
    let from = id_or_last(format, names, from)?;
    let send = second_time(send)?;
    let receive = second_time(receive)?;
    Ok(Instr::Ipc(Ipc::new(to, from, send, receive)))
}

/// The instruction `exregs` with these operands.
#[inline(never)]
#[tactic(auto, unfolding(crate::specs::Second::Statements::second_exregs_of))]
fn exregs(format: Format, names: &[Named<'_>], operands: Words<'_>) -> Result<Instr, TextFaultKind>
    ensures { Returns instr_of result
        (second_exregs_of (format_of format) names.now operands.entry) }
{
    let (target, bits_keyword) = operands.two().ok_or(TextFaultKind::BadLine)?;
    let what = bits(bits_keyword).ok_or(TextFaultKind::BadLine)?;
    Ok(Instr::Order(id_or_last(format, names, target)?, what))
}

/// The instruction `delete` with this operand.
#[inline(never)]
#[tactic(auto, unfolding(crate::specs::Second::Statements::second_delete_of))]
fn delete(format: Format, names: &[Named<'_>], operands: Words<'_>) -> Result<Instr, TextFaultKind>
    ensures { Returns instr_of result
        (second_delete_of (format_of format) names.now operands.entry) }
{
    let target = id_or_register(format, names, only(operands)?)?;
    Ok(Instr::Order(target, OrderKind::Delete))
}

/// The instruction `jump` or `onerr` with this operand.
#[inline(never)]
fn goes_to(instr: Instr, operands: Words<'_>) -> Result<Unplaced<'_>, TextFaultKind>
    ensures { Returns unplaced_of result (goes_to (instr_of instr) operands.entry) }
{
    with_target(instr, only(operands)?)
}

// Labels of a format are below it.
fn label_limit(format: Format) -> u64
    ensures { result ≡ label_limit_in (format_of format) }
{
    match format {
        Format::W64 => 1 << 48,
        Format::W32 => 1 << 16,
    }
}

/// The instruction `onlabel` with these operands.
#[inline(never)]
#[tactic(auto, unfolding(crate::specs::Second::Statements::on_label_of))]
fn on_label(format: Format, operands: Words<'_>) -> Result<Unplaced<'_>, TextFaultKind>
    ensures { Returns unplaced_of result (on_label_of (format_of format) operands.entry) }
{
    let (label, target) = operands.two().ok_or(TextFaultKind::BadLine)?;
    let label = number_from(0, label_limit(format) - 1, label)?;
    with_target(Instr::OnLabel(label, 0), target)
}

/// The instruction `onword` with these operands.
#[inline(never)]
#[tactic(auto, unfolding(crate::specs::Second::Statements::on_word_of))]
fn on_word(format: Format, operands: Words<'_>) -> Result<Unplaced<'_>, TextFaultKind>
    ensures { Returns unplaced_of result (on_word_of (format_of format) operands.entry) }
{
    let (register, word, target) = operands.three().ok_or(TextFaultKind::BadLine)?;
    let source = source(register)?;
    let word = word_from(format, word)?;
    with_target(Instr::OnWord(source, word, 0), target)
}

/// The instruction `onfrom` with these operands.
#[inline(never)]
#[tactic(auto, unfolding(crate::specs::Second::Statements::on_from_of))]
fn on_from<'a>(
    format: Format,
    names: &[Named<'_>],
    operands: Words<'a>,
) -> Result<Unplaced<'a>, TextFaultKind>
    ensures { Returns unplaced_of result
        (on_from_of (format_of format) names.now operands.entry) }
{
    let (id, target) = operands.two().ok_or(TextFaultKind::BadLine)?;
    let id = id_named(format, names, id)?;
    with_target(Instr::OnFrom(id, 0), target)
}

/// An instruction of this name that goes on with the next, or the first fault of its line.
#[inline(always)]
#[tactic(auto, unfolding(crate::specs::Second::Statements::plain_of, crate::specs::Statements::value_of, crate::specs::Second::Statements::second_other_of))]
pub(super) fn plain(
    format: Format,
    names: &[Named<'_>],
    name: &[u8],
    operands: Words<'_>,
) -> Result<Instr, TextFaultKind>
    ensures { Returns instr_of result
        (plain_of (format_of format) names.now name.now operands.entry) }
{
    if is(name, SET) {
        return set(format, operands);
    }
    if is(name, COPY) {
        return copy(operands);
    }
    if let Some(operation) = operation(name) {
        return compute(format, operation, operands);
    }
    if is(name, FROM) {
        return from(format, operands);
    }
    if is(name, TAG) {
        return tag(format, operands);
    }
    if is(name, VIRTUAL_SENDER) {
        return vs(format, names, operands);
    }
    if is(name, IPC) {
        return ipc(format, names, operands);
    }
    if is(name, EXCHANGE_REGISTERS) {
        return exregs(format, names, operands);
    }
    if is(name, DELETE) {
        return delete(format, names, operands);
    }
    if is(name, END) {
        return end(operands);
    }
    Err(TextFaultKind::BadLine)
}

/// The same, as one that names no other.
#[inline(never)]
fn without_target<'a>(
    format: Format,
    names: &[Named<'_>],
    name: &[u8],
    operands: Words<'_>,
) -> Result<Unplaced<'a>, TextFaultKind>
    ensures { Returns unplaced_of result
        (without_target (plain_of (format_of format) names.now name.now operands.entry)) }
{
    let instr = plain(format, names, name, operands)?;
    Ok(Unplaced {
        instr,
        target: None,
    })
}

/// An instruction of this name, or the first fault of its line.
#[inline(always)]
#[tactic(auto, unfolding(crate::specs::Second::Statements::second_instruction_of))]
pub fn instruction<'a>(
    format: Format,
    names: &[Named<'_>],
    name: &[u8],
    operands: Words<'a>,
) -> Result<Unplaced<'a>, TextFaultKind>
    ensures { Returns unplaced_of result
        (second_instruction_of (format_of format) names.now name.now operands.entry) }
{
    if is(name, JUMP) {
        return goes_to(Instr::Jump(0), operands);
    }
    if is(name, ON_ERROR) {
        return goes_to(Instr::OnErr(0), operands);
    }
    if is(name, ON_LABEL) {
        return on_label(format, operands);
    }
    if is(name, ON_WORD) {
        return on_word(format, operands);
    }
    if is(name, ON_FROM) {
        return on_from(format, names, operands);
    }
    without_target(format, names, name, operands)
}
