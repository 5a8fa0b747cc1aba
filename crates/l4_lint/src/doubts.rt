//! What is doubtful in a text that declares a machine.
ghost use Rattle.std.specs.Prelude.{ℕ, List, ◌≡◌, ◌≤◌, ◌<◌, ◌+◌, ◌^◌, ◌++◌, map, IfOk, OnOk};
ghost use Rattle.std.specs.List.{list_any};
ghost use Rattle.std.specs.Option.{option_copied};
ghost use Rattle.std.specs.Str.{bytes_eq};
ghost use Rattle.l4_words.specs.Lines.{parts_of as text_parts};
ghost use Rattle.l4_script.specs.Inner.Scripts.{instr_of};
ghost use Rattle.l4_script.specs.Inner.Second.{stage_of};
ghost use Rattle.l4_script.specs.Numbers.{time_from};
ghost use Rattle.l4_script.specs.Second.Texts.{Start, begins_second};
ghost use Rattle.l4_lint.specs.Always.{AreAlwaysSo};
ghost use Rattle.l4_lint.specs.Doubts.{answer_doubts, asks_to_propagate, doubt_line, doubt_text};
ghost use Rattle.l4_lint.specs.Doubts.{doubted, doubtful_at, doubts_from, doubts_in, doubts_of};
ghost use Rattle.l4_lint.specs.Doubts.{doubts_text, from_doubts, id_doubts, ipc_doubts, is_any};
ghost use Rattle.l4_lint.specs.Doubts.{is_decimal, is_endless, is_foreign, is_local};
ghost use Rattle.l4_lint.specs.Doubts.{is_long, is_no_thread, is_nobody, is_one_of_ids, is_order};
ghost use Rattle.l4_lint.specs.Doubts.{is_own, is_unheard_by, is_unreached_by, is_unused_label};
ghost use Rattle.l4_lint.specs.Doubts.{is_write, keep_doubts, label_at, label_doubts, last_doubts};
ghost use Rattle.l4_lint.specs.Doubts.{mark_word, marked, name_doubts, names_originator, number_in};
ghost use Rattle.l4_lint.specs.Doubts.{operand_doubts, order_doubts, place_behind, script_doubts};
ghost use Rattle.l4_lint.specs.Doubts.{second_doubts_from, second_line_doubts, spells_local};
ghost use Rattle.l4_lint.specs.Doubts.{spells_nobody, stage_behind, tag_doubts, thread_after};
ghost use Rattle.l4_lint.specs.Doubts.{thread_at, time_doubts, timeout_doubts, to_doubts};
ghost use Rattle.l4_lint.specs.Doubts.{way_doubts, words_doubts, write_doubts};
ghost use Rattle.l4_lint.specs.Lines.{lines_of};
ghost use Rattle.l4_lint.specs.Second.Parts.{parts_of};
ghost use Rattle.l4_lint.specs.Inner.Views.{doubtful_of, parts_view};

use crate::bytes::split_word;
use crate::commands::{begins_script, first_operand};
use crate::hints::Operand;
use crate::ids::{may_name_originator, may_receive};
use crate::judging::is_digit;
use crate::scripts::{is_kept_low, is_led_to, is_left_out, is_unheard, is_unreached, is_used};
use crate::second::{Parts, is_instruction, is_name_looked_for, is_unused_name, parts_of};
use crate::spelling::push_place;
use l4_script::instructions::Instr;
use l4_script::machine::{Declaration, Machine};
use l4_script::text::second::{Stage, begins_second};
use l4_script::text::{TextFaultKind, id, law_canonical_text, number, time};
use l4_types::errors::NoMemory;
use l4_types::formats::Format;
use l4_types::ids::{GlobalId, Kind, ThreadId};
use l4_types::times::Period;
use l4_words::lines::split_line;
use l4_words::threads::thread;
use std::alloc::Global;

// The greatest time that is a number of microseconds.
const MOST_MICROSECONDS: u64 = 1023;

/// How sure a doubt is.
#[derive(Clone, Copy, Debug, PartialEq, Eq)]
pub enum Mark {
    /// What it says holds in every history of the machine (`law_always`).
    Always,
    /// It says what may happen.
    Perhaps,
}

/// Why a word is doubtful.
#[derive(Clone, Copy, Debug, PartialEq, Eq)]
pub enum Doubt {
    /// No thread has this id. No step of any history names it: what is sent there is not
    /// delivered, and nothing is received from it.
    NoThread,
    /// A send to the last sender, as the answer of a server, has no time limit. If the client does
    /// not wait for it, the server is held up.
    NoLimit,
    /// A register is written that no tag of the script sends and nothing copies, in a script that
    /// receives nothing. No delivered message of the thread has it.
    NotSent,
    /// A tag asks for propagation in a script that receives nothing and names no thread of its
    /// address space by `vs`. No delivered message of the thread is propagated.
    NotPropagated,
    /// A cancellation of a thread of another address space. No step of any history is an order of
    /// this thread to cancel what that one does.
    OtherSpace,
    /// A thread sends to itself. It can't receive meanwhile.
    ToItself,
    /// A thread receives from itself without time limit. Nobody else is waited for.
    FromItself,
    /// A send to anythread, to anylocalthread or to a local id. These name no destination.
    NoDestination,
    /// A receive from a local id, which names nobody.
    NoSource,
    /// An order to nilthread, anythread, anylocalthread or a local id. These name no thread.
    NoTarget,
    /// A time above 1023 in decimal. It is no number of microseconds.
    LongTime,
    /// An ipc with `last` where nothing has been received: the only way there is from the start of
    /// the script, or from an ipc that receives nothing, as a sleep does.
    NothingReceived,
    /// A register is written, the next tag leaves it out, and nothing in the script but what is
    /// received may have it sent, or uses it.
    LeftOut,
    /// The sender is kept in a register below 32, from which the script takes an id. A message of
    /// so many words overwrites it.
    KeptLow,
    /// An instruction that nothing leads to: the one before it goes elsewhere, and no jump, `onerr`
    /// or branch goes to it.
    NotReached,
    /// A name of an instruction that no jump, `onerr` or branch goes to (scripts of version 2).
    UnusedLabel,
    /// A name of an id that no line behind has (scripts of version 2), of the first 16 names.
    UnusedName,
}

impl Doubt {
    /// Whether what it says holds always.
    pub fn mark(self) -> Mark
        ensures { result ≡ marked self }
    {
        match self {
            Doubt::NoThread | Doubt::NotSent | Doubt::NotPropagated | Doubt::OtherSpace => {
                Mark::Always
            }
            Doubt::NoLimit
            | Doubt::ToItself
            | Doubt::FromItself
            | Doubt::NoDestination
            | Doubt::NoSource
            | Doubt::NoTarget
            | Doubt::LongTime
            | Doubt::NothingReceived
            | Doubt::LeftOut
            | Doubt::KeptLow
            | Doubt::NotReached
            | Doubt::UnusedLabel
            | Doubt::UnusedName => Mark::Perhaps,
        }
    }
}

/// A doubtful word. It may be intended.
#[derive(Clone, Copy, Debug)]
pub struct Doubtful<'a> {
    /// The line, counted from 1, skipped lines too.
    pub line: usize,
    /// The column of its first byte, counted from 1.
    pub column: usize,
    /// The word.
    pub word: &'a [u8],
    /// Why it is doubtful.
    pub doubt: Doubt,
}

fn is(word: &[u8], other: &[u8]) -> bool
    ensures { result ≡ bytes_eq word.now other.now }
{
    word == other
}

// The first word of the rest of a line, with its doubt.
fn doubtful_at<'a>(number: usize, line: &'a [u8], rest: &'a [u8], doubt: Doubt) -> Doubtful<'a>
    ensures { doubtful_of result ≡ doubtful_at number line.now rest.now doubt }
{
    Doubtful {
        line: number,
        column: line.len().saturating_sub(rest.len()) + 1,
        word: split_word(rest).0,
        doubt,
    }
}

// Appends a doubt where there is one.
fn push<'a>(
    found: &mut Vec<Doubtful<'a>>,
    is_doubted: bool,
    doubtful: Doubtful<'a>,
) -> Result<(), NoMemory>
    ensures { OnOk result (map doubtful_of found.new.items ≡
        map doubtful_of found.old.items ++ doubted is_doubted (doubtful_of doubtful.entry)) }
{
    if is_doubted {
        found.push(doubtful)?;
    }
    Ok(())
}

fn is_no_thread(machine: &Machine, thread: Option<GlobalId>) -> bool
    ensures { result ≡ is_no_thread machine.now thread }
{
    match thread {
        Some(thread) => machine.place_of(thread).is_none(),
        None => false,
    }
}

// Appends the doubt of an id.
fn push_id<'a>(
    machine: &Machine,
    number: usize,
    line: &'a [u8],
    rest: &'a [u8],
    found: &mut Vec<Doubtful<'a>>,
) -> Result<(), NoMemory>
    ensures { OnOk result (map doubtful_of found.new.items ≡
        map doubtful_of found.old.items ++ id_doubts machine.now number line.now rest.now) }
{
    let is_doubted = is_no_thread(machine, thread(split_word(rest).0));
    push(
        found,
        is_doubted,
        doubtful_at(number, line, rest, Doubt::NoThread),
    )
}

fn is_endless(word: &[u8]) -> bool
    ensures { result ≡ is_endless (time_from word.now) }
{
    matches!(time(word), Ok(Period::Never))
}

// Appends the doubt of an answer.
fn push_answer<'a>(
    number: usize,
    line: &'a [u8],
    to: &'a [u8],
    time: &'a [u8],
    found: &mut Vec<Doubtful<'a>>,
) -> Result<(), NoMemory>
    ensures { OnOk result (map doubtful_of found.new.items ≡
        map doubtful_of found.old.items ++ answer_doubts number line.now to.now time.now) }
{
    let is_doubted = is(split_word(to).0, b"last") && is_endless(split_word(time).0);
    push(
        found,
        is_doubted,
        doubtful_at(number, line, time, Doubt::NoLimit),
    )
}

// Whether an id is that of the thread itself.
fn is_own(declared: Option<&Declaration>, thread: Option<GlobalId>) -> bool
    ensures { result ≡ is_own (option_copied declared.entry) thread }
{
    match (declared, thread) {
        (Some(declared), Some(thread)) => declared.id() == thread,
        _ => false,
    }
}

fn is_any(word: &[u8]) -> bool
    ensures { result ≡ is_any word.now }
{
    is(word, b"any") || is(word, b"anylocal")
}

fn is_local(id: Option<ThreadId>) -> bool
    ensures { result ≡ is_local id }
{
    match id {
        Some(id) => matches!(id.kind(), Kind::Local),
        None => false,
    }
}

// Whether a word is a local id in one of the formats.
fn spells_local(word: &[u8]) -> bool
    ensures { result ≡ spells_local word.now }
{
    is_local(id(Format::W64, word)) || is_local(id(Format::W32, word))
}

fn is_unheard_by(declared: Option<&Declaration>, place: usize) -> bool
    ensures { result ≡ is_unheard_by (option_copied declared.entry) place }
{
    match declared {
        Some(declared) => is_unheard(declared.id(), declared.script(), place),
        None => false,
    }
}

// Appends the doubt of a `last`.
fn push_last<'a>(
    declared: Option<&Declaration>,
    place: usize,
    number: usize,
    line: &'a [u8],
    rest: &'a [u8],
    found: &mut Vec<Doubtful<'a>>,
) -> Result<(), NoMemory>
    ensures { OnOk result (map doubtful_of found.new.items ≡ map doubtful_of found.old.items ++
        last_doubts (option_copied declared.entry) place number line.now rest.now) }
{
    push(
        found,
        is(split_word(rest).0, b"last") && is_unheard_by(declared, place),
        doubtful_at(number, line, rest, Doubt::NothingReceived),
    )
}

// Appends the doubts of whom an ipc sends to.
fn push_to<'a>(
    machine: &Machine,
    declared: Option<&Declaration>,
    place: usize,
    number: usize,
    line: &'a [u8],
    to: &'a [u8],
    found: &mut Vec<Doubtful<'a>>,
) -> Result<(), NoMemory>
    ensures { OnOk result (map doubtful_of found.new.items ≡ map doubtful_of found.old.items ++
        to_doubts machine.now (option_copied declared.entry) place number line.now to.now) }
{
    let word = split_word(to).0;
    push_id(machine, number, line, to, found)?;
    push(
        found,
        is_own(declared, thread(word)),
        doubtful_at(number, line, to, Doubt::ToItself),
    )?;
    push(
        found,
        is_any(word) || spells_local(word),
        doubtful_at(number, line, to, Doubt::NoDestination),
    )?;
    push_last(declared, place, number, line, to, found)
}

// Appends the doubts of whom an ipc receives from.
fn push_from<'a>(
    machine: &Machine,
    declared: Option<&Declaration>,
    place: usize,
    number: usize,
    line: &'a [u8],
    from: &'a [u8],
    found: &mut Vec<Doubtful<'a>>,
) -> Result<(), NoMemory>
    ensures { OnOk result (map doubtful_of found.new.items ≡ map doubtful_of found.old.items ++
        from_doubts machine.now (option_copied declared.entry) place number line.now from.now) }
{
    let (word, times) = split_word(from);
    push_id(machine, number, line, from, found)?;
    push(
        found,
        is_own(declared, thread(word)) && is_endless(split_word(split_word(times).1).0),
        doubtful_at(number, line, from, Doubt::FromItself),
    )?;
    push(
        found,
        spells_local(word),
        doubtful_at(number, line, from, Doubt::NoSource),
    )?;
    push_last(declared, place, number, line, from, found)
}

fn is_decimal(word: &[u8]) -> bool
    ensures { result ≡ is_decimal word.now }
{
    word.iter().all(|byte| is_digit(*byte))
}

// Whether a word is a decimal number above the times that are numbers of microseconds.
fn is_long(word: &[u8]) -> bool
    ensures { result ≡ is_long word.now }
{
    is_decimal(word) && number_in(word) > MOST_MICROSECONDS
}

// Appends the doubt of a time.
fn push_time<'a>(
    number: usize,
    line: &'a [u8],
    time: &'a [u8],
    found: &mut Vec<Doubtful<'a>>,
) -> Result<(), NoMemory>
    ensures { OnOk result (map doubtful_of found.new.items ≡
        map doubtful_of found.old.items ++ time_doubts number line.now time.now) }
{
    push(
        found,
        is_long(split_word(time).0),
        doubtful_at(number, line, time, Doubt::LongTime),
    )
}

// Appends the doubts of the timeouts of an ipc.
fn push_timeouts<'a>(
    number: usize,
    line: &'a [u8],
    to: &'a [u8],
    times: &'a [u8],
    found: &mut Vec<Doubtful<'a>>,
) -> Result<(), NoMemory>
    ensures { OnOk result (map doubtful_of found.new.items ≡
        map doubtful_of found.old.items ++ timeout_doubts number line.now to.now times.now) }
{
    push_answer(number, line, to, times, found)?;
    push_time(number, line, times, found)?;
    push_time(number, line, split_word(times).1, found)
}

// Appends the doubts of an ipc.
fn push_ipc<'a>(
    machine: &Machine,
    declared: Option<&Declaration>,
    place: usize,
    number: usize,
    line: &'a [u8],
    to: &'a [u8],
    found: &mut Vec<Doubtful<'a>>,
) -> Result<(), NoMemory>
    ensures { OnOk result (map doubtful_of found.new.items ≡ map doubtful_of found.old.items ++
        ipc_doubts machine.now (option_copied declared.entry) place number line.now to.now) }
{
    let from = split_word(to).1;
    let times = split_word(from).1;
    push_to(machine, declared, place, number, line, to, found)?;
    push_from(machine, declared, place, number, line, from, found)?;
    push_timeouts(number, line, to, times, found)
}

// Whether a thread is there, and is of another address space than this one.
fn is_foreign(machine: &Machine, declared: Option<&Declaration>, thread: Option<GlobalId>) -> bool
    ensures { result ≡ is_foreign machine.now (option_copied declared.entry) thread }
{
    match (declared, thread) {
        (Some(declared), Some(thread)) => {
            machine.place_of(thread).is_some()
                && !machine.may_show(declared.id(), ThreadId::from(thread))
        }
        _ => false,
    }
}

fn is_order(word: &[u8]) -> bool
    ensures { result ≡ is_order word.now }
{
    is(word, b"exregs") || is(word, b"delete")
}

fn is_nobody(id: Option<ThreadId>) -> bool
    ensures { result ≡ is_nobody id }
{
    match id {
        Some(id) => id.as_global().is_none(),
        None => false,
    }
}

// Whether a word is an id of no thread in one of the formats.
fn spells_nobody(word: &[u8]) -> bool
    ensures { result ≡ spells_nobody word.now }
{
    is_nobody(id(Format::W64, word)) || is_nobody(id(Format::W32, word))
}

// Appends the doubts of the id of an order, or of a `vs`.
fn push_order<'a>(
    machine: &Machine,
    declared: Option<&Declaration>,
    number: usize,
    line: &'a [u8],
    words: &'a [u8],
    found: &mut Vec<Doubtful<'a>>,
) -> Result<(), NoMemory>
    ensures { OnOk result (map doubtful_of found.new.items ≡ map doubtful_of found.old.items ++
        order_doubts machine.now (option_copied declared.entry) number line.now words.now) }
{
    let (word, rest) = split_word(words);
    let target = split_word(rest).0;
    push_id(machine, number, line, rest, found)?;
    push(
        found,
        is(word, b"exregs") && is_foreign(machine, declared, thread(target)),
        doubtful_at(number, line, rest, Doubt::OtherSpace),
    )?;
    push(
        found,
        is_order(word) && spells_nobody(target),
        doubtful_at(number, line, rest, Doubt::NoTarget),
    )
}

fn number_in(rest: &[u8]) -> u64
    ensures { result ≡ number_in rest.now }
{
    number(split_word(rest).0).unwrap_or(0)
}

// Appends the doubts of a register that is written.
fn push_write<'a>(
    declared: &Declaration,
    place: usize,
    number: usize,
    line: &'a [u8],
    rest: &'a [u8],
    found: &mut Vec<Doubtful<'a>>,
) -> Result<(), NoMemory>
    ensures { OnOk result (map doubtful_of found.new.items ≡ map doubtful_of found.old.items ++
        write_doubts declared.now place number line.now rest.now) }
{
    let register = number_in(rest);
    push(
        found,
        !is_used(register, declared.script()),
        doubtful_at(number, line, rest, Doubt::NotSent),
    )?;
    push(
        found,
        is_left_out(register, declared.script(), place),
        doubtful_at(number, line, rest, Doubt::LeftOut),
    )
}

// Appends the doubt of a register that keeps an id.
fn push_keep<'a>(
    declared: &Declaration,
    number: usize,
    line: &'a [u8],
    rest: &'a [u8],
    found: &mut Vec<Doubtful<'a>>,
) -> Result<(), NoMemory>
    ensures { OnOk result (map doubtful_of found.new.items ≡
        map doubtful_of found.old.items ++ keep_doubts declared.now number line.now rest.now) }
{
    let is_doubted = is_kept_low(number_in(rest), declared.script());
    push(
        found,
        is_doubted,
        doubtful_at(number, line, rest, Doubt::KeptLow),
    )
}

// Whether an instruction names, or may name, an originator.
fn names_originator(machine: &Machine, sender: GlobalId, instruction: &Instr) -> bool
    ensures { result ≡ names_originator machine.now sender (instr_of instruction.now) }
{
    match *instruction {
        Instr::Vs(from) => may_name_originator(machine, sender, from),
        Instr::Ipc(ipc) => may_receive(ipc.from()),
        _ => false,
    }
}

fn has_originator(machine: &Machine, sender: GlobalId, script: &[Instr]) -> bool
    ensures { result ≡ list_any (names_originator machine.now sender) (map instr_of script.now) }
{
    for instruction in script {
        if names_originator(machine, sender, instruction) {
            return true;
        }
    }
    false
}

fn asks_to_propagate(word: u64) -> bool
    ensures { result ≡ asks_to_propagate word }
{
    (word / 4096) % 2 == 1
}

// Appends the doubt of a tag.
fn push_tag<'a>(
    machine: &Machine,
    declared: &Declaration,
    number: usize,
    line: &'a [u8],
    rest: &'a [u8],
    found: &mut Vec<Doubtful<'a>>,
) -> Result<(), NoMemory>
    ensures { OnOk result (map doubtful_of found.new.items ≡ map doubtful_of found.old.items ++
        tag_doubts machine.now declared.now number line.now rest.now) }
{
    let is_doubted = asks_to_propagate(number_in(rest))
        && !has_originator(machine, declared.id(), declared.script());
    push(
        found,
        is_doubted,
        doubtful_at(number, line, rest, Doubt::NotPropagated),
    )
}

fn is_one_of_ids(word: &[u8]) -> bool
    ensures { result ≡ is_one_of_ids word.now }
{
    is_order(word) || is(word, b"vs")
}

fn is_write(word: &[u8]) -> bool
    ensures { result ≡ is_write word.now }
{
    matches!(first_operand(word), Some(Operand::Register))
}

// Appends the doubts of what the script around it says of a line.
fn push_of_script<'a>(
    machine: &Machine,
    declared: Option<&Declaration>,
    place: usize,
    number: usize,
    line: &'a [u8],
    words: &'a [u8],
    found: &mut Vec<Doubtful<'a>>,
) -> Result<(), NoMemory>
    ensures { OnOk result (map doubtful_of found.new.items ≡ map doubtful_of found.old.items ++
        script_doubts machine.now (option_copied declared.entry) place number line.now words.now) }
{
    let Some(declared) = declared else {
        return Ok(());
    };
    let (word, rest) = split_word(words);
    if is_write(word) {
        return push_write(declared, place, number, line, rest, found);
    }
    if is(word, b"from") {
        return push_keep(declared, number, line, rest, found);
    }
    if is(word, b"tag") {
        return push_tag(machine, declared, number, line, rest, found);
    }
    Ok(())
}

// Appends the doubts of the operands of an instruction.
fn push_operands<'a>(
    machine: &Machine,
    declared: Option<&Declaration>,
    place: usize,
    number: usize,
    line: &'a [u8],
    words: &'a [u8],
    found: &mut Vec<Doubtful<'a>>,
) -> Result<(), NoMemory>
    ensures { OnOk result (map doubtful_of found.new.items ≡ map doubtful_of found.old.items ++
        operand_doubts machine.now (option_copied declared.entry) place number line.now words.now) }
{
    let (word, rest) = split_word(words);
    if is(word, b"ipc") {
        return push_ipc(machine, declared, place, number, line, rest, found);
    }
    if is_one_of_ids(word) {
        return push_order(machine, declared, number, line, words, found);
    }
    push_of_script(machine, declared, place, number, line, words, found)
}

fn is_unreached_by(declared: Option<&Declaration>, place: usize) -> bool
    ensures { result ≡ is_unreached_by (option_copied declared.entry) place }
{
    match declared {
        Some(declared) => is_unreached(declared.script(), place),
        None => false,
    }
}

// Appends the doubt of an instruction that nothing leads to.
fn push_way<'a>(
    declared: Option<&Declaration>,
    place: usize,
    number: usize,
    line: &'a [u8],
    words: &'a [u8],
    found: &mut Vec<Doubtful<'a>>,
) -> Result<(), NoMemory>
    ensures { OnOk result (map doubtful_of found.new.items ≡ map doubtful_of found.old.items ++
        way_doubts (option_copied declared.entry) place number line.now words.now) }
{
    push(
        found,
        is_instruction(words) && is_unreached_by(declared, place),
        doubtful_at(number, line, words, Doubt::NotReached),
    )
}

// Appends the doubts of the words that a line ends with.
fn push_words<'a>(
    machine: &Machine,
    declared: Option<&Declaration>,
    place: usize,
    number: usize,
    line: &'a [u8],
    words: &'a [u8],
    found: &mut Vec<Doubtful<'a>>,
) -> Result<(), NoMemory>
    ensures { OnOk result (map doubtful_of found.new.items ≡ map doubtful_of found.old.items ++
        words_doubts machine.now (option_copied declared.entry) place number line.now words.now) }
{
    push_way(declared, place, number, line, words, found)?;
    push_operands(machine, declared, place, number, line, words, found)
}

// The thread whose script has a line, by the number of `thread` lines before it.
fn thread_after(machine: &Machine, begun: usize) -> Option<&Declaration>
    ensures { option_copied result ≡ thread_after machine.now begun }
{
    machine.threads().get(begun.saturating_sub(1))
}

// The place that the next instruction has in its script.
fn place_behind(place: usize, words: &[u8]) -> usize
    requires { place + 1 < 2 ^ 64 }
    ensures value { result ≡ place_behind place words.now }
    ensures near { result ≤ place + 1 }
{
    if begins_script(words) {
        0
    } else if is_instruction(words) {
        place + 1
    } else {
        place
    }
}

// The doubts of the text of a machine, line by line.
fn doubts_in<'a>(
    alloc: Global,
    machine: &Machine,
    text: &'a [u8],
) -> Result<Vec<Doubtful<'a>>, NoMemory>
    ensures { IfOk result (λ found. map doubtful_of found.items ≡
        doubts_from machine.now (lines_of text.now) 0 0 1) }
{
    let mut found = Vec::new(alloc);
    let mut left = text;
    let mut begun = 0;
    let mut place = 0;
    let mut before = 0;
    'lines: while let Some((line, rest)) = split_line(left) {
        push_words(
            machine,
            thread_after(machine, begun),
            place,
            before + 1,
            line,
            line,
            &mut found,
        )?;
        begun += usize::from(begins_script(line));
        place = place_behind(place, line);
        before += 1;
        left = rest;
    }
    Ok(found)
}

// The thread whose script is the last that was read so far, as the whole text declares it.
fn thread_at<'m>(machine: &'m Machine, stage: &Stage<'_>) -> Option<&'m Declaration>
    ensures { option_copied result ≡ thread_at machine.now (stage_of stage.now) }
{
    match stage {
        Stage::Threads(reading) => thread_after(machine, reading.machine().threads().len()),
        Stage::Start | Stage::Processors(_) => None,
    }
}

// Reads the line of this number. What is faulty changes nothing.
fn read_on<'a>(
    alloc: Global,
    stage: &mut Stage<'a>,
    number: usize,
    line: &'a [u8],
) -> Result<(), NoMemory>
    ensures { OnOk result
        (stage_of stage.new ≡ stage_behind number (stage_of stage.old) line.now) }
{
    match stage.read_line(number, alloc, line) {
        Err(TextFaultKind::NoMemory) => Err(NoMemory),
        _ => Ok(()),
    }
}

fn is_unused_label(declared: Option<&Declaration>, place: usize, label: Option<&[u8]>) -> bool
    ensures { result ≡
        is_unused_label (option_copied declared.entry) place (option_copied label.entry) }
{
    match (declared, label) {
        (Some(declared), Some(_)) => !is_led_to(declared.script(), place),
        _ => false,
    }
}

// The name in front of a line, with its doubt.
fn label_at<'a>(number: usize, parts: Parts<'a>) -> Doubtful<'a>
    ensures { doubtful_of result ≡ label_at number (parts_view parts.entry) }
{
    Doubtful {
        line: number,
        column: parts.front.len().saturating_sub(parts.said.len()) + 1,
        word: parts.label.unwrap_or(b""),
        doubt: Doubt::UnusedLabel,
    }
}

// Appends the doubt of the name in front of a line.
fn push_label<'a>(
    declared: Option<&Declaration>,
    place: usize,
    number: usize,
    parts: Parts<'a>,
    found: &mut Vec<Doubtful<'a>>,
) -> Result<(), NoMemory>
    ensures { OnOk result (map doubtful_of found.new.items ≡ map doubtful_of found.old.items ++
        label_doubts (option_copied declared.entry) place number (parts_view parts.entry)) }
{
    push(
        found,
        is_unused_label(declared, place, parts.label),
        label_at(number, parts),
    )
}

// Appends the doubt of a name of an id. `behind` is the text behind the line.
fn push_name<'a>(
    stage: &Stage<'_>,
    behind: &[u8],
    number: usize,
    parts: Parts<'a>,
    found: &mut Vec<Doubtful<'a>>,
) -> Result<(), NoMemory>
    ensures { OnOk result (map doubtful_of found.new.items ≡ map doubtful_of found.old.items ++
        name_doubts (stage_of stage.now) (lines_of behind.now) number (parts_view parts.entry)) }
{
    let (word, rest) = split_word(parts.words);
    let is_doubted = is(word, b"name")
        && is_name_looked_for(stage)
        && is_unused_name(behind, split_word(rest).0);
    push(
        found,
        is_doubted,
        doubtful_at(number, parts.front, rest, Doubt::UnusedName),
    )
}

// Appends the doubts of a line with scripts of version 2. `stage` is the one behind it, `behind`
// the text there.
fn push_second_line<'a>(
    machine: &Machine,
    stage: &Stage<'_>,
    behind: &[u8],
    place: usize,
    number: usize,
    parts: Parts<'a>,
    found: &mut Vec<Doubtful<'a>>,
) -> Result<(), NoMemory>
    ensures { OnOk result (map doubtful_of found.new.items ≡ map doubtful_of found.old.items ++
        second_line_doubts machine.now (stage_of stage.now) (lines_of behind.now) place number
        (parts_view parts.entry)) }
{
    let declared = thread_at(machine, stage);
    push_label(declared, place, number, parts, found)?;
    push_name(stage, behind, number, parts, found)?;
    push_words(
        machine,
        declared,
        place,
        number,
        parts.front,
        parts.words,
        found,
    )
}

// The doubts of the text of a machine with scripts of version 2, line by line.
fn second_doubts_in<'a>(
    alloc: Global,
    machine: &Machine,
    text: &'a [u8],
) -> Result<Vec<Doubtful<'a>>, NoMemory>
    ensures { IfOk result (λ found. map doubtful_of found.items ≡
        second_doubts_from machine.now (lines_of text.now) Start 0 1) }
{
    let mut found = Vec::new(alloc);
    let mut stage = Stage::Start;
    let mut left = text;
    let mut place = 0;
    let mut before = 0;
    'lines: while let Some((line, rest)) = split_line(left) {
        read_on(alloc, &mut stage, before + 1, line)?;
        let parts = parts_of(line);
        push_second_line(machine, &stage, rest, place, before + 1, parts, &mut found)?;
        place = place_behind(place, parts.words);
        before += 1;
        left = rest;
    }
    Ok(found)
}

// The doubts of the text of a machine.
fn doubts_on<'a>(
    alloc: Global,
    machine: &Machine,
    text: &'a [u8],
) -> Result<Vec<Doubtful<'a>>, NoMemory>
    ensures { IfOk result (λ found. map doubtful_of found.items ≡
        doubts_in (begins_second (text_parts text.now)) machine.now (lines_of text.now)) }
{
    if begins_second(text) {
        second_doubts_in(alloc, machine, text)
    } else {
        doubts_in(alloc, machine, text)
    }
}

/// What a doubt says that is marked `Always` holds in every history of the machine that the text
/// declares.
pub fn law_always()
    ensures { (text : List ℕ) → AreAlwaysSo text (doubts_of text) }
{
    law_canonical_text();
}

/// What is doubtful in a text that declares a machine, in order of its lines and from left to
/// right. A text with a fault has no doubts. What is marked `Always` holds in every history.
pub fn doubts<'a>(alloc: Global, text: &'a [u8]) -> Result<Vec<Doubtful<'a>>, NoMemory>
    ensures value { IfOk result (λ found. map doubtful_of found.items ≡ doubts_of text.now) }
    ensures always { IfOk result (λ found. AreAlwaysSo text.now (map doubtful_of found.items)) }
{
    law_always();
    match Machine::parse(alloc, text) {
        Ok(machine) => doubts_on(alloc, &machine, text),
        Err(fault) if fault.kind == TextFaultKind::NoMemory => Err(NoMemory),
        Err(_) => Ok(Vec::new(alloc)),
    }
}

fn doubt_text(doubt: Doubt) -> &'static str
    ensures { result.now ≡ doubt_text doubt }
{
    match doubt {
        Doubt::NoThread => "no thread has this id; nothing reaches it or comes from it",
        Doubt::NoLimit => "an answer has no time limit; a server that must not wait says zero",
        Doubt::NotSent => "this register is never delivered, and nothing copies it",
        Doubt::NotPropagated => {
            "vs names no thread of this address space, so no message is propagated"
        }
        Doubt::OtherSpace => {
            "this thread is of another address space, so exregs cancels nothing of it"
        }
        Doubt::ToItself => "a send to the thread itself; it can't receive it meanwhile",
        Doubt::FromItself => "a receive from the thread itself that only a cancellation ends",
        Doubt::NoDestination => "no destination; the send fails with ErrorCode 4",
        Doubt::NoSource => "nobody to receive from; the receive fails with ErrorCode 5",
        Doubt::NoTarget => "no thread; the order fails with ErrorCode 2",
        Doubt::LongTime => {
            "above 1023 this is no number of microseconds: E * 1024 + N is N * 2^E of them"
        }
        Doubt::NothingReceived => "nothing has been received here, so this is nil",
        Doubt::LeftOut => "the next tag does not send this register, and nothing else uses it",
        Doubt::KeptLow => {
            "a message of so many words overwrites this register; one above 31 keeps the id longer"
        }
        Doubt::NotReached => "nothing leads here",
        Doubt::UnusedLabel => "no jump, onerr or branch goes here",
        Doubt::UnusedName => "no line behind has this name",
    }
}

fn mark_word(mark: Mark) -> &'static str
    ensures { result.now ≡ mark_word mark }
{
    match mark {
        Mark::Always => "always",
        Mark::Perhaps => "perhaps",
    }
}

// Appends the line of a doubt.
fn push_doubt(
    file: Option<&str>,
    doubtful: &Doubtful<'_>,
    out: &mut Vec<u8>,
) -> Result<(), NoMemory>
    ensures { OnOk result (out.new.items ≡
        out.old.items ++ doubt_line (option_copied file.entry) (doubtful_of doubtful.now)) }
{
    push_place(file, doubtful.line, doubtful.column, out)?;
    out.extend_from_slice(mark_word(doubtful.doubt.mark()).as_bytes())?;
    out.extend_from_slice(b": `")?;
    out.extend_from_slice(doubtful.word)?;
    out.extend_from_slice(b"`: ")?;
    out.extend_from_slice(doubt_text(doubtful.doubt).as_bytes())?;
    out.extend_from_slice(b"\n")?;
    Ok(())
}

/// Appends a line for each doubt.
pub(crate) fn push_doubts(
    file: Option<&str>,
    found: &[Doubtful<'_>],
    out: &mut Vec<u8>,
) -> Result<(), NoMemory>
    ensures { OnOk result (out.new.items ≡
        out.old.items ++ doubts_text (option_copied file.entry) (map doubtful_of found.now)) }
{
    for doubtful in found {
        push_doubt(file, doubtful, out)?;
    }
    Ok(())
}
