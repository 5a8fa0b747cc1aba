//! What may stand behind the first word of a line with scripts of version 2.
ghost use Rattle.std.specs.Prelude.{◌≡◌};
ghost use Rattle.std.specs.Option.{option_copied};
ghost use Rattle.std.specs.Str.{bytes_eq};
ghost use Rattle.l4_lint.specs.Bytes.{behind, word_of};
ghost use Rattle.l4_lint.specs.Second.Commands.{instruction_operands, operands_of};
ghost use Rattle.l4_lint.specs.Second.Commands.{is_instruction, operands_of_thread, target_in};
ghost use Rattle.l4_lint.specs.Second.Commands.{thread_or};

use crate::bytes::split_word;
use crate::commands::{
    self as first, DELETE, EXCHANGE_REGISTERS, FORMAT, IPC, JUMP, ON_ERROR, PROCESSORS,
    PROCESSORS_OPERANDS, THREAD, VIRTUAL_SENDER, operands_behind,
};
use crate::hints::{Lines, Operand};

const FROM: &[u8] = b"from";

const ON_LABEL: &[u8] = b"onlabel";

const ON_WORD: &[u8] = b"onword";

const ON_FROM: &[u8] = b"onfrom";

const NAME: &[u8] = b"name";

const TO: &[u8] = b"to";

const FORMAT_OPERANDS: &[Operand] = &[Operand::Profile, Operand::Width, Operand::Place];

const NAME_OPERANDS: &[Operand] = &[Operand::NewName, Operand::NamedId];

const THREAD_OPERANDS: &[Operand] = &[
    Operand::NamedThread,
    Operand::CpuKeyword,
    Operand::Processor,
    Operand::SpaceKeyword,
    Operand::Space,
];

const HEIR_OPERANDS: &[Operand] = &[
    Operand::NamedThread,
    Operand::CpuKeyword,
    Operand::Processor,
    Operand::SpaceKeyword,
    Operand::Space,
    Operand::AsKeyword,
    Operand::Heir,
];

const HEIRS_OPERANDS: &[Operand] = &[
    Operand::NamedThread,
    Operand::ToKeyword,
    Operand::LastThread,
    Operand::CpuKeyword,
    Operand::Processor,
    Operand::SpaceKeyword,
    Operand::Space,
    Operand::AsKeyword,
    Operand::Heir,
];

const ONE_REGISTER: &[Operand] = &[Operand::Register];

const ONE_ID: &[Operand] = &[Operand::IdOrLast];

const IPC_OPERANDS: &[Operand] = &[
    Operand::IdOrLast,
    Operand::IdOrLast,
    Operand::CountedTime,
    Operand::CountedTime,
];

const ID_AND_BITS: &[Operand] = &[Operand::IdOrLast, Operand::Bits];

const ONE_TARGET: &[Operand] = &[Operand::IdOrRegister];

const ONE_PLACE: &[Operand] = &[Operand::NamedPlace];

const LABEL_AND_PLACE: &[Operand] = &[Operand::Label, Operand::NamedPlace];

const WORD_AND_PLACE: &[Operand] = &[Operand::Source, Operand::Word, Operand::NamedPlace];

const ID_AND_PLACE: &[Operand] = &[Operand::NamedId, Operand::NamedPlace];

// What stands behind the first word, and the space behind it.
fn behind(words: &[u8]) -> &[u8]
    ensures { result.now ≡ behind words.now }
{
    split_word(words).1
}

fn begins(words: &[u8], name: &[u8]) -> bool
    ensures { result ≡ bytes_eq (word_of words.now) name.now }
{
    split_word(words).0 == name
}

// The operands of a thread line, by the words behind the first one.
fn operands_of_thread(words: &[u8]) -> &'static [Operand]
    ensures { result.now ≡ operands_of_thread words.now }
{
    let others = behind(words);
    if begins(others, TO) {
        return HEIRS_OPERANDS;
    }
    if behind(behind(behind(behind(others)))).is_empty() {
        THREAD_OPERANDS
    } else {
        HEIR_OPERANDS
    }
}

/// The operands of the instruction of this name. None where no instruction has it.
#[tactic(auto, unfolding(crate::specs::Second::Commands::instruction_operands))]
fn instruction_operands(name: &[u8]) -> Option<&'static [Operand]>
    ensures { option_copied result ≡ instruction_operands name.now }
{
    if name == FROM {
        return Some(ONE_REGISTER);
    }
    if name == VIRTUAL_SENDER {
        return Some(ONE_ID);
    }
    if name == IPC {
        return Some(IPC_OPERANDS);
    }
    if name == EXCHANGE_REGISTERS {
        return Some(ID_AND_BITS);
    }
    if name == DELETE {
        return Some(ONE_TARGET);
    }
    if name == JUMP {
        return Some(ONE_PLACE);
    }
    if name == ON_ERROR {
        return Some(ONE_PLACE);
    }
    if name == ON_LABEL {
        return Some(LABEL_AND_PLACE);
    }
    if name == ON_WORD {
        return Some(WORD_AND_PLACE);
    }
    if name == ON_FROM {
        return Some(ID_AND_PLACE);
    }
    first::instruction_operands(name)
}

fn thread_or(words: &[u8], otherwise: Option<&'static [Operand]>) -> Option<&'static [Operand]>
    ensures { option_copied result ≡ thread_or words.now (option_copied otherwise.entry) }
{
    if begins(words, THREAD) {
        Some(operands_of_thread(behind(words)))
    } else {
        otherwise
    }
}

/// The operands of one of these lines, by its words. None where no such line begins so.
pub(super) fn operands_of(lines: Lines, words: &[u8]) -> Option<&'static [Operand]>
    ensures { option_copied result ≡ operands_of lines words.now }
{
    let name = split_word(words).0;
    match lines {
        Lines::Format => operands_behind(name, FORMAT, FORMAT_OPERANDS),
        Lines::Processors => operands_behind(name, PROCESSORS, PROCESSORS_OPERANDS),
        Lines::Names => thread_or(words, operands_behind(name, NAME, NAME_OPERANDS)),
        Lines::Script => thread_or(words, instruction_operands(name)),
        Lines::Thread => None,
    }
}

/// The rest of an instruction's words from the place that it names.
pub(super) fn target_in(words: &[u8]) -> &[u8]
    ensures { result.now ≡ target_in words.now }
{
    let others = behind(words);
    if begins(words, ON_WORD) {
        behind(behind(others))
    } else if begins(words, ON_LABEL) || begins(words, ON_FROM) {
        behind(others)
    } else {
        others
    }
}

/// Whether words begin with the name of an instruction, of either version.
pub(crate) fn is_instruction(words: &[u8]) -> bool
    ensures { result ≡ is_instruction words.now }
{
    instruction_operands(split_word(words).0).is_some()
}
