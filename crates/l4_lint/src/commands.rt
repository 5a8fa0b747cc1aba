//! What may stand behind the first word of a line.
ghost use Rattle.std.specs.Prelude.{◌≡◌};
ghost use Rattle.std.specs.Option.{option_copied};
ghost use Rattle.l4_lint.specs.Commands.{instruction_operands, first_operand, operands_behind};
ghost use Rattle.l4_lint.specs.Commands.{operands_of};
ghost use Rattle.l4_lint.specs.Reading.{begins_script};

use crate::bytes::split_word;
use crate::hints::{Lines, Operand};
use l4_script::text::operation;

pub(crate) const FORMAT: &[u8] = b"l4";

pub(crate) const PROCESSORS: &[u8] = b"cpus";

pub(crate) const THREAD: &[u8] = b"thread";

const SET: &[u8] = b"set";

const COPY: &[u8] = b"copy";

const TAG: &[u8] = b"tag";

pub(crate) const VIRTUAL_SENDER: &[u8] = b"vs";

pub(crate) const IPC: &[u8] = b"ipc";

pub(crate) const EXCHANGE_REGISTERS: &[u8] = b"exregs";

pub(crate) const DELETE: &[u8] = b"delete";

pub(crate) const JUMP: &[u8] = b"jump";

pub(crate) const ON_ERROR: &[u8] = b"onerr";

const END: &[u8] = b"end";

const FORMAT_OPERANDS: &[Operand] = &[Operand::Profile, Operand::Width];

pub(crate) const PROCESSORS_OPERANDS: &[Operand] = &[Operand::Processors];

const THREAD_OPERANDS: &[Operand] = &[
    Operand::Thread,
    Operand::CpuKeyword,
    Operand::Processor,
    Operand::SpaceKeyword,
    Operand::Space,
];

const REGISTER_AND_WORD: &[Operand] = &[Operand::Register, Operand::Word];

const TWO_REGISTERS: &[Operand] = &[Operand::Register, Operand::Source];

const ONE_TAG: &[Operand] = &[Operand::Tag];

const ONE_ID: &[Operand] = &[Operand::Id];

const IPC_OPERANDS: &[Operand] = &[
    Operand::Destination,
    Operand::Id,
    Operand::Time,
    Operand::Time,
];

const ID_AND_BITS: &[Operand] = &[Operand::Id, Operand::Bits];

const ONE_PLACE: &[Operand] = &[Operand::Place];

const NOTHING: &[Operand] = &[];

/// The operands of the instruction of this name. None where no instruction has it.
#[tactic(auto, unfolding(crate::specs::Commands::instruction_operands))]
pub(crate) fn instruction_operands(name: &[u8]) -> Option<&'static [Operand]>
    ensures { option_copied result ≡ instruction_operands name.now }
{
    if name == SET {
        return Some(REGISTER_AND_WORD);
    }
    if name == COPY {
        return Some(TWO_REGISTERS);
    }
    if operation(name).is_some() {
        return Some(REGISTER_AND_WORD);
    }
    if name == TAG {
        return Some(ONE_TAG);
    }
    if name == VIRTUAL_SENDER {
        return Some(ONE_ID);
    }
    if name == IPC {
        return Some(IPC_OPERANDS);
    }
    if name == EXCHANGE_REGISTERS {
        return Some(ID_AND_BITS);
    }
    if name == DELETE {
        return Some(ONE_ID);
    }
    if name == JUMP {
        return Some(ONE_PLACE);
    }
    if name == ON_ERROR {
        return Some(ONE_PLACE);
    }
    if name == END {
        return Some(NOTHING);
    }
    None
}

/// The first operand of the instruction of this name. None where it has none.
pub(crate) fn first_operand(name: &[u8]) -> Option<Operand>
    ensures { result ≡ first_operand name.now }
{
    instruction_operands(name)?.first().copied()
}

pub(crate) fn operands_behind(
    name: &[u8],
    keyword: &[u8],
    operands: &'static [Operand],
) -> Option<&'static [Operand]>
    ensures { option_copied result ≡ operands_behind name.now keyword.now operands.now }
{
    if name == keyword {
        Some(operands)
    } else {
        None
    }
}

/// The operands of one of these lines, by its first word. None where no such line begins with it.
pub(crate) fn operands_of(lines: Lines, name: &[u8]) -> Option<&'static [Operand]>
    ensures { option_copied result ≡ operands_of lines name.now }
{
    match lines {
        Lines::Format => operands_behind(name, FORMAT, FORMAT_OPERANDS),
        Lines::Processors => operands_behind(name, PROCESSORS, PROCESSORS_OPERANDS),
        Lines::Thread => operands_behind(name, THREAD, THREAD_OPERANDS),
        Lines::Names => None,
        Lines::Script if name == THREAD => Some(THREAD_OPERANDS),
        Lines::Script => instruction_operands(name),
    }
}

/// Whether words begin with `thread`: a script follows.
pub(crate) fn begins_script(words: &[u8]) -> bool
    ensures { result ≡ begins_script words.now }
{
    split_word(words).0 == THREAD
}
