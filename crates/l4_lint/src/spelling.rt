//! The lines of faults.
ghost use Rattle.std.specs.Prelude.{◌≡◌, ◌++◌, flat_map, map, OnOk};
ghost use Rattle.std.specs.Char.Escape.{escape_ascii};
ghost use Rattle.std.specs.Option.{option_copied};
ghost use Rattle.l4_lint.specs.Spelling.{kind_word, operand_text, lines_text, plain_hint};
ghost use Rattle.l4_lint.specs.Spelling.{hint_text};
ghost use Rattle.l4_lint.specs.Spelling.{counted_text, declared_text, elsewhere_text, near_text};
ghost use Rattle.l4_lint.specs.Spelling.{near_times_text};
ghost use Rattle.l4_lint.specs.Spelling.{shown_word, place_text, fault_line, faults_text};
ghost use Rattle.l4_lint.specs.Inner.Views.{fault_of};

use crate::faults::Fault;
use crate::hints::{Hint, Lines, Operand};
use l4_script::text::TextFaultKind;
use l4_types::errors::NoMemory;

fn kind_word(kind: TextFaultKind) -> &'static str
    ensures { result.now ≡ kind_word kind }
{
    match kind {
        TextFaultKind::TooLong => "TooLong",
        TextFaultKind::NoMemory => "NoMemory",
        TextFaultKind::BadLine => "BadLine",
        TextFaultKind::BadNumber => "BadNumber",
        TextFaultKind::BadId => "BadId",
        TextFaultKind::BadName => "BadName",
        TextFaultKind::BadCpu => "BadCpu",
        TextFaultKind::TypedItems => "TypedItems",
        TextFaultKind::DoubleId => "DoubleId",
        TextFaultKind::TooManyThreads => "TooManyThreads",
        TextFaultKind::TooManyInstructions => "TooManyInstructions",
        TextFaultKind::BadTarget => "BadTarget",
    }
}

fn operand_text(operand: Operand) -> &'static str
    ensures { result.now ≡ operand_text operand }
{
    match operand {
        Operand::Profile => "wanted: a profile, 1 or 2",
        Operand::Width => "wanted: the bits of a word, 64 or 32",
        Operand::Processors => "wanted: a number of processors, 1 to 16",
        Operand::Thread => "wanted: a thread N.V",
        Operand::CpuKeyword => "wanted: cpu",
        Operand::Processor => "wanted: a processor, below the number of the cpus line",
        Operand::SpaceKeyword => "wanted: space",
        Operand::Space => "wanted: an address space, 0 to 4294967295",
        Operand::Register => "wanted: a register, 1 to 63",
        Operand::Source => "wanted: a register, 0 to 63",
        Operand::Word => "wanted: a word of the format of line 1",
        Operand::Tag => "wanted: a tag, a word of the format of line 1",
        Operand::Id => "wanted: nil, any, anylocal, a thread N.V, or # and all digits of a word",
        Operand::Destination => {
            "wanted: last, nil, any, anylocal, a thread N.V, or # and all digits of a word"
        }
        Operand::Time => "wanted: never, zero, or a time, 0 to 0x7fff",
        Operand::Bits => "wanted: S, R or SR",
        Operand::Place => "wanted: a place of the script, 0 to its number of instructions",
        Operand::NamedThread => "wanted: a thread N.V, or its name",
        Operand::ToKeyword => "wanted: to",
        Operand::LastThread => "wanted: a thread of the same version and no lower number",
        Operand::AsKeyword => "wanted: as",
        Operand::Heir => "wanted: a thread that is declared before",
        Operand::NewName => "wanted: a name",
        Operand::NamedId => {
            "wanted: a name, nil, any, anylocal, a thread N.V, or # and all digits of a word"
        }
        Operand::IdOrRegister => {
            "wanted: a name, mr0 to mr63, nil, any, anylocal, a thread N.V, or # and all digits of a \
             word"
        }
        Operand::IdOrLast => {
            "wanted: a name, last, mr0 to mr63, nil, any, anylocal, a thread N.V, or # and all \
             digits of a word"
        }
        Operand::CountedTime => {
            "wanted: never, zero, a time as 5us, 5ms or 0s, or its bits, 0 to 0x7fff"
        }
        Operand::Label => "wanted: a label of the format of line 1",
        Operand::NamedPlace => {
            "wanted: a name in this script, or a place, 0 to its number of instructions"
        }
    }
}

fn lines_text(lines: Lines) -> &'static str
    ensures { result.now ≡ lines_text lines }
{
    match lines {
        Lines::Format => "wanted: the first line, l4 P B",
        Lines::Processors => "wanted: the second line, cpus N",
        Lines::Thread => "wanted: a line thread N.V cpu P space S",
        Lines::Script => "wanted: an instruction, or a line thread N.V cpu P space S",
        Lines::Names => "wanted: a line name NAME ID, or a line thread N.V cpu P space S",
    }
}

// The words of a hint that has no number.
fn plain_hint(hint: Hint) -> &'static str
    ensures { result.now ≡ plain_hint hint }
{
    match hint {
        Hint::LongText => "a text has at most 1048576 bytes",
        Hint::NoLineEnd => "the last line has no line end",
        Hint::ByteOrderMark => "a byte order mark; a text begins with its first line",
        Hint::CarriageReturn => "a carriage return; a line ends with the byte 0x0a alone",
        Hint::SurplusReturn => {
            "a carriage return; one may stand at the end of a line, and none elsewhere"
        }
        Hint::Tab => "a tab; one space stands between two words",
        Hint::Unprintable => "no printable ASCII",
        Hint::Space => "a space too many; one stands between two words and none elsewhere",
        Hint::Begins(lines) => lines_text(lines),
        Hint::OtherComment => "a comment begins with ;",
        Hint::CommentBehind => "a comment stands on a line of its own",
        Hint::Surplus => "a word too many",
        Hint::Wanted(operand) => operand_text(operand),
        Hint::Hexadecimal => "a hexadecimal number is 0x and lower-case digits",
        Hint::TimeUnit => {
            "a time has no unit: N below 1024 is N microseconds, E * 1024 + N is N * 2^E of them"
        }
        Hint::Last => "last stands only where an ipc sends to",
        Hint::Version => "no thread has this version; its low six bits are not all zero",
        Hint::TypedItems => "t, bits 6 to 11 of a tag, is not zero",
        Hint::DoubleNumber => "a thread before has this number",
        Hint::DoubleAmong => "a thread before has one of the numbers up to this one",
        Hint::ManyThreads => "a machine has at most 1024 threads",
        Hint::ManyInstructions => "a script has at most 1024 instructions",
        Hint::NoName => {
            "a name is a letter and then letters, digits, - and _, at most 31 bytes, and no keyword"
        }
        Hint::Unknown => "no line declares this name",
        Hint::OfHeir => "a thread with the script of another has no line of its own",
        Hint::DeclaredOn(_) | Hint::ElsewhereOn(_) | Hint::NearOn(_) | Hint::NearTimes(_, _) => "",
    }
}

// Appends on which line a name is declared.
fn push_declared(line: usize, out: &mut Vec<u8>) -> Result<(), NoMemory>
    ensures { OnOk result (out.new.items ≡ out.old.items ++ declared_text line) }
{
    let mut said = String::new(*out.allocator());
    write!(said, "line {line} declares this name")?;
    out.extend_from_slice(said.as_bytes())?;
    Ok(())
}

// Appends on which line a name is declared that its script does not have.
fn push_elsewhere(line: usize, out: &mut Vec<u8>) -> Result<(), NoMemory>
    ensures { OnOk result (out.new.items ≡ out.old.items ++ elsewhere_text line) }
{
    let mut said = String::new(*out.allocator());
    write!(
        said,
        "line {line} declares this name, but outside this script; a label is known in its own alone"
    )?;
    out.extend_from_slice(said.as_bytes())?;
    Ok(())
}

// Appends on which line a name is declared that is near.
fn push_near(line: usize, out: &mut Vec<u8>) -> Result<(), NoMemory>
    ensures { OnOk result (out.new.items ≡ out.old.items ++ near_text line) }
{
    let mut said = String::new(*out.allocator());
    write!(said, "line {line} declares a name that is near")?;
    out.extend_from_slice(said.as_bytes())?;
    Ok(())
}

// Appends so many microseconds.
fn push_counted(ticks: u64, out: &mut Vec<u8>) -> Result<(), NoMemory>
    ensures { OnOk result (out.new.items ≡ out.old.items ++ counted_text ticks) }
{
    let mut said = String::new(*out.allocator());
    write!(said, "{ticks}us")?;
    out.extend_from_slice(said.as_bytes())?;
    Ok(())
}

// Appends which times are nearest.
fn push_near_times(below: u64, above: u64, out: &mut Vec<u8>) -> Result<(), NoMemory>
    ensures { OnOk result (out.new.items ≡ out.old.items ++ near_times_text below above) }
{
    out.extend_from_slice(b"no time means this; the nearest are ")?;
    push_counted(below, out)?;
    out.extend_from_slice(b" and ")?;
    push_counted(above, out)?;
    Ok(())
}

/// Appends what is said about a place.
fn push_hint(hint: Hint, out: &mut Vec<u8>) -> Result<(), NoMemory>
    ensures { OnOk result (out.new.items ≡ out.old.items ++ hint_text hint) }
{
    match hint {
        Hint::DeclaredOn(line) => push_declared(line, out),
        Hint::ElsewhereOn(line) => push_elsewhere(line, out),
        Hint::NearOn(line) => push_near(line, out),
        Hint::NearTimes(below, above) => push_near_times(below, above, out),
        _ => {
            out.extend_from_slice(plain_hint(hint).as_bytes())?;
            Ok(())
        }
    }
}

/// Appends a byte, escaped where it is not printable.
fn push_escaped(byte: u8, out: &mut Vec<u8>) -> Result<(), NoMemory>
    ensures { OnOk result (out.new.items ≡ out.old.items ++ escape_ascii byte) }
{
    let mut pieces = byte.escape_ascii();
    'pieces: while let Some(piece) = pieces.next() {
        out.push(piece)?;
    }
    Ok(())
}

/// Appends bytes, escaped where they are not printable.
fn push_word(word: &[u8], out: &mut Vec<u8>) -> Result<(), NoMemory>
    ensures { OnOk result (out.new.items ≡ out.old.items ++ flat_map escape_ascii word.now) }
{
    for byte in word {
        push_escaped(*byte, out)?;
    }
    Ok(())
}

/// Appends what stands in a place, if anything does.
pub fn push_shown(word: &[u8], out: &mut Vec<u8>) -> Result<(), NoMemory>
    ensures { OnOk result (out.new.items ≡ out.old.items ++ shown_word word.now) }
{
    if word.is_empty() {
        return Ok(());
    }
    out.extend_from_slice(b"`")?;
    push_word(word, out)?;
    out.extend_from_slice(b"`: ")?;
    Ok(())
}

/// Appends the numbers of a line and a column, behind the name of the file where it is named.
pub(crate) fn push_place(
    file: Option<&str>,
    line: usize,
    column: usize,
    out: &mut Vec<u8>,
) -> Result<(), NoMemory>
    ensures { OnOk result
        (out.new.items ≡ out.old.items ++ place_text (option_copied file.entry) line column) }
{
    let mut place = String::new(*out.allocator());
    match file {
        None => write!(place, "line {line} column {column}: ")?,
        Some(name) => write!(place, "{name}:{line}:{column}: ")?,
    }
    out.extend_from_slice(place.as_bytes())?;
    Ok(())
}

/// Appends the line of a fault.
pub(crate) fn push_fault(
    file: Option<&str>,
    fault: &Fault<'_>,
    out: &mut Vec<u8>,
) -> Result<(), NoMemory>
    ensures { OnOk result (out.new.items ≡
        out.old.items ++ fault_line (option_copied file.entry) (fault_of fault.now)) }
{
    push_place(file, fault.line, fault.place.column, out)?;
    out.extend_from_slice(kind_word(fault.kind).as_bytes())?;
    out.extend_from_slice(b": ")?;
    push_shown(fault.place.word, out)?;
    push_hint(fault.place.hint, out)?;
    out.extend_from_slice(b"\n")?;
    Ok(())
}

/// Appends a line for each fault.
pub(crate) fn push_faults(
    file: Option<&str>,
    found: &[Fault<'_>],
    out: &mut Vec<u8>,
) -> Result<(), NoMemory>
    ensures { OnOk result (out.new.items ≡
        out.old.items ++ faults_text (option_copied file.entry) (map fault_of found.now)) }
{
    for fault in found {
        push_fault(file, fault, out)?;
    }
    Ok(())
}
