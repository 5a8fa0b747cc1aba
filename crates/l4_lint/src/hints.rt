//! What is said about a place in a machine text.

/// What may stand behind the first word of a line.
#[derive(Clone, Copy)]
pub enum Operand {
    /// The profile, 1 or 2.
    Profile,
    /// The number of bits of a word, 64 or 32.
    Width,
    /// A number of processors, 1 to 16.
    Processors,
    /// A thread `N.V`.
    Thread,
    /// The word `cpu`.
    CpuKeyword,
    /// A processor, below the number of the `cpus` line.
    Processor,
    /// The word `space`.
    SpaceKeyword,
    /// An address space, 0 to 4294967295.
    Space,
    /// A register that is written, 1 to 63.
    Register,
    /// A register that is read, 0 to 63.
    Source,
    /// A word of the text's format.
    Word,
    /// A tag: a word of the text's format whose bits 6 to 11 are zero.
    Tag,
    /// A thread id.
    Id,
    /// A thread id, or `last`.
    Destination,
    /// A time: `never`, `zero`, or 0 to 0x7fff.
    Time,
    /// `S`, `R` or `SR`.
    Bits,
    /// A place of the script: 0 to its number of instructions.
    Place,
    /// A thread `N.V`, or a name (scripts of version 2, as all below).
    NamedThread,
    /// The word `to`.
    ToKeyword,
    /// A thread of the same version with no lower number, or its name.
    LastThread,
    /// The word `as`.
    AsKeyword,
    /// A thread that is declared before.
    Heir,
    /// A name that may be declared.
    NewName,
    /// A thread id, or a name.
    NamedId,
    /// A thread id, a name, or a register `mrA`.
    IdOrRegister,
    /// The same, or `last`.
    IdOrLast,
    /// A time of version 1, or so many microseconds, milliseconds or seconds.
    CountedTime,
    /// A label of the text's format.
    Label,
    /// A place of the script, or the name of an instruction.
    NamedPlace,
}

/// Which lines may stand in a place of a text.
#[derive(Clone, Copy)]
pub enum Lines {
    /// The first line, `l4 P B`.
    Format,
    /// The second line, `cpus N`.
    Processors,
    /// A line `thread ID cpu P space S`.
    Thread,
    /// A thread line, or an instruction.
    Script,
    /// A line `name NAME ID`, or a thread line (scripts of version 2).
    Names,
}

/// The hint of a fault: what stands there, or what may stand there.
#[derive(Clone, Copy)]
pub enum Hint {
    /// The text has more bytes than a text may have.
    LongText,
    /// The last line has no line end.
    NoLineEnd,
    /// A byte order mark.
    ByteOrderMark,
    /// A carriage return.
    CarriageReturn,
    /// A carriage return elsewhere than at the end of its line, or one more than one there, where one
    /// may stand (scripts of version 2).
    SurplusReturn,
    /// A tab.
    Tab,
    /// Another byte that is not printable ASCII.
    Unprintable,
    /// A space too many.
    Space,
    /// One of these lines may stand there.
    Begins(Lines),
    /// A comment that begins with `#` or `//`.
    OtherComment,
    /// A comment behind other words.
    CommentBehind,
    /// A word too many.
    Surplus,
    /// This may stand there.
    Wanted(Operand),
    /// A hexadecimal number without `0x`, or in upper case.
    Hexadecimal,
    /// A time with a unit.
    TimeUnit,
    /// `last`, elsewhere than where an ipc sends to.
    Last,
    /// A version that no thread has: its low six bits are zero.
    Version,
    /// A tag with typed items: its `t` is not zero.
    TypedItems,
    /// A thread number that was declared before.
    DoubleNumber,
    /// The last of several threads, one of which has a number that was declared before.
    DoubleAmong,
    /// One thread more than a machine may have.
    ManyThreads,
    /// One instruction more than a script may have.
    ManyInstructions,
    /// A word that is no name.
    NoName,
    /// A name that no line declares, nor one that is near.
    Unknown,
    /// The line of this number declares the name.
    DeclaredOn(usize),
    /// It declares the name, but in no line of the script that asks for it.
    ElsewhereOn(usize),
    /// The line of this number declares a name that is near.
    NearOn(usize),
    /// No time means so many microseconds, but these two numbers of them.
    NearTimes(u64, u64),
    /// No instruction follows a thread line that names another thread's script.
    OfHeir,
}
