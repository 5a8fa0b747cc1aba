//! What a job reads from and writes to: sources, sinks, and folders that open files. Unlike those
//! of std's readers and writers, their contracts also say when a call failed.
ghost use Rattle.std.specs.Prelude.{◌≡◌, ◌⊎◌, ◌++◌, [], ℕ, Bool, List, take, true, false, Result};
ghost use Rattle.std.specs.Prelude.{Err, IfOk, MatchResult, Ok, OnErr, Some, flat_map};
ghost use Rattle.std.specs.Option.{option_copied};
ghost use Rattle.std.specs.Io.KnownBytes.{Keeps};
ghost use Rattle.std.specs.declared.io.ErrorKind.{ErrorKind as Kind};
ghost use Rattle.l4_streams.specs.Streams.{GivenGives, HasAppended, IsWrittenApart, MayGive, MayTake};
ghost use Rattle.l4_streams.specs.Streams.{OpenedGives, OpensWithInput, TellsOver, name_read};

use arrayvec::ArrayString;
use l4_commands::job::INPUT;
use std::alloc::Global;
use std::fmt::Write as WriteText;
use std::fs::File;
use std::io::{ErrorKind, Read, Write};
use std::os::unix::fs::MetadataExt;
use std::rt::Files;
use std::{fs, io};

/// A source of a text. A failed read gives the kind of its error.
pub trait Source {
    // What reading it to its end may give.
    ghost gives: { Self → Result (List ℕ) Kind → Type 0 };

    /// Reads all that is left.
    fn read_whole(&mut self, alloc: Global) -> Result<Vec<u8>, ErrorKind>
        ensures { MatchResult result (λ bytes. gives self.old (Ok bytes.items))
            (λ kind. gives self.old (Err kind)) };

    /// Reads at most `most` bytes of what is left.
    fn read_beginning(&mut self, alloc: Global, most: u64) -> Result<Vec<u8>, ErrorKind>
        ensures { MatchResult result (λ bytes.
            (all : List ℕ) × gives self.old (Ok all) ×
            ((bytes.items ≡ all) ⊎ (bytes.items ≡ take most all)))
            (λ kind. gives self.old (Err kind)) };
}

impl<R: Read> Source for R {
    ghost gives = { λ s read. MayGive (R.remaining s) read };

    fn read_whole(&mut self, alloc: Global) -> Result<Vec<u8>, ErrorKind> {
        let mut bytes = Vec::new(alloc);
        match self.read_to_end(&mut bytes) {
            Ok(_) => Ok(bytes),
            Err(error) => Err(error.kind()),
        }
    }

    fn read_beginning(&mut self, alloc: Global, most: u64) -> Result<Vec<u8>, ErrorKind> {
        let mut bytes = Vec::new(alloc);
        match self.take(most).read_to_end(&mut bytes) {
            Ok(_) => Ok(bytes),
            Err(error) => Err(error.kind()),
        }
    }
}

/// A write or a flush failed.
#[derive(Clone, Copy, Debug, PartialEq, Eq)]
pub struct NotWritten;

/// A sink of lines.
pub trait Sink {
    // What writing these bytes may do to it. `all` says whether all of them were written.
    ghost takes: { (old new : Self) → (bytes : List ℕ) → (all : Bool) → Type 0 };

    /// Writes the bytes and flushes.
    fn put(&mut self, bytes: &[u8]) -> Result<(), NotWritten>
        ensures { MatchResult result (λ _. takes self.old self.new bytes.now true)
            (λ _. takes self.old self.new bytes.now false) };

    /// Writes texts, one behind the other, and flushes.
    fn put_parts(&mut self, parts: &[&str]) -> Result<(), NotWritten>
        ensures { MatchResult result
            (λ _. takes self.old self.new (flat_map (λ part. part.now) parts.now) true)
            (λ _. takes self.old self.new (flat_map (λ part. part.now) parts.now) false) };

    /// To write nothing changes nothing.
    ghost nothing: { (x : Self) → takes x x [] true };

    /// What took bytes and then others has taken all of them, or a beginning of them all.
    ghost joined: { (a b c : Self) (front back : List ℕ) (all : Bool) →
        takes a b front true → takes b c back all → takes a c (front ++ back) all };
}

// Writes a beginning of the bytes, and returns what is left of them.
#[tactic(auto, using(crate::proofs::Appending::kept))]
fn write_some<'a, W: Write>(out: &mut W, bytes: &'a [u8]) -> Result<&'a [u8], NotWritten>
    ensures some { IfOk result (λ left.
        HasAppended (W.contents out.old) (W.contents out.new) bytes.now left.now) }
    ensures none { OnErr result
        (HasAppended (W.contents out.old) (W.contents out.new) bytes.now bytes.now) }
{
    match out.write(bytes) {
        Ok(0) => Err(NotWritten),
        Ok(count) => Ok(&bytes[count..]),
        Err(error) if matches!(error.kind(), ErrorKind::Interrupted) => Ok(bytes),
        Err(_) => Err(NotWritten),
    }
}

// Writes the bytes, or a beginning of them.
#[tactic(auto, using(crate::proofs::Appending::onto, crate::proofs::Appending::begun, crate::proofs::Appending::whole))]
fn write_whole<W: Write>(out: &mut W, bytes: &[u8]) -> Result<(), NotWritten>
    ensures { MatchResult result
        (λ _. MayTake (W.contents out.old) (W.contents out.new) bytes.now true)
        (λ _. MayTake (W.contents out.old) (W.contents out.new) bytes.now false) }
{
    let mut left = bytes;
    for _ in 0..u64::MAX {
        if left.is_empty() {
            return Ok(());
        }
        left = write_some(out, left)?;
    }
    Err(NotWritten)
}

// Writes the texts, one behind the other, or a beginning of them all.
fn write_parts<W: Write>(out: &mut W, parts: &[&str]) -> Result<(), NotWritten>
    ensures { MatchResult result
        (λ _. MayTake (W.contents out.old) (W.contents out.new)
        (flat_map (λ part. part.now) parts.now) true)
        (λ _. MayTake (W.contents out.old) (W.contents out.new)
        (flat_map (λ part. part.now) parts.now) false) }
{
    for part in parts {
        write_whole(out, part.as_bytes())?;
    }
    Ok(())
}

fn flush<W: Write>(out: &mut W) -> Result<(), NotWritten>
    ensures { Keeps (W.contents out.old) (W.contents out.new) }
{
    out.flush().map_err(|_| NotWritten)
}

impl<W: Write> Sink for W {
    ghost use Rattle.std.proofs.KnownBytes.{Appends-nil};
    ghost use Rattle.l4_streams.specs.Inner.Taking.{taken_on};

    ghost takes = { λ old new bytes all. MayTake (W.contents old) (W.contents new) bytes all };

    fn put(&mut self, bytes: &[u8]) -> Result<(), NotWritten> {
        write_whole(self, bytes)?;
        flush(self)
    }

    fn put_parts(&mut self, parts: &[&str]) -> Result<(), NotWritten> {
        write_parts(self, parts)?;
        flush(self)
    }

    ghost nothing = { λ x. Appends-nil (W.contents x) };

    ghost joined = { λ a b c front back all.
        taken_on (W.contents a) (W.contents b) (W.contents c) front back all };
}

/// A folder, in which files are opened and written by their names.
pub trait Folder {
    type File: Source + Drop;

    // What opening the file of this name may give.
    ghost opens: { Self → (name : List ℕ) → Result Self.File Kind → Type 0 };

    /// Opens the file of this name.
    fn open(&self, name: &str) -> Result<Self::File, ErrorKind>
        ensures { opens self.now name.now result };

    // What the folder may tell of the files of two names.
    ghost tells_same: { Self → (name read : List ℕ) → (same : Bool) → Type 0 };

    /// Whether writing to the file `name` changes the file `read`: both names are of one file. A
    /// name that can't be looked at is of no file.
    fn are_same(&self, name: &str, read: &str) -> bool
        ensures { tells_same self.now name.now read.now result };

    // What writing these bytes to the file of this name may do. `all` says whether all of them were
    // written.
    ghost writes: { Self → (name bytes : List ℕ) → (all : Bool) → Type 0 };

    /// Writes the file of this name. Where there is none, there is one only when it has all of the
    /// bytes. Else it is emptied, and then written.
    fn write(&self, name: &str, bytes: &[u8]) -> Result<(), NotWritten>
        ensures { MatchResult result (λ _. writes self.now name.now bytes.now true)
            (λ _. writes self.now name.now bytes.now false) };
}

/// What was opened: a file, or an input that needs no opening.
#[derive(Drop)]
pub enum Opened<F, I> {
    /// The file of a name.
    File(F),
    /// The input.
    Input(I),
}

impl<F: Source, I: Source> Source for Opened<F, I> {
    ghost gives = { λ s read. OpenedGives F.gives I.gives s read };

    fn read_whole(&mut self, alloc: Global) -> Result<Vec<u8>, ErrorKind> {
        match self {
            Opened::File(file) => file.read_whole(alloc),
            Opened::Input(input) => input.read_whole(alloc),
        }
    }

    fn read_beginning(&mut self, alloc: Global, most: u64) -> Result<Vec<u8>, ErrorKind> {
        match self {
            Opened::File(file) => file.read_beginning(alloc, most),
            Opened::Input(input) => input.read_beginning(alloc, most),
        }
    }
}

/// A source that there may be.
#[derive(Drop)]
pub enum Given<S> {
    /// There is one.
    Source(S),
    /// There is none. Reading it comes to `NotFound`.
    Nothing,
}

impl<S: Source> Source for Given<S> {
    ghost gives = { λ s read. GivenGives S.gives s read };

    fn read_whole(&mut self, alloc: Global) -> Result<Vec<u8>, ErrorKind> {
        match self {
            Given::Source(source) => source.read_whole(alloc),
            Given::Nothing => Err(ErrorKind::NotFound),
        }
    }

    fn read_beginning(&mut self, alloc: Global, most: u64) -> Result<Vec<u8>, ErrorKind> {
        match self {
            Given::Source(source) => source.read_beginning(alloc, most),
            Given::Nothing => Err(ErrorKind::NotFound),
        }
    }
}

/// A folder in which the name `-` of a file that is read stands for an input, such as the standard
/// input. `job_of` refuses words that name it twice.
#[derive(Clone, Copy)]
pub struct WithInput<'a, F, I> {
    /// The folder.
    pub folder: &'a F,
    /// The input.
    pub input: I,
    /// The name that the file of the input has in the folder.
    pub input_name: &'a str,
}

/// The name that the file of the standard input has.
pub const STANDARD_INPUT: &str = "/dev/stdin";

impl<F: Folder, I: Source + Copy + Drop> Folder for WithInput<'_, F, I> {
    type File = Opened<F::File, I>;

    ghost opens = { λ s name opened. OpensWithInput (F.opens s.folder.now) s.input name opened };

    fn open(&self, name: &str) -> Result<Opened<F::File, I>, ErrorKind> {
        if name == INPUT {
            return Ok(Opened::Input(self.input));
        }
        match self.folder.open(name) {
            Ok(file) => Ok(Opened::File(file)),
            Err(kind) => Err(kind),
        }
    }

    ghost tells_same = { λ s name read same.
        F.tells_same s.folder.now name (name_read s.input_name.now read) same };

    fn are_same(&self, name: &str, read: &str) -> bool {
        let read = if read == INPUT { self.input_name } else { read };
        self.folder.are_same(name, read)
    }

    ghost writes = { λ s name bytes all. F.writes s.folder.now name bytes all };

    fn write(&self, name: &str, bytes: &[u8]) -> Result<(), NotWritten> {
        self.folder.write(name, bytes)
    }
}

/// Where the records of runs are kept, by their names.
pub trait Records {
    // What keeping this text under this name may do. `all` says whether all of it was written.
    ghost keeps: { (old new : Self) → (name bytes : List ℕ) → (all : Bool) → Type 0 };

    /// Keeps a record.
    fn keep(&mut self, name: &str, text: &[u8]) -> Result<(), NotWritten>
        ensures { MatchResult result (λ _. keeps self.old self.new name.now text.now true)
            (λ _. keeps self.old self.new name.now text.now false) };
}

/// The records are files of a folder. None is written over a file that is read.
#[derive(Clone, Copy)]
pub struct InFolder<'a, F> {
    /// The folder.
    pub folder: &'a F,
    /// The name of the file with the machine text.
    pub file: &'a str,
    /// The name of the file with the trace or the list, where one is read.
    pub second: Option<&'a str>,
    /// The name of the file with what is expected, where one is read.
    pub expects: Option<&'a str>,
}

impl<F: Folder> InFolder<'_, F> {
    // Whether writing to the file of this name changes one that is read, where that has a name.
    fn is_over(&self, name: &str, read: Option<&str>) -> bool
        ensures { TellsOver (F.tells_same self.now.folder.now) name.now (option_copied read.entry)
            result }
    {
        match read {
            Some(read) => self.folder.are_same(name, read),
            None => false,
        }
    }
}

impl<F: Folder> Records for InFolder<'_, F> {
    ghost keeps = { λ old new name bytes all.
        IsWrittenApart (F.tells_same old.folder.now) (F.writes old.folder.now)
        (Some old.file.now) (option_copied old.second) (option_copied old.expects)
        name bytes all };

    fn keep(&mut self, name: &str, text: &[u8]) -> Result<(), NotWritten> {
        if self.is_over(name, Some(self.file)) {
            return Err(NotWritten);
        }
        if self.is_over(name, self.second) {
            return Err(NotWritten);
        }
        if self.is_over(name, self.expects) {
            return Err(NotWritten);
        }
        self.folder.write(name, text)
    }
}

/// No record is kept.
#[derive(Clone, Copy, Debug, PartialEq, Eq)]
pub struct NoRecords;

impl Records for NoRecords {
    ghost keeps = { λ old new name bytes all. all ≡ false };

    fn keep(&mut self, _name: &str, _text: &[u8]) -> Result<(), NotWritten> {
        Err(NotWritten)
    }
}

// Whether both names are of one file of the system, by its device and number. What is written to a
// pipe or to a device does not change what was read.
fn are_one_file<R: Files>(files: &R, name: &str, read: &str) -> io::Result<bool> {
    let written = fs::metadata(files, name)?;
    let read = fs::metadata(files, read)?;
    Ok(written.is_file() && written.dev() == read.dev() && written.ino() == read.ino())
}

// How long the name of a file of the system is at most.
const MOST_NAME: usize = 4096;

// How many new files of one name may be under way at a time.
const MOST_PARTS: u32 = 100;

// A file for what is not yet whole, and its name.
#[derive(Drop)]
struct Part<F> {
    name: ArrayString<MOST_NAME>,
    file: F,
}

// Creates the file NAME.partN, with the least N whose file is not there. None where there can be
// none.
fn new_part<R: Files>(files: &R, name: &str) -> Option<Part<R::File>> {
    for number in 1..=MOST_PARTS {
        let mut part = ArrayString::new();
        write!(part, "{name}.part{number}").ok()?;
        match File::create_new(files, part.as_str()) {
            Ok(file) => return Some(Part { name: part, file }),
            Err(error) if matches!(error.kind(), ErrorKind::AlreadyExists) => {}
            Err(_) => return None,
        }
    }
    None
}

// Writes the bytes to a part, and gives it its name when it is whole. Else it is removed.
fn put_in_place<R: Files>(
    files: &R,
    name: &str,
    part: Part<R::File>,
    bytes: &[u8],
) -> Result<(), NotWritten> {
    let Part {
        name: part,
        mut file,
    } = part;
    let written = file.put(bytes);
    if written.is_ok() && fs::rename(files, part.as_str(), name).is_ok() {
        return Ok(());
    }
    // Where this fails too, a part is left.
    let _ = fs::remove_file(files, part.as_str());
    Err(NotWritten)
}

// Empties the file of this name, and writes it where it is.
fn overwrite<R: Files>(files: &R, name: &str, bytes: &[u8]) -> Result<(), NotWritten> {
    match fs::create(files, name) {
        Ok(mut file) => file.put(bytes),
        Err(_) => Err(NotWritten),
    }
}

// Whether there is no file of this name, nor a link.
fn is_free<R: Files>(files: &R, name: &str) -> bool {
    match fs::symlink_metadata(files, name) {
        Ok(_) => false,
        Err(error) => matches!(error.kind(), ErrorKind::NotFound),
    }
}

impl<R: Files> Folder for R {
    type File = R::File;

    ghost opens = { λ s name opened. Unit {0} };

    fn open(&self, name: &str) -> Result<R::File, ErrorKind> {
        match fs::open(self, name) {
            Ok(file) => Ok(file),
            Err(error) => Err(error.kind()),
        }
    }

    ghost tells_same = { λ s name read same. Unit {0} };

    fn are_same(&self, name: &str, read: &str) -> bool {
        are_one_file(self, name, read).unwrap_or(false)
    }

    ghost writes = { λ s name bytes all. Unit {0} };

    fn write(&self, name: &str, bytes: &[u8]) -> Result<(), NotWritten> {
        if !is_free(self, name) {
            return overwrite(self, name, bytes);
        }
        match new_part(self, name) {
            Some(part) => put_in_place(self, name, part, bytes),
            None => overwrite(self, name, bytes),
        }
    }
}
