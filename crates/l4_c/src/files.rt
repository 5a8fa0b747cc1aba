//! The files of a call, which are texts in memory, and the sources of a job among them.
ghost use Rattle.std.specs.Prelude.{◌≡◌, IfErr, IfOk, MatchResult, None, false, true};
ghost use Rattle.std.specs.Option.{option_copied};
ghost use Rattle.std.specs.declared.io.ErrorKind.TheVariants.{OutOfMemory};
ghost use Rattle.l4_commands.specs.Files.{expected_of, file_of, second_file_of};
ghost use Rattle.l4_c.specs.Files.{IsNotThere, files_in, first_missing, found, found_where};
ghost use Rattle.l4_c.specs.Files.{gives_in, is_missing, is_named, names_of};

use l4_jobs::fault::{Fault, Reason};
use l4_jobs::job::Job;
use l4_jobs::streams::Source;
use std::alloc::Global;
use std::io::ErrorKind;

/// A file of a call. One without a name is not there.
#[derive(Clone, Copy, Debug, PartialEq, Eq)]
pub struct NamedFile<'a> {
    /// What words may name it by.
    pub name: &'a [u8],
    /// What it has.
    pub text: &'a [u8],
}

impl NamedFile<'_> {
    // Whether this is the file of that name.
    fn is_named(&self, name: &str) -> bool
        ensures { result ≡ is_named name.now (self.now.name.now, self.now.text.now) }
    {
        !self.name.is_empty() && self.name == name.as_bytes()
    }
}

/// The files of a call.
#[derive(Clone, Copy, Debug, PartialEq, Eq)]
pub struct Files<'a> {
    /// Of two with one name, the first is taken.
    pub first: NamedFile<'a>,
    /// The second file.
    pub second: NamedFile<'a>,
    /// The third file.
    pub third: NamedFile<'a>,
}

impl<'a> Files<'a> {
    // What the file of this name has.
    fn find(&self, name: &str) -> Option<&'a [u8]>
        ensures { option_copied result ≡ found name.now (files_in self.now) }
    {
        if self.first.is_named(name) {
            Some(self.first.text)
        } else if self.second.is_named(name) {
            Some(self.second.text)
        } else if self.third.is_named(name) {
            Some(self.third.text)
        } else {
            None
        }
    }

    // The source of this name, where a job has one.
    fn source<'n>(&self, name: Option<&'n str>) -> Result<Text<'a>, Fault<'n>>
        ensures ok { IfOk result (λ text. option_copied text.bytes
            ≡ found_where (option_copied name.entry) (files_in self.now)) }
        ensures there { IfOk result (λ text.
            is_missing (option_copied name.entry) (files_in self.now) ≡ false) }
        ensures missing { IfErr result (λ fault.
            is_missing (option_copied name.entry) (files_in self.now) ≡ true) }
        ensures err { IfErr result (IsNotThere (option_copied name.entry)) }
    {
        let Some(name) = name else {
            return Ok(Text { bytes: None });
        };
        match self.find(name) {
            Some(text) => Ok(Text { bytes: Some(text) }),
            None => Err(Fault::Read(name, Reason::NoSuchFile)),
        }
    }

    /// The sources of a job, or the fault of the first of its files that is not there.
    pub fn sources<'n>(&self, job: &Job<'n>) -> Result<Sources<'a>, Fault<'n>>
        ensures there { IfOk result (λ sources.
            first_missing (names_of job.now) (files_in self.now) ≡ None) }
        ensures machine { IfOk result (λ sources. option_copied sources.machine.bytes
            ≡ found (file_of job.now) (files_in self.now)) }
        ensures second { IfOk result (λ sources. option_copied sources.second.bytes
            ≡ found_where (second_file_of job.now) (files_in self.now)) }
        ensures expects { IfOk result (λ sources. option_copied sources.expects.bytes
            ≡ found_where (expected_of job.now) (files_in self.now)) }
        ensures err { IfErr result
            (IsNotThere (first_missing (names_of job.now) (files_in self.now))) }
    {
        Ok(Sources {
            machine: self.source(Some(job.file()))?,
            second: self.source(job.second_file())?,
            expects: self.source(job.expected())?,
        })
    }
}

/// A source that has these bytes, where it is there.
#[derive(Clone, Copy, Debug, PartialEq, Eq)]
pub struct Text<'a> {
    /// What reading it gives.
    pub bytes: Option<&'a [u8]>,
}

// A copy of these bytes.
fn copied(alloc: Global, bytes: &[u8]) -> Result<Vec<u8>, ErrorKind>
    ensures { MatchResult result (λ copy. copy.items ≡ bytes.now) (λ kind. kind ≡ OutOfMemory) }
{
    match Vec::from_slice(alloc, bytes) {
        Ok(copy) => Ok(copy),
        Err(_) => Err(ErrorKind::OutOfMemory),
    }
}

impl Source for Text<'_> {
    ghost gives = { λ s read. gives_in (option_copied s.bytes) read };

    fn read_whole(&mut self, alloc: Global) -> Result<Vec<u8>, ErrorKind> {
        match self.bytes {
            Some(bytes) => copied(alloc, bytes),
            None => Err(ErrorKind::NotFound),
        }
    }

    fn read_beginning(&mut self, alloc: Global, most: u64) -> Result<Vec<u8>, ErrorKind> {
        let Some(bytes) = self.bytes else {
            return Err(ErrorKind::NotFound);
        };
        match bytes.get(..most as usize) {
            Some(beginning) => copied(alloc, beginning),
            None => copied(alloc, bytes),
        }
    }
}

/// The sources of a job.
#[derive(Clone, Copy, Debug, PartialEq, Eq)]
pub struct Sources<'a> {
    /// That of the machine text.
    pub machine: Text<'a>,
    /// That of the trace or of the list.
    pub second: Text<'a>,
    /// That of what is expected.
    pub expects: Text<'a>,
}
