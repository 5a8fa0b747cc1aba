//! Reading the files of a job.
ghost use Rattle.std.specs.Prelude.{◌≡◌, ◌⊎◌, ◌+◌, ℕ, List, IfOk, IfErr, Ok, take};
ghost use Rattle.l4_schedules.specs.InFiles.{most_bytes};
ghost use Rattle.l4_jobs.specs.Inputs.{FailsWith};
ghost use Rattle.l4_jobs.specs.Inner.Reading.{IsReadAs};

use crate::fault::{Fault, read_fault};
use crate::streams::Source;
use l4_schedules::files::MOST_FILE_BYTES;
use l4_script::text::MOST_BYTES;
use std::alloc::Global;

// The first `most` bytes of the file of this name, or all where it has fewer.
fn read_most<'a, S: Source>(
    alloc: Global,
    name: &'a str,
    source: &mut S,
    most: u64,
) -> Result<Vec<u8>, Fault<'a>>
    ensures ok { IfOk result (λ text.
        (all : List ℕ) × S.gives source.old (Ok all) ×
        ((text.items ≡ all) ⊎ (text.items ≡ take most all))) }
    ensures err { IfErr result (λ fault.
        FailsWith name.now (S.gives source.old) fault) }
{
    match source.read_beginning(alloc, most) {
        Ok(text) => Ok(text),
        Err(kind) => Err(read_fault(name, kind)),
    }
}

// All bytes of the file of this name.
pub(crate) fn read_all<'a, S: Source>(
    alloc: Global,
    name: &'a str,
    source: &mut S,
) -> Result<Vec<u8>, Fault<'a>>
    ensures ok { IfOk result (λ text. S.gives source.old (Ok text.items)) }
    ensures err { IfErr result (λ fault.
        FailsWith name.now (S.gives source.old) fault) }
{
    match source.read_whole(alloc) {
        Ok(text) => Ok(text),
        Err(kind) => Err(read_fault(name, kind)),
    }
}

// The machine text in the file of this name. Where it is too long, one byte above the limit is
// enough to tell.
pub(crate) fn read_text<'a, M: Source>(
    alloc: Global,
    name: &'a str,
    machine: &mut M,
) -> Result<Vec<u8>, Fault<'a>>
    ensures ok { IfOk result (λ text.
        (all : List ℕ) × M.gives machine.old (Ok all) × IsReadAs text.items all) }
    ensures err { IfErr result (λ fault.
        FailsWith name.now (M.gives machine.old) fault) }
{
    read_most(alloc, name, machine, MOST_BYTES as u64 + 1)
}

// The list in the file of this name. Where it is too long, one byte above the limit is enough to
// tell.
pub(crate) fn read_list<'a, L: Source>(
    alloc: Global,
    name: &'a str,
    list: &mut L,
) -> Result<Vec<u8>, Fault<'a>>
    ensures ok { IfOk result (λ text.
        (all : List ℕ) × L.gives list.old (Ok all) ×
        ((text.items ≡ all) ⊎ (text.items ≡ take (most_bytes + 1) all))) }
    ensures err { IfErr result (λ fault.
        FailsWith name.now (L.gives list.old) fault) }
{
    read_most(alloc, name, list, MOST_FILE_BYTES as u64 + 1)
}
