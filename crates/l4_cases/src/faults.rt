//! What a fault displays, and the line that is reported of it. The line is proved; the words that it
//! displays are written by a derive, and have no contract.

use l4_expect::judging::Wrong;
use l4_jobs::fault::{Fault, Reason, report};
use l4_script::text::TextFaultKind;
use std::alloc::{AllocError, Global};
use std::io;

const KINDS: [TextFaultKind; 12] = [
    TextFaultKind::TooLong,
    TextFaultKind::NoMemory,
    TextFaultKind::BadLine,
    TextFaultKind::BadNumber,
    TextFaultKind::BadId,
    TextFaultKind::BadName,
    TextFaultKind::BadCpu,
    TextFaultKind::TypedItems,
    TextFaultKind::DoubleId,
    TextFaultKind::TooManyThreads,
    TextFaultKind::TooManyInstructions,
    TextFaultKind::BadTarget,
];

const WRONGS: [Wrong; 5] = [
    Wrong::BadLine,
    Wrong::Unknown,
    Wrong::BadWord,
    Wrong::Deleted,
    Wrong::Number,
];

// A fault of each kind.
fn faults(alloc: Global) -> Result<Vec<Fault<'static>>, AllocError> {
    let mut faults = vec![in alloc;
        Fault::Turns,
        Fault::Depth,
        Fault::States,
        Fault::Memory,
        Fault::Ending,
        Fault::Schedule(1),
        Fault::Threads(2),
        Fault::Trace(34),
        Fault::Refused(567),
        Fault::NoMemory,
        Fault::Read("a.l4", Reason::NoSuchFile),
        Fault::Unwritten("a list"),
        Fault::Write,
    ]?;
    for kind in KINDS {
        faults.push(Fault::Text { line: 12, kind })?;
    }
    for wrong in WRONGS {
        faults.push(Fault::Expectation(3, wrong))?;
    }
    Ok(faults)
}

// Whether what a fault displays is what its line says.
fn displays_its_line(alloc: Global, fault: &Fault<'_>) -> Result<bool, AllocError> {
    let displayed = format!(in alloc; "l4run: {fault}\n")?;
    let mut line = Vec::new(alloc);
    report(alloc, &mut line, fault);
    Ok(displayed.as_bytes() == line.as_slice())
}

/// Prints the faults that display something else than their line says, and returns how many they
/// are.
pub fn count_of_faults<R: AllocGlobal + Print>(rt: &R) -> io::Result<usize> {
    let mut others = 0usize;
    for fault in faults(rt.alloc())?.iter() {
        if !displays_its_line(rt.alloc(), fault)? {
            println!(rt; "a fault displays: {fault}")?;
            others = others.saturating_add(1);
        }
    }
    Ok(others)
}
