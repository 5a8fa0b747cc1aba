//! What is printed for a text.
ghost use Rattle.std.specs.Prelude.{◌≡◌, IfOk};
ghost use Rattle.std.specs.Option.{option_copied};
ghost use Rattle.l4_lint.specs.Doubts.{lint_text};
ghost use Rattle.l4_lint.specs.Faults.{faults_of};
ghost use Rattle.l4_lint.specs.Spelling.{faults_text, status_of};

use crate::doubts::{doubts, push_doubts};
use crate::faults::faults;
use crate::printed::Lint;
use crate::spelling::push_faults;
use l4_types::errors::NoMemory;
use std::alloc::Global;

/// The faults of a text, a line for each, and the status. Where the text declares a machine, there
/// is no line, and the status is 0. Where its file is named, each line begins with that name.
/// `NoMemory`: memory was refused.
pub fn lint(alloc: Global, file: Option<&str>, text: &[u8]) -> Result<Lint, NoMemory>
    ensures lines { IfOk result (λ lint. lint.lines.items ≡
        faults_text (option_copied file.entry) (faults_of text.now)) }
    ensures status { IfOk result (λ lint. lint.status ≡ status_of (faults_of text.now)) }
{
    let found = faults(alloc, text)?;
    let mut lines = Vec::new(alloc);
    push_faults(file, found.as_slice(), &mut lines)?;
    let status = if found.is_empty() { 0 } else { 1 };
    Ok(Lint { lines, status })
}

/// The same, with a line for each doubt where the text declares a machine. The status is 0 then.
pub fn lint_with_doubts(alloc: Global, file: Option<&str>, text: &[u8]) -> Result<Lint, NoMemory>
    ensures lines { IfOk result (λ lint. lint.lines.items ≡
        lint_text (option_copied file.entry) text.now) }
    ensures status { IfOk result (λ lint. lint.status ≡ status_of (faults_of text.now)) }
{
    let mut said = lint(alloc, file, text)?;
    let doubtful = doubts(alloc, text)?;
    push_doubts(file, doubtful.as_slice(), &mut said.lines)?;
    Ok(said)
}
