//! What an answer adds to the endings: charts, who waits for whom, and which expectations are not
//! met.
ghost use Rattle.std.specs.Prelude.{◌≡◌, ◌==◌, ◌++◌, None, OnOk, false, length};
ghost use Rattle.std.specs.Option.{option_copied};
ghost use Rattle.l4_expect.specs.Unmet.{expected_status};
ghost use Rattle.l4_questions.specs.Printed.{told_unmet, unmet_of};

use crate::found::FoundEnding;
use l4_chart::listing::Listing;
use l4_chart::whole::TextForm;
use l4_expect::expectations::Expectations;
use l4_types::errors::NoMemory;

/// A chart of a shortest history that comes to an ending.
#[derive(Clone, Copy)]
pub struct AskedChart<'e, 't> {
    /// How it is written.
    pub form: TextForm,
    /// The text of the machine.
    pub listing: &'e Listing<'t>,
}

/// What is printed of each ending beside its report.
#[derive(Clone, Copy)]
pub struct Shown<'e, 't> {
    /// The chart above the report, if one is.
    pub chart: Option<AskedChart<'e, 't>>,
    /// Whether behind the report it is told who waits for whom in its world.
    pub waits: bool,
}

/// What an answer adds to the endings that a question asks for.
#[derive(Clone, Copy)]
pub struct Beside<'e, 't> {
    /// What is printed of each.
    pub shown: Shown<'e, 't>,
    /// What each report has to meet. The status is 4 where one does not.
    pub expected: Option<&'e Expectations<'t>>,
}

impl<'e, 't> Beside<'e, 't> {
    /// Adds nothing.
    pub fn nothing() -> Beside<'e, 't>
        ensures { result ≡ record {
          shown = record { chart = None; waits = false };
          expected = None;
        } }
    {
        Beside {
            shown: Shown {
                chart: None,
                waits: false,
            },
            expected: None,
        }
    }
}

// Appends the expectations that an ending does not meet.
fn tell_unmet(
    expected: &Expectations<'_>,
    number: usize,
    found: &FoundEnding<'_>,
    unmet: &mut Vec<u8>,
) -> Result<(), NoMemory>
    ensures { OnOk result (unmet.new.items ≡
        unmet.old.items ++ told_unmet expected.now number found.now) }
{
    found.write_head(number, unmet)?;
    expected.write_unmet(found.report(), unmet)?;
    Ok(())
}

/// Appends the expectations that an ending does not meet, if there are any.
pub(crate) fn write_unmet(
    expected: Option<&Expectations<'_>>,
    number: usize,
    found: &FoundEnding<'_>,
    unmet: &mut Vec<u8>,
) -> Result<(), NoMemory>
    ensures { OnOk result (unmet.new.items ≡
        unmet.old.items ++ unmet_of (option_copied expected.entry) number found.now) }
{
    match expected {
        Some(expected) if !expected.are_met(found.report()) => {
            tell_unmet(expected, number, found, unmet)
        }
        _ => Ok(()),
    }
}

/// The exit status: 4 where `unmet` has lines, else `status`.
pub(crate) fn status_beside(unmet: &[u8], status: u8) -> u8
    ensures { result ≡ expected_status (length unmet.now == 0) status }
{
    if unmet.is_empty() { status } else { 4 }
}
