//! What is asked of the endings of a machine.
ghost use Rattle.std.specs.Prelude.{◌≡◌, ◌⊎◌, ◌<◌, ◌≤◌, min, IfOk, IfErr, None, Some, false, ℕ};
ghost use Rattle.std.specs.Option.{option_copied};
ghost use Rattle.l4_explore.specs.Tries.{deepest};
ghost use Rattle.l4_questions.specs.Limits.{is_out_of_range, limits_fault, line_fault_at};
ghost use Rattle.l4_questions.specs.Limits.{lines_fault, most_looked, question_fault, state_bytes};
ghost use Rattle.l4_questions.specs.declared.question.QuestionFault.TheVariants.{NoMemory as OutOfMemory};
ghost use Rattle.l4_questions.specs.declared.question.Wanted.TheVariants.{Whatever};

use l4_expect::judging::{Wrong, wrong_of_ending};
use l4_script::machine::Machine;
use l4_types::errors::NoMemory;

/// The greatest depth that a question may ask for.
pub const MOST_DEEP: u64 = 1_000_000;

/// The greatest number of states or worlds.
pub const MOST_STATES: u64 = 100_000_000;

/// The most memory for them, in MiB.
pub const MOST_MEMORY: u64 = 1_048_576;

/// The memory for them where nothing else is asked for, in MiB.
pub const USUAL_MEMORY: u64 = 2_048;

const MEBIBYTE: u64 = 1_048_576;

/// How many of the endings that are asked for should exist.
#[derive(Clone, Copy, Debug, PartialEq, Eq)]
pub enum Wanted {
    /// Any number.
    Whatever,
    /// None: if one is found, the status is 4.
    NoEnding,
    /// At least one: if there is none, the status is 4.
    AnEnding,
}

/// Which endings of a machine are asked for: those for which all of these conditions hold.
#[derive(Clone, Copy, Debug, PartialEq, Eq)]
pub struct Question<'a> {
    /// The greatest number of steps but ticks of a history, or of events of a core run, 1 to
    /// 1,000,000. Any other number is the fault `Depth`.
    pub depth: u64,
    /// The greatest number of worlds or states that are looked at, 1 to 100,000,000. Any other
    /// number is the fault `States`.
    pub states: u64,
    /// The most memory for them in MiB, 1 to 1,048,576: so many bytes are counted for each, 128 and
    /// 8 for each thread of the machine. Any other number is the fault `Memory`.
    pub memory: u64,
    /// Only endings in which a send waits, or a thread receives from one thread alone.
    pub stuck: bool,
    /// Threads that do not count as stuck, by their ids with commas between them: a thread that
    /// waits for an interrupt rests in a receive from one thread. An item that is no id names none.
    pub rests: Option<&'a str>,
    /// Only endings whose report has such a line. One that endings can't be asked for is the fault
    /// `Line`.
    pub with_line: Option<&'a str>,
    /// Only endings whose report has no such line. One that endings can't be asked for is the fault
    /// `Line`.
    pub never: Option<&'a str>,
    /// How many such endings should exist.
    pub wanted: Wanted,
}

/// Why a question has no answer.
#[derive(Clone, Copy, Debug, PartialEq, Eq)]
pub enum QuestionFault {
    /// Memory was refused.
    NoMemory,
    /// This line is the first of those that are asked for, that of `with_line` before that of
    /// `never` and counted from 1, that endings can't be asked for, and why.
    Line(usize, Wrong),
    /// The depth is 0 or above 1,000,000.
    Depth,
    /// The number of worlds or states is 0 or above 100,000,000.
    States,
    /// The memory for them is 0 or above 1,048,576 MiB.
    Memory,
}

impl From<NoMemory> for QuestionFault {
    ghost from_gives = { λ _ fault. fault ≡ OutOfMemory };

    fn from(_: NoMemory) -> QuestionFault {
        QuestionFault::NoMemory
    }
}

impl<'a> Question<'a> {
    /// The question for all endings, with the usual memory.
    pub fn new(depth: u64, states: u64) -> Question<'a>
        ensures { result ≡ record {
          depth = depth;
          states = states;
          memory = 2048;
          stuck = false;
          rests = None;
          with_line = None;
          never = None;
          wanted = Whatever;
        } }
    {
        Question {
            depth,
            states,
            memory: USUAL_MEMORY,
            stuck: false,
            rests: None,
            with_line: None,
            never: None,
            wanted: Wanted::Whatever,
        }
    }

    /// The greatest depth of a search, and the greatest number of its states or worlds, where it may
    /// begin.
    pub(crate) fn limits(&self, machine: &Machine) -> Result<(u32, u32), QuestionFault>
        ensures ok { IfOk result (λ limits.
            (question_fault self.now ≡ None) × (limits.0 ≡ self.now.depth) ×
            (limits.1 ≡ most_looked machine.now self.now) × (0 < limits.1) ×
            (min limits.0 deepest ≡ self.now.depth)) }
        ensures err { IfErr result (λ fault. question_fault self.now ≡ Some fault) }
    {
        match self.lines_fault() {
            Some(fault) => Err(fault),
            None => self.limits_alone(machine),
        }
    }

    // The first line that endings can't be asked for.
    fn lines_fault(&self) -> Option<QuestionFault>
        ensures { result ≡
            lines_fault (option_copied self.now.with_line) (option_copied self.now.never) }
    {
        match self.with_line {
            None => line_fault_at(1, self.never),
            Some(line) => match line_fault_at(1, Some(line)) {
                Some(fault) => Some(fault),
                None => line_fault_at(2, self.never),
            },
        }
    }

    // The limits, whatever its lines are.
    fn limits_alone(&self, machine: &Machine) -> Result<(u32, u32), QuestionFault>
        ensures ok { IfOk result (λ limits.
            (limits_fault self.now ≡ None) × (limits.0 ≡ self.now.depth) ×
            (limits.1 ≡ most_looked machine.now self.now) × (0 < limits.1) ×
            (min limits.0 deepest ≡ self.now.depth)) }
        ensures err { IfErr result (λ fault. limits_fault self.now ≡ Some fault) }
    {
        if is_out_of_range(MOST_DEEP, self.depth) {
            return Err(QuestionFault::Depth);
        }
        if is_out_of_range(MOST_STATES, self.states) {
            return Err(QuestionFault::States);
        }
        if is_out_of_range(MOST_MEMORY, self.memory) {
            return Err(QuestionFault::Memory);
        }
        let enough = self.memory * MEBIBYTE / state_bytes(machine);
        Ok((self.depth as u32, self.states.min(enough) as u32))
    }
}

// What is wrong with the line of this number, where there is one.
fn line_fault_at(number: usize, line: Option<&str>) -> Option<QuestionFault>
    ensures { result ≡ line_fault_at number (option_copied line.entry) }
{
    let wrong = wrong_of_ending(line?.as_bytes())?;
    Some(QuestionFault::Line(number, wrong))
}

// How many bytes are counted for a state or a world.
fn state_bytes(machine: &Machine) -> u64
    ensures value { result ≡ state_bytes machine.now }
    ensures some { 0 < result }
    ensures few { result ≤ 8320 }
{
    128 + 8 * machine.threads().len() as u64
}

fn is_out_of_range(most: u64, number: u64) -> bool
    ensures { result ≡ is_out_of_range most number }
{
    number == 0 || number > most
}
