//! What a line of a session asks for.
ghost use Rattle.std.specs.Prelude.{◌≡◌};
ghost use Rattle.l4_steps.specs.Commands.{command_from, command_in, command_of, lone, with_rest};

use l4_words::numbers::decimal;

/// What a line of a session asks for.
#[derive(Clone, Copy, Debug, PartialEq, Eq)]
pub enum Command<'a> {
    /// Do the entry that this word names: by its number, counted from 1, among those that are
    /// possible, or by its item.
    Do(&'a str),
    /// Go so many entries back.
    Back(u64),
    /// Tell what is possible.
    Next,
    /// Tell the report of the replay of the entries so far.
    State,
    /// Draw the history so far.
    Chart,
    /// Tell the list of the entries so far.
    Record,
    /// Tell what a line may be.
    Help,
    /// End the session.
    Quit,
    /// None of these.
    Unknown,
}

// The command that a word alone stands for.
fn lone(word: &str) -> Command<'_>
    ensures { command_from result ≡ lone word.now }
{
    match word {
        "back" => Command::Back(1),
        "next" => Command::Next,
        "state" => Command::State,
        "chart" => Command::Chart,
        "record" => Command::Record,
        "help" => Command::Help,
        "quit" => Command::Quit,
        word => Command::Do(word),
    }
}

// The command of a word that has something behind it.
fn with_rest<'a>(word: &str, rest: &str) -> Command<'a>
    ensures { command_from result ≡ with_rest word.now rest.now }
{
    match word {
        "back" => match decimal(rest.as_bytes()) {
            Some(count) => Command::Back(count),
            None => Command::Unknown,
        },
        _ => Command::Unknown,
    }
}

// The command of a line without the blanks around it.
fn command_in(said: &str) -> Command<'_>
    ensures { command_from result ≡ command_in said.now }
{
    match said.split_once(' ') {
        Some((word, rest)) => with_rest(word, rest.trim()),
        None => lone(said),
    }
}

/// The command of a line, which may have blanks around it.
pub fn command_of(line: &str) -> Command<'_>
    ensures { command_from result ≡ command_of line.now }
{
    command_in(line.trim())
}
