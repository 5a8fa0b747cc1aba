//! What a session answers to a line.
ghost use Rattle.std.specs.Prelude.{◌≡◌, ◌≤◌, ◌++◌, [], IfOk, None, Some, codes, length, map, true};
ghost use Rattle.std.specs.Option.{option_map};
ghost use Rattle.l4_core_model.specs.Runs.{told};
ghost use Rattle.l4_core_model.specs.Schedules.{replay_entries};
ghost use Rattle.l4_replay.specs.Entries.{entries_fault, entry_from, first_stranger, is_entry};
ghost use Rattle.l4_replay.specs.Entries.{most_entries};
ghost use Rattle.l4_chart.specs.Whole.{whole_text};
ghost use Rattle.l4_schedules.specs.Written.{schedule_text};
ghost use Rattle.l4_steps.specs.Possible.{choices_text};
ghost use Rattle.l4_steps.specs.Replies.{does, ended, goes_back, item_named, moves, named, numbered};
ghost use Rattle.l4_steps.specs.Replies.{few_text, reply_from, reply_to, reply_to_command};
ghost use Rattle.l4_steps.specs.Replies.{report_of, tells};
ghost use Rattle.l4_steps.specs.Commands.{command_from};
ghost use Rattle.l4_steps.specs.Sessions.{IsSession};

use crate::commands::{Command, command_of};
use crate::possible::{
    history_of, outcome_of, possible_entries, with_entry, write_choices, write_event,
};
use itoa::Buffer;
use l4_chart::listing::Listing;
use l4_chart::whole::{TextForm, whole_text};
use l4_replay::{Entry, MOST_ENTRIES, RunFault};
use l4_reports::report_lines::write_report;
use l4_schedules::items::schedule_of;
use l4_schedules::writing::write_schedule;
use l4_script::machine::Machine;
use l4_types::errors::NoMemory;
use l4_words::numbers::decimal;
use std::alloc::Global;

/// What is told of a line that is no command and names no entry.
pub const NOT_KNOWN: &str = "refused: neither a command nor an entry; help tells both\n";

/// What is told of an entry that is not possible where the session stands.
pub const NOT_POSSIBLE: &str = "refused: not possible now\n";

/// What is told where there is no room for an entry more.
pub const TOO_MANY: &str = "refused: a session has at most 1000000 entries\n";

/// What `help` tells.
pub const HELP: &str = "NUMBER       does the entry of this number
ITEM         does the entry of this item: cP, P:Q, tP or tP:V, as in a schedule
back         goes an entry back; back N goes N entries back
next         tells what is possible
state        tells the report of the replay so far
chart        draws the history so far
record       tells the list of the entries so far, as replay --schedule takes it
help         tells this
quit         ends, as the end of the input does
";

/// What a line comes to.
#[derive(Debug, Drop)]
pub struct Reply {
    /// The entries behind it.
    pub entries: Vec<Entry>,
    /// What is told.
    pub text: Vec<u8>,
    /// Whether the session ends.
    pub ends: bool,
}

// A copy of these entries.
fn copied(alloc: Global, entries: &[Entry]) -> Result<Vec<Entry>, NoMemory>
    ensures { IfOk result (λ all. all.items ≡ entries.now) }
{
    let mut all = Vec::new(alloc);
    all.extend_from_slice(entries)?;
    Ok(all)
}

// Nothing changes, and this is told.
fn tells(alloc: Global, entries: &[Entry], text: Vec<u8>) -> Result<Reply, NoMemory>
    ensures { IfOk result (λ r. reply_from r ≡ tells (map entry_from entries.now) text.items) }
{
    Ok(Reply {
        entries: copied(alloc, entries)?,
        text,
        ends: false,
    })
}

// Nothing changes, and these words are told.
fn says(alloc: Global, entries: &[Entry], words: &str) -> Result<Reply, NoMemory>
    ensures { IfOk result (λ r. reply_from r ≡ tells (map entry_from entries.now) words.now) }
{
    let mut text = Vec::new(alloc);
    text.extend_from_slice(words.as_bytes())?;
    tells(alloc, entries, text)
}

// The session goes on behind these entries. What is possible there is told behind this text.
fn moves(
    alloc: Global,
    machine: &Machine,
    front: Vec<u8>,
    entries: Vec<Entry>,
) -> Result<Reply, NoMemory>
    requires lawful { first_stranger machine.now 1 (map entry_from entries.items) ≡ None }
    requires few { length entries.items ≤ most_entries }
    ensures { IfOk result (λ r.
        reply_from r ≡ moves machine.now front.items (map entry_from entries.items)) }
{
    let mut text = front;
    write_choices(alloc, machine, entries.as_slice(), &mut text)?;
    Ok(Reply {
        entries,
        text,
        ends: false,
    })
}

// Does an entry of the machine, where it is possible behind these.
fn does(
    alloc: Global,
    machine: &Machine,
    entries: &[Entry],
    entry: Entry,
) -> Result<Reply, NoMemory>
    requires session { IsSession machine.now (map entry_from entries.now) }
    requires own { is_entry machine.now (entry_from entry) ≡ true }
    ensures { IfOk result (λ r. reply_from r
        ≡ does machine.now (map entry_from entries.now) (Some (entry_from entry))) }
{
    if entries.len() >= MOST_ENTRIES {
        return says(alloc, entries, TOO_MANY);
    }
    let all = with_entry(alloc, entries, entry)?;
    let outcome = outcome_of(alloc, machine, all.as_slice())?;
    // Where an entry is not possible, the replay has no event of it.
    if outcome.turns <= entries.len() as u64 {
        return says(alloc, entries, NOT_POSSIBLE);
    }
    let before = history_of(alloc, machine, entries)?;
    let after = outcome.history.into_history(alloc)?;
    let mut text = Vec::new(alloc);
    text.extend_from_slice(b"did ")?;
    write_event(alloc, entry, &before, &after, &mut text)?;
    moves(alloc, machine, text, all)
}

// The entry of this number among those that are possible, counted from 1.
fn numbered(
    alloc: Global,
    machine: &Machine,
    entries: &[Entry],
    number: u64,
) -> Result<Option<Entry>, NoMemory>
    requires { entries_fault machine.now (map entry_from entries.now) ≡ None }
    ensures { IfOk result (λ entry. option_map entry_from entry
        ≡ numbered machine.now (map entry_from entries.now) number) }
{
    let Some(place) = number.checked_sub(1) else {
        return Ok(None);
    };
    let possible = possible_entries(alloc, machine, entries)?;
    Ok(possible.get(place as usize).copied())
}

// The entry of an item of the machine.
fn item_named(alloc: Global, machine: &Machine, word: &str) -> Result<Option<Entry>, NoMemory>
    ensures { IfOk result (λ entry.
        option_map entry_from entry ≡ item_named machine.now word.now) }
{
    match schedule_of(alloc, machine, word) {
        Ok(entries) => match entries.as_slice() {
            [entry] => Ok(Some(*entry)),
            _ => Ok(None),
        },
        Err(RunFault::NoMemory) => Err(NoMemory),
        Err(_) => Ok(None),
    }
}

// The entry that a word names, by its number or by its item.
fn named(
    alloc: Global,
    machine: &Machine,
    entries: &[Entry],
    word: &str,
) -> Result<Option<Entry>, NoMemory>
    requires { entries_fault machine.now (map entry_from entries.now) ≡ None }
    ensures { IfOk result (λ entry. option_map entry_from entry
        ≡ named machine.now (map entry_from entries.now) word.now) }
{
    match decimal(word.as_bytes()) {
        Some(number) => numbered(alloc, machine, entries, number),
        None => item_named(alloc, machine, word),
    }
}

// Does the entry that a word names.
fn does_named(
    alloc: Global,
    machine: &Machine,
    entries: &[Entry],
    word: &str,
) -> Result<Reply, NoMemory>
    requires { IsSession machine.now (map entry_from entries.now) }
    ensures { IfOk result (λ r. reply_from r ≡ does machine.now (map entry_from entries.now)
        (named machine.now (map entry_from entries.now) word.now)) }
{
    match named(alloc, machine, entries, word)? {
        Some(entry) => does(alloc, machine, entries, entry),
        None => says(alloc, entries, NOT_KNOWN),
    }
}

// What is told where there are only so many entries to take back.
fn few_text(alloc: Global, count: usize) -> Result<Vec<u8>, NoMemory>
    ensures { IfOk result (λ text. text.items ≡ few_text count) }
{
    let mut buffer = Buffer::new();
    let mut text = Vec::new(alloc);
    text.extend_from_slice(b"refused: entries so far: ")?;
    text.extend_from_slice(buffer.format(count).as_bytes())?;
    text.extend_from_slice(b"\n")?;
    Ok(text)
}

// Takes so many entries back.
fn goes_back(
    alloc: Global,
    machine: &Machine,
    entries: &[Entry],
    count: u64,
) -> Result<Reply, NoMemory>
    requires { IsSession machine.now (map entry_from entries.now) }
    ensures { IfOk result (λ r.
        reply_from r ≡ goes_back machine.now (map entry_from entries.now) count) }
{
    if count > entries.len() as u64 {
        return tells(alloc, entries, few_text(alloc, entries.len())?);
    }
    let left = copied(alloc, &entries[..entries.len() - count as usize])?;
    moves(alloc, machine, Vec::new(alloc), left)
}

// The report of the replay of these entries.
fn report_of(alloc: Global, machine: &Machine, entries: &[Entry]) -> Result<Vec<u8>, NoMemory>
    requires { entries_fault machine.now (map entry_from entries.now) ≡ None }
    ensures { IfOk result (λ text. text.items
        ≡ report_of machine.now (replay_entries machine.now (map entry_from entries.now))) }
{
    let outcome = outcome_of(alloc, machine, entries)?;
    let mut text = Vec::new(alloc);
    write_report(
        outcome.threads.as_slice(),
        outcome.waiting.as_slice(),
        outcome.ending,
        &mut text,
    )?;
    Ok(text)
}

// The chart of the history of that replay.
fn chart_of(
    alloc: Global,
    machine: &Machine,
    listing: &Listing<'_>,
    form: TextForm,
    entries: &[Entry],
) -> Result<Vec<u8>, NoMemory>
    requires { entries_fault machine.now (map entry_from entries.now) ≡ None }
    ensures { IfOk result (λ text. text.items ≡ whole_text machine.now listing.now
        (told (replay_entries machine.now (map entry_from entries.now)).events) form) }
{
    let history = history_of(alloc, machine, entries)?;
    whole_text(alloc, machine, listing, &history, form)
}

// The list of these entries in a line.
fn schedule_line(alloc: Global, entries: &[Entry]) -> Result<Vec<u8>, NoMemory>
    ensures { IfOk result (λ text.
        text.items ≡ schedule_text (map entry_from entries.now) ++ codes "\n") }
{
    let mut text = Vec::new(alloc);
    write_schedule(entries, &mut text)?;
    text.extend_from_slice(b"\n")?;
    Ok(text)
}

// The session ends.
fn ended(alloc: Global, entries: &[Entry]) -> Result<Reply, NoMemory>
    ensures { IfOk result (λ r. reply_from r ≡ ended (map entry_from entries.now)) }
{
    Ok(Reply {
        entries: copied(alloc, entries)?,
        text: Vec::new(alloc),
        ends: true,
    })
}

// What a command comes to behind these entries.
fn reply_to_command(
    alloc: Global,
    machine: &Machine,
    listing: &Listing<'_>,
    form: TextForm,
    entries: &[Entry],
    command: Command<'_>,
) -> Result<Reply, NoMemory>
    requires { IsSession machine.now (map entry_from entries.now) }
    ensures { IfOk result (λ r. reply_from r ≡ reply_to_command machine.now listing.now form
        (map entry_from entries.now) (command_from command.entry)) }
{
    match command {
        Command::Do(word) => does_named(alloc, machine, entries, word),
        Command::Back(count) => goes_back(alloc, machine, entries, count),
        Command::Next => moves(alloc, machine, Vec::new(alloc), copied(alloc, entries)?),
        Command::State => tells(alloc, entries, report_of(alloc, machine, entries)?),
        Command::Chart => {
            let chart = chart_of(alloc, machine, listing, form, entries)?;
            tells(alloc, entries, chart)
        }
        Command::Record => tells(alloc, entries, schedule_line(alloc, entries)?),
        Command::Help => says(alloc, entries, HELP),
        Command::Quit => ended(alloc, entries),
        Command::Unknown => says(alloc, entries, NOT_KNOWN),
    }
}

/// What a line of bytes comes to behind the entries of a session on a machine. `listing` is that of
/// the machine's text; a chart is drawn in this form.
///
/// An entry that is not possible and a line that is no command change nothing, and a line of text
/// says so. `NoMemory`: memory was refused.
pub fn reply_to(
    alloc: Global,
    machine: &Machine,
    listing: &Listing<'_>,
    form: TextForm,
    entries: &[Entry],
    line: &[u8],
) -> Result<Reply, NoMemory>
    requires { IsSession machine.now (map entry_from entries.now) }
    ensures { IfOk result (λ r. reply_from r
        ≡ reply_to machine.now listing.now form (map entry_from entries.now) line.now) }
{
    let line = String::from_utf8_lossy(alloc, line)?;
    let command = command_of(line.as_str());
    reply_to_command(alloc, machine, listing, form, entries, command)
}

/// What is told before the first line: the entries that are possible at the opening.
///
/// `NoMemory`: memory was refused.
pub fn opening_text(alloc: Global, machine: &Machine) -> Result<Vec<u8>, NoMemory>
    ensures { IfOk result (λ text. text.items ≡ choices_text machine.now []) }
{
    let mut text = Vec::new(alloc);
    write_choices(alloc, machine, &[], &mut text)?;
    Ok(text)
}
