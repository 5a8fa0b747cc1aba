//! The commands of the program, with a row for each of their arguments.
//!
//! All that clap, the help and the definitions know of an argument stands in its row.
ghost use Rattle.std.specs.Prelude.{◌≡◌, codes};
ghost use Rattle.l4_commands.specs.Commands.{command, command_of, run_rules, replay_rules};
ghost use Rattle.l4_commands.specs.Commands.{audit_rules, chart_rules, endings_rules, lint_rules};
ghost use Rattle.l4_commands.specs.Commands.{step_rules};

use crate::texts::{
    AUDIT_EXAMPLE, CHART_EXAMPLE, ENDINGS_EXAMPLE, LINT_EXAMPLE, REPLAY_EXAMPLE, RUN_EXAMPLE,
    STEP_EXAMPLE,
};

/// What an argument takes. The text in it is what help calls the value.
pub enum Takes {
    /// The name of a file to be read, in its place among the words. It has to be given.
    Input(&'static str),
    /// Nothing: the option is given or not.
    Nothing,
    /// The name of a file.
    File(&'static str),
    /// A text.
    Text(&'static str),
    /// A text that has to be given.
    NeededText(&'static str),
    /// A text that the command can't do with. It is left out of the help, and whoever gives it is
    /// told which command can.
    RefusedText(&'static str),
    /// A number below 2^64.
    Number {
        /// What it is where none is given. Without it, matches show whether one was.
        default: Option<&'static str>,
        /// Whether help tells the default.
        is_told: bool,
    },
}

/// An argument of a command. An option has the word `--name`.
pub struct Argument {
    /// Its name.
    pub name: &'static str,
    /// What it takes.
    pub takes: Takes,
    /// What help says of it.
    pub help: &'static str,
}

/// A command.
#[derive(Clone, Copy)]
pub struct Verb {
    /// The word that names it.
    pub name: &'static str,
    /// What it does, in a line.
    pub about: &'static str,
    /// Its arguments, as help lists them.
    pub arguments: &'static [Argument],
    /// The end of its help.
    pub example: &'static str,
}

const FILE: Argument = Argument {
    name: "file",
    takes: Takes::Input("FILE"),
    help: "The machine text",
};

const TRACE: Argument = Argument {
    name: "trace",
    takes: Takes::Input("TRACE"),
    help: "The trace, a line for each step",
};

const REPORT: Argument = Argument {
    name: "report",
    takes: Takes::Nothing,
    help: "Prints what the threads have come to in place of the steps",
};

const CHART: Argument = Argument {
    name: "chart",
    takes: Takes::Nothing,
    help: "Draws the steps, as `chart` does, in place of their lines",
};

const REGISTERS: Argument = Argument {
    name: "registers",
    takes: Takes::Nothing,
    help: "Tells in a chart below each step what it changes: registers, and who waits to send",
};

const WAITS: Argument = Argument {
    name: "waits",
    takes: Takes::Nothing,
    help: "Prints last who waits for whom, and each circle of them, as `deadlock 1.1 2.1`",
};

const COUNTS: Argument = Argument {
    name: "counts",
    takes: Takes::Nothing,
    help: "Prints last what each thread did, as `counts 1.1 turns 4 sends 1 ..`",
};

const EXPECT: Argument = Argument {
    name: "expect",
    takes: Takes::File("NAME"),
    help: "Tells what of the file NAME does not hold of the report, with status 4",
};

const JSON: Argument = Argument {
    name: "json",
    takes: Takes::Nothing,
    help: "Prints an object of JSON for each line",
};

const COLOURS: Argument = Argument {
    name: "color",
    takes: Takes::Text("WHEN"),
    help: "Paints lines by their words: `auto`, on a terminal, `always` or `never` [default: auto]",
};

const RECORD: Argument = Argument {
    name: "record",
    takes: Takes::File("NAME"),
    help: "Writes a schedule by which `replay` does the same to the file NAME, not FILE",
};

// The turns of a run where none are given.
const TURNS: &str = "100000";

const RUN_ARGUMENTS: &[Argument] = &[
    FILE,
    Argument {
        name: "turns",
        takes: Takes::Number {
            default: Some(TURNS),
            is_told: true,
        },
        help: "Ends after N turns, 1 to 1000000, and at most one more for each further \
processor",
    },
    REPORT,
    CHART,
    REGISTERS,
    WAITS,
    COUNTS,
    JSON,
    COLOURS,
    RECORD,
    EXPECT,
    Argument {
        name: "schedule",
        takes: Takes::RefusedText("LIST"),
        help: "",
    },
];

pub fn run() -> Verb
    ensures { command_of result ≡ command (codes "run") run_rules }
{
    Verb {
        name: "run",
        about: "Runs a machine text and prints a line for each step",
        arguments: RUN_ARGUMENTS,
        example: RUN_EXAMPLE,
    }
}

const REPLAY_ARGUMENTS: &[Argument] = &[
    FILE,
    Argument {
        name: "schedule",
        takes: Takes::NeededText("LIST"),
        help: "Items joined by commas, or the empty text, or `@` and the name of a file with \
them",
    },
    Argument {
        name: "then-rest",
        takes: Takes::Nothing,
        help: "Goes on where the list ends, in rounds of a turn of each processor",
    },
    Argument {
        name: "turns",
        takes: Takes::Number {
            default: None,
            is_told: false,
        },
        help: "Turns of `--then-rest`, as those of `run` [default: 100000]",
    },
    Argument {
        name: "next",
        takes: Takes::Nothing,
        help: "Prints what may happen behind the list in place of all else: items, and their steps",
    },
    REPORT,
    CHART,
    REGISTERS,
    WAITS,
    COUNTS,
    JSON,
    COLOURS,
    RECORD,
    EXPECT,
];

pub fn replay() -> Verb
    ensures { command_of result ≡ command (codes "replay") replay_rules }
{
    Verb {
        name: "replay",
        about: "Replays a schedule on a machine text and prints a line for each step",
        arguments: REPLAY_ARGUMENTS,
        example: REPLAY_EXAMPLE,
    }
}

const AUDIT_ARGUMENTS: &[Argument] = &[
    FILE,
    TRACE,
    Argument {
        name: "report",
        takes: Takes::Nothing,
        help: "Prints what the threads have come to, also before a step that is refused",
    },
    Argument {
        name: "explain",
        takes: Takes::Nothing,
        help: "Prints why a step is refused, and which steps are possible instead",
    },
    WAITS,
    COUNTS,
    JSON,
    COLOURS,
];

pub fn audit() -> Verb
    ensures { command_of result ≡ command (codes "audit") audit_rules }
{
    Verb {
        name: "audit",
        about: "Tells whether a trace is one of a machine text",
        arguments: AUDIT_ARGUMENTS,
        example: AUDIT_EXAMPLE,
    }
}

const CHART_ARGUMENTS: &[Argument] = &[
    FILE,
    TRACE,
    Argument {
        name: "from",
        takes: Takes::Number {
            default: Some("1"),
            is_told: false,
        },
        help: "Begins with this step, counted from 1",
    },
    Argument {
        name: "to",
        takes: Takes::Number {
            default: Some("18446744073709551615"),
            is_told: false,
        },
        help: "Ends with this step",
    },
    Argument {
        name: "threads",
        takes: Takes::Text("LIST"),
        help: "Shows these threads alone, joined by commas",
    },
    REGISTERS,
    Argument {
        name: "fold",
        takes: Takes::Nothing,
        help: "Leaves out steps that concern their thread alone, `local`",
    },
    Argument {
        name: "width",
        takes: Takes::Number {
            default: Some("0"),
            is_told: false,
        },
        help: "Lays a text out for N columns",
    },
    Argument {
        name: "ascii",
        takes: Takes::Nothing,
        help: "Draws with characters that any terminal has",
    },
    Argument {
        name: "svg",
        takes: Takes::Nothing,
        help: "Prints a picture, an SVG file",
    },
    Argument {
        name: "html",
        takes: Takes::Nothing,
        help: "Prints a page, an HTML file",
    },
    Argument {
        name: "mermaid",
        takes: Takes::Nothing,
        help: "Prints a sequence diagram of Mermaid",
    },
    COLOURS,
];

pub fn chart() -> Verb
    ensures { command_of result ≡ command (codes "chart") chart_rules }
{
    Verb {
        name: "chart",
        about: "Draws a trace: threads, steps, and an arrow for each delivery",
        arguments: CHART_ARGUMENTS,
        example: CHART_EXAMPLE,
    }
}

const ENDINGS_ARGUMENTS: &[Argument] = &[
    FILE,
    Argument {
        name: "depth",
        takes: Takes::Number {
            default: Some("1000"),
            is_told: true,
        },
        help: "Searches histories of at most N steps but ticks, or N items, 1 to 1000000",
    },
    Argument {
        name: "states",
        takes: Takes::Number {
            default: Some("1000000"),
            is_told: true,
        },
        help: "Looks at N worlds or states at most, 1 to 100000000",
    },
    Argument {
        name: "memory",
        takes: Takes::Number {
            default: Some("2048"),
            is_told: true,
        },
        help: "Looks at no more of them than N MiB are counted for, 1 to 1048576",
    },
    Argument {
        name: "with",
        takes: Takes::Text("LINE"),
        help: "Prints endings whose report has this line, where * is any word",
    },
    Argument {
        name: "never",
        takes: Takes::Text("LINE"),
        help: "Prints endings whose report has no such line",
    },
    Argument {
        name: "stuck",
        takes: Takes::Nothing,
        help: "Prints endings where somebody waits for an answer or a receiver that does not \
come",
    },
    Argument {
        name: "rests",
        takes: Takes::Text("LIST"),
        help: "Lets `--stuck` pass over these threads, joined by commas: each may rest as it is",
    },
    Argument {
        name: "none",
        takes: Takes::Nothing,
        help: "Ends with status 4 where such an ending was found",
    },
    Argument {
        name: "some",
        takes: Takes::Nothing,
        help: "Ends with status 4 where there is no such ending, with 0 where one was found",
    },
    Argument {
        name: "always",
        takes: Takes::Text("CONDITION"),
        help: "Asks in place of endings that no world on the way meets this, `never LINE & LINE`",
    },
    Argument {
        name: "chart",
        takes: Takes::Nothing,
        help: "Prints above each report a chart of how it comes to that",
    },
    REGISTERS,
    Argument {
        name: "waits",
        takes: Takes::Nothing,
        help: "Prints behind each who waits for whom there, as `replay` does",
    },
    EXPECT,
    Argument {
        name: "trace",
        takes: Takes::Number {
            default: None,
            is_told: false,
        },
        help: "Prints the trace of ending N in place of all else",
    },
    Argument {
        name: "placed",
        takes: Takes::Nothing,
        help: "Knows only runs that take threads in turn and clocks to least deadlines, as `replay` \
does",
    },
    JSON,
    COLOURS,
];

pub fn endings() -> Verb
    ensures { command_of result ≡ command (codes "endings") endings_rules }
{
    Verb {
        name: "endings",
        about: "Searches for all endings of a machine text, under any scheduler and at any times",
        arguments: ENDINGS_ARGUMENTS,
        example: ENDINGS_EXAMPLE,
    }
}

const LINT_ARGUMENTS: &[Argument] = &[
    FILE,
    Argument {
        name: "schedule",
        takes: Takes::Text("LIST"),
        help: "Tells what is wrong in this list, or in the file of `@NAME`, for the machine",
    },
    JSON,
    COLOURS,
];

pub fn lint() -> Verb
    ensures { command_of result ≡ command (codes "lint") lint_rules }
{
    Verb {
        name: "lint",
        about: "Tells all that is wrong in a machine text",
        arguments: LINT_ARGUMENTS,
        example: LINT_EXAMPLE,
    }
}

const STEP_ARGUMENTS: &[Argument] = &[FILE, REGISTERS, COLOURS];

pub fn step() -> Verb
    ensures { command_of result ≡ command (codes "step") step_rules }
{
    Verb {
        name: "step",
        about: "Goes through a machine text step by step, by the lines of the standard input",
        arguments: STEP_ARGUMENTS,
        example: STEP_EXAMPLE,
    }
}
