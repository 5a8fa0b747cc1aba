//! The kinds of lines, and what the words of each are told as.
ghost use Rattle.std.specs.Prelude.{◌≡◌, ◌∷◌, find, map, unwrap_or};
ghost use Rattle.std.specs.Option.{option_copied};
ghost use Rattle.l4_words.specs.Words.{words_in, words_left};
ghost use Rattle.l4_json.specs.Rows.{fits, is_ended, plain_row, row_of};
ghost use Rattle.l4_json.specs.Inner.Views.{part_of, row_view};

use l4_words::lines::split_once;

/// A part of a line.
#[derive(Clone, Copy, Debug, PartialEq, Eq)]
pub enum Part {
    /// This very word, which is not told.
    Label(&'static str),
    /// A word, which is told under this key.
    Word(&'static str),
    /// A word that a colon ends, which is told without that.
    Ended(&'static str),
    /// The words that follow, told as a row.
    Words(&'static str),
    /// What follows, told as one text.
    Text(&'static str),
}

/// A kind of lines.
#[derive(Clone, Copy, Debug, PartialEq, Eq)]
pub struct Row {
    /// What its objects call it.
    pub kind: &'static str,
    /// The parts of such a line.
    pub parts: &'static [Part],
}

/// The kinds of lines that are known. No two have one name. Of two that a line fits, the first is
/// its kind.
pub const ROWS: &[Row] = &[
    Row {
        kind: "local",
        parts: &[Part::Label("local"), Part::Word("thread")],
    },
    Row {
        kind: "begin",
        parts: &[Part::Label("begin"), Part::Word("send")],
    },
    Row {
        kind: "queue",
        parts: &[Part::Label("queue"), Part::Word("send")],
    },
    Row {
        kind: "deliver",
        parts: &[
            Part::Label("deliver"),
            Part::Word("send"),
            Part::Word("receiver"),
            Part::Word("shown"),
            Part::Word("actual"),
            Part::Word("tag"),
            Part::Words("words"),
        ],
    },
    Row {
        kind: "wait",
        parts: &[Part::Label("wait"), Part::Word("thread")],
    },
    Row {
        kind: "stimeout",
        parts: &[Part::Label("stimeout"), Part::Word("send")],
    },
    Row {
        kind: "rtimeout",
        parts: &[Part::Label("rtimeout"), Part::Word("thread")],
    },
    Row {
        kind: "snobody",
        parts: &[Part::Label("snobody"), Part::Word("send")],
    },
    Row {
        kind: "rnobody",
        parts: &[Part::Label("rnobody"), Part::Word("thread")],
    },
    Row {
        kind: "scancel",
        parts: &[Part::Label("scancel"), Part::Word("send")],
    },
    Row {
        kind: "rcancel",
        parts: &[Part::Label("rcancel"), Part::Word("thread")],
    },
    Row {
        kind: "drop",
        parts: &[Part::Label("drop"), Part::Word("send")],
    },
    Row {
        kind: "order",
        parts: &[
            Part::Label("order"),
            Part::Word("caller"),
            Part::Word("target"),
            Part::Word("what"),
        ],
    },
    Row {
        kind: "obey",
        parts: &[Part::Label("obey"), Part::Word("thread")],
    },
    Row {
        kind: "tick",
        parts: &[Part::Label("tick"), Part::Word("cpu"), Part::Word("clock")],
    },
    Row {
        kind: "retarget",
        parts: &[Part::Label("retarget"), Part::Word("send")],
    },
    Row {
        kind: "thread",
        parts: &[
            Part::Label("thread"),
            Part::Word("thread"),
            Part::Word("state"),
            Part::Word("code"),
            Part::Word("from"),
            Part::Word("actual"),
            Part::Words("registers"),
        ],
    },
    Row {
        kind: "waiting",
        parts: &[Part::Label("waiting"), Part::Word("send"), Part::Word("to")],
    },
    Row {
        kind: "quiet",
        parts: &[Part::Label("ending"), Part::Label("quiet")],
    },
    Row {
        kind: "spent",
        parts: &[Part::Label("ending"), Part::Label("spent")],
    },
    Row {
        kind: "waits",
        parts: &[
            Part::Label("waits"),
            Part::Word("thread"),
            Part::Word("for"),
            Part::Word("phase"),
        ],
    },
    Row {
        kind: "circle",
        parts: &[Part::Label("circle"), Part::Words("threads")],
    },
    Row {
        kind: "deadlock",
        parts: &[Part::Label("deadlock"), Part::Words("threads")],
    },
    Row {
        kind: "held",
        parts: &[Part::Label("held"), Part::Word("send")],
    },
    Row {
        kind: "counts",
        parts: &[
            Part::Label("counts"),
            Part::Word("thread"),
            Part::Label("turns"),
            Part::Word("turns"),
            Part::Label("sends"),
            Part::Word("sends"),
            Part::Label("delivered"),
            Part::Word("delivered"),
            Part::Label("received"),
            Part::Word("received"),
            Part::Label("refused"),
            Part::Words("refused"),
        ],
    },
    Row {
        kind: "passed",
        parts: &[
            Part::Label("passed"),
            Part::Word("steps"),
            Part::Word("ending"),
        ],
    },
    Row {
        kind: "because",
        parts: &[Part::Label("because"), Part::Text("cause")],
    },
    Row {
        kind: "possible",
        parts: &[Part::Label("possible"), Part::Text("step")],
    },
    Row {
        kind: "ending",
        parts: &[
            Part::Label("ending"),
            Part::Word("ending"),
            Part::Label("steps"),
            Part::Word("steps"),
        ],
    },
    Row {
        kind: "placed",
        parts: &[
            Part::Label("ending"),
            Part::Word("ending"),
            Part::Words("schedule"),
        ],
    },
    Row {
        kind: "worlds",
        parts: &[
            Part::Label("worlds"),
            Part::Word("worlds"),
            Part::Label("steps"),
            Part::Word("steps"),
            Part::Word("search"),
        ],
    },
    Row {
        kind: "states",
        parts: &[
            Part::Label("states"),
            Part::Word("states"),
            Part::Label("depth"),
            Part::Word("depth"),
            Part::Text("search"),
        ],
    },
    Row {
        kind: "endless",
        parts: &[
            Part::Label("no"),
            Part::Label("ending:"),
            Part::Label("it"),
            Part::Label("goes"),
            Part::Label("on"),
            Part::Label("for"),
            Part::Label("ever"),
        ],
    },
    Row {
        kind: "walked",
        parts: &[
            Part::Label("found"),
            Part::Label("by"),
            Part::Label("a"),
            Part::Label("walk,"),
            Part::Label("perhaps"),
            Part::Label("not"),
            Part::Label("the"),
            Part::Label("shortest;"),
            Part::Label("no"),
            Part::Label("others"),
            Part::Label("were"),
            Part::Label("looked"),
            Part::Label("for"),
        ],
    },
    Row {
        kind: "met",
        parts: &[
            Part::Label("met,"),
            Part::Label("steps"),
            Part::Word("steps"),
        ],
    },
    Row {
        kind: "met_or_fewer",
        parts: &[
            Part::Label("met,"),
            Part::Label("steps"),
            Part::Word("steps"),
            Part::Label("or"),
            Part::Label("fewer"),
        ],
    },
    Row {
        kind: "never_met",
        parts: &[Part::Label("never"), Part::Label("met")],
    },
    Row {
        kind: "not_met",
        parts: &[Part::Label("not"), Part::Label("met:"), Part::Label("cut")],
    },
    Row {
        kind: "stuck",
        parts: &[
            Part::Label("stuck"),
            Part::Word("thread"),
            Part::Label("for"),
            Part::Label("ever,"),
            Part::Label("steps"),
            Part::Word("steps"),
        ],
    },
    Row {
        kind: "cut",
        parts: &[
            Part::Label("stuck"),
            Part::Label("for"),
            Part::Label("ever:"),
            Part::Label("cut"),
        ],
    },
    Row {
        kind: "next",
        parts: &[Part::Label("next"), Part::Word("item")],
    },
    Row {
        kind: "item",
        parts: &[
            Part::Label("schedule"),
            Part::Label("item"),
            Part::Ended("item"),
            Part::Text("text"),
        ],
    },
    Row {
        kind: "lint",
        parts: &[
            Part::Label("line"),
            Part::Word("line"),
            Part::Label("column"),
            Part::Ended("column"),
            Part::Text("text"),
        ],
    },
];

/// The kind of a line that is of no known one.
pub const TEXT: Row = Row {
    kind: "text",
    parts: &[Part::Text("text")],
};

/// The first word of a line, and what stands behind the space that ends it.
pub(crate) fn first_word(line: &[u8]) -> (&[u8], Option<&[u8]>)
    ensures { words_in line.now ≡ result.0.now ∷ words_left (option_copied result.1) }
{
    match split_once(b' ', line) {
        Some((word, rest)) => (word, Some(rest)),
        None => (line, None),
    }
}

// Whether a colon ends a word.
fn is_ended(word: &[u8]) -> bool
    ensures { result ≡ is_ended word.now }
{
    word.last() == Some(&b':')
}

// Whether what is left of a line has these parts.
#[tactic(auto, using(crate::proofs::Fitting::nothing_left))]
fn fits(parts: &[Part], left: Option<&[u8]>) -> bool
    ensures { result ≡ fits (map part_of parts.now) (words_left (option_copied left.entry)) }
{
    let Some((part, parts)) = parts.split_first() else {
        return left.is_none();
    };
    match (*part, left) {
        (Part::Words(_), _) => true,
        (_, None) => false,
        (Part::Text(_), Some(_)) => true,
        (Part::Label(label), Some(line)) => {
            let (word, left) = first_word(line);
            word == label.as_bytes() && fits(parts, left)
        }
        (Part::Word(_), Some(line)) => fits(parts, first_word(line).1),
        (Part::Ended(_), Some(line)) => {
            let (word, left) = first_word(line);
            is_ended(word) && fits(parts, left)
        }
    }
}

// The first of these that a line fits, or that of a whole line.
fn first_of(rows: &[Row], line: &[u8]) -> Row
    ensures { row_view result ≡ unwrap_or
        (find (λ row. fits row.parts (words_in line.now)) (map row_view rows.now)) plain_row }
{
    for row in rows {
        if fits(row.parts, Some(line)) {
            return *row;
        }
    }
    TEXT
}

/// The kind of a line.
pub fn row_of(line: &[u8]) -> Row
    ensures { row_view result ≡ row_of (words_in line.now) }
{
    first_of(ROWS, line)
}
