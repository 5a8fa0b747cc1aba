//! The characters that a chart is drawn with.
ghost use Rattle.std.specs.Prelude.{◌≡◌};
ghost use Rattle.l4_chart.specs.Cells.{for_line, glyph_of, opened};

use crate::marks::Kind;

/// The characters that a chart is drawn with. Each takes one column of a terminal.
#[derive(Clone, Copy, Debug, PartialEq, Eq)]
pub struct Glyphs {
    /// The line of a thread.
    pub line: char,
    /// The line of a thread that waits.
    pub waiting_line: char,
    /// An arrow over the line of a thread that it does not concern.
    pub cross: char,
    /// The sender of an arrow to the right.
    pub right_start: char,
    /// The sender of an arrow to the left.
    pub left_start: char,
    /// An arrow between two lines.
    pub shaft: char,
    /// The head of an arrow to the right.
    pub right_head: char,
    /// The head of an arrow to the left.
    pub left_head: char,
    /// A thread whose processor's clock goes on.
    pub clock: char,
    /// Between the threads of a processor, in the heading.
    pub bracket: char,
    /// In place of what is cut off a line.
    pub cut: char,
    /// A thread runs an instruction that concerns nobody else, or ends.
    pub local: char,
    /// A send begins.
    pub begin: char,
    /// A send is appended to a list.
    pub queue: char,
    /// A receive phase begins.
    pub wait: char,
    /// A send fails.
    pub send_failure: char,
    /// A receive phase fails.
    pub receive_failure: char,
    /// A cancellation or a deletion is asked for.
    pub order: char,
    /// A cancellation or a deletion is done.
    pub obey: char,
    /// An originator turns.
    pub retarget: char,
    /// A send that has not arrived, between two lines.
    pub open_shaft: char,
    /// The head of such a send to the right.
    pub open_right_head: char,
    /// The head of such a send to the left.
    pub open_left_head: char,
    /// A thread whose script has ended.
    pub ended: char,
    /// A deleted thread.
    pub deleted: char,
}

/// For a terminal that shows lines.
pub const LINES: Glyphs = Glyphs {
    line: '│',
    waiting_line: '┊',
    cross: '┼',
    right_start: '├',
    left_start: '┤',
    shaft: '─',
    right_head: '►',
    left_head: '◄',
    clock: '╪',
    bracket: '─',
    cut: '…',
    local: '•',
    begin: '○',
    queue: '□',
    wait: '◇',
    send_failure: '✗',
    receive_failure: '⊗',
    order: '▲',
    obey: '▼',
    retarget: '↻',
    open_shaft: '╌',
    open_right_head: '▷',
    open_left_head: '◁',
    ended: '┴',
    deleted: '╳',
};

/// For any terminal.
pub const ASCII: Glyphs = Glyphs {
    line: '|',
    waiting_line: ':',
    cross: '-',
    right_start: '+',
    left_start: '+',
    shaft: '-',
    right_head: '>',
    left_head: '<',
    clock: '=',
    bracket: '-',
    cut: '~',
    local: '*',
    begin: 'o',
    queue: 'q',
    wait: 'w',
    send_failure: 'x',
    receive_failure: 'X',
    order: '!',
    obey: 'v',
    retarget: '@',
    open_shaft: '.',
    open_right_head: ')',
    open_left_head: '(',
    ended: '_',
    deleted: '#',
};

impl Glyphs {
    /// The character of a step of one thread.
    pub fn of_kind(&self, kind: Kind) -> char
        ensures { result ≡ glyph_of self.now kind }
    {
        match kind {
            Kind::Local => self.local,
            Kind::Begin => self.begin,
            Kind::Queue => self.queue,
            Kind::Wait => self.wait,
            Kind::SendFailure => self.send_failure,
            Kind::ReceiveFailure => self.receive_failure,
            Kind::Order => self.order,
            Kind::Obey => self.obey,
            Kind::Retarget => self.retarget,
            Kind::Ready => self.line,
            Kind::Ended => self.ended,
            Kind::Deleted => self.deleted,
        }
    }

    /// The same characters for the line of a thread that waits, or does not.
    pub fn for_line(&self, waits: bool) -> Glyphs
        ensures { result ≡ for_line self.now waits }
    {
        if !waits {
            return *self;
        }
        Glyphs {
            line: self.waiting_line,
            ..*self
        }
    }

    /// The same characters, where each arrow is a send that has not arrived.
    pub fn opened(&self) -> Glyphs
        ensures { result ≡ opened self.now }
    {
        Glyphs {
            shaft: self.open_shaft,
            right_head: self.open_right_head,
            left_head: self.open_left_head,
            ..*self
        }
    }
}
