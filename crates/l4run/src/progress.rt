//! A line on a terminal that says how far a search has come, and an output beside it.

ghost use Rattle.std.specs.Prelude.{◌<◌};

use arrayvec::ArrayString;
use l4_explore::progress::Progress;
use l4_jobs::streams::{NotWritten, Sink};
use std::cell::Cell;
use std::fmt::Write;
use std::time::{Clock, Instant};

// A line has at most five numbers of 20 digits, and 48 other bytes.
const MOST_BYTES: usize = 148;

// What wipes the line.
const WIPED: &[u8] = b"\r\x1b[K";

// Wipes the line, where it stands on the terminal.
fn wipe<W: Sink>(terminal: &mut W, is_there: &Cell<bool>) {
    if is_there.get() {
        let _ = terminal.put(WIPED);
        is_there.set(false);
    }
}

/// A line on a terminal that says how far a search has come: `looked at 120000 states, 30000 wait,
/// depth 31, 4 s, 30000 a second`. From the first second on it is written once in each, over what
/// was there, and it is wiped where the search ends, or before the output beside it is written to.
/// It takes no memory. A write that fails is no fault.
#[derive(Drop)]
pub struct ProgressLine<'a, R, W> {
    clock: &'a R,
    out: &'a mut W,
    is_shown: bool,
    // Whether it stands on the terminal now.
    is_there: &'a Cell<bool>,
    began: Option<Instant>,
    // From so many states the search has gone on.
    gone_on: usize,
    // The second in which it was last written. 0 where it was not.
    written: u64,
}

impl<'a, R: Clock, W: Sink> ProgressLine<'a, R, W> {
    /// The line of a search that is not yet begun. Where it is not shown, nothing is ever written.
    /// `is_there` is what it shares with the output beside it.
    pub fn new(clock: &'a R, out: &'a mut W, is_shown: bool, is_there: &'a Cell<bool>) -> Self {
        ProgressLine {
            clock,
            out,
            is_shown,
            is_there,
            began: None,
            gone_on: 0,
            written: 0,
        }
    }

    // How many seconds ago the search began. None where it begins now, or no clock says so.
    fn seconds(&mut self) -> Option<u64> {
        let now = Instant::now(self.clock).ok()?;
        match self.began {
            Some(began) => Some(now.duration_since(began).as_secs()),
            None => {
                self.began = Some(now);
                None
            }
        }
    }

    fn write(&mut self, states: usize, waiting: usize, depth: usize, seconds: u64)
        requires { 0 < seconds }
    {
        let rate = states as u64 / seconds;
        let mut line = ArrayString::<MOST_BYTES>::new();
        if write!(
            line,
            "\rlooked at {states} states, {waiting} wait, depth {depth}, {seconds} s, {rate} a second"
        )
        .is_ok()
        {
            let _ = self.out.put(line.as_str().as_bytes());
            self.is_there.set(true);
            self.written = seconds;
        }
    }
}

impl<R: Clock, W: Sink> Progress for ProgressLine<'_, R, W> {
    fn looked_at(&mut self, states: usize, depth: usize) {
        if !self.is_shown {
            return;
        }
        // It is told of each state from which the search goes on.
        let waiting = states.saturating_sub(self.gone_on);
        self.gone_on = self.gone_on.saturating_add(1);
        match self.seconds() {
            Some(seconds) if seconds > self.written => self.write(states, waiting, depth, seconds),
            _ => {}
        }
    }

    fn ended(&mut self) {
        wipe(self.out, self.is_there);
        self.began = None;
        self.gone_on = 0;
        self.written = 0;
    }
}

/// Where such a line may stand.
#[derive(Drop)]
pub struct LinePlace<'a, T> {
    /// The terminal.
    pub terminal: T,
    /// Whether the line stands there now.
    pub is_there: &'a Cell<bool>,
}

impl<T: Sink> LinePlace<'_, T> {
    // Wipes the line, where there is one.
    fn wipe(&mut self) {
        wipe(&mut self.terminal, self.is_there);
    }
}

/// An output beside such a line, which is wiped before anything is written.
#[derive(Drop)]
pub struct BesideLine<'a, W, T> {
    /// The output.
    pub out: W,
    /// Where the line may stand.
    pub line: LinePlace<'a, T>,
}

impl<W: Sink, T: Sink> Sink for BesideLine<'_, W, T> {
    ghost takes = { λ old new bytes all. W.takes old.out new.out bytes all };

    fn put(&mut self, bytes: &[u8]) -> Result<(), NotWritten> {
        self.line.wipe();
        self.out.put(bytes)
    }

    fn put_parts(&mut self, parts: &[&str]) -> Result<(), NotWritten> {
        self.line.wipe();
        self.out.put_parts(parts)
    }

    ghost nothing = { λ x. W.nothing x.out };

    ghost joined = { λ a b c front back all. W.joined a.out b.out c.out front back all };
}
