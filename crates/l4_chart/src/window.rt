//! Which part of a history a chart shows.
ghost use Rattle.std.specs.Prelude.{◌≡◌, is_none};
ghost use Rattle.std.specs.List.{list_any};
ghost use Rattle.std.specs.Option.{option_copied};
ghost use Rattle.l4_model.specs.Words.{same_id};
ghost use Rattle.l4_chart.specs.Charts.{is_chosen};
ghost use Rattle.l4_chart.specs.Windows.{until_refused};

use l4_types::ids::GlobalId;
use std::marker::Model;

// Whether a thread is one of these.
fn has_thread(threads: &[GlobalId], thread: GlobalId) -> bool
    ensures { result ≡ list_any (λ chosen. same_id chosen thread) threads.now }
{
    threads.iter().any(|chosen| *chosen == thread)
}

/// The steps from one number to another, both of them shown, the threads that are chosen, whether what
/// changes in their registers is told, and whether steps that concern a thread alone are left out.
#[derive(Debug, Drop)]
pub struct Window<'a> {
    first: usize,
    last: usize,
    threads: Option<&'a [GlobalId]>,
    registers: bool,
    folds: bool,
}

impl<'a> Model for Window<'a> {
    ghost use Rattle.std.specs.Option.{option_copied};
    ghost use Rattle.l4_chart.specs.Windows.{Part};

    ghost Value = { Part };

    ghost view = { λ w. record {
      first = w.first;
      last = w.last;
      threads = option_copied w.threads;
      registers = w.registers;
      folds = w.folds;
    } };
}

impl<'a> Window<'a> {
    /// The steps from one number to another, counted from 1, of these threads, or of all.
    /// `registers`: whether it is told what they change in registers. `folds`: whether `local` steps
    /// are left out.
    pub fn new(
        first: usize,
        last: usize,
        threads: Option<&'a [GlobalId]>,
        registers: bool,
        folds: bool,
    ) -> Window<'a>
        ensures { result ≡ record {
          first = first;
          last = last;
          threads = option_copied threads.entry;
          registers = registers;
          folds = folds;
        } }
    {
        Window {
            first,
            last,
            threads,
            registers,
            folds,
        }
    }

    /// The window up to the first step that is not possible, without that step.
    pub fn until_refused(&self, refused: Option<usize>) -> Window<'a>
        ensures { result ≡ until_refused refused self.now }
    {
        let last = match refused {
            Some(number) => self.last.min(number.saturating_sub(1)),
            None => self.last,
        };
        Window {
            first: self.first,
            last,
            threads: self.threads,
            registers: self.registers,
            folds: self.folds,
        }
    }

    /// Whether a thread is chosen.
    pub fn is_chosen(&self, thread: GlobalId) -> bool
        ensures { result ≡ is_chosen self.now.threads thread }
    {
        match self.threads {
            None => true,
            Some(threads) => has_thread(threads, thread),
        }
    }

    /// The number of the first step that is shown, counted from 1.
    pub fn first(&self) -> usize
        ensures { result ≡ self.now.first }
    {
        self.first
    }

    /// The number of the last step that is shown.
    pub fn last(&self) -> usize
        ensures { result ≡ self.now.last }
    {
        self.last
    }

    /// Whether all threads are shown.
    pub fn has_all_threads(&self) -> bool
        ensures { result ≡ is_none self.now.threads }
    {
        self.threads.is_none()
    }

    /// Whether it is told what the steps change in registers.
    pub fn has_registers(&self) -> bool
        ensures { result ≡ self.now.registers }
    {
        self.registers
    }

    /// Whether `local` steps are left out.
    pub fn folds(&self) -> bool
        ensures { result ≡ self.now.folds }
    {
        self.folds
    }
}
