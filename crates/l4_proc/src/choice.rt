//! What a processor did in an event: as a value, and as one number of its log.
ghost use Rattle.std.specs.Prelude.{ℕ, ◌≡◌, ◌<◌, ◌^◌};
ghost use Rattle.l4_core_model.specs.Runs.{Handles, Ticks};
ghost use Rattle.l4_proc.specs.Choices.{action_in, action_of};

/// What a processor did in an event.
#[derive(Clone, Copy, PartialEq, Eq, Debug)]
pub enum Choice {
    /// The processor handled the first letter under way from this processor.
    Letter(u8),
    /// The core took its turn.
    Core,
    /// Its clock went on to this value, in ticks.
    TickTo(u64),
}

// The number of the core's turn. Above it are those of the processors that posted a letter.
pub(crate) const CORE: u64 = 0;

// The number of a tick to 0. Ticks have the numbers from here on.
const TICKS: u64 = 257;

/// The number of an event that handles a letter from this processor.
pub(crate) fn letter_number(from: u8) -> u64
    ensures { (cpu : ℕ) → action_in cpu result ≡ Handles cpu from }
{
    CORE + 1 + u64::from(from)
}

/// The number of a tick to this value.
pub(crate) fn tick_number(clock: u64) -> u64
    requires { clock < 2 ^ 62 }
    ensures { (cpu : ℕ) → action_in cpu result ≡ Ticks cpu clock }
{
    TICKS + clock
}

/// What the number stands for.
pub(crate) fn choice_of(number: u64) -> Choice
    ensures { (cpu : ℕ) → action_of cpu result ≡ action_in cpu number }
{
    if number == CORE {
        return Choice::Core;
    }
    if number < TICKS {
        Choice::Letter((number - CORE - 1) as u8)
    } else {
        Choice::TickTo(number - TICKS)
    }
}
