//! Periods that pass.
ghost use Rattle.std.specs.Prelude.{◌≡◌};
ghost use Rattle.l4_model.specs.Conditions.{has_passed, is_zero};
ghost use Rattle.l4_types.specs.Inner.PeriodView.{period_of};

use l4_types::times::Period;

/// Whether a period that began at a clock has passed (manual: Time). Never never passes.
pub fn has_passed(period: Period, since: u64, now: u64) -> bool
    ensures { result ≡ has_passed (period_of period) since now }
{
    match period {
        Period::Never => false,
        Period::Zero => since <= now,
        Period::Ticks(ticks) => since <= now && ticks <= now - since,
    }
}

/// Whether a period is of no ticks.
pub fn is_zero(period: Period) -> bool
    ensures { result ≡ is_zero (period_of period) }
{
    matches!(period, Period::Zero | Period::Ticks(0))
}
