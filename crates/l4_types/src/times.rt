//! Times of an Ipc (manual: Time).
ghost use Rattle.std.specs.Prelude.{◌≡◌, ◌<◌, IfSome};
ghost use Rattle.std.specs.Option.{option_map};
ghost use Rattle.l4_model.specs.Words.{period_of, time_of, timeouts_of};
ghost use Rattle.l4_types.specs.Inner.PeriodView.{period_from, periods_from, IsTimely};

/// How long a phase of an Ipc may wait, in ticks of a processor's clock. One tick is one
/// microsecond.
#[derive(Clone, Copy, PartialEq, Eq, Debug)]
pub enum Period {
    /// Without end.
    Never,
    /// Not at all.
    Zero,
    /// This many ticks. `time_of` gives 1 to 1023 * 2^31.
    Ticks(u64),
}

/// The period of a time (manual: Time): 0 is never, else it is the mantissa, bits 0 to 9, times the
/// power of two of the exponent, bits 10 to 14. None exactly where bit 15 is set, which would be a
/// point in time.
pub fn time_of(time: u16) -> Option<Period>
    ensures value { result ≡ option_map period_from (time_of time) }
    ensures timely { IfSome result (λ period. IsTimely period) }
{
    if time < 0x8000 {
        Some(period_of(time))
    } else {
        None
    }
}

// The period of a time without bit 15.
#[tactic(auto, using(crate::proofs::Products::product_positive, crate::proofs::Products::product_below))]
fn period_of(time: u16) -> Period
    requires { time < 0x8000 }
    ensures value { result ≡ period_from (period_of time) }
    ensures timely { IsTimely result }
{
    let mantissa = u64::from(time % 1024);
    if time == 0 {
        Period::Never
    } else if mantissa == 0 {
        Period::Zero
    } else {
        Period::Ticks(mantissa << (time / 1024))
    }
}

/// The periods of a word of timeouts (manual: Ipc), first the send period of bits 16 to 31, then
/// the receive period of bits 0 to 15. None exactly where bit 15 of one of the two times is set. No
/// crate here calls it, since machine texts spell the two times apart. It is for callers that have
/// such a word.
pub fn timeouts(timeouts: u32) -> Option<(Period, Period)>
    ensures { result ≡ option_map periods_from (timeouts_of timeouts) }
{
    let send = time_of((timeouts >> 16) as u16)?;
    let receive = time_of((timeouts & 0xffff) as u16)?;
    Some((send, receive))
}
