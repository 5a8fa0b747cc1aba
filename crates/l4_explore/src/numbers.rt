//! Rows of numbers, in bytes.
ghost use Rattle.std.specs.Prelude.{◌≡◌, ◌<◌, ◌++◌, ◌∷◌, [], IfNone, IfSome, OnOk, length};
ghost use Rattle.l4_explore.specs.Inner.Rows.{digits_of, high_digit, numbers_of};

use std::alloc::AllocError;

/// Appends a number, seven bits in a byte, the high ones first. Each byte but its last is 128 or
/// more.
pub(crate) fn push_number(row: &mut Vec<u8>, number: u32) -> Result<(), AllocError>
    ensures { OnOk result (row.new.items ≡ row.old.items ++ digits_of number) }
{
    push_high(row, number / 268_435_456)?;
    push_high(row, number / 2_097_152)?;
    push_high(row, number / 16_384)?;
    push_high(row, number / 128)?;
    row.push((number % 128) as u8)?;
    Ok(())
}

// Appends the low seven bits of what is left of a number, if anything is.
fn push_high(row: &mut Vec<u8>, left: u32) -> Result<(), AllocError>
    ensures { OnOk result (row.new.items ≡ row.old.items ++ high_digit left) }
{
    if left > 0 {
        row.push((left % 128) as u8 + 128)?;
    }
    Ok(())
}

/// The first number of a row, and what is behind it. None if there is none.
pub(crate) fn first_number(row: &[u8]) -> Option<(usize, &[u8])>
    ensures some { IfSome result (λ p. numbers_of row.now ≡ p.0 ∷ numbers_of p.1.now) }
    ensures less { IfSome result (λ p. length p.1.now < length row.now) }
    ensures none { IfNone result (numbers_of row.now ≡ []) }
{
    let mut high = 0;
    let mut rest = row;
    while let Some((byte, others)) = rest.split_first() {
        rest = others;
        if *byte < 128 {
            return Some((high * 128 + *byte as usize, rest));
        }
        high = (high * 128 + (*byte - 128) as usize) % 33_554_432;
    }
    None
}
