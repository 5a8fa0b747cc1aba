//! Texts in quotes.
ghost use Rattle.std.specs.Prelude.{◌≡◌, ◌<◌, ◌++◌, OnOk};
ghost use Rattle.std.specs.Char.{digit_char};
ghost use Rattle.json.specs.Print.{escape_byte, escape_letter, quoted};

use l4_types::errors::NoMemory;

// The letter of the short escape of a byte, or 0 where it has none.
fn escape_letter(byte: u8) -> u8
    ensures { result ≡ escape_letter byte }
{
    match byte {
        b'"' | b'\\' => byte,
        8 => b'b',
        12 => b'f',
        b'\n' => b'n',
        b'\r' => b'r',
        b'\t' => b't',
        _ => 0,
    }
}

// The digit of a number below 16.
fn digit(number: u8) -> u8
    requires { number < 16 }
    ensures { result ≡ digit_char number }
{
    if number < 10 {
        b'0' + number
    } else {
        b'a' + (number - 10)
    }
}

// Appends a byte, escaped where JSON wants that.
fn push_escaped(byte: u8, out: &mut Vec<u8>) -> Result<(), NoMemory>
    ensures { OnOk result (out.new.items ≡ out.old.items ++ escape_byte byte) }
{
    let letter = escape_letter(byte);
    if letter > 0 {
        out.extend_from_slice(&[b'\\', letter])?;
    } else if byte < 32 {
        out.extend_from_slice(&[b'\\', b'u', b'0', b'0', digit(byte / 16), digit(byte % 16)])?;
    } else {
        out.push(byte)?;
    }
    Ok(())
}

/// Appends a text in quotes.
pub(crate) fn push_quoted(text: &[u8], out: &mut Vec<u8>) -> Result<(), NoMemory>
    ensures { OnOk result (out.new.items ≡ out.old.items ++ quoted text.now) }
{
    out.push(b'"')?;
    for byte in text {
        push_escaped(*byte, out)?;
    }
    out.push(b'"')?;
    Ok(())
}
