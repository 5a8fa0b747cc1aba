//! Texts that stand in markup.
ghost use Rattle.std.specs.Prelude.{◌≡◌, ◌++◌, IfOk, OnOk, flat_map};
ghost use Rattle.std.specs.String.{string_bytes};
ghost use Rattle.l4_chart.specs.Markup.{escaped, escaped_byte};

use crate::ink::push_text;
use l4_types::errors::NoMemory;
use std::alloc::Global;

fn push_escaped(out: &mut Vec<u8>, byte: u8) -> Result<(), NoMemory>
    ensures { OnOk result (out.new.items ≡ out.old.items ++ escaped_byte byte) }
{
    match byte {
        b'&' => push_text(out, "&amp;"),
        b'<' => push_text(out, "&lt;"),
        b'>' => push_text(out, "&gt;"),
        _ => {
            out.push(byte)?;
            Ok(())
        }
    }
}

/// A text as it stands in markup: what would be read as markup is escaped.
pub(crate) fn escaped(alloc: Global, text: &[u8]) -> Result<String, NoMemory>
    ensures { IfOk result (λ escaped_text. string_bytes escaped_text ≡ escaped text.now) }
{
    let mut bytes = Vec::new(alloc);
    for byte in text {
        push_escaped(&mut bytes, *byte)?;
    }
    let escaped_text = String::from_utf8_lossy(alloc, bytes.as_slice())?;
    Ok(escaped_text)
}
