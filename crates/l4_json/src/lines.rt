//! Lines of JSON, an object each.
ghost use Rattle.std.specs.Prelude.{◌≡◌, ◌++◌, ◌∷◌, [], OnOk, IfOk, Some, ℕ, List, codes, flat_map};
ghost use Rattle.std.specs.Prelude.{map, option_and_then};
ghost use Rattle.std.specs.Option.{option_copied};
ghost use Rattle.json.specs.Json.{document};
ghost use Rattle.json.specs.Print.{quoted};
ghost use Rattle.l4_words.specs.Words.{words_left};
ghost use Rattle.l4_json.specs.Lines.{json_text, lines_told, text_of, whole_lines};
ghost use Rattle.l4_json.specs.Objects.{One, behind_text, member_text, row_text};
ghost use Rattle.l4_json.specs.Rows.{line_in, told};
ghost use Rattle.l4_json.specs.Inner.Views.{more_of, part_of};

use crate::rows::{Part, first_word, row_of};
use crate::strings::push_quoted;
use l4_types::errors::NoMemory;
use l4_words::lines::split_line;
use std::alloc::Global;

/// What more is known of a line than it says.
#[derive(Clone, Copy, Debug, PartialEq, Eq)]
pub struct More<'a> {
    /// The key that it is told under.
    pub key: &'a str,
    /// What is told.
    pub word: &'a [u8],
}

// Appends the words that are left of a line, each behind a comma.
fn push_behind(left: Option<&[u8]>, out: &mut Vec<u8>) -> Result<(), NoMemory>
    ensures { OnOk result (out.new.items ≡
        out.old.items ++ behind_text (words_left (option_copied left.entry))) }
{
    let mut left = left;
    while let Some(line) = left {
        let (word, rest) = first_word(line);
        out.push(b',')?;
        push_quoted(word, out)?;
        left = rest;
    }
    Ok(())
}

// Appends the words that are left of a line, as a row.
fn push_row(left: Option<&[u8]>, out: &mut Vec<u8>) -> Result<(), NoMemory>
    ensures { OnOk result (out.new.items ≡
        out.old.items ++ row_text (words_left (option_copied left.entry))) }
{
    out.push(b'[')?;
    if let Some(line) = left {
        let (word, rest) = first_word(line);
        push_quoted(word, out)?;
        push_behind(rest, out)?;
    }
    out.push(b']')?;
    Ok(())
}

// Appends a key, behind another member.
fn push_key(key: &str, out: &mut Vec<u8>) -> Result<(), NoMemory>
    ensures { OnOk result (out.new.items ≡
        out.old.items ++ codes "," ++ quoted key.now ++ codes ":") }
{
    out.push(b',')?;
    push_quoted(key.as_bytes(), out)?;
    out.push(b':')?;
    Ok(())
}

// Appends a text under a key.
fn push_member(key: &str, text: &[u8], out: &mut Vec<u8>) -> Result<(), NoMemory>
    ensures { OnOk result (out.new.items ≡ out.old.items ++ member_text (key.now, One text.now)) }
{
    push_key(key, out)?;
    push_quoted(text, out)
}

// Appends what is left of a line as members, by its parts.
fn push_told(parts: &[Part], left: Option<&[u8]>, out: &mut Vec<u8>) -> Result<(), NoMemory>
    ensures { OnOk result (out.new.items ≡ out.old.items ++
        flat_map member_text (told (map part_of parts.now) (words_left (option_copied left.entry)))) }
{
    let Some((part, parts)) = parts.split_first() else {
        return Ok(());
    };
    match (*part, left) {
        (Part::Words(key), left) => {
            push_key(key, out)?;
            push_row(left, out)
        }
        (_, None) => Ok(()),
        (Part::Text(key), Some(line)) => push_member(key, line, out),
        (Part::Label(_), Some(line)) => push_told(parts, first_word(line).1, out),
        (Part::Word(key), Some(line)) => {
            let (word, left) = first_word(line);
            push_member(key, word, out)?;
            push_told(parts, left, out)
        }
        (Part::Ended(key), Some(line)) => {
            let (word, left) = first_word(line);
            push_member(key, &word[..word.len().saturating_sub(1)], out)?;
            push_told(parts, left, out)
        }
    }
}

// Appends what more is known.
fn push_more(more: &[More<'_>], out: &mut Vec<u8>) -> Result<(), NoMemory>
    ensures { OnOk result (out.new.items ≡ out.old.items ++
        flat_map member_text (map (λ m. (m.0, One m.1)) (map more_of more.now))) }
{
    for known in more {
        push_member(known.key, known.word, out)?;
    }
    Ok(())
}

/// Appends the object of a line, which has no line end here, and a line end. `more` is what else is
/// known of it.
///
/// Where memory is refused, `out` may have the beginning of the object.
pub fn push_line(line: &[u8], more: &[More<'_>], out: &mut Vec<u8>) -> Result<(), NoMemory>
    ensures { OnOk result (out.new.items ≡
        out.old.items ++ text_of line.now (map more_of more.now) ++ codes "\n") }
{
    let row = row_of(line);
    out.push(b'{')?;
    push_quoted(b"kind", out)?;
    out.push(b':')?;
    push_quoted(row.kind.as_bytes(), out)?;
    push_told(row.parts, Some(line), out)?;
    push_more(more, out)?;
    out.extend_from_slice(b"}\n")?;
    Ok(())
}

/// The lines of a text as objects. What stands behind the last line end is left out.
pub fn json_text(alloc: Global, text: &[u8]) -> Result<Vec<u8>, NoMemory>
    ensures { IfOk result (λ lines. lines.items ≡ json_text text.now) }
{
    let mut out = Vec::new(alloc);
    let mut left = text;
    while let Some((line, rest)) = split_line(left) {
        push_line(line, &[], &mut out)?;
        left = rest;
    }
    Ok(out)
}

/// By the grammar of JSON, the object of a line says that line, whatever more is known of it.
pub fn law_line_again()
    ensures { (line : List ℕ) (more : List (List ℕ × List ℕ)) →
        option_and_then line_in (document (text_of line more)) ≡ Some line }
{}

/// The objects of a text tell its lines again.
pub fn law_lines_again()
    ensures { (text : List ℕ) → lines_told (json_text text) ≡ whole_lines text }
{}
