//! The ids of a text and their indices, as lines.

ghost use Rattle.std.specs.Prelude.{◌≡◌, ◌++◌, ◌∷◌, [], IfOk, OnOk, string_bytes, encode_utf8_all};
ghost use Rattle.std.specs.Char.Escape.{escape_default};
ghost use Rattle.std.specs.List.{list_all};
ghost use Rattle.wat.specs.Lines.{is_reserved, is_id_byte, escaped, shown, line_of, lines_of};

use std::alloc::{AllocError, Global};
use std::fmt::Write;
use wat_bytes::Denoted;

/// Returns whether a byte ends an id without quotes.
fn is_reserved(byte: u8) -> bool
    ensures { result ≡ is_reserved byte }
{
    matches!(
        byte,
        b'"' | b'(' | b')' | b',' | b';' | b'[' | b']' | b'{' | b'}'
    )
}

/// Returns whether a byte can be in an id without quotes (text format: identifiers).
fn is_id_byte(byte: u8) -> bool
    ensures { result ≡ is_id_byte byte }
{
    byte > b' ' && byte < 0x7f && !is_reserved(byte)
}

/// Returns whether a name needs no quotes.
fn is_plain(name: &[u8]) -> bool
    ensures { result ≡ list_all is_id_byte name.now }
{
    for byte in name {
        if !is_id_byte(*byte) {
            return false;
        }
    }
    true
}

/// Appends a character, or its escape.
fn push_escape(text: &mut String, character: char) -> Result<(), AllocError>
    ensures { OnOk result (string_bytes text.new ≡ string_bytes text.old ++ encode_utf8_all (escape_default character)) }
{
    for letter in character.escape_default() {
        text.push(letter)?;
    }
    Ok(())
}

/// Appends the characters of a name, or their escapes.
fn push_escaped(text: &mut String, name: &str) -> Result<(), AllocError>
    ensures { OnOk result (string_bytes text.new ≡ string_bytes text.old ++ escaped name.now) }
{
    for character in name.chars() {
        push_escape(text, character)?;
    }
    Ok(())
}

/// Appends a name in quotes.
fn push_quoted(text: &mut String, name: &str) -> Result<(), AllocError>
    ensures { OnOk result (string_bytes text.new ≡ string_bytes text.old ++ 34 ∷ escaped name.now ++ 34 ∷ []) }
{
    text.push('"')?;
    push_escaped(text, name)?;
    text.push('"')
}

/// Appends a name, in quotes if it needs them.
fn push_name(text: &mut String, name: &str) -> Result<(), AllocError>
    ensures { OnOk result (string_bytes text.new ≡ string_bytes text.old ++ shown name.now) }
{
    if is_plain(name.as_bytes()) {
        return text.push_str(name);
    }
    push_quoted(text, name)
}

/// Adds a line for one id: the index space, the id as in the source, and the index.
fn add_line(lines: &mut String, denoted: &Denoted<'_>) -> Result<(), AllocError>
    ensures { OnOk result (string_bytes lines.new ≡ string_bytes lines.old ++ line_of denoted.now) }
{
    let (space, number) = (denoted.space, denoted.number);
    write!(lines, "{space} $")?;
    push_name(lines, denoted.id.name())?;
    writeln!(lines, " {number}")
}

/// Returns a line for each id. For example, `func $f 1`.
pub(crate) fn name_lines(alloc: Global, names: &[Denoted<'_>]) -> Result<Vec<u8>, AllocError>
    ensures { IfOk result (λ lines. lines.items ≡ lines_of names.now) }
{
    let mut lines = String::new(alloc);
    for denoted in names {
        add_line(&mut lines, denoted)?;
    }
    Ok(lines.into_bytes())
}
