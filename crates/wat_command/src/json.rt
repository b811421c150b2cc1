//! Diagnostics as JSON, one object a line.

use std::alloc::{AllocError, Global};
use std::fmt::{self, Write};
use wast_tree::{Span, line_and_column};
use wat_messages::{Diagnostic, Note, Range};

/// Returns whether a character of a JSON string is written as `\u` and four digits: a control
/// character, and one that changes how a terminal shows a line.
fn is_escaped(character: char) -> bool {
    character.is_control()
        || crate::escapes::is_bidirectional_control(character)
        || matches!(character, '\u{2028}' | '\u{2029}')
}

/// Prints a text as a JSON string, with its quotes (RFC 8259).
#[derive(Clone, Copy)]
struct Quoted<'a>(&'a str);

impl fmt::Display for Quoted<'_> {
    fn fmt<W: fmt::Write>(&self, f: &mut fmt::Formatter<W>) -> fmt::Result {
        f.write_str("\"")?;
        for character in self.0.chars() {
            if matches!(character, '"' | '\\') {
                f.write_str("\\")?;
                f.write_char(character)?;
            } else if is_escaped(character) {
                let number = character as u32;
                write!(f, "\\u{number:04x}")?;
            } else {
                f.write_char(character)?;
            }
        }
        f.write_str("\"")
    }
}

/// Prints the members of a range: its offsets, and the line and the column of its start.
#[derive(Clone, Copy)]
struct Placed<'a> {
    text: &'a str,
    range: Range,
}

impl fmt::Display for Placed<'_> {
    fn fmt<W: fmt::Write>(&self, f: &mut fmt::Formatter<W>) -> fmt::Result {
        let Range { start, end } = self.range;
        let (line, column) = line_and_column(self.text, Span { offset: start });
        write!(
            f,
            "\"start\":{start},\"end\":{end},\"line\":{line},\"column\":{column}"
        )
    }
}

/// Appends a note, after a comma if it is not the first one.
fn push_note(
    alloc: Global,
    line: &mut String,
    text: &str,
    note: Option<Note<'_>>,
    is_first: bool,
) -> Result<bool, AllocError> {
    let Some(note) = note else {
        return Ok(is_first);
    };
    let message = format!(in alloc; "{note}")?;
    let (comma, quoted) = (if is_first { "" } else { "," }, Quoted(message.as_str()));
    let placed = Placed {
        text,
        range: note.range(),
    };
    write!(line, "{comma}{{\"message\":{quoted},{placed}}}")?;
    Ok(false)
}

/// Appends the notes of a diagnostic, as an array.
fn push_notes(
    alloc: Global,
    line: &mut String,
    text: &str,
    diagnostic: &Diagnostic<'_>,
) -> Result<(), AllocError> {
    line.push_str(",\"notes\":[")?;
    let is_first = push_note(alloc, line, text, diagnostic.related(), true)?;
    let _ = push_note(alloc, line, text, diagnostic.suggestion(), is_first)?;
    line.push_str("]")
}

/// Appends the number of an error, and `null` if it has none.
fn push_number(line: &mut String, number: Option<u32>) -> Result<(), AllocError> {
    match number {
        Some(number) => write!(line, ",\"number\":{number}"),
        None => line.push_str(",\"number\":null"),
    }
}

/// Appends a range, and `null` for its members if there is none.
fn push_range(line: &mut String, text: &str, range: Option<Range>) -> Result<(), AllocError> {
    match range {
        Some(range) => {
            let placed = Placed { text, range };
            write!(line, ",{placed}")
        }
        None => line.push_str(",\"start\":null,\"end\":null,\"line\":null,\"column\":null"),
    }
}

/// Returns the first members of an object: what it is, its message and the file.
fn object(alloc: Global, severity: &str, file: &str, message: &str) -> Result<String, AllocError> {
    let (file, message) = (Quoted(file), Quoted(message));
    format!(in alloc; "{{\"severity\":\"{severity}\",\"message\":{message},\"file\":{file}")
}

/// Returns the line of a diagnostic.
pub(crate) fn error_line(
    alloc: Global,
    file: &str,
    text: &str,
    diagnostic: &Diagnostic<'_>,
    number: Option<u32>,
) -> Result<String, AllocError> {
    let message = format!(in alloc; "{diagnostic}")?;
    let mut line = object(alloc, "error", file, message.as_str())?;
    push_number(&mut line, number)?;
    push_range(&mut line, text, diagnostic.range())?;
    push_notes(alloc, &mut line, text, diagnostic)?;
    line.push_str("}")?;
    Ok(line)
}

/// Returns the line of a message without a number and without notes, about a range of a text or about the whole file.
pub(crate) fn message_line(
    alloc: Global,
    severity: &str,
    file: &str,
    text: &str,
    message: &str,
    range: Option<Range>,
) -> Result<String, AllocError> {
    let mut line = object(alloc, severity, file, message)?;
    push_number(&mut line, None)?;
    push_range(&mut line, text, range)?;
    line.push_str(",\"notes\":[]}")?;
    Ok(line)
}
