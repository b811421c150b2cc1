//! Prints what `--check` found in a function, as lines or as JSON.
//!
//! The lines are those of the diagnostics of `wat_command`, and after them comes a note.

use std::alloc::{AllocError, Global};
use std::fmt::{self, Write};
use unicode_width::UnicodeWidthChar;
use wast_tree::{Span, line_and_column};
use wat_command::{Escaped, Failure, Style};
use wat_messages::{Range, range_in};

/// At most this many bytes of a source line are printed, those around the position.
const LINE: usize = 120;

/// The word at the position.
const KEYWORD: &str = "func";

/// The escape sequences of colours.
const RED: &str = "\u{1b}[1;31m";

const STRONG: &str = "\u{1b}[1m";

const BLUE: &str = "\u{1b}[1;34m";

const RESET: &str = "\u{1b}[0m";

/// What was found in a function.
#[derive(Clone, Copy)]
pub(crate) struct Report<'a> {
    /// The message.
    pub message: &'a str,
    /// Where in the function; empty if that is not known.
    pub note: &'a str,
    /// The position of the keyword of the function.
    pub span: Span,
}

/// Returns an escape sequence, if there are colours.
fn color(style: Style, sequence: &'static str) -> &'static str {
    match style {
        Style::Colored => sequence,
        Style::Plain | Style::Json => "",
    }
}

/// Returns the part of the line before an offset.
fn before(text: &str, offset: usize) -> &str {
    let (before, _) = text.split_at(text.floor_char_boundary(offset));
    match before.rsplit_once('\n') {
        Some((_, line)) => line,
        None => before,
    }
}

/// Returns the part of the line from an offset on.
fn after(text: &str, offset: usize) -> &str {
    let (_, after) = text.split_at(text.floor_char_boundary(offset));
    match after.split_once('\n') {
        Some((line, _)) => line.strip_suffix('\r').unwrap_or(line),
        None => after,
    }
}

/// Returns how many bytes are printed on one side of the position, if the other has this many.
fn room_beside(count: usize) -> usize {
    let half = LINE / 2;
    half.max(LINE.saturating_sub(count))
}

/// Returns the last bytes of a part of a line, after `...` if some are left out.
fn last_part(line: &str, count: usize) -> (&str, &str) {
    if line.len() <= count {
        return ("", line);
    }
    let start = line.len().saturating_sub(count);
    let (_, kept) = line.split_at(line.floor_char_boundary(start));
    ("...", kept)
}

/// Returns the first bytes of a part of a line, and `...` if some are left out.
fn first_part(line: &str, count: usize) -> (&str, &str) {
    if line.len() <= count {
        return (line, "");
    }
    let (kept, _) = line.split_at(line.floor_char_boundary(count));
    (kept, "...")
}

/// Prints a part of a source line. A control character is printed as an escape, and a tab as it is.
#[derive(Clone, Copy)]
struct Source<'a>(&'a str);

impl fmt::Display for Source<'_> {
    fn fmt<W: fmt::Write>(&self, f: &mut fmt::Formatter<W>) -> fmt::Result {
        let mut rest = self.0;
        for _ in 0..self.0.len() {
            let Some((part, more)) = rest.split_once('\t') else {
                break;
            };
            let part = Escaped(part);
            write!(f, "{part}\t")?;
            rest = more;
        }
        let rest = Escaped(rest);
        write!(f, "{rest}")
    }
}

/// Prints blanks as wide as what `Source` prints of the same text, in which control characters are
/// escaped already.
#[derive(Clone, Copy)]
struct Blanks<'a>(&'a str);

impl fmt::Display for Blanks<'_> {
    fn fmt<W: fmt::Write>(&self, f: &mut fmt::Formatter<W>) -> fmt::Result {
        for character in self.0.chars() {
            if character == '\t' {
                f.write_str("\t")?;
            } else {
                let columns = character.width().unwrap_or(1);
                for _ in 0..columns {
                    f.write_str(" ")?;
                }
            }
        }
        Ok(())
    }
}

/// Prints as many blanks as a number has digits.
#[derive(Clone, Copy)]
struct Margin(usize);

impl fmt::Display for Margin {
    fn fmt<W: fmt::Write>(&self, f: &mut fmt::Formatter<W>) -> fmt::Result {
        let digits = self.0.checked_ilog10().unwrap_or(0) as usize;
        for _ in 0..digits {
            f.write_str(" ")?;
        }
        f.write_str(" ")
    }
}

/// Prints a report as lines for a reader.
fn print_lines(
    rt: &HostRuntime,
    style: Style,
    file: Escaped<'_>,
    text: &str,
    report: Report<'_>,
) -> Result<(), AllocError> {
    let Report {
        message,
        note,
        span,
    } = report;
    let (red, strong) = (color(style, RED), color(style, STRONG));
    let (blue, reset) = (color(style, BLUE), color(style, RESET));
    let (number, column) = line_and_column(text, span);
    let spaces = Margin(number);
    let (left, right) = (before(text, span.offset), after(text, span.offset));
    let (head, before) = last_part(left, room_beside(right.len()));
    let (after, tail) = first_part(right, room_beside(left.len()));
    let (before, after) = (Source(before), Source(after));
    let shown = format!(in rt.alloc(); "{head}{before}")?;
    let (left, blanks) = (shown.as_str(), Blanks(shown.as_str()));
    let _ = eprintln!(rt; "{red}error{reset}{strong}: {message}{reset}");
    let _ = eprintln!(rt; "{blue}{spaces}-->{reset} {file}:{number}:{column}");
    let _ = eprintln!(rt; "{blue}{spaces} |{reset}");
    let _ = eprintln!(rt; "{blue}{number} |{reset} {left}{after}{tail}");
    let _ = eprintln!(rt; "{blue}{spaces} |{reset} {blanks}{red}^~~~{reset}");
    if !note.is_empty() {
        let _ = eprintln!(rt; "{strong}note{reset}: {note}");
    }
    Ok(())
}

/// Prints a text as a JSON string, with its quotes (RFC 8259).
#[derive(Clone, Copy)]
struct Quoted<'a>(&'a str);

impl fmt::Display for Quoted<'_> {
    fn fmt<W: fmt::Write>(&self, f: &mut fmt::Formatter<W>) -> fmt::Result {
        f.write_str("\"")?;
        for character in self.0.chars() {
            if matches!(character, '"' | '\\') {
                f.write_str("\\")?;
                f.write_char(character)?;
            } else if character.is_control() {
                let number = character as u32;
                write!(f, "\\u{number:04x}")?;
            } else {
                f.write_char(character)?;
            }
        }
        f.write_str("\"")
    }
}

/// Prints the members of a range: its offsets, and the line and the column of its start.
#[derive(Clone, Copy)]
struct Placed<'a> {
    text: &'a str,
    span: Span,
}

impl fmt::Display for Placed<'_> {
    fn fmt<W: fmt::Write>(&self, f: &mut fmt::Formatter<W>) -> fmt::Result {
        let Range { start, end } = range_in(self.text, self.span.offset, KEYWORD.len());
        let (line, column) = line_and_column(self.text, self.span);
        write!(
            f,
            "\"start\":{start},\"end\":{end},\"line\":{line},\"column\":{column}"
        )
    }
}

/// Returns the object of JSON for a report.
fn json_of(
    alloc: Global,
    file: &str,
    text: &str,
    report: Report<'_>,
) -> Result<String, AllocError> {
    let Report {
        message,
        note,
        span,
    } = report;
    let (message, file, placed) = (Quoted(message), Quoted(file), Placed { text, span });
    let mut line = String::new(alloc);
    write!(
        line,
        "{{\"severity\":\"error\",\"message\":{message},\"file\":{file}"
    )?;
    write!(line, ",\"number\":null,{placed},\"notes\":[")?;
    if !note.is_empty() {
        let note = Quoted(note);
        write!(line, "{{\"message\":{note},{placed}}}")?;
    }
    line.push_str("]}")?;
    Ok(line)
}

/// Prints a report as a line of JSON.
fn print_json(
    rt: &HostRuntime,
    file: Escaped<'_>,
    text: &str,
    report: Report<'_>,
) -> Result<(), AllocError> {
    let line = json_of(rt.alloc(), file.0, text, report)?;
    let _ = eprintln!(rt; "{line}");
    Ok(())
}

/// Reports in a style what was found in a function.
pub(crate) fn report_function(
    rt: &HostRuntime,
    style: Style,
    file: Escaped<'_>,
    text: &str,
    report: Report<'_>,
) -> Failure {
    let printed = match style {
        Style::Json => print_json(rt, file, text, report),
        Style::Plain | Style::Colored => print_lines(rt, style, file, text, report),
    };
    match printed {
        Ok(()) => Failure::Text,
        Err(_) => Failure::memory(rt),
    }
}
