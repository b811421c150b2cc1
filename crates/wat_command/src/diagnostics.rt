//! What is printed about a text on standard error.
//!
//! A position is printed with its source line and a caret, as tools of Rust do. Each line has at
//! most some hundred columns, however long a line of the text or a name is. The time is linear in
//! the text.

use crate::escapes::{
    Blanks, Escaped, Margin, SourceText, Underline, WrongByte, is_bidirectional_control,
};
use crate::failures::Failure;
use crate::json::{error_line, message_line};
use crate::styles::{Colors, Style};
use std::alloc::{AllocError, Global};
use std::io;
use wast_tree::{Error, Span, line_and_column};
use wat_bytes::Refused;
use wat_messages::{Diagnostic, KnownId, Range, range_in};

/// At most this many bytes of a source line are printed, those around the caret.
const LINE: usize = 120;

/// At most this many bytes of a message are printed, the first ones, because it may hold a name.
const MESSAGE: usize = 240;

/// The number of E12.
const MEMORY: u32 = 12;

/// The part of a source line that is printed.
#[derive(Clone, Copy)]
struct Excerpt<'a> {
    /// What is printed for the part of the line before it.
    head: &'a str,
    /// The part before the position.
    before: &'a str,
    /// The part from the position on.
    after: &'a str,
    /// What is printed for the part of the line after it.
    tail: &'a str,
}

/// Returns the line of a text that has this offset, in two parts: up to the offset, and from it on.
fn line_at(text: &str, offset: usize) -> (&str, &str) {
    let (before, after) = text.split_at(text.floor_char_boundary(offset));
    let before = match before.rsplit_once('\n') {
        Some((_, line)) => line,
        None => before,
    };
    let after = match after.split_once('\n') {
        Some((line, _)) => line.strip_suffix('\r').unwrap_or(line),
        None => after,
    };
    (before, after)
}

/// Returns the first bytes of a text, and `...` if there are more than `count` of them.
fn cut_after(text: &str, count: usize) -> (&str, &str) {
    if text.len() <= count {
        return (text, "");
    }
    let (kept, _) = text.split_at(text.floor_char_boundary(count));
    (kept, "...")
}

/// Returns the last bytes of a text after `...`, if there are more than `count` of them.
fn cut_before(text: &str, count: usize) -> (&str, &str) {
    if text.len() <= count {
        return ("", text);
    }
    let start = text.len().saturating_sub(count);
    let (_, kept) = text.split_at(text.floor_char_boundary(start));
    ("...", kept)
}

/// Returns what is printed of the source line of an offset: all of it, or the part around it.
fn excerpt_at(text: &str, offset: usize) -> Excerpt<'_> {
    let (before, after) = line_at(text, offset);
    let half = LINE / 2;
    let room_before = half.max(LINE.saturating_sub(after.len()));
    let room_after = half.max(LINE.saturating_sub(before.len()));
    let (head, before) = cut_before(before, room_before);
    let (after, tail) = cut_after(after, room_after);
    Excerpt {
        head,
        before,
        after,
        tail,
    }
}

/// Prints a range: the line of its start, and a caret and tildes under the part of it that is in
/// this line. A text that ends before a byte that is not UTF-8 is shown with it. Does not allocate.
fn print_range(
    rt: &HostRuntime,
    style: Style,
    file: Escaped<'_>,
    text: &str,
    range: Range,
    wrong: Option<u8>,
) {
    let place = Span {
        offset: range.start,
    };
    let (number, column) = line_and_column(text, place);
    let spaces = Margin(number);
    let Excerpt {
        head,
        before,
        after,
        tail,
    } = excerpt_at(text, place.offset);
    let (marked, _) = cut_after(after, range.end.saturating_sub(range.start));
    let (shown, rest) = (SourceText(before), SourceText(after));
    let (left, blanks, marks) = (Blanks(head), Blanks(before), Underline(marked));
    let (byte, more) = (WrongByte(wrong), if wrong.is_some() { "~~~" } else { "" });
    let Colors {
        error,
        margin,
        reset,
        ..
    } = style.colors();
    let _ = eprintln!(rt; "{margin}{spaces}-->{reset} {file}:{number}:{column}");
    let _ = eprintln!(rt; "{margin}{spaces} |{reset}");
    let _ = eprintln!(rt; "{margin}{number} |{reset} {head}{shown}{rest}{tail}{byte}");
    let _ = eprintln!(rt; "{margin}{spaces} |{reset} {left}{blanks}{error}{marks}{more}{reset}");
}

/// Returns the message of an error.
fn message_of(alloc: Global, diagnostic: &Diagnostic<'_>) -> Result<String, AllocError> {
    format!(in alloc; "{diagnostic}")
}

/// Prints a diagnostic as lines for a reader.
fn print_lines(
    rt: &HostRuntime,
    style: Style,
    file: Escaped<'_>,
    text: &str,
    diagnostic: &Diagnostic<'_>,
    wrong: Option<u8>,
) -> Result<(), AllocError> {
    let message = message_of(rt.alloc(), diagnostic)?;
    let (shown, tail) = cut_after(message.as_str(), MESSAGE);
    let shown = Escaped(shown);
    let Colors {
        error,
        strong,
        reset,
        ..
    } = style.colors();
    let _ = eprintln!(rt; "{error}error{reset}{strong}: {shown}{tail}{reset}");
    match diagnostic.range() {
        Some(range) => print_range(rt, style, file, text, range, wrong),
        None => {
            let _ = eprintln!(rt; " --> {file}");
        }
    }
    Ok(())
}

/// Prints a diagnostic in a style.
fn print_diagnostic(
    rt: &HostRuntime,
    style: Style,
    file: Escaped<'_>,
    text: &str,
    diagnostic: &Diagnostic<'_>,
    number: Option<u32>,
    wrong: Option<u8>,
) -> Failure {
    let printed = match style {
        Style::Json => print_json(rt, file, text, diagnostic, number),
        Style::Plain | Style::Colored => print_lines(rt, style, file, text, diagnostic, wrong),
    };
    match printed {
        Ok(()) => Failure::Text,
        Err(_) => Failure::memory(rt),
    }
}

/// Prints a diagnostic as a line of JSON.
fn print_json(
    rt: &HostRuntime,
    file: Escaped<'_>,
    text: &str,
    diagnostic: &Diagnostic<'_>,
    number: Option<u32>,
) -> Result<(), AllocError> {
    let line = error_line(rt.alloc(), file.0, text, diagnostic, number)?;
    let _ = eprintln!(rt; "{line}");
    Ok(())
}

/// Returns the diagnostic of the error of a text.
fn diagnostic_of<'a>(text: &'a str, refused: &Refused<'a>) -> Diagnostic<'a> {
    match refused {
        Refused::Text(error) => Diagnostic::of_text(text, *error),
        Refused::Module(error) => Diagnostic::of_module(text, *error),
        Refused::Uncovered(found) => {
            Diagnostic::of_uncovered(text, found.span, found.form, found.word)
        }
    }
}

/// Reports the error of a text in a style, with its range.
pub fn report_in<'a>(
    rt: &HostRuntime,
    style: Style,
    file: Escaped<'_>,
    text: &'a str,
    refused: &Refused<'a>,
) -> Failure {
    if refused.number() == Some(MEMORY) {
        return Failure::memory(rt);
    }
    let diagnostic = diagnostic_of(text, refused);
    print_diagnostic(rt, style, file, text, &diagnostic, refused.number(), None)
}

/// Reports the error of an id in a style, for a caller who knows the definitions.
pub fn report_id_in<'a>(
    rt: &HostRuntime,
    style: Style,
    file: Escaped<'_>,
    text: &'a str,
    error: Error<'a>,
    known: KnownId<'a>,
) -> Failure {
    let diagnostic = Diagnostic::of_id(text, error, known);
    print_diagnostic(
        rt,
        style,
        file,
        text,
        &diagnostic,
        Some(error.number()),
        None,
    )
}

/// Reports that a file is not UTF-8. `text` is the part before the first malformed byte, and `style`
/// that of the diagnostic.
pub fn report_malformed_in(
    rt: &HostRuntime,
    style: Style,
    file: Escaped<'_>,
    text: &str,
    wrong: Option<u8>,
) -> Failure {
    let diagnostic = Diagnostic::of_bytes(text);
    print_diagnostic(rt, style, file, text, &diagnostic, None, wrong)
}

/// Prints a message about a whole file as an object of JSON, if there is memory.
fn print_file_json(rt: &HostRuntime, severity: &str, file: Escaped<'_>, message: &str) {
    if let Ok(line) = message_line(rt.alloc(), severity, file.0, "", message, None) {
        let _ = eprintln!(rt; "{line}");
    }
}

/// Reports in a style that a file is no text, with a message.
pub fn report_file_in(rt: &HostRuntime, style: Style, file: Escaped<'_>, message: &str) -> Failure {
    if style == Style::Json {
        print_file_json(rt, "error", file, message);
        return Failure::Text;
    }
    let Colors {
        error,
        strong,
        reset,
        ..
    } = style.colors();
    let _ = eprintln!(rt; "{error}error{reset}{strong}: {message}{reset}\n --> {file}");
    Failure::Text
}

/// Says in a style that a file has more errors than those that are reported.
pub fn say_more(rt: &HostRuntime, style: Style, file: Escaped<'_>, message: &str) {
    if style == Style::Json {
        print_file_json(rt, "note", file, message);
        return;
    }
    let _ = eprintln!(rt; "{message}");
}

/// Reports the error of a text, with its range, as lines without colours.
pub fn report<'a>(
    rt: &HostRuntime,
    _alloc: Global,
    file: Escaped<'_>,
    text: &'a str,
    refused: &Refused<'a>,
) -> Failure {
    report_in(rt, Style::Plain, file, text, refused)
}

/// Reports bytes that are not UTF-8, as lines without colours. The text is the bytes before the
/// first wrong one.
pub fn report_malformed(
    rt: &HostRuntime,
    file: Escaped<'_>,
    text: &str,
    wrong: Option<u8>,
) -> Failure {
    report_malformed_in(rt, Style::Plain, file, text, wrong)
}

/// Returns whether a text may have bidirectional control characters. In UTF-8 each of them begins
/// with one of two bytes. Few texts have these, so most texts are not decoded to look for them.
/// Most have ASCII characters alone, and then one look without an early exit is enough: the compiler
/// makes it of many bytes at a time.
fn may_have_bidirectional_control(text: &str) -> bool {
    let bytes = text.as_bytes();
    let mut bits = 0;
    for byte in bytes {
        bits |= *byte;
    }
    bits >= 0x80 && bytes.iter().any(|byte| *byte == 0xd8 || *byte == 0xe2)
}

/// Returns the offset of the first bidirectional control character of a text.
fn first_bidirectional_control(text: &str) -> Option<usize> {
    if !may_have_bidirectional_control(text) {
        return None;
    }
    for (offset, character) in text.char_indices() {
        if is_bidirectional_control(character) {
            return Some(offset);
        }
    }
    None
}

/// Prints the warning of a bidirectional control character as a line of JSON, if there is memory.
fn warn_in_json(rt: &HostRuntime, file: Escaped<'_>, text: &str, offset: usize) {
    let range = range_in(text, offset, 1);
    let message = "bidirectional control character";
    if let Ok(line) = message_line(rt.alloc(), "warning", file.0, text, message, Some(range)) {
        let _ = eprintln!(rt; "{line}");
    }
}

/// Warns of the first bidirectional control character of a text, in a style. The text is still read,
/// because comments and strings may have such characters.
pub fn warn_in(rt: &HostRuntime, style: Style, file: Escaped<'_>, text: &str) {
    let Some(offset) = first_bidirectional_control(text) else {
        return;
    };
    if style == Style::Json {
        warn_in_json(rt, file, text, offset);
        return;
    }
    let (line, column) = line_and_column(text, Span { offset });
    let Colors { warning, reset, .. } = style.colors();
    let _ = eprintln!(rt;
        "{warning}warning{reset}: {file}: bidirectional control character at {line}:{column}"
    );
}

/// Warns of the first bidirectional control character of a text, as a line without colours.
pub fn warn(rt: &HostRuntime, file: Escaped<'_>, text: &str) {
    warn_in(rt, Style::Plain, file, text);
}
