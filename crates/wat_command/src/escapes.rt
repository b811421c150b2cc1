//! Text in messages. A control character is printed as an escape of the text format.

use std::fmt;
use unicode_width::UnicodeWidthChar;

/// Returns whether a character changes the order in which a line is displayed (Unicode,
/// bidirectional algorithm). Such a text can look different from what is read. For example, U+202E
/// is such a character.
pub(crate) fn is_bidirectional_control(character: char) -> bool {
    matches!(
        character,
        '\u{61c}'
            | '\u{200e}'
            | '\u{200f}'
            | '\u{202a}'..='\u{202e}'
            | '\u{2066}'..='\u{2069}'
    )
}

/// Returns whether a character is printed as an escape. The separators of lines and paragraphs
/// (U+2028 and U+2029) are, because some viewers begin a new line at them.
fn is_escaped(character: char) -> bool {
    character.is_control()
        || is_bidirectional_control(character)
        || matches!(character, '\u{2028}' | '\u{2029}')
}

/// Writes a character, or its escape.
fn write_escaped<W: fmt::Write>(f: &mut fmt::Formatter<W>, character: char) -> fmt::Result {
    if is_escaped(character) {
        let escape = character.escape_default();
        return write!(f, "{escape}");
    }
    f.write_char(character)
}

/// Writes this many blanks.
fn write_columns<W: fmt::Write>(f: &mut fmt::Formatter<W>, count: usize) -> fmt::Result {
    for _ in 0..count {
        f.write_str(" ")?;
    }
    Ok(())
}

/// Returns how many columns a terminal shows for what `SourceText` prints of a character. It is 1 for
/// a tab, whose width depends on the terminal.
fn columns_of(character: char) -> usize {
    if character != '\t' && is_escaped(character) {
        return character.escape_default().count();
    }
    character.width().unwrap_or(1)
}

/// Writes as many blanks as a terminal shows columns for what `SourceText` prints of a character.
fn write_blanks<W: fmt::Write>(f: &mut fmt::Formatter<W>, character: char) -> fmt::Result {
    if character == '\t' {
        return f.write_str("\t");
    }
    write_columns(f, columns_of(character))
}

/// Prints a text with its control characters as escapes: a line feed as `\n`, and an escape
/// character as `\u{1b}`.
///
/// So a name from a text can neither begin a line of a log nor send a command to a terminal.
#[derive(Clone, Copy)]
pub struct Escaped<'a>(pub &'a str);

impl fmt::Display for Escaped<'_> {
    fn fmt<W: fmt::Write>(&self, f: &mut fmt::Formatter<W>) -> fmt::Result {
        for character in self.0.chars() {
            write_escaped(f, character)?;
        }
        Ok(())
    }
}

/// Prints a part of a source line as `Escaped` does, but a tab as it is.
#[derive(Clone, Copy)]
pub(crate) struct SourceText<'a>(pub &'a str);

impl fmt::Display for SourceText<'_> {
    fn fmt<W: fmt::Write>(&self, f: &mut fmt::Formatter<W>) -> fmt::Result {
        for character in self.0.chars() {
            if character == '\t' {
                f.write_str("\t")?;
            } else {
                write_escaped(f, character)?;
            }
        }
        Ok(())
    }
}

/// Prints blanks as wide as what `SourceText` prints of the same text. A tab stays a tab.
#[derive(Clone, Copy)]
pub(crate) struct Blanks<'a>(pub &'a str);

impl fmt::Display for Blanks<'_> {
    fn fmt<W: fmt::Write>(&self, f: &mut fmt::Formatter<W>) -> fmt::Result {
        for character in self.0.chars() {
            write_blanks(f, character)?;
        }
        Ok(())
    }
}

/// Prints a caret, and tildes up to the end of what `SourceText` prints of the same text.
///
/// For example, it prints `^~~~~~` for `i32.ad`, and `^` for nothing.
#[derive(Clone, Copy)]
pub(crate) struct Underline<'a>(pub &'a str);

impl fmt::Display for Underline<'_> {
    fn fmt<W: fmt::Write>(&self, f: &mut fmt::Formatter<W>) -> fmt::Result {
        f.write_str("^")?;
        let mut is_first = true;
        for character in self.0.chars() {
            let columns = columns_of(character);
            let more = if is_first {
                columns.saturating_sub(1)
            } else {
                columns
            };
            for _ in 0..more {
                f.write_str("~")?;
            }
            is_first = false;
        }
        Ok(())
    }
}

/// Prints a byte that belongs to no character, such as `\xff`. If there is none, it prints nothing.
#[derive(Clone, Copy)]
pub(crate) struct WrongByte(pub Option<u8>);

impl fmt::Display for WrongByte {
    fn fmt<W: fmt::Write>(&self, f: &mut fmt::Formatter<W>) -> fmt::Result {
        match self.0 {
            Some(byte) => write!(f, "\\x{byte:02x}"),
            None => Ok(()),
        }
    }
}

/// Prints as many blanks as a number has decimal digits.
#[derive(Clone, Copy)]
pub(crate) struct Margin(pub usize);

impl fmt::Display for Margin {
    fn fmt<W: fmt::Write>(&self, f: &mut fmt::Formatter<W>) -> fmt::Result {
        let digits = self.0.checked_ilog10().unwrap_or(0) as usize;
        write_columns(f, digits)?;
        f.write_str(" ")
    }
}
