//! The lexemes of a text, for messages.
//!
//! They are found without memory and without errors, from any offset on. So an annotation is a
//! parenthesis and words, and a string that has no end ends with the text.

ghost use Rattle.std.specs.Prelude.{◌≤◌, length};

use std::str;

/// What a lexeme is.
#[derive(Clone, Copy, PartialEq, Eq)]
pub(crate) enum Kind {
    /// White space or a comment.
    Blank,
    /// `(`
    Open,
    /// `)`
    Close,
    /// A word that begins with `$`, or a `$` and a string.
    Id,
    /// A string.
    String,
    /// Another word, such as `func` or `1`.
    Word,
    /// A character that begins no token.
    Other,
}

/// A lexeme of a text.
#[derive(Clone, Copy)]
pub(crate) struct Lexeme<'a> {
    /// What it is.
    pub kind: Kind,
    /// The offset of its first byte.
    pub start: usize,
    /// The offset after its last byte.
    pub end: usize,
    /// Its bytes.
    pub bytes: &'a [u8],
}

/// Returns whether ids, keywords and numbers can contain a byte (text format: identifiers).
fn is_word_byte(byte: u8) -> bool {
    byte > b' '
        && byte < 0x7f
        && !matches!(
            byte,
            b'"' | b'(' | b')' | b',' | b';' | b'[' | b']' | b'{' | b'}'
        )
}

/// Returns whether a byte is white space (text format: white space).
fn is_blank(byte: u8) -> bool {
    matches!(byte, b' ' | b'\n' | b'\t' | b'\r')
}

/// Returns whether a byte ends a line.
fn ends_line(byte: u8) -> bool {
    byte == b'\n' || byte == b'\r'
}

/// Returns how many bytes at the start of a text can be in an id, a keyword or a number.
pub(crate) fn word_length(text: &[u8]) -> usize {
    for (count, byte) in text.iter().enumerate() {
        if !is_word_byte(*byte) {
            return count;
        }
    }
    text.len()
}

/// Returns how many bytes of white space a text begins with.
fn blank_length(text: &[u8]) -> usize {
    for (count, byte) in text.iter().enumerate() {
        if !is_blank(*byte) {
            return count;
        }
    }
    text.len()
}

/// Returns how many bytes come before the end of the line.
pub(crate) fn line_length(text: &[u8]) -> usize {
    for (count, byte) in text.iter().enumerate() {
        if ends_line(*byte) {
            return count;
        }
    }
    text.len()
}

/// Returns how many bytes the character has that a text begins with.
pub(crate) fn character_length(text: &[u8]) -> usize {
    for (count, byte) in text.iter().enumerate() {
        if count > 0 && *byte & 0xc0 != 0x80 {
            return count;
        }
    }
    text.len()
}

/// Returns how many bytes a block comment has. Comments nest. One without an end ends with the text.
fn comment_length(text: &[u8]) -> usize {
    let mut depth = 0_usize;
    let mut before = 0;
    for (count, byte) in text.iter().enumerate() {
        if before == b'(' && *byte == b';' {
            depth = depth.saturating_add(1);
            before = 0;
        } else if before == b';' && *byte == b')' {
            depth = depth.saturating_sub(1);
            before = 0;
            if depth == 0 {
                return count.saturating_add(1);
            }
        } else {
            before = *byte;
        }
    }
    text.len()
}

/// Returns how many bytes a string has, with its quotes, if its first quote is at `first`. One
/// without an end ends with the text.
fn string_length(text: &[u8], first: usize) -> usize {
    let mut is_escaped = false;
    for (count, byte) in text.iter().enumerate() {
        if count > first {
            if is_escaped {
                is_escaped = false;
            } else if *byte == b'"' {
                return count.saturating_add(1);
            } else {
                is_escaped = *byte == b'\\';
            }
        }
    }
    text.len()
}

/// Returns what a text begins with, and how many bytes that has.
fn front(text: &[u8]) -> (Kind, usize) {
    match text {
        [b'(', b';', ..] => (Kind::Blank, comment_length(text)),
        [b';', b';', ..] => (Kind::Blank, line_length(text)),
        [b'(', ..] => (Kind::Open, 1),
        [b')', ..] => (Kind::Close, 1),
        [b'"', ..] => (Kind::String, string_length(text, 0)),
        [b'$', b'"', ..] => (Kind::Id, string_length(text, 1)),
        [b'$', ..] => (Kind::Id, word_length(text)),
        [byte, ..] => byte_front(*byte, text),
        [] => (Kind::Blank, 0),
    }
}

/// Returns the same of a text that begins with this byte, which is no delimiter.
fn byte_front(byte: u8, text: &[u8]) -> (Kind, usize) {
    if is_blank(byte) {
        return (Kind::Blank, blank_length(text));
    }
    if is_word_byte(byte) {
        return (Kind::Word, word_length(text));
    }
    (Kind::Other, character_length(text))
}

/// Returns the bytes of a text from an offset on.
pub(crate) fn bytes_from(text: &[u8], start: usize) -> &[u8] {
    match text.get(start..) {
        Some(rest) => rest,
        None => &[],
    }
}

/// Returns the first bytes of a text, at most this many.
pub(crate) fn first_bytes(text: &[u8], count: usize) -> &[u8] {
    match text.get(..count) {
        Some(front) => front,
        None => text,
    }
}

/// Returns the lexeme that begins at an offset, unless the text ends there.
pub(crate) fn lexeme_at(text: &[u8], start: usize) -> Option<Lexeme<'_>> {
    let rest = bytes_from(text, start);
    if rest.is_empty() {
        return None;
    }
    let (kind, count) = front(rest);
    let bytes = first_bytes(rest, count.max(1));
    Some(Lexeme {
        kind,
        start,
        end: start.saturating_add(bytes.len()),
        bytes,
    })
}

/// Returns the first lexeme from an offset on that is no white space and no comment.
pub(crate) fn next_lexeme(text: &[u8], start: usize) -> Option<Lexeme<'_>> {
    let mut at = start;
    for _ in 0..text.len() {
        match lexeme_at(text, at) {
            Some(lexeme) if lexeme.kind == Kind::Blank => at = lexeme.end,
            found => return found,
        }
    }
    None
}

/// Returns whether an escape of a string has a number between braces, of hexadecimal digits alone.
pub(crate) fn is_scalar_escape(escape: &[u8]) -> bool {
    match escape {
        [b'\\', b'u', b'{', digits @ .., b'}'] => {
            for digit in digits {
                if !digit.is_ascii_hexdigit() {
                    return false;
                }
            }
            !digits.is_empty()
        }
        _ => false,
    }
}

/// Returns bytes as text; nothing if they are not UTF-8.
pub(crate) fn shown(bytes: &[u8]) -> &str {
    str::from_utf8(bytes).unwrap_or("")
}

impl<'a> Lexeme<'a> {
    /// Returns the name of an id, without its `$` and its quotes.
    pub fn name(&self) -> &'a [u8] {
        match self.bytes {
            [b'$', b'"', name @ .., b'"'] => name,
            [b'$', name @ ..] => name,
            bytes => bytes,
        }
    }
}
