//! The range of a text that an error is about.

ghost use Rattle.std.specs.Prelude.{◌≡◌, IsCharBoundary};
ghost use Rattle.wat_messages.specs.Ranges.{IsRange, BeginsAt};

use crate::lexemes::{bytes_from, character_length, lexeme_at, line_length};
use wat_tokens::TextFault;

/// A part of a text: the offset of its first byte, and the offset after its last one.
///
/// For example, the range of `$f` in `(start $f)` is 7 to 9.
#[derive(Clone, Copy, Debug, PartialEq, Eq)]
pub struct Range {
    /// The number of bytes before it.
    pub start: usize,
    /// The number of bytes up to its end.
    pub end: usize,
}

/// Returns the last offset that is not after this one, and is between characters.
fn floor(text: &str, offset: usize) -> usize
    ensures kept { IsCharBoundary text.now offset → result ≡ offset }
    ensures boundary { IsCharBoundary text.now result }
{
    if text.is_char_boundary(offset) {
        return offset;
    }
    text.floor_char_boundary(offset)
}

/// Returns the range of this many bytes from an offset on, as far as the text has them, with no
/// character in part. It begins at the offset, if a character begins there or the text ends there.
pub fn range_in(text: &str, start: usize, count: usize) -> Range
    ensures start { BeginsAt text.now start result }
    ensures range { IsRange text.now result }
{
    let start = floor(text, start);
    let most = text.len() - start;
    let count = if count < most { count } else { most };
    let end = text.ceil_char_boundary(start + count);
    Range { start, end }
}

/// Returns how many bytes come before the first `}`, and that, or those before the end of the string.
fn braced_length(text: &[u8]) -> usize {
    for (count, byte) in text.iter().enumerate() {
        if *byte == b'}' {
            return count.saturating_add(1);
        }
        if matches!(*byte, b'"' | b'\n') {
            return count;
        }
    }
    text.len()
}

/// Returns how many bytes an escape of a string has, which begins with a backslash.
fn escape_length(text: &[u8]) -> usize {
    match text {
        [b'\\', b'u', b'{', digits @ ..] => braced_length(digits).saturating_add(3),
        [b'\\', rest @ ..] => character_length(rest).saturating_add(1),
        _ => 1,
    }
}

/// Returns how many bytes the token has that a text begins with.
fn token_length(text: &[u8]) -> usize {
    match lexeme_at(text, 0) {
        Some(lexeme) => lexeme.bytes.len(),
        None => 0,
    }
}

/// Returns how many bytes an error in the text format is about, for the text from its position on.
fn fault_length(text: &[u8], fault: TextFault) -> usize {
    match fault {
        TextFault::Character | TextFault::StringCharacter => character_length(text),
        TextFault::Escape => escape_length(text),
        TextFault::OpenComment => 2,
        TextFault::OpenString => line_length(text),
        _ => token_length(text),
    }
}

/// Returns the range of an error in the text format: that of its token, character or escape.
pub(crate) fn range_of_fault(text: &str, start: usize, fault: TextFault) -> Range
    ensures start { BeginsAt text.now start result }
    ensures range { IsRange text.now result }
{
    let rest = bytes_from(text.as_bytes(), start);
    range_in(text, start, fault_length(rest, fault))
}

/// Returns the range of the token at an offset.
pub(crate) fn range_of_token(text: &str, start: usize) -> Range
    ensures start { BeginsAt text.now start result }
    ensures range { IsRange text.now result }
{
    let rest = bytes_from(text.as_bytes(), start);
    range_in(text, start, token_length(rest))
}
