//! Lines and columns of positions, for messages.

ghost use Rattle.std.specs.Prelude.{◌≡◌, ◌≤◌, length};
ghost use Rattle.wast_base.specs.Lines.{line_of, column_of, behind_last};

use crate::Span;

/// Returns the number of bytes after the last line feed, or of all bytes if there is none.
fn behind_last_line_feed(bytes: &[u8]) -> usize
    ensures count { result ≡ behind_last bytes.now }
    ensures bound { result ≤ length bytes.now }
{
    let mut start = bytes.len();
    while start > 0 && bytes[start - 1] != b'\n' {
        start -= 1;
    }
    bytes.len() - start
}

/// Returns the line and the column of a position in a text, for a message.
///
///     let (line, column) = line_and_column(TEXT, place);
///     println!(rt; "{line}:{column}: {error}")
///
/// For offset 11 of the lines `(module` and ` $m)`, the result is line 2, column 4.
///
/// Both count from 1. The line counts the line feeds (`\n`) before the position, and the column
/// counts the bytes after the last of them. A position after the end of the text has the line and
/// column of the end.
pub fn line_and_column(text: &str, place: Span) -> (usize, usize)
    ensures line { result.0 ≡ line_of text.now place }
    ensures column { result.1 ≡ column_of text.now place }
{
    let bytes = text.as_bytes();
    let before = &bytes[..place.offset.min(bytes.len())];
    let line_feeds = before.iter().filter(|byte| **byte == b'\n').count();
    (line_feeds + 1, behind_last_line_feed(before) + 1)
}
