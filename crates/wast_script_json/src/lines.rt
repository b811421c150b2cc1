//! Numbers of lines and columns.

ghost use Rattle.std.specs.Prelude.{◌≡◌, ℕ, List, ◌≤◌, length, count_by};
ghost use Rattle.wast_base.specs.Lines.{is_line_feed, behind_last, line_of, column_of};
ghost use Rattle.wast_script_json.specs.Places.{Counts};

use wast_tree::Span;

/// How many line feeds are in bytes.
fn count_line_feeds(bytes: &[u8]) -> usize
    ensures { result ≡ count_by is_line_feed bytes.now }
{
    bytes.iter().filter(|byte| **byte == b'\n').count()
}

/// How many bytes are after the last line feed; all if there is none.
fn behind_last_line_feed(bytes: &[u8]) -> usize
    ensures count { result ≡ behind_last bytes.now }
    ensures bound { result ≤ length bytes.now }
{
    let mut start = bytes.len();
    while start > 0 && bytes[start - 1] != b'\n' {
        start -= 1;
    }
    bytes.len() - start
}

/// Returns the column of a position in a text, in bytes. That of a position after the end is that of the end.
pub(crate) fn column_of(text: &str, place: Span) -> u64
    ensures { result ≡ column_of text.now place }
{
    let bytes = text.as_bytes();
    let before = &bytes[..place.offset.min(bytes.len())];
    (behind_last_line_feed(before) + 1) as u64
}

/// A position in a text, with the line feeds before it, from which those of later positions are counted.
#[derive(Clone, Copy)]
pub(crate) struct Lines {
    offset: usize,
    line_feeds: usize,
}

impl Lines {
    /// The start of a text.
    pub fn new() -> Lines
        ensures start { result.offset ≡ 0 }
        ensures counts { (text : List ℕ) → Counts text result }
    {
        Lines {
            offset: 0,
            line_feeds: 0,
        }
    }

    /// Moves back to the start, if an offset is before this one.
    fn turn_back(&mut self, end: usize)
        ensures counts { (text : List ℕ) → Counts text self.old → Counts text self.new }
        ensures before { self.new.offset ≤ end }
    {
        if end < self.offset {
            *self = Lines::new();
        }
    }

    /// Moves on to an offset.
    fn move_on(&mut self, text: &[u8], end: usize)
        requires before { self.old.offset ≤ end }
        requires within { end ≤ length text.now }
        ensures offset { self.new.offset ≡ end }
        ensures counts { Counts text.now self.old → Counts text.now self.new }
    {
        let between = count_line_feeds(&text[self.offset..end]);
        self.line_feeds = self.line_feeds.saturating_add(between);
        self.offset = end;
    }

    /// Moves to a position, and returns its line. That of a position after the end of the text is that of the end. It counts from the
    /// last position on, or from the start if that is after it, so all positions of a text in order take the time of one pass.
    pub fn line_of(&mut self, text: &str, place: Span) -> u64
        ensures counts { Counts text.now self.old → Counts text.now self.new }
        ensures line { Counts text.now self.old → result ≡ line_of text.now place }
    {
        let end = place.offset.min(text.len());
        self.turn_back(end);
        self.move_on(text.as_bytes(), end);
        self.line_feeds.saturating_add(1) as u64
    }
}
