//! The error of a text and its position.

ghost use Rattle.std.specs.Prelude.{◌≡◌};
ghost use Rattle.std.specs.Option.{unwrap_or};
ghost use Rattle.rigyomad_c.specs.Answers.{IsPlaced, IsRanged, nothing_wrong};
ghost use Rattle.rigyomad_c.specs.Notes.{IsNote};
ghost use Rattle.wat_messages.specs.Ranges.{Marks};
ghost use Rattle.wat_bytes.specs.Texts.{number_of, place_of};

use crate::messages::Message;
use std::fmt::Write;
use std::str::Utf8Error;
use wast_script_records::diagnostic_of;
use wast_tree::{Span, line_and_column};
use wat_bytes::Refused;
use wat_messages::{Note, Range, range_in};

/// The error of a text and its position.
///
/// # Example
///
/// `(module (start $f))` has E4 at the offset 15: line 1, column 16.
#[repr(C)]
#[derive(Clone, Copy, Debug)]
pub struct Diagnosis {
    /// The number of the error: 1 for E1 to 13 for E13. It is 0 if the text is not a module, or has
    /// no error.
    pub number: u32,
    /// The number of bytes before the position, or 0 if there is no position.
    pub offset: usize,
    /// The line of the position, from 1 on, or 0 if there is no position.
    pub line: usize,
    /// The column of the position in bytes, from 1 on, or 0 if there is no position.
    pub column: usize,
    /// The number of bytes of the message.
    pub size: usize,
    /// The number of bytes before the end of the token at the position, or 0 if there is no
    /// position.
    pub end_offset: usize,
}

impl Diagnosis {
    /// Returns the diagnosis of a text without an error.
    pub(crate) fn none() -> Diagnosis
        ensures { result ≡ nothing_wrong }
    {
        Diagnosis {
            number: 0,
            offset: 0,
            line: 0,
            column: 0,
            size: 0,
            end_offset: 0,
        }
    }

    /// Returns an error with its position in a text and the range of its token, if it has them, and
    /// the size of its message.
    fn new(
        number: u32,
        text: &str,
        place: Option<Span>,
        range: Option<Range>,
        size: usize,
    ) -> Diagnosis
        requires { Marks text.now place range }
        ensures numbered { result.number ≡ number }
        ensures placed { IsPlaced text.now place result }
        ensures ranged { IsRanged text.now place result }
    {
        let mut diagnosis = Diagnosis::none();
        diagnosis.number = number;
        diagnosis.size = size;
        if let Some(place) = place {
            let (line, column) = line_and_column(text, place);
            diagnosis.offset = place.offset;
            diagnosis.line = line;
            diagnosis.column = column;
        }
        if let Some(range) = range {
            diagnosis.end_offset = range.end;
        }
        diagnosis
    }

    /// Returns the error of a text, and writes its message to a slice.
    pub(crate) fn of<'a>(text: &'a str, refused: &Refused<'a>, out: &mut [u8]) -> Diagnosis
        ensures numbered { result.number ≡ unwrap_or (number_of refused.now) 0 }
        ensures placed { IsPlaced text.now (place_of refused.now) result }
        ensures ranged { IsRanged text.now (place_of refused.now) result }
    {
        let diagnostic = diagnostic_of(text, refused);
        let mut message = Message::new(out);
        let _written = write!(message, "{diagnostic}");
        let number = refused.number().unwrap_or(0);
        let range = diagnostic.range();
        Diagnosis::new(number, text, refused.span(), range, message.size())
    }

    /// Returns a note of an error of a text with its range, and writes its message to a slice.
    pub(crate) fn of_note(number: u32, text: &str, note: &Note<'_>, out: &mut [u8]) -> Diagnosis
        ensures numbered { result.number ≡ number }
        ensures noted { IsNote text.now result }
    {
        let mut message = Message::new(out);
        let _written = write!(message, "{note}");
        let Range { start, end } = note.range();
        // the contract says the same of any range
        let range = range_in(text, start, end.saturating_sub(start));
        let place = Span {
            offset: range.start,
        };
        let (line, column) = line_and_column(text, place);
        Diagnosis {
            number,
            offset: range.start,
            line,
            column,
            size: message.size(),
            end_offset: range.end,
        }
    }

    /// Returns the error of bytes that are not UTF-8, and writes its message to a slice. The
    /// position has no line.
    pub(crate) fn of_bytes(error: Utf8Error, out: &mut [u8]) -> Diagnosis
        ensures numbered { result.number ≡ 0 }
        ensures placed { (result.line ≡ 0) × (result.column ≡ 0) }
    {
        let mut message = Message::new(out);
        let _written = write!(message, "malformed UTF-8 encoding");
        let mut diagnosis = Diagnosis::none();
        diagnosis.offset = error.valid_up_to();
        diagnosis.end_offset = error.valid_up_to();
        diagnosis.size = message.size();
        diagnosis
    }
}
