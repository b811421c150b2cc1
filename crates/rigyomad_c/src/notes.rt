//! Writes the notes of the error of a text.

ghost use Rattle.std.specs.Prelude.{◌≡◌};
ghost use Rattle.rigyomad_c.specs.Answers.{nothing_wrong};
ghost use Rattle.rigyomad_c.specs.Notes.{NoteRead, NoteReturns, TellsNote};

use crate::diagnosis::Diagnosis;
use crate::statuses::Status;
use std::alloc::Global;
use std::str;
use wast_script_records::diagnostic_of;
use wat_bytes::{Refused, encode_text};
use wat_messages::{Diagnostic, Note};
use wat_text::Strings;

/// Returns a note of an error by its number, from 0 on. The second place that the message is about
/// comes before the suggestion.
fn note_at<'a>(diagnostic: &Diagnostic<'a>, number: u32) -> Option<Note<'a>> {
    let (related, suggestion) = (diagnostic.related(), diagnostic.suggestion());
    match (number, related) {
        (0, Some(note)) => Some(note),
        (0, None) => suggestion,
        (1, Some(_)) => suggestion,
        _ => None,
    }
}

/// Writes a note of an error.
fn write_note<'a>(
    text: &'a str,
    refused: &Refused<'a>,
    number: u32,
    message: &mut [u8],
    diagnosis: &mut Diagnosis,
) -> Status
    requires { diagnosis.old ≡ nothing_wrong }
    ensures { TellsNote text.now refused.now diagnosis.new result }
{
    if let Status::Memory = Status::of(refused) {
        return Status::Memory;
    }
    let diagnostic = diagnostic_of(text, refused);
    match note_at(&diagnostic, number) {
        Some(note) => {
            let error = refused.number().unwrap_or(0);
            *diagnosis = Diagnosis::of_note(error, text, &note, message);
            Status::Done
        }
        None => Status::Unknown,
    }
}

/// Writes a note of the error of the module of a text.
fn note_of_text(
    alloc: Global,
    text: &str,
    number: u32,
    message: &mut [u8],
    diagnosis: &mut Diagnosis,
) -> Status
    requires { diagnosis.old ≡ nothing_wrong }
    ensures { NoteRead text.now diagnosis.new result }
{
    let strings = Strings::new(alloc);
    match encode_text(alloc, text, &strings) {
        Ok(_) => Status::Unknown,
        Err(refused) => write_note(text, &refused, number, message, diagnosis),
    }
}

/// Writes a note of the error of the module of a text with its position, and as much of its message
/// as fits.
pub(crate) fn note_into(
    alloc: Global,
    text: &[u8],
    number: u32,
    message: &mut [u8],
    diagnosis: &mut Diagnosis,
) -> Status
    ensures { NoteReturns text.now diagnosis.new result }
{
    *diagnosis = Diagnosis::none();
    match str::from_utf8(text) {
        Ok(text) => note_of_text(alloc, text, number, message, diagnosis),
        Err(_) => Status::Utf8,
    }
}
