//! Reports several errors of one text.
//!
//! After an error of an id, the tree is searched for other wrong ids. After an error in the text format, its field is overwritten by
//! blanks in a copy of the text, and the copy is read. For example, `(func i32.foo) (func i32.bar)` has two errors: the copy is
//! `               (func i32.bar)`. All offsets stay the same.

use crate::ids::{WrongId, WrongIds, wrong_ids};
use std::alloc::{AllocError, Global};
use std::str;
use wast_tree::{Fault, ModuleField, Seq, discard_fields};
use wat_bytes::Refused;
use wat_command::{Escaped, Failure, Style, report_id_in, report_in, say_more};
use wat_messages::{Range, field_around};
use wat_text::{Strings, TextError, TextKind, TextModule, read};

/// At most this many errors of one text are reported.
const MOST: usize = 20;

/// What is said if there are more.
const MORE: &str = "20 shown; more follow";

/// Returns the position of the id that an error is about, if it is about one.
fn id_of(refused: &Refused<'_>) -> Option<usize> {
    let Refused::Module(error) = refused else {
        return None;
    };
    match error.fault() {
        Fault::Unknown(_, _) | Fault::Duplicate(_) | Fault::DuplicateField(_, _) | Fault::Labels =>
            error.span().map(|span| span.offset),
        _ => None,
    }
}

/// Reports a wrong id.
fn report_id(
    rt: &HostRuntime,
    style: Style,
    file: Escaped<'_>,
    text: &str,
    id: &WrongId,
) -> Failure {
    match id.known() {
        Some(known) => report_id_in(rt, style, file, text, id.error(), known),
        None => report_in(rt, style, file, text, &Refused::Module(id.error())),
    }
}

/// Reports wrong ids, but not that of the first error, which is at an offset.
fn report_ids(
    rt: &HostRuntime,
    style: Style,
    file: Escaped<'_>,
    text: &str,
    wrong: &WrongIds,
    first: usize,
) {
    let mut shown = 1_usize;
    for place in 0..wrong.len() {
        let Some(id) = wrong.get(place) else {
            return;
        };
        if id.start != first {
            if shown == MOST {
                say_more(rt, style, file, MORE);
                return;
            }
            let _ = report_id(rt, style, file, text, id);
            shown = shown.saturating_add(1);
        }
    }
}

/// Returns the fields of a module that was read. One that is written as bytes has none.
fn fields_of<'a>(alloc: Global, module: TextModule<'a>) -> Seq<ModuleField<'a>> {
    let TextModule {
        span: _span,
        id: _id,
        name: _name,
        kind,
    } = module;
    match kind {
        TextKind::Fields(fields) => fields,
        TextKind::Binary(pieces) => {
            drop(pieces);
            Seq::new(alloc)
        }
    }
}

/// Returns the wrong ids of a module that was read.
fn wrong_ids_of(rt: &HostRuntime, module: TextModule<'_>) -> Result<WrongIds, AllocError> {
    let fields = fields_of(rt.alloc(), module);
    let found = wrong_ids(rt.alloc(), fields.as_slice());
    discard_fields(fields);
    found
}

/// Reports the errors of ids after the first one, which is at an offset.
fn report_other_ids(
    rt: &HostRuntime,
    style: Style,
    file: Escaped<'_>,
    text: &str,
    first: usize,
) -> Result<(), AllocError> {
    let strings = Strings::new(rt.alloc());
    match read(rt.alloc(), text, &strings) {
        Ok(module) => {
            let found = wrong_ids_of(rt, module)?;
            report_ids(rt, style, file, text, &found, first);
            Ok(())
        }
        Err(_) => Ok(()),
    }
}

/// Overwrites a part of a text with blanks.
fn blank(bytes: &mut [u8], part: Range) {
    for index in part.start..part.end {
        if let Some(byte) = bytes.get_mut(index) {
            *byte = b' ';
        }
    }
}

/// Returns the error of a copy of a text in the text format.
fn error_in(rt: &HostRuntime, copy: &[u8]) -> Option<TextError> {
    let text = str::from_utf8(copy).ok()?;
    let strings = Strings::new(rt.alloc());
    match read(rt.alloc(), text, &strings) {
        Ok(module) => {
            discard_fields(fields_of(rt.alloc(), module));
            None
        }
        Err(error) => Some(error),
    }
}

/// Reports the errors in other fields than the first one, which is at an offset. They are of the text format alone: other errors could be
/// consequences, because the field with the error may define ids.
fn report_other_fields(
    rt: &HostRuntime,
    style: Style,
    file: Escaped<'_>,
    text: &str,
    first: usize,
) -> Result<(), AllocError> {
    let mut copy = Vec::new(rt.alloc());
    copy.extend_from_slice(text.as_bytes())?;
    let mut at = first;
    for shown in 1..=MOST {
        let Some(field) = field_around(text, at) else {
            break;
        };
        blank(copy.as_mut_slice(), field);
        let Some(error) = error_in(rt, copy.as_slice()) else {
            break;
        };
        let refused = Refused::Text(error);
        if refused.number().is_some() {
            break;
        }
        if shown == MOST {
            say_more(rt, style, file, MORE);
            break;
        }
        let _ = report_in(rt, style, file, text, &refused);
        at = error.span.offset;
    }
    Ok(())
}

/// Reports the error of a text, and those after it: of other ids, or in other fields. At most 20 are reported.
pub(crate) fn report_all<'a>(
    rt: &HostRuntime,
    style: Style,
    file: Escaped<'_>,
    text: &'a str,
    refused: &Refused<'a>,
) -> Failure {
    let failure = report_in(rt, style, file, text, refused);
    if let Failure::Memory = failure {
        return failure;
    }
    let _ = match refused {
        Refused::Text(error) => report_other_fields(rt, style, file, text, error.span.offset),
        _ => match id_of(refused) {
            Some(first) => report_other_ids(rt, style, file, text, first),
            None => Ok(()),
        },
    };
    failure
}
