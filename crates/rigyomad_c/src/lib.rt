//! The bytes of modules in the WebAssembly text format, for callers in C.
//!
//! `bindings/c/rigyomad.h` declares the calls and rejects null pointers. The bindings for Rust and
//! Python use it too.
//!
//! Each call keeps nothing, so calls in different threads do not affect each other. It reads and
//! writes only the slices that it is lent, and frees what it allocates before it returns. If a
//! slice is too short, it is not changed, and the call returns the size that is needed. Only a
//! message is cut to the size of its slice.
//!
//! # Example
//!
//! `bindings/c/facts.c` has the calls with what they return. For example, the bytes of
//! `(module (func))` are 24.
//!
//! # Modules
//!
//! - `encodes` writes the bytes of a text, or its error. `diagnosis` is the error with its
//!   position, and `messages` cuts its message to the size of a slice.
//! - `notes` writes the notes of an error, and `widths` has the columns of a character.
//! - `looks_up` finds the index of one name, and `lists` writes all names.
//! - `script` writes the records of a script of tests, whose layout `wast_script_records` has.
//! - `statuses` has the results of calls.
#![tactic(auto)]

ghost use Rattle.std.specs.Char.{InScalarRange, OutOfScalarRange};
ghost use Rattle.std.specs.Prelude.{◌≡◌};
ghost use Rattle.rigyomad_c.specs.Answers.{Returns, EncodeReturns, Diagnoses, ResolveReturns};
ghost use Rattle.rigyomad_c.specs.Lists.{Lists};
ghost use Rattle.rigyomad_c.specs.Notes.{NoteReturns, width_of};
ghost use Rattle.rigyomad_c.specs.Scripts.{ScriptReturns};

mod diagnosis;
mod encodes;
mod lists;
mod looks_up;
mod messages;
mod notes;
mod script;
mod statuses;
mod widths;

use diagnosis::Diagnosis;
use encodes::{diagnose, encode_into};
use lists::{Name, Room, list_names};
use looks_up::look_up;
use notes::note_into;
use script::script_into;
use std::alloc::Global;
use widths::width;

/// The version of these declarations. It changes if the parameters or results of a call change.
const VERSION: u32 = 2;

/// Returns the version of these declarations, to compare it with that of the header.
///
/// # Example
///
/// In C, `rigyomad_c_version() == 2`.
#[unsafe(no_mangle)]
pub extern "C" fn rigyomad_c_version() -> u32
    ensures { result ≡ 2 }
{
    VERSION
}

/// Writes the bytes of the module of a text to a slice, if they fit, and their number to `size`.
///
/// If they do not fit, the slice is not changed. The returned status is 0 on success, and 1 if the
/// slice is too short. It is 2 if the text has an error, 3 if it is not UTF-8, and 4 if allocation
/// failed.
///
/// # Example
///
/// For `(module (func))` and a slice of 25 bytes the status is 0 and `size` is 24. With a slice of
/// 23 bytes the status is 1.
#[unsafe(no_mangle)]
pub extern "C" fn rigyomad_c_encode(
    alloc: Global,
    text: &[u8],
    out: &mut [u8],
    size: &mut usize,
) -> u32
    ensures { Returns (EncodeReturns text.now size.new out.old out.new) result }
{
    encode_into(alloc, text, out, size).code()
}

/// Writes the error of a text to `diagnosis`, with its position, and as much of its message as fits
/// to `message`.
///
/// If the text has no error, the status is 0 and all numbers are 0. Otherwise it is the status that
/// encoding the text returns.
///
/// # Example
///
/// For `(module`, a line feed and ` (start $f))` the status is 2. The error is E4, at the offset
/// 16: line 2, column 9.
#[unsafe(no_mangle)]
pub extern "C" fn rigyomad_c_fault(
    alloc: Global,
    text: &[u8],
    message: &mut [u8],
    diagnosis: &mut Diagnosis,
) -> u32
    ensures { Returns (Diagnoses text.now diagnosis.new) result }
{
    diagnose(alloc, text, message, diagnosis).code()
}

/// Writes a note of the error of a text to `diagnosis`, with its position, and as much of its message
/// as fits to `message`. A note is a second place that the error is about, or a suggestion.
///
/// Notes have the numbers from 0 on. If the error has no note with this number, or the text has no
/// error, the status is 5 and all numbers are 0. Otherwise the status is 0, 3 or 4, and the number in
/// `diagnosis` is that of the error.
///
/// # Example
///
/// For `(module (func $f) (func $f))` the note 0 is `first defined here`, at the offsets 14 to 16.
/// There is no note 1.
#[unsafe(no_mangle)]
pub extern "C" fn rigyomad_c_note(
    alloc: Global,
    text: &[u8],
    number: u32,
    message: &mut [u8],
    diagnosis: &mut Diagnosis,
) -> u32
    ensures { Returns (NoteReturns text.now diagnosis.new) result }
{
    note_into(alloc, text, number, message, diagnosis).code()
}

/// Returns how many columns a terminal shows of a character, by its code.
///
/// # Example
///
/// It is 2 for U+4E2D, and 0 for U+0301, an accent above the character before it.
#[unsafe(no_mangle)]
pub extern "C" fn rigyomad_c_width(character: u32) -> u32
    ensures character { InScalarRange character → result ≡ width_of character }
    ensures other { OutOfScalarRange character → result ≡ 1 }
{
    width(character)
}

/// Writes the index of a name in an index space of the module of a text to `number`.
///
/// The name is without its `$`. If no item has the name, or there is no such index space, the
/// status is 5, and `number` is not changed.
///
/// # Example
///
/// In `(module (func) (func $f))` the name `f` has the index 1 in index space 0, that of functions.
#[unsafe(no_mangle)]
pub extern "C" fn rigyomad_c_resolve(
    alloc: Global,
    text: &[u8],
    space: u32,
    name: &[u8],
    number: &mut u32,
) -> u32
    ensures { Returns (ResolveReturns text.now space name.now number.old number.new) result }
{
    look_up(alloc, text, space, name, number).code()
}

/// Writes all names of the index spaces of the module of a text to slices, if both have room.
///
/// `names` gets a record of each name, and `bytes` gets the bytes of all names, one after another.
/// `room` gets the room that they need. If a slice is too short, neither is changed, and the status
/// is 1.
///
/// # Example
///
/// For `(module (func $a) (func $bc))` there are two records, and the bytes are `abc`.
#[unsafe(no_mangle)]
pub extern "C" fn rigyomad_c_names(
    alloc: Global,
    text: &[u8],
    names: &mut [Name],
    bytes: &mut [u8],
    room: &mut Room,
) -> u32
    ensures { Returns (Lists text.now room.new names.old names.new bytes.old bytes.new) result }
{
    list_names(alloc, text, names, bytes, room).code()
}

/// Writes the records of the script of a text to a slice, if they fit, and their number of bytes to
/// `size`.
///
/// The records are the commands of the script, with their modules, actions and values, in the layout
/// of `wast_script_records`. If they do not fit, the slice is not changed, and the status is 1. If
/// the text is no script, the status is 2, and `diagnosis` and `message` have the error as
/// `rigyomad_c_fault` writes it. A module that has an error is no error of the script.
///
/// # Example
///
/// For `(module)` and a slice of 384 bytes the status is 0, and `size` is 384. With a slice of 383
/// bytes the status is 1.
#[unsafe(no_mangle)]
pub extern "C" fn rigyomad_c_script(
    alloc: Global,
    text: &[u8],
    out: &mut [u8],
    size: &mut usize,
    message: &mut [u8],
    diagnosis: &mut Diagnosis,
) -> u32
    ensures { Returns (ScriptReturns text.now size.new out.old out.new diagnosis.new) result }
{
    script_into(alloc, text, out, size, message, diagnosis).code()
}
