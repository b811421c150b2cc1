//! Lists all names of a text.

ghost use Rattle.std.specs.Prelude.{◌≡◌, ◌++◌, ◌∷◌, [], length, drop, IsTrue, IsFalse, OnOk};
ghost use Rattle.rigyomad_c.specs.Lists.{Lists, ListsRead, Puts, PutsBoth, HaveRoom, LackRoom, bytes_in, name_at, names_from, bytes_of, no_room};

use crate::encodes::put_front;
use crate::statuses::Status;
use std::alloc::{AllocError, Global};
use std::str;
use wat_bytes::{Denoted, names_of_text};
use wat_text::Strings;

/// A name of a text with its index space and its index (text format: indices).
///
/// For example, `$bc` in `(module (func $a) (func $bc))` has the index space 0, the index 1, the
/// offset 24, the start 1 and the size 2.
#[repr(C)]
#[derive(Clone, Copy, Debug)]
pub struct Name {
    /// The number of its index space, as `rigyomad_c_resolve` takes it.
    pub space: u32,
    /// The index of the item with this name.
    pub number: u32,
    /// The number of bytes of the text before its id.
    pub offset: usize,
    /// The number of bytes before it among the bytes of all names.
    pub start: usize,
    /// The number of its bytes, without the `$` of its id.
    pub size: usize,
}

/// The room that the names of a text need.
///
/// For example, the names of `(module (func $a) (func $bc))` need room for 2 records and 3 bytes.
#[repr(C)]
#[derive(Clone, Copy, Debug)]
pub struct Room {
    /// The number of names.
    pub names: usize,
    /// The number of bytes of all names.
    pub bytes: usize,
}

impl Room {
    /// Returns no room.
    pub(crate) fn none() -> Room
        ensures { result ≡ no_room }
    {
        Room { names: 0, bytes: 0 }
    }
}

/// Returns the record of a name that has `start` bytes of other names before it.
fn name_at(start: usize, denoted: &Denoted<'_>) -> Name
    ensures { result ≡ name_at start denoted.now }
{
    Name {
        space: denoted.space.rank() as u32,
        number: denoted.number,
        offset: denoted.id.span().offset,
        start,
        size: denoted.id.name().len(),
    }
}

/// Appends the record of a name, and its bytes.
fn add(denoted: &Denoted<'_>, names: &mut Vec<Name>, bytes: &mut Vec<u8>) -> Result<(), AllocError>
    ensures names { OnOk result (names.new.items ≡ names.old.items ++ name_at (length bytes.old.items) denoted.now ∷ []) }
    ensures bytes { OnOk result (bytes.new.items ≡ bytes.old.items ++ bytes_in denoted.now) }
{
    names.push(name_at(bytes.len(), denoted))?;
    bytes.extend_from_slice(denoted.id.name().as_bytes())
}

/// Appends the record of each name, and its bytes.
fn list(all: &[Denoted<'_>], names: &mut Vec<Name>, bytes: &mut Vec<u8>) -> Result<(), AllocError>
    requires no_names { names.old.items ≡ [] }
    requires no_bytes { bytes.old.items ≡ [] }
    ensures names { OnOk result (names.new.items ≡ names_from 0 all.now) }
    ensures bytes { OnOk result (bytes.new.items ≡ bytes_of all.now) }
{
    for denoted in all {
        add(denoted, names, bytes)?;
    }
    Ok(())
}

/// Returns whether two slices have room for names and their bytes.
fn have_room(names: &[Name], bytes: &[u8], names_out: &[Name], bytes_out: &[u8]) -> bool
    ensures have { IsTrue result → HaveRoom names.now bytes.now names_out.now bytes_out.now }
    ensures lack { IsFalse result → LackRoom names.now bytes.now names_out.now bytes_out.now }
{
    names.len() <= names_out.len() && bytes.len() <= bytes_out.len()
}

/// Copies names and their bytes to the front of two slices that have room for them.
fn put_both(names: &[Name], bytes: &[u8], names_out: &mut [Name], bytes_out: &mut [u8])
    requires { HaveRoom names.now bytes.now names_out.old bytes_out.old }
    ensures names { names_out.new ≡ names.now ++ drop (length names.now) names_out.old }
    ensures bytes { bytes_out.new ≡ bytes.now ++ drop (length bytes.now) bytes_out.old }
{
    put_front(names, names_out);
    put_front(bytes, bytes_out);
}

/// Writes records and bytes to slices, if both have room for all. Otherwise the slices are not
/// changed.
fn put_records(
    names: &[Name],
    bytes: &[u8],
    names_out: &mut [Name],
    bytes_out: &mut [u8],
    room: &mut Room,
) -> Status
    ensures { PutsBoth names.now bytes.now room.new names_out.old names_out.new bytes_out.old bytes_out.new result }
{
    *room = Room {
        names: names.len(),
        bytes: bytes.len(),
    };
    if !have_room(names, bytes, names_out, bytes_out) {
        return Status::Short;
    }
    put_both(names, bytes, names_out, bytes_out);
    Status::Done
}

/// Writes names to slices, if both have room for all.
fn put_names(
    alloc: Global,
    all: &[Denoted<'_>],
    names_out: &mut [Name],
    bytes_out: &mut [u8],
    room: &mut Room,
) -> Status
    requires { room.old ≡ no_room }
    ensures { Puts all.now room.new names_out.old names_out.new bytes_out.old bytes_out.new result }
{
    let mut names = Vec::new(alloc);
    let mut bytes = Vec::new(alloc);
    match list(all, &mut names, &mut bytes) {
        Ok(()) => put_records(
            names.as_slice(),
            bytes.as_slice(),
            names_out,
            bytes_out,
            room,
        ),
        Err(_) => Status::Memory,
    }
}

/// Writes the names of the module of a text to slices.
fn list_names_of(
    alloc: Global,
    text: &str,
    names: &mut [Name],
    bytes: &mut [u8],
    room: &mut Room,
) -> Status
    requires { room.old ≡ no_room }
    ensures { ListsRead text.now room.new names.old names.new bytes.old bytes.new result }
{
    let strings = Strings::new(alloc);
    match names_of_text(alloc, text, &strings) {
        Ok(all) => put_names(alloc, all.as_slice(), names, bytes, room),
        Err(refused) => Status::of(&refused),
    }
}

/// Writes the names of the module of a text to slices, if both have room for all, and the room that
/// they need. Otherwise the slices are not changed.
pub(crate) fn list_names(
    alloc: Global,
    text: &[u8],
    names: &mut [Name],
    bytes: &mut [u8],
    room: &mut Room,
) -> Status
    ensures { Lists text.now room.new names.old names.new bytes.old bytes.new result }
{
    *room = Room::none();
    match str::from_utf8(text) {
        Ok(text) => list_names_of(alloc, text, names, bytes, room),
        Err(_) => Status::Utf8,
    }
}
