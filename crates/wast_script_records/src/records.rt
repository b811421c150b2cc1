//! The tables of records, and the list of bytes that they make.

use crate::lines::Lines;
use crate::words::{NONE, put_words};
use std::alloc::{AllocError, Global};
use wast_script::Script;
use wast_tree::Id;
use wat_text::Strings;

/// The number of this layout.
const LAYOUT: u64 = 2;

/// How many bytes the header has: 13 words.
const HEADER: u64 = 104;

/// A string among the bytes of all strings.
#[derive(Clone, Copy)]
pub(crate) struct Piece {
    /// Where it begins, or [`NONE`].
    pub start: u64,
    /// How many bytes it has.
    pub size: u64,
}

/// The records that were written so far.
#[derive(Drop)]
pub(crate) struct Records {
    pub alloc: Global,
    pub commands: Vec<u8>,
    pub modules: Vec<u8>,
    /// How many modules there are.
    pub module_count: u64,
    pub actions: Vec<u8>,
    /// How many actions there are.
    pub action_count: u64,
    pub values: Vec<u8>,
    pub lanes: Vec<u8>,
    pub lines: Lines,
    /// The bytes of all strings.
    strings: Vec<u8>,
}

impl Records {
    /// Returns no records.
    fn new(alloc: Global) -> Records {
        Records {
            alloc,
            commands: Vec::new(alloc),
            modules: Vec::new(alloc),
            module_count: 0,
            actions: Vec::new(alloc),
            action_count: 0,
            values: Vec::new(alloc),
            lanes: Vec::new(alloc),
            lines: Lines::new(),
            strings: Vec::new(alloc),
        }
    }

    /// Adds a string.
    pub fn string(&mut self, bytes: &[u8]) -> Result<Piece, AllocError> {
        let start = self.strings.len() as u64;
        self.strings.extend_from_slice(bytes)?;
        Ok(Piece {
            start,
            size: bytes.len() as u64,
        })
    }

    /// Adds a text, if there is one.
    pub fn text(&mut self, text: Option<&str>) -> Result<Piece, AllocError> {
        match text {
            Some(text) => self.string(text.as_bytes()),
            None => Ok(Piece {
                start: NONE,
                size: 0,
            }),
        }
    }

    /// Adds the name of an id, if there is one.
    pub fn id(&mut self, id: Option<Id<'_>>) -> Result<Piece, AllocError> {
        match id {
            Some(id) => self.string(id.name().as_bytes()),
            None => self.text(None),
        }
    }

    /// Returns the header and the tables in one list. The counts of commands, values and lanes are those of the script.
    fn finish(self, script: &Script<'_>) -> Result<Vec<u8>, AllocError> {
        let modules = HEADER.saturating_add(self.commands.len() as u64);
        let actions = modules.saturating_add(self.modules.len() as u64);
        let values = actions.saturating_add(self.actions.len() as u64);
        let lanes = values.saturating_add(self.values.len() as u64);
        let strings = lanes.saturating_add(self.lanes.len() as u64);
        let header: [u64; 13] = [
            LAYOUT,
            HEADER,
            script.commands.len() as u64,
            modules,
            self.module_count,
            actions,
            self.action_count,
            values,
            script.values.len() as u64,
            lanes,
            script.lanes.len() as u64,
            strings,
            self.strings.len() as u64,
        ];
        let mut out = Vec::new(self.alloc);
        put_words(&mut out, &header)?;
        out.extend_from_slice(self.commands.as_slice())?;
        out.extend_from_slice(self.modules.as_slice())?;
        out.extend_from_slice(self.actions.as_slice())?;
        out.extend_from_slice(self.values.as_slice())?;
        out.extend_from_slice(self.lanes.as_slice())?;
        out.extend_from_slice(self.strings.as_slice())?;
        Ok(out)
    }
}

/// Returns the records of a script in one list of bytes, whose layout the crate describes.
///
/// Each module is encoded, also one that may be wrong on purpose. Its record has the bytes, or the error. Allocates memory for the
/// records, and for each module while it is encoded.
///
/// # Errors
///
/// [`AllocError`]: allocation failed, also while a module was encoded (E12).
pub fn records_of<'a>(
    alloc: Global,
    script: &Script<'a>,
    strings: &'a Strings,
) -> Result<Vec<u8>, AllocError> {
    let mut records = Records::new(alloc);
    for command in script.commands.iter() {
        records.put_command(script, strings, command)?;
    }
    for value in script.values.iter() {
        records.put_value(value)?;
    }
    for lane in script.lanes.iter() {
        records.put_lane(*lane)?;
    }
    records.finish(script)
}
