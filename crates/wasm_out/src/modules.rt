//! Whole modules.

ghost use Rattle.std.specs.Prelude.{◌≡◌};
ghost use Rattle.wasm_ops.specs.Spelling.{InRangeSized};
ghost use Rattle.wasm_out.specs.Built.{Appends, Makes};
ghost use Rattle.wasm_out.specs.Parts.{section};
ghost use Rattle.wasm_out.specs.Reads.{header};

use crate::sections::Section;
use std::alloc::Global;
use std::marker::Model;
use wasm_ops::{Encode, Raw, Sink, WithLength};
use wast_base::Error;

/// The magic number and the version, which begin each module (binary format: modules).
pub const HEADER: [u8; 8] = [0x00, 0x61, 0x73, 0x6d, 0x01, 0x00, 0x00, 0x00];

/// A module that is built section by section (binary format: modules).
///
/// Its model in contracts is its bytes. The caller adds sections in the order that the binary
/// format requires.
///
/// # Example
///
///     let mut module = Module::new(alloc)?;
///     module.section(&types)?;
///     module.section(&functions)?;
///     module.section(&exports)?;
///     module.section(&code)?;
///     module.section(&made)?;
///     let bytes = module.finish();
#[derive(Debug, Drop)]
pub struct Module {
    alloc: Global,
    bytes: Vec<u8>,
}

impl Model for Module {
    ghost use Rattle.std.specs.Prelude.{ℕ, List};

    ghost Value = { List ℕ };

    ghost view = { λ m. m.bytes.items };
}

impl Module {
    /// Creates a module without sections, which is only the [`HEADER`].
    pub fn new<'e>(alloc: Global) -> Result<Module, Error<'e>>
        ensures { Makes (Unit {0}) header result }
    {
        let mut bytes = Vec::new(alloc);
        bytes.put(&HEADER)?;
        Ok(Module { alloc, bytes })
    }

    /// Appends a section: its id, the length of its payload, and its payload.
    ///
    ///     module.section(&types)?;
    pub fn section<'e, S: Section>(&mut self, content: &S) -> Result<(), Error<'e>>
        ensures { Appends (InRangeSized S.in_range S.payload content.now) self.old self.new
            (section (S.number content.now) (S.payload content.now)) result }
    {
        let mut payload = Vec::new(self.alloc);
        content.append_to(&mut payload)?;
        Ok((content.id(), WithLength(Raw(&payload))).encode(&mut self.bytes)?)
    }

    /// Returns the bytes of the module. Does not allocate.
    pub fn finish(self) -> Vec<u8>
        ensures { result.items ≡ self }
    {
        let Module { alloc: _, bytes } = self;
        bytes
    }
}
