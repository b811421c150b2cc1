//! The traits of sections, and the sections without a list.

ghost use Rattle.std.specs.Prelude.{◌≡◌, ◌==◌, ◌++◌, ℕ, List};
ghost use Rattle.wasm_ops.specs.Leb128.{unsigned};
ghost use Rattle.wasm_ops.specs.Spelling.{InRangeU32, name, InRangeName};
ghost use Rattle.wasm_out.specs.Built.{Built, Appends, behind_count, empty};

use std::alloc::Global;
use wasm_ops::{Encode, Name, Raw};
use wast_base::Error;

/// The id of a custom section, such as the name section (binary format: sections).
pub(crate) const CUSTOM_ID: u8 = 0;

/// The id of the type section.
pub(crate) const TYPE_ID: u8 = 1;

/// The id of the import section.
pub(crate) const IMPORT_ID: u8 = 2;

/// The id of the function section.
pub(crate) const FUNCTION_ID: u8 = 3;

/// The id of the table section.
pub(crate) const TABLE_ID: u8 = 4;

/// The id of the memory section.
pub(crate) const MEMORY_ID: u8 = 5;

/// The id of the global section.
pub(crate) const GLOBAL_ID: u8 = 6;

/// The id of the export section.
pub(crate) const EXPORT_ID: u8 = 7;

/// The id of the start section.
pub(crate) const START_ID: u8 = 8;

/// The id of the element section.
pub(crate) const ELEMENT_ID: u8 = 9;

/// The id of the code section.
pub(crate) const CODE_ID: u8 = 10;

/// The id of the data section.
pub(crate) const DATA_ID: u8 = 11;

/// The id of the data count section.
pub(crate) const DATA_COUNT_ID: u8 = 12;

/// The id of the tag section.
pub(crate) const TAG_ID: u8 = 13;

/// A section of a module: an id, and a payload after its length (binary format: sections).
///
/// All sections of this crate implement it, and [`Module::section`](crate::Module::section) takes
/// any. A caller may implement it for a section of another kind.
pub trait Section {
    /// The id.
    ghost number: { Self → ℕ };

    /// The payload: the bytes after the length.
    ghost payload: { Self → List ℕ };

    /// Its numbers, counts and lengths are in the range of the binary format.
    ghost in_range: { Self → Type 0 };

    /// Returns the id of the section.
    fn id(&self) -> u8
        ensures { result ≡ number self.now };

    /// Appends the payload of the section, without id and length.
    fn append_to<'e>(&self, out: &mut Vec<u8>) -> Result<(), Error<'e>>
        ensures { Appends (in_range self.now) out.old.items out.new.items (payload self.now) result };
}

/// A section that starts empty and is filled item by item.
///
///     assert!(rt; TypeSection::new(alloc).is_empty() && NameSection::new(alloc).is_empty());
pub trait Build: Section {
    /// Its items.
    ghost built: { Self → Built };

    /// Creates a section without items. Does not allocate.
    fn new(alloc: Global) -> Self
        ensures { built result ≡ empty };

    /// Returns whether the section has no items.
    fn is_empty(&self) -> bool
        ensures { result ≡ ((built self.now).count == 0) };

    /// The payload is the number of items, then the items.
    ghost is_list: { (s : Self) → Self.payload s ≡ behind_count (built s) };
}

/// The start section, with the function that runs first (binary format: start section).
///
///     whole.section(&StartSection { function_index: 0 })?;
#[derive(Clone, Copy, Debug, PartialEq, Eq)]
pub struct StartSection {
    /// The index of the function.
    pub function_index: u32,
}

impl Section for StartSection {
    ghost number = { λ _. 8 };

    ghost payload = { λ s. unsigned s.function_index };

    ghost in_range = { λ s. InRangeU32 s.function_index };

    fn id(&self) -> u8 {
        START_ID
    }

    fn append_to<'e>(&self, out: &mut Vec<u8>) -> Result<(), Error<'e>> {
        Ok(self.function_index.encode(out)?)
    }
}

/// The data count section: the number of data segments, before the code (binary format: data count
/// section).
///
///     whole.section(&DataCountSection { count: 2 })?;
#[derive(Clone, Copy, Debug, PartialEq, Eq)]
pub struct DataCountSection {
    /// The number of data segments.
    pub count: u32,
}

impl Section for DataCountSection {
    ghost number = { λ _. 12 };

    ghost payload = { λ s. unsigned s.count };

    ghost in_range = { λ s. InRangeU32 s.count };

    fn id(&self) -> u8 {
        DATA_COUNT_ID
    }

    fn append_to<'e>(&self, out: &mut Vec<u8>) -> Result<(), Error<'e>> {
        Ok(self.count.encode(out)?)
    }
}

/// A custom section: a name and any bytes (binary format: custom section).
///
/// # Example
///
///     let made = CustomSection {
///         name: "made",
///         bytes: Vec::from_slice(alloc, b"by hand")?,
///     };
#[derive(Debug, Drop)]
pub struct CustomSection<'a> {
    /// The name of the section.
    pub name: &'a str,
    /// The bytes after the name.
    pub bytes: Vec<u8>,
}

impl<'a> Section for CustomSection<'a> {
    ghost number = { λ _. 0 };

    ghost payload = { λ s. name s.name.now ++ s.bytes.items };

    ghost in_range = { λ s. InRangeName s.name.now };

    fn id(&self) -> u8 {
        CUSTOM_ID
    }

    fn append_to<'e>(&self, out: &mut Vec<u8>) -> Result<(), Error<'e>> {
        Ok((Name(self.name), Raw(&self.bytes)).encode(out)?)
    }
}
