//! Name maps, and the name section.

ghost use Rattle.std.specs.Prelude.{◌≡◌, ◌+◌, ◌==◌, ◌++◌, [], length, IsTrue};
ghost use Rattle.wasm_ops.specs.Leb128.{unsigned};
ghost use Rattle.wasm_ops.specs.Spelling.{InRangeU32, InRangeSized, name, InRangeName};
ghost use Rattle.wasm_out.specs.Built.{Adds, Appends, behind_count, empty};
ghost use Rattle.wasm_out.specs.NameSectionBytes.{AppendsNames, subsection, name_payload, name_entry};
ghost use Rattle.wasm_out.specs.Parts.{section};
ghost use Rattle.wasm_out.specs.NameSectionBytes as named;

use crate::built_items::BuiltItems;
use crate::sections::{CUSTOM_ID, Section};
use std::alloc::Global;
use std::marker::{Model, PhantomData};
use wasm_ops::{Encode, Name, Raw, WithLength};
use wast_base::Error;

/// A map from indices to names, or to name maps (custom sections: name maps).
///
/// Its model in contracts is its items. Use it as [`NameMap`] or [`IndirectNameMap`].
///
///     assert!(rt; NameMap::new(alloc).is_empty() && IndirectNameMap::new(alloc).is_empty());
#[derive(Debug, Drop)]
pub struct IndexedNames<K> {
    items: BuiltItems,
    kind: PhantomData<K>,
}

impl<K> Model for IndexedNames<K> {
    ghost use Rattle.wasm_out.specs.Built.{Built};

    ghost Value = { Built };

    ghost view = { λ s. s.items };
}

impl<K> IndexedNames<K> {
    /// Creates a map without entries. Does not allocate.
    pub fn new(alloc: Global) -> Self
        ensures { result ≡ empty }
    {
        IndexedNames {
            items: BuiltItems::new(alloc),
            kind: PhantomData,
        }
    }

    /// Returns whether the map has no entries.
    pub fn is_empty(&self) -> bool
        ensures { result ≡ (self.now.count == 0) }
    {
        self.items.is_empty()
    }
}

/// The kind of maps with one name at each index.
#[derive(Clone, Copy, Debug)]
pub struct Direct;

/// A map from indices to names (custom sections: name maps).
pub type NameMap = IndexedNames<Direct>;

impl NameMap {
    /// Adds the name of the item at an index.
    ///
    ///     let mut map = NameMap::new(alloc);
    ///     map.append(2, "x")?;
    pub fn append<'e>(&mut self, index: u32, text: &str) -> Result<(), Error<'e>>
        ensures { Adds (InRangeU32 (self.old.count + 1) × InRangeName text.now) self.old self.new
            (name_entry (index, text.now)).bytes result }
    {
        self.items.push(&(index, Name(text)))
    }
}

/// The kind of maps with a name map at each index.
#[derive(Clone, Copy, Debug)]
pub struct Indirect;

/// A map from indices to name maps (custom sections: indirect name maps).
pub type IndirectNameMap = IndexedNames<Indirect>;

impl IndirectNameMap {
    /// Adds the names that belong to the item at an index, such as the locals of a function.
    ///
    ///     let mut maps = IndirectNameMap::new(alloc);
    ///     maps.append(3, &map)?;
    pub fn append<'e>(&mut self, index: u32, names: &NameMap) -> Result<(), Error<'e>>
        ensures { Adds (InRangeU32 (self.old.count + 1)) self.old self.new
            (unsigned index ++ behind_count names.now) result }
    {
        self.items.push(&(index, &names.items))
    }
}

/// The custom section `name` (custom sections: name section).
///
/// Its model in contracts is the bytes of its subsections. Each method appends a subsection, after
/// its id and its length. The specification requires increasing ids, which is the order of the
/// methods.
///
/// # Example
///
///     let mut names = NameSection::new(alloc);
///     add_names(&mut names, &map, &maps)?;
///
/// In `add_names`:
///
///     names.module("m")?;
///     names.functions(map)?;
///     names.locals(maps)?;
#[derive(Debug, Drop)]
pub struct NameSection {
    bytes: Vec<u8>,
}

impl Model for NameSection {
    ghost use Rattle.std.specs.Prelude.{ℕ, List};

    ghost Value = { List ℕ };

    ghost view = { λ s. s.bytes.items };
}

impl NameSection {
    /// Creates a section without subsections. Does not allocate.
    pub fn new(alloc: Global) -> Self
        ensures { result ≡ [] }
    {
        NameSection {
            bytes: Vec::new(alloc),
        }
    }

    /// Returns whether there are no subsections.
    pub fn is_empty(&self) -> bool
        ensures { result ≡ (length self.now == 0) }
    {
        self.bytes.is_empty()
    }

    /// Appends a subsection: its id, the length of its content, and its content.
    fn subsection<'e, T: Encode>(&mut self, id: u8, content: &T) -> Result<(), Error<'e>>
        requires { IsTrue (T.is_ready content.now) }
        ensures { Appends (InRangeSized T.in_range T.spelling content.now) self.old self.new
            (section id (T.spelling content.now)) result }
    {
        Ok((id, WithLength(content)).encode(&mut self.bytes)?)
    }

    /// Appends the name of the module (subsection 0).
    pub fn module<'e>(&mut self, text: &str) -> Result<(), Error<'e>>
        ensures { Appends (InRangeSized InRangeName name text.now) self.old self.new
            (subsection named.Whole (name text.now)) result }
    {
        self.subsection(0, &Name(text))
    }

    /// Appends the names of functions (subsection 1).
    pub fn functions<'e>(&mut self, names: &NameMap) -> Result<(), Error<'e>>
        ensures { AppendsNames named.Functions names.now self.old self.new result }
    {
        self.subsection(1, &names.items)
    }

    /// Appends the names of locals, by function (subsection 2).
    pub fn locals<'e>(&mut self, names: &IndirectNameMap) -> Result<(), Error<'e>>
        ensures { AppendsNames named.Locals names.now self.old self.new result }
    {
        self.subsection(2, &names.items)
    }

    /// Appends the names of labels, by function (subsection 3).
    pub fn labels<'e>(&mut self, names: &IndirectNameMap) -> Result<(), Error<'e>>
        ensures { AppendsNames named.Labels names.now self.old self.new result }
    {
        self.subsection(3, &names.items)
    }

    /// Appends the names of types (subsection 4).
    pub fn types<'e>(&mut self, names: &NameMap) -> Result<(), Error<'e>>
        ensures { AppendsNames named.Types names.now self.old self.new result }
    {
        self.subsection(4, &names.items)
    }

    /// Appends the names of tables (subsection 5).
    pub fn tables<'e>(&mut self, names: &NameMap) -> Result<(), Error<'e>>
        ensures { AppendsNames named.Tables names.now self.old self.new result }
    {
        self.subsection(5, &names.items)
    }

    /// Appends the names of memories (subsection 6).
    pub fn memories<'e>(&mut self, names: &NameMap) -> Result<(), Error<'e>>
        ensures { AppendsNames named.Memories names.now self.old self.new result }
    {
        self.subsection(6, &names.items)
    }

    /// Appends the names of globals (subsection 7).
    pub fn globals<'e>(&mut self, names: &NameMap) -> Result<(), Error<'e>>
        ensures { AppendsNames named.Globals names.now self.old self.new result }
    {
        self.subsection(7, &names.items)
    }

    /// Appends the names of element segments (subsection 8).
    pub fn elements<'e>(&mut self, names: &NameMap) -> Result<(), Error<'e>>
        ensures { AppendsNames named.Elements names.now self.old self.new result }
    {
        self.subsection(8, &names.items)
    }

    /// Appends the names of data segments (subsection 9).
    pub fn data_segments<'e>(&mut self, names: &NameMap) -> Result<(), Error<'e>>
        ensures { AppendsNames named.DataSegments names.now self.old self.new result }
    {
        self.subsection(9, &names.items)
    }

    /// Appends the names of struct fields, by type (subsection 10).
    pub fn fields<'e>(&mut self, names: &IndirectNameMap) -> Result<(), Error<'e>>
        ensures { AppendsNames named.Fields names.now self.old self.new result }
    {
        self.subsection(10, &names.items)
    }

    /// Appends the names of tags (subsection 11).
    pub fn tags<'e>(&mut self, names: &NameMap) -> Result<(), Error<'e>>
        ensures { AppendsNames named.Tags names.now self.old self.new result }
    {
        self.subsection(11, &names.items)
    }

    /// Appends the names of parameters of function types, by type (subsection 12).
    pub fn parameters<'e>(&mut self, names: &IndirectNameMap) -> Result<(), Error<'e>>
        ensures { AppendsNames named.Parameters names.now self.old self.new result }
    {
        self.subsection(12, &names.items)
    }

    /// Appends the names of parameters of tags, by tag (subsection 13).
    pub fn tag_parameters<'e>(&mut self, names: &IndirectNameMap) -> Result<(), Error<'e>>
        ensures { AppendsNames named.TagParameters names.now self.old self.new result }
    {
        self.subsection(13, &names.items)
    }
}

impl Section for NameSection {
    ghost number = { λ _. 0 };

    ghost payload = { name_payload };

    ghost in_range = { λ _. Unit {0} };

    fn id(&self) -> u8 {
        CUSTOM_ID
    }

    fn append_to<'e>(&self, out: &mut Vec<u8>) -> Result<(), Error<'e>> {
        Ok((Name("name"), Raw(&self.bytes)).encode(out)?)
    }
}
