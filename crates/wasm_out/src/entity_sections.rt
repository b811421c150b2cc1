//! The sections of imports, tables, memories, tags and globals.

ghost use Rattle.std.specs.Prelude.{◌+◌, ◌∷◌, ◌++◌, [], IsTrue};
ghost use Rattle.wasm_ops.specs.Entities.{entity_type, global_type, memory_type, table_type, tag_type};
ghost use Rattle.wasm_ops.specs.Spelling.{InRangeU32};
ghost use Rattle.wasm_out.specs.Built.{Adds};
ghost use Rattle.wasm_out.specs.Parts.{import_entry};
ghost use Rattle.wasm_out.specs.Parts as parts;

use crate::builders::{ListKind, ListSection};
use crate::sections::{GLOBAL_ID, IMPORT_ID, MEMORY_ID, TABLE_ID, TAG_ID};
use wasm_ops::{ConstExpr, EntityType, GlobalType, MemoryType, Name, TableType, TagType};
use wast_base::Error;

/// The kind of import sections.
#[derive(Clone, Copy, Debug)]
pub struct Imports;

impl ListKind for Imports {
    ghost kind = { parts.Imports };

    fn id() -> u8 {
        IMPORT_ID
    }
}

/// The import section (binary format: import section).
pub type ImportSection = ListSection<Imports>;

impl ImportSection {
    /// Adds an import: the names of the module and of the item, and its type.
    ///
    ///     let tag = EntityType::Tag(TagType { func_type_idx: 0 });
    ///     imports.import("m", "t", &tag)?;
    ///
    /// Test [`EntityType::is_covered`] first.
    pub fn import<'e>(&mut self, module: &str, name: &str, ty: &EntityType) -> Result<(), Error<'e>>
        requires { IsTrue (entity_type ty.now).is_covered }
        ensures { Adds (InRangeU32 (self.old.count + 1)
            × (import_entry (record { «module» = «module».now; name = name.now; entity = ty.now })).in_range) self.old self.new
            (import_entry (record { «module» = «module».now; name = name.now; entity = ty.now })).bytes result }
    {
        self.items.push(&(Name(module), (Name(name), ty)))
    }
}

/// The kind of table sections.
#[derive(Clone, Copy, Debug)]
pub struct Tables;

impl ListKind for Tables {
    ghost kind = { parts.Tables };

    fn id() -> u8 {
        TABLE_ID
    }
}

/// The table section (binary format: table section).
pub type TableSection = ListSection<Tables>;

impl TableSection {
    /// Adds a table whose elements are null at first.
    ///
    /// # Example
    ///
    ///     let ty = TableType {
    ///         element_type: funcref(),
    ///         minimum: 1,
    ///         maximum: None,
    ///         table64: false,
    ///         shared: false,
    ///     };
    ///     section.table(&ty)?;
    ///
    /// Test [`TableType::is_covered`] first.
    pub fn table<'e>(&mut self, ty: &TableType) -> Result<(), Error<'e>>
        requires { IsTrue (table_type ty.now).is_covered }
        ensures { Adds (InRangeU32 (self.old.count + 1) × (table_type ty.now).in_range) self.old self.new
            (table_type ty.now).bytes result }
    {
        self.items.push(ty)
    }

    /// Adds a table whose elements have the value of an expression at first.
    ///
    ///     section.table_with_init(&wide, &init)?;
    ///
    /// Test [`TableType::is_covered`] first.
    pub fn table_with_init<'e>(&mut self, ty: &TableType, init: &ConstExpr) -> Result<(), Error<'e>>
        requires { IsTrue (table_type ty.now).is_covered }
        ensures { Adds (InRangeU32 (self.old.count + 1) × (table_type ty.now).in_range) self.old self.new
            (0x40 ∷ 0x00 ∷ ((table_type ty.now).bytes ++ (init.now ++ 0x0b ∷ []))) result }
    {
        self.items.push(&(0x40u8, (0x00u8, (ty, init))))
    }
}

/// The kind of memory sections.
#[derive(Clone, Copy, Debug)]
pub struct Memories;

impl ListKind for Memories {
    ghost kind = { parts.Memories };

    fn id() -> u8 {
        MEMORY_ID
    }
}

/// The memory section (binary format: memory section).
pub type MemorySection = ListSection<Memories>;

impl MemorySection {
    /// Adds a memory.
    ///
    /// # Example
    ///
    ///     let ty = MemoryType {
    ///         minimum: 1,
    ///         maximum: Some(2),
    ///         memory64: false,
    ///         shared: true,
    ///         page_size_log2: Some(0),
    ///     };
    ///     memories.memory(&ty)?;
    ///
    /// The encoder supports all memory types.
    pub fn memory<'e>(&mut self, ty: &MemoryType) -> Result<(), Error<'e>>
        requires { IsTrue (memory_type ty.now).is_covered }
        ensures { Adds (InRangeU32 (self.old.count + 1) × (memory_type ty.now).in_range) self.old self.new
            (memory_type ty.now).bytes result }
    {
        self.items.push(ty)
    }
}

/// The kind of tag sections.
#[derive(Clone, Copy, Debug)]
pub struct Tags;

impl ListKind for Tags {
    ghost kind = { parts.Tags };

    fn id() -> u8 {
        TAG_ID
    }
}

/// The tag section (binary format: tag section).
pub type TagSection = ListSection<Tags>;

impl TagSection {
    /// Adds a tag.
    ///
    ///     tags.tag(&TagType { func_type_idx: 0 })?;
    ///
    /// The encoder supports all tag types.
    pub fn tag<'e>(&mut self, ty: &TagType) -> Result<(), Error<'e>>
        requires { IsTrue (tag_type ty.now).is_covered }
        ensures { Adds (InRangeU32 (self.old.count + 1) × (tag_type ty.now).in_range) self.old self.new
            (tag_type ty.now).bytes result }
    {
        self.items.push(ty)
    }
}

/// The kind of global sections.
#[derive(Clone, Copy, Debug)]
pub struct Globals;

impl ListKind for Globals {
    ghost kind = { parts.Globals };

    fn id() -> u8 {
        GLOBAL_ID
    }
}

/// The global section (binary format: global section).
pub type GlobalSection = ListSection<Globals>;

impl GlobalSection {
    /// Adds a global that has the value of an expression at first.
    ///
    ///     let init = number(alloc, -1)?;
    ///     globals.global(&ty, &init)?;
    ///
    /// Test [`GlobalType::is_covered`] first.
    pub fn global<'e>(&mut self, ty: &GlobalType, init: &ConstExpr) -> Result<(), Error<'e>>
        requires { IsTrue (global_type ty.now).is_covered }
        ensures { Adds (InRangeU32 (self.old.count + 1) × (global_type ty.now).in_range) self.old self.new
            ((global_type ty.now).bytes ++ (init.now ++ 0x0b ∷ [])) result }
    {
        self.items.push(&(ty, init))
    }
}
