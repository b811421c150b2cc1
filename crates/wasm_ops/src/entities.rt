//! The types of tables, memories, globals, tags and imports.

ghost use Rattle.std.specs.Prelude.{◌≡◌, true};
ghost use Rattle.wasm_ops.specs.Entities.{limits_flags, limits, entity_type, global_type, memory_type, table_type, tag_type};

use crate::encode::Encode;
use crate::ref_types::RefType;
use crate::sink::{Refusal, Sink};
use crate::types::ValType;

/// Returns the first byte of limits, from its four flags (binary format: limits).
fn limits_flags(maximum: bool, shared: bool, wide: bool, page: bool) -> u8
    ensures { result ≡ limits_flags maximum shared wide page }
{
    u8::from(maximum) + 2 * u8::from(shared) + 4 * u8::from(wide) + 8 * u8::from(page)
}

/// The size of a table or a memory (binary format: limits).
#[derive(Clone, Copy)]
struct Limits {
    shared: bool,
    wide: bool,
    minimum: u64,
    maximum: Option<u64>,
    page_size_log2: Option<u32>,
}

impl Encode for Limits {
    ghost spelling = { λ l. (limits l.shared l.wide l.minimum l.maximum l.page_size_log2).bytes };

    ghost in_range = { λ l. (limits l.shared l.wide l.minimum l.maximum l.page_size_log2).in_range };

    ghost is_ready = { λ _. true };

    fn encode<S: Sink>(&self, out: &mut S) -> Result<(), Refusal> {
        let flags = limits_flags(
            self.maximum.is_some(),
            self.shared,
            self.wide,
            self.page_size_log2.is_some(),
        );
        (flags, (self.minimum, (self.maximum, self.page_size_log2))).encode(out)
    }
}

/// A table type (binary format: table types).
///
/// For example, `(table 1 funcref)` has the type `70 00 01`.
#[derive(Clone, Copy, Debug, PartialEq, Eq)]
pub struct TableType {
    /// The type of the elements.
    pub element_type: RefType,
    /// The minimum number of elements.
    pub minimum: u64,
    /// The maximum number of elements.
    pub maximum: Option<u64>,
    /// Whether indices into it have 64 bits.
    pub table64: bool,
    /// Whether it is shared.
    pub shared: bool,
}

impl TableType {
    /// Returns whether the encoder supports it: an unshared table with a supported element type.
    pub fn is_covered(&self) -> bool
        ensures { result ≡ (table_type self.now).is_covered }
    {
        !self.shared && self.element_type.is_covered()
    }
}

impl Encode for TableType {
    ghost spelling = { λ x. (table_type x).bytes };

    ghost in_range = { λ x. (table_type x).in_range };

    ghost is_ready = { λ x. (table_type x).is_covered };

    fn encode<S: Sink>(&self, out: &mut S) -> Result<(), Refusal> {
        let limits = Limits {
            shared: self.shared,
            wide: self.table64,
            minimum: self.minimum,
            maximum: self.maximum,
            page_size_log2: None,
        };
        (self.element_type, limits).encode(out)
    }
}

/// A memory type (binary format: memory types).
///
/// For example, `(memory 1 2)` has the type `01 01 02`.
#[derive(Clone, Copy, Debug, PartialEq, Eq)]
pub struct MemoryType {
    /// The minimum number of pages.
    pub minimum: u64,
    /// The maximum number of pages.
    pub maximum: Option<u64>,
    /// Whether addresses have 64 bits.
    pub memory64: bool,
    /// Whether it is shared.
    pub shared: bool,
    /// The binary logarithm of the page size; without it, a page has 65,536 bytes (custom page
    /// sizes).
    pub page_size_log2: Option<u32>,
}

impl MemoryType {
    /// Returns whether the encoder supports it: always. It writes the page size unchecked.
    pub fn is_covered(&self) -> bool
        ensures { result ≡ (memory_type self.now).is_covered }
    {
        true // since no memory type is a form that is not covered
    }
}

impl Encode for MemoryType {
    ghost spelling = { λ x. (memory_type x).bytes };

    ghost in_range = { λ x. (memory_type x).in_range };

    ghost is_ready = { λ x. (memory_type x).is_covered };

    fn encode<S: Sink>(&self, out: &mut S) -> Result<(), Refusal> {
        let limits = Limits {
            shared: self.shared,
            wide: self.memory64,
            minimum: self.minimum,
            maximum: self.maximum,
            page_size_log2: self.page_size_log2,
        };
        limits.encode(out)
    }
}

/// A global type (binary format: global types).
///
/// For example, `(mut i32)` is `7f 01`.
#[derive(Clone, Copy, Debug, PartialEq, Eq)]
pub struct GlobalType {
    /// The type of the value.
    pub val_type: ValType,
    /// Whether the global is mutable.
    pub mutable: bool,
    /// Whether it is shared.
    pub shared: bool,
}

impl GlobalType {
    /// Returns whether the encoder supports it: an unshared global with a supported value type.
    pub fn is_covered(&self) -> bool
        ensures { result ≡ (global_type self.now).is_covered }
    {
        !self.shared && self.val_type.is_covered()
    }
}

impl Encode for GlobalType {
    ghost spelling = { λ x. (global_type x).bytes };

    ghost in_range = { λ x. (global_type x).in_range };

    ghost is_ready = { λ x. (global_type x).is_covered };

    fn encode<S: Sink>(&self, out: &mut S) -> Result<(), Refusal> {
        (self.val_type, u8::from(self.mutable)).encode(out)
    }
}

/// A tag type (binary format: tag types).
///
/// For example, a tag with function type 5 is `00 05`.
#[derive(Clone, Copy, Debug, PartialEq, Eq)]
pub struct TagType {
    /// The index of a function type, whose parameters are the values of the exception.
    pub func_type_idx: u32,
}

impl TagType {
    /// Returns whether the encoder supports it: always.
    pub fn is_covered(&self) -> bool
        ensures { result ≡ (tag_type self.now).is_covered }
    {
        true // since no tag type is a form that is not covered
    }
}

impl Encode for TagType {
    ghost spelling = { λ x. (tag_type x).bytes };

    ghost in_range = { λ x. (tag_type x).in_range };

    ghost is_ready = { λ x. (tag_type x).is_covered };

    fn encode<S: Sink>(&self, out: &mut S) -> Result<(), Refusal> {
        (0x00u8, self.func_type_idx).encode(out)
    }
}

/// The type of an import (binary format: external types).
///
/// For example, a function with type 2 is `00 02`.
#[derive(Clone, Copy, Debug, PartialEq, Eq)]
pub enum EntityType {
    /// A function of the type at an index, or of a subtype.
    Function(u32),
    /// A function of the type at an index, and of no subtype.
    FunctionExact(u32),
    /// A table.
    Table(TableType),
    /// A memory.
    Memory(MemoryType),
    /// A global.
    Global(GlobalType),
    /// A tag.
    Tag(TagType),
}

impl EntityType {
    /// Returns whether the encoder supports it: a supported type inside, and never an exact
    /// function.
    pub fn is_covered(&self) -> bool
        ensures { result ≡ (entity_type self.now).is_covered }
    {
        match self {
            EntityType::Function(_) => true,
            EntityType::FunctionExact(_) => false,
            EntityType::Table(ty) => ty.is_covered(),
            EntityType::Memory(ty) => ty.is_covered(),
            EntityType::Global(ty) => ty.is_covered(),
            EntityType::Tag(ty) => ty.is_covered(),
        }
    }
}

impl Encode for EntityType {
    ghost spelling = { λ x. (entity_type x).bytes };

    ghost in_range = { λ x. (entity_type x).in_range };

    ghost is_ready = { λ x. (entity_type x).is_covered };

    fn encode<S: Sink>(&self, out: &mut S) -> Result<(), Refusal> {
        match self {
            EntityType::Function(index) => (0x00u8, *index).encode(out),
            EntityType::FunctionExact(_) => unreachable!(),
            EntityType::Table(ty) => (0x01u8, *ty).encode(out),
            EntityType::Memory(ty) => (0x02u8, *ty).encode(out),
            EntityType::Global(ty) => (0x03u8, *ty).encode(out),
            EntityType::Tag(ty) => (0x04u8, *ty).encode(out),
        }
    }
}
