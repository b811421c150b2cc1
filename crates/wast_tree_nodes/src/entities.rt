//! The types of tables, memories, globals and tags.

ghost use Rattle.std.specs.Prelude.{◌≡◌, None, true, false};

use crate::types::{FunctionType, RefType, TypeUse, ValType};

/// The limits of a table or memory: a minimum, and an optional maximum (text format: limits).
///
///     let ty = TableType::new(Limits::new(0, None), RefType::funcref());
#[derive(Clone, Copy, Debug, PartialEq, Eq)]
pub struct Limits {
    /// Whether indices or addresses have 64 bits.
    pub is64: bool,
    /// The minimum, in elements or in pages.
    pub min: u64,
    /// The maximum, in elements or in pages.
    pub max: Option<u64>,
}

impl Limits {
    /// Makes limits of a table or memory with 32-bit indices.
    pub fn new(min: u64, max: Option<u64>) -> Limits
        ensures { result ≡ record { is64 = false; min = min; max = max } }
    {
        Limits {
            is64: false,
            min,
            max,
        }
    }

    /// Makes limits of a table or memory with 64-bit indices.
    pub fn wide(min: u64, max: Option<u64>) -> Limits
        ensures { result ≡ record { is64 = true; min = min; max = max } }
    {
        Limits {
            is64: true,
            min,
            max,
        }
    }
}

/// A table type, such as `1 2 funcref` (text format: table types).
#[derive(Clone, Copy, Debug, PartialEq, Eq)]
pub struct TableType<'a> {
    /// Its limits.
    pub limits: Limits,
    /// The type of its elements.
    pub elem: RefType<'a>,
    /// Whether it is `shared`.
    pub shared: bool,
}

impl<'a> TableType<'a> {
    /// Makes the type of a table that is not shared.
    pub fn new(limits: Limits, elem: RefType<'a>) -> TableType<'a>
        ensures { result ≡ record { limits = limits; elem = elem.entry; shared = false } }
    {
        TableType {
            limits,
            elem,
            shared: false,
        }
    }
}

/// A memory type, such as `1 2` (text format: memory types).
///
///     let ty = MemoryType::new(Limits::new(0, None));
#[derive(Clone, Copy, Debug, PartialEq, Eq)]
pub struct MemoryType {
    /// Its limits.
    pub limits: Limits,
    /// Whether it is `shared`.
    pub shared: bool,
    /// The exponent of the page size; a page has 65,536 bytes if `None` (custom page sizes).
    pub page_size_log2: Option<u32>,
}

impl MemoryType {
    /// Makes the type of a memory that is not shared, with pages of 65,536 bytes.
    pub fn new(limits: Limits) -> MemoryType
        ensures { result ≡ record { limits = limits; shared = false; page_size_log2 = None } }
    {
        MemoryType {
            limits,
            shared: false,
            page_size_log2: None,
        }
    }
}

/// A global type, such as `(mut i32)` (text format: global types).
///
///     let ty = GlobalType::new(I32, true);
#[derive(Clone, Copy, Debug, PartialEq, Eq)]
pub struct GlobalType<'a> {
    /// The type of its value.
    pub ty: ValType<'a>,
    /// Whether it is mutable.
    pub mutable: bool,
    /// Whether it is `shared`.
    pub shared: bool,
}

impl<'a> GlobalType<'a> {
    /// Makes the type of a global that is not shared.
    pub fn new(ty: ValType<'a>, mutable: bool) -> GlobalType<'a>
        ensures { result ≡ record { ty = ty.entry; mutable = mutable; shared = false } }
    {
        GlobalType {
            ty,
            mutable,
            shared: false,
        }
    }
}

/// A tag type (text format: tag types).
#[derive(Debug, Drop)]
pub enum TagType<'a> {
    /// The type of an exception tag. Its parameters are the values of the exception.
    Exception(TypeUse<'a, FunctionType<'a>>),
}
