//! Sections that are lists, and those of types, functions, exports and code.

ghost use Rattle.std.specs.Prelude.{◌≡◌, ◌+◌, ◌++◌, length, refl, IsTrue};
ghost use Rattle.std.specs.List.{list_all};
ghost use Rattle.wasm_ops.specs.Leb128.{unsigned};
ghost use Rattle.wasm_ops.specs.Spelling.{InRangeU32, InRangeName, sub_type};
ghost use Rattle.wasm_out.specs.Built.{Adds, behind_count};
ghost use Rattle.wasm_out.specs.Bodies.{SpellsBody};
ghost use Rattle.wasm_out.specs.Parts.{SectionKind, section_id, Group, export_entry, type_entry};
ghost use Rattle.wasm_out.specs.Parts as parts;

use crate::bodies::Function;
use crate::built_items::BuiltItems;
use crate::sections::{Build, CODE_ID, EXPORT_ID, FUNCTION_ID, Section, TYPE_ID};
use std::alloc::Global;
use std::marker::{Model, PhantomData};
use wasm_ops::{AsItself, Counted, Encode, ExportKind, Name, Raw, SubType, WithLength};
use wast_base::Error;

/// A marker for a kind of section whose content is a list.
///
/// For example, [`Types`] is the marker of [`TypeSection`].
pub trait ListKind {
    /// The kind in the definitions.
    ghost kind: { SectionKind };

    /// Returns the id of the section (binary format: sections).
    fn id() -> u8
        ensures { result ≡ section_id kind };
}

/// A section whose content is a list (binary format: sections).
///
/// Its model in contracts is the number of items and their bytes. The names [`TypeSection`],
/// [`CodeSection`] and so on are this type, and each has its own methods to add items.
///
///     let mut functions = FunctionSection::new(alloc);
///     functions.function(0)?;
#[derive(Debug, Drop)]
pub struct ListSection<K: ListKind> {
    pub(crate) items: BuiltItems,
    kind: PhantomData<K>,
}

impl<K: ListKind> Model for ListSection<K> {
    ghost use Rattle.wasm_out.specs.Built.{Built};

    ghost Value = { Built };

    ghost view = { λ s. s.items };
}

impl<K: ListKind> Section for ListSection<K> {
    ghost number = { λ _. section_id K.kind };

    ghost payload = { behind_count };

    ghost in_range = { λ _. Unit {0} };

    fn id(&self) -> u8 {
        K::id()
    }

    fn append_to<'e>(&self, out: &mut Vec<u8>) -> Result<(), Error<'e>> {
        Ok(self.items.encode(out)?)
    }
}

impl<K: ListKind> Build for ListSection<K> {
    ghost built = { λ s. s };

    fn new(alloc: Global) -> Self {
        ListSection {
            items: BuiltItems::new(alloc),
            kind: PhantomData,
        }
    }

    fn is_empty(&self) -> bool {
        self.items.is_empty()
    }

    ghost is_list = { λ s. refl };
}

/// The kind of type sections.
#[derive(Clone, Copy, Debug)]
pub struct Types;

impl ListKind for Types {
    ghost kind = { parts.Types };

    fn id() -> u8 {
        TYPE_ID
    }
}

/// The type section (binary format: type section).
pub type TypeSection = ListSection<Types>;

impl TypeSection {
    /// Adds a type definition that is not in a `rec` group (binary format: type section).
    ///
    ///     let mut types = TypeSection::new(alloc);
    ///     types.subtype(&function_type(alloc)?)?;
    ///
    /// Test [`SubType::is_covered`] first.
    pub fn subtype<'e>(&mut self, ty: &SubType) -> Result<(), Error<'e>>
        requires { IsTrue (sub_type ty.now).is_covered }
        ensures { Adds (InRangeU32 (self.old.count + 1) × (sub_type ty.now).in_range) self.old self.new
            (sub_type ty.now).bytes result }
    {
        self.items.push(ty)
    }

    /// Adds a `rec` group of type definitions, which may refer to one another (binary format: type
    /// section).
    ///
    ///     let group = [plain(alloc, true), plain(alloc, false)];
    ///     section.rec(&group)?;
    ///
    /// Test [`SubType::is_covered`] of each type first.
    pub fn rec<'e>(&mut self, types: &[SubType]) -> Result<(), Error<'e>>
        requires { IsTrue (list_all (λ x. (sub_type x).is_covered) types.now) }
        ensures { Adds (InRangeU32 (self.old.count + 1) × (type_entry (Group types.now)).in_range) self.old self.new
            (type_entry (Group types.now)).bytes result }
    {
        self.items.push(&(0x4eu8, Counted(types, AsItself)))
    }
}

/// The kind of function sections.
#[derive(Clone, Copy, Debug)]
pub struct Functions;

impl ListKind for Functions {
    ghost kind = { parts.Functions };

    fn id() -> u8 {
        FUNCTION_ID
    }
}

/// The function section: the type of each function (binary format: function section).
pub type FunctionSection = ListSection<Functions>;

impl FunctionSection {
    /// Adds a function of the type at an index.
    ///
    ///     functions.function(0)?;
    pub fn function<'e>(&mut self, type_index: u32) -> Result<(), Error<'e>>
        ensures { Adds (InRangeU32 (self.old.count + 1)) self.old self.new (unsigned type_index) result }
    {
        self.items.push(&type_index)
    }
}

/// The kind of export sections.
#[derive(Clone, Copy, Debug)]
pub struct Exports;

impl ListKind for Exports {
    ghost kind = { parts.Exports };

    fn id() -> u8 {
        EXPORT_ID
    }
}

/// The export section (binary format: export section).
pub type ExportSection = ListSection<Exports>;

impl ExportSection {
    /// Adds an export: a name, and the kind and index of the exported item.
    ///
    ///     exports.export("sum", ExportKind::Func, 0)?;
    pub fn export<'e>(&mut self, text: &str, kind: ExportKind, index: u32) -> Result<(), Error<'e>>
        ensures { Adds (InRangeU32 (self.old.count + 1) × InRangeName text.now) self.old self.new
            (export_entry (record { name = text.now; kind = kind; index = index })).bytes result }
    {
        self.items.push(&(Name(text), (kind, index)))
    }
}

/// The kind of code sections.
#[derive(Clone, Copy, Debug)]
pub struct Code;

impl ListKind for Code {
    ghost kind = { parts.Code };

    fn id() -> u8 {
        CODE_ID
    }
}

/// The code section: the body of each function (binary format: code section).
pub type CodeSection = ListSection<Code>;

impl CodeSection {
    /// Adds a function body, after its length in bytes. Call [`Function::end`] on it first.
    ///
    ///     let mut code = CodeSection::new(alloc);
    ///     code.function(&body(alloc)?)?;
    pub fn function<'e>(&mut self, function: &Function) -> Result<(), Error<'e>>
        requires { SpellsBody function.now }
        ensures { Adds (InRangeU32 (self.old.count + 1) × InRangeU32 (length function.now)) self.old self.new
            (unsigned (length function.now) ++ function.now) result }
    {
        self.items.push(&WithLength(Raw(function.as_bytes())))
    }

    /// Returns how many bytes were added, without the number of bodies.
    ///
    ///     assert!(rt; body.byte_len() == 8 && section.byte_len() == 9);
    pub fn byte_len(&self) -> usize
        ensures { result ≡ length self.now.bytes }
    {
        self.items.byte_len()
    }
}
