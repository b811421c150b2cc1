//! The fields of a module: functions, tables, memories, globals, tags and exports.

ghost use Rattle.std.specs.Prelude.{◌≡◌, [], Some, None, false};
ghost use Rattle.wast_tree_nodes.specs.Hints.{with_hints};
ghost use Rattle.wast_tree_nodes.specs.Sites.{exported_space};
ghost use Rattle.wast_tree_nodes.specs.Tree.func;
ghost use Rattle.wast_tree_nodes.specs.Tree.table;
ghost use Rattle.wast_tree_nodes.specs.Tree.memory;
ghost use Rattle.wast_tree_nodes.specs.Tree.global;
ghost use Rattle.wast_tree_nodes.specs.Tree.tag;
ghost use Rattle.wast_tree_nodes.specs.Tree.tag_kind;

use crate::customs::Custom;
use crate::entities::{GlobalType, MemoryType, TableType, TagType};
use crate::imports::Imports;
use crate::instrs::{BranchHint, Expression, Instruction};
use crate::segments::{Data, DataVal, Elem, ElemPayload};
use crate::types::{FunctionType, Rec, RefType, Type, TypeUse, ValType};
use std::alloc;
use wast_base::{Id, Index, NameAnnotation, Seq, Space, Span};

/// A field of a module (text format: modules).
///
///     let stop = Tag::new(alloc, at(225), id("stop", 229), TypeUse::none());
///     make.push_field(&mut fields, ModuleField::Tag(stop));
#[derive(Debug, Drop)]
pub enum ModuleField<'a> {
    /// `(type ..)`
    Ty(Type<'a>),
    /// `(rec ..)`
    Rec(Rec<'a>),
    /// `(import ..)`
    Import(Imports<'a>),
    /// `(func ..)`
    Func(Func<'a>),
    /// `(table ..)`
    Table(Table<'a>),
    /// `(memory ..)`
    Memory(Memory<'a>),
    /// `(global ..)`
    Global(Global<'a>),
    /// `(export ..)`
    Export(Export<'a>),
    /// `(start ..)`
    Start(Index<'a>),
    /// `(elem ..)`
    Elem(Elem<'a>),
    /// `(data ..)`
    Data(Data<'a>),
    /// `(tag ..)`
    Tag(Tag<'a>),
    /// `(@custom ..)`, `(@producers ..)` or `(@dylink.0 ..)`
    Custom(Custom<'a>),
}

/// The inline exports of a field, such as `(export "a")` within `(func ..)` (text format: exports).
#[derive(Debug, Drop)]
pub struct InlineExport<'a> {
    /// The names, in source order.
    pub names: Seq<&'a str>,
}

impl<'a> InlineExport<'a> {
    /// Makes an empty list of inline exports.
    pub fn none(alloc: alloc::Global) -> InlineExport<'a>
        ensures { result ≡ record { names = [] } }
    {
        InlineExport {
            names: Seq::new(alloc),
        }
    }
}

/// An inline import, such as `(import "a" "b")` within `(func ..)` (text format: imports).
#[derive(Clone, Copy, Debug, PartialEq, Eq)]
pub struct InlineImport<'a> {
    /// The name of the module.
    pub module: &'a str,
    /// The name of the item in that module.
    pub field: &'a str,
}

impl<'a> InlineImport<'a> {
    /// Makes the inline import `(import "a" "b")`, from the names of the module and the item.
    pub fn new(module: &'a str, field: &'a str) -> InlineImport<'a>
        ensures { result ≡ record { «module» = «module».entry; field = field.entry } }
    {
        InlineImport { module, field }
    }
}

/// A function, such as `(func $f (type $t) ..)` (text format: functions).
///
/// # Example
///
/// A function that is exported as `read`, with the name `byte` for the name section:
///
///     let func = Func::new(alloc, at(239), id("read", 244), ty, locals, body);
///     let names: [&'a str; 1] = ["read"];
///     func.with_name("byte").with_exports(make.exports(&names))
#[derive(Debug, Drop)]
pub struct Func<'a> {
    /// The position of its keyword.
    pub span: Span,
    /// Its id, if it has one.
    pub id: Option<Id<'a>>,
    /// Its name annotation, if it has one.
    pub name: Option<NameAnnotation<'a>>,
    /// Its inline exports.
    pub exports: InlineExport<'a>,
    /// Its locals and body, or its inline import.
    pub kind: FuncKind<'a>,
    /// Its type.
    pub ty: TypeUse<'a, FunctionType<'a>>,
}

impl<'a> Func<'a> {
    /// Makes `(func $f ..)` with a type use, locals and a body (text format: functions).
    pub fn new(
        alloc: alloc::Global,
        span: Span,
        id: Option<Id<'a>>,
        ty: TypeUse<'a, FunctionType<'a>>,
        locals: Seq<Local<'a>>,
        instrs: Seq<Instruction<'a>>,
    ) -> Func<'a>
        ensures { result ≡ record { span = span; id = id.entry; name = None; exports = record { names = [] }; kind = func.Inline locals.entry (record { instrs = instrs.entry; branch_hints = [] }); ty = ty.entry } }
    {
        Func {
            span,
            id,
            name: None,
            exports: InlineExport::none(alloc),
            kind: FuncKind::Inline {
                locals,
                expression: Expression::new(alloc, instrs),
            },
            ty,
        }
    }

    /// Makes `(func $f (import "a" "b") ..)`, a function with an inline import.
    pub fn imported(
        alloc: alloc::Global,
        span: Span,
        id: Option<Id<'a>>,
        import: InlineImport<'a>,
        ty: TypeUse<'a, FunctionType<'a>>,
    ) -> Func<'a>
        ensures { result ≡ record { span = span; id = id.entry; name = None; exports = record { names = [] }; kind = func.Import import.entry false; ty = ty.entry } }
    {
        Func {
            span,
            id,
            name: None,
            exports: InlineExport::none(alloc),
            kind: FuncKind::Import(import, false),
            ty,
        }
    }

    /// Returns the function with the name annotation `(@name "..")` instead of the one that it had.
    pub fn with_name(self, name: &'a str) -> Func<'a>
        ensures { result ≡ record self.entry { name = Some (record { name = name.entry }) } }
    {
        let name = Some(NameAnnotation { name });
        Func { name, ..self }
    }

    /// Returns the function with these inline exports. Those that it had are dropped.
    pub fn with_exports(self, exports: InlineExport<'a>) -> Func<'a>
        ensures { result ≡ record self.entry { exports = exports.entry } }
    {
        Func { exports, ..self }
    }

    /// Returns the function with these branch hints in its body. Those that it had are dropped.
    ///
    /// A function with an inline import has no body and is returned unchanged.
    ///
    /// # Example
    ///
    ///     let func = Func::new(alloc, at(9), None, none, Seq::new(alloc), instrs);
    ///     let hints = maker.hints(hints);
    ///     one(alloc, maker, ModuleField::Func(func.with_hints(hints)))
    pub fn with_hints(self, hints: Seq<BranchHint>) -> Func<'a>
        ensures { result ≡ record self.entry { kind = with_hints hints self.entry.kind } }
    {
        Func {
            kind: self.kind.with_hints(hints),
            ..self
        }
    }
}

/// The locals and body of a function, or its inline import (text format: functions).
#[derive(Debug, Drop)]
pub enum FuncKind<'a> {
    /// An inline import, and whether the type of the function is `exact` (custom descriptors).
    Import(InlineImport<'a>, bool),
    /// Locals and a body.
    Inline {
        /// The locals, in source order.
        locals: Seq<Local<'a>>,
        /// The body.
        expression: Expression<'a>,
    },
}

impl<'a> FuncKind<'a> {
    /// Returns it with these branch hints in its body, if it has one.
    fn with_hints(self, hints: Seq<BranchHint>) -> FuncKind<'a>
        ensures { result ≡ with_hints hints self.entry }
    {
        match self {
            FuncKind::Inline { locals, expression } => {
                let expression = expression.with_hints(hints);
                FuncKind::Inline { locals, expression }
            }
            FuncKind::Import(import, exact) => {
                drop(hints);
                FuncKind::Import(import, exact)
            }
        }
    }
}

/// A local of a function, such as `(local $x i32)` (text format: functions).
///
///     let locals = make.locals(&[Local::new(id("address", 342), I32)]);
#[derive(Clone, Copy, Debug, PartialEq, Eq)]
pub struct Local<'a> {
    /// Its id, if it has one.
    pub id: Option<Id<'a>>,
    /// Its name annotation, if it has one.
    pub name: Option<NameAnnotation<'a>>,
    /// Its type.
    pub ty: ValType<'a>,
}

impl<'a> Local<'a> {
    /// Makes `(local $x ..)`.
    pub fn new(id: Option<Id<'a>>, ty: ValType<'a>) -> Local<'a>
        ensures { result ≡ record { id = id.entry; name = None; ty = ty.entry } }
    {
        Local { id, name: None, ty }
    }
}

/// A table, such as `(table $t 1 funcref)` (text format: tables).
///
/// # Example
///
/// `(table $calls funcref (elem $ready $read))`:
///
///     let elems = ElemPayload::Indices(make.indices(&[index("ready", 131), index("read", 138)]));
///     let calls = Table::inline(alloc, at(104), id("calls", 110), RefType::funcref(), elems);
///     make.push_field(&mut fields, ModuleField::Table(calls));
#[derive(Debug, Drop)]
pub struct Table<'a> {
    /// The position of its keyword.
    pub span: Span,
    /// Its id, if it has one.
    pub id: Option<Id<'a>>,
    /// Its name annotation, if it has one.
    pub name: Option<NameAnnotation<'a>>,
    /// Its inline exports.
    pub exports: InlineExport<'a>,
    /// Its type, inline elements or inline import.
    pub kind: TableKind<'a>,
}

impl<'a> Table<'a> {
    /// Makes `(table $t ..)` of a table type, without an initial value (text format: tables).
    pub fn new(alloc: alloc::Global, span: Span, id: Option<Id<'a>>, ty: TableType<'a>) -> Table<'a>
        ensures { result ≡ record { span = span; id = id.entry; name = None; exports = record { names = [] }; kind = table.Normal ty.entry None } }
    {
        Table {
            span,
            id,
            name: None,
            exports: InlineExport::none(alloc),
            kind: TableKind::Normal {
                ty,
                init_expr: None,
            },
        }
    }

    /// Makes `(table $t funcref (elem ..))`, a table with inline elements and 32-bit indices.
    pub fn inline(
        alloc: alloc::Global,
        span: Span,
        id: Option<Id<'a>>,
        elem: RefType<'a>,
        payload: ElemPayload<'a>,
    ) -> Table<'a>
        ensures { result ≡ record { span = span; id = id.entry; name = None; exports = record { names = [] }; kind = table.Inline elem.entry false false payload.entry } }
    {
        Table {
            span,
            id,
            name: None,
            exports: InlineExport::none(alloc),
            kind: TableKind::Inline {
                elem,
                is64: false,
                shared: false,
                payload,
            },
        }
    }
}

/// The type of a table, its inline elements or its inline import (text format: tables).
#[derive(Debug, Drop)]
pub enum TableKind<'a> {
    /// An inline import.
    Import {
        /// The names of the module and the item.
        import: InlineImport<'a>,
        /// Its type.
        ty: TableType<'a>,
    },
    /// A type, and an initial value.
    Normal {
        /// Its type.
        ty: TableType<'a>,
        /// The initial value of each element, if there is one.
        init_expr: Option<Expression<'a>>,
    },
    /// Inline elements, as many as the table has.
    Inline {
        /// The type of its elements.
        elem: RefType<'a>,
        /// Whether indices have 64 bits.
        is64: bool,
        /// Whether it is `shared`.
        shared: bool,
        /// The elements.
        payload: ElemPayload<'a>,
    },
}

/// A memory, such as `(memory $m 1)` (text format: memories).
///
///     let bytes = Memory::inline(alloc, at(149), id("bytes", 156), make.string(b"ready"));
///     make.push_field(&mut fields, ModuleField::Memory(bytes));
#[derive(Debug, Drop)]
pub struct Memory<'a> {
    /// The position of its keyword.
    pub span: Span,
    /// Its id, if it has one.
    pub id: Option<Id<'a>>,
    /// Its name annotation, if it has one.
    pub name: Option<NameAnnotation<'a>>,
    /// Its inline exports.
    pub exports: InlineExport<'a>,
    /// Its type, inline data or inline import.
    pub kind: MemoryKind<'a>,
}

impl<'a> Memory<'a> {
    /// Makes `(memory $m ..)` of a memory type.
    pub fn new(alloc: alloc::Global, span: Span, id: Option<Id<'a>>, ty: MemoryType) -> Memory<'a>
        ensures { result ≡ record { span = span; id = id.entry; name = None; exports = record { names = [] }; kind = memory.Normal ty } }
    {
        Memory {
            span,
            id,
            name: None,
            exports: InlineExport::none(alloc),
            kind: MemoryKind::Normal(ty),
        }
    }

    /// Makes `(memory $m (data ..))`, a memory with inline data (text format: memories).
    ///
    /// Its addresses have 32 bits and its pages 65,536 bytes.
    pub fn inline(
        alloc: alloc::Global,
        span: Span,
        id: Option<Id<'a>>,
        bytes: Seq<DataVal<'a>>,
    ) -> Memory<'a>
        ensures { result ≡ record { span = span; id = id.entry; name = None; exports = record { names = [] }; kind = memory.Inline false bytes.entry None } }
    {
        Memory {
            span,
            id,
            name: None,
            exports: InlineExport::none(alloc),
            kind: MemoryKind::Inline {
                is64: false,
                bytes,
                page_size_log2: None,
            },
        }
    }

    /// Makes `(memory $m (import "a" "b") ..)`, a memory with an inline import.
    pub fn imported(
        alloc: alloc::Global,
        span: Span,
        id: Option<Id<'a>>,
        import: InlineImport<'a>,
        ty: MemoryType,
    ) -> Memory<'a>
        ensures { result ≡ record { span = span; id = id.entry; name = None; exports = record { names = [] }; kind = memory.Import import.entry ty } }
    {
        Memory {
            span,
            id,
            name: None,
            exports: InlineExport::none(alloc),
            kind: MemoryKind::Import { import, ty },
        }
    }

    /// Returns the memory with the name annotation `(@name "..")` instead of the one that it had.
    pub fn with_name(self, name: &'a str) -> Memory<'a>
        ensures { result ≡ record self.entry { name = Some (record { name = name.entry }) } }
    {
        let name = Some(NameAnnotation { name });
        Memory { name, ..self }
    }

    /// Returns the memory with these inline exports. Those that it had are dropped.
    pub fn with_exports(self, exports: InlineExport<'a>) -> Memory<'a>
        ensures { result ≡ record self.entry { exports = exports.entry } }
    {
        Memory { exports, ..self }
    }
}

/// The type of a memory, its inline data or its inline import (text format: memories).
#[derive(Debug, Drop)]
pub enum MemoryKind<'a> {
    /// An inline import.
    Import {
        /// The names of the module and the item.
        import: InlineImport<'a>,
        /// Its type.
        ty: MemoryType,
    },
    /// A memory type.
    Normal(MemoryType),
    /// Inline data. The memory has as many pages as the data needs.
    Inline {
        /// Whether addresses have 64 bits.
        is64: bool,
        /// The data, in pieces that follow one another.
        bytes: Seq<DataVal<'a>>,
        /// The exponent of the page size; a page has 65,536 bytes if `None` (custom page sizes).
        page_size_log2: Option<u32>,
    },
}

/// A global, such as `(global $g (mut i32) (i32.const 0))` (text format: globals).
///
/// The example imports it as `GlobalField`, because the allocator of `std` is named `Global` too.
///
/// # Example
///
///     let zero = make.one_instruction(i32_const(0));
///     let ty = GlobalType::new(I32, true);
///     let closed = GlobalField::new(alloc, at(182), id("closed", 189), ty, zero);
///     make.push_field(&mut fields, ModuleField::Global(closed));
#[derive(Debug, Drop)]
pub struct Global<'a> {
    /// The position of its keyword.
    pub span: Span,
    /// Its id, if it has one.
    pub id: Option<Id<'a>>,
    /// Its name annotation, if it has one.
    pub name: Option<NameAnnotation<'a>>,
    /// Its inline exports.
    pub exports: InlineExport<'a>,
    /// Its type.
    pub ty: GlobalType<'a>,
    /// Its initial value, or its inline import.
    pub kind: GlobalKind<'a>,
}

impl<'a> Global<'a> {
    /// Makes `(global $g ..)` of a type and an initial value (text format: globals).
    pub fn new(
        alloc: alloc::Global,
        span: Span,
        id: Option<Id<'a>>,
        ty: GlobalType<'a>,
        init: Expression<'a>,
    ) -> Global<'a>
        ensures { result ≡ record { span = span; id = id.entry; name = None; exports = record { names = [] }; ty = ty.entry; kind = global.Inline init.entry } }
    {
        Global {
            span,
            id,
            name: None,
            exports: InlineExport::none(alloc),
            ty,
            kind: GlobalKind::Inline(init),
        }
    }
}

/// The initial value of a global, or its inline import (text format: globals).
#[derive(Debug, Drop)]
pub enum GlobalKind<'a> {
    /// An inline import.
    Import(InlineImport<'a>),
    /// The initial value, a constant expression.
    Inline(Expression<'a>),
}

/// A tag, such as `(tag $t (param i32))` (text format: tags).
///
///     let stop = Tag::new(alloc, at(225), id("stop", 229), TypeUse::none());
///     make.push_field(&mut fields, ModuleField::Tag(stop));
#[derive(Debug, Drop)]
pub struct Tag<'a> {
    /// The position of its keyword.
    pub span: Span,
    /// Its id, if it has one.
    pub id: Option<Id<'a>>,
    /// Its name annotation, if it has one.
    pub name: Option<NameAnnotation<'a>>,
    /// Its inline exports.
    pub exports: InlineExport<'a>,
    /// Its type.
    pub ty: TagType<'a>,
    /// Whether it is defined here, or its inline import.
    pub kind: TagKind<'a>,
}

impl<'a> Tag<'a> {
    /// Makes `(tag $t ..)`, a tag for exceptions.
    pub fn new(
        alloc: alloc::Global,
        span: Span,
        id: Option<Id<'a>>,
        ty: TypeUse<'a, FunctionType<'a>>,
    ) -> Tag<'a>
        ensures { result ≡ record { span = span; id = id.entry; name = None; exports = record { names = [] }; ty = tag.Exception ty.entry; kind = tag_kind.Inline } }
    {
        Tag {
            span,
            id,
            name: None,
            exports: InlineExport::none(alloc),
            ty: TagType::Exception(ty),
            kind: TagKind::Inline,
        }
    }
}

/// Whether a tag is defined in the module or imported inline (text format: tags).
#[derive(Clone, Copy, Debug, PartialEq, Eq)]
pub enum TagKind<'a> {
    /// An inline import.
    Import(InlineImport<'a>),
    /// Defined in the module.
    Inline,
}

/// The kind of an exported item (text format: exports).
#[derive(Clone, Copy, Debug, PartialEq, Eq)]
pub enum ExportKind {
    /// A function.
    Func,
    /// A table.
    Table,
    /// A memory.
    Memory,
    /// A global.
    Global,
    /// A tag.
    Tag,
}

impl ExportKind {
    /// Returns the index space of the exported item.
    pub fn space(self) -> Space
        ensures { result ≡ exported_space self }
    {
        match self {
            ExportKind::Func => Space::Func,
            ExportKind::Table => Space::Table,
            ExportKind::Memory => Space::Memory,
            ExportKind::Global => Space::Global,
            ExportKind::Tag => Space::Tag,
        }
    }
}

/// An export, such as `(export "a" (func $f))` (text format: exports).
///
///     let export = Export::new(at(9), "a", ExportKind::Func, Index::Id(id));
///     one(alloc, maker, ModuleField::Export(export))
#[derive(Clone, Copy, Debug, PartialEq, Eq)]
pub struct Export<'a> {
    /// The position of its keyword.
    pub span: Span,
    /// The name of the export.
    pub name: &'a str,
    /// The kind of the item.
    pub kind: ExportKind,
    /// The exported item.
    pub item: Index<'a>,
}

impl<'a> Export<'a> {
    /// Makes `(export "a" ..)`.
    pub fn new(span: Span, name: &'a str, kind: ExportKind, item: Index<'a>) -> Export<'a>
        ensures { result ≡ record { span = span; name = name.entry; kind = kind; item = item.entry } }
    {
        Export {
            span,
            name,
            kind,
            item,
        }
    }
}
