//! Reads functions, tables, memories, globals, tags, imports and exports (text format: modules).

ghost use Rattle.std.specs.Prelude.{◌≡◌, true, false, None, Some, map, option_map};
ghost use Rattle.wat_tokens.specs.declared.words.Key.TheVariants as key;
ghost use Rattle.wat_syntax.specs.Tokens.{is_form, form};
ghost use Rattle.wat_syntax.specs.Modules.{head, inline_export, export_names, inline_exports, inline_import, unnamed_local};
ghost use Rattle.wat_syntax.specs.Modules.{unnamed_locals, locals_of, local, locals as locals_rule, tag_kind_of, tagfield, functype_of};
ghost use Rattle.wat_syntax.specs.Modules.{externtype_of, externtype, importfield, import_items_from, import_name, import_names};
ghost use Rattle.wat_syntax.specs.Modules.{import_item, import_items_of, import_group, export_kind, externidx_keyword, exportfield};
ghost use Rattle.wat_syntax.specs.Segments.{is_funcref};
ghost use Rattle.wat_syntax.specs.Fields.{imported_func, func_body, func_of, funcfield, inline_elements, init_expression};
ghost use Rattle.wat_syntax.specs.Fields.{table_of_type, table_of_elements, defined_table, table_of, tablefield, has_inline_data};
ghost use Rattle.wat_syntax.specs.Fields.{inline_data, defined_memory, memory_of, memoryfield, global_of, globalfield};
ghost use Rattle.wat_text.specs.Readers.{left, Reads, Decides, Expects, ReadsOnto, Pushes};
ghost use Rattle.wat_syntax.specs.Bare.{bare_ref, bare_text};
ghost use Rattle.wat_syntax.specs.BareFields.{bare_export, bare_exports, bare_func, bare_func_kind, bare_func_of, bare_global};
ghost use Rattle.wat_syntax.specs.BareFields.{bare_global_kind, bare_import, bare_import_item, bare_import_items, bare_imports};
ghost use Rattle.wat_syntax.specs.BareFields.{bare_item_kind, bare_item_sig, bare_local, bare_memory, bare_memory_kind};
ghost use Rattle.wat_syntax.specs.BareFields.{bare_payload, bare_table, bare_table_kind, bare_tag, bare_tag_kind};
ghost use Rattle.wat_syntax.specs.BareInstructions.{bare_expression};
ghost use Rattle.wat_text.specs.Heads.{bare_head};

use crate::reader::{Reader, fitted};
use wast_tree::{
    AbstractHeapType, ElemPayload, Export, ExportKind, Expression, Func, FuncKind, FunctionType,
    Global, GlobalKind, HeapType, Id, ImportItems, Imports, InlineExport, InlineImport, ItemKind,
    ItemSig, Local, Memory, MemoryKind, NameAnnotation, RefType, Seq, Span, Table, TableKind,
    TableType, Tag, TagKind, TagType, TypeUse,
};
use wat_tokens::{Key, TextFault};

/// The start of a field: the position of its keyword, its id, its name annotation and its inline
/// exports. For example, `func $f (export "a")`.
pub(crate) struct Head<'a> {
    pub span: Span,
    pub id: Option<Id<'a>>,
    pub name: Option<NameAnnotation<'a>>,
    pub exports: InlineExport<'a>,
}

/// Returns whether a reference type is `funcref`, which is `(ref null func)`.
pub(crate) fn is_funcref(ty: RefType<'_>) -> bool
    ensures { result ≡ is_funcref (bare_ref ty.entry) }
{
    let is_func = matches!(
        ty.heap,
        HeapType::Abstract {
            shared: false,
            ty: AbstractHeapType::Func
        }
    );
    ty.nullable && is_func
}

/// Returns the kind of a tag, which is imported if it has an inline import.
fn tag_kind<'a>(import: Option<InlineImport<'a>>) -> TagKind<'a>
    ensures { bare_tag_kind result ≡ tag_kind_of (option_map bare_import import.entry) }
{
    match import {
        Some(import) => TagKind::Import(import),
        None => TagKind::Inline,
    }
}

/// Returns what a keyword exports. For example, `func` exports a function.
fn export_kind(key: Option<Key>) -> Option<ExportKind>
    ensures { result ≡ export_kind key }
{
    match key {
        Some(Key::Func) => Some(ExportKind::Func),
        Some(Key::Table) => Some(ExportKind::Table),
        Some(Key::Memory) => Some(ExportKind::Memory),
        Some(Key::Global) => Some(ExportKind::Global),
        Some(Key::Tag) => Some(ExportKind::Tag),
        _ => None,
    }
}

impl<'a> Reader<'a> {
    /// Reads the keyword, the id, the name annotation and the inline exports of a field. The caller
    /// has checked the keyword.
    fn head(&mut self) -> Head<'a>
        ensures { Reads head self.old self.new (bare_head result) }
    {
        let span = self.place();
        self.skip();
        let (id, name) = (self.id(), self.name());
        let exports = self.exports();
        Head {
            span,
            id,
            name,
            exports,
        }
    }

    /// Reads `(export "a")` in a field.
    fn inline_export(&mut self) -> &'a str
        requires { is_form key.Export (left self.old) ≡ true }
        ensures { Decides inline_export self.old self.new (bare_text result) }
    {
        self.skip();
        self.skip();
        let name = self.text();
        self.close();
        name
    }

    /// Appends a name to a list.
    pub(crate) fn push_name(&mut self, names: &mut Seq<&'a str>, name: &'a str)
        ensures { Pushes self.old self.new name.entry names.old names.new }
    {
        let pushed = names.push(name);
        self.took(pushed);
    }

    /// Reads inline exports as long as one is next, and appends their names.
    #[tactic(auto, using(crate::proofs::Steps::one_bare, crate::proofs::Loops::part_end, crate::proofs::Loops::part_last, crate::proofs::Loops::none_after))]
    fn export_names(&mut self, names: &mut Seq<&'a str>)
        ensures { ReadsOnto export_names self.old self.new (map bare_text names.old) (map bare_text names.new) }
    {
        for _ in 0..self.left() {
            if !self.is_form(Key::Export) {
                break;
            }
            let name = self.inline_export();
            self.push_name(names, name);
        }
    }

    /// Reads the inline exports of a field, and returns their names (text format: exports). For
    /// example, `(export "a") (export "b")` has the names `a` and `b`.
    #[tactic(auto, using(crate::proofs::Loops::from_nothing))]
    fn exports(&mut self) -> InlineExport<'a>
        ensures { Reads inline_exports self.old self.new (bare_exports result) }
    {
        let mut names = Seq::new(self.alloc);
        self.export_names(&mut names);
        InlineExport { names }
    }

    /// Reads an inline import such as `(import "a" "b")`, if one is next (text format: imports,
    /// abbreviations).
    fn import(&mut self) -> Option<InlineImport<'a>>
        ensures { Decides inline_import self.old self.new (option_map bare_import result) }
    {
        if !self.accept_form(Key::Import) {
            return None;
        }
        let module = self.text();
        let field = self.text();
        self.close();
        Some(InlineImport { module, field })
    }

    /// Appends a local to a list.
    fn push_local(&mut self, locals: &mut Seq<Local<'a>>, local: Local<'a>)
        ensures { Pushes self.old self.new local.entry locals.old locals.new }
    {
        let pushed = locals.push(local);
        self.took(pushed);
    }

    /// Reads the type of a local without an id.
    fn unnamed_local(&mut self) -> Local<'a>
        ensures { Decides unnamed_local self.old self.new (bare_local result) }
    {
        let ty = self.value_type();
        Local::new(None, ty)
    }

    /// Reads the types of locals without ids, up to the closing `)`, and appends the locals.
    #[tactic(auto, using(crate::proofs::Steps::one_bare, crate::proofs::Loops::part_end, crate::proofs::Loops::part_last, crate::proofs::Loops::none_after))]
    fn unnamed_locals(&mut self, locals: &mut Seq<Local<'a>>)
        ensures { ReadsOnto unnamed_locals self.old self.new (map bare_local locals.old) (map bare_local locals.new) }
    {
        for _ in 0..self.left() {
            if self.is_end() {
                break;
            }
            let local = self.unnamed_local();
            self.push_local(locals, local);
        }
    }

    /// Reads what comes after `(local`, and appends the locals. They are one local with an id or a
    /// name annotation, as in `(local $x i32)`, or any number without, as in `(local i32 i64)`.
    fn locals_of(&mut self, locals: &mut Seq<Local<'a>>)
        ensures { ReadsOnto locals_of self.old self.new (map bare_local locals.old) (map bare_local locals.new) }
    {
        let (id, name) = (self.id(), self.name());
        if id.is_some() || name.is_some() {
            let ty = self.value_type();
            self.push_local(locals, Local { id, name, ty });
            return;
        }
        self.unnamed_locals(locals);
    }

    /// Reads `(local ..)`, and appends its locals.
    #[tactic(auto, using(crate::proofs::Loops::closes))]
    fn local(&mut self, locals: &mut Seq<Local<'a>>)
        requires { is_form key.Local (left self.old) ≡ true }
        ensures { ReadsOnto local self.old self.new (map bare_local locals.old) (map bare_local locals.new) }
    {
        self.skip();
        self.skip();
        self.locals_of(locals);
        self.close();
    }

    /// Reads forms `(local ..)` as long as one is next, and appends their locals.
    #[tactic(auto, using(crate::proofs::Steps::one_list, crate::proofs::Loops::list_end, crate::proofs::Loops::list_last, crate::proofs::Loops::none_after))]
    fn all_locals(&mut self, locals: &mut Seq<Local<'a>>)
        ensures { ReadsOnto locals_rule self.old self.new (map bare_local locals.old) (map bare_local locals.new) }
    {
        for _ in 0..self.left() {
            if !self.is_form(Key::Local) {
                break;
            }
            self.local(locals);
        }
    }

    /// Reads the locals of a function (text format: functions).
    #[tactic(auto, using(crate::proofs::Loops::from_nothing))]
    fn locals(&mut self) -> Seq<Local<'a>>
        ensures { Reads locals_rule self.old self.new (map bare_local result) }
    {
        let mut locals = Seq::new(self.alloc);
        self.all_locals(&mut locals);
        fitted(locals)
    }

    /// Reads the type use of a function with an inline import. It is in `(exact ..)` if the import
    /// is exact (custom descriptors proposal).
    fn imported_func(
        &mut self,
        import: InlineImport<'a>,
    ) -> (FuncKind<'a>, TypeUse<'a, FunctionType<'a>>)
        ensures { Reads (imported_func (bare_import import.entry)) self.old self.new (bare_func_of result) }
    {
        let exact = self.accept_form(Key::Exact);
        let ty = self.type_use(true);
        if exact {
            self.close();
        }
        (FuncKind::Import(import, exact), ty)
    }

    /// Reads the locals and the body of a function.
    fn func_body(&mut self) -> FuncKind<'a>
        ensures { Reads func_body self.old self.new (bare_func_kind result) }
    {
        let locals = self.locals();
        let expression = self.function_body();
        FuncKind::Inline { locals, expression }
    }

    /// Reads a function from its type use on. An imported function has no locals and no body.
    fn func_of(
        &mut self,
        import: Option<InlineImport<'a>>,
    ) -> (FuncKind<'a>, TypeUse<'a, FunctionType<'a>>)
        ensures { Reads (func_of (option_map bare_import import.entry)) self.old self.new (bare_func_of result) }
    {
        match import {
            Some(import) => self.imported_func(import),
            None => {
                let ty = self.type_use(true);
                (self.func_body(), ty)
            }
        }
    }

    /// Reads the field `(func ..)`, without its parentheses (text format: functions).
    pub fn func_field(&mut self) -> Func<'a>
        ensures { Reads funcfield self.old self.new (bare_func result) }
    {
        let Head {
            span,
            id,
            name,
            exports,
        } = self.head();
        let import = self.import();
        let (kind, ty) = self.func_of(import);
        Func {
            span,
            id,
            name,
            exports,
            kind,
            ty,
        }
    }

    /// Reads the elements inline in a table, after `(elem` (text format: tables, abbreviations).
    ///
    /// They are expressions, as in `(elem (ref.func $f))`, or functions by index, as in
    /// `(elem $f)`. In a table whose type is not `funcref`, functions by index become expressions,
    /// because a segment of function indices has no bytes for another type. For example,
    /// `(table (ref $t) (elem $f))` has the element `ref.func $f`.
    fn inline_elements(&mut self, ty: RefType<'a>) -> ElemPayload<'a>
        ensures { Reads (inline_elements (bare_ref ty.entry)) self.old self.new (bare_payload result) }
    {
        if self.is_open(0) {
            return self.expressions(ty);
        }
        match is_funcref(ty) {
            true => ElemPayload::Indices(self.functions()),
            false => self.function_expressions(ty),
        }
    }

    /// Reads the initial value of the elements of a table. Returns `None` if the closing `)` is
    /// next.
    fn init_expression(&mut self) -> Option<Expression<'a>>
        ensures { Reads init_expression self.old self.new (option_map bare_expression result) }
    {
        match self.is_end() {
            true => None,
            false => Some(self.expression()),
        }
    }

    /// Reads the limits, the element type and the initial value of a table, after its address type.
    /// For example, `1 funcref` of `(table i64 1 funcref)`.
    fn table_of_type(&mut self, shared: bool, is64: bool) -> TableKind<'a>
        ensures { Reads (table_of_type shared is64) self.old self.new (bare_table_kind result) }
    {
        let limits = self.limits(is64);
        let elem = self.ref_type();
        let ty = TableType {
            limits,
            elem,
            shared,
        };
        let init_expr = self.init_expression();
        TableKind::Normal { ty, init_expr }
    }

    /// Reads `(elem`, or fails.
    fn elem_form(&mut self)
        ensures { Expects (form key.Elem) self.old self.new }
    {
        if !self.accept_form(Key::Elem) {
            self.expected("`(elem`");
        }
    }

    /// Reads the element type and the inline elements of a table, after its address type (text
    /// format: tables, abbreviations). For example, `funcref (elem $f)`.
    fn table_of_elements(&mut self, shared: bool, is64: bool) -> TableKind<'a>
        ensures { Reads (table_of_elements shared is64) self.old self.new (bare_table_kind result) }
    {
        let elem = self.ref_type();
        self.elem_form();
        let payload = self.inline_elements(elem);
        self.close();
        TableKind::Inline {
            elem,
            is64,
            shared,
            payload,
        }
    }

    /// Reads a table without an inline import, from `shared` or its address type on (text format:
    /// tables). If a number is next, the table has limits. Otherwise it has inline elements.
    fn table_kind(&mut self) -> TableKind<'a>
        ensures { Reads defined_table self.old self.new (bare_table_kind result) }
    {
        let shared = self.accept(Key::Shared);
        let is64 = self.is64();
        match self.is_number(0) {
            true => self.table_of_type(shared, is64),
            false => self.table_of_elements(shared, is64),
        }
    }

    /// Reads a table after its inline import, if it has one. An imported table has only a table
    /// type.
    fn table_of(&mut self, import: Option<InlineImport<'a>>) -> TableKind<'a>
        ensures { Reads (table_of (option_map bare_import import.entry)) self.old self.new (bare_table_kind result) }
    {
        match import {
            Some(import) => TableKind::Import {
                import,
                ty: self.table_type(),
            },
            None => self.table_kind(),
        }
    }

    /// Reads the field `(table ..)`, without its parentheses (text format: tables).
    pub fn table_field(&mut self) -> Table<'a>
        ensures { Reads tablefield self.old self.new (bare_table result) }
    {
        let Head {
            span,
            id,
            name,
            exports,
        } = self.head();
        let import = self.import();
        let kind = self.table_of(import);
        Table {
            span,
            id,
            name,
            exports,
            kind,
        }
    }

    /// Returns whether a memory has inline data. It has if `(` is next, or is next after `i32` or
    /// `i64`.
    fn has_inline_data(&self) -> bool
        ensures { result ≡ has_inline_data (left self.now) }
    {
        match self.key(0) {
            Some(Key::I32 | Key::I64) => self.is_open(1),
            _ => self.is_open(0),
        }
    }

    /// Reads `(data`, or fails.
    fn data_form(&mut self)
        ensures { Expects (form key.Data) self.old self.new }
    {
        if !self.accept_form(Key::Data) {
            self.expected("`(data`");
        }
    }

    /// Reads a memory with inline data, from its address type on (text format: memories,
    /// abbreviations). For example, `i64 (pagesize 1) (data "a")`.
    fn inline_data(&mut self) -> MemoryKind<'a>
        ensures { Reads inline_data self.old self.new (bare_memory_kind result) }
    {
        let is64 = self.is64();
        let page_size_log2 = self.page_size();
        self.data_form();
        let bytes = self.data_bytes();
        self.close();
        MemoryKind::Inline {
            is64,
            bytes,
            page_size_log2,
        }
    }

    /// Reads a memory without an inline import, from its address type on (text format: memories).
    fn memory_kind(&mut self) -> MemoryKind<'a>
        ensures { Reads defined_memory self.old self.new (bare_memory_kind result) }
    {
        match self.has_inline_data() {
            true => self.inline_data(),
            false => MemoryKind::Normal(self.memory_type()),
        }
    }

    /// Reads a memory after its inline import, if it has one. An imported memory has only a memory
    /// type.
    fn memory_of(&mut self, import: Option<InlineImport<'a>>) -> MemoryKind<'a>
        ensures { Reads (memory_of (option_map bare_import import.entry)) self.old self.new (bare_memory_kind result) }
    {
        match import {
            Some(import) => MemoryKind::Import {
                import,
                ty: self.memory_type(),
            },
            None => self.memory_kind(),
        }
    }

    /// Reads the field `(memory ..)`, without its parentheses (text format: memories).
    pub fn memory_field(&mut self) -> Memory<'a>
        ensures { Reads memoryfield self.old self.new (bare_memory result) }
    {
        let Head {
            span,
            id,
            name,
            exports,
        } = self.head();
        let import = self.import();
        let kind = self.memory_of(import);
        Memory {
            span,
            id,
            name,
            exports,
            kind,
        }
    }

    /// Reads the initial value of a global, unless it has an inline import.
    fn global_of(&mut self, import: Option<InlineImport<'a>>) -> GlobalKind<'a>
        ensures { Reads (global_of (option_map bare_import import.entry)) self.old self.new (bare_global_kind result) }
    {
        match import {
            Some(import) => GlobalKind::Import(import),
            None => GlobalKind::Inline(self.expression()),
        }
    }

    /// Reads the field `(global ..)`, without its parentheses (text format: globals).
    pub fn global_field(&mut self) -> Global<'a>
        ensures { Reads globalfield self.old self.new (bare_global result) }
    {
        let Head {
            span,
            id,
            name,
            exports,
        } = self.head();
        let import = self.import();
        let ty = self.global_type();
        let kind = self.global_of(import);
        Global {
            span,
            id,
            name,
            exports,
            ty,
            kind,
        }
    }

    /// Reads the field `(tag ..)`, without its parentheses (text format: tags).
    pub fn tag_field(&mut self) -> Tag<'a>
        ensures { Reads tagfield self.old self.new (bare_tag result) }
    {
        let Head {
            span,
            id,
            name,
            exports,
        } = self.head();
        let kind = tag_kind(self.import());
        let ty = TagType::Exception(self.type_use(true));
        Tag {
            span,
            id,
            name,
            exports,
            ty,
            kind,
        }
    }

    /// Reads the type use of an imported function. It is in `(exact ..)` if the import is exact
    /// (custom descriptors proposal).
    fn func_kind(&mut self) -> ItemKind<'a>
        ensures { Reads functype_of self.old self.new (bare_item_kind result) }
    {
        if !self.accept_form(Key::Exact) {
            return ItemKind::Func(self.type_use(true));
        }
        let ty = self.type_use(true);
        self.close();
        ItemKind::FuncExact(ty)
    }

    /// Reads the type of an imported item, after its keyword, id and name annotation (text format:
    /// imports). For example, a memory type comes after `memory`. The keyword is `key`, at `place`.
    fn item_kind(&mut self, key: Option<Key>, place: Span) -> ItemKind<'a>
        ensures { Reads (externtype_of key) self.old self.new (bare_item_kind result) }
    {
        match key {
            Some(Key::Table) => ItemKind::Table(self.table_type()),
            Some(Key::Memory) => ItemKind::Memory(self.memory_type()),
            Some(Key::Global) => ItemKind::Global(self.global_type()),
            Some(Key::Tag) => ItemKind::Tag(TagType::Exception(self.type_use(true))),
            Some(Key::Func) => self.func_kind(),
            _ => {
                let kinds = "`func`, `table`, `memory`, `global` or `tag`";
                self.fail_at(place, TextFault::Expected(kinds));
                ItemKind::Memory(self.memory_type())
            }
        }
    }

    /// Reads what is imported, in its parentheses (text format: imports). For example,
    /// `(func $f (type 0))`.
    fn item_sig(&mut self) -> ItemSig<'a>
        ensures { Reads externtype self.old self.new (bare_item_sig result) }
    {
        self.open();
        let span = self.place();
        let key = self.key(0);
        self.skip();
        let (id, name) = (self.id(), self.name());
        let kind = self.item_kind(key, span);
        self.close();
        ItemSig {
            span,
            id,
            name,
            kind,
        }
    }

    /// Reads the field `(import ..)`, without its parentheses (text format: imports).
    pub fn import_field(&mut self) -> Imports<'a>
        ensures { Reads importfield self.old self.new (bare_imports result) }
    {
        let span = self.place();
        self.skip();
        let module = self.text();
        let items = self.import_items(module);
        Imports { span, items }
    }

    /// Reads `(item`, or fails.
    fn item_form(&mut self)
        ensures { Expects (form key.Item) self.old self.new }
    {
        if !self.accept_form(Key::Item) {
            self.expected("a string or `(item`");
        }
    }

    /// Reads the items that are imported from a module, after the name of the module. They are one
    /// item, as in `"a" (func)`, or a group of forms `(item ..)` (compact import section proposal).
    fn import_items(&mut self, module: &'a str) -> ImportItems<'a>
        ensures { Reads (import_items_from (bare_text «module».entry)) self.old self.new (bare_import_items result) }
    {
        if self.is_string() {
            let name = self.text();
            let sig = self.item_sig();
            return ImportItems::Single { module, name, sig };
        }
        self.item_form();
        let first = self.text();
        self.import_group(module, first)
    }

    /// Reads `(item "a")`, and returns the name.
    fn import_name(&mut self) -> &'a str
        requires { is_form key.Item (left self.old) ≡ true }
        ensures { Decides import_name self.old self.new (bare_text result) }
    {
        self.skip();
        self.skip();
        let name = self.text();
        self.close();
        name
    }

    /// Reads forms `(item "a")` as long as one is next, and appends their names.
    #[tactic(auto, using(crate::proofs::Steps::one_bare, crate::proofs::Loops::part_end, crate::proofs::Loops::part_last, crate::proofs::Loops::none_after))]
    fn import_names(&mut self, names: &mut Seq<&'a str>)
        ensures { ReadsOnto import_names self.old self.new (map bare_text names.old) (map bare_text names.new) }
    {
        for _ in 0..self.left() {
            if !self.is_form(Key::Item) {
                break;
            }
            let name = self.import_name();
            self.push_name(names, name);
        }
    }

    /// Reads `(item "a" (func))`.
    fn import_item(&mut self) -> (&'a str, ItemSig<'a>)
        requires { is_form key.Item (left self.old) ≡ true }
        ensures { Reads import_item self.old self.new (bare_import_item result) }
    {
        self.skip();
        self.skip();
        let name = self.text();
        let sig = self.item_sig();
        self.close();
        (name, sig)
    }

    /// Appends an item to a list.
    fn push_item(&mut self, items: &mut Seq<(&'a str, ItemSig<'a>)>, item: (&'a str, ItemSig<'a>))
        ensures { Pushes self.old self.new item.entry items.old items.new }
    {
        let pushed = items.push(item);
        self.took(pushed);
    }

    /// Reads forms `(item "a" (func))` as long as one is next, and appends the items.
    #[tactic(auto, using(crate::proofs::Steps::one_read, crate::proofs::Loops::part_end, crate::proofs::Loops::part_last, crate::proofs::Loops::none_after))]
    fn typed_items(&mut self, items: &mut Seq<(&'a str, ItemSig<'a>)>)
        ensures { ReadsOnto import_items_of self.old self.new (map bare_import_item items.old) (map bare_import_item items.new) }
    {
        for _ in 0..self.left() {
            if !self.is_form(Key::Item) {
                break;
            }
            let item = self.import_item();
            self.push_item(items, item);
        }
    }

    /// Reads a group of items of one module, after the name of the first (compact import section
    /// proposal). They have one type together, as in `(item "a") (item "b") (func)`, or a type
    /// each, as in `(item "a" (func)) (item "b" (memory 1))`.
    fn import_group(&mut self, module: &'a str, first: &'a str) -> ImportItems<'a>
        ensures { Reads (import_group (bare_text «module».entry) (bare_text first.entry)) self.old self.new (bare_import_items result) }
    {
        if self.is_end() {
            self.close();
            let mut items = Seq::new(self.alloc);
            self.push_name(&mut items, first);
            self.import_names(&mut items);
            let sig = self.item_sig();
            return ImportItems::Group2 { module, sig, items };
        }
        let sig = self.item_sig();
        let mut items = Seq::new(self.alloc);
        self.push_item(&mut items, (first, sig));
        self.close();
        self.typed_items(&mut items);
        ImportItems::Group1 { module, items }
    }

    /// Reads the keyword of an exported item, such as `func`.
    fn export_kind(&mut self) -> ExportKind
        ensures { Decides externidx_keyword self.old self.new result }
    {
        match export_kind(self.key(0)) {
            Some(kind) => {
                self.skip();
                kind
            }
            None => {
                self.expected("`func`, `table`, `memory`, `global` or `tag`");
                ExportKind::Func
            }
        }
    }

    /// Reads the field `(export ..)`, without its parentheses (text format: exports).
    pub fn export_field(&mut self) -> Export<'a>
        ensures { Decides exportfield self.old self.new (bare_export result) }
    {
        let span = self.place();
        self.skip();
        let name = self.text();
        self.open();
        let kind = self.export_kind();
        let item = self.index();
        self.close();
        Export {
            span,
            name,
            kind,
            item,
        }
    }
}
