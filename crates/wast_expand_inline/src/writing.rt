//! The expansion of each field: its exports, its segment, and the field without inline parts.

ghost use Rattle.std.specs.Prelude.{◌≡◌, ◌≤◌, ◌+◌, ◌++◌, ◌∷◌, [], flat_map, IsTrue, IsOk, IfOk, IfErr, OnOk, ◌-◌, ◌^◌, min, length};
ghost use Rattle.std.specs.List.{list_any};
ghost use Rattle.wast_base.specs.Faults.{out_of_memory};
ghost use Rattle.wast_tree_nodes.specs.WrittenOut.{is_written_out};
ghost use Rattle.wast_expand_inline.specs.Tree.field;
ghost use Rattle.wast_expand_inline.specs.Tree.table as table_kind;
ghost use Rattle.wast_expand_inline.specs.Tree.memory as memory_kind;
ghost use Rattle.wast_expand_inline.specs.Segments.{overflows_kind, has_oversized_data};
ghost use Rattle.wast_expand_inline.specs.WriteOut.{imported_func, no_exports, exports_of, import_of, data_in, elem_in, func_alone, table_alone, memory_alone, global_alone, tag_alone, desugar_field};
ghost use Rattle.wast_expand_inline.specs.Referring.{by_id};
ghost use Rattle.wast_expand_inline.specs.Written.{desugared_from, reference_id_count, IsRefusedWhere, CannotBeWritten};

use crate::references::{by_id, has_bytes, has_elements, name_items};
use crate::segments::{at_zero, data_into, elem_into, filled_table_type, filling};
use std::alloc::Global;
use wast_base::{Error, Gensym, Id, Index, NameAnnotation, Seq, Span};
use wast_tree_nodes::{
    Export, ExportKind, Expression, Func, FuncKind, FunctionType, GlobalKind, Imports,
    InlineExport, InlineImport, ItemKind, ItemSig, Memory, MemoryKind, MemoryType, ModuleField,
    Table, TableKind, TableType, Tag, TagKind, TypeUse, discard_data, discard_elem_payload,
    discard_exports, discard_field, discard_fields, fields_with_capacity, is_written_out,
    push_field, take_field,
};

/// Expands the inline exports, imports, elements and data of fields (text format: functions,
/// tables, memories, globals, tags; abbreviations).
///
///     fields = deinline::run(alloc, fields, gensym).expect(rt, "memory");
///
/// A function, table, memory, global or tag is replaced by these fields, in this order:
///
/// - an export for each inline name;
/// - the segment of its inline data or elements, at offset 0;
/// - the field without inline parts, or its import if the import was inline.
///
/// Exports and segments refer to the item by its id. If it has none, one is generated at the
/// position of its field. Generated ids are new if the counter is past `gensym_bound` of
/// `wast_tree`. For example, `(func (export "a") (import "m" "n"))` becomes
/// `(export "a" (func [1])) (import "m" "n" (func [1]))`. Here `[1]` is the generated id.
///
/// A memory with inline data gets as many pages as the bytes take, and that is also its maximum. A
/// table with inline elements gets their number. An inline import with `exact` becomes an exact
/// import. All other fields are unchanged. If no field has an inline part, nothing is allocated.
///
/// # Errors
///
/// - E10: the counter would overflow a `u64`, or the inline data of a memory has 2^32 bytes or
///   more.
/// - E12: allocation failed.
///
/// After an error the fields are dropped, and the counter has its old value.
pub fn run<'a>(
    alloc: Global,
    fields: Seq<ModuleField<'a>>,
    gensym: &mut Gensym,
) -> Result<Seq<ModuleField<'a>>, Error<'a>>
    ensures list { IfOk result (λ out. out ≡ desugared_from gensym.old fields.entry) }
    ensures counted { OnOk result (gensym.new ≡ gensym.old + reference_id_count fields.entry) }
    ensures refusal { IfErr result (CannotBeWritten gensym.old fields.entry) }
    ensures at_rest { IsTrue (is_written_out fields.entry) → IsOk result }
    ensures counter_grows { gensym.old ≤ gensym.new }
    ensures stays { IfErr result (λ e. gensym.new ≡ gensym.old) }
{
    let mut fields = fields;
    if is_at_rest(&mut fields) {
        return Ok(fields);
    }
    replaced(alloc, fields, gensym)
}

/// Returns whether no field has an inline part, and leaves the fields unchanged.
///
/// It borrows them mutably. With a shared borrow the prover would compare the type of the whole
/// tree with itself.
fn is_at_rest<'a>(fields: &mut Seq<ModuleField<'a>>) -> bool
    ensures rest { result ≡ is_written_out fields.old }
    ensures stays { fields.new ≡ fields.old }
{
    is_written_out(fields.as_slice())
}

/// Returns the expansion of the fields, which are dropped. After an error the counter has its old
/// value.
fn replaced<'a>(
    alloc: Global,
    fields: Seq<ModuleField<'a>>,
    gensym: &mut Gensym,
) -> Result<Seq<ModuleField<'a>>, Error<'a>>
    ensures list { IfOk result (λ out. out ≡ desugared_from gensym.old fields.entry) }
    ensures counted { OnOk result (gensym.new ≡ gensym.old + reference_id_count fields.entry) }
    ensures refusal { IfErr result (CannotBeWritten gensym.old fields.entry) }
    ensures counter_grows { gensym.old ≤ gensym.new }
    ensures stays { IfErr result (λ e. gensym.new ≡ gensym.old) }
{
    let mut fields = fields;
    let first = gensym.peek();
    let written = written_fields(alloc, &mut fields, gensym);
    discard_fields(fields);
    if written.is_err() {
        *gensym = Gensym::new(first);
    }
    written
}

/// Returns the expansion of the fields, which are moved out of the list.
fn written_fields<'a>(
    alloc: Global,
    fields: &mut Seq<ModuleField<'a>>,
    gensym: &mut Gensym,
) -> Result<Seq<ModuleField<'a>>, Error<'a>>
    ensures list { IfOk result (λ out. out ≡ desugared_from gensym.old fields.old) }
    ensures counted { OnOk result (gensym.new ≡ gensym.old + reference_id_count fields.old) }
    ensures refusal { IfErr result (CannotBeWritten gensym.old fields.old) }
    ensures counter_grows { gensym.old ≤ gensym.new }
{
    name_items(fields, gensym)?;
    write_fields(alloc, fields)
}

/// Returns the expansion of fields in which each item that is referred to has an id. They are moved
/// out of the list.
fn write_fields<'a>(
    alloc: Global,
    fields: &mut Seq<ModuleField<'a>>,
) -> Result<Seq<ModuleField<'a>>, Error<'a>>
    ensures list { IfOk result (λ out. out ≡ flat_map (desugar_field by_id) fields.old) }
    ensures refusal { IfErr result (λ e. IsRefusedWhere (list_any has_oversized_data fields.old) e) }
{
    let count = written_count(fields.as_slice());
    let mut out = fields_with_capacity(alloc, count)?;
    match write_each(alloc, fields, &mut out) {
        Ok(()) => Ok(out),
        Err(e) => {
            discard_fields(out);
            Err(e)
        }
    }
}

/// Appends the expansion of each field. The fields are moved out of the list.
fn write_each<'a>(
    alloc: Global,
    fields: &mut Seq<ModuleField<'a>>,
    out: &mut Seq<ModuleField<'a>>,
) -> Result<(), Error<'a>>
    ensures list { OnOk result (out.new ≡ out.old ++ flat_map (desugar_field by_id) fields.old) }
    ensures refusal { IfErr result (λ e. IsRefusedWhere (list_any has_oversized_data fields.old) e) }
{
    for i in 0..fields.len() {
        write_field(alloc, take_field(fields.at_mut(i)), out)?;
    }
    Ok(())
}

/// Returns the number of fields after expansion, or the greatest `usize` if there are more.
fn written_count(fields: &[ModuleField<'_>]) -> usize
    ensures { result ≡ min (length (flat_map (desugar_field by_id) fields.now)) (2 ^ 64 - 1) }
{
    let mut count: usize = 0;
    for field in fields {
        count = count.saturating_add(count_for(field));
    }
    count
}

/// Returns the number of fields that replace a field, or the greatest `usize` if there are more.
fn count_for(field: &ModuleField<'_>) -> usize
    ensures { result ≡ min (length (desugar_field by_id field.now)) (2 ^ 64 - 1) }
{
    match field {
        ModuleField::Func(func) => func.exports.names.len().saturating_add(1),
        ModuleField::Table(table) => {
            let rest = if has_elements(&table.kind) { 2 } else { 1 };
            table.exports.names.len().saturating_add(rest)
        }
        ModuleField::Memory(memory) => {
            let rest = if has_bytes(&memory.kind) { 2 } else { 1 };
            memory.exports.names.len().saturating_add(rest)
        }
        ModuleField::Global(global) => global.exports.names.len().saturating_add(1),
        ModuleField::Tag(tag) => tag.exports.names.len().saturating_add(1),
        _ => 1,
    }
}

/// Appends the expansion of a field.
fn write_field<'a>(
    alloc: Global,
    field: ModuleField<'a>,
    out: &mut Seq<ModuleField<'a>>,
) -> Result<(), Error<'a>>
    ensures list { OnOk result (out.new ≡ out.old ++ desugar_field by_id field.entry) }
    ensures refusal { IfErr result (λ e. IsRefusedWhere (has_oversized_data field.entry) e) }
{
    match field {
        ModuleField::Func(func) => write_func(alloc, func, out),
        ModuleField::Table(table) => write_table(alloc, table, out),
        ModuleField::Memory(memory) => write_memory(alloc, memory, out),
        ModuleField::Global(global) => write_global(alloc, global, out),
        ModuleField::Tag(tag) => write_tag(alloc, tag, out),
        stays => push_field(out, stays),
    }
}

/// Appends two fields.
fn push_both<'a>(
    out: &mut Seq<ModuleField<'a>>,
    first: ModuleField<'a>,
    second: ModuleField<'a>,
) -> Result<(), Error<'a>>
    ensures list { OnOk result (out.new ≡ out.old ++ first.entry ∷ (second.entry ∷ [])) }
    ensures refusal { IfErr result (λ e. e ≡ out_of_memory) }
{
    match push_field(out, first) {
        Ok(()) => push_field(out, second),
        Err(e) => {
            discard_field(second);
            Err(e)
        }
    }
}

/// Appends an export for each inline name.
fn write_exports<'a>(
    exports: &InlineExport<'a>,
    span: Span,
    kind: ExportKind,
    item: Index<'a>,
    out: &mut Seq<ModuleField<'a>>,
) -> Result<(), Error<'a>>
    ensures list { OnOk result (out.new ≡ out.old ++ exports_of span kind item.entry exports.now) }
    ensures refusal { IfErr result (λ e. e ≡ out_of_memory) }
{
    for name in exports.names.as_slice() {
        push_field(
            out,
            ModuleField::Export(Export {
                span,
                name: *name,
                kind,
                item,
            }),
        )?;
    }
    Ok(())
}

/// Returns the import field of an item whose import was inline.
fn import_of<'a>(
    span: Span,
    id: Option<Id<'a>>,
    name: Option<NameAnnotation<'a>>,
    source: InlineImport<'a>,
    kind: ItemKind<'a>,
) -> ModuleField<'a>
    ensures { result ≡ import_of span id.entry name.entry source.entry kind.entry }
{
    let sig = ItemSig {
        span,
        id,
        name,
        kind,
    };
    ModuleField::Import(Imports::single(span, source.module, source.field, sig))
}

/// Returns the kind of an imported function, exact or not.
fn imported_func<'a>(exact: bool, ty: TypeUse<'a, FunctionType<'a>>) -> ItemKind<'a>
    ensures { result ≡ imported_func exact ty.entry }
{
    if exact {
        ItemKind::FuncExact(ty)
    } else {
        ItemKind::Func(ty)
    }
}

/// Returns a function without inline parts, or its import.
fn func_alone<'a>(alloc: Global, func: Func<'a>) -> ModuleField<'a>
    ensures { result ≡ func_alone func.entry func.entry.kind }
{
    let Func {
        span,
        id,
        name,
        exports,
        kind,
        ty,
    } = func;
    discard_exports(exports);
    match kind {
        FuncKind::Import(source, exact) => {
            import_of(span, id, name, source, imported_func(exact, ty))
        }
        FuncKind::Inline { locals, expression } => ModuleField::Func(Func {
            span,
            id,
            name,
            exports: InlineExport::none(alloc),
            kind: FuncKind::Inline { locals, expression },
            ty,
        }),
    }
}

/// Appends the expansion of a function.
fn write_func<'a>(
    alloc: Global,
    func: Func<'a>,
    out: &mut Seq<ModuleField<'a>>,
) -> Result<(), Error<'a>>
    ensures list { OnOk result (out.new ≡ out.old ++ desugar_field by_id (field.Func func.entry)) }
    ensures refusal { IfErr result (λ e. e ≡ out_of_memory) }
{
    let item = by_id(func.span, func.id);
    match write_exports(&func.exports, func.span, ExportKind::Func, item, out) {
        Ok(()) => push_field(out, func_alone(alloc, func)),
        Err(e) => {
            discard_field(ModuleField::Func(func));
            Err(e)
        }
    }
}

/// Returns a table of this type, without inline parts.
fn table_of<'a>(
    alloc: Global,
    span: Span,
    id: Option<Id<'a>>,
    name: Option<NameAnnotation<'a>>,
    ty: TableType<'a>,
    init_expr: Option<Expression<'a>>,
) -> ModuleField<'a>
    ensures { result ≡ field.Table (record { span = span; id = id.entry; name = name.entry; exports = no_exports; kind = table_kind.Normal ty.entry init_expr.entry }) }
{
    ModuleField::Table(Table {
        span,
        id,
        name,
        exports: InlineExport::none(alloc),
        kind: TableKind::Normal { ty, init_expr },
    })
}

/// Appends the segment of a table, and then the table without inline parts, or its import.
fn write_table_alone<'a>(
    alloc: Global,
    table: Table<'a>,
    item: Index<'a>,
    out: &mut Seq<ModuleField<'a>>,
) -> Result<(), Error<'a>>
    ensures list { OnOk result (out.new ≡ out.old ++ (elem_in table.entry.kind table.entry.span item.entry ++ table_alone table.entry table.entry.kind ∷ [])) }
    ensures refusal { IfErr result (λ e. e ≡ out_of_memory) }
{
    let Table {
        span,
        id,
        name,
        exports,
        kind,
    } = table;
    discard_exports(exports);
    match kind {
        TableKind::Import { import, ty } => {
            push_field(out, import_of(span, id, None, import, ItemKind::Table(ty)))
        }
        TableKind::Normal { ty, init_expr } => {
            push_field(out, table_of(alloc, span, id, name, ty, init_expr))
        }
        TableKind::Inline {
            elem,
            is64,
            shared,
            payload,
        } => match at_zero(alloc, is64) {
            Ok(offset) => {
                let ty = filled_table_type(elem, is64, shared, &payload);
                let filled = table_of(alloc, span, id, name, ty, None);
                push_both(out, elem_into(span, item, offset, payload), filled)
            }
            Err(e) => {
                discard_elem_payload(payload);
                Err(e)
            }
        },
    }
}

/// Appends the expansion of a table.
fn write_table<'a>(
    alloc: Global,
    table: Table<'a>,
    out: &mut Seq<ModuleField<'a>>,
) -> Result<(), Error<'a>>
    ensures list { OnOk result (out.new ≡ out.old ++ desugar_field by_id (field.Table table.entry)) }
    ensures refusal { IfErr result (λ e. e ≡ out_of_memory) }
{
    let item = by_id(table.span, table.id);
    match write_exports(&table.exports, table.span, ExportKind::Table, item, out) {
        Ok(()) => write_table_alone(alloc, table, item, out),
        Err(e) => {
            discard_field(ModuleField::Table(table));
            Err(e)
        }
    }
}

/// Returns a memory of this type, without inline parts.
fn memory_of<'a>(
    alloc: Global,
    span: Span,
    id: Option<Id<'a>>,
    name: Option<NameAnnotation<'a>>,
    ty: MemoryType,
) -> ModuleField<'a>
    ensures { result ≡ field.Memory (record { span = span; id = id.entry; name = name.entry; exports = no_exports; kind = memory_kind.Normal ty }) }
{
    ModuleField::Memory(Memory {
        span,
        id,
        name,
        exports: InlineExport::none(alloc),
        kind: MemoryKind::Normal(ty),
    })
}

/// Appends the segment of a memory, and then the memory without inline parts, or its import.
fn write_memory_alone<'a>(
    alloc: Global,
    memory: Memory<'a>,
    item: Index<'a>,
    out: &mut Seq<ModuleField<'a>>,
) -> Result<(), Error<'a>>
    ensures list { OnOk result (out.new ≡ out.old ++ (data_in memory.entry.kind memory.entry.span item.entry ++ memory_alone memory.entry memory.entry.kind ∷ [])) }
    ensures refusal { IfErr result (λ e. IsRefusedWhere (overflows_kind memory.entry.kind) e) }
{
    let Memory {
        span,
        id,
        name,
        exports,
        kind,
    } = memory;
    discard_exports(exports);
    match kind {
        MemoryKind::Import { import, ty } => {
            push_field(out, import_of(span, id, None, import, ItemKind::Memory(ty)))
        }
        MemoryKind::Normal(ty) => push_field(out, memory_of(alloc, span, id, name, ty)),
        MemoryKind::Inline {
            is64,
            bytes,
            page_size_log2,
        } => match filling(alloc, is64, bytes.as_slice(), page_size_log2) {
            Ok((ty, offset)) => {
                let filled = memory_of(alloc, span, id, name, ty);
                push_both(out, data_into(span, item, offset, bytes), filled)
            }
            Err(e) => {
                discard_data(bytes);
                Err(e)
            }
        },
    }
}

/// Appends the expansion of a memory.
fn write_memory<'a>(
    alloc: Global,
    memory: Memory<'a>,
    out: &mut Seq<ModuleField<'a>>,
) -> Result<(), Error<'a>>
    ensures list { OnOk result (out.new ≡ out.old ++ desugar_field by_id (field.Memory memory.entry)) }
    ensures refusal { IfErr result (λ e. IsRefusedWhere (has_oversized_data (field.Memory memory.entry)) e) }
{
    let item = by_id(memory.span, memory.id);
    match write_exports(&memory.exports, memory.span, ExportKind::Memory, item, out) {
        Ok(()) => write_memory_alone(alloc, memory, item, out),
        Err(e) => {
            discard_field(ModuleField::Memory(memory));
            Err(e)
        }
    }
}

/// Returns a global without inline parts, or its import.
fn global_alone<'a>(alloc: Global, global: wast_tree_nodes::Global<'a>) -> ModuleField<'a>
    ensures { result ≡ global_alone global.entry global.entry.kind }
{
    let wast_tree_nodes::Global {
        span,
        id,
        name,
        exports,
        ty,
        kind,
    } = global;
    discard_exports(exports);
    match kind {
        GlobalKind::Import(source) => import_of(span, id, None, source, ItemKind::Global(ty)),
        GlobalKind::Inline(expression) => ModuleField::Global(wast_tree_nodes::Global {
            span,
            id,
            name,
            exports: InlineExport::none(alloc),
            ty,
            kind: GlobalKind::Inline(expression),
        }),
    }
}

/// Appends the expansion of a global.
fn write_global<'a>(
    alloc: Global,
    global: wast_tree_nodes::Global<'a>,
    out: &mut Seq<ModuleField<'a>>,
) -> Result<(), Error<'a>>
    ensures list { OnOk result (out.new ≡ out.old ++ desugar_field by_id (field.Global global.entry)) }
    ensures refusal { IfErr result (λ e. e ≡ out_of_memory) }
{
    let item = by_id(global.span, global.id);
    match write_exports(&global.exports, global.span, ExportKind::Global, item, out) {
        Ok(()) => push_field(out, global_alone(alloc, global)),
        Err(e) => {
            discard_field(ModuleField::Global(global));
            Err(e)
        }
    }
}

/// Returns a tag without inline parts, or its import.
fn tag_alone<'a>(alloc: Global, tag: Tag<'a>) -> ModuleField<'a>
    ensures { result ≡ tag_alone tag.entry tag.entry.kind }
{
    let Tag {
        span,
        id,
        name,
        exports,
        ty,
        kind,
    } = tag;
    discard_exports(exports);
    match kind {
        TagKind::Import(source) => import_of(span, id, None, source, ItemKind::Tag(ty)),
        TagKind::Inline => ModuleField::Tag(Tag {
            span,
            id,
            name,
            exports: InlineExport::none(alloc),
            ty,
            kind: TagKind::Inline,
        }),
    }
}

/// Appends the expansion of a tag.
fn write_tag<'a>(
    alloc: Global,
    tag: Tag<'a>,
    out: &mut Seq<ModuleField<'a>>,
) -> Result<(), Error<'a>>
    ensures list { OnOk result (out.new ≡ out.old ++ desugar_field by_id (field.Tag tag.entry)) }
    ensures refusal { IfErr result (λ e. e ≡ out_of_memory) }
{
    let item = by_id(tag.span, tag.id);
    match write_exports(&tag.exports, tag.span, ExportKind::Tag, item, out) {
        Ok(()) => push_field(out, tag_alone(alloc, tag)),
        Err(e) => {
            discard_field(ModuleField::Tag(tag));
            Err(e)
        }
    }
}
