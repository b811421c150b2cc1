//! Fields of a resolved module as bytes of section entries.

ghost use Rattle.std.specs.Prelude.{option_map, IsTrue};
ghost use Rattle.wasm_ops.specs.ConstExprs.{expression};
ghost use Rattle.wasm_ops.specs.Entities as entities;
ghost use Rattle.wasm_ops.specs.Sinks.{Writes};
ghost use Rattle.wasm_out.specs.Parts.{global_entry, import_entry, table_entry};
ghost use Rattle.wast_tree_nodes.specs.Sites.{in_table_type, in_global_type, in_item_kind};
ghost use Rattle.wast_core_conv.specs.Encodable.{are_encodable, are_entered, is_encodable_expression, is_encodable_init, is_encodable_import, is_encodable_table, is_encodable_memory, is_encodable_global, is_encodable_tag};
ghost use Rattle.wast_core_conv.specs.Meaning as meaning;

use crate::conv;
use crate::values::Resolved;
use wasm_ops::{Each, Encode, EncodeWith, EncodedBy, Name, Refusal, Sink};
use wast_tree_nodes::{
    Expression, Global, GlobalKind, GlobalType, ImportItems, Imports, ItemKind, Memory, MemoryKind,
    Table, TableKind, TableType, Tag,
};

/// A constant expression, with its final `end` (binary format: expressions).
impl EncodeWith<Expression<'_>> for Resolved {
    ghost spelling = { λ _ e. (expression (meaning.as_expression e)).bytes };

    ghost in_range = { λ _ e. (expression (meaning.as_expression e)).in_range };

    ghost is_ready = { λ _ e. is_encodable_expression e };

    fn spell<S: Sink>(&self, expression: &Expression, out: &mut S) -> Result<(), Refusal> {
        (Each(expression.instrs.as_slice(), Resolved), 0x0bu8).encode(out)
    }
}

/// Writes an import of one item.
#[tactic(auto, using(crate::proofs::Ready::entered_resolved))]
fn put_import<S: Sink>(
    source: &str,
    name: &str,
    kind: &ItemKind,
    out: &mut S,
) -> Result<(), Refusal>
    requires { IsTrue (are_entered (in_item_kind kind.now)) }
    ensures { Writes S.rules
        (import_entry (record { «module» = source.now; name = name.now; entity = meaning.as_entity_type kind.now })).in_range
        out.old out.new
        (import_entry (record { «module» = source.now; name = name.now; entity = meaning.as_entity_type kind.now })).bytes result }
{
    (Name(source), (Name(name), conv::entity_type(kind))).encode(out)
}

/// An entry of the import section (binary format: import section).
impl EncodeWith<Imports<'_>> for Resolved {
    ghost spelling = { λ _ i. (import_entry (meaning.as_import i)).bytes };

    ghost in_range = { λ _ i. (import_entry (meaning.as_import i)).in_range };

    ghost is_ready = { λ _ i. is_encodable_import i };

    fn spell<S: Sink>(&self, imports: &Imports, out: &mut S) -> Result<(), Refusal> {
        match &imports.items {
            ImportItems::Single { module, name, sig } => put_import(module, name, &sig.kind, out),
            ImportItems::Group1 { .. } | ImportItems::Group2 { .. } => unreachable!(),
        }
    }
}

/// Writes a table, with the initial value of its elements if the source has one.
fn put_table<S: Sink>(ty: &TableType, init: &Option<Expression>, out: &mut S) -> Result<(), Refusal>
    requires ty { IsTrue (are_encodable (in_table_type ty.now)) }
    requires init { IsTrue (is_encodable_init init.now) }
    ensures { Writes S.rules
        (table_entry (record { ty = meaning.as_table_type ty.now; init = option_map meaning.as_expression init.now })).in_range
        out.old out.new
        (table_entry (record { ty = meaning.as_table_type ty.now; init = option_map meaning.as_expression init.now })).bytes result }
{
    let ty = conv::table_type(ty);
    match init {
        None => ty.encode(out),
        Some(init) => (0x40u8, (0x00u8, (ty, EncodedBy(init, Resolved)))).encode(out),
    }
}

/// An entry of the table section (binary format: table section).
impl EncodeWith<Table<'_>> for Resolved {
    ghost spelling = { λ _ t. (table_entry (meaning.as_table t)).bytes };

    ghost in_range = { λ _ t. (table_entry (meaning.as_table t)).in_range };

    ghost is_ready = { λ _ t. is_encodable_table t };

    fn spell<S: Sink>(&self, table: &Table, out: &mut S) -> Result<(), Refusal> {
        match &table.kind {
            TableKind::Normal { ty, init_expr } => put_table(ty, init_expr, out),
            TableKind::Import { .. } | TableKind::Inline { .. } => unreachable!(),
        }
    }
}

/// An entry of the memory section (binary format: memory section).
impl EncodeWith<Memory<'_>> for Resolved {
    ghost spelling = { λ _ m. (entities.memory_type (meaning.as_memory m)).bytes };

    ghost in_range = { λ _ m. (entities.memory_type (meaning.as_memory m)).in_range };

    ghost is_ready = { λ _ m. is_encodable_memory m };

    fn spell<S: Sink>(&self, memory: &Memory, out: &mut S) -> Result<(), Refusal> {
        match &memory.kind {
            MemoryKind::Normal(ty) => conv::memory_type(ty).encode(out),
            MemoryKind::Import { .. } | MemoryKind::Inline { .. } => unreachable!(),
        }
    }
}

/// Writes a global, with its initial value.
fn put_global<S: Sink>(ty: &GlobalType, init: &Expression, out: &mut S) -> Result<(), Refusal>
    requires ty { IsTrue (are_encodable (in_global_type ty.now)) }
    requires init { IsTrue (is_encodable_expression init.now) }
    ensures { Writes S.rules
        (global_entry (record { ty = meaning.as_global_type ty.now; init = meaning.as_expression init.now })).in_range
        out.old out.new
        (global_entry (record { ty = meaning.as_global_type ty.now; init = meaning.as_expression init.now })).bytes result }
{
    (conv::global_type(ty), EncodedBy(init, Resolved)).encode(out)
}

/// An entry of the global section (binary format: global section).
impl EncodeWith<Global<'_>> for Resolved {
    ghost spelling = { λ _ g. (global_entry (meaning.as_global g)).bytes };

    ghost in_range = { λ _ g. (global_entry (meaning.as_global g)).in_range };

    ghost is_ready = { λ _ g. is_encodable_global g };

    fn spell<S: Sink>(&self, global: &Global, out: &mut S) -> Result<(), Refusal> {
        match &global.kind {
            GlobalKind::Inline(init) => put_global(&global.ty, init, out),
            GlobalKind::Import(_) => unreachable!(),
        }
    }
}

/// An entry of the tag section (binary format: tag section).
impl EncodeWith<Tag<'_>> for Resolved {
    ghost spelling = { λ _ t. (entities.tag_type (meaning.as_tag t)).bytes };

    ghost in_range = { λ _ t. (entities.tag_type (meaning.as_tag t)).in_range };

    ghost is_ready = { λ _ t. is_encodable_tag t };

    #[tactic(auto, using(crate::proofs::Ready::entered_resolved))]
    fn spell<S: Sink>(&self, tag: &Tag, out: &mut S) -> Result<(), Refusal> {
        conv::tag_type(&tag.ty).encode(out)
    }
}
