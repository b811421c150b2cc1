//! Types of tables, memories, globals, tags and imported items as values of the binary format.

ghost use Rattle.std.specs.Prelude.{◌≡◌, IsTrue};
ghost use Rattle.wast_tree_nodes.specs.Sites.{OfItem, in_table_type, in_global_type, in_use, in_tag_type, in_item_kind};
ghost use Rattle.wast_tree_nodes.specs.Resolved.{are_numbered};
ghost use Rattle.wast_core_conv.specs.Encodable.{are_resolved};
ghost use Rattle.wast_core_conv.specs.Meaning as meaning;

use crate::conv::{index, ref_type, val_type};
use wasm_ops::EntityType;
use wast_tree_nodes::{FunctionType, ItemKind, TypeUse};

/// Converts a table type (binary format: table types). For example, `1 2 externref` has a minimum
/// of 1 and a maximum of 2.
pub fn table_type(ty: &wast_tree_nodes::TableType) -> wasm_ops::TableType
    requires { IsTrue (are_numbered (in_table_type ty.now)) }
    ensures { result ≡ meaning.as_table_type ty.now }
{
    wasm_ops::TableType {
        element_type: ref_type(&ty.elem),
        minimum: ty.limits.min,
        maximum: ty.limits.max,
        table64: ty.limits.is64,
        shared: ty.shared,
    }
}

/// Converts a memory type (binary format: memory types). For example, `1 2` has a minimum of 1 page
/// and a maximum of 2.
pub fn memory_type(ty: &wast_tree_nodes::MemoryType) -> wasm_ops::MemoryType
    ensures { result ≡ meaning.as_memory_type ty.now }
{
    wasm_ops::MemoryType {
        minimum: ty.limits.min,
        maximum: ty.limits.max,
        memory64: ty.limits.is64,
        shared: ty.shared,
        page_size_log2: ty.page_size_log2,
    }
}

/// Converts a global type (binary format: global types). For example, `(mut i64)` is a mutable
/// `i64`.
pub fn global_type(ty: &wast_tree_nodes::GlobalType) -> wasm_ops::GlobalType
    requires { IsTrue (are_numbered (in_global_type ty.now)) }
    ensures { result ≡ meaning.as_global_type ty.now }
{
    wasm_ops::GlobalType {
        val_type: val_type(&ty.ty),
        mutable: ty.mutable,
        shared: ty.shared,
    }
}

/// Returns the index of a type use.
pub(crate) fn type_index(type_use: &TypeUse<FunctionType>) -> u32
    requires { IsTrue (are_resolved (in_use OfItem type_use.now)) }
    ensures { result ≡ meaning.type_index type_use.now }
{
    match &type_use.index {
        Some(of) => index(of),
        None => unreachable!(),
    }
}

/// Converts a tag type (binary format: tag types). For example, `(tag (type 3))` has the function
/// type 3.
pub fn tag_type(ty: &wast_tree_nodes::TagType) -> wasm_ops::TagType
    requires { IsTrue (are_resolved (in_tag_type ty.now)) }
    ensures { result ≡ meaning.as_tag_type ty.now }
{
    match ty {
        wast_tree_nodes::TagType::Exception(type_use) => wasm_ops::TagType {
            func_type_idx: type_index(type_use),
        },
    }
}

/// Converts the type of an imported item (binary format: external types). For example,
/// `(func (type 3))` becomes `EntityType::Function(3)`.
pub fn entity_type(kind: &ItemKind) -> EntityType
    requires { IsTrue (are_resolved (in_item_kind kind.now)) }
    ensures { result ≡ meaning.as_entity_type kind.now }
{
    match kind {
        ItemKind::Func(type_use) => EntityType::Function(type_index(type_use)),
        ItemKind::FuncExact(type_use) => EntityType::FunctionExact(type_index(type_use)),
        ItemKind::Table(ty) => EntityType::Table(table_type(ty)),
        ItemKind::Memory(ty) => EntityType::Memory(memory_type(ty)),
        ItemKind::Global(ty) => EntityType::Global(global_type(ty)),
        ItemKind::Tag(ty) => EntityType::Tag(tag_type(ty)),
    }
}
