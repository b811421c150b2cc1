//! `is_written_out`: whether fields are desugared.

ghost use Rattle.std.specs.Prelude.{◌≡◌};
ghost use Rattle.wast_tree_nodes.specs.WrittenOut.{exports_nothing, is_written_table, is_written_memory, is_written_field, is_written_out};

use crate::fields::{InlineExport, MemoryKind, ModuleField, TableKind};

/// Returns whether there is no inline export.
fn exports_nothing(exports: &InlineExport<'_>) -> bool
    ensures { result ≡ exports_nothing exports.now }
{
    exports.names.is_empty()
}

/// Returns whether the table has no inline import and no inline elements.
fn is_written_table(kind: &TableKind<'_>) -> bool
    ensures { result ≡ is_written_table kind.now }
{
    match kind {
        TableKind::Import { .. } | TableKind::Inline { .. } => false,
        TableKind::Normal { .. } => true,
    }
}

/// Returns whether the memory has no inline import and no inline data.
fn is_written_memory(kind: &MemoryKind<'_>) -> bool
    ensures { result ≡ is_written_memory kind.now }
{
    match kind {
        MemoryKind::Import { .. } | MemoryKind::Inline { .. } => false,
        MemoryKind::Normal(_) => true,
    }
}

/// Returns whether the field has no inline parts.
fn is_written_field(field: &ModuleField<'_>) -> bool
    ensures { result ≡ is_written_field field.now }
{
    match field {
        ModuleField::Ty(_) | ModuleField::Rec(_) | ModuleField::Import(_) => true,
        ModuleField::Func(func) => exports_nothing(&func.exports) && !func.kind.is_imported(),
        ModuleField::Table(table) => {
            exports_nothing(&table.exports) && is_written_table(&table.kind)
        }
        ModuleField::Memory(memory) => {
            exports_nothing(&memory.exports) && is_written_memory(&memory.kind)
        }
        ModuleField::Global(global) => {
            exports_nothing(&global.exports) && !global.kind.is_imported()
        }
        ModuleField::Export(_) | ModuleField::Start(_) => true,
        ModuleField::Elem(_) | ModuleField::Data(_) => true,
        ModuleField::Tag(tag) => exports_nothing(&tag.exports) && !tag.kind.is_imported(),
        ModuleField::Custom(_) => true,
    }
}

/// Returns whether the fields are desugared: none has inline exports, imports, elements or data.
///
/// For example, `(func (export "a"))` is not desugared, and `(func) (export "a" (func 0))` is (text
/// format: abbreviations).
pub fn is_written_out(fields: &[ModuleField<'_>]) -> bool
    ensures { result ≡ is_written_out fields.now }
{
    fields.iter().all(|field| is_written_field(field))
}
