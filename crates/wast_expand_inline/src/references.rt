//! The items that an export or a segment of the expansion refers to, and their ids.

ghost use Rattle.std.specs.Prelude.{◌≡◌, ◌≤◌, ◌+◌, ◌||◌, IfErr, OnOk};
ghost use Rattle.wast_base.specs.Filling.{one_if, given_if, RunsOut};
ghost use Rattle.wast_expand_inline.specs.Tree.space;
ghost use Rattle.wast_expand_inline.specs.Segments.{has_bytes, has_elements};
ghost use Rattle.wast_expand_inline.specs.Referring.{by_id, exports_some, wants_id, with_item_id};
ghost use Rattle.wast_expand_inline.specs.Written.{with_referred_ids, reference_id_count};

use wast_base::{Error, Gensym, Id, Index, Seq, Span};
use wast_tree_nodes::{InlineExport, MemoryKind, ModuleField, TableKind};

/// Generates an id for each item that is referred to and has none.
pub(crate) fn name_items<'a>(
    fields: &mut Seq<ModuleField<'a>>,
    gensym: &mut Gensym,
) -> Result<(), Error<'a>>
    ensures fields { OnOk result (fields.new ≡ with_referred_ids gensym.old fields.old) }
    ensures counted { OnOk result (gensym.new ≡ gensym.old + reference_id_count fields.old) }
    ensures refusal { IfErr result (RunsOut (gensym.old + reference_id_count fields.old)) }
    ensures counter_grows { gensym.old ≤ gensym.new }
{
    for i in 0..fields.len() {
        name_item(fields.at_mut(i), gensym)?;
    }
    Ok(())
}

/// Generates an id for the item of a field, if it is referred to and has none.
fn name_item<'a>(field: &mut ModuleField<'a>, gensym: &mut Gensym) -> Result<(), Error<'a>>
    ensures field { OnOk result (field.new ≡ given_if (wants_id field.old) with_item_id gensym.old field.old) }
    ensures counted { OnOk result (gensym.new ≡ gensym.old + one_if (wants_id field.old)) }
    ensures refusal { IfErr result (RunsOut (gensym.old + one_if (wants_id field.old))) }
    ensures counter_grows { gensym.old ≤ gensym.new }
{
    match field {
        ModuleField::Func(func) => {
            if exports_some(&func.exports) {
                gensym.fill(func.span, &mut func.id)?;
            }
            Ok(())
        }
        ModuleField::Table(table) => {
            if exports_some(&table.exports) || has_elements(&table.kind) {
                gensym.fill(table.span, &mut table.id)?;
            }
            Ok(())
        }
        ModuleField::Memory(memory) => {
            if exports_some(&memory.exports) || has_bytes(&memory.kind) {
                gensym.fill(memory.span, &mut memory.id)?;
            }
            Ok(())
        }
        ModuleField::Global(global) => {
            if exports_some(&global.exports) {
                gensym.fill(global.span, &mut global.id)?;
            }
            Ok(())
        }
        ModuleField::Tag(tag) => {
            if exports_some(&tag.exports) {
                gensym.fill(tag.span, &mut tag.id)?;
            }
            Ok(())
        }
        ModuleField::Ty(_) => Ok(()),
        ModuleField::Rec(_) => Ok(()),
        ModuleField::Import(_) => Ok(()),
        ModuleField::Export(_) => Ok(()),
        ModuleField::Start(_) => Ok(()),
        ModuleField::Elem(_) => Ok(()),
        ModuleField::Data(_) => Ok(()),
        ModuleField::Custom(_) => Ok(()),
    }
}

/// Returns whether an inline export has a name.
fn exports_some(exports: &InlineExport<'_>) -> bool
    ensures { result ≡ exports_some exports.now }
{
    !exports.names.is_empty()
}

/// Returns whether a table has inline elements.
pub(crate) fn has_elements(kind: &TableKind<'_>) -> bool
    ensures { result ≡ has_elements kind.now }
{
    match kind {
        TableKind::Import { .. } => false,
        TableKind::Normal { .. } => false,
        TableKind::Inline { .. } => true,
    }
}

/// Returns whether a memory has inline data.
pub(crate) fn has_bytes(kind: &MemoryKind<'_>) -> bool
    ensures { result ≡ has_bytes kind.now }
{
    match kind {
        MemoryKind::Import { .. } => false,
        MemoryKind::Normal(_) => false,
        MemoryKind::Inline { .. } => true,
    }
}

/// Returns the id of an item as an index. The number 0 is a filler: an item without an id is never
/// referred to.
pub(crate) fn by_id<'a>(span: Span, id: Option<Id<'a>>) -> Index<'a>
    ensures { result ≡ by_id space.Func span id.entry }
{
    match id {
        Some(id) => Index::Id(id),
        None => Index::Num(0, span),
    }
}
