//! Imports, tables, memories, globals and tags as items of sections.

ghost use Rattle.std.specs.Prelude.{◌+◌, option_map, IsTrue};
ghost use Rattle.wasm_ops.specs.Entities as entities;
ghost use Rattle.wasm_ops.specs.Spelling.{InRangeU32};
ghost use Rattle.wasm_out.specs.Built.{Adds};
ghost use Rattle.wasm_out.specs.Parts.{global_entry, import_entry, table_entry};
ghost use Rattle.wast_tree_nodes.specs.Sites.{in_table_type, in_global_type};
ghost use Rattle.wast_core_conv.specs.Encodable.{are_encodable, is_encodable_expression, is_encodable_init, is_encodable_import, is_encodable_table, is_encodable_memory, is_encodable_global, is_encodable_tag};
ghost use Rattle.wast_core_conv.specs.Meaning as meaning;

use crate::conv;
use crate::section_items::SectionItem;
use crate::values::Resolved;
use std::alloc::Global;
use wasm_ops::{EncodeWith, Sink};
use wasm_out::{GlobalSection, ImportSection, MemorySection, TableSection, TagSection};
use wast_base::Error;
use wast_tree_nodes::{
    CustomPlaceAnchor, Expression, GlobalKind, GlobalType, ImportItems, Imports, Memory,
    MemoryKind, Table, TableKind, TableType, Tag,
};

impl SectionItem for Imports<'_> {
    type Section = ImportSection;

    const ANCHOR: CustomPlaceAnchor = CustomPlaceAnchor::Import;

    ghost spelling = { λ item. (import_entry (meaning.as_import item)).bytes };

    ghost in_range = { λ item. (import_entry (meaning.as_import item)).in_range };

    ghost is_encodable = { is_encodable_import };

    #[tactic(auto, using(crate::proofs::Ready::entered_resolved))]
    fn encode<'e>(&self, _alloc: Global, section: &mut ImportSection) -> Result<(), Error<'e>> {
        match &self.items {
            ImportItems::Single { module, name, sig } => {
                section.import(module, name, &conv::entity_type(&sig.kind))
            }
            ImportItems::Group1 { .. } | ImportItems::Group2 { .. } => unreachable!(),
        }
    }

    fn put<'e, S: Sink>(&self, out: &mut S) -> Result<(), Error<'e>> {
        Ok(Resolved.spell(self, out)?)
    }
}

/// Adds a table, with the initial value of its elements if the source has one.
fn add_table<'e>(
    alloc: Global,
    section: &mut TableSection,
    ty: &TableType,
    init: &Option<Expression>,
) -> Result<(), Error<'e>>
    requires ty { IsTrue (are_encodable (in_table_type ty.now)) }
    requires init { IsTrue (is_encodable_init init.now) }
    ensures { Adds (InRangeU32 (section.old.count + 1)
        × (table_entry (record { ty = meaning.as_table_type ty.now; init = option_map meaning.as_expression init.now })).in_range)
        section.old section.new
        (table_entry (record { ty = meaning.as_table_type ty.now; init = option_map meaning.as_expression init.now })).bytes result }
{
    let ty = conv::table_type(ty);
    match init {
        None => section.table(&ty),
        Some(init) => section.table_with_init(&ty, &conv::const_expr(alloc, init)?),
    }
}

impl SectionItem for Table<'_> {
    type Section = TableSection;

    const ANCHOR: CustomPlaceAnchor = CustomPlaceAnchor::Table;

    ghost spelling = { λ item. (table_entry (meaning.as_table item)).bytes };

    ghost in_range = { λ item. (table_entry (meaning.as_table item)).in_range };

    ghost is_encodable = { is_encodable_table };

    fn encode<'e>(&self, alloc: Global, section: &mut TableSection) -> Result<(), Error<'e>> {
        match &self.kind {
            TableKind::Normal { ty, init_expr } => add_table(alloc, section, ty, init_expr),
            TableKind::Import { .. } | TableKind::Inline { .. } => unreachable!(),
        }
    }

    fn put<'e, S: Sink>(&self, out: &mut S) -> Result<(), Error<'e>> {
        Ok(Resolved.spell(self, out)?)
    }
}

impl SectionItem for Memory<'_> {
    type Section = MemorySection;

    const ANCHOR: CustomPlaceAnchor = CustomPlaceAnchor::Memory;

    ghost spelling = { λ item. (entities.memory_type (meaning.as_memory item)).bytes };

    ghost in_range = { λ item. (entities.memory_type (meaning.as_memory item)).in_range };

    ghost is_encodable = { is_encodable_memory };

    fn encode<'e>(&self, _alloc: Global, section: &mut MemorySection) -> Result<(), Error<'e>> {
        match &self.kind {
            MemoryKind::Normal(ty) => section.memory(&conv::memory_type(ty)),
            MemoryKind::Import { .. } | MemoryKind::Inline { .. } => unreachable!(),
        }
    }

    fn put<'e, S: Sink>(&self, out: &mut S) -> Result<(), Error<'e>> {
        Ok(Resolved.spell(self, out)?)
    }
}

/// Adds a global, with its initial value.
fn add_global<'e>(
    alloc: Global,
    section: &mut GlobalSection,
    ty: &GlobalType,
    init: &Expression,
) -> Result<(), Error<'e>>
    requires ty { IsTrue (are_encodable (in_global_type ty.now)) }
    requires init { IsTrue (is_encodable_expression init.now) }
    ensures { Adds (InRangeU32 (section.old.count + 1)
        × (global_entry (record { ty = meaning.as_global_type ty.now; init = meaning.as_expression init.now })).in_range)
        section.old section.new
        (global_entry (record { ty = meaning.as_global_type ty.now; init = meaning.as_expression init.now })).bytes result }
{
    section.global(&conv::global_type(ty), &conv::const_expr(alloc, init)?)
}

impl SectionItem for wast_tree_nodes::Global<'_> {
    type Section = GlobalSection;

    const ANCHOR: CustomPlaceAnchor = CustomPlaceAnchor::Global;

    ghost spelling = { λ item. (global_entry (meaning.as_global item)).bytes };

    ghost in_range = { λ item. (global_entry (meaning.as_global item)).in_range };

    ghost is_encodable = { is_encodable_global };

    fn encode<'e>(&self, alloc: Global, section: &mut GlobalSection) -> Result<(), Error<'e>> {
        match &self.kind {
            GlobalKind::Inline(init) => add_global(alloc, section, &self.ty, init),
            GlobalKind::Import(_) => unreachable!(),
        }
    }

    fn put<'e, S: Sink>(&self, out: &mut S) -> Result<(), Error<'e>> {
        Ok(Resolved.spell(self, out)?)
    }
}

impl SectionItem for Tag<'_> {
    type Section = TagSection;

    const ANCHOR: CustomPlaceAnchor = CustomPlaceAnchor::Tag;

    ghost spelling = { λ item. (entities.tag_type (meaning.as_tag item)).bytes };

    ghost in_range = { λ item. (entities.tag_type (meaning.as_tag item)).in_range };

    ghost is_encodable = { is_encodable_tag };

    #[tactic(auto, using(crate::proofs::Ready::entered_resolved))]
    fn encode<'e>(&self, _alloc: Global, section: &mut TagSection) -> Result<(), Error<'e>> {
        section.tag(&conv::tag_type(&self.ty))
    }

    fn put<'e, S: Sink>(&self, out: &mut S) -> Result<(), Error<'e>> {
        Ok(Resolved.spell(self, out)?)
    }
}
