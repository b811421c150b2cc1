//! Walks over fields with constant expressions.
#![tactic(auto, using(wast_resolve_names::proofs::Parts::both_met, wast_resolve_names::proofs::Parts::first_fails, wast_resolve_names::proofs::Parts::second_fails))]

ghost use Rattle.std.specs.Prelude.{List, map, flat_map, option_map};
ghost use Rattle.wast_tree_nodes.specs.Sites.{Site, at_index, if_there, in_constant, in_table_kind, in_global_kind, in_global, in_elem_kind, in_payload, in_elem, in_data_kind};
ghost use Rattle.wast_tree_map.specs.Mapped.{Change, mapped_constant, mapped_table_kind, mapped_table, mapped_global_kind, mapped_global, mapped_elem_kind, mapped_payload, mapped_elem, mapped_data_kind, mapped_data};
ghost use Rattle.wast_resolve_passes.specs.TwoSteps.{in_type_of_table, in_init, with_table_type, with_init, in_elem_table, in_elem_offset, with_elem_table, with_elem_offset, in_elements, in_element_type, with_elements, with_element_type, in_data_memory, in_data_offset, with_data_memory, with_data_offset};
ghost use Rattle.wast_resolve_names.specs.Walking.{WalksSites, WalksBodies};

use crate::apart::{walk_outside, walk_outside_index};
use crate::instrs::walk_expression;
use crate::local_names::LocalNames;
use crate::walks::{walk_indices, walk_optional};
use std::alloc;
use wast_base::{Error, Index, Seq, Space};
use wast_resolve_names::Resolver;
use wast_tree_nodes::{
    Data, DataKind, Elem, ElemKind, ElemPayload, Expression, Global, GlobalKind, Table, TableKind,
};

/// Resolves an index of a field, if there is one.
fn walk_outside_optional<'a>(
    names: &Resolver<'a>,
    space: Space,
    index: &mut Option<Index<'a>>,
) -> Result<(), Error<'a>>
    ensures { WalksSites names.now (if_there (at_index space)) (λ f. option_map (f.index space)) index.old index.new result }
{
    walk_optional(names, space, index)
}

/// Resolves indices of a field, in order. Enclosing blocks do not change.
fn walk_outside_indices<'a>(
    names: &Resolver<'a>,
    space: Space,
    indices: &mut Seq<Index<'a>>,
) -> Result<(), Error<'a>>
    ensures { WalksBodies names.now (flat_map (at_index space)) (λ f. map (f.index space)) indices.old indices.new result }
{
    walk_indices(names, space, indices)
}

/// A part of a field that contains constant expressions, each independent of the others.
pub(crate) trait WalkConstants<'a> {
    /// The sites in the part.
    ghost stands: { Self → List Site };

    /// The part of the tree that a change maps this one to.
    ghost mapped: { Change → Self → Self };

    /// Resolves the part. Fails with the first check that fails. Or the error has no position: E12,
    /// or E10 if an expression has 2^32 enclosing blocks or more.
    fn walk_constants(
        &mut self,
        alloc: alloc::Global,
        names: &Resolver<'a>,
    ) -> Result<(), Error<'a>>
        ensures { WalksBodies names.now stands mapped self.old self.new result };
}

/// Resolves each part of a list, in order.
fn walk_each_constants<'a, T: WalkConstants<'a>>(
    alloc: alloc::Global,
    names: &Resolver<'a>,
    parts: &mut Seq<T>,
) -> Result<(), Error<'a>>
    ensures { WalksBodies names.now (flat_map T.stands) (λ f. map (T.mapped f)) parts.old parts.new result }
{
    for i in 0..parts.len() {
        parts.at_mut(i).walk_constants(alloc, names)?;
    }
    Ok(())
}

/// A constant expression.
impl<'a> WalkConstants<'a> for Expression<'a> {
    ghost stands = { in_constant };

    ghost mapped = { mapped_constant };

    fn walk_constants(
        &mut self,
        alloc: alloc::Global,
        names: &Resolver<'a>,
    ) -> Result<(), Error<'a>> {
        walk_expression(alloc, names, &LocalNames::none(alloc), self)?;
        Ok(())
    }
}

impl<'a> WalkConstants<'a> for Option<Expression<'a>> {
    ghost stands = { if_there in_constant };

    ghost mapped = { λ f o. option_map (mapped_constant f) o };

    fn walk_constants(
        &mut self,
        alloc: alloc::Global,
        names: &Resolver<'a>,
    ) -> Result<(), Error<'a>> {
        match self {
            None => Ok(()),
            Some(expression) => expression.walk_constants(alloc, names),
        }
    }
}

/// Resolves the type of a table, or of its inline elements.
fn walk_table_type<'a>(names: &Resolver<'a>, kind: &mut TableKind<'a>) -> Result<(), Error<'a>>
    ensures { WalksSites names.now in_type_of_table with_table_type kind.old kind.new result }
{
    match kind {
        TableKind::Import { ty, .. } => walk_outside(names, ty),
        TableKind::Normal { ty, .. } => walk_outside(names, ty),
        TableKind::Inline { elem, .. } => walk_outside(names, elem),
    }
}

/// Resolves the initial value of a table, or its inline elements.
fn walk_init<'a>(
    alloc: alloc::Global,
    names: &Resolver<'a>,
    kind: &mut TableKind<'a>,
) -> Result<(), Error<'a>>
    ensures { WalksBodies names.now in_init with_init kind.old kind.new result }
{
    match kind {
        TableKind::Import { .. } => Ok(()),
        TableKind::Normal { init_expr, .. } => init_expr.walk_constants(alloc, names),
        TableKind::Inline { payload, .. } => payload.walk_constants(alloc, names),
    }
}

impl<'a> WalkConstants<'a> for TableKind<'a> {
    ghost stands = { in_table_kind };

    ghost mapped = { mapped_table_kind };

    fn walk_constants(
        &mut self,
        alloc: alloc::Global,
        names: &Resolver<'a>,
    ) -> Result<(), Error<'a>> {
        walk_table_type(names, self)?;
        walk_init(alloc, names, self)?;
        Ok(())
    }
}

/// Resolves the table of an element segment.
fn walk_elem_table<'a>(names: &Resolver<'a>, kind: &mut ElemKind<'a>) -> Result<(), Error<'a>>
    ensures { WalksSites names.now in_elem_table with_elem_table kind.old kind.new result }
{
    match kind {
        ElemKind::Passive => Ok(()),
        ElemKind::Declared => Ok(()),
        ElemKind::Active { table, .. } => walk_outside_optional(names, Space::Table, table),
    }
}

/// Resolves the offset of an element segment.
fn walk_elem_offset<'a>(
    alloc: alloc::Global,
    names: &Resolver<'a>,
    kind: &mut ElemKind<'a>,
) -> Result<(), Error<'a>>
    ensures { WalksBodies names.now in_elem_offset with_elem_offset kind.old kind.new result }
{
    match kind {
        ElemKind::Passive => Ok(()),
        ElemKind::Declared => Ok(()),
        ElemKind::Active { offset, .. } => offset.walk_constants(alloc, names),
    }
}

impl<'a> WalkConstants<'a> for ElemKind<'a> {
    ghost stands = { in_elem_kind };

    ghost mapped = { mapped_elem_kind };

    fn walk_constants(
        &mut self,
        alloc: alloc::Global,
        names: &Resolver<'a>,
    ) -> Result<(), Error<'a>> {
        walk_elem_table(names, self)?;
        walk_elem_offset(alloc, names, self)?;
        Ok(())
    }
}

/// Resolves the elements of a segment.
fn walk_elements<'a>(
    alloc: alloc::Global,
    names: &Resolver<'a>,
    payload: &mut ElemPayload<'a>,
) -> Result<(), Error<'a>>
    ensures { WalksBodies names.now in_elements with_elements payload.old payload.new result }
{
    match payload {
        ElemPayload::Indices(indices) => walk_outside_indices(names, Space::Func, indices),
        ElemPayload::Exprs { exprs, .. } => walk_each_constants(alloc, names, exprs),
    }
}

/// Resolves the type of the expressions of a segment.
fn walk_element_type<'a>(
    names: &Resolver<'a>,
    payload: &mut ElemPayload<'a>,
) -> Result<(), Error<'a>>
    ensures { WalksSites names.now in_element_type with_element_type payload.old payload.new result }
{
    match payload {
        ElemPayload::Indices(_) => Ok(()),
        ElemPayload::Exprs { ty, .. } => walk_outside(names, ty),
    }
}

impl<'a> WalkConstants<'a> for ElemPayload<'a> {
    ghost stands = { in_payload };

    ghost mapped = { mapped_payload };

    fn walk_constants(
        &mut self,
        alloc: alloc::Global,
        names: &Resolver<'a>,
    ) -> Result<(), Error<'a>> {
        walk_elements(alloc, names, self)?;
        walk_element_type(names, self)?;
        Ok(())
    }
}

/// Resolves the memory of a data segment.
fn walk_data_memory<'a>(names: &Resolver<'a>, kind: &mut DataKind<'a>) -> Result<(), Error<'a>>
    ensures { WalksSites names.now in_data_memory with_data_memory kind.old kind.new result }
{
    match kind {
        DataKind::Passive => Ok(()),
        DataKind::Active { memory, .. } => walk_outside_index(names, Space::Memory, memory),
    }
}

/// Resolves the offset of a data segment.
fn walk_data_offset<'a>(
    alloc: alloc::Global,
    names: &Resolver<'a>,
    kind: &mut DataKind<'a>,
) -> Result<(), Error<'a>>
    ensures { WalksBodies names.now in_data_offset with_data_offset kind.old kind.new result }
{
    match kind {
        DataKind::Passive => Ok(()),
        DataKind::Active { offset, .. } => offset.walk_constants(alloc, names),
    }
}

impl<'a> WalkConstants<'a> for DataKind<'a> {
    ghost stands = { in_data_kind };

    ghost mapped = { mapped_data_kind };

    fn walk_constants(
        &mut self,
        alloc: alloc::Global,
        names: &Resolver<'a>,
    ) -> Result<(), Error<'a>> {
        walk_data_memory(names, self)?;
        walk_data_offset(alloc, names, self)?;
        Ok(())
    }
}

impl<'a> WalkConstants<'a> for Table<'a> {
    ghost stands = { λ t. in_table_kind t.kind };

    ghost mapped = { mapped_table };

    fn walk_constants(
        &mut self,
        alloc: alloc::Global,
        names: &Resolver<'a>,
    ) -> Result<(), Error<'a>> {
        self.kind.walk_constants(alloc, names)?;
        Ok(())
    }
}

impl<'a> WalkConstants<'a> for GlobalKind<'a> {
    ghost stands = { in_global_kind };

    ghost mapped = { mapped_global_kind };

    fn walk_constants(
        &mut self,
        alloc: alloc::Global,
        names: &Resolver<'a>,
    ) -> Result<(), Error<'a>> {
        match self {
            GlobalKind::Import(_) => Ok(()),
            GlobalKind::Inline(value) => value.walk_constants(alloc, names),
        }
    }
}

impl<'a> WalkConstants<'a> for Global<'a> {
    ghost stands = { in_global };

    ghost mapped = { mapped_global };

    fn walk_constants(
        &mut self,
        alloc: alloc::Global,
        names: &Resolver<'a>,
    ) -> Result<(), Error<'a>> {
        walk_outside(names, &mut self.ty)?;
        self.kind.walk_constants(alloc, names)?;
        Ok(())
    }
}

impl<'a> WalkConstants<'a> for Elem<'a> {
    ghost stands = { in_elem };

    ghost mapped = { mapped_elem };

    fn walk_constants(
        &mut self,
        alloc: alloc::Global,
        names: &Resolver<'a>,
    ) -> Result<(), Error<'a>> {
        self.kind.walk_constants(alloc, names)?;
        self.payload.walk_constants(alloc, names)?;
        Ok(())
    }
}

impl<'a> WalkConstants<'a> for Data<'a> {
    ghost stands = { λ d. in_data_kind d.kind };

    ghost mapped = { mapped_data };

    fn walk_constants(
        &mut self,
        alloc: alloc::Global,
        names: &Resolver<'a>,
    ) -> Result<(), Error<'a>> {
        self.kind.walk_constants(alloc, names)?;
        Ok(())
    }
}
