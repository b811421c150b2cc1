//! Walks over the parts of the tree outside of bodies, which replace each id by its index.
#![tactic(auto, using(wast_resolve_names::proofs::Parts::both_met, wast_resolve_names::proofs::Parts::first_fails, wast_resolve_names::proofs::Parts::second_fails, wast_resolve_names::proofs::Parts::id_met))]

ghost use Rattle.std.specs.Prelude.{⊤, List, map, flat_map, option_map, All, IsTrue};
ghost use Rattle.wast_tree_nodes.specs.Sites.{Check, OfItem, OfCall, OfBlock, Locals, if_there, in_index, in_heap, in_ref, in_val, in_signature, in_type, in_rec, in_type_use, in_mem_arg, in_pair, in_select, in_local, in_func_kind, in_func, in_use, in_table_type, in_global_type, exported_space, in_field, in_module};
ghost use Rattle.wast_tree_map.specs.Mapped.{Change, mapped_heap, mapped_ref, mapped_val, mapped_signature, mapped_type, mapped_rec, mapped_table_type, mapped_global_type, mapped_local, mapped_export, mapped_mem_arg, mapped_select, mapped_memory_init, mapped_memory_copy, mapped_table_init, mapped_table_copy, mapped_func_kind, mapped_func, mapped_field};
ghost use Rattle.wast_resolve_rules.specs.Demands.{match_if, first_unmet, body_counts_in, HasMany};
ghost use Rattle.wast_resolve_passes.specs.Locals.{NumbersIn, SaysAsMuch, kind_counts};
ghost use Rattle.wast_resolve_passes.specs.NumberedBodies.{IsNumberedBody, IsNumberedField};
ghost use Rattle.wast_resolve_passes.specs.Standing.{initial_context};
ghost use Rattle.wast_base.specs.Outcomes.{Outcome};
ghost use Rattle.wast_resolve_passes.specs.TwoSteps.{in_locals, in_body, with_locals, with_body};
ghost use Rattle.wast_resolve_names.specs.Resolvers.{known_of, scope_of};
ghost use Rattle.wast_resolve_names.specs.LookUps.{LooksTypesUp};
ghost use Rattle.wast_resolve_passes.specs.Tree.field;
ghost use Rattle.wast_resolve_passes.specs.Tree.space;
ghost use Rattle.wast_resolve_passes.specs.Tree.{FunctionType, TypeUse as Use};
ghost use Rattle.wast_resolve_names.specs.Walking.{WalksAsks, WalksSites, WalksFunctions, WalksBodies};

use crate::apart::{WalkApart, walk_outside, walk_outside_index};
use crate::constants::WalkConstants;
use crate::instrs::walk_expression;
use crate::local_names::LocalNames;
use crate::locals::name_locals;
use std::alloc::Global;
use wast_base::{Error, Index, Seq, Space};
use wast_resolve_core_types::{
    ResolveCoreType, resolve_heaptype, resolve_reftype, resolve_type, resolve_type_func,
    resolve_valtype,
};
use wast_resolve_names::{Resolver, check_match};
use wast_tree_nodes::{
    ArrayCopy, ArrayNewData, ArrayNewElem, ContBind, Export, Func, FuncKind, FunctionType,
    GlobalType, HeapType, LoadOrStoreLane, Local, MemArg, MemArgTarget, MemoryCopy, MemoryInit,
    ModuleField, Rec, RefType, SelectTypes, Switch, TableCopy, TableInit, TableType, Type, TypeUse,
    ValType, discard_said_inline,
};

/// Resolves an index of a space. Fails with E4 at an unknown id.
pub(crate) fn walk_index<'a>(
    names: &Resolver<'a>,
    space: Space,
    index: &mut Index<'a>,
) -> Result<(), Error<'a>>
    ensures { WalksAsks names.now (in_index space) (λ f. f.index space) index.old index.new result }
{
    // In a second walk all indices are numbers.
    if let Index::Num(_, _) = index {
        return Ok(());
    }
    names.number(index, space)?;
    Ok(())
}

/// Resolves an index of a space, if there is one.
pub(crate) fn walk_optional<'a>(
    names: &Resolver<'a>,
    space: Space,
    index: &mut Option<Index<'a>>,
) -> Result<(), Error<'a>>
    ensures { WalksAsks names.now (if_there (in_index space)) (λ f. option_map (f.index space)) index.old index.new result }
{
    match index {
        None => Ok(()),
        Some(index) => walk_index(names, space, index),
    }
}

/// Resolves indices of a space, in order.
pub(crate) fn walk_indices<'a>(
    names: &Resolver<'a>,
    space: Space,
    indices: &mut Seq<Index<'a>>,
) -> Result<(), Error<'a>>
    ensures { WalksAsks names.now (flat_map (in_index space)) (λ f. map (f.index space)) indices.old indices.new result }
{
    for i in 0..indices.len() {
        walk_index(names, space, indices.at_mut(i))?;
    }
    Ok(())
}

/// The ids of a module as a resolver for the generic calls on types, which requires nothing.
#[derive(Drop)]
struct ByNames<'r, 'a> {
    names: &'r Resolver<'a>,
}

impl<'r, 'a> ResolveCoreType<'a> for ByNames<'r, 'a> {
    ghost needs = { λ names i. ⊤ };

    ghost called = { LooksTypesUp (λ by. known_of by.names.now) };

    fn resolve_type_name(&mut self, name: &mut Index<'a>) -> Result<u32, Error<'a>> {
        self.names.number(name, Space::Ty)
    }
}

/// A part of the tree, outside of bodies, that can contain indices.
pub(crate) trait Walk<'a> {
    /// The checks in the part.
    ghost asks: { Self → List Check };

    /// The part of the tree that a change maps this one to.
    ghost mapped: { Change → Self → Self };

    /// Resolves the indices in the part. Fails with E4 at an unknown id.
    fn walk(&mut self, names: &Resolver<'a>) -> Result<(), Error<'a>>
        ensures { WalksAsks names.now asks mapped self.old self.new result };
}

/// Resolves each part of a list, in order.
pub(crate) fn walk_each<'a, T: Walk<'a>>(
    names: &Resolver<'a>,
    parts: &mut Seq<T>,
) -> Result<(), Error<'a>>
    ensures { WalksAsks names.now (flat_map T.asks) (λ f. map (T.mapped f)) parts.old parts.new result }
{
    for i in 0..parts.len() {
        parts.at_mut(i).walk(names)?;
    }
    Ok(())
}

impl<'a> Walk<'a> for ValType<'a> {
    ghost asks = { in_val };

    ghost mapped = { λ f. mapped_val f.index };

    fn walk(&mut self, names: &Resolver<'a>) -> Result<(), Error<'a>> {
        resolve_valtype(&mut ByNames { names }, self)?;
        Ok(())
    }
}

impl<'a> Walk<'a> for RefType<'a> {
    ghost asks = { in_ref };

    ghost mapped = { λ f. mapped_ref f.index };

    fn walk(&mut self, names: &Resolver<'a>) -> Result<(), Error<'a>> {
        resolve_reftype(&mut ByNames { names }, self)?;
        Ok(())
    }
}

impl<'a> Walk<'a> for HeapType<'a> {
    ghost asks = { in_heap };

    ghost mapped = { λ f. mapped_heap f.index };

    fn walk(&mut self, names: &Resolver<'a>) -> Result<(), Error<'a>> {
        resolve_heaptype(&mut ByNames { names }, self)?;
        Ok(())
    }
}

impl<'a> Walk<'a> for FunctionType<'a> {
    ghost asks = { in_signature };

    ghost mapped = { λ f. mapped_signature f.index };

    fn walk(&mut self, names: &Resolver<'a>) -> Result<(), Error<'a>> {
        resolve_type_func(&mut ByNames { names }, self)?;
        Ok(())
    }
}

impl<'a> Walk<'a> for Type<'a> {
    ghost asks = { in_type };

    ghost mapped = { mapped_type };

    fn walk(&mut self, names: &Resolver<'a>) -> Result<(), Error<'a>> {
        resolve_type(&mut ByNames { names }, self)?;
        Ok(())
    }
}

impl<'a> Walk<'a> for Rec<'a> {
    ghost asks = { in_rec };

    ghost mapped = { mapped_rec };

    fn walk(&mut self, names: &Resolver<'a>) -> Result<(), Error<'a>> {
        walk_each(names, &mut self.types)?;
        Ok(())
    }
}

impl<'a, T: Walk<'a>> Walk<'a> for Option<T> {
    ghost asks = { if_there T.asks };

    ghost mapped = { λ f o. option_map (T.mapped f) o };

    fn walk(&mut self, names: &Resolver<'a>) -> Result<(), Error<'a>> {
        match self {
            None => Ok(()),
            Some(part) => part.walk(names),
        }
    }
}

impl<'a> Walk<'a> for TypeUse<'a, FunctionType<'a>> {
    ghost asks = { in_type_use };

    ghost mapped = { λ f. f.used OfItem };

    fn walk(&mut self, names: &Resolver<'a>) -> Result<(), Error<'a>> {
        walk_optional(names, Space::Ty, &mut self.index)?;
        self.inline.walk(names)?;
        Ok(())
    }
}

impl<'a> Walk<'a> for TableType<'a> {
    ghost asks = { in_table_type };

    ghost mapped = { λ f. mapped_table_type f.index };

    fn walk(&mut self, names: &Resolver<'a>) -> Result<(), Error<'a>> {
        self.elem.walk(names)?;
        Ok(())
    }
}

impl<'a> Walk<'a> for GlobalType<'a> {
    ghost asks = { in_global_type };

    ghost mapped = { λ f. mapped_global_type f.index };

    fn walk(&mut self, names: &Resolver<'a>) -> Result<(), Error<'a>> {
        self.ty.walk(names)?;
        Ok(())
    }
}

impl<'a> Walk<'a> for Local<'a> {
    ghost asks = { in_local };

    ghost mapped = { mapped_local };

    fn walk(&mut self, names: &Resolver<'a>) -> Result<(), Error<'a>> {
        self.ty.walk(names)?;
        Ok(())
    }
}

impl<'a> Walk<'a> for Export<'a> {
    ghost asks = { λ e. in_index (exported_space e.kind) e.item };

    ghost mapped = { mapped_export };

    fn walk(&mut self, names: &Resolver<'a>) -> Result<(), Error<'a>> {
        walk_index(names, self.kind.space(), &mut self.item)?;
        Ok(())
    }
}

impl<'a> Walk<'a> for MemArg<'a> {
    ghost asks = { in_mem_arg };

    ghost mapped = { λ f. mapped_mem_arg f.index };

    fn walk(&mut self, names: &Resolver<'a>) -> Result<(), Error<'a>> {
        match &mut self.target {
            MemArgTarget::Memory(memory) => walk_index(names, Space::Memory, memory),
            MemArgTarget::Array(ty) => walk_index(names, Space::Ty, ty),
        }
    }
}

impl<'a> Walk<'a> for LoadOrStoreLane<'a> {
    ghost asks = { λ a. in_mem_arg a.memarg };

    ghost mapped = { λ f a. record a { memarg = mapped_mem_arg f.index a.memarg } };

    fn walk(&mut self, names: &Resolver<'a>) -> Result<(), Error<'a>> {
        self.memarg.walk(names)?;
        Ok(())
    }
}

impl<'a> Walk<'a> for SelectTypes<'a> {
    ghost asks = { in_select };

    ghost mapped = { λ f. mapped_select f.index };

    fn walk(&mut self, names: &Resolver<'a>) -> Result<(), Error<'a>> {
        match &mut self.tys {
            Some(types) => walk_each(names, types),
            None => Ok(()),
        }
    }
}

impl<'a> Walk<'a> for MemoryInit<'a> {
    ghost asks = { λ a. in_pair space.Data a.segment space.Memory a.mem };

    ghost mapped = { λ f. mapped_memory_init f.index };

    fn walk(&mut self, names: &Resolver<'a>) -> Result<(), Error<'a>> {
        walk_index(names, Space::Data, &mut self.segment)?;
        walk_index(names, Space::Memory, &mut self.mem)?;
        Ok(())
    }
}

impl<'a> Walk<'a> for MemoryCopy<'a> {
    ghost asks = { λ a. in_pair space.Memory a.src space.Memory a.dst };

    ghost mapped = { λ f. mapped_memory_copy f.index };

    fn walk(&mut self, names: &Resolver<'a>) -> Result<(), Error<'a>> {
        walk_index(names, Space::Memory, &mut self.src)?;
        walk_index(names, Space::Memory, &mut self.dst)?;
        Ok(())
    }
}

impl<'a> Walk<'a> for TableInit<'a> {
    ghost asks = { λ a. in_pair space.Elem a.elem space.Table a.table };

    ghost mapped = { λ f. mapped_table_init f.index };

    fn walk(&mut self, names: &Resolver<'a>) -> Result<(), Error<'a>> {
        walk_index(names, Space::Elem, &mut self.elem)?;
        walk_index(names, Space::Table, &mut self.table)?;
        Ok(())
    }
}

impl<'a> Walk<'a> for TableCopy<'a> {
    ghost asks = { λ a. in_pair space.Table a.dst space.Table a.src };

    ghost mapped = { λ f. mapped_table_copy f.index };

    fn walk(&mut self, names: &Resolver<'a>) -> Result<(), Error<'a>> {
        walk_index(names, Space::Table, &mut self.dst)?;
        walk_index(names, Space::Table, &mut self.src)?;
        Ok(())
    }
}

impl<'a> Walk<'a> for ArrayNewData<'a> {
    ghost asks = { λ a. in_pair space.Ty a.array space.Data a.data_idx };

    ghost mapped = { λ f a. record { array = f.index space.Ty a.array; data_idx = f.index space.Data a.data_idx } };

    fn walk(&mut self, names: &Resolver<'a>) -> Result<(), Error<'a>> {
        walk_index(names, Space::Ty, &mut self.array)?;
        walk_index(names, Space::Data, &mut self.data_idx)?;
        Ok(())
    }
}

impl<'a> Walk<'a> for ArrayNewElem<'a> {
    ghost asks = { λ a. in_pair space.Ty a.array space.Elem a.elem_idx };

    ghost mapped = { λ f a. record { array = f.index space.Ty a.array; elem_idx = f.index space.Elem a.elem_idx } };

    fn walk(&mut self, names: &Resolver<'a>) -> Result<(), Error<'a>> {
        walk_index(names, Space::Ty, &mut self.array)?;
        walk_index(names, Space::Elem, &mut self.elem_idx)?;
        Ok(())
    }
}

impl<'a> Walk<'a> for ArrayCopy<'a> {
    ghost asks = { λ a. in_pair space.Ty a.dest_array space.Ty a.src_array };

    ghost mapped = { λ f a. record { dest_array = f.index space.Ty a.dest_array; src_array = f.index space.Ty a.src_array } };

    fn walk(&mut self, names: &Resolver<'a>) -> Result<(), Error<'a>> {
        walk_index(names, Space::Ty, &mut self.dest_array)?;
        walk_index(names, Space::Ty, &mut self.src_array)?;
        Ok(())
    }
}

impl<'a> Walk<'a> for ContBind<'a> {
    ghost asks = { λ a. in_pair space.Ty a.argument_index space.Ty a.result_index };

    ghost mapped = { λ f a. record { argument_index = f.index space.Ty a.argument_index; result_index = f.index space.Ty a.result_index } };

    fn walk(&mut self, names: &Resolver<'a>) -> Result<(), Error<'a>> {
        walk_index(names, Space::Ty, &mut self.argument_index)?;
        walk_index(names, Space::Ty, &mut self.result_index)?;
        Ok(())
    }
}

impl<'a> Walk<'a> for Switch<'a> {
    ghost asks = { λ a. in_pair space.Ty a.type_index space.Tag a.tag_index };

    ghost mapped = { λ f a. record { type_index = f.index space.Ty a.type_index; tag_index = f.index space.Tag a.tag_index } };

    fn walk(&mut self, names: &Resolver<'a>) -> Result<(), Error<'a>> {
        walk_index(names, Space::Ty, &mut self.type_index)?;
        walk_index(names, Space::Tag, &mut self.tag_index)?;
        Ok(())
    }
}

/// Checks the inline type of a type use against the type at its index. Fails with E6, E5 or E7 at
/// the index.
fn check_type_use<'a>(
    names: &Resolver<'a>,
    ty: &TypeUse<'a, FunctionType<'a>>,
) -> Result<(), Error<'a>>
    ensures { Outcome ⊥ ⊥ (first_unmet (match_if (scope_of names.now) ty.now.index ty.now.inline)) result }
{
    match (&ty.index, &ty.inline) {
        (Some(index), Some(inline)) => check_match(names, index, inline),
        (Some(_), None) => Ok(()),
        (None, Some(_)) => Ok(()),
        (None, None) => Ok(()),
    }
}

/// Resolves a type use: the index, then the ids in the inline type. Then it checks that both match.
pub(crate) fn walk_type_use<'a>(
    names: &Resolver<'a>,
    ty: &mut TypeUse<'a, FunctionType<'a>>,
) -> Result<(), Error<'a>>
    ensures { WalksSites names.now (in_use OfItem) (λ f. f.used OfItem) ty.old ty.new result }
{
    ty.walk(names)?;
    check_type_use(names, ty)?;
    Ok(())
}

/// Resolves the type use of an indirect call or a block. Removes the inline type if there is an
/// index.
pub(crate) fn walk_body_type<'a>(
    names: &Resolver<'a>,
    ty: &mut TypeUse<'a, FunctionType<'a>>,
) -> Result<(), Error<'a>>
    ensures call { WalksSites names.now (in_use OfCall) (λ f. f.used OfCall) ty.old ty.new result }
    ensures block { WalksSites names.now (in_use OfBlock) (λ f. f.used OfBlock) ty.old ty.new result }
{
    walk_type_use(names, ty)?;
    discard_said_inline(ty);
    Ok(())
}

/// Resolves the types of the locals of a function.
fn walk_locals<'a>(names: &Resolver<'a>, kind: &mut FuncKind<'a>) -> Result<(), Error<'a>>
    ensures { WalksAsks names.now in_locals with_locals kind.old kind.new result }
{
    match kind {
        FuncKind::Import(..) => Ok(()),
        FuncKind::Inline { locals, .. } => walk_each(names, locals),
    }
}

/// Resolves the body of a function with these parameters and locals.
fn walk_body<'a>(
    alloc: Global,
    names: &Resolver<'a>,
    locals: &LocalNames<'a>,
    kind: &mut FuncKind<'a>,
) -> Result<(), Error<'a>>
    ensures { (l : Locals) → NumbersIn (scope_of names.now) l kind.old locals.now →
        WalksBodies names.now (in_body (initial_context l)) (λ f. with_body f (initial_context l)) kind.old kind.new result }
{
    match kind {
        FuncKind::Import(..) => Ok(()),
        FuncKind::Inline { expression, .. } => walk_expression(alloc, names, locals, expression),
    }
}

/// Resolves the contents of a function: the types of its locals, duplicate ids of parameters and
/// locals, and the body. The type use has been resolved before, and has the same parameters.
///
/// With `skips_bodies` the body is skipped, so nothing may be left to resolve in it.
fn walk_kind<'a>(
    alloc: Global,
    names: &Resolver<'a>,
    ty: &TypeUse<'a, FunctionType<'a>>,
    kind: &mut FuncKind<'a>,
    skips_bodies: bool,
) -> Result<(), Error<'a>>
    requires { IsTrue skips_bodies → IsNumberedBody kind.old }
    ensures { (u : Use FunctionType) → SaysAsMuch (scope_of names.now) u ty.now →
        WalksFunctions (HasMany (kind_counts (scope_of names.now) u kind.old))
        names.now (in_func_kind u) (λ f. mapped_func_kind f u) kind.old kind.new result }
{
    walk_locals(names, kind)?;
    let locals = name_locals(alloc, names, ty, kind)?;
    if skips_bodies {
        return Ok(());
    }
    walk_body(alloc, names, &locals, kind)?;
    Ok(())
}

/// Resolves a function: its type use, then its contents. `skips_bodies` is as in `walk_kind`.
fn walk_func<'a>(
    alloc: Global,
    names: &Resolver<'a>,
    func: &mut Func<'a>,
    skips_bodies: bool,
) -> Result<(), Error<'a>>
    requires { IsTrue skips_bodies → IsNumberedBody func.old.kind }
    ensures { WalksFunctions (HasMany (body_counts_in (scope_of names.now) (field.Func func.old)))
        names.now in_func mapped_func func.old func.new result }
{
    walk_type_use(names, &mut func.ty)?;
    walk_kind(alloc, names, &func.ty, &mut func.kind, skips_bodies)?;
    Ok(())
}

/// Resolves a field. `skips_bodies` is as in `walk_kind`, if the field is a function.
fn walk_field<'a>(
    alloc: Global,
    names: &Resolver<'a>,
    field: &mut ModuleField<'a>,
    skips_bodies: bool,
) -> Result<(), Error<'a>>
    requires { IsTrue skips_bodies → IsNumberedField field.old }
    ensures { WalksFunctions (HasMany (body_counts_in (scope_of names.now) field.old))
        names.now in_field mapped_field field.old field.new result }
{
    match field {
        ModuleField::Ty(ty) => walk_outside(names, ty),
        ModuleField::Rec(rec) => walk_outside(names, rec),
        ModuleField::Import(imports) => imports.walk_apart(names),
        ModuleField::Func(func) => walk_func(alloc, names, func, skips_bodies),
        ModuleField::Table(table) => table.walk_constants(alloc, names),
        ModuleField::Memory(memory) => memory.walk_apart(names),
        ModuleField::Global(global) => global.walk_constants(alloc, names),
        ModuleField::Export(export) => walk_outside(names, export),
        ModuleField::Start(func) => walk_outside_index(names, Space::Func, func),
        ModuleField::Elem(elem) => elem.walk_constants(alloc, names),
        ModuleField::Data(data) => data.walk_constants(alloc, names),
        ModuleField::Tag(tag) => tag.walk_apart(names),
        ModuleField::Custom(_) => Ok(()),
    }
}

/// Replaces each id in the fields by its index, in order (text format: identifiers, indices).
///
/// For example, `(func $f call $f)` becomes `(func $f call 0)`.
///
/// With `skips_bodies` the bodies of functions are skipped. Then nothing may be left to resolve in
/// them: each index is a number, and no check of a type use or a label can fail.
///
/// # Errors
///
/// - E2 or E4 to E9: the first check that fails.
/// - E10: a function has 2^32 parameters and locals, or an expression as many enclosing blocks.
/// - E12: allocation for ids or enclosing blocks failed.
pub fn walk_fields<'a>(
    alloc: Global,
    names: &Resolver<'a>,
    fields: &mut Seq<ModuleField<'a>>,
    skips_bodies: bool,
) -> Result<(), Error<'a>>
    requires { IsTrue skips_bodies → All IsNumberedField fields.old }
    ensures { WalksFunctions (HasMany (flat_map (body_counts_in (scope_of names.now)) fields.old))
        names.now in_module (λ f. map (mapped_field f)) fields.old fields.new result }
{
    for i in 0..fields.len() {
        walk_field(alloc, names, fields.at_mut(i), skips_bodies)?;
    }
    Ok(())
}
