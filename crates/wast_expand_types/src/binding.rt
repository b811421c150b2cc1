//! Resolves the type uses in each part of the tree.

ghost use Rattle.std.specs.Prelude.{◌≡◌, ◌≤◌, [], Some, List, map, flat_map, All, IfOk, IfErr, IsTrue, OnOk};
ghost use Rattle.wast_expand_types.specs.Tree.index;
ghost use Rattle.wast_expand_keys.specs.Signatures.{Signature};
ghost use Rattle.wast_tree_nodes.specs.Sites.{OfItem, OfBlock, constant_context, in_block, in_try_table, in_instr, in_indirect, in_constant, in_func_kind, in_use, in_func, in_tag_type, in_item_kind, in_sig, in_import, in_field};
ghost use Rattle.wast_tree_nodes.specs.Types.{is_short};
ghost use Rattle.wast_tree_map.specs.Mapped.{mapped_block, mapped_try_table, mapped_indirect, mapped_instr, mapped_constant, mapped_func_kind, mapped_func, mapped_tag_type, mapped_item_kind, mapped_sig, mapped_import_items, mapped_import, mapped_tag};
ghost use Rattle.wast_expand_keys.specs.NeedingUses.{needed_in};
ghost use Rattle.wast_base.specs.Filling.{RunsOut};
ghost use Rattle.wast_expand_keys.specs.Expanders.{BoundSignatures, LookUp, found_in};
ghost use Rattle.wast_expand_keys.specs.Expanded.{bound_inline, bound_use, binding_change, bound_field};
ghost use Rattle.wast_expand_types.specs.Binding.{no_use, wants_type, next_after, AddsTypes, IsPassed, IsPassedBody, IsPassedField};

use crate::binder::Binder;
use std::alloc::Global;
use wast_base::{Error, Seq};
use wast_expand_keys::TypeReference;
use wast_tree_nodes::{
    BlockType, CallIndirect, Expression, Func, FuncKind, FunctionType, ImportItems, Imports,
    Instruction, ItemKind, ItemSig, ModuleField, Tag, TagType, TryTable, TypeUse,
};

/// A part of the tree that can contain type uses.
///
/// Type uses do not depend on the blocks around them, so contracts treat a part of a body as if it
/// came first.
pub(crate) trait Bind<'a> {
    /// The signatures of the type uses in it that need a type and have no index.
    ghost needed: { Self → List Signature };

    /// The part after its type uses are resolved by a look-up.
    ghost bound: { LookUp → Self → Self };

    /// Resolves each type use in it that needs a type and has no index.
    fn bind(&mut self, binder: &mut Binder<'a>) -> Result<(), Error<'a>>
        ensures bound { OnOk result ((more : BoundSignatures) →
            self.new ≡ bound (found_in binder.new.cx more) self.old) }
        ensures adds { OnOk result (AddsTypes binder.old binder.new (needed self.old)) }
        ensures refusal { IfErr result (RunsOut (next_after binder.old (needed self.old))) }
        ensures counter_grows { binder.old.gensym ≤ binder.new.gensym };
}

/// Resolves type uses in each part of a list, in order.
pub(crate) fn bind_each<'a, T: Bind<'a>>(
    parts: &mut Seq<T>,
    binder: &mut Binder<'a>,
) -> Result<(), Error<'a>>
    ensures bound { OnOk result ((more : BoundSignatures) →
        parts.new ≡ map (T.bound (found_in binder.new.cx more)) parts.old) }
    ensures adds { OnOk result (AddsTypes binder.old binder.new (flat_map T.needed parts.old)) }
    ensures refusal { IfErr result (RunsOut (next_after binder.old (flat_map T.needed parts.old))) }
    ensures counter_grows { binder.old.gensym ≤ binder.new.gensym }
{
    for i in 0..parts.len() {
        parts.at_mut(i).bind(binder)?;
    }
    Ok(())
}

/// Resolves type uses in each field, in order. With `skips_bodies` the bodies of functions are
/// skipped, so there must be nothing to resolve in them.
pub(crate) fn bind_fields<'a>(
    fields: &mut Seq<ModuleField<'a>>,
    skips_bodies: bool,
    binder: &mut Binder<'a>,
) -> Result<(), Error<'a>>
    requires { IsTrue skips_bodies → All IsPassedField fields.old }
    ensures bound { OnOk result ((more : BoundSignatures) →
        fields.new ≡ map (bound_field (found_in binder.new.cx more)) fields.old) }
    ensures adds { OnOk result (AddsTypes binder.old binder.new (flat_map (λ x. needed_in (in_field x)) fields.old)) }
    ensures refusal { IfErr result (RunsOut (next_after binder.old (flat_map (λ x. needed_in (in_field x)) fields.old))) }
    ensures counter_grows { binder.old.gensym ≤ binder.new.gensym }
{
    for i in 0..fields.len() {
        bind_field(fields.at_mut(i), skips_bodies, binder)?;
    }
    Ok(())
}

/// Does the same for one field.
fn bind_field<'a>(
    field: &mut ModuleField<'a>,
    skips_bodies: bool,
    binder: &mut Binder<'a>,
) -> Result<(), Error<'a>>
    requires { IsTrue skips_bodies → IsPassedField field.old }
    ensures bound { OnOk result ((more : BoundSignatures) →
        field.new ≡ bound_field (found_in binder.new.cx more) field.old) }
    ensures adds { OnOk result (AddsTypes binder.old binder.new (needed_in (in_field field.old))) }
    ensures refusal { IfErr result (RunsOut (next_after binder.old (needed_in (in_field field.old)))) }
    ensures counter_grows { binder.old.gensym ≤ binder.new.gensym }
{
    match field {
        ModuleField::Ty(_) => Ok(()),
        ModuleField::Rec(_) => Ok(()),
        ModuleField::Import(imports) => {
            imports.bind(binder)?;
            Ok(())
        }
        ModuleField::Func(func) => {
            bind_func(func, skips_bodies, binder)?;
            Ok(())
        }
        ModuleField::Table(table) => {
            table.bind(binder)?;
            Ok(())
        }
        ModuleField::Memory(_) => Ok(()),
        ModuleField::Global(global) => {
            global.bind(binder)?;
            Ok(())
        }
        ModuleField::Export(_) => Ok(()),
        ModuleField::Start(_) => Ok(()),
        ModuleField::Elem(elem) => {
            elem.bind(binder)?;
            Ok(())
        }
        ModuleField::Data(data) => {
            data.bind(binder)?;
            Ok(())
        }
        ModuleField::Tag(tag) => {
            tag.bind(binder)?;
            Ok(())
        }
        ModuleField::Custom(_) => Ok(()),
    }
}

/// Does the same for a function.
fn bind_func<'a>(
    func: &mut Func<'a>,
    skips_bodies: bool,
    binder: &mut Binder<'a>,
) -> Result<(), Error<'a>>
    requires { IsTrue skips_bodies → IsPassedBody func.old.kind }
    ensures bound { OnOk result ((more : BoundSignatures) →
        func.new ≡ mapped_func (binding_change (found_in binder.new.cx more)) func.old) }
    ensures adds { OnOk result (AddsTypes binder.old binder.new (needed_in (in_func func.old))) }
    ensures refusal { IfErr result (RunsOut (next_after binder.old (needed_in (in_func func.old)))) }
    ensures counter_grows { binder.old.gensym ≤ binder.new.gensym }
{
    if skips_bodies {
        return bind_outside(func, binder);
    }
    func.bind(binder)
}

/// Resolves the type use of a function that has nothing to resolve in its body.
fn bind_outside<'a>(func: &mut Func<'a>, binder: &mut Binder<'a>) -> Result<(), Error<'a>>
    requires { IsPassedBody func.old.kind }
    ensures bound { OnOk result ((more : BoundSignatures) →
        func.new ≡ mapped_func (binding_change (found_in binder.new.cx more)) func.old) }
    ensures adds { OnOk result (AddsTypes binder.old binder.new (needed_in (in_func func.old))) }
    ensures refusal { IfErr result (RunsOut (next_after binder.old (needed_in (in_func func.old)))) }
    ensures counter_grows { binder.old.gensym ≤ binder.new.gensym }
{
    func.ty.bind(binder)?;
    Ok(())
}

impl<'a> Bind<'a> for Imports<'a> {
    ghost needed = { λ i. needed_in (in_import i.items) };

    ghost bound = { λ find. mapped_import (binding_change find) };

    fn bind(&mut self, binder: &mut Binder<'a>) -> Result<(), Error<'a>> {
        self.items.bind(binder)?;
        Ok(())
    }
}

impl<'a> Bind<'a> for ImportItems<'a> {
    ghost needed = { λ i. needed_in (in_import i) };

    ghost bound = { λ find. mapped_import_items (binding_change find) };

    fn bind(&mut self, binder: &mut Binder<'a>) -> Result<(), Error<'a>> {
        match self {
            ImportItems::Single { sig, .. } => {
                sig.bind(binder)?;
                Ok(())
            }
            ImportItems::Group1 { items, .. } => {
                bind_each(items, binder)?;
                Ok(())
            }
            ImportItems::Group2 { sig, .. } => {
                sig.bind(binder)?;
                Ok(())
            }
        }
    }
}

/// An item of an import group, with its name.
impl<'a> Bind<'a> for (&'a str, ItemSig<'a>) {
    ghost needed = { λ p. needed_in (in_sig p.1) };

    ghost bound = { λ find p. (p.0, mapped_sig (binding_change find) p.1) };

    fn bind(&mut self, binder: &mut Binder<'a>) -> Result<(), Error<'a>> {
        self.1.bind(binder)?;
        Ok(())
    }
}

impl<'a> Bind<'a> for ItemSig<'a> {
    ghost needed = { λ s. needed_in (in_sig s) };

    ghost bound = { λ find. mapped_sig (binding_change find) };

    fn bind(&mut self, binder: &mut Binder<'a>) -> Result<(), Error<'a>> {
        self.kind.bind(binder)?;
        Ok(())
    }
}

impl<'a> Bind<'a> for ItemKind<'a> {
    ghost needed = { λ k. needed_in (in_item_kind k) };

    ghost bound = { λ find. mapped_item_kind (binding_change find) };

    fn bind(&mut self, binder: &mut Binder<'a>) -> Result<(), Error<'a>> {
        match self {
            ItemKind::Func(ty) => {
                ty.bind(binder)?;
                Ok(())
            }
            ItemKind::FuncExact(ty) => {
                ty.bind(binder)?;
                Ok(())
            }
            ItemKind::Table(_) => Ok(()),
            ItemKind::Memory(_) => Ok(()),
            ItemKind::Global(_) => Ok(()),
            ItemKind::Tag(ty) => {
                ty.bind(binder)?;
                Ok(())
            }
        }
    }
}

impl<'a> Bind<'a> for Tag<'a> {
    ghost needed = { λ t. needed_in (in_tag_type t.ty) };

    ghost bound = { λ find. mapped_tag (binding_change find) };

    fn bind(&mut self, binder: &mut Binder<'a>) -> Result<(), Error<'a>> {
        self.ty.bind(binder)?;
        Ok(())
    }
}

impl<'a> Bind<'a> for TagType<'a> {
    ghost needed = { λ t. needed_in (in_tag_type t) };

    ghost bound = { λ find. mapped_tag_type (binding_change find) };

    fn bind(&mut self, binder: &mut Binder<'a>) -> Result<(), Error<'a>> {
        match self {
            TagType::Exception(ty) => {
                ty.bind(binder)?;
                Ok(())
            }
        }
    }
}

impl<'a> Bind<'a> for Func<'a> {
    ghost needed = { λ f. needed_in (in_func f) };

    ghost bound = { λ find. mapped_func (binding_change find) };

    fn bind(&mut self, binder: &mut Binder<'a>) -> Result<(), Error<'a>> {
        self.ty.bind(binder)?;
        self.kind.bind(binder)?;
        Ok(())
    }
}

impl<'a> Bind<'a> for FuncKind<'a> {
    ghost needed = { λ k. needed_in (in_func_kind no_use k) };

    ghost bound = { λ find. mapped_func_kind (binding_change find) no_use };

    fn bind(&mut self, binder: &mut Binder<'a>) -> Result<(), Error<'a>> {
        match self {
            FuncKind::Import(..) => Ok(()),
            FuncKind::Inline { expression, .. } => {
                expression.bind(binder)?;
                Ok(())
            }
        }
    }
}

/// A constant expression or a body.
impl<'a> Bind<'a> for Expression<'a> {
    ghost needed = { λ e. needed_in (in_constant e) };

    ghost bound = { λ find. mapped_constant (binding_change find) };

    fn bind(&mut self, binder: &mut Binder<'a>) -> Result<(), Error<'a>> {
        bind_instrs(&mut self.instrs, binder)?;
        Ok(())
    }
}

/// Returns whether an instruction can be skipped, because it has nothing to resolve. May return
/// `false` for such an instruction too.
fn is_passed(instr: &Instruction) -> bool
    ensures { IsTrue result → IsPassed instr.now }
{
    match instr {
        Instruction::Plain(_)
        | Instruction::Mem(..)
        | Instruction::end_(_)
        | Instruction::br(_)
        | Instruction::br_if(_)
        | Instruction::call(_)
        | Instruction::local_get(_)
        | Instruction::local_set(_)
        | Instruction::local_tee(_)
        | Instruction::global_get(_)
        | Instruction::global_set(_)
        | Instruction::i32_const(_)
        | Instruction::i64_const(_)
        | Instruction::f32_const(_)
        | Instruction::f64_const(_) => true,
        _ => false,
    }
}

/// Resolves type uses in each instruction, in order.
fn bind_instrs<'a>(
    instrs: &mut Seq<Instruction<'a>>,
    binder: &mut Binder<'a>,
) -> Result<(), Error<'a>>
    ensures bound { OnOk result ((more : BoundSignatures) →
        instrs.new ≡ map (mapped_instr (binding_change (found_in binder.new.cx more)) constant_context) instrs.old) }
    ensures adds { OnOk result (AddsTypes binder.old binder.new (flat_map (λ i. needed_in (in_instr constant_context i)) instrs.old)) }
    ensures refusal { IfErr result (RunsOut (next_after binder.old (flat_map (λ i. needed_in (in_instr constant_context i)) instrs.old))) }
    ensures counter_grows { binder.old.gensym ≤ binder.new.gensym }
{
    for i in 0..instrs.len() {
        if is_passed(&instrs.as_slice()[i]) {
            continue;
        }
        instrs.at_mut(i).bind(binder)?;
    }
    Ok(())
}

impl<'a> Bind<'a> for Instruction<'a> {
    ghost needed = { λ i. needed_in (in_instr constant_context i) };

    ghost bound = { λ find. mapped_instr (binding_change find) constant_context };

    fn bind(&mut self, binder: &mut Binder<'a>) -> Result<(), Error<'a>> {
        match self {
            Instruction::block(block) => {
                block.get_mut().bind(binder)?;
                Ok(())
            }
            Instruction::loop_(block) => {
                block.get_mut().bind(binder)?;
                Ok(())
            }
            Instruction::if_(block) => {
                block.get_mut().bind(binder)?;
                Ok(())
            }
            Instruction::try_(block) => {
                block.get_mut().bind(binder)?;
                Ok(())
            }
            Instruction::try_table(table) => {
                table.bind(binder)?;
                Ok(())
            }
            Instruction::call_indirect(call) => {
                call.get_mut().bind(binder)?;
                Ok(())
            }
            Instruction::return_call_indirect(call) => {
                call.get_mut().bind(binder)?;
                Ok(())
            }
            // No other instruction has a type use.
            _ => Ok(()),
        }
    }
}

/// The type of a block. It needs a type only if it has a parameter or two results. Without an index
/// and an inline type it gets the empty inline type.
impl<'a> Bind<'a> for BlockType<'a> {
    ghost needed = { λ b. needed_in (in_block [] b) };

    ghost bound = { λ find. mapped_block (binding_change find) };

    fn bind(&mut self, binder: &mut Binder<'a>) -> Result<(), Error<'a>> {
        if !wants_type(&self.ty) {
            say_inline(binder.alloc, &mut self.ty);
            return Ok(());
        }
        self.ty.bind(binder)?;
        Ok(())
    }
}

impl<'a> Bind<'a> for TryTable<'a> {
    ghost needed = { λ t. needed_in (in_try_table [] t) };

    ghost bound = { λ find t. mapped_try_table (binding_change find) [] t };

    fn bind(&mut self, binder: &mut Binder<'a>) -> Result<(), Error<'a>> {
        self.block.get_mut().bind(binder)?;
        Ok(())
    }
}

/// Returns whether the type use of a block needs a type: it has no index, and a parameter or two
/// results.
fn wants_type<'a>(ty: &TypeUse<'a, FunctionType<'a>>) -> bool
    ensures { result ≡ wants_type ty.now.index ty.now.inline }
{
    match (&ty.index, &ty.inline) {
        (Some(_), _) => false,
        (None, None) => false,
        (None, Some(inline)) => !is_short(inline),
    }
}

/// Returns whether a function type has no parameter and at most one result. A block with such a
/// type needs no index.
fn is_short(ty: &FunctionType<'_>) -> bool
    ensures { result ≡ is_short ty.now }
{
    ty.params.is_empty() && ty.results.len() < 2
}

/// Adds the empty inline type to the type use of a block, if it has neither index nor inline type.
fn say_inline<'a>(alloc: Global, ty: &mut TypeUse<'a, FunctionType<'a>>)
    ensures { ty.new ≡ record ty.old { inline = bound_inline OfBlock ty.old.index ty.old.inline } }
{
    if ty.index.is_none() && ty.inline.is_none() {
        ty.inline = Some(FunctionType::empty(alloc));
    }
}

impl<'a> Bind<'a> for CallIndirect<'a> {
    ghost needed = { λ c. needed_in (in_indirect c) };

    ghost bound = { λ find. mapped_indirect (binding_change find) };

    fn bind(&mut self, binder: &mut Binder<'a>) -> Result<(), Error<'a>> {
        self.ty.bind(binder)?;
        Ok(())
    }
}

/// A type use that is not that of a block.
impl<'a> Bind<'a> for TypeUse<'a, FunctionType<'a>> {
    ghost needed = { λ u. needed_in (in_use OfItem u) };

    ghost bound = { λ find. bound_use find OfItem };

    fn bind(&mut self, binder: &mut Binder<'a>) -> Result<(), Error<'a>> {
        match self.index {
            Some(_) => Ok(()),
            None => {
                let index = binder.inline_to_idx(&self.inline)?;
                self.index = Some(index);
                Ok(())
            }
        }
    }
}
