//! Walks over bodies, with the ids of the module, the parameters and locals, and the enclosing
//! blocks.
#![tactic(auto, using(wast_resolve_names::proofs::Parts::both_met, wast_resolve_names::proofs::Parts::first_fails, wast_resolve_names::proofs::Parts::second_fails))]

ghost use Rattle.std.specs.Prelude.{◌≡◌, ◌++◌, ◌∷◌, [], map, flat_map, IsTrue, IsFalse, IfOk, OnOk};
ghost use Rattle.wast_base.specs.Blocks.{without_innermost};
ghost use Rattle.wast_base.specs.Ids.{mark_of_option};
ghost use Rattle.wast_base.specs.Spaces.{name_if};
ghost use Rattle.wast_tree_map.specs.Mapped.{mapped_access, mapped_block, mapped_br_table, mapped_catch, mapped_caught, mapped_expression, mapped_handle, mapped_handlers, mapped_indirect, mapped_instr, mapped_instrs, mapped_mem_arg, mapped_try_table};
ghost use Rattle.wast_resolve_passes.specs.Locals.{Numbers};
ghost use Rattle.wast_resolve_passes.specs.Standing.{context_of, initial_context, Moves, Steps, IsNumericType, AreNumbers, HasNoNames, SelectsNumber, IsSettled, OpensBlock, ClosesBlock};
ghost use Rattle.wast_resolve_names.specs.Resolvers.{Resolution, scope_of};
ghost use Rattle.wast_resolve_passes.specs.Tree.space;
ghost use Rattle.wast_resolve_passes.specs.TwoSteps.{in_handler_tag, in_handler_label, with_handler_tag, with_handler_label};
ghost use Rattle.wast_resolve_names.specs.Walking.{WalksAsks, WalksSites, WalksBodies, WalksCast, TriesSites};
ghost use Rattle.wast_tree_nodes.specs.Sites.{Begins, Ends, Repeated, LocalAt, Locals, OfBlock, check_sites, at_index, at_label, in_access, in_block, in_br_table, in_catch, in_caught, in_handle, in_handlers, in_indirect, in_instr, in_instrs, in_mem_arg, in_pair, in_try_table, in_use};

use crate::apart::{walk_outside, walk_outside_index};
use crate::local_names::LocalNames;
use crate::walks::{Walk, walk_body_type, walk_index};
use std::alloc::{AllocError, Global};
use wast_base::{Boxed, Error, Fault, Id, Index, Seq, Space};
use wast_resolve_labels::Labels;
use wast_resolve_names::{Resolver, number_access, number_if_known};
use wast_tree_nodes::{
    ArrayInit, BlockType, BrOnCast, BrOnCastDescEq, BrOnCastDescEqFail, BrOnCastFail,
    BrTableIndices, CallIndirect, Expression, FunctionType, Handle, Instruction, MemArg,
    MemArgTarget, RefType, Resume, ResumeTable, ResumeThrow, ResumeThrowRef, SelectTypes,
    StructAccess, TryTable, TryTableCatch, TryTableCatchKind, TypeUse, ValType,
};

/// Resolves an index of a space. Enclosing blocks do not change.
fn walk_number<'a>(
    names: &Resolver<'a>,
    space: Space,
    index: &mut Index<'a>,
) -> Result<(), Error<'a>>
    ensures { WalksBodies names.now (at_index space) (λ f. f.index space) index.old index.new result }
{
    walk_outside_index(names, space, index)
}

/// Resolves a part of an instruction that only has indices of the module.
fn walk_part<'a, T: Walk<'a>>(names: &Resolver<'a>, part: &mut T) -> Result<(), Error<'a>>
    ensures { WalksBodies names.now (λ part. check_sites (T.asks part)) T.mapped part.old part.new result }
{
    walk_outside(names, part)
}

/// Resolves the index of a local. Fails with E4 at an unknown id.
fn walk_local<'a>(locals: &LocalNames<'a>, index: &mut Index<'a>) -> Result<(), Error<'a>>
    ensures { (names : Resolution) (l : Locals) → Numbers (scope_of names) l locals.now →
        WalksBodies names (λ i. LocalAt l i ∷ []) (λ f. f.local l) index.old index.new result }
{
    locals.number(index)
}

/// Resolves a label to its depth. Fails with E4 at an id that no enclosing block has.
fn walk_label<'a>(labels: &Labels<'a>, label: &mut Index<'a>) -> Result<(), Error<'a>>
    ensures { (names : Resolution) →
        WalksSites names (at_label labels.now) (λ f. f.label labels.now) label.old label.new result }
{
    labels.number(label)?;
    Ok(())
}

/// Resolves the label of a branch. Enclosing blocks do not change.
fn walk_branch<'a>(labels: &Labels<'a>, label: &mut Index<'a>) -> Result<(), Error<'a>>
    ensures { (names : Resolution) →
        WalksBodies names (at_label labels.now) (λ f. f.label labels.now) label.old label.new result }
{
    walk_label(labels, label)
}

/// Resolves labels, in order.
fn walk_labels<'a>(labels: &Labels<'a>, indices: &mut Seq<Index<'a>>) -> Result<(), Error<'a>>
    ensures { (names : Resolution) →
        WalksSites names (flat_map (at_label labels.now)) (λ f. map (f.label labels.now)) indices.old indices.new result }
{
    for i in 0..indices.len() {
        if try_label(labels, indices.at_mut(i)) {
            continue;
        }
        walk_label(labels, indices.at_mut(i))?;
    }
    Ok(())
}

/// Resolves the labels of `br_table`, and then its default label.
fn walk_br_table<'a>(labels: &Labels<'a>, table: &mut BrTableIndices<'a>) -> Result<(), Error<'a>>
    ensures { (names : Resolution) →
        WalksBodies names (in_br_table labels.now) (λ f. mapped_br_table f labels.now) table.old table.new result }
{
    walk_labels(labels, &mut table.labels)?;
    walk_label(labels, &mut table.default)?;
    Ok(())
}

/// Resolves an indirect call: its table, then its type.
fn walk_indirect<'a>(names: &Resolver<'a>, call: &mut CallIndirect<'a>) -> Result<(), Error<'a>>
    ensures { WalksBodies names.now in_indirect mapped_indirect call.old call.new result }
{
    walk_outside_index(names, Space::Table, &mut call.table)?;
    walk_body_type(names, &mut call.ty)?;
    Ok(())
}

/// Resolves a boxed indirect call.
fn walk_boxed_call<'a>(
    names: &Resolver<'a>,
    call: &mut Boxed<CallIndirect<'a>>,
) -> Result<(), Error<'a>>
    ensures { WalksBodies names.now in_indirect mapped_indirect call.old call.new result }
{
    walk_indirect(names, call.get_mut())
}

/// Enters a block. Fails with E10 if there are 4,294,967,295 already, and with E12 if allocation
/// fails.
fn open_label<'a>(labels: &mut Labels<'a>, label: Option<Id<'a>>) -> Result<(), Error<'a>>
    ensures walks { (names : Resolution) →
        WalksBodies names (λ o. Begins labels.old (mark_of_option o) ∷ []) (λ f o. o) label.entry label.entry result }
    ensures blocks { Moves labels.old (λ h. Begins labels.old (mark_of_option label.entry) ∷ []) labels.new result }
{
    if labels.is_full() {
        return Err(Error::refusal(Fault::TooLarge));
    }
    labels.open(label)?;
    Ok(())
}

/// Resolves the type of a block.
fn walk_block_type<'a>(
    names: &Resolver<'a>,
    block: &mut Boxed<BlockType<'a>>,
) -> Result<(), Error<'a>>
    ensures { WalksSites names.now (λ b. in_use OfBlock b.ty) mapped_block block.old block.new result }
{
    walk_body_type(names, &mut block.get_mut().ty)?;
    Ok(())
}

/// Resolves the type of a block, and then enters it.
fn walk_block<'a>(
    names: &Resolver<'a>,
    labels: &mut Labels<'a>,
    block: &mut Boxed<BlockType<'a>>,
) -> Result<(), Error<'a>>
    ensures walks { WalksBodies names.now (in_block labels.old) mapped_block block.old block.new result }
    ensures blocks { Moves labels.old (λ h. in_block labels.old block.old) labels.new result }
{
    walk_block_type(names, block)?;
    open_label(labels, block.get().label)?;
    Ok(())
}

/// Resolves the tag of a `try_table` clause.
fn walk_caught<'a>(names: &Resolver<'a>, kind: &mut TryTableCatchKind<'a>) -> Result<(), Error<'a>>
    ensures { WalksAsks names.now in_caught (λ f. mapped_caught f.index) kind.old kind.new result }
{
    match kind {
        TryTableCatchKind::Catch(tag) => walk_index(names, Space::Tag, tag),
        TryTableCatchKind::CatchRef(tag) => walk_index(names, Space::Tag, tag),
        TryTableCatchKind::CatchAll => Ok(()),
        TryTableCatchKind::CatchAllRef => Ok(()),
    }
}

/// Resolves a `try_table` clause: its tag, then its label.
fn walk_catch<'a>(
    names: &Resolver<'a>,
    labels: &Labels<'a>,
    catch: &mut TryTableCatch<'a>,
) -> Result<(), Error<'a>>
    ensures { WalksSites names.now (in_catch labels.now) (λ f. mapped_catch f labels.now) catch.old catch.new result }
{
    walk_caught(names, &mut catch.kind)?;
    walk_label(labels, &mut catch.label)?;
    Ok(())
}

/// Resolves the clauses of `try_table`, in order.
fn walk_catches<'a>(
    names: &Resolver<'a>,
    labels: &Labels<'a>,
    catches: &mut Seq<TryTableCatch<'a>>,
) -> Result<(), Error<'a>>
    ensures { WalksSites names.now (flat_map (in_catch labels.now))
        (λ f. map (mapped_catch f labels.now)) catches.old catches.new result }
{
    for i in 0..catches.len() {
        walk_catch(names, labels, catches.at_mut(i))?;
    }
    Ok(())
}

/// Resolves a `try_table`: its type, its clauses, and then enters it.
fn walk_try_table<'a>(
    names: &Resolver<'a>,
    labels: &mut Labels<'a>,
    table: &mut TryTable<'a>,
) -> Result<(), Error<'a>>
    ensures walks { WalksBodies names.now (in_try_table labels.old)
        (λ f. mapped_try_table f labels.old) table.old table.new result }
    ensures blocks { Moves labels.old (λ h. in_try_table labels.old table.old) labels.new result }
{
    walk_block_type(names, &mut table.block)?;
    walk_catches(names, labels, &mut table.catches)?;
    open_label(labels, table.block.get().label)?;
    Ok(())
}

/// Checks the label at an `else`. Fails with E8 if it is not that of the innermost block.
fn walk_else<'a>(labels: &Labels<'a>, label: &Option<Id<'a>>) -> Result<(), Error<'a>>
    ensures { (names : Resolution) →
        WalksBodies names (λ o. Repeated labels.now (mark_of_option o) ∷ []) (λ f o. o) label.now label.now result }
{
    labels.check(*label)
}

/// Checks the label at an `end` like at an `else`, and then leaves the innermost block.
fn walk_end<'a>(labels: &mut Labels<'a>, label: &Option<Id<'a>>) -> Result<(), Error<'a>>
    ensures walks { (names : Resolution) →
        WalksBodies names (λ o. Repeated labels.old (mark_of_option o) ∷ Ends ∷ []) (λ f o. o) label.now label.now result }
    ensures blocks { Moves labels.old (λ h. Repeated labels.old (mark_of_option label.now) ∷ Ends ∷ []) labels.new result }
{
    walk_else(labels, label)?;
    labels.close();
    Ok(())
}

/// Leaves the innermost block, and then resolves the label of `delegate`.
fn walk_delegate<'a>(labels: &mut Labels<'a>, label: &mut Index<'a>) -> Result<(), Error<'a>>
    ensures walks { (names : Resolution) →
        WalksBodies names (λ l. Ends ∷ at_label (without_innermost labels.old) l)
        (λ f. f.label (without_innermost labels.old)) label.old label.new result }
    ensures blocks { Moves labels.old (λ h. Ends ∷ at_label (without_innermost labels.old) label.old) labels.new result }
{
    labels.close();
    walk_label(labels, label)?;
    Ok(())
}

/// Resolves a struct field access: the type of the struct, then the field.
fn walk_access<'a>(names: &Resolver<'a>, access: &mut StructAccess<'a>) -> Result<(), Error<'a>>
    ensures { WalksBodies names.now in_access mapped_access access.old access.new result }
{
    number_access(names, access)
}

/// Resolves an array instruction with a segment: its type, then the segment.
fn walk_array_init<'a>(
    names: &Resolver<'a>,
    segments: Space,
    init: &mut ArrayInit<'a>,
) -> Result<(), Error<'a>>
    ensures { WalksBodies names.now (λ a. check_sites (in_pair space.Ty a.array segments a.segment))
        (λ f a. record { array = f.index space.Ty a.array; segment = f.index segments a.segment }) init.old init.new result }
{
    walk_outside_index(names, Space::Ty, &mut init.array)?;
    walk_outside_index(names, segments, &mut init.segment)?;
    Ok(())
}

/// Resolves a branch on a cast: its label, the target type, then the source type.
fn walk_cast<'a>(
    names: &Resolver<'a>,
    labels: &Labels<'a>,
    label: &mut Index<'a>,
    to: &mut RefType<'a>,
    from: &mut RefType<'a>,
) -> Result<(), Error<'a>>
    ensures { WalksCast names.now labels.now (label.old, (to.old, from.old)) (label.new, (to.new, from.new)) result }
{
    walk_label(labels, label)?;
    walk_outside(names, to)?;
    walk_outside(names, from)?;
    Ok(())
}

/// Resolves the label and the types of `br_on_cast`.
fn walk_br_on_cast<'a>(
    names: &Resolver<'a>,
    labels: &Labels<'a>,
    arg: &mut Boxed<BrOnCast<'a>>,
) -> Result<(), Error<'a>>
    ensures { WalksCast names.now labels.now (arg.old.label, (arg.old.to_type, arg.old.from_type))
        (arg.new.label, (arg.new.to_type, arg.new.from_type)) result }
{
    let arg = arg.get_mut();
    walk_cast(
        names,
        labels,
        &mut arg.label,
        &mut arg.to_type,
        &mut arg.from_type,
    )
}

/// Resolves the label and the types of `br_on_cast_fail`.
fn walk_br_on_cast_fail<'a>(
    names: &Resolver<'a>,
    labels: &Labels<'a>,
    arg: &mut Boxed<BrOnCastFail<'a>>,
) -> Result<(), Error<'a>>
    ensures { WalksCast names.now labels.now (arg.old.label, (arg.old.to_type, arg.old.from_type))
        (arg.new.label, (arg.new.to_type, arg.new.from_type)) result }
{
    let arg = arg.get_mut();
    walk_cast(
        names,
        labels,
        &mut arg.label,
        &mut arg.to_type,
        &mut arg.from_type,
    )
}

/// Resolves the label and the types of `br_on_cast_desc_eq`.
fn walk_br_on_cast_desc_eq<'a>(
    names: &Resolver<'a>,
    labels: &Labels<'a>,
    arg: &mut Boxed<BrOnCastDescEq<'a>>,
) -> Result<(), Error<'a>>
    ensures { WalksCast names.now labels.now (arg.old.label, (arg.old.to_type, arg.old.from_type))
        (arg.new.label, (arg.new.to_type, arg.new.from_type)) result }
{
    let arg = arg.get_mut();
    walk_cast(
        names,
        labels,
        &mut arg.label,
        &mut arg.to_type,
        &mut arg.from_type,
    )
}

/// Resolves the label and the types of `br_on_cast_desc_eq_fail`.
fn walk_br_on_cast_desc_eq_fail<'a>(
    names: &Resolver<'a>,
    labels: &Labels<'a>,
    arg: &mut Boxed<BrOnCastDescEqFail<'a>>,
) -> Result<(), Error<'a>>
    ensures { WalksCast names.now labels.now (arg.old.label, (arg.old.to_type, arg.old.from_type))
        (arg.new.label, (arg.new.to_type, arg.new.from_type)) result }
{
    let arg = arg.get_mut();
    walk_cast(
        names,
        labels,
        &mut arg.label,
        &mut arg.to_type,
        &mut arg.from_type,
    )
}

/// Resolves the tag of a `resume` handler.
fn walk_handler_tag<'a>(names: &Resolver<'a>, handle: &mut Handle<'a>) -> Result<(), Error<'a>>
    ensures { WalksSites names.now in_handler_tag with_handler_tag handle.old handle.new result }
{
    match handle {
        Handle::OnLabel { tag, .. } => walk_outside_index(names, Space::Tag, tag),
        Handle::OnSwitch { tag } => walk_outside_index(names, Space::Tag, tag),
    }
}

/// Resolves the label of a `resume` handler, if it has one.
fn walk_handler_label<'a>(labels: &Labels<'a>, handle: &mut Handle<'a>) -> Result<(), Error<'a>>
    ensures { (names : Resolution) → WalksSites names (in_handler_label labels.now)
        (λ f. with_handler_label f labels.now) handle.old handle.new result }
{
    match handle {
        Handle::OnLabel { label, .. } => walk_label(labels, label),
        Handle::OnSwitch { .. } => Ok(()),
    }
}

/// Resolves a `resume` handler: its tag, then its label if it has one.
fn walk_handle<'a>(
    names: &Resolver<'a>,
    labels: &Labels<'a>,
    handle: &mut Handle<'a>,
) -> Result<(), Error<'a>>
    ensures { WalksSites names.now (in_handle labels.now) (λ f. mapped_handle f labels.now) handle.old handle.new result }
{
    walk_handler_tag(names, handle)?;
    walk_handler_label(labels, handle)?;
    Ok(())
}

/// Resolves handlers, in order.
fn walk_handles<'a>(
    names: &Resolver<'a>,
    labels: &Labels<'a>,
    handles: &mut Seq<Handle<'a>>,
) -> Result<(), Error<'a>>
    ensures { WalksSites names.now (flat_map (in_handle labels.now))
        (λ f. map (mapped_handle f labels.now)) handles.old handles.new result }
{
    for i in 0..handles.len() {
        walk_handle(names, labels, handles.at_mut(i))?;
    }
    Ok(())
}

/// Resolves the handlers of a table.
fn walk_handlers<'a>(
    names: &Resolver<'a>,
    labels: &Labels<'a>,
    table: &mut ResumeTable<'a>,
) -> Result<(), Error<'a>>
    ensures { WalksSites names.now (in_handlers labels.now) (λ f. mapped_handlers f labels.now) table.old table.new result }
{
    walk_handles(names, labels, &mut table.handlers)?;
    Ok(())
}

/// Resolves a `resume`: its type, then its handlers.
fn walk_resume<'a>(
    names: &Resolver<'a>,
    labels: &Labels<'a>,
    resume: &mut Resume<'a>,
) -> Result<(), Error<'a>>
    ensures { WalksBodies names.now (λ a. at_index space.Ty a.type_index ++ in_handlers labels.now a.table)
        (λ f a. record { type_index = f.index space.Ty a.type_index; table = mapped_handlers f labels.now a.table }) resume.old resume.new result }
{
    walk_outside_index(names, Space::Ty, &mut resume.type_index)?;
    walk_handlers(names, labels, &mut resume.table)?;
    Ok(())
}

/// Resolves a `resume_throw`: its type, its tag, then its handlers.
fn walk_resume_throw<'a>(
    names: &Resolver<'a>,
    labels: &Labels<'a>,
    resume: &mut ResumeThrow<'a>,
) -> Result<(), Error<'a>>
    ensures { WalksBodies names.now
        (λ a. check_sites (in_pair space.Ty a.type_index space.Tag a.tag_index) ++ in_handlers labels.now a.table)
        (λ f a. record { type_index = f.index space.Ty a.type_index; tag_index = f.index space.Tag a.tag_index; table = mapped_handlers f labels.now a.table }) resume.old resume.new result }
{
    walk_outside_index(names, Space::Ty, &mut resume.type_index)?;
    walk_outside_index(names, Space::Tag, &mut resume.tag_index)?;
    walk_handlers(names, labels, &mut resume.table)?;
    Ok(())
}

/// Resolves a boxed `resume_throw`.
fn walk_boxed_throw<'a>(
    names: &Resolver<'a>,
    labels: &Labels<'a>,
    resume: &mut Boxed<ResumeThrow<'a>>,
) -> Result<(), Error<'a>>
    ensures { WalksBodies names.now
        (λ a. check_sites (in_pair space.Ty a.type_index space.Tag a.tag_index) ++ in_handlers labels.now a.table)
        (λ f a. record { type_index = f.index space.Ty a.type_index; tag_index = f.index space.Tag a.tag_index; table = mapped_handlers f labels.now a.table }) resume.old resume.new result }
{
    walk_resume_throw(names, labels, resume.get_mut())
}

/// Resolves a `resume_throw_ref`: its type, then its handlers.
fn walk_resume_throw_ref<'a>(
    names: &Resolver<'a>,
    labels: &Labels<'a>,
    resume: &mut ResumeThrowRef<'a>,
) -> Result<(), Error<'a>>
    ensures { WalksBodies names.now (λ a. at_index space.Ty a.type_index ++ in_handlers labels.now a.table)
        (λ f a. record { type_index = f.index space.Ty a.type_index; table = mapped_handlers f labels.now a.table }) resume.old resume.new result }
{
    walk_outside_index(names, Space::Ty, &mut resume.type_index)?;
    walk_handlers(names, labels, &mut resume.table)?;
    Ok(())
}

/// Resolves an instruction, and enters or leaves the block that it starts or ends.
fn walk_instr<'a>(
    names: &Resolver<'a>,
    locals: &LocalNames<'a>,
    labels: &mut Labels<'a>,
    instr: &mut Instruction<'a>,
) -> Result<(), Error<'a>>
    ensures walks { (l : Locals) → Numbers (scope_of names.now) l locals.now →
        WalksBodies names.now (in_instr (context_of l labels.old)) (λ f. mapped_instr f (context_of l labels.old)) instr.old instr.new result }
    ensures blocks { Moves labels.old (λ h. in_instr h instr.old) labels.new result }
{
    match instr {
        Instruction::Plain(_) => Ok(()),
        Instruction::Mem(_, arg) => walk_part(names, arg),
        Instruction::Lane(..) => Ok(()),
        Instruction::MemLane(_, arg) => walk_part(names, arg),
        Instruction::block(block) => walk_block(names, labels, block),
        Instruction::loop_(block) => walk_block(names, labels, block),
        Instruction::if_(block) => walk_block(names, labels, block),
        Instruction::else_(label) => walk_else(labels, label),
        Instruction::try_(block) => walk_block(names, labels, block),
        Instruction::try_table(table) => walk_try_table(names, labels, table),
        Instruction::end_(label) => walk_end(labels, label),
        Instruction::br_table(table) => walk_br_table(labels, table),
        Instruction::call_indirect(call) => walk_boxed_call(names, call),
        Instruction::return_call_indirect(call) => walk_boxed_call(names, call),
        Instruction::select(types) => walk_part(names, types),
        Instruction::i32_const(_) => Ok(()),
        Instruction::i64_const(_) => Ok(()),
        Instruction::f32_const(_) => Ok(()),
        Instruction::f64_const(_) => Ok(()),
        Instruction::ref_null(heap) => walk_part(names, heap),
        Instruction::array_new_fixed(arg) => walk_number(names, Space::Ty, &mut arg.array),
        Instruction::ref_test(arg) => walk_part(names, &mut arg.rt),
        Instruction::ref_cast(arg) => walk_part(names, &mut arg.rt),
        Instruction::ref_cast_desc_eq(arg) => walk_part(names, &mut arg.rt),
        Instruction::br_on_cast(arg) => walk_br_on_cast(names, labels, arg),
        Instruction::br_on_cast_fail(arg) => walk_br_on_cast_fail(names, labels, arg),
        Instruction::br_on_cast_desc_eq(arg) => walk_br_on_cast_desc_eq(names, labels, arg),
        Instruction::br_on_cast_desc_eq_fail(arg) => walk_br_on_cast_desc_eq_fail(
            names, labels, arg,
        ),
        Instruction::v128_const(_) => Ok(()),
        Instruction::i8x16_shuffle(_) => Ok(()),
        Instruction::atomic_fence(_) => Ok(()),
        Instruction::GlobalAtomic(access) => walk_number(names, Space::Global, &mut access.inner),
        Instruction::TableAtomic(access) => {
            walk_number(names, Space::Table, &mut access.inner.dst)
        }
        Instruction::StructAtomic(access) => walk_access(names, &mut access.inner),
        Instruction::ArrayAtomic(access) => walk_number(names, Space::Ty, &mut access.inner),
        Instruction::resume(arg) => walk_resume(names, labels, arg),
        Instruction::resume_throw(arg) => walk_boxed_throw(names, labels, arg),
        Instruction::resume_throw_ref(arg) => walk_resume_throw_ref(names, labels, arg),
        Instruction::Beyond(_) => Ok(()),
        // Written by tools/ops from here.
        Instruction::catch(tag) => walk_number(names, Space::Tag, tag),
        Instruction::throw(tag) => walk_number(names, Space::Tag, tag),
        Instruction::rethrow(label) => walk_branch(labels, label),
        Instruction::br(label) => walk_branch(labels, label),
        Instruction::br_if(label) => walk_branch(labels, label),
        Instruction::call(func) => walk_number(names, Space::Func, func),
        Instruction::return_call(func) => walk_number(names, Space::Func, func),
        Instruction::call_ref(ty) => walk_number(names, Space::Ty, ty),
        Instruction::return_call_ref(ty) => walk_number(names, Space::Ty, ty),
        Instruction::delegate(label) => walk_delegate(labels, label),
        Instruction::local_get(local) => walk_local(locals, local),
        Instruction::local_set(local) => walk_local(locals, local),
        Instruction::local_tee(local) => walk_local(locals, local),
        Instruction::global_get(global) => walk_number(names, Space::Global, global),
        Instruction::global_set(global) => walk_number(names, Space::Global, global),
        Instruction::table_get(arg) => walk_number(names, Space::Table, &mut arg.dst),
        Instruction::table_set(arg) => walk_number(names, Space::Table, &mut arg.dst),
        Instruction::memory_size(arg) => walk_number(names, Space::Memory, &mut arg.mem),
        Instruction::memory_grow(arg) => walk_number(names, Space::Memory, &mut arg.mem),
        Instruction::ref_func(func) => walk_number(names, Space::Func, func),
        Instruction::br_on_null(label) => walk_branch(labels, label),
        Instruction::br_on_non_null(label) => walk_branch(labels, label),
        Instruction::struct_new(ty) => walk_number(names, Space::Ty, ty),
        Instruction::struct_new_default(ty) => walk_number(names, Space::Ty, ty),
        Instruction::struct_get(access) => walk_access(names, access),
        Instruction::struct_get_s(access) => walk_access(names, access),
        Instruction::struct_get_u(access) => walk_access(names, access),
        Instruction::struct_set(access) => walk_access(names, access),
        Instruction::array_new(ty) => walk_number(names, Space::Ty, ty),
        Instruction::array_new_default(ty) => walk_number(names, Space::Ty, ty),
        Instruction::array_new_data(arg) => walk_part(names, arg),
        Instruction::array_new_elem(arg) => walk_part(names, arg),
        Instruction::array_get(ty) => walk_number(names, Space::Ty, ty),
        Instruction::array_get_s(ty) => walk_number(names, Space::Ty, ty),
        Instruction::array_get_u(ty) => walk_number(names, Space::Ty, ty),
        Instruction::array_set(ty) => walk_number(names, Space::Ty, ty),
        Instruction::array_fill(arg) => walk_number(names, Space::Ty, &mut arg.array),
        Instruction::array_copy(arg) => walk_part(names, arg),
        Instruction::array_init_data(arg) => walk_array_init(names, Space::Data, arg),
        Instruction::array_init_elem(arg) => walk_array_init(names, Space::Elem, arg),
        Instruction::memory_init(arg) => walk_part(names, arg),
        Instruction::data_drop(data) => walk_number(names, Space::Data, data),
        Instruction::memory_copy(arg) => walk_part(names, arg),
        Instruction::memory_fill(arg) => walk_number(names, Space::Memory, &mut arg.mem),
        Instruction::table_init(arg) => walk_part(names, arg),
        Instruction::elem_drop(elem) => walk_number(names, Space::Elem, elem),
        Instruction::table_copy(arg) => walk_part(names, arg),
        Instruction::table_grow(arg) => walk_number(names, Space::Table, &mut arg.dst),
        Instruction::table_size(arg) => walk_number(names, Space::Table, &mut arg.dst),
        Instruction::table_fill(arg) => walk_number(names, Space::Table, &mut arg.dst),
        Instruction::struct_new_desc(ty) => walk_number(names, Space::Ty, ty),
        Instruction::struct_new_default_desc(ty) => walk_number(names, Space::Ty, ty),
        Instruction::ref_get_desc(ty) => walk_number(names, Space::Ty, ty),
        Instruction::cont_new(ty) => walk_number(names, Space::Ty, ty),
        Instruction::cont_bind(arg) => walk_part(names, arg),
        Instruction::suspend(tag) => walk_number(names, Space::Tag, tag),
        Instruction::switch(arg) => walk_part(names, arg),
        Instruction::memory_discard(arg) => walk_number(names, Space::Memory, &mut arg.mem),
        // To here.
    }
}

/// Resolves an index of a space, and returns whether it is known.
fn try_index<'a>(names: &Resolver<'a>, space: Space, index: &mut Index<'a>) -> bool
    ensures { TriesSites names.now (at_index space) (λ f. f.index space) index.old index.new result }
{
    number_if_known(names, index, space)
}

/// Resolves the index of a local, and returns whether it is known.
fn try_local<'a>(locals: &LocalNames<'a>, index: &mut Index<'a>) -> bool
    ensures walks { (names : Resolution) (l : Locals) → Numbers (scope_of names) l locals.now →
        TriesSites names (λ i. LocalAt l i ∷ []) (λ f. f.local l) index.old index.new result }
    ensures stays { IsFalse result → index.new ≡ index.old }
{
    locals.try_number(index)
}

/// Resolves a label, and returns whether it is a number or the label of one of the innermost
/// blocks.
fn try_label<'a>(labels: &Labels<'a>, label: &mut Index<'a>) -> bool
    ensures { (names : Resolution) →
        TriesSites names (at_label labels.now) (λ f. f.label labels.now) label.old label.new result }
{
    labels.try_number(label)
}

/// Resolves the memory of a memory argument, and returns whether it is known.
fn try_mem_arg<'a>(names: &Resolver<'a>, arg: &mut MemArg<'a>) -> bool
    ensures { TriesSites names.now (λ a. check_sites (in_mem_arg a)) (λ f. mapped_mem_arg f.index) arg.old arg.new result }
{
    match &mut arg.target {
        MemArgTarget::Memory(memory) => try_index(names, Space::Memory, memory),
        MemArgTarget::Array(_) => false,
    }
}

/// Returns whether a value type is a number or vector type.
fn is_number(ty: &ValType) -> bool
    ensures { IsTrue result → IsNumericType ty.now }
{
    match ty {
        ValType::I32 => true,
        ValType::I64 => true,
        ValType::F32 => true,
        ValType::F64 => true,
        ValType::V128 => true,
        ValType::Ref(_) => false,
    }
}

/// Returns whether a list is empty, or has one number or vector type.
fn are_numbers(types: &[ValType]) -> bool
    ensures { IsTrue result → AreNumbers types.now }
{
    match types {
        [] => true,
        [ty] => is_number(ty),
        _ => false,
    }
}

/// Returns whether an inline type has no parameters, and no result or one number.
fn gives_number(ty: &FunctionType) -> bool
    ensures { IsTrue result → HasNoNames ty.now }
{
    ty.params.is_empty() && are_numbers(ty.results.as_slice())
}

/// Returns whether the types of a `select` have nothing to resolve. May return `false` for such
/// types too.
fn selects_number(types: &SelectTypes) -> bool
    ensures { IsTrue result → SelectsNumber types.now }
{
    match &types.tys {
        None => true,
        Some(written) => are_numbers(written.as_slice()),
    }
}

/// Returns whether the type of a block has nothing to resolve. May return `false` for such a type
/// too.
fn is_settled<'a>(ty: &TypeUse<'a, FunctionType<'a>>) -> bool
    ensures { IsTrue result → IsSettled ty.now }
{
    match (&ty.index, &ty.inline) {
        (None, None) => true,
        (None, Some(inline)) => gives_number(inline),
        (Some(index), None) => index.is_resolved(),
        (Some(_), Some(_)) => false,
    }
}

/// Enters a block and returns `true`, if its type has nothing to resolve, there are fewer than
/// 4,294,967,295 blocks, and allocation succeeds.
fn try_block<'a>(labels: &mut Labels<'a>, block: &Boxed<BlockType<'a>>) -> bool
    ensures { OpensBlock block.now labels.old labels.new result }
{
    let block = block.get();
    if !is_settled(&block.ty) || labels.is_full() {
        return false;
    }
    labels.open(block.label).is_ok()
}

/// Leaves the innermost block and returns `true`, if the label at an `end` is right.
fn try_end<'a>(labels: &mut Labels<'a>, label: &Option<Id<'a>>) -> bool
    ensures { ClosesBlock (mark_of_option label.now) labels.old labels.new result }
{
    if !labels.expects(*label) {
        return false;
    }
    labels.close();
    true
}

/// Resolves an instruction of the most frequent kinds, and returns whether every index was found at
/// once and every check passed. If not, nothing changes.
fn try_instr<'a>(
    names: &Resolver<'a>,
    locals: &LocalNames<'a>,
    labels: &mut Labels<'a>,
    instr: &mut Instruction<'a>,
) -> bool
    ensures walks { (l : Locals) → Numbers (scope_of names.now) l locals.now →
        TriesSites names.now (in_instr (context_of l labels.old)) (λ f. mapped_instr f (context_of l labels.old)) instr.old instr.new result }
    ensures blocks { Steps labels.old (λ h. in_instr h instr.old) labels.new result }
    ensures stays { IsFalse result → instr.new ≡ instr.old }
{
    match instr {
        Instruction::Plain(_) => true,
        Instruction::i32_const(_) => true,
        Instruction::i64_const(_) => true,
        Instruction::f32_const(_) => true,
        Instruction::f64_const(_) => true,
        Instruction::v128_const(_) => true,
        Instruction::Lane(..) => true,
        Instruction::Mem(_, arg) => try_mem_arg(names, arg),
        Instruction::local_get(local) => try_local(locals, local),
        Instruction::local_set(local) => try_local(locals, local),
        Instruction::local_tee(local) => try_local(locals, local),
        Instruction::global_get(global) => try_index(names, Space::Global, global),
        Instruction::global_set(global) => try_index(names, Space::Global, global),
        Instruction::call(func) => try_index(names, Space::Func, func),
        Instruction::br(label) => try_label(labels, label),
        Instruction::br_if(label) => try_label(labels, label),
        Instruction::block(block) => try_block(labels, block),
        Instruction::loop_(block) => try_block(labels, block),
        Instruction::if_(block) => try_block(labels, block),
        Instruction::try_(block) => try_block(labels, block),
        Instruction::throw(tag) => try_index(names, Space::Tag, tag),
        Instruction::select(types) => selects_number(types),
        Instruction::else_(label) => labels.expects(*label),
        Instruction::end_(label) => try_end(labels, label),
        _ => false,
    }
}

/// Prepares the look-ups of the labels of an instruction, so that each takes few steps.
fn reach_labels<'a>(labels: &mut Labels<'a>, instr: &Instruction<'a>) -> Result<(), AllocError>
    ensures { labels.new ≡ labels.old }
{
    if labels.is_near() {
        return Ok(());
    }
    match instr {
        // the innermost blocks are known not to have the label
        Instruction::br(_) | Instruction::br_if(_) => labels.reach_all(),
        Instruction::br_on_null(label)
        | Instruction::br_on_non_null(label)
        | Instruction::rethrow(label)
        | Instruction::delegate(label) => labels.reach(label),
        Instruction::br_table(table) => reach_all(labels, table),
        Instruction::try_table(table) => reach_caught(labels, &table.catches),
        Instruction::br_on_cast(arg) => labels.reach(&arg.get().label),
        Instruction::br_on_cast_fail(arg) => labels.reach(&arg.get().label),
        Instruction::br_on_cast_desc_eq(arg) => labels.reach(&arg.get().label),
        Instruction::br_on_cast_desc_eq_fail(arg) => labels.reach(&arg.get().label),
        Instruction::resume(arg) => reach_handled(labels, &arg.table),
        Instruction::resume_throw(arg) => reach_handled(labels, &arg.get().table),
        Instruction::resume_throw_ref(arg) => reach_handled(labels, &arg.table),
        _ => Ok(()),
    }
}

/// Does the same for the labels of `br_table`.
fn reach_all<'a>(labels: &mut Labels<'a>, table: &BrTableIndices<'a>) -> Result<(), AllocError>
    ensures { labels.new ≡ labels.old }
{
    for label in table.labels.as_slice() {
        labels.reach(label)?;
    }
    labels.reach(&table.default)
}

/// Does the same for the labels of `try_table` clauses.
fn reach_caught<'a>(
    labels: &mut Labels<'a>,
    catches: &Seq<TryTableCatch<'a>>,
) -> Result<(), AllocError>
    ensures { labels.new ≡ labels.old }
{
    for catch in catches.as_slice() {
        labels.reach(&catch.label)?;
    }
    Ok(())
}

/// Does the same for the labels of `resume` handlers.
fn reach_handled<'a>(labels: &mut Labels<'a>, table: &ResumeTable<'a>) -> Result<(), AllocError>
    ensures { labels.new ≡ labels.old }
{
    for handle in table.handlers.as_slice() {
        if let Handle::OnLabel { label, .. } = handle {
            labels.reach(label)?;
        }
    }
    Ok(())
}

/// Resolves instructions, in order.
fn walk_instrs<'a>(
    names: &Resolver<'a>,
    locals: &LocalNames<'a>,
    labels: &mut Labels<'a>,
    instrs: &mut Seq<Instruction<'a>>,
) -> Result<(), Error<'a>>
    ensures { (l : Locals) → Numbers (scope_of names.now) l locals.now →
        WalksBodies names.now (in_instrs (context_of l labels.old)) (λ f. mapped_instrs f (context_of l labels.old)) instrs.old instrs.new result }
{
    for i in 0..instrs.len() {
        if try_instr(names, locals, labels, instrs.at_mut(i)) {
            continue;
        }
        reach_labels(labels, &instrs.as_slice()[i])?;
        walk_instr(names, locals, labels, instrs.at_mut(i))?;
    }
    Ok(())
}

/// Resolves the instructions of an expression, in a function with these parameters and locals.
///
/// Allocates for enclosing blocks: E12 if that fails, E10 if there are 2^32 of them or more.
pub(crate) fn walk_expression<'a>(
    alloc: Global,
    names: &Resolver<'a>,
    locals: &LocalNames<'a>,
    expression: &mut Expression<'a>,
) -> Result<(), Error<'a>>
    ensures { (l : Locals) → Numbers (scope_of names.now) l locals.now → let h = initial_context l in
        WalksBodies names.now (λ e. in_instrs h e.instrs) (λ f. mapped_expression f h) expression.old expression.new result }
{
    let mut labels = Labels::new(alloc);
    walk_instrs(names, locals, &mut labels, &mut expression.instrs)?;
    Ok(())
}
