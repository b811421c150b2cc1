//! Whether the bodies of functions are stable, so that no pass has to walk over their instructions.

ghost use Rattle.std.specs.Prelude.{◌≡◌, is_none};
ghost use Rattle.std.specs.List.{list_all};
ghost use Rattle.wast_base.specs.Ids.{is_number};
ghost use Rattle.wast_tree_nodes.specs.Types.{is_short};
ghost use Rattle.wast_resolve.specs.Stable.{is_stable_heap, is_stable_val, is_stable_inline, is_stable_block, is_stable_use};
ghost use Rattle.wast_resolve.specs.Stable.{is_stable_call, is_stable_target, is_stable_select, is_stable_table};
ghost use Rattle.wast_resolve.specs.Stable.{is_stable_caught, is_stable_catch, is_stable_try, are_numbers, is_stable};
ghost use Rattle.wast_resolve.specs.Stable.{is_stable_kind, is_stable_field, has_stable_bodies};

use wast_base::{Boxed, Id, Index, Seq};
use wast_tree_nodes::{
    BlockType, BrTableIndices, CallIndirect, FuncKind, FunctionType, HeapType, Instruction,
    MemArgTarget, ModuleField, SelectTypes, TryTable, TryTableCatch, TryTableCatchKind, TypeUse,
    ValType,
};

/// Returns whether both indices are numbers.
fn are_numbers(first: &Index<'_>, second: &Index<'_>) -> bool
    ensures { result ≡ are_numbers first.now second.now }
{
    first.is_resolved() && second.is_resolved()
}

/// Returns whether all indices are numbers.
fn all_numbers(indices: &[Index<'_>]) -> bool
    ensures { result ≡ list_all is_number indices.now }
{
    indices.iter().all(|index| index.is_resolved())
}

/// Returns whether the index in a heap type is a number, if there is one.
fn is_stable_heap(ty: &HeapType<'_>) -> bool
    ensures { result ≡ is_stable_heap ty.now }
{
    match ty {
        HeapType::Abstract { .. } => true,
        HeapType::Concrete(index) => index.is_resolved(),
        HeapType::Exact(index) => index.is_resolved(),
    }
}

/// Returns whether the index in a value type is a number, if there is one.
fn is_stable_val(ty: &ValType<'_>) -> bool
    ensures { result ≡ is_stable_val ty.now }
{
    match ty {
        ValType::I32 => true,
        ValType::I64 => true,
        ValType::F32 => true,
        ValType::F64 => true,
        ValType::V128 => true,
        ValType::Ref(ty) => is_stable_heap(&ty.heap),
    }
}

/// Returns whether the indices in value types are numbers.
fn are_stable_vals(types: &[ValType<'_>]) -> bool
    ensures { result ≡ list_all is_stable_val types.now }
{
    types.iter().all(|ty| is_stable_val(ty))
}

/// Returns whether a function type has no parameter and at most one result.
fn is_short(ty: &FunctionType<'_>) -> bool
    ensures { result ≡ is_short ty.now }
{
    ty.params.is_empty() && ty.results.len() < 2
}

/// Returns whether an inline type is short, and its indices are numbers.
fn is_stable_inline(ty: &FunctionType<'_>) -> bool
    ensures { result ≡ is_stable_inline ty.now }
{
    is_short(ty) && are_stable_vals(ty.results.as_slice())
}

/// Returns whether the type use of a block is stable.
fn is_stable_type<'a>(ty: &TypeUse<'a, FunctionType<'a>>) -> bool
    ensures { result ≡ is_stable_block ty.now.index ty.now.inline }
{
    match (&ty.index, &ty.inline) {
        (Some(index), None) => index.is_resolved(),
        (Some(_), Some(_)) => false,
        (None, Some(inline)) => is_stable_inline(inline),
        (None, None) => false,
    }
}

/// Returns whether the type use of a boxed block is stable.
fn is_stable_block<'a>(block: &Boxed<BlockType<'a>>) -> bool
    ensures { result ≡ is_stable_block block.now.ty.index block.now.ty.inline }
{
    is_stable_type(&block.get().ty)
}

/// Returns whether the type use of an indirect call has an index alone, which is a number.
fn is_stable_use<'a>(ty: &TypeUse<'a, FunctionType<'a>>) -> bool
    ensures { result ≡ is_stable_use ty.now.index ty.now.inline }
{
    match (&ty.index, &ty.inline) {
        (Some(index), None) => index.is_resolved(),
        (Some(_), Some(_)) => false,
        (None, _) => false,
    }
}

/// Returns whether the table and the type use of an indirect call are stable.
fn is_stable_call(call: &CallIndirect<'_>) -> bool
    ensures { result ≡ is_stable_call call.now }
{
    call.table.is_resolved() && is_stable_use(&call.ty)
}

/// Does the same for a boxed indirect call.
fn is_stable_boxed(call: &Boxed<CallIndirect<'_>>) -> bool
    ensures { result ≡ is_stable_call call.now }
{
    is_stable_call(call.get())
}

/// Returns whether the memory or array of a memory argument is a number.
fn is_stable_target(target: &MemArgTarget<'_>) -> bool
    ensures { result ≡ is_stable_target target.now }
{
    match target {
        MemArgTarget::Memory(memory) => memory.is_resolved(),
        MemArgTarget::Array(ty) => ty.is_resolved(),
    }
}

/// Returns whether the indices in the types of a `select` are numbers.
fn is_stable_select(types: &SelectTypes<'_>) -> bool
    ensures { result ≡ is_stable_select types.now.tys }
{
    match &types.tys {
        None => true,
        Some(written) => are_stable_vals(written.as_slice()),
    }
}

/// Returns whether the labels of a `br_table` are numbers.
fn is_stable_table(table: &BrTableIndices<'_>) -> bool
    ensures { result ≡ is_stable_table table.now }
{
    all_numbers(table.labels.as_slice()) && table.default.is_resolved()
}

/// Returns whether the tag of a catch clause is a number, if there is one.
fn is_stable_caught(kind: &TryTableCatchKind<'_>) -> bool
    ensures { result ≡ is_stable_caught kind.now }
{
    match kind {
        TryTableCatchKind::Catch(tag) => tag.is_resolved(),
        TryTableCatchKind::CatchRef(tag) => tag.is_resolved(),
        TryTableCatchKind::CatchAll => true,
        TryTableCatchKind::CatchAllRef => true,
    }
}

/// Returns whether the tag and the label of a catch clause are numbers.
fn is_stable_catch(catch: &TryTableCatch<'_>) -> bool
    ensures { result ≡ is_stable_catch catch.now }
{
    is_stable_caught(&catch.kind) && catch.label.is_resolved()
}

/// Returns whether catch clauses are stable.
fn are_stable_catches(catches: &[TryTableCatch<'_>]) -> bool
    ensures { result ≡ list_all is_stable_catch catches.now }
{
    catches.iter().all(|catch| is_stable_catch(catch))
}

/// Returns whether the type and the catch clauses of a `try_table` are stable.
fn is_stable_try(table: &TryTable<'_>) -> bool
    ensures { result ≡ is_stable_try table.now }
{
    is_stable_block(&table.block) && are_stable_catches(table.catches.as_slice())
}

/// Returns whether there is no label.
fn has_no_label(label: &Option<Id<'_>>) -> bool
    ensures { result ≡ is_none label.now }
{
    match label {
        None => true,
        Some(_) => false,
    }
}

/// Returns whether an instruction is stable.
fn is_stable(instr: &Instruction<'_>) -> bool
    ensures { result ≡ is_stable instr.now }
{
    match instr {
        Instruction::Plain(_)
        | Instruction::Lane(..)
        | Instruction::i32_const(_)
        | Instruction::i64_const(_)
        | Instruction::f32_const(_)
        | Instruction::f64_const(_)
        | Instruction::v128_const(_)
        | Instruction::i8x16_shuffle(_)
        | Instruction::atomic_fence(_) => true,
        Instruction::Mem(_, arg) => is_stable_target(&arg.target),
        Instruction::MemLane(_, access) => is_stable_target(&access.memarg.target),
        Instruction::block(block)
        | Instruction::loop_(block)
        | Instruction::if_(block)
        | Instruction::try_(block) => is_stable_block(block),
        Instruction::else_(label) | Instruction::end_(label) => has_no_label(label),
        Instruction::try_table(table) => is_stable_try(table),
        Instruction::br_table(table) => is_stable_table(table),
        Instruction::call_indirect(call) | Instruction::return_call_indirect(call) => {
            is_stable_boxed(call)
        }
        Instruction::select(types) => is_stable_select(types),
        Instruction::ref_null(heap) => is_stable_heap(heap),
        Instruction::ref_test(arg) => is_stable_heap(&arg.rt.heap),
        Instruction::ref_cast(arg) => is_stable_heap(&arg.rt.heap),
        Instruction::catch(index)
        | Instruction::throw(index)
        | Instruction::rethrow(index)
        | Instruction::br(index)
        | Instruction::br_if(index)
        | Instruction::call(index)
        | Instruction::return_call(index)
        | Instruction::call_ref(index)
        | Instruction::return_call_ref(index)
        | Instruction::delegate(index)
        | Instruction::local_get(index)
        | Instruction::local_set(index)
        | Instruction::local_tee(index)
        | Instruction::global_get(index)
        | Instruction::global_set(index)
        | Instruction::ref_func(index)
        | Instruction::br_on_null(index)
        | Instruction::br_on_non_null(index)
        | Instruction::struct_new(index)
        | Instruction::struct_new_default(index)
        | Instruction::array_new(index)
        | Instruction::array_new_default(index)
        | Instruction::array_get(index)
        | Instruction::array_get_s(index)
        | Instruction::array_get_u(index)
        | Instruction::array_set(index)
        | Instruction::data_drop(index)
        | Instruction::elem_drop(index) => index.is_resolved(),
        Instruction::table_get(arg)
        | Instruction::table_set(arg)
        | Instruction::table_grow(arg)
        | Instruction::table_size(arg)
        | Instruction::table_fill(arg) => arg.dst.is_resolved(),
        Instruction::memory_size(arg)
        | Instruction::memory_grow(arg)
        | Instruction::memory_fill(arg) => arg.mem.is_resolved(),
        Instruction::array_fill(arg) => arg.array.is_resolved(),
        Instruction::array_new_fixed(arg) => arg.array.is_resolved(),
        Instruction::struct_get(access)
        | Instruction::struct_get_s(access)
        | Instruction::struct_get_u(access)
        | Instruction::struct_set(access) => are_numbers(&access.owner, &access.field),
        Instruction::array_new_data(arg) => are_numbers(&arg.array, &arg.data_idx),
        Instruction::array_new_elem(arg) => are_numbers(&arg.array, &arg.elem_idx),
        Instruction::array_copy(arg) => are_numbers(&arg.dest_array, &arg.src_array),
        Instruction::array_init_data(arg) | Instruction::array_init_elem(arg) => {
            are_numbers(&arg.array, &arg.segment)
        }
        Instruction::memory_init(arg) => are_numbers(&arg.segment, &arg.mem),
        Instruction::memory_copy(arg) => are_numbers(&arg.src, &arg.dst),
        Instruction::table_init(arg) => are_numbers(&arg.elem, &arg.table),
        Instruction::table_copy(arg) => are_numbers(&arg.dst, &arg.src),
        Instruction::struct_new_desc(..)
        | Instruction::struct_new_default_desc(..)
        | Instruction::ref_get_desc(..)
        | Instruction::cont_new(..)
        | Instruction::cont_bind(..)
        | Instruction::suspend(..)
        | Instruction::switch(..)
        | Instruction::memory_discard(..)
        | Instruction::ref_cast_desc_eq(..)
        | Instruction::br_on_cast(..)
        | Instruction::br_on_cast_fail(..)
        | Instruction::br_on_cast_desc_eq(..)
        | Instruction::br_on_cast_desc_eq_fail(..)
        | Instruction::GlobalAtomic(..)
        | Instruction::TableAtomic(..)
        | Instruction::StructAtomic(..)
        | Instruction::ArrayAtomic(..)
        | Instruction::resume(..)
        | Instruction::resume_throw(..)
        | Instruction::resume_throw_ref(..)
        | Instruction::Beyond(..) => false,
    }
}

/// Returns whether all instructions are stable. Stops at the first that is not.
fn are_stable(instrs: &[Instruction<'_>]) -> bool
    ensures { result ≡ list_all is_stable instrs.now }
{
    instrs.iter().all(|instr| is_stable(instr))
}

/// Returns whether the body of a function is stable.
fn is_stable_kind(kind: &FuncKind<'_>) -> bool
    ensures { result ≡ is_stable_kind kind.now }
{
    match kind {
        FuncKind::Import(..) => true,
        FuncKind::Inline { expression, .. } => are_stable(expression.instrs.as_slice()),
    }
}

/// Returns whether the body of a field is stable, if the field is a function.
fn is_stable_field(field: &ModuleField<'_>) -> bool
    ensures { result ≡ is_stable_field field.now }
{
    match field {
        ModuleField::Func(func) => is_stable_kind(&func.kind),
        _ => true,
    }
}

/// Returns whether each function has a stable body.
fn are_stable_fields(fields: &[ModuleField<'_>]) -> bool
    ensures { result ≡ has_stable_bodies fields.now }
{
    fields.iter().all(|field| is_stable_field(field))
}

/// Returns whether each function has a stable body, and leaves the fields unchanged.
///
/// It borrows them mutably. With a shared borrow the prover would compare the type of the whole
/// tree with itself.
pub(crate) fn has_stable_bodies<'a>(fields: &mut Seq<ModuleField<'a>>) -> bool
    ensures stable { result ≡ has_stable_bodies fields.old }
    ensures stays { fields.new ≡ fields.old }
{
    are_stable_fields(fields.as_slice())
}
