//! Types and instructions of a resolved module as the validator sees them.

ghost use Rattle.std.specs.Prelude.{◌≡◌, ◌<◌, length, map, slice_get, IfOk, Some};
ghost use Rattle.wast_valid_tree.specs.Values.{number_of, canonical, type_of, abstract_of, unshared, heap_of, ref_of, ty_of, sig_of_results, sig_of_use, index_of_use, with_heap, with_test, with_cast, with_block, with_loop, with_if, with_callee, with_tail_callee, with_type, select_of, mem_use_of, mem_of, with_mem, with_mem_lane, instr_of};

use std::alloc::Global;
use wast_base::{Index, MemLaneOp, MemOp, Seq};
use wast_tree_nodes::{
    AbstractHeapType, BlockType, CallIndirect, FunctionType, HeapType, Instruction, MemArg,
    MemArgTarget, RefType, TypeUse, ValType,
};
use wast_valid::{Instr, MemUse, Refused};
use wast_valid_machine::{Heap, RefTy, Sig, Ty};

/// Returns the number of an index.
#[tactic(auto, unfolding(crate::specs::Values::number_of))]
pub(crate) fn number(index: &Index) -> u32
    ensures { result ≡ number_of index.now }
{
    match index {
        Index::Num(n, _) => *n,
        Index::Id(_) => 0,
    }
}

/// Returns the canonical index of a type.
#[tactic(auto, unfolding(crate::specs::Values::canonical))]
fn canonical_index(cs: &[u32], n: u32) -> u32
    ensures { result ≡ canonical cs.now n }
{
    match cs.get(n as usize) {
        None => n,
        Some(first) => *first,
    }
}

/// Returns the canonical index of the type that an index refers to.
#[tactic(auto, unfolding(crate::specs::Values::type_of))]
pub(crate) fn type_index(cs: &[u32], index: &Index) -> u32
    ensures { result ≡ type_of cs.now index.now }
{
    canonical_index(cs, number(index))
}

/// Returns an abstract heap type, unless it is of stack switching.
#[tactic(auto, unfolding(crate::specs::Values::abstract_of))]
fn abstract_heap(ty: AbstractHeapType) -> Option<Heap>
    ensures { result ≡ abstract_of ty }
{
    match ty {
        AbstractHeapType::Func => Some(Heap::Funcs),
        AbstractHeapType::Extern => Some(Heap::Externs),
        AbstractHeapType::Exn => Some(Heap::Exns),
        AbstractHeapType::NoExn => Some(Heap::NoExn),
        AbstractHeapType::Any => Some(Heap::Any),
        AbstractHeapType::Eq => Some(Heap::Eqs),
        AbstractHeapType::Struct => Some(Heap::Structs),
        AbstractHeapType::Array => Some(Heap::Arrays),
        AbstractHeapType::NoFunc => Some(Heap::NoFunc),
        AbstractHeapType::NoExtern => Some(Heap::NoExtern),
        AbstractHeapType::None => Some(Heap::NoAny),
        AbstractHeapType::I31 => Some(Heap::I31),
        AbstractHeapType::Cont | AbstractHeapType::NoCont => None,
    }
}

/// Returns an abstract heap type, unless it is shared.
#[tactic(auto, unfolding(crate::specs::Values::unshared))]
fn unshared_heap(shared: bool, ty: AbstractHeapType) -> Option<Heap>
    ensures { result ≡ unshared shared ty }
{
    if shared { None } else { abstract_heap(ty) }
}

/// Returns a heap type, unless it is shared or exact.
#[tactic(auto, unfolding(crate::specs::Values::heap_of))]
pub(crate) fn heap_type(cs: &[u32], ty: &HeapType) -> Option<Heap>
    ensures { result ≡ heap_of cs.now ty.now }
{
    match ty {
        HeapType::Abstract { shared, ty } => unshared_heap(*shared, *ty),
        HeapType::Concrete(index) => Some(Heap::Defined(type_index(cs, index))),
        HeapType::Exact(_) => None,
    }
}

/// Returns a reference type, unless it is shared or exact.
#[tactic(auto, unfolding(crate::specs::Values::ref_of))]
pub(crate) fn reference(cs: &[u32], ty: &RefType) -> Option<RefTy>
    ensures { result ≡ ref_of cs.now ty.now }
{
    match heap_type(cs, &ty.heap) {
        None => None,
        Some(heap) => Some(RefTy {
            nullable: ty.nullable,
            heap,
        }),
    }
}

/// Returns a value type, unless it is a shared or exact reference.
#[tactic(auto, unfolding(crate::specs::Values::ty_of))]
pub(crate) fn value(cs: &[u32], ty: &ValType) -> Option<Ty>
    ensures { result ≡ ty_of cs.now ty.now }
{
    match ty {
        ValType::I32 => Some(Ty::I32),
        ValType::I64 => Some(Ty::I64),
        ValType::F32 => Some(Ty::F32),
        ValType::F64 => Some(Ty::F64),
        ValType::V128 => Some(Ty::V128),
        ValType::Ref(r) => match reference(cs, r) {
            None => None,
            Some(r) => Some(Ty::Ref(r)),
        },
    }
}

/// Returns the type of a block with these results and without parameters.
#[tactic(auto, unfolding(crate::specs::Values::sig_of_results))]
fn sig_with_results(cs: &[u32], results: &[ValType]) -> Option<Sig>
    ensures { result ≡ sig_of_results cs.now results.now }
{
    match results {
        [] => Some(Sig::Empty),
        [ty] => match value(cs, ty) {
            None => None,
            Some(t) => Some(Sig::One(t)),
        },
        _ => None,
    }
}

/// Returns the type of a block.
#[tactic(auto, unfolding(crate::specs::Values::sig_of_use))]
fn block_sig(cs: &[u32], ty: &TypeUse<FunctionType>) -> Option<Sig>
    ensures { result ≡ sig_of_use cs.now ty.now.index ty.now.inline }
{
    match &ty.index {
        Some(index) => Some(Sig::Func(type_index(cs, index))),
        None => match &ty.inline {
            None => Some(Sig::Empty),
            Some(inline) => sig_with_results(cs, inline.results.as_slice()),
        },
    }
}

/// Returns the type index of a function or of an indirect call.
#[tactic(auto, unfolding(crate::specs::Values::index_of_use))]
pub(crate) fn use_index(cs: &[u32], ty: &TypeUse<FunctionType>) -> Option<u32>
    ensures { result ≡ index_of_use cs.now ty.now.index }
{
    match &ty.index {
        None => None,
        Some(index) => Some(type_index(cs, index)),
    }
}

/// Returns `ref.null`, or `Unsupported` if its immediate has no value.
#[tactic(auto, unfolding(crate::specs::Values::with_heap))]
fn null_instr(cs: &[u32], ty: &HeapType) -> Instr
    ensures { result ≡ with_heap (heap_of cs.now ty.now) }
{
    match heap_type(cs, ty) {
        None => Instr::Unsupported,
        Some(x) => Instr::ref_null(x),
    }
}

/// Returns `ref.test`, or `Unsupported` if its immediate has no value.
#[tactic(auto, unfolding(crate::specs::Values::with_test))]
fn test_instr(cs: &[u32], ty: &RefType) -> Instr
    ensures { result ≡ with_test (ref_of cs.now ty.now) }
{
    match reference(cs, ty) {
        None => Instr::Unsupported,
        Some(x) => Instr::ref_test(x),
    }
}

/// Returns `ref.cast`, or `Unsupported` if its immediate has no value.
#[tactic(auto, unfolding(crate::specs::Values::with_cast))]
fn cast_instr(cs: &[u32], ty: &RefType) -> Instr
    ensures { result ≡ with_cast (ref_of cs.now ty.now) }
{
    match reference(cs, ty) {
        None => Instr::Unsupported,
        Some(x) => Instr::ref_cast(x),
    }
}

/// Returns `block`, or `Unsupported` if its immediate has no value.
#[tactic(auto, unfolding(crate::specs::Values::with_block))]
fn block_instr(cs: &[u32], block: &BlockType) -> Instr
    ensures { result ≡ with_block (sig_of_use cs.now block.now.ty.index block.now.ty.inline) }
{
    match block_sig(cs, &block.ty) {
        None => Instr::Unsupported,
        Some(x) => Instr::block(x),
    }
}

/// Returns `loop`, or `Unsupported` if its immediate has no value.
#[tactic(auto, unfolding(crate::specs::Values::with_loop))]
fn loop_instr(cs: &[u32], block: &BlockType) -> Instr
    ensures { result ≡ with_loop (sig_of_use cs.now block.now.ty.index block.now.ty.inline) }
{
    match block_sig(cs, &block.ty) {
        None => Instr::Unsupported,
        Some(x) => Instr::loop_(x),
    }
}

/// Returns `if`, or `Unsupported` if its immediate has no value.
#[tactic(auto, unfolding(crate::specs::Values::with_if))]
fn if_instr(cs: &[u32], block: &BlockType) -> Instr
    ensures { result ≡ with_if (sig_of_use cs.now block.now.ty.index block.now.ty.inline) }
{
    match block_sig(cs, &block.ty) {
        None => Instr::Unsupported,
        Some(x) => Instr::if_(x),
    }
}

/// Returns `call_indirect`, or `Unsupported` if its immediate has no value.
#[tactic(auto, unfolding(crate::specs::Values::with_callee))]
fn call_indirect_instr(cs: &[u32], call: &CallIndirect) -> Instr
    ensures { result ≡ with_callee (index_of_use cs.now call.now.ty.index) (number_of call.now.table) }
{
    match use_index(cs, &call.ty) {
        None => Instr::Unsupported,
        Some(x) => Instr::call_indirect(x, number(&call.table)),
    }
}

/// Returns `return_call_indirect`, or `Unsupported` if its immediate has no value.
#[tactic(auto, unfolding(crate::specs::Values::with_tail_callee))]
fn return_call_indirect_instr(cs: &[u32], call: &CallIndirect) -> Instr
    ensures { result ≡ with_tail_callee (index_of_use cs.now call.now.ty.index) (number_of call.now.table) }
{
    match use_index(cs, &call.ty) {
        None => Instr::Unsupported,
        Some(x) => Instr::return_call_indirect(x, number(&call.table)),
    }
}

/// Returns `select` with a type, or `Unsupported` if its immediate has no value.
#[tactic(auto, unfolding(crate::specs::Values::with_type))]
fn typed_select(cs: &[u32], ty: &ValType) -> Instr
    ensures { result ≡ with_type (ty_of cs.now ty.now) }
{
    match value(cs, ty) {
        None => Instr::Unsupported,
        Some(x) => Instr::select_typed(x),
    }
}

/// Returns `select`.
#[tactic(auto, unfolding(crate::specs::Values::select_of))]
fn select_instr(cs: &[u32], tys: &Option<Seq<ValType>>) -> Instr
    ensures { result ≡ select_of cs.now tys.now }
{
    match tys {
        None => Instr::select,
        Some(tys) => match tys.as_slice() {
            [] => Instr::select_many(0),
            [ty] => typed_select(cs, ty),
            more => Instr::select_many(more.len()),
        },
    }
}

/// Returns a memory argument, if it is of a memory and has no ordering.
#[tactic(auto, unfolding(crate::specs::Values::mem_of, crate::specs::Values::mem_use_of))]
fn mem_use(arg: &MemArg) -> Option<MemUse>
    ensures { result ≡ mem_of arg.now }
{
    match &arg.target {
        MemArgTarget::Memory(memory) => match arg.ordering {
            None => Some(MemUse {
                memory: number(memory),
                align: arg.align,
                offset: arg.offset,
            }),
            Some(_) => None,
        },
        MemArgTarget::Array(_) => None,
    }
}

/// Returns a load or a store, or `Unsupported` if its immediate has no value.
#[tactic(auto, unfolding(crate::specs::Values::with_mem))]
fn mem_instr(op: MemOp, arg: &MemArg) -> Instr
    ensures { result ≡ with_mem op (mem_of arg.now) }
{
    match mem_use(arg) {
        None => Instr::Unsupported,
        Some(x) => Instr::Mem(op, x),
    }
}

/// Returns a load or a store of a lane, or `Unsupported` if its immediate has no value.
#[tactic(auto, unfolding(crate::specs::Values::with_mem_lane))]
fn mem_lane_instr(op: MemLaneOp, arg: &MemArg, lane: u8) -> Instr
    ensures { result ≡ with_mem_lane op (mem_of arg.now) lane }
{
    match mem_use(arg) {
        None => Instr::Unsupported,
        Some(x) => Instr::MemLane(op, x, lane),
    }
}

/// Returns the number of a label of a list.
fn number_at(labels: &[Index], i: usize) -> u32
    requires { i < length labels.now }
    ensures { slice_get (map number_of labels.now) i ≡ Some result }
{
    number(&labels[i])
}

/// Returns the labels of `br_table`.
fn label_numbers(alloc: Global, labels: &[Index]) -> Result<Seq<u32>, Refused>
    ensures { IfOk result (λ ns. ns ≡ map number_of labels.now) }
{
    let mut numbers = Seq::new(alloc);
    for i in 0..labels.len() {
        match numbers.push(number_at(labels, i)) {
            Ok(()) => {}
            Err(_) => return Err(Refused),
        }
    }
    Ok(numbers)
}

/// Returns an instruction as the validator sees it. Only `br_table` allocates.
#[tactic(auto, unfolding(crate::specs::Values::instr_of))]
pub fn instr_for(alloc: Global, cs: &[u32], instruction: &Instruction) -> Result<Instr, Refused>
    ensures { IfOk result (λ i. i ≡ instr_of cs.now instruction.now) }
{
    match instruction {
        Instruction::br_table(table) => {
            let labels = label_numbers(alloc, table.labels.as_slice())?;
            Ok(Instr::br_table(labels, number(&table.default)))
        }
        Instruction::Plain(op) => Ok(Instr::Plain(*op)),
        Instruction::Lane(op, a) => Ok(Instr::Lane(*op, a.lane)),
        Instruction::Mem(op, m) => Ok(mem_instr(*op, m)),
        Instruction::MemLane(op, a) => Ok(mem_lane_instr(*op, &a.memarg, a.lane.lane)),
        Instruction::br(x) => Ok(Instr::br(number(x))),
        Instruction::br_if(x) => Ok(Instr::br_if(number(x))),
        Instruction::call(x) => Ok(Instr::call(number(x))),
        Instruction::return_call(x) => Ok(Instr::return_call(number(x))),
        Instruction::call_ref(x) => Ok(Instr::call_ref(type_index(cs, x))),
        Instruction::return_call_ref(x) => Ok(Instr::return_call_ref(type_index(cs, x))),
        Instruction::local_get(x) => Ok(Instr::local_get(number(x))),
        Instruction::local_set(x) => Ok(Instr::local_set(number(x))),
        Instruction::local_tee(x) => Ok(Instr::local_tee(number(x))),
        Instruction::global_get(x) => Ok(Instr::global_get(number(x))),
        Instruction::global_set(x) => Ok(Instr::global_set(number(x))),
        Instruction::table_get(a) => Ok(Instr::table_get(number(&a.dst))),
        Instruction::table_set(a) => Ok(Instr::table_set(number(&a.dst))),
        Instruction::table_size(a) => Ok(Instr::table_size(number(&a.dst))),
        Instruction::table_grow(a) => Ok(Instr::table_grow(number(&a.dst))),
        Instruction::table_fill(a) => Ok(Instr::table_fill(number(&a.dst))),
        Instruction::table_copy(a) => Ok(Instr::table_copy(number(&a.dst), number(&a.src))),
        Instruction::table_init(a) => Ok(Instr::table_init(number(&a.table), number(&a.elem))),
        Instruction::elem_drop(x) => Ok(Instr::elem_drop(number(x))),
        Instruction::memory_size(a) => Ok(Instr::memory_size(number(&a.mem))),
        Instruction::memory_grow(a) => Ok(Instr::memory_grow(number(&a.mem))),
        Instruction::memory_fill(a) => Ok(Instr::memory_fill(number(&a.mem))),
        Instruction::memory_copy(a) => Ok(Instr::memory_copy(number(&a.dst), number(&a.src))),
        Instruction::memory_init(a) => Ok(Instr::memory_init(number(&a.mem), number(&a.segment))),
        Instruction::data_drop(x) => Ok(Instr::data_drop(number(x))),
        Instruction::ref_func(x) => Ok(Instr::ref_func(number(x))),
        Instruction::br_on_null(x) => Ok(Instr::br_on_null(number(x))),
        Instruction::br_on_non_null(x) => Ok(Instr::br_on_non_null(number(x))),
        Instruction::struct_new(x) => Ok(Instr::struct_new(type_index(cs, x))),
        Instruction::struct_get(a) => Ok(Instr::struct_get(
            type_index(cs, &a.owner),
            number(&a.field),
        )),
        Instruction::block(b) => Ok(block_instr(cs, b.get())),
        Instruction::loop_(b) => Ok(loop_instr(cs, b.get())),
        Instruction::if_(b) => Ok(if_instr(cs, b.get())),
        Instruction::else_(_) => Ok(Instr::else_),
        Instruction::end_(_) => Ok(Instr::end_),
        Instruction::call_indirect(c) => Ok(call_indirect_instr(cs, c.get())),
        Instruction::return_call_indirect(c) => Ok(return_call_indirect_instr(cs, c.get())),
        Instruction::select(s) => Ok(select_instr(cs, &s.tys)),
        Instruction::i32_const(_) => Ok(Instr::Const(Ty::I32)),
        Instruction::i64_const(_) => Ok(Instr::Const(Ty::I64)),
        Instruction::f32_const(_) => Ok(Instr::Const(Ty::F32)),
        Instruction::f64_const(_) => Ok(Instr::Const(Ty::F64)),
        Instruction::v128_const(_) => Ok(Instr::Const(Ty::V128)),
        Instruction::ref_null(h) => Ok(null_instr(cs, h)),
        Instruction::ref_test(a) => Ok(test_instr(cs, &a.rt)),
        Instruction::ref_cast(a) => Ok(cast_instr(cs, &a.rt)),
        Instruction::catch(..)
        | Instruction::throw(..)
        | Instruction::rethrow(..)
        | Instruction::delegate(..)
        | Instruction::struct_new_default(..)
        | Instruction::struct_get_s(..)
        | Instruction::struct_get_u(..)
        | Instruction::struct_set(..)
        | Instruction::array_new(..)
        | Instruction::array_new_default(..)
        | Instruction::array_new_data(..)
        | Instruction::array_new_elem(..)
        | Instruction::array_get(..)
        | Instruction::array_get_s(..)
        | Instruction::array_get_u(..)
        | Instruction::array_set(..)
        | Instruction::array_fill(..)
        | Instruction::array_copy(..)
        | Instruction::array_init_data(..)
        | Instruction::array_init_elem(..)
        | Instruction::struct_new_desc(..)
        | Instruction::struct_new_default_desc(..)
        | Instruction::ref_get_desc(..)
        | Instruction::cont_new(..)
        | Instruction::cont_bind(..)
        | Instruction::suspend(..)
        | Instruction::switch(..)
        | Instruction::memory_discard(..)
        | Instruction::try_(..)
        | Instruction::try_table(..)
        | Instruction::array_new_fixed(..)
        | Instruction::ref_cast_desc_eq(..)
        | Instruction::br_on_cast(..)
        | Instruction::br_on_cast_fail(..)
        | Instruction::br_on_cast_desc_eq(..)
        | Instruction::br_on_cast_desc_eq_fail(..)
        | Instruction::i8x16_shuffle(..)
        | Instruction::atomic_fence(..)
        | Instruction::GlobalAtomic(..)
        | Instruction::TableAtomic(..)
        | Instruction::StructAtomic(..)
        | Instruction::ArrayAtomic(..)
        | Instruction::resume(..)
        | Instruction::resume_throw(..)
        | Instruction::resume_throw_ref(..)
        | Instruction::Beyond(..) => Ok(Instr::Unsupported),
    }
}
