//! Instructions of a resolved module as bytes.

ghost use Rattle.std.specs.Prelude.{map, option_map, IsTrue};
ghost use Rattle.wast_base.specs.Ids.{is_number};
ghost use Rattle.wast_tree_nodes.specs.Sites.{OfBlock, constant_context, is_sequential, in_heap, in_ref, in_access, in_cast, in_mem_arg, in_select, in_indirect, in_use, in_br_table, in_try_table};
ghost use Rattle.wasm_ops.specs.CastInstrs.{cast_instr, br_cast_instr, fence_instr};
ghost use Rattle.wasm_ops.specs.ConstantInstrs.{ref_null_instr};
ghost use Rattle.wasm_ops.specs.Control.{catch_clause};
ghost use Rattle.wasm_ops.specs.ControlInstrs.{block_instr, br_table_instr, try_table_instr};
ghost use Rattle.wasm_ops.specs.IndexInstrs.{index_instr, index_pair_instr};
ghost use Rattle.wasm_ops.specs.MemoryInstrs.{mem_instr};
ghost use Rattle.wasm_ops.specs.SelectInstrs.{select_instr};
ghost use Rattle.wasm_ops.specs.Sinks.{Writes};
ghost use Rattle.wasm_ops.specs.Table.{instr};
ghost use Rattle.wasm_ops.specs.VectorInstrs.{lanes_instr, lane_instr, mem_lane_instr};
ghost use Rattle.wasm_ops.specs.declared.casts.BrCastOp.TheVariants as branch;
ghost use Rattle.wast_base.specs.declared.index_ops.IndexPairOp.TheVariants as pair;
ghost use Rattle.wasm_ops.specs.declared.vectors.LanesOp.TheVariants as lanes;
ghost use Rattle.wast_core_conv.specs.Encodable.{are_encodable, encodable, is_encodable_catch, is_encodable_instr};
ghost use Rattle.wast_core_conv.specs.Meaning as meaning;

use crate::conv;
use crate::conv_entities::type_index;
use crate::conv_vectors::{fence_ordering, lane_bytes};
use crate::values::Resolved;
use wasm_ops::{
    BlockInstr, BlockOp, BrCastInstr, BrCastOp, BrTable, CastInstr, CastOp, Counted, Delimiter,
    Encode, EncodeWith, F32Const, F64Const, Fence, I32Const, I64Const, IndexInstr, IndexOp,
    IndexPair, IndexPairOp, LaneInstr, LanesInstr, LanesOp, MemInstr, MemLaneInstr, RefNull,
    Refusal, Sink,
};
use wast_base::{Boxed, Index, LaneOp, MemLaneOp, MemOp};
use wast_tree_nodes::{
    ArrayNewFixed, BlockType, BrOnCast, BrOnCastFail, BrTableIndices, CallIndirect, HeapType,
    Instruction, LaneArg, LoadOrStoreLane, MemArg, Ordering, RefType, SelectTypes, StructAccess,
    TryTable, TryTableCatch, V128Const,
};

/// Writes an instruction that has one index as its only immediate.
#[inline(always)]
fn put_index<S: Sink>(op: IndexOp, index: &Index, out: &mut S) -> Result<(), Refusal>
    requires { IsTrue (is_number index.now) }
    ensures { Writes S.rules (instr (index_instr op (meaning.index_value index.now))).in_range
        out.old out.new (instr (index_instr op (meaning.index_value index.now))).bytes result }
{
    IndexInstr {
        op,
        index: conv::index(index),
    }
    .encode(out)
}

/// Writes an instruction that has two indices as its immediates.
fn put_pair<S: Sink>(
    op: IndexPairOp,
    first: &Index,
    second: &Index,
    out: &mut S,
) -> Result<(), Refusal>
    requires first { IsTrue (is_number first.now) }
    requires second { IsTrue (is_number second.now) }
    ensures { Writes S.rules (instr (index_pair_instr op (meaning.index_value first.now) (meaning.index_value second.now))).in_range
        out.old out.new (instr (index_pair_instr op (meaning.index_value first.now) (meaning.index_value second.now))).bytes result }
{
    IndexPair {
        op,
        first: conv::index(first),
        second: conv::index(second),
    }
    .encode(out)
}

/// Writes an indirect call: the type index, and then the table index.
fn put_indirect<S: Sink>(op: IndexPairOp, call: &CallIndirect, out: &mut S) -> Result<(), Refusal>
    requires { IsTrue (encodable (in_indirect call.now)) }
    ensures { Writes S.rules (instr (index_pair_instr op (meaning.type_index call.now.ty) (meaning.index_value call.now.table))).in_range
        out.old out.new (instr (index_pair_instr op (meaning.type_index call.now.ty) (meaning.index_value call.now.table))).bytes result }
{
    IndexPair {
        op,
        first: type_index(&call.ty),
        second: conv::index(&call.table),
    }
    .encode(out)
}

/// Writes an indirect call that is stored in a box.
fn put_boxed_call<S: Sink>(
    op: IndexPairOp,
    call: &Boxed<CallIndirect>,
    out: &mut S,
) -> Result<(), Refusal>
    requires { IsTrue (encodable (in_indirect call.now)) }
    ensures { Writes S.rules (instr (index_pair_instr op (meaning.type_index call.now.ty) (meaning.index_value call.now.table))).in_range
        out.old out.new (instr (index_pair_instr op (meaning.type_index call.now.ty) (meaning.index_value call.now.table))).bytes result }
{
    put_indirect(op, call.get(), out)
}

/// Writes a load or a store.
fn put_mem<S: Sink>(op: MemOp, arg: &MemArg, out: &mut S) -> Result<(), Refusal>
    requires { IsTrue (are_encodable (in_mem_arg arg.now)) }
    ensures { Writes S.rules (instr (mem_instr op (meaning.as_mem_arg arg.now))).in_range
        out.old out.new (instr (mem_instr op (meaning.as_mem_arg arg.now))).bytes result }
{
    MemInstr {
        op,
        memarg: conv::mem_arg(arg),
    }
    .encode(out)
}

/// Writes an instruction on a lane.
fn put_lane<S: Sink>(op: LaneOp, arg: &LaneArg, out: &mut S) -> Result<(), Refusal>
    ensures { Writes S.rules (instr (lane_instr op arg.now.lane)).in_range
        out.old out.new (instr (lane_instr op arg.now.lane)).bytes result }
{
    LaneInstr { op, lane: arg.lane }.encode(out)
}

/// Writes a load or a store of a lane.
fn put_mem_lane<S: Sink>(op: MemLaneOp, arg: &LoadOrStoreLane, out: &mut S) -> Result<(), Refusal>
    requires { IsTrue (are_encodable (in_mem_arg arg.now.memarg)) }
    ensures { Writes S.rules (instr (mem_lane_instr op (meaning.as_mem_arg arg.now.memarg) arg.now.lane.lane)).in_range
        out.old out.new (instr (mem_lane_instr op (meaning.as_mem_arg arg.now.memarg) arg.now.lane.lane)).bytes result }
{
    MemLaneInstr {
        op,
        memarg: conv::mem_arg(&arg.memarg),
        lane: arg.lane.lane,
    }
    .encode(out)
}

/// Writes an instruction on a struct field: the type index, and then the field index.
fn put_access<S: Sink>(op: IndexPairOp, arg: &StructAccess, out: &mut S) -> Result<(), Refusal>
    requires { IsTrue (encodable (in_access arg.now)) }
    ensures { Writes S.rules (instr (index_pair_instr op (meaning.index_value arg.now.owner) (meaning.index_value arg.now.field))).in_range
        out.old out.new (instr (index_pair_instr op (meaning.index_value arg.now.owner) (meaning.index_value arg.now.field))).bytes result }
{
    IndexPair {
        op,
        first: conv::index(&arg.owner),
        second: conv::index(&arg.field),
    }
    .encode(out)
}

/// Writes `array.new_fixed`: the type index and the number of elements.
fn put_new_fixed<S: Sink>(arg: &ArrayNewFixed, out: &mut S) -> Result<(), Refusal>
    requires { IsTrue (is_number arg.now.array) }
    ensures { Writes S.rules (instr (index_pair_instr pair.ArrayNewFixed (meaning.index_value arg.now.array) arg.now.length)).in_range
        out.old out.new (instr (index_pair_instr pair.ArrayNewFixed (meaning.index_value arg.now.array) arg.now.length)).bytes result }
{
    IndexPair {
        op: IndexPairOp::ArrayNewFixed,
        first: conv::index(&arg.array),
        second: arg.length,
    }
    .encode(out)
}

/// Writes a test or a cast of a reference.
fn put_cast<S: Sink>(op: CastOp, ty: &RefType, out: &mut S) -> Result<(), Refusal>
    requires { IsTrue (are_encodable (in_ref ty.now)) }
    ensures { Writes S.rules (instr (cast_instr op (meaning.as_ref_type ty.now))).in_range
        out.old out.new (instr (cast_instr op (meaning.as_ref_type ty.now))).bytes result }
{
    CastInstr {
        op,
        ty: conv::ref_type(ty),
    }
    .encode(out)
}

/// Writes a branch on a cast.
fn put_br_cast<S: Sink>(
    op: BrCastOp,
    label: &Index,
    from: &RefType,
    to: &RefType,
    out: &mut S,
) -> Result<(), Refusal>
    requires { IsTrue (encodable (in_cast constant_context.blocks label.now to.now from.now)) }
    ensures { Writes S.rules
        (instr (br_cast_instr op (meaning.index_value label.now) (meaning.as_ref_type from.now) (meaning.as_ref_type to.now))).in_range
        out.old out.new
        (instr (br_cast_instr op (meaning.index_value label.now) (meaning.as_ref_type from.now) (meaning.as_ref_type to.now))).bytes result }
{
    BrCastInstr {
        op,
        label: conv::index(label),
        from: conv::ref_type(from),
        to: conv::ref_type(to),
    }
    .encode(out)
}

/// Writes `br_on_cast`.
fn put_br_on_cast<S: Sink>(arg: &Boxed<BrOnCast>, out: &mut S) -> Result<(), Refusal>
    requires { IsTrue (encodable (in_cast constant_context.blocks arg.now.label arg.now.to_type arg.now.from_type)) }
    ensures { Writes S.rules
        (instr (br_cast_instr branch.Succeeds (meaning.index_value arg.now.label) (meaning.as_ref_type arg.now.from_type) (meaning.as_ref_type arg.now.to_type))).in_range
        out.old out.new
        (instr (br_cast_instr branch.Succeeds (meaning.index_value arg.now.label) (meaning.as_ref_type arg.now.from_type) (meaning.as_ref_type arg.now.to_type))).bytes result }
{
    let arg = arg.get();
    put_br_cast(
        BrCastOp::Succeeds,
        &arg.label,
        &arg.from_type,
        &arg.to_type,
        out,
    )
}

/// Writes `br_on_cast_fail`.
fn put_br_on_cast_fail<S: Sink>(arg: &Boxed<BrOnCastFail>, out: &mut S) -> Result<(), Refusal>
    requires { IsTrue (encodable (in_cast constant_context.blocks arg.now.label arg.now.to_type arg.now.from_type)) }
    ensures { Writes S.rules
        (instr (br_cast_instr branch.Fails (meaning.index_value arg.now.label) (meaning.as_ref_type arg.now.from_type) (meaning.as_ref_type arg.now.to_type))).in_range
        out.old out.new
        (instr (br_cast_instr branch.Fails (meaning.index_value arg.now.label) (meaning.as_ref_type arg.now.from_type) (meaning.as_ref_type arg.now.to_type))).bytes result }
{
    let arg = arg.get();
    put_br_cast(
        BrCastOp::Fails,
        &arg.label,
        &arg.from_type,
        &arg.to_type,
        out,
    )
}

/// Writes `v128.const`.
fn put_v128<S: Sink>(value: &V128Const, out: &mut S) -> Result<(), Refusal>
    ensures { Writes S.rules (instr (lanes_instr lanes.Const (meaning.lane_bytes value.now))).in_range
        out.old out.new (instr (lanes_instr lanes.Const (meaning.lane_bytes value.now))).bytes result }
{
    LanesInstr {
        op: LanesOp::Const,
        lanes: lane_bytes(value),
    }
    .encode(out)
}

/// Writes a fence with an ordering.
fn put_fence<S: Sink>(ordering: Option<Ordering>, out: &mut S) -> Result<(), Refusal>
    requires { IsTrue (is_sequential ordering) }
    ensures { Writes S.rules (instr (fence_instr (meaning.fence_ordering ordering))).in_range
        out.old out.new (instr (fence_instr (meaning.fence_ordering ordering))).bytes result }
{
    Fence(fence_ordering(ordering)).encode(out)
}

/// Writes an instruction that opens a block.
fn put_block<S: Sink>(op: BlockOp, block: &Boxed<BlockType>, out: &mut S) -> Result<(), Refusal>
    requires { IsTrue (encodable (in_use OfBlock block.now.ty)) }
    ensures { Writes S.rules (instr (block_instr op (meaning.as_block_type block.now))).in_range
        out.old out.new (instr (block_instr op (meaning.as_block_type block.now))).bytes result }
{
    BlockInstr {
        op,
        ty: conv::block_type(block.get()),
    }
    .encode(out)
}

/// A catch clause of `try_table` (binary format: control instructions).
impl EncodeWith<TryTableCatch<'_>> for Resolved {
    ghost spelling = { λ _ c. (catch_clause (meaning.as_catch c)).bytes };

    ghost in_range = { λ _ c. (catch_clause (meaning.as_catch c)).in_range };

    ghost is_ready = { λ _ c. is_encodable_catch c };

    #[tactic(auto, using(crate::proofs::Ready::sites_resolved))]
    fn spell<S: Sink>(&self, clause: &TryTableCatch, out: &mut S) -> Result<(), Refusal> {
        conv::catch(clause).encode(out)
    }
}

/// Writes `try_table`: its type, and its catch clauses.
fn put_try_table<S: Sink>(table: &TryTable, out: &mut S) -> Result<(), Refusal>
    requires { IsTrue (encodable (in_try_table constant_context.blocks table.now)) }
    ensures { Writes S.rules
        (instr (try_table_instr (meaning.as_block_type table.now.block) (map meaning.as_catch table.now.catches))).in_range
        out.old out.new
        (instr (try_table_instr (meaning.as_block_type table.now.block) (map meaning.as_catch table.now.catches))).bytes result }
{
    wasm_ops::TryTable {
        ty: conv::block_type(table.block.get()),
        catches: Counted(table.catches.as_slice(), Resolved),
    }
    .encode(out)
}

/// Writes `br_table`: its labels, and then the default label.
fn put_br_table<S: Sink>(table: &BrTableIndices, out: &mut S) -> Result<(), Refusal>
    requires { IsTrue (encodable (in_br_table constant_context.blocks table.now)) }
    ensures { Writes S.rules
        (instr (br_table_instr (map meaning.index_value table.now.labels) (meaning.index_value table.now.default))).in_range
        out.old out.new
        (instr (br_table_instr (map meaning.index_value table.now.labels) (meaning.index_value table.now.default))).bytes result }
{
    BrTable {
        labels: Counted(table.labels.as_slice(), Resolved),
        default: conv::index(&table.default),
    }
    .encode(out)
}

/// Writes `select`, with its types if the source has them.
fn put_select<S: Sink>(types: &SelectTypes, out: &mut S) -> Result<(), Refusal>
    requires { IsTrue (are_encodable (in_select types.now)) }
    ensures { Writes S.rules (instr (select_instr (option_map (map meaning.as_val_type) types.now.tys))).in_range
        out.old out.new (instr (select_instr (option_map (map meaning.as_val_type) types.now.tys))).bytes result }
{
    match &types.tys {
        None => 0x1bu8.encode(out),
        Some(written) => (0x1cu8, Counted(written.as_slice(), Resolved)).encode(out),
    }
}

/// Writes `ref.null` of a heap type.
fn put_null<S: Sink>(ty: &HeapType, out: &mut S) -> Result<(), Refusal>
    requires { IsTrue (are_encodable (in_heap ty.now)) }
    ensures { Writes S.rules (instr (ref_null_instr (meaning.as_heap_type ty.now))).in_range
        out.old out.new (instr (ref_null_instr (meaning.as_heap_type ty.now))).bytes result }
{
    RefNull(conv::heap_type(ty)).encode(out)
}

/// An instruction (binary format: instructions).
impl EncodeWith<Instruction<'_>> for Resolved {
    ghost spelling = { λ _ i. (instr (meaning.as_instr i)).bytes };

    ghost in_range = { λ _ i. (instr (meaning.as_instr i)).in_range };

    ghost is_ready = { λ _ i. is_encodable_instr i };

    #[inline(always)]
    fn spell<S: Sink>(&self, instruction: &Instruction, out: &mut S) -> Result<(), Refusal> {
        match instruction {
            Instruction::Plain(op) => op.encode(out),
            Instruction::Mem(op, arg) => put_mem(*op, arg, out),
            Instruction::Lane(op, arg) => put_lane(*op, arg, out),
            Instruction::MemLane(op, arg) => put_mem_lane(*op, arg, out),
            Instruction::block(block) => put_block(BlockOp::Block, block, out),
            Instruction::loop_(block) => put_block(BlockOp::Loop, block, out),
            Instruction::if_(block) => put_block(BlockOp::If, block, out),
            Instruction::else_(_) => Delimiter::Else.encode(out),
            Instruction::try_(block) => put_block(BlockOp::Try, block, out),
            Instruction::try_table(table) => put_try_table(table, out),
            Instruction::end_(_) => Delimiter::End.encode(out),
            Instruction::br_table(table) => put_br_table(table, out),
            Instruction::call_indirect(call) => put_boxed_call(
                IndexPairOp::CallIndirect,
                call,
                out,
            ),
            Instruction::return_call_indirect(call) => {
                put_boxed_call(IndexPairOp::ReturnCallIndirect, call, out)
            }
            Instruction::select(types) => put_select(types, out),
            Instruction::i32_const(value) => I32Const(*value).encode(out),
            Instruction::i64_const(value) => I64Const(*value).encode(out),
            Instruction::f32_const(value) => F32Const(value.bits).encode(out),
            Instruction::f64_const(value) => F64Const(value.bits).encode(out),
            Instruction::ref_null(ty) => put_null(ty, out),
            Instruction::array_new_fixed(arg) => put_new_fixed(arg, out),
            Instruction::ref_test(arg) => put_cast(CastOp::Test, &arg.rt, out),
            Instruction::ref_cast(arg) => put_cast(CastOp::Cast, &arg.rt, out),
            Instruction::br_on_cast(arg) => put_br_on_cast(arg, out),
            Instruction::br_on_cast_fail(arg) => put_br_on_cast_fail(arg, out),
            Instruction::v128_const(value) => put_v128(value, out),
            Instruction::i8x16_shuffle(arg) => {
                LanesInstr {
                    op: LanesOp::Shuffle,
                    lanes: arg.lanes,
                }
                .encode(out)
            }
            Instruction::atomic_fence(ordering) => put_fence(*ordering, out),
            Instruction::ref_cast_desc_eq(_)
            | Instruction::br_on_cast_desc_eq(_)
            | Instruction::br_on_cast_desc_eq_fail(_)
            | Instruction::GlobalAtomic(_)
            | Instruction::TableAtomic(_)
            | Instruction::StructAtomic(_)
            | Instruction::ArrayAtomic(_)
            | Instruction::resume(_)
            | Instruction::resume_throw(_)
            | Instruction::resume_throw_ref(_)
            | Instruction::Beyond(_) => unreachable!(),
            // Written by tools/ops from here.
            Instruction::catch(tag) => put_index(IndexOp::Catch, tag, out),
            Instruction::throw(tag) => put_index(IndexOp::Throw, tag, out),
            Instruction::rethrow(label) => put_index(IndexOp::Rethrow, label, out),
            Instruction::br(label) => put_index(IndexOp::Br, label, out),
            Instruction::br_if(label) => put_index(IndexOp::BrIf, label, out),
            Instruction::call(func) => put_index(IndexOp::Call, func, out),
            Instruction::return_call(func) => put_index(IndexOp::ReturnCall, func, out),
            Instruction::call_ref(ty) => put_index(IndexOp::CallRef, ty, out),
            Instruction::return_call_ref(ty) => put_index(IndexOp::ReturnCallRef, ty, out),
            Instruction::delegate(label) => put_index(IndexOp::Delegate, label, out),
            Instruction::local_get(local) => put_index(IndexOp::LocalGet, local, out),
            Instruction::local_set(local) => put_index(IndexOp::LocalSet, local, out),
            Instruction::local_tee(local) => put_index(IndexOp::LocalTee, local, out),
            Instruction::global_get(global) => put_index(IndexOp::GlobalGet, global, out),
            Instruction::global_set(global) => put_index(IndexOp::GlobalSet, global, out),
            Instruction::table_get(arg) => put_index(IndexOp::TableGet, &arg.dst, out),
            Instruction::table_set(arg) => put_index(IndexOp::TableSet, &arg.dst, out),
            Instruction::memory_size(arg) => put_index(IndexOp::MemorySize, &arg.mem, out),
            Instruction::memory_grow(arg) => put_index(IndexOp::MemoryGrow, &arg.mem, out),
            Instruction::ref_func(func) => put_index(IndexOp::RefFunc, func, out),
            Instruction::br_on_null(label) => put_index(IndexOp::BrOnNull, label, out),
            Instruction::br_on_non_null(label) => put_index(IndexOp::BrOnNonNull, label, out),
            Instruction::struct_new(ty) => put_index(IndexOp::StructNew, ty, out),
            Instruction::struct_new_default(ty) => put_index(IndexOp::StructNewDefault, ty, out),
            Instruction::struct_get(arg) => put_access(IndexPairOp::StructGet, arg, out),
            Instruction::struct_get_s(arg) => put_access(IndexPairOp::StructGetS, arg, out),
            Instruction::struct_get_u(arg) => put_access(IndexPairOp::StructGetU, arg, out),
            Instruction::struct_set(arg) => put_access(IndexPairOp::StructSet, arg, out),
            Instruction::array_new(ty) => put_index(IndexOp::ArrayNew, ty, out),
            Instruction::array_new_default(ty) => put_index(IndexOp::ArrayNewDefault, ty, out),
            Instruction::array_new_data(arg) => {
                put_pair(IndexPairOp::ArrayNewData, &arg.array, &arg.data_idx, out)
            }
            Instruction::array_new_elem(arg) => {
                put_pair(IndexPairOp::ArrayNewElem, &arg.array, &arg.elem_idx, out)
            }
            Instruction::array_get(ty) => put_index(IndexOp::ArrayGet, ty, out),
            Instruction::array_get_s(ty) => put_index(IndexOp::ArrayGetS, ty, out),
            Instruction::array_get_u(ty) => put_index(IndexOp::ArrayGetU, ty, out),
            Instruction::array_set(ty) => put_index(IndexOp::ArraySet, ty, out),
            Instruction::array_fill(arg) => put_index(IndexOp::ArrayFill, &arg.array, out),
            Instruction::array_copy(arg) => {
                put_pair(IndexPairOp::ArrayCopy, &arg.dest_array, &arg.src_array, out)
            }
            Instruction::array_init_data(arg) => {
                put_pair(IndexPairOp::ArrayInitData, &arg.array, &arg.segment, out)
            }
            Instruction::array_init_elem(arg) => {
                put_pair(IndexPairOp::ArrayInitElem, &arg.array, &arg.segment, out)
            }
            Instruction::memory_init(arg) => {
                put_pair(IndexPairOp::MemoryInit, &arg.segment, &arg.mem, out)
            }
            Instruction::data_drop(data) => put_index(IndexOp::DataDrop, data, out),
            Instruction::memory_copy(arg) => {
                put_pair(IndexPairOp::MemoryCopy, &arg.dst, &arg.src, out)
            }
            Instruction::memory_fill(arg) => put_index(IndexOp::MemoryFill, &arg.mem, out),
            Instruction::table_init(arg) => {
                put_pair(IndexPairOp::TableInit, &arg.elem, &arg.table, out)
            }
            Instruction::elem_drop(elem) => put_index(IndexOp::ElemDrop, elem, out),
            Instruction::table_copy(arg) => {
                put_pair(IndexPairOp::TableCopy, &arg.dst, &arg.src, out)
            }
            Instruction::table_grow(arg) => put_index(IndexOp::TableGrow, &arg.dst, out),
            Instruction::table_size(arg) => put_index(IndexOp::TableSize, &arg.dst, out),
            Instruction::table_fill(arg) => put_index(IndexOp::TableFill, &arg.dst, out),
            Instruction::struct_new_desc(_)
            | Instruction::struct_new_default_desc(_)
            | Instruction::ref_get_desc(_)
            | Instruction::cont_new(_)
            | Instruction::cont_bind(_)
            | Instruction::suspend(_)
            | Instruction::switch(_)
            | Instruction::memory_discard(_) => unreachable!(),
            // To here.
        }
    }
}
