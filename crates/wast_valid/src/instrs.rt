//! Instructions with numbers for names, as the validator sees them.

use wast_base::{LaneOp, MemLaneOp, MemOp, Plain, Seq};
use wast_valid_machine::{Heap, RefTy, Sig, Ty};

/// A memory argument, such as `$m offset=4 align=2` (validation: memory instructions).
#[derive(Clone, Copy)]
pub struct MemUse {
    /// The memory.
    pub memory: u32,
    /// The alignment, in bytes.
    pub align: u64,
    /// The offset, in bytes.
    pub offset: u64,
}

/// An instruction. Type indices are canonical.
///
/// It has no lifetime and no position, so that proofs about instructions see small values only.
#[allow(non_camel_case_types)]
#[derive(Drop)]
pub enum Instr {
    /// An instruction that the validator does not cover.
    Unsupported,
    /// An instruction without immediates.
    Plain(Plain),
    /// A load or a store.
    Mem(MemOp, MemUse),
    /// A load or a store of a lane.
    MemLane(MemLaneOp, MemUse, u8),
    /// An instruction on a lane.
    Lane(LaneOp, u8),
    /// A constant of this type, such as `i32.const 1`
    Const(Ty),
    /// `i8x16.shuffle`, with the first lane that is not below 32
    i8x16_shuffle(Option<u8>),
    /// `select` without types
    select,
    /// `select (result i32)`
    select_typed(Ty),
    /// `select` with a number of types other than one
    select_many(usize),
    /// `block (result i32)`
    block(Sig),
    /// `loop`
    loop_(Sig),
    /// `if`
    if_(Sig),
    /// `else`
    else_,
    /// `end`
    end_,
    /// `br 0`
    br(u32),
    /// `br_if 0`
    br_if(u32),
    /// `br_table 0 1`, with the default label last
    br_table(Seq<u32>, u32),
    /// `br_on_null 0`
    br_on_null(u32),
    /// `br_on_non_null 0`
    br_on_non_null(u32),
    /// `call 0`
    call(u32),
    /// `call_ref 0`
    call_ref(u32),
    /// `call_indirect 0 (type 1)`: the type and the table
    call_indirect(u32, u32),
    /// `return_call 0`
    return_call(u32),
    /// `return_call_ref 0`
    return_call_ref(u32),
    /// `return_call_indirect 0 (type 1)`: the type and the table
    return_call_indirect(u32, u32),
    /// `local.get 0`
    local_get(u32),
    /// `local.set 0`
    local_set(u32),
    /// `local.tee 0`
    local_tee(u32),
    /// `global.get 0`
    global_get(u32),
    /// `global.set 0`
    global_set(u32),
    /// `table.get 0`
    table_get(u32),
    /// `table.set 0`
    table_set(u32),
    /// `table.size 0`
    table_size(u32),
    /// `table.grow 0`
    table_grow(u32),
    /// `table.fill 0`
    table_fill(u32),
    /// `table.copy 0 1`: the table that is written, and the one that is read
    table_copy(u32, u32),
    /// `table.init 0 1`: the table and the element segment
    table_init(u32, u32),
    /// `elem.drop 0`
    elem_drop(u32),
    /// `memory.size 0`
    memory_size(u32),
    /// `memory.grow 0`
    memory_grow(u32),
    /// `memory.fill 0`
    memory_fill(u32),
    /// `memory.copy 0 1`: the memory that is written, and the one that is read
    memory_copy(u32, u32),
    /// `memory.init 0 1`: the memory and the data segment
    memory_init(u32, u32),
    /// `data.drop 0`
    data_drop(u32),
    /// `ref.null func`
    ref_null(Heap),
    /// `ref.func 0`
    ref_func(u32),
    /// `ref.test (ref 0)`
    ref_test(RefTy),
    /// `ref.cast (ref 0)`
    ref_cast(RefTy),
    /// `struct.new 0`
    struct_new(u32),
    /// `struct.get 0 1`: the type and the field
    struct_get(u32, u32),
}
