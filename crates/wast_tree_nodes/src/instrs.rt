//! Instructions and expressions.

ghost use Rattle.std.specs.Prelude.{◌≡◌, [], ◌∷◌, option_map, IfOk, IfErr};
ghost use Rattle.wast_base.specs.Faults.{out_of_memory};
ghost use Rattle.wast_tree_nodes.specs.Instrs.{mem_arg_of, needs_data_count, block_of, is_closer};

use crate::continuations::{ContBind, Resume, ResumeThrow, ResumeThrowRef, Switch};
use crate::immediates::{
    BlockType, BrTableIndices, CallIndirect, F32, F64, MemArg, MemoryArg, MemoryCopy, MemoryInit,
    Ordered, Ordering, SelectTypes, TableArg, TableCopy, TableInit, TryTable,
};
use crate::references::{
    ArrayCopy, ArrayFill, ArrayInit, ArrayNewData, ArrayNewElem, ArrayNewFixed, BrOnCast,
    BrOnCastDescEq, BrOnCastDescEqFail, BrOnCastFail, RefCast, RefCastDescEq, RefTest,
    StructAccess,
};
use crate::types::HeapType;
use crate::vectors::{I8x16Shuffle, LaneArg, LoadOrStoreLane, V128Const};
use std::alloc::Global;
use std::fmt;
use std::fmt::Debug;
use wast_base::{Boxed, Error, Id, Index, LaneOp, MemLaneOp, MemOp, Plain, Seq};

/// An instruction (text format: instructions).
///
/// A variant has the name of the instruction, with `_` for `.`. `Plain`, `Mem`, `Lane` and
/// `MemLane` are classes of many instructions with the same immediates.
///
/// An instruction has 96 bytes. Larger immediates, such as those of `call_indirect`, are boxed
/// ([`Boxed`]), because each pass over a list reads all its bytes.
///
///     maker.push_instruction(&mut instrs, Instruction::Mem(MemOp::i32_load, arg));
///     maker.push_instruction(&mut instrs, Instruction::Plain(Plain::Bare(BareOp::drop)));
#[allow(non_camel_case_types)]
#[derive(Drop)]
pub enum Instruction<'a> {
    /// An instruction without immediates.
    Plain(Plain),
    /// An instruction with a memory argument: `i32.load $m`
    Mem(MemOp, MemArg<'a>),
    /// An instruction on a lane of a vector: `i8x16.extract_lane_s 3`
    Lane(LaneOp, LaneArg),
    /// A load or a store of a lane of a vector: `v128.load8_lane $m 3`
    MemLane(MemLaneOp, LoadOrStoreLane<'a>),
    // Written by tools/ops from here.
    /// `catch $e` (legacy exceptions)
    catch(Index<'a>),
    /// `throw $e`
    throw(Index<'a>),
    /// `rethrow $l` (legacy exceptions)
    rethrow(Index<'a>),
    /// `br $l`
    br(Index<'a>),
    /// `br_if $l`
    br_if(Index<'a>),
    /// `call $f`
    call(Index<'a>),
    /// `return_call $f`
    return_call(Index<'a>),
    /// `call_ref $t`
    call_ref(Index<'a>),
    /// `return_call_ref $t`
    return_call_ref(Index<'a>),
    /// `delegate $l` (legacy exceptions)
    delegate(Index<'a>),
    /// `local.get $x`
    local_get(Index<'a>),
    /// `local.set $x`
    local_set(Index<'a>),
    /// `local.tee $x`
    local_tee(Index<'a>),
    /// `global.get $g`
    global_get(Index<'a>),
    /// `global.set $g`
    global_set(Index<'a>),
    /// `table.get $t`
    table_get(TableArg<'a>),
    /// `table.set $t`
    table_set(TableArg<'a>),
    /// `memory.size $m`
    memory_size(MemoryArg<'a>),
    /// `memory.grow $m`
    memory_grow(MemoryArg<'a>),
    /// `ref.func $f`
    ref_func(Index<'a>),
    /// `br_on_null $l`
    br_on_null(Index<'a>),
    /// `br_on_non_null $l`
    br_on_non_null(Index<'a>),
    /// `struct.new $t`
    struct_new(Index<'a>),
    /// `struct.new_default $t`
    struct_new_default(Index<'a>),
    /// `struct.get $t $x`
    struct_get(StructAccess<'a>),
    /// `struct.get_s $t $x`
    struct_get_s(StructAccess<'a>),
    /// `struct.get_u $t $x`
    struct_get_u(StructAccess<'a>),
    /// `struct.set $t $x`
    struct_set(StructAccess<'a>),
    /// `array.new $t`
    array_new(Index<'a>),
    /// `array.new_default $t`
    array_new_default(Index<'a>),
    /// `array.new_data $t $d`
    array_new_data(ArrayNewData<'a>),
    /// `array.new_elem $t $e`
    array_new_elem(ArrayNewElem<'a>),
    /// `array.get $t`
    array_get(Index<'a>),
    /// `array.get_s $t`
    array_get_s(Index<'a>),
    /// `array.get_u $t`
    array_get_u(Index<'a>),
    /// `array.set $t`
    array_set(Index<'a>),
    /// `array.fill $t`
    array_fill(ArrayFill<'a>),
    /// `array.copy $to $from`
    array_copy(ArrayCopy<'a>),
    /// `array.init_data $t $d`
    array_init_data(ArrayInit<'a>),
    /// `array.init_elem $t $e`
    array_init_elem(ArrayInit<'a>),
    /// `memory.init $m $d`
    memory_init(MemoryInit<'a>),
    /// `data.drop $d`
    data_drop(Index<'a>),
    /// `memory.copy $to $from`
    memory_copy(MemoryCopy<'a>),
    /// `memory.fill $m`
    memory_fill(MemoryArg<'a>),
    /// `table.init $t $e`
    table_init(TableInit<'a>),
    /// `elem.drop $e`
    elem_drop(Index<'a>),
    /// `table.copy $to $from`
    table_copy(TableCopy<'a>),
    /// `table.grow $t`
    table_grow(TableArg<'a>),
    /// `table.size $t`
    table_size(TableArg<'a>),
    /// `table.fill $t`
    table_fill(TableArg<'a>),
    /// `struct.new_desc $t` (custom descriptors)
    struct_new_desc(Index<'a>),
    /// `struct.new_default_desc $t` (custom descriptors)
    struct_new_default_desc(Index<'a>),
    /// `ref.get_desc $t` (custom descriptors)
    ref_get_desc(Index<'a>),
    /// `cont.new $t` (stack switching)
    cont_new(Index<'a>),
    /// `cont.bind $a $r` (stack switching)
    cont_bind(ContBind<'a>),
    /// `suspend $e` (stack switching)
    suspend(Index<'a>),
    /// `switch $t $e` (stack switching)
    switch(Switch<'a>),
    /// `memory.discard $m` (memory control)
    memory_discard(MemoryArg<'a>),
    // To here.
    /// `block $l (result i32)`
    block(Boxed<BlockType<'a>>),
    /// `loop $l`
    loop_(Boxed<BlockType<'a>>),
    /// `if $l`
    if_(Boxed<BlockType<'a>>),
    /// `else $l`
    else_(Option<Id<'a>>),
    /// `try $l` (legacy exceptions)
    try_(Boxed<BlockType<'a>>),
    /// `try_table $l (catch $e $h)`
    try_table(TryTable<'a>),
    /// `end $l`
    end_(Option<Id<'a>>),
    /// `br_table $a $b`
    br_table(BrTableIndices<'a>),
    /// `call_indirect $t (type $f)`
    call_indirect(Boxed<CallIndirect<'a>>),
    /// `return_call_indirect $t (type $f)`
    return_call_indirect(Boxed<CallIndirect<'a>>),
    /// `select (result i32)`
    select(SelectTypes<'a>),
    /// `i32.const 1`
    i32_const(i32),
    /// `i64.const 1`
    i64_const(i64),
    /// `f32.const 1`
    f32_const(F32),
    /// `f64.const 1`
    f64_const(F64),
    /// `ref.null func`
    ref_null(HeapType<'a>),
    /// `array.new_fixed $t 3`
    array_new_fixed(ArrayNewFixed<'a>),
    /// `ref.test (ref $t)`
    ref_test(RefTest<'a>),
    /// `ref.cast (ref $t)`
    ref_cast(RefCast<'a>),
    /// `ref.cast_desc_eq (ref $t)` (custom descriptors)
    ref_cast_desc_eq(RefCastDescEq<'a>),
    /// `br_on_cast $l anyref (ref $t)`
    br_on_cast(Boxed<BrOnCast<'a>>),
    /// `br_on_cast_fail $l anyref (ref $t)`
    br_on_cast_fail(Boxed<BrOnCastFail<'a>>),
    /// `br_on_cast_desc_eq $l anyref (ref $t)` (custom descriptors)
    br_on_cast_desc_eq(Boxed<BrOnCastDescEq<'a>>),
    /// `br_on_cast_desc_eq_fail $l anyref (ref $t)` (custom descriptors)
    br_on_cast_desc_eq_fail(Boxed<BrOnCastDescEqFail<'a>>),
    /// `v128.const i32x4 1 2 3 4`
    v128_const(V128Const),
    /// `i8x16.shuffle 0 1 2 3 4 5 6 7 8 9 10 11 12 13 14 31`
    i8x16_shuffle(I8x16Shuffle),
    /// `atomic.fence`; sequentially consistent if `None`
    atomic_fence(Option<Ordering>),
    /// An atomic access of a global (shared-everything threads).
    GlobalAtomic(Ordered<Index<'a>>),
    /// An atomic access of a table (shared-everything threads).
    TableAtomic(Ordered<TableArg<'a>>),
    /// An atomic access of a field of a struct (shared-everything threads).
    StructAtomic(Ordered<StructAccess<'a>>),
    /// An atomic access of an array, by its type (shared-everything threads).
    ArrayAtomic(Ordered<Index<'a>>),
    /// `resume $t (on $e $l)` (stack switching)
    resume(Resume<'a>),
    /// `resume_throw $t $x (on $e $l)` (stack switching)
    resume_throw(Boxed<ResumeThrow<'a>>),
    /// `resume_throw_ref $t (on $e $l)` (stack switching)
    resume_throw_ref(ResumeThrowRef<'a>),
    /// An instruction that is not in the opcode table, by its name: `i64.add128`
    Beyond(&'a str),
}

/// Prints the operator of an instruction of one of the four classes, and `Instruction` for any
/// other, because a derived impl takes a tenth of the proof of this crate.
impl Debug for Instruction<'_> {
    fn fmt<W: fmt::Write>(&self, f: &mut fmt::Formatter<W>) -> fmt::Result {
        match self {
            Instruction::Plain(op) => Debug::fmt(op, f),
            Instruction::Mem(op, _) => Debug::fmt(op, f),
            Instruction::Lane(op, _) => Debug::fmt(op, f),
            Instruction::MemLane(op, _) => Debug::fmt(op, f),
            _ => f.write_str("Instruction"),
        }
    }
}

impl<'a> Instruction<'a> {
    /// Borrows the memory argument mutably, or returns `None` if the instruction has none.
    pub fn memarg_mut(&mut self) -> Option<&mut MemArg<'a>>
        ensures value { option_map (λ m. m.now) result ≡ mem_arg_of self.old }
    {
        match self {
            Instruction::Mem(_, arg) => Some(arg),
            Instruction::MemLane(_, access) => Some(&mut access.memarg),
            _ => None,
        }
    }

    /// Returns the label and type of the block that it opens, or `None` if it opens no block.
    #[inline(always)]
    pub fn block_type(&self) -> Option<&BlockType<'a>>
        ensures { option_map (λ b. b.now) result ≡ block_of self.now }
    {
        match self {
            Instruction::block(block)
            | Instruction::loop_(block)
            | Instruction::if_(block)
            | Instruction::try_(block) => Some(block.get()),
            Instruction::try_table(table) => Some(table.block.get()),
            _ => None,
        }
    }

    /// Returns whether it closes a block: `end` and `delegate` do.
    pub fn is_closer(&self) -> bool
        ensures { result ≡ is_closer self.now }
    {
        match self {
            Instruction::end_(_) | Instruction::delegate(_) => true,
            _ => false,
        }
    }

    /// Returns whether a module with it in a function body needs a data count section.
    ///
    /// `memory.init`, `data.drop`, `array.new_data` and `array.init_data` do: they refer to a data
    /// segment, and the data section comes after the code (binary format: data count section).
    pub fn needs_data_count(&self) -> bool
        ensures { result ≡ needs_data_count self.now }
    {
        match self {
            Instruction::memory_init(_)
            | Instruction::data_drop(_)
            | Instruction::array_new_data(_)
            | Instruction::array_init_data(_) => true,
            _ => false,
        }
    }
}

/// A branch hint, such as `(@metadata.code.branch_hint "\01")` (text format: custom annotations).
///
/// In the body `i32.const 0 if end`, a hint on the `if` that the branch is not likely:
///
///     let on_if = BranchHint::new(1, 0);
#[derive(Clone, Copy, Debug, PartialEq, Eq)]
pub struct BranchHint {
    /// The number of the instruction that it is about, counted from 0.
    pub instr_index: usize,
    /// Its value: 1 if the branch is likely, and 0 if it is not.
    pub value: u32,
}

impl BranchHint {
    /// Makes a hint about the instruction of this number. `value` is 1 for likely, and 0 for not.
    pub fn new(instr_index: usize, value: u32) -> BranchHint
        ensures { result ≡ record { instr_index = instr_index; value = value } }
    {
        BranchHint { instr_index, value }
    }
}

/// A flat list of instructions, without the final `end`, and its branch hints.
///
/// It is the body of a function, or a constant expression (text format: expressions).
///
///     let value = Expression::new(alloc, instrs);
#[derive(Debug, Drop)]
pub struct Expression<'a> {
    /// The instructions, in source order.
    pub instrs: Seq<Instruction<'a>>,
    /// The branch hints, in source order.
    pub branch_hints: Seq<BranchHint>,
}

impl<'a> Expression<'a> {
    /// Makes an expression of these instructions, without branch hints.
    pub fn new(alloc: Global, instrs: Seq<Instruction<'a>>) -> Expression<'a>
        ensures { result ≡ record { instrs = instrs.entry; branch_hints = [] } }
    {
        Expression {
            instrs,
            branch_hints: Seq::new(alloc),
        }
    }

    /// Returns the expression with these branch hints. Those that it had are dropped.
    pub fn with_hints(self, hints: Seq<BranchHint>) -> Expression<'a>
        ensures { result ≡ record self.entry { branch_hints = hints } }
    {
        Expression {
            instrs: self.instrs,
            branch_hints: hints,
        }
    }

    /// Makes an expression of one instruction, without branch hints.
    ///
    ///     Expression::one(alloc, Instruction::i32_const(8))
    pub fn one<'e>(alloc: Global, instruction: Instruction<'a>) -> Result<Expression<'a>, Error<'e>>
        ensures expression { IfOk result (λ e. e ≡ record { instrs = instruction.entry ∷ []; branch_hints = [] }) }
        ensures refusal { IfErr result (λ e. e ≡ out_of_memory) }
    {
        let mut instrs = Vec::with_capacity(alloc, 1)?;
        instrs.push_reserved(instruction);
        Ok(Expression::new(alloc, Seq::from_vec(instrs)))
    }
}
