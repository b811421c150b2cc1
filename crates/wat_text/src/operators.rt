//! Makes instructions with indices from their keywords. `tools/ops` writes this file.

ghost use Rattle.std.specs.Prelude.{◌≡◌};
ghost use Rattle.wat_syntax.specs.Operators.{index_instr, uncovered_instr, pair_instr};
ghost use Rattle.wat_syntax.specs.Bare.{bare_index};
ghost use Rattle.wat_syntax.specs.BareInstructions.{bare_instr};

use wast_base::IndexOp;
use wast_tree::{
    ArrayCopy, ArrayFill, ArrayInit, ArrayNewData, ArrayNewElem, ContBind, Index, Instruction,
    MemoryArg, MemoryCopy, MemoryInit, StructAccess, Switch, TableArg, TableCopy, TableInit,
};
use wat_tokens::{PairOp, UncoveredOp};

/// Returns the instruction with an index that a keyword is (text format: instructions).
pub(crate) fn with_index<'a>(op: IndexOp, index: Index<'a>) -> Instruction<'a>
    ensures { bare_instr result ≡ index_instr op (bare_index index.entry) }
{
    match op {
        IndexOp::Catch => Instruction::catch(index),
        IndexOp::Throw => Instruction::throw(index),
        IndexOp::Rethrow => Instruction::rethrow(index),
        IndexOp::Br => Instruction::br(index),
        IndexOp::BrIf => Instruction::br_if(index),
        IndexOp::Call => Instruction::call(index),
        IndexOp::ReturnCall => Instruction::return_call(index),
        IndexOp::CallRef => Instruction::call_ref(index),
        IndexOp::ReturnCallRef => Instruction::return_call_ref(index),
        IndexOp::Delegate => Instruction::delegate(index),
        IndexOp::LocalGet => Instruction::local_get(index),
        IndexOp::LocalSet => Instruction::local_set(index),
        IndexOp::LocalTee => Instruction::local_tee(index),
        IndexOp::GlobalGet => Instruction::global_get(index),
        IndexOp::GlobalSet => Instruction::global_set(index),
        IndexOp::TableGet => Instruction::table_get(TableArg { dst: index }),
        IndexOp::TableSet => Instruction::table_set(TableArg { dst: index }),
        IndexOp::MemorySize => Instruction::memory_size(MemoryArg { mem: index }),
        IndexOp::MemoryGrow => Instruction::memory_grow(MemoryArg { mem: index }),
        IndexOp::RefFunc => Instruction::ref_func(index),
        IndexOp::BrOnNull => Instruction::br_on_null(index),
        IndexOp::BrOnNonNull => Instruction::br_on_non_null(index),
        IndexOp::StructNew => Instruction::struct_new(index),
        IndexOp::StructNewDefault => Instruction::struct_new_default(index),
        IndexOp::ArrayNew => Instruction::array_new(index),
        IndexOp::ArrayNewDefault => Instruction::array_new_default(index),
        IndexOp::ArrayGet => Instruction::array_get(index),
        IndexOp::ArrayGetS => Instruction::array_get_s(index),
        IndexOp::ArrayGetU => Instruction::array_get_u(index),
        IndexOp::ArraySet => Instruction::array_set(index),
        IndexOp::ArrayFill => Instruction::array_fill(ArrayFill { array: index }),
        IndexOp::DataDrop => Instruction::data_drop(index),
        IndexOp::MemoryFill => Instruction::memory_fill(MemoryArg { mem: index }),
        IndexOp::ElemDrop => Instruction::elem_drop(index),
        IndexOp::TableGrow => Instruction::table_grow(TableArg { dst: index }),
        IndexOp::TableSize => Instruction::table_size(TableArg { dst: index }),
        IndexOp::TableFill => Instruction::table_fill(TableArg { dst: index }),
    }
}

/// Returns the instruction with an index that a keyword is. The encoder does not support these.
pub(crate) fn with_uncovered<'a>(op: UncoveredOp, index: Index<'a>) -> Instruction<'a>
    ensures { bare_instr result ≡ uncovered_instr op (bare_index index.entry) }
{
    match op {
        UncoveredOp::struct_new_desc => Instruction::struct_new_desc(index),
        UncoveredOp::struct_new_default_desc => Instruction::struct_new_default_desc(index),
        UncoveredOp::ref_get_desc => Instruction::ref_get_desc(index),
        UncoveredOp::cont_new => Instruction::cont_new(index),
        UncoveredOp::suspend => Instruction::suspend(index),
        UncoveredOp::memory_discard => Instruction::memory_discard(MemoryArg { mem: index }),
    }
}

/// Returns the instruction with two indices that a keyword is. The indices are in the order of the
/// text (text format: instructions).
pub(crate) fn with_pair<'a>(op: PairOp, first: Index<'a>, second: Index<'a>) -> Instruction<'a>
    ensures { bare_instr result ≡ pair_instr op (bare_index first.entry) (bare_index second.entry) }
{
    match op {
        PairOp::struct_get => Instruction::struct_get(StructAccess {
            owner: first,
            field: second,
        }),
        PairOp::struct_get_s => Instruction::struct_get_s(StructAccess {
            owner: first,
            field: second,
        }),
        PairOp::struct_get_u => Instruction::struct_get_u(StructAccess {
            owner: first,
            field: second,
        }),
        PairOp::struct_set => Instruction::struct_set(StructAccess {
            owner: first,
            field: second,
        }),
        PairOp::array_new_data => Instruction::array_new_data(ArrayNewData {
            array: first,
            data_idx: second,
        }),
        PairOp::array_new_elem => Instruction::array_new_elem(ArrayNewElem {
            array: first,
            elem_idx: second,
        }),
        PairOp::array_copy => Instruction::array_copy(ArrayCopy {
            dest_array: first,
            src_array: second,
        }),
        PairOp::array_init_data => Instruction::array_init_data(ArrayInit {
            array: first,
            segment: second,
        }),
        PairOp::array_init_elem => Instruction::array_init_elem(ArrayInit {
            array: first,
            segment: second,
        }),
        PairOp::memory_init => Instruction::memory_init(MemoryInit {
            segment: second,
            mem: first,
        }),
        PairOp::memory_copy => Instruction::memory_copy(MemoryCopy {
            src: second,
            dst: first,
        }),
        PairOp::table_init => Instruction::table_init(TableInit {
            elem: second,
            table: first,
        }),
        PairOp::table_copy => Instruction::table_copy(TableCopy {
            dst: first,
            src: second,
        }),
        PairOp::cont_bind => Instruction::cont_bind(ContBind {
            argument_index: first,
            result_index: second,
        }),
        PairOp::switch => Instruction::switch(Switch {
            type_index: first,
            tag_index: second,
        }),
    }
}
