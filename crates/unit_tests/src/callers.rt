//! Callers of calls that require something, which see to it before.

use std::alloc::Global;
use wasm_ops::{BlockOp, BlockType, HeapType, InstructionSink, MemArg, SubType};
use wasm_out::{BranchHint, BranchHints, TypeSection};
use wast_base::{Error, MemOp};

/// Returns a section with one hint: that the branch at this offset of a function is likely taken.
pub fn one_hint<'e>(alloc: Global, function: u32, offset: u32) -> Result<BranchHints, Error<'e>> {
    let mut section = BranchHints::new(alloc);
    let hint = BranchHint {
        branch_func_offset: offset,
        branch_hint_value: 1,
    };
    section.function_hints(function, &[hint])?;
    Ok(section)
}

/// Appends `ref.null` of a heap type, and returns whether the encoder supports that.
pub fn put_null<'e>(out: &mut Vec<u8>, heap_type: HeapType) -> Result<bool, Error<'e>> {
    if !heap_type.is_covered() {
        return Ok(false);
    }
    InstructionSink::new(out).ref_null(heap_type)?;
    Ok(true)
}

/// Appends `i32.load`, and returns whether the encoder supports its memory argument.
pub fn put_load<'e>(out: &mut Vec<u8>, memarg: MemArg) -> Result<bool, Error<'e>> {
    if !memarg.is_aligned() || !memarg.is_covered() {
        return Ok(false);
    }
    InstructionSink::new(out).mem(MemOp::i32_load, memarg)?;
    Ok(true)
}

/// Appends the start of a block, and returns whether the encoder supports its type.
pub fn put_block<'e>(out: &mut Vec<u8>, ty: BlockType) -> Result<bool, Error<'e>> {
    if !ty.is_covered() {
        return Ok(false);
    }
    InstructionSink::new(out).block(BlockOp::Block, ty)?;
    Ok(true)
}

/// Adds a type to a type section, and returns whether the encoder supports it.
pub fn put_type<'e>(section: &mut TypeSection, ty: &SubType) -> Result<bool, Error<'e>> {
    if !ty.is_covered() {
        return Ok(false);
    }
    section.subtype(ty)?;
    Ok(true)
}
