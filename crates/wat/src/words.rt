//! The words of instructions in the text format.

use std::alloc::{AllocError, Global};
use wast_tree::Instruction;

/// Returns the word of an instruction on references, structs or arrays. It is empty for each other one.
fn reference_word(instruction: &Instruction<'_>) -> &'static str {
    match instruction {
        Instruction::ref_func(_) => "ref.func",
        Instruction::br_on_null(_) => "br_on_null",
        Instruction::br_on_non_null(_) => "br_on_non_null",
        Instruction::struct_new(_) => "struct.new",
        Instruction::struct_new_default(_) => "struct.new_default",
        Instruction::struct_get(_) => "struct.get",
        Instruction::struct_get_s(_) => "struct.get_s",
        Instruction::struct_get_u(_) => "struct.get_u",
        Instruction::struct_set(_) => "struct.set",
        Instruction::array_new(_) => "array.new",
        Instruction::array_new_default(_) => "array.new_default",
        Instruction::array_new_data(_) => "array.new_data",
        Instruction::array_new_elem(_) => "array.new_elem",
        Instruction::array_get(_) => "array.get",
        Instruction::array_get_s(_) => "array.get_s",
        Instruction::array_get_u(_) => "array.get_u",
        Instruction::array_set(_) => "array.set",
        Instruction::array_fill(_) => "array.fill",
        Instruction::array_copy(_) => "array.copy",
        Instruction::array_init_data(_) => "array.init_data",
        Instruction::array_init_elem(_) => "array.init_elem",
        Instruction::ref_null(_) => "ref.null",
        Instruction::array_new_fixed(_) => "array.new_fixed",
        Instruction::ref_test(_) => "ref.test",
        Instruction::ref_cast(_) => "ref.cast",
        Instruction::br_on_cast(_) => "br_on_cast",
        Instruction::br_on_cast_fail(_) => "br_on_cast_fail",
        _ => "",
    }
}

/// Returns the word of an instruction that is no class of several. It is empty for each other one.
fn own_word(instruction: &Instruction<'_>) -> &'static str {
    match instruction {
        Instruction::catch(_) => "catch",
        Instruction::throw(_) => "throw",
        Instruction::rethrow(_) => "rethrow",
        Instruction::br(_) => "br",
        Instruction::br_if(_) => "br_if",
        Instruction::call(_) => "call",
        Instruction::return_call(_) => "return_call",
        Instruction::call_ref(_) => "call_ref",
        Instruction::return_call_ref(_) => "return_call_ref",
        Instruction::delegate(_) => "delegate",
        Instruction::local_get(_) => "local.get",
        Instruction::local_set(_) => "local.set",
        Instruction::local_tee(_) => "local.tee",
        Instruction::global_get(_) => "global.get",
        Instruction::global_set(_) => "global.set",
        Instruction::table_get(_) => "table.get",
        Instruction::table_set(_) => "table.set",
        Instruction::memory_size(_) => "memory.size",
        Instruction::memory_grow(_) => "memory.grow",
        Instruction::memory_init(_) => "memory.init",
        Instruction::data_drop(_) => "data.drop",
        Instruction::memory_copy(_) => "memory.copy",
        Instruction::memory_fill(_) => "memory.fill",
        Instruction::table_init(_) => "table.init",
        Instruction::elem_drop(_) => "elem.drop",
        Instruction::table_copy(_) => "table.copy",
        Instruction::table_grow(_) => "table.grow",
        Instruction::table_size(_) => "table.size",
        Instruction::table_fill(_) => "table.fill",
        Instruction::block(_) => "block",
        Instruction::loop_(_) => "loop",
        Instruction::if_(_) => "if",
        Instruction::else_(_) => "else",
        Instruction::try_(_) => "try",
        Instruction::try_table(_) => "try_table",
        Instruction::end_(_) => "end",
        Instruction::br_table(_) => "br_table",
        Instruction::call_indirect(_) => "call_indirect",
        Instruction::return_call_indirect(_) => "return_call_indirect",
        Instruction::select(_) => "select",
        Instruction::i32_const(_) => "i32.const",
        Instruction::i64_const(_) => "i64.const",
        Instruction::f32_const(_) => "f32.const",
        Instruction::f64_const(_) => "f64.const",
        Instruction::v128_const(_) => "v128.const",
        Instruction::i8x16_shuffle(_) => "i8x16.shuffle",
        Instruction::atomic_fence(_) => "atomic.fence",
        _ => reference_word(instruction),
    }
}

/// Returns the name of a variant without that of its class: `i32_add` for `I32(i32_add)`.
fn variant_in(shown: &str) -> &str {
    let variant = match shown.rsplit_once('(') {
        Some((_, inner)) => inner.strip_suffix(')').unwrap_or(inner),
        None => shown,
    };
    variant.strip_suffix('_').unwrap_or(variant)
}

/// Returns the word for the name of a variant that begins with a type. For example, `i32.add` for
/// `i32_add`, and `i32.atomic.rmw8.add_u` for `i32_atomic_rmw8_add_u`.
fn dotted(alloc: Global, variant: &str) -> Result<String, AllocError> {
    let mut word = String::new(alloc);
    let mut rest = variant;
    let mut is_first = true;
    for _ in 0..variant.len() {
        let Some((part, after)) = rest.split_once('_') else {
            break;
        };
        let has_dot = is_first || part == "atomic" || part.starts_with("rmw");
        word.push_str(part)?;
        word.push(if has_dot { '.' } else { '_' })?;
        is_first = false;
        rest = after;
    }
    word.push_str(rest)?;
    Ok(word)
}

/// Returns the word of an instruction, such as `i32.add` (text format: instructions).
///
/// `Debug` of the AST shows the operator of a class: `I32(i32_add)`, `Bare(drop)` or `i32_load`.
pub(crate) fn word_of(alloc: Global, instruction: &Instruction<'_>) -> Result<String, AllocError> {
    let own = own_word(instruction);
    if !own.is_empty() {
        return String::from_str(alloc, own);
    }
    let shown = format!(in alloc; "{instruction:?}")?;
    let variant = variant_in(shown.as_str());
    if shown.as_str().starts_with("Bare(") {
        return String::from_str(alloc, variant);
    }
    dotted(alloc, variant)
}
