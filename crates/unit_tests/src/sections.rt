//! Sections of a module with a constant expression. `tests/library_tests` has one of each kind.

ghost use Rattle.std.specs.Prelude.{◌≡◌, IfOk, OnOk};
ghost use Rattle.wasm_ops.specs.ConstantInstrs.{i32_const_instr};
ghost use Rattle.wasm_ops.specs.Table.{IsInstr, instr};

use std::alloc::Global;
use wasm_ops::{ConstExpr, ExportKind, GlobalType, InstructionSink, ValType};
use wasm_out::{Build, ExportSection, GlobalSection, Module, StartSection};
use wast_base::Error;

/// Returns an `i32.const`.
fn i32_const<'e>(alloc: Global, value: i32) -> Result<Vec<u8>, Error<'e>>
    ensures bytes { IfOk result (λ v. v.items ≡ (instr (i32_const_instr value)).bytes) }
    ensures in_range { OnOk result (IsInstr (i32_const_instr value)) }
{
    let mut bytes = Vec::new(alloc);
    InstructionSink::new(&mut bytes).i32_const(value)?;
    Ok(bytes)
}

/// Returns the expression of an `i32.const`.
pub fn number<'e>(alloc: Global, value: i32) -> Result<ConstExpr, Error<'e>> {
    let bytes = i32_const(alloc, value)?;
    Ok(ConstExpr::raw(bytes))
}

/// Adds a mutable global with the value -1, an export `a` of function 0, and a start section with
/// it.
pub fn add_global_export_and_start<'e>(alloc: Global, whole: &mut Module) -> Result<(), Error<'e>> {
    let mut globals = GlobalSection::new(alloc);
    let ty = GlobalType {
        val_type: ValType::I32,
        mutable: true,
        shared: false,
    };
    let init = number(alloc, -1)?;
    globals.global(&ty, &init)?;
    whole.section(&globals)?;
    let mut exports = ExportSection::new(alloc);
    exports.export("a", ExportKind::Func, 0)?;
    whole.section(&exports)?;
    whole.section(&StartSection { function_index: 0 })?;
    Ok(())
}
