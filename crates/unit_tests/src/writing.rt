//! Writes a module section by section, without a syntax tree.
//!
//! The module is `(module (func (export "sum") (param i32 i32) (result i32) ..))` with the
//! annotation `(@custom "made" "by hand")`. The contract of `written` states that its bytes are
//! read as this module.
ghost use Rattle.std.specs.Prelude.{◌≡◌, IfOk, OnOk, All};
ghost use Rattle.wasm_ops.specs.Table.{instrs, IsInstr};
ghost use Rattle.wasm_out.specs.Bodies.{SpellsBody, body_content};
ghost use Rattle.wasm_out.specs.Reads.{Reads};
ghost use Rattle.unit_tests.specs.SumModule.{sum_type, sum_instrs, sum_body, sum_module};

use std::alloc::Global;
use wasm_ops::{
    CompositeInnerType, CompositeType, ExportKind, FuncType, IndexOp, InstructionSink, SubType,
    ValType,
};
use wasm_out::{
    Build, CodeSection, CustomSection, ExportSection, Function, FunctionSection, Module,
    TypeSection,
};
use wast_base::{Error, I32Op, Plain, Seq};

/// Returns the type `(func (param i32 i32) (result i32))`.
fn function_type<'e>(alloc: Global) -> Result<SubType, Error<'e>>
    ensures { IfOk result (λ ty. ty ≡ sum_type) }
{
    let params = Seq::from_vec(Vec::from_slice(alloc, &[ValType::I32, ValType::I32])?);
    let results = Seq::from_vec(Vec::from_slice(alloc, &[ValType::I32])?);
    let composite_type = CompositeType {
        inner: CompositeInnerType::Func(FuncType { params, results }),
        shared: false,
        descriptor: None,
        describes: None,
    };
    Ok(SubType {
        composite_type,
        is_final: true,
        supertype_idxs: Seq::new(alloc),
    })
}

/// Returns the instructions `local.get 0 local.get 1 i32.add`.
fn instructions<'e>(alloc: Global) -> Result<Vec<u8>, Error<'e>>
    ensures bytes { IfOk result (λ bytes. bytes.items ≡ instrs sum_instrs) }
    ensures rows { OnOk result (All IsInstr sum_instrs) }
{
    let mut bytes = Vec::new(alloc);
    let mut sink = InstructionSink::new(&mut bytes);
    sink.index(IndexOp::LocalGet, 0)?;
    sink.index(IndexOp::LocalGet, 1)?;
    sink.plain(Plain::I32(I32Op::i32_add))?;
    Ok(bytes)
}

/// Returns a body of these instructions, without locals.
fn body<'e>(alloc: Global) -> Result<Function, Error<'e>>
    ensures bytes { IfOk result (λ body. body ≡ (body_content sum_body).bytes) }
    ensures spells { IfOk result SpellsBody }
{
    let mut body = Function::new_with_locals_types(alloc, &[])?;
    body.raw(&instructions(alloc)?)?;
    body.end()?;
    Ok(body)
}

/// Returns the bytes of the module.
pub fn written<'e>(alloc: Global) -> Result<Vec<u8>, Error<'e>>
    ensures { IfOk result (λ bytes. Reads bytes.items sum_module) }
{
    let mut types = TypeSection::new(alloc);
    types.subtype(&function_type(alloc)?)?;
    let mut functions = FunctionSection::new(alloc);
    functions.function(0)?;
    let mut exports = ExportSection::new(alloc);
    exports.export("sum", ExportKind::Func, 0)?;
    let mut code = CodeSection::new(alloc);
    code.function(&body(alloc)?)?;
    let made = CustomSection {
        name: "made",
        bytes: Vec::from_slice(alloc, b"by hand")?,
    };
    let mut module = Module::new(alloc)?;
    module.section(&types)?;
    module.section(&functions)?;
    module.section(&exports)?;
    module.section(&code)?;
    module.section(&made)?;
    let bytes = module.finish();
    Ok(bytes)
}
