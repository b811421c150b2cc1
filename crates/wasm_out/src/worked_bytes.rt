//! Examples with their bytes, which the definitions compute. They have no code to call.

ghost use Rattle.wasm_out.specs.WorkedBytes.{RunsOfLocals, Spelled, ItemsSpelled, SegmentsSpelled, ProducersSpelled, HintsSpelled, IsNoModule};
ghost use Rattle.wasm_out.specs.WorkedInstrs.{InstrsSpelled, BodySpelled, ExpressionSpelled, AreNoExpressions};

/// The locals `i32 i32 i64` are two runs of equal types.
pub(crate) fn runs_of_locals()
    ensures { RunsOfLocals }
{}

/// A type, a function that calls itself, its export and their names have the bytes of the example.
pub(crate) fn worked_module()
    ensures { Spelled }
{}

/// An import, two tables, a memory, a tag and a global have the bytes of the example.
pub(crate) fn worked_items()
    ensures { ItemsSpelled }
{}

/// Element and data segments have the bytes of each of their forms.
pub(crate) fn worked_segments()
    ensures { SegmentsSpelled }
{}

/// A field of producers has the bytes of the example.
pub(crate) fn worked_producers()
    ensures { ProducersSpelled }
{}

/// The hints of two functions have the bytes of the example.
pub(crate) fn worked_hints()
    ensures { HintsSpelled }
{}

/// Instructions with each kind of immediates have the bytes of the example.
pub(crate) fn worked_instrs()
    ensures { InstrsSpelled }
{}

/// A body with a block inside a block has the bytes of the example.
pub(crate) fn nested_body()
    ensures { BodySpelled }
{}

/// A constant expression may contain an empty block, whose `end` does not end the expression.
pub(crate) fn worked_expression()
    ensures { ExpressionSpelled }
{}

/// A constant expression has no unclosed block, and no `end` without a block.
pub(crate) fn no_expressions()
    ensures { AreNoExpressions }
{}

/// A memory whose minimum is 2^64, in ten bytes, is not read as a module.
pub(crate) fn too_wide_a_number()
    ensures { IsNoModule }
{}
