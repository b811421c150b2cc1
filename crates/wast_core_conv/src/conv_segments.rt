//! Contents of element and data segments, as the section builders take them.

ghost use Rattle.std.specs.Prelude.{◌≡◌, IfOk, IfErr, IsTrue};
ghost use Rattle.std.specs.List.{All, list_all};
ghost use Rattle.wast_tree_nodes.specs.DataBytes.{all_bytes};
ghost use Rattle.wast_base.specs.Faults.{out_of_memory};
ghost use Rattle.wasm_ops.specs.ConstExprs.{expression};
ghost use Rattle.wasm_out.specs.Built.{IsRefused};
ghost use Rattle.wasm_out.specs.ElementSegments.{element_list};
ghost use Rattle.wast_core_conv.specs.Encodable.{is_encodable_expression, is_encodable_payload};
ghost use Rattle.wast_core_conv.specs.Meaning as meaning;
ghost use Rattle.wast_core_conv.specs.Segments.{AreExpressions, ArePayload};

use crate::conv::{const_expr, converted, ref_type};
use std::alloc::Global;
use wasm_ops::ConstExpr;
use wasm_out::Elements;
use wast_base::{Error, Seq};
use wast_tree_nodes::{DataVal, ElemPayload, Expression};

/// Converts each expression of a list.
fn const_exprs<'e>(alloc: Global, expressions: &[Expression]) -> Result<Seq<ConstExpr>, Error<'e>>
    requires { IsTrue (list_all is_encodable_expression expressions.now) }
    ensures value { IfOk result (AreExpressions expressions.now) }
    ensures refusal { IfErr result (IsRefused (All (λ e. (expression (meaning.as_expression e)).in_range) expressions.now)) }
{
    let mut made = Seq::new(alloc);
    for expression in expressions {
        made.push(const_expr(alloc, expression)?)?;
    }
    Ok(made)
}

/// Converts the elements of a segment. Fails with E10 only if a number in an instruction is out of
/// range.
pub(crate) fn elements<'e>(alloc: Global, payload: &ElemPayload) -> Result<Elements, Error<'e>>
    requires { IsTrue (is_encodable_payload payload.now) }
    ensures value { IfOk result (ArePayload payload.now) }
    ensures refusal { IfErr result (IsRefused (element_list (meaning.as_element_items payload.now)).in_range) }
{
    match payload {
        ElemPayload::Indices(functions) => {
            let functions = converted(alloc, functions.as_slice())?;
            Ok(Elements::Functions(functions.into_vec()))
        }
        ElemPayload::Exprs { ty, exprs } => {
            let expressions = const_exprs(alloc, exprs.as_slice())?;
            Ok(Elements::Expressions(ref_type(ty), expressions.into_vec()))
        }
    }
}

/// Joins the pieces of a data segment.
pub(crate) fn data_bytes<'e>(alloc: Global, pieces: &[DataVal]) -> Result<Vec<u8>, Error<'e>>
    ensures value { IfOk result (λ made. made.items ≡ all_bytes pieces.now) }
    ensures refusal { IfErr result (λ e. e ≡ out_of_memory) }
{
    let mut bytes = Vec::new(alloc);
    for value in pieces {
        value.push_onto(&mut bytes)?;
    }
    Ok(bytes)
}
