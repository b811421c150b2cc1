//! Writes values and results of a script as JSON.

ghost use Rattle.std.specs.Prelude.{◌≡◌, ◌++◌, false, None, Some, codes, OnOk, option_copied, if◌then◌else◌};
ghost use Rattle.std.specs.List.{join_by};
ghost use Rattle.wast_script.specs.Scripts.{part};
ghost use Rattle.wast_script_json.specs.Json.{written, string, key};
ghost use Rattle.wast_script_json.specs.Values.{reference_type, heap_type, lane_type, number_text, opened, typed, valued, lane_list, vector_text, by_id, by_number, target_text, null_text, host_text, value_text, is_joined_after, comma, left_after, is_last, ending, values_from, list_text, is_either_of, one_either, results_text};

use crate::json::Json;
use std::alloc::AllocError;
use wast_script::{Number, Part, Script, Shape, Value};
use wast_tree::{AbstractHeapType, HeapType, Index};

/// The type that references of an abstract heap type have.
fn abstract_name(ty: AbstractHeapType) -> &'static str
    ensures { result.now ≡ reference_type ty }
{
    match ty {
        AbstractHeapType::Func => "funcref",
        AbstractHeapType::Extern => "externref",
        AbstractHeapType::Exn => "exnref",
        AbstractHeapType::NoExn => "nullexnref",
        AbstractHeapType::Any => "anyref",
        AbstractHeapType::Eq => "eqref",
        AbstractHeapType::Struct => "structref",
        AbstractHeapType::Array => "arrayref",
        AbstractHeapType::NoFunc => "nullfuncref",
        AbstractHeapType::NoExtern => "nullexternref",
        AbstractHeapType::None => "nullref",
        AbstractHeapType::I31 => "i31ref",
        AbstractHeapType::Cont => "contref",
        AbstractHeapType::NoCont => "nullcontref",
    }
}

/// The type that references of a heap type have. One that the module defines is `ref`.
fn reference_name(heap: HeapType<'_>) -> &'static str
    ensures { result.now ≡ heap_type heap.entry }
{
    match heap {
        HeapType::Abstract { ty, .. } => abstract_name(ty),
        HeapType::Concrete(_) | HeapType::Exact(_) => "ref",
    }
}

/// The type of the lanes of a shape.
fn lane_type(shape: Shape) -> &'static str
    ensures { result.now ≡ lane_type shape }
{
    match shape {
        Shape::I8x16 => "i8",
        Shape::I16x8 => "i16",
        Shape::I32x4 => "i32",
        Shape::I64x2 => "i64",
        Shape::F32x4 => "f32",
        Shape::F64x2 => "f64",
    }
}

/// Appends a number as a string.
fn write_number(json: &mut Json, number: Number) -> Result<(), AllocError>
    ensures { OnOk result (written json.new ≡ written json.old ++ number_text number) }
{
    match number {
        Number::Bits(bits) => json.digits(bits),
        Number::Canonical => json.string("nan:canonical"),
        Number::Arithmetic => json.string("nan:arithmetic"),
    }
}

/// Appends the beginning of an object: its type.
#[tactic(auto, unfolding(crate::specs::Values::opened))]
fn begin(json: &mut Json, ty: &str) -> Result<(), AllocError>
    ensures { OnOk result (written json.new ≡ written json.old ++ opened ty.now) }
{
    json.raw("{\"type\": ")?;
    json.string(ty)
}

/// Appends the type of a value, and the key of its contents.
fn begin_value(json: &mut Json, ty: &str) -> Result<(), AllocError>
    ensures { OnOk result (written json.new ≡ written json.old ++ (opened ty.now ++ key (codes "value"))) }
{
    begin(json, ty)?;
    json.key("value")
}

/// Appends a value that is a number.
#[tactic(auto, unfolding(crate::specs::Values::valued))]
fn write_numeric(json: &mut Json, ty: &str, number: Number) -> Result<(), AllocError>
    ensures { OnOk result (written json.new ≡ written json.old ++ valued ty.now (number_text number)) }
{
    begin_value(json, ty)?;
    write_number(json, number)?;
    json.raw("}")
}

/// Appends a value that is one word.
#[tactic(auto, unfolding(crate::specs::Values::valued))]
fn write_word(json: &mut Json, ty: &str, word: &str) -> Result<(), AllocError>
    ensures { OnOk result (written json.new ≡ written json.old ++ valued ty.now (string word.now)) }
{
    begin_value(json, ty)?;
    json.string(word)?;
    json.raw("}")
}

/// Appends a value of which the type alone is known.
#[tactic(auto, unfolding(crate::specs::Values::typed))]
fn write_type(json: &mut Json, ty: &str) -> Result<(), AllocError>
    ensures { OnOk result (written json.new ≡ written json.old ++ typed ty.now) }
{
    begin(json, ty)?;
    json.raw("}")
}

/// Appends a comma before an element that has one.
fn write_comma(json: &mut Json, is_joined: bool) -> Result<(), AllocError>
    ensures { OnOk result (written json.new ≡ written json.old ++ comma is_joined) }
{
    match is_joined {
        true => json.raw(", "),
        false => Ok(()),
    }
}

/// Appends lanes, one after another.
fn write_lanes(json: &mut Json, lanes: &[Number]) -> Result<(), AllocError>
    ensures { OnOk result (written json.new ≡ written json.old ++ join_by number_text (codes ", ") lanes.now) }
{
    let mut is_joined = false;
    for lane in lanes {
        write_comma(json, is_joined)?;
        write_number(json, *lane)?;
        is_joined = true;
    }
    Ok(())
}

/// Appends a list of lanes, and the end of their vector.
fn write_lane_list(json: &mut Json, lanes: &[Number]) -> Result<(), AllocError>
    ensures { OnOk result (written json.new ≡ written json.old ++ lane_list lanes.now) }
{
    json.raw("[")?;
    write_lanes(json, lanes)?;
    json.raw("]}")
}

/// Appends a vector.
#[tactic(auto, unfolding(crate::specs::Values::vector_text))]
fn write_vector(json: &mut Json, shape: Shape, lanes: &[Number]) -> Result<(), AllocError>
    ensures { OnOk result (written json.new ≡ written json.old ++ vector_text shape lanes.now) }
{
    begin(json, "v128")?;
    json.member("lane_type", lane_type(shape))?;
    json.key("value")?;
    write_lane_list(json, lanes)
}

/// Appends what a reference to the function of an id refers to: `{"id": "$f"}`.
fn write_id(json: &mut Json, name: &str) -> Result<(), AllocError>
    ensures { OnOk result (written json.new ≡ written json.old ++ by_id name.now) }
{
    json.raw("{\"id\": ")?;
    json.id(name)?;
    json.raw("}")
}

/// Appends what a reference to the function of a number refers to: `{"index": 5}`.
fn write_index(json: &mut Json, number: u32) -> Result<(), AllocError>
    ensures { OnOk result (written json.new ≡ written json.old ++ by_number number) }
{
    json.raw("{\"index\": ")?;
    json.number(number as u64)?;
    json.raw("}")
}

/// Appends what a reference to a function refers to. Any is `"0"`, as `wast2json` writes it; one of an index is an object.
fn write_target(json: &mut Json, index: Option<Index<'_>>) -> Result<(), AllocError>
    ensures { OnOk result (written json.new ≡ written json.old ++ target_text index.entry) }
{
    match index {
        Some(Index::Id(id)) => write_id(json, id.name()),
        Some(Index::Num(number, _)) => write_index(json, number),
        None => json.string("0"),
    }
}

/// Appends a reference to a function.
#[tactic(auto, unfolding(crate::specs::Values::valued))]
fn write_function(json: &mut Json, index: Option<Index<'_>>) -> Result<(), AllocError>
    ensures { OnOk result (written json.new ≡ written json.old ++ valued (codes "funcref") (target_text index.entry)) }
{
    begin_value(json, "funcref")?;
    write_target(json, index)?;
    json.raw("}")
}

/// Appends a null reference.
fn write_null(json: &mut Json, heap: Option<HeapType<'_>>) -> Result<(), AllocError>
    ensures { OnOk result (written json.new ≡ written json.old ++ null_text heap.entry) }
{
    match heap {
        Some(heap) => write_word(json, reference_name(heap), "null"),
        None => write_type(json, "refnull"),
    }
}

/// Appends a reference of the host, or any of its type.
fn write_host(json: &mut Json, ty: &str, number: Option<u32>) -> Result<(), AllocError>
    ensures { OnOk result (written json.new ≡ written json.old ++ host_text ty.now number) }
{
    match number {
        Some(number) => write_numeric(json, ty, Number::Bits(number as u64)),
        None => write_type(json, ty),
    }
}

/// Appends a value. For `either` it is the beginning, up to the first alternative.
fn write_value(json: &mut Json, script: &Script<'_>, value: Value<'_>) -> Result<(), AllocError>
    ensures { OnOk result (written json.new ≡ written json.old ++ value_text script.now.lanes.items value.entry) }
{
    match value {
        Value::I32(number) => {
            write_numeric(json, "i32", Number::Bits(number.cast_unsigned() as u64))
        }
        Value::I64(number) => write_numeric(json, "i64", Number::Bits(number.cast_unsigned())),
        Value::F32(number) => write_numeric(json, "f32", number),
        Value::F64(number) => write_numeric(json, "f64", number),
        Value::V128(shape, lanes) => write_vector(json, shape, script.lanes_in(lanes)),
        Value::RefNull(heap) => write_null(json, heap),
        Value::RefExtern(number) => write_host(json, "externref", number),
        Value::RefHost(number) => write_host(json, "anyref", Some(number)),
        Value::RefFunc(index) => write_function(json, index),
        Value::Ref(heap) => write_type(json, reference_name(heap)),
        Value::Either(_) => json.raw("{\"type\": \"either\", \"values\": ["),
    }
}

/// How many alternatives are left after a value, of so many before it.
fn alternatives_after(value: Value<'_>, left: usize) -> usize
    ensures { result ≡ left_after value.entry left }
{
    match value {
        Value::Either(count) => count,
        _ => left.saturating_sub(1),
    }
}

/// Returns whether a comma is before the value after this one.
fn is_joined_after(value: Value<'_>) -> bool
    ensures { result ≡ is_joined_after value.entry }
{
    match value {
        Value::Either(_) => false,
        _ => true,
    }
}

/// Returns whether a value is the last alternative of an `either`, by how many are left before and after it.
fn is_last(left: usize, after: usize) -> bool
    ensures { result ≡ is_last left after }
{
    left > 0 && after == 0
}

/// Appends the end of an `either` after its last alternative, by how many are left before and after a value.
fn write_ending(json: &mut Json, left: usize, after: usize) -> Result<(), AllocError>
    ensures { OnOk result (written json.new ≡ written json.old ++ ending left after) }
{
    match is_last(left, after) {
        true => json.raw("]}"),
        false => Ok(()),
    }
}

/// Appends values. An `either` among them is an object that has its alternatives.
fn write_values(
    json: &mut Json,
    script: &Script<'_>,
    values: &[Value<'_>],
) -> Result<(), AllocError>
    ensures { OnOk result (written json.new ≡ written json.old ++ values_from script.now.lanes.items false 0 values.now) }
{
    let mut is_joined = false;
    let mut left = 0;
    for value in values {
        write_comma(json, is_joined)?;
        write_value(json, script, *value)?;
        let after = alternatives_after(*value, left);
        write_ending(json, left, after)?;
        is_joined = is_joined_after(*value);
        left = after;
    }
    Ok(())
}

/// Appends a list of values.
#[tactic(auto, unfolding(crate::specs::Values::list_text))]
fn write_list(json: &mut Json, script: &Script<'_>, values: &[Value<'_>]) -> Result<(), AllocError>
    ensures { OnOk result (written json.new ≡ written json.old ++ list_text script.now.lanes.items values.now) }
{
    json.raw("[")?;
    write_values(json, script, values)?;
    json.raw("]")
}

/// Appends the arguments of an action.
pub(crate) fn write_arguments(
    json: &mut Json,
    script: &Script<'_>,
    arguments: Part,
) -> Result<(), AllocError>
    ensures { OnOk result (written json.new ≡ written json.old ++ list_text script.now.lanes.items (part arguments script.now.values.items)) }
{
    write_list(json, script, script.values_in(arguments))
}

/// Returns whether a value is an `either` of so many alternatives.
fn is_either_of(count: usize, value: Value<'_>) -> bool
    ensures { result ≡ is_either_of count value.entry }
{
    match value {
        Value::Either(alternatives) => alternatives == count,
        _ => false,
    }
}

/// Returns values, if they are wanted.
fn values_if<'v, 'a>(is_wanted: bool, values: &'v [Value<'a>]) -> Option<&'v [Value<'a>]>
    ensures { option_copied result ≡ (if is_wanted then Some values.now else None) }
{
    match is_wanted {
        true => Some(values),
        false => None,
    }
}

/// Returns the alternatives, if the results are one `either`.
fn alternatives<'v, 'a>(values: &'v [Value<'a>]) -> Option<&'v [Value<'a>]>
    ensures { option_copied result ≡ one_either values.now }
{
    match values.split_first() {
        Some((first, rest)) => values_if(is_either_of(rest.len(), *first), rest),
        None => None,
    }
}

/// Appends alternatives under their key.
fn write_either(
    json: &mut Json,
    script: &Script<'_>,
    alternatives: &[Value<'_>],
) -> Result<(), AllocError>
    ensures { OnOk result (written json.new ≡ written json.old ++ (key (codes "either") ++ list_text script.now.lanes.items alternatives.now)) }
{
    json.key("either")?;
    write_list(json, script, alternatives)
}

/// Appends results under their key.
fn write_expected(
    json: &mut Json,
    script: &Script<'_>,
    values: &[Value<'_>],
) -> Result<(), AllocError>
    ensures { OnOk result (written json.new ≡ written json.old ++ (key (codes "expected") ++ list_text script.now.lanes.items values.now)) }
{
    json.key("expected")?;
    write_list(json, script, values)
}

/// Appends the results of an assertion, with their key.
pub(crate) fn write_results(
    json: &mut Json,
    script: &Script<'_>,
    results: Part,
) -> Result<(), AllocError>
    ensures { OnOk result (written json.new ≡ written json.old ++ results_text script.now.lanes.items (part results script.now.values.items)) }
{
    let values = script.values_in(results);
    match alternatives(values) {
        Some(alternatives) => {
            write_either(json, script, alternatives)?;
            Ok(())
        }
        None => {
            write_expected(json, script, values)?;
            Ok(())
        }
    }
}
