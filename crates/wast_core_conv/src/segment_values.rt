//! Element and data segments of a resolved module as bytes.

ghost use Rattle.std.specs.Prelude.{◌≡◌, true, IsTrue};
ghost use Rattle.wast_tree_nodes.specs.DataBytes.{data_bytes};
ghost use Rattle.wasm_ops.specs.Spelling.{Any};
ghost use Rattle.wasm_out.specs.BuiltData.{is_ready_data};
ghost use Rattle.wasm_out.specs.BuiltElements.{is_ready_mode};
ghost use Rattle.wasm_out.specs.DataSegments.{data_entry};
ghost use Rattle.wasm_out.specs.ElementSegments.{element_entry};
ghost use Rattle.wast_core_conv.specs.Encodable.{is_encodable_expression, is_encodable_elem_kind, is_encodable_elem, is_encodable_data_kind, is_encodable_data};
ghost use Rattle.wast_core_conv.specs.Meaning as meaning;
ghost use Rattle.wast_core_conv.specs.Segments.{seen_mode, seen_data};

use crate::conv;
use crate::values::Resolved;
use wasm_ops::{Counted, Each, Encode, EncodeWith, EncodedBy, Raw, Refusal, Sink};
use wasm_out::{DataMode, DataSegment, ElementKind, ElementSegment, SegmentMode};
use wast_tree_nodes::{Data, DataKind, DataVal, Elem, ElemKind, ElemPayload, Expression};

/// Returns the mode of an element segment: passive, declarative, or active.
fn mode_of<'b, 'a>(kind: &'b ElemKind<'a>) -> SegmentMode<EncodedBy<'b, Expression<'a>, Resolved>>
    requires { IsTrue (is_encodable_elem_kind kind.now) }
    ensures same { seen_mode (λ b. meaning.as_expression b.0.now) result ≡ meaning.as_element_mode kind.now }
    ensures ready { IsTrue (is_ready_mode (λ b. is_encodable_expression b.0.now) result) }
{
    match kind {
        ElemKind::Passive => SegmentMode::Passive,
        ElemKind::Declared => SegmentMode::Declared,
        ElemKind::Active { table, offset } => {
            SegmentMode::Active(conv::optional_index(table), EncodedBy(offset, Resolved))
        }
    }
}

/// An entry of the element section (binary format: element section).
impl EncodeWith<Elem<'_>> for Resolved {
    ghost spelling = { λ _ e. (element_entry (meaning.as_element e)).bytes };

    ghost in_range = { λ _ e. (element_entry (meaning.as_element e)).in_range };

    ghost is_ready = { λ _ e. is_encodable_elem e };

    fn spell<S: Sink>(&self, elem: &Elem, out: &mut S) -> Result<(), Refusal> {
        let mode = mode_of(&elem.kind);
        match &elem.payload {
            ElemPayload::Indices(functions) => ElementSegment {
                mode,
                kind: ElementKind::Functions,
                list: Counted(functions.as_slice(), Resolved),
            }
            .encode(out),
            ElemPayload::Exprs { ty, exprs } => ElementSegment {
                mode,
                kind: ElementKind::Expressions(conv::ref_type(ty)),
                list: Counted(exprs.as_slice(), Resolved),
            }
            .encode(out),
        }
    }
}

/// A piece of data, as its bytes (binary format: data section).
impl EncodeWith<DataVal<'_>> for Resolved {
    ghost spelling = { λ _ v. data_bytes v };

    ghost in_range = { λ _ v. Any v };

    ghost is_ready = { λ _ _. true };

    fn spell<S: Sink>(&self, value: &DataVal, out: &mut S) -> Result<(), Refusal> {
        match value {
            DataVal::String(bytes) => Raw(bytes).encode(out),
            DataVal::Integral(bytes) => Raw(bytes.as_slice()).encode(out),
        }
    }
}

/// Returns the mode of a data segment: passive or active.
fn data_mode_of<'b, 'a>(kind: &'b DataKind<'a>) -> DataMode<EncodedBy<'b, Expression<'a>, Resolved>>
    requires { IsTrue (is_encodable_data_kind kind.now) }
    ensures same { seen_data (λ b. meaning.as_expression b.0.now) result ≡ meaning.as_data_mode kind.now }
    ensures ready { IsTrue (is_ready_data (λ b. is_encodable_expression b.0.now) result) }
{
    match kind {
        DataKind::Passive => DataMode::Passive,
        DataKind::Active { memory, offset } => {
            DataMode::Active(conv::index(memory), EncodedBy(offset, Resolved))
        }
    }
}

/// An entry of the data section (binary format: data section).
impl EncodeWith<Data<'_>> for Resolved {
    ghost spelling = { λ _ d. (data_entry (meaning.as_data d)).bytes };

    ghost in_range = { λ _ d. (data_entry (meaning.as_data d)).in_range };

    ghost is_ready = { λ _ d. is_encodable_data d };

    fn spell<S: Sink>(&self, data: &Data, out: &mut S) -> Result<(), Refusal> {
        DataSegment {
            mode: data_mode_of(&data.kind),
            bytes: Each(data.bytes.as_slice(), Resolved),
        }
        .encode(out)
    }
}
