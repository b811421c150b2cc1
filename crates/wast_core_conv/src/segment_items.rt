//! Element and data segments as items of sections.

ghost use Rattle.std.specs.Prelude.{◌+◌, length, IsTrue};
ghost use Rattle.wasm_ops.specs.Spelling.{InRangeU32};
ghost use Rattle.wasm_out.specs.Built.{Adds};
ghost use Rattle.wasm_out.specs.BuiltElements.{element_kind, listed_in, InRangeElements, AreElements};
ghost use Rattle.wasm_out.specs.DataSegments as segments;
ghost use Rattle.wasm_out.specs.DataSegments.{data_place};
ghost use Rattle.wasm_out.specs.ElementSegments.{element_bytes, has_form, element_entry, element_place};
ghost use Rattle.wast_core_conv.specs.Encodable.{is_encodable_elem_kind, is_encodable_elem, is_encodable_data_kind, is_encodable_data};
ghost use Rattle.wast_core_conv.specs.Meaning as meaning;

use crate::conv;
use crate::conv_segments::{data_bytes, elements};
use crate::section_items::SectionItem;
use crate::values::Resolved;
use std::alloc::Global;
use wasm_ops::{EncodeWith, Sink};
use wasm_out::{DataSection, ElementSection, Elements};
use wast_base::Error;
use wast_tree_nodes::{CustomPlaceAnchor, Data, DataKind, Elem, ElemKind};

/// Adds an element segment.
fn add_elements<'e>(
    alloc: Global,
    section: &mut ElementSection,
    kind: &ElemKind,
    elements: &Elements,
) -> Result<(), Error<'e>>
    requires kind { IsTrue (is_encodable_elem_kind kind.now) }
    requires elements { AreElements elements.now }
    requires form { IsTrue (has_form (meaning.as_element_mode kind.now) (element_kind elements.now)) }
    ensures { Adds (InRangeU32 (section.old.count + 1)
        × ((element_place (meaning.as_element_mode kind.now)).in_range × InRangeElements elements.now))
        section.old section.new
        (element_bytes (meaning.as_element_mode kind.now) (element_kind elements.now) (listed_in elements.now)) result }
{
    match kind {
        ElemKind::Passive => section.passive(elements),
        ElemKind::Declared => section.declared(elements),
        ElemKind::Active { table, offset } => {
            let offset = conv::const_expr(alloc, offset)?;
            section.active(conv::optional_index(table), &offset, elements)
        }
    }
}

impl SectionItem for Elem<'_> {
    type Section = ElementSection;

    const ANCHOR: CustomPlaceAnchor = CustomPlaceAnchor::Elem;

    ghost spelling = { λ item. (element_entry (meaning.as_element item)).bytes };

    ghost in_range = { λ item. (element_entry (meaning.as_element item)).in_range };

    ghost is_encodable = { is_encodable_elem };

    fn encode<'e>(&self, alloc: Global, section: &mut ElementSection) -> Result<(), Error<'e>> {
        let elements = elements(alloc, &self.payload)?;
        add_elements(alloc, section, &self.kind, &elements)
    }

    fn put<'e, S: Sink>(&self, out: &mut S) -> Result<(), Error<'e>> {
        Ok(Resolved.spell(self, out)?)
    }
}

/// Adds a data segment.
fn add_data<'e>(
    alloc: Global,
    section: &mut DataSection,
    kind: &DataKind,
    bytes: &[u8],
) -> Result<(), Error<'e>>
    requires { IsTrue (is_encodable_data_kind kind.now) }
    ensures { Adds (InRangeU32 (section.old.count + 1)
        × ((data_place (meaning.as_data_mode kind.now)).in_range × InRangeU32 (length bytes.now)))
        section.old section.new (segments.data_bytes (meaning.as_data_mode kind.now) bytes.now) result }
{
    match kind {
        DataKind::Passive => section.passive(bytes),
        DataKind::Active { memory, offset } => {
            let offset = conv::const_expr(alloc, offset)?;
            section.active(conv::index(memory), &offset, bytes)
        }
    }
}

impl SectionItem for Data<'_> {
    type Section = DataSection;

    const ANCHOR: CustomPlaceAnchor = CustomPlaceAnchor::Data;

    ghost spelling = { λ item. (segments.data_entry (meaning.as_data item)).bytes };

    ghost in_range = { λ item. (segments.data_entry (meaning.as_data item)).in_range };

    ghost is_encodable = { is_encodable_data };

    fn encode<'e>(&self, alloc: Global, section: &mut DataSection) -> Result<(), Error<'e>> {
        let bytes = data_bytes(alloc, self.bytes.as_slice())?;
        add_data(alloc, section, &self.kind, bytes.as_slice())
    }

    fn put<'e, S: Sink>(&self, out: &mut S) -> Result<(), Error<'e>> {
        Ok(Resolved.spell(self, out)?)
    }
}
