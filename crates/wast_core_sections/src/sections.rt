//! A whole binary module: the header, and the parts at each position.

ghost use Rattle.std.specs.Prelude.{All, IsTrue};
ghost use Rattle.std.specs.List.{flat_map};
ghost use Rattle.wasm_ops.specs.Sinks.{Writes};
ghost use Rattle.wasm_out.specs.Parts.{part};
ghost use Rattle.wast_core_conv.specs.Encodable.{is_encodable};
ghost use Rattle.wast_core_sections.specs.Writable.{bytes_of, InRangeSlot, InRangeModule};
ghost use Rattle.wast_core_sections.specs.DataCounts.{may_be_counted};
ghost use Rattle.wast_core_sections.specs.Sections.{in_slot};
ghost use Rattle.wast_core_sections.specs.declared.slots.Slot.TheVariants as slot;
ghost use Rattle.wast_core_name_section.specs.FoundNames.{text_seen};
ghost use Rattle.wast_core_ranges.specs.FieldRanges.{are_reaches};

use crate::counts::put_data_count;
use crate::customs::{has_own_names, put_customs};
use crate::entries::{put_section, put_starts, start_fields};
use crate::hints::put_hints;
use crate::slots::{ORDER, Slot};
use wasm_ops::{Encode, Raw, Refusal, Sink};
use wasm_out::HEADER;
use wast_core_name_section::put_names;
use wast_core_ranges::FieldRanges;
use wast_tree_nodes::ModuleField;

/// Appends the name section, unless a custom section is called `name`.
fn put_given_names<S: Sink>(
    fields: &[ModuleField],
    name: Option<&str>,
    reaches: &FieldRanges,
    out: &mut S,
) -> Result<(), Refusal>
    requires { IsTrue (are_reaches fields.now reaches.now) }
    ensures { Writes S.rules (InRangeSlot (text_seen name.entry) fields.now slot.Names)
        out.old out.new (flat_map part (in_slot (text_seen name.entry) fields.now slot.Names)) result }
{
    if has_own_names(fields, reaches) {
        return Ok(());
    }
    put_names(fields, name, reaches, out)
}

/// Appends the parts at a position.
///
/// The fields are the first parameter, here and in all calls. Then the lifetimes of a callee are at
/// the same positions as those of its caller, and the prover does not compare the whole tree.
fn put_slot<'b, S: Sink>(
    fields: &[ModuleField],
    name: Option<&str>,
    reaches: &FieldRanges,
    has_data_index: bool,
    slot: &'b Slot,
    out: &'b mut S,
) -> Result<(), Refusal>
    requires encodable { IsTrue (is_encodable fields.now) }
    requires reaches { IsTrue (are_reaches fields.now reaches.now) }
    requires data { IsTrue (may_be_counted fields.now has_data_index) }
    ensures { Writes S.rules (InRangeSlot (text_seen name.entry) fields.now slot.now)
        out.old out.new (flat_map part (in_slot (text_seen name.entry) fields.now slot.now)) result }
{
    match slot {
        Slot::Custom(place) => put_customs(*place, fields, reaches, out),
        Slot::Section(kind) => put_section(*kind, fields, reaches, out),
        Slot::Start => put_starts(start_fields(fields, reaches), out),
        Slot::DataCount => put_data_count(fields, reaches, has_data_index, out),
        Slot::Names => put_given_names(fields, name, reaches, out),
        Slot::Hints => put_hints(fields, reaches, out),
    }
}

/// Appends the parts at several positions.
fn put_slots<'b, S: Sink>(
    fields: &[ModuleField],
    name: Option<&str>,
    reaches: &FieldRanges,
    has_data_index: bool,
    slots: &'b [Slot],
    out: &'b mut S,
) -> Result<(), Refusal>
    requires encodable { IsTrue (is_encodable fields.now) }
    requires reaches { IsTrue (are_reaches fields.now reaches.now) }
    requires data { IsTrue (may_be_counted fields.now has_data_index) }
    ensures { Writes S.rules (All (InRangeSlot (text_seen name.entry) fields.now) slots.now)
        out.old out.new (flat_map (λ s. flat_map part (in_slot (text_seen name.entry) fields.now s)) slots.now) result }
{
    let start = out.size();
    for slot in slots {
        let result = put_slot(fields, name, reaches, has_data_index, slot, out);
        if result.is_err() {
            out.cut(start);
            return result;
        }
    }
    Ok(())
}

/// Appends the bytes of a resolved module with this name: the header, and the parts at each
/// position. Allocates nothing, except in the sink.
///
/// Each part is written once, and its length is inserted before it afterwards. It fails with the
/// error of the sink, only if the bytes do not fit. It fails as too large, only if a number, count
/// or length in the module is out of range.
pub(crate) fn put_sections<S: Sink>(
    fields: &[ModuleField],
    name: Option<&str>,
    has_data_index: bool,
    out: &mut S,
) -> Result<(), Refusal>
    requires encodable { IsTrue (is_encodable fields.now) }
    requires data { IsTrue (may_be_counted fields.now has_data_index) }
    ensures { Writes S.rules (InRangeModule (text_seen name.entry) fields.now)
        out.old out.new (bytes_of (text_seen name.entry) fields.now) result }
{
    let start = out.size();
    let header = HEADER;
    Raw(&header).encode(out)?;
    let reaches = FieldRanges::of(fields);
    let slots = ORDER;
    let second = put_slots(fields, name, &reaches, has_data_index, &slots, out);
    if second.is_err() {
        out.cut(start);
    }
    second
}
