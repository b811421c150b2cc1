//! The data count section, which states the number of data segments before the code section.

ghost use Rattle.std.specs.Prelude.{◌≡◌, All, IsTrue};
ghost use Rattle.std.specs.List.{flat_map, list_any};
ghost use Rattle.wasm_ops.specs.Sinks.{Writes};
ghost use Rattle.wasm_out.specs.Parts.{part, InRangePart};
ghost use Rattle.wast_core_sections.specs.DataCounts.{body_needs_count, needs_count, may_be_counted};
ghost use Rattle.wast_core_sections.specs.Sections.{data_counts};
ghost use Rattle.wast_tree_nodes.specs.Instrs.{needs_data_count};
ghost use Rattle.wast_core_ranges.specs.FieldRanges.{are_reaches};

use crate::entries::count_of;
use crate::slots::SectionKind;
use wasm_ops::{Encode, Refusal, Sink, WithLength};
use wast_core_ranges::{FieldKind, FieldRanges};
use wast_tree_nodes::{FuncKind, Instruction, ModuleField};

/// Returns whether one of these instructions needs a data count.
fn any_needs(instrs: &[Instruction]) -> bool
    ensures { result ≡ list_any needs_data_count instrs.now }
{
    instrs
        .iter()
        .any(|instruction| instruction.needs_data_count())
}

/// Returns whether a field is a function whose body has an instruction that needs a data count.
fn body_needs_count(field: &ModuleField) -> bool
    ensures { result ≡ body_needs_count field.now }
{
    match field {
        ModuleField::Func(func) => match &func.kind {
            FuncKind::Import(..) => false,
            FuncKind::Inline { expression, .. } => any_needs(expression.instrs.as_slice()),
        },
        _ => false,
    }
}

/// Returns whether a body of these fields needs a data count.
fn needs_count(fields: &[ModuleField]) -> bool
    ensures { result ≡ needs_count fields.now }
{
    fields.iter().any(|field| body_needs_count(field))
}

/// Returns the fields from the first function to the last.
fn functions<'b, 'a>(fields: &'b [ModuleField<'a>], reaches: &FieldRanges) -> &'b [ModuleField<'a>]
    requires { IsTrue (are_reaches fields.now reaches.now) }
    ensures { needs_count result.now ≡ needs_count fields.now }
{
    reaches.of_kind(FieldKind::Func).of(fields)
}

/// Returns whether a body of these fields needs a data count. Without an index of a data segment in
/// the fields it does not walk them.
fn is_counted(fields: &[ModuleField], reaches: &FieldRanges, has_data_index: bool) -> bool
    requires reaches { IsTrue (are_reaches fields.now reaches.now) }
    requires data { IsTrue (may_be_counted fields.now has_data_index) }
    ensures { result ≡ needs_count fields.now }
{
    if !has_data_index {
        return false;
    }
    needs_count(functions(fields, reaches))
}

/// Appends the data count section, if a body needs it. `has_data_index` says whether the fields
/// have an index of a data segment.
pub(crate) fn put_data_count<S: Sink>(
    fields: &[ModuleField],
    reaches: &FieldRanges,
    has_data_index: bool,
    out: &mut S,
) -> Result<(), Refusal>
    requires reaches { IsTrue (are_reaches fields.now reaches.now) }
    requires data { IsTrue (may_be_counted fields.now has_data_index) }
    ensures { Writes S.rules (All InRangePart (data_counts fields.now))
        out.old out.new (flat_map part (data_counts fields.now)) result }
{
    if !is_counted(fields, reaches, has_data_index) {
        return Ok(());
    }
    let Some(count) = count_of(SectionKind::Data, fields, reaches) else {
        return Err(Refusal::TooLarge);
    };
    (12u8, WithLength(count)).encode(out)
}
