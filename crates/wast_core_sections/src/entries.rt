//! The entries that fields have in the sections that are lists.

ghost use Rattle.std.specs.Prelude.{◌≡◌, length, List, All, IfSome, IsNone, IsTrue};
ghost use Rattle.std.specs.List.{flat_map};
ghost use Rattle.wasm_ops.specs.Sinks.{Writes};
ghost use Rattle.wasm_ops.specs.Spelling.{InRangeU32};
ghost use Rattle.wasm_out.specs.Parts.{entry, InRangeEntry, part, InRangePart};
ghost use Rattle.wast_core_conv.specs.Encodable.{is_encodable_field, is_encodable};
ghost use Rattle.wast_core_sections.specs.Sections.{entries_in, entries, section_part, starts_in};
ghost use Rattle.wast_core_sections.specs.Putting.{can_contribute};
ghost use Rattle.wast_core_ranges.specs.FieldRanges.{is_reach, are_reaches};
ghost use Rattle.wast_tree_nodes.specs.declared.fields.ModuleField.{ModuleField};
ghost use Rattle.wast_core_sections.specs.Slots.{section_kind};

use crate::items::{put_items, put_listed};
use crate::slots::SectionKind;
use wasm_ops::{Encode, EncodeWith, EncodedBy, Refusal, Sink, WithLength};
use wast_core_conv::{RecOrType, Resolved};
use wast_core_ranges::{FieldKind, FieldRange, FieldRanges};
use wast_tree_nodes::ModuleField;

/// Returns whether a field has an entry in the section of a kind.
fn puts(kind: SectionKind, field: &ModuleField) -> bool
    ensures { result ≡ can_contribute (section_kind kind) field.now }
{
    match kind {
        SectionKind::Types => FieldKind::Ty.is_of(field) || FieldKind::Rec.is_of(field),
        SectionKind::Imports => FieldKind::Import.is_of(field),
        SectionKind::Functions | SectionKind::Code => FieldKind::Func.is_of(field),
        SectionKind::Tables => FieldKind::Table.is_of(field),
        SectionKind::Memories => FieldKind::Memory.is_of(field),
        SectionKind::Tags => FieldKind::Tag.is_of(field),
        SectionKind::Globals => FieldKind::Global.is_of(field),
        SectionKind::Exports => FieldKind::Export.is_of(field),
        SectionKind::Elements => FieldKind::Elem.is_of(field),
        SectionKind::Data => FieldKind::Data.is_of(field),
    }
}

/// Returns how many entries a field has in the section of a kind: none or one.
fn entries_of(kind: SectionKind, field: &ModuleField) -> u32
    ensures { result ≡ length (entries_in (section_kind kind) field.now) }
{
    if puts(kind, field) {
        return 1;
    }
    0
}

/// Appends the entry of a field to the section of a kind, if it has one.
fn put_entry<S: Sink>(kind: SectionKind, field: &ModuleField, out: &mut S) -> Result<(), Refusal>
    requires { IsTrue (is_encodable_field field.now) }
    ensures { Writes S.rules (All (InRangeEntry (section_kind kind)) (entries_in (section_kind kind) field.now))
        out.old out.new (flat_map (entry (section_kind kind)) (entries_in (section_kind kind) field.now)) result }
{
    match (kind, field) {
        (SectionKind::Types, ModuleField::Ty(ty)) => RecOrType::Ty(ty).encode(out),
        (SectionKind::Types, ModuleField::Rec(rec)) => RecOrType::Rec(rec).encode(out),
        (SectionKind::Imports, ModuleField::Import(imports)) => EncodedBy(imports, Resolved).encode(
            out,
        ),
        (SectionKind::Functions, ModuleField::Func(func)) => EncodedBy(&func.ty, Resolved).encode(
            out,
        ),
        (SectionKind::Tables, ModuleField::Table(table)) => EncodedBy(table, Resolved).encode(out),
        (SectionKind::Memories, ModuleField::Memory(memory)) => EncodedBy(memory, Resolved).encode(
            out,
        ),
        (SectionKind::Tags, ModuleField::Tag(tag)) => EncodedBy(tag, Resolved).encode(out),
        (SectionKind::Globals, ModuleField::Global(global)) => EncodedBy(global, Resolved).encode(
            out,
        ),
        (SectionKind::Exports, ModuleField::Export(export)) => EncodedBy(export, Resolved).encode(
            out,
        ),
        (SectionKind::Elements, ModuleField::Elem(elem)) => EncodedBy(elem, Resolved).encode(out),
        (SectionKind::Code, ModuleField::Func(func)) => {
            WithLength(EncodedBy(&func.kind, Resolved)).encode(out)
        }
        (SectionKind::Data, ModuleField::Data(data)) => EncodedBy(data, Resolved).encode(out),
        _ => Ok(()),
    }
}

/// The entry of a field in the section of this kind.
#[derive(Clone, Copy)]
struct EntriesOf(SectionKind);

impl EncodeWith<ModuleField<'_>> for EntriesOf {
    ghost spelling = { λ w f. flat_map (entry (section_kind w.0)) (entries_in (section_kind w.0) f) };

    ghost in_range = { λ w f. All (InRangeEntry (section_kind w.0)) (entries_in (section_kind w.0) f) };

    ghost is_ready = { λ _ f. is_encodable_field f };

    fn spell<S: Sink>(&self, field: &ModuleField, out: &mut S) -> Result<(), Refusal> {
        put_entry(self.0, field, out)
    }
}

/// Returns how many entries the section of a kind has, if these are less than 2^32.
fn count(kind: SectionKind, fields: &[ModuleField]) -> Option<u32>
    ensures some { IfSome result (λ n. n ≡ length (entries (section_kind kind) fields.now)) }
    ensures none { IsNone result → InRangeU32 (length (entries (section_kind kind) fields.now)) → ⊥ }
{
    let mut sum = 0u32;
    for field in fields {
        let Some(next) = sum.checked_add(entries_of(kind, field)) else {
            return None;
        };
        sum = next;
    }
    Some(sum)
}

/// Returns the range of the fields that have an entry in the section of a kind.
fn reach_of(kind: SectionKind, reaches: &FieldRanges) -> FieldRange
    ensures { (fields : List ModuleField) → IsTrue (are_reaches fields reaches.now)
        → IsTrue (is_reach (can_contribute (section_kind kind)) fields result) }
{
    match kind {
        SectionKind::Types => {
            let groups = reaches.of_kind(FieldKind::Rec);
            reaches.of_kind(FieldKind::Ty).union(groups)
        }
        SectionKind::Imports => reaches.of_kind(FieldKind::Import),
        SectionKind::Functions | SectionKind::Code => reaches.of_kind(FieldKind::Func),
        SectionKind::Tables => reaches.of_kind(FieldKind::Table),
        SectionKind::Memories => reaches.of_kind(FieldKind::Memory),
        SectionKind::Tags => reaches.of_kind(FieldKind::Tag),
        SectionKind::Globals => reaches.of_kind(FieldKind::Global),
        SectionKind::Exports => reaches.of_kind(FieldKind::Export),
        SectionKind::Elements => reaches.of_kind(FieldKind::Elem),
        SectionKind::Data => reaches.of_kind(FieldKind::Data),
    }
}

/// Returns the fields from the first to the last that has an entry in the section of a kind.
fn section_fields<'b, 'a>(
    kind: SectionKind,
    fields: &'b [ModuleField<'a>],
    reaches: &FieldRanges,
) -> &'b [ModuleField<'a>]
    requires { IsTrue (are_reaches fields.now reaches.now) }
    ensures same { entries (section_kind kind) result.now ≡ entries (section_kind kind) fields.now }
    ensures ready { IsTrue (is_encodable fields.now) → IsTrue (is_encodable result.now) }
{
    reach_of(kind, reaches).of(fields)
}

/// Returns the fields from the first start field to the last.
pub(crate) fn start_fields<'b, 'a>(
    fields: &'b [ModuleField<'a>],
    reaches: &FieldRanges,
) -> &'b [ModuleField<'a>]
    requires { IsTrue (are_reaches fields.now reaches.now) }
    ensures same { flat_map starts_in result.now ≡ flat_map starts_in fields.now }
    ensures ready { IsTrue (is_encodable fields.now) → IsTrue (is_encodable result.now) }
{
    reaches.of_kind(FieldKind::Start).of(fields)
}

/// Returns how many entries the section of a kind has, if these are less than 2^32.
pub(crate) fn count_of(
    kind: SectionKind,
    fields: &[ModuleField],
    reaches: &FieldRanges,
) -> Option<u32>
    requires { IsTrue (are_reaches fields.now reaches.now) }
    ensures some { IfSome result (λ n. n ≡ length (entries (section_kind kind) fields.now)) }
    ensures none { IsNone result → InRangeU32 (length (entries (section_kind kind) fields.now)) → ⊥ }
{
    count(kind, section_fields(kind, fields, reaches))
}

/// Appends the section of a kind, if it has entries.
pub(crate) fn put_section<S: Sink>(
    kind: SectionKind,
    fields: &[ModuleField],
    reaches: &FieldRanges,
    out: &mut S,
) -> Result<(), Refusal>
    requires ready { IsTrue (is_encodable fields.now) }
    requires reaches { IsTrue (are_reaches fields.now reaches.now) }
    ensures { Writes S.rules (All InRangePart (section_part (section_kind kind) (entries (section_kind kind) fields.now)))
        out.old out.new (flat_map part (section_part (section_kind kind) (entries (section_kind kind) fields.now))) result }
{
    let Some(count) = count_of(kind, fields, reaches) else {
        return Err(Refusal::TooLarge);
    };
    if count == 0 {
        return Ok(());
    }
    let there = section_fields(kind, fields, reaches);
    let id = kind.id();
    put_listed(there, EntriesOf(kind), id, count, out)
}

/// The start section of a field, if it is a start field.
#[derive(Clone, Copy)]
struct StartOf;

impl EncodeWith<ModuleField<'_>> for StartOf {
    ghost spelling = { λ _ f. flat_map part (starts_in f) };

    ghost in_range = { λ _ f. All InRangePart (starts_in f) };

    ghost is_ready = { λ _ f. is_encodable_field f };

    fn spell<S: Sink>(&self, field: &ModuleField, out: &mut S) -> Result<(), Refusal> {
        match field {
            ModuleField::Start(func) => (8u8, WithLength(EncodedBy(func, Resolved))).encode(out),
            _ => Ok(()),
        }
    }
}

/// Appends the start sections, one for each start field.
pub(crate) fn put_starts<S: Sink>(fields: &[ModuleField], out: &mut S) -> Result<(), Refusal>
    requires { IsTrue (is_encodable fields.now) }
    ensures { Writes S.rules (All InRangePart (flat_map starts_in fields.now))
        out.old out.new (flat_map part (flat_map starts_in fields.now)) result }
{
    put_items(fields, StartOf, out)
}
