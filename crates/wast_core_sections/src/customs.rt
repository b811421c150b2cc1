//! Custom sections at their positions, and the test for one called `name`.

ghost use Rattle.std.specs.Prelude.{◌≡◌, All, IsTrue, codes};
ghost use Rattle.std.specs.List.{flat_map};
ghost use Rattle.wasm_ops.specs.Sinks.{Writes};
ghost use Rattle.wast_core_conv.specs.Customs.{InRangeCustom};
ghost use Rattle.wast_core_conv.specs.Encodable.{is_encodable_field, is_encodable};
ghost use Rattle.wast_core_sections.specs.Sections.{custom_section, has_own_names};
ghost use Rattle.wast_core_ranges.specs.FieldRanges.{are_reaches};
ghost use Rattle.wast_tree_nodes.specs.Customs.{customs_in, customs_at, is_custom_called};

use crate::items::put_items;
use wasm_ops::{EncodeWith, Refusal, Sink};
use wast_core_conv::Resolved;
use wast_core_ranges::{FieldKind, FieldRanges};
use wast_tree_nodes::{CustomPlace, ModuleField};

/// Returns the fields from the first to the last custom section at a position.
fn custom_fields<'b, 'a>(
    place: CustomPlace,
    fields: &'b [ModuleField<'a>],
    reaches: &FieldRanges,
) -> &'b [ModuleField<'a>]
    requires { IsTrue (are_reaches fields.now reaches.now) }
    ensures same { customs_at place result.now ≡ customs_at place fields.now }
    ensures ready { IsTrue (is_encodable fields.now) → IsTrue (is_encodable result.now) }
{
    reaches.of_kind(FieldKind::Custom(place)).of(fields)
}

/// The custom section of a field, if it is at this position.
#[derive(Clone, Copy)]
struct CustomOf(CustomPlace);

impl EncodeWith<ModuleField<'_>> for CustomOf {
    ghost spelling = { λ w f. flat_map custom_section (customs_in w.0 f) };

    ghost in_range = { λ w f. All InRangeCustom (customs_in w.0 f) };

    ghost is_ready = { λ _ f. is_encodable_field f };

    fn spell<S: Sink>(&self, field: &ModuleField, out: &mut S) -> Result<(), Refusal> {
        match field {
            ModuleField::Custom(custom) => {
                if custom.stands_at(self.0) {
                    Resolved.spell(custom, out)
                } else {
                    Ok(())
                }
            }
            _ => Ok(()),
        }
    }
}

/// Appends the custom sections at a position, in the order of the fields.
pub(crate) fn put_customs<S: Sink>(
    place: CustomPlace,
    fields: &[ModuleField],
    reaches: &FieldRanges,
    out: &mut S,
) -> Result<(), Refusal>
    requires ready { IsTrue (is_encodable fields.now) }
    requires reaches { IsTrue (are_reaches fields.now reaches.now) }
    ensures { Writes S.rules (All InRangeCustom (customs_at place fields.now))
        out.old out.new (flat_map custom_section (customs_at place fields.now)) result }
{
    put_items(custom_fields(place, fields, reaches), CustomOf(place), out)
}

/// Returns whether a field is a custom section called `name`.
fn is_called_name(field: &ModuleField) -> bool
    ensures { result ≡ is_custom_called (codes "name") field.now }
{
    match field {
        ModuleField::Custom(custom) => custom.name() == "name",
        _ => false,
    }
}

/// Returns whether one of these fields is a custom section called `name`. The names of the module
/// are not written then.
pub(crate) fn has_own_names(fields: &[ModuleField], reaches: &FieldRanges) -> bool
    requires { IsTrue (are_reaches fields.now reaches.now) }
    ensures { result ≡ has_own_names fields.now }
{
    if !reaches.has_customs() {
        return false;
    }
    fields.iter().any(|field| is_called_name(field))
}
