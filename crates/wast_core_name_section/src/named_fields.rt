//! Finds the fields that can have items of an index space, or lists of names inside their items.

ghost use Rattle.std.specs.Prelude.{◌≡◌, List, IsTrue};
ghost use Rattle.std.specs.List.{flat_map};
ghost use Rattle.wast_core_ranges.specs.FieldRanges.{is_reach, are_reaches};
ghost use Rattle.wast_tree_nodes.specs.declared.kinds.FieldKind.TheVariants as kind;
ghost use Rattle.wast_core_name_section.specs.FieldsWithNames.{is_either, has_items, has_lists};
ghost use Rattle.wast_core_name_section.specs.ModuleNames.{names_given};
ghost use Rattle.wast_core_name_section.specs.Tree.{ModuleField};
ghost use Rattle.wast_core_name_section.specs.Tree.ty;
ghost use Rattle.wast_core_name_section.specs.WithinItems.{lists_within};

use crate::within::Within;
use wast_base::Space;
use wast_core_ranges::{FieldKind, FieldRange, FieldRanges};
use wast_tree_nodes::ModuleField;

/// Returns the range of the fields of either kind.
fn either(reaches: &FieldRanges, one: FieldKind, other: FieldKind) -> FieldRange
    ensures { (fields : List ModuleField) → IsTrue (are_reaches fields reaches.now)
        → IsTrue (is_reach (is_either one other) fields result) }
{
    reaches.of_kind(one).union(reaches.of_kind(other))
}

/// Returns the range of the fields that can have items of an index space.
fn reach_of_space(space: Space, reaches: &FieldRanges) -> FieldRange
    ensures { (fields : List ModuleField) → IsTrue (are_reaches fields reaches.now)
        → IsTrue (is_reach (has_items space) fields result) }
{
    match space {
        Space::Func => either(reaches, FieldKind::Import, FieldKind::Func),
        Space::Table => either(reaches, FieldKind::Import, FieldKind::Table),
        Space::Memory => either(reaches, FieldKind::Import, FieldKind::Memory),
        Space::Global => either(reaches, FieldKind::Import, FieldKind::Global),
        Space::Tag => either(reaches, FieldKind::Import, FieldKind::Tag),
        Space::Elem => reaches.of_kind(FieldKind::Elem),
        Space::Data => reaches.of_kind(FieldKind::Data),
        Space::Ty => reach_of_types(reaches),
    }
}

/// Returns the fields from the first to the last that can have items of an index space.
pub(crate) fn with_items<'b, 'a>(
    space: Space,
    fields: &'b [ModuleField<'a>],
    reaches: &FieldRanges,
) -> &'b [ModuleField<'a>]
    requires { IsTrue (are_reaches fields.now reaches.now) }
    ensures { flat_map (names_given space) result.now ≡ flat_map (names_given space) fields.now }
{
    reach_of_space(space, reaches).of(fields)
}

/// Returns the range of the fields that can have types.
pub(crate) fn reach_of_types(reaches: &FieldRanges) -> FieldRange
    ensures { (fields : List ModuleField) → IsTrue (are_reaches fields reaches.now)
        → IsTrue (is_reach (is_either kind.Ty kind.Rec) fields result) }
{
    either(reaches, FieldKind::Ty, FieldKind::Rec)
}

/// Returns the range of the fields whose items can have such lists.
fn reach_within(within: Within, reaches: &FieldRanges) -> FieldRange
    ensures { (fields : List ModuleField) → IsTrue (are_reaches fields reaches.now)
        → IsTrue (is_reach (has_lists within) fields result) }
{
    match within {
        Within::Locals | Within::Labels => either(reaches, FieldKind::Import, FieldKind::Func),
        Within::Fields | Within::Parameters => reach_of_types(reaches),
        Within::TagParameters => either(reaches, FieldKind::Import, FieldKind::Tag),
    }
}

/// Returns the fields from the first to the last whose items can have such lists.
pub(crate) fn with_lists<'b, 'a>(
    within: Within,
    fields: &'b [ModuleField<'a>],
    reaches: &FieldRanges,
) -> &'b [ModuleField<'a>]
    requires { IsTrue (are_reaches fields.now reaches.now) }
    ensures { (types : List ty.«Type») → flat_map (lists_within types within) result.now ≡ flat_map (lists_within types within) fields.now }
{
    reach_within(within, reaches).of(fields)
}
