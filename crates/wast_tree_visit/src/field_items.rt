//! The items of a field.

ghost use Rattle.std.specs.Prelude.{◌≡◌};
ghost use Rattle.wast_tree_nodes.specs.Items.{items_defined, items_in};
ghost use Rattle.wast_tree_nodes.specs.Profiles.{items_read};

use wast_tree_nodes::{FieldItems, ModuleField, profile_of};

/// Returns the items of a field, by reference.
#[inline(always)]
pub(crate) fn items_of<'f, 'a>(field: &'f ModuleField<'a>) -> FieldItems<'f, 'a>
    ensures { items_defined (items_read result) ≡ items_in field.now }
{
    profile_of(field).items
}
