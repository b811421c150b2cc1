//! The ids of the source's types.

ghost use Rattle.std.specs.Prelude.{◌≡◌, ◌++◌, ◌∷◌, [], flat_map, IfErr, OnOk};
ghost use Rattle.wast_base.specs.Ids.{mark_of_option};
ghost use Rattle.wast_base.specs.Spaces.{name_if};
ghost use Rattle.wast_tree_nodes.specs.Items.{items_in, items_of_type};
ghost use Rattle.wast_tree_nodes.specs.Known.{names_in};
ghost use Rattle.wast_expand_types.specs.Tree.space;
ghost use Rattle.wast_expand_types.specs.TypeItems.{StopsGathering};

use wast_base::{Error, Fault, Id};
use wast_resolve_namespace::NamespaceBuilder;
use wast_tree_nodes::{ModuleField, Type};

/// Appends the ids of the types in a field.
pub(crate) fn gather_field<'a>(
    gathering: &mut NamespaceBuilder<'a>,
    field: &ModuleField<'a>,
) -> Result<(), Error<'a>>
    ensures ok { OnOk result (gathering.new ≡ gathering.old ++ names_in space.Ty (items_in field.now)) }
    ensures refusal { IfErr result (StopsGathering (gathering.old ++ names_in space.Ty (items_in field.now))) }
{
    match field {
        ModuleField::Ty(ty) => {
            gather_type(gathering, ty.id)?;
            Ok(())
        }
        ModuleField::Rec(rec) => {
            gather_types(gathering, rec.types.as_slice())?;
            Ok(())
        }
        _ => Ok(()),
    }
}

/// Appends the ids of the members of a group.
fn gather_types<'a>(
    gathering: &mut NamespaceBuilder<'a>,
    types: &[Type<'a>],
) -> Result<(), Error<'a>>
    ensures ok { OnOk result (gathering.new ≡ gathering.old ++ names_in space.Ty (flat_map items_of_type types.now)) }
    ensures refusal { IfErr result (StopsGathering (gathering.old ++ names_in space.Ty (flat_map items_of_type types.now))) }
{
    for ty in types {
        gather_type(gathering, ty.id)?;
    }
    Ok(())
}

/// Appends the id of one type.
fn gather_type<'a>(
    gathering: &mut NamespaceBuilder<'a>,
    id: Option<Id<'a>>,
) -> Result<(), Error<'a>>
    ensures ok { OnOk result (gathering.new ≡ gathering.old ++ name_if (mark_of_option id.entry) ∷ []) }
    ensures refusal { IfErr result (StopsGathering (gathering.old ++ name_if (mark_of_option id.entry) ∷ [])) }
{
    if gathering.is_full() {
        return Err(Error::refusal(Fault::TooLarge));
    }
    gathering.add(id)?;
    Ok(())
}
