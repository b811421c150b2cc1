//! The search for the item that has an id.

ghost use Rattle.std.specs.Prelude.{◌≡◌, ◌==◌, ◌≤◌, ◌-◌, ◌&&◌, ◌||◌, List, [], ◌∷◌, length, flat_map, is_some};
ghost use Rattle.std.specs.List.{list_any};
ghost use Rattle.wast_base.specs.Ids.{name_of, mark_of_option};
ghost use Rattle.wast_base.specs.Spaces.{is_called, name_if};
ghost use Rattle.wast_tree_nodes.specs.Items.{Item, item, fields_of, item_of_sig, items_of_import, items_defined, items_in};
ghost use Rattle.wast_tree_nodes.specs.Profiles.{items_read};
ghost use Rattle.wast_tree_visit.specs.Tree.space;
ghost use Rattle.wast_tree_visit.specs.Private.IdOwners.{bears, bears_at, items_at, items_behind, items_before, steps_on, steps_back};

use crate::field_items::items_of;
use wast_base::{Id, Space};
use wast_tree_nodes::{FieldItems, ImportItems, ItemSig, ModuleField, Type};

/// Returns whether an optional id is this one.
fn is_called(bearer: &Option<Id<'_>>, id: &Id<'_>) -> bool
    ensures { result ≡ is_called (name_of id.now) (name_if (mark_of_option bearer.now)) }
{
    match bearer {
        None => false,
        Some(own) => own.is_same(id),
    }
}

/// Returns whether an item is of the space and has the id.
fn bears(own: Space, bearer: &Option<Id<'_>>, space: Space, id: &Id<'_>) -> bool
    ensures { result ≡ bears space (name_of id.now) (item own bearer.now []) }
{
    space.is(own) && is_called(bearer, id)
}

/// A part of the AST that is an item.
trait IsItem {
    /// The item.
    ghost item: { Self → Item };

    /// Returns whether it is of the space and has the id.
    fn bears(&self, space: Space, id: &Id<'_>) -> bool
        ensures { result ≡ bears space (name_of id.now) (item self.now) };
}

impl IsItem for Type<'_> {
    ghost item = { λ t. item space.Ty t.id (fields_of t.def.kind) };

    fn bears(&self, space: Space, id: &Id<'_>) -> bool {
        bears(Space::Ty, &self.id, space, id)
    }
}

impl IsItem for ItemSig<'_> {
    ghost item = { item_of_sig };

    fn bears(&self, space: Space, id: &Id<'_>) -> bool {
        bears(self.kind.space(), &self.id, space, id)
    }
}

impl<'a> IsItem for (&'a str, ItemSig<'a>) {
    ghost item = { λ p. item_of_sig p.1 };

    fn bears(&self, space: Space, id: &Id<'_>) -> bool {
        self.1.bears(space, id)
    }
}

/// The result of looking at an item of a field.
#[derive(Clone, Copy)]
pub(crate) struct Look {
    /// The number of items of the field.
    pub(crate) items: usize,
    /// Whether the item has the id.
    pub(crate) found: bool,
}

impl Look {
    /// Makes the result for a field with one item; `found` is whether that item has the id.
    fn at_one(item: usize, found: bool) -> Look
        ensures items { result.items ≡ 1 }
        ensures found { result.found ≡ (item == 0 && found) }
    {
        Look {
            items: 1,
            found: item == 0 && found,
        }
    }
}

/// Looks at an item of a list of them.
fn look_at_each<T: IsItem>(list: &[T], item: usize, space: Space, id: &Id<'_>) -> Look
    ensures items { result.items ≡ length (flat_map (λ x. T.item x ∷ []) list.now) }
    ensures found { result.found ≡ bears_at space (name_of id.now) (flat_map (λ x. T.item x ∷ []) list.now) item }
{
    Look {
        items: list.len(),
        found: item < list.len() && list[item].bears(space, id),
    }
}

/// Looks at an item of those that share a signature, one for each name.
fn look_at_shared(sig: &ItemSig<'_>, names: &[&str], item: usize, space: Space, id: &Id<'_>) -> Look
    ensures items { result.items ≡ length (flat_map (λ name. item_of_sig sig.now ∷ []) names.now) }
    ensures found { result.found ≡ bears_at space (name_of id.now) (flat_map (λ name. item_of_sig sig.now ∷ []) names.now) item }
{
    Look {
        items: names.len(),
        found: item < names.len() && sig.bears(space, id),
    }
}

/// Looks at an item of an import.
fn look_at_import(items: &ImportItems<'_>, item: usize, space: Space, id: &Id<'_>) -> Look
    ensures items { result.items ≡ length (items_of_import items.now) }
    ensures found { result.found ≡ bears_at space (name_of id.now) (items_of_import items.now) item }
{
    match items {
        ImportItems::Single { sig, .. } => Look::at_one(item, sig.bears(space, id)),
        ImportItems::Group1 { items, .. } => look_at_each(items.as_slice(), item, space, id),
        ImportItems::Group2 { sig, items, .. } => {
            look_at_shared(sig, items.as_slice(), item, space, id)
        }
    }
}

/// Looks at an item of a field.
fn look_among(items: FieldItems<'_, '_>, item: usize, space: Space, id: &Id<'_>) -> Look
    ensures items { result.items ≡ length (items_defined (items_read items.entry)) }
    ensures found { result.found ≡ bears_at space (name_of id.now) (items_defined (items_read items.entry)) item }
{
    match items {
        FieldItems::Nothing => Look {
            items: 0,
            found: false,
        },
        FieldItems::Lone(own) => Look::at_one(item, bears(own.space, own.id, space, id)),
        FieldItems::Type(ty) => Look::at_one(item, ty.bears(space, id)),
        FieldItems::Types(types) => look_at_each(types, item, space, id),
        FieldItems::Imported(items) => look_at_import(items, item, space, id),
    }
}

/// Returns the generation of an item's id, or 0 if the item is not of the space or has no id.
fn generation_in(own: Space, bearer: &Option<Id<'_>>, space: Space) -> u64 {
    match bearer {
        Some(id) if space.is(own) => id.generation(),
        _ => 0,
    }
}

/// Returns the same for an item of an import.
fn generation_in_import(items: &ImportItems<'_>, item: usize, space: Space) -> u64 {
    match items {
        ImportItems::Single { sig, .. } | ImportItems::Group2 { sig, .. } => {
            generation_in(sig.kind.space(), &sig.id, space)
        }
        ImportItems::Group1 { items, .. } => match items.as_slice().get(item) {
            Some(named) => generation_in(named.1.kind.space(), &named.1.id, space),
            None => 0,
        },
    }
}

/// Returns the same for an item of a field.
fn generation_among(items: FieldItems<'_, '_>, item: usize, space: Space) -> u64 {
    match items {
        FieldItems::Nothing => 0,
        FieldItems::Lone(own) => generation_in(own.space, own.id, space),
        FieldItems::Type(ty) => generation_in(Space::Ty, &ty.id, space),
        FieldItems::Types(types) => match types.get(item) {
            Some(ty) => generation_in(Space::Ty, &ty.id, space),
            None => 0,
        },
        FieldItems::Imported(items) => generation_in_import(items, item, space),
    }
}

/// A field that has items.
///
/// The search is generic in it, so that proofs need not compare the type of the whole AST with
/// itself.
pub(crate) trait HasItems {
    /// Its items.
    ghost items: { Self → List Item };

    /// Returns the number of its items, and whether the one at `item` is of the space and has the
    /// id.
    fn look(&self, item: usize, space: Space, id: &Id<'_>) -> Look
        ensures items { result.items ≡ length (items self.now) }
        ensures found { result.found ≡ bears_at space (name_of id.now) (items self.now) item };

    /// Returns the generation of the id of the item at `item`, or 0 if that is not of the space.
    ///
    /// If there is no such item, the result may be any number.
    fn generation(&self, item: usize, space: Space) -> u64;
}

impl HasItems for ModuleField<'_> {
    ghost items = { items_in };

    fn look(&self, item: usize, space: Space, id: &Id<'_>) -> Look {
        look_among(items_of(self), item, space, id)
    }

    fn generation(&self, item: usize, space: Space) -> u64 {
        generation_among(items_of(self), item, space)
    }
}

/// A position among the items of a list of fields: before an item of a field, or after its last.
#[derive(Clone, Copy)]
pub(crate) struct Place {
    /// The index of the field.
    pub(crate) field: usize,
    /// The index of the item among those of the field.
    pub(crate) item: usize,
}

impl Place {
    /// The position before all items.
    pub(crate) const START: Place = Place { field: 0, item: 0 };
}

/// A step from a position to the next.
#[derive(Clone, Copy)]
struct Step {
    /// The position that it leads to.
    place: Place,
    /// Whether the item between the two has the id.
    found: bool,
}

/// Looks at an item of the field at a position, if there is one.
fn look_at<T: HasItems>(fields: &[T], place: Place, space: Space, id: &Id<'_>) -> Look
    ensures items { result.items ≡ length (items_at T.items fields.now place.field) }
    ensures found { result.found ≡ bears_at space (name_of id.now) (items_at T.items fields.now place.field) place.item }
{
    if place.field < fields.len() {
        fields[place.field].look(place.item, space, id)
    } else {
        Look {
            items: 0,
            found: false,
        }
    }
}

/// Moves past the item after a position.
fn step_on<T: HasItems>(fields: &[T], place: Place, space: Space, id: &Id<'_>) -> Step
    ensures borne { list_any (bears space (name_of id.now)) (items_behind T.items fields.now place) ≡ (result.found || list_any (bears space (name_of id.now)) (items_behind T.items fields.now result.place)) }
    ensures nearer { steps_on T.items fields.now result.place ≤ steps_on T.items fields.now place - 1 }
{
    if place.field >= fields.len() {
        return Step {
            place,
            found: false,
        };
    }
    let look = look_at(fields, place, space, id);
    let next = if place.item < look.items.saturating_sub(1) {
        Place {
            field: place.field,
            item: place.item + 1,
        }
    } else {
        Place {
            field: place.field + 1,
            item: 0,
        }
    };
    Step {
        place: next,
        found: look.found,
    }
}

/// Moves past the item before a position, or to the end of the field before it.
fn step_back<T: HasItems>(fields: &[T], place: Place, space: Space, id: &Id<'_>) -> Step
    ensures borne { list_any (bears space (name_of id.now)) (items_before T.items fields.now place) ≡ (result.found || list_any (bears space (name_of id.now)) (items_before T.items fields.now result.place)) }
    ensures nearer { steps_back T.items fields.now result.place ≤ steps_back T.items fields.now place - 1 }
{
    if place.item > 0 {
        let before = Place {
            field: place.field,
            item: place.item - 1,
        };
        return Step {
            place: before,
            found: look_at(fields, before, space, id).found,
        };
    }
    if place.field == 0 {
        return Step {
            place,
            found: false,
        };
    }
    let first = Place {
        field: place.field - 1,
        item: 0,
    };
    let look = look_at(fields, first, space, id);
    if look.items <= 1 {
        return Step {
            place: first,
            found: look.found,
        };
    }
    Step {
        place: Place {
            field: first.field,
            item: look.items,
        },
        found: false,
    }
}

/// Returns the position after the closest item of the space that has the id, on either side.
pub(crate) fn nearest_bearer<T: HasItems>(
    fields: &[T],
    start: Place,
    space: Space,
    id: &Id<'_>,
) -> Option<Place>
    ensures { is_some result ≡ list_any (bears space (name_of id.now)) (flat_map T.items fields.now) }
{
    let mut on = start;
    let mut back = start;
    'outward: while on.field < fields.len() || back.field > 0 || back.item > 0 {
        let next = step_on(fields, on, space, id);
        on = next.place;
        if next.found {
            return Some(on);
        }
        let before = step_back(fields, back, space, id);
        if before.found {
            return Some(back);
        }
        back = before.place;
    }
    None
}
