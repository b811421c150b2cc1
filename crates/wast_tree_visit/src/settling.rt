//! Whether a generated id names an item of its index space.

ghost use Rattle.std.specs.Prelude.{◌≡◌, flat_map};
ghost use Rattle.wast_base.specs.Ids.{name_of};
ghost use Rattle.wast_base.specs.Spaces.{is_borne, is_settled_index};
ghost use Rattle.wast_tree_nodes.specs.Known.{IdContext, id_context, names_in};
ghost use Rattle.wast_tree_nodes.specs.WellFormed.{is_written_index};

use crate::bearers::{HasItems, Place, nearest_bearer};
use crate::halving::{Stretches, halved_place};
use wast_base::{Id, Index, Space};

/// A resolver that knows whether a generated id names an item.
pub(crate) trait IdResolver {
    /// The identifier context that it knows.
    ghost known: { Self → IdContext };

    /// Returns whether the index is a number, a source id, or the generated id of an item.
    fn settles(&mut self, space: Space, index: &Index<'_>) -> bool
        ensures settled { result ≡ is_settled_index ((known self.old).number space) index.now }
        ensures stays { known self.new ≡ known self.old };
}

/// A search starts at the last item found, if the generations differ by at most this number.
const NEAR: u64 = 16;

/// The position from which the search for the next id of an index space starts.
#[derive(Clone, Copy)]
struct Found {
    /// The position after the item that was found last; at first before all items.
    place: Place,
    /// The generation of its id; at first 0.
    generation: u64,
    /// The ranges of fields with generated ids of the space, once they are known.
    stretches: Option<Stretches>,
}

impl Found {
    /// The start, before anything was found.
    const NOTHING: Found = Found {
        place: Place::START,
        generation: 0,
        stretches: None,
    };

    /// Returns whether an id was generated soon before or after the last one that was found.
    fn is_near(&self, id: &Id<'_>) -> bool {
        self.generation.abs_diff(id.generation()) <= NEAR
    }
}

/// The fields, whose items own ids.
///
/// The search for an id starts at the item that was found last in its index space, and continues on
/// both sides, if the two ids were generated soon after each other. Otherwise it starts at the
/// position that binary search returns. The start only affects the speed: a search that finds
/// nothing there reads all fields.
#[derive(Drop)]
pub(crate) struct IdOwners<'f, T> {
    fields: &'f [T],
    found: [Found; 8],
}

impl<'f, T: HasItems> IdOwners<'f, T> {
    /// Makes the owners of ids of these fields.
    pub(crate) fn new(fields: &'f [T]) -> Self
        ensures { result.fields.now ≡ fields.now }
    {
        IdOwners {
            fields,
            found: [Found::NOTHING; 8],
        }
    }

    /// Returns the position from which to search for an id.
    fn start(&mut self, space: Space, id: &Id<'_>) -> Place
        ensures { self.new.fields ≡ self.old.fields }
    {
        let found = &mut self.found[space.rank()];
        if found.is_near(id) {
            return found.place;
        }
        if found.stretches.is_none() {
            found.stretches = Some(Stretches::of(self.fields, space));
        }
        match &found.stretches {
            Some(stretches) => {
                halved_place(self.fields, stretches, space, id).unwrap_or(found.place)
            }
            None => found.place,
        }
    }

    /// Returns whether an item of the space has the id.
    fn finds(&mut self, space: Space, id: &Id<'_>) -> bool
        ensures borne { result ≡ is_borne (name_of id.now) (names_in space (flat_map T.items self.old.fields.now)) }
        ensures fields { self.new.fields ≡ self.old.fields }
    {
        let start = self.start(space, id);
        match nearest_bearer(self.fields, start, space, id) {
            Some(place) => {
                let found = &mut self.found[space.rank()];
                found.place = place;
                found.generation = id.generation();
                true
            }
            None => false,
        }
    }
}

impl<'f, T: HasItems> IdResolver for IdOwners<'f, T> {
    ghost known = { λ b. id_context (flat_map T.items b.fields.now) };

    fn settles(&mut self, space: Space, index: &Index<'_>) -> bool {
        match index {
            Index::Num(_, _) => true,
            Index::Id(id) => !id.is_gensym() || self.finds(space, id),
        }
    }
}

/// Returns whether the index is a number or a source id.
pub(crate) fn is_written(index: &Index<'_>) -> bool
    ensures { result ≡ is_written_index index.now }
{
    match index {
        Index::Num(_, _) => true,
        Index::Id(id) => !id.is_gensym(),
    }
}
