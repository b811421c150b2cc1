//! Writes the name section of a module.

ghost use Rattle.std.specs.Prelude.{◌≡◌, ◌<◌, ◌++◌, nat_lt, length, Bool, true, All, IfOk, IsTrue, ◌∷◌, ◌+◌, ℕ, List, Option, map};
ghost use Rattle.std.specs.List.{flat_map};
ghost use Rattle.wasm_ops.specs.Sinks.{Writes};
ghost use Rattle.wasm_ops.specs.Spelling.{length_prefixed, InRangeSized};
ghost use Rattle.wasm_out.specs.NameSectionBytes.{NameSubsection, subsection_id, map_entry, name_entry, name_subsection};
ghost use Rattle.wasm_out.specs.Parts.{part, InRangePart};
ghost use Rattle.wast_core_ranges.specs.FieldRanges.{are_reaches};
ghost use Rattle.wast_core_ranges.specs.declared.finding.FieldRanges.{FieldRanges};
ghost use Rattle.wast_core_name_section.specs.Tree.ty;
ghost use Rattle.wast_core_name_section.specs.declared.names_payload.NameMap.{NameMap};
ghost use Rattle.wast_core_name_section.specs.Checkpoints.{AreCheckpoints};
ghost use Rattle.wast_core_name_section.specs.NamesPart.{names_part, payload_of, InRangePayload};
ghost use Rattle.wast_core_name_section.specs.GivenNames.{id_text, given_name, named_from};
ghost use Rattle.wast_core_name_section.specs.FoundNames.{text_seen, items_seen, saturated_count, WritesItems, map_bytes, InRangeMap};
ghost use Rattle.wast_core_name_section.specs.WithinItems.{types_within};
ghost use Rattle.wast_core_name_section.specs.ModuleNames.{type_name, sig_name, item_names_in, given_name_in, names_given, named_of, named_within, map_names, module_name, name_maps, name_subsections, InRangeNames};

use crate::arities::{Checkpoints, FieldTypes, Places, TypesOf};
use crate::imported::{count_imported, put_imported};
use crate::name_maps::{
    CountItems, NameItems, any_of, count_each, put_counted_map, put_each, put_map, put_name,
};
use crate::named_fields::{reach_of_types, with_items, with_lists};
use crate::within::{PutLists, Within, WithinItems, any_lists, count_lists};
use std::alloc::AllocError;
use wasm_ops::{Each, Encode, EncodeWith, Name, Refusal, Sink, WithLength};
use wast_base::{Id, NameAnnotation, Space};
use wast_core_ranges::{FieldKind, FieldRanges};
use wast_tree_nodes::{FieldItems, ItemSig, ModuleField, Type, profile_of};

fn id_text<'a>(id: &Option<Id<'a>>) -> Option<&'a str>
    ensures { text_seen result ≡ id_text id.now }
{
    match id {
        Some(id) if !id.is_gensym() => Some(id.name()),
        _ => None,
    }
}

/// Returns the name of an item: its `@name` annotation, or else its id (custom sections: name
/// section).
///
/// A generated id is not a name. For example, `(func $f (@name "g"))` has the name `g`, `(func $f)`
/// has the name `f`, and `(func)` has none.
pub fn given_name<'a>(
    annotation: &Option<NameAnnotation<'a>>,
    id: &Option<Id<'a>>,
) -> Option<&'a str>
    ensures { text_seen result ≡ given_name annotation.now id.now }
{
    match annotation {
        Some(annotation) => Some(annotation.name),
        None => id_text(id),
    }
}

/// Finds the items of a field.
#[inline(always)]
fn items_of<'b, 'a>(field: &'b ModuleField<'a>) -> FieldItems<'b, 'a>
    ensures { items_seen result ≡ item_names_in field.now }
{
    profile_of(field).items
}

/// Returns 1 if the item is in the index space and has a name, and 0 otherwise.
#[inline(always)]
fn count_item(space: Space, own: Space, annotation: &Option<NameAnnotation>, id: &Option<Id>) -> u64
    ensures { result ≡ length (named_from 0 (given_name_in space (own, given_name annotation.now id.now))) }
{
    if !space.is(own) {
        return 0;
    }
    u64::from(given_name(annotation, id).is_some())
}

/// Appends the name of an item if it is in the index space, and returns the next position.
#[inline(always)]
fn put_item<S: Sink>(
    space: Space,
    own: Space,
    annotation: &Option<NameAnnotation>,
    id: &Option<Id>,
    position: u64,
    out: &mut S,
) -> Result<u64, Refusal>
    ensures written { WritesItems S.rules (λ x. (name_entry x).bytes) (λ x. (name_entry x).in_range)
        (given_name_in space (own, given_name annotation.now id.now)) position out.old out.new result }
    ensures next { IfOk result (λ p. p ≡ saturated_count (position + length (given_name_in space (own, given_name annotation.now id.now)))) }
{
    if !space.is(own) {
        return Ok(position);
    }
    put_name(position, given_name(annotation, id), out)
}

impl<'a> NameItems<Type<'a>> for Space {
    ghost Entry = { List ℕ };

    ghost items = { λ s t. given_name_in s (type_name t) };

    ghost entry = { λ x. (name_entry x).bytes };

    ghost in_range = { λ x. (name_entry x).in_range };

    fn put<S: Sink>(&self, part: &Type<'a>, position: u64, out: &mut S) -> Result<u64, Refusal> {
        put_item(*self, Space::Ty, &part.name, &part.id, position, out)
    }
}

impl<'a> CountItems<Type<'a>> for Space {
    fn count(&self, part: &Type<'a>) -> u64 {
        count_item(*self, Space::Ty, &part.name, &part.id)
    }
}

impl<'a> NameItems<ItemSig<'a>> for Space {
    ghost Entry = { List ℕ };

    ghost items = { λ s sig. given_name_in s (sig_name sig) };

    ghost entry = { λ x. (name_entry x).bytes };

    ghost in_range = { λ x. (name_entry x).in_range };

    fn put<S: Sink>(&self, part: &ItemSig<'a>, position: u64, out: &mut S) -> Result<u64, Refusal> {
        put_item(
            *self,
            part.kind.space(),
            &part.name,
            &part.id,
            position,
            out,
        )
    }
}

impl<'a> CountItems<ItemSig<'a>> for Space {
    fn count(&self, part: &ItemSig<'a>) -> u64 {
        count_item(*self, part.kind.space(), &part.name, &part.id)
    }
}

impl<'a> NameItems<ModuleField<'a>> for Space {
    ghost Entry = { List ℕ };

    ghost items = { names_given };

    ghost entry = { λ x. (name_entry x).bytes };

    ghost in_range = { λ x. (name_entry x).in_range };

    fn put<S: Sink>(
        &self,
        part: &ModuleField<'a>,
        position: u64,
        out: &mut S,
    ) -> Result<u64, Refusal> {
        match items_of(part) {
            FieldItems::Nothing => Ok(position),
            FieldItems::Type(ty) => put_item(*self, Space::Ty, &ty.name, &ty.id, position, out),
            FieldItems::Types(types) => put_each(self, types, position, out),
            FieldItems::Imported(items) => put_imported(*self, items, position, out),
            FieldItems::Lone(item) => {
                put_item(*self, item.space, item.name, item.id, position, out)
            }
        }
    }
}

impl<'a> CountItems<ModuleField<'a>> for Space {
    fn count(&self, part: &ModuleField<'a>) -> u64 {
        match items_of(part) {
            FieldItems::Nothing => 0,
            FieldItems::Type(ty) => count_item(*self, Space::Ty, &ty.name, &ty.id),
            FieldItems::Types(types) => count_each(self, types),
            FieldItems::Imported(items) => count_imported(*self, items),
            FieldItems::Lone(item) => count_item(*self, item.space, item.name, item.id),
        }
    }
}

/// Returns the subsection id of an index space (custom sections: name section).
fn id_of(space: Space) -> u8
    ensures { result ≡ subsection_id (named_of space) }
{
    match space {
        Space::Func => 1,
        Space::Table => 5,
        Space::Memory => 6,
        Space::Global => 7,
        Space::Tag => 11,
        Space::Elem => 8,
        Space::Data => 9,
        Space::Ty => 4,
    }
}

/// Returns the subsection id of a kind of list inside items (custom sections: name section).
fn id_within(within: Within) -> u8
    ensures { result ≡ subsection_id (named_within within) }
{
    match within {
        Within::Locals => 2,
        Within::Labels => 3,
        Within::Fields => 10,
        Within::Parameters => 12,
        Within::TagParameters => 13,
    }
}

/// The largest number of fields for which 64 checkpoints are used. For more fields there are 1,024.
/// These take 4 KiB of the stack, so that encoding fits on a stack of 16 KiB.
const FEW: usize = 64;

/// A name map of the name section.
#[derive(Clone, Copy)]
pub(crate) enum NameMap {
    /// The names of the items of an index space.
    Items(Space),
    /// The names of things inside items, in a list for each item.
    Within(Within),
}

/// Appends the subsection of the lists of names inside items of these fields, if there are any.
/// `count` is the number of items that have one.
fn put_lists<'b, T: FieldTypes + PutLists, S: Sink>(
    fields: &'b [T],
    there: &'b [T],
    within: Within,
    count: u64,
    checkpoints: Checkpoints<'b>,
    out: &'b mut S,
) -> Result<(), Refusal>
    requires count { count ≡ saturated_count (length (named_from 0 (flat_map (T.lists (flat_map T.types fields.now) within) there.now))) }
    requires checkpoints { AreCheckpoints T.types fields.now checkpoints.places checkpoints.before.now }
    ensures { Writes S.rules (InRangeMap (λ x. (map_entry x).bytes) (λ x. (map_entry x).in_range) (named_from 0 (flat_map (T.lists (flat_map T.types fields.now) within) there.now)))
        out.old out.new (map_bytes (subsection_id (named_within within)) (λ x. (map_entry x).bytes) (named_from 0 (flat_map (T.lists (flat_map T.types fields.now) within) there.now))) result }
{
    let id = id_within(within);
    let arities = TypesOf::new(fields, checkpoints);
    let way = WithinItems { arities, within };
    put_map(id, count, way, there, out)
}

/// Appends the subsection of a name map of these fields, if it has entries. Walks the fields that
/// can have such names once to count them, and once more if there are any.
fn put_subsection<S: Sink>(
    fields: &[ModuleField],
    map: &NameMap,
    reaches: &FieldRanges,
    checkpoints: Checkpoints,
    out: &mut S,
) -> Result<(), Refusal>
    requires reaches { IsTrue (are_reaches fields.now reaches.now) }
    requires checkpoints { AreCheckpoints types_within fields.now checkpoints.places checkpoints.before.now }
    ensures { Writes S.rules (All (λ x. (name_subsection x).in_range) (map_names fields.now map.now))
        out.old out.new (flat_map (λ x. (name_subsection x).bytes) (map_names fields.now map.now)) result }
{
    match map {
        NameMap::Items(space) => {
            let there = with_items(*space, fields, reaches);
            put_counted_map(id_of(*space), *space, there, out)
        }
        NameMap::Within(within) => {
            let there = with_lists(*within, fields, reaches);
            let count = count_lists(fields, there, *within, checkpoints);
            put_lists(fields, there, *within, count, checkpoints, out)
        }
    }
}

/// A field whose names are written. It is a trait, because a proof would otherwise compare the type
/// of a list of fields with itself.
trait PutNames {
    /// The types of the field.
    ghost types: { Self → List ty.«Type» };

    /// Whether the ranges are those of these fields.
    ghost are_ranges: { List Self → FieldRanges → Bool };

    /// The subsection of a name map of these fields. Without entries there is none.
    ghost names: { List Self → NameMap → List NameSubsection };

    /// Appends that subsection, as [`put_subsection`] does.
    fn put_map_names<S: Sink>(
        fields: &[Self],
        map: &NameMap,
        reaches: &FieldRanges,
        checkpoints: Checkpoints,
        out: &mut S,
    ) -> Result<(), Refusal>
        requires reaches { IsTrue (are_ranges fields.now reaches.now) }
        requires checkpoints { AreCheckpoints types fields.now checkpoints.places checkpoints.before.now }
        ensures { Writes S.rules (All (λ x. (name_subsection x).in_range) (names fields.now map.now))
            out.old out.new (flat_map (λ x. (name_subsection x).bytes) (names fields.now map.now)) result };
}

impl PutNames for ModuleField<'_> {
    ghost types = { types_within };

    ghost are_ranges = { are_reaches };

    ghost names = { map_names };

    fn put_map_names<S: Sink>(
        fields: &[Self],
        map: &NameMap,
        reaches: &FieldRanges,
        checkpoints: Checkpoints,
        out: &mut S,
    ) -> Result<(), Refusal> {
        put_subsection(fields, map, reaches, checkpoints, out)
    }
}

/// Writes name maps of some fields, each as its subsection.
struct MapsOf<'b, T: PutNames> {
    fields: &'b [T],
    reaches: &'b FieldRanges,
    checkpoints: Checkpoints<'b>,
    ghost ranges: { IsTrue (T.are_ranges fields.now reaches.now) },
    ghost told: { AreCheckpoints T.types fields.now checkpoints.places checkpoints.before.now },
}

impl<T: PutNames> Clone for MapsOf<'_, T> {
    fn clone(&self) -> Result<Self, AllocError> {
        Ok(*self)
    }
}

impl<T: PutNames> Copy for MapsOf<'_, T> {}

impl<'b, T: PutNames> MapsOf<'b, T> {
    /// Pairs fields with their ranges and checkpoints.
    fn new(fields: &'b [T], reaches: &'b FieldRanges, checkpoints: Checkpoints<'b>) -> Self
        requires reaches { IsTrue (T.are_ranges fields.now reaches.now) }
        requires checkpoints { AreCheckpoints T.types fields.now checkpoints.places checkpoints.before.now }
        ensures { result.fields.now ≡ fields.now }
    {
        MapsOf {
            fields,
            reaches,
            checkpoints,
        }
    }
}

impl<T: PutNames> EncodeWith<NameMap> for MapsOf<'_, T> {
    ghost spelling = { λ w m. flat_map (λ x. (name_subsection x).bytes) (T.names w.fields.now m) };

    ghost in_range = { λ w m. All (λ x. (name_subsection x).in_range) (T.names w.fields.now m) };

    ghost is_ready = { λ _ _. true };

    fn spell<S: Sink>(&self, map: &NameMap, out: &mut S) -> Result<(), Refusal> {
        T::put_map_names(self.fields, map, self.reaches, self.checkpoints, out)
    }
}

/// Returns whether a name map of these fields has entries. Stops at the first field with one.
fn any_in_map(
    fields: &[ModuleField],
    map: &NameMap,
    reaches: &FieldRanges,
    checkpoints: Checkpoints,
) -> bool
    requires reaches { IsTrue (are_reaches fields.now reaches.now) }
    requires checkpoints { AreCheckpoints types_within fields.now checkpoints.places checkpoints.before.now }
    ensures { result ≡ nat_lt 0 (length (map_names fields.now map.now)) }
{
    match map {
        NameMap::Items(space) => {
            let there = with_items(*space, fields, reaches);
            any_of(*space, there)
        }
        NameMap::Within(within) => {
            let there = with_lists(*within, fields, reaches);
            any_lists(fields, there, *within, checkpoints)
        }
    }
}

/// Returns whether any of several name maps of these fields has entries.
fn any_in_maps(
    fields: &[ModuleField],
    maps: &[NameMap],
    reaches: &FieldRanges,
    checkpoints: Checkpoints,
) -> bool
    requires reaches { IsTrue (are_reaches fields.now reaches.now) }
    requires checkpoints { AreCheckpoints types_within fields.now checkpoints.places checkpoints.before.now }
    ensures { result ≡ nat_lt 0 (length (flat_map (map_names fields.now) maps.now)) }
{
    for i in 0..maps.len() {
        if any_in_map(fields, &maps[i], reaches, checkpoints) {
            return true;
        }
    }
    false
}

/// The name maps, in the order of their subsections.
pub(crate) const NAME_MAPS: [NameMap; 13] = [
    NameMap::Items(Space::Func),
    NameMap::Within(Within::Locals),
    NameMap::Within(Within::Labels),
    NameMap::Items(Space::Ty),
    NameMap::Items(Space::Table),
    NameMap::Items(Space::Memory),
    NameMap::Items(Space::Global),
    NameMap::Items(Space::Elem),
    NameMap::Items(Space::Data),
    NameMap::Within(Within::Fields),
    NameMap::Items(Space::Tag),
    NameMap::Within(Within::Parameters),
    NameMap::Within(Within::TagParameters),
];

/// The subsection of the name of the module, if it has one.
#[derive(Clone, Copy)]
struct ModuleName<'b>(Option<&'b str>);

impl Encode for ModuleName<'_> {
    ghost spelling = { λ n. flat_map (λ x. (name_subsection x).bytes) (module_name (text_seen n.0)) };

    ghost in_range = { λ n. All (λ x. (name_subsection x).in_range) (module_name (text_seen n.0)) };

    ghost is_ready = { λ _. true };

    fn encode<S: Sink>(&self, out: &mut S) -> Result<(), Refusal> {
        match self.0 {
            None => Ok(()),
            Some(text) => (0u8, WithLength(Name(text))).encode(out),
        }
    }
}

/// Returns whether the name section of a module with this name and these fields has subsections.
fn has_names(
    fields: &[ModuleField],
    name: Option<&str>,
    reaches: &FieldRanges,
    checkpoints: Checkpoints,
) -> bool
    requires reaches { IsTrue (are_reaches fields.now reaches.now) }
    requires checkpoints { AreCheckpoints types_within fields.now checkpoints.places checkpoints.before.now }
    ensures { result ≡ nat_lt 0 (length (name_subsections (text_seen name.entry) fields.now)) }
{
    match name {
        Some(_) => true,
        None => {
            let maps = NAME_MAPS;
            any_in_maps(fields, &maps, reaches, checkpoints)
        }
    }
}

/// Appends the name section of these fields: its id, its length, the name `name`, and the
/// subsections.
fn put_name_section<'b, T: PutNames, S: Sink>(
    fields: &'b [T],
    name: Option<&'b str>,
    reaches: &'b FieldRanges,
    checkpoints: Checkpoints<'b>,
    out: &'b mut S,
) -> Result<(), Refusal>
    requires reaches { IsTrue (T.are_ranges fields.now reaches.now) }
    requires checkpoints { AreCheckpoints T.types fields.now checkpoints.places checkpoints.before.now }
    ensures { Writes S.rules (InRangeSized InRangePayload payload_of (module_name (text_seen name.entry) ++ flat_map (T.names fields.now) name_maps))
        out.old out.new (0 ∷ length_prefixed payload_of (module_name (text_seen name.entry) ++ flat_map (T.names fields.now) name_maps)) result }
{
    let maps = NAME_MAPS;
    let way = MapsOf::new(fields, reaches, checkpoints);
    let payload = ((Name("name"), ModuleName(name)), Each(&maps, way));
    (0u8, WithLength(payload)).encode(out)
}

/// Returns the positions of the checkpoints of these fields. Walks only the fields that can have
/// types, and none if no type can be looked up.
fn places_of<'b>(fields: &'b [ModuleField], reaches: &'b FieldRanges, room: &'b mut [u32]) -> Places
    requires reaches { IsTrue (are_reaches fields.now reaches.now) }
    requires room { 0 < length room.old }
    ensures { AreCheckpoints types_within fields.now result room.new }
{
    if asked_fields(reaches) == 0 {
        return Places::none(room);
    }
    let reach = reach_of_types(reaches);
    Places::of(fields, reach.first, reach.end, room)
}

/// Returns over how many fields types may be looked up: none if the list has no function.
fn asked_fields(reaches: &FieldRanges) -> usize {
    if reaches.of_kind(FieldKind::Func).end == 0 {
        return 0;
    }
    let reach = reach_of_types(reaches);
    reach.end.saturating_sub(reach.first)
}

/// Appends the name section if there are names, with room for as many checkpoints as `room` holds.
fn put_within<S: Sink>(
    fields: &[ModuleField],
    name: Option<&str>,
    reaches: &FieldRanges,
    room: &mut [u32],
    out: &mut S,
) -> Result<(), Refusal>
    requires reaches { IsTrue (are_reaches fields.now reaches.now) }
    requires room { 0 < length room.old }
    ensures { Writes S.rules (All InRangePart (names_part (name_subsections (text_seen name.entry) fields.now))
        × InRangeNames (text_seen name.entry) fields.now)
        out.old out.new (flat_map part (names_part (name_subsections (text_seen name.entry) fields.now))) result }
{
    let places = places_of(&*fields, &*reaches, room);
    let checkpoints = Checkpoints {
        places,
        before: &*room,
    };
    if !has_names(fields, name, reaches, checkpoints) {
        return Ok(());
    }
    put_name_section(fields, name, reaches, checkpoints, out)
}

/// Appends the name section of a resolved module, if it has any names (custom sections: name
/// section).
///
/// For `(module (func $f))` the bytes are `00 0b 04 6e 61 6d 65 01 04 01 00 01 66`. For `(module
/// (func))` nothing is appended, because there is no name.
///
/// Pass the ranges that [`FieldRanges::of`] returns for these fields. Fails as [`Encode::encode`]
/// does.
///
/// Only fields that can have names are walked: for each name map once to count its entries, and
/// once more if it has any. Nothing is measured in advance, if the sink can overwrite a number
/// ([`Sink::set_number`]). Only the sink allocates. A list of checkpoints takes up to 4 KiB of the
/// stack.
pub fn put_names<S: Sink>(
    fields: &[ModuleField],
    name: Option<&str>,
    reaches: &FieldRanges,
    out: &mut S,
) -> Result<(), Refusal>
    requires reaches { IsTrue (are_reaches fields.now reaches.now) }
    ensures { Writes S.rules (All InRangePart (names_part (name_subsections (text_seen name.entry) fields.now))
        × InRangeNames (text_seen name.entry) fields.now)
        out.old out.new (flat_map part (names_part (name_subsections (text_seen name.entry) fields.now))) result }
{
    let asked = asked_fields(reaches);
    if asked <= FEW {
        let mut room = [0u32; 64];
        return put_within(fields, name, reaches, &mut room, out);
    }
    let mut room = [0u32; 1024];
    put_within(fields, name, reaches, &mut room, out)
}
