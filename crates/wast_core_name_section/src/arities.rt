//! Looks up how many parameters the types of a list of fields have.

ghost use Rattle.std.specs.Prelude.{◌≡◌, ◌<◌, ◌≤◌, ◌-◌, ◌^◌, List, [], length, take, drop, slice_get, slice_index, IfOk, IfErr};
ghost use Rattle.std.specs.List.{flat_map};
ghost use Rattle.wast_core_name_section.specs.Checkpoints.{AreCheckpoints};
ghost use Rattle.wast_core_name_section.specs.Tree.ty;
ghost use Rattle.wast_core_name_section.specs.WithinItems.{types_within, arity, arity_of};

use std::alloc::AllocError;
use std::slice;
use wast_tree_nodes::{InnerTypeKind, ModuleField, Type};

/// Returns how many parameters a function type has.
fn arity(kind: &InnerTypeKind) -> Option<u64>
    ensures { result ≡ arity kind.now }
{
    match kind {
        InnerTypeKind::Func(ty) => Some(ty.params.len() as u64),
        InnerTypeKind::Struct(_) | InnerTypeKind::Array(_) | InnerTypeKind::Cont(_) => None,
    }
}

/// Returns the types of a field.
fn types_within<'b, 'a>(field: &'b ModuleField<'a>) -> &'b [Type<'a>]
    ensures { result.now ≡ types_within field.now }
{
    match field {
        ModuleField::Ty(ty) => slice::from_ref(ty),
        ModuleField::Rec(rec) => rec.types.as_slice(),
        _ => &[],
    }
}

/// A list of fields in which types are looked up. It is a trait, because a proof would otherwise
/// compare the type of the whole list with itself at each call.
pub(crate) trait Arities {
    /// The types of these fields.
    ghost types: { Self → List ty.«Type» };

    /// Returns how many parameters the function type at an index has, if there is one.
    fn arity_of(&self, index: u32) -> Option<u64>
        ensures { result ≡ arity_of (slice_get (types self.now) index) };
}

/// A field whose types are looked up. It is a trait for the same reason as [`Arities`].
pub(crate) trait FieldTypes {
    /// The types of the field.
    ghost types: { Self → List ty.«Type» };

    /// Returns how many parameters the type at an index in the field has, if it is a function type.
    /// If the index is too large, it returns the number of types.
    fn arity_in(&self, index: usize) -> Result<Option<u64>, usize>
        ensures found { IfOk result (λ n. (index < length (types self.now)) × (n ≡ arity_of (slice_get (types self.now) index))) }
        ensures past { IfErr result (λ n. (n ≡ length (types self.now)) × (n ≤ index)) };
}

impl FieldTypes for ModuleField<'_> {
    ghost types = { types_within };

    fn arity_in(&self, index: usize) -> Result<Option<u64>, usize> {
        let types = types_within(self);
        if index < types.len() {
            Ok(arity(&types[index].def.kind))
        } else {
            Err(types.len())
        }
    }
}

/// Returns how many types a field has, at most the largest `usize`.
fn count_types<T: FieldTypes>(field: &T) -> usize
    ensures { result < 2 ^ 64 - 1 → result ≡ length (T.types field.now) }
{
    match field.arity_in(usize::MAX) {
        Ok(_) => usize::MAX,
        Err(count) => count,
    }
}

/// The positions of checkpoints in a list of fields, at equal distances.
///
/// For each checkpoint the number of types before it is stored elsewhere ([`Checkpoints`]). There
/// are no types before the first.
#[derive(Clone, Copy)]
pub(crate) struct Places {
    /// The first position.
    first: usize,
    /// The number of fields from one checkpoint to the next.
    every: usize,
    /// The number of checkpoints.
    count: usize,
    /// The number of types, or the largest `usize` if it is unknown.
    total: usize,
}

impl Places {
    /// Returns a single checkpoint at the first field, which is right for any list.
    pub(crate) fn none(room: &mut [u32]) -> Places
        requires { 0 < length room.old }
        ensures first { result.first ≡ 0 }
        ensures count { result.count ≡ 1 }
        ensures total { result.total ≡ 2 ^ 64 - 1 }
        ensures room { 0 < length room.new }
        ensures before { slice_index room.new 0 ≡ 0 }
    {
        room[0] = 0;
        Places {
            first: 0,
            every: 0,
            count: 1,
            total: usize::MAX,
        }
    }

    /// Returns the checkpoints of these fields, whose types are all between the two positions.
    ///
    /// One walk over these fields counts the types before each checkpoint. With more room the
    /// checkpoints are closer to each other.
    pub(crate) fn of<'b, T: FieldTypes>(
        fields: &'b [T],
        first: usize,
        end: usize,
        room: &'b mut [u32],
    ) -> Places
        requires inside { (first ≤ end) × (end ≤ length fields.now) }
        requires front { flat_map T.types (take first fields.now) ≡ [] }
        requires back { flat_map T.types (drop end fields.now) ≡ [] }
        requires room { 0 < length room.old }
        ensures { AreCheckpoints T.types fields.now result room.new }
    {
        let every = ((end - first) / room.len()).saturating_add(1);
        room[0] = 0;
        let mut count = 1;
        let mut next = first.saturating_add(every);
        let mut sum = 0usize;
        for i in first..end {
            if i == next && count < room.len() && sum <= u32::MAX as usize {
                room[count] = sum as u32;
                count += 1;
                next = next.saturating_add(every);
            }
            sum = sum.saturating_add(count_types(&fields[i]));
        }
        Places {
            first,
            every,
            count,
            total: sum,
        }
    }
}

/// Checkpoints, and how many types are before each of them.
#[derive(Clone, Copy)]
pub(crate) struct Checkpoints<'b> {
    /// The positions of the checkpoints.
    pub(crate) places: Places,
    /// The number of types before each checkpoint. Numbers after these have no meaning.
    pub(crate) before: &'b [u32],
}

/// Returns the last of the ascending counts that is at most `most`, and its index, by binary
/// search.
fn last(counts: &[u32], among: usize, most: usize) -> (usize, usize)
    requires some { 0 < among }
    requires within { among ≤ length counts.now }
    requires first { slice_index counts.now 0 ≡ 0 }
    ensures inside { result.0 < among }
    ensures there { result.1 ≡ slice_index counts.now result.0 }
    ensures below { result.1 ≤ most }
{
    let mut low = 0;
    let mut high = among;
    'halve: while high - low > 1 {
        let mid = low + (high - low) / 2;
        if counts[mid] as usize <= most {
            low = mid;
        } else {
            high = mid;
        }
    }
    (low, counts[low] as usize)
}

/// The types of some fields, which are looked up from checkpoints.
pub(crate) struct TypesOf<'b, T: FieldTypes> {
    fields: &'b [T],
    checkpoints: Checkpoints<'b>,
    ghost told: { AreCheckpoints T.types fields.now checkpoints.places checkpoints.before.now },
}

impl<T: FieldTypes> Clone for TypesOf<'_, T> {
    fn clone(&self) -> Result<Self, AllocError> {
        Ok(*self)
    }
}

impl<T: FieldTypes> Copy for TypesOf<'_, T> {}

impl<'b, T: FieldTypes> TypesOf<'b, T> {
    /// Pairs fields with their checkpoints.
    pub(crate) fn new(fields: &'b [T], checkpoints: Checkpoints<'b>) -> TypesOf<'b, T>
        requires { AreCheckpoints T.types fields.now checkpoints.places checkpoints.before.now }
        ensures { result.fields.now ≡ fields.now }
    {
        TypesOf {
            fields,
            checkpoints,
        }
    }
}

/// Returns how many parameters the function type at an index has, if there is one. Walks the fields
/// up to that type.
fn arity_from<T: FieldTypes>(fields: &[T], index: usize) -> Option<u64>
    ensures { result ≡ arity_of (slice_get (flat_map T.types fields.now) index) }
{
    let mut left = index;
    for field in fields {
        match field.arity_in(left) {
            Ok(arity) => return arity,
            Err(count) => left -= count,
        }
    }
    None
}

/// Looks up a type from the last checkpoint before it: a binary search among the checkpoints, then
/// one step for each field up to the type. Within a recursion group it takes one step.
impl<T: FieldTypes> Arities for TypesOf<'_, T> {
    ghost types = { λ t. flat_map T.types t.fields.now };

    fn arity_of(&self, index: u32) -> Option<u64> {
        let places = self.checkpoints.places;
        let index = index as usize;
        if index >= places.total {
            return None;
        }
        let (at, before) = last(self.checkpoints.before, places.count, index);
        let place = places.first + at * places.every;
        arity_from(&self.fields[place..], index - before)
    }
}
