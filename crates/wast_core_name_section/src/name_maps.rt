//! Name maps: entries of items, by their positions.

ghost use Rattle.std.specs.Prelude.{◌≡◌, ◌+◌, nat_lt, ℕ, List, [], ◌∷◌, Option, length, All, IfOk, IsTrue, true};
ghost use Rattle.std.specs.List.{flat_map};
ghost use Rattle.std.specs.Option.{option_to_list};
ghost use Rattle.wasm_ops.specs.Sinks.{Writes};
ghost use Rattle.wasm_out.specs.NameSectionBytes.{name_entry};
ghost use Rattle.wast_core_name_section.specs.GivenNames.{named_from};
ghost use Rattle.wast_core_name_section.specs.FoundNames.{saturated_count, text_seen, WritesItems, map_bytes, InRangeMap, entry_spelling, InRangeEntryOf};

use wasm_ops::{Encode, Name, Refusal, Sink, WithLength};

/// A way to find items in values of a type, each with or without an entry in a name map.
///
/// Positions and counts stop at the largest `u64`. From 2^32 on they are out of range anyway, so no
/// entry is written with such a position.
pub(crate) trait NameItems<T> {
    /// The content of an entry, without its position.
    ghost Entry: { Type 0 };

    /// The items of a value, with and without an entry.
    ghost items: { Self → T → List (Option Entry) };

    /// The bytes of an entry.
    ghost entry: { ℕ × Entry → List ℕ };

    /// Whether its numbers, counts and lengths are in range.
    ghost in_range: { ℕ × Entry → Type 0 };

    /// Appends the entries of the items of a value, numbered from a position on, and returns the
    /// next position. Fails as [`Encode::encode`] does: nothing is appended then.
    fn put<S: Sink>(&self, part: &T, position: u64, out: &mut S) -> Result<u64, Refusal>
        ensures written { WritesItems S.rules entry in_range (items self.now part.now) position out.old out.new result }
        ensures next { IfOk result (λ p. p ≡ saturated_count (position + length (items self.now part.now))) };
}

/// Such a way that can also count.
pub(crate) trait CountItems<T>: NameItems<T> {
    /// Returns how many items of a value have an entry.
    fn count(&self, part: &T) -> u64
        ensures { result ≡ saturated_count (length (named_from 0 (Self.items self.now part.now))) };
}

/// Returns how many items in a list have an entry.
pub(crate) fn count_each<T, W: CountItems<T>>(way: &W, parts: &[T]) -> u64
    ensures { result ≡ saturated_count (length (named_from 0 (flat_map (W.items way.now) parts.now))) }
{
    let mut sum = 0u64;
    for part in parts {
        sum = sum.saturating_add(way.count(part));
    }
    sum
}

/// Returns whether any item in a list has an entry. Stops at the first value with one.
pub(crate) fn any_of<'b, T, W: CountItems<T> + Copy>(way: W, parts: &'b [T]) -> bool
    ensures { result ≡ nat_lt 0 (length (named_from 0 (flat_map (W.items way) parts.now))) }
{
    for part in parts {
        if way.count(part) != 0 {
            return true;
        }
    }
    false
}

/// Appends the entries of the items in a list, and returns the next position.
pub(crate) fn put_each<T, W: NameItems<T>, S: Sink>(
    way: &W,
    parts: &[T],
    first: u64,
    out: &mut S,
) -> Result<u64, Refusal>
    ensures written { WritesItems S.rules W.entry W.in_range (flat_map (W.items way.now) parts.now) first out.old out.new result }
    ensures next { IfOk result (λ p. p ≡ saturated_count (first + length (flat_map (W.items way.now) parts.now))) }
{
    let start = out.size();
    let mut position = first;
    for part in parts {
        match way.put(part, position, out) {
            Ok(next) => position = next,
            Err(refusal) => {
                out.cut(start);
                return Err(refusal);
            }
        }
    }
    Ok(position)
}

/// Appends the entry of an item at its position, if it has one, and returns the next position.
pub(crate) fn put_entry<T: Encode + Copy, S: Sink>(
    position: u64,
    given: Option<T>,
    out: &mut S,
) -> Result<u64, Refusal>
    requires { All (λ t. IsTrue (T.is_ready t)) (option_to_list given) }
    ensures written { WritesItems S.rules (entry_spelling T.spelling) (InRangeEntryOf T.in_range)
        (given ∷ []) position out.old out.new result }
    ensures next { IfOk result (λ p. p ≡ saturated_count (position + 1)) }
{
    let Some(value) = given else {
        return Ok(position.saturating_add(1));
    };
    let Ok(index) = u32::try_from(position) else {
        return Err(Refusal::TooLarge);
    };
    (index, value).encode(out)?;
    Ok(position.saturating_add(1))
}

/// The entries of the items in a list, numbered from a position on.
#[derive(Clone, Copy)]
pub(crate) struct Entries<'b, T, W> {
    pub(crate) way: W,
    pub(crate) first: u64,
    pub(crate) parts: &'b [T],
}

impl<T, W: NameItems<T>> Encode for Entries<'_, T, W> {
    ghost spelling = { λ s. flat_map W.entry (named_from s.first (flat_map (W.items s.way) s.parts.now)) };

    ghost in_range = { λ s. All W.in_range (named_from s.first (flat_map (W.items s.way) s.parts.now)) };

    ghost is_ready = { λ _. true };

    fn encode<S: Sink>(&self, out: &mut S) -> Result<(), Refusal> {
        put_each(&self.way, self.parts, self.first, out)?;
        Ok(())
    }
}

/// Writes the map of the items in a list as a subsection with this id, if it has entries. `count`
/// is their number.
pub(crate) fn put_map<'b, T, W: NameItems<T> + Copy, S: Sink>(
    id: u8,
    count: u64,
    way: W,
    parts: &'b [T],
    out: &'b mut S,
) -> Result<(), Refusal>
    requires { count ≡ saturated_count (length (named_from 0 (flat_map (W.items way) parts.now))) }
    ensures { Writes S.rules (InRangeMap W.entry W.in_range (named_from 0 (flat_map (W.items way) parts.now)))
        out.old out.new (map_bytes id W.entry (named_from 0 (flat_map (W.items way) parts.now))) result }
{
    if count == 0 {
        return Ok(());
    }
    let Ok(count) = u32::try_from(count) else {
        return Err(Refusal::TooLarge);
    };
    let entries = Entries {
        way,
        first: 0,
        parts,
    };
    (id, WithLength((count, entries))).encode(out)
}

/// Writes such a map, and counts its entries first.
pub(crate) fn put_counted_map<'b, T, W: CountItems<T> + Copy, S: Sink>(
    id: u8,
    way: W,
    parts: &'b [T],
    out: &'b mut S,
) -> Result<(), Refusal>
    ensures { Writes S.rules (InRangeMap W.entry W.in_range (named_from 0 (flat_map (W.items way) parts.now)))
        out.old out.new (map_bytes id W.entry (named_from 0 (flat_map (W.items way) parts.now))) result }
{
    put_map(id, count_each(&way, parts), way, parts, out)
}

/// Appends the name of an item at its position, if it has one, and returns the next position.
pub(crate) fn put_name<S: Sink>(
    position: u64,
    given: Option<&str>,
    out: &mut S,
) -> Result<u64, Refusal>
    ensures written { WritesItems S.rules (λ x. (name_entry x).bytes) (λ x. (name_entry x).in_range)
        (text_seen given.entry ∷ []) position out.old out.new result }
    ensures next { IfOk result (λ p. p ≡ saturated_count (position + 1)) }
{
    match given {
        None => put_entry(position, None::<Name>, out),
        Some(text) => put_entry(position, Some(Name(text)), out),
    }
}
