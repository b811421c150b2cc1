//! The names in a list of things that may have one each.

ghost use Rattle.std.specs.Prelude.{◌≡◌, ◌≤◌, ◌+◌, nat_lt, ℕ, List, Option, length, IfOk};
ghost use Rattle.std.specs.List.{flat_map};
ghost use Rattle.wasm_out.specs.NameSectionBytes.{name_entry};
ghost use Rattle.wast_core_name_section.specs.GivenNames.{named_from};
ghost use Rattle.wast_core_name_section.specs.FoundNames.{saturated_count, item_seen, WritesItems};

use crate::name_maps::put_name;
use wasm_ops::{Refusal, Sink};

/// A part of the tree that may be an item with a name.
pub(crate) trait MayHaveName {
    /// The item with its name, or nothing if the part is not an item.
    ghost names: { Self → List (Option (List ℕ)) };

    /// Returns the name of the item, if the part is an item.
    fn item(&self) -> Option<Option<&str>>
        ensures { item_seen result ≡ names self.now };
}

/// Returns 1 if there is an item, and 0 otherwise.
#[inline(always)]
fn items_in(item: Option<Option<&str>>) -> u64
    ensures count { result ≡ length (item_seen item.entry) }
    ensures few { result ≤ 1 }
{
    match item {
        Some(_) => 1,
        None => 0,
    }
}

/// Returns 1 if an item has a name, and 0 otherwise.
#[inline(always)]
fn names_in(item: Option<Option<&str>>) -> u64
    ensures { result ≡ saturated_count (length (named_from 0 (item_seen item.entry))) }
{
    match item {
        Some(given) => u64::from(given.is_some()),
        None => 0,
    }
}

/// Returns whether anything in the list has a name. Stops at the first that has one.
pub(crate) fn any_named<T: MayHaveName>(parts: &[T]) -> bool
    ensures { result ≡ nat_lt 0 (length (named_from 0 (flat_map T.names parts.now))) }
{
    for part in parts {
        if names_in(part.item()) != 0 {
            return true;
        }
    }
    false
}

/// Returns the list from the first part that has a name on, and how many items are before it.
pub(crate) fn from_named<'b, T: MayHaveName>(parts: &'b [T]) -> (u64, &'b [T])
    ensures { (n : ℕ) → named_from (n + result.0) (flat_map T.names result.1.now) ≡ named_from n (flat_map T.names parts.now) }
{
    let mut before = 0u64;
    for i in 0..parts.len() {
        let item = parts[i].item();
        if names_in(item) != 0 {
            return (before, &parts[i..]);
        }
        before += items_in(item);
    }
    (before, &[])
}

/// Appends the names in a list, numbered from a position on, and returns how many there are. Fails
/// as [`crate::name_maps::NameItems::put`] does.
pub(crate) fn put_named<T: MayHaveName, S: Sink>(
    parts: &[T],
    first: u64,
    out: &mut S,
) -> Result<u64, Refusal>
    ensures names { WritesItems S.rules (λ x. (name_entry x).bytes) (λ x. (name_entry x).in_range) (flat_map T.names parts.now) first out.old out.new result }
    ensures count { IfOk result (λ n. n ≡ saturated_count (length (named_from 0 (flat_map T.names parts.now)))) }
{
    let start = out.size();
    let mut position = first;
    let mut count = 0u64;
    for part in parts {
        let item = part.item();
        let Some(given) = item else {
            continue;
        };
        match put_name(position, given, out) {
            Ok(next) => {
                position = next;
                count = count.saturating_add(names_in(item));
            }
            Err(refusal) => {
                out.cut(start);
                return Err(refusal);
            }
        }
    }
    Ok(count)
}
