//! The items of an import: one for each signature.

ghost use Rattle.std.specs.Prelude.{◌≡◌, ◌+◌, length, IfOk};
ghost use Rattle.std.specs.List.{flat_map};
ghost use Rattle.wast_tree_nodes.specs.Imports.{item_sigs};
ghost use Rattle.wast_core_name_section.specs.GivenNames.{named_from};
ghost use Rattle.wast_core_name_section.specs.FoundNames.{saturated_count, WritesItems};

use crate::name_maps::{CountItems, NameItems, count_each, put_each};
use std::slice;
use wasm_ops::{Refusal, Sink};
use wast_tree_nodes::{ImportItems, ItemSig};

/// Finds the items of a signature in a pair of a name and a signature.
#[derive(Clone, Copy)]
struct Named<W>(W);

impl<'a, W: NameItems<ItemSig<'a>>> NameItems<(&'a str, ItemSig<'a>)> for Named<W> {
    ghost Entry = { W.Entry };

    ghost items = { λ n p. W.items n.0 p.1 };

    ghost entry = { W.entry };

    ghost in_range = { W.in_range };

    fn put<S: Sink>(
        &self,
        part: &(&'a str, ItemSig<'a>),
        position: u64,
        out: &mut S,
    ) -> Result<u64, Refusal> {
        self.0.put(&part.1, position, out)
    }
}

impl<'a, W: CountItems<ItemSig<'a>>> CountItems<(&'a str, ItemSig<'a>)> for Named<W> {
    fn count(&self, part: &(&'a str, ItemSig<'a>)) -> u64 {
        self.0.count(&part.1)
    }
}

/// Finds the items of one shared signature in each value.
#[derive(Clone, Copy)]
struct Shared<'b, 'a, W> {
    way: W,
    sig: &'b ItemSig<'a>,
}

impl<'a, T, W: NameItems<ItemSig<'a>>> NameItems<T> for Shared<'_, 'a, W> {
    ghost Entry = { W.Entry };

    ghost items = { λ s _. W.items s.way s.sig.now };

    ghost entry = { W.entry };

    ghost in_range = { W.in_range };

    fn put<S: Sink>(&self, _part: &T, position: u64, out: &mut S) -> Result<u64, Refusal> {
        self.way.put(self.sig, position, out)
    }
}

impl<'a, T, W: CountItems<ItemSig<'a>>> CountItems<T> for Shared<'_, 'a, W> {
    fn count(&self, _part: &T) -> u64 {
        self.way.count(self.sig)
    }
}

/// Returns how many items of an import have an entry.
pub(crate) fn count_imported<'a, W: CountItems<ItemSig<'a>> + Copy>(
    way: W,
    items: &ImportItems<'a>,
) -> u64
    ensures { result ≡ saturated_count (length (named_from 0 (flat_map (W.items way) (item_sigs items.now)))) }
{
    match items {
        ImportItems::Single { sig, .. } => count_each(&way, slice::from_ref(sig)),
        ImportItems::Group1 { items, .. } => count_each(&Named(way), items.as_slice()),
        ImportItems::Group2 { sig, items, .. } => count_each(
            &Shared { way, sig },
            items.as_slice(),
        ),
    }
}

/// Appends the entries of the items of an import, and returns the position after the last.
pub(crate) fn put_imported<'a, W: NameItems<ItemSig<'a>> + Copy, S: Sink>(
    way: W,
    items: &ImportItems<'a>,
    position: u64,
    out: &mut S,
) -> Result<u64, Refusal>
    ensures written { WritesItems S.rules W.entry W.in_range (flat_map (W.items way) (item_sigs items.now)) position out.old out.new result }
    ensures next { IfOk result (λ p. p ≡ saturated_count (position + length (flat_map (W.items way) (item_sigs items.now)))) }
{
    match items {
        ImportItems::Single { sig, .. } => put_each(&way, slice::from_ref(sig), position, out),
        ImportItems::Group1 { items, .. } => {
            put_each(&Named(way), items.as_slice(), position, out)
        }
        ImportItems::Group2 { sig, items, .. } => {
            put_each(&Shared { way, sig }, items.as_slice(), position, out)
        }
    }
}
