//! The ranges of all kinds of fields, found in one walk.

ghost use Rattle.std.specs.Prelude.{◌≡◌, ◌<◌, false, [], ◌∷◌, ◌++◌, length, List, IsTrue};
ghost use Rattle.wast_tree_nodes.specs.declared.fields.ModuleField.{ModuleField};
ghost use Rattle.wast_tree_nodes.specs.Kinds.{is_of};
ghost use Rattle.wast_core_ranges.specs.FieldRanges.{none_pass, is_reach, reach_of, are_reaches};
ghost use Rattle.wast_tree_nodes.specs.declared.kinds.FieldKind.{FieldKind};
ghost use Rattle.wast_tree_nodes.specs.declared.kinds.FieldKind.TheVariants as kind;
ghost use Rattle.wast_tree_nodes.specs.declared.customs.CustomPlace.{CustomPlace};

use crate::stretches::FieldRange;
use wast_tree_nodes::{FieldKind, ModuleField};

/// For each kind of field, a range of the list that contains all fields of that kind.
///
/// # Example
///
///     let reaches = found(&mut fields);
///     discard_fields(fields);
///     let starts = reaches.of_kind(FieldKind::Start);
///     let exports = reaches.of_kind(FieldKind::Export);
///     let tags = reaches.of_kind(FieldKind::Tag);
#[derive(Clone, Copy)]
pub struct FieldRanges {
    /// By the ranks of the kinds.
    by_rank: [FieldRange; 38],
}

impl FieldRanges {
    /// Finds the ranges of all kinds in one walk over the fields. Does not allocate.
    pub fn of(fields: &[ModuleField]) -> FieldRanges
        ensures { IsTrue (are_reaches fields.now result) }
    {
        let mut reaches = FieldRanges {
            by_rank: [FieldRange { first: 0, end: 0 }; 38],
        };
        for i in 0..fields.len() {
            reaches.add(i, &fields[i]);
        }
        reaches
    }

    /// Extends the range of the field's kind to include the field at `place`.
    fn add(&mut self, place: usize, field: &ModuleField)
        requires { place < 18446744073709551615 }
        ensures { (k : FieldKind) (before : List ModuleField) → length before ≡ place → IsTrue (is_reach (is_of k) before (reach_of self.old k)) → IsTrue (is_reach (is_of k) (before ++ field.now ∷ []) (reach_of self.new k)) }
    {
        let rank = FieldKind::rank_of(field);
        self.by_rank[rank] = self.by_rank[rank].with(place);
    }

    /// Returns whether the list may contain a custom section. Does not allocate.
    pub fn has_customs(&self) -> bool
        ensures { result ≡ false → (fields : List ModuleField) (place : CustomPlace) → IsTrue (are_reaches fields self.now) → IsTrue (none_pass (is_of (kind.Custom place)) fields) }
    {
        for rank in 12..38 {
            if self.by_rank[rank].end != 0 {
                return true;
            }
        }
        false
    }

    /// Returns the range of a kind. Does not allocate.
    pub fn of_kind(&self, kind: FieldKind) -> FieldRange
        ensures { (fields : List ModuleField) → IsTrue (are_reaches fields self.now) → IsTrue (is_reach (is_of kind) fields result) }
    {
        self.by_rank[kind.rank()]
    }
}
