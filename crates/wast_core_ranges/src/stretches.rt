//! A range of a list of fields.

ghost use Rattle.std.specs.Prelude.{◌≡◌, ◌<◌, ◌||◌, [], ◌∷◌, ◌++◌, length, Bool, List, IsTrue};
ghost use Rattle.wast_tree_nodes.specs.declared.fields.ModuleField.{ModuleField};
ghost use Rattle.wast_core_ranges.specs.FieldRanges.{is_inside, is_reach, fields_in};

use wast_tree_nodes::ModuleField;

/// A range of a list of fields, from `first` to before `end`. Both are 0 if the range is empty.
///
///     let later = FieldRange { first: 4, end: 5 };
///     assert!(rt; is(starts.union(later), 1, 5) && is(later.union(starts), 1, 5));
#[derive(Clone, Copy)]
pub struct FieldRange {
    /// The position of the first field.
    pub first: usize,
    /// The position after the last field.
    pub end: usize,
}

impl FieldRange {
    /// Extends the range to include the field at `place`, which comes after it.
    pub(crate) fn with(self, place: usize) -> FieldRange
        requires { place < 18446744073709551615 }
        ensures { (p : ModuleField → Bool) (before : List ModuleField) (field : ModuleField) → length before ≡ place → IsTrue (is_reach p before self) → IsTrue (is_reach p (before ++ field ∷ []) result) }
    {
        let first = if self.end == 0 { place } else { self.first };
        FieldRange {
            first,
            end: place + 1,
        }
    }

    /// Returns a range that contains both. That it is the smallest is tested, not proved.
    ///
    ///     assert!(rt; is(starts.union(exports), 0, 6));
    pub fn union(self, other: FieldRange) -> FieldRange
        ensures { (p q : ModuleField → Bool) (fields : List ModuleField) → IsTrue (is_reach p fields self) → IsTrue (is_reach q fields other) → IsTrue (is_reach (λ f. p f || q f) fields result) }
    {
        if self.end == 0 {
            return other;
        }
        if other.end == 0 {
            return self;
        }
        FieldRange {
            first: self.first.min(other.first),
            end: self.end.max(other.end),
        }
    }

    /// Returns the fields in the range, which must be inside the list.
    pub fn of<'b, 'a>(self, fields: &'b [ModuleField<'a>]) -> &'b [ModuleField<'a>]
        requires { IsTrue (is_inside fields.now self) }
        ensures { result.now ≡ fields_in self fields.now }
    {
        &fields[self.first..self.end]
    }
}
