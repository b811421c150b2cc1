//! Checks before encoding: the first unsupported form, and whether there is an index of a data
//! segment.

ghost use Rattle.std.specs.Prelude.{◌≡◌, ◌||◌};
ghost use Rattle.std.specs.List.{list_any};
ghost use Rattle.wast_tree_nodes.specs.Sites.{in_module, checks_of};
ghost use Rattle.wast_tree_nodes.specs.Uncovered.{uncovered_in, uncovered_forms, head_of, first_of};
ghost use Rattle.wast_tree_visit.specs.Surveys.{is_of_data};

use crate::visits::{Visitor, visit_fields};
use wast_base::{Form, Id, Index, Space};
use wast_tree_nodes::ModuleField;

/// The result of [`scan_for_encoding`].
#[derive(Clone, Copy, Debug, PartialEq, Eq)]
pub struct EncodingScan {
    /// The first unsupported form, if there is one.
    pub uncovered: Option<Form>,
    /// Whether there is an index of a data segment.
    pub has_data_index: bool,
}

/// A visitor that finds the two parts of an [`EncodingScan`].
#[derive(Drop)]
struct Surveyor {
    uncovered: Option<Form>,
    has_data_index: bool,
}

impl Visitor for Surveyor {
    ghost told = { λ old a new. (new.uncovered ≡ first_of old.uncovered (uncovered_in a)) × (new.has_data_index ≡ (old.has_data_index || is_of_data a)) };

    fn index(&mut self, space: Space, _index: &Index<'_>) {
        self.has_data_index = self.has_data_index || space.is(Space::Data);
    }

    fn within(&mut self, _index: &Index<'_>) {}

    fn id(&mut self, _id: &Id<'_>) {}

    fn clause(&mut self, _number: u8, _holds: bool) {}

    fn covered(&mut self, form: Form, holds: bool) {
        if self.uncovered.is_none() && !holds {
            self.uncovered = Some(form);
        }
    }
}

/// Returns the first unsupported form in the fields, and whether they refer to a data segment.
///
/// It reads the fields once. Without an index of a data segment no function body needs a data count
/// section (binary format: data count section). [`uncovered`] lists the unsupported forms.
///
/// For example, `(func data.drop 0)` has no unsupported form, and `has_data_index` is true.
pub fn scan_for_encoding(fields: &[ModuleField<'_>]) -> EncodingScan
    ensures uncovered { result.uncovered ≡ head_of (uncovered_forms fields.now) }
    ensures data { result.has_data_index ≡ list_any is_of_data (checks_of (in_module fields.now)) }
{
    let mut surveyor = Surveyor {
        uncovered: None,
        has_data_index: false,
    };
    visit_fields(fields, &mut surveyor);
    EncodingScan {
        uncovered: surveyor.uncovered,
        has_data_index: surveyor.has_data_index,
    }
}

/// Returns the first form in the fields that the encoder does not support (E11), or `None`.
///
/// The unsupported forms are:
///
/// - continuations (stack switching)
/// - `shared`, except on memories
/// - an ordering on a memory argument, and a fence that acquires and releases
/// - atomic accesses of globals, tables, structs and arrays
/// - descriptors, exact types and exact functions
/// - groups of imports
/// - a memory argument of an array
/// - `dylink.0` with a target architecture
/// - instructions that are not in the opcode table, and `memory.discard`
///
/// Inline types count too, even if they are not encoded because the type use also has an index.
///
/// For example, `(func suspend 0)` gives `Some(Form::StackSwitching)`.
/// [`first_uncovered`](crate::first_uncovered) also returns a position.
pub fn uncovered(fields: &[ModuleField<'_>]) -> Option<Form>
    ensures { result ≡ head_of (uncovered_forms fields.now) }
{
    scan_for_encoding(fields).uncovered
}
