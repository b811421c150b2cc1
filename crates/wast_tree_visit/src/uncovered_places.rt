//! `first_uncovered`: the first unsupported form, with a position.

ghost use Rattle.std.specs.Prelude.{◌≡◌, List, map, flat_map, option_map};
ghost use Rattle.wast_tree_visit.specs.FirstUncovered.{uncovered_at, first_uncovered};
ghost use Rattle.wast_tree_visit.specs.IllFormed.{place_or_last, found_from, field_place};
ghost use Rattle.wast_tree_visit.specs.Tree.{Span};
ghost use Rattle.wast_tree_nodes.specs.Uncovered.{head_of, first_of, uncovered_forms};

use crate::first_failing::field_place;
use crate::visits::{Visit, Visitor};
use wast_base::{Form, Id, Index, Space, Span};
use wast_tree_nodes::ModuleField;

/// An unsupported form, with the closest position known.
#[derive(Clone, Copy, Debug, PartialEq, Eq)]
pub struct Uncovered {
    /// The form.
    pub form: Form,
    /// The closest position known: that of the last index or id before it in its field, or of the
    /// field if there is none.
    pub span: Span,
}

/// A visitor that keeps the first unsupported form, and the last position.
#[derive(Drop)]
struct Finder {
    span: Span,
    found: Option<Uncovered>,
}

impl Visitor for Finder {
    ghost told = { λ old a new. (new.span ≡ place_or_last old.span a) × (new.found ≡ first_of old.found (uncovered_at (place_or_last old.span a) a)) };

    fn index(&mut self, _space: Space, index: &Index<'_>) {
        self.span = index.span();
    }

    fn within(&mut self, index: &Index<'_>) {
        self.span = index.span();
    }

    fn id(&mut self, id: &Id<'_>) {
        self.span = id.span();
    }

    fn clause(&mut self, _number: u8, _holds: bool) {}

    fn covered(&mut self, form: Form, holds: bool) {
        if self.found.is_none() && !holds {
            self.found = Some(Uncovered {
                form,
                span: self.span,
            });
        }
    }
}

/// A part of the AST that has a position.
///
/// The search is generic in it, so that proofs need not compare the type of the whole AST with
/// itself.
trait Placed {
    /// Its position.
    ghost place: { Self → Span };

    /// Returns its position.
    fn place(&self) -> Span
        ensures { result ≡ place self.now };
}

impl Placed for ModuleField<'_> {
    ghost place = { field_place };

    fn place(&self) -> Span {
        field_place(self)
    }
}

/// Returns the first unsupported form in parts of the AST.
fn first_in<T: Visit + Placed>(parts: &[T]) -> Option<Uncovered>
    ensures { result ≡ head_of (flat_map (λ x. found_from uncovered_at (T.place x) (T.asks x)) parts.now) }
{
    let mut finder = Finder {
        span: Span { offset: 0 },
        found: None,
    };
    for part in parts {
        finder.span = part.place();
        part.visit(&mut finder);
    }
    finder.found
}

/// Returns the first unsupported form in the fields, with a position for messages, or `None`.
///
/// The form is that of [`uncovered`](crate::uncovered), which lists them, and so that of E11. E11
/// itself has no position.
///
/// For example, for `(func $f suspend $e)` it returns `StackSwitching` at the position of `$e`.
pub fn first_uncovered(fields: &[ModuleField<'_>]) -> Option<Uncovered>
    ensures first { result ≡ first_uncovered fields.now }
    ensures form { option_map (λ u. u.form) result ≡ head_of (uncovered_forms fields.now) }
{
    first_in(fields)
}
