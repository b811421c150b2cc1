//! `first_ill_formed`: the first rule of well-formedness that fails, with a position.

ghost use Rattle.std.specs.Prelude.{◌≡◌, List, Some, None, is_none, map, flat_map};
ghost use Rattle.wast_base.specs.Faults.{clause_text};
ghost use Rattle.wast_tree_visit.specs.IllFormed.{place_or_last, failing_at, failing_from, field_place, first_ill_formed};
ghost use Rattle.wast_tree_nodes.specs.Known.{id_context};
ghost use Rattle.wast_tree_nodes.specs.Sites.{Check, in_field, checks_of};
ghost use Rattle.wast_tree_visit.specs.Tree.{Span};
ghost use Rattle.wast_tree_nodes.specs.Uncovered.{head_of, first_of};
ghost use Rattle.wast_tree_nodes.specs.WellFormed.{is_well_formed, unless_holds};

use crate::bearers::HasItems;
use crate::settling::{IdOwners, IdResolver, is_written};
use crate::visits::{Visit, Visitor};
use std::fmt;
use wast_base::{Form, Id, Index, Space, Span, clause_text};
use wast_tree_nodes::{ModuleField, profile_of};

/// A rule of well-formedness that fails, with the closest position known.
///
/// `{}` prints the rule. For example, rule 1 is printed as `alignment must be a power of two`.
#[derive(Clone, Copy, Debug, PartialEq, Eq)]
pub struct IllFormed {
    /// The number of the rule, from 1 to 6, as [`ill_formed`](crate::ill_formed) lists them.
    pub clause: u8,
    /// The closest position known. For rule 6 it is that of the index. Otherwise it is that of the
    /// last index or id before the mistake in its field, or of the field if there is none.
    pub span: Span,
}

/// Prints what is wrong, without the position.
impl fmt::Display for IllFormed {
    ghost output = { λ i. Some (clause_text i.clause) };

    fn fmt<W: fmt::Write>(&self, f: &mut fmt::Formatter<W>) -> fmt::Result {
        let text = clause_text(self.clause);
        write!(f, "{text}")
    }
}

/// Returns the position of a field.
pub(crate) fn field_place(field: &ModuleField<'_>) -> Span
    ensures { result ≡ field_place field.now }
{
    profile_of(field).span
}

/// A visitor that keeps the first rule that fails, and the last position.
#[derive(Drop)]
struct First<S> {
    settler: S,
    span: Span,
    found: Option<IllFormed>,
}

impl<S> First<S> {
    /// Notes a rule that fails, if none is noted yet.
    fn note(&mut self, clause: u8, holds: bool)
        ensures { self.new ≡ record self.old { found = first_of self.old.found (map (λ n. record { clause = n; span = self.old.span }) (unless_holds clause holds)) } }
    {
        if self.found.is_none() && !holds {
            self.found = Some(IllFormed {
                clause,
                span: self.span,
            });
        }
    }
}

impl<S: IdResolver> Visitor for First<S> {
    ghost told = { λ old a new. (S.known new.settler ≡ S.known old.settler) × (new.span ≡ place_or_last old.span a) × (new.found ≡ first_of old.found (failing_at (S.known old.settler) (place_or_last old.span a) a)) };

    fn index(&mut self, space: Space, index: &Index<'_>) {
        self.span = index.span();
        let settled = self.found.is_some() || self.settler.settles(space, index);
        self.note(6, settled);
    }

    fn within(&mut self, index: &Index<'_>) {
        self.span = index.span();
        self.note(6, is_written(index));
    }

    fn id(&mut self, id: &Id<'_>) {
        self.span = id.span();
    }

    fn clause(&mut self, number: u8, holds: bool) {
        self.note(number, holds);
    }

    fn covered(&mut self, _form: Form, _holds: bool) {}
}

/// A field that is searched.
///
/// The search is generic in it, so that proofs need not compare the type of the whole AST with
/// itself.
trait Searchable {
    /// Its position.
    ghost place: { Self → Span };

    /// Its checks.
    ghost asks: { Self → List Check };

    /// Searches it for the first rule that fails.
    fn look<S: IdResolver>(&self, first: &mut First<S>)
        ensures known { S.known first.new.settler ≡ S.known first.old.settler }
        ensures found { first.new.found ≡ first_of first.old.found (failing_from (S.known first.old.settler) (place self.now) (asks self.now)) };
}

impl Searchable for ModuleField<'_> {
    ghost place = { field_place };

    ghost asks = { λ f. checks_of (in_field f) };

    fn look<S: IdResolver>(&self, first: &mut First<S>) {
        first.span = field_place(self);
        self.visit(first);
    }
}

/// Returns the first rule that fails in parts of the AST, with this resolver of ids.
fn first_failing<T: Searchable, S: IdResolver + Drop>(parts: &[T], settler: S) -> Option<IllFormed>
    ensures { result ≡ head_of (flat_map (λ x. failing_from (S.known settler) (T.place x) (T.asks x)) parts.now) }
{
    let mut first = First {
        settler,
        span: Span { offset: 0 },
        found: None,
    };
    for part in parts {
        part.look(&mut first);
    }
    first.found
}

/// Returns the same, with the items of the parts as the owners of ids.
fn first_failing_own<T: HasItems + Searchable>(parts: &[T]) -> Option<IllFormed>
    ensures { result ≡ head_of (flat_map (λ x. failing_from (id_context (flat_map T.items parts.now)) (T.place x) (T.asks x)) parts.now) }
{
    first_failing(parts, IdOwners::new(parts))
}

/// Returns the first rule of well-formedness that fails in the fields, with a position, or `None`.
///
/// Use it for messages. [`ill_formed`](crate::ill_formed) lists the rules, and returns the least
/// number instead of the first failure. It takes as long.
///
/// For example, for `(func i32.load)` with the alignment 3, it returns rule 1 at the position of
/// the memory's index.
///
/// The order is field by field, and within a field mostly that of the source. Exceptions:
/// `table.init` and `memory.init` have the segment first, and `memory.copy` the memory that is
/// read. A branch on a cast has its target type first, element expressions come before their type,
/// and `descriptor` before `describes`. The rules for hints and for blocks come after all
/// instructions, and that for a segment's type after the segment.
pub fn first_ill_formed(fields: &[ModuleField<'_>]) -> Option<IllFormed>
    ensures first { result ≡ first_ill_formed fields.now }
    ensures none { is_none result ≡ is_well_formed fields.now }
{
    first_failing_own(fields)
}
