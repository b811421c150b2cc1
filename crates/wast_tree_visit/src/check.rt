//! `well_formed` and `ill_formed`: whether fields are well formed, and the rule that fails.

ghost use Rattle.std.specs.Prelude.{◌≡◌, Bool, true, None, Some, is_none, flat_map};
ghost use Rattle.wast_tree_nodes.specs.Known.{id_context};
ghost use Rattle.wast_tree_nodes.specs.Sites.{ItemIndex};
ghost use Rattle.wast_tree_nodes.specs.WellFormed.{is_well_formed, unless_holds, failing_clauses_at, min_with, least_of, ill_formed};

use crate::bearers::HasItems;
use crate::settling::{IdOwners, IdResolver, is_written};
use crate::visits::{Visit, Visitor, visit_each};
use wast_base::{Form, Id, Index, Space};
use wast_tree_nodes::ModuleField;

/// Returns the lesser of two numbers, the first of which is optional.
fn lesser(least: Option<u8>, number: u8) -> u8
    ensures { result ≡ min_with least number }
{
    match least {
        None => number,
        Some(least) => least.min(number),
    }
}

/// A visitor that keeps the least number of a rule that fails.
#[derive(Drop)]
struct Least<S> {
    settler: S,
    clause: Option<u8>,
}

impl<S> Least<S> {
    /// Notes a rule that fails.
    fn note(&mut self, number: u8, holds: bool)
        ensures clause { self.new.clause ≡ least_of self.old.clause (unless_holds number holds) }
        ensures settler { self.new.settler ≡ self.old.settler }
    {
        if !holds {
            self.clause = Some(lesser(self.clause, number));
        }
    }

    /// Returns whether a failed rule with this number or a lower one is noted already.
    ///
    /// Noting the rule then changes nothing, so the caller need not check it.
    fn is_least(&self, number: u8) -> bool
        ensures { (holds : Bool) → result ≡ true → least_of self.now.clause (unless_holds number holds) ≡ self.now.clause }
    {
        match self.clause {
            None => false,
            Some(least) => least <= number,
        }
    }
}

impl<S: IdResolver> Least<S> {
    /// Notes rule 6 if a generated id names no item.
    ///
    /// It is a separate function, so that the common case of a source id stays fast.
    #[cold]
    #[inline(never)]
    fn look_for(&mut self, space: Space, index: &Index<'_>)
        ensures known { S.known self.new.settler ≡ S.known self.old.settler }
        ensures clause { self.new.clause ≡ least_of self.old.clause (failing_clauses_at (S.known self.old.settler) (ItemIndex space index.now)) }
    {
        let settled = self.is_least(6) || self.settler.settles(space, index);
        self.note(6, settled);
    }
}

impl<S: IdResolver> Visitor for Least<S> {
    ghost told = { λ old a new. (S.known new.settler ≡ S.known old.settler) × (new.clause ≡ least_of old.clause (failing_clauses_at (S.known old.settler) a)) };

    #[inline(always)]
    #[tactic(auto, using(crate::proofs::Failing::none_unless_generated))]
    fn index(&mut self, space: Space, index: &Index<'_>) {
        if !is_written(index) {
            self.look_for(space, index);
        }
    }

    fn within(&mut self, index: &Index<'_>) {
        self.note(6, is_written(index));
    }

    fn id(&mut self, _id: &Id<'_>) {}

    fn clause(&mut self, number: u8, holds: bool) {
        self.note(number, holds);
    }

    fn covered(&mut self, _form: Form, _holds: bool) {}
}

/// Returns the least number of a rule that fails in parts of the AST, with this resolver of ids.
fn least_failing<T: Visit, S: IdResolver + Drop>(parts: &[T], settler: S) -> Option<u8>
    ensures { result ≡ least_of None (flat_map (failing_clauses_at (S.known settler)) (flat_map T.asks parts.now)) }
{
    let mut least = Least {
        settler,
        clause: None,
    };
    visit_each(parts, &mut least);
    least.clause
}

/// Returns the same, with the items of the parts as the owners of ids.
fn least_failing_own<T: HasItems + Visit>(parts: &[T]) -> Option<u8>
    ensures { result ≡ least_of None (flat_map (failing_clauses_at (id_context (flat_map T.items parts.now))) (flat_map T.asks parts.now)) }
{
    least_failing(parts, IdOwners::new(parts))
}

/// Returns the least number of a rule of well-formedness that the fields break, or `None`.
///
/// Resolving and encoding require well-formed fields. The rules are:
///
/// 1. The alignment of each memory argument is a power of two.
/// 2. The branch hints of a function are on its instructions, in increasing order, with the value
///    0 or 1.
/// 3. The page size of a memory with inline data is less than 2^64.
/// 4. An active element segment without a table has functions, or expressions of type `funcref`.
///    The binary format has a form without a table only for these.
/// 5. The blocks of a constant expression are balanced.
/// 6. A generated id that is used as an index names an item of its index space. None is used for a
///    local, a label or a struct field.
///
/// For example, a load with the alignment 3 gives `Some(1)`, and `(module (func))` gives `None`.
/// [`first_ill_formed`](crate::first_ill_formed) also returns a position.
///
/// All else that can be wrong is an error of resolving or encoding, such as an unknown source id
/// (E4) or an unsupported construct (E11).
///
/// # Time
///
/// The time is linear in the size of the fields, plus a search for each generated id that is used
/// as an index. All searches take at most n log n steps for n fields, if generations rise in the
/// order of the items, as a counter generates them. Between two such items may be at most 63 other
/// fields, with up to 15 exceptions. Otherwise each search may read all fields.
pub fn ill_formed(fields: &[ModuleField<'_>]) -> Option<u8>
    ensures least { result ≡ ill_formed fields.now }
    ensures none { is_none result ≡ is_well_formed fields.now }
{
    least_failing_own(fields)
}

/// Returns whether the fields are well formed, as resolving and encoding require.
///
/// [`ill_formed`] lists the rules, and returns which one fails.
///
///     assert!(rt; wast_tree::well_formed(fields.as_slice()));
pub fn well_formed(fields: &[ModuleField<'_>]) -> bool
    ensures { result ≡ is_well_formed fields.now }
{
    ill_formed(fields).is_none()
}
