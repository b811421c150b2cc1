//! When an inline type matches the type at the index beside it.

ghost use Rattle.std.specs.Prelude.{◌≡◌, List, None, map, IsTrue, OnOk, IfErr};
ghost use Rattle.wast_base.specs.Ids.{is_number};
ghost use Rattle.wast_base.specs.Faults.{diagnostic_of};
ghost use Rattle.wast_tree_nodes.specs.Sites.{Check, in_signature};
ghost use Rattle.wast_expand_keys.specs.Signatures.{type_of_param, same_heap_by, same_ref_by, same_value_by, same_values_by};
ghost use Rattle.wast_resolve_names.specs.Tree.{Index, ValType};
ghost use Rattle.wast_resolve_rules.specs.Scopes.{Scope};
ghost use Rattle.wast_resolve_rules.specs.Matches.{same_type, signatures_match};
ghost use Rattle.wast_resolve_rules.specs.Demands.{Demand, first_unmet, ask_demands, match_demands, Answers};
ghost use Rattle.wast_base.specs.Outcomes.{Outcome};
ghost use Rattle.wast_tree_map.specs.Mapped.{Indices, mapped_signature};
ghost use Rattle.wast_resolve_rules.specs.Resolved.{numbered_at};
ghost use Rattle.wast_resolve_names.specs.LookUps.{are_settled, LooksTypesUp};
ghost use Rattle.wast_resolve_core_types.specs.CoreTypes.{CallsOn, blank};
ghost use Rattle.wast_resolve_names.specs.Resolvers.{known_of, scope_of};

use crate::resolver::{Resolver, check_match};
use wast_base::{Error, Id, Index, NameAnnotation};
use wast_expand_keys::FuncKey;
use wast_resolve_core_types::resolve_type_func;
use wast_tree_nodes::{FunctionType, HeapType, RefType, ValType};

/// Returns whether two heap types are equal.
fn same_heap<'a>(cx: &Resolver<'a>, a: &HeapType<'a>, b: &HeapType<'a>) -> bool
    ensures { result ≡ same_heap_by (same_type (known_of cx.now)) a.now b.now }
{
    match (a, b) {
        (HeapType::Abstract { shared: s, ty: a }, HeapType::Abstract { shared: t, ty: b }) => {
            s == t && a == b
        }
        (HeapType::Concrete(i), HeapType::Concrete(j)) => cx.same_type(i, j),
        (HeapType::Exact(i), HeapType::Exact(j)) => cx.same_type(i, j),
        (HeapType::Abstract { .. }, HeapType::Concrete(_) | HeapType::Exact(_)) => false,
        (HeapType::Concrete(_), HeapType::Abstract { .. } | HeapType::Exact(_)) => false,
        (HeapType::Exact(_), HeapType::Abstract { .. } | HeapType::Concrete(_)) => false,
    }
}

/// Returns whether two reference types are equal.
fn same_ref<'a>(cx: &Resolver<'a>, a: &RefType<'a>, b: &RefType<'a>) -> bool
    ensures { result ≡ same_ref_by (same_type (known_of cx.now)) a.now b.now }
{
    a.nullable == b.nullable && same_heap(cx, &a.heap, &b.heap)
}

/// Returns whether two value types are equal.
fn same_value<'a>(cx: &Resolver<'a>, a: &ValType<'a>, b: &ValType<'a>) -> bool
    ensures { result ≡ same_value_by (same_type (known_of cx.now)) a.now b.now }
{
    match (a, b) {
        (ValType::I32, ValType::I32) => true,
        (ValType::I64, ValType::I64) => true,
        (ValType::F32, ValType::F32) => true,
        (ValType::F64, ValType::F64) => true,
        (ValType::V128, ValType::V128) => true,
        (ValType::Ref(a), ValType::Ref(b)) => same_ref(cx, a, b),
        _ => false,
    }
}

/// An element with a value type: the type itself, or a parameter.
trait Typed<'a> {
    /// The value type.
    ghost type_in: { Self → ValType };

    /// Returns the value type.
    fn val_type(&self) -> ValType<'a>
        ensures { result ≡ type_in self.now };
}

impl<'a> Typed<'a> for ValType<'a> {
    ghost type_in = { λ v. v };

    fn val_type(&self) -> ValType<'a> {
        *self
    }
}

impl<'a> Typed<'a> for (Option<Id<'a>>, Option<NameAnnotation<'a>>, ValType<'a>) {
    ghost type_in = { type_of_param };

    fn val_type(&self) -> ValType<'a> {
        self.2
    }
}

/// Returns whether two lists have equal types, in order.
fn same_values<'a, T: Typed<'a>>(cx: &Resolver<'a>, here: &[T], there: &[ValType<'a>]) -> bool
    ensures { result ≡ same_values_by (same_type (known_of cx.now)) (map T.type_in here.now) there.now }
{
    if here.len() != there.len() {
        return false;
    }
    for i in 0..here.len() {
        if !same_value(cx, &here[i].val_type(), &there[i]) {
            return false;
        }
    }
    true
}

/// Returns whether an inline type has a signature, with indices compared by the type that they
/// name.
pub(crate) fn has_signature<'a>(cx: &Resolver<'a>, ty: &FunctionType<'a>, key: &FuncKey<'a>) -> bool
    ensures { result ≡ signatures_match (known_of cx.now) ty.now key.now }
{
    same_values(cx, ty.params.as_slice(), key.0.as_slice())
        && same_values(cx, ty.results.as_slice(), key.1.as_slice())
}

/// A type that a type use can have inline beside an index (text format: type uses).
///
/// # Example
///
///     let idx = Index::Num(number, at(3));
///     assert!(rt;
///         function.check_matches(&idx, &cx) == answer,
///         "type {number}"
///     );
pub trait TypeReference<'a> {
    /// The checks in the type.
    ghost asks: { Self → List Check };

    /// The type with each index changed.
    ghost changed: { Indices → Self → Self };

    /// The checks of the type beside an index.
    ghost matched: { Scope → Index → Self → List Demand };

    /// Checks that the type at an index, which is a number, has the same kind and signature. Does
    /// not allocate, and changes nothing.
    ///
    /// For example, `(param i32)` beside the index of `(type (func))` fails with E7.
    ///
    /// Indices are compared by the type that they name. An unknown id equals nothing.
    /// # Errors
    ///
    /// At the position of the index: E6 no type has the number; E5 the type is not a function type;
    /// E7 the signatures differ.
    fn check_matches(&mut self, idx: &Index<'a>, cx: &Resolver<'a>) -> Result<(), Error<'a>>
        requires { IsTrue (is_number idx.now) }
        ensures answer { Outcome ⊥ ⊥ (first_unmet (matched (scope_of cx.now) idx.now self.old)) result }
        ensures unchanged { self.new ≡ self.old };

    /// Replaces each id of a type in it by its index: those of the parameters, then those of the
    /// results. A generated id must be one that the resolver has. Does not allocate.
    ///
    ///     assert!(rt; names::TypeReference::resolve(&mut function, &cx) == Ok(()));
    ///
    /// # Errors
    ///
    /// E4 at the first id that is unknown. The ids before it have been replaced. It and those after
    /// it are unchanged.
    fn resolve(&mut self, cx: &Resolver<'a>) -> Result<(), Error<'a>>
        requires { IsTrue (are_settled (known_of cx.now) (asks self.old)) }
        ensures met { OnOk result (first_unmet (ask_demands (known_of cx.now) (asks self.old)) ≡ None) }
        ensures becomes { OnOk result (self.new ≡ changed (numbered_at (known_of cx.now)) self.old) }
        ensures refusal { IfErr result (λ e. Answers ⊥ ⊥ (diagnostic_of e) (first_unmet (ask_demands (known_of cx.now) (asks self.old)))) }
        ensures calls { CallsOn (LooksTypesUp (λ names. known_of names.now))
            cx.entry (asks self.old) cx.entry (asks self.new) result }
        ensures rest { changed blank self.new ≡ changed blank self.old };
}

impl<'a> TypeReference<'a> for FunctionType<'a> {
    ghost asks = { in_signature };

    ghost changed = { mapped_signature };

    ghost matched = { match_demands };

    fn check_matches(&mut self, idx: &Index<'a>, cx: &Resolver<'a>) -> Result<(), Error<'a>> {
        check_match(cx, idx, self)
    }

    fn resolve(&mut self, cx: &Resolver<'a>) -> Result<(), Error<'a>> {
        let mut resolver = cx;
        resolve_type_func(&mut resolver, self)?;
        Ok(())
    }
}
