//! Subtyping.

ghost use Rattle.std.specs.Prelude.{◌≡◌, length, Some, slice_get};
ghost use Rattle.wast_valid_machine.specs.Types.{abstract_of, above, abstract_matches, bottom_of, climbs, climbs_twice, extends, heap_matches, is_numeric, has_default, matches, number_of, parent_of, ref_matches, reference_of, same_abstract};

use crate::types::{Def, Heap, RefTy, Shape, Ty};

/// Returns whether a value type matches another.
#[tactic(auto, unfolding(crate::specs::Types::matches))]
pub fn does_match(types: &[Def], a: Ty, b: Ty) -> bool
    ensures { result ≡ matches types.now a b }
{
    match a {
        Ty::Unknown => true,
        Ty::I32 => match b {
            Ty::I32 => true,
            _ => false,
        },
        Ty::I64 => match b {
            Ty::I64 => true,
            _ => false,
        },
        Ty::F32 => match b {
            Ty::F32 => true,
            _ => false,
        },
        Ty::F64 => match b {
            Ty::F64 => true,
            _ => false,
        },
        Ty::V128 => match b {
            Ty::V128 => true,
            _ => false,
        },
        Ty::Ref(r) => match b {
            Ty::Ref(s) => does_ref_match(types, r, s),
            _ => false,
        },
    }
}

/// Returns whether a reference type matches another.
pub fn does_ref_match(types: &[Def], a: RefTy, b: RefTy) -> bool
    ensures { result ≡ ref_matches types.now a b }
{
    (!a.nullable || b.nullable) && does_heap_match(types, a.heap, b.heap)
}

/// Returns whether a heap type matches another.
pub fn does_heap_match(types: &[Def], a: Heap, b: Heap) -> bool
    ensures { result ≡ heap_matches types.now a b }
{
    match a {
        Heap::Defined(i) => match b {
            Heap::Defined(j) => does_extend(types, i, j),
            other => does_abstract_match(abstract_at(types, i), other),
        },
        other => match b {
            Heap::Defined(j) => {
                is_same(other, least(abstract_at(types, j))) || is_same(other, Heap::Bottom)
            }
            wanted => does_abstract_match(other, wanted),
        },
    }
}

/// Returns whether two abstract heap types are the same.
fn is_same(a: Heap, b: Heap) -> bool
    ensures { result ≡ same_abstract a b }
{
    number(a) == number(b)
}

/// Returns the number of an abstract heap type.
fn number(a: Heap) -> u32
    ensures { result ≡ number_of a }
{
    match a {
        Heap::Any => 0,
        Heap::Eqs => 1,
        Heap::I31 => 2,
        Heap::Structs => 3,
        Heap::Arrays => 4,
        Heap::NoAny => 5,
        Heap::Funcs => 6,
        Heap::NoFunc => 7,
        Heap::Externs => 8,
        Heap::NoExtern => 9,
        Heap::Exns => 10,
        Heap::NoExn => 11,
        Heap::Bottom => 12,
        Heap::Defined(_) => 13,
    }
}

/// Returns the least type of a hierarchy.
pub fn least(a: Heap) -> Heap
    ensures { result ≡ bottom_of a }
{
    match a {
        Heap::Any | Heap::Eqs | Heap::I31 | Heap::Structs | Heap::Arrays | Heap::NoAny =>
            Heap::NoAny,
        Heap::Funcs | Heap::NoFunc => Heap::NoFunc,
        Heap::Externs | Heap::NoExtern => Heap::NoExtern,
        Heap::Exns | Heap::NoExn => Heap::NoExn,
        Heap::Bottom | Heap::Defined(_) => Heap::Bottom,
    }
}

/// Returns the abstract heap type directly above.
fn next_above(a: Heap) -> Option<Heap>
    ensures { result ≡ above a }
{
    match a {
        Heap::Eqs => Some(Heap::Any),
        Heap::I31 | Heap::Structs | Heap::Arrays => Some(Heap::Eqs),
        _ => None,
    }
}

/// Returns whether an abstract heap type matches another.
fn does_abstract_match(a: Heap, b: Heap) -> bool
    ensures { result ≡ abstract_matches a b }
{
    is_same(a, b)
        || does_climb_twice(next_above(a), b)
        || is_same(a, least(b))
        || is_same(a, Heap::Bottom)
}

fn does_climb_twice(a: Option<Heap>, b: Heap) -> bool
    ensures { result ≡ climbs_twice a b }
{
    match a {
        None => false,
        Some(h) => is_same(h, b) || does_climb(next_above(h), b),
    }
}

fn does_climb(a: Option<Heap>, b: Heap) -> bool
    ensures { result ≡ climbs a b }
{
    match a {
        None => false,
        Some(h) => is_same(h, b),
    }
}

/// Returns the abstract heap type that a defined type is directly below.
pub fn abstract_at(types: &[Def], i: u32) -> Heap
    ensures { result ≡ abstract_of (slice_get types.now i) }
{
    match types.get(i as usize) {
        None => Heap::Bottom,
        Some(def) => match &def.shape {
            Shape::Func(_) => Heap::Funcs,
            Shape::Record(_) => Heap::Structs,
            Shape::Array(_) => Heap::Arrays,
        },
    }
}

/// Returns the declared supertype of a type.
fn parent_at(types: &[Def], i: u32) -> Option<u32>
    ensures { result ≡ parent_of (slice_get types.now i) }
{
    match types.get(i as usize) {
        None => None,
        Some(def) => def.parent,
    }
}

/// Returns whether a defined type extends another.
fn does_extend(types: &[Def], i: u32, j: u32) -> bool
    ensures { result ≡ extends types.now (length types.now) (Some i) j }
{
    let mut at = i;
    for steps in 0..types.len() {
        if at == j {
            return true;
        }
        match parent_at(types, at) {
            None => return false,
            Some(parent) => at = parent,
        }
    }
    at == j
}

/// Returns whether a type is a number or a vector, or unknown.
#[tactic(auto, unfolding(crate::specs::Types::is_numeric))]
pub fn is_plain(t: Ty) -> bool
    ensures { result ≡ is_numeric t }
{
    match t {
        Ty::Ref(_) => false,
        _ => true,
    }
}

/// Returns whether values of the type have a default.
#[tactic(auto, unfolding(crate::specs::Types::has_default))]
pub fn is_defaultable(t: Ty) -> bool
    ensures { result ≡ has_default t }
{
    match t {
        Ty::Ref(r) => r.nullable,
        _ => true,
    }
}

/// Returns the reference that a value type is.
#[tactic(auto, unfolding(crate::specs::Types::reference_of))]
pub fn as_reference(t: Ty) -> Option<RefTy>
    ensures { result ≡ reference_of t }
{
    match t {
        Ty::Ref(r) => Some(r),
        Ty::Unknown => Some(RefTy {
            nullable: false,
            heap: Heap::Bottom,
        }),
        _ => None,
    }
}
