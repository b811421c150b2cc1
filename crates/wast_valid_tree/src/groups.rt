//! Canonical indices: the first index of each type among the equal ones (validation: recursive
//! types).

use crate::contexts::{add_type, empty, pushed};
use std::alloc::Global;
use wast_base::Seq;
use wast_tree_nodes::{ModuleField, TypeDef};
use wast_valid::Refused;
use wast_valid_machine::{
    Context, Def, Field, FuncTy, Heap, Shape, Ty, does_heap_match, does_match,
};

/// The types of a module before they have canonical indices.
#[derive(Drop)]
struct Declared {
    /// The types, with the indices of the module.
    context: Context,
    /// For each type, whether it is final.
    finals: Seq<bool>,
    /// The number of types of each group.
    groups: Seq<usize>,
}

/// Returns the canonical index of each type, or `None` if a type is not covered.
///
/// Types of two groups are equal if the groups are equal, with references to themselves by their
/// positions. In `(type (func)) (type (func))` the canonical index of both is 0.
pub(crate) fn canonical_indices(
    alloc: Global,
    fields: &[ModuleField],
) -> Result<Option<Seq<u32>>, Refused> {
    let mut declared = Declared {
        context: empty(alloc),
        finals: Seq::new(alloc),
        groups: Seq::new(alloc),
    };
    for field in fields {
        if !declare_types(alloc, &mut declared, field)? {
            return Ok(None);
        }
    }
    let mut cs = Seq::new(alloc);
    let mut start = 0;
    for g in 0..declared.groups.len() {
        let size = size_at(&declared, g);
        let first = first_equal(&declared, cs.as_slice(), g, start);
        for k in 0..size {
            pushed(cs.push(numbered(first, k)))?;
        }
        start = sum(start, size);
    }
    Ok(Some(cs))
}

/// Adds the types of a field.
fn declare_types(
    alloc: Global,
    declared: &mut Declared,
    field: &ModuleField,
) -> Result<bool, Refused> {
    match field {
        ModuleField::Ty(ty) => {
            pushed(declared.groups.push(1))?;
            declare_type(alloc, declared, &ty.def)
        }
        ModuleField::Rec(rec) => {
            pushed(declared.groups.push(rec.types.len()))?;
            for ty in &rec.types {
                if !declare_type(alloc, declared, &ty.def)? {
                    return Ok(false);
                }
            }
            Ok(true)
        }
        _ => Ok(true),
    }
}

fn declare_type(alloc: Global, declared: &mut Declared, def: &TypeDef) -> Result<bool, Refused> {
    let is_final = match def.final_type {
        None => true,
        Some(is_final) => is_final,
    };
    pushed(declared.finals.push(is_final))?;
    add_type(alloc, &[], &mut declared.context, def)
}

/// Returns a sum, which never overflows: there are fewer types than bytes of memory.
fn sum(a: usize, b: usize) -> usize {
    a.saturating_add(b)
}

/// Returns the index of a type of a group.
fn numbered(start: usize, k: usize) -> u32 {
    match u32::try_from(sum(start, k)) {
        Ok(n) => n,
        Err(_) => u32::MAX,
    }
}

/// Returns the first index of the first group that equals group `g`, which begins at `start`.
fn first_equal(declared: &Declared, cs: &[u32], g: usize, start: usize) -> usize {
    let mut before = 0;
    for h in 0..declared.groups.len() {
        if h >= g {
            return start;
        }
        let size = size_at(declared, h);
        if size == size_at(declared, g) && is_same_group(declared, cs, start, before, size) {
            return before;
        }
        before = sum(before, size);
    }
    start
}

fn size_at(declared: &Declared, g: usize) -> usize {
    match declared.groups.as_slice().get(g) {
        None => 0,
        Some(size) => *size,
    }
}

/// Where two groups begin, and the canonical indices of the types before the later one.
#[derive(Clone, Copy)]
struct Pair<'c> {
    cs: &'c [u32],
    later: usize,
    earlier: usize,
}

/// Returns whether two groups of a size are equal.
fn is_same_group(
    declared: &Declared,
    cs: &[u32],
    later: usize,
    earlier: usize,
    size: usize,
) -> bool {
    let pair = Pair { cs, later, earlier };
    for k in 0..size {
        if !is_same_type(declared, &pair, sum(later, k), sum(earlier, k)) {
            return false;
        }
    }
    true
}

fn is_same_type(declared: &Declared, pair: &Pair, a: usize, b: usize) -> bool {
    let types = declared.context.types.as_slice();
    if !is_same_flag(declared, a, b) {
        return false;
    }
    match (types.get(a), types.get(b)) {
        (Some(a), Some(b)) => is_same_def(pair, a, b),
        _ => false,
    }
}

fn is_same_flag(declared: &Declared, a: usize, b: usize) -> bool {
    match (
        declared.finals.as_slice().get(a),
        declared.finals.as_slice().get(b),
    ) {
        (Some(a), Some(b)) => *a == *b,
        _ => false,
    }
}

fn is_same_def(pair: &Pair, a: &Def, b: &Def) -> bool {
    is_same_parent(pair, a.parent, b.parent) && is_same_shape(pair, &a.shape, &b.shape)
}

fn is_same_parent(pair: &Pair, a: Option<u32>, b: Option<u32>) -> bool {
    match (a, b) {
        (None, None) => true,
        (Some(i), Some(j)) => is_same_index(pair, i, j),
        _ => false,
    }
}

fn is_same_shape(pair: &Pair, a: &Shape, b: &Shape) -> bool {
    match (a, b) {
        (Shape::Func(f), Shape::Func(g)) => is_same_func(pair, f, g),
        (Shape::Record(fs), Shape::Record(gs)) => {
            are_same_fields(pair, fs.as_slice(), gs.as_slice())
        }
        (Shape::Array(f), Shape::Array(g)) => is_same_field(pair, *f, *g),
        _ => false,
    }
}

fn is_same_func(pair: &Pair, f: &FuncTy, g: &FuncTy) -> bool {
    are_same_tys(pair, f.params.as_slice(), g.params.as_slice())
        && are_same_tys(pair, f.results.as_slice(), g.results.as_slice())
}

fn are_same_tys(pair: &Pair, ts: &[Ty], us: &[Ty]) -> bool {
    if ts.len() != us.len() {
        return false;
    }
    for i in 0..ts.len() {
        if !is_same_ty(pair, ts[i], us[i]) {
            return false;
        }
    }
    true
}

fn are_same_fields(pair: &Pair, fs: &[Field], gs: &[Field]) -> bool {
    if fs.len() != gs.len() {
        return false;
    }
    for i in 0..fs.len() {
        if !is_same_field(pair, fs[i], gs[i]) {
            return false;
        }
    }
    true
}

fn is_same_field(pair: &Pair, f: Field, g: Field) -> bool {
    f.packed == g.packed && f.mutable == g.mutable && is_same_ty(pair, f.ty, g.ty)
}

fn is_same_ty(pair: &Pair, t: Ty, u: Ty) -> bool {
    match (t, u) {
        (Ty::Ref(r), Ty::Ref(s)) => r.nullable == s.nullable && is_same_heap(pair, r.heap, s.heap),
        (Ty::Ref(_), _) => false,
        (_, Ty::Ref(_)) => false,
        _ => does_match(&[], t, u),
    }
}

fn is_same_heap(pair: &Pair, a: Heap, b: Heap) -> bool {
    match (a, b) {
        (Heap::Defined(i), Heap::Defined(j)) => is_same_index(pair, i, j),
        (Heap::Defined(_), _) => false,
        (_, Heap::Defined(_)) => false,
        _ => does_heap_match(&[], a, b) && does_heap_match(&[], b, a),
    }
}

/// Returns whether two references are equal: both are at the same position of their groups, or are
/// to equal types before them.
fn is_same_index(pair: &Pair, i: u32, j: u32) -> bool {
    let (a, b) = (i as usize, j as usize);
    if a >= pair.later && b >= pair.earlier {
        return a - pair.later == b - pair.earlier;
    }
    if a >= pair.later || b >= pair.earlier {
        return false;
    }
    match (pair.cs.get(a), pair.cs.get(b)) {
        (Some(a), Some(b)) => *a == *b,
        _ => false,
    }
}
