//! The rules of well-formedness for single parts of a module.

ghost use Rattle.std.specs.Prelude.{◌≡◌};
ghost use Rattle.wast_base.specs.Blocks.{is_balanced};
ghost use Rattle.wast_tree_nodes.specs.Instrs.{block_effects};
ghost use Rattle.wast_tree_nodes.specs.Sites.{is_continuation, is_sequential};
ghost use Rattle.wast_tree_nodes.specs.Clauses.{is_page_exponent, is_hint_in_order, stand_from, is_func, is_funcref, holds_functions, is_segment_type_allowed};

use wast_tree_nodes::{
    AbstractHeapType, BranchHint, ElemKind, ElemPayload, HeapType, Instruction, Ordering, RefType,
};

/// Returns whether a page of 2 to this many bytes has a size below 2^64. `None` is 65,536 bytes.
pub(crate) fn is_page_exponent(exponent: Option<u32>) -> bool
    ensures { result ≡ is_page_exponent exponent }
{
    match exponent {
        None => true,
        Some(exponent) => exponent < 64,
    }
}

/// Returns whether a hint is on one of `count` instructions, from `first` on, with value 0 or 1.
fn stands(count: usize, first: usize, hint: &BranchHint) -> bool
    ensures { result ≡ is_hint_in_order count first hint.now }
{
    first <= hint.instr_index && hint.instr_index < count && hint.value < 2
}

/// Returns whether hints are on `count` instructions, in increasing order, with value 0 or 1.
pub(crate) fn hints_stand(count: usize, hints: &[BranchHint]) -> bool
    ensures { result ≡ stand_from count 0 hints.now }
{
    let mut first = 0usize;
    for hint in hints {
        if !stands(count, first, hint) {
            return false;
        }
        first = hint.instr_index + 1;
    }
    true
}

/// Returns whether it is `func`.
fn is_func(ty: AbstractHeapType) -> bool
    ensures { result ≡ is_func ty }
{
    match ty {
        AbstractHeapType::Func => true,
        AbstractHeapType::Extern
        | AbstractHeapType::Exn
        | AbstractHeapType::NoExn
        | AbstractHeapType::Any
        | AbstractHeapType::Eq
        | AbstractHeapType::Struct
        | AbstractHeapType::Array
        | AbstractHeapType::NoFunc
        | AbstractHeapType::NoExtern
        | AbstractHeapType::None
        | AbstractHeapType::I31
        | AbstractHeapType::Cont
        | AbstractHeapType::NoCont => false,
    }
}

/// Returns whether it is `funcref`.
fn is_funcref(ty: &RefType<'_>) -> bool
    ensures { result ≡ is_funcref ty.now }
{
    match ty.heap {
        HeapType::Abstract { shared, ty: heap } => ty.nullable && !shared && is_func(heap),
        HeapType::Concrete(_) | HeapType::Exact(_) => false,
    }
}

/// Returns whether the elements are functions, or expressions of type `funcref`.
fn holds_functions(payload: &ElemPayload<'_>) -> bool
    ensures { result ≡ holds_functions payload.now }
{
    match payload {
        ElemPayload::Indices(_) => true,
        ElemPayload::Exprs { ty, .. } => is_funcref(ty),
    }
}

/// Returns whether the binary format has a form for a segment of this kind with these elements.
pub(crate) fn suits(kind: &ElemKind<'_>, payload: &ElemPayload<'_>) -> bool
    ensures { result ≡ is_segment_type_allowed kind.now payload.now }
{
    match kind {
        ElemKind::Passive => true,
        ElemKind::Declared => true,
        ElemKind::Active { table, .. } => table.is_some() || holds_functions(payload),
    }
}

/// Returns whether the blocks are balanced: all are closed, and none is closed before it is opened.
pub(crate) fn is_balanced(instrs: &[Instruction<'_>]) -> bool
    ensures { result ≡ is_balanced (block_effects instrs.now) }
{
    let mut open: usize = 0;
    for instr in instrs {
        if instr.block_type().is_some() {
            open += 1;
        } else if instr.is_closer() {
            if open == 0 {
                return false;
            }
            open -= 1;
        }
    }
    open == 0
}

/// Returns whether a fence with this ordering is sequentially consistent, as one without is.
pub(crate) fn is_sequential(ordering: Option<Ordering>) -> bool
    ensures { result ≡ is_sequential ordering }
{
    match ordering {
        None | Some(Ordering::SeqCst) => true,
        Some(Ordering::AcqRel) => false,
    }
}

/// Returns whether it is a heap type of continuations.
pub(crate) fn is_continuation(ty: AbstractHeapType) -> bool
    ensures { result ≡ is_continuation ty }
{
    match ty {
        AbstractHeapType::Cont | AbstractHeapType::NoCont => true,
        _ => false,
    }
}
