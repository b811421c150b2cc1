//! Constructors for the reference types that have a keyword, such as `anyref`.

ghost use Rattle.std.specs.Prelude.{◌≡◌, true, false};
ghost use Rattle.wast_tree_nodes.specs.Tree.heap;
ghost use Rattle.wast_tree_nodes.specs.Tree.abstract;

use crate::types::{AbstractHeapType, RefType};

/// A constructor for each keyword (text format: reference types). These types are nullable, and
/// none is shared.
impl<'a> RefType<'a> {
    /// `funcref`
    pub fn func() -> RefType<'a>
        ensures { result ≡ record { nullable = true; heap = heap.Abstract false abstract.Func } }
    {
        RefType::nullable_of(AbstractHeapType::Func)
    }

    /// `externref`
    pub fn extern_() -> RefType<'a>
        ensures { result ≡ record { nullable = true; heap = heap.Abstract false abstract.Extern } }
    {
        RefType::nullable_of(AbstractHeapType::Extern)
    }

    /// `anyref`
    pub fn any() -> RefType<'a>
        ensures { result ≡ record { nullable = true; heap = heap.Abstract false abstract.Any } }
    {
        RefType::nullable_of(AbstractHeapType::Any)
    }

    /// `eqref`
    pub fn eq() -> RefType<'a>
        ensures { result ≡ record { nullable = true; heap = heap.Abstract false abstract.Eq } }
    {
        RefType::nullable_of(AbstractHeapType::Eq)
    }

    /// `structref`
    pub fn struct_() -> RefType<'a>
        ensures { result ≡ record { nullable = true; heap = heap.Abstract false abstract.Struct } }
    {
        RefType::nullable_of(AbstractHeapType::Struct)
    }

    /// `arrayref`
    pub fn array() -> RefType<'a>
        ensures { result ≡ record { nullable = true; heap = heap.Abstract false abstract.Array } }
    {
        RefType::nullable_of(AbstractHeapType::Array)
    }

    /// `i31ref`
    pub fn i31() -> RefType<'a>
        ensures { result ≡ record { nullable = true; heap = heap.Abstract false abstract.I31 } }
    {
        RefType::nullable_of(AbstractHeapType::I31)
    }

    /// `exnref`
    pub fn exn() -> RefType<'a>
        ensures { result ≡ record { nullable = true; heap = heap.Abstract false abstract.Exn } }
    {
        RefType::nullable_of(AbstractHeapType::Exn)
    }

    /// `nullref`
    pub fn none() -> RefType<'a>
        ensures { result ≡ record { nullable = true; heap = heap.Abstract false abstract.None } }
    {
        RefType::nullable_of(AbstractHeapType::None)
    }

    /// `nullfuncref`
    pub fn nofunc() -> RefType<'a>
        ensures { result ≡ record { nullable = true; heap = heap.Abstract false abstract.NoFunc } }
    {
        RefType::nullable_of(AbstractHeapType::NoFunc)
    }

    /// `nullexternref`
    pub fn noextern() -> RefType<'a>
        ensures { result ≡ record { nullable = true; heap = heap.Abstract false abstract.NoExtern } }
    {
        RefType::nullable_of(AbstractHeapType::NoExtern)
    }

    /// `nullexnref`
    pub fn noexn() -> RefType<'a>
        ensures { result ≡ record { nullable = true; heap = heap.Abstract false abstract.NoExn } }
    {
        RefType::nullable_of(AbstractHeapType::NoExn)
    }
}
