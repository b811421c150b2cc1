//! Resolves the indices in a type by a user-defined function.
#![tactic(auto, using(crate::proofs::Calling::calls_on_none, crate::proofs::Calling::calls_on_both, crate::proofs::Calling::first_refused, crate::proofs::Calling::past_id, crate::proofs::Calling::needs_first, crate::proofs::Calling::needs_second, crate::proofs::Calling::needs_kept))]

ghost use Rattle.std.specs.Prelude.{◌≡◌, ℕ, List, Result, flat_map, map, option_map};
ghost use Rattle.wast_base.specs.declared.faults.Error.{Error};
ghost use Rattle.wast_tree_nodes.specs.Sites.{Check, if_there, in_index, in_heap, in_ref, in_val, in_storage, in_param, in_signature, in_struct_field, in_struct, in_array, in_inner, in_def, in_type};
ghost use Rattle.wast_resolve_core_types.specs.Tree.{Index};
ghost use Rattle.wast_resolve_core_types.specs.Tree.space;
ghost use Rattle.wast_tree_map.specs.Mapped.{Indices, mapped_heap, mapped_ref, mapped_val, mapped_storage, mapped_param, mapped_signature, mapped_struct_field, mapped_struct, mapped_array, mapped_inner, mapped_def};
ghost use Rattle.wast_resolve_core_types.specs.CoreTypes.{CallsOn, HasNeeds, blank, with_def};

use wast_base::{Error, Id, Index, NameAnnotation, Seq};
use wast_tree_nodes::{
    ArrayType, FunctionType, HeapType, InnerTypeKind, RefType, StorageType, StructField,
    StructType, Type, TypeDef, ValType,
};

/// A user-defined function that resolves the indices in types.
///
/// # Example
///
///     let number = self.next;
///     *name = Index::Num(number, name.span());
///     self.next = number + 1;
///     Ok(number)
pub trait ResolveCoreType<'a> {
    /// The condition that a call requires of an index.
    ghost needs: { Self → Index → Type 0 };

    /// The effect of a call: the resolver and the index before it, the two after it, and the
    /// result.
    ghost called: { Self → Index → Self → Index → Result ℕ Error → Type 0 };

    /// Resolves the index of a type, and returns its number.
    ///
    /// For example, a [`Resolver`](crate::Resolver) replaces `$t` by 0 and returns 0, if `$t` is
    /// type 0.
    fn resolve_type_name(&mut self, name: &mut Index<'a>) -> Result<u32, Error<'a>>
        requires { needs self.old name.old }
        ensures call { called self.old name.old self.new name.new result }
        ensures kept { (i : Index) → needs self.old i → needs self.new i };
}

/// Resolves each index in a type: supertypes, descriptor and describes first, then the composite
/// type. Nothing but indices changes.
///
/// For example, with a resolver that returns 0 for `$a`, `(type (sub $a (func (param (ref $a)))))`
/// becomes `(type (sub 0 (func (param (ref 0)))))`.
///
/// Fails with the first error of the resolver. The indices after it are unchanged. Allocates only
/// if the resolver does.
pub fn resolve_type<'a, C: ResolveCoreType<'a>>(
    cx: &mut C,
    ty: &mut Type<'a>,
) -> Result<(), Error<'a>>
    requires { HasNeeds C.needs cx.old (in_type ty.old) }
    ensures calls { CallsOn C.called cx.old (in_type ty.old) cx.new (in_type ty.new) result }
    ensures rest { with_def blank ty.new ≡ with_def blank ty.old }
    ensures kept { (i : Index) → C.needs cx.old i → C.needs cx.new i }
{
    ty.resolve_with(cx)?;
    Ok(())
}

/// Resolves each index in a type definition, in the order of [`resolve_type`] and with the same
/// errors.
///
/// For example, with a resolver that returns 0 for `$a`, `(sub $a (func))` becomes
/// `(sub 0 (func))`.
pub fn resolve_type_def<'a, C: ResolveCoreType<'a>>(
    cx: &mut C,
    ty: &mut TypeDef<'a>,
) -> Result<(), Error<'a>>
    requires { HasNeeds C.needs cx.old (in_def ty.old) }
    ensures calls { CallsOn C.called cx.old (in_def ty.old) cx.new (in_def ty.new) result }
    ensures rest { mapped_def blank ty.new ≡ mapped_def blank ty.old }
    ensures kept { (i : Index) → C.needs cx.old i → C.needs cx.new i }
{
    ty.resolve_with(cx)?;
    Ok(())
}

/// Resolves each index in a function type: parameters first, then results. The errors are those of
/// [`resolve_type`].
///
/// For example, with a resolver that returns 0 for `$a`, `(func (param (ref $a)))` becomes
/// `(func (param (ref 0)))`.
pub fn resolve_type_func<'a, C: ResolveCoreType<'a>>(
    cx: &mut C,
    ty: &mut FunctionType<'a>,
) -> Result<(), Error<'a>>
    requires { HasNeeds C.needs cx.old (in_signature ty.old) }
    ensures calls { CallsOn C.called cx.old (in_signature ty.old) cx.new (in_signature ty.new) result }
    ensures rest { mapped_signature blank ty.new ≡ mapped_signature blank ty.old }
    ensures kept { (i : Index) → C.needs cx.old i → C.needs cx.new i }
{
    ty.resolve_with(cx)?;
    Ok(())
}

/// Resolves each index in a value type. The errors are those of [`resolve_type`].
///
///     assert!(rt; resolve_valtype(&mut cx, &mut value) == Ok(()));
pub fn resolve_valtype<'a, C: ResolveCoreType<'a>>(
    cx: &mut C,
    ty: &mut ValType<'a>,
) -> Result<(), Error<'a>>
    requires { HasNeeds C.needs cx.old (in_val ty.old) }
    ensures calls { CallsOn C.called cx.old (in_val ty.old) cx.new (in_val ty.new) result }
    ensures rest { mapped_val blank ty.new ≡ mapped_val blank ty.old }
    ensures kept { (i : Index) → C.needs cx.old i → C.needs cx.new i }
{
    ty.resolve_with(cx)?;
    Ok(())
}

/// Resolves each index in a reference type. The errors are those of [`resolve_type`].
///
///     assert!(rt; resolve_reftype(&mut cx, &mut reference) == Ok(()));
pub fn resolve_reftype<'a, C: ResolveCoreType<'a>>(
    cx: &mut C,
    ty: &mut RefType<'a>,
) -> Result<(), Error<'a>>
    requires { HasNeeds C.needs cx.old (in_ref ty.old) }
    ensures calls { CallsOn C.called cx.old (in_ref ty.old) cx.new (in_ref ty.new) result }
    ensures rest { mapped_ref blank ty.new ≡ mapped_ref blank ty.old }
    ensures kept { (i : Index) → C.needs cx.old i → C.needs cx.new i }
{
    ty.resolve_with(cx)?;
    Ok(())
}

/// Resolves each index in a heap type. The errors are those of [`resolve_type`].
///
///     assert!(rt; resolve_heaptype(&mut cx, &mut heap) == Ok(()));
pub fn resolve_heaptype<'a, C: ResolveCoreType<'a>>(
    cx: &mut C,
    ty: &mut HeapType<'a>,
) -> Result<(), Error<'a>>
    requires { HasNeeds C.needs cx.old (in_heap ty.old) }
    ensures calls { CallsOn C.called cx.old (in_heap ty.old) cx.new (in_heap ty.new) result }
    ensures rest { mapped_heap blank ty.new ≡ mapped_heap blank ty.old }
    ensures kept { (i : Index) → C.needs cx.old i → C.needs cx.new i }
{
    ty.resolve_with(cx)?;
    Ok(())
}

/// Resolves each index in the storage type of a struct field or an array. The errors are those of
/// [`resolve_type`].
///
///     assert!(rt; resolve_storagetype(&mut cx, &mut storage) == Ok(()));
pub fn resolve_storagetype<'a, C: ResolveCoreType<'a>>(
    cx: &mut C,
    ty: &mut StorageType<'a>,
) -> Result<(), Error<'a>>
    requires { HasNeeds C.needs cx.old (in_storage ty.old) }
    ensures calls { CallsOn C.called cx.old (in_storage ty.old) cx.new (in_storage ty.new) result }
    ensures rest { mapped_storage blank ty.new ≡ mapped_storage blank ty.old }
    ensures kept { (i : Index) → C.needs cx.old i → C.needs cx.new i }
{
    ty.resolve_with(cx)?;
    Ok(())
}

/// A part of a type that can contain indices of types.
trait CoreType<'a, C: ResolveCoreType<'a>> {
    /// The checks in the part.
    ghost asks: { Self → List Check };

    /// The part with each index changed.
    ghost changed: { Indices → Self → Self };

    /// Resolves each index in the part, in order, up to the first error.
    fn resolve_with(&mut self, cx: &mut C) -> Result<(), Error<'a>>
        requires { HasNeeds C.needs cx.old (asks self.old) }
        ensures calls { CallsOn C.called cx.old (asks self.old) cx.new (asks self.new) result }
        ensures rest { changed blank self.new ≡ changed blank self.old }
        ensures kept { (i : Index) → C.needs cx.old i → C.needs cx.new i };
}

impl<'a, C: ResolveCoreType<'a>> CoreType<'a, C> for Index<'a> {
    ghost asks = { in_index space.Ty };

    ghost changed = { λ f i. f space.Ty i };

    fn resolve_with(&mut self, cx: &mut C) -> Result<(), Error<'a>> {
        cx.resolve_type_name(self)?;
        Ok(())
    }
}

/// Resolves each index in the parts of a list, in order, up to the first error.
fn resolve_each<'a, C: ResolveCoreType<'a>, T: CoreType<'a, C>>(
    cx: &mut C,
    parts: &mut Seq<T>,
) -> Result<(), Error<'a>>
    requires { HasNeeds C.needs cx.old (flat_map T.asks parts.old) }
    ensures calls { CallsOn C.called cx.old (flat_map T.asks parts.old) cx.new (flat_map T.asks parts.new) result }
    ensures rest { map (T.changed blank) parts.new ≡ map (T.changed blank) parts.old }
    ensures kept { (i : Index) → C.needs cx.old i → C.needs cx.new i }
{
    for i in 0..parts.len() {
        parts.at_mut(i).resolve_with(cx)?;
    }
    Ok(())
}

impl<'a, C: ResolveCoreType<'a>, T: CoreType<'a, C>> CoreType<'a, C> for Option<T> {
    ghost asks = { if_there T.asks };

    ghost changed = { λ f o. option_map (T.changed f) o };

    fn resolve_with(&mut self, cx: &mut C) -> Result<(), Error<'a>> {
        match self {
            None => Ok(()),
            Some(part) => part.resolve_with(cx),
        }
    }
}

impl<'a, C: ResolveCoreType<'a>> CoreType<'a, C> for HeapType<'a> {
    ghost asks = { in_heap };

    ghost changed = { mapped_heap };

    fn resolve_with(&mut self, cx: &mut C) -> Result<(), Error<'a>> {
        match self {
            HeapType::Abstract { .. } => Ok(()),
            HeapType::Concrete(index) => index.resolve_with(cx),
            HeapType::Exact(index) => index.resolve_with(cx),
        }
    }
}

impl<'a, C: ResolveCoreType<'a>> CoreType<'a, C> for RefType<'a> {
    ghost asks = { in_ref };

    ghost changed = { mapped_ref };

    fn resolve_with(&mut self, cx: &mut C) -> Result<(), Error<'a>> {
        self.heap.resolve_with(cx)?;
        Ok(())
    }
}

impl<'a, C: ResolveCoreType<'a>> CoreType<'a, C> for ValType<'a> {
    ghost asks = { in_val };

    ghost changed = { mapped_val };

    fn resolve_with(&mut self, cx: &mut C) -> Result<(), Error<'a>> {
        match self {
            ValType::I32 => Ok(()),
            ValType::I64 => Ok(()),
            ValType::F32 => Ok(()),
            ValType::F64 => Ok(()),
            ValType::V128 => Ok(()),
            ValType::Ref(ty) => ty.resolve_with(cx),
        }
    }
}

impl<'a, C: ResolveCoreType<'a>> CoreType<'a, C> for StorageType<'a> {
    ghost asks = { in_storage };

    ghost changed = { mapped_storage };

    fn resolve_with(&mut self, cx: &mut C) -> Result<(), Error<'a>> {
        match self {
            StorageType::I8 => Ok(()),
            StorageType::I16 => Ok(()),
            StorageType::Val(ty) => ty.resolve_with(cx),
        }
    }
}

impl<'a, C: ResolveCoreType<'a>> CoreType<'a, C>
    for (Option<Id<'a>>, Option<NameAnnotation<'a>>, ValType<'a>) {
    ghost asks = { in_param };

    ghost changed = { mapped_param };

    fn resolve_with(&mut self, cx: &mut C) -> Result<(), Error<'a>> {
        self.2.resolve_with(cx)?;
        Ok(())
    }
}

impl<'a, C: ResolveCoreType<'a>> CoreType<'a, C> for FunctionType<'a> {
    ghost asks = { in_signature };

    ghost changed = { mapped_signature };

    fn resolve_with(&mut self, cx: &mut C) -> Result<(), Error<'a>> {
        resolve_each(cx, &mut self.params)?;
        resolve_each(cx, &mut self.results)?;
        Ok(())
    }
}

impl<'a, C: ResolveCoreType<'a>> CoreType<'a, C> for StructField<'a> {
    ghost asks = { in_struct_field };

    ghost changed = { mapped_struct_field };

    fn resolve_with(&mut self, cx: &mut C) -> Result<(), Error<'a>> {
        self.ty.resolve_with(cx)?;
        Ok(())
    }
}

impl<'a, C: ResolveCoreType<'a>> CoreType<'a, C> for StructType<'a> {
    ghost asks = { in_struct };

    ghost changed = { mapped_struct };

    fn resolve_with(&mut self, cx: &mut C) -> Result<(), Error<'a>> {
        resolve_each(cx, &mut self.fields)?;
        Ok(())
    }
}

impl<'a, C: ResolveCoreType<'a>> CoreType<'a, C> for ArrayType<'a> {
    ghost asks = { in_array };

    ghost changed = { mapped_array };

    fn resolve_with(&mut self, cx: &mut C) -> Result<(), Error<'a>> {
        self.ty.resolve_with(cx)?;
        Ok(())
    }
}

impl<'a, C: ResolveCoreType<'a>> CoreType<'a, C> for InnerTypeKind<'a> {
    ghost asks = { in_inner };

    ghost changed = { mapped_inner };

    fn resolve_with(&mut self, cx: &mut C) -> Result<(), Error<'a>> {
        match self {
            InnerTypeKind::Func(ty) => ty.resolve_with(cx),
            InnerTypeKind::Struct(ty) => ty.resolve_with(cx),
            InnerTypeKind::Array(ty) => ty.resolve_with(cx),
            InnerTypeKind::Cont(ty) => ty.0.resolve_with(cx),
        }
    }
}

impl<'a, C: ResolveCoreType<'a>> CoreType<'a, C> for TypeDef<'a> {
    ghost asks = { in_def };

    ghost changed = { mapped_def };

    fn resolve_with(&mut self, cx: &mut C) -> Result<(), Error<'a>> {
        resolve_each(cx, &mut self.parents)?;
        self.descriptor.resolve_with(cx)?;
        self.describes.resolve_with(cx)?;
        self.kind.resolve_with(cx)?;
        Ok(())
    }
}

impl<'a, C: ResolveCoreType<'a>> CoreType<'a, C> for Type<'a> {
    ghost asks = { in_type };

    ghost changed = { with_def };

    fn resolve_with(&mut self, cx: &mut C) -> Result<(), Error<'a>> {
        self.def.resolve_with(cx)?;
        Ok(())
    }
}
