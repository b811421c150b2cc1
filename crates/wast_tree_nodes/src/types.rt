//! Types: value types, heap types, composite types, type definitions and type uses.

ghost use Rattle.std.specs.Prelude.{◌≡◌, [], Some, None, true, false};
ghost use Rattle.wast_tree_nodes.specs.Tree.heap;
ghost use Rattle.wast_tree_nodes.specs.Tree.abstract;
ghost use Rattle.wast_tree_nodes.specs.Tree.inner;

use std::alloc::Global;
use wast_base::{Id, Index, NameAnnotation, Seq, Span};

/// A value type (text format: value types).
///
/// Value types are ordered, by variant, so that they can be keys of maps.
#[derive(Clone, Copy, Debug, PartialEq, Eq, PartialOrd, Ord, Hash)]
pub enum ValType<'a> {
    /// `i32`
    I32,
    /// `i64`
    I64,
    /// `f32`
    F32,
    /// `f64`
    F64,
    /// `v128`
    V128,
    /// `(ref null $t)`
    Ref(RefType<'a>),
}

/// A reference type, such as `(ref null $t)` (text format: reference types).
///
/// Reference types are ordered so that they can be keys of maps: not nullable first, then by heap
/// type. Keywords such as `funcref` have constructors.
///
///     let ty = RefType::externref();
///     let null = maker.one_instruction(Instruction::ref_null(ty.heap));
#[derive(Clone, Copy, Debug, PartialEq, Eq, PartialOrd, Ord, Hash)]
pub struct RefType<'a> {
    /// Whether the reference can be null.
    pub nullable: bool,
    /// The type that it refers to.
    pub heap: HeapType<'a>,
}

impl<'a> RefType<'a> {
    /// Makes `(ref ..)`, or `(ref null ..)` if `nullable`.
    pub fn new(nullable: bool, target: HeapType<'a>) -> RefType<'a>
        ensures { result ≡ record { nullable = nullable; heap = target.entry } }
    {
        RefType {
            nullable,
            heap: target,
        }
    }

    /// Makes `funcref`.
    pub fn funcref() -> RefType<'a>
        ensures { result ≡ record { nullable = true; heap = heap.Abstract false abstract.Func } }
    {
        RefType::nullable_of(AbstractHeapType::Func)
    }

    /// Makes `externref`.
    pub fn externref() -> RefType<'a>
        ensures { result ≡ record { nullable = true; heap = heap.Abstract false abstract.Extern } }
    {
        RefType::nullable_of(AbstractHeapType::Extern)
    }

    /// Makes `(ref null ..)` of an abstract heap type that is not shared.
    pub(crate) fn nullable_of(ty: AbstractHeapType) -> RefType<'a>
        ensures { result ≡ record { nullable = true; heap = heap.Abstract false ty } }
    {
        RefType::new(true, HeapType::of(ty))
    }
}

/// A heap type, the type that a reference refers to (text format: heap types).
///
/// Heap types are ordered, by variant and then by their fields, so that they can be keys of maps.
/// Positions of indices are ignored.
#[derive(Clone, Copy, Debug, PartialEq, Eq, PartialOrd, Ord, Hash)]
pub enum HeapType<'a> {
    /// An abstract heap type, such as `func`.
    Abstract {
        /// Whether it is `shared`.
        shared: bool,
        /// The type.
        ty: AbstractHeapType,
    },
    /// A type definition of the module, and its subtypes: `$t`
    Concrete(Index<'a>),
    /// A type definition of the module, without its subtypes: `(exact $t)` (custom descriptors)
    Exact(Index<'a>),
}

impl<'a> HeapType<'a> {
    /// Makes an abstract heap type that is not shared.
    pub fn of(ty: AbstractHeapType) -> HeapType<'a>
        ensures { result ≡ heap.Abstract false ty }
    {
        HeapType::Abstract { shared: false, ty }
    }
}

/// An abstract heap type, which the source does not define (text format: heap types).
///
/// The order is that of the variants, so that these types can be keys of maps.
#[derive(Clone, Copy, Debug, PartialEq, Eq, PartialOrd, Ord, Hash)]
pub enum AbstractHeapType {
    /// `func`
    Func,
    /// `extern`
    Extern,
    /// `exn`
    Exn,
    /// `noexn`
    NoExn,
    /// `any`
    Any,
    /// `eq`
    Eq,
    /// `struct`
    Struct,
    /// `array`
    Array,
    /// `nofunc`
    NoFunc,
    /// `noextern`
    NoExtern,
    /// `none`
    None,
    /// `i31`
    I31,
    /// `cont` (stack switching)
    Cont,
    /// `nocont` (stack switching)
    NoCont,
}

/// The type of a struct field or an array element (text format: composite types).
#[derive(Clone, Copy, Debug, PartialEq, Eq)]
pub enum StorageType<'a> {
    /// `i8`
    I8,
    /// `i16`
    I16,
    /// A value type.
    Val(ValType<'a>),
}

/// A field of a struct, such as `(field $x (mut i32))` (text format: composite types).
#[derive(Clone, Copy, Debug, PartialEq, Eq)]
pub struct StructField<'a> {
    /// Its id, if it has one.
    pub id: Option<Id<'a>>,
    /// Its name annotation, if it has one.
    pub name: Option<NameAnnotation<'a>>,
    /// Whether it is mutable.
    pub mutable: bool,
    /// Its type.
    pub ty: StorageType<'a>,
}

impl<'a> StructField<'a> {
    /// Makes `(field $x ..)`, or `(field $x (mut ..))` if `mutable`.
    pub fn new(id: Option<Id<'a>>, mutable: bool, ty: StorageType<'a>) -> StructField<'a>
        ensures { result ≡ record { id = id.entry; name = None; mutable = mutable; ty = ty.entry } }
    {
        StructField {
            id,
            name: None,
            mutable,
            ty,
        }
    }
}

/// A struct type, such as `(struct (field $x i32))` (text format: composite types).
#[derive(Debug, Drop)]
pub struct StructType<'a> {
    /// The fields, in source order.
    pub fields: Seq<StructField<'a>>,
}

/// An array type, such as `(array (mut i8))` (text format: composite types).
#[derive(Clone, Copy, Debug, PartialEq, Eq)]
pub struct ArrayType<'a> {
    /// Whether its elements are mutable.
    pub mutable: bool,
    /// The type of its elements.
    pub ty: StorageType<'a>,
}

/// A continuation type, such as `(cont $t)`, with the index of its function type (stack switching).
#[derive(Clone, Copy, Debug, PartialEq, Eq)]
pub struct ContType<'a>(pub Index<'a>);

/// A function type, such as `(param $x i32) (result i64)` (text format: composite types).
///
///     let takes = FunctionType::new(maker.params(&[(None, None, ValType::I32)]), Seq::new(alloc));
#[derive(Debug, Drop)]
pub struct FunctionType<'a> {
    /// The parameters: the id, name annotation and type of each.
    pub params: Seq<(Option<Id<'a>>, Option<NameAnnotation<'a>>, ValType<'a>)>,
    /// The types of the results.
    pub results: Seq<ValType<'a>>,
}

impl<'a> FunctionType<'a> {
    /// Makes `(func)`, without parameters and results.
    pub fn empty(alloc: Global) -> FunctionType<'a>
        ensures { result ≡ record { params = []; results = [] } }
    {
        FunctionType::new(Seq::new(alloc), Seq::new(alloc))
    }

    /// Makes `(func (param ..) (result ..))`.
    pub fn new(
        params: Seq<(Option<Id<'a>>, Option<NameAnnotation<'a>>, ValType<'a>)>,
        results: Seq<ValType<'a>>,
    ) -> FunctionType<'a>
        ensures { result ≡ record { params = params.entry; results = results.entry } }
    {
        FunctionType { params, results }
    }
}

/// A type use: the index of a type, an inline type, or both (text format: type uses).
///
/// `(func (type $t))` has an index, `(func (result i32))` an inline type, and
/// `(func (type $t) (result i32))` both. Resolving adds an index to a type use without one, unless
/// the binary format has a short form for it.
///
///     let ty = TypeUse::inline(make.function_type(&params, &[I32]));
#[derive(Debug, Drop)]
pub struct TypeUse<'a, T> {
    /// The index, as in `(type $t)`, if there is one.
    pub index: Option<Index<'a>>,
    /// The inline type, if there is one.
    pub inline: Option<T>,
}

impl<'a> TypeUse<'a, FunctionType<'a>> {
    /// Makes the type use of `(func)`, with neither an index nor an inline type.
    pub fn none() -> TypeUse<'a, FunctionType<'a>>
        ensures { result ≡ record { index = None; inline = None } }
    {
        TypeUse {
            index: None,
            inline: None,
        }
    }

    /// Makes the type use `(type $t)`.
    pub fn of(index: Index<'a>) -> TypeUse<'a, FunctionType<'a>>
        ensures { result ≡ record { index = Some index.entry; inline = None } }
    {
        TypeUse {
            index: Some(index),
            inline: None,
        }
    }

    /// Makes a type use with only an inline type, such as `(result i32)`.
    pub fn inline(ty: FunctionType<'a>) -> TypeUse<'a, FunctionType<'a>>
        ensures { result ≡ record { index = None; inline = Some ty.entry } }
    {
        TypeUse {
            index: None,
            inline: Some(ty),
        }
    }

    /// Makes a type use with an index and an inline type, such as `(type $t) (result i32)`.
    pub fn both(index: Index<'a>, ty: FunctionType<'a>) -> TypeUse<'a, FunctionType<'a>>
        ensures { result ≡ record { index = Some index.entry; inline = Some ty.entry } }
    {
        let (index, inline) = (Some(index), Some(ty));
        TypeUse { index, inline }
    }
}

/// A composite type (text format: composite types).
#[derive(Debug, Drop)]
pub enum InnerTypeKind<'a> {
    /// `(func ..)`
    Func(FunctionType<'a>),
    /// `(struct ..)`
    Struct(StructType<'a>),
    /// `(array ..)`
    Array(ArrayType<'a>),
    /// `(cont $t)` (stack switching)
    Cont(ContType<'a>),
}

/// A composite type with its supertypes and modifiers (text format: recursive types).
///
/// # Example
///
/// `(type $reader (func (param i32 i32) (result i32)))`:
///
///     let ty = make.function_type(&[(None, None, I32); 2], &[I32]);
///     let ty = Type::new(at(11), id("reader", 16), TypeDef::func(alloc, ty));
///     make.push_field(&mut fields, ModuleField::Ty(ty));
#[derive(Debug, Drop)]
pub struct TypeDef<'a> {
    /// The composite type.
    pub kind: InnerTypeKind<'a>,
    /// Whether it is `shared`.
    pub shared: bool,
    /// The supertypes that the source declares.
    pub parents: Seq<Index<'a>>,
    /// `(descriptor $t)` (custom descriptors)
    pub descriptor: Option<Index<'a>>,
    /// `(describes $t)` (custom descriptors)
    pub describes: Option<Index<'a>>,
    /// Whether `(sub ..)` has `final`. A definition without `sub` has `None`, and is final.
    pub final_type: Option<bool>,
}

impl<'a> TypeDef<'a> {
    /// Makes the definition of `(type (struct ..))` and the like: a final type without supertypes.
    pub fn new(alloc: Global, kind: InnerTypeKind<'a>) -> TypeDef<'a>
        ensures { result ≡ record { kind = kind.entry; shared = false; parents = []; descriptor = None; describes = None; final_type = None } }
    {
        TypeDef {
            kind,
            shared: false,
            parents: Seq::new(alloc),
            descriptor: None,
            describes: None,
            final_type: None,
        }
    }

    /// Makes the definition of `(type (func ..))`: a final function type without supertypes.
    pub fn func(alloc: Global, ty: FunctionType<'a>) -> TypeDef<'a>
        ensures { result ≡ record { kind = inner.Func ty.entry; shared = false; parents = []; descriptor = None; describes = None; final_type = None } }
    {
        TypeDef::new(alloc, InnerTypeKind::Func(ty))
    }

    /// Makes the definition of `(type (sub ..))`, or of `(type (sub final ..))` if `final_type`.
    pub fn sub(final_type: bool, parents: Seq<Index<'a>>, kind: InnerTypeKind<'a>) -> TypeDef<'a>
        ensures { result ≡ record { kind = kind.entry; shared = false; parents = parents.entry; descriptor = None; describes = None; final_type = Some final_type } }
    {
        TypeDef {
            kind,
            shared: false,
            parents,
            descriptor: None,
            describes: None,
            final_type: Some(final_type),
        }
    }
}

/// A type definition, such as `(type $t (func ..))` (text format: types).
///
///     let ty = Type::new(at(11), id("reader", 16), TypeDef::func(alloc, ty));
///     make.push_field(&mut fields, ModuleField::Ty(ty));
#[derive(Debug, Drop)]
pub struct Type<'a> {
    /// The position of its keyword.
    pub span: Span,
    /// Its id, if it has one.
    pub id: Option<Id<'a>>,
    /// Its name annotation, if it has one.
    pub name: Option<NameAnnotation<'a>>,
    /// Its definition.
    pub def: TypeDef<'a>,
}

impl<'a> Type<'a> {
    /// Makes `(type $t ..)`.
    pub fn new(span: Span, id: Option<Id<'a>>, def: TypeDef<'a>) -> Type<'a>
        ensures { result ≡ record { span = span; id = id.entry; name = None; def = def.entry } }
    {
        Type {
            span,
            id,
            name: None,
            def,
        }
    }
}

/// A group of types that may refer to each other: `(rec (type ..) ..)` (text format: types).
#[derive(Debug, Drop)]
pub struct Rec<'a> {
    /// The position of its keyword.
    pub span: Span,
    /// The types, in source order.
    pub types: Seq<Type<'a>>,
}

impl<'a> Rec<'a> {
    /// Makes `(rec ..)` of these types.
    pub fn new(span: Span, types: Seq<Type<'a>>) -> Rec<'a>
        ensures { result ≡ record { span = span; types = types.entry } }
    {
        Rec { span, types }
    }
}
