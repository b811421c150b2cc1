//! Value types, composite types and type definitions, and the kinds of exports.

ghost use Rattle.std.specs.Prelude.{◌≡◌, true, false, [], ◌∷◌};
ghost use Rattle.std.specs.List.{list_all};
ghost use Rattle.wasm_ops.specs.Spelling.{Any, export_kind, array_type, composite_inner_type, composite_type, field_type, func_type, storage_type, struct_type, sub_type, val_type};

use crate::encode::{AsItself, Counted, Encode};
use crate::ref_types::RefType;
use crate::sink::{Refusal, Sink};
use wast_base::Seq;

/// A value type (binary format: value types).
///
/// For example, `i32` is `7f`, and `(ref func)` is `64 70`.
#[derive(Clone, Copy, Debug, PartialEq, Eq, Hash)]
pub enum ValType {
    /// `i32`
    I32,
    /// `i64`
    I64,
    /// `f32`
    F32,
    /// `f64`
    F64,
    /// `v128`
    V128,
    /// A reference type.
    Ref(RefType),
}

impl ValType {
    /// `funcref`
    pub const FUNCREF: ValType = ValType::Ref(RefType::FUNCREF);

    /// `externref`
    pub const EXTERNREF: ValType = ValType::Ref(RefType::EXTERNREF);

    /// Returns whether the encoder supports it: all but references to unsupported heap types.
    pub fn is_covered(&self) -> bool
        ensures { result ≡ (val_type self.now).is_covered }
    {
        match self {
            ValType::I32 | ValType::I64 | ValType::F32 | ValType::F64 | ValType::V128 => true,
            ValType::Ref(ty) => ty.is_covered(),
        }
    }
}

impl Encode for ValType {
    ghost spelling = { λ x. (val_type x).bytes };

    ghost in_range = { λ x. (val_type x).in_range };

    ghost is_ready = { λ x. (val_type x).is_covered };

    #[inline(always)]
    fn encode<S: Sink>(&self, out: &mut S) -> Result<(), Refusal> {
        match self {
            ValType::I32 => 0x7fu8.encode(out),
            ValType::I64 => 0x7eu8.encode(out),
            ValType::F32 => 0x7du8.encode(out),
            ValType::F64 => 0x7cu8.encode(out),
            ValType::V128 => 0x7bu8.encode(out),
            ValType::Ref(ty) => ty.encode(out),
        }
    }
}

/// The bytes of the constants of [`ValType`] (binary format: value types).
pub(crate) fn constant_val_types()
    ensures func { (val_type ValType.FUNCREF).bytes ≡ 0x70 ∷ [] }
    ensures extern_ { (val_type ValType.EXTERNREF).bytes ≡ 0x6f ∷ [] }
{}

/// The type of a struct field or an array element in storage (binary format: composite types).
///
/// For example, `i8` is `78`, and `i32` is `7f`.
#[derive(Clone, Copy, Debug, PartialEq, Eq, Hash)]
pub enum StorageType {
    /// `i8`
    I8,
    /// `i16`
    I16,
    /// A value type, unpacked.
    Val(ValType),
}

impl StorageType {
    /// Returns whether the encoder supports it: a packed type, or a supported value type.
    pub fn is_covered(&self) -> bool
        ensures { result ≡ (storage_type self.now).is_covered }
    {
        match self {
            StorageType::I8 => true,
            StorageType::I16 => true,
            StorageType::Val(ty) => ty.is_covered(),
        }
    }
}

/// Converts a value type to the same type in storage, unpacked.
impl From<ValType> for StorageType {
    ghost use Rattle.wasm_ops.specs.declared.types.StorageType.TheVariants.{Val};

    ghost from_gives = { λ ty storage. storage ≡ Val ty };

    fn from(ty: ValType) -> Self {
        StorageType::Val(ty)
    }
}

impl Encode for StorageType {
    ghost spelling = { λ x. (storage_type x).bytes };

    ghost in_range = { λ x. (storage_type x).in_range };

    ghost is_ready = { λ x. (storage_type x).is_covered };

    fn encode<S: Sink>(&self, out: &mut S) -> Result<(), Refusal> {
        match self {
            StorageType::I8 => 0x78u8.encode(out),
            StorageType::I16 => 0x77u8.encode(out),
            StorageType::Val(ty) => ty.encode(out),
        }
    }
}

/// The type of a struct field or of the elements of an array (binary format: composite types).
///
/// # Example
///
/// The field `(mut i8)` is `78 01`:
///
///     let field = FieldType {
///         element_type: StorageType::I8,
///         mutable: true,
///     };
#[derive(Clone, Copy, Debug, PartialEq, Eq, Hash)]
pub struct FieldType {
    /// The type in storage.
    pub element_type: StorageType,
    /// Whether the field is mutable.
    pub mutable: bool,
}

impl FieldType {
    /// Returns whether the encoder supports it, that is, its type in storage.
    pub fn is_covered(&self) -> bool
        ensures { result ≡ (field_type self.now).is_covered }
    {
        self.element_type.is_covered()
    }
}

impl Encode for FieldType {
    ghost spelling = { λ x. (field_type x).bytes };

    ghost in_range = { λ x. (field_type x).in_range };

    ghost is_ready = { λ x. (field_type x).is_covered };

    fn encode<S: Sink>(&self, out: &mut S) -> Result<(), Refusal> {
        (self.element_type, u8::from(self.mutable)).encode(out)
    }
}

/// The kind of an export or import, encoded as a byte (binary format: export section).
///
/// For example, a memory is `02`.
#[derive(Clone, Copy, Debug, PartialEq, Eq)]
pub enum ExportKind {
    /// A function.
    Func,
    /// A table.
    Table,
    /// A memory.
    Memory,
    /// A global.
    Global,
    /// A tag.
    Tag,
}

impl ExportKind {
    /// Returns whether the encoder supports it: always.
    pub fn is_covered(self) -> bool
        ensures { result ≡ true }
    {
        true // since no kind is a form that is not covered
    }
}

impl Encode for ExportKind {
    ghost spelling = { export_kind };

    ghost in_range = { Any };

    ghost is_ready = { λ _. true };

    fn encode<S: Sink>(&self, out: &mut S) -> Result<(), Refusal> {
        (*self as u8).encode(out)
    }
}

/// Returns whether the encoder supports each of these types.
fn are_covered(types: &[ValType]) -> bool
    ensures { result ≡ list_all (λ x. (val_type x).is_covered) types.now }
{
    types.iter().all(|ty| ty.is_covered())
}

/// A function type (binary format: composite types).
///
/// `(func (param i32 i32) (result i32))` is `60 02 7f 7f 01 7f`:
///
///     let params = Seq::from_vec(Vec::from_slice(alloc, &[ValType::I32, ValType::I32])?);
///     let results = Seq::from_vec(Vec::from_slice(alloc, &[ValType::I32])?);
#[derive(Debug, Drop)]
pub struct FuncType {
    /// The types of the parameters.
    pub params: Seq<ValType>,
    /// The types of the results.
    pub results: Seq<ValType>,
}

impl FuncType {
    /// Returns whether the encoder supports it: the types of its parameters and results.
    pub fn is_covered(&self) -> bool
        ensures { result ≡ (func_type self.now).is_covered }
    {
        are_covered(self.params.as_slice()) && are_covered(self.results.as_slice())
    }
}

impl Encode for FuncType {
    ghost spelling = { λ x. (func_type x).bytes };

    ghost in_range = { λ x. (func_type x).in_range };

    ghost is_ready = { λ x. (func_type x).is_covered };

    fn encode<S: Sink>(&self, out: &mut S) -> Result<(), Refusal> {
        let params = Counted(self.params.as_slice(), AsItself);
        let results = Counted(self.results.as_slice(), AsItself);
        (0x60u8, (params, results)).encode(out)
    }
}

/// A struct type (binary format: composite types).
///
/// For example, `(struct (field (mut i8)))` is `5f 01 78 01`.
#[derive(Debug, Drop)]
pub struct StructType {
    /// Its fields, in order.
    pub fields: Seq<FieldType>,
}

impl StructType {
    /// Returns whether the encoder supports it: each of its fields.
    pub fn is_covered(&self) -> bool
        ensures { result ≡ (struct_type self.now).is_covered }
    {
        self.fields
            .as_slice()
            .iter()
            .all(|field| field.is_covered())
    }
}

impl Encode for StructType {
    ghost spelling = { λ x. (struct_type x).bytes };

    ghost in_range = { λ x. (struct_type x).in_range };

    ghost is_ready = { λ x. (struct_type x).is_covered };

    fn encode<S: Sink>(&self, out: &mut S) -> Result<(), Refusal> {
        (0x5fu8, Counted(self.fields.as_slice(), AsItself)).encode(out)
    }
}

/// An array type, with the type of its elements (binary format: composite types).
///
/// For example, `(array (mut i8))` is `5e 78 01`.
#[derive(Clone, Copy, Debug, PartialEq, Eq, Hash)]
pub struct ArrayType(pub FieldType);

impl ArrayType {
    /// Returns whether the encoder supports it: the type of its elements.
    pub fn is_covered(&self) -> bool
        ensures { result ≡ (array_type self.now).is_covered }
    {
        self.0.is_covered()
    }
}

impl Encode for ArrayType {
    ghost spelling = { λ x. (array_type x).bytes };

    ghost in_range = { λ x. (array_type x).in_range };

    ghost is_ready = { λ x. (array_type x).is_covered };

    fn encode<S: Sink>(&self, out: &mut S) -> Result<(), Refusal> {
        (0x5eu8, self.0).encode(out)
    }
}

/// A continuation type, with the index of its function type (binary format: composite types).
#[derive(Clone, Copy, Debug, PartialEq, Eq, Hash)]
pub struct ContType(pub u32);

impl ContType {
    /// Returns whether the encoder supports it: never.
    pub fn is_covered(&self) -> bool
        ensures { result ≡ false }
    {
        false // since each is a form that is not covered
    }
}

/// A function, struct, array or continuation type (binary format: composite types).
#[derive(Debug, Drop)]
pub enum CompositeInnerType {
    /// A function type.
    Func(FuncType),
    /// A struct type.
    Struct(StructType),
    /// An array type.
    Array(ArrayType),
    /// A continuation type.
    Cont(ContType),
}

impl CompositeInnerType {
    /// Returns whether the encoder supports it: the type inside, and never a continuation type.
    pub fn is_covered(&self) -> bool
        ensures { result ≡ (composite_inner_type self.now).is_covered }
    {
        match self {
            CompositeInnerType::Func(ty) => ty.is_covered(),
            CompositeInnerType::Struct(ty) => ty.is_covered(),
            CompositeInnerType::Array(ty) => ty.is_covered(),
            CompositeInnerType::Cont(ty) => ty.is_covered(),
        }
    }
}

impl Encode for CompositeInnerType {
    ghost spelling = { λ x. (composite_inner_type x).bytes };

    ghost in_range = { λ x. (composite_inner_type x).in_range };

    ghost is_ready = { λ x. (composite_inner_type x).is_covered };

    fn encode<S: Sink>(&self, out: &mut S) -> Result<(), Refusal> {
        match self {
            CompositeInnerType::Func(ty) => ty.encode(out),
            CompositeInnerType::Struct(ty) => ty.encode(out),
            CompositeInnerType::Array(ty) => ty.encode(out),
            CompositeInnerType::Cont(_) => unreachable!(),
        }
    }
}

/// A composite type, with sharing and descriptors (binary format: composite types).
///
/// # Example
///
///     let composite_type = CompositeType {
///         inner: CompositeInnerType::Func(FuncType { params, results }),
///         shared: false,
///         descriptor: None,
///         describes: None,
///     };
#[derive(Debug, Drop)]
pub struct CompositeType {
    /// The function, struct, array or continuation type.
    pub inner: CompositeInnerType,
    /// Whether it is shared.
    pub shared: bool,
    /// The index of its descriptor type.
    pub descriptor: Option<u32>,
    /// The index of the type that it describes.
    pub describes: Option<u32>,
}

impl CompositeType {
    /// Returns whether the encoder supports it: an unshared type without descriptor and describes
    /// clauses, if the type inside is supported.
    pub fn is_covered(&self) -> bool
        ensures { result ≡ (composite_type self.now).is_covered }
    {
        !self.shared
            && self.descriptor.is_none()
            && self.describes.is_none()
            && self.inner.is_covered()
    }
}

impl Encode for CompositeType {
    ghost spelling = { λ x. (composite_type x).bytes };

    ghost in_range = { λ x. (composite_type x).in_range };

    ghost is_ready = { λ x. (composite_type x).is_covered };

    fn encode<S: Sink>(&self, out: &mut S) -> Result<(), Refusal> {
        self.inner.encode(out)
    }
}

/// A type definition: a composite type, its supertypes, and finality (binary format: recursive
/// types).
///
/// # Example
///
/// A final type without supertypes is encoded as its composite type alone:
///
///     Ok(SubType {
///         composite_type,
///         is_final: true,
///         supertype_idxs: Seq::new(alloc),
///     })
#[derive(Debug, Drop)]
pub struct SubType {
    /// The composite type.
    pub composite_type: CompositeType,
    /// Whether no type can be a subtype of it.
    pub is_final: bool,
    /// The indices of its supertypes.
    pub supertype_idxs: Seq<u32>,
}

impl SubType {
    /// Returns whether the encoder supports it: its composite type.
    pub fn is_covered(&self) -> bool
        ensures { result ≡ (sub_type self.now).is_covered }
    {
        self.composite_type.is_covered()
    }
}

/// A final type without supertypes is encoded as its composite type alone, because the binary
/// format has this abbreviation. Others begin with `4f` (final) or `50`.
impl Encode for SubType {
    ghost spelling = { λ x. (sub_type x).bytes };

    ghost in_range = { λ x. (sub_type x).in_range };

    ghost is_ready = { λ x. (sub_type x).is_covered };

    fn encode<S: Sink>(&self, out: &mut S) -> Result<(), Refusal> {
        let parents = Counted(self.supertype_idxs.as_slice(), AsItself);
        if !self.is_final {
            return (0x50u8, (parents, &self.composite_type)).encode(out);
        }
        if self.supertype_idxs.is_empty() {
            return self.composite_type.encode(out);
        }
        (0x4fu8, (parents, &self.composite_type)).encode(out)
    }
}
