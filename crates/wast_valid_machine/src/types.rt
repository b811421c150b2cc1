//! Types as the validator sees them (validation: types). Type indices are canonical: equal types
//! have the same index, the first one.

use wast_base::Seq;

/// An abstract heap type, or a defined type by its canonical index.
#[derive(Clone, Copy)]
pub enum Heap {
    /// `any`
    Any,
    /// `eq`
    Eqs,
    /// `i31`
    I31,
    /// `struct`
    Structs,
    /// `array`
    Arrays,
    /// `none`
    NoAny,
    /// `func`
    Funcs,
    /// `nofunc`
    NoFunc,
    /// `extern`
    Externs,
    /// `noextern`
    NoExtern,
    /// `exn`
    Exns,
    /// `noexn`
    NoExn,
    /// A subtype of all heap types, without a text format.
    Bottom,
    /// A defined type, by its canonical index.
    Defined(u32),
}

/// A reference type.
#[derive(Clone, Copy)]
pub struct RefTy {
    /// Whether the null reference is a value of it.
    pub nullable: bool,
    /// The type that it refers to.
    pub heap: Heap,
}

/// The type of a value on the operand stack (appendix: validation algorithm).
#[derive(Clone, Copy)]
pub enum Ty {
    /// `i32`
    I32,
    /// `i64`
    I64,
    /// `f32`
    F32,
    /// `f64`
    F64,
    /// `v128`
    V128,
    /// A reference type.
    Ref(RefTy),
    /// Any type. Operands have it on a polymorphic stack, in unreachable code.
    Unknown,
}

/// A function type.
#[derive(Drop)]
pub struct FuncTy {
    /// The types of the parameters.
    pub params: Seq<Ty>,
    /// The types of the results.
    pub results: Seq<Ty>,
}

/// The type of a field.
#[derive(Clone, Copy)]
pub struct Field {
    /// The type of the field, unpacked.
    pub ty: Ty,
    /// Whether it is `i8` or `i16`.
    pub packed: bool,
    /// Whether it is mutable.
    pub mutable: bool,
}

/// A composite type.
#[derive(Drop)]
pub enum Shape {
    /// A function type.
    Func(FuncTy),
    /// A struct type, by its fields.
    Record(Seq<Field>),
    /// An array type, by its elements.
    Array(Field),
}

/// A defined type.
#[derive(Drop)]
pub struct Def {
    /// Its composite type.
    pub shape: Shape,
    /// The canonical index of its supertype, if it has one.
    pub parent: Option<u32>,
}
