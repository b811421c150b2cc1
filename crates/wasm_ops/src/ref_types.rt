//! Reference types and heap types.

ghost use Rattle.std.specs.Prelude.{◌≡◌, true, [], ◌∷◌};
ghost use Rattle.wasm_ops.specs.Spelling.{is_short, heap_type, ref_type, is_covered_abstract_heap_type};

use crate::encode::Encode;
use crate::leb128::push_signed;
use crate::sink::{Refusal, Sink};

/// An abstract heap type: one with a keyword (binary format: heap types).
///
/// The number of a variant is its byte.
#[derive(Clone, Copy, Debug, PartialEq, Eq, Hash)]
pub enum AbstractHeapType {
    /// `func`
    Func = 0x70,
    /// `extern`
    Extern = 0x6f,
    /// `exn`
    Exn = 0x69,
    /// `noexn`
    NoExn = 0x74,
    /// `any`
    Any = 0x6e,
    /// `eq`
    Eq = 0x6d,
    /// `struct`
    Struct = 0x6b,
    /// `array`
    Array = 0x6a,
    /// `nofunc`
    NoFunc = 0x73,
    /// `noextern`
    NoExtern = 0x72,
    /// `none`
    None = 0x71,
    /// `i31`
    I31 = 0x6c,
    /// `cont`
    Cont = 0x68,
    /// `nocont`
    NoCont = 0x75,
}

impl AbstractHeapType {
    /// Returns whether the encoder supports it: all but `cont` and `nocont`.
    pub fn is_covered(self) -> bool
        ensures { result ≡ is_covered_abstract_heap_type self }
    {
        match self {
            AbstractHeapType::Cont | AbstractHeapType::NoCont => false,
            _ => true,
        }
    }
}

/// The heap type of a reference (binary format: heap types).
///
/// For example, `func` is `70`, and the type at index 64 is `c0 00`. The supported abstract types
/// are constants, such as [`HeapType::FUNC`].
#[derive(Clone, Copy, Debug, PartialEq, Eq, Hash)]
pub enum HeapType {
    /// An abstract heap type, which has a keyword.
    Abstract {
        /// Whether it is shared.
        shared: bool,
        /// The abstract heap type.
        ty: AbstractHeapType,
    },
    /// The type at an index, with its subtypes.
    Concrete(u32),
    /// The type at an index, without its subtypes.
    Exact(u32),
}

impl HeapType {
    /// The unshared `func`.
    pub const FUNC: HeapType = HeapType::Abstract {
        shared: false,
        ty: AbstractHeapType::Func,
    };

    /// The unshared `extern`.
    pub const EXTERN: HeapType = HeapType::Abstract {
        shared: false,
        ty: AbstractHeapType::Extern,
    };

    /// The unshared `exn`.
    pub const EXN: HeapType = HeapType::Abstract {
        shared: false,
        ty: AbstractHeapType::Exn,
    };

    /// The unshared `noexn`.
    pub const NO_EXN: HeapType = HeapType::Abstract {
        shared: false,
        ty: AbstractHeapType::NoExn,
    };

    /// The unshared `any`.
    pub const ANY: HeapType = HeapType::Abstract {
        shared: false,
        ty: AbstractHeapType::Any,
    };

    /// The unshared `eq`.
    pub const EQ: HeapType = HeapType::Abstract {
        shared: false,
        ty: AbstractHeapType::Eq,
    };

    /// The unshared `struct`.
    pub const STRUCT: HeapType = HeapType::Abstract {
        shared: false,
        ty: AbstractHeapType::Struct,
    };

    /// The unshared `array`.
    pub const ARRAY: HeapType = HeapType::Abstract {
        shared: false,
        ty: AbstractHeapType::Array,
    };

    /// The unshared `nofunc`.
    pub const NO_FUNC: HeapType = HeapType::Abstract {
        shared: false,
        ty: AbstractHeapType::NoFunc,
    };

    /// The unshared `noextern`.
    pub const NO_EXTERN: HeapType = HeapType::Abstract {
        shared: false,
        ty: AbstractHeapType::NoExtern,
    };

    /// The unshared `none`.
    pub const NONE: HeapType = HeapType::Abstract {
        shared: false,
        ty: AbstractHeapType::None,
    };

    /// The unshared `i31`.
    pub const I31: HeapType = HeapType::Abstract {
        shared: false,
        ty: AbstractHeapType::I31,
    };

    /// Returns whether the encoder supports it: an unshared abstract type other than `cont` and
    /// `nocont`, or the type at an index, unless it is exact.
    pub fn is_covered(&self) -> bool
        ensures { result ≡ (heap_type self.now).is_covered }
    {
        match self {
            HeapType::Abstract { shared, ty } => !*shared && ty.is_covered(),
            HeapType::Concrete(_) => true,
            HeapType::Exact(_) => false,
        }
    }

    /// Returns whether a nullable reference to it is encoded as the heap type alone.
    fn is_short(&self) -> bool
        ensures { result ≡ is_short self.now }
    {
        match self {
            HeapType::Abstract { ty, .. } => match ty {
                AbstractHeapType::Func => true,
                AbstractHeapType::Extern => true,
                _ => false,
            },
            HeapType::Concrete(_) => false,
            HeapType::Exact(_) => false,
        }
    }
}

/// An index is encoded as a signed number, because negative numbers are the other heap types.
impl Encode for HeapType {
    ghost spelling = { λ x. (heap_type x).bytes };

    ghost in_range = { λ x. (heap_type x).in_range };

    ghost is_ready = { λ x. (heap_type x).is_covered };

    fn encode<S: Sink>(&self, out: &mut S) -> Result<(), Refusal> {
        match self {
            HeapType::Abstract { ty, .. } => (*ty as u8).encode(out),
            HeapType::Concrete(index) => push_signed(out, i64::from(*index)),
            HeapType::Exact(_) => unreachable!(),
        }
    }
}

/// A reference type (binary format: reference types).
///
/// The types with one keyword in the text format, such as `funcref`, are constants. All of these
/// are nullable.
///
/// # Example
///
///     RefType {
///         nullable: true,
///         heap_type: func(),
///     }
#[derive(Clone, Copy, Debug, PartialEq, Eq, Hash)]
pub struct RefType {
    /// Whether the reference may be null.
    pub nullable: bool,
    /// The heap type.
    pub heap_type: HeapType,
}

impl RefType {
    /// `funcref`
    pub const FUNCREF: RefType = RefType {
        nullable: true,
        heap_type: HeapType::FUNC,
    };

    /// `externref`
    pub const EXTERNREF: RefType = RefType {
        nullable: true,
        heap_type: HeapType::EXTERN,
    };

    /// `exnref`
    pub const EXNREF: RefType = RefType {
        nullable: true,
        heap_type: HeapType::EXN,
    };

    /// `nullexnref`
    pub const NULLEXNREF: RefType = RefType {
        nullable: true,
        heap_type: HeapType::NO_EXN,
    };

    /// `anyref`
    pub const ANYREF: RefType = RefType {
        nullable: true,
        heap_type: HeapType::ANY,
    };

    /// `eqref`
    pub const EQREF: RefType = RefType {
        nullable: true,
        heap_type: HeapType::EQ,
    };

    /// `structref`
    pub const STRUCTREF: RefType = RefType {
        nullable: true,
        heap_type: HeapType::STRUCT,
    };

    /// `arrayref`
    pub const ARRAYREF: RefType = RefType {
        nullable: true,
        heap_type: HeapType::ARRAY,
    };

    /// `nullfuncref`
    pub const NULLFUNCREF: RefType = RefType {
        nullable: true,
        heap_type: HeapType::NO_FUNC,
    };

    /// `nullexternref`
    pub const NULLEXTERNREF: RefType = RefType {
        nullable: true,
        heap_type: HeapType::NO_EXTERN,
    };

    /// `nullref`
    pub const NULLREF: RefType = RefType {
        nullable: true,
        heap_type: HeapType::NONE,
    };

    /// `i31ref`
    pub const I31REF: RefType = RefType {
        nullable: true,
        heap_type: HeapType::I31,
    };

    /// Returns whether the encoder supports it: its heap type.
    pub fn is_covered(&self) -> bool
        ensures { result ≡ (ref_type self.now).is_covered }
    {
        self.heap_type.is_covered()
    }
}

/// Nullable references to `func` and `extern` are encoded as their heap type alone: `funcref` is
/// `70`.
impl Encode for RefType {
    ghost spelling = { λ x. (ref_type x).bytes };

    ghost in_range = { λ x. (ref_type x).in_range };

    ghost is_ready = { λ x. (ref_type x).is_covered };

    fn encode<S: Sink>(&self, out: &mut S) -> Result<(), Refusal> {
        if !self.nullable {
            return (0x64u8, self.heap_type).encode(out);
        }
        if self.heap_type.is_short() {
            return self.heap_type.encode(out);
        }
        (0x63u8, self.heap_type).encode(out)
    }
}

/// The bytes of the constants of [`RefType`] (binary format: reference types).
pub(crate) fn constant_ref_types()
    ensures func { (ref_type RefType.FUNCREF).bytes ≡ 0x70 ∷ [] }
    ensures extern_ { (ref_type RefType.EXTERNREF).bytes ≡ 0x6f ∷ [] }
    ensures exn { (ref_type RefType.EXNREF).bytes ≡ 0x63 ∷ 0x69 ∷ [] }
    ensures no_exn { (ref_type RefType.NULLEXNREF).bytes ≡ 0x63 ∷ 0x74 ∷ [] }
    ensures any { (ref_type RefType.ANYREF).bytes ≡ 0x63 ∷ 0x6e ∷ [] }
    ensures eq { (ref_type RefType.EQREF).bytes ≡ 0x63 ∷ 0x6d ∷ [] }
    ensures struct_ { (ref_type RefType.STRUCTREF).bytes ≡ 0x63 ∷ 0x6b ∷ [] }
    ensures array { (ref_type RefType.ARRAYREF).bytes ≡ 0x63 ∷ 0x6a ∷ [] }
    ensures no_func { (ref_type RefType.NULLFUNCREF).bytes ≡ 0x63 ∷ 0x73 ∷ [] }
    ensures no_extern { (ref_type RefType.NULLEXTERNREF).bytes ≡ 0x63 ∷ 0x72 ∷ [] }
    ensures none { (ref_type RefType.NULLREF).bytes ≡ 0x63 ∷ 0x71 ∷ [] }
    ensures i31 { (ref_type RefType.I31REF).bytes ≡ 0x63 ∷ 0x6c ∷ [] }
{}
