//! Values of a script: arguments, and what results have to be.

ghost use Rattle.std.specs.Prelude.{◌≡◌};
ghost use Rattle.wast_script.specs.Constants.{lane_count};

use wast_base::Index;
use wast_tree_nodes::HeapType;

/// A part of a list of a script: the elements from `start` on, up to `end`, which is not among them.
#[derive(Clone, Copy, Debug, PartialEq, Eq)]
pub struct Part {
    /// The number of the first element.
    pub start: usize,
    /// The number after that of the last element.
    pub end: usize,
}

/// A number, or what the number of a result has to be. For example `nan:canonical` is [`Number::Canonical`].
#[derive(Clone, Copy, Debug, PartialEq, Eq)]
pub enum Number {
    /// The bits of the number: those of an integer in two's complement, and those of a float (IEEE 754).
    Bits(u64),
    /// A canonical NaN of either sign: `nan:canonical`.
    Canonical,
    /// An arithmetic NaN of either sign: `nan:arithmetic`.
    Arithmetic,
}

/// The lanes of a vector (text format, vector instructions).
#[derive(Clone, Copy, Debug, PartialEq, Eq)]
pub enum Shape {
    /// `i8x16`
    I8x16,
    /// `i16x8`
    I16x8,
    /// `i32x4`
    I32x4,
    /// `i64x2`
    I64x2,
    /// `f32x4`
    F32x4,
    /// `f64x2`
    F64x2,
}

impl Shape {
    /// Returns how many lanes a vector of this shape has: 16 for `i8x16`.
    pub fn lanes(self) -> usize
        ensures { result ≡ lane_count self }
    {
        match self {
            Shape::I8x16 => 16,
            Shape::I16x8 => 8,
            Shape::I32x4 | Shape::F32x4 => 4,
            Shape::I64x2 | Shape::F64x2 => 2,
        }
    }
}

/// An argument of an action, or what a result has to be. For example `(i32.const -1)` is [`Value::I32`] of -1, and
/// `(ref.extern)`, which is a result alone, is [`Value::RefExtern`] of no number.
#[derive(Clone, Copy)]
pub enum Value<'a> {
    /// `i32.const`
    I32(i32),
    /// `i64.const`
    I64(i64),
    /// `f32.const`: its bits, or a NaN.
    F32(Number),
    /// `f64.const`: its bits, or a NaN.
    F64(Number),
    /// `v128.const`: its shape, and the part of the script's lanes that it has.
    V128(Shape, Part),
    /// `ref.null`, with the type that a result may leave out.
    RefNull(Option<HeapType<'a>>),
    /// `ref.extern`, with the number of a host's reference. A result without a number is any external reference.
    RefExtern(Option<u32>),
    /// `ref.host`: a host's reference of this number, which is not external.
    RefHost(u32),
    /// `ref.func`: any reference to a function, or to this one.
    RefFunc(Option<Index<'a>>),
    /// Any reference of a type that is not null: `ref.any`, `ref.eq`, `ref.i31`, `ref.i31_shared`, `ref.struct`, `ref.array`.
    Ref(HeapType<'a>),
    /// `either`: so many values after this one, and the result is one of them.
    Either(usize),
}
