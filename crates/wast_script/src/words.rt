//! The words that begin commands and values.

ghost use Rattle.std.specs.Prelude.{◌≡◌};
ghost use Rattle.wast_script.specs.Words.{verb_named, constant_named, shape_named};

use crate::values::Shape;
use wast_tree_nodes::AbstractHeapType;

/// Whether a value is an argument, or what a result has to be.
#[derive(Clone, Copy)]
pub(crate) enum Use {
    Argument,
    Result,
}

/// The word that begins a command.
#[derive(Clone, Copy)]
pub(crate) enum Verb {
    Module,
    Register,
    Invoke,
    Get,
    AssertReturn,
    AssertTrap,
    AssertExhaustion,
    AssertException,
    AssertSuspension,
    AssertMalformed,
    AssertMalformedCustom,
    AssertInvalid,
    AssertInvalidCustom,
    AssertUnlinkable,
    Thread,
    Wait,
}

/// Returns the verb of a word, if it begins a command.
pub(crate) fn verb_of(word: &str) -> Option<Verb>
    ensures { result ≡ verb_named word.now }
{
    match word {
        "module" => Some(Verb::Module),
        "register" => Some(Verb::Register),
        "invoke" => Some(Verb::Invoke),
        "get" => Some(Verb::Get),
        "assert_return" => Some(Verb::AssertReturn),
        "assert_trap" => Some(Verb::AssertTrap),
        "assert_exhaustion" => Some(Verb::AssertExhaustion),
        "assert_exception" => Some(Verb::AssertException),
        "assert_suspension" => Some(Verb::AssertSuspension),
        "assert_malformed" => Some(Verb::AssertMalformed),
        "assert_malformed_custom" => Some(Verb::AssertMalformedCustom),
        "assert_invalid" => Some(Verb::AssertInvalid),
        "assert_invalid_custom" => Some(Verb::AssertInvalidCustom),
        "assert_unlinkable" => Some(Verb::AssertUnlinkable),
        "thread" => Some(Verb::Thread),
        "wait" => Some(Verb::Wait),
        _ => None,
    }
}

/// The word that begins a value.
#[derive(Clone, Copy)]
pub(crate) enum Constant {
    I32,
    I64,
    F32,
    F64,
    V128,
    RefNull,
    RefExtern,
    RefHost,
    RefFunc,
    /// A reference of a type, and whether the type is shared.
    Ref(AbstractHeapType, bool),
}

/// Returns the value that a word begins.
pub(crate) fn constant_of(word: &str) -> Option<Constant>
    ensures { result ≡ constant_named word.now }
{
    match word {
        "i32.const" => Some(Constant::I32),
        "i64.const" => Some(Constant::I64),
        "f32.const" => Some(Constant::F32),
        "f64.const" => Some(Constant::F64),
        "v128.const" => Some(Constant::V128),
        "ref.null" => Some(Constant::RefNull),
        "ref.extern" => Some(Constant::RefExtern),
        "ref.host" => Some(Constant::RefHost),
        "ref.func" => Some(Constant::RefFunc),
        "ref.any" => Some(Constant::Ref(AbstractHeapType::Any, false)),
        "ref.eq" => Some(Constant::Ref(AbstractHeapType::Eq, false)),
        "ref.i31" => Some(Constant::Ref(AbstractHeapType::I31, false)),
        "ref.i31_shared" => Some(Constant::Ref(AbstractHeapType::I31, true)),
        "ref.struct" => Some(Constant::Ref(AbstractHeapType::Struct, false)),
        "ref.array" => Some(Constant::Ref(AbstractHeapType::Array, false)),
        _ => None,
    }
}

/// Returns the shape of a word (text format, vector instructions).
pub(crate) fn shape_of(word: &str) -> Option<Shape>
    ensures { result ≡ shape_named word.now }
{
    match word {
        "i8x16" => Some(Shape::I8x16),
        "i16x8" => Some(Shape::I16x8),
        "i32x4" => Some(Shape::I32x4),
        "i64x2" => Some(Shape::I64x2),
        "f32x4" => Some(Shape::F32x4),
        "f64x2" => Some(Shape::F64x2),
        _ => None,
    }
}
