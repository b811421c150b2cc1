//! Block types, and the clauses of `try_table`.

ghost use Rattle.std.specs.Prelude.{◌≡◌, true, false};
ghost use Rattle.wasm_ops.specs.Control.{block_type, catch_clause};

use crate::encode::Encode;
use crate::leb128::push_signed;
use crate::sink::{Refusal, Sink};
use crate::types::ValType;

/// The type of a block: its parameters and results (binary format: control instructions).
///
/// For example, `(result i32)` is `7f`, and the function type at index 64 is `c0 00`.
#[derive(Clone, Copy, Debug, PartialEq, Eq)]
pub enum BlockType {
    /// No parameters and no results.
    Empty,
    /// No parameters and one result.
    Result(ValType),
    /// The parameters and results of the function type at an index.
    FunctionType(u32),
}

impl BlockType {
    /// Returns whether the encoder supports it: its value type, if it has one.
    pub fn is_covered(&self) -> bool
        ensures { result ≡ (block_type self.now).is_covered }
    {
        match self {
            BlockType::Empty => true,
            BlockType::Result(ty) => ty.is_covered(),
            BlockType::FunctionType(_) => true,
        }
    }
}

/// An index is encoded as a signed number, because negative numbers are the value types.
impl Encode for BlockType {
    ghost spelling = { λ x. (block_type x).bytes };

    ghost in_range = { λ x. (block_type x).in_range };

    ghost is_ready = { λ x. (block_type x).is_covered };

    fn encode<S: Sink>(&self, out: &mut S) -> Result<(), Refusal> {
        match self {
            BlockType::Empty => 0x40u8.encode(out),
            BlockType::Result(ty) => ty.encode(out),
            BlockType::FunctionType(index) => push_signed(out, i64::from(*index)),
        }
    }
}

/// A catch clause of `try_table`, with its label (binary format: control instructions).
///
/// For example, `catch_all 0` is `02 00`.
#[derive(Clone, Copy, Debug, PartialEq, Eq)]
pub enum Catch {
    /// `catch`: the exceptions of a tag.
    One {
        /// The index of the tag.
        tag: u32,
        /// The label.
        label: u32,
    },
    /// `catch_ref`: the exceptions of a tag, with a reference to the exception.
    OneRef {
        /// The index of the tag.
        tag: u32,
        /// The label.
        label: u32,
    },
    /// `catch_all`: all exceptions.
    All {
        /// The label.
        label: u32,
    },
    /// `catch_all_ref`: all exceptions, with a reference to the exception.
    AllRef {
        /// The label.
        label: u32,
    },
}

impl Catch {
    /// Returns whether the encoder supports it: always.
    pub fn is_covered(&self) -> bool
        ensures { result ≡ true }
    {
        true // since no clause is a form that is not covered
    }
}

/// A byte for the form, then the tag if there is one, and the label.
impl Encode for Catch {
    ghost spelling = { λ x. (catch_clause x).bytes };

    ghost in_range = { λ x. (catch_clause x).in_range };

    ghost is_ready = { λ _. true };

    fn encode<S: Sink>(&self, out: &mut S) -> Result<(), Refusal> {
        match *self {
            Catch::One { tag, label } => (0x00u8, (tag, label)).encode(out),
            Catch::OneRef { tag, label } => (0x01u8, (tag, label)).encode(out),
            Catch::All { label } => (0x02u8, label).encode(out),
            Catch::AllRef { label } => (0x03u8, label).encode(out),
        }
    }
}

/// A handler of `resume` for a tag (stack switching). The encoder supports none.
#[derive(Clone, Copy, Debug, PartialEq, Eq)]
pub enum Handle {
    /// Branches to a label.
    OnLabel {
        /// The index of the tag.
        tag: u32,
        /// The label.
        label: u32,
    },
    /// Switches to another continuation.
    OnSwitch {
        /// The index of the tag.
        tag: u32,
    },
}

impl Handle {
    /// Returns whether the encoder supports it: never.
    pub fn is_covered(&self) -> bool
        ensures { result ≡ false }
    {
        false // since each is a form that is not covered
    }
}
