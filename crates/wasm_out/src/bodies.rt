//! Function bodies.

ghost use Rattle.std.specs.Prelude.{◌≡◌, ◌∷◌, [], length, IsTrue};
ghost use Rattle.std.specs.List.{list_all};
ghost use Rattle.wasm_ops.specs.Spelling.{InRangeVec, val_type};
ghost use Rattle.wasm_ops.specs.Table.{SpellsInstrs};
ghost use Rattle.wasm_out.specs.Built.{Appends, Makes};
ghost use Rattle.wasm_out.specs.Bodies.{locals};

use crate::locals::Locals;
use std::alloc::Global;
use std::marker::Model;
use wasm_ops::{AsItself, Encode, Sink, ValType};
use wast_base::Error;

/// A function body that is built from encoded instructions (binary format: code section).
///
/// Its model in contracts is its bytes, without the length that [`CodeSection`](crate::CodeSection)
/// adds.
///
/// # Example
///
///     let mut body = Function::new_with_locals_types(alloc, &[])?;
///     body.raw(&instructions(alloc)?)?;
///     body.end()?;
///     Ok(body)
#[derive(Debug, Drop)]
pub struct Function {
    bytes: Vec<u8>,
}

impl Model for Function {
    ghost use Rattle.std.specs.Prelude.{ℕ, List};

    ghost Value = { List ℕ };

    ghost view = { λ f. f.bytes.items };
}

impl Function {
    /// Creates a body with these locals, and no instructions yet (binary format: code section).
    ///
    /// The locals are encoded as maximal runs of equal types: `i32 i32 i64` is `02 02 7f 01 7e`.
    /// Test [`ValType::is_covered`] of each type first.
    pub fn new_with_locals_types<'e>(
        alloc: Global,
        types: &[ValType],
    ) -> Result<Function, Error<'e>>
        requires { IsTrue (list_all (λ x. (val_type x).is_covered) types.now) }
        ensures { Makes (InRangeVec (λ x. (val_type x).in_range) types.now) (locals types.now) result }
    {
        let mut bytes = Vec::new(alloc);
        Locals(types, AsItself).encode(&mut bytes)?;
        Ok(Function { bytes })
    }

    /// Appends encoded instructions (binary format: instructions).
    ///
    /// Blocks may be left open, or closed without being opened, because a body is read up to its
    /// length.
    pub fn raw<'e>(&mut self, bytes: &[u8]) -> Result<(), Error<'e>>
        requires { SpellsInstrs bytes.now }
        ensures { Appends (Unit {0}) self.old self.new bytes.now result }
    {
        self.bytes.put(bytes)
    }

    /// Returns how many bytes the body has so far, without its length (binary format: code
    /// section).
    ///
    ///     assert!(rt; body.byte_len() == 8 && section.byte_len() == 9);
    pub fn byte_len(&self) -> usize
        ensures { result ≡ length self.now }
    {
        self.bytes.len()
    }

    /// Appends the `end` of the body, `0b` (binary format: expressions).
    pub fn end<'e>(&mut self) -> Result<(), Error<'e>>
        ensures { Appends (Unit {0}) self.old self.new (0x0b ∷ []) result }
    {
        self.bytes.put(&[0x0b])
    }

    /// Borrows the bytes of the body.
    pub(crate) fn as_bytes(&self) -> &[u8]
        ensures { result.now ≡ self.now }
    {
        &self.bytes
    }
}
