//! Constant expressions.

ghost use Rattle.std.specs.Prelude.{◌≡◌, ◌∷◌, ◌++◌, [], true};
ghost use Rattle.wasm_ops.specs.ConstExprs.{SpellsExpression};
ghost use Rattle.wasm_ops.specs.Spelling.{Any};

use crate::encode::{Encode, Raw};
use crate::sink::{Refusal, Sink};
use std::marker::Model;

/// The encoded instructions of a constant expression, without the final `0b` (binary format:
/// expressions).
///
/// Its model in contracts is these bytes, in which all blocks are closed.
///
///     let bytes = i32_const(alloc, value)?;
///     Ok(ConstExpr::raw(bytes))
#[derive(Debug, Drop)]
pub struct ConstExpr {
    bytes: Vec<u8>,
}

impl Model for ConstExpr {
    ghost use Rattle.std.specs.Prelude.{ℕ, List};
    ghost use Rattle.wasm_ops.specs.ConstExprs.{SpellsExpression};

    ghost Value = { List ℕ };

    ghost view = { λ e. e.bytes.items };

    ghost invariant = { λ e. SpellsExpression e.bytes.items };
}

impl ConstExpr {
    /// Creates an expression from encoded instructions (binary format: instructions).
    ///
    /// All blocks must be closed, because the first `0b` outside of all blocks ends an expression.
    /// The clauses of [`InstructionSink`](crate::InstructionSink) help to show it.
    pub fn raw(bytes: Vec<u8>) -> ConstExpr
        requires { SpellsExpression bytes.items }
        ensures { result ≡ bytes.items }
    {
        ConstExpr { bytes }
    }

    /// Returns whether the encoder supports it: always, because its bytes are encoded instructions.
    pub fn is_covered(&self) -> bool
        ensures value { result ≡ true }
        ensures spelled { SpellsExpression self.now }
    {
        let _ = &self.bytes;
        true // since each spelled instruction is covered
    }
}

/// The instructions, then `0b` (binary format: expressions).
impl Encode for ConstExpr {
    ghost spelling = { λ e. e ++ 0x0b ∷ [] };

    ghost in_range = { Any };

    ghost is_ready = { λ _. true };

    fn encode<S: Sink>(&self, out: &mut S) -> Result<(), Refusal> {
        (Raw(&self.bytes), 0x0bu8).encode(out)
    }
}
