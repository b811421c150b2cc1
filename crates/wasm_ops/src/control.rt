//! Blocks, the ends of blocks, `br_table` and `try_table`.

ghost use Rattle.std.specs.Prelude.{◌≡◌, ◌&&◌, true};
ghost use Rattle.wasm_ops.specs.Control.{block_type};
ghost use Rattle.wasm_ops.specs.ControlInstrs.{block_key, block_instr, delimiter_key, delimiter_instr, br_table_bytes, try_table_bytes};
ghost use Rattle.wasm_ops.specs.Opcodes.{opcode_of};
ghost use Rattle.wasm_ops.specs.Spelling.{InRangeU32};
ghost use Rattle.wasm_ops.specs.Table.{instr};

use crate::blocks::BlockType;
use crate::encode::Encode;
use crate::opcodes::Opcode;
use crate::sink::{Refusal, Sink};

/// An instruction that opens a block and has only a block type (binary format: control
/// instructions).
///
/// The number of a variant is its key in the opcode table.
#[derive(Clone, Copy, Debug, PartialEq, Eq)]
pub enum BlockOp {
    /// `block`
    Block = 0x02,
    /// `loop`
    Loop = 0x03,
    /// `if`
    If = 0x04,
    /// `try`
    Try = 0x06,
}

impl BlockOp {
    /// Returns the opcode, which comes before the block type (binary format: control instructions).
    pub fn opcode(self) -> Opcode
        ensures { result ≡ opcode_of (block_key self) }
    {
        Opcode::of(self as u32)
    }
}

/// An instruction that opens a block (binary format: control instructions).
///
/// For example, `block (result i32)` is `02 7f`.
#[derive(Clone, Copy, Debug, PartialEq, Eq)]
pub struct BlockInstr {
    /// The instruction.
    pub op: BlockOp,
    /// The type of the block.
    pub ty: BlockType,
}

impl Encode for BlockInstr {
    ghost spelling = { λ i. (instr (block_instr i.op i.ty)).bytes };

    ghost in_range = { λ i. (instr (block_instr i.op i.ty)).in_range };

    ghost is_ready = { λ i. (block_type i.ty).is_covered };

    fn encode<S: Sink>(&self, out: &mut S) -> Result<(), Refusal> {
        (self.op.opcode(), self.ty).encode(out)
    }
}

/// `else` or `end` (binary format: control instructions).
///
/// The number of a variant is its key in the opcode table, which is its byte: `end` is `0b`.
#[derive(Clone, Copy, Debug, PartialEq, Eq)]
pub enum Delimiter {
    /// `else`
    Else = 0x05,
    /// `end`
    End = 0x0b,
}

impl Delimiter {
    /// Returns the opcode, which is the whole instruction (binary format: control instructions).
    pub fn opcode(self) -> Opcode
        ensures { result ≡ opcode_of (delimiter_key self) }
    {
        Opcode::of(self as u32)
    }
}

impl Encode for Delimiter {
    ghost spelling = { λ d. (instr (delimiter_instr d)).bytes };

    ghost in_range = { λ d. (instr (delimiter_instr d)).in_range };

    ghost is_ready = { λ _. true };

    fn encode<S: Sink>(&self, out: &mut S) -> Result<(), Refusal> {
        self.opcode().encode(out)
    }
}

/// The instruction `br_table`, with an encoding of its list of labels (control instructions).
///
/// For example, `br_table 1 2 0` is `0e 02 01 02 00`. The list is a type parameter, because callers
/// keep labels in other types than numbers.
#[derive(Clone, Copy, Debug)]
pub struct BrTable<L> {
    /// The labels that the operand selects from.
    pub labels: L,
    /// The label if the operand is too large.
    pub default: u32,
}

impl<L: Encode> Encode for BrTable<L> {
    ghost spelling = { λ i. br_table_bytes (L.spelling i.labels) i.default };

    ghost in_range = { λ i. L.in_range i.labels × InRangeU32 i.default };

    ghost is_ready = { λ i. L.is_ready i.labels };

    fn encode<S: Sink>(&self, out: &mut S) -> Result<(), Refusal> {
        (0x0eu8, (&self.labels, self.default)).encode(out)
    }
}

/// The instruction `try_table`, with an encoding of its list of clauses (control instructions).
///
/// For example, `try_table (catch_all 0)` is `1f 40 01 02 00`. The list is a type parameter for the
/// same reason as in [`BrTable`].
#[derive(Clone, Copy, Debug)]
pub struct TryTable<C> {
    /// The type of the block.
    pub ty: BlockType,
    /// The catch clauses, in order.
    pub catches: C,
}

impl<C: Encode> Encode for TryTable<C> {
    ghost spelling = { λ i. try_table_bytes i.ty (C.spelling i.catches) };

    ghost in_range = { λ i. (block_type i.ty).in_range × C.in_range i.catches };

    ghost is_ready = { λ i. (block_type i.ty).is_covered && C.is_ready i.catches };

    fn encode<S: Sink>(&self, out: &mut S) -> Result<(), Refusal> {
        (0x1fu8, (self.ty, &self.catches)).encode(out)
    }
}
