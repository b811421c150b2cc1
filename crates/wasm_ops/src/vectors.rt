//! Vector instructions: constants, lanes, and loads and stores of lanes.

ghost use Rattle.std.specs.Prelude.{◌≡◌, ◌&&◌, true};
ghost use Rattle.wasm_ops.specs.Memargs.{is_aligned, memarg};
ghost use Rattle.wasm_ops.specs.VectorInstrs.{lanes_key, lanes_instr, lane_instr, mem_lane_instr};
ghost use Rattle.wasm_ops.specs.Opcodes.{opcode_of};
ghost use Rattle.wasm_ops.specs.Table.{instr};

use crate::encode::{Encode, Raw};
use crate::memargs::MemArg;
use crate::opcodes::{Opcode, lane_opcode, mem_lane_opcode};
use crate::sink::{Refusal, Sink};
use wast_base::{LaneOp, MemLaneOp};

/// An instruction with an immediate of sixteen bytes (binary format: vector instructions).
///
/// The number of a variant is its key in the opcode table.
#[derive(Clone, Copy, Debug, PartialEq, Eq)]
pub enum LanesOp {
    /// `v128.const`, with the bytes of a vector, the lowest first
    Const = 0xfd000c,
    /// `i8x16.shuffle`, with lane numbers
    Shuffle,
}

impl LanesOp {
    /// Returns the opcode, which comes before the bytes (binary format: vector instructions).
    pub fn opcode(self) -> Opcode
        ensures { result ≡ opcode_of (lanes_key self) }
    {
        Opcode::of(self as u32)
    }
}

/// An instruction with sixteen bytes (binary format: vector instructions).
///
/// For example, `i8x16.shuffle 0 1 2 3 4 5 6 7 8 9 10 11 12 13 14 31` is `fd 0d` and these sixteen
/// bytes.
#[derive(Clone, Copy, Debug, PartialEq, Eq)]
pub struct LanesInstr {
    /// The instruction.
    pub op: LanesOp,
    /// The bytes, or lane numbers.
    pub lanes: [u8; 16],
}

impl Encode for LanesInstr {
    ghost spelling = { λ i. (instr (lanes_instr i.op i.lanes)).bytes };

    ghost in_range = { λ i. (instr (lanes_instr i.op i.lanes)).in_range };

    ghost is_ready = { λ _. true };

    fn encode<S: Sink>(&self, out: &mut S) -> Result<(), Refusal> {
        let lanes = self.lanes;
        (self.op.opcode(), Raw(&lanes)).encode(out)
    }
}

/// An instruction with a lane number (binary format: vector instructions).
///
/// For example, `i8x16.extract_lane_s 3` is `fd 15 03`.
#[derive(Clone, Copy, Debug, PartialEq, Eq)]
pub struct LaneInstr {
    /// The instruction.
    pub op: LaneOp,
    /// The lane.
    pub lane: u8,
}

impl Encode for LaneInstr {
    ghost spelling = { λ i. (instr (lane_instr i.op i.lane)).bytes };

    ghost in_range = { λ i. (instr (lane_instr i.op i.lane)).in_range };

    ghost is_ready = { λ _. true };

    fn encode<S: Sink>(&self, out: &mut S) -> Result<(), Refusal> {
        (lane_opcode(self.op), self.lane).encode(out)
    }
}

/// A load or a store of a lane (binary format: vector instructions).
///
/// For example, `v128.load8_lane offset=4 3` is `fd 54 00 04 03`.
#[derive(Clone, Copy, Debug, PartialEq, Eq)]
pub struct MemLaneInstr {
    /// The instruction.
    pub op: MemLaneOp,
    /// The memory argument.
    pub memarg: MemArg,
    /// The lane.
    pub lane: u8,
}

impl Encode for MemLaneInstr {
    ghost spelling = { λ i. (instr (mem_lane_instr i.op i.memarg i.lane)).bytes };

    ghost in_range = { λ i. (instr (mem_lane_instr i.op i.memarg i.lane)).in_range };

    ghost is_ready = { λ i. is_aligned i.memarg && (memarg i.memarg).is_covered };

    fn encode<S: Sink>(&self, out: &mut S) -> Result<(), Refusal> {
        (mem_lane_opcode(self.op), (self.memarg, self.lane)).encode(out)
    }
}
