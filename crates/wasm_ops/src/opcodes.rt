//! Opcodes: the bytes before the immediates of an instruction.

ghost use Rattle.std.specs.Prelude.{◌≡◌, ◌<◌, true};
ghost use Rattle.wasm_ops.specs.Keys.{plain_key, mem_key, lane_key, mem_lane_key};
ghost use Rattle.wasm_ops.specs.Opcodes.{opcode_of, opcode_bytes, InRangeOpcode};

use crate::encode::Encode;
use crate::pieces::push_number_after;
use crate::sink::{Refusal, Sink};
use wast_base::{LaneOp, MemLaneOp, MemOp, Plain};

/// The opcode of an instruction (binary format: instructions).
///
/// For example, `drop` is `Byte(0x1a)`, and `memory.copy` is `Prefixed(0xfc, 10)`.
#[derive(Clone, Copy, Debug, PartialEq, Eq)]
pub enum Opcode {
    /// One byte.
    Byte(u8),
    /// A prefix byte that several instructions share, and a number.
    Prefixed(u8, u32),
}

impl Opcode {
    /// Returns the opcode of a key: the byte, or 65536 times the prefix plus the number after it.
    #[inline(always)]
    pub(crate) fn of(key: u32) -> Opcode
        requires { key < 0x1000000 }
        ensures { result ≡ opcode_of key }
    {
        if key < 0x100 {
            return Opcode::Byte(key as u8);
        }
        Opcode::Prefixed((key / 0x10000) as u8, key % 0x10000)
    }
}

impl Encode for Opcode {
    ghost spelling = { opcode_bytes };

    ghost in_range = { InRangeOpcode };

    ghost is_ready = { λ _. true };

    #[inline(always)]
    fn encode<S: Sink>(&self, out: &mut S) -> Result<(), Refusal> {
        match *self {
            Opcode::Byte(byte) => out.push_bytes(&[byte]),
            Opcode::Prefixed(prefix, number) => push_number_after(prefix, number, out),
        }
    }
}

/// Returns the key of an instruction without immediates.
fn plain_key(op: &Plain) -> u32
    ensures value { result ≡ plain_key op.now }
    ensures small { result < 0x1000000 }
{
    match op {
        Plain::Bare(op) => *op as u32,
        Plain::I32(op) => *op as u32,
        Plain::I64(op) => *op as u32,
        Plain::F32(op) => *op as u32,
        Plain::F64(op) => *op as u32,
        Plain::Ref(op) => *op as u32,
        Plain::Array(op) => *op as u32,
        Plain::Any(op) => *op as u32,
        Plain::Extern(op) => *op as u32,
        Plain::I31(op) => *op as u32,
        Plain::I8x16(op) => *op as u32,
        Plain::I16x8(op) => *op as u32,
        Plain::I32x4(op) => *op as u32,
        Plain::I64x2(op) => *op as u32,
        Plain::F32x4(op) => *op as u32,
        Plain::F64x2(op) => *op as u32,
        Plain::V128(op) => *op as u32,
    }
}

/// Returns the opcode of an instruction without immediates.
#[inline(always)]
pub(crate) fn plain_opcode(op: &Plain) -> Opcode
    ensures { result ≡ opcode_of (plain_key op.now) }
{
    Opcode::of(plain_key(op))
}

/// Returns the opcode of an instruction with a memory argument.
#[inline(always)]
pub(crate) fn mem_opcode(op: MemOp) -> Opcode
    ensures { result ≡ opcode_of (mem_key op) }
{
    Opcode::of(op as u32)
}

/// Returns the opcode of an instruction with a lane number.
pub(crate) fn lane_opcode(op: LaneOp) -> Opcode
    ensures { result ≡ opcode_of (lane_key op) }
{
    Opcode::of(op as u32)
}

/// Returns the opcode of a load or a store of a lane.
pub(crate) fn mem_lane_opcode(op: MemLaneOp) -> Opcode
    ensures { result ≡ opcode_of (mem_lane_key op) }
{
    Opcode::of(op as u32)
}
