//! Instructions without immediates, and with indices, constants, memory arguments or types.

ghost use Rattle.std.specs.List.{All, list_all};
ghost use Rattle.std.specs.Option.{option_map, option_to_list};
ghost use Rattle.std.specs.Prelude.{◌≡◌, ◌&&◌, ℕ, true};
ghost use Rattle.wasm_ops.specs.ConstantInstrs.{i32_const_instr, i64_const_instr, f32_const_instr, f64_const_instr, ref_null_instr};
ghost use Rattle.wasm_ops.specs.IndexInstrs.{index_instr, index_pair_instr};
ghost use Rattle.wasm_ops.specs.Keys.{index_key, index_pair_key};
ghost use Rattle.wasm_ops.specs.Memargs.{is_aligned, memarg};
ghost use Rattle.wasm_ops.specs.MemoryInstrs.{mem_instr};
ghost use Rattle.wasm_ops.specs.Opcodes.{opcode_of};
ghost use Rattle.wasm_ops.specs.PlainInstrs.{plain_instr};
ghost use Rattle.wasm_ops.specs.SelectInstrs.{select_bytes};
ghost use Rattle.wasm_ops.specs.Spelling.{heap_type};
ghost use Rattle.wasm_ops.specs.Table.{instr};

use crate::encode::{Encode, Raw};
use crate::memargs::MemArg;
use crate::opcodes::{Opcode, mem_opcode, plain_opcode};
use crate::pieces::{push_number_after, push_numbers_after, push_signed_after};
use crate::ref_types::HeapType;
use crate::sink::{Refusal, Sink};
use wast_base::{IndexOp, IndexPairOp, MemOp, Plain};

/// An instruction class whose values have an opcode (binary format: instructions).
///
/// For example, the opcode of `IndexOp::Call` is the byte `10`.
pub trait HasOpcode {
    /// The key of the opcode.
    ghost key: { Self → ℕ };

    /// Returns the opcode. Does not allocate.
    fn opcode(&self) -> Opcode
        ensures { result ≡ opcode_of (key self.now) };
}

impl HasOpcode for IndexOp {
    ghost key = { index_key };

    #[inline(always)]
    fn opcode(&self) -> Opcode {
        Opcode::of(*self as u32)
    }
}

impl HasOpcode for IndexPairOp {
    ghost key = { index_pair_key };

    fn opcode(&self) -> Opcode {
        Opcode::of(*self as u32)
    }
}

/// An instruction with an index (binary format: instructions).
///
/// For example, `call 3` is `10 03`.
#[derive(Clone, Copy, Debug, PartialEq, Eq)]
pub struct IndexInstr {
    /// The instruction.
    pub op: IndexOp,
    /// The index.
    pub index: u32,
}

impl Encode for IndexInstr {
    ghost spelling = { λ i. (instr (index_instr i.op i.index)).bytes };

    ghost in_range = { λ i. (instr (index_instr i.op i.index)).in_range };

    ghost is_ready = { λ _. true };

    #[inline(always)]
    fn encode<S: Sink>(&self, out: &mut S) -> Result<(), Refusal> {
        match self.op.opcode() {
            Opcode::Byte(byte) => push_number_after(byte, self.index, out),
            prefixed => (prefixed, self.index).encode(out),
        }
    }
}

/// An instruction with two indices (binary format: instructions).
///
/// For example, `memory.copy 1 2` is `fc 0a 01 02`.
#[derive(Clone, Copy, Debug, PartialEq, Eq)]
pub struct IndexPair {
    /// The instruction.
    pub op: IndexPairOp,
    /// The first number in the encoding.
    pub first: u32,
    /// The second number in the encoding: an index, or a length.
    pub second: u32,
}

impl Encode for IndexPair {
    ghost spelling = { λ i. (instr (index_pair_instr i.op i.first i.second)).bytes };

    ghost in_range = { λ i. (instr (index_pair_instr i.op i.first i.second)).in_range };

    ghost is_ready = { λ _. true };

    fn encode<S: Sink>(&self, out: &mut S) -> Result<(), Refusal> {
        (self.op.opcode(), (self.first, self.second)).encode(out)
    }
}

/// An instruction without immediates: `drop` is `1a` (binary format: instructions).
impl Encode for Plain {
    ghost spelling = { λ p. (instr (plain_instr p)).bytes };

    ghost in_range = { λ p. (instr (plain_instr p)).in_range };

    ghost is_ready = { λ _. true };

    #[inline(always)]
    fn encode<S: Sink>(&self, out: &mut S) -> Result<(), Refusal> {
        plain_opcode(self).encode(out)
    }
}

/// The instruction `i32.const`, with its bits as a signed number (binary format: instructions).
///
/// For example, `i32.const -1` is `41 7f`.
#[derive(Clone, Copy, Debug, PartialEq, Eq)]
pub struct I32Const(pub i32);

impl Encode for I32Const {
    ghost spelling = { λ c. (instr (i32_const_instr c.0)).bytes };

    ghost in_range = { λ c. (instr (i32_const_instr c.0)).in_range };

    ghost is_ready = { λ _. true };

    #[inline(always)]
    fn encode<S: Sink>(&self, out: &mut S) -> Result<(), Refusal> {
        push_signed_after(0x41, i64::from(self.0), out)
    }
}

/// The instruction `i64.const`, with its bits as a signed number (binary format: instructions).
///
/// For example, `i64.const -1` is `42 7f`.
#[derive(Clone, Copy, Debug, PartialEq, Eq)]
pub struct I64Const(pub i64);

impl Encode for I64Const {
    ghost spelling = { λ c. (instr (i64_const_instr c.0)).bytes };

    ghost in_range = { λ c. (instr (i64_const_instr c.0)).in_range };

    ghost is_ready = { λ _. true };

    #[inline(always)]
    fn encode<S: Sink>(&self, out: &mut S) -> Result<(), Refusal> {
        push_signed_after(0x42, self.0, out)
    }
}

/// The instruction `f32.const`, with its bits as a number (binary format: instructions).
///
/// For example, `f32.const 1` has the bits 1065353216, and is `43 00 00 80 3f`.
#[derive(Clone, Copy, Debug, PartialEq, Eq)]
pub struct F32Const(pub u32);

/// The four bytes of the bits, the lowest first.
impl Encode for F32Const {
    ghost spelling = { λ c. (instr (f32_const_instr c.0)).bytes };

    ghost in_range = { λ c. (instr (f32_const_instr c.0)).in_range };

    ghost is_ready = { λ _. true };

    fn encode<S: Sink>(&self, out: &mut S) -> Result<(), Refusal> {
        let bits = self.0.to_le_bytes();
        (0x43u8, Raw(&bits)).encode(out)
    }
}

/// The instruction `f64.const`, with its bits as a number (binary format: instructions).
///
/// For example, `f64.const 0` has the bits 0, and is `44 00 00 00 00 00 00 00 00`.
#[derive(Clone, Copy, Debug, PartialEq, Eq)]
pub struct F64Const(pub u64);

/// The eight bytes of the bits, the lowest first.
impl Encode for F64Const {
    ghost spelling = { λ c. (instr (f64_const_instr c.0)).bytes };

    ghost in_range = { λ c. (instr (f64_const_instr c.0)).in_range };

    ghost is_ready = { λ _. true };

    fn encode<S: Sink>(&self, out: &mut S) -> Result<(), Refusal> {
        let bits = self.0.to_le_bytes();
        (0x44u8, Raw(&bits)).encode(out)
    }
}

/// An instruction with a memory argument (binary format: memory instructions).
///
/// For example, `i32.load offset=4` is `28 02 04`.
#[derive(Clone, Copy, Debug, PartialEq, Eq)]
pub struct MemInstr {
    /// The instruction.
    pub op: MemOp,
    /// The memory argument.
    pub memarg: MemArg,
}

impl Encode for MemInstr {
    ghost spelling = { λ i. (instr (mem_instr i.op i.memarg)).bytes };

    ghost in_range = { λ i. (instr (mem_instr i.op i.memarg)).in_range };

    ghost is_ready = { λ i. is_aligned i.memarg && (memarg i.memarg).is_covered };

    #[inline(always)]
    fn encode<S: Sink>(&self, out: &mut S) -> Result<(), Refusal> {
        let memarg = self.memarg;
        match (mem_opcode(self.op), memarg.target.index()) {
            (Opcode::Byte(byte), 0) => push_numbers_after(byte, memarg.align, memarg.offset, out),
            (opcode, _) => (opcode, memarg).encode(out),
        }
    }
}

/// The instruction `select`, with an encoding of its list of types, if it has one.
///
/// For example, `select (result i32)` is `1c 01 7f`, and `select` is `1b` (binary format:
/// parametric instructions).
#[derive(Clone, Copy, Debug)]
pub struct Select<T>(pub Option<T>);

impl<T: Encode> Encode for Select<T> {
    ghost spelling = { λ s. select_bytes (option_map T.spelling s.0) };

    ghost in_range = { λ s. All T.in_range (option_to_list s.0) };

    ghost is_ready = { λ s. list_all T.is_ready (option_to_list s.0) };

    fn encode<S: Sink>(&self, out: &mut S) -> Result<(), Refusal> {
        match &self.0 {
            None => 0x1bu8.encode(out),
            Some(types) => (0x1cu8, types).encode(out),
        }
    }
}

/// The instruction `ref.null` with its heap type (binary format: instructions).
///
/// For example, `ref.null func` is `d0 70`.
#[derive(Clone, Copy, Debug, PartialEq, Eq)]
pub struct RefNull(pub HeapType);

impl Encode for RefNull {
    ghost spelling = { λ c. (instr (ref_null_instr c.0)).bytes };

    ghost in_range = { λ c. (instr (ref_null_instr c.0)).in_range };

    ghost is_ready = { λ c. (heap_type c.0).is_covered };

    fn encode<S: Sink>(&self, out: &mut S) -> Result<(), Refusal> {
        (0xd0u8, self.0).encode(out)
    }
}
