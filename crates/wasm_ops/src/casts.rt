//! Tests and casts of references, branches on casts, and `atomic.fence`.

ghost use Rattle.std.specs.Prelude.{◌≡◌, ◌&&◌};
ghost use Rattle.wasm_ops.specs.CastInstrs.{cast_key, cast_instr, br_cast_key, br_cast_instr, fence_instr, nullables};
ghost use Rattle.wasm_ops.specs.Memargs.{is_covered_ordering};
ghost use Rattle.wasm_ops.specs.Opcodes.{opcode_of};
ghost use Rattle.wasm_ops.specs.Spelling.{ref_type};
ghost use Rattle.wasm_ops.specs.Table.{instr};

use crate::encode::Encode;
use crate::memargs::Ordering;
use crate::opcodes::Opcode;
use crate::ref_types::RefType;
use crate::sink::{Refusal, Sink};

/// A test or a cast of a reference (binary format: reference instructions).
///
/// The number of a variant is its key in the opcode table for references that are not null. The
/// next number is the key for nullable references.
#[derive(Clone, Copy, Debug, PartialEq, Eq)]
pub enum CastOp {
    /// `ref.test`
    Test = 0xfb0014,
    /// `ref.cast`
    Cast = 0xfb0016,
}

impl CastOp {
    /// Returns the opcode, which comes before the heap type (binary format: reference
    /// instructions).
    ///
    /// It depends on whether the reference type is nullable: `ref.test (ref i31)` is `fb 14 6c`,
    /// and `ref.test (ref null i31)` is `fb 15 6c`.
    pub fn opcode(self, nullable: bool) -> Opcode
        ensures { result ≡ opcode_of (cast_key self nullable) }
    {
        Opcode::of(self as u32 + u32::from(nullable))
    }
}

/// A test or a cast of a reference to a type (binary format: reference instructions).
///
/// For example, `ref.test (ref i31)` is `fb 14 6c`.
#[derive(Clone, Copy, Debug, PartialEq, Eq)]
pub struct CastInstr {
    /// The instruction.
    pub op: CastOp,
    /// The target type.
    pub ty: RefType,
}

impl Encode for CastInstr {
    ghost spelling = { λ i. (instr (cast_instr i.op i.ty)).bytes };

    ghost in_range = { λ i. (instr (cast_instr i.op i.ty)).in_range };

    ghost is_ready = { λ i. (ref_type i.ty).is_covered };

    fn encode<S: Sink>(&self, out: &mut S) -> Result<(), Refusal> {
        (self.op.opcode(self.ty.nullable), self.ty.heap_type).encode(out)
    }
}

/// A branch on a cast (binary format: control instructions).
///
/// The number of a variant is its key in the opcode table.
#[derive(Clone, Copy, Debug, PartialEq, Eq)]
pub enum BrCastOp {
    /// `br_on_cast`
    Succeeds = 0xfb0018,
    /// `br_on_cast_fail`
    Fails,
}

impl BrCastOp {
    /// Returns the opcode, which comes before the flags (binary format: control instructions).
    pub fn opcode(self) -> Opcode
        ensures { result ≡ opcode_of (br_cast_key self) }
    {
        Opcode::of(self as u32)
    }
}

/// A branch on a cast from one type to another (binary format: control instructions).
///
/// For example, `br_on_cast 0 anyref (ref i31)` is `fb 18 01 00 6e 6c`.
#[derive(Clone, Copy, Debug, PartialEq, Eq)]
pub struct BrCastInstr {
    /// The instruction.
    pub op: BrCastOp,
    /// The label.
    pub label: u32,
    /// The type of the operand.
    pub from: RefType,
    /// The target type.
    pub to: RefType,
}

/// Returns the byte that states which of two reference types are nullable.
fn nullables(from: bool, to: bool) -> u8
    ensures { result ≡ nullables from to }
{
    u8::from(from) + 2 * u8::from(to)
}

/// A byte states which of the two types are nullable; the label and both heap types follow.
impl Encode for BrCastInstr {
    ghost spelling = { λ i. (instr (br_cast_instr i.op i.label i.from i.to)).bytes };

    ghost in_range = { λ i. (instr (br_cast_instr i.op i.label i.from i.to)).in_range };

    ghost is_ready = { λ i. (ref_type i.from).is_covered && (ref_type i.to).is_covered };

    fn encode<S: Sink>(&self, out: &mut S) -> Result<(), Refusal> {
        let flags = nullables(self.from.nullable, self.to.nullable);
        let types = (self.from.heap_type, self.to.heap_type);
        (self.op.opcode(), (flags, (self.label, types))).encode(out)
    }
}

/// The instruction `atomic.fence` with its ordering (binary format: atomic memory instructions).
///
/// The sequentially consistent fence is `fe 03 00`.
#[derive(Clone, Copy, Debug, PartialEq, Eq)]
pub struct Fence(pub Ordering);

impl Encode for Fence {
    ghost spelling = { λ f. (instr (fence_instr f.0)).bytes };

    ghost in_range = { λ f. (instr (fence_instr f.0)).in_range };

    ghost is_ready = { λ f. is_covered_ordering f.0 };

    fn encode<S: Sink>(&self, out: &mut S) -> Result<(), Refusal> {
        (0xfeu8, (3u32, self.0)).encode(out)
    }
}
