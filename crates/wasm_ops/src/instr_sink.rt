//! Writes instructions to a sink, with one method for each kind of immediates.

ghost use Rattle.std.specs.List.{list_all};
ghost use Rattle.std.specs.Option.{option_map, option_to_list};
ghost use Rattle.std.specs.Prelude.{◌≡◌, true, IsTrue};
ghost use Rattle.wasm_ops.specs.CastInstrs.{cast_instr, br_cast_instr, fence_instr};
ghost use Rattle.wasm_ops.specs.ConstantInstrs.{i32_const_instr, i64_const_instr, f32_const_instr, f64_const_instr, ref_null_instr};
ghost use Rattle.wasm_ops.specs.Control.{block_type};
ghost use Rattle.wasm_ops.specs.ControlInstrs.{block_instr, delimiter_instr, br_table_instr, try_table_instr};
ghost use Rattle.wasm_ops.specs.IndexInstrs.{index_instr, index_pair_instr};
ghost use Rattle.wasm_ops.specs.Memargs.{is_aligned, is_covered_ordering};
ghost use Rattle.wasm_ops.specs.Memargs as memargs;
ghost use Rattle.wasm_ops.specs.MemoryInstrs.{mem_instr};
ghost use Rattle.wasm_ops.specs.PlainInstrs.{plain_instr};
ghost use Rattle.wasm_ops.specs.SelectInstrs.{select_instr};
ghost use Rattle.wasm_ops.specs.Sinks.{Puts};
ghost use Rattle.wasm_ops.specs.Spelling as encodings;
ghost use Rattle.wasm_ops.specs.Spelling.{ref_type, val_type};
ghost use Rattle.wasm_ops.specs.Table.{IsInstr, instr};
ghost use Rattle.wasm_ops.specs.VectorInstrs.{lanes_instr, lane_instr, mem_lane_instr};

use crate::blocks::{BlockType, Catch};
use crate::casts::{BrCastInstr, BrCastOp, CastInstr, CastOp, Fence};
use crate::control::{BlockInstr, BlockOp, BrTable, Delimiter, TryTable};
use crate::encode::{AsItself, Counted, Encode};
use crate::instrs::{
    F32Const, F64Const, I32Const, I64Const, IndexInstr, IndexPair, MemInstr, RefNull, Select,
};
use crate::memargs::{MemArg, Ordering};
use crate::ref_types::{HeapType, RefType};
use crate::sink::{Refusal, Sink};
use crate::types::ValType;
use crate::vectors::{LaneInstr, LanesInstr, LanesOp, MemLaneInstr};
use wast_base::{Error, IndexOp, IndexPairOp, LaneOp, MemLaneOp, MemOp, Plain};

/// The instruction `select` with a slice of types, or without (binary format: parametric
/// instructions).
#[derive(Clone, Copy)]
struct TypedSelect<'a>(Option<&'a [ValType]>);

impl<'a> Encode for TypedSelect<'a> {
    ghost spelling = { λ s. (instr (select_instr (option_map (λ list. list.now) s.0))).bytes };

    ghost in_range = { λ s. (instr (select_instr (option_map (λ list. list.now) s.0))).in_range };

    ghost is_ready = { λ s. list_all (λ list. list_all (λ x. (val_type x).is_covered) list.now) (option_to_list s.0) };

    fn encode<S: Sink>(&self, out: &mut S) -> Result<(), Refusal> {
        match self.0 {
            None => Select::<u8>(None).encode(out),
            Some(list) => Select(Some(Counted(list, AsItself))).encode(out),
        }
    }
}

/// The instruction `br_table` with a slice of labels (binary format: control instructions).
#[derive(Clone, Copy)]
struct LabelTable<'a>(&'a [u32], u32);

impl<'a> Encode for LabelTable<'a> {
    ghost spelling = { λ s. (instr (br_table_instr s.0.now s.1)).bytes };

    ghost in_range = { λ s. (instr (br_table_instr s.0.now s.1)).in_range };

    ghost is_ready = { λ _. true };

    fn encode<S: Sink>(&self, out: &mut S) -> Result<(), Refusal> {
        BrTable {
            labels: Counted(self.0, AsItself),
            default: self.1,
        }
        .encode(out)
    }
}

/// The instruction `try_table` with a slice of clauses (binary format: control instructions).
#[derive(Clone, Copy)]
struct CatchTable<'a>(BlockType, &'a [Catch]);

impl<'a> Encode for CatchTable<'a> {
    ghost spelling = { λ s. (instr (try_table_instr s.0 s.1.now)).bytes };

    ghost in_range = { λ s. (instr (try_table_instr s.0 s.1.now)).in_range };

    ghost is_ready = { λ s. (block_type s.0).is_covered };

    fn encode<S: Sink>(&self, out: &mut S) -> Result<(), Refusal> {
        TryTable {
            ty: self.0,
            catches: Counted(self.1, AsItself),
        }
        .encode(out)
    }
}

/// Appends instructions to a sink (binary format: instructions).
///
/// There is one method for each kind of immediates. Each appends the encoding of one instruction,
/// or nothing.
///
/// # Example
///
///     let mut sink = InstructionSink::new(&mut bytes);
///     sink.index(IndexOp::LocalGet, 0)?;
///     sink.index(IndexOp::LocalGet, 1)?;
///     sink.plain(Plain::I32(I32Op::i32_add))?;
///     Ok(bytes)
///
/// # Errors
///
/// Each method returns the sink's error, only if the bytes do not fit. `select`, `br_table` and
/// `try_table` also return E10, only if the list has 2^32 items or more.
#[derive(Drop)]
pub struct InstructionSink<'s, S> {
    /// The sink that the instructions are appended to.
    pub out: &'s mut S,
}

impl<'s, S: Sink> InstructionSink<'s, S> {
    /// Creates a writer of instructions for a sink, and leaves the sink unchanged.
    pub fn new(out: &'s mut S) -> InstructionSink<'s, S>
        ensures same { result.out.ghost_name ≡ out.entry.ghost_name }
        ensures unchanged { result.out.now ≡ out.old }
    {
        InstructionSink { out }
    }

    /// Appends an instruction without immediates (binary format: instructions).
    ///
    ///     sink.plain(Plain::Bare(BareOp::drop))?;     // 1a
    pub fn plain<'e>(&mut self, op: Plain) -> Result<(), Error<'e>>
        ensures appended { Puts S.rules (IsInstr (plain_instr op)) self.old.out.now self.new.out.now
            (instr (plain_instr op)).bytes result }
        ensures same { self.new.out.ghost_name ≡ self.old.out.ghost_name }
    {
        Ok(op.encode(self.out)?)
    }

    /// Appends an instruction with an index (binary format: instructions).
    ///
    ///     sink.index(IndexOp::Call, 300)?;        // 10 ac 02
    pub fn index<'e>(&mut self, op: IndexOp, index: u32) -> Result<(), Error<'e>>
        ensures appended { Puts S.rules (IsInstr (index_instr op index)) self.old.out.now self.new.out.now
            (instr (index_instr op index)).bytes result }
        ensures same { self.new.out.ghost_name ≡ self.old.out.ghost_name }
    {
        Ok(IndexInstr { op, index }.encode(self.out)?)
    }

    /// Appends `i32.const` (binary format: instructions).
    ///
    ///     sink.i32_const(64)?;        // 41 c0 00
    pub fn i32_const<'e>(&mut self, value: i32) -> Result<(), Error<'e>>
        ensures appended { Puts S.rules (IsInstr (i32_const_instr value)) self.old.out.now self.new.out.now
            (instr (i32_const_instr value)).bytes result }
        ensures same { self.new.out.ghost_name ≡ self.old.out.ghost_name }
    {
        Ok(I32Const(value).encode(self.out)?)
    }

    /// Appends `i64.const` (binary format: instructions).
    ///
    ///     sink.i64_const(-1)?;        // 42 7f
    pub fn i64_const<'e>(&mut self, value: i64) -> Result<(), Error<'e>>
        ensures appended { Puts S.rules (IsInstr (i64_const_instr value)) self.old.out.now self.new.out.now
            (instr (i64_const_instr value)).bytes result }
        ensures same { self.new.out.ghost_name ≡ self.old.out.ghost_name }
    {
        Ok(I64Const(value).encode(self.out)?)
    }

    /// Appends `ref.null` (binary format: instructions).
    ///
    ///     sink.ref_null(HeapType::Concrete(64))       // d0 c0 00
    ///
    /// Test [`HeapType::is_covered`] first.
    pub fn ref_null<'e>(&mut self, heap_type: HeapType) -> Result<(), Error<'e>>
        requires { IsTrue (encodings.heap_type heap_type).is_covered }
        ensures appended { Puts S.rules (IsInstr (ref_null_instr heap_type)) self.old.out.now self.new.out.now
            (instr (ref_null_instr heap_type)).bytes result }
        ensures same { self.new.out.ghost_name ≡ self.old.out.ghost_name }
    {
        Ok(RefNull(heap_type).encode(self.out)?)
    }

    /// Appends an instruction with two indices, in this order (binary format: instructions).
    ///
    ///     sink.index_pair(IndexPairOp::MemoryCopy, 3, 4)?;        // fc 0a 03 04
    pub fn index_pair<'e>(
        &mut self,
        op: IndexPairOp,
        first: u32,
        second: u32,
    ) -> Result<(), Error<'e>>
        ensures appended { Puts S.rules (IsInstr (index_pair_instr op first second)) self.old.out.now
            self.new.out.now (instr (index_pair_instr op first second)).bytes result }
        ensures same { self.new.out.ghost_name ≡ self.old.out.ghost_name }
    {
        Ok(IndexPair { op, first, second }.encode(self.out)?)
    }

    /// Appends an instruction with a memory argument (binary format: memory instructions).
    ///
    /// For example, `i32.load offset=4` is `28 02 04`. Test [`MemArg::is_aligned`] and
    /// [`MemArg::is_covered`] first.
    pub fn mem<'e>(&mut self, op: MemOp, memarg: MemArg) -> Result<(), Error<'e>>
        requires aligned { IsTrue (is_aligned memarg) }
        requires covered { IsTrue (memargs.memarg memarg).is_covered }
        ensures appended { Puts S.rules (IsInstr (mem_instr op memarg)) self.old.out.now self.new.out.now
            (instr (mem_instr op memarg)).bytes result }
        ensures same { self.new.out.ghost_name ≡ self.old.out.ghost_name }
    {
        Ok(MemInstr { op, memarg }.encode(self.out)?)
    }

    /// Appends `f32.const`, with its bits as a number (binary format: instructions). The number 1:
    ///
    ///     sink.f32_const(1065353216)?;        // 43 00 00 80 3f
    pub fn f32_const<'e>(&mut self, bits: u32) -> Result<(), Error<'e>>
        ensures appended { Puts S.rules (IsInstr (f32_const_instr bits)) self.old.out.now self.new.out.now
            (instr (f32_const_instr bits)).bytes result }
        ensures same { self.new.out.ghost_name ≡ self.old.out.ghost_name }
    {
        Ok(F32Const(bits).encode(self.out)?)
    }

    /// Appends `f64.const`, with its bits as a number (binary format: instructions). The number 1:
    ///
    ///     sink.f64_const(4607182418800017408)?;       // 44 00 00 00 00 00 00 f0 3f
    pub fn f64_const<'e>(&mut self, bits: u64) -> Result<(), Error<'e>>
        ensures appended { Puts S.rules (IsInstr (f64_const_instr bits)) self.old.out.now self.new.out.now
            (instr (f64_const_instr bits)).bytes result }
        ensures same { self.new.out.ghost_name ≡ self.old.out.ghost_name }
    {
        Ok(F64Const(bits).encode(self.out)?)
    }

    /// Appends `select`, with types or without (binary format: parametric instructions).
    ///
    ///     sink.select(Some(&[ValType::I32, ValType::F64]))        // 1c 02 7f 7c
    ///
    /// Test [`ValType::is_covered`] first.
    pub fn select<'e>(&mut self, types: Option<&[ValType]>) -> Result<(), Error<'e>>
        requires { IsTrue (list_all (λ list. list_all (λ x. (val_type x).is_covered) list.now) (option_to_list types)) }
        ensures appended { Puts S.rules (IsInstr (select_instr (option_map (λ list. list.now) types.entry)))
            self.old.out.now self.new.out.now
            (instr (select_instr (option_map (λ list. list.now) types.entry))).bytes result }
        ensures same { self.new.out.ghost_name ≡ self.old.out.ghost_name }
    {
        Ok(TypedSelect(types).encode(self.out)?)
    }

    /// Appends an instruction that opens a block (binary format: control instructions).
    ///
    ///     sink.block(BlockOp::Block, BlockType::Result(ValType::I32))?;       // 02 7f
    ///
    /// Test [`BlockType::is_covered`] first.
    pub fn block<'e>(&mut self, op: BlockOp, ty: BlockType) -> Result<(), Error<'e>>
        requires { IsTrue (block_type ty).is_covered }
        ensures appended { Puts S.rules (IsInstr (block_instr op ty)) self.old.out.now self.new.out.now
            (instr (block_instr op ty)).bytes result }
        ensures same { self.new.out.ghost_name ≡ self.old.out.ghost_name }
    {
        Ok(BlockInstr { op, ty }.encode(self.out)?)
    }

    /// Appends `else` or `end` (binary format: control instructions).
    ///
    ///     sink.delimiter(Delimiter::Else)?;       // 05
    pub fn delimiter<'e>(&mut self, op: Delimiter) -> Result<(), Error<'e>>
        ensures appended { Puts S.rules (IsInstr (delimiter_instr op)) self.old.out.now self.new.out.now
            (instr (delimiter_instr op)).bytes result }
        ensures same { self.new.out.ghost_name ≡ self.old.out.ghost_name }
    {
        Ok(op.encode(self.out)?)
    }

    /// Appends `br_table` with its labels and its default label (binary format: control
    /// instructions).
    ///
    ///     sink.br_table(&[1, 2], 0)?;     // 0e 02 01 02 00
    pub fn br_table<'e>(&mut self, labels: &[u32], default: u32) -> Result<(), Error<'e>>
        ensures appended { Puts S.rules (IsInstr (br_table_instr labels.now default)) self.old.out.now
            self.new.out.now (instr (br_table_instr labels.now default)).bytes result }
        ensures same { self.new.out.ghost_name ≡ self.old.out.ghost_name }
    {
        Ok(LabelTable(labels, default).encode(self.out)?)
    }

    /// Appends `try_table` with its clauses (binary format: control instructions).
    ///
    /// For example, `try_table (catch_all 0)` is `1f 40 01 02 00`. Test [`BlockType::is_covered`]
    /// first.
    pub fn try_table<'e>(&mut self, ty: BlockType, catches: &[Catch]) -> Result<(), Error<'e>>
        requires { IsTrue (block_type ty).is_covered }
        ensures appended { Puts S.rules (IsInstr (try_table_instr ty catches.now)) self.old.out.now
            self.new.out.now (instr (try_table_instr ty catches.now)).bytes result }
        ensures same { self.new.out.ghost_name ≡ self.old.out.ghost_name }
    {
        Ok(CatchTable(ty, catches).encode(self.out)?)
    }

    /// Appends an instruction with sixteen bytes (binary format: vector instructions).
    ///
    /// The bytes of `v128.const` are those of the vector, the lowest first. Those of
    /// `i8x16.shuffle` are lane numbers.
    ///
    /// # Example
    ///
    ///     let lanes = [0, 1, 2, 3, 4, 5, 6, 7, 8, 9, 10, 11, 12, 13, 14, 255];
    ///     let mut sink = InstructionSink::new(out);
    ///     sink.lanes(LanesOp::Const, lanes)?;
    pub fn lanes<'e>(&mut self, op: LanesOp, lanes: [u8; 16]) -> Result<(), Error<'e>>
        ensures appended { Puts S.rules (IsInstr (lanes_instr op lanes)) self.old.out.now self.new.out.now
            (instr (lanes_instr op lanes)).bytes result }
        ensures same { self.new.out.ghost_name ≡ self.old.out.ghost_name }
    {
        Ok(LanesInstr { op, lanes }.encode(self.out)?)
    }

    /// Appends an instruction with a lane number (binary format: vector instructions).
    ///
    /// For example, `i8x16.extract_lane_s 3` is `fd 15 03`.
    pub fn lane<'e>(&mut self, op: LaneOp, lane: u8) -> Result<(), Error<'e>>
        ensures appended { Puts S.rules (IsInstr (lane_instr op lane)) self.old.out.now self.new.out.now
            (instr (lane_instr op lane)).bytes result }
        ensures same { self.new.out.ghost_name ≡ self.old.out.ghost_name }
    {
        Ok(LaneInstr { op, lane }.encode(self.out)?)
    }

    /// Appends a load or a store of a lane (binary format: vector instructions).
    ///
    /// For example, `v128.load8_lane offset=4 3` is `fd 54 00 04 03`. Test [`MemArg::is_aligned`]
    /// and [`MemArg::is_covered`] first.
    pub fn mem_lane<'e>(&mut self, op: MemLaneOp, memarg: MemArg, lane: u8) -> Result<(), Error<'e>>
        requires aligned { IsTrue (is_aligned memarg) }
        requires covered { IsTrue (memargs.memarg memarg).is_covered }
        ensures appended { Puts S.rules (IsInstr (mem_lane_instr op memarg lane)) self.old.out.now self.new.out.now
            (instr (mem_lane_instr op memarg lane)).bytes result }
        ensures same { self.new.out.ghost_name ≡ self.old.out.ghost_name }
    {
        Ok(MemLaneInstr { op, memarg, lane }.encode(self.out)?)
    }

    /// Appends `ref.test` or `ref.cast` (binary format: reference instructions).
    ///
    ///     sink.cast(CastOp::Test, reference(false, i31))?;        // fb 14 6c
    ///
    /// Test [`RefType::is_covered`] first.
    pub fn cast<'e>(&mut self, op: CastOp, ty: RefType) -> Result<(), Error<'e>>
        requires { IsTrue (ref_type ty).is_covered }
        ensures appended { Puts S.rules (IsInstr (cast_instr op ty)) self.old.out.now self.new.out.now
            (instr (cast_instr op ty)).bytes result }
        ensures same { self.new.out.ghost_name ≡ self.old.out.ghost_name }
    {
        Ok(CastInstr { op, ty }.encode(self.out)?)
    }

    /// Appends a branch on a cast from one type to another (binary format: control instructions).
    ///
    ///     let target = reference(true, HeapType::Concrete(3));
    ///     sink.br_cast(BrCastOp::Succeeds, 128, reference(false, i31), target)?;  // fb 18 02 80 01 6c 03
    ///
    /// Test [`RefType::is_covered`] first.
    pub fn br_cast<'e>(
        &mut self,
        op: BrCastOp,
        label: u32,
        from: RefType,
        to: RefType,
    ) -> Result<(), Error<'e>>
        requires from { IsTrue (ref_type from).is_covered }
        requires to { IsTrue (ref_type to).is_covered }
        ensures appended { Puts S.rules (IsInstr (br_cast_instr op label from to)) self.old.out.now self.new.out.now
            (instr (br_cast_instr op label from to)).bytes result }
        ensures same { self.new.out.ghost_name ≡ self.old.out.ghost_name }
    {
        Ok(BrCastInstr {
            op,
            label,
            from,
            to,
        }
        .encode(self.out)?)
    }

    /// Appends `atomic.fence` (binary format: atomic memory instructions).
    ///
    ///     sink.fence(Ordering::SeqCst)        // fe 03 00
    ///
    /// Test [`Ordering::is_covered`] first.
    pub fn fence<'e>(&mut self, ordering: Ordering) -> Result<(), Error<'e>>
        requires { IsTrue (is_covered_ordering ordering) }
        ensures appended { Puts S.rules (IsInstr (fence_instr ordering)) self.old.out.now self.new.out.now
            (instr (fence_instr ordering)).bytes result }
        ensures same { self.new.out.ghost_name ≡ self.old.out.ghost_name }
    {
        Ok(Fence(ordering).encode(self.out)?)
    }
}
