//! Encodes numbers, names, types and instructions as bytes of the WebAssembly binary format.
//!
//! `wasm_out` uses it to build sections, and `wast_core` to encode a module. Callers use it to
//! write instructions and types by hand, or to define a destination of bytes ([`Sink`]).
//!
//! # Example
//!
//!     let mut sink = InstructionSink::new(out);
//!     sink.plain(Plain::Bare(BareOp::drop))?;     // 1a
//!     sink.index(IndexOp::Call, 300)?;            // 10 ac 02
//!
//! A call that writes appends the whole encoding of its value, or nothing. It fails only if the
//! bytes do not fit, or if a number, count or length is out of range. In the first case the error
//! is that of the sink: E12 for a vector, E10 for a [`Room`] or a [`Length`]. In the second case it
//! is E10.
//!
//! # Modules
//!
//! - `sink`, `room`: the destinations of bytes: a vector, a count, reserved memory, or a
//!   user-defined sink.
//! - `encode`: the trait [`Encode`], and pairs, lists, counted lists, lengths and names.
//! - `leb128`: LEB128 numbers. `pieces`: an opcode and its short numbers in one push.
//! - `types`, `ref_types`, `entities`, `blocks`: types (binary format: types).
//! - `opcodes`, `instrs`, `control`, `casts`, `vectors`, `memargs`: instructions by kinds of
//!   immediates.
//! - `instr_sink`: one method for each kind of instruction. `const_exprs`: constant expressions.
//! - `laws`: theorems, for callers who prove more: a value has one encoding, and no encoding is the
//!   beginning of another one of the same kind.
#![tactic(auto)]

mod blocks;
mod casts;
mod const_exprs;
mod control;
mod encode;
mod entities;
mod instr_sink;
mod instrs;
pub mod laws;
mod leb128;
mod memargs;
mod opcodes;
mod pieces;
mod ref_types;
mod room;
mod sink;
mod types;
mod vectors;

pub use blocks::{BlockType, Catch, Handle};
pub use casts::{BrCastInstr, BrCastOp, CastInstr, CastOp, Fence};
pub use const_exprs::ConstExpr;
pub use control::{BlockInstr, BlockOp, BrTable, Delimiter, TryTable};
pub use encode::{
    AsItself, Counted, Each, Encode, EncodeWith, EncodedBy, Name, Raw, WithLength, length_of,
    write_name,
};
pub use entities::{EntityType, GlobalType, MemoryType, TableType, TagType};
pub use instr_sink::InstructionSink;
pub use instrs::{
    F32Const, F64Const, HasOpcode, I32Const, I64Const, IndexInstr, IndexPair, MemInstr, RefNull,
    Select,
};
pub use laws::{instruction_law, signed_law, type_spelling_law, unsigned_law};
pub use leb128::{width, write_s32, write_s33, write_s64, write_u32, write_u64};
pub use memargs::{MemArg, MemArgOrdering, MemArgTarget, Ordering};
pub use opcodes::Opcode;
pub use ref_types::{AbstractHeapType, HeapType, RefType};
pub use room::Room;
pub use sink::{Length, Refusal, Sink};
pub use types::{
    ArrayType, CompositeInnerType, CompositeType, ContType, ExportKind, FieldType, FuncType,
    StorageType, StructType, SubType, ValType,
};
pub use vectors::{LaneInstr, LanesInstr, LanesOp, MemLaneInstr};
pub use wast_base::{IndexOp, IndexPairOp};
