//! Data segments and the data section.

ghost use Rattle.std.specs.Prelude.{◌&&◌, ◌+◌, length, IsTrue};
ghost use Rattle.wasm_ops.specs.Sinks.{Writes};
ghost use Rattle.wasm_ops.specs.Spelling.{InRangeU32, InRangeSized};
ghost use Rattle.wasm_out.specs.Built.{Adds};
ghost use Rattle.wasm_out.specs.BuiltData.{data_in, InRangeDataIn, is_ready_data};
ghost use Rattle.wasm_out.specs.BuiltElements.{ended};
ghost use Rattle.wasm_out.specs.DataSegments.{kept_bytes, placed_bytes};
ghost use Rattle.wasm_out.specs.Parts as parts;

use crate::builders::{ListKind, ListSection};
use crate::sections::DATA_ID;
use wasm_ops::{ConstExpr, Encode, Raw, Refusal, Sink, WithLength};
use wast_base::Error;

/// The mode of a data segment (binary format: data section).
///
/// The type parameter is the offset, because callers keep expressions in types of their own.
#[derive(Clone, Copy, Debug)]
pub enum DataMode<O> {
    /// Passive: instructions such as `memory.init` copy it.
    Passive,
    /// Active: it fills the memory at an index, from an offset on.
    Active(u32, O),
}

/// A data segment: its mode and its bytes (binary format: data section).
///
/// For example, `(data (i32.const 1) "ab")` is `00 41 01 0b 02 61 62`.
#[derive(Clone, Copy)]
pub struct DataSegment<O, B> {
    /// The mode.
    pub mode: DataMode<O>,
    /// The bytes.
    pub bytes: B,
}

impl<O: Encode, B: Encode> DataSegment<O, B> {
    /// Appends an active segment. The index of memory 0 is left out.
    fn put_active<S: Sink>(&self, memory: u32, offset: &O, out: &mut S) -> Result<(), Refusal>
        requires { IsTrue (O.is_ready offset.now && B.is_ready self.now.bytes) }
        ensures { Writes S.rules
            ((InRangeU32 memory × O.in_range offset.now) × InRangeSized B.in_range B.spelling self.now.bytes)
            out.old out.new (placed_bytes memory (O.spelling offset.now) (B.spelling self.now.bytes)) result }
    {
        let bytes = WithLength(&self.bytes);
        if memory == 0 {
            return (0x00u8, (offset, bytes)).encode(out);
        }
        (0x02u8, (memory, (offset, bytes))).encode(out)
    }
}

/// The mode determines the form. The index of memory 0 is left out.
impl<O: Encode, B: Encode> Encode for DataSegment<O, B> {
    ghost spelling = { λ s. data_in O.spelling s.mode (B.spelling s.bytes) };

    ghost in_range = { λ s. InRangeDataIn O.in_range s.mode × InRangeSized B.in_range B.spelling s.bytes };

    ghost is_ready = { λ s. is_ready_data O.is_ready s.mode && B.is_ready s.bytes };

    fn encode<S: Sink>(&self, out: &mut S) -> Result<(), Refusal> {
        match &self.mode {
            DataMode::Passive => (0x01u8, WithLength(&self.bytes)).encode(out),
            DataMode::Active(memory, offset) => self.put_active(*memory, offset, out),
        }
    }
}

/// The kind of data sections.
#[derive(Clone, Copy, Debug)]
pub struct DataSegments;

impl ListKind for DataSegments {
    ghost kind = { parts.Data };

    fn id() -> u8 {
        DATA_ID
    }
}

/// The data section (binary format: data section).
pub type DataSection = ListSection<DataSegments>;

impl DataSection {
    /// Adds a passive segment, which instructions such as `memory.init` copy.
    ///
    ///     section.passive(b"x")?;
    pub fn passive<'e>(&mut self, bytes: &[u8]) -> Result<(), Error<'e>>
        ensures { Adds (InRangeU32 (self.old.count + 1) × InRangeU32 (length bytes.now)) self.old self.new
            (kept_bytes bytes.now) result }
    {
        self.items.push(&DataSegment {
            mode: DataMode::<&ConstExpr>::Passive,
            bytes: Raw(bytes),
        })
    }

    /// Adds an active segment, which fills a memory from an offset on.
    ///
    ///     section.active(0, &offset, b"yz")?;
    pub fn active<'e>(
        &mut self,
        memory: u32,
        offset: &ConstExpr,
        bytes: &[u8],
    ) -> Result<(), Error<'e>>
        ensures { Adds (InRangeU32 (self.old.count + 1) × InRangeU32 (length bytes.now)) self.old self.new
            (placed_bytes memory (ended offset.now) bytes.now) result }
    {
        self.items.push(&DataSegment {
            mode: DataMode::Active(memory, offset),
            bytes: Raw(bytes),
        })
    }
}
