//! Names of instructions with one index or two. `tools/ops` writes this file.

/// An instruction whose one immediate is an index (binary format: instructions).
///
/// The number of a variant is its opcode. For an opcode of a prefix byte and a number it is 65536
/// times the prefix byte, plus the number: `fc 09` is `0xfc0009`.
#[derive(Clone, Copy, Debug, PartialEq, Eq)]
pub enum IndexOp {
    /// `catch`, of a tag
    Catch = 0x07,
    /// `throw`, of a tag
    Throw,
    /// `rethrow`, of a label
    Rethrow,
    /// `br`, of a label
    Br = 0x0c,
    /// `br_if`, of a label
    BrIf,
    /// `call`, of a function
    Call = 0x10,
    /// `return_call`, of a function
    ReturnCall = 0x12,
    /// `call_ref`, of a type
    CallRef = 0x14,
    /// `return_call_ref`, of a type
    ReturnCallRef,
    /// `delegate`, of a label
    Delegate = 0x18,
    /// `local.get`, of a local
    LocalGet = 0x20,
    /// `local.set`, of a local
    LocalSet,
    /// `local.tee`, of a local
    LocalTee,
    /// `global.get`, of a global
    GlobalGet,
    /// `global.set`, of a global
    GlobalSet,
    /// `table.get`, of a table
    TableGet,
    /// `table.set`, of a table
    TableSet,
    /// `memory.size`, of a memory
    MemorySize = 0x3f,
    /// `memory.grow`, of a memory
    MemoryGrow,
    /// `ref.func`, of a function
    RefFunc = 0xd2,
    /// `br_on_null`, of a label
    BrOnNull = 0xd5,
    /// `br_on_non_null`, of a label
    BrOnNonNull,
    /// `struct.new`, of a type
    StructNew = 0xfb0000,
    /// `struct.new_default`, of a type
    StructNewDefault,
    /// `array.new`, of a type
    ArrayNew = 0xfb0006,
    /// `array.new_default`, of a type
    ArrayNewDefault,
    /// `array.get`, of a type
    ArrayGet = 0xfb000b,
    /// `array.get_s`, of a type
    ArrayGetS,
    /// `array.get_u`, of a type
    ArrayGetU,
    /// `array.set`, of a type
    ArraySet,
    /// `array.fill`, of a type
    ArrayFill = 0xfb0010,
    /// `data.drop`, of a data segment
    DataDrop = 0xfc0009,
    /// `memory.fill`, of a memory
    MemoryFill = 0xfc000b,
    /// `elem.drop`, of an element segment
    ElemDrop = 0xfc000d,
    /// `table.grow`, of a table
    TableGrow = 0xfc000f,
    /// `table.size`, of a table
    TableSize,
    /// `table.fill`, of a table
    TableFill,
}

/// An instruction whose immediates are two indices, or an index and a length (binary format:
/// instructions).
///
/// The number of a variant is its opcode. For an opcode of a prefix byte and a number it is 65536
/// times the prefix byte, plus the number: `fc 09` is `0xfc0009`.
#[derive(Clone, Copy, Debug, PartialEq, Eq)]
pub enum IndexPairOp {
    /// `call_indirect`, of a type and a table
    CallIndirect = 0x11,
    /// `return_call_indirect`, of a type and a table
    ReturnCallIndirect = 0x13,
    /// `struct.get`, of a type and a field
    StructGet = 0xfb0002,
    /// `struct.get_s`, of a type and a field
    StructGetS,
    /// `struct.get_u`, of a type and a field
    StructGetU,
    /// `struct.set`, of a type and a field
    StructSet,
    /// `array.new_fixed`, of a type and a length
    ArrayNewFixed = 0xfb0008,
    /// `array.new_data`, of a type and a data segment
    ArrayNewData,
    /// `array.new_elem`, of a type and an element segment
    ArrayNewElem,
    /// `array.copy`, of a type that is written and a type that is read
    ArrayCopy = 0xfb0011,
    /// `array.init_data`, of a type and a data segment
    ArrayInitData,
    /// `array.init_elem`, of a type and an element segment
    ArrayInitElem,
    /// `memory.init`, of a data segment and a memory
    MemoryInit = 0xfc0008,
    /// `memory.copy`, of a memory that is written and a memory that is read
    MemoryCopy = 0xfc000a,
    /// `table.init`, of an element segment and a table
    TableInit = 0xfc000c,
    /// `table.copy`, of a table that is written and a table that is read
    TableCopy = 0xfc000e,
}
