//! The state of validating a body, and what a body refers to (appendix: validation algorithm).

use crate::stack::Stack;
use crate::types::{Def, RefTy, Ty};
use wast_base::Seq;

/// The type of a block (validation: block types).
///
/// In a resolved module, a block with parameters or with more than one result has the index of a
/// function type. This is why three forms suffice.
#[derive(Clone, Copy)]
pub enum Sig {
    /// No parameters and no results.
    Empty,
    /// One result.
    One(Ty),
    /// A function type, by its index.
    Func(u32),
}

/// The instruction that opened a control frame.
#[derive(Clone, Copy)]
pub enum Kind {
    /// The body of a function, or a constant expression.
    Body,
    /// `block`
    Block,
    /// `loop`
    Loop,
    /// `if`
    If,
    /// `else`
    Else,
}

/// A control frame (appendix: validation algorithm).
#[derive(Clone, Copy)]
pub struct Frame {
    /// The instruction that opened it.
    pub kind: Kind,
    /// Its type.
    pub sig: Sig,
    /// The height of the operand stack at its start.
    pub height: usize,
    /// The number of locals in [`State::inits`] at its start.
    pub inits: usize,
    /// Whether the rest of it is unreachable.
    pub unreachable: bool,
}

/// The state of validating a body (appendix: validation algorithm).
#[derive(Drop)]
pub struct State {
    /// The operand stack.
    pub values: Stack<Ty>,
    /// The control frames.
    pub frames: Stack<Frame>,
    /// The locals without default values that have been set.
    pub inits: Stack<u32>,
}

/// The type of a global (validation: global types).
#[derive(Clone, Copy)]
pub struct Global {
    /// The type of its value.
    pub ty: Ty,
    /// Whether it is mutable.
    pub mutable: bool,
}

/// The type of a table, without its limits (validation: table types).
#[derive(Clone, Copy)]
pub struct Table {
    /// The type of its elements.
    pub elem: RefTy,
    /// Whether its indices are of type `i64`.
    pub is_64: bool,
}

/// The type of a memory, without its limits (validation: memory types).
#[derive(Clone, Copy)]
pub struct Memory {
    /// Whether its addresses are of type `i64`.
    pub is_64: bool,
}

/// What a function body refers to (validation: contexts).
#[derive(Drop)]
pub struct Context {
    /// The defined types, each by its index. References between them are canonical.
    pub types: Seq<Def>,
    /// The functions, each by the canonical index of its type.
    pub funcs: Seq<u32>,
    /// The tables.
    pub tables: Seq<Table>,
    /// The memories.
    pub memories: Seq<Memory>,
    /// The globals.
    pub globals: Seq<Global>,
    /// The element segments, each by the type of its elements.
    pub elems: Seq<RefTy>,
    /// The number of data segments.
    pub datas: usize,
    /// For each function, whether it occurs outside of function bodies, so that `ref.func` may
    /// refer to it.
    pub declared: Seq<bool>,
    /// The parameters and locals of the function.
    pub locals: Seq<Ty>,
    /// How many of the locals are parameters. Parameters are set at the start.
    pub params: usize,
}

/// Why an instruction is invalid.
#[derive(Clone, Copy)]
pub enum Cause {
    /// The instruction is outside of what the validator covers. It may be valid.
    Unsupported,
    /// The operand has another type.
    Mismatch {
        /// The type that the instruction expects.
        expected: Ty,
        /// The type of the operand.
        found: Ty,
    },
    /// An operand of this type is missing.
    Missing(Ty),
    /// An operand of any type is missing.
    MissingAny,
    /// A block ends with this many operands more than it has results.
    Surplus(usize),
    /// An operand of `select` without types is a reference.
    NotNumeric(Ty),
    /// The operands of `select` have different types.
    Different {
        /// The first operand.
        first: Ty,
        /// The second operand.
        second: Ty,
    },
    /// `select` has a number of types other than one.
    SelectTypes(usize),
    /// The operand is not a reference.
    NotReference(Ty),
    /// `else` or `end` without an open block.
    NoBlock,
    /// `else` in a block other than `if`.
    NoIf,
    /// No enclosing block has this label.
    Label(usize),
    /// A label of `br_table` has another number of types than the default label.
    Arity {
        /// The number of types of the default label.
        expected: usize,
        /// The number of types of the label.
        found: usize,
    },
    /// There is no such local.
    Local(u32),
    /// There is no such global.
    Global(u32),
    /// There is no such function.
    Function(u32),
    /// There is no such table.
    Table(u32),
    /// There is no such memory.
    Memory(u32),
    /// There is no such element segment.
    Elem(u32),
    /// There is no such data segment.
    Data(u32),
    /// There is no such type.
    Type(u32),
    /// There is no such field.
    Field(u32),
    /// The type is not a function type.
    NotFunc(u32),
    /// The type is not a struct type.
    NotStruct(u32),
    /// The local has not been set, and its type has no default value.
    Unset(u32),
    /// The global is immutable.
    Immutable(u32),
    /// `ref.func` of a function that does not occur outside of bodies.
    Undeclared(u32),
    /// The elements of the table are not functions.
    NotFuncs(u32),
    /// The elements that are copied do not match those of the table.
    Elements {
        /// The type of the table's elements.
        expected: RefTy,
        /// The type of the elements that are copied.
        found: RefTy,
    },
    /// A packed field needs `struct.get_s` or `struct.get_u`.
    Packed(u32),
    /// The results of the callee do not match those of the function.
    Results(u32),
    /// The alignment is larger than the number of bytes that are accessed.
    Align {
        /// The number of bytes that are accessed.
        natural: u64,
        /// The alignment, in bytes.
        found: u64,
    },
    /// The offset is too large for an address of the memory.
    Offset(u64),
    /// There is no such lane.
    Lane(u8),
    /// The last type of a label of `br_on_non_null` is not a reference.
    NoReference(usize),
}

/// Why checking ended.
#[derive(Clone, Copy)]
pub enum Stop {
    /// Allocation failed.
    Memory,
    /// The instruction is invalid.
    Invalid(Cause),
}

/// The types of a label, of parameters or of results. Lists are found by an index, so that nothing
/// is copied.
#[derive(Clone, Copy)]
pub enum Tys {
    /// No types.
    None_,
    /// One type.
    One(Ty),
    /// The parameters of a function type, by its index.
    Params(u32),
    /// The results of a function type, by its index.
    Results(u32),
}
