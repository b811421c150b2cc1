//! Immediates of instructions, other than an index or a number (text format: instructions).

ghost use Rattle.std.specs.Prelude.{◌≡◌, None};
ghost use Rattle.wast_tree_nodes.specs.Tree.target;

use crate::types::{FunctionType, TypeUse, ValType};
use wast_base::{Boxed, Id, Index, NameAnnotation, Seq};

/// The label and type of a block, such as `$l (result i32)` (text format: control instructions).
///
///     let block = BlockType::new(Some(Id::new(name, at(24))), TypeUse::none());
///     maker.push_block(&mut instrs, BlockKind::Block, block);
#[derive(Debug, Drop)]
pub struct BlockType<'a> {
    /// The label, if there is one.
    pub label: Option<Id<'a>>,
    /// The name annotation of the label, if there is one.
    pub label_name: Option<NameAnnotation<'a>>,
    /// The type: the block's parameters and results.
    pub ty: TypeUse<'a, FunctionType<'a>>,
}

impl<'a> BlockType<'a> {
    /// Makes a block type of a label and a type.
    pub fn new(label: Option<Id<'a>>, ty: TypeUse<'a, FunctionType<'a>>) -> BlockType<'a>
        ensures { result ≡ record { label = label.entry; label_name = None; ty = ty.entry } }
    {
        BlockType {
            label,
            label_name: None,
            ty,
        }
    }

    /// Makes a block type without a label, parameters and results.
    ///
    ///     make.push_block(&mut body, BlockKind::If, BlockType::empty());
    pub fn empty() -> BlockType<'a>
        ensures { result ≡ record { label = None; label_name = None; ty = record { index = None; inline = None } } }
    {
        BlockType::new(None, TypeUse::none())
    }
}

/// The labels of `br_table $a $b $c` (text format: control instructions).
#[derive(Debug, Drop)]
pub struct BrTableIndices<'a> {
    /// The labels for the operands 0, 1 and so on.
    pub labels: Seq<Index<'a>>,
    /// The label for all other operands.
    pub default: Index<'a>,
}

/// The immediates of `try_table $l (catch $e $h)` (text format: control instructions).
#[derive(Debug, Drop)]
pub struct TryTable<'a> {
    /// The label and the type.
    pub block: Boxed<BlockType<'a>>,
    /// The catch clauses, in source order.
    pub catches: Seq<TryTableCatch<'a>>,
}

/// A catch clause of `try_table`, such as `(catch $e $h)` (text format: control instructions).
#[derive(Clone, Copy, Debug, PartialEq, Eq)]
pub struct TryTableCatch<'a> {
    /// Which exceptions it catches.
    pub kind: TryTableCatchKind<'a>,
    /// The label to branch to.
    pub label: Index<'a>,
}

impl<'a> TryTableCatch<'a> {
    /// Makes a catch clause, such as `(catch $e $h)`.
    pub fn new(kind: TryTableCatchKind<'a>, label: Index<'a>) -> TryTableCatch<'a>
        ensures { result ≡ record { kind = kind.entry; label = label.entry } }
    {
        TryTableCatch { kind, label }
    }
}

/// The exceptions that a catch clause of `try_table` catches (text format: control instructions).
#[derive(Clone, Copy, Debug, PartialEq, Eq)]
pub enum TryTableCatchKind<'a> {
    /// An exception of a tag: `catch $e`
    Catch(Index<'a>),
    /// An exception of a tag, with a reference to it: `catch_ref $e`
    CatchRef(Index<'a>),
    /// Any exception: `catch_all`
    CatchAll,
    /// Any exception, with a reference to it: `catch_all_ref`
    CatchAllRef,
}

/// The table of an instruction, such as `table.get $t` (text format: table instructions).
#[derive(Clone, Copy, Debug, PartialEq, Eq)]
pub struct TableArg<'a> {
    /// The table.
    pub dst: Index<'a>,
}

/// The memory of an instruction, such as `memory.size $m` (text format: memory instructions).
#[derive(Clone, Copy, Debug, PartialEq, Eq)]
pub struct MemoryArg<'a> {
    /// The memory.
    pub mem: Index<'a>,
}

/// The immediates of `memory.init $m $d` (text format: memory instructions).
#[derive(Clone, Copy, Debug, PartialEq, Eq)]
pub struct MemoryInit<'a> {
    /// The data segment that is copied.
    pub segment: Index<'a>,
    /// The memory that it is copied to.
    pub mem: Index<'a>,
}

/// The immediates of `memory.copy $to $from` (text format: memory instructions).
#[derive(Clone, Copy, Debug, PartialEq, Eq)]
pub struct MemoryCopy<'a> {
    /// The memory that is read.
    pub src: Index<'a>,
    /// The memory that it is copied to.
    pub dst: Index<'a>,
}

/// The immediates of `table.init $t $e` (text format: table instructions).
#[derive(Clone, Copy, Debug, PartialEq, Eq)]
pub struct TableInit<'a> {
    /// The table that it is copied to.
    pub table: Index<'a>,
    /// The element segment that is copied.
    pub elem: Index<'a>,
}

/// The immediates of `table.copy $to $from` (text format: table instructions).
#[derive(Clone, Copy, Debug, PartialEq, Eq)]
pub struct TableCopy<'a> {
    /// The table that is written.
    pub dst: Index<'a>,
    /// The table that is read.
    pub src: Index<'a>,
}

/// The immediates of `call_indirect $t (type $f)` (text format: control instructions).
#[derive(Debug, Drop)]
pub struct CallIndirect<'a> {
    /// The table.
    pub table: Index<'a>,
    /// The type of the function that is called.
    pub ty: TypeUse<'a, FunctionType<'a>>,
}

/// The result types of `select (result i32)` (text format: parametric instructions).
#[derive(Debug, Drop)]
pub struct SelectTypes<'a> {
    /// The types, or `None` if there is no `(result ..)`.
    pub tys: Option<Seq<ValType<'a>>>,
}

/// A memory argument, such as `$m offset=4 align=2` (text format: memory instructions).
///
/// # Example
///
///     let arg = MemArg::new(Index::Num(0, at(14)), 3, 0);
///     let mut instrs = Seq::new(alloc);
///     maker.push_instruction(&mut instrs, Instruction::Mem(MemOp::i32_load, arg));
///
/// The module of this example is not well formed, because 3 is not a power of two.
#[derive(Clone, Copy, Debug, PartialEq, Eq)]
pub struct MemArg<'a> {
    /// The alignment, in bytes; a power of two in a well-formed module.
    pub align: u64,
    /// The offset, in bytes.
    pub offset: u64,
    /// The memory or array that is accessed.
    pub target: MemArgTarget<'a>,
    /// The ordering, if there is one (threads).
    pub ordering: Option<MemArgOrdering>,
}

impl<'a> MemArg<'a> {
    /// Makes the argument of an access to a memory. Both numbers are in bytes.
    pub fn new(memory: Index<'a>, align: u64, offset: u64) -> MemArg<'a>
        ensures { result ≡ record { align = align; offset = offset; target = target.Memory memory.entry; ordering = None } }
    {
        MemArg {
            align,
            offset,
            target: MemArgTarget::Memory(memory),
            ordering: None,
        }
    }
}

/// The memory or array that a memory argument accesses (text format: memory instructions).
#[derive(Clone, Copy, Debug, PartialEq, Eq)]
pub enum MemArgTarget<'a> {
    /// A memory.
    Memory(Index<'a>),
    /// An array, by its type.
    Array(Index<'a>),
}

/// The ordering of a memory argument (threads).
#[derive(Clone, Copy, Debug, PartialEq, Eq)]
pub enum MemArgOrdering {
    /// The ordering of a load or a store.
    Op(Ordering),
    /// The ordering of a read-modify-write instruction.
    Rmw(Ordering),
}

/// The ordering of an atomic instruction (threads).
#[derive(Clone, Copy, Debug, PartialEq, Eq)]
pub enum Ordering {
    /// Sequentially consistent.
    SeqCst,
    /// Acquire and release.
    AcqRel,
}

/// An atomic access of a global, table, struct or array (shared-everything threads).
#[derive(Clone, Copy, Debug, PartialEq, Eq)]
pub struct Ordered<T> {
    /// Its ordering.
    pub ordering: Ordering,
    /// The operand that is accessed.
    pub inner: T,
}

/// A 32-bit floating-point number, as its bits (text format: floating-point).
#[derive(Clone, Copy, Debug, PartialEq, Eq)]
pub struct F32 {
    /// The bits.
    pub bits: u32,
}

/// A 64-bit floating-point number, as its bits (text format: floating-point).
#[derive(Clone, Copy, Debug, PartialEq, Eq)]
pub struct F64 {
    /// The bits.
    pub bits: u64,
}
